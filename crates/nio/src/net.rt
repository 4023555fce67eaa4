//! Nets and links.
pub use nio_checked::{ByteBuffer, CheckedNet, NetError};
pub use nio_link::{
    Change, Failed, Got, LinkError, MemoryNet, Net, NetPlan, PeerPlan, Place, Put, Role, Standing,
    StreamLink, StreamState,
};
pub use nio_mio::{MioBell, MioNet};

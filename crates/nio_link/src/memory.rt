//! A net in memory, for tests.
pub use laws::{pieces_law, write_limit_law};
pub use loose::LooseLink;
pub use memory_net::MemoryNet;
pub use plan::{NetPlan, PeerPlan};

mod finding;
mod laws;
mod link;
mod loose;
mod memory_net;
mod passing;
mod peer_no;
mod pieces;
mod plan;
mod slot;

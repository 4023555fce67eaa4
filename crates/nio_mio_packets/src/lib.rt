//! A net of packets over the system's UDP sockets, by `mio`.
//!
//! Each socket is registered when it is bound, for packets; for room to send too, while a send has found none. The
//! system tells a change of a socket once, and the net keeps what it told. A poll waits until something that is asked
//! for is kept, and then tells all that is kept of the channels that are asked for. A call that finds a socket not
//! ready takes that away.
#![tactic(auto)]

pub use net::MioPackets;

mod net;
mod side;
mod sockets;

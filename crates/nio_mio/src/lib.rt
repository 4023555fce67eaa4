//! A net of the system's sockets, over `mio`.
//!
//! Each socket is registered once, for both directions, when it is made. The system tells a change of a socket once;
//! the net keeps what it told, and a poll answers from what is kept and asked for. A call that finds a socket not ready
//! takes that away.
#![tactic(auto)]

pub use bell::MioBell;
pub use loose::LooseSocket;
pub use net::MioNet;

mod bell;
mod causes;
mod loose;
mod net;
mod socket;
mod sockets;

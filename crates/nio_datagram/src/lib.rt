//! Datagram channels: packets over a net, links that keep whether they are bound and connected, and a relay of packets.
#![tactic(auto)]

pub use link::{DatagramLink, DatagramState, Heard, PacketError};
pub use memory::{BindFailure, MemoryPackets, SendFailure};
pub use net::{Came, LONGEST, PacketNet, Place};
pub use packet::{SentPacket, log_packet};
pub use serving::{PacketServeError, PacketsServed, serve_packets};

/// A call on a channel of a net of packets failed.
pub use nio_link::Failed;

mod address;
mod direction;
mod link;
mod memory;
mod net;
mod packet;
mod relay;
mod serving;
mod watching;

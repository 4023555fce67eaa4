//! A net of packets in memory, for tests.
pub use memory_packets::{MemoryPackets, SendFailure};
pub use side::BindFailure;

mod finding;
mod memory_packets;
mod side;

//! One direction of a relayed connection: the bytes that were taken from the one end and are to be
//! written to the other. Also the plans that a proxy and a relay of packets serve, and
//! what a proxy has served.
#![tactic(auto)]

pub use direction::{CAPACITY, Direction, Want};
pub use law::{connection_law, relay_law};
pub use plan::{MOST_AT_ONCE, PacketPlan, ProxyPlan, Served};

mod direction;
mod law;
mod plan;

//! A line between two threads: one end sends messages, the other receives them. What was received is a prefix of what
//! was sent, in order.
#![tactic(auto)]

pub use laws::last_law;
pub use line::{LineIn, LineOut, open};

mod hand;
mod laws;
mod line;

//! What nets over the system's sockets keep of their channels.
#![tactic(auto)]

pub use counts::{Counts, raise};
pub use news::News;
pub use readiness::Readiness;

mod counts;
mod news;
mod readiness;

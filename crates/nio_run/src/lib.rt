//! All that the program nio does, as one call: from the words of its command line and its input to its output and its
//! status.
#![tactic(auto)]

pub use ended::Ended;
pub use program::{PROGRAM_LIMITS, run};
pub use words::workers_of;

mod ended;
mod lending;
mod many;
mod packets;
mod program;
mod proxy;
mod words;

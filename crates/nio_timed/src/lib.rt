//! Timed scripts: the calls on one asynchronous channel group whose reads and writes may have time limits, from the
//! bytes that come in to the bytes that go out.
#![tactic(auto)]

pub use call::{TimedCall, TimedLine, TimedStart};
pub use called::call_timed;
pub use reply::TimedReply;
pub use run::run_timed;
pub use script::parse_timed;

mod call;
mod called;
pub mod laws;
mod line;
mod own;
mod print;
mod reply;
mod run;
mod script;

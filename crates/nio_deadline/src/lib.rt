//! Time limits of the operations of an asynchronous channel group. A read or a write may have a limit; where that
//! passes first, the operation completes with `InterruptedByTimeout`. The moment is handed in by the caller.
#![tactic(auto)]

pub use done::{TimedDone, TimedResult};
pub use refusal::TimedError;
pub use timed::TimedCore;

mod deadlines;
mod done;
mod kinds;
pub mod laws;
mod refusal;
mod timed;

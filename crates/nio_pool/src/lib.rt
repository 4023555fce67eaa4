//! Asynchronous channel groups between threads: a group under a lock, whose workers take its completions through a
//! bounded queue and call a handler with each.
#![tactic(auto)]

pub use group::{Group, GroupError};
pub use laws::taken_once_law;
pub use moving::Moved;
pub use queue::{CompletionQueue, Handed, QueuePass};
pub use worker::{BATCH, BatchHandler, Handler, handle_waiting, work, work_in_batches};

mod alone;
mod ended;
mod group;
mod hand;
mod laws;
mod moving;
mod queue;
mod worker;

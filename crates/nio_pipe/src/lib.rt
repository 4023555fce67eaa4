//! Pipes, and reading and writing that an interrupt or a close ends.
#![tactic(auto)]

pub use answers::{PipeRead, PipeWrite};
pub use held::{CAPACITY, HeldPipe, held_pipe};
pub use making::pipe;
pub use nio_steps::{PipeError, PipeMakeError};
pub use sink::PipeSink;
pub use source::PipeSource;

mod answers;
mod checks;
mod held;
mod making;
mod sink;
mod source;

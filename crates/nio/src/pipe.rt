//! Pipes.
pub use nio_pipe::{PipeError, PipeMakeError, PipeRead, PipeSink, PipeSource, PipeWrite, pipe};

//! A table whose steps are written down as they are made, so that they can be judged.
#![tactic(auto)]

pub use recorder::{RecordError, Recorder};

mod making;
mod recorder;

//! The operations of an asynchronous channel group as calls of one thread: channels are opened,
//! operations are started, what came of them is reported, and completions are taken and finished,
//! until the group has shut down and terminated.
#![tactic(auto)]

pub use channel::{Channel, Endpoint, Link};
pub use completion::{Completion, Job};
pub use group::GroupCore;
pub use laws::{
    completion_law, numbers_law, old_names_law, rest_law, stage_law, step_law, take_law,
    terminated_law,
};
pub use limits::GroupLimits;
pub use nio_base::{Finished, GKind, OpKind, Outcome, Why};
pub use operation::{Operation, Stage};
pub use operations::Operations;
pub use refusal::{NotRunning, ReportError, StartError};

mod channel;
mod completion;
mod flight;
mod group;
mod index;
mod laws;
mod limits;
mod operation;
mod operations;
mod pending;
mod refusal;
mod refuse;

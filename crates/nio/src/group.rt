//! Asynchronous channel groups: in one thread, and between threads.
pub use nio_base::{GChan, Gate, NoGate, OpNo};
pub use nio_group::{
    Completion, Finished, GKind, GroupCore, GroupLimits, Job, NotRunning, OpKind, Operation,
    Outcome, ReportError, Stage, StartError, Why,
};
pub use nio_pool::{
    BATCH, BatchHandler, CompletionQueue, Group, GroupError, Handed, Handler, Moved, QueuePass,
    handle_waiting, work, work_in_batches,
};

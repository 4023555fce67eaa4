//! What a group with time limits hands out.
use nio_base::{Finished, GChan, OpKind, OpNo};

/// What came of an operation that may have had a time limit.
#[derive(Clone, Copy, Debug, PartialEq, Eq, Hash)]
pub enum TimedResult {
    /// The group's result.
    Core(Finished),
    /// Its limit passed first: Java's `InterruptedByTimeoutException`.
    InterruptedByTimeout,
}

/// An operation that has completed, for its handler.
#[derive(Debug, PartialEq, Eq, Drop)]
pub struct TimedDone {
    /// The number of the operation.
    pub op: OpNo,
    /// The channel that the operation is on.
    pub chan: GChan,
    /// What the operation does.
    pub kind: OpKind,
    /// What came of the operation.
    pub result: TimedResult,
}

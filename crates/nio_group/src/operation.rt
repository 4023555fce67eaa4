//! Operations in flight, and how far each has come.
use nio_base::{Finished, GChan, OpKind};

/// How far an operation in flight has come.
#[derive(Clone, Copy, Debug, PartialEq, Eq, Hash)]
pub enum Stage {
    /// Nothing has been reported of it.
    Pending,
    /// Its completion waits in the queue, with this result.
    Queued(Finished),
    /// Its completion was taken, and its handler runs.
    Running,
}

/// An operation in flight.
#[derive(Clone, Copy, Debug, PartialEq, Eq, Hash)]
pub struct Operation {
    /// The channel that it was asked of.
    pub chan: GChan,
    /// An accept, a connect, a read or a write.
    pub kind: OpKind,
    /// How many bytes it reads or writes at most.
    pub len: u64,
    /// How far it has come.
    pub stage: Stage,
}

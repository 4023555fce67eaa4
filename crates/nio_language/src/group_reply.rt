//! The replies that calls on the group alone have. What calls on channels reply too, such as `ok` and
//! `closed-channel`, is a variant of `Reply`.
use nio_base::{Finished, GChan, OpNo};

/// A reply that calls on the group alone have.
#[derive(Clone, Copy, Debug, PartialEq, Eq)]
pub enum GroupReply {
    /// `gN`, `gN.M`: the channel that was opened.
    Channel(GChan),
    /// `op N`: the operation that was started.
    Op(OpNo),
    /// `op N` and a result: the completion that was taken.
    Completed(OpNo, Finished),
    /// The group is shut down.
    ShutdownGroup,
    /// The channel isn't of the kind for this operation.
    WrongKind,
    /// The listener is bound already.
    AlreadyBound,
    /// The stream is connected already.
    AlreadyConnected,
    /// A connect of the stream is pending.
    ConnectionPending,
    /// The stream isn't connected.
    NotYetConnected,
    /// The listener isn't bound.
    NotYetBound,
    /// A read of the stream is pending.
    ReadPending,
    /// A write of the stream is pending.
    WritePending,
    /// An accept of the listener is pending.
    AcceptPending,
    /// No number is left for an operation.
    OpsSpent,
    /// As many operations are in flight as the group has room for.
    FlightFull,
    /// The operation isn't pending.
    NotPending,
    /// The operation can't have this outcome.
    WrongOutcome,
    /// The operation isn't running.
    NotRunning,
}

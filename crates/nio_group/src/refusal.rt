//! Why a call of a group is refused.
use thiserror::Error;

/// Why a channel isn't opened or bound, or an operation isn't started.
#[derive(Clone, Copy, Debug, PartialEq, Eq, Error)]
pub enum StartError {
    /// The group has been shut down, or has terminated.
    #[error("the group has been shut down")]
    ShutdownGroup,
    /// The channel's kind doesn't have this call.
    #[error("a channel of this kind doesn't have this call")]
    WrongKind,
    /// The channel is closed.
    #[error("the channel is closed")]
    ClosedChannel,
    /// The listener is bound.
    #[error("the listener is bound already")]
    AlreadyBound,
    /// The stream is connected.
    #[error("the stream is connected already")]
    AlreadyConnected,
    /// The stream is connecting.
    #[error("the stream is connecting")]
    ConnectionPending,
    /// The stream isn't connected.
    #[error("the stream isn't connected yet")]
    NotYetConnected,
    /// The listener isn't bound.
    #[error("the listener isn't bound yet")]
    NotYetBound,
    /// A read of the channel is pending.
    #[error("a read of the channel is pending")]
    ReadPending,
    /// A write of the channel is pending.
    #[error("a write of the channel is pending")]
    WritePending,
    /// An accept of the channel is pending.
    #[error("an accept of the channel is pending")]
    AcceptPending,
    /// The group has accepted as many operations as it may.
    #[error("the group has accepted as many operations as it may")]
    OpsSpent,
    /// As many operations are in flight as may be.
    #[error("as many operations are in flight as may be")]
    FlightFull,
    /// Each number was given to a channel, and none of this kind comes back now.
    #[error("no number is left for another channel")]
    ChannelsSpent,
}

/// Why a report is refused.
#[derive(Clone, Copy, Debug, PartialEq, Eq, Error)]
pub enum ReportError {
    /// The operation isn't pending.
    #[error("the operation isn't pending")]
    NotPending,
    /// An operation of this kind and length has no such outcome.
    #[error("the operation has no such outcome")]
    WrongOutcome,
}

/// The operation's handler isn't running.
#[derive(Clone, Copy, Debug, PartialEq, Eq, Error)]
#[error("the operation's handler isn't running")]
pub struct NotRunning;

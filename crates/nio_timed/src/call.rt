//! The calls of timed scripts.
use nio_base::{CallerNo, GChan, OpKind};
use nio_language::GroupCall;

/// The arguments of `start-timed G KIND LEN NOW LIMIT`: an operation that reads or writes up to `len` bytes, started at
/// the moment `now`. Where it is pending `limit` milliseconds later, it may time out; a limit of 0 is none.
#[derive(Clone, Copy, Debug, PartialEq, Eq)]
pub struct TimedStart {
    /// The channel that the operation is on.
    pub chan: GChan,
    /// What the operation does.
    pub kind: OpKind,
    /// How many bytes it reads or writes at most.
    pub len: u64,
    /// The moment, in milliseconds from where the script likes.
    pub now: u64,
    /// The limit, in milliseconds.
    pub limit: u64,
}

/// A call of a timed script.
#[derive(Clone, Copy, Debug, PartialEq, Eq)]
pub enum TimedCall {
    /// A call on the group that scripts have too. A `start` has no time limit.
    Group(GroupCall),
    /// `start-timed G KIND LEN NOW LIMIT`: starts an operation that may have a time limit.
    StartTimed(TimedStart),
    /// `expire NOW`: times out each pending operation whose deadline is at most NOW.
    Expire(u64),
    /// `next`: asks for the least deadline of a pending operation.
    Next,
}

/// A line of a timed script that isn't blank. One group serves all callers.
#[derive(Clone, Copy, Debug, PartialEq, Eq)]
pub struct TimedLine {
    /// Whose line it is.
    pub caller: CallerNo,
    /// What it calls.
    pub call: TimedCall,
}

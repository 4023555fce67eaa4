//! The calls of a script on its group of asynchronous channels: one variant for each call word, its
//! arguments in the order of the line.
ghost use Rattle.std.specs.Prelude.{◌↔◌, IsTrue};

use nio_base::{GChan, GKind, OpKind, OpNo, Outcome};

/// A call on the group as a line of a script gives it.
#[derive(Clone, Copy, Debug, PartialEq, Eq)]
pub enum GroupCall {
    /// `gopen KIND`: opens a channel of the group.
    Gopen(GKind),
    /// `gbind G`: binds a listener.
    Gbind(GChan),
    /// `start G KIND LEN`: starts an operation, which reads or writes up to LEN bytes.
    Start(GChan, OpKind, u64),
    /// `report N OUTCOME`: reports what came of a pending operation.
    Report(OpNo, Outcome),
    /// `take`: takes the completion at the front of the queue.
    Take,
    /// `done N`: the handler of a running operation has ended.
    Done(OpNo),
    /// `gclose G`: closes a channel of the group.
    Gclose(GChan),
    /// `shutdown`: opens no more channels.
    Shutdown,
    /// `shutdown-now`: shuts down, and closes every channel of the group.
    ShutdownNow,
    /// `is-shutdown`: whether the group is shut down.
    IsShutdown,
    /// `terminated`: whether the group is shut down, its channels are closed and no handler is to run.
    Terminated,
}

impl GroupCall {
    ghost use Rattle.nio_language.specs.GroupCalls.{IsLaterGroupCall};

    /// Whether the call came later than the first rules: no line named a channel of the group with a serial then.
    pub fn is_later(self) -> bool
        ensures { IsTrue result ↔ IsLaterGroupCall self }
    {
        match self {
            GroupCall::Gopen(..)
            | GroupCall::Report(..)
            | GroupCall::Take
            | GroupCall::Done(..)
            | GroupCall::Shutdown
            | GroupCall::ShutdownNow
            | GroupCall::IsShutdown
            | GroupCall::Terminated => false,
            GroupCall::Gbind(chan) | GroupCall::Start(chan, _, _) | GroupCall::Gclose(chan) =>
                chan.serial != 0,
        }
    }
}

//! The words of calls on the group.
ghost use Rattle.std.specs.Prelude.{◌≡◌};
ghost use Rattle.nio_language.specs.GroupCalls.{group_word, group_word_text};

use crate::group_call::GroupCall;

/// A call on the group without its arguments.
#[derive(Clone, Copy)]
pub enum GroupWord {
    Gopen,
    Gbind,
    Start,
    Report,
    Take,
    Done,
    Gclose,
    Shutdown,
    ShutdownNow,
    IsShutdown,
    Terminated,
}

impl GroupWord {
    /// The word of a call.
    pub fn of(call: &GroupCall) -> GroupWord
        ensures { result ≡ group_word call.now }
    {
        match call {
            GroupCall::Gopen(..) => GroupWord::Gopen,
            GroupCall::Gbind(..) => GroupWord::Gbind,
            GroupCall::Start(..) => GroupWord::Start,
            GroupCall::Report(..) => GroupWord::Report,
            GroupCall::Take => GroupWord::Take,
            GroupCall::Done(..) => GroupWord::Done,
            GroupCall::Gclose(..) => GroupWord::Gclose,
            GroupCall::Shutdown => GroupWord::Shutdown,
            GroupCall::ShutdownNow => GroupWord::ShutdownNow,
            GroupCall::IsShutdown => GroupWord::IsShutdown,
            GroupCall::Terminated => GroupWord::Terminated,
        }
    }

    /// The word, as it stands in a line.
    pub fn text(self) -> &'static [u8]
        ensures { result.now ≡ group_word_text self }
    {
        match self {
            GroupWord::Gopen => b"gopen",
            GroupWord::Gbind => b"gbind",
            GroupWord::Start => b"start",
            GroupWord::Report => b"report",
            GroupWord::Take => b"take",
            GroupWord::Done => b"done",
            GroupWord::Gclose => b"gclose",
            GroupWord::Shutdown => b"shutdown",
            GroupWord::ShutdownNow => b"shutdown-now",
            GroupWord::IsShutdown => b"is-shutdown",
            GroupWord::Terminated => b"terminated",
        }
    }
}

//! What the call of a line names, and what a race does with its line.
ghost use Rattle.std.specs.Prelude.{◌≡◌};
ghost use Rattle.nio_language.specs.WordRows.{word_row};

use crate::call::Call;
use nio_base::{CallerNo, ChanId, KeyId, SelNo};

/// What a line names, which has to be there before its call is made.
#[derive(Clone, Copy, Debug)]
pub enum LineName {
    /// A caller: its number is below the limit.
    Caller(CallerNo),
    /// A selector.
    Selector(SelNo),
    /// A channel.
    Channel(ChanId),
    /// A key of a selector; the selector is looked up before it.
    Key(SelNo, KeyId),
}

/// The names of a line, in the order in which they are looked up.
#[derive(Clone, Copy, Debug)]
pub enum LineNames {
    /// None at all.
    None,
    /// One.
    One(LineName),
    /// One, and then another.
    Two(LineName, LineName),
}

impl Call {
    /// What the call names. The channels of a group aren't the table's: a call on the group names nothing.
    pub fn names(&self) -> LineNames
        ensures { result ≡ (word_row self.now).names }
    {
        match self {
            Call::Selector | Call::Channel(_) | Call::Interrupted | Call::Group(_) =>
                LineNames::None,
            Call::Interrupt(caller) | Call::Pipe(caller) => LineNames::One(LineName::Caller(
                *caller,
            )),
            Call::Begin(sel, _)
            | Call::Told(sel, _, _)
            | Call::Failed(sel)
            | Call::Wakeup(sel)
            | Call::Close(sel)
            | Call::CloseEnd(sel)
            | Call::Keys(sel)
            | Call::Selected(sel) => LineNames::One(LineName::Selector(*sel)),
            Call::Blocking(chan, _)
            | Call::IsBlocking(chan)
            | Call::IsOpen(chan)
            | Call::IsRegistered(chan)
            | Call::Closec(chan)
            | Call::Pwrite(chan, _)
            | Call::Pread(chan, _) => LineNames::One(LineName::Channel(*chan)),
            Call::Valid(sel, key)
            | Call::Interest(sel, key)
            | Call::Ready(sel, key)
            | Call::Iset(sel, key, _)
            | Call::Ior(sel, key, _)
            | Call::Iand(sel, key, _)
            | Call::Cancel(sel, key)
            | Call::Unselect(sel, key)
            | Call::Attach(sel, key, _)
            | Call::Attachment(sel, key) => LineNames::One(LineName::Key(*sel, *key)),
            Call::KeyFor(chan, sel) => LineNames::Two(
                LineName::Channel(*chan),
                LineName::Selector(*sel),
            ),
            Call::Register(sel, chan, _, _) => {
                LineNames::Two(LineName::Selector(*sel), LineName::Channel(*chan))
            }
        }
    }

    /// Whether the call waits for a hold: where another caller has it, a race makes the line again.
    pub fn waits_for_hold(&self) -> bool
        ensures { result ≡ (word_row self.now).waits_for_hold }
    {
        match self {
            Call::Blocking(..) | Call::Register(..) => true,
            Call::Selector
            | Call::Channel(..)
            | Call::IsBlocking(..)
            | Call::IsOpen(..)
            | Call::IsRegistered(..)
            | Call::KeyFor(..)
            | Call::Closec(..)
            | Call::Valid(..)
            | Call::Interest(..)
            | Call::Ready(..)
            | Call::Iset(..)
            | Call::Ior(..)
            | Call::Iand(..)
            | Call::Cancel(..)
            | Call::Unselect(..)
            | Call::Attach(..)
            | Call::Attachment(..)
            | Call::Begin(..)
            | Call::Told(..)
            | Call::Failed(..)
            | Call::Wakeup(..)
            | Call::Close(..)
            | Call::CloseEnd(..)
            | Call::Keys(..)
            | Call::Selected(..)
            | Call::Interrupt(..)
            | Call::Interrupted
            | Call::Pipe(..)
            | Call::Pwrite(..)
            | Call::Pread(..)
            | Call::Group(..) => false,
        }
    }

    /// Whether the call may end the wait of a caller that blocks.
    pub fn wakes(&self) -> bool
        ensures { result ≡ (word_row self.now).wakes }
    {
        match self {
            Call::Wakeup(..) | Call::Close(..) | Call::Interrupt(..) => true,
            Call::Selector
            | Call::Channel(..)
            | Call::Blocking(..)
            | Call::IsBlocking(..)
            | Call::IsOpen(..)
            | Call::IsRegistered(..)
            | Call::KeyFor(..)
            | Call::Register(..)
            | Call::Closec(..)
            | Call::Valid(..)
            | Call::Interest(..)
            | Call::Ready(..)
            | Call::Iset(..)
            | Call::Ior(..)
            | Call::Iand(..)
            | Call::Cancel(..)
            | Call::Unselect(..)
            | Call::Attach(..)
            | Call::Attachment(..)
            | Call::Begin(..)
            | Call::Told(..)
            | Call::Failed(..)
            | Call::CloseEnd(..)
            | Call::Keys(..)
            | Call::Selected(..)
            | Call::Interrupted
            | Call::Pipe(..)
            | Call::Pwrite(..)
            | Call::Pread(..)
            | Call::Group(..) => false,
        }
    }

    /// Whether the call may stand behind `go`.
    pub fn may_race(&self) -> bool
        ensures { result ≡ (word_row self.now).may_race }
    {
        match self {
            Call::Selector | Call::Channel(..) | Call::Pipe(..) | Call::Group(..) => false,
            Call::Blocking(..)
            | Call::IsBlocking(..)
            | Call::IsOpen(..)
            | Call::IsRegistered(..)
            | Call::KeyFor(..)
            | Call::Register(..)
            | Call::Closec(..)
            | Call::Valid(..)
            | Call::Interest(..)
            | Call::Ready(..)
            | Call::Iset(..)
            | Call::Ior(..)
            | Call::Iand(..)
            | Call::Cancel(..)
            | Call::Unselect(..)
            | Call::Attach(..)
            | Call::Attachment(..)
            | Call::Begin(..)
            | Call::Told(..)
            | Call::Failed(..)
            | Call::Wakeup(..)
            | Call::Close(..)
            | Call::CloseEnd(..)
            | Call::Keys(..)
            | Call::Selected(..)
            | Call::Interrupt(..)
            | Call::Interrupted
            | Call::Pwrite(..)
            | Call::Pread(..) => true,
        }
    }
}

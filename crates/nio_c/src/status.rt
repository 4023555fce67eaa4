//! Statuses: what an export answers.
ghost use Rattle.std.specs.Prelude.{◌≡◌};
ghost use Rattle.nio_c.specs.Statuses.{begin_refusal, call_refusal, channel_refusal, code};
ghost use Rattle.nio_c.specs.Statuses.{key_refusal, list_refusal, reopen_refusal, selecting_refusal, spent_refusal};
ghost use Rattle.nio_c.specs.Statuses.{split_refusal, status_found, take_back_refusal};

use crate::leaving::TakeBackError;
use nio_caller::{CallError, NotSelecting, SplitError};
use nio_steps::{BeginError, ChannelError, KeyError, ListError, ReopenError, SelectorsSpent};

/// What an export answers. `nio.h` says of each what it means.
#[derive(Clone, Copy, Debug)]
pub enum Status {
    Done = 0,
    Again = 1,
    EmptyHandle = 2,
    FullHandle = 3,
    NoMemory = 4,
    NoRoom = 5,
    IllegalArgument = 6,
    NotHeld = 7,
    NoSuchSelector = 8,
    NoSuchChannel = 9,
    NoSuchKey = 10,
    NoSuchCaller = 11,
    Busy = 12,
    Spent = 13,
    IllegalOps = 14,
    ClosedChannel = 15,
    IllegalBlockingMode = 16,
    CancelledKey = 17,
    ClosedSelector = 18,
    SelectorFull = 19,
    NotSelecting = 20,
    NotClosing = 21,
    Lost = 22,
    Open = 23,
    SerialsSpent = 24,
    Registered = 25,
}

impl Status {
    /// Its number.
    pub fn code(self) -> u32
        ensures { result ≡ code self }
    {
        self as u32
    }
}

// What a call refuses, as a status.
pub(crate) trait Refusal {
    ghost use Rattle.nio_c.specs.declared.status.Status.{Status};

    ghost refusal: { Self → Status };

    fn status(self) -> Status
        ensures { result ≡ refusal self };
}

impl Refusal for KeyError {
    ghost refusal = { key_refusal };

    fn status(self) -> Status {
        match self {
            KeyError::CancelledKey => Status::CancelledKey,
            KeyError::IllegalOps => Status::IllegalOps,
        }
    }
}

impl Refusal for ChannelError {
    ghost refusal = { channel_refusal };

    fn status(self) -> Status {
        match self {
            ChannelError::ChannelsSpent => Status::Spent,
            ChannelError::IllegalOps => Status::IllegalOps,
            ChannelError::ClosedChannel => Status::ClosedChannel,
            ChannelError::Busy => Status::Busy,
            ChannelError::IllegalBlockingMode => Status::IllegalBlockingMode,
            ChannelError::CancelledKey => Status::CancelledKey,
            ChannelError::ClosedSelector => Status::ClosedSelector,
            ChannelError::Full => Status::SelectorFull,
        }
    }
}

impl Refusal for ReopenError {
    ghost refusal = { reopen_refusal };

    fn status(self) -> Status {
        match self {
            ReopenError::Lost => Status::Lost,
            ReopenError::Open => Status::Open,
            ReopenError::SerialsSpent => Status::SerialsSpent,
            ReopenError::Busy => Status::Busy,
            ReopenError::Registered => Status::Registered,
        }
    }
}

impl Refusal for SelectorsSpent {
    ghost refusal = { spent_refusal };

    fn status(self) -> Status {
        Status::Spent
    }
}

impl Refusal for NotSelecting {
    ghost refusal = { selecting_refusal };

    fn status(self) -> Status {
        Status::NotSelecting
    }
}

impl Refusal for SplitError {
    ghost refusal = { split_refusal };

    fn status(self) -> Status {
        match self {
            SplitError::NotHeld => Status::NotHeld,
            SplitError::NoHandle => Status::NoMemory,
        }
    }
}

impl Refusal for TakeBackError {
    ghost refusal = { take_back_refusal };

    fn status(self) -> Status {
        match self {
            TakeBackError::NoneLeft => Status::Spent,
            TakeBackError::Memory => Status::NoMemory,
        }
    }
}

impl Refusal for BeginError {
    ghost refusal = { begin_refusal };

    fn status(self) -> Status {
        match self {
            BeginError::ClosedSelector => Status::ClosedSelector,
            BeginError::Busy => Status::Busy,
            BeginError::Memory => Status::NoMemory,
        }
    }
}

impl Refusal for ListError {
    ghost refusal = { list_refusal };

    fn status(self) -> Status {
        match self {
            ListError::ClosedSelector => Status::ClosedSelector,
            ListError::Memory => Status::NoMemory,
        }
    }
}

impl<E: Refusal> Refusal for CallError<E> {
    ghost refusal = { call_refusal E.refusal };

    fn status(self) -> Status {
        match self {
            CallError::NoSuchSelector => Status::NoSuchSelector,
            CallError::NoSuchChannel => Status::NoSuchChannel,
            CallError::NoSuchKey => Status::NoSuchKey,
            CallError::Refused(error) => error.status(),
        }
    }
}

// The status of a call that says whether it found what was named.
pub(crate) fn found(is_there: bool, missing: Status) -> Status
    ensures { result ≡ status_found missing is_there }
{
    if is_there { Status::Done } else { missing }
}

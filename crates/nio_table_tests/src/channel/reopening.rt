//! Numbers of closed channels that are given to new ones: by opening and by reopening, with each refusal; a closed
//! channel's name beside the name of the channel that has its number then; and 1,000,000 channels at a table of sixteen.
ghost use Rattle.nio_channel.specs.Idle.{AreIdle};

use crate::calls::{Call, NOTHING, OnChannel, OnKey, Reply, answer, follow};
use crate::tables::{C0, C0_AGAIN, C1, S, table};
use nio_base::{ChanId, ChanNo, KeyNo, Kind, Limits};
use nio_channel::{ChannelError, ReopenError};
use nio_history::Why;
use nio_select::Mode;
use nio_words::{Pass, Words};
use std::alloc::Global;
use std::test::Fail;

const SMALL: Limits = Limits {
    callers: 2,
    selectors: 1,
    channels: 2,
    keys: 1,
};

const KEY: KeyNo = KeyNo {
    sel: S,
    index: 0,
    serial: 0,
};

/// The third channel of the first number, which is never opened here.
const C0_THIRD: ChanId = ChanId {
    number: ChanNo(0),
    serial: 2,
};

const SPENT: Reply = Reply::OpenedChannel(Err(ChannelError::ChannelsSpent));

const AFTER_THE_LAST_NUMBER: &[(Call, Reply)] = &[
    (Call::OpenStreams(2), Reply::Mode(Ok(()))),
    (
        Call::OnChannel(C0, OnChannel::Register(1, 5)),
        Reply::Registered(Ok(KEY)),
    ),
    (Call::OnChannel(C0, OnChannel::Close), Reply::Flag(true)),
    // its key is in a key set until the next selection
    (Call::OpenChannel(Kind::Stream), SPENT),
    (
        Call::Select(Mode::Now, NOTHING, false),
        Reply::Done(0, Why::Now),
    ),
    // a number keeps its kind
    (Call::OpenChannel(Kind::Source), SPENT),
    (
        Call::OpenChannel(Kind::Stream),
        Reply::OpenedChannel(Ok(C0_AGAIN)),
    ),
    (Call::OpenChannel(Kind::Stream), SPENT),
];

#[test]
fn a_number_comes_back_after_the_last(rt: HostRuntime) -> Result<(), Fail> {
    follow(&rt, SMALL, AFTER_THE_LAST_NUMBER)
}

/// (`SerialsSpent` takes 4,294,967,295 reopenings.)
const REOPENS: &[(Call, Reply)] = &[
    (Call::OpenStreams(2), Reply::Mode(Ok(()))),
    (
        Call::OnChannel(C0, OnChannel::Register(1, 5)),
        Reply::Registered(Ok(KEY)),
    ),
    (
        Call::OnChannel(C0, OnChannel::Reopen),
        Reply::Reopened(Err(ReopenError::Open)),
    ),
    (Call::OnChannel(C0, OnChannel::Close), Reply::Flag(true)),
    (
        Call::OnChannel(C0, OnChannel::Reopen),
        Reply::Reopened(Err(ReopenError::Registered)),
    ),
    (
        Call::Select(Mode::Now, NOTHING, false),
        Reply::Done(0, Why::Now),
    ),
    (
        Call::OnChannel(C0, OnChannel::Reopen),
        Reply::Reopened(Ok(C0_AGAIN)),
    ),
    (
        Call::OnChannel(C0, OnChannel::Reopen),
        Reply::Reopened(Err(ReopenError::Lost)),
    ),
    (
        Call::OnChannel(C0_AGAIN, OnChannel::Reopen),
        Reply::Reopened(Err(ReopenError::Open)),
    ),
    (Call::OnChannel(C1, OnChannel::Close), Reply::Flag(true)),
    (Call::OnChannel(C1, OnChannel::Hold), Reply::Nothing),
    (
        Call::OnChannel(C1, OnChannel::Reopen),
        Reply::Reopened(Err(ReopenError::Busy)),
    ),
];

#[test]
fn a_channel_is_reopened(rt: HostRuntime) -> Result<(), Fail> {
    follow(&rt, SMALL, REOPENS)
}

/// Each call by the closed channel's name, and by the name of the one that has its number.
const BY_BOTH_NAMES: &[(Call, Reply)] = &[
    (Call::OpenStreams(1), Reply::Mode(Ok(()))),
    (Call::OnChannel(C0, OnChannel::Close), Reply::Flag(true)),
    (
        Call::OnChannel(C0, OnChannel::Reopen),
        Reply::Reopened(Ok(C0_AGAIN)),
    ),
    (Call::FindChannel(C0), Reply::Channel(Some(C0))),
    (Call::FindChannel(C0_AGAIN), Reply::Channel(Some(C0_AGAIN))),
    (Call::FindChannel(C0_THIRD), Reply::Channel(None)),
    (Call::OnChannel(C0, OnChannel::IsOpen), Reply::Flag(false)),
    (
        Call::OnChannel(C0_AGAIN, OnChannel::IsOpen),
        Reply::Flag(true),
    ),
    (
        Call::OnChannel(C0, OnChannel::IsBlocking),
        Reply::Flag(false),
    ),
    (
        Call::OnChannel(C0, OnChannel::SetBlocking(false)),
        Reply::Mode(Err(ChannelError::ClosedChannel)),
    ),
    (
        Call::OnChannel(C0_AGAIN, OnChannel::IsBlocking),
        Reply::Flag(true),
    ),
    (
        Call::OnChannel(C0_AGAIN, OnChannel::SetBlocking(false)),
        Reply::Mode(Ok(())),
    ),
    (
        Call::OnChannel(C0, OnChannel::Register(16, 5)),
        Reply::Registered(Err(ChannelError::IllegalOps)),
    ),
    (
        Call::OnChannel(C0, OnChannel::Register(1, 5)),
        Reply::Registered(Err(ChannelError::ClosedChannel)),
    ),
    (
        Call::OnChannel(C0_AGAIN, OnChannel::IsRegistered),
        Reply::Flag(false),
    ),
    (
        Call::OnChannel(C0_AGAIN, OnChannel::Register(1, 5)),
        Reply::Registered(Ok(KEY)),
    ),
    (
        Call::OnChannel(C0, OnChannel::IsRegistered),
        Reply::Flag(false),
    ),
    (
        Call::OnChannel(C0_AGAIN, OnChannel::IsRegistered),
        Reply::Flag(true),
    ),
    (Call::OnChannel(C0, OnChannel::KeyFor), Reply::Key(None)),
    (
        Call::OnChannel(C0_AGAIN, OnChannel::KeyFor),
        Reply::Key(Some(KEY)),
    ),
    (Call::OnChannel(C0, OnChannel::Close), Reply::Flag(false)),
    (
        Call::OnChannel(C0_AGAIN, OnChannel::IsOpen),
        Reply::Flag(true),
    ),
    (Call::OnKey(0, 0, OnKey::IsValid), Reply::Flag(true)),
    (
        Call::OnChannel(C0_AGAIN, OnChannel::Close),
        Reply::Flag(true),
    ),
    (Call::OnKey(0, 0, OnKey::IsValid), Reply::Flag(false)),
];

#[test]
fn a_closed_channel_is_not_the_next_one(rt: HostRuntime) -> Result<(), Fail> {
    follow(&rt, SMALL, BY_BOTH_NAMES)
}

const SIXTEEN: Limits = Limits {
    callers: 2,
    selectors: 1,
    channels: 16,
    keys: 1,
};

/// How often all sixteen are opened and closed: 1,000,000 channels.
const ROUNDS: u32 = 62_500;

/// Opens a channel of each number and then closes all of them, where each has this serial. Says whether each has.
fn opens_and_closes(alloc: Global, w: &Words, p: &mut Pass, serial: u32) -> bool
    requires { AreIdle w.now p.old }
    ensures { AreIdle w.now p.new }
{
    for number in 0..SIXTEEN.channels {
        let chan = ChanId {
            number: ChanNo(number),
            serial,
        };
        if answer(alloc, w, p, Call::OpenChannel(Kind::Stream)) != Reply::OpenedChannel(Ok(chan)) {
            return false;
        }
    }
    for number in 0..SIXTEEN.channels {
        let chan = ChanId {
            number: ChanNo(number),
            serial,
        };
        if answer(alloc, w, p, Call::OnChannel(chan, OnChannel::Close)) != Reply::Flag(true) {
            return false;
        }
    }
    true
}

#[test]
fn a_table_does_not_wear_out(rt: HostRuntime) -> Result<(), Fail> {
    let (words, mut p) = table(rt.alloc(), SIXTEEN)?;
    for serial in 0..ROUNDS {
        assert!(rt; opens_and_closes(rt.alloc(), &words, &mut p, serial));
    }
    Ok(())
}

//! Each call on a channel with its answer and with each refusal; an index that is given to a second key; the largest
//! table; calls that wait for the hold of a channel; and two threads that register and close one channel.
ghost use Rattle.std.specs.Prelude.{IsTrue};
ghost use Rattle.nio_channel.specs.Held.{HoldsChannel};
ghost use Rattle.nio_history.specs.Conditions.{IsKey};
ghost use Rattle.nio_history.specs.PassViews.{HasChannel};
ghost use Rattle.nio_words.specs.Passes.{IsReady, limits_of};
ghost use Rattle.nio_words.specs.Views.{view};
ghost use Rattle.nio_table_tests.specs.Callers.{MayCall};

use crate::calls::{Call, NOTHING, OnChannel, OnKey, Reply, follow, open_stream, opened};
use crate::tables::{C0, C1, ONE, S, ZERO, hand_over, is_invalid, table};
use nio_base::{CallerNo, ChanId, ChanNo, KeyNo, Kind, Limits, Ops};
use nio_channel::{ChannelError, close_channel, register, set_blocking, try_register};
use nio_history::Why;
use nio_keys::cancel;
use nio_select::Mode;
use nio_words::{Pass, Words};
use std::sync::Wait;
use std::test::Fail;
use std::thread::{Threads, join};

mod reopening;

const SMALL: Limits = Limits {
    callers: 2,
    selectors: 1,
    channels: 2,
    keys: 1,
};

const LARGEST: Limits = Limits {
    callers: 2,
    selectors: 1,
    channels: 262_144,
    keys: 262_144,
};

/// The first key of the only index, and the second.
const FIRST: KeyNo = KeyNo {
    sel: S,
    index: 0,
    serial: 0,
};

const SECOND: KeyNo = KeyNo {
    sel: S,
    index: 0,
    serial: 1,
};

/// The last channel of the largest table, and one beyond it.
const LAST: ChanId = ChanId {
    number: ChanNo(262_143),
    serial: 0,
};

const BEYOND: ChanId = ChanId {
    number: ChanNo(262_144),
    serial: 0,
};

const ON_A_CHANNEL: &[(Call, Reply)] = &[
    (
        Call::OpenChannel(Kind::Source),
        Reply::OpenedChannel(Ok(C0)),
    ),
    (Call::OpenChannel(Kind::Sink), Reply::OpenedChannel(Ok(C1))),
    (
        Call::OpenChannel(Kind::Source),
        Reply::OpenedChannel(Err(ChannelError::ChannelsSpent)),
    ),
    (Call::OnChannel(C0, OnChannel::IsOpen), Reply::Flag(true)),
    (
        Call::OnChannel(C0, OnChannel::IsBlocking),
        Reply::Flag(true),
    ),
    (
        Call::OnChannel(C0, OnChannel::Register(1, 5)),
        Reply::Registered(Err(ChannelError::IllegalBlockingMode)),
    ),
    (
        Call::OnChannel(C0, OnChannel::Register(4, 5)),
        Reply::Registered(Err(ChannelError::IllegalOps)),
    ),
    (
        Call::OnChannel(C0, OnChannel::SetBlocking(false)),
        Reply::Mode(Ok(())),
    ),
    (
        Call::OnChannel(C0, OnChannel::IsBlocking),
        Reply::Flag(false),
    ),
    (
        Call::OnChannel(C0, OnChannel::IsRegistered),
        Reply::Flag(false),
    ),
    (Call::OnChannel(C0, OnChannel::KeyFor), Reply::Key(None)),
    (
        Call::OnChannel(C0, OnChannel::Register(1, 5)),
        Reply::Registered(Ok(FIRST)),
    ),
    (
        Call::OnChannel(C0, OnChannel::Register(0, 0)),
        Reply::Registered(Ok(FIRST)),
    ),
    (
        Call::OnChannel(C0, OnChannel::IsRegistered),
        Reply::Flag(true),
    ),
    (
        Call::OnChannel(C0, OnChannel::KeyFor),
        Reply::Key(Some(FIRST)),
    ),
    (
        Call::OnChannel(C0, OnChannel::SetBlocking(true)),
        Reply::Mode(Err(ChannelError::IllegalBlockingMode)),
    ),
    (
        Call::OnChannel(C1, OnChannel::SetBlocking(false)),
        Reply::Mode(Ok(())),
    ),
    (
        Call::OnChannel(C1, OnChannel::Register(4, 0)),
        Reply::Registered(Err(ChannelError::Full)),
    ),
    (
        Call::OnChannel(C1, OnChannel::SetBlocking(true)),
        Reply::Mode(Ok(())),
    ),
    (
        Call::OnChannel(C1, OnChannel::SetBlocking(false)),
        Reply::Mode(Ok(())),
    ),
    (Call::Shut, Reply::Flag(false)),
    (
        Call::OnChannel(C1, OnChannel::Register(4, 0)),
        Reply::Registered(Err(ChannelError::ClosedSelector)),
    ),
    (
        Call::OnChannel(C0, OnChannel::Register(1, 0)),
        Reply::Registered(Err(ChannelError::ClosedSelector)),
    ),
    (Call::OnKey(0, 0, OnKey::Cancel), Reply::Nothing),
    (
        Call::OnChannel(C0, OnChannel::Register(1, 0)),
        Reply::Registered(Err(ChannelError::CancelledKey)),
    ),
    (Call::OnChannel(C0, OnChannel::Close), Reply::Flag(true)),
    (Call::OnChannel(C0, OnChannel::Close), Reply::Flag(false)),
    (Call::OnChannel(C0, OnChannel::IsOpen), Reply::Flag(false)),
    (
        Call::OnChannel(C0, OnChannel::IsRegistered),
        Reply::Flag(true),
    ),
    (
        Call::OnChannel(C0, OnChannel::KeyFor),
        Reply::Key(Some(FIRST)),
    ),
    (
        Call::OnChannel(C0, OnChannel::Register(1, 0)),
        Reply::Registered(Err(ChannelError::ClosedChannel)),
    ),
    (
        Call::OnChannel(C0, OnChannel::SetBlocking(true)),
        Reply::Mode(Err(ChannelError::ClosedChannel)),
    ),
    (Call::OnChannel(C1, OnChannel::Hold), Reply::Nothing),
    (
        Call::OnChannel(C1, OnChannel::Register(4, 0)),
        Reply::Registered(Err(ChannelError::Busy)),
    ),
    (
        Call::OnChannel(C1, OnChannel::SetBlocking(true)),
        Reply::Mode(Err(ChannelError::Busy)),
    ),
    (Call::OnChannel(C1, OnChannel::Close), Reply::Flag(true)),
];

/// A selection removes the first key. Its index isn't given again while the other caller has a pin on it.
const ON_AN_INDEX: &[(Call, Reply)] = &[
    (Call::OpenStreams(2), Reply::Mode(Ok(()))),
    (
        Call::OnChannel(C0, OnChannel::Register(1, 5)),
        Reply::Registered(Ok(FIRST)),
    ),
    (Call::OnKey(0, 0, OnKey::Cancel), Reply::Nothing),
    (
        Call::Select(Mode::Now, NOTHING, false),
        Reply::Done(0, Why::Now),
    ),
    (
        Call::OnKey(0, 0, OnKey::RegisterBesidePin(C1)),
        Reply::Registered(Err(ChannelError::Full)),
    ),
    (
        Call::OnChannel(C1, OnChannel::Register(1, 5)),
        Reply::Registered(Ok(SECOND)),
    ),
];

const ON_THE_LARGEST: &[(Call, Reply)] = &[
    (Call::OpenStreams(262_144), Reply::Mode(Ok(()))),
    (
        Call::OpenChannel(Kind::Source),
        Reply::OpenedChannel(Err(ChannelError::ChannelsSpent)),
    ),
    (
        Call::OnChannel(LAST, OnChannel::Register(1, 5)),
        Reply::Registered(Ok(FIRST)),
    ),
    (Call::FindChannel(BEYOND), Reply::Channel(None)),
];

#[test]
fn calls_on_a_channel(rt: HostRuntime) -> Result<(), Fail> {
    follow(&rt, SMALL, ON_A_CHANNEL)
}

#[test]
fn an_index_is_given_to_a_second_key(rt: HostRuntime) -> Result<(), Fail> {
    follow(&rt, SMALL, ON_AN_INDEX)
}

#[test]
fn largest_table(rt: HostRuntime) -> Result<(), Fail> {
    follow(&rt, LARGEST, ON_THE_LARGEST)
}

/// The other caller takes the hold of the channel. Says whether nobody had it.
fn holds(w: &Words, p: &mut Pass, chan: ChanId) -> bool
    requires may { MayCall w.now p.old ONE }
    requires channel { HasChannel (view w.now p.old) chan }
    ensures { IsTrue result → HoldsChannel w.now p.new ONE chan.number }
{
    w.try_hold_bit(p, ONE, chan.number).is_none()
}

/// The other caller gives the hold back.
fn gives_back(w: &Words, mut p: Pass, chan: ChanId) -> Pass
    requires { HoldsChannel w.now p ONE chan.number }
    ensures { IsReady w.now result ONE }
{
    w.release(&mut p, ONE, chan.number);
    p
}

/// Makes the channel non-blocking and registers it, as soon as nobody else has the hold.
fn waits_and_registers<R: Wait>(
    rt: &R,
    w: &Words,
    mut p: Pass,
    chan: ChanId,
) -> (Result<(), ChannelError>, Result<KeyNo, ChannelError>)
    requires may { MayCall w.now p ZERO }
    requires channel { HasChannel (view w.now p) chan }
{
    let mode = set_blocking(rt, w, &mut p, ZERO, chan, false);
    let key = register(rt, w, &mut p, ZERO, S, chan, Ops::READ, 0);
    (mode, key)
}

/// The first caller waits for the hold of the channel, which the other gives back in a second thread.
fn waits_beside<R: Threads + Wait + Sync>(
    rt: &R,
    w: &Words,
    p: Pass,
    q: Pass,
    chan: ChanId,
) -> (Result<(), ChannelError>, Result<KeyNo, ChannelError>)
    requires may { MayCall w.now p ZERO }
    requires channel { HasChannel (view w.now p) chan }
    requires holds { HoldsChannel w.now q ONE chan.number }
{
    let (answers, _q) = join(
        rt,
        || -> (Result<(), ChannelError>, Result<KeyNo, ChannelError>)
            requires { MayCall w.now p ZERO × HasChannel (view w.now p) chan }
        { waits_and_registers(rt, w, p, chan) },
        || -> Pass
            requires { HoldsChannel w.now q ONE chan.number }
            ensures { IsReady w.entry.now result ONE }
        { gives_back(w, q, chan) },
    );
    answers
}

#[test]
fn calls_wait_for_the_hold(rt: HostRuntime) -> Result<(), Fail> {
    let (words, mut p) = table(rt.alloc(), SMALL)?;
    let chan = opened(&words, &mut p, Kind::Source)?;
    let mut q = hand_over(&words, &mut p)?;
    assert!(rt; holds(&words, &mut q, chan));
    let (mode, registered) = waits_beside(&rt, &words, p, q, chan);
    assert!(rt; mode == Ok(()));
    assert!(rt; registered == Ok(FIRST));
    Ok(())
}

/// Registers the channel and cancels its key.
fn registers_and_cancels(w: &Words, p: &mut Pass, me: CallerNo, chan: ChanId)
    requires may { MayCall w.now p.old me }
    requires channel { HasChannel (view w.now p.old) chan }
    ensures may { MayCall w.now p.new me }
    ensures channel { HasChannel (view w.now p.new) chan }
{
    if let Ok(key) = try_register(w, p, me, S, chan, Ops::READ, 0) {
        cancel(w, p, me, key);
    }
}

/// Registers the channel, cancels its key and closes it. Says whether this closed it.
pub(crate) fn registers_and_closes(
    w: &Words,
    mut p: Pass,
    me: CallerNo,
    chan: ChanId,
) -> (Pass, bool)
    requires may { MayCall w.now p me }
    requires channel { HasChannel (view w.now p) chan }
    ensures { IsReady w.now result.0 me }
{
    registers_and_cancels(w, &mut p, me, chan);
    let closed = close_channel(w, &mut p, me, chan);
    (p, closed)
}

/// Both callers do so in threads of their own. Says what each did, and whether the key is invalid then.
fn both_close<R: Threads + Sync>(
    rt: &R,
    w: &Words,
    p: Pass,
    q: Pass,
    chan: ChanId,
) -> (bool, bool, bool)
    requires first { MayCall w.now p ZERO × HasChannel (view w.now p) chan }
    requires second { MayCall w.now q ONE × HasChannel (view w.now q) chan }
    requires key { IsKey (limits_of w.now) S 0 }
{
    let ((p, first), (q, second)) = join(
        rt,
        || -> (Pass, bool)
            requires { MayCall w.now p ZERO × HasChannel (view w.now p) chan }
            ensures { IsReady w.entry.now result.0 ZERO }
        { registers_and_closes(w, p, ZERO, chan) },
        || -> (Pass, bool)
            requires { MayCall w.now q ONE × HasChannel (view w.now q) chan }
            ensures { IsReady w.entry.now result.0 ONE }
        { registers_and_closes(w, q, ONE, chan) },
    );
    (first, second, is_invalid(w, p, q))
}

#[test]
fn two_threads_register_and_close(rt: HostRuntime) -> Result<(), Fail> {
    let (words, mut p) = table(rt.alloc(), SMALL)?;
    let chan = open_stream(&words, &mut p)?;
    let q = hand_over(&words, &mut p)?;
    let (first, second, invalid) = both_close(&rt, &words, p, q, chan);
    assert!(rt; first != second, "one of them closed the channel");
    assert!(rt; invalid);
    Ok(())
}

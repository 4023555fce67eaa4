//! Whole selections: what they ask and mark, why they end, and whose turn it is; selections on a table without a
//! channel; keys that are cancelled before a selection and during one; closing beside one; and two threads, one of
//! which selects.
ghost use Rattle.std.specs.Prelude.{IfSome};
ghost use Rattle.nio_channel.specs.Idle.{AreIdle, zero, one};
ghost use Rattle.nio_history.specs.Conditions.{IsKey};
ghost use Rattle.nio_history.specs.PassViews.{HasChannel, HasSelector};
ghost use Rattle.nio_select.specs.InHand.{selection_of};
ghost use Rattle.nio_select.specs.InProgress.{Selects, HasShut};
ghost use Rattle.nio_steps.specs.SelectCalls.{Selection};
ghost use Rattle.nio_words.specs.Passes.{IsReady, limits_of};
ghost use Rattle.nio_words.specs.Views.{view};
ghost use Rattle.nio_table_tests.specs.Callers.{MayCall};

use crate::calls::{
    Call, NOTHING, OnChannel, OnKey, Reply, answer, asked, follow, is_told, open_stream, told,
};
use crate::channel::registers_and_closes;
use crate::tables::{C0, C1, C2, ONE, S, ZERO, hand_over, is_invalid, table};
use nio_base::{ChanId, ChanNo, KeyNo, Limits, Ops};
use nio_channel::{ChannelError, try_register};
use nio_history::{Milliseconds, Why};
use nio_keys::{KeyError, cancel};
use nio_select::{
    After, BeginError, Closing, Finish, ListError, Mode, Selecting, Shutting, Told, shut, try_begin,
};
use nio_words::{Pass, Words};
use std::alloc::Global;
use std::test::Fail;
use std::thread::{Threads, join};

const SMALL: Limits = Limits {
    callers: 2,
    selectors: 1,
    channels: 3,
    keys: 3,
};

/// A table where no channel is made.
const BARE: Limits = Limits {
    callers: 2,
    selectors: 1,
    channels: 1,
    keys: 1,
};

/// The first keys of the three indexes, and the second key of the middle one.
const FIRST: KeyNo = KeyNo {
    sel: S,
    index: 0,
    serial: 0,
};

const MIDDLE: KeyNo = KeyNo {
    sel: S,
    index: 1,
    serial: 0,
};

const LAST: KeyNo = KeyNo {
    sel: S,
    index: 2,
    serial: 0,
};

const MIDDLE_AGAIN: KeyNo = KeyNo {
    sel: S,
    index: 1,
    serial: 1,
};

const MARKS: &[(Call, Reply)] = &[
    (Call::OpenStreams(3), Reply::Mode(Ok(()))),
    (Call::Begin, Reply::Asked(0, None)),
    (
        Call::OnChannel(C2, OnChannel::Register(5, 0)),
        Reply::Registered(Ok(FIRST)),
    ),
    (Call::Begin, Reply::Asked(1, Some((0, ChanNo(2), 5, 0)))),
    (
        Call::Select(Mode::Now, ((0, 1), (9, 5), (0, 8)), false),
        Reply::Done(1, Why::Ready),
    ),
    (Call::OnKey(0, 0, OnKey::Ready), Reply::Operations(Ok(1))),
    (
        Call::Select(Mode::Now, ((0, 1), (9, 5), (0, 24)), false),
        Reply::Done(0, Why::Now),
    ),
    (
        Call::Select(Mode::Wait, ((0, 16), (0, 4), (0, 1)), false),
        Reply::Done(1, Why::Ready),
    ),
    (Call::OnKey(0, 0, OnKey::Ready), Reply::Operations(Ok(5))),
    (Call::SelectedKeys, Reply::Listed(Ok((1, Some(FIRST))))),
    (Call::OnKey(0, 0, OnKey::Unselect), Reply::Flag(true)),
    (Call::SelectedKeys, Reply::Listed(Ok((0, None)))),
    (
        Call::Select(Mode::Now, ((0, 4), (0, 4), (9, 1)), false),
        Reply::Done(1, Why::Ready),
    ),
    (Call::OnKey(0, 0, OnKey::Ready), Reply::Operations(Ok(4))),
];

#[test]
fn what_selections_mark(rt: HostRuntime) -> Result<(), Fail> {
    follow(&rt, SMALL, MARKS)
}

const REMOVES_CANCELLED: &[(Call, Reply)] = &[
    (Call::OpenStreams(3), Reply::Mode(Ok(()))),
    (
        Call::OnChannel(C0, OnChannel::Register(5, 0)),
        Reply::Registered(Ok(FIRST)),
    ),
    (
        Call::OnChannel(C1, OnChannel::Register(5, 0)),
        Reply::Registered(Ok(MIDDLE)),
    ),
    (
        Call::OnChannel(C2, OnChannel::Register(5, 0)),
        Reply::Registered(Ok(LAST)),
    ),
    (Call::OnKey(1, 0, OnKey::Cancel), Reply::Nothing),
    (Call::Keys, Reply::Listed(Ok((3, Some(LAST))))),
    (
        Call::OnChannel(C1, OnChannel::Register(5, 0)),
        Reply::Registered(Err(ChannelError::CancelledKey)),
    ),
    (
        Call::Select(Mode::Now, NOTHING, false),
        Reply::Done(0, Why::Now),
    ),
    (
        Call::Select(Mode::Now, NOTHING, false),
        Reply::Done(0, Why::Now),
    ),
    (Call::Keys, Reply::Listed(Ok((2, Some(LAST))))),
    (Call::Begin, Reply::Asked(2, Some((2, ChanNo(2), 5, 0)))),
    (
        Call::OnChannel(C1, OnChannel::Register(5, 0)),
        Reply::Registered(Ok(MIDDLE_AGAIN)),
    ),
    (Call::Keys, Reply::Listed(Ok((3, Some(LAST))))),
    (
        Call::OnKey(1, 0, OnKey::Ready),
        Reply::Operations(Err(KeyError::CancelledKey)),
    ),
];

#[test]
fn a_cancelled_key_is_removed(rt: HostRuntime) -> Result<(), Fail> {
    follow(&rt, SMALL, REMOVES_CANCELLED)
}

/// A selection that waits for at most 5 milliseconds.
const TIMED: Mode = Mode::For(Milliseconds { after_the_first: 4 });

const ENDS: &[(Call, Reply)] = &[
    (Call::OpenStreams(3), Reply::Mode(Ok(()))),
    (
        Call::OnChannel(C0, OnChannel::Register(5, 0)),
        Reply::Registered(Ok(FIRST)),
    ),
    (Call::Select(Mode::Wait, NOTHING, true), Reply::Again),
    (Call::Wake, Reply::Flag(false)),
    (Call::Wake, Reply::Flag(true)),
    (Call::Begin, Reply::Asked(1, Some((0, ChanNo(0), 5, 0)))),
    (
        Call::Select(Mode::Wait, NOTHING, true),
        Reply::Done(0, Why::Woken),
    ),
    (Call::Select(Mode::Wait, NOTHING, true), Reply::Again),
    (Call::Interrupt, Reply::Flag(false)),
    (
        Call::Select(Mode::Wait, NOTHING, true),
        Reply::Done(0, Why::Interrupted),
    ),
    (Call::TakeInterrupt, Reply::Flag(true)),
    (Call::Select(TIMED, NOTHING, false), Reply::Again),
    (
        Call::Select(TIMED, NOTHING, true),
        Reply::Done(0, Why::Elapsed),
    ),
];

#[test]
fn why_selections_end(rt: HostRuntime) -> Result<(), Fail> {
    follow(&rt, SMALL, ENDS)
}

/// The other caller begins a selection and leaves it.
fn begins_beside(alloc: Global, w: &Words, p: &mut Pass) -> Reply
    requires { AreIdle w.now p.old }
    ensures idle { AreIdle w.now p.new }
    ensures selecting { (selection : Selection) → Selects (view w.now p.old) zero selection
        → Selects (view w.now p.new) zero selection }
{
    match try_begin(alloc, w, p, ONE, S, Mode::Now) {
        Ok(selection) => {
            selection.leave(w, p, ONE);
            Reply::Nothing
        }
        Err(error) => Reply::NotBegun(error),
    }
}

/// The other caller begins to close the selector.
fn shuts(w: &Words, p: &mut Pass) -> Option<Closing>
    requires { AreIdle w.now p.old }
    ensures idle { AreIdle w.now p.new }
    ensures selecting { (selection : Selection) → Selects (view w.now p.old) zero selection
        → Selects (view w.now p.new) zero selection }
    ensures closing { IfSome result (HasShut (view w.now p.new) one) }
{
    match shut(w, p, ONE, S) {
        Shutting::Closing(closing) => Some(closing),
        Shutting::AlreadyClosed => None,
    }
}

/// The other caller tries to finish its closing, where one is in progress.
fn finishes(w: &Words, p: &mut Pass, closing: Option<Closing>) -> Option<Closing>
    requires idle { AreIdle w.now p.old }
    requires closing { IfSome closing (HasShut (view w.now p.old) one) }
    ensures idle { AreIdle w.now p.new }
    ensures selecting { (selection : Selection) → Selects (view w.now p.old) zero selection
        → Selects (view w.now p.new) zero selection }
    ensures closing { IfSome result (HasShut (view w.now p.new) one) }
{
    let Some(closing) = closing else {
        return None;
    };
    match closing.try_finish(w, p, ONE) {
        Finish::Busy(closing) => Some(closing),
        Finish::Closed => None,
    }
}

/// Whether a closing is in progress. It is let go.
fn is_in_progress(closing: Option<Closing>) -> bool {
    match closing {
        Some(closing) => {
            closing.forget();
            true
        }
        None => false,
    }
}

/// A selection that is told this after the other caller tried to begin one and to close the selector: what the other's
/// beginning answers, whether its closing is in progress before the telling, what the telling answers, and whether the
/// closing is in progress after it.
fn is_told_beside(
    alloc: Global,
    w: &Words,
    p: &mut Pass,
    selection: Selecting,
    told: &Told,
) -> (Reply, bool, Reply, bool)
    requires idle { AreIdle w.now p.old }
    requires begun { Selects (view w.now p.old) zero (selection_of selection) }
    ensures { AreIdle w.now p.new }
{
    let busy = begins_beside(alloc, w, p);
    let closing = shuts(w, p);
    let closing = finishes(w, p, closing);
    let waits = closing.is_some();
    let ended = is_told(w, p, selection, told);
    let closing = finishes(w, p, closing);
    (busy, waits, ended, is_in_progress(closing))
}

/// A selection of the first caller beside which the other closes the selector.
fn closes_beside(alloc: Global, w: &Words, p: &mut Pass) -> Option<(Reply, bool, Reply, bool)>
    requires { AreIdle w.now p.old }
    ensures { AreIdle w.now p.new }
{
    let told = told(alloc, NOTHING, false).ok()?;
    match try_begin(alloc, w, p, ZERO, S, Mode::Wait) {
        Ok(selection) => Some(is_told_beside(alloc, w, p, selection, &told)),
        Err(_) => None,
    }
}

#[test]
fn a_selector_is_closed(rt: HostRuntime) -> Result<(), Fail> {
    let (words, mut p) = table(rt.alloc(), SMALL)?;
    assert!(rt;
        closes_beside(rt.alloc(), &words, &mut p)
            == Some((BUSY, true, Reply::Done(0, Why::Closed), false))
    );
    let closed = Reply::Listed(Err(ListError::ClosedSelector));
    for (call, reply) in [
        (Call::Keys, closed),
        (Call::SelectedKeys, closed),
        (Call::Begin, Reply::NotBegun(BeginError::ClosedSelector)),
    ] {
        assert!(rt; answer(rt.alloc(), &words, &mut p, call) == reply);
    }
    Ok(())
}

/// The other caller registers the channel and cancels its key.
fn cancels_beside(w: &Words, p: &mut Pass, chan: ChanId) -> Reply
    requires idle { AreIdle w.now p.old }
    requires channel { HasChannel (view w.now p.old) chan }
    ensures idle { AreIdle w.now p.new }
    ensures selecting { (selection : Selection) → Selects (view w.now p.old) zero selection
        → Selects (view w.now p.new) zero selection }
{
    match try_register(w, p, ONE, S, chan, Ops::READ, 0) {
        Ok(key) => {
            cancel(w, p, ONE, key);
            Reply::Registered(Ok(key))
        }
        Err(error) => Reply::Registered(Err(error)),
    }
}

/// A selection of the first caller beside which the other does so: what the registration answers, and the selection.
fn removes_beside(alloc: Global, w: &Words, p: &mut Pass, chan: ChanId) -> Option<(Reply, Reply)>
    requires idle { AreIdle w.now p.old }
    requires channel { HasChannel (view w.now p.old) chan }
    ensures { AreIdle w.now p.new }
{
    let told = told(alloc, NOTHING, false).ok()?;
    match try_begin(alloc, w, p, ZERO, S, Mode::Now) {
        Ok(selection) => {
            let registered = cancels_beside(w, p, chan);
            Some((registered, is_told(w, p, selection, &told)))
        }
        Err(_) => None,
    }
}

#[test]
fn a_key_cancelled_meanwhile_is_removed(rt: HostRuntime) -> Result<(), Fail> {
    let (words, mut p) = table(rt.alloc(), SMALL)?;
    let chan = open_stream(&words, &mut p)?;
    assert!(rt;
        removes_beside(rt.alloc(), &words, &mut p, chan)
            == Some((Reply::Registered(Ok(FIRST)), Reply::Done(0, Why::Now)))
    );
    let left = answer(rt.alloc(), &words, &mut p, Call::Keys);
    assert!(rt; left == Reply::Listed(Ok((0, None))));
    Ok(())
}

const NONE_ASKED: Reply = Reply::Asked(0, None);

const BUSY: Reply = Reply::NotBegun(BeginError::Busy);

/// A selection that is told nothing after the other caller tried to begin one: what is asked, what the other's
/// beginning answers, and what the telling answers.
fn selects_beside(alloc: Global, w: &Words, p: &mut Pass, mode: Mode) -> [Reply; 3]
    requires { AreIdle w.now p.old }
    ensures { AreIdle w.now p.new }
{
    let told = Told {
        pairs: Vec::new(alloc),
        elapsed: false,
    };
    match try_begin(alloc, w, p, ZERO, S, mode) {
        Ok(selection) => {
            let asks = asked(selection.asked());
            let busy = begins_beside(alloc, w, p);
            [asks, busy, is_told(w, p, selection, &told)]
        }
        Err(error) => [Reply::NotBegun(error), Reply::Missing, Reply::Missing],
    }
}

/// A selection with Now, and two with Wait, the first of them after a wakeup.
fn selects_thrice(alloc: Global, w: &Words, p: &mut Pass) -> [[Reply; 3]; 3]
    requires { AreIdle w.now p.old }
    ensures { AreIdle w.now p.new }
{
    let now = selects_beside(alloc, w, p, Mode::Now);
    answer(alloc, w, p, Call::Wake);
    let woken = selects_beside(alloc, w, p, Mode::Wait);
    let waits = selects_beside(alloc, w, p, Mode::Wait);
    [now, woken, waits]
}

#[test]
fn selection_on_a_bare_table(rt: HostRuntime) -> Result<(), Fail> {
    let (words, mut p) = table(rt.alloc(), BARE)?;
    assert!(rt;
        selects_thrice(rt.alloc(), &words, &mut p)
            == [
                [NONE_ASKED, BUSY, Reply::Done(0, Why::Now)],
                [NONE_ASKED, BUSY, Reply::Done(0, Why::Woken)],
                [NONE_ASKED, BUSY, Reply::Again],
            ]
    );
    for (call, reply) in [
        (Call::Begin, NONE_ASKED),
        (Call::Keys, Reply::Listed(Ok((0, None)))),
    ] {
        assert!(rt; answer(rt.alloc(), &words, &mut p, call) == reply);
    }
    Ok(())
}

/// How often a thread selects.
const ROUNDS: u32 = 20;

/// Selects in rounds.
fn selects_in_rounds(alloc: Global, w: &Words, mut p: Pass) -> Pass
    requires { MayCall w.now p ZERO }
    ensures { IsReady w.now result ZERO }
{
    for _ in 0..ROUNDS {
        selects_once(alloc, w, &mut p);
    }
    p
}

/// A selection that is told nothing and then, where it goes on, that all keys are ready. Says whether it ended.
fn selects_once(alloc: Global, w: &Words, p: &mut Pass) -> bool
    requires ready { IsReady w.now p.old ZERO }
    requires selector { HasSelector (view w.now p.old) S }
    ensures ready { IsReady w.now p.new ZERO }
    ensures selector { HasSelector (view w.now p.new) S }
{
    let nothing = told(alloc, NOTHING, false);
    let all = told(alloc, ((0, 5), (1, 5), (2, 5)), false);
    let (Ok(nothing), Ok(all)) = (nothing, all) else {
        return false;
    };
    selects_twice(alloc, w, p, &nothing, &all)
}

/// A selection that is told the one and then, where it goes on, the other. Says whether it ended.
fn selects_twice(alloc: Global, w: &Words, p: &mut Pass, first: &Told, second: &Told) -> bool
    requires ready { IsReady w.now p.old ZERO }
    requires selector { HasSelector (view w.now p.old) S }
    ensures ready { IsReady w.now p.new ZERO }
    ensures selector { HasSelector (view w.now p.new) S }
{
    let Ok(selection) = try_begin(alloc, w, p, ZERO, S, Mode::Wait) else {
        return false;
    };
    match selection.told(w, p, ZERO, first) {
        After::Done(_answer, _list) => true,
        After::Again(selection) => ends(w, p, selection, second),
    }
}

/// Tells the selection this. Says whether that ended it.
fn ends(w: &Words, p: &mut Pass, selection: Selecting, told: &Told) -> bool
    requires ready { IsReady w.now p.old ZERO }
    requires selector { HasSelector (view w.now p.old) S }
    requires begun { Selects (view w.now p.old) zero (selection_of selection) }
    ensures ready { IsReady w.now p.new ZERO }
    ensures selector { HasSelector (view w.now p.new) S }
{
    match selection.told(w, p, ZERO, told) {
        After::Done(_answer, _list) => true,
        After::Again(selection) => {
            selection.leave(w, p, ZERO);
            false
        }
    }
}

/// Wakes the selector, registers the channel, cancels its key and closes the channel. Says whether this closed it.
fn wakes_and_closes(w: &Words, mut p: Pass, chan: ChanId) -> (Pass, bool)
    requires may { MayCall w.now p ONE }
    requires channel { HasChannel (view w.now p) chan }
    ensures { IsReady w.now result.0 ONE }
{
    w.wake(&mut p, ONE, S);
    registers_and_closes(w, p, ONE, chan)
}

/// The first caller selects in rounds, while the other does this in a second thread. Says whether that closed the
/// channel, and whether its key is invalid then.
fn select_beside<R: Threads + Sync>(
    rt: &R,
    alloc: Global,
    w: &Words,
    p: Pass,
    q: Pass,
    chan: ChanId,
) -> (bool, bool)
    requires first { MayCall w.now p ZERO }
    requires second { MayCall w.now q ONE × HasChannel (view w.now q) chan }
    requires key { IsKey (limits_of w.now) S 0 }
{
    let (p, (q, closed)) = join(
        rt,
        || -> Pass
            requires { MayCall w.now p ZERO }
            ensures { IsReady w.entry.now result ZERO }
        { selects_in_rounds(alloc, w, p) },
        || -> (Pass, bool)
            requires { MayCall w.now q ONE × HasChannel (view w.now q) chan }
            ensures { IsReady w.entry.now result.0 ONE }
        { wakes_and_closes(w, q, chan) },
    );
    (closed, is_invalid(w, p, q))
}

#[test]
fn one_of_two_threads_selects(rt: HostRuntime) -> Result<(), Fail> {
    let (words, mut p) = table(rt.alloc(), SMALL)?;
    let chan = open_stream(&words, &mut p)?;
    let q = hand_over(&words, &mut p)?;
    let (closed, invalid) = select_beside(&rt, rt.alloc(), &words, p, q, chan);
    assert!(rt; closed);
    assert!(rt; invalid);
    Ok(())
}

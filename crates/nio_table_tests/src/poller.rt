//! Each call with its answers and the rings of its bell, in one hand; how long the polls of selections may wait; what
//! ends them; and a selection that waits while a second thread wakes it, interrupts its caller or closes its selector.
ghost use Rattle.std.specs.Prelude.{◌≡◌, None, IfOk};
ghost use Rattle.nio_history.specs.Conditions.{IsCaller};
ghost use Rattle.nio_history.specs.PassViews.{HasSelector};
ghost use Rattle.nio_poller.specs.Polls.{CountsFaults, AddsPoll, told_of_channel};
ghost use Rattle.nio_poller.specs.declared.poller.PollError.TheVariants.{Fault};
ghost use Rattle.nio_words.specs.Passes.{IsPassOf, IsReady, limits_of};
ghost use Rattle.nio_words.specs.Views.{view};
ghost use Rattle.nio_table_tests.specs.Callers.{MayCall};

use crate::calls;
use crate::calls::{Call, OnChannel};
use crate::tables::{C0, ONE, S, ZERO, hand_over, table};
use nio_base::{KeyNo, Limits, Ops};
use nio_history::{Mode, Why};
use nio_poller::{
    Bell, PollError, Poller, Scripted, SelectError, Sleeper, SleeperBell, close, interrupt,
    interrupted, select, select_for, select_now, select_told, select_told_for, wakeup,
};
use nio_select::{Asked, Selected, Selector, Told};
use nio_words::{Pass, Words};
use std::alloc::{AllocError, Global};
use std::sync::Wait;
use std::sync::atomic::{AtomicU64, Ordering};
use std::test::Fail;
use std::thread::{Threads, join};

const SMALL: Limits = Limits {
    callers: 2,
    selectors: 1,
    channels: 1,
    keys: 1,
};

const KEY: KeyNo = KeyNo {
    sel: S,
    index: 0,
    serial: 0,
};

/// A bell that counts its rings.
#[derive(Drop)]
struct Counting {
    rings: AtomicU64,
}

impl Bell for Counting {
    fn ring(&self) {
        self.rings.fetch_add(1, Ordering::SeqCst);
    }
}

/// A poller that tells nothing and that the time is over. It keeps how long its last poll may wait.
#[derive(Drop)]
struct LastWait {
    last: Option<Mode>,
}

impl Poller for LastWait {
    ghost use Rattle.std.specs.Prelude.{⊤};
    ghost use Rattle.nio_base.specs.declared.numbers.ChanNo.{ChanNo};

    ghost poll_faults = { λ _. 0 };

    ghost ready = { λ _ _. 0 };

    ghost polls = { λ _. None };

    ghost kept = { λ _ _. ⊤ };

    fn poll<R: Wait>(
        &mut self,
        _rt: &R,
        alloc: Global,
        asked: &Asked,
        mode: Mode,
    ) -> Result<Told, PollError>
        ensures cause { CountsFaults Fault 0 0 result }
        ensures ready { IfOk result (λ told. (c : ChanNo) → 0 ≡ told_of_channel asked.now.keys told.pairs.items c) }
        ensures polls { AddsPoll None None asked.now.keys mode result }
    {
        self.last = Some(mode);
        Ok(Told {
            pairs: Vec::new(alloc),
            elapsed: true,
        })
    }

    ghost kept_same = { λ _. tt };

    ghost kept_on = { λ _ _ _ _ _. tt };
}

/// A call of the first caller.
#[derive(Clone, Copy)]
enum OnSelector {
    Select,
    SelectNow,
    SelectFor(i64),
    SelectTold,
    SelectToldFor(i64),
    Wakeup,
    Interrupt,
    Interrupted,
    Close,
}

#[derive(Clone, Copy, Debug, PartialEq, Eq)]
enum Reply {
    Selected(Result<Selected, SelectError>),
    Flag(bool),
    Done,
}

fn answer<R: Wait, P: Poller>(
    rt: &R,
    alloc: Global,
    w: &Words,
    p: &mut Pass,
    poller: &mut P,
    bell: &Counting,
    call: OnSelector,
) -> Reply
    requires ready { IsReady w.now p.old ZERO }
    requires selector { HasSelector (view w.now p.old) S }
    ensures ready { IsReady w.now p.new ZERO }
    ensures selector { HasSelector (view w.now p.new) S }
{
    let mut on = Selector::without_list(S);
    match call {
        OnSelector::Select => Reply::Selected(select(rt, alloc, w, p, ZERO, &mut on, poller)),
        OnSelector::SelectNow => {
            Reply::Selected(select_now(rt, alloc, w, p, ZERO, &mut on, poller))
        }
        OnSelector::SelectFor(ms) => {
            Reply::Selected(select_for(rt, alloc, w, p, ZERO, &mut on, poller, ms))
        }
        OnSelector::SelectTold => {
            Reply::Selected(select_told(rt, alloc, w, p, ZERO, &mut on, poller))
        }
        OnSelector::SelectToldFor(ms) => {
            Reply::Selected(select_told_for(rt, alloc, w, p, ZERO, &mut on, poller, ms))
        }
        OnSelector::Wakeup => Reply::Flag(wakeup(w, p, ZERO, S, bell)),
        OnSelector::Interrupt => {
            interrupt(w, p, ZERO, ZERO, bell);
            Reply::Done
        }
        OnSelector::Interrupted => Reply::Flag(interrupted(w, p, ZERO)),
        OnSelector::Close => Reply::Flag(close(rt, w, p, ZERO, S, bell)),
    }
}

/// Nothing was ready, for this reason.
fn nothing(why: Why) -> Reply {
    Reply::Selected(ended(why))
}

#[test]
fn calls_on_a_selector(rt: HostRuntime) -> Result<(), Fail> {
    let (words, mut p) = table(rt.alloc(), SMALL)?;
    let mut poller = Scripted::make(Vec::new(rt.alloc()), vec![in rt.alloc(); 1_u64]?);
    let bell = Counting {
        rings: AtomicU64::new(0),
    };
    let rows = [
        (OnSelector::SelectNow, nothing(Why::Now), 0),
        (OnSelector::Wakeup, Reply::Flag(false), 1),
        // The poll fails, and the wakeup stays.
        (
            OnSelector::Select,
            Reply::Selected(Err(SelectError::PollFault)),
            1,
        ),
        (OnSelector::Wakeup, Reply::Flag(true), 2),
        (OnSelector::Select, nothing(Why::Woken), 2),
        (
            OnSelector::SelectFor(-1),
            Reply::Selected(Err(SelectError::NegativeTimeout)),
            2,
        ),
        (OnSelector::SelectFor(5), nothing(Why::Elapsed), 2),
        (OnSelector::Interrupt, Reply::Done, 3),
        (OnSelector::Select, nothing(Why::Interrupted), 3),
        (OnSelector::Interrupted, Reply::Flag(true), 3),
        (OnSelector::Interrupted, Reply::Flag(false), 3),
        (OnSelector::Close, Reply::Flag(true), 4),
        (OnSelector::Close, Reply::Flag(false), 5),
        (
            OnSelector::Select,
            Reply::Selected(Err(SelectError::ClosedSelector)),
            5,
        ),
    ];
    for (call, reply, rings) in rows {
        let found = answer(&rt, rt.alloc(), &words, &mut p, &mut poller, &bell, call);
        assert!(rt; found == reply);
        assert!(rt; bell.rings.load(Ordering::SeqCst) == rings);
    }
    Ok(())
}

#[test]
fn how_long_polls_may_wait(rt: HostRuntime) -> Result<(), Fail> {
    let (words, mut p) = table(rt.alloc(), SMALL)?;
    let mut poller = LastWait { last: None };
    let bell = Counting {
        rings: AtomicU64::new(0),
    };
    let negative = Reply::Selected(Err(SelectError::NegativeTimeout));
    // The mode of the last poll that the call makes, if any.
    let rows = [
        (OnSelector::SelectNow, nothing(Why::Now), Some(Mode::Now)),
        (
            OnSelector::SelectFor(5),
            nothing(Why::Elapsed),
            Some(Mode::waiting(5)?),
        ),
        (OnSelector::SelectFor(-1), negative, None),
        // No ring is left: what is pending stands in the table alone, and no poll waits.
        (OnSelector::Wakeup, Reply::Flag(false), None),
        (
            OnSelector::SelectFor(0),
            nothing(Why::Woken),
            Some(Mode::Now),
        ),
        (OnSelector::Wakeup, Reply::Flag(false), None),
        (
            OnSelector::SelectFor(5),
            nothing(Why::Woken),
            Some(Mode::Now),
        ),
        (OnSelector::Interrupt, Reply::Done, None),
        (
            OnSelector::Select,
            nothing(Why::Interrupted),
            Some(Mode::Now),
        ),
        (
            OnSelector::SelectTold,
            nothing(Why::Interrupted),
            Some(Mode::Now),
        ),
        (OnSelector::Interrupted, Reply::Flag(true), None),
        (
            OnSelector::SelectToldFor(5),
            nothing(Why::Elapsed),
            Some(Mode::waiting(5)?),
        ),
        (OnSelector::SelectToldFor(-1), negative, None),
    ];
    for (call, reply, mode) in rows {
        poller.last = None;
        let found = answer(&rt, rt.alloc(), &words, &mut p, &mut poller, &bell, call);
        assert!(rt; found == reply);
        assert!(rt; poller.last == mode);
    }
    Ok(())
}

/// What a poller tells of the only key, in each poll, and whether the time is over.
const ANSWERS: &[(u8, bool)] = &[
    (0, true),
    (1, false),
    (0, true),
    (0, true),
    (1, false),
    (4, false),
    (5, false),
    (1, false),
    (0, true),
    (0, false),
    (0, true),
    (1, false),
    (1, false),
    (0, true),
    (1, false),
    (0, false),
    (1, false),
    (1, false),
];

/// A poller with these answers. The call after the first seventeen fails.
fn scripted(alloc: Global) -> Result<Scripted, AllocError> {
    let mut answers = Vec::with_capacity(alloc, ANSWERS.len())?;
    for (bits, elapsed) in ANSWERS {
        answers.push(Told {
            pairs: vec![in alloc; (0_u32, Ops::of(*bits))]?,
            elapsed: *elapsed,
        })?;
    }
    Ok(Scripted::make(answers, vec![in alloc; 17_u64]?))
}

/// A selection that ended with the only key updated.
fn updated() -> Reply {
    Reply::Selected(Ok(Selected {
        count: 1,
        why: Why::Ready,
    }))
}

/// The only key is looked for reading. What stands behind a call is how many answers it takes.
#[test]
fn what_ends_selections(rt: HostRuntime) -> Result<(), Fail> {
    let (words, mut p) = table(rt.alloc(), SMALL)?;
    let opened = calls::answer(rt.alloc(), &words, &mut p, Call::OpenStreams(1));
    let register = Call::OnChannel(C0, OnChannel::Register(1, 0));
    let registered = calls::answer(rt.alloc(), &words, &mut p, register);
    assert!(rt; opened == calls::Reply::Mode(Ok(())));
    assert!(rt; registered == calls::Reply::Registered(Ok(KEY)));
    let mut poller = scripted(rt.alloc())?;
    let bell = Counting {
        rings: AtomicU64::new(0),
    };
    let rows = [
        // 2: a key that isn't selected
        (OnSelector::SelectTold, updated()),
        // 3: without a limit no time is over; and then a key that is selected
        (OnSelector::SelectTold, nothing(Why::Elapsed)),
        // 2: an operation that isn't looked for
        (OnSelector::SelectTold, nothing(Why::Elapsed)),
        // 1: the first poll tells something
        (OnSelector::SelectToldFor(5), nothing(Why::Elapsed)),
        // 3: the first poll doesn't wait
        (OnSelector::SelectToldFor(5), nothing(Why::Elapsed)),
        // 3: as documented, it goes on
        (OnSelector::SelectFor(5), nothing(Why::Elapsed)),
        // 1
        (OnSelector::SelectNow, nothing(Why::Now)),
        (OnSelector::Wakeup, Reply::Flag(false)),
        // 1
        (OnSelector::SelectTold, nothing(Why::Woken)),
        (OnSelector::Interrupt, Reply::Done),
        // 1
        (OnSelector::SelectTold, nothing(Why::Interrupted)),
        (OnSelector::Interrupted, Reply::Flag(true)),
        (
            OnSelector::SelectToldFor(-1),
            Reply::Selected(Err(SelectError::NegativeTimeout)),
        ),
        (
            OnSelector::SelectTold,
            Reply::Selected(Err(SelectError::PollFault)),
        ),
        // 1: the last one
        (OnSelector::SelectToldFor(0), nothing(Why::Elapsed)),
        (OnSelector::Wakeup, Reply::Flag(false)),
        (OnSelector::SelectToldFor(0), nothing(Why::Woken)),
        (OnSelector::Close, Reply::Flag(true)),
        (
            OnSelector::SelectTold,
            Reply::Selected(Err(SelectError::ClosedSelector)),
        ),
    ];
    for (call, reply) in rows {
        let found = answer(&rt, rt.alloc(), &words, &mut p, &mut poller, &bell, call);
        assert!(rt; found == reply);
    }
    Ok(())
}

/// How the second thread ends the wait of the first.
#[derive(Clone, Copy)]
enum Ending {
    Wakes,
    Interrupts,
    Closes,
}

/// Which selection waits.
#[derive(Clone, Copy)]
enum Waiting {
    Documented,
    Told,
}

/// Selects, and waits for it.
fn waits<R: Wait>(
    rt: &R,
    alloc: Global,
    w: &Words,
    mut p: Pass,
    mut sleeper: Sleeper,
    which: Waiting,
) -> Result<Selected, SelectError>
    requires { MayCall w.now p ZERO }
{
    let mut on = Selector::without_list(S);
    match which {
        Waiting::Documented => select(rt, alloc, w, &mut p, ZERO, &mut on, &mut sleeper),
        Waiting::Told => select_told(rt, alloc, w, &mut p, ZERO, &mut on, &mut sleeper),
    }
}

fn ends<R: Wait>(rt: &R, w: &Words, mut p: Pass, bell: &SleeperBell, how: Ending) -> Pass
    requires may { MayCall w.now p ONE }
    requires caller { IsCaller (limits_of w.now) ZERO }
    ensures { IsPassOf w.now result }
{
    match how {
        Ending::Wakes => {
            wakeup(w, &mut p, ONE, S, bell);
        }
        Ending::Interrupts => interrupt(w, &mut p, ONE, ZERO, bell),
        Ending::Closes => {
            close(rt, w, &mut p, ONE, S, bell);
        }
    }
    p
}

/// What the selection of the first caller answers that the other one ends, in a second thread.
fn waits_and_ends<R: Threads + Wait + Sync>(
    rt: &R,
    alloc: Global,
    w: &Words,
    p: Pass,
    q: Pass,
    which: Waiting,
    how: Ending,
) -> Result<Result<Selected, SelectError>, AllocError>
    requires first { MayCall w.now p ZERO }
    requires second { MayCall w.now q ONE }
{
    let (sleeper, bell) = Sleeper::pair(alloc)?;
    let (answer, _q) = join(
        rt,
        || -> Result<Selected, SelectError>
            requires { MayCall w.now p ZERO }
        { waits(rt, alloc, w, p, sleeper, which) },
        || -> Pass
            requires { MayCall w.now q ONE × IsCaller (limits_of w.now) ZERO }
            ensures { IsPassOf w.entry.now result }
        { ends(rt, w, q, &bell, how) },
    );
    Ok(answer)
}

/// A selection that ended with no key.
fn ended(why: Why) -> Result<Selected, SelectError> {
    Ok(Selected { count: 0, why })
}

#[test]
fn a_second_thread_ends_the_wait(rt: HostRuntime) -> Result<(), Fail> {
    let closed = Err(SelectError::ClosedSelector);
    // The selector may be closed before the selection begins.
    for (how, first, second) in [
        (Ending::Wakes, ended(Why::Woken), ended(Why::Woken)),
        (
            Ending::Interrupts,
            ended(Why::Interrupted),
            ended(Why::Interrupted),
        ),
        (Ending::Closes, ended(Why::Closed), closed),
    ] {
        for which in [Waiting::Documented, Waiting::Told] {
            let (words, mut p) = table(rt.alloc(), SMALL)?;
            let q = hand_over(&words, &mut p)?;
            let found = waits_and_ends(&rt, rt.alloc(), &words, p, q, which, how)?;
            assert!(rt; found == first || found == second);
        }
    }
    Ok(())
}

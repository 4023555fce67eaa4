//! The calls that may wait: how long they take where nothing is to wait for, and how long a sleeping caller takes to
//! return once another thread has woken it.
ghost use Rattle.nio_history.specs.PassViews.{HasSelector};
ghost use Rattle.nio_words.specs.Passes.{IsReady};
ghost use Rattle.nio_words.specs.Views.{view};

use crate::channels::{ME, S};
use crate::pair::{ONE, ZERO, two_callers};
use crate::select::{Load, MANY, claimed};
use anyhow::{bail, ensure};
use nio_poller::{Sleeper, SleeperBell, select, select_now, wakeup};
use nio_select::Selector;
use nio_words::{Pass, Words};
use std::alloc::Global;
use std::rt::Runtime;
use std::sync::Wait;
use std::sync::atomic::{AtomicU64, Ordering};
use std::thread;
use std::thread::{Parker, Threads, join};
use std::time::{Clock, Duration, Instant};

/// A selector with one key.
const ONE_KEY: Load = Load {
    indexes: 1,
    live: 1,
    every: 1,
};

/// How many wakeups are timed, each with a selection.
const PAIRS: u32 = 1_000_000;

/// How many selections over many keys are timed.
const SELECTIONS: u32 = 20_000;

/// How many times a caller sleeps.
const ROUNDS: usize = 10_000;

/// How long the waker waits after the sleeper said that it is about to sleep.
const FALLS_ASLEEP_MICROS: u64 = 20;

/// Prints the nanoseconds of all calls of a kind, with how many there were, and the medians of what a sleeper takes to
/// return from a selection, and from `Parker::park` alone.
pub fn measure<R: Runtime<A = Global> + Threads + Wait + Sync>(rt: &R) -> anyhow::Result<()> {
    let pairs = time_pairs(rt, PAIRS)?;
    println!(rt; "calls {} wakeup_select_now {}", PAIRS, pairs.as_nanos())?;
    let selections = time_selections(rt, SELECTIONS)?;
    println!(rt;
        "calls {} select_now_1000 {}",
        SELECTIONS,
        selections.as_nanos()
    )?;
    println!(rt;
        "calls 1 select {} park {}",
        time_select(rt, ROUNDS)?,
        time_park(rt, ROUNDS)?
    )?;
    Ok(())
}

/// Makes a few calls of each kind that is measured.
pub fn run<R: Runtime<A = Global> + Threads + Wait + Sync>(rt: &R) -> anyhow::Result<()> {
    time_pairs(rt, 4)?;
    time_selections(rt, 2)?;
    time_select(rt, 4)?;
    time_park(rt, 4)?;
    Ok(())
}

/// How long so many wakeups take, with a selection after each that doesn't wait.
fn time_pairs<R: Runtime<A = Global> + Wait>(rt: &R, count: u32) -> anyhow::Result<Duration> {
    let (words, mut p, _) = claimed(rt, ONE_KEY)?;
    let (mut sleeper, bell) = Sleeper::pair(rt.alloc())?;
    let start = Instant::now(rt)?;
    let all = pairs(rt, rt.alloc(), &words, &mut p, &mut sleeper, &bell, count);
    let took = start.elapsed(rt)?;
    ensure!(all, "a selection failed");
    Ok(took)
}

/// Says whether no selection failed.
fn pairs<R: Wait>(
    rt: &R,
    alloc: Global,
    words: &Words,
    p: &mut Pass,
    sleeper: &mut Sleeper,
    bell: &SleeperBell,
    count: u32,
) -> bool
    requires ready { IsReady words.now p.old ME }
    requires selector { HasSelector (view words.now p.old) S }
{
    let mut all = true;
    for _ in 0..count {
        wakeup(words, p, ME, S, bell);
        let mut on = Selector::without_list(S);
        all &= select_now(rt, alloc, words, p, ME, &mut on, sleeper).is_ok();
    }
    all
}

/// How long so many selections over many keys take that don't wait, with no key ready.
fn time_selections<R: Runtime<A = Global> + Wait>(rt: &R, count: u32) -> anyhow::Result<Duration> {
    let (words, mut p, _) = claimed(rt, MANY)?;
    let (mut sleeper, _) = Sleeper::pair(rt.alloc())?;
    let start = Instant::now(rt)?;
    let all = selections(rt, rt.alloc(), &words, &mut p, &mut sleeper, count);
    let took = start.elapsed(rt)?;
    ensure!(all, "a selection failed");
    Ok(took)
}

/// Says whether no selection failed.
fn selections<R: Wait>(
    rt: &R,
    alloc: Global,
    words: &Words,
    p: &mut Pass,
    sleeper: &mut Sleeper,
    count: u32,
) -> bool
    requires ready { IsReady words.now p.old ME }
    requires selector { HasSelector (view words.now p.old) S }
{
    let mut all = true;
    for _ in 0..count {
        let mut on = Selector::without_list(S);
        all &= select_now(rt, alloc, words, p, ME, &mut on, sleeper).is_ok();
    }
    all
}

/// What a sleeper and its waker share.
#[derive(Drop)]
struct Meeting {
    start: Instant,
    /// How often the sleeper was about to sleep.
    naps: AtomicU64,
}

/// The time since the start at which something was done; `None` where it failed, or the clock did.
type At = Option<Duration>;

impl Meeting {
    fn make(clock: &impl Clock) -> anyhow::Result<Meeting> {
        Ok(Meeting {
            start: Instant::now(clock)?,
            naps: AtomicU64::new(0),
        })
    }

    fn now(&self, clock: &impl Clock) -> At {
        self.start.elapsed(clock).ok()
    }

    /// The sleeper is about to sleep.
    fn announce_nap(&self) {
        self.naps.fetch_add(1, Ordering::SeqCst);
    }

    /// Waits until the sleeper sleeps for the time with this number, counted from 0.
    fn await_nap<R: Wait + Clock>(&self, rt: &R, number: usize) {
        for _ in rt.forever() {
            if self.naps.load(Ordering::SeqCst) > number as u64 {
                break;
            }
            thread::yield_now();
        }
        thread::sleep(rt, Duration::from_micros(FALLS_ASLEEP_MICROS));
    }
}

/// The median of the nanoseconds from a wakeup in one thread until the selection that it ends has returned in another.
fn time_select<R: Runtime<A = Global> + Threads + Wait + Sync>(
    rt: &R,
    rounds: usize,
) -> anyhow::Result<u128> {
    let (words, mut p) = two_callers(rt.alloc())?;
    let (sleeper, bell) = Sleeper::pair(rt.alloc())?;
    let q = words.hand_over(&mut p, ONE)?;
    let slept = vec![in rt.alloc(); None; rounds]?;
    let rang = vec![in rt.alloc(); None; rounds]?;
    let meeting = Meeting::make(rt)?;
    let (slept, rang) = join(
        rt,
        || -> Vec<At>
            requires { IsReady words p ZERO × HasSelector (view words p) S }
        { selects(rt, rt.alloc(), &words, p, sleeper, &meeting, slept) },
        || -> Vec<At>
            requires { IsReady words q ONE × HasSelector (view words q) S }
        { wakes(rt, &words, q, &bell, &meeting, rang) },
    );
    median(rt.alloc(), &rang, &slept)
}

/// Selects until it is woken, once for each time. Answers when each selection had returned.
fn selects<R: Wait + Clock>(
    rt: &R,
    alloc: Global,
    words: &Words,
    mut p: Pass,
    mut sleeper: Sleeper,
    meeting: &Meeting,
    mut slept: Vec<At>,
) -> Vec<At>
    requires ready { IsReady words.now p ZERO }
    requires selector { HasSelector (view words.now p) S }
{
    for time in &mut slept {
        meeting.announce_nap();
        let mut on = Selector::without_list(S);
        let woken = select(rt, alloc, words, &mut p, ZERO, &mut on, &mut sleeper).is_ok();
        let now = meeting.now(rt);
        *time = if woken { now } else { None };
    }
    slept
}

/// Wakes the selector each time that the other caller sleeps there. Answers when it did.
fn wakes<R: Wait + Clock>(
    rt: &R,
    words: &Words,
    mut q: Pass,
    bell: &SleeperBell,
    meeting: &Meeting,
    mut rang: Vec<At>,
) -> Vec<At>
    requires ready { IsReady words.now q ONE }
    requires selector { HasSelector (view words.now q) S }
{
    for (number, time) in rang.iter_mut().enumerate() {
        meeting.await_nap(rt, number);
        *time = meeting.now(rt);
        wakeup(words, &mut q, ONE, S, bell);
    }
    rang
}

/// The same for a thread that parks, and one that unparks it.
fn time_park<R: Runtime<A = Global> + Threads + Wait + Sync>(
    rt: &R,
    rounds: usize,
) -> anyhow::Result<u128> {
    let parker = Parker::new();
    let slept = vec![in rt.alloc(); None; rounds]?;
    let rang = vec![in rt.alloc(); None; rounds]?;
    let meeting = Meeting::make(rt)?;
    let (slept, rang) = join(
        rt,
        || -> Vec<At> { parks(rt, &parker, &meeting, slept) },
        || -> Vec<At> { unparks(rt, &parker, &meeting, rang) },
    );
    median(rt.alloc(), &rang, &slept)
}

fn parks<R: Wait + Clock>(
    rt: &R,
    parker: &Parker,
    meeting: &Meeting,
    mut slept: Vec<At>,
) -> Vec<At> {
    for time in &mut slept {
        meeting.announce_nap();
        parker.park(rt);
        *time = meeting.now(rt);
    }
    slept
}

fn unparks<R: Wait + Clock>(
    rt: &R,
    parker: &Parker,
    meeting: &Meeting,
    mut rang: Vec<At>,
) -> Vec<At> {
    for (number, time) in rang.iter_mut().enumerate() {
        meeting.await_nap(rt, number);
        *time = meeting.now(rt);
        parker.unpark();
    }
    rang
}

/// The median of the nanoseconds from each first time to its second.
fn median(alloc: Global, from: &[At], to: &[At]) -> anyhow::Result<u128> {
    let mut took = Vec::new(alloc);
    for (from, to) in from.iter().zip(to) {
        let (Some(from), Some(to)) = (from, to) else {
            bail!("a selection or the clock failed");
        };
        took.push(to.saturating_sub(*from).as_nanos())?;
    }
    took.sort_unstable();
    match took.get(took.len() / 2) {
        Some(middle) => Ok(*middle),
        None => bail!("no round was made"),
    }
}

//! Selections that don't wait, by one caller in one thread, where some of the indexes that were ever claimed have a
//! key: without the selector's list, and by it; and the calls that touch an index.
ghost use Rattle.std.specs.Prelude.{IfOk};
ghost use Rattle.nio_select.specs.InProgress.{MaySelect};
ghost use Rattle.nio_words.specs.Views.{view};
ghost use Rattle.nio_bench.specs.SetUp.{IsIdle, StaysIdle};

use crate::channels::{ME, S, set_up};
use anyhow::{bail, ensure};
use nio_base::{Kind, Limits, Ops};
use nio_channel::{open_channel, try_register, try_set_blocking};
use nio_keys::{cancel, find, set_interest, unselect};
use nio_select::{After, Mode, Selector, Told, try_begin};
use nio_words::{Pass, Words};
use std::alloc::Global;
use std::rt::Runtime;
use std::time::{Duration, Instant};

/// How many indexes are claimed, how many of them keep their key, and how far apart those are.
#[derive(Clone, Copy)]
pub struct Load {
    pub indexes: u32,
    pub live: u32,
    pub every: u32,
}

const FEW: Load = Load {
    indexes: 64,
    live: 64,
    every: 1,
};

/// Each index that was ever claimed has a key.
pub const MANY: Load = Load {
    indexes: 1_000,
    live: 1_000,
    every: 1,
};

const SPARSE: Load = Load {
    indexes: 262_144,
    live: 1_000,
    every: 262,
};

/// As many keys as a server with so many connections has.
const MOST: Load = Load {
    indexes: 18_000,
    live: 18_000,
    every: 1,
};

/// How long a selection takes at least.
#[derive(Clone, Copy)]
pub struct Least {
    /// No key is ready.
    idle: Duration,
    /// Each key is ready, and none is selected.
    ready: Duration,
}

/// How long the calls on all keys take that touch their indexes.
#[derive(Clone, Copy)]
pub struct Touching {
    /// Finding a key and setting its interest.
    set_interest: Duration,
    /// Finding a key and cancelling it.
    cancel: Duration,
}

/// Prints the nanoseconds that a selection takes at least, for each load, without the list and by it; and those of the
/// calls that touch an index.
pub fn measure<R: Runtime<A = Global>>(rt: &R) -> anyhow::Result<()> {
    measure_load(rt, "few", FEW, 20_000)?;
    measure_load(rt, "many", MANY, 2_000)?;
    measure_load(rt, "sparse", SPARSE, 500)?;
    measure_by_list(rt, "few_by_list", FEW, 20_000)?;
    measure_by_list(rt, "many_by_list", MANY, 2_000)?;
    measure_by_list(rt, "most_by_list", MOST, 500)?;
    let touching = touch_all(rt, MOST)?;
    println!(rt;
        "calls {} set_interest {} cancel {}",
        MOST.live,
        touching.set_interest.as_nanos(),
        touching.cancel.as_nanos()
    )?;
    Ok(())
}

fn measure_load<R: Runtime<A = Global>>(
    rt: &R,
    name: &str,
    load: Load,
    rounds: u32,
) -> anyhow::Result<()> {
    let least = run(rt, load, rounds)?;
    println!(rt;
        "{} idle {} ready {}",
        name,
        least.idle.as_nanos(),
        least.ready.as_nanos()
    )?;
    Ok(())
}

fn measure_by_list<R: Runtime<A = Global>>(
    rt: &R,
    name: &str,
    load: Load,
    rounds: u32,
) -> anyhow::Result<()> {
    let least = run_by_list(rt, load, rounds)?;
    println!(rt;
        "{} idle {} ready {}",
        name,
        least.idle.as_nanos(),
        least.ready.as_nanos()
    )?;
    Ok(())
}

/// Makes so many selections of each kind.
pub fn run<R: Runtime<A = Global>>(rt: &R, load: Load, rounds: u32) -> anyhow::Result<Least> {
    let (words, mut p, all_ready) = claimed(rt, load)?;
    let none_ready = Told {
        pairs: Vec::new(rt.alloc()),
        elapsed: false,
    };
    select(rt, &words, &mut p, &none_ready)?;
    let idle = selections(rt, &words, &mut p, &none_ready, rounds)?;
    let ready = selections(rt, &words, &mut p, &all_ready, rounds)?;
    Ok(Least { idle, ready })
}

/// The same by the list. The first selection, which isn't timed, looks at all keys.
pub fn run_by_list<R: Runtime<A = Global>>(
    rt: &R,
    load: Load,
    rounds: u32,
) -> anyhow::Result<Least> {
    let (words, mut p, all_ready) = claimed(rt, load)?;
    let mut selector = Selector::take(rt.alloc(), &words, &mut p, ME, S);
    let none_ready = Told {
        pairs: Vec::new(rt.alloc()),
        elapsed: false,
    };
    select_by_list(rt, &words, &mut p, &mut selector, &none_ready)?;
    let idle = selections_by_list(rt, &words, &mut p, &mut selector, &none_ready, rounds)?;
    let ready = selections_by_list(rt, &words, &mut p, &mut selector, &all_ready, rounds)?;
    ensure!(selector.has_list(), "the list is lost");
    Ok(Least { idle, ready })
}

/// Sets the interest of each key of this load, and cancels it.
pub fn touch_all<R: Runtime<A = Global>>(rt: &R, load: Load) -> anyhow::Result<Touching> {
    let (words, mut p, _) = claimed(rt, load)?;
    let start = Instant::now(rt)?;
    for index in 0..load.indexes {
        set_key(&words, &mut p, index)?;
    }
    let set_interest = start.elapsed(rt)?;
    for index in 0..load.indexes {
        cancel_key(&words, &mut p, index)?;
    }
    let both = start.elapsed(rt)?;
    Ok(Touching {
        set_interest,
        cancel: both.saturating_sub(set_interest),
    })
}

/// A new table with this load, and what a poller tells there where each key that is kept is ready.
pub fn claimed(rt: &impl Alloc<A = Global>, load: Load) -> anyhow::Result<(Words, Pass, Told)>
    ensures { IfOk result (λ made. IsIdle made.0 made.1 ME S) }
{
    let limits = Limits {
        callers: 1,
        selectors: 1,
        channels: load.indexes,
        keys: load.indexes,
    };
    ensure!(limits.fits(), "no table has these limits");
    let (words, mut p) = Words::make(rt.alloc(), limits)?;
    words.draw(&mut p, ME)?;
    set_up(&words, &mut p);
    let all_ready = claim(rt, &words, &mut p, load)?;
    Ok((words, p, all_ready))
}

/// Gives each index a key, and cancels those that aren't kept. Answers what a poller tells where each key that is kept
/// is ready.
fn claim(
    rt: &impl Alloc<A = Global>,
    words: &Words,
    p: &mut Pass,
    load: Load,
) -> anyhow::Result<Told>
    requires { IsIdle words.now p.old ME S }
    ensures { IfOk result (λ _. IsIdle words.now p.new ME S) }
{
    for _ in 0..load.indexes {
        register(words, p)?;
    }
    let mut pairs = Vec::new(rt.alloc());
    let mut next = 0;
    for index in 0..load.indexes {
        if index == next && pairs.len() < load.live as usize {
            pairs.push((index, Ops::READ))?;
            next = next.saturating_add(load.every);
        } else {
            cancel_key(words, p, index)?;
        }
    }
    ensure!(pairs.len() == load.live as usize, "a key is missing");
    Ok(Told {
        pairs,
        elapsed: false,
    })
}

/// Opens a channel, and registers it for reading.
fn register(words: &Words, p: &mut Pass) -> anyhow::Result<()>
    requires { IsIdle words.now p.old ME S }
    ensures { IfOk result (λ _. IsIdle words.now p.new ME S) }
{
    let chan = open_channel(words, p, ME, Kind::Source)?;
    try_set_blocking(words, p, ME, chan, false)?;
    try_register(words, p, ME, S, chan, Ops::READ, 0)?;
    Ok(())
}

fn cancel_key(words: &Words, p: &mut Pass, index: u32) -> anyhow::Result<()>
    requires { IsIdle words.now p.old ME S }
    ensures { IfOk result (λ _. IsIdle words.now p.new ME S) }
{
    match find(words, p, ME, S, index, 0) {
        Some(key) => {
            cancel(words, p, ME, key);
            Ok(())
        }
        None => bail!("an index has no key"),
    }
}

fn set_key(words: &Words, p: &mut Pass, index: u32) -> anyhow::Result<()>
    requires { IsIdle words.now p.old ME S }
    ensures { IfOk result (λ _. IsIdle words.now p.new ME S) }
{
    match find(words, p, ME, S, index, 0) {
        Some(key) => Ok(set_interest(words, p, ME, key, Ops::NONE)?),
        None => bail!("an index has no key"),
    }
}

fn unselect_key(words: &Words, p: &mut Pass, index: u32) -> anyhow::Result<()>
    requires { IsIdle words.now p.old ME S }
    ensures { IfOk result (λ _. StaysIdle words.now p.old p.new ME S) }
{
    match find(words, p, ME, S, index, 0) {
        Some(key) => {
            unselect(words, p, ME, key);
            Ok(())
        }
        None => bail!("an index has no key"),
    }
}

/// How long a selection takes at least that is told this, of so many. After each the keys are taken out of the
/// selected set.
fn selections<R: Runtime<A = Global>>(
    rt: &R,
    words: &Words,
    p: &mut Pass,
    told: &Told,
    rounds: u32,
) -> anyhow::Result<Duration>
    requires { IsIdle words.now p.old ME S }
    ensures { IfOk result (λ _. IsIdle words.now p.new ME S) }
{
    let mut least = Duration::MAX;
    for _ in 0..rounds {
        let start = Instant::now(rt)?;
        let count = select(rt, words, p, told)?;
        least = least.min(start.elapsed(rt)?);
        ensure!(count as usize == told.pairs.len(), "a key isn't marked");
        for (index, _) in &told.pairs {
            unselect_key(words, p, *index)?;
        }
    }
    Ok(least)
}

/// A selection that doesn't wait and is told this. Answers how many keys were marked.
pub fn select(
    rt: &impl Alloc<A = Global>,
    words: &Words,
    p: &mut Pass,
    told: &Told,
) -> anyhow::Result<u32>
    requires { IsIdle words.now p.old ME S }
    ensures { IfOk result (λ _. StaysIdle words.now p.old p.new ME S) }
{
    let selection = try_begin(rt.alloc(), words, p, ME, S, Mode::Now)?;
    match selection.told(words, p, ME, told) {
        After::Done(answer, _list) => Ok(answer.count),
        After::Again(selection) => {
            selection.leave(words, p, ME);
            bail!("the selection waits")
        }
    }
}

/// How long a selection by the list takes at least that is told this, of so many. After each the keys are taken out of
/// the selected set.
fn selections_by_list<R: Runtime<A = Global>>(
    rt: &R,
    words: &Words,
    p: &mut Pass,
    selector: &mut Selector,
    told: &Told,
    rounds: u32,
) -> anyhow::Result<Duration>
    requires idle { IsIdle words.now p.old ME S }
    requires may { MaySelect (view words.now p.old) ME selector.old }
    ensures idle { IfOk result (λ _. IsIdle words.now p.new ME S) }
    ensures may { IfOk result (λ _. MaySelect (view words.now p.new) ME selector.new) }
{
    let mut least = Duration::MAX;
    for _ in 0..rounds {
        let start = Instant::now(rt)?;
        let count = select_by_list(rt, words, p, selector, told)?;
        least = least.min(start.elapsed(rt)?);
        ensure!(count as usize == told.pairs.len(), "a key isn't marked");
        for (index, _) in &told.pairs {
            unselect_key(words, p, *index)?;
        }
    }
    Ok(least)
}

/// A selection by the list that doesn't wait and is told this. Answers how many keys were marked.
fn select_by_list(
    rt: &impl Alloc<A = Global>,
    words: &Words,
    p: &mut Pass,
    selector: &mut Selector,
    told: &Told,
) -> anyhow::Result<u32>
    requires idle { IsIdle words.now p.old ME S }
    requires may { MaySelect (view words.now p.old) ME selector.old }
    ensures idle { IfOk result (λ _. IsIdle words.now p.new ME S) }
    ensures may { IfOk result (λ _. MaySelect (view words.now p.new) ME selector.new) }
{
    let selection = selector.begin(rt.alloc(), words, p, ME, Mode::Now)?;
    match selection.told(words, p, ME, told) {
        After::Done(answer, list) => {
            selector.give_back(list);
            Ok(answer.count)
        }
        After::Again(selection) => {
            selection.leave(words, p, ME);
            bail!("the selection waits")
        }
    }
}

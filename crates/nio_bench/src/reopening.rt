//! A channel that comes back, by one caller in one thread, in a table where every number has a channel.
ghost use Rattle.std.specs.Prelude.{IfOk};
ghost use Rattle.nio_history.specs.PassViews.{HasChannel};
ghost use Rattle.nio_words.specs.Views.{view};
ghost use Rattle.nio_bench.specs.SetUp.{IsIdle, StaysIdle};

use crate::channels::{ME, S, set_up};
use crate::select::select;
use anyhow::ensure;
use nio_base::{ChanId, Kind, Limits, Ops};
use nio_channel::{close_channel, open_channel, reopen_channel, try_register, try_set_blocking};
use nio_keys::cancel;
use nio_select::Told;
use nio_words::{Pass, Words};
use std::alloc::Global;
use std::rt::Runtime;
use std::time::{Duration, Instant};

/// How many channels there are, and as many indexes.
const CHANNELS: u32 = 1_024;

/// How many times the channel comes back.
const TIMES: u32 = 1_000_000;

const TABLE: Limits = Limits {
    callers: 1,
    selectors: 1,
    channels: CHANNELS,
    keys: CHANNELS,
};

/// Prints how often the channel came back, and the nanoseconds of all.
pub fn measure<R: Runtime<A = Global>>(rt: &R) -> anyhow::Result<()> {
    let took = run(rt, TIMES)?;
    println!(rt; "calls {} comes_back {}", TIMES, took.as_nanos())?;
    Ok(())
}

/// Opens all channels, and lets the last one come back so many times. Says how long that took.
pub fn run<R: Runtime<A = Global>>(rt: &R, times: u32) -> anyhow::Result<Duration> {
    let (words, mut p) = Words::make(rt.alloc(), TABLE)?;
    words.draw(&mut p, ME)?;
    set_up(&words, &mut p);
    let last = fill(&words, &mut p)?;
    close_channel(&words, &mut p, ME, last);
    let start = Instant::now(rt)?;
    come_back(rt, &words, &mut p, last, times)?;
    Ok(start.elapsed(rt)?)
}

/// Opens all channels. Answers the last one.
fn fill(words: &Words, p: &mut Pass) -> anyhow::Result<ChanId>
    requires { IsIdle words.now p.old ME S }
    ensures idle { IfOk result (λ _. IsIdle words.now p.new ME S) }
    ensures last { IfOk result (HasChannel (view words.now p.new)) }
{
    for _ in 1..CHANNELS {
        open_channel(words, p, ME, Kind::Source)?;
    }
    Ok(open_channel(words, p, ME, Kind::Source)?)
}

/// The channel, which is closed, comes back so many times.
fn come_back<R: Runtime<A = Global>>(
    rt: &R,
    words: &Words,
    p: &mut Pass,
    first: ChanId,
    times: u32,
) -> anyhow::Result<()>
    requires idle { IsIdle words.now p.old ME S }
    requires channel { HasChannel (view words.now p.old) first }
{
    let none_ready = Told {
        pairs: Vec::new(rt.alloc()),
        elapsed: false,
    };
    let mut chan = first;
    for _ in 0..times {
        chan = turn(rt, words, p, chan, &none_ready)?;
    }
    ensure!(chan.serial == times, "the channel didn't come back");
    Ok(())
}

/// Opens a channel in the place of this one, registers it and cancels its key; then a selection removes that, and the
/// channel is closed. Answers it.
fn turn<R: Runtime<A = Global>>(
    rt: &R,
    words: &Words,
    p: &mut Pass,
    closed: ChanId,
    none_ready: &Told,
) -> anyhow::Result<ChanId>
    requires idle { IsIdle words.now p.old ME S }
    requires channel { HasChannel (view words.now p.old) closed }
    ensures idle { IfOk result (λ _. IsIdle words.now p.new ME S) }
    ensures channel { IfOk result (HasChannel (view words.now p.new)) }
{
    let chan = reopen_channel(words, p, ME, closed)?;
    register(words, p, chan)?;
    select(rt, words, p, none_ready)?;
    close_channel(words, p, ME, chan);
    Ok(chan)
}

/// Makes the channel non-blocking, registers it for reading, and cancels its key.
fn register(words: &Words, p: &mut Pass, chan: ChanId) -> anyhow::Result<()>
    requires idle { IsIdle words.now p.old ME S }
    requires channel { HasChannel (view words.now p.old) chan }
    ensures { IfOk result (λ _. StaysIdle words.now p.old p.new ME S) }
{
    try_set_blocking(words, p, ME, chan, false)?;
    let key = try_register(words, p, ME, S, chan, Ops::READ, 0)?;
    cancel(words, p, ME, key);
    Ok(())
}

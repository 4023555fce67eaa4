//! Registering channels and cancelling their keys, by one caller in one thread, where each index had keys before.
ghost use Rattle.std.specs.Prelude.{◌≡◌, IfOk, []};
ghost use Rattle.nio_history.specs.Conditions.{IsKey, IsSelector};
ghost use Rattle.nio_words.specs.Passes.{IsReady, limits_of, seen};
ghost use Rattle.nio_bench.specs.SetUp.{IsIdle, IsSetUp, StaysIdle, drawn};

use anyhow::ensure;
use nio_base::{CallerNo, ChanId, Kind, Limits, Ops, SelNo};
use nio_channel::{key_for, open_channel, try_register, try_set_blocking};
use nio_keys::cancel;
use nio_words::{Pass, Words};
use std::alloc::Global;
use std::rt::Runtime;
use std::time::{Duration, Instant};

/// How many channels there are, and as many indexes.
const CHANNELS: u32 = 64;

/// How many times all channels are registered and their keys cancelled.
const ROUNDS: u32 = 20_000;

const TABLE: Limits = Limits {
    callers: 1,
    selectors: 1,
    channels: CHANNELS,
    keys: CHANNELS,
};

/// The caller that makes the calls.
pub const ME: CallerNo = CallerNo(0);

/// The selector that they are made on.
pub const S: SelNo = SelNo(0);

/// How long all calls of a kind took together.
#[derive(Clone, Copy)]
pub struct Times {
    /// Registering a channel that has no key.
    register: Duration,
    /// Registering a channel that has a key.
    again: Duration,
    key_for: Duration,
    /// Finding a channel's key and cancelling it.
    cancel: Duration,
}

/// Prints the nanoseconds that each kind of call took, and how many calls of a kind there were.
pub fn measure<R: Runtime<A = Global>>(rt: &R) -> anyhow::Result<()> {
    let times = run(rt, ROUNDS)?;
    println!(rt;
        "calls {} register {} register_again {} key_for {} cancel {}",
        CHANNELS * ROUNDS,
        times.register.as_nanos(),
        times.again.as_nanos(),
        times.key_for.as_nanos(),
        times.cancel.as_nanos()
    )?;
    Ok(())
}

/// Makes so many rounds after one that gives each index its first key.
pub fn run<R: Runtime<A = Global>>(rt: &R, rounds: u32) -> anyhow::Result<Times> {
    let (words, mut p) = Words::make(rt.alloc(), TABLE)?;
    words.draw(&mut p, ME)?;
    set_up(&words, &mut p);
    let channels = open_all(rt, &words, &mut p)?;
    let mut times = Times {
        register: Duration::ZERO,
        again: Duration::ZERO,
        key_for: Duration::ZERO,
        cancel: Duration::ZERO,
    };
    round(rt, &words, &mut p, &channels)?;
    for _ in 0..rounds {
        let took = round(rt, &words, &mut p, &channels)?;
        times.add(&took);
    }
    Ok(times)
}

impl Times {
    fn add(&mut self, other: &Times) {
        self.register = self.register.saturating_add(other.register);
        self.again = self.again.saturating_add(other.again);
        self.key_for = self.key_for.saturating_add(other.key_for);
        self.cancel = self.cancel.saturating_add(other.cancel);
    }
}

/// Makes the selector, in a table where nothing was done but a draw.
pub fn set_up(words: &Words, p: &mut Pass)
    requires ready { IsReady words.now p.old ME }
    requires seen { seen p.old ≡ drawn }
    requires selector { IsSelector (limits_of words.now) S }
    ensures { IsIdle words.now p.new ME S }
{
    words.make_selector(p, ME, S);
}

/// Opens all channels, and makes them non-blocking.
fn open_all(rt: &impl Alloc<A = Global>, words: &Words, p: &mut Pass) -> anyhow::Result<Vec<ChanId>>
    requires { IsIdle words.now p.old ME S }
    ensures { IfOk result (λ opened. IsSetUp words.now p.new ME S opened.items) }
{
    let mut channels = Vec::new(rt.alloc());
    for _ in 0..CHANNELS {
        open(words, p, &mut channels)?;
    }
    Ok(channels)
}

/// Opens one channel more, and makes it non-blocking.
fn open(words: &Words, p: &mut Pass, channels: &mut Vec<ChanId>) -> anyhow::Result<()>
    requires { IsSetUp words.now p.old ME S channels.old.items }
    ensures { IfOk result (λ _. IsSetUp words.now p.new ME S channels.new.items) }
{
    let chan = open_channel(words, p, ME, Kind::Source)?;
    try_set_blocking(words, p, ME, chan, false)?;
    channels.push(chan)?;
    Ok(())
}

/// Registers each channel, registers it again, finds its key and cancels it. Then selections remove the keys.
fn round<R: Runtime<A = Global>>(
    rt: &R,
    words: &Words,
    p: &mut Pass,
    channels: &[ChanId],
) -> anyhow::Result<Times>
    requires { IsSetUp words.now p.old ME S channels.now }
    ensures { IfOk result (λ _. IsSetUp words.now p.new ME S channels.now) }
{
    let start = Instant::now(rt)?;
    let registered = register_all(words, p, channels);
    let register = start.elapsed(rt)?;
    let kept = register_all(words, p, channels);
    let again = start.elapsed(rt)?;
    let found = find_all(words, p, channels);
    let key_for = start.elapsed(rt)?;
    let cancelled = cancel_all(words, p, channels);
    let cancel = start.elapsed(rt)?;
    let removed = remove_all(words, p);
    ensure!(
        registered && kept && found && cancelled,
        "a channel has no key"
    );
    ensure!(removed, "a key isn't cancelled");
    Ok(Times {
        register,
        again: again.saturating_sub(register),
        key_for: key_for.saturating_sub(again),
        cancel: cancel.saturating_sub(key_for),
    })
}

/// Registers each channel for reading. Says whether each has a key then.
fn register_all(words: &Words, p: &mut Pass, channels: &[ChanId]) -> bool
    requires { IsSetUp words.now p.old ME S channels.now }
    ensures { IsSetUp words.now p.new ME S channels.now }
{
    let mut all = true;
    for chan in channels {
        all &= try_register(words, p, ME, S, *chan, Ops::READ, 0).is_ok();
    }
    all
}

/// Says whether each channel has a key.
fn find_all(words: &Words, p: &mut Pass, channels: &[ChanId]) -> bool
    requires { IsSetUp words.now p.old ME S channels.now }
    ensures { IsSetUp words.now p.new ME S channels.now }
{
    let mut all = true;
    for chan in channels {
        all &= key_for(words, p, ME, *chan, S).is_some();
    }
    all
}

/// Cancels the key of each channel, up to one that has none. Says whether each had one.
fn cancel_all(words: &Words, p: &mut Pass, channels: &[ChanId]) -> bool
    requires { IsSetUp words.now p.old ME S channels.now }
    ensures { IsSetUp words.now p.new ME S channels.now }
{
    for chan in channels {
        let Some(key) = key_for(words, p, ME, *chan, S) else {
            return false;
        };
        cancel(words, p, ME, key);
    }
    true
}

/// Removes the key of each index, up to one whose key isn't cancelled. Says whether each was.
fn remove_all(words: &Words, p: &mut Pass) -> bool
    requires { IsIdle words.now p.old ME S }
    ensures { StaysIdle words.now p.old p.new ME S }
{
    for i in 0..words.limits().keys {
        if !remove(words, p, i) {
            return false;
        }
    }
    true
}

/// A selection removes the key of the index, where it is cancelled, and makes the index free. Says whether it
/// was cancelled.
fn remove(words: &Words, p: &mut Pass, i: u32) -> bool
    requires idle { IsIdle words.now p.old ME S }
    requires inside { IsKey (limits_of words.now) S i }
    ensures { StaysIdle words.now p.old p.new ME S }
{
    if words.take_turn(p, ME, S).is_some() {
        return false;
    }
    if words.begin_look(p, ME, S).shut {
        return false;
    }
    let stage = words.look_key(p, ME, S, i);
    if !stage.published || stage.removed || !stage.cancelled {
        return false;
    }
    let found = words.remove(p, ME, S, i);
    if found.removed || found.serial == u32::MAX {
        return false;
    }
    words.put_free(p, ME, S, i);
    words.give_turn(p, ME, S);
    true
}

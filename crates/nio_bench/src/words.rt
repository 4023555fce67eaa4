//! Steps on the shared table, by one caller in one thread.
ghost use Rattle.std.specs.Prelude.{◌≡◌, true, IsTrue};
ghost use Rattle.nio_history.specs.Conditions.{IsChannel, IsKey, IsSelector, has_pin};
ghost use Rattle.nio_words.specs.Passes.{IsReady, limits_of, state_seen};

use anyhow::bail;
use nio_base::{CallerNo, ChanNo, Kind, Limits, Ops, SelNo};
use nio_words::{Pass, Words};
use std::alloc::Global;
use std::rt::Runtime;
use std::time::Instant;

/// How many steps of each kind are timed.
const STEPS: u32 = 10_000_000;

const TABLE: Limits = Limits {
    callers: 1,
    selectors: 1,
    channels: 1,
    keys: 1,
};

/// Prints how long ten million wakeups, looks at a gate and changes of an interest set took.
pub fn measure<R: Runtime<A = Global>>(rt: &R) -> anyhow::Result<()> {
    run(rt, STEPS)
}

/// Makes so many steps of each kind, and prints the nanoseconds that each kind took.
pub fn run<R: Runtime<A = Global>>(rt: &R, turns: u32) -> anyhow::Result<()> {
    let (words, mut p) = Words::make(rt.alloc(), TABLE)?;
    let (me, s) = (CallerNo(0), SelNo(0));
    if words.draw(&mut p, me).is_err() || words.make_selector(&mut p, me, s) {
        bail!("the table isn't new");
    }
    let start = Instant::now(rt)?;
    wakes(&words, &mut p, me, s, turns);
    let woken = start.elapsed(rt)?;
    if !pins(&words, &mut p, me, s, ChanNo(0)) {
        bail!("the index isn't new");
    }
    swaps(&words, &mut p, me, s, turns);
    let swapped = start.elapsed(rt)?;
    looks(&words, &mut p, me, s, turns);
    let looked = start.elapsed(rt)?;
    println!(rt;
        "calls {} wake {} swap_interest {} look_gate {}",
        turns,
        woken.as_nanos(),
        (swapped.saturating_sub(woken)).as_nanos(),
        (looked.saturating_sub(swapped)).as_nanos()
    )?;
    Ok(())
}

fn wakes(words: &Words, p: &mut Pass, me: CallerNo, s: SelNo, turns: u32)
    requires ready { IsReady words.now p.old me }
    requires selector { IsSelector (limits_of words.now) s }
    requires made { IsTrue ((state_seen p.old).selector s.0) }
    ensures { IsReady words.now p.new me }
{
    for _ in 0..turns {
        words.wake(p, me, s);
    }
}

/// Claims index 0 for a new channel, which pins it. Says whether it did.
fn pins(words: &Words, p: &mut Pass, me: CallerNo, s: SelNo, c: ChanNo) -> bool
    requires ready { IsReady words.now p.old me }
    requires key { IsKey (limits_of words.now) s 0 }
    requires channel { IsChannel (limits_of words.now) c }
    requires first { c.0 ≡ 0 }
    ensures ready { IsReady words.now p.new me }
    ensures pinned { result ≡ true → IsTrue (has_pin (state_seen p.new) me s 0) }
{
    words.make_channel(p, me, c, Kind::Source);
    if !words.look_channel(p, me, c).made {
        return false;
    }
    if words.try_hold_bit(p, me, c).is_some() {
        return false;
    }
    !words.claim(p, me, s, 0, c)
}

fn looks(words: &Words, p: &mut Pass, me: CallerNo, s: SelNo, turns: u32)
    requires ready { IsReady words.now p.old me }
    requires selector { IsSelector (limits_of words.now) s }
    ensures { IsReady words.now p.new me }
{
    for _ in 0..turns {
        words.look_gate(p, me, s);
    }
}

fn swaps(words: &Words, p: &mut Pass, me: CallerNo, s: SelNo, turns: u32)
    requires ready { IsReady words.now p.old me }
    requires key { IsKey (limits_of words.now) s 0 }
    requires pinned { IsTrue (has_pin (state_seen p.old) me s 0) }
    ensures { IsReady words.now p.new me }
{
    words.touch(p, me, s, 0);
    for turn in 0..turns {
        words.swap_interest(p, me, s, 0, Ops::of((turn % 256) as u8));
    }
}

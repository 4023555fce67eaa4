//! A table for two callers, each in a thread of its own.
ghost use Rattle.std.specs.Prelude.{◌≡◌, IfOk};
ghost use Rattle.nio_channel.specs.Idle.{AreIdle, drawn};
ghost use Rattle.nio_history.specs.Conditions.{IsSelector};
ghost use Rattle.nio_words.specs.Passes.{IsReady, limits_of, seen};

use crate::channels::S;
use nio_base::{CallerNo, Limits};
use nio_words::{Pass, Words};
use std::alloc::Global;

const TABLE: Limits = Limits {
    callers: 2,
    selectors: 1,
    channels: 2,
    keys: 1,
};

/// Sets up, and then selects or reads.
pub const ZERO: CallerNo = CallerNo(0);

/// Wakes or writes, in a thread of its own.
pub const ONE: CallerNo = CallerNo(1);

/// A new table with a selector, and the pass that holds both callers' numbers.
pub fn two_callers(alloc: Global) -> anyhow::Result<(Words, Pass)>
    ensures { IfOk result (λ made. AreIdle made.0 made.1) }
{
    let (words, mut p) = Words::make(alloc, TABLE)?;
    words.draw(&mut p, ZERO)?;
    words.draw(&mut p, ONE)?;
    make_selector(&words, &mut p);
    Ok((words, p))
}

/// Makes the selector, in a table where nothing was done but two draws.
fn make_selector(words: &Words, p: &mut Pass)
    requires zero { IsReady words.now p.old ZERO }
    requires one { IsReady words.now p.old ONE }
    requires seen { seen p.old ≡ drawn }
    requires selector { IsSelector (limits_of words.now) S }
    ensures { AreIdle words.now p.new }
{
    words.make_selector(p, ZERO, S);
}

//! Tables that tests begin with, and the passes of two threads.
ghost use Rattle.std.specs.Prelude.{◌≡◌, IfOk};
ghost use Rattle.nio_base.specs.Limits.{IsFit};
ghost use Rattle.nio_base.specs.declared.numbers.ChanId.{ChanId as AChannel};
ghost use Rattle.nio_channel.specs.Idle.{AreIdle};
ghost use Rattle.nio_history.specs.Conditions.{IsKey};
ghost use Rattle.nio_history.specs.PassViews.{HasChannel};
ghost use Rattle.nio_words.specs.Passes.{IsPassOf, IsReady, limits_of};
ghost use Rattle.nio_words.specs.Views.{view};
ghost use Rattle.nio_table_tests.specs.Callers.{AreDrawn, MayCall};

use nio_base::{CallerNo, ChanId, ChanNo, Limits, SelNo};
use nio_words::{Pass, Words};
use std::alloc::Global;
use std::test::Fail;

/// The first caller.
pub(crate) const ZERO: CallerNo = CallerNo(0);

/// The other caller.
pub(crate) const ONE: CallerNo = CallerNo(1);

/// The first selector.
pub(crate) const S: SelNo = SelNo(0);

/// The first channels of the first three numbers.
pub(crate) const C0: ChanId = ChanId {
    number: ChanNo(0),
    serial: 0,
};

pub(crate) const C1: ChanId = ChanId {
    number: ChanNo(1),
    serial: 0,
};

pub(crate) const C2: ChanId = ChanId {
    number: ChanNo(2),
    serial: 0,
};

/// The second channels of the first two.
pub(crate) const C0_AGAIN: ChanId = ChanId {
    number: ChanNo(0),
    serial: 1,
};

pub(crate) const C1_AGAIN: ChanId = ChanId {
    number: ChanNo(1),
    serial: 1,
};

/// A table on which both callers are drawn.
pub(crate) fn drawn_table(alloc: Global, limits: Limits) -> Result<(Words, Pass), Fail>
    requires { IsFit limits }
    ensures limits { IfOk result (λ made. limits_of made.0 ≡ limits) }
    ensures drawn { IfOk result (λ made. AreDrawn made.0 made.1) }
{
    let (words, mut p) = Words::make(alloc, limits)?;
    words.draw(&mut p, ZERO)?;
    words.draw(&mut p, ONE)?;
    Ok((words, p))
}

/// A table on which both callers are drawn and a selector is made.
pub(crate) fn table(alloc: Global, limits: Limits) -> Result<(Words, Pass), Fail>
    requires { IsFit limits }
    ensures limits { IfOk result (λ made. limits_of made.0 ≡ limits) }
    ensures idle { IfOk result (λ made. AreIdle made.0 made.1) }
{
    let (words, mut p) = drawn_table(alloc, limits)?;
    words.make_selector(&mut p, ZERO, S);
    Ok((words, p))
}

/// A pass for the other caller alone.
pub(crate) fn hand_over(w: &Words, p: &mut Pass) -> Result<Pass, Fail>
    requires { AreIdle w.now p.old }
    ensures first { IfOk result (λ _. MayCall w.now p.new ZERO) }
    ensures second { IfOk result (λ given. MayCall w.now given ONE) }
    ensures channels { IfOk result (λ given. (c : AChannel) → HasChannel (view w.now p.old) c
        → HasChannel (view w.now p.new) c × HasChannel (view w.now given) c) }
{
    Ok(w.hand_over(p, ONE)?)
}

/// Whether the first key of the selector is claimed and no longer valid, as both passes have seen it together.
pub(crate) fn is_invalid(w: &Words, mut p: Pass, other: Pass) -> bool
    requires first { IsReady w.now p ZERO }
    requires second { IsPassOf w.now other }
    requires key { IsKey (limits_of w.now) S 0 }
{
    w.join(&mut p, other);
    let stage = w.look_key(&mut p, ZERO, S, 0);
    stage.claimed && !stage.is_valid_key(stage.serial)
}

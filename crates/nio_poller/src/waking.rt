//! Calls that end a selection's wait: waking, closing, interrupting.
ghost use Rattle.nio_history.specs.Conditions.{IsCaller};
ghost use Rattle.nio_history.specs.PassViews.{HasSelector};
ghost use Rattle.nio_select.specs.InProgress.{HasShut};
ghost use Rattle.nio_steps.specs.Calls.{CallClause};
ghost use Rattle.nio_steps.specs.Runs.{Completes};
ghost use Rattle.nio_steps.specs.SelectCalls.{wakeup_plan, interrupt_plan, interrupted_plan, ClosesSelector, try_finish_plan};
ghost use Rattle.nio_steps.specs.SelectCalls.{finish_finds_busy, closed};
ghost use Rattle.nio_steps.specs.Waiting.{Retries};
ghost use Rattle.nio_words.specs.Passes.{IsReady, limits_of};
ghost use Rattle.nio_words.specs.Views.{view};

use crate::bell::Bell;
use nio_base::{CallerNo, SelNo};
use nio_select::{Closing, Finish, Shutting, shut};
use nio_words::{Pass, Words};
use std::sync::Wait;
use std::thread;

/// Leaves a wakeup at the selector and rings: the selection that is in progress there, or else the next one, doesn't
/// wait. Java's `wakeup`. It succeeds on a closed selector too. Says whether one was pending there already: no
/// selection had used it up.
#[tactic(auto, unfolding(nio_steps::specs::SelectCalls::wakeup_plan))]
pub fn wakeup<B: Bell>(w: &Words, p: &mut Pass, me: CallerNo, sel: SelNo, bell: &B) -> bool
    requires ready { IsReady w.now p.old me }
    requires selector { HasSelector (view w.now p.old) sel }
    ensures call { CallClause me (Completes (wakeup_plan sel)) (view w.now p.old) (view w.now p.new) result }
    ensures ready { IsReady w.now p.new me }
{
    let pending = w.wake(p, me, sel);
    bell.ring();
    pending
}

/// Closes the selector: Java's `close`. Refuses further selections and registrations, rings, waits until nobody
/// selects there, and removes the selector's keys. Says whether this call closed it; where another call did or does,
/// it doesn't wait. A caller that selects there itself would wait for ever.
pub fn close<R: Wait, B: Bell>(
    rt: &R,
    w: &Words,
    p: &mut Pass,
    me: CallerNo,
    sel: SelNo,
    bell: &B,
) -> bool
    requires ready { IsReady w.now p.old me }
    requires selector { HasSelector (view w.now p.old) sel }
    ensures call { CallClause me (ClosesSelector sel) (view w.now p.old) (view w.now p.new) result }
    ensures ready { IsReady w.now p.new me }
{
    let shutting = shut(w, p, me, sel);
    bell.ring();
    match shutting {
        Shutting::Closing(closing) => {
            finish(rt, w, p, me, closing);
            true
        }
        Shutting::AlreadyClosed => false,
    }
}

// Finishes the closing once nobody selects.
fn finish<R: Wait>(rt: &R, w: &Words, p: &mut Pass, me: CallerNo, closing: Closing)
    requires ready { IsReady w.now p.old me }
    requires closing { HasShut (view w.now p.old) me closing }
    ensures call { CallClause me (Retries (Completes (try_finish_plan closing)) finish_finds_busy)
        (view w.now p.old) (view w.now p.new) closed }
    ensures ready { IsReady w.now p.new me }
{
    let mut closing = closing;
    for _ in rt.forever() {
        match closing.try_finish(w, p, me) {
            Finish::Closed => return,
            Finish::Busy(still) => closing = still,
        }
        thread::yield_now();
    }
    unreachable!()
}

/// Sets the target's interrupt status and rings: Java's `Thread.interrupt`, for callers. A selection of the target
/// doesn't wait while its status is set.
#[tactic(auto, unfolding(nio_steps::specs::SelectCalls::interrupt_plan))]
pub fn interrupt<B: Bell>(w: &Words, p: &mut Pass, me: CallerNo, target: CallerNo, bell: &B)
    requires ready { IsReady w.now p.old me }
    requires target { IsCaller (limits_of w.now) target }
    ensures call { CallClause me (Completes (interrupt_plan target)) (view w.now p.old) (view w.now p.new) result }
    ensures ready { IsReady w.now p.new me }
{
    w.set_interrupt(p, me, target);
    bell.ring();
}

/// Whether the caller's interrupt status was set; clears it. Java's `Thread.interrupted`.
#[tactic(auto, unfolding(nio_steps::specs::SelectCalls::interrupted_plan))]
pub fn interrupted(w: &Words, p: &mut Pass, me: CallerNo) -> bool
    requires ready { IsReady w.now p.old me }
    ensures call { CallClause me (Completes interrupted_plan) (view w.now p.old) (view w.now p.new) result }
    ensures ready { IsReady w.now p.new me }
{
    w.take_interrupt(p, me)
}

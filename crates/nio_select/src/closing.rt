//! Closing a selector.
ghost use Rattle.std.specs.Prelude.{◌≡◌};
ghost use Rattle.nio_history.specs.PassViews.{HasSelector};
ghost use Rattle.nio_steps.specs.Calls.{CallClause};
ghost use Rattle.nio_steps.specs.Runs.{Completes};
ghost use Rattle.nio_steps.specs.SelectCalls.{shut_plan, try_finish_plan, closed, remove_keys as removes_keys};
ghost use Rattle.nio_words.specs.Passes.{IsReady};
ghost use Rattle.nio_words.specs.Views.{view};
ghost use Rattle.nio_select.specs.Entered.{HasEntered};
ghost use Rattle.nio_select.specs.InProgress.{HasShut, shut_reply, finish_reply, IfClosing, IfBusy};

use nio_base::{CallerNo, SelNo};
use nio_words::{Pass, Words};
use std::marker::Model;

/// A closing that was begun. It is spent by `try_finish` where that ends it, or by `forget`. Contracts see its
/// selector.
pub struct Closing {
    selector: SelNo,
}

impl Model for Closing {
    ghost use Rattle.nio_base.specs.declared.numbers.SelNo.{SelNo as Selector};

    ghost Value = { Selector };

    ghost view = { λ c. c.selector };
}

/// Whether this call began to close the selector.
pub enum Shutting {
    /// It did: the closing is still to be finished.
    Closing(Closing),
    /// Another call began to before.
    AlreadyClosed,
}

/// What came of a try to finish a closing.
pub enum Finish {
    /// The selector is closed.
    Closed,
    /// A selection is in progress there: the closing is still to be finished.
    Busy(Closing),
}

/// Begins to close a selector: selections and registrations are refused from then on.
#[tactic(auto, unfolding(nio_steps::specs::SelectCalls::shut_plan))]
pub fn shut(w: &Words, p: &mut Pass, me: CallerNo, sel: SelNo) -> Shutting
    requires ready { IsReady w.now p.old me }
    requires selector { HasSelector (view w.now p.old) sel }
    ensures call { CallClause me (Completes (shut_plan sel)) (view w.now p.old) (view w.now p.new) (shut_reply result) }
    ensures ready { IsReady w.now p.new me }
    ensures closing { IfClosing result (λ s. (s ≡ sel) × HasShut (view w.now p.new) me s) }
{
    if w.shut_bit(p, me, sel) {
        Shutting::AlreadyClosed
    } else {
        Shutting::Closing(Closing { selector: sel })
    }
}

impl Closing {
    /// Removes the selector's keys, where nobody selects there. `Busy` where somebody does.
    pub fn try_finish(self, w: &Words, p: &mut Pass, me: CallerNo) -> Finish
        requires ready { IsReady w.now p.old me }
        requires closing { HasShut (view w.now p.old) me self }
        ensures call { CallClause me (Completes (try_finish_plan self))
            (view w.now p.old) (view w.now p.new) (finish_reply result) }
        ensures ready { IsReady w.now p.new me }
        ensures still { IfBusy result (λ s. (s ≡ self) × HasShut (view w.now p.new) me s) }
    {
        if w.enter(p, me, self.selector).is_some() {
            return Finish::Busy(self);
        }
        remove_keys(w, p, me, self.selector);
        self.forget();
        Finish::Closed
    }

    /// Lets the closing go without a step. The selector stays shut, and its keys stay in it for good.
    pub fn forget(self) {
        let Closing {
            selector: _selector,
        } = self;
    }
}

// Removes each key with an index below the high-water mark.
fn remove_keys(w: &Words, p: &mut Pass, me: CallerNo, sel: SelNo)
    requires entered { HasEntered w.now p.old me sel }
    ensures call { CallClause me (Completes (removes_keys sel)) (view w.now p.old) (view w.now p.new) closed }
    ensures ready { IsReady w.now p.new me }
{
    let bound = w.look_keys(p, me, sel);
    for i in 0..bound {
        w.remove(p, me, sel, i);
    }
}

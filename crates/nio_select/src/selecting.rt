//! A selection in progress.
ghost use Rattle.std.specs.Prelude.{◌≡◌, List, is_some};
ghost use Rattle.nio_steps.specs.Calls.{CallClause};
ghost use Rattle.nio_steps.specs.Runs.{Completes};
ghost use Rattle.nio_steps.specs.SelectCalls.{Tells, leave_plan, after_marks as after_marks_plan, end_selection};
ghost use Rattle.nio_steps.specs.declared.looked.LookedKey.{LookedKey};
ghost use Rattle.nio_words.specs.Passes.{IsReady, limits_of};
ghost use Rattle.nio_words.specs.Views.{view};
ghost use Rattle.nio_select.specs.Begun.{HasBegun};
ghost use Rattle.nio_select.specs.InHand.{selection_of, list_of};
ghost use Rattle.nio_select.specs.InProgress.{Selects, GivesBack, poll_of, told_reply, IfAgain, IfDone};
ghost use Rattle.nio_select.specs.KeyChanges.{TakesNote};

use crate::asked::Asked;
use crate::changes::{Lister, Unlisted};
use crate::list::KeyList;
use crate::removing::remove_all_cancelled;
use crate::telling::{is_again, mark_asked, why_ended};
use crate::told::Told;
use nio_base::{CallerNo, SelNo};
use nio_history::Mode;
use nio_steps::Selected;
use nio_words::{Pass, Words};
use std::marker::Model;

/// A selection in progress. It is spent by `told` where that ends it, by `leave`, or by `forget`. It goes by its
/// selector's list where its looked list has a stamp. Contracts see its selector, its mode, its bound, and the keys that
/// it asks for.
pub struct Selecting {
    pub(crate) selector: SelNo,
    pub(crate) mode: Mode,
    pub(crate) bound: u32,
    pub(crate) asked: Asked,
}

impl Model for Selecting {
    ghost use Rattle.nio_select.specs.InHand.{InHand};

    ghost Value = { InHand };

    ghost view = { λ s. record {
      selector = s.selector;
      mode = s.mode;
      bound = s.bound;
      asked = s.asked;
    } };
}

/// What came of a poller's answer.
pub enum After {
    /// The selection is over. The selector's list comes back, where the selection went by it.
    Done(Selected, Option<KeyList>),
    /// The selection goes on with a further poll.
    Again(Selecting),
}

impl Selecting {
    /// The keys that the selection asks for.
    pub fn asked(&self) -> &Asked
        ensures { result.now ≡ self.now.asked }
    {
        &self.asked
    }

    /// How long it waits.
    pub fn mode(&self) -> Mode
        ensures { result ≡ self.now.mode }
    {
        self.mode
    }

    /// Whether it goes by the selector's list.
    pub fn is_listed(&self) -> bool
        ensures { result ≡ is_some self.now.asked.stamp }
    {
        self.asked.stamp().is_some()
    }

    /// Marks the keys of which the poller told something that they are interested in. `Again` where none was
    /// marked and nothing else ends the wait. Else the selection is over: all cancelled keys are removed, also those
    /// that were registered meanwhile, a pending wakeup is used up, and the turn is free.
    pub fn told(self, w: &Words, p: &mut Pass, me: CallerNo, told: &Told) -> After
        requires ready { IsReady w.now p.old me }
        requires begun { Selects (view w.now p.old) me (selection_of self) }
        ensures call { CallClause me (Tells (selection_of self) (poll_of told.now))
            (view w.now p.old) (view w.now p.new) (told_reply result) }
        ensures ready { IsReady w.now p.new me }
        ensures goes_on { IfAgain result (λ s. (s ≡ self) × Selects (view w.now p.new) me (selection_of s)) }
        ensures done { IfDone result (GivesBack (view w.now p.new) me self) }
    {
        let mut unlisted = Unlisted;
        self.told_listing(w, p, me, told, &mut unlisted)
    }

    /// Tells as `told` does, while the lister takes note of each key that is marked and of each that is removed, in the
    /// order of the steps: of none where the selection goes on.
    pub fn told_listing<L: Lister>(
        self,
        w: &Words,
        p: &mut Pass,
        me: CallerNo,
        told: &Told,
        lister: &mut L,
    ) -> After
        requires ready { IsReady w.now p.old me }
        requires begun { Selects (view w.now p.old) me (selection_of self) }
        ensures call { CallClause me (Tells (selection_of self) (poll_of told.now))
            (view w.now p.old) (view w.now p.new) (told_reply result) }
        ensures ready { IsReady w.now p.new me }
        ensures goes_on { IfAgain result (λ s. (s ≡ self) × Selects (view w.now p.new) me (selection_of s)) }
        ensures done { IfDone result (GivesBack (view w.now p.new) me self) }
        ensures listed { TakesNote L.noted self.asked.keys me (view w.now p.old) (view w.now p.new) lister.old lister.new }
        ensures nothing { IfAgain result (λ s. lister.new ≡ lister.old) }
    {
        let mut selecting = self;
        let pairs = told.pairs.as_slice();
        let count = mark_asked(
            w,
            p,
            me,
            selecting.selector,
            &mut selecting.asked,
            pairs,
            lister,
        );
        selecting.after_marks(w, p, me, told.elapsed, count, lister)
    }

    // Goes on or ends, after so many marks that succeeded.
    fn after_marks<L: Lister>(
        self,
        w: &Words,
        p: &mut Pass,
        me: CallerNo,
        elapsed: bool,
        count: u32,
        lister: &mut L,
    ) -> After
        requires begun { HasBegun w.now p.old me self.selector }
        ensures call { CallClause me (Completes (after_marks_plan (selection_of self) elapsed count))
            (view w.now p.old) (view w.now p.new) (told_reply result) }
        ensures ready { IsReady w.now p.new me }
        ensures same { IfAgain result (λ s. s ≡ self) }
        ensures nothing { IfAgain result (λ s. (count ≡ 0) × (lister.new ≡ lister.old)) }
        ensures list { IfDone result (λ list. list ≡ list_of self) }
        ensures listed { (asked : List LookedKey) → TakesNote L.noted asked me (view w.now p.old) (view w.now p.new)
            lister.old lister.new }
    {
        let gate = w.look_gate(p, me, self.selector);
        let interrupted = w.look_interrupt(p, me);
        if is_again(self.mode, count, gate, interrupted, elapsed) {
            return After::Again(self);
        }
        let why = why_ended(self.mode, count, gate, interrupted);
        self.end(w, p, me, Selected { count, why }, lister)
    }

    // Removes the cancelled keys, uses up the wakeup, and gives the turn back.
    fn end<L: Lister>(
        self,
        w: &Words,
        p: &mut Pass,
        me: CallerNo,
        answer: Selected,
        lister: &mut L,
    ) -> After
        requires begun { HasBegun w.now p.old me self.selector }
        ensures call { CallClause me (Completes (end_selection (selection_of self) answer))
            (view w.now p.old) (view w.now p.new) (told_reply result) }
        ensures ready { IsReady w.now p.new me }
        ensures over { IfAgain result (λ s. ⊥) }
        ensures list { IfDone result (λ list. list ≡ list_of self) }
        ensures listed { (asked : List LookedKey) → TakesNote L.noted asked me (view w.now p.old) (view w.now p.new)
            lister.old lister.new }
    {
        remove_all_cancelled(w, p, me, self.selector, self.is_listed(), lister);
        w.end_wake(p, me, self.selector);
        w.give_turn(p, me, self.selector);
        After::Done(answer, self.into_list())
    }

    /// Gives the turn back after a poll that failed. A pending wakeup stays, and so do the keys' marks. The selector's
    /// list comes back, where the selection went by it.
    pub fn leave(self, w: &Words, p: &mut Pass, me: CallerNo) -> Option<KeyList>
        requires ready { IsReady w.now p.old me }
        requires begun { Selects (view w.now p.old) me (selection_of self) }
        ensures call { CallClause me (Completes (leave_plan (selection_of self))) (view w.now p.old) (view w.now p.new) tt }
        ensures ready { IsReady w.now p.new me }
        ensures back { GivesBack (view w.now p.new) me self result }
    {
        w.give_turn(p, me, self.selector);
        self.into_list()
    }

    // The selector's list, where the selection goes by it.
    fn into_list(self) -> Option<KeyList>
        ensures { result ≡ list_of self }
    {
        let Selecting {
            selector,
            mode: _mode,
            bound: _bound,
            asked,
        } = self;
        match asked.stamp() {
            Some(stamp) => Some(KeyList {
                selector,
                number: stamp.number,
                asked,
            }),
            None => None,
        }
    }

    /// Lets the selection go without a step. Its turn stays taken for good, and the selector's list is lost.
    pub fn forget(self) {
        let Selecting {
            selector: _selector,
            mode: _mode,
            bound: _bound,
            asked: _asked,
        } = self;
    }
}

//! What a caller has in progress: selections, and closings of selectors.
ghost use Rattle.std.specs.Prelude.{◌≡◌, ◌≢◌, ◌<◌, None, Some, option_map};
ghost use Rattle.nio_base.specs.declared.numbers.SelNo.{SelNo as Number};
ghost use Rattle.nio_caller.specs.Callers.{closing_in, selection_in};

use nio_base::SelNo;
use nio_select::{Closing, Selecting};
use std::marker::Model;
use std::{array, mem};

// As many selectors as a table has at most.
const PLACES: usize = 16;

/// A selection in progress that is kept. Where it is let go, its turn stays taken for good.
struct KeptSelection {
    selection: Selecting,
}

impl Model for KeptSelection {
    ghost use Rattle.nio_select.specs.InHand.{InHand};

    ghost Value = { InHand };

    ghost view = { λ kept. kept.selection };
}

impl Drop for KeptSelection {
    fn drop(self) {
        let KeptSelection { selection } = self;
        selection.forget();
    }
}

/// A closing in progress that is kept. Where it is let go, the selector's keys stay in it for good.
struct KeptClosing {
    closing: Closing,
}

impl Model for KeptClosing {
    ghost use Rattle.nio_base.specs.declared.numbers.SelNo.{SelNo as Selector};

    ghost Value = { Selector };

    ghost view = { λ kept. kept.closing };
}

impl Drop for KeptClosing {
    fn drop(self) {
        let KeptClosing { closing } = self;
        closing.forget();
    }
}

impl KeptSelection {
    fn into_selection(self) -> Selecting
        ensures { result ≡ self }
    {
        let KeptSelection { selection } = self;
        selection
    }
}

impl KeptClosing {
    fn into_closing(self) -> Closing
        ensures { result ≡ self }
    {
        let KeptClosing { closing } = self;
        closing
    }
}

/// The selections and the closings that a caller has in progress, each at the place of its selector's number.
#[derive(Drop)]
pub(crate) struct InProgress {
    selections: [Option<KeptSelection>; PLACES],
    closings: [Option<KeptClosing>; PLACES],
}

impl Model for InProgress {
    ghost use Rattle.nio_caller.specs.Callers.{Progress};

    ghost Value = { Progress };

    ghost view = { λ p. record { selections = p.selections; closings = p.closings } };
}

impl InProgress {
    // Nothing is in progress.
    pub(crate) fn none() -> InProgress
        ensures selections { (s : Number) → selection_in result s ≡ None }
        ensures closings { (s : Number) → closing_in result s ≡ None }
    {
        InProgress {
            selections: array::from_fn(|_| None),
            closings: array::from_fn(|_| None),
        }
    }

    // The selection in progress on this selector.
    pub(crate) fn selection(&self, sel: SelNo) -> Option<&Selecting>
        ensures { option_map (λ shown. shown.now) result ≡ selection_in self.now sel }
    {
        match self.selections.get(sel.0 as usize) {
            Some(Some(kept)) => Some(&kept.selection),
            Some(None) | None => None,
        }
    }

    // Takes it out.
    #[tactic(auto, using(std::proofs::lemmas::List::get_or_past))]
    pub(crate) fn take_selection(&mut self, sel: SelNo) -> Option<Selecting>
        ensures taken { result ≡ selection_in self.old sel }
        ensures left { selection_in self.new sel ≡ None }
        ensures others { (s : Number) → s ≢ sel → selection_in self.new s ≡ selection_in self.old s }
        ensures closings { self.new.closings ≡ self.old.closings }
        ensures nothing { result ≡ None → self.new ≡ self.old }
    {
        let place = sel.0 as usize;
        let selections = &mut self.selections[..];
        if place >= selections.len() {
            return None;
        }
        match mem::replace(&mut selections[place], None) {
            Some(kept) => Some(kept.into_selection()),
            None => None,
        }
    }

    // Puts a selection at its place.
    pub(crate) fn put_selection(&mut self, sel: SelNo, selection: Selecting)
        requires { sel.0 < 16 }
        ensures put { selection_in self.new sel ≡ Some selection }
        ensures others { (s : Number) → s ≢ sel → selection_in self.new s ≡ selection_in self.old s }
        ensures closings { self.new.closings ≡ self.old.closings }
    {
        self.selections[sel.0 as usize] = Some(KeptSelection { selection });
    }

    // Takes the closing of this selector out.
    #[tactic(auto, using(std::proofs::lemmas::List::get_or_past))]
    pub(crate) fn take_closing(&mut self, sel: SelNo) -> Option<Closing>
        ensures taken { result ≡ closing_in self.old sel }
        ensures left { closing_in self.new sel ≡ None }
        ensures others { (s : Number) → s ≢ sel → closing_in self.new s ≡ closing_in self.old s }
        ensures selections { self.new.selections ≡ self.old.selections }
        ensures nothing { result ≡ None → self.new ≡ self.old }
    {
        let place = sel.0 as usize;
        let closings = &mut self.closings[..];
        if place >= closings.len() {
            return None;
        }
        match mem::replace(&mut closings[place], None) {
            Some(kept) => Some(kept.into_closing()),
            None => None,
        }
    }

    // Puts a closing at its place.
    pub(crate) fn put_closing(&mut self, sel: SelNo, closing: Closing)
        requires { sel.0 < 16 }
        ensures put { closing_in self.new sel ≡ Some closing }
        ensures others { (s : Number) → s ≢ sel → closing_in self.new s ≡ closing_in self.old s }
        ensures selections { self.new.selections ≡ self.old.selections }
    {
        self.closings[sel.0 as usize] = Some(KeptClosing { closing });
    }
}

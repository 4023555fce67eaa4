//! The selectors' lists that a caller took.
ghost use Rattle.std.specs.Prelude.{◌≡◌, ◌≢◌, ◌<◌, IfSome, None};
ghost use Rattle.nio_base.specs.declared.numbers.SelNo.{SelNo as Number};
ghost use Rattle.nio_caller.specs.Callers.{held_in};
ghost use Rattle.nio_caller.specs.Selections.{HasBack};

use nio_base::SelNo;
use nio_select::{KeyList, Selector};
use std::marker::Model;
use std::{array, mem};

/// The selectors whose lists a caller took, each at the place of its number. A table has at most 16 selectors.
#[derive(Debug, Drop)]
pub(crate) struct Lists {
    selectors: [Option<Selector>; 16],
}

impl Model for Lists {
    ghost use Rattle.std.specs.Prelude.{List, Option};
    ghost use Rattle.nio_select.specs.InHand.{HeldSelector};

    ghost Value = { List (Option HeldSelector) };

    ghost view = { λ lists. lists.selectors };
}

impl Lists {
    // No list was taken.
    pub(crate) fn none() -> Lists
        ensures { (s : Number) → held_in result s ≡ record { number = s; list = None } }
    {
        Lists {
            selectors: array::from_fn(|_| None),
        }
    }

    // Takes the selector out, with its list where that is here.
    pub(crate) fn take(&mut self, sel: SelNo) -> Selector
        requires { sel.0 < 16 }
        ensures taken { result ≡ held_in self.old sel }
        ensures others { (s : Number) → s ≢ sel → held_in self.new s ≡ held_in self.old s }
    {
        match mem::replace(&mut self.selectors[sel.0 as usize], None) {
            Some(selector) => selector,
            None => Selector::without_list(sel),
        }
    }

    // Puts a selector at its place.
    pub(crate) fn put(&mut self, selector: Selector)
        requires { selector.number.0 < 16 }
        ensures put { held_in self.new selector.number ≡ selector }
        ensures others { (s : Number) → s ≢ selector.number → held_in self.new s ≡ held_in self.old s }
    {
        let place = selector.number().0 as usize;
        self.selectors[place] = Some(selector);
    }

    // Puts the selector's list, which comes back, at its place, where there is one.
    pub(crate) fn take_back(&mut self, sel: SelNo, list: Option<KeyList>)
        requires place { sel.0 < 16 }
        requires its { IfSome list (λ list. list.selector ≡ sel) }
        ensures { HasBack list self.old self.new }
    {
        if let Some(list) = list {
            let mut selector = Selector::without_list(sel);
            selector.give_back(Some(list));
            self.put(selector);
        }
    }
}

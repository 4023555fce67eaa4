//! A selector, as one caller selects on it.
ghost use Rattle.std.specs.Prelude.{◌≡◌, None, IfOk, IfErr, IfSome, is_some};
ghost use Rattle.nio_history.specs.PassViews.{HasSelector, done_between};
ghost use Rattle.nio_steps.specs.Calls.{CallClause};
ghost use Rattle.nio_steps.specs.Runs.{Completes};
ghost use Rattle.nio_steps.specs.SelectCalls.{Begins, take_list_plan};
ghost use Rattle.nio_words.specs.Passes.{IsReady};
ghost use Rattle.nio_words.specs.Views.{view};
ghost use Rattle.nio_select.specs.Asked.{AreTaken};
ghost use Rattle.nio_select.specs.InHand.{empty_list, known_by, selection_of, TakesOnList};
ghost use Rattle.nio_select.specs.InProgress.{MaySelect, Selects};
ghost use Rattle.nio_select.specs.Listed.{ok_seen};

use crate::beginning::try_begin;
use crate::list::{KeyList, Refused, take_list};
use crate::selecting::Selecting;
use nio_base::{CallerNo, SelNo};
use nio_history::Mode;
use nio_steps::BeginError;
use nio_words::{Pass, Words};
use std::alloc::Global;
use std::marker::Model;
use std::mem;

/// A selector, and its list where the caller has that. A selection is lent the list, and gives it back at its end.
/// Without the list a selection looks at every key; with it, at those that were touched.
#[derive(Debug, Drop)]
pub struct Selector {
    number: SelNo,
    list: Option<KeyList>,
}

impl Model for Selector {
    ghost use Rattle.std.specs.Prelude.{◌≡◌, IfSome};
    ghost use Rattle.nio_select.specs.InHand.{HeldSelector};

    ghost Value = { HeldSelector };

    ghost view = { λ s. record { number = s.number; list = s.list } };

    ghost invariant = { λ s. IfSome s.list (λ list. list.selector ≡ s.number) };
}

impl Selector {
    /// The selector, without its list.
    pub fn without_list(number: SelNo) -> Selector
        ensures { result ≡ record { number = number; list = None } }
    {
        Selector { number, list: None }
    }

    /// The selector, and its list where nobody has that. The list is empty then.
    pub fn take(alloc: Global, w: &Words, p: &mut Pass, me: CallerNo, number: SelNo) -> Selector
        requires ready { IsReady w.now p.old me }
        requires selector { HasSelector (view w.now p.old) number }
        ensures call { CallClause me (Completes (take_list_plan number))
            (view w.now p.old) (view w.now p.new) (is_some result.list) }
        ensures ready { IsReady w.now p.new me }
        ensures number { result.number ≡ number }
        ensures empty { IfSome result.list (λ list. list ≡ empty_list number) }
        ensures may { MaySelect (view w.now p.new) me result }
    {
        Selector {
            number,
            list: take_list(alloc, w, p, me, number),
        }
    }

    /// Its number.
    pub fn number(&self) -> SelNo
        ensures { result ≡ self.now.number }
    {
        self.number
    }

    /// Whether the caller has its list.
    pub fn has_list(&self) -> bool
        ensures { result ≡ is_some self.now.list }
    {
        self.list.is_some()
    }

    /// Begins a selection, by the list where it has that: takes the selector's turn, removes the keys that were cancelled,
    /// and looks at the interest of those that are valid. `Busy` where a selection is in progress there, also one of the
    /// caller's own. The list is lent to the selection.
    pub fn begin(
        &mut self,
        alloc: Global,
        w: &Words,
        p: &mut Pass,
        me: CallerNo,
        mode: Mode,
    ) -> Result<Selecting, BeginError>
        requires ready { IsReady w.now p.old me }
        requires may { MaySelect (view w.now p.old) me self.old }
        ensures call { CallClause me (Begins self.old.number mode (known_by self.old))
            (view w.now p.old) (view w.now p.new) (ok_seen selection_of result) }
        ensures ready { IsReady w.now p.new me }
        ensures begun { IfOk result (λ s. Selects (view w.now p.new) me (selection_of s)) }
        ensures lent { IfOk result (λ s. (self.new ≡ record self.old { list = None }) × TakesOnList self.old s) }
        ensures taken { IfSome self.old.list (λ _. IfOk result (λ s. AreTaken self.old.number
            (done_between me (view w.now p.old) (view w.now p.new)) s.asked.changed)) }
        ensures refused { IfErr result (λ _. (self.new ≡ self.old) × MaySelect (view w.now p.new) me self.new) }
    {
        match mem::replace(&mut self.list, None) {
            Some(list) => match list.begin(w, p, me, mode) {
                Ok(selection) => Ok(selection),
                Err(Refused { error, list }) => {
                    self.list = Some(list);
                    Err(error)
                }
            },
            None => try_begin(alloc, w, p, me, self.number, mode),
        }
    }

    /// Takes back what a selection on this selector gave back at its end: the selector, whose list was lent, has this list
    /// then, or none.
    pub fn give_back(&mut self, list: Option<KeyList>)
        requires lent { self.old.list ≡ None }
        requires its { IfSome list (λ list. list.selector ≡ self.old.number) }
        ensures { self.new ≡ record self.old { list = list } }
    {
        self.list = list;
    }
}

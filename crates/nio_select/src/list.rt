//! A selector's list: what the caller that has it knows of the selector's valid keys.
ghost use Rattle.std.specs.Prelude.{◌≡◌, [], Some, IfOk, IfErr, IfSome, is_some};
ghost use Rattle.nio_history.specs.PassViews.{HasSelector, done_between};
ghost use Rattle.nio_steps.specs.Calls.{CallClause};
ghost use Rattle.nio_steps.specs.Runs.{Completes};
ghost use Rattle.nio_steps.specs.SelectCalls.{Begins, take_list_plan};
ghost use Rattle.nio_words.specs.Passes.{IsReady};
ghost use Rattle.nio_words.specs.Views.{view};
ghost use Rattle.nio_select.specs.Asked.{AreTaken, Changes};
ghost use Rattle.nio_select.specs.InHand.{next_number, selection_of};
ghost use Rattle.nio_select.specs.InProgress.{begun_or_refused, HasList, Selects};

use crate::asked::Asked;
use crate::beginning::begin;
use crate::selecting::Selecting;
use crate::stamp::Stamp;
use nio_base::{CallerNo, SelNo};
use nio_history::Mode;
use nio_steps::BeginError;
use nio_words::{Pass, Words};
use std::alloc::Global;
use std::marker::Model;

/// A selector's list. The caller that took it has it for good, and hands it from selection to selection: a selection
/// that goes by it looks only at the keys that were touched since. Contracts see the selector, the keys of the list, and
/// the number of the last beginning that took it on.
#[derive(Debug, Drop)]
pub struct KeyList {
    pub(crate) selector: SelNo,
    pub(crate) number: u64,
    pub(crate) asked: Asked,
}

impl Model for KeyList {
    ghost use Rattle.nio_select.specs.InHand.{HeldList};

    ghost Value = { HeldList };

    ghost view = { λ list. record { selector = list.selector; number = list.number; keys = list.asked.keys } };
}

/// A beginning that was refused. The list is as it was.
#[derive(Debug, Drop)]
pub struct Refused {
    /// Why.
    pub error: BeginError,
    /// The list.
    pub list: KeyList,
}

/// Takes the selector's list, where nobody has it. It is empty then.
#[tactic(auto, unfolding(nio_steps::specs::SelectCalls::take_list_plan))]
pub fn take_list(
    alloc: Global,
    w: &Words,
    p: &mut Pass,
    me: CallerNo,
    sel: SelNo,
) -> Option<KeyList>
    requires ready { IsReady w.now p.old me }
    requires selector { HasSelector (view w.now p.old) sel }
    ensures call { CallClause me (Completes (take_list_plan sel))
        (view w.now p.old) (view w.now p.new) (is_some result) }
    ensures ready { IsReady w.now p.new me }
    ensures list { IfSome result (λ list. (list ≡ record { selector = sel; number = 0; keys = [] })
        × HasList (view w.now p.new) me list) }
{
    if w.take_list(p, me, sel).is_some() {
        return None;
    }
    Some(KeyList {
        selector: sel,
        number: 0,
        asked: Asked::new(alloc),
    })
}

impl KeyList {
    /// Begins a selection that goes by the list: takes the selector's turn, takes the bits of the indexes that were
    /// touched, removes their keys that were cancelled, and looks at the interest of those that are valid. `Busy` where a
    /// selection is in progress there. A refusal gives the list back.
    pub fn begin(
        self,
        w: &Words,
        p: &mut Pass,
        me: CallerNo,
        mode: Mode,
    ) -> Result<Selecting, Refused>
        requires ready { IsReady w.now p.old me }
        requires list { HasList (view w.now p.old) me self }
        ensures call { CallClause me (Begins self.selector mode (Some self.keys))
            (view w.now p.old) (view w.now p.new) (begun_or_refused result) }
        ensures ready { IsReady w.now p.new me }
        ensures begun { IfOk result (λ s. Selects (view w.now p.new) me (selection_of s)) }
        ensures selector { IfOk result (λ s. s.selector ≡ self.selector) }
        ensures stamp { IfOk result (λ s. s.asked.stamp
            ≡ Some (record { selector = self.selector; number = next_number self.number })) }
        ensures changed { IfOk result (λ s. Changes self.keys s.asked.keys s.asked.changed) }
        ensures taken { IfOk result (λ s. AreTaken self.selector
            (done_between me (view w.now p.old) (view w.now p.new)) s.asked.changed) }
        ensures refused { IfErr result (λ refused. (refused.list ≡ self) × HasList (view w.now p.new) me self) }
    {
        let KeyList {
            selector,
            number,
            mut asked,
        } = self;
        asked.set_stamp(Stamp {
            selector,
            number: number.wrapping_add(1),
        });
        match begin(w, p, me, selector, &mut asked) {
            Ok(bound) => Ok(Selecting {
                selector,
                mode,
                bound,
                asked,
            }),
            Err(error) => Err(Refused {
                error,
                list: KeyList {
                    selector,
                    number,
                    asked,
                },
            }),
        }
    }
}

//! Beginning a selection.
ghost use Rattle.std.specs.Prelude.{◌≡◌, ◌+◌, ◌*◌, ◌<◌, ◌≤◌, None, [], IfOk, IfErr, IsTrue, IsFalse, is_some};
ghost use Rattle.nio_history.specs.Conditions.{IsKey, IsSelector, has_list, has_turn};
ghost use Rattle.nio_history.specs.PassViews.{HasSelector, done_between};
ghost use Rattle.nio_history.specs.declared.found.Mode.{Mode as SelectMode};
ghost use Rattle.nio_steps.specs.Calls.{CallClause};
ghost use Rattle.nio_steps.specs.ChannelCalls.{words_below as count_words_below};
ghost use Rattle.nio_steps.specs.Runs.{Completes};
ghost use Rattle.nio_steps.specs.SelectCalls.{Begins};
ghost use Rattle.nio_steps.specs.Looking.{look_over as looks_over, look_valid as looks_valid};
ghost use Rattle.nio_steps.specs.Looking.{look_at_keys as looks_at_keys, over_not_free, over_word};
ghost use Rattle.nio_words.specs.Passes.{IsReady, limits_of, state_seen};
ghost use Rattle.nio_words.specs.Views.{view};
ghost use Rattle.nio_select.specs.Asked.{AreBelow, AreTaken, Changes, IsBeside, known_of};
ghost use Rattle.nio_select.specs.Beginning.{BeginsOpen, BeginsWithTurn, BeginsBelow, begun_with, MayFill};
ghost use Rattle.nio_select.specs.Begun.{HasBegun};
ghost use Rattle.nio_select.specs.InHand.{selection_of};
ghost use Rattle.nio_select.specs.InProgress.{Selects};
ghost use Rattle.nio_select.specs.Listed.{ok_seen};

use crate::asked::Asked;
use crate::removing::{remove_cancelled, words_below};
use crate::selecting::Selecting;
use crate::stages::{is_in_cancelled_set, is_valid};
use crate::touched::list_words;
use nio_base::{CallerNo, SelNo};
use nio_history::{Mode, Stage};
use nio_steps::BeginError;
use nio_words::{Pass, Words};
use std::alloc::Global;

/// Begins a selection without the selector's list: takes the selector's turn, removes the keys that were cancelled, and
/// looks at the interest of each valid key. `Busy` where a selection is in progress there, also one of the caller's own.
pub fn try_begin(
    alloc: Global,
    w: &Words,
    p: &mut Pass,
    me: CallerNo,
    sel: SelNo,
    mode: Mode,
) -> Result<Selecting, BeginError>
    requires ready { IsReady w.now p.old me }
    requires selector { HasSelector (view w.now p.old) sel }
    ensures call { CallClause me (Begins sel mode None) (view w.now p.old) (view w.now p.new) (ok_seen selection_of result) }
    ensures ready { IsReady w.now p.new me }
    ensures begun { IfOk result (λ s. Selects (view w.now p.new) me (selection_of s)) }
    ensures selector { IfOk result (λ s. s.selector ≡ sel) }
    ensures unlisted { IfOk result (λ s. s.asked.stamp ≡ None) }
{
    let mut asked = Asked::new(alloc);
    match begin(w, p, me, sel, &mut asked) {
        Ok(bound) => Ok(Selecting {
            selector: sel,
            mode,
            bound,
            asked,
        }),
        Err(error) => Err(error),
    }
}

// Begins a selection, with the selector's list where `asked` has a stamp, and leaves the looked list there. Answers the
// bound of the selection. A refusal leaves the keys.
pub(crate) fn begin(
    w: &Words,
    p: &mut Pass,
    me: CallerNo,
    sel: SelNo,
    asked: &mut Asked,
) -> Result<u32, BeginError>
    requires may { MayFill w.now p.old me sel asked.old }
    ensures call { (mode : SelectMode) → CallClause me (Begins sel mode (known_of asked.old))
        (view w.now p.old) (view w.now p.new) (begun_with sel mode asked.new result) }
    ensures ready { IsReady w.now p.new me }
    ensures stamp { asked.new.stamp ≡ asked.old.stamp }
    ensures below { AreBelow (limits_of w.now).keys asked.new.keys }
    ensures refused { IfErr result (λ _. asked.new.keys ≡ asked.old.keys) }
    ensures changed { IfOk result (λ _. IsTrue (is_some asked.old.stamp)
        → Changes asked.old.keys asked.new.keys asked.new.changed) }
    ensures taken { IfOk result (λ _. IsTrue (is_some asked.old.stamp)
        → AreTaken sel (done_between me (view w.now p.old) (view w.now p.new)) asked.new.changed) }
{
    if w.look_gate(p, me, sel).shut {
        return Err(BeginError::ClosedSelector);
    }
    begin_open(w, p, me, sel, asked)
}

// Begins the selection, whose gate was found not shut.
fn begin_open(
    w: &Words,
    p: &mut Pass,
    me: CallerNo,
    sel: SelNo,
    asked: &mut Asked,
) -> Result<u32, BeginError>
    requires may { MayFill w.now p.old me sel asked.old }
    ensures call { (mode : SelectMode) → CallClause me (BeginsOpen sel mode (known_of asked.old))
        (view w.now p.old) (view w.now p.new) (begun_with sel mode asked.new result) }
    ensures ready { IsReady w.now p.new me }
    ensures stamp { asked.new.stamp ≡ asked.old.stamp }
    ensures below { AreBelow (limits_of w.now).keys asked.new.keys }
    ensures refused { IfErr result (λ _. asked.new.keys ≡ asked.old.keys) }
    ensures changed { IfOk result (λ _. IsTrue (is_some asked.old.stamp)
        → Changes asked.old.keys asked.new.keys asked.new.changed) }
    ensures taken { IfOk result (λ _. IsTrue (is_some asked.old.stamp)
        → AreTaken sel (done_between me (view w.now p.old) (view w.now p.new)) asked.new.changed) }
{
    if w.take_turn(p, me, sel).is_some() {
        return Err(BeginError::Busy);
    }
    begin_with_turn(w, p, me, sel, asked)
}

fn begin_with_turn(
    w: &Words,
    p: &mut Pass,
    me: CallerNo,
    sel: SelNo,
    asked: &mut Asked,
) -> Result<u32, BeginError>
    requires may { MayFill w.now p.old me sel asked.old }
    requires turn { IsTrue (has_turn (state_seen p.old) me sel) }
    ensures call { (mode : SelectMode) → CallClause me (BeginsWithTurn sel mode (known_of asked.old))
        (view w.now p.old) (view w.now p.new) (begun_with sel mode asked.new result) }
    ensures ready { IsReady w.now p.new me }
    ensures stamp { asked.new.stamp ≡ asked.old.stamp }
    ensures below { AreBelow (limits_of w.now).keys asked.new.keys }
    ensures refused { IfErr result (λ _. asked.new.keys ≡ asked.old.keys) }
    ensures changed { IfOk result (λ _. IsTrue (is_some asked.old.stamp)
        → Changes asked.old.keys asked.new.keys asked.new.changed) }
    ensures taken { IfOk result (λ _. IsTrue (is_some asked.old.stamp)
        → AreTaken sel (done_between me (view w.now p.old) (view w.now p.new)) asked.new.changed) }
{
    if w.begin_look(p, me, sel).shut {
        w.give_turn(p, me, sel);
        return Err(BeginError::ClosedSelector);
    }
    let bound = w.look_keys(p, me, sel);
    begin_below(w, p, me, sel, bound, asked)
}

// Makes the looked list of the selection. Its memory is taken before the first look at an index.
fn begin_below(
    w: &Words,
    p: &mut Pass,
    me: CallerNo,
    sel: SelNo,
    bound: u32,
    asked: &mut Asked,
) -> Result<u32, BeginError>
    requires may { MayFill w.now p.old me sel asked.old }
    requires begun { HasBegun w.now p.old me sel }
    requires bound { bound ≤ (limits_of w.now).keys }
    ensures call { (mode : SelectMode) → CallClause me (BeginsBelow sel mode (known_of asked.old) bound)
        (view w.now p.old) (view w.now p.new) (begun_with sel mode asked.new result) }
    ensures ready { IsReady w.now p.new me }
    ensures stamp { asked.new.stamp ≡ asked.old.stamp }
    ensures below { AreBelow (limits_of w.now).keys asked.new.keys }
    ensures refused { IfErr result (λ _. asked.new.keys ≡ asked.old.keys) }
    ensures changed { IfOk result (λ _. IsTrue (is_some asked.old.stamp)
        → Changes asked.old.keys asked.new.keys asked.new.changed) }
    ensures taken { IfOk result (λ _. IsTrue (is_some asked.old.stamp)
        → AreTaken sel (done_between me (view w.now p.old) (view w.now p.new)) asked.new.changed) }
{
    if asked.make_room(words_below(w, bound)).is_err() {
        w.give_turn(p, me, sel);
        return Err(BeginError::Memory);
    }
    look_at_keys(w, p, me, sel, bound, asked);
    Ok(bound)
}

// Looks at the keys below the bound: at those that were touched, where the selection goes by the selector's list.
fn look_at_keys(w: &Words, p: &mut Pass, me: CallerNo, sel: SelNo, bound: u32, asked: &mut Asked)
    requires may { MayFill w.now p.old me sel asked.old }
    requires begun { HasBegun w.now p.old me sel }
    requires bound { bound ≤ (limits_of w.now).keys }
    requires places { 64 * count_words_below bound ≤ asked.old.bound }
    requires room { IsTrue (is_some asked.old.stamp) → 64 * count_words_below bound ≤ asked.old.room }
    requires unchanged { asked.old.changed ≡ [] }
    ensures call { CallClause me (Completes (looks_at_keys sel bound (known_of asked.old)))
        (view w.now p.old) (view w.now p.new) asked.new.keys }
    ensures ready { IsReady w.now p.new me }
    ensures beside { IsBeside asked.old asked.new }
    ensures below { AreBelow (limits_of w.now).keys asked.new.keys }
    ensures changed { IsTrue (is_some asked.old.stamp) → Changes asked.old.keys asked.new.keys asked.new.changed }
    ensures taken { IsTrue (is_some asked.old.stamp)
        → AreTaken sel (done_between me (view w.now p.old) (view w.now p.new)) asked.new.changed }
{
    if asked.stamp().is_some() {
        list_words(w, p, me, sel, bound, asked);
    } else {
        look_over_all(w, p, me, sel, bound, asked);
    }
}

// Looks at each index below the bound that isn't free.
fn look_over_all(w: &Words, p: &mut Pass, me: CallerNo, sel: SelNo, bound: u32, asked: &mut Asked)
    requires begun { HasBegun w.now p.old me sel }
    requires bound { bound ≤ (limits_of w.now).keys }
    requires empty { asked.old.keys ≡ [] }
    requires places { 64 * count_words_below bound ≤ asked.old.bound }
    ensures call { CallClause me (Completes (over_not_free sel bound (looks_over sel) []))
        (view w.now p.old) (view w.now p.new) asked.new.keys }
    ensures begun { HasBegun w.now p.new me sel }
    ensures beside { IsBeside asked.old asked.new }
    ensures below { AreBelow (limits_of w.now).keys asked.new.keys }
{
    for j in 0..words_below(w, bound) {
        look_over_word(w, p, me, sel, bound, j, asked);
    }
}

// The same of the 64 indexes from `64 * j` on: it goes from one that isn't free to the next.
fn look_over_word(
    w: &Words,
    p: &mut Pass,
    me: CallerNo,
    sel: SelNo,
    bound: u32,
    j: u32,
    asked: &mut Asked,
)
    requires begun { HasBegun w.now p.old me sel }
    requires bound { bound ≤ (limits_of w.now).keys }
    requires indexes { 64 * j < (limits_of w.now).keys }
    requires places { 64 * j + 64 ≤ asked.old.bound }
    requires below { AreBelow (64 * j) asked.old.keys }
    ensures call { CallClause me (Completes (over_word sel bound (looks_over sel) j asked.old.keys))
        (view w.now p.old) (view w.now p.new) asked.new.keys }
    ensures begun { HasBegun w.now p.new me sel }
    ensures beside { IsBeside asked.old asked.new }
    ensures below { AreBelow (64 * j + 64) asked.new.keys }
    ensures within { AreBelow bound asked.old.keys → AreBelow bound asked.new.keys }
{
    let word = w.look_free(p, me, sel, j);
    let mut rest = !word;
    while rest != 0 {
        let i = 64 * j + rest.trailing_zeros();
        if i < bound {
            look_over(w, p, me, sel, i, asked);
        }
        rest &= rest - 1;
    }
}

// Looks at the index, which is above those that were looked at: removes its key where that is cancelled, and looks at
// its interest where it is valid.
fn look_over(w: &Words, p: &mut Pass, me: CallerNo, sel: SelNo, i: u32, asked: &mut Asked)
    requires begun { HasBegun w.now p.old me sel }
    requires key { IsKey (limits_of w.now) sel i }
    requires place { i < asked.old.bound }
    requires below { AreBelow i asked.old.keys }
    ensures call { CallClause me (Completes (looks_over sel i asked.old.keys))
        (view w.now p.old) (view w.now p.new) asked.new.keys }
    ensures begun { HasBegun w.now p.new me sel }
    ensures beside { IsBeside asked.old asked.new }
    ensures below { AreBelow (i + 1) asked.new.keys }
{
    let stage = w.look_key(p, me, sel, i);
    if is_in_cancelled_set(stage) {
        remove_cancelled(w, p, me, sel, i, stage);
    } else if is_valid(stage) {
        look_valid(w, p, me, sel, i, stage, asked);
    }
}

fn look_valid(
    w: &Words,
    p: &mut Pass,
    me: CallerNo,
    sel: SelNo,
    i: u32,
    stage: Stage,
    asked: &mut Asked,
)
    requires begun { HasBegun w.now p.old me sel }
    requires key { IsKey (limits_of w.now) sel i }
    requires place { i < asked.old.bound }
    requires below { AreBelow i asked.old.keys }
    ensures call { CallClause me (Completes (looks_valid sel i stage asked.old.keys))
        (view w.now p.old) (view w.now p.new) asked.new.keys }
    ensures begun { HasBegun w.now p.new me sel }
    ensures beside { IsBeside asked.old asked.new }
    ensures below { AreBelow (i + 1) asked.new.keys }
{
    let interest = w.look_interest(p, me, sel, i);
    asked.put(i, stage, interest);
}

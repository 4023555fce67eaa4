//! Looking at the keys of a selector by its list: at the indexes that were touched since.
ghost use Rattle.std.specs.Prelude.{◌≡◌, ◌+◌, ◌*◌, ◌<◌, ◌≤◌, ◌++◌, [], ◌∷◌, IsTrue, length};
ghost use Rattle.nio_history.specs.Conditions.{IsKey, has_list};
ghost use Rattle.nio_history.specs.PassViews.{done_between};
ghost use Rattle.nio_steps.specs.Calls.{CallClause};
ghost use Rattle.nio_steps.specs.ChannelCalls.{words_below as count_words_below};
ghost use Rattle.nio_steps.specs.Looking.{list_over as lists_over, list_taken as lists_taken, list_word as lists_word};
ghost use Rattle.nio_steps.specs.Plan.{when};
ghost use Rattle.nio_steps.specs.Runs.{Completes};
ghost use Rattle.nio_steps.specs.Steps.{touch as touches};
ghost use Rattle.nio_steps.specs.Sweeps.{sweep_to};
ghost use Rattle.nio_words.specs.Passes.{limits_of, state_seen};
ghost use Rattle.nio_words.specs.Views.{view};
ghost use Rattle.nio_select.specs.Asked.{AreBelow, AreTaken, Changes, IsBeside};
ghost use Rattle.nio_select.specs.Begun.{HasBegunListed, IsFoundCancelled};
ghost use Rattle.nio_select.specs.Touched.{AddsTaken, IsTakenOn, TakesOn};

use crate::asked::Asked;
use crate::removing::{remove_cancelled, words_below};
use crate::stages::{is_in_cancelled_set, is_valid};
use nio_base::{CallerNo, SelNo};
use nio_history::IndexWord;
use nio_words::{Pass, Words};

// Takes the list on: takes the bits of the indexes of the words below the bound, and looks at each that was touched.
pub(crate) fn list_words(
    w: &Words,
    p: &mut Pass,
    me: CallerNo,
    sel: SelNo,
    bound: u32,
    asked: &mut Asked,
)
    requires begun { HasBegunListed w.now p.old me sel }
    requires bound { bound ≤ (limits_of w.now).keys }
    requires places { 64 * count_words_below bound ≤ asked.old.bound }
    requires room { 64 * count_words_below bound ≤ asked.old.room }
    requires unchanged { asked.old.changed ≡ [] }
    requires below { AreBelow (limits_of w.now).keys asked.old.keys }
    ensures call { CallClause me (Completes (sweep_to (count_words_below bound) 0 (lists_word sel) asked.old.keys))
        (view w.now p.old) (view w.now p.new) asked.new.keys }
    ensures begun { HasBegunListed w.now p.new me sel }
    ensures beside { IsBeside asked.old asked.new }
    ensures below { AreBelow (limits_of w.now).keys asked.new.keys }
    ensures changed { Changes asked.old.keys asked.new.keys asked.new.changed }
    ensures taken { AreTaken sel (done_between me (view w.now p.old) (view w.now p.new)) asked.new.changed }
{
    for j in 0..words_below(w, bound) {
        list_word(w, p, me, sel, j, asked);
    }
}

// The same of the 64 indexes from `64 * j` on: their bits are taken where a look shows any.
fn list_word(w: &Words, p: &mut Pass, me: CallerNo, sel: SelNo, j: u32, asked: &mut Asked)
    requires begun { HasBegunListed w.now p.old me sel }
    requires indexes { 64 * j < (limits_of w.now).keys }
    requires places { 64 * j + 64 ≤ asked.old.bound }
    requires room { 64 * j + 64 ≤ asked.old.room }
    requires before { IsTakenOn (64 * j) (limits_of w.now).keys asked.old }
    ensures call { CallClause me (Completes (lists_word sel j asked.old.keys))
        (view w.now p.old) (view w.now p.new) asked.new.keys }
    ensures begun { HasBegunListed w.now p.new me sel }
    ensures beside { IsBeside asked.old asked.new }
    ensures on { TakesOn (64 * j + 64) (limits_of w.now).keys asked.old asked.new }
    ensures taken { AddsTaken sel (done_between me (view w.now p.old) (view w.now p.new))
        asked.old.changed asked.new.changed }
{
    if w.look_touched(p, me, sel, j) != 0 {
        list_taken(w, p, me, sel, j, asked);
    }
}

// Takes the bits, and looks at each index that was touched.
fn list_taken(w: &Words, p: &mut Pass, me: CallerNo, sel: SelNo, j: u32, asked: &mut Asked)
    requires begun { HasBegunListed w.now p.old me sel }
    requires indexes { 64 * j < (limits_of w.now).keys }
    requires places { 64 * j + 64 ≤ asked.old.bound }
    requires room { 64 * j + 64 ≤ asked.old.room }
    requires before { IsTakenOn (64 * j) (limits_of w.now).keys asked.old }
    ensures call { CallClause me (Completes (lists_taken sel j asked.old.keys))
        (view w.now p.old) (view w.now p.new) asked.new.keys }
    ensures begun { HasBegunListed w.now p.new me sel }
    ensures beside { IsBeside asked.old asked.new }
    ensures on { TakesOn (64 * j + 64) (limits_of w.now).keys asked.old asked.new }
    ensures taken { AddsTaken sel (done_between me (view w.now p.old) (view w.now p.new))
        asked.old.changed asked.new.changed }
{
    let word = w.take_touched(p, me, sel, j);
    let mut rest = word;
    while rest != 0 {
        list_over(w, p, me, sel, 64 * j + rest.trailing_zeros(), asked);
        rest &= rest - 1;
    }
}

// Looks at the index, whose bit was taken. Where it is pinned somebody may be amid a change: it is touched again.
fn list_over(w: &Words, p: &mut Pass, me: CallerNo, sel: SelNo, i: u32, asked: &mut Asked)
    requires begun { HasBegunListed w.now p.old me sel }
    requires key { IsKey (limits_of w.now) sel i }
    requires place { i < asked.old.bound }
    requires room { i < asked.old.room }
    requires before { IsTakenOn i (limits_of w.now).keys asked.old }
    ensures call { CallClause me (Completes (lists_over sel i asked.old.keys))
        (view w.now p.old) (view w.now p.new) asked.new.keys }
    ensures begun { HasBegunListed w.now p.new me sel }
    ensures beside { IsBeside asked.old asked.new }
    ensures on { TakesOn (i + 1) (limits_of w.now).keys asked.old asked.new }
    ensures noted { asked.new.changed ≡ asked.old.changed ++ i ∷ [] }
{
    asked.note_changed(i);
    let found = w.look_index(p, me, sel, i);
    touch_again(w, p, me, sel, i, found);
    if is_in_cancelled_set(found.stage) {
        remove_cancelled(w, p, me, sel, i, found.stage);
        asked.take_out(i);
    } else if is_valid(found.stage) {
        let interest = w.look_interest(p, me, sel, i);
        asked.put(i, found.stage, interest);
    } else {
        asked.take_out(i);
    }
}

// Touches the index again, where it was found pinned.
fn touch_again(w: &Words, p: &mut Pass, me: CallerNo, sel: SelNo, i: u32, found: IndexWord)
    requires begun { HasBegunListed w.now p.old me sel }
    requires key { IsKey (limits_of w.now) sel i }
    requires found { IsFoundCancelled (state_seen p.old) me sel i found.stage }
    ensures call { CallClause me (Completes (when found.pinned (touches sel i)))
        (view w.now p.old) (view w.now p.new) result }
    ensures begun { HasBegunListed w.now p.new me sel }
    ensures found { IsFoundCancelled (state_seen p.new) me sel i found.stage }
{
    if found.pinned {
        w.touch(p, me, sel, i);
    }
}

//! Removing cancelled keys within a selection.
ghost use Rattle.std.specs.Prelude.{◌≡◌, ◌*◌, ◌<◌, ◌≤◌, [], ◌∷◌, IsTrue, List};
ghost use Rattle.nio_history.specs.Conditions.{IsKey, has_begun, may_remove_cancelled};
ghost use Rattle.nio_history.specs.PassViews.{done_between};
ghost use Rattle.nio_steps.specs.Calls.{CallClause};
ghost use Rattle.nio_steps.specs.ChannelCalls.{words_below as count_words_below};
ghost use Rattle.nio_steps.specs.Runs.{Completes};
ghost use Rattle.nio_steps.specs.Looking.{over_not_free, over_touched, over_word, remove_below as removes_below};
ghost use Rattle.nio_steps.specs.Sweeps.{sweep_to};
ghost use Rattle.nio_steps.specs.SelectCalls.{remove_all_cancelled as removes_all_cancelled};
ghost use Rattle.nio_steps.specs.Looking.{remove_cancelled as removes_cancelled};
ghost use Rattle.nio_steps.specs.Looking.{remove_if_cancelled as removes_if_cancelled};
ghost use Rattle.nio_steps.specs.declared.looked.LookedKey.{LookedKey};
ghost use Rattle.nio_words.specs.Passes.{IsReady, limits_of, state_seen};
ghost use Rattle.nio_words.specs.Views.{view};
ghost use Rattle.nio_select.specs.Begun.{HasBegun};
ghost use Rattle.nio_select.specs.KeyChanges.{TakesNote, changes_by, removed_key};
ghost use Rattle.nio_select.specs.Removing.{removes_at};

use crate::changes::{Lister, removal};
use crate::stages::is_in_cancelled_set;
use nio_base::{CallerNo, SelNo};
use nio_history::Stage;
use nio_words::{Pass, Words};

// The number of words, of 64 indexes each, that the indexes below `mark` stand in.
pub(crate) fn words_below(w: &Words, mark: u32) -> u32
    requires { mark ≤ (limits_of w.now).keys }
    ensures { result ≡ count_words_below mark }
{
    (mark + 63) / 64
}

// Removes all keys of the selector's cancelled set, below the high-water mark that it finds. The lister takes note of
// them.
pub(crate) fn remove_all_cancelled<L: Lister>(
    w: &Words,
    p: &mut Pass,
    me: CallerNo,
    sel: SelNo,
    listed: bool,
    lister: &mut L,
)
    requires begun { HasBegun w.now p.old me sel }
    ensures call { CallClause me (Completes (removes_all_cancelled sel listed)) (view w.now p.old) (view w.now p.new) result }
    ensures begun { HasBegun w.now p.new me sel }
    ensures listed { (asked : List LookedKey) → TakesNote L.noted asked me (view w.now p.old) (view w.now p.new)
        lister.old lister.new }
{
    let mark = w.look_keys(p, me, sel);
    remove_below(w, p, me, sel, mark, listed, lister);
}

// The same below this mark: it looks at the indexes that are touched, where the selection goes by the selector's list,
// and else at those that aren't free.
fn remove_below<L: Lister>(
    w: &Words,
    p: &mut Pass,
    me: CallerNo,
    sel: SelNo,
    mark: u32,
    listed: bool,
    lister: &mut L,
)
    requires begun { HasBegun w.now p.old me sel }
    requires mark { mark ≤ (limits_of w.now).keys }
    ensures call { CallClause me (Completes (removes_below sel mark listed)) (view w.now p.old) (view w.now p.new) result }
    ensures begun { HasBegun w.now p.new me sel }
    ensures listed { (asked : List LookedKey) → TakesNote L.noted asked me (view w.now p.old) (view w.now p.new)
        lister.old lister.new }
{
    if listed {
        remove_touched(w, p, me, sel, mark, lister);
    } else {
        remove_not_free(w, p, me, sel, mark, lister);
    }
}

// The same of the indexes that are touched. Their bits stay.
fn remove_touched<L: Lister>(
    w: &Words,
    p: &mut Pass,
    me: CallerNo,
    sel: SelNo,
    mark: u32,
    lister: &mut L,
)
    requires begun { HasBegun w.now p.old me sel }
    requires mark { mark ≤ (limits_of w.now).keys }
    ensures call { CallClause me (Completes (sweep_to (count_words_below mark) 0 (over_touched sel (removes_at sel)) tt))
        (view w.now p.old) (view w.now p.new) result }
    ensures begun { HasBegun w.now p.new me sel }
    ensures listed { (asked : List LookedKey) → TakesNote L.noted asked me (view w.now p.old) (view w.now p.new)
        lister.old lister.new }
{
    for j in 0..words_below(w, mark) {
        remove_shown(w, p, me, sel, j, lister);
    }
}

// The same of the 64 indexes from `64 * j` on.
fn remove_shown<L: Lister>(
    w: &Words,
    p: &mut Pass,
    me: CallerNo,
    sel: SelNo,
    j: u32,
    lister: &mut L,
)
    requires begun { HasBegun w.now p.old me sel }
    requires indexes { 64 * j < (limits_of w.now).keys }
    ensures call { CallClause me (Completes (over_touched sel (removes_at sel) j tt))
        (view w.now p.old) (view w.now p.new) result }
    ensures begun { HasBegun w.now p.new me sel }
    ensures listed { (asked : List LookedKey) → TakesNote L.noted asked me (view w.now p.old) (view w.now p.new)
        lister.old lister.new }
{
    let word = w.look_touched(p, me, sel, j);
    let mut rest = word;
    while rest != 0 {
        remove_if_cancelled(w, p, me, sel, 64 * j + rest.trailing_zeros(), lister);
        rest &= rest - 1;
    }
}

// The same of the indexes that aren't free.
fn remove_not_free<L: Lister>(
    w: &Words,
    p: &mut Pass,
    me: CallerNo,
    sel: SelNo,
    mark: u32,
    lister: &mut L,
)
    requires begun { HasBegun w.now p.old me sel }
    requires mark { mark ≤ (limits_of w.now).keys }
    ensures call { CallClause me (Completes (over_not_free sel mark (removes_at sel) tt))
        (view w.now p.old) (view w.now p.new) result }
    ensures begun { HasBegun w.now p.new me sel }
    ensures listed { (asked : List LookedKey) → TakesNote L.noted asked me (view w.now p.old) (view w.now p.new)
        lister.old lister.new }
{
    for j in 0..words_below(w, mark) {
        remove_in_word(w, p, me, sel, mark, j, lister);
    }
}

// The same of the 64 indexes from `64 * j` on: it goes from one that isn't free to the next.
fn remove_in_word<L: Lister>(
    w: &Words,
    p: &mut Pass,
    me: CallerNo,
    sel: SelNo,
    mark: u32,
    j: u32,
    lister: &mut L,
)
    requires begun { HasBegun w.now p.old me sel }
    requires mark { mark ≤ (limits_of w.now).keys }
    requires below { 64 * j < (limits_of w.now).keys }
    ensures call { CallClause me (Completes (over_word sel mark (removes_at sel) j tt))
        (view w.now p.old) (view w.now p.new) result }
    ensures begun { HasBegun w.now p.new me sel }
    ensures listed { (asked : List LookedKey) → TakesNote L.noted asked me (view w.now p.old) (view w.now p.new)
        lister.old lister.new }
{
    let word = w.look_free(p, me, sel, j);
    let mut rest = !word;
    while rest != 0 {
        let i = 64 * j + rest.trailing_zeros();
        if i < mark {
            remove_if_cancelled(w, p, me, sel, i, lister);
        }
        rest &= rest - 1;
    }
}

// Removes the key that the index has, where it is in the cancelled set.
fn remove_if_cancelled<L: Lister>(
    w: &Words,
    p: &mut Pass,
    me: CallerNo,
    sel: SelNo,
    i: u32,
    lister: &mut L,
)
    requires begun { HasBegun w.now p.old me sel }
    requires key { IsKey (limits_of w.now) sel i }
    ensures call { CallClause me (Completes (removes_if_cancelled sel i)) (view w.now p.old) (view w.now p.new) result }
    ensures begun { HasBegun w.now p.new me sel }
    ensures listed { (asked : List LookedKey) → TakesNote L.noted asked me (view w.now p.old) (view w.now p.new)
        lister.old lister.new }
{
    let stage = w.look_key(p, me, sel, i);
    if is_in_cancelled_set(stage) {
        let removed = remove_cancelled(w, p, me, sel, i, stage);
        lister.note(removal(i, removed));
    }
}

// Removes the key of the index, which was found in the cancelled set. The index is free then, unless this was its
// last serial. Answers the key's stage before.
pub(crate) fn remove_cancelled(
    w: &Words,
    p: &mut Pass,
    me: CallerNo,
    sel: SelNo,
    i: u32,
    stage: Stage,
) -> Stage
    requires begun { HasBegun w.now p.old me sel }
    requires key { IsKey (limits_of w.now) sel i }
    requires may { IsTrue (may_remove_cancelled (state_seen p.old) me sel i) }
    requires serial { ((state_seen p.old).key sel.0 i).serial ≡ stage.serial }
    ensures call { CallClause me (Completes (removes_cancelled sel i stage)) (view w.now p.old) (view w.now p.new) tt }
    ensures begun { HasBegun w.now p.new me sel }
    ensures removed { (asked : List LookedKey) → changes_by asked (done_between me (view w.now p.old) (view w.now p.new))
        ≡ removed_key i result ∷ [] }
{
    let removed = w.remove(p, me, sel, i);
    if stage.serial < u32::MAX {
        w.put_free(p, me, sel, i);
    }
    removed
}

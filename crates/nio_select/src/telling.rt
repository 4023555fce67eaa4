//! The steps of a selection that is told what its poller answered.
ghost use Rattle.std.specs.Prelude.{◌≡◌, ◌*◌, ◌≤◌, ◌==◌, ◌^◌, Err, List, not, IsTrue, is_some, length};
ghost use Rattle.nio_history.specs.Acts.{selected_with};
ghost use Rattle.nio_history.specs.Conditions.{IsKey};
ghost use Rattle.nio_history.specs.PassViews.{done_between};
ghost use Rattle.nio_steps.specs.Calls.{CallClause};
ghost use Rattle.nio_steps.specs.Lists.{listed_at};
ghost use Rattle.nio_steps.specs.Runs.{Completes};
ghost use Rattle.nio_steps.specs.SelectCalls.{is_again as goes_on, why_ended as why, mark_entry as marks_entry};
ghost use Rattle.nio_steps.specs.SelectCalls.{mark_told as marks_told, mark_looked as marks_looked};
ghost use Rattle.nio_steps.specs.SelectCalls.{mark_again as marks_again, gains_nothing as nothing_gained, one_if};
ghost use Rattle.nio_steps.specs.Sweeps.{sweep_over, sweep_to};
ghost use Rattle.nio_steps.specs.declared.looked.LookedKey.{LookedKey};
ghost use Rattle.nio_words.specs.Passes.{IsReady, limits_of};
ghost use Rattle.nio_words.specs.Views.{view};
ghost use Rattle.nio_select.specs.Asked.{AreBelow};
ghost use Rattle.nio_select.specs.KeyChanges.{TakesNote, changes_by, marked_of};
ghost use Rattle.nio_select.specs.KeyKept.{keys_from};
ghost use Rattle.nio_select.specs.Begun.{HasBegun};
ghost use Rattle.nio_select.specs.ToldSlots.{IsAsLong, IsNoted, IsTold, IsUntold, mark_at as marks_at};

use crate::asked::Asked;
use crate::changes::{Lister, note_mark};
use crate::noted::Noted;
use crate::slot::{Slot, slot_at, wanted};
use nio_base::{CallerNo, Ops, SelNo};
use nio_history::{GateWord, Mark, Mode, Why};
use nio_words::{Pass, Words};

// Marks the keys of which something was told that they are interested in, in rising order. Answers how many marks
// succeeded; the lister takes note of them.
pub(crate) fn mark_asked<L: Lister>(
    w: &Words,
    p: &mut Pass,
    me: CallerNo,
    sel: SelNo,
    asked: &mut Asked,
    pairs: &[(u32, Ops)],
    lister: &mut L,
) -> u32
    requires begun { HasBegun w.now p.old me sel }
    requires keys { AreBelow (limits_of w.now).keys asked.old.keys }
    ensures call { CallClause me (Completes (sweep_over asked.old.keys (marks_entry sel pairs.now) 0))
        (view w.now p.old) (view w.now p.new) result }
    ensures begun { HasBegun w.now p.new me sel }
    ensures same { asked.new ≡ asked.old }
    ensures none { result ≡ 0 → lister.new ≡ lister.old }
    ensures listed { TakesNote L.noted asked.old.keys me (view w.now p.old) (view w.now p.new) lister.old lister.new }
{
    put_told(&mut asked.noted, asked.slots.len(), pairs);
    mark_noted(
        w,
        p,
        me,
        sel,
        asked.slots.as_slice(),
        &mut asked.noted,
        lister,
    )
}

// Notes what the pairs tell of the indexes below the bound.
fn put_told(noted: &mut Noted, bound: usize, pairs: &[(u32, Ops)])
    requires untold { IsUntold noted.old }
    requires told_room { bound ≤ length noted.old.told.items }
    requires words_room { bound ≤ 64 * length noted.old.words.items }
    ensures told { IsTold pairs.now bound noted.new }
    ensures room { IsAsLong noted.old noted.new }
{
    for (index, ops) in pairs {
        let i = *index as usize;
        if i < bound {
            noted.put(i, *ops);
        }
    }
}

// Marks the keys of the indexes that are noted, and clears the notes. Answers how many marks succeeded; the lister takes
// note of them.
fn mark_noted<L: Lister>(
    w: &Words,
    p: &mut Pass,
    me: CallerNo,
    sel: SelNo,
    slots: &[Option<Slot>],
    noted: &mut Noted,
    lister: &mut L,
) -> u32
    requires begun { HasBegun w.now p.old me sel }
    requires keys { AreBelow (limits_of w.now).keys (keys_from 0 slots.now) }
    requires noted { IsNoted noted.old }
    requires few { length noted.old.words.items ≤ 2 ^ 25 }
    ensures call { CallClause me
        (Completes (sweep_to (64 * length noted.old.words.items) 0 (marks_at sel slots.now noted.old) 0))
        (view w.now p.old) (view w.now p.new) result }
    ensures begun { HasBegun w.now p.new me sel }
    ensures cleared { IsUntold noted.new }
    ensures room { IsAsLong noted.old noted.new }
    ensures none { result ≡ 0 → lister.new ≡ lister.old }
    ensures listed { TakesNote L.noted (keys_from 0 slots.now) me (view w.now p.old) (view w.now p.new)
        lister.old lister.new }
{
    let mut count = 0;
    for j in 0..noted.words.len() {
        let mut rest = noted.words[j];
        while rest != 0 {
            let i = 64 * j + rest.trailing_zeros() as usize;
            let told = wanted(slot_at(slots, i), noted.take(i));
            let marked = mark_told(w, p, me, sel, i as u32, told);
            count += note_mark(lister, slots, i, marked);
            rest &= rest - 1;
        }
        noted.words[j] = 0;
    }
    count
}

// Answers the ready set since, where the mark succeeded.
fn mark_told(w: &Words, p: &mut Pass, me: CallerNo, sel: SelNo, i: u32, told: Ops) -> Option<Ops>
    requires begun { HasBegun w.now p.old me sel }
    requires key { IsTrue (not (told == 0)) → IsKey (limits_of w.now) sel i }
    ensures call { CallClause me (Completes (marks_told sel i told))
        (view w.now p.old) (view w.now p.new) (one_if (is_some result)) }
    ensures begun { HasBegun w.now p.new me sel }
    ensures marked { (asked : List LookedKey) → changes_by asked (done_between me (view w.now p.old) (view w.now p.new))
        ≡ marked_of i (listed_at asked i) result }
{
    if told == Ops::NONE {
        return None;
    }
    mark_looked(w, p, me, sel, i, told)
}

fn mark_looked(w: &Words, p: &mut Pass, me: CallerNo, sel: SelNo, i: u32, told: Ops) -> Option<Ops>
    requires begun { HasBegun w.now p.old me sel }
    requires key { IsKey (limits_of w.now) sel i }
    requires told { IsTrue (not (told == 0)) }
    ensures call { CallClause me (Completes (marks_looked sel i told))
        (view w.now p.old) (view w.now p.new) (one_if (is_some result)) }
    ensures begun { HasBegun w.now p.new me sel }
    ensures marked { (asked : List LookedKey) → changes_by asked (done_between me (view w.now p.old) (view w.now p.new))
        ≡ marked_of i (listed_at asked i) result }
{
    let was = w.look_mark(p, me, sel, i);
    if gains_nothing(&was, told) {
        return None;
    }
    let ready = ready_with(&was, told);
    match w.mark(p, me, sel, i, was, told) {
        Ok(()) => Some(ready),
        Err(found) => mark_again(w, p, me, sel, i, told, found),
    }
}

// Whether the key is selected already, and ready for all that is told.
fn gains_nothing(was: &Mark, told: Ops) -> bool
    ensures { result ≡ nothing_gained was.now told }
{
    was.selected && told.within(was.ready)
}

// The ready set of a key after a mark of it, which was so before.
fn ready_with(was: &Mark, told: Ops) -> Ops
    ensures { result ≡ (selected_with was.now told).ready }
{
    if was.selected {
        was.ready.union(told)
    } else {
        told
    }
}

// Marks the key once more: its mark had changed meanwhile, and was found so.
fn mark_again(
    w: &Words,
    p: &mut Pass,
    me: CallerNo,
    sel: SelNo,
    i: u32,
    told: Ops,
    found: Mark,
) -> Option<Ops>
    requires begun { HasBegun w.now p.old me sel }
    requires key { IsKey (limits_of w.now) sel i }
    requires told { IsTrue (not (told == 0)) }
    ensures call { CallClause me (Completes (marks_again sel i told (Err found)))
        (view w.now p.old) (view w.now p.new) (one_if (is_some result)) }
    ensures begun { HasBegun w.now p.new me sel }
    ensures marked { (asked : List LookedKey) → changes_by asked (done_between me (view w.now p.old) (view w.now p.new))
        ≡ marked_of i (listed_at asked i) result }
{
    let ready = ready_with(&found, told);
    match w.mark(p, me, sel, i, found, told) {
        Ok(()) => Some(ready),
        Err(_changed) => None,
    }
}

// Whether the selection goes on.
pub(crate) fn is_again(
    mode: Mode,
    count: u32,
    gate: GateWord,
    interrupted: bool,
    elapsed: bool,
) -> bool
    ensures { result ≡ goes_on mode count gate interrupted elapsed }
{
    let waits = match mode {
        Mode::Now => false,
        Mode::Wait => true,
        Mode::For(_) => !elapsed,
    };
    waits && count == 0 && !gate.woken && !gate.shut && !interrupted
}

// Why the selection is over: the first of the reasons.
pub(crate) fn why_ended(mode: Mode, count: u32, gate: GateWord, interrupted: bool) -> Why
    ensures { result ≡ why mode count gate interrupted }
{
    if count > 0 {
        Why::Ready
    } else if gate.shut {
        Why::Closed
    } else if mode == Mode::Now {
        Why::Now
    } else if gate.woken {
        Why::Woken
    } else if interrupted {
        Why::Interrupted
    } else {
        Why::Elapsed
    }
}

//! Listing a selector's keys.
ghost use Rattle.std.specs.Prelude.{◌≡◌, ◌+◌, ◌<◌, ◌≤◌, [], Ok, IsTrue};
ghost use Rattle.std.specs.Vec.{vec_len, vec_capacity};
ghost use Rattle.nio_history.specs.Conditions.{AllClaimed, IsKey, IsSelector, is_claimed};
ghost use Rattle.nio_history.specs.PassViews.{HasSelector, HasNoPin};
ghost use Rattle.nio_steps.specs.Calls.{CallClause};
ghost use Rattle.nio_steps.specs.SelectCalls.{ListsKeys, ListsSelected, list_key as lists_key};
ghost use Rattle.nio_steps.specs.SelectCalls.{list_selected as lists_selected, list_present, list_all};
ghost use Rattle.nio_steps.specs.SelectCalls.{present_key as present};
ghost use Rattle.nio_steps.specs.Runs.{Completes};
ghost use Rattle.nio_words.specs.Passes.{IsReady, limits_of, state_seen};
ghost use Rattle.nio_words.specs.Views.{view, IsPinned};
ghost use Rattle.nio_select.specs.Listed.{ok_seen};

use crate::lists::add;
use crate::stages::is_in_key_set;
use nio_base::{CallerNo, KeyNo, SelNo};
use nio_history::Stage;
use nio_steps::ListError;
use nio_words::{Pass, Words};
use std::alloc::Global;

/// The keys of the selector, in rising order of their indexes: Java's `keys`. Each was in the key set when the call
/// looked at it.
#[tactic(auto, unfolding(nio_steps::specs::SelectCalls::keys_plan))]
pub fn keys(
    alloc: Global,
    w: &Words,
    p: &mut Pass,
    me: CallerNo,
    sel: SelNo,
) -> Result<Vec<KeyNo>, ListError>
    requires ready { IsReady w.now p.old me }
    requires selector { HasSelector (view w.now p.old) sel }
    ensures call { CallClause me (ListsKeys sel) (view w.now p.old) (view w.now p.new) (ok_seen (λ v. v.items) result) }
    ensures ready { IsReady w.now p.new me }
{
    if w.look_gate(p, me, sel).shut {
        return Err(ListError::ClosedSelector);
    }
    let bound = w.look_keys(p, me, sel);
    let mut listed = Vec::with_capacity(alloc, bound as usize)?;
    list_below(w, p, me, sel, bound, &mut listed);
    Ok(listed)
}

// Lists the keys with an index below the bound.
fn list_below(
    w: &Words,
    p: &mut Pass,
    me: CallerNo,
    sel: SelNo,
    bound: u32,
    listed: &mut Vec<KeyNo>,
)
    requires ready { IsReady w.now p.old me }
    requires selector { IsSelector (limits_of w.now) sel }
    requires bound { bound ≤ (limits_of w.now).keys }
    requires empty { listed.old.items ≡ [] }
    requires room { bound ≤ vec_capacity listed.old }
    ensures call { CallClause me (Completes (list_all lists_key sel bound))
        (view w.now p.old) (view w.now p.new) (Ok listed.new.items) }
    ensures ready { IsReady w.now p.new me }
{
    for i in 0..bound {
        list_key(w, p, me, sel, i, listed);
    }
}

fn list_key(w: &Words, p: &mut Pass, me: CallerNo, sel: SelNo, i: u32, listed: &mut Vec<KeyNo>)
    requires ready { IsReady w.now p.old me }
    requires key { IsKey (limits_of w.now) sel i }
    requires room { vec_len listed.old < vec_capacity listed.old }
    ensures call { CallClause me (Completes (lists_key sel i listed.old.items))
        (view w.now p.old) (view w.now p.new) listed.new.items }
    ensures ready { IsReady w.now p.new me }
    ensures count { vec_len listed.new ≤ vec_len listed.old + 1 }
    ensures capacity { vec_capacity listed.old ≤ vec_capacity listed.new }
{
    let stage = w.look_key(p, me, sel, i);
    if is_in_key_set(stage) {
        add(listed, present_key(sel, i, stage));
    }
}

// The key that the index has.
fn present_key(sel: SelNo, index: u32, stage: Stage) -> KeyNo
    ensures { result ≡ present sel index stage }
{
    KeyNo {
        sel,
        index,
        serial: stage.serial,
    }
}

/// The selected keys of the selector, in rising order of their indexes: Java's `selectedKeys`. Each was in the
/// selected set when the call looked at it.
#[tactic(auto, unfolding(nio_steps::specs::SelectCalls::selected_keys_plan))]
pub fn selected_keys(
    alloc: Global,
    w: &Words,
    p: &mut Pass,
    me: CallerNo,
    sel: SelNo,
) -> Result<Vec<KeyNo>, ListError>
    requires ready { IsReady w.now p.old me }
    requires selector { HasSelector (view w.now p.old) sel }
    requires unpinned { HasNoPin (view w.now p.old) me }
    ensures call { CallClause me (ListsSelected sel)
        (view w.now p.old) (view w.now p.new) (ok_seen (λ v. v.items) result) }
    ensures ready { IsReady w.now p.new me }
    ensures unpinned { HasNoPin (view w.now p.new) me }
{
    if w.look_gate(p, me, sel).shut {
        return Err(ListError::ClosedSelector);
    }
    let bound = w.look_keys(p, me, sel);
    let mut listed = Vec::with_capacity(alloc, bound as usize)?;
    list_selected_below(w, p, me, sel, bound, &mut listed);
    Ok(listed)
}

// Lists the selected keys with an index below the bound.
fn list_selected_below(
    w: &Words,
    p: &mut Pass,
    me: CallerNo,
    sel: SelNo,
    bound: u32,
    listed: &mut Vec<KeyNo>,
)
    requires ready { IsReady w.now p.old me }
    requires selector { IsSelector (limits_of w.now) sel }
    requires bound { bound ≤ (limits_of w.now).keys }
    requires claimed { AllClaimed (state_seen p.old) sel bound }
    requires unpinned { HasNoPin (view w.now p.old) me }
    requires empty { listed.old.items ≡ [] }
    requires room { bound ≤ vec_capacity listed.old }
    ensures call { CallClause me (Completes (list_all lists_selected sel bound))
        (view w.now p.old) (view w.now p.new) (Ok listed.new.items) }
    ensures ready { IsReady w.now p.new me }
    ensures unpinned { HasNoPin (view w.now p.new) me }
{
    for i in 0..bound {
        list_selected(w, p, me, sel, i, listed);
    }
}

fn list_selected(w: &Words, p: &mut Pass, me: CallerNo, sel: SelNo, i: u32, listed: &mut Vec<KeyNo>)
    requires ready { IsReady w.now p.old me }
    requires key { IsKey (limits_of w.now) sel i }
    requires claimed { IsTrue (is_claimed (state_seen p.old) sel i) }
    requires unpinned { HasNoPin (view w.now p.old) me }
    requires room { vec_len listed.old < vec_capacity listed.old }
    ensures call { CallClause me (Completes (lists_selected sel i listed.old.items))
        (view w.now p.old) (view w.now p.new) listed.new.items }
    ensures ready { IsReady w.now p.new me }
    ensures unpinned { HasNoPin (view w.now p.new) me }
    ensures count { vec_len listed.new ≤ vec_len listed.old + 1 }
    ensures capacity { vec_capacity listed.old ≤ vec_capacity listed.new }
{
    let stage = w.pin(p, me, sel, i);
    list_pinned(w, p, me, sel, i, stage, listed);
    w.unpin(p, me, sel, i);
}

fn list_pinned(
    w: &Words,
    p: &mut Pass,
    me: CallerNo,
    sel: SelNo,
    i: u32,
    stage: Stage,
    listed: &mut Vec<KeyNo>,
)
    requires pinned { IsPinned w.now p.old me sel i }
    requires room { vec_len listed.old < vec_capacity listed.old }
    ensures call { CallClause me (Completes (list_present sel i listed.old.items stage))
        (view w.now p.old) (view w.now p.new) listed.new.items }
    ensures pinned { IsPinned w.now p.new me sel i }
    ensures count { vec_len listed.new ≤ vec_len listed.old + 1 }
    ensures capacity { vec_capacity listed.old ≤ vec_capacity listed.new }
{
    if !is_in_key_set(stage) {
        return;
    }
    if w.look_mark(p, me, sel, i).selected {
        add(listed, present_key(sel, i, stage));
    }
}

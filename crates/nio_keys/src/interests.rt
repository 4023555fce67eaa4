//! Calls on a key's interest set.
ghost use Rattle.std.specs.Prelude.{Ok};
ghost use Rattle.nio_history.specs.Conditions.{IsChannel};
ghost use Rattle.nio_history.specs.PassViews.{HasKey, HasNoPin};
ghost use Rattle.nio_steps.specs.Calls.{CallClause};
ghost use Rattle.nio_steps.specs.KeyCalls.{if_valid, on_supported, look_set, put_set, add_set, keep_set, interest_plan};
ghost use Rattle.nio_steps.specs.KeyCalls.{set_interest_plan, interest_or_plan, interest_and_plan};
ghost use Rattle.nio_steps.specs.Plan.{reply};
ghost use Rattle.nio_steps.specs.Runs.{Completes};
ghost use Rattle.nio_words.specs.Passes.{IsReady, limits_of};
ghost use Rattle.nio_words.specs.Views.{view, IsPinned};

use crate::pinned::{pin, unpin};
use nio_base::{CallerNo, KeyNo, Ops};
use nio_history::Stage;
use nio_steps::{KeyError, supports};
use nio_words::{Pass, Words};

/// The key's interest set: Java's `interestOps()`.
pub fn interest(w: &Words, p: &mut Pass, me: CallerNo, key: KeyNo) -> Result<Ops, KeyError>
    requires ready { IsReady w.now p.old me }
    requires key { HasKey (view w.now p.old) key }
    requires unpinned { HasNoPin (view w.now p.old) me }
    ensures call { CallClause me (Completes (interest_plan key)) (view w.now p.old) (view w.now p.new) result }
    ensures ready { IsReady w.now p.new me }
    ensures unpinned { HasNoPin (view w.now p.new) me }
{
    let stage = pin(w, p, me, key);
    let answer = interest_present(w, p, me, key, stage);
    unpin(w, p, me, key);
    answer
}

/// What `interest` does under its pin.
fn interest_present(
    w: &Words,
    p: &mut Pass,
    me: CallerNo,
    key: KeyNo,
    stage: Stage,
) -> Result<Ops, KeyError>
    requires { IsPinned w.now p.old me key.sel key.index }
    ensures call { CallClause me (Completes (if_valid key (λ _. look_set key) stage))
        (view w.now p.old) (view w.now p.new) result }
    ensures pinned { IsPinned w.now p.new me key.sel key.index }
{
    if !stage.is_valid_key(key.serial) {
        return Err(KeyError::CancelledKey);
    }
    Ok(w.look_interest(p, me, key.sel, key.index))
}

/// What a call that sets or adds operations refuses: CancelledKey where the key isn't valid, then
/// IllegalOps where its channel hasn't all of these operations.
fn check_operations(
    w: &Words,
    p: &mut Pass,
    me: CallerNo,
    key: KeyNo,
    ops: Ops,
    stage: Stage,
) -> Result<(), KeyError>
    requires pinned { IsPinned w.now p.old me key.sel key.index }
    requires channel { IsChannel (limits_of w.now) stage.chan }
    ensures call { CallClause me (Completes (if_valid key (on_supported ops (reply (Ok tt))) stage))
        (view w.now p.old) (view w.now p.new) result }
    ensures pinned { IsPinned w.now p.new me key.sel key.index }
{
    if !stage.is_valid_key(key.serial) {
        return Err(KeyError::CancelledKey);
    }
    let found = w.look_channel(p, me, stage.chan);
    if !supports(found.kind, ops) {
        return Err(KeyError::IllegalOps);
    }
    Ok(())
}

/// Puts `ops` in the place of the key's interest set: Java's `interestOps(int)`.
pub fn set_interest(
    w: &Words,
    p: &mut Pass,
    me: CallerNo,
    key: KeyNo,
    ops: Ops,
) -> Result<(), KeyError>
    requires ready { IsReady w.now p.old me }
    requires key { HasKey (view w.now p.old) key }
    requires unpinned { HasNoPin (view w.now p.old) me }
    ensures call { CallClause me (Completes (set_interest_plan key ops)) (view w.now p.old) (view w.now p.new) result }
    ensures ready { IsReady w.now p.new me }
    ensures unpinned { HasNoPin (view w.now p.new) me }
{
    let stage = pin(w, p, me, key);
    let answer = set_interest_present(w, p, me, key, ops, stage);
    unpin(w, p, me, key);
    answer
}

/// What `set_interest` does under its pin.
fn set_interest_present(
    w: &Words,
    p: &mut Pass,
    me: CallerNo,
    key: KeyNo,
    ops: Ops,
    stage: Stage,
) -> Result<(), KeyError>
    requires pinned { IsPinned w.now p.old me key.sel key.index }
    requires channel { IsChannel (limits_of w.now) stage.chan }
    ensures call { CallClause me (Completes (if_valid key (on_supported ops (put_set key ops)) stage))
        (view w.now p.old) (view w.now p.new) result }
    ensures pinned { IsPinned w.now p.new me key.sel key.index }
{
    check_operations(w, p, me, key, ops, stage)?;
    w.touch(p, me, key.sel, key.index);
    w.swap_interest(p, me, key.sel, key.index, ops);
    Ok(())
}

/// Adds `ops` to the key's interest set. Answers the set before: Java's `interestOpsOr`.
pub fn interest_or(
    w: &Words,
    p: &mut Pass,
    me: CallerNo,
    key: KeyNo,
    ops: Ops,
) -> Result<Ops, KeyError>
    requires ready { IsReady w.now p.old me }
    requires key { HasKey (view w.now p.old) key }
    requires unpinned { HasNoPin (view w.now p.old) me }
    ensures call { CallClause me (Completes (interest_or_plan key ops)) (view w.now p.old) (view w.now p.new) result }
    ensures ready { IsReady w.now p.new me }
    ensures unpinned { HasNoPin (view w.now p.new) me }
{
    let stage = pin(w, p, me, key);
    let answer = interest_or_present(w, p, me, key, ops, stage);
    unpin(w, p, me, key);
    answer
}

/// What `interest_or` does under its pin.
fn interest_or_present(
    w: &Words,
    p: &mut Pass,
    me: CallerNo,
    key: KeyNo,
    ops: Ops,
    stage: Stage,
) -> Result<Ops, KeyError>
    requires pinned { IsPinned w.now p.old me key.sel key.index }
    requires channel { IsChannel (limits_of w.now) stage.chan }
    ensures call { CallClause me (Completes (if_valid key (on_supported ops (add_set key ops)) stage))
        (view w.now p.old) (view w.now p.new) result }
    ensures pinned { IsPinned w.now p.new me key.sel key.index }
{
    check_operations(w, p, me, key, ops, stage)?;
    w.touch(p, me, key.sel, key.index);
    Ok(w.or_interest(p, me, key.sel, key.index, ops))
}

/// Keeps of the key's interest set only what `ops` has too, which may be any operations. Answers the
/// set before: Java's `interestOpsAnd`.
pub fn interest_and(
    w: &Words,
    p: &mut Pass,
    me: CallerNo,
    key: KeyNo,
    ops: Ops,
) -> Result<Ops, KeyError>
    requires ready { IsReady w.now p.old me }
    requires key { HasKey (view w.now p.old) key }
    requires unpinned { HasNoPin (view w.now p.old) me }
    ensures call { CallClause me (Completes (interest_and_plan key ops)) (view w.now p.old) (view w.now p.new) result }
    ensures ready { IsReady w.now p.new me }
    ensures unpinned { HasNoPin (view w.now p.new) me }
{
    let stage = pin(w, p, me, key);
    let answer = interest_and_present(w, p, me, key, ops, stage);
    unpin(w, p, me, key);
    answer
}

/// What `interest_and` does under its pin.
fn interest_and_present(
    w: &Words,
    p: &mut Pass,
    me: CallerNo,
    key: KeyNo,
    ops: Ops,
    stage: Stage,
) -> Result<Ops, KeyError>
    requires { IsPinned w.now p.old me key.sel key.index }
    ensures call { CallClause me (Completes (if_valid key (λ _. keep_set key ops) stage))
        (view w.now p.old) (view w.now p.new) result }
    ensures pinned { IsPinned w.now p.new me key.sel key.index }
{
    if !stage.is_valid_key(key.serial) {
        return Err(KeyError::CancelledKey);
    }
    w.touch(p, me, key.sel, key.index);
    Ok(w.and_interest(p, me, key.sel, key.index, ops))
}

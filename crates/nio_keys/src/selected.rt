//! Calls on a key's ready set, and on its place in the selected set.
ghost use Rattle.nio_history.specs.PassViews.{HasKey, HasNoPin};
ghost use Rattle.nio_steps.specs.Calls.{CallClause};
ghost use Rattle.nio_steps.specs.KeyCalls.{if_valid, look_ready, ready_plan, unselect_present, unselect_plan};
ghost use Rattle.nio_steps.specs.Runs.{Completes};
ghost use Rattle.nio_words.specs.Passes.{IsReady};
ghost use Rattle.nio_words.specs.Views.{view, IsPinned};

use crate::pinned::{pin, unpin};
use nio_base::{CallerNo, KeyNo, Ops};
use nio_history::Stage;
use nio_steps::KeyError;
use nio_words::{Pass, Words};

/// The key's ready set: Java's `readyOps`.
pub fn ready(w: &Words, p: &mut Pass, me: CallerNo, key: KeyNo) -> Result<Ops, KeyError>
    requires ready { IsReady w.now p.old me }
    requires key { HasKey (view w.now p.old) key }
    requires unpinned { HasNoPin (view w.now p.old) me }
    ensures call { CallClause me (Completes (ready_plan key)) (view w.now p.old) (view w.now p.new) result }
    ensures ready { IsReady w.now p.new me }
    ensures unpinned { HasNoPin (view w.now p.new) me }
{
    let stage = pin(w, p, me, key);
    let answer = ready_present(w, p, me, key, stage);
    unpin(w, p, me, key);
    answer
}

/// What `ready` does under its pin.
fn ready_present(
    w: &Words,
    p: &mut Pass,
    me: CallerNo,
    key: KeyNo,
    stage: Stage,
) -> Result<Ops, KeyError>
    requires { IsPinned w.now p.old me key.sel key.index }
    ensures call { CallClause me (Completes (if_valid key (λ _. look_ready key) stage))
        (view w.now p.old) (view w.now p.new) result }
    ensures pinned { IsPinned w.now p.new me key.sel key.index }
{
    if !stage.is_valid_key(key.serial) {
        return Err(KeyError::CancelledKey);
    }
    Ok(w.look_mark(p, me, key.sel, key.index).ready)
}

/// Takes the key out of its selector's selected set. Says whether it was taken out: Java's
/// `selectedKeys().remove`.
pub fn unselect(w: &Words, p: &mut Pass, me: CallerNo, key: KeyNo) -> bool
    requires ready { IsReady w.now p.old me }
    requires key { HasKey (view w.now p.old) key }
    requires unpinned { HasNoPin (view w.now p.old) me }
    ensures call { CallClause me (Completes (unselect_plan key)) (view w.now p.old) (view w.now p.new) result }
    ensures ready { IsReady w.now p.new me }
    ensures unpinned { HasNoPin (view w.now p.new) me }
{
    let stage = pin(w, p, me, key);
    let answer = unselect_present(w, p, me, key, stage);
    unpin(w, p, me, key);
    answer
}

/// What `unselect` does under its pin.
fn unselect_present(w: &Words, p: &mut Pass, me: CallerNo, key: KeyNo, stage: Stage) -> bool
    requires { IsPinned w.now p.old me key.sel key.index }
    ensures call { CallClause me (Completes (unselect_present key stage)) (view w.now p.old) (view w.now p.new) result }
    ensures pinned { IsPinned w.now p.new me key.sel key.index }
{
    stage.is_in_key_set(key.serial) && w.unselect_bit(p, me, key.sel, key.index)
}

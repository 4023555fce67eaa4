//! Calls that are never refused.
ghost use Rattle.nio_history.specs.PassViews.{HasKey, HasNoPin};
ghost use Rattle.nio_steps.specs.Calls.{CallClause};
ghost use Rattle.nio_steps.specs.KeyCalls.{is_valid_plan, cancel_present, cancel_plan, attach_present, attach_plan};
ghost use Rattle.nio_steps.specs.KeyCalls.{attachment_present, attachment_plan};
ghost use Rattle.nio_steps.specs.Runs.{Completes};
ghost use Rattle.nio_words.specs.Passes.{IsReady};
ghost use Rattle.nio_words.specs.Views.{view, IsPinned};

use crate::pinned::{pin, unpin};
use nio_base::{CallerNo, KeyNo};
use nio_history::Stage;
use nio_words::{Pass, Words};

/// Whether the key is valid: Java's `isValid`.
#[tactic(auto, unfolding(nio_steps::specs::KeyCalls::is_valid_plan))]
pub fn is_valid(w: &Words, p: &mut Pass, me: CallerNo, key: KeyNo) -> bool
    requires ready { IsReady w.now p.old me }
    requires key { HasKey (view w.now p.old) key }
    ensures call { CallClause me (Completes (is_valid_plan key)) (view w.now p.old) (view w.now p.new) result }
    ensures ready { IsReady w.now p.new me }
{
    w.look_key(p, me, key.sel, key.index)
        .is_valid_key(key.serial)
}

/// Cancels the key, valid or not: Java's `cancel`.
pub fn cancel(w: &Words, p: &mut Pass, me: CallerNo, key: KeyNo)
    requires ready { IsReady w.now p.old me }
    requires key { HasKey (view w.now p.old) key }
    requires unpinned { HasNoPin (view w.now p.old) me }
    ensures call { CallClause me (Completes (cancel_plan key)) (view w.now p.old) (view w.now p.new) result }
    ensures ready { IsReady w.now p.new me }
    ensures unpinned { HasNoPin (view w.now p.new) me }
{
    let stage = pin(w, p, me, key);
    cancel_present(w, p, me, key, stage);
    unpin(w, p, me, key);
}

/// What `cancel` does under its pin.
fn cancel_present(w: &Words, p: &mut Pass, me: CallerNo, key: KeyNo, stage: Stage)
    requires { IsPinned w.now p.old me key.sel key.index }
    ensures call { CallClause me (Completes (cancel_present key stage)) (view w.now p.old) (view w.now p.new) result }
    ensures pinned { IsPinned w.now p.new me key.sel key.index }
{
    if stage.fits(key.serial) && !stage.removed {
        w.touch(p, me, key.sel, key.index);
        w.cancel_key(p, me, key.sel, key.index);
    }
}

/// Gives the key an attachment, 0 for none. Answers the one before: Java's `attach`. Where the key's index
/// was given to another key, nothing is attached, and the answer is 0.
pub fn attach(w: &Words, p: &mut Pass, me: CallerNo, key: KeyNo, att: u64) -> u64
    requires ready { IsReady w.now p.old me }
    requires key { HasKey (view w.now p.old) key }
    requires unpinned { HasNoPin (view w.now p.old) me }
    ensures call { CallClause me (Completes (attach_plan key att)) (view w.now p.old) (view w.now p.new) result }
    ensures ready { IsReady w.now p.new me }
    ensures unpinned { HasNoPin (view w.now p.new) me }
{
    let stage = pin(w, p, me, key);
    let answer = attach_present(w, p, me, key, att, stage);
    unpin(w, p, me, key);
    answer
}

/// What `attach` does under its pin.
fn attach_present(w: &Words, p: &mut Pass, me: CallerNo, key: KeyNo, att: u64, stage: Stage) -> u64
    requires { IsPinned w.now p.old me key.sel key.index }
    ensures call { CallClause me (Completes (attach_present key att stage))
        (view w.now p.old) (view w.now p.new) result }
    ensures pinned { IsPinned w.now p.new me key.sel key.index }
{
    if stage.fits(key.serial) {
        w.swap_note(p, me, key.sel, key.index, att)
    } else {
        0
    }
}

/// The key's attachment, 0 for none: Java's `attachment`. Where the key's index was given to another key, the
/// answer is 0.
pub fn attachment(w: &Words, p: &mut Pass, me: CallerNo, key: KeyNo) -> u64
    requires ready { IsReady w.now p.old me }
    requires key { HasKey (view w.now p.old) key }
    requires unpinned { HasNoPin (view w.now p.old) me }
    ensures call { CallClause me (Completes (attachment_plan key)) (view w.now p.old) (view w.now p.new) result }
    ensures ready { IsReady w.now p.new me }
    ensures unpinned { HasNoPin (view w.now p.new) me }
{
    let stage = pin(w, p, me, key);
    let answer = attachment_present(w, p, me, key, stage);
    unpin(w, p, me, key);
    answer
}

/// What `attachment` does under its pin.
fn attachment_present(w: &Words, p: &mut Pass, me: CallerNo, key: KeyNo, stage: Stage) -> u64
    requires { IsPinned w.now p.old me key.sel key.index }
    ensures call { CallClause me (Completes (attachment_present key stage))
        (view w.now p.old) (view w.now p.new) result }
    ensures pinned { IsPinned w.now p.new me key.sel key.index }
{
    if stage.fits(key.serial) {
        w.look_note(p, me, key.sel, key.index)
    } else {
        0
    }
}

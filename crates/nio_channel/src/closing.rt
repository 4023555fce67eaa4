//! Closing a channel.
ghost use Rattle.std.specs.Prelude.{◌≡◌, Some, IsFalse, IsTrue};
ghost use Rattle.nio_history.specs.Acts.{takes_close as takes_the_close};
ghost use Rattle.nio_history.specs.Conditions.{IsChannel, IsSelector, IsKey, WasOpen, is_claimed};
ghost use Rattle.nio_history.specs.OwnEvents.{has};
ghost use Rattle.nio_history.specs.PassViews.{HasChannel, HasNoPin, done_between};
ghost use Rattle.nio_history.specs.Sets.{is_open_channel};
ghost use Rattle.nio_steps.specs.Calls.{CallClause};
ghost use Rattle.nio_steps.specs.ChannelCalls.{cancel_at, cancel_enrolled, cancel_keys, close_channel_plan};
ghost use Rattle.nio_steps.specs.ChannelCalls.{close_found as closes_found, close_once_more as closes_once_more};
ghost use Rattle.nio_steps.specs.KeyCalls.{cancel_plan, cancel_present};
ghost use Rattle.nio_steps.specs.Names.{key};
ghost use Rattle.nio_steps.specs.Runs.{Completes};
ghost use Rattle.nio_words.specs.Passes.{IsReady, limits_of, state_seen};
ghost use Rattle.nio_words.specs.Views.{view, IsPinned};
ghost use Rattle.nio_history.specs.OwnEvents.{closes};
ghost use Rattle.nio_channel.specs.Closed.{IsClosed};

use crate::keys::look_enrolled;
use crate::looks::has_number;
use nio_base::{CallerNo, ChanId, KeyId, SelNo};
use nio_history::{Chan, Stage};
use nio_words::{Pass, Words};

/// Closes the channel and cancels its keys: Java's `close`. Says whether this call closed it; where it was
/// closed before, nothing is done. It never waits, also while another caller registers the channel or selects.
#[tactic(auto, unfolding(nio_steps::specs::ChannelCalls::close_channel_plan))]
pub fn close_channel(w: &Words, p: &mut Pass, me: CallerNo, chan: ChanId) -> bool
    requires ready { IsReady w.now p.old me }
    requires channel { HasChannel (view w.now p.old) chan }
    requires unpinned { HasNoPin (view w.now p.old) me }
    ensures call { CallClause me (Completes (close_channel_plan (limits_of w.now) chan))
        (view w.now p.old) (view w.now p.new) result }
    ensures ready { IsReady w.now p.new me }
    ensures took { result ≡ has (closes chan) (done_between me (view w.now p.old) (view w.now p.new)) }
    ensures closed { IsClosed (view w.now p.new) chan }
    ensures unpinned { HasNoPin (view w.now p.new) me }
{
    let found = w.look_channel(p, me, chan.number);
    if !found.is_open(chan.serial) {
        return false;
    }
    close_found(w, p, me, chan, found)
}

// Closes the channel, which was just found so, open.
fn close_found(w: &Words, p: &mut Pass, me: CallerNo, chan: ChanId, from: Chan) -> bool
    requires ready { IsReady w.now p.old me }
    requires channel { HasChannel (view w.now p.old) chan }
    requires was_open { WasOpen (state_seen p.old) chan.number from }
    requires open_now { IsTrue (is_open_channel from chan.serial) }
    requires unpinned { HasNoPin (view w.now p.old) me }
    ensures call { CallClause me (Completes (closes_found (limits_of w.now) chan from))
        (view w.now p.old) (view w.now p.new) result }
    ensures ready { IsReady w.now p.new me }
    ensures took { result ≡ has (closes chan) (done_between me (view w.now p.old) (view w.now p.new)) }
    ensures closed { IsClosed (view w.now p.new) chan }
    ensures unpinned { HasNoPin (view w.now p.new) me }
{
    let found = w.close_bit(p, me, chan.number, from);
    if takes_close(from, found) {
        return cancel_all(w, p, me, chan);
    }
    if !found.is_open(chan.serial) {
        return false;
    }
    close_once_more(w, p, me, chan, found)
}

// Closes the channel, which was just found so, open and in non-blocking mode. Where this doesn't take, it is closed.
fn close_once_more(w: &Words, p: &mut Pass, me: CallerNo, chan: ChanId, from: Chan) -> bool
    requires ready { IsReady w.now p.old me }
    requires channel { HasChannel (view w.now p.old) chan }
    requires was_open { WasOpen (state_seen p.old) chan.number from }
    requires open_now { IsTrue (is_open_channel from chan.serial) }
    requires unblocked { IsFalse from.blocking }
    requires unpinned { HasNoPin (view w.now p.old) me }
    ensures call { CallClause me (Completes (closes_once_more (limits_of w.now) chan from))
        (view w.now p.old) (view w.now p.new) result }
    ensures ready { IsReady w.now p.new me }
    ensures took { result ≡ has (closes chan) (done_between me (view w.now p.old) (view w.now p.new)) }
    ensures closed { IsClosed (view w.now p.new) chan }
    ensures unpinned { HasNoPin (view w.now p.new) me }
{
    let found = w.close_bit(p, me, chan.number, from);
    if takes_close(from, found) {
        cancel_all(w, p, me, chan)
    } else {
        false
    }
}

// Whether a closing from what was found as `from` closed the channel that it found.
fn takes_close(from: Chan, found: Chan) -> bool
    ensures { result ≡ takes_the_close from found }
{
    found.serial == from.serial && (found.blocking || !from.blocking) && !found.closed
}

// Cancels the channel's key in each selector.
fn cancel_all(w: &Words, p: &mut Pass, me: CallerNo, chan: ChanId) -> bool
    requires ready { IsReady w.now p.old me }
    requires channel { IsChannel (limits_of w.now) chan.number }
    requires unpinned { HasNoPin (view w.now p.old) me }
    ensures call { CallClause me (Completes (cancel_keys (limits_of w.now) chan))
        (view w.now p.old) (view w.now p.new) result }
    ensures yes { IsTrue result }
    ensures ready { IsReady w.now p.new me }
    ensures unpinned { HasNoPin (view w.now p.new) me }
{
    for number in 0..w.limits().selectors {
        cancel_in(w, p, me, chan, SelNo(number));
    }
    true
}

// Cancels the channel's key in the selector, where one is enrolled.
fn cancel_in(w: &Words, p: &mut Pass, me: CallerNo, chan: ChanId, sel: SelNo)
    requires ready { IsReady w.now p.old me }
    requires channel { IsChannel (limits_of w.now) chan.number }
    requires selector { IsSelector (limits_of w.now) sel }
    requires unpinned { HasNoPin (view w.now p.old) me }
    ensures call { CallClause me (Completes (cancel_enrolled chan sel.0)) (view w.now p.old) (view w.now p.new) result }
    ensures ready { IsReady w.now p.new me }
    ensures unpinned { HasNoPin (view w.now p.new) me }
{
    if let Some(k) = look_enrolled(w, p, me, chan.number, sel) {
        cancel_its(w, p, me, chan, sel, k);
    }
}

// Cancels the key that was found enrolled for the channel's number, where the number has the channel still.
fn cancel_its(w: &Words, p: &mut Pass, me: CallerNo, chan: ChanId, sel: SelNo, k: KeyId)
    requires ready { IsReady w.now p.old me }
    requires channel { IsChannel (limits_of w.now) chan.number }
    requires inside { IsKey (limits_of w.now) sel k.index }
    requires claimed { IsTrue (is_claimed (state_seen p.old) sel k.index) }
    requires unpinned { HasNoPin (view w.now p.old) me }
    ensures call { CallClause me (Completes (cancel_at chan sel (Some k)))
        (view w.now p.old) (view w.now p.new) result }
    ensures ready { IsReady w.now p.new me }
    ensures unpinned { HasNoPin (view w.now p.new) me }
{
    if has_number(w, p, me, chan) {
        cancel(w, p, me, sel, k);
    }
}

fn cancel(w: &Words, p: &mut Pass, me: CallerNo, sel: SelNo, k: KeyId)
    requires ready { IsReady w.now p.old me }
    requires inside { IsKey (limits_of w.now) sel k.index }
    requires claimed { IsTrue (is_claimed (state_seen p.old) sel k.index) }
    requires unpinned { HasNoPin (view w.now p.old) me }
    ensures call { CallClause me (Completes (cancel_plan (key sel k))) (view w.now p.old) (view w.now p.new) result }
    ensures ready { IsReady w.now p.new me }
    ensures unpinned { HasNoPin (view w.now p.new) me }
{
    let stage = w.pin(p, me, sel, k.index);
    cancel_pinned(w, p, me, sel, k, stage);
    w.unpin(p, me, sel, k.index);
}

fn cancel_pinned(w: &Words, p: &mut Pass, me: CallerNo, sel: SelNo, k: KeyId, stage: Stage)
    requires { IsPinned w.now p.old me sel k.index }
    ensures call { CallClause me (Completes (cancel_present (key sel k) stage))
        (view w.now p.old) (view w.now p.new) result }
    ensures pinned { IsPinned w.now p.new me sel k.index }
{
    if stage.fits(k.serial) && !stage.removed {
        w.touch(p, me, sel, k.index);
        w.cancel_key(p, me, sel, k.index);
    }
}

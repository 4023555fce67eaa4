//! Calls that look once at a channel.
ghost use Rattle.std.specs.Prelude.{◌≡◌, false};
ghost use Rattle.nio_history.specs.Conditions.{IsChannel};
ghost use Rattle.nio_history.specs.PassViews.{HasChannel, HasNoPin};
ghost use Rattle.nio_steps.specs.Calls.{CallClause};
ghost use Rattle.nio_steps.specs.ChannelCalls.{has_number as finds_number, is_open_plan, is_blocking_plan};
ghost use Rattle.nio_steps.specs.Runs.{Completes};
ghost use Rattle.nio_words.specs.Passes.{IsReady, limits_of};
ghost use Rattle.nio_words.specs.Views.{view};
ghost use Rattle.nio_channel.specs.Closed.{IsClosed};

use nio_base::{CallerNo, ChanId};
use nio_words::{Pass, Words};

/// Whether the channel is open: Java's `isOpen`. One that isn't is closed for good.
#[tactic(auto, unfolding(nio_steps::specs::ChannelCalls::is_open_plan))]
pub fn is_open(w: &Words, p: &mut Pass, me: CallerNo, chan: ChanId) -> bool
    requires ready { IsReady w.now p.old me }
    requires channel { HasChannel (view w.now p.old) chan }
    ensures call { CallClause me (Completes (is_open_plan chan)) (view w.now p.old) (view w.now p.new) result }
    ensures ready { IsReady w.now p.new me }
    ensures closed { result ≡ false → IsClosed (view w.now p.new) chan }
{
    w.look_channel(p, me, chan.number).is_open(chan.serial)
}

/// Whether the channel is in blocking mode: Java's `isBlocking`. One whose number was given to another channel is
/// in no mode.
#[tactic(auto, unfolding(nio_steps::specs::ChannelCalls::is_blocking_plan))]
pub fn is_blocking(w: &Words, p: &mut Pass, me: CallerNo, chan: ChanId) -> bool
    requires ready { IsReady w.now p.old me }
    requires channel { HasChannel (view w.now p.old) chan }
    ensures call { CallClause me (Completes (is_blocking_plan chan)) (view w.now p.old) (view w.now p.new) result }
    ensures ready { IsReady w.now p.new me }
{
    let found = w.look_channel(p, me, chan.number);
    found.fits(chan.serial) && found.blocking
}

// Whether the number has this channel still.
pub(crate) fn has_number(w: &Words, p: &mut Pass, me: CallerNo, chan: ChanId) -> bool
    requires ready { IsReady w.now p.old me }
    requires channel { IsChannel (limits_of w.now) chan.number }
    ensures call { CallClause me (Completes (finds_number chan)) (view w.now p.old) (view w.now p.new) result }
    ensures ready { IsReady w.now p.new me }
    ensures unpinned { HasNoPin (view w.now p.old) me → HasNoPin (view w.now p.new) me }
{
    w.look_channel(p, me, chan.number).fits(chan.serial)
}

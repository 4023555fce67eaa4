//! Calls that set a channel's mode.
ghost use Rattle.std.specs.Prelude.{◌≡◌, ◌≢◌, None, Err, IsTrue};
ghost use Rattle.nio_history.specs.PassViews.{HasChannel};
ghost use Rattle.nio_steps.specs.Calls.{CallClause};
ghost use Rattle.nio_steps.specs.ChannelCalls.{key_where_blocking};
ghost use Rattle.nio_steps.specs.ChannelCalls.{set_mode_clear as sets_mode_clear, set_mode_open as sets_mode_open};
ghost use Rattle.nio_steps.specs.ChannelCalls.{set_mode_held as sets_mode_held, try_set_blocking_plan};
ghost use Rattle.nio_steps.specs.Runs.{Completes};
ghost use Rattle.nio_steps.specs.declared.refusal.ChannelError.TheVariants.{ClosedChannel};
ghost use Rattle.nio_words.specs.Passes.{IsReady, limits_of};
ghost use Rattle.nio_words.specs.Views.{view};
ghost use Rattle.nio_channel.specs.Closed.{IsClosed};
ghost use Rattle.nio_channel.specs.Held.{HoldsChannel, IsClearBelow};

use crate::keys::first_key;
use nio_base::{CallerNo, ChanId, ChanNo, KeyNo};
use nio_steps::ChannelError;
use nio_words::{Pass, Words};

/// Sets whether the channel is in blocking mode: Java's `configureBlocking`. A channel that is registered
/// stays non-blocking: `IllegalBlockingMode`. `Busy` where another caller has the hold of the channel.
#[tactic(auto, unfolding(nio_steps::specs::ChannelCalls::try_set_blocking_plan))]
pub fn try_set_blocking(
    w: &Words,
    p: &mut Pass,
    me: CallerNo,
    chan: ChanId,
    on: bool,
) -> Result<(), ChannelError>
    requires ready { IsReady w.now p.old me }
    requires channel { HasChannel (view w.now p.old) chan }
    ensures call { CallClause me (Completes (try_set_blocking_plan (limits_of w.now) chan on))
        (view w.now p.old) (view w.now p.new) result }
    ensures ready { IsReady w.now p.new me }
    ensures closed { result ≡ Err ClosedChannel → IsClosed (view w.now p.new) chan }
{
    if !w.look_channel(p, me, chan.number).is_open(chan.serial) {
        return Err(ChannelError::ClosedChannel);
    }
    if w.try_hold_bit(p, me, chan.number).is_some() {
        return Err(ChannelError::Busy);
    }
    let answer = set_mode_held(w, p, me, chan, on);
    w.release(p, me, chan.number);
    answer
}

fn set_mode_held(
    w: &Words,
    p: &mut Pass,
    me: CallerNo,
    chan: ChanId,
    on: bool,
) -> Result<(), ChannelError>
    requires held { HoldsChannel w.now p.old me chan.number }
    requires opened { HasChannel (view w.now p.old) chan }
    ensures call { CallClause me (Completes (sets_mode_held (limits_of w.now) chan on))
        (view w.now p.old) (view w.now p.new) result }
    ensures held { HoldsChannel w.now p.new me chan.number }
    ensures closed { result ≡ Err ClosedChannel → IsClosed (view w.now p.new) chan }
{
    if !w.look_channel(p, me, chan.number).is_open(chan.serial) {
        return Err(ChannelError::ClosedChannel);
    }
    set_mode_open(w, p, me, chan.number, on)
}

fn set_mode_open(
    w: &Words,
    p: &mut Pass,
    me: CallerNo,
    number: ChanNo,
    on: bool,
) -> Result<(), ChannelError>
    requires { HoldsChannel w.now p.old me number }
    ensures call { CallClause me (Completes (sets_mode_open (limits_of w.now) number on))
        (view w.now p.old) (view w.now p.new) result }
    ensures held { HoldsChannel w.now p.new me number }
    ensures unclosed { result ≢ Err ClosedChannel }
{
    let registered = key_if_blocking(w, p, me, number, on);
    set_mode_clear(w, p, me, number, on, registered)
}

// A key of the channel, where `on` asks for blocking mode, which a registered channel can't have.
fn key_if_blocking(w: &Words, p: &mut Pass, me: CallerNo, number: ChanNo, on: bool) -> Option<KeyNo>
    requires { HoldsChannel w.now p.old me number }
    ensures call { CallClause me (Completes (key_where_blocking (limits_of w.now) number on))
        (view w.now p.old) (view w.now p.new) result }
    ensures held { HoldsChannel w.now p.new me number }
    ensures clear { result ≡ None → IsTrue on → IsClearBelow p.new me number (limits_of w.now).selectors }
{
    if on {
        first_key(w, p, me, number)
    } else {
        None
    }
}

fn set_mode_clear(
    w: &Words,
    p: &mut Pass,
    me: CallerNo,
    number: ChanNo,
    on: bool,
    registered: Option<KeyNo>,
) -> Result<(), ChannelError>
    requires held { HoldsChannel w.now p.old me number }
    requires clear { registered ≡ None → IsTrue on → IsClearBelow p.old me number (limits_of w.now).selectors }
    ensures call { CallClause me (Completes (sets_mode_clear number on registered))
        (view w.now p.old) (view w.now p.new) result }
    ensures held { HoldsChannel w.now p.new me number }
    ensures unclosed { result ≢ Err ClosedChannel }
{
    if registered.is_some() {
        return Err(ChannelError::IllegalBlockingMode);
    }
    w.set_mode(p, me, number, on);
    Ok(())
}

//! Calls that wait for the hold of a channel.
ghost use Rattle.std.specs.Prelude.{◌≡◌, ◌≢◌, Err, IfOk};
ghost use Rattle.nio_history.specs.PassViews.{HasChannel, HasKey, HasNoPin, HasSelector};
ghost use Rattle.nio_steps.specs.Calls.{CallClause};
ghost use Rattle.nio_steps.specs.ChannelCalls.{finds_held, Registers, SetsBlocking};
ghost use Rattle.nio_steps.specs.declared.refusal.ChannelError.TheVariants.{Busy, ClosedChannel};
ghost use Rattle.nio_words.specs.Passes.{IsReady, limits_of};
ghost use Rattle.nio_words.specs.Views.{view};
ghost use Rattle.nio_channel.specs.Closed.{IsClosed};
ghost use Rattle.nio_channel.specs.Registered.{IsKeyOf, IsCancelledWhereClosed};

use crate::modes::try_set_blocking;
use crate::registering::try_register;
use nio_base::{CallerNo, ChanId, KeyNo, Ops, SelNo};
use nio_steps::ChannelError;
use nio_words::{Pass, Words};
use std::sync::Wait;
use std::thread;

/// `try_set_blocking`, again and again while another caller has the hold of the channel.
pub fn set_blocking<R: Wait>(
    rt: &R,
    w: &Words,
    p: &mut Pass,
    me: CallerNo,
    chan: ChanId,
    on: bool,
) -> Result<(), ChannelError>
    requires ready { IsReady w.now p.old me }
    requires channel { HasChannel (view w.now p.old) chan }
    ensures call { CallClause me (SetsBlocking (limits_of w.now) chan on) (view w.now p.old) (view w.now p.new) result }
    ensures ready { IsReady w.now p.new me }
    ensures closed { result ≡ Err ClosedChannel → IsClosed (view w.now p.new) chan }
    ensures waits { result ≢ Err Busy }
{
    for _ in rt.forever() {
        let answer = try_set_blocking(w, p, me, chan, on);
        if !is_busy(&answer) {
            return answer;
        }
        thread::yield_now();
    }
    unreachable!()
}

/// `try_register`, again and again while another caller has the hold of the channel.
pub fn register<R: Wait>(
    rt: &R,
    w: &Words,
    p: &mut Pass,
    me: CallerNo,
    sel: SelNo,
    chan: ChanId,
    ops: Ops,
    att: u64,
) -> Result<KeyNo, ChannelError>
    requires ready { IsReady w.now p.old me }
    requires selector { HasSelector (view w.now p.old) sel }
    requires channel { HasChannel (view w.now p.old) chan }
    requires unpinned { HasNoPin (view w.now p.old) me }
    ensures call { CallClause me (Registers (limits_of w.now) sel chan ops att)
        (view w.now p.old) (view w.now p.new) result }
    ensures ready { IsReady w.now p.new me }
    ensures waits { result ≢ Err Busy }
    ensures in_selector { IfOk result (λ k. k.sel ≡ sel) }
    ensures key { IfOk result (HasKey (view w.now p.new)) }
    ensures its { IfOk result (IsKeyOf (view w.now p.new) chan) }
    ensures cancelled { IfOk result (IsCancelledWhereClosed (view w.now p.new) me chan) }
    ensures unpinned { HasNoPin (view w.now p.new) me }
{
    for _ in rt.forever() {
        let answer = try_register(w, p, me, sel, chan, ops, att);
        if !is_busy(&answer) {
            return answer;
        }
        thread::yield_now();
    }
    unreachable!()
}

// Whether the call was refused because another caller has the hold of the channel.
fn is_busy<A>(answer: &Result<A, ChannelError>) -> bool
    ensures { result ≡ finds_held answer.now }
{
    matches!(answer, Err(ChannelError::Busy))
}

//! Opening a channel.
ghost use Rattle.std.specs.Prelude.{◌≡◌, ◌+◌, None, Err, IsTrue, IfOk, IfSome};
ghost use Rattle.nio_history.specs.Conditions.{AllMade, IsChannel};
ghost use Rattle.nio_history.specs.PassViews.{HasChannel, known};
ghost use Rattle.nio_history.specs.Permanent.{channel_of_kind, stands};
ghost use Rattle.nio_steps.specs.Calls.{CallClause};
ghost use Rattle.nio_steps.specs.ChannelCalls.{makes_channel, opened_channel, open_channel_plan, reopens_number};
ghost use Rattle.nio_steps.specs.Names.{channel};
ghost use Rattle.nio_steps.specs.Runs.{Completes};
ghost use Rattle.nio_steps.specs.Sweeps.{seek_to};
ghost use Rattle.nio_steps.specs.declared.refusal.ChannelError.TheVariants.{ChannelsSpent};
ghost use Rattle.nio_words.specs.Passes.{IsReady, limits_of, state_seen};
ghost use Rattle.nio_words.specs.Views.{view};
ghost use Rattle.nio_channel.specs.Opened.{HasOpened};

use crate::reopening::reopen_number;
use nio_base::{CallerNo, ChanId, ChanNo, Kind};
use nio_steps::ChannelError;
use nio_words::{Pass, Words};

/// Opens a channel of this kind, in blocking mode: Java's `open`. It is the first one of the least number that never
/// had a channel. Where every number had one, the number is the least whose channel is closed, is of this kind and
/// isn't registered any more. `ChannelsSpent` where there is no such number either.
#[tactic(auto, unfolding(nio_steps::specs::ChannelCalls::open_channel_plan))]
pub fn open_channel(
    w: &Words,
    p: &mut Pass,
    me: CallerNo,
    kind: Kind,
) -> Result<ChanId, ChannelError>
    requires ready { IsReady w.now p.old me }
    ensures call { CallClause me (Completes (open_channel_plan (limits_of w.now) kind))
        (view w.now p.old) (view w.now p.new) result }
    ensures ready { IsReady w.now p.new me }
    ensures made { IfOk result (HasChannel (view w.now p.new)) }
    ensures kind { IfOk result (λ c. IsTrue (stands (channel_of_kind c.number.0 kind) (known (view w.now p.new)))) }
    ensures spent { result ≡ Err ChannelsSpent → AllMade (state_seen p.new) (limits_of w.now).channels }
{
    let mark = w.look_channels(p, me);
    let made = make_from(w, p, me, kind, mark);
    open_made(w, p, me, kind, made)
}

// Makes the first channel of the first number from `mark` on that isn't made.
fn make_from(w: &Words, p: &mut Pass, me: CallerNo, kind: Kind, mark: u32) -> Option<ChanNo>
    requires ready { IsReady w.now p.old me }
    requires lower { AllMade (state_seen p.old) mark }
    ensures call { CallClause me (Completes (seek_to (limits_of w.now).channels mark
        (λ n. makes_channel kind (channel n)))) (view w.now p.old) (view w.now p.new) result }
    ensures ready { IsReady w.now p.new me }
    ensures inside { IfSome result (IsChannel (limits_of w.now)) }
    ensures lower { IfSome result (λ chan. AllMade (state_seen p.new) (chan.0 + 1)) }
    ensures kind { IfSome result (λ chan. IsTrue (stands (channel_of_kind chan.0 kind) (state_seen p.new))) }
    ensures all { result ≡ None → AllMade (state_seen p.new) (limits_of w.now).channels }
{
    for number in mark..w.limits().channels {
        if let Some(chan) = make(w, p, me, kind, ChanNo(number)) {
            return Some(chan);
        }
    }
    None
}

fn make(w: &Words, p: &mut Pass, me: CallerNo, kind: Kind, chan: ChanNo) -> Option<ChanNo>
    requires ready { IsReady w.now p.old me }
    requires inside { IsChannel (limits_of w.now) chan }
    requires lower { AllMade (state_seen p.old) chan.0 }
    ensures call { CallClause me (Completes (makes_channel kind chan)) (view w.now p.old) (view w.now p.new) result }
    ensures ready { IsReady w.now p.new me }
    ensures lower { AllMade (state_seen p.new) (chan.0 + 1) }
    ensures its { IfSome result (λ made. made ≡ chan) }
    ensures kind { IfSome result (λ made. IsTrue (stands (channel_of_kind made.0 kind) (state_seen p.new))) }
{
    if w.make_channel(p, me, chan, kind) {
        None
    } else {
        Some(chan)
    }
}

// The channel whose number was made, or else one of a number that had a channel.
fn open_made(
    w: &Words,
    p: &mut Pass,
    me: CallerNo,
    kind: Kind,
    made: Option<ChanNo>,
) -> Result<ChanId, ChannelError>
    requires ready { IsReady w.now p.old me }
    requires inside { IfSome made (IsChannel (limits_of w.now)) }
    requires lower { IfSome made (λ chan. AllMade (state_seen p.old) (chan.0 + 1)) }
    requires kind { IfSome made (λ chan. IsTrue (stands (channel_of_kind chan.0 kind) (state_seen p.old))) }
    requires all { made ≡ None → AllMade (state_seen p.old) (limits_of w.now).channels }
    ensures call { CallClause me (Completes (opened_channel (limits_of w.now) kind made))
        (view w.now p.old) (view w.now p.new) result }
    ensures ready { IsReady w.now p.new me }
    ensures opened { IfOk result (HasOpened (view w.now p.new) kind) }
    ensures spent { result ≡ Err ChannelsSpent → AllMade (state_seen p.new) (limits_of w.now).channels }
{
    match made {
        Some(number) => {
            w.raise_channels(p, me, number.0 + 1);
            Ok(ChanId { number, serial: 0 })
        }
        None => reopen_first(w, p, me, kind).ok_or(ChannelError::ChannelsSpent),
    }
}

// Opens a channel of the first number that can be given to a new channel of this kind.
fn reopen_first(w: &Words, p: &mut Pass, me: CallerNo, kind: Kind) -> Option<ChanId>
    requires ready { IsReady w.now p.old me }
    ensures call { CallClause me (Completes (seek_to (limits_of w.now).channels 0
        (λ n. reopens_number (limits_of w.now) kind (channel n)))) (view w.now p.old) (view w.now p.new) result }
    ensures ready { IsReady w.now p.new me }
    ensures opened { IfSome result (HasOpened (view w.now p.new) kind) }
{
    for number in 0..w.limits().channels {
        if let Some(chan) = reopen_number(w, p, me, kind, ChanNo(number)) {
            return Some(chan);
        }
    }
    None
}

//! Giving the number of a closed channel to a new one.
ghost use Rattle.std.specs.Prelude.{◌≡◌, ◌≢◌, ◌≤◌, suc, None, Err, IsFalse, IsTrue, IfOk, IfSome, is_ok};
ghost use Rattle.nio_history.specs.Conditions.{IsChannel, is_made};
ghost use Rattle.nio_history.specs.OwnEvents.{has, reopens};
ghost use Rattle.nio_history.specs.PassViews.{HasChannel, done_between};
ghost use Rattle.nio_history.specs.Sets.{can_reopen as may_come_back};
ghost use Rattle.nio_base.specs.Numbers.{last_serial};
ghost use Rattle.nio_steps.specs.Calls.{CallClause};
ghost use Rattle.nio_steps.specs.ChannelCalls.{reopen_channel_plan, reopens_number};
ghost use Rattle.nio_steps.specs.ChannelCalls.{reopen_clear as reopens_clear, reopen_found as reopens_found};
ghost use Rattle.nio_steps.specs.Names.{channel_of};
ghost use Rattle.nio_steps.specs.Runs.{Completes};
ghost use Rattle.nio_steps.specs.declared.refusal.ReopenError.TheVariants.{Lost, Open, SerialsSpent};
ghost use Rattle.nio_words.specs.Passes.{IsReady, limits_of, state_seen};
ghost use Rattle.nio_words.specs.Views.{view};
ghost use Rattle.nio_channel.specs.Closed.{IsClosed};
ghost use Rattle.nio_channel.specs.Held.{HoldsChannel, IsClearBelow};
ghost use Rattle.nio_channel.specs.Opened.{HasOpened, is_decided_at_once, reopen_held as reopens_held};

use crate::keys::first_key;
use nio_base::{CallerNo, ChanId, ChanNo, KeyNo, Kind};
use nio_history::Chan;
use nio_steps::ReopenError;
use nio_words::{Pass, Words};

/// Opens a channel of the number of this one, which is closed: of its kind, in blocking mode, with the next serial.
/// It is the quick way for who knows what it closed; `open_channel` may look at every number.
///
/// It is refused where the channel is open (`Open`) or still registered (`Registered`: a selection on its selector
/// removes its cancelled keys), where the number was given to another channel since (`Lost`) or had as many as it may
/// (`SerialsSpent`), and where another caller has the hold of the number (`Busy`).
#[tactic(auto, unfolding(nio_steps::specs::ChannelCalls::reopen_channel_plan))]
pub fn reopen_channel(
    w: &Words,
    p: &mut Pass,
    me: CallerNo,
    chan: ChanId,
) -> Result<ChanId, ReopenError>
    requires ready { IsReady w.now p.old me }
    requires channel { HasChannel (view w.now p.old) chan }
    ensures call { CallClause me (Completes (reopen_channel_plan (limits_of w.now) chan))
        (view w.now p.old) (view w.now p.new) result }
    ensures ready { IsReady w.now p.new me }
    ensures next { IfOk result (λ new. new ≡ channel_of chan.number (suc chan.serial)) }
    ensures opened { IfOk result (HasChannel (view w.now p.new)) }
    ensures took { is_ok result ≡ has (reopens chan.number.0) (done_between me (view w.now p.old) (view w.now p.new)) }
    ensures lost { result ≡ Err Lost → HasChannel (view w.now p.new) (channel_of chan.number (suc chan.serial)) }
    ensures spent { result ≡ Err SerialsSpent → last_serial ≤ chan.serial }
    ensures closed { result ≢ Err Open → IsClosed (view w.now p.new) chan }
{
    let found = w.look_channel(p, me, chan.number);
    if !found.fits(chan.serial) {
        return Err(ReopenError::Lost);
    }
    if !found.closed {
        return Err(ReopenError::Open);
    }
    if !can_reopen(found) {
        return Err(ReopenError::SerialsSpent);
    }
    reopen_found(w, p, me, chan.number, found)
}

// Gives the number to a new channel of this kind, where it had one of the kind that is closed.
pub(crate) fn reopen_number(
    w: &Words,
    p: &mut Pass,
    me: CallerNo,
    kind: Kind,
    number: ChanNo,
) -> Option<ChanId>
    requires ready { IsReady w.now p.old me }
    requires channel { IsChannel (limits_of w.now) number }
    ensures call { CallClause me (Completes (reopens_number (limits_of w.now) kind number))
        (view w.now p.old) (view w.now p.new) result }
    ensures ready { IsReady w.now p.new me }
    ensures opened { IfSome result (HasOpened (view w.now p.new) kind) }
{
    let found = w.look_channel(p, me, number);
    if can_reopen(found) && found.kind == kind {
        reopen_found(w, p, me, number, found).ok()
    } else {
        None
    }
}

// Gives the number to a new channel in place of the one that was found so.
fn reopen_found(
    w: &Words,
    p: &mut Pass,
    me: CallerNo,
    number: ChanNo,
    from: Chan,
) -> Result<ChanId, ReopenError>
    requires ready { IsReady w.now p.old me }
    requires channel { IsChannel (limits_of w.now) number }
    requires made { IsTrue (is_made (state_seen p.old) number) }
    requires can { IsTrue (may_come_back from) }
    ensures call { CallClause me (Completes (reopens_found (limits_of w.now) number from))
        (view w.now p.old) (view w.now p.new) result }
    ensures ready { IsReady w.now p.new me }
    ensures next { IfOk result (λ new. new ≡ channel_of number (suc from.serial)) }
    ensures opened { IfOk result (HasOpened (view w.now p.new) from.kind) }
    ensures took { is_ok result ≡ has (reopens number.0) (done_between me (view w.now p.old) (view w.now p.new)) }
    ensures later { IsFalse (is_decided_at_once result) }
{
    if w.try_hold_bit(p, me, number).is_some() {
        return Err(ReopenError::Busy);
    }
    let answer = reopen_held(w, p, me, number, from);
    w.release(p, me, number);
    answer
}

fn reopen_held(
    w: &Words,
    p: &mut Pass,
    me: CallerNo,
    number: ChanNo,
    from: Chan,
) -> Result<ChanId, ReopenError>
    requires held { HoldsChannel w.now p.old me number }
    requires can { IsTrue (may_come_back from) }
    ensures call { CallClause me (Completes (reopens_held (limits_of w.now) number from))
        (view w.now p.old) (view w.now p.new) result }
    ensures held { HoldsChannel w.now p.new me number }
    ensures next { IfOk result (λ new. new ≡ channel_of number (suc from.serial)) }
    ensures opened { IfOk result (HasOpened (view w.now p.new) from.kind) }
    ensures took { is_ok result ≡ has (reopens number.0) (done_between me (view w.now p.old) (view w.now p.new)) }
    ensures later { IsFalse (is_decided_at_once result) }
{
    let registered = first_key(w, p, me, number);
    reopen_clear(w, p, me, number, from, registered)
}

fn reopen_clear(
    w: &Words,
    p: &mut Pass,
    me: CallerNo,
    number: ChanNo,
    from: Chan,
    registered: Option<KeyNo>,
) -> Result<ChanId, ReopenError>
    requires held { HoldsChannel w.now p.old me number }
    requires can { IsTrue (may_come_back from) }
    requires clear { registered ≡ None → IsClearBelow p.old me number (limits_of w.now).selectors }
    ensures call { CallClause me (Completes (reopens_clear number from registered))
        (view w.now p.old) (view w.now p.new) result }
    ensures held { HoldsChannel w.now p.new me number }
    ensures next { IfOk result (λ new. new ≡ channel_of number (suc from.serial)) }
    ensures opened { IfOk result (HasOpened (view w.now p.new) from.kind) }
    ensures took { is_ok result ≡ has (reopens number.0) (done_between me (view w.now p.old) (view w.now p.new)) }
    ensures later { IsFalse (is_decided_at_once result) }
{
    if registered.is_some() {
        return Err(ReopenError::Registered);
    }
    if w.reopen(p, me, number, from) {
        return Err(ReopenError::Busy);
    }
    Ok(ChanId {
        number,
        serial: from.serial + 1,
    })
}

// Whether a number that was found so can be given to a new channel.
fn can_reopen(found: Chan) -> bool
    ensures { result ≡ may_come_back found }
{
    found.made && found.closed && found.serial < u32::MAX
}

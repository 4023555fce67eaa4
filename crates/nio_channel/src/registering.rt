//! Registering a channel with a selector.
ghost use Rattle.std.specs.Prelude.{◌≡◌, ◌+◌, ◌≤◌, Some, None, IfSome, IfOk, IsTrue, IsFalse};
ghost use Rattle.nio_history.specs.Conditions.{AllClaimed, IsKey, IsSelector, is_claimed};
ghost use Rattle.nio_history.specs.OwnEvents.{last, enrolled_found, under};
ghost use Rattle.nio_history.specs.PassViews.{HasChannel, HasKey, HasNoPin, HasSelector};
ghost use Rattle.nio_history.specs.Sets.{is_in_key_set as is_in_set};
ghost use Rattle.nio_steps.specs.Calls.{CallClause};
ghost use Rattle.nio_steps.specs.ChannelCalls.{update_key as updates_key, register_enrolled as registers_enrolled};
ghost use Rattle.nio_steps.specs.ChannelCalls.{register_unenrolled as registers_unenrolled};
ghost use Rattle.nio_steps.specs.ChannelCalls.{register_over as registers_over, settle_key as settles_key};
ghost use Rattle.nio_steps.specs.ChannelCalls.{publish_key as publishes_key, make_key as makes_key};
ghost use Rattle.nio_steps.specs.ChannelCalls.{make_claimed as makes_claimed, register_first as registers_first};
ghost use Rattle.nio_steps.specs.ChannelCalls.{register_again as registers_again, register_next as registers_next};
ghost use Rattle.nio_steps.specs.ChannelCalls.{register_new as registers_new, register_rest as registers_rest};
ghost use Rattle.nio_steps.specs.ChannelCalls.{register_unblocked as registers_unblocked};
ghost use Rattle.nio_steps.specs.ChannelCalls.{register_held as registers_held, try_register_plan};
ghost use Rattle.nio_steps.specs.Names.{key};
ghost use Rattle.nio_steps.specs.Runs.{Completes};
ghost use Rattle.nio_words.specs.Passes.{IsReady, acts_seen, limits_of, state_seen};
ghost use Rattle.nio_words.specs.Views.{view, IsPinned};
ghost use Rattle.nio_channel.specs.Held.{HoldsChannel, HoldsUnblocked, MayEnrol, KnowsEnrolled, KnowsKey, HasClaimed};
ghost use Rattle.nio_channel.specs.Held.{HasPublished, HasRegistered};
ghost use Rattle.nio_channel.specs.Registered.{found_closed, IsKeyOf, IsCancelledWhereClosed};

use crate::claiming::{claim_first, search_free};
use crate::keys::look_enrolled;
use nio_base::{CallerNo, ChanId, KeyId, KeyNo, Ops, SelNo};
use nio_history::Stage;
use nio_steps::{ChannelError, supports};
use nio_words::{Pass, Words};

// A registration that is asked for.
#[derive(Clone, Copy)]
struct Wanted {
    sel: SelNo,
    chan: ChanId,
    ops: Ops,
    att: u64,
}

/// Registers the channel with the selector: Java's `register`. Where the channel has a valid key there, this
/// key is answered: its interest set becomes `ops`, and its attachment `att` where that isn't 0. Else a new
/// key is made, with an index that is free or was never used.
///
/// `Busy` where another caller has the hold of the channel. A new key is published also where the channel is
/// closed meanwhile; then it is cancelled before it is answered.
#[tactic(auto, unfolding(nio_steps::specs::ChannelCalls::try_register_plan))]
pub fn try_register(
    w: &Words,
    p: &mut Pass,
    me: CallerNo,
    sel: SelNo,
    chan: ChanId,
    ops: Ops,
    att: u64,
) -> Result<KeyNo, ChannelError>
    requires ready { IsReady w.now p.old me }
    requires selector { HasSelector (view w.now p.old) sel }
    requires channel { HasChannel (view w.now p.old) chan }
    requires unpinned { HasNoPin (view w.now p.old) me }
    ensures call { CallClause me (Completes (try_register_plan (limits_of w.now) sel chan ops att))
        (view w.now p.old) (view w.now p.new) result }
    ensures ready { IsReady w.now p.new me }
    ensures in_selector { IfOk result (λ k. k.sel ≡ sel) }
    ensures key { IfOk result (HasKey (view w.now p.new)) }
    ensures its { IfOk result (IsKeyOf (view w.now p.new) chan) }
    ensures cancelled { IfOk result (IsCancelledWhereClosed (view w.now p.new) me chan) }
    ensures unpinned { HasNoPin (view w.now p.new) me }
{
    let found = w.look_channel(p, me, chan.number);
    if !supports(found.kind, ops) {
        return Err(ChannelError::IllegalOps);
    }
    if !found.is_open(chan.serial) {
        return Err(ChannelError::ClosedChannel);
    }
    if w.try_hold_bit(p, me, chan.number).is_some() {
        return Err(ChannelError::Busy);
    }
    let wanted = Wanted {
        sel,
        chan,
        ops,
        att,
    };
    let answer = register_held(w, p, me, &wanted);
    w.release(p, me, chan.number);
    answer
}

fn register_held(
    w: &Words,
    p: &mut Pass,
    me: CallerNo,
    wanted: &Wanted,
) -> Result<KeyNo, ChannelError>
    requires held { HoldsChannel w.now p.old me wanted.now.chan.number }
    requires unclosed { IsFalse (found_closed (view w.now p.old) me wanted.now.chan) }
    requires selector { IsSelector (limits_of w.now) wanted.now.sel }
    requires unpinned { HasNoPin (view w.now p.old) me }
    ensures call { CallClause me (Completes (registers_held (limits_of w.now) wanted.now.sel wanted.now.chan
        wanted.now.ops wanted.now.att)) (view w.now p.old) (view w.now p.new) result }
    ensures held { HoldsChannel w.now p.new me wanted.now.chan.number }
    ensures registered { IfOk result (HasRegistered w.now p.new me wanted.now.chan wanted.now.sel) }
    ensures unpinned { HasNoPin (view w.now p.new) me }
{
    let found = w.look_channel(p, me, wanted.chan.number);
    if !found.is_open(wanted.chan.serial) {
        return Err(ChannelError::ClosedChannel);
    }
    if found.blocking {
        return Err(ChannelError::IllegalBlockingMode);
    }
    register_unblocked(w, p, me, wanted)
}

fn register_unblocked(
    w: &Words,
    p: &mut Pass,
    me: CallerNo,
    wanted: &Wanted,
) -> Result<KeyNo, ChannelError>
    requires unblocked { HoldsUnblocked w.now p.old me wanted.now.chan }
    requires selector { IsSelector (limits_of w.now) wanted.now.sel }
    requires unpinned { HasNoPin (view w.now p.old) me }
    ensures call { CallClause me (Completes (registers_unblocked (limits_of w.now) wanted.now.sel wanted.now.chan
        wanted.now.ops wanted.now.att)) (view w.now p.old) (view w.now p.new) result }
    ensures held { HoldsChannel w.now p.new me wanted.now.chan.number }
    ensures registered { IfOk result (HasRegistered w.now p.new me wanted.now.chan wanted.now.sel) }
    ensures unpinned { HasNoPin (view w.now p.new) me }
{
    let enrolled = look_enrolled(w, p, me, wanted.chan.number, wanted.sel);
    let over = register_over(w, p, me, wanted, enrolled);
    register_rest(w, p, me, wanted, over)
}

// The answer with which the registration ends, or none where the channel has no key there and a new one is to
// be made.
fn register_over(
    w: &Words,
    p: &mut Pass,
    me: CallerNo,
    wanted: &Wanted,
    enrolled: Option<KeyId>,
) -> Option<Result<KeyNo, ChannelError>>
    requires unblocked { HoldsUnblocked w.now p.old me wanted.now.chan }
    requires told { last (enrolled_found wanted.now.chan.number.0 wanted.now.sel.0)
        (under wanted.now.chan.number.0 (acts_seen p.old me)) ≡ Some enrolled }
    requires selector { IsSelector (limits_of w.now) wanted.now.sel }
    requires inside { IfSome enrolled (λ k. IsKey (limits_of w.now) wanted.now.sel k.index) }
    requires claimed { IfSome enrolled (λ k. IsTrue (is_claimed (state_seen p.old) wanted.now.sel k.index)) }
    requires unpinned { HasNoPin (view w.now p.old) me }
    ensures call { CallClause me (Completes (registers_over wanted.now.sel wanted.now.ops wanted.now.att enrolled))
        (view w.now p.old) (view w.now p.new) result }
    ensures unblocked { HoldsUnblocked w.now p.new me wanted.now.chan }
    ensures may { result ≡ None → MayEnrol w.now p.new me wanted.now.chan wanted.now.sel }
    ensures registered { IfSome result (λ answer. IfOk answer
        (HasRegistered w.now p.new me wanted.now.chan wanted.now.sel)) }
    ensures unpinned { HasNoPin (view w.now p.new) me }
{
    match enrolled {
        Some(k) => register_known(w, p, me, wanted, k),
        None => register_unenrolled(w, p, me, wanted),
    }
}

fn register_unenrolled(
    w: &Words,
    p: &mut Pass,
    me: CallerNo,
    wanted: &Wanted,
) -> Option<Result<KeyNo, ChannelError>>
    requires may { MayEnrol w.now p.old me wanted.now.chan wanted.now.sel }
    requires selector { IsSelector (limits_of w.now) wanted.now.sel }
    requires unpinned { HasNoPin (view w.now p.old) me }
    ensures call { CallClause me (Completes (registers_unenrolled wanted.now.sel))
        (view w.now p.old) (view w.now p.new) result }
    ensures may { MayEnrol w.now p.new me wanted.now.chan wanted.now.sel }
    ensures registered { IfSome result (λ answer. IfOk answer
        (HasRegistered w.now p.new me wanted.now.chan wanted.now.sel)) }
    ensures unpinned { HasNoPin (view w.now p.new) me }
{
    if w.look_gate(p, me, wanted.sel).shut {
        Some(Err(ChannelError::ClosedSelector))
    } else {
        None
    }
}

fn register_known(
    w: &Words,
    p: &mut Pass,
    me: CallerNo,
    wanted: &Wanted,
    k: KeyId,
) -> Option<Result<KeyNo, ChannelError>>
    requires unblocked { HoldsUnblocked w.now p.old me wanted.now.chan }
    requires enrolled { KnowsEnrolled p.old me wanted.now.chan.number wanted.now.sel k }
    requires inside { IsKey (limits_of w.now) wanted.now.sel k.index }
    requires claimed { IsTrue (is_claimed (state_seen p.old) wanted.now.sel k.index) }
    requires unpinned { HasNoPin (view w.now p.old) me }
    ensures call { CallClause me (Completes (registers_over wanted.now.sel wanted.now.ops wanted.now.att (Some k)))
        (view w.now p.old) (view w.now p.new) result }
    ensures unblocked { HoldsUnblocked w.now p.new me wanted.now.chan }
    ensures may { result ≡ None → MayEnrol w.now p.new me wanted.now.chan wanted.now.sel }
    ensures registered { IfSome result (λ answer. IfOk answer
        (HasRegistered w.now p.new me wanted.now.chan wanted.now.sel)) }
    ensures unpinned { HasNoPin (view w.now p.new) me }
{
    let stage = w.pin(p, me, wanted.sel, k.index);
    let over = register_enrolled(w, p, me, wanted, k, stage);
    w.unpin(p, me, wanted.sel, k.index);
    over
}

fn register_enrolled(
    w: &Words,
    p: &mut Pass,
    me: CallerNo,
    wanted: &Wanted,
    k: KeyId,
    stage: Stage,
) -> Option<Result<KeyNo, ChannelError>>
    requires unblocked { HoldsUnblocked w.now p.old me wanted.now.chan }
    requires pinned { IsPinned w.now p.old me wanted.now.sel k.index }
    requires enrolled { KnowsEnrolled p.old me wanted.now.chan.number wanted.now.sel k }
    requires has { IsTrue (is_in_set stage k.serial) → HasKey (view w.now p.old) (key wanted.now.sel k) }
    requires may { IsFalse (is_in_set stage k.serial) → MayEnrol w.now p.old me wanted.now.chan wanted.now.sel }
    ensures call { CallClause me (Completes (registers_enrolled wanted.now.sel wanted.now.ops wanted.now.att k stage))
        (view w.now p.old) (view w.now p.new) result }
    ensures unblocked { HoldsUnblocked w.now p.new me wanted.now.chan }
    ensures may { result ≡ None → MayEnrol w.now p.new me wanted.now.chan wanted.now.sel }
    ensures registered { IfSome result (λ answer. IfOk answer
        (HasRegistered w.now p.new me wanted.now.chan wanted.now.sel)) }
    ensures pinned { IsPinned w.now p.new me wanted.now.sel k.index }
{
    if stage.is_in_key_set(k.serial) && stage.cancelled {
        return Some(Err(ChannelError::CancelledKey));
    }
    if w.look_gate(p, me, wanted.sel).shut {
        return Some(Err(ChannelError::ClosedSelector));
    }
    if stage.is_valid_key(k.serial) {
        Some(update_key(w, p, me, wanted, k))
    } else {
        None
    }
}

fn update_key(
    w: &Words,
    p: &mut Pass,
    me: CallerNo,
    wanted: &Wanted,
    k: KeyId,
) -> Result<KeyNo, ChannelError>
    requires { KnowsKey w.now p.old me wanted.now.chan wanted.now.sel k }
    ensures call { CallClause me (Completes (updates_key wanted.now.sel k wanted.now.ops wanted.now.att))
        (view w.now p.old) (view w.now p.new) result }
    ensures known { KnowsKey w.now p.new me wanted.now.chan wanted.now.sel k }
    ensures its { IfOk result (λ answer. answer ≡ key wanted.now.sel k) }
{
    let answer = KeyNo {
        sel: wanted.sel,
        index: k.index,
        serial: k.serial,
    };
    w.touch(p, me, wanted.sel, k.index);
    w.swap_interest(p, me, wanted.sel, k.index, wanted.ops);
    if wanted.att == 0 {
        return Ok(answer);
    }
    w.swap_note(p, me, wanted.sel, k.index, wanted.att);
    Ok(answer)
}

fn register_rest(
    w: &Words,
    p: &mut Pass,
    me: CallerNo,
    wanted: &Wanted,
    over: Option<Result<KeyNo, ChannelError>>,
) -> Result<KeyNo, ChannelError>
    requires unblocked { HoldsUnblocked w.now p.old me wanted.now.chan }
    requires may { over ≡ None → MayEnrol w.now p.old me wanted.now.chan wanted.now.sel }
    requires registered { IfSome over (λ answer. IfOk answer
        (HasRegistered w.now p.old me wanted.now.chan wanted.now.sel)) }
    requires selector { IsSelector (limits_of w.now) wanted.now.sel }
    requires unpinned { HasNoPin (view w.now p.old) me }
    ensures call { CallClause me (Completes (registers_rest (limits_of w.now) wanted.now.sel wanted.now.chan
        wanted.now.ops wanted.now.att over)) (view w.now p.old) (view w.now p.new) result }
    ensures held { HoldsChannel w.now p.new me wanted.now.chan.number }
    ensures registered { IfOk result (HasRegistered w.now p.new me wanted.now.chan wanted.now.sel) }
    ensures unpinned { HasNoPin (view w.now p.new) me }
{
    match over {
        Some(answer) => answer,
        None => register_new(w, p, me, wanted),
    }
}

fn register_new(
    w: &Words,
    p: &mut Pass,
    me: CallerNo,
    wanted: &Wanted,
) -> Result<KeyNo, ChannelError>
    requires may { MayEnrol w.now p.old me wanted.now.chan wanted.now.sel }
    requires selector { IsSelector (limits_of w.now) wanted.now.sel }
    requires unpinned { HasNoPin (view w.now p.old) me }
    ensures call { CallClause me (Completes (registers_new (limits_of w.now) wanted.now.sel wanted.now.chan
        wanted.now.ops wanted.now.att)) (view w.now p.old) (view w.now p.new) result }
    ensures held { HoldsChannel w.now p.new me wanted.now.chan.number }
    ensures registered { IfOk result (HasRegistered w.now p.new me wanted.now.chan wanted.now.sel) }
    ensures unpinned { HasNoPin (view w.now p.new) me }
{
    let mark = w.look_keys(p, me, wanted.sel);
    let claimed = search_free(w, p, me, wanted.sel, wanted.chan, mark);
    register_next(w, p, me, wanted, mark, claimed)
}

// Registers with the index that was claimed again, or else with the first that was never claimed.
fn register_next(
    w: &Words,
    p: &mut Pass,
    me: CallerNo,
    wanted: &Wanted,
    mark: u32,
    claimed: Option<KeyId>,
) -> Result<KeyNo, ChannelError>
    requires may { MayEnrol w.now p.old me wanted.now.chan wanted.now.sel }
    requires selector { IsSelector (limits_of w.now) wanted.now.sel }
    requires lower { AllClaimed (state_seen p.old) wanted.now.sel mark }
    requires claimed { IfSome claimed (HasClaimed w.now p.old me wanted.now.chan.number wanted.now.sel) }
    requires unpinned { claimed ≡ None → HasNoPin (view w.now p.old) me }
    ensures call { CallClause me (Completes (registers_next (limits_of w.now) wanted.now.sel wanted.now.chan
        wanted.now.ops wanted.now.att mark claimed)) (view w.now p.old) (view w.now p.new) result }
    ensures held { HoldsChannel w.now p.new me wanted.now.chan.number }
    ensures registered { IfOk result (HasRegistered w.now p.new me wanted.now.chan wanted.now.sel) }
    ensures unpinned { HasNoPin (view w.now p.new) me }
{
    match claimed {
        Some(k) => register_again(w, p, me, wanted, k),
        None => {
            let first = claim_first(w, p, me, wanted.sel, wanted.chan, mark);
            register_first(w, p, me, wanted, first)
        }
    }
}

// Registers with an index that had a key before.
fn register_again(
    w: &Words,
    p: &mut Pass,
    me: CallerNo,
    wanted: &Wanted,
    k: KeyId,
) -> Result<KeyNo, ChannelError>
    requires may { MayEnrol w.now p.old me wanted.now.chan wanted.now.sel }
    requires claimed { HasClaimed w.now p.old me wanted.now.chan.number wanted.now.sel k }
    ensures call { CallClause me (Completes (registers_again wanted.now.sel wanted.now.chan wanted.now.ops
        wanted.now.att k)) (view w.now p.old) (view w.now p.new) result }
    ensures held { HoldsChannel w.now p.new me wanted.now.chan.number }
    ensures registered { IfOk result (HasRegistered w.now p.new me wanted.now.chan wanted.now.sel) }
    ensures unpinned { HasNoPin (view w.now p.new) me }
{
    w.clear_mark(p, me, wanted.sel, k.index);
    make_claimed(w, p, me, wanted, k)
}

// Registers with an index that never had a key.
fn register_first(
    w: &Words,
    p: &mut Pass,
    me: CallerNo,
    wanted: &Wanted,
    claimed: Option<KeyId>,
) -> Result<KeyNo, ChannelError>
    requires may { MayEnrol w.now p.old me wanted.now.chan wanted.now.sel }
    requires claimed { IfSome claimed (HasClaimed w.now p.old me wanted.now.chan.number wanted.now.sel) }
    requires lower { IfSome claimed (λ k. AllClaimed (state_seen p.old) wanted.now.sel (k.index + 1)) }
    requires unpinned { claimed ≡ None → HasNoPin (view w.now p.old) me }
    ensures call { CallClause me (Completes (registers_first wanted.now.sel wanted.now.chan wanted.now.ops
        wanted.now.att claimed)) (view w.now p.old) (view w.now p.new) result }
    ensures held { HoldsChannel w.now p.new me wanted.now.chan.number }
    ensures registered { IfOk result (HasRegistered w.now p.new me wanted.now.chan wanted.now.sel) }
    ensures unpinned { HasNoPin (view w.now p.new) me }
{
    let Some(k) = claimed else {
        return Err(ChannelError::Full);
    };
    w.raise_keys(p, me, wanted.sel, k.index + 1);
    make_claimed(w, p, me, wanted, k)
}

// Makes the key of an index that the caller claimed, and takes the pin of the claim off.
fn make_claimed(
    w: &Words,
    p: &mut Pass,
    me: CallerNo,
    wanted: &Wanted,
    k: KeyId,
) -> Result<KeyNo, ChannelError>
    requires may { MayEnrol w.now p.old me wanted.now.chan wanted.now.sel }
    requires claimed { HasClaimed w.now p.old me wanted.now.chan.number wanted.now.sel k }
    ensures call { CallClause me (Completes (makes_claimed wanted.now.sel wanted.now.chan wanted.now.ops wanted.now.att
        k)) (view w.now p.old) (view w.now p.new) result }
    ensures held { HoldsChannel w.now p.new me wanted.now.chan.number }
    ensures registered { IfOk result (HasRegistered w.now p.new me wanted.now.chan wanted.now.sel) }
    ensures unpinned { HasNoPin (view w.now p.new) me }
{
    let answer = make_key(w, p, me, wanted, k);
    w.unpin(p, me, wanted.sel, k.index);
    answer
}

fn make_key(
    w: &Words,
    p: &mut Pass,
    me: CallerNo,
    wanted: &Wanted,
    k: KeyId,
) -> Result<KeyNo, ChannelError>
    requires may { MayEnrol w.now p.old me wanted.now.chan wanted.now.sel }
    requires claimed { HasClaimed w.now p.old me wanted.now.chan.number wanted.now.sel k }
    ensures call { CallClause me (Completes (makes_key wanted.now.sel wanted.now.chan wanted.now.ops wanted.now.att k))
        (view w.now p.old) (view w.now p.new) result }
    ensures held { HoldsChannel w.now p.new me wanted.now.chan.number }
    ensures registered { IfOk result (HasRegistered w.now p.new me wanted.now.chan wanted.now.sel) }
    ensures pinned { IsPinned w.now p.new me wanted.now.sel k.index }
{
    if w.look_gate(p, me, wanted.sel).shut {
        return Err(ChannelError::ClosedSelector);
    }
    publish_key(w, p, me, wanted, k)
}

// The index is touched before the key's parts are set, they are set before it is enrolled, and it is enrolled before it
// is published.
fn publish_key(
    w: &Words,
    p: &mut Pass,
    me: CallerNo,
    wanted: &Wanted,
    k: KeyId,
) -> Result<KeyNo, ChannelError>
    requires may { MayEnrol w.now p.old me wanted.now.chan wanted.now.sel }
    requires claimed { HasClaimed w.now p.old me wanted.now.chan.number wanted.now.sel k }
    ensures call { CallClause me (Completes (publishes_key wanted.now.sel wanted.now.chan wanted.now.ops wanted.now.att
        k)) (view w.now p.old) (view w.now p.new) result }
    ensures held { HoldsChannel w.now p.new me wanted.now.chan.number }
    ensures registered { IfOk result (HasRegistered w.now p.new me wanted.now.chan wanted.now.sel) }
    ensures pinned { IsPinned w.now p.new me wanted.now.sel k.index }
{
    w.touch(p, me, wanted.sel, k.index);
    w.swap_interest(p, me, wanted.sel, k.index, wanted.ops);
    w.swap_note(p, me, wanted.sel, k.index, wanted.att);
    w.enrol(p, me, wanted.chan.number, wanted.sel, k.index, k.serial);
    let before = w.publish(p, me, wanted.sel, k.index);
    if before.removed {
        return Err(ChannelError::ClosedSelector);
    }
    settle_key(w, p, me, wanted, k)
}

// Whoever closes the channel cancels the key that it finds enrolled. Where the channel was closed before the key
// was enrolled, this look finds it closed.
fn settle_key(
    w: &Words,
    p: &mut Pass,
    me: CallerNo,
    wanted: &Wanted,
    k: KeyId,
) -> Result<KeyNo, ChannelError>
    requires { HasPublished w.now p.old me wanted.now.chan wanted.now.sel k }
    ensures call { CallClause me (Completes (settles_key wanted.now.sel wanted.now.chan k))
        (view w.now p.old) (view w.now p.new) result }
    ensures held { HoldsChannel w.now p.new me wanted.now.chan.number }
    ensures registered { IfOk result (HasRegistered w.now p.new me wanted.now.chan wanted.now.sel) }
    ensures pinned { IsPinned w.now p.new me wanted.now.sel k.index }
{
    let answer = KeyNo {
        sel: wanted.sel,
        index: k.index,
        serial: k.serial,
    };
    let found = w.look_channel(p, me, wanted.chan.number);
    if found.is_open(wanted.chan.serial) {
        return Ok(answer);
    }
    w.cancel_key(p, me, wanted.sel, k.index);
    Ok(answer)
}

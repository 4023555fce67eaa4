//! Calls that look for a channel's keys.
ghost use Rattle.std.specs.Prelude.{◌≡◌, ◌+◌, false, None, IfSome, IsFalse, IsTrue};
ghost use Rattle.nio_history.specs.Conditions.{IsChannel, IsSelector, IsKey, is_claimed};
ghost use Rattle.nio_history.specs.OwnEvents.{has, reopens};
ghost use Rattle.nio_history.specs.PassViews.{HasChannel, HasSelector, HasKey, done_between};
ghost use Rattle.nio_history.specs.declared.act.Act.TheVariants.{LookReg};
ghost use Rattle.nio_steps.specs.Calls.{CallClause};
ghost use Rattle.nio_steps.specs.ChannelCalls.{enrolled_key as finds_enrolled_key, first_key as finds_first_key};
ghost use Rattle.nio_steps.specs.ChannelCalls.{key_for_plan, registered_or, is_registered_plan};
ghost use Rattle.nio_steps.specs.Runs.{Completes};
ghost use Rattle.nio_steps.specs.Sweeps.{sweep_to};
ghost use Rattle.nio_words.specs.Passes.{IsReady, limits_of, state_seen};
ghost use Rattle.nio_words.specs.Steps.{Steps};
ghost use Rattle.nio_words.specs.Views.{view};
ghost use Rattle.nio_channel.specs.Held.{HoldsChannel, IsClearBelow};

use crate::looks::has_number;
use nio_base::{CallerNo, ChanId, ChanNo, KeyId, KeyNo, SelNo};
use nio_words::{Pass, Words};

/// The channel's key in the selector, where it has one: Java's `keyFor`.
#[tactic(auto, unfolding(nio_steps::specs::ChannelCalls::key_for_plan))]
pub fn key_for(w: &Words, p: &mut Pass, me: CallerNo, chan: ChanId, sel: SelNo) -> Option<KeyNo>
    requires ready { IsReady w.now p.old me }
    requires channel { HasChannel (view w.now p.old) chan }
    requires selector { HasSelector (view w.now p.old) sel }
    ensures call { CallClause me (Completes (key_for_plan chan sel)) (view w.now p.old) (view w.now p.new) result }
    ensures ready { IsReady w.now p.new me }
    ensures found { IfSome result (HasKey (view w.now p.new)) }
{
    let Some(found) = enrolled_key(w, p, me, chan.number, sel) else {
        return None;
    };
    if has_number(w, p, me, chan) {
        Some(found)
    } else {
        None
    }
}

/// Whether the channel is registered with any selector: Java's `isRegistered`.
#[tactic(auto, unfolding(nio_steps::specs::ChannelCalls::is_registered_plan))]
pub fn is_registered(w: &Words, p: &mut Pass, me: CallerNo, chan: ChanId) -> bool
    requires ready { IsReady w.now p.old me }
    requires channel { HasChannel (view w.now p.old) chan }
    ensures call { CallClause me (Completes (is_registered_plan (limits_of w.now) chan))
        (view w.now p.old) (view w.now p.new) result }
    ensures ready { IsReady w.now p.new me }
{
    if has_keys(w, p, me, chan.number) {
        has_number(w, p, me, chan)
    } else {
        false
    }
}

// Whether a key of the number is in any selector's key set.
fn has_keys(w: &Words, p: &mut Pass, me: CallerNo, number: ChanNo) -> bool
    requires ready { IsReady w.now p.old me }
    requires channel { IsChannel (limits_of w.now) number }
    ensures call { CallClause me (Completes (sweep_to (limits_of w.now).selectors 0 (registered_or number) false))
        (view w.now p.old) (view w.now p.new) result }
    ensures ready { IsReady w.now p.new me }
{
    let mut registered = false;
    for sel in 0..w.limits().selectors {
        registered = has_key_in(w, p, me, number, SelNo(sel), registered);
    }
    registered
}

// Whether a key of the number is in this selector's key set, or was found in one before.
fn has_key_in(
    w: &Words,
    p: &mut Pass,
    me: CallerNo,
    number: ChanNo,
    sel: SelNo,
    before: bool,
) -> bool
    requires ready { IsReady w.now p.old me }
    requires channel { IsChannel (limits_of w.now) number }
    requires selector { IsSelector (limits_of w.now) sel }
    ensures call { CallClause me (Completes (registered_or number sel.0 before))
        (view w.now p.old) (view w.now p.new) result }
    ensures ready { IsReady w.now p.new me }
{
    let here = enrolled_key(w, p, me, number, sel);
    before || here.is_some()
}

// A key of the number, in the first selector in whose key set there is one. Setting blocking mode and reopening
// look so, under the hold of the number.
pub(crate) fn first_key(w: &Words, p: &mut Pass, me: CallerNo, number: ChanNo) -> Option<KeyNo>
    requires { HoldsChannel w.now p.old me number }
    ensures call { CallClause me (Completes (finds_first_key (limits_of w.now) number))
        (view w.now p.old) (view w.now p.new) result }
    ensures held { HoldsChannel w.now p.new me number }
    ensures clear { result ≡ None → IsClearBelow p.new me number (limits_of w.now).selectors }
    ensures spares { IsFalse (has (reopens number.0) (done_between me (view w.now p.old) (view w.now p.new))) }
{
    for sel in 0..w.limits().selectors {
        if let Some(k) = enrolled_key(w, p, me, number, SelNo(sel)) {
            return Some(k);
        }
    }
    None
}

// The key that is enrolled for the number in the selector, where that is in the key set. Under a hold of the number
// the clause `clear` says more: where this finds no key, the caller knows that there is none.
fn enrolled_key(w: &Words, p: &mut Pass, me: CallerNo, number: ChanNo, sel: SelNo) -> Option<KeyNo>
    requires ready { IsReady w.now p.old me }
    requires channel { IsChannel (limits_of w.now) number }
    requires selector { IsSelector (limits_of w.now) sel }
    ensures call { CallClause me (Completes (finds_enrolled_key number sel))
        (view w.now p.old) (view w.now p.new) result }
    ensures ready { IsReady w.now p.new me }
    ensures found { IfSome result (HasKey (view w.now p.new)) }
    ensures held { HoldsChannel w.now p.old me number → HoldsChannel w.now p.new me number }
    ensures clear { result ≡ None → IsClearBelow p.old me number sel.0 → IsClearBelow p.new me number (sel.0 + 1) }
    ensures spares { IsFalse (has (reopens number.0) (done_between me (view w.now p.old) (view w.now p.new))) }
{
    let Some(k) = look_enrolled(w, p, me, number, sel) else {
        return None;
    };
    let stage = w.look_key(p, me, sel, k.index);
    if stage.is_in_key_set(k.serial) {
        Some(KeyNo {
            sel,
            index: k.index,
            serial: k.serial,
        })
    } else {
        None
    }
}

// Looks at which key is enrolled for the number in the selector. Its index is claimed.
pub(crate) fn look_enrolled(
    w: &Words,
    p: &mut Pass,
    me: CallerNo,
    number: ChanNo,
    sel: SelNo,
) -> Option<KeyId>
    requires ready { IsReady w.now p.old me }
    requires channel { IsChannel (limits_of w.now) number }
    requires selector { IsSelector (limits_of w.now) sel }
    ensures step { Steps w.now p.old p.new me (LookReg number sel result) }
    ensures ready { IsReady w.now p.new me }
    ensures inside { IfSome result (λ k. IsKey (limits_of w.now) sel k.index) }
    ensures claimed { IfSome result (λ k. IsTrue (is_claimed (state_seen p.new) sel k.index)) }
{
    w.look_reg(p, me, number, sel)
}

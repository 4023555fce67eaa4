//! Calls that find selectors, channels and keys by their numbers.
ghost use Rattle.std.specs.Prelude.{IfSome};
ghost use Rattle.nio_history.specs.PassViews.{HasSelector, HasChannel, HasKey};
ghost use Rattle.nio_steps.specs.Calls.{CallClause};
ghost use Rattle.nio_steps.specs.KeyCalls.{find_selector_plan, find_channel_plan, find_plan};
ghost use Rattle.nio_steps.specs.Runs.{Completes};
ghost use Rattle.nio_words.specs.Passes.{IsReady, limits_of};
ghost use Rattle.nio_words.specs.Views.{view};

use nio_base::{CallerNo, ChanId, ChanNo, KeyNo, SelNo};
use nio_steps::has_bit;
use nio_words::{Pass, Words};

/// The selector with this number, where it is made.
#[tactic(auto, unfolding(nio_steps::specs::KeyCalls::find_selector_plan))]
pub fn find_selector(w: &Words, p: &mut Pass, me: CallerNo, number: u32) -> Option<SelNo>
    requires { IsReady w.now p.old me }
    ensures call { CallClause me (Completes (find_selector_plan (limits_of w.now) number))
        (view w.now p.old) (view w.now p.new) result }
    ensures ready { IsReady w.now p.new me }
    ensures found { IfSome result (HasSelector (view w.now p.new)) }
{
    if number >= w.limits().selectors {
        return None;
    }
    let made = w.look_selectors(p, me);
    if has_bit(made, number) {
        Some(SelNo(number))
    } else {
        None
    }
}

/// The channel with this number and serial, where it was opened. It may be closed since, and the number be given
/// to another one.
#[tactic(auto, unfolding(nio_steps::specs::KeyCalls::find_channel_plan))]
pub fn find_channel(
    w: &Words,
    p: &mut Pass,
    me: CallerNo,
    number: u32,
    serial: u32,
) -> Option<ChanId>
    requires { IsReady w.now p.old me }
    ensures call { CallClause me (Completes (find_channel_plan (limits_of w.now) number serial))
        (view w.now p.old) (view w.now p.new) result }
    ensures ready { IsReady w.now p.new me }
    ensures found { IfSome result (HasChannel (view w.now p.new)) }
{
    if number >= w.limits().channels {
        return None;
    }
    let number = ChanNo(number);
    let found = w.look_channel(p, me, number);
    if found.made && serial <= found.serial {
        Some(ChanId { number, serial })
    } else {
        None
    }
}

/// The key with this index and serial in the selector, where it was published.
#[tactic(auto, unfolding(nio_steps::specs::KeyCalls::find_plan))]
pub fn find(
    w: &Words,
    p: &mut Pass,
    me: CallerNo,
    sel: SelNo,
    index: u32,
    serial: u32,
) -> Option<KeyNo>
    requires ready { IsReady w.now p.old me }
    requires selector { HasSelector (view w.now p.old) sel }
    ensures call { CallClause me (Completes (find_plan (limits_of w.now) sel index serial))
        (view w.now p.old) (view w.now p.new) result }
    ensures ready { IsReady w.now p.new me }
    ensures found { IfSome result (HasKey (view w.now p.new)) }
{
    if index >= w.limits().keys {
        return None;
    }
    let stage = w.look_key(p, me, sel, index);
    if stage.was_published(serial) {
        Some(KeyNo { sel, index, serial })
    } else {
        None
    }
}

//! The look-ups of a line: what it names has to be made.
ghost use Rattle.nio_history.specs.Conditions.{IsCaller};
ghost use Rattle.nio_history.specs.PassViews.{HasSelector, HasChannel, HasKey, HasNoPin};
ghost use Rattle.nio_serial.specs.Lines.{if_caller, if_channel, if_key, if_name, if_named, if_selector};
ghost use Rattle.nio_steps.specs.Names.{key};
ghost use Rattle.nio_words.specs.Passes.{IsReady, limits_of};
ghost use Rattle.nio_words.specs.Views.{view};
ghost use Rattle.nio_sole.specs.Named.{Finds, HasName, HasNames, if_present};

use nio_base::{CallerNo, ChanId, KeyId, SelNo};
use nio_keys::{find, find_channel, find_selector};
use nio_language::{Call, LineName, LineNames, Reply};
use nio_words::{Pass, Words};

// Looks up what the line names, and answers the refusal where something is missing.
pub(crate) fn find_names(w: &Words, p: &mut Pass, me: CallerNo, call: &Call) -> Option<Reply>
    requires ready { IsReady w.now p.old me }
    requires unpinned { HasNoPin (view w.now p.old) me }
    ensures { Finds (λ now plan. if_named (limits_of w.now) now call.now plan) (λ pass. HasNames pass call.now) w.now
        p.old p.new me result }
{
    match call.names() {
        LineNames::None => None,
        LineNames::One(name) => find_name(w, p, me, name),
        LineNames::Two(first, second) => match find_name(w, p, me, first) {
            Some(missing) => Some(missing),
            None => find_name(w, p, me, second),
        },
    }
}

fn find_name(w: &Words, p: &mut Pass, me: CallerNo, name: LineName) -> Option<Reply>
    requires ready { IsReady w.now p.old me }
    requires unpinned { HasNoPin (view w.now p.old) me }
    ensures { Finds (λ now plan. if_name (limits_of w.now) now name plan) (λ pass. HasName pass name) w.now p.old p.new
        me result }
{
    match name {
        LineName::Caller(target) => look_up_caller(w, p, me, target),
        LineName::Selector(sel) => look_up_selector(w, p, me, sel),
        LineName::Channel(chan) => look_up_channel(w, p, me, chan),
        LineName::Key(sel, id) => look_up_key(w, p, me, sel, id),
    }
}

// The caller that the line names has to be below the limit; this makes no step.
fn look_up_caller(w: &Words, p: &mut Pass, me: CallerNo, target: CallerNo) -> Option<Reply>
    requires ready { IsReady w.now p.old me }
    requires unpinned { HasNoPin (view w.now p.old) me }
    ensures { Finds (λ now plan. if_caller (limits_of w.now) now target plan) (λ pass. IsCaller pass.limits target)
        w.now p.old p.new me result }
{
    if target.0 < w.limits().callers {
        None
    } else {
        Some(Reply::NoCaller)
    }
}

fn look_up_selector(w: &Words, p: &mut Pass, me: CallerNo, sel: SelNo) -> Option<Reply>
    requires ready { IsReady w.now p.old me }
    requires unpinned { HasNoPin (view w.now p.old) me }
    ensures { Finds (λ now plan. if_selector (limits_of w.now) now sel plan) (λ pass. HasSelector pass sel) w.now p.old
        p.new me result }
{
    match find_selector(w, p, me, sel.0) {
        Some(_) => None,
        None => Some(Reply::NoSelector),
    }
}

fn look_up_channel(w: &Words, p: &mut Pass, me: CallerNo, chan: ChanId) -> Option<Reply>
    requires ready { IsReady w.now p.old me }
    requires unpinned { HasNoPin (view w.now p.old) me }
    ensures { Finds (λ now plan. if_channel (limits_of w.now) now chan plan) (λ pass. HasChannel pass chan) w.now p.old
        p.new me result }
{
    match find_channel(w, p, me, chan.number.0, chan.serial) {
        Some(_) => None,
        None => Some(Reply::NoChannel),
    }
}

fn look_up_key(w: &Words, p: &mut Pass, me: CallerNo, sel: SelNo, id: KeyId) -> Option<Reply>
    requires ready { IsReady w.now p.old me }
    requires unpinned { HasNoPin (view w.now p.old) me }
    ensures { Finds (λ now plan. if_key (limits_of w.now) now sel id plan) (λ pass. HasKey pass (key sel id)) w.now
        p.old p.new me result }
{
    match look_up_selector(w, p, me, sel) {
        Some(missing) => Some(missing),
        None => look_up_in(w, p, me, sel, id),
    }
}

// The key, where the selector is made.
fn look_up_in(w: &Words, p: &mut Pass, me: CallerNo, sel: SelNo, id: KeyId) -> Option<Reply>
    requires ready { IsReady w.now p.old me }
    requires unpinned { HasNoPin (view w.now p.old) me }
    requires selector { HasSelector (view w.now p.old) sel }
    ensures { Finds (λ now plan. if_present (limits_of w.now) now sel id plan) (λ pass. HasKey pass (key sel id)) w.now
        p.old p.new me result }
{
    match find(w, p, me, sel, id.index, id.serial) {
        Some(_) => None,
        None => Some(Reply::NoKey),
    }
}

//! The calls of lines on keys.
ghost use Rattle.std.specs.Prelude.{◌≡◌};
ghost use Rattle.nio_steps.specs.Names.{key};
ghost use Rattle.nio_sole.specs.Asked.{MayAsk, Asks};

use crate::replies::{put_reply, set_reply};
use nio_base::{CallerNo, KeyId, KeyNo, Ops, SelNo};
use nio_language::{Call, Reply};
use nio_plain::replies::yes_or_no;
use nio_words::{Pass, Words};

// The key that is named so.
fn key_no(sel: SelNo, id: KeyId) -> KeyNo
    ensures { result ≡ key sel id }
{
    KeyNo {
        sel,
        index: id.index,
        serial: id.serial,
    }
}

#[tactic(auto, unfolding(nio_serial::specs::Lines::call_plan))]
pub(crate) fn is_valid(w: &Words, p: &mut Pass, me: CallerNo, sel: SelNo, id: KeyId) -> Reply
    requires { MayAsk w.now p.old me (Call.Valid sel id) }
    ensures { Asks w.now p.old p.new me (Call.Valid sel id) result }
{
    yes_or_no(nio_keys::is_valid(w, p, me, key_no(sel, id)))
}

#[tactic(auto, unfolding(nio_serial::specs::Lines::call_plan))]
pub(crate) fn interest(w: &Words, p: &mut Pass, me: CallerNo, sel: SelNo, id: KeyId) -> Reply
    requires { MayAsk w.now p.old me (Call.Interest sel id) }
    ensures { Asks w.now p.old p.new me (Call.Interest sel id) result }
{
    set_reply(nio_keys::interest(w, p, me, key_no(sel, id)))
}

#[tactic(auto, unfolding(nio_serial::specs::Lines::call_plan))]
pub(crate) fn ready(w: &Words, p: &mut Pass, me: CallerNo, sel: SelNo, id: KeyId) -> Reply
    requires { MayAsk w.now p.old me (Call.Ready sel id) }
    ensures { Asks w.now p.old p.new me (Call.Ready sel id) result }
{
    set_reply(nio_keys::ready(w, p, me, key_no(sel, id)))
}

#[tactic(auto, unfolding(nio_serial::specs::Lines::call_plan))]
pub(crate) fn set_interest(
    w: &Words,
    p: &mut Pass,
    me: CallerNo,
    sel: SelNo,
    id: KeyId,
    ops: Ops,
) -> Reply
    requires { MayAsk w.now p.old me (Call.Iset sel id ops) }
    ensures { Asks w.now p.old p.new me (Call.Iset sel id ops) result }
{
    put_reply(nio_keys::set_interest(w, p, me, key_no(sel, id), ops))
}

#[tactic(auto, unfolding(nio_serial::specs::Lines::call_plan))]
pub(crate) fn interest_or(
    w: &Words,
    p: &mut Pass,
    me: CallerNo,
    sel: SelNo,
    id: KeyId,
    ops: Ops,
) -> Reply
    requires { MayAsk w.now p.old me (Call.Ior sel id ops) }
    ensures { Asks w.now p.old p.new me (Call.Ior sel id ops) result }
{
    set_reply(nio_keys::interest_or(w, p, me, key_no(sel, id), ops))
}

#[tactic(auto, unfolding(nio_serial::specs::Lines::call_plan))]
pub(crate) fn interest_and(
    w: &Words,
    p: &mut Pass,
    me: CallerNo,
    sel: SelNo,
    id: KeyId,
    ops: Ops,
) -> Reply
    requires { MayAsk w.now p.old me (Call.Iand sel id ops) }
    ensures { Asks w.now p.old p.new me (Call.Iand sel id ops) result }
{
    set_reply(nio_keys::interest_and(w, p, me, key_no(sel, id), ops))
}

#[tactic(auto, unfolding(nio_serial::specs::Lines::call_plan))]
pub(crate) fn cancel(w: &Words, p: &mut Pass, me: CallerNo, sel: SelNo, id: KeyId) -> Reply
    requires { MayAsk w.now p.old me (Call.Cancel sel id) }
    ensures { Asks w.now p.old p.new me (Call.Cancel sel id) result }
{
    nio_keys::cancel(w, p, me, key_no(sel, id));
    Reply::Ok
}

#[tactic(auto, unfolding(nio_serial::specs::Lines::call_plan))]
pub(crate) fn unselect(w: &Words, p: &mut Pass, me: CallerNo, sel: SelNo, id: KeyId) -> Reply
    requires { MayAsk w.now p.old me (Call.Unselect sel id) }
    ensures { Asks w.now p.old p.new me (Call.Unselect sel id) result }
{
    yes_or_no(nio_keys::unselect(w, p, me, key_no(sel, id)))
}

#[tactic(auto, unfolding(nio_serial::specs::Lines::call_plan))]
pub(crate) fn attach(
    w: &Words,
    p: &mut Pass,
    me: CallerNo,
    sel: SelNo,
    id: KeyId,
    att: u64,
) -> Reply
    requires { MayAsk w.now p.old me (Call.Attach sel id att) }
    ensures { Asks w.now p.old p.new me (Call.Attach sel id att) result }
{
    Reply::Number(nio_keys::attach(w, p, me, key_no(sel, id), att))
}

#[tactic(auto, unfolding(nio_serial::specs::Lines::call_plan))]
pub(crate) fn attachment(w: &Words, p: &mut Pass, me: CallerNo, sel: SelNo, id: KeyId) -> Reply
    requires { MayAsk w.now p.old me (Call.Attachment sel id) }
    ensures { Asks w.now p.old p.new me (Call.Attachment sel id) result }
{
    Reply::Number(nio_keys::attachment(w, p, me, key_no(sel, id)))
}

//! The calls of lines on channels.
ghost use Rattle.std.specs.Prelude.{◌≡◌};
ghost use Rattle.nio_plain.specs.Seq.Registering.{given_or_none};
ghost use Rattle.nio_sole.specs.Asked.{MayAsk, Asks};

use crate::replies::{channel_reply, find_reply, mode_reply, register_reply};
use nio_base::{CallerNo, ChanId, Kind, Ops, SelNo};
use nio_channel::{try_register, try_set_blocking};
use nio_language::{Call, Reply};
use nio_plain::replies::yes_or_no;
use nio_words::{Pass, Words};

#[tactic(auto, unfolding(nio_serial::specs::Lines::call_plan))]
pub(crate) fn open_channel(w: &Words, p: &mut Pass, me: CallerNo, kind: Kind) -> Reply
    requires { MayAsk w.now p.old me (Call.Channel kind) }
    ensures { Asks w.now p.old p.new me (Call.Channel kind) result }
{
    channel_reply(nio_channel::open_channel(w, p, me, kind))
}

#[tactic(auto, unfolding(nio_serial::specs::Lines::call_plan))]
pub(crate) fn set_blocking(w: &Words, p: &mut Pass, me: CallerNo, chan: ChanId, on: bool) -> Reply
    requires { MayAsk w.now p.old me (Call.Blocking chan on) }
    ensures { Asks w.now p.old p.new me (Call.Blocking chan on) result }
{
    mode_reply(try_set_blocking(w, p, me, chan, on))
}

#[tactic(auto, unfolding(nio_serial::specs::Lines::call_plan))]
pub(crate) fn is_blocking(w: &Words, p: &mut Pass, me: CallerNo, chan: ChanId) -> Reply
    requires { MayAsk w.now p.old me (Call.IsBlocking chan) }
    ensures { Asks w.now p.old p.new me (Call.IsBlocking chan) result }
{
    yes_or_no(nio_channel::is_blocking(w, p, me, chan))
}

#[tactic(auto, unfolding(nio_serial::specs::Lines::call_plan))]
pub(crate) fn is_open(w: &Words, p: &mut Pass, me: CallerNo, chan: ChanId) -> Reply
    requires { MayAsk w.now p.old me (Call.IsOpen chan) }
    ensures { Asks w.now p.old p.new me (Call.IsOpen chan) result }
{
    yes_or_no(nio_channel::is_open(w, p, me, chan))
}

#[tactic(auto, unfolding(nio_serial::specs::Lines::call_plan))]
pub(crate) fn is_registered(w: &Words, p: &mut Pass, me: CallerNo, chan: ChanId) -> Reply
    requires { MayAsk w.now p.old me (Call.IsRegistered chan) }
    ensures { Asks w.now p.old p.new me (Call.IsRegistered chan) result }
{
    yes_or_no(nio_channel::is_registered(w, p, me, chan))
}

#[tactic(auto, unfolding(nio_serial::specs::Lines::call_plan))]
pub(crate) fn key_for(w: &Words, p: &mut Pass, me: CallerNo, chan: ChanId, sel: SelNo) -> Reply
    requires { MayAsk w.now p.old me (Call.KeyFor chan sel) }
    ensures { Asks w.now p.old p.new me (Call.KeyFor chan sel) result }
{
    find_reply(nio_channel::key_for(w, p, me, chan, sel))
}

#[tactic(auto, unfolding(nio_serial::specs::Lines::call_plan))]
pub(crate) fn register(
    w: &Words,
    p: &mut Pass,
    me: CallerNo,
    sel: SelNo,
    chan: ChanId,
    ops: Ops,
    att: Option<u64>,
) -> Reply
    requires { MayAsk w.now p.old me (Call.Register sel chan ops att) }
    ensures { Asks w.now p.old p.new me (Call.Register sel chan ops att) result }
{
    register_reply(try_register(w, p, me, sel, chan, ops, given_or_none(att)))
}

// The attachment that the line gives, 0 for none.
fn given_or_none(att: Option<u64>) -> u64
    ensures { result ≡ given_or_none att }
{
    att.unwrap_or(0)
}

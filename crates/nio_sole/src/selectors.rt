//! The calls of lines that open a selector, wake and interrupt.
ghost use Rattle.nio_sole.specs.Asked.{MayAsk, Asks};

use crate::replies::selector_reply;
use nio_base::{CallerNo, SelNo};
use nio_language::{Call, Reply};
use nio_plain::replies::yes_or_no;
use nio_words::{Pass, Words};

#[tactic(auto, unfolding(nio_serial::specs::Lines::call_plan))]
pub(crate) fn open_selector(w: &Words, p: &mut Pass, me: CallerNo) -> Reply
    requires { MayAsk w.now p.old me Call.Selector }
    ensures { Asks w.now p.old p.new me Call.Selector result }
{
    selector_reply(nio_select::open_selector(w, p, me))
}

#[tactic(auto, unfolding(nio_serial::specs::Lines::call_plan))]
pub(crate) fn wakeup(w: &Words, p: &mut Pass, me: CallerNo, sel: SelNo) -> Reply
    requires { MayAsk w.now p.old me (Call.Wakeup sel) }
    ensures { Asks w.now p.old p.new me (Call.Wakeup sel) result }
{
    w.wake(p, me, sel);
    Reply::Ok
}

#[tactic(auto, unfolding(nio_serial::specs::Lines::call_plan))]
pub(crate) fn interrupt(w: &Words, p: &mut Pass, me: CallerNo, target: CallerNo) -> Reply
    requires { MayAsk w.now p.old me (Call.Interrupt target) }
    ensures { Asks w.now p.old p.new me (Call.Interrupt target) result }
{
    w.set_interrupt(p, me, target);
    Reply::Ok
}

#[tactic(auto, unfolding(nio_serial::specs::Lines::call_plan))]
pub(crate) fn interrupted(w: &Words, p: &mut Pass, me: CallerNo) -> Reply
    requires { MayAsk w.now p.old me Call.Interrupted }
    ensures { Asks w.now p.old p.new me Call.Interrupted result }
{
    yes_or_no(w.take_interrupt(p, me))
}

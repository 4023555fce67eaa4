//! Wakeups and interrupts.
ghost use Rattle.std.specs.Prelude.{◌<◌};
ghost use Rattle.nio_plain.specs.Plain.{Replies};
ghost use Rattle.nio_plain.specs.PlainState.{limits_of, state_of};
ghost use Rattle.nio_plain.specs.Seq.Wakeups.{interrupt_call, interrupted_call, wakeup_call};

use super::Plain;
use crate::replies::yes_or_no;
use nio_base::{CallerNo, SelNo};
use nio_language::Reply;

impl Plain {
    /// Leaves a wakeup, also where no caller selects.
    pub(super) fn wakeup(&mut self, sel: SelNo) -> Reply
        ensures { Replies self.old self.new result (wakeup_call (state_of self.old) sel) }
    {
        match self.selector(sel) {
            Ok(place) => {
                self.selectors[place].woken = true;
                Reply::Ok
            }
            Err(refusal) => refusal,
        }
    }

    /// Sets the interrupt status of a caller.
    pub(super) fn interrupt(&mut self, target: CallerNo) -> Reply
        ensures { Replies self.old self.new result (interrupt_call (limits_of self.old) (state_of self.old) target) }
    {
        if target.0 >= self.limits.callers {
            return Reply::NoCaller;
        }
        self.interrupted[target.0 as usize] = true;
        Reply::Ok
    }

    /// Tells the caller's interrupt status, and clears it.
    pub(super) fn interrupted(&mut self, me: CallerNo) -> Reply
        requires { me.0 < (limits_of self.old).callers }
        ensures { Replies self.old self.new result (interrupted_call (state_of self.old) me) }
    {
        let was = self.is_interrupted(me);
        self.interrupted[me.0 as usize] = false;
        yes_or_no(was)
    }
}

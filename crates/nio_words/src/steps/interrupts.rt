//! Steps on the word of the callers' interrupt statuses.
ghost use Rattle.nio_history.specs.Conditions.{IsCaller};
ghost use Rattle.nio_history.specs.declared.act.Act.TheVariants.{SetInterrupt, TakeInterrupt, LookInterrupt};
ghost use Rattle.nio_words.specs.Passes.{IsReady, limits_of};
ghost use Rattle.nio_words.specs.Steps.{Steps};

use crate::decode::is_set;
use crate::instruction::Instruction;
use crate::part::Part;
use crate::words::{Pass, Words};
use nio_base::CallerNo;

impl Words {
    /// Sets the interrupt status of the caller that is named. Says whether it was set.
    pub fn set_interrupt(&self, p: &mut Pass, me: CallerNo, target: CallerNo) -> bool
        requires ready { IsReady self.now p.old me }
        requires target { IsCaller (limits_of self.now) target }
        ensures { Steps self.now p.old p.new me (SetInterrupt target result) }
    {
        let found = self.step(p, me, Part::Interrupts, Instruction::SetBit(target.0));
        is_set(found, target.0)
    }

    /// Clears the caller's own interrupt status. Says whether it was set.
    pub fn take_interrupt(&self, p: &mut Pass, me: CallerNo) -> bool
        requires { IsReady self.now p.old me }
        ensures { Steps self.now p.old p.new me (TakeInterrupt result) }
    {
        let found = self.step(p, me, Part::Interrupts, Instruction::ClearBit(me.0));
        is_set(found, me.0)
    }

    /// Looks at the caller's own interrupt status.
    pub fn look_interrupt(&self, p: &mut Pass, me: CallerNo) -> bool
        requires { IsReady self.now p.old me }
        ensures { Steps self.now p.old p.new me (LookInterrupt result) }
    {
        let found = self.step(p, me, Part::Interrupts, Instruction::Load);
        is_set(found, me.0)
    }
}

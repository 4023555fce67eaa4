//! Steps on the hold of a channel, which its registering and its mode need.
ghost use Rattle.std.specs.Prelude.{IsTrue};
ghost use Rattle.nio_history.specs.Conditions.{IsChannel, is_made, holds};
ghost use Rattle.nio_history.specs.declared.act.Act.TheVariants.{TryHoldBit, Release};
ghost use Rattle.nio_words.specs.Passes.{IsReady, limits_of, state_seen};
ghost use Rattle.nio_words.specs.Steps.{Steps};

use crate::decode::holder_of;
use crate::encode;
use crate::instruction::Instruction;
use crate::part::Part;
use crate::words::{Pass, Words};
use nio_base::{CallerNo, ChanNo};

impl Words {
    /// Takes the hold of the channel, where nobody has it. Answers who had it.
    pub fn try_hold_bit(&self, p: &mut Pass, me: CallerNo, c: ChanNo) -> Option<CallerNo>
        requires ready { IsReady self.now p.old me }
        requires channel { IsChannel (limits_of self.now) c }
        requires made { IsTrue (is_made (state_seen p.old) c) }
        ensures { Steps self.now p.old p.new me (TryHoldBit c result) }
    {
        let new = encode::holder(me);
        let found = self.step(p, me, Part::Hold(c.0), Instruction::Exchange(0, new));
        holder_of(found)
    }

    /// Gives the hold of the channel back.
    pub fn release(&self, p: &mut Pass, me: CallerNo, c: ChanNo)
        requires ready { IsReady self.now p.old me }
        requires channel { IsChannel (limits_of self.now) c }
        requires holds { IsTrue (holds (state_seen p.old) me c) }
        ensures { Steps self.now p.old p.new me (Release c) }
    {
        self.step(p, me, Part::Hold(c.0), Instruction::Swap(0));
    }
}

//! Steps on the turn to select on a selector.
ghost use Rattle.std.specs.Prelude.{IsTrue};
ghost use Rattle.nio_history.specs.Conditions.{IsSelector, has_turn, is_closer};
ghost use Rattle.nio_history.specs.declared.act.Act.TheVariants.{TakeTurn, GiveTurn, Enter};
ghost use Rattle.nio_words.specs.Passes.{IsReady, limits_of, state_seen};
ghost use Rattle.nio_words.specs.Steps.{Steps};

use crate::decode::holder_of;
use crate::encode;
use crate::instruction::Instruction;
use crate::part::Part;
use crate::words::{Pass, Words};
use nio_base::{CallerNo, SelNo};

impl Words {
    /// Takes the turn to select on the selector, where nobody has it. Answers who had it.
    pub fn take_turn(&self, p: &mut Pass, me: CallerNo, s: SelNo) -> Option<CallerNo>
        requires ready { IsReady self.now p.old me }
        requires selector { IsSelector (limits_of self.now) s }
        ensures { Steps self.now p.old p.new me (TakeTurn s result) }
    {
        let new = encode::holder(me);
        let found = self.step(p, me, Part::Turn(s.0), Instruction::Exchange(0, new));
        holder_of(found)
    }

    /// Gives the turn back, and ends the selection.
    pub fn give_turn(&self, p: &mut Pass, me: CallerNo, s: SelNo)
        requires ready { IsReady self.now p.old me }
        requires selector { IsSelector (limits_of self.now) s }
        requires turn { IsTrue (has_turn (state_seen p.old) me s) }
        ensures { Steps self.now p.old p.new me (GiveTurn s) }
    {
        self.step(p, me, Part::Turn(s.0), Instruction::Swap(0));
    }

    /// Looks at the turn as the selector's closer, and enters where nobody has it. Answers who has it.
    pub fn enter(&self, p: &mut Pass, me: CallerNo, s: SelNo) -> Option<CallerNo>
        requires ready { IsReady self.now p.old me }
        requires selector { IsSelector (limits_of self.now) s }
        requires closer { IsTrue (is_closer (state_seen p.old) me s) }
        ensures { Steps self.now p.old p.new me (Enter s result) }
    {
        let found = self.step(p, me, Part::Turn(s.0), Instruction::Load);
        holder_of(found)
    }
}

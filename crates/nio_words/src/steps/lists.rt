//! The step on the word that says who has a selector's list.
ghost use Rattle.nio_history.specs.Conditions.{IsSelector};
ghost use Rattle.nio_history.specs.declared.act.Act.TheVariants.{TakeList};
ghost use Rattle.nio_words.specs.Passes.{IsReady, limits_of};
ghost use Rattle.nio_words.specs.Steps.{Steps};

use crate::decode::holder_of;
use crate::encode;
use crate::instruction::Instruction;
use crate::part::Part;
use crate::words::{Pass, Words};
use nio_base::{CallerNo, SelNo};

impl Words {
    /// Takes the selector's list, where nobody has it. Answers who had it.
    pub fn take_list(&self, p: &mut Pass, me: CallerNo, s: SelNo) -> Option<CallerNo>
        requires ready { IsReady self.now p.old me }
        requires selector { IsSelector (limits_of self.now) s }
        ensures { Steps self.now p.old p.new me (TakeList s result) }
    {
        let new = encode::holder(me);
        let found = self.step(p, me, Part::Lister(s.0), Instruction::Exchange(0, new));
        holder_of(found)
    }
}

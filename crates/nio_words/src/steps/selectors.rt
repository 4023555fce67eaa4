//! Steps on the word of the selectors.
ghost use Rattle.nio_history.specs.Conditions.{IsSelector};
ghost use Rattle.nio_history.specs.declared.act.Act.TheVariants.{MakeSelector, LookSelectors};
ghost use Rattle.nio_words.specs.Passes.{IsReady, limits_of};
ghost use Rattle.nio_words.specs.Steps.{Steps};

use crate::decode::is_set;
use crate::instruction::Instruction;
use crate::part::Part;
use crate::words::{Pass, Words};
use nio_base::{CallerNo, SelNo};

impl Words {
    /// Makes the selector. Says whether it was made.
    pub fn make_selector(&self, p: &mut Pass, me: CallerNo, s: SelNo) -> bool
        requires ready { IsReady self.now p.old me }
        requires selector { IsSelector (limits_of self.now) s }
        ensures { Steps self.now p.old p.new me (MakeSelector s result) }
    {
        let found = self.step(p, me, Part::Selectors, Instruction::SetBit(s.0));
        is_set(found, s.0)
    }

    /// Looks at all selectors: bit `s` of the answer is set where selector `s` is made.
    pub fn look_selectors(&self, p: &mut Pass, me: CallerNo) -> u64
        requires { IsReady self.now p.old me }
        ensures { Steps self.now p.old p.new me (LookSelectors result) }
    {
        self.step(p, me, Part::Selectors, Instruction::Load)
    }
}

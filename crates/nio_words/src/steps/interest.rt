//! Steps on a key's interest set.
ghost use Rattle.std.specs.Prelude.{◌||◌, IsTrue};
ghost use Rattle.nio_history.specs.Conditions.{IsKey, has_pin, has_begun, is_amid};
ghost use Rattle.nio_history.specs.declared.act.Act.TheVariants.{LookInterest, SwapInterest, OrInterest, AndInterest};
ghost use Rattle.nio_words.specs.Passes.{IsReady, limits_of, state_seen};
ghost use Rattle.nio_words.specs.Steps.{Steps};

use crate::decode::operations_of;
use crate::instruction::Instruction;
use crate::part::Part;
use crate::words::{Pass, Words};
use nio_base::{CallerNo, Ops, SelNo};

impl Words {
    /// Looks at the key's interest set.
    pub fn look_interest(&self, p: &mut Pass, me: CallerNo, s: SelNo, i: u32) -> Ops
        requires ready { IsReady self.now p.old me }
        requires key { IsKey (limits_of self.now) s i }
        requires may { IsTrue (has_pin (state_seen p.old) me s i || has_begun (state_seen p.old) me s) }
        ensures { Steps self.now p.old p.new me (LookInterest s i result) }
    {
        let found = self.step(p, me, Part::Interest(s.0, i), Instruction::Load);
        operations_of(found)
    }

    /// Puts a set in the place of the key's interest set, which it answers.
    pub fn swap_interest(&self, p: &mut Pass, me: CallerNo, s: SelNo, i: u32, ops: Ops) -> Ops
        requires ready { IsReady self.now p.old me }
        requires key { IsKey (limits_of self.now) s i }
        requires pinned { IsTrue (has_pin (state_seen p.old) me s i) }
        requires touched { IsTrue (is_amid (state_seen p.old) me s i) }
        ensures { Steps self.now p.old p.new me (SwapInterest s i ops result) }
    {
        let bits = u64::from(ops.bits());
        let found = self.step(p, me, Part::Interest(s.0, i), Instruction::Swap(bits));
        operations_of(found)
    }

    /// Adds operations to the key's interest set. Answers the set before.
    pub fn or_interest(&self, p: &mut Pass, me: CallerNo, s: SelNo, i: u32, ops: Ops) -> Ops
        requires ready { IsReady self.now p.old me }
        requires key { IsKey (limits_of self.now) s i }
        requires pinned { IsTrue (has_pin (state_seen p.old) me s i) }
        requires touched { IsTrue (is_amid (state_seen p.old) me s i) }
        ensures { Steps self.now p.old p.new me (OrInterest s i ops result) }
    {
        let bits = u64::from(ops.bits());
        let found = self.step(p, me, Part::Interest(s.0, i), Instruction::Or(bits));
        operations_of(found)
    }

    /// Keeps of the key's interest set only what `ops` has too. Answers the set before.
    pub fn and_interest(&self, p: &mut Pass, me: CallerNo, s: SelNo, i: u32, ops: Ops) -> Ops
        requires ready { IsReady self.now p.old me }
        requires key { IsKey (limits_of self.now) s i }
        requires pinned { IsTrue (has_pin (state_seen p.old) me s i) }
        requires touched { IsTrue (is_amid (state_seen p.old) me s i) }
        ensures { Steps self.now p.old p.new me (AndInterest s i ops result) }
    {
        let bits = u64::from(ops.bits());
        let found = self.step(p, me, Part::Interest(s.0, i), Instruction::And(bits));
        operations_of(found)
    }
}

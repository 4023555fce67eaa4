//! Steps on a key's attachment, a number with 0 for none.
ghost use Rattle.std.specs.Prelude.{IsTrue};
ghost use Rattle.nio_history.specs.Conditions.{IsKey, has_pin};
ghost use Rattle.nio_history.specs.declared.act.Act.TheVariants.{SwapNote, LookNote};
ghost use Rattle.nio_words.specs.Passes.{IsReady, limits_of, state_seen};
ghost use Rattle.nio_words.specs.Steps.{Steps};

use crate::instruction::Instruction;
use crate::part::Part;
use crate::words::{Pass, Words};
use nio_base::{CallerNo, SelNo};

impl Words {
    /// Puts an attachment in the place of the key's own, which it answers.
    pub fn swap_note(&self, p: &mut Pass, me: CallerNo, s: SelNo, i: u32, att: u64) -> u64
        requires ready { IsReady self.now p.old me }
        requires key { IsKey (limits_of self.now) s i }
        requires pinned { IsTrue (has_pin (state_seen p.old) me s i) }
        ensures { Steps self.now p.old p.new me (SwapNote s i att result) }
    {
        self.step(p, me, Part::Note(s.0, i), Instruction::Swap(att))
    }

    /// Looks at the key's attachment.
    pub fn look_note(&self, p: &mut Pass, me: CallerNo, s: SelNo, i: u32) -> u64
        requires ready { IsReady self.now p.old me }
        requires key { IsKey (limits_of self.now) s i }
        requires pinned { IsTrue (has_pin (state_seen p.old) me s i) }
        ensures { Steps self.now p.old p.new me (LookNote s i result) }
    {
        self.step(p, me, Part::Note(s.0, i), Instruction::Load)
    }
}

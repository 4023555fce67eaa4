//! Steps on the words that say which indexes of a selector are touched.
ghost use Rattle.std.specs.Prelude.{◌*◌, ◌<◌, ◌||◌, IsTrue};
ghost use Rattle.nio_history.specs.Conditions.{IsKey, IsSelector, has_begun, has_list, has_pin};
ghost use Rattle.nio_history.specs.declared.act.Act.TheVariants.{LookTouched, TakeTouched, Touch};
ghost use Rattle.nio_words.specs.Passes.{IsReady, limits_of, state_seen};
ghost use Rattle.nio_words.specs.Steps.{Steps};

use crate::decode::is_set;
use crate::instruction::Instruction;
use crate::part::Part;
use crate::step::Details;
use crate::words::{Pass, Words};
use nio_base::{CallerNo, SelNo};

impl Words {
    /// Touches the index: the caller that has the selector's list looks there. Says whether it was touched.
    pub fn touch(&self, p: &mut Pass, me: CallerNo, s: SelNo, i: u32) -> bool
        requires ready { IsReady self.now p.old me }
        requires key { IsKey (limits_of self.now) s i }
        requires may { IsTrue (has_pin (state_seen p.old) me s i || has_begun (state_seen p.old) me s) }
        ensures { Steps self.now p.old p.new me (Touch s i result) }
    {
        let found = self.step_that(
            p,
            me,
            Part::Touched(s.0, i / 64),
            Instruction::SetBit(i % 64),
            Details::Number(i),
        );
        is_set(found, i % 64)
    }

    /// Looks at which of the 64 indexes from `64 * j` on are touched: bit `b` of the answer is set where index
    /// `64 * j + b` is touched.
    pub fn look_touched(&self, p: &mut Pass, me: CallerNo, s: SelNo, j: u32) -> u64
        requires ready { IsReady self.now p.old me }
        requires selector { IsSelector (limits_of self.now) s }
        requires indexes { 64 * j < (limits_of self.now).keys }
        ensures { Steps self.now p.old p.new me (LookTouched s j result) }
    {
        self.step(p, me, Part::Touched(s.0, j), Instruction::Load)
    }

    /// Takes the bits of the 64 indexes from `64 * j` on, so that none of them is touched any more. Answers which
    /// of them were, as `look_touched` does.
    pub fn take_touched(&self, p: &mut Pass, me: CallerNo, s: SelNo, j: u32) -> u64
        requires ready { IsReady self.now p.old me }
        requires selector { IsSelector (limits_of self.now) s }
        requires indexes { 64 * j < (limits_of self.now).keys }
        requires begun { IsTrue (has_begun (state_seen p.old) me s) }
        requires list { IsTrue (has_list (state_seen p.old) me s) }
        ensures { Steps self.now p.old p.new me (TakeTouched s j result) }
    {
        self.step(p, me, Part::Touched(s.0, j), Instruction::Swap(0))
    }
}

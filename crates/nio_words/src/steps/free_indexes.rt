//! Steps on the words that say which indexes of a selector are free.
ghost use Rattle.std.specs.Prelude.{◌*◌, ◌<◌, ◌||◌, IsTrue};
ghost use Rattle.nio_history.specs.Conditions.{IsKey, IsSelector, has_taken, may_put_due};
ghost use Rattle.nio_history.specs.declared.act.Act.TheVariants.{LookFree, PutFree, TakeFree};
ghost use Rattle.nio_words.specs.Passes.{IsReady, limits_of, state_seen};
ghost use Rattle.nio_words.specs.Steps.{Steps};

use crate::decode::is_set;
use crate::instruction::Instruction;
use crate::part::Part;
use crate::step::Details;
use crate::words::{Pass, Words};
use nio_base::{CallerNo, SelNo};

impl Words {
    /// Looks at which of the 64 indexes from `64 * j` on are free: bit `b` of the answer is set where index
    /// `64 * j + b` is free.
    pub fn look_free(&self, p: &mut Pass, me: CallerNo, s: SelNo, j: u32) -> u64
        requires ready { IsReady self.now p.old me }
        requires selector { IsSelector (limits_of self.now) s }
        requires indexes { 64 * j < (limits_of self.now).keys }
        ensures { Steps self.now p.old p.new me (LookFree s j result) }
    {
        self.step(p, me, Part::Free(s.0, j), Instruction::Load)
    }

    /// Makes the index free.
    pub fn put_free(&self, p: &mut Pass, me: CallerNo, s: SelNo, i: u32)
        requires ready { IsReady self.now p.old me }
        requires key { IsKey (limits_of self.now) s i }
        requires may { IsTrue (has_taken (state_seen p.old) me s i || may_put_due (state_seen p.old) me s i) }
        ensures { Steps self.now p.old p.new me (PutFree s i) }
    {
        self.step_that(
            p,
            me,
            Part::Free(s.0, i / 64),
            Instruction::SetBit(i % 64),
            Details::Number(i),
        );
    }

    /// Takes the index out of the free ones. Says whether it was free.
    pub fn take_free(&self, p: &mut Pass, me: CallerNo, s: SelNo, i: u32) -> bool
        requires ready { IsReady self.now p.old me }
        requires key { IsKey (limits_of self.now) s i }
        ensures { Steps self.now p.old p.new me (TakeFree s i result) }
    {
        let found = self.step_that(
            p,
            me,
            Part::Free(s.0, i / 64),
            Instruction::ClearBit(i % 64),
            Details::Number(i),
        );
        is_set(found, i % 64)
    }
}

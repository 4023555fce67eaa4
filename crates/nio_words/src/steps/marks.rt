//! Steps on whether a key is selected, and on its ready set.
ghost use Rattle.std.specs.Prelude.{◌==◌, ◌||◌, not, IsTrue};
ghost use Rattle.nio_history.specs.Conditions.{IsKey, has_pin, has_begun};
ghost use Rattle.nio_history.specs.OwnEvents.{is_unpublished};
ghost use Rattle.nio_history.specs.declared.act.Act.TheVariants.{LookMark, Mark as MarkKey, UnselectBit, ClearMark};
ghost use Rattle.nio_words.specs.Passes.{IsReady, acts_seen, limits_of, state_seen};
ghost use Rattle.nio_words.specs.Steps.{Steps};

use crate::decode::{is_set, mark_of};
use crate::encode;
use crate::instruction::Instruction;
use crate::part::Part;
use crate::step::Details;
use crate::words::{Pass, Words};
use nio_base::{CallerNo, Ops, SelNo};
use nio_history::Mark;

// The bit of a key that is selected.
const SELECTED: u32 = 8;

impl Words {
    /// Looks at whether the key is selected, and at its ready set.
    pub fn look_mark(&self, p: &mut Pass, me: CallerNo, s: SelNo, i: u32) -> Mark
        requires ready { IsReady self.now p.old me }
        requires key { IsKey (limits_of self.now) s i }
        requires may { IsTrue (has_pin (state_seen p.old) me s i || has_begun (state_seen p.old) me s) }
        ensures { Steps self.now p.old p.new me (LookMark s i result) }
    {
        let found = self.step(p, me, Part::Mark(s.0, i), Instruction::Load);
        mark_of(found)
    }

    /// Takes the key out of the selected set. Says whether it was selected.
    pub fn unselect_bit(&self, p: &mut Pass, me: CallerNo, s: SelNo, i: u32) -> bool
        requires ready { IsReady self.now p.old me }
        requires key { IsKey (limits_of self.now) s i }
        requires pinned { IsTrue (has_pin (state_seen p.old) me s i) }
        ensures { Steps self.now p.old p.new me (UnselectBit s i result) }
    {
        let found = self.step(p, me, Part::Mark(s.0, i), Instruction::ClearBit(SELECTED));
        is_set(found, SELECTED)
    }

    /// Clears the mark of a key that isn't published yet: the key isn't selected, and its ready set is empty.
    /// Answers the mark before.
    pub fn clear_mark(&self, p: &mut Pass, me: CallerNo, s: SelNo, i: u32) -> Mark
        requires ready { IsReady self.now p.old me }
        requires key { IsKey (limits_of self.now) s i }
        requires unpublished { IsTrue (is_unpublished s.0 i (acts_seen p.old me)) }
        ensures { Steps self.now p.old p.new me (ClearMark s i result) }
    {
        let found = self.step(p, me, Part::Mark(s.0, i), Instruction::Swap(0));
        mark_of(found)
    }

    /// Selects the key with what was told of it, where its mark is `from`: not selected, it becomes
    /// ready for exactly that; selected, its ready set gains it. The error is the mark that stands
    /// there, and then nothing is changed.
    pub fn mark(
        &self,
        p: &mut Pass,
        me: CallerNo,
        s: SelNo,
        i: u32,
        from: Mark,
        told: Ops,
    ) -> Result<(), Mark>
        requires ready { IsReady self.now p.old me }
        requires key { IsKey (limits_of self.now) s i }
        requires begun { IsTrue (has_begun (state_seen p.old) me s) }
        requires told { IsTrue (not (told == 0)) }
        ensures { Steps self.now p.old p.new me (MarkKey s i from told result) }
    {
        let old = encode::mark(from.selected, from.ready);
        let new = encode::selected_with(from.selected, from.ready, told);
        let found = self.step_that(
            p,
            me,
            Part::Mark(s.0, i),
            Instruction::Exchange(old, new),
            Details::Told(from.selected, from.ready, told),
        );
        if found == old {
            Ok(())
        } else {
            Err(mark_of(found))
        }
    }
}

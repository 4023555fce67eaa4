//! Steps on the word of an index: the stage of its key, and the pins on it.
ghost use Rattle.std.specs.Prelude.{◌≡◌, ◌<◌, ◌||◌, not, IsTrue, Some};
ghost use Rattle.nio_history.specs.Conditions.{IsChannel, IsKey, AllClaimed, is_claimed, holds, has_pin, has_taken};
ghost use Rattle.nio_history.specs.Conditions.{may_publish, may_remove_cancelled, may_clear_out, is_amid};
ghost use Rattle.nio_history.specs.OwnEvents.{last, own_claim, since_taken, stage_found};
ghost use Rattle.nio_base.specs.Numbers.{last_serial};
ghost use Rattle.nio_history.specs.declared.act.Act.TheVariants.{LookKey, CancelKey, Claim, Publish, Remove, Pin};
ghost use Rattle.nio_history.specs.declared.act.Act.TheVariants.{Unpin};
ghost use Rattle.nio_history.specs.declared.act.Act.TheVariants.{ClaimAgain, LookIndex};
ghost use Rattle.nio_words.specs.Passes.{IsReady, acts_seen, limits_of, state_seen};
ghost use Rattle.nio_words.specs.Steps.{Steps};

use crate::decode::{index_of, is_set, stage_of};
use crate::encode::{self, PIN};
use crate::instruction::Instruction;
use crate::part::Part;
use crate::step::Details;
use crate::words::{Pass, Words};
use nio_base::{CallerNo, ChanNo, SelNo};
use nio_history::{IndexWord, Stage};

// The bits of a key that is published, cancelled or removed.
const PUBLISHED: u32 = 1;

const CANCELLED: u32 = 2;

const REMOVED: u32 = 3;

impl Words {
    /// Looks at how far the key of the index has come.
    pub fn look_key(&self, p: &mut Pass, me: CallerNo, s: SelNo, i: u32) -> Stage
        requires ready { IsReady self.now p.old me }
        requires key { IsKey (limits_of self.now) s i }
        ensures { Steps self.now p.old p.new me (LookKey s i result) }
    {
        let found = self.step(p, me, Part::Key(s.0, i), Instruction::Load);
        stage_of(found)
    }

    /// Looks at how far the key of the index has come, and at whether the index is pinned.
    pub fn look_index(&self, p: &mut Pass, me: CallerNo, s: SelNo, i: u32) -> IndexWord
        requires ready { IsReady self.now p.old me }
        requires key { IsKey (limits_of self.now) s i }
        ensures { Steps self.now p.old p.new me (LookIndex s i result) }
    {
        let found = self.step(p, me, Part::Key(s.0, i), Instruction::Load);
        index_of(found)
    }

    /// Cancels the key. Answers how far it had come.
    pub fn cancel_key(&self, p: &mut Pass, me: CallerNo, s: SelNo, i: u32) -> Stage
        requires ready { IsReady self.now p.old me }
        requires key { IsKey (limits_of self.now) s i }
        requires claimed { IsTrue (is_claimed (state_seen p.old) s i) }
        requires pinned { IsTrue (has_pin (state_seen p.old) me s i) }
        requires touched { IsTrue (is_amid (state_seen p.old) me s i) }
        ensures { Steps self.now p.old p.new me (CancelKey s i result) }
    {
        let found = self.step(p, me, Part::Key(s.0, i), Instruction::SetBit(CANCELLED));
        stage_of(found)
    }

    /// Claims the index for its first key, a key of the channel, and pins it. Says whether it was claimed.
    pub fn claim(&self, p: &mut Pass, me: CallerNo, s: SelNo, i: u32, c: ChanNo) -> bool
        requires ready { IsReady self.now p.old me }
        requires key { IsKey (limits_of self.now) s i }
        requires channel { IsChannel (limits_of self.now) c }
        requires holds { IsTrue (holds (state_seen p.old) me c) }
        requires lower { AllClaimed (state_seen p.old) s i }
        ensures { Steps self.now p.old p.new me (Claim s i c result) }
    {
        let new = encode::new_key(c, 0);
        let found = self.step_that(
            p,
            me,
            Part::Key(s.0, i),
            Instruction::Exchange(0, new),
            Details::ForChannel(c),
        );
        is_set(found, 0)
    }

    /// Publishes the key, which completes its registration. Answers how far it had come.
    pub fn publish(&self, p: &mut Pass, me: CallerNo, s: SelNo, i: u32) -> Stage
        requires ready { IsReady self.now p.old me }
        requires key { IsKey (limits_of self.now) s i }
        requires may { IsTrue (may_publish (state_seen p.old) (acts_seen p.old me) me
            (own_claim s.0 i (acts_seen p.old me))) }
        requires touched { IsTrue (is_amid (state_seen p.old) me s i) }
        ensures { Steps self.now p.old p.new me (Publish s i result) }
    {
        let found = self.step(p, me, Part::Key(s.0, i), Instruction::SetBit(PUBLISHED));
        stage_of(found)
    }

    /// Removes the key from its selector. Answers how far it had come.
    pub fn remove(&self, p: &mut Pass, me: CallerNo, s: SelNo, i: u32) -> Stage
        requires ready { IsReady self.now p.old me }
        requires key { IsKey (limits_of self.now) s i }
        requires may { IsTrue (may_remove_cancelled (state_seen p.old) me s i || may_clear_out (state_seen p.old)
            (acts_seen p.old me) me s i) }
        ensures { Steps self.now p.old p.new me (Remove s i result) }
    {
        let found = self.step(p, me, Part::Key(s.0, i), Instruction::SetBit(REMOVED));
        stage_of(found)
    }

    /// Pins the index: until the caller unpins it, it isn't claimed again. Answers how far its key has come.
    pub fn pin(&self, p: &mut Pass, me: CallerNo, s: SelNo, i: u32) -> Stage
        requires ready { IsReady self.now p.old me }
        requires key { IsKey (limits_of self.now) s i }
        requires claimed { IsTrue (is_claimed (state_seen p.old) s i) }
        requires unpinned { IsTrue (not (has_pin (state_seen p.old) me s i)) }
        ensures { Steps self.now p.old p.new me (Pin s i result) }
    {
        let found = self.step(p, me, Part::Key(s.0, i), Instruction::Add(PIN));
        stage_of(found)
    }

    /// Takes the caller's pin off the index.
    pub fn unpin(&self, p: &mut Pass, me: CallerNo, s: SelNo, i: u32)
        requires ready { IsReady self.now p.old me }
        requires key { IsKey (limits_of self.now) s i }
        requires pinned { IsTrue (has_pin (state_seen p.old) me s i) }
        ensures { Steps self.now p.old p.new me (Unpin s i) }
    {
        self.step(p, me, Part::Key(s.0, i), Instruction::Subtract(PIN));
    }

    /// Claims the index again, from the stage of its removed key, for a new key of the channel with the next
    /// serial, and pins it, where nobody has a pin on it. Says whether somebody had one.
    pub fn claim_again(
        &self,
        p: &mut Pass,
        me: CallerNo,
        s: SelNo,
        i: u32,
        c: ChanNo,
        from: Stage,
    ) -> bool
        requires ready { IsReady self.now p.old me }
        requires key { IsKey (limits_of self.now) s i }
        requires channel { IsChannel (limits_of self.now) c }
        requires holds { IsTrue (holds (state_seen p.old) me c) }
        requires taken { IsTrue (has_taken (state_seen p.old) me s i) }
        requires found { last (stage_found s.0 i) (since_taken s.0 i (acts_seen p.old me)) ≡ Some from }
        requires serial { from.serial < last_serial }
        ensures { Steps self.now p.old p.new me (ClaimAgain s i c from result) }
    {
        let old = encode::unpinned(from);
        let new = encode::new_key(c, from.serial + 1);
        let found = self.step_that(
            p,
            me,
            Part::Key(s.0, i),
            Instruction::Exchange(old, new),
            Details::Again(c, from),
        );
        found != old
    }
}

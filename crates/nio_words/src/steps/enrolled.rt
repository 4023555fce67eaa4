//! Steps on which key is enrolled for a channel in a selector.
ghost use Rattle.std.specs.Prelude.{◌≡◌, IsTrue, Some};
ghost use Rattle.nio_history.specs.Conditions.{IsChannel, IsSelector, IsKey, holds};
ghost use Rattle.nio_history.specs.OwnEvents.{own_claim, is_clear};
ghost use Rattle.nio_history.specs.declared.act.Act.TheVariants.{LookReg, Enrol};
ghost use Rattle.nio_words.specs.Passes.{IsReady, acts_seen, limits_of, state_seen};
ghost use Rattle.nio_words.specs.Steps.{Steps};

use crate::decode::enrolled_of;
use crate::encode;
use crate::instruction::Instruction;
use crate::part::Part;
use crate::step::Details;
use crate::words::{Pass, Words};
use nio_base::{CallerNo, ChanNo, KeyId, SelNo};

impl Words {
    /// Looks at which key is enrolled for the channel in the selector.
    pub fn look_reg(&self, p: &mut Pass, me: CallerNo, c: ChanNo, s: SelNo) -> Option<KeyId>
        requires ready { IsReady self.now p.old me }
        requires channel { IsChannel (limits_of self.now) c }
        requires selector { IsSelector (limits_of self.now) s }
        ensures { Steps self.now p.old p.new me (LookReg c s result) }
    {
        let found = self.step(p, me, Part::Enrolled(c.0, s.0), Instruction::Load);
        enrolled_of(found)
    }

    /// Enrols the index's key, by its serial, for the channel in the selector. Answers which key was enrolled before.
    pub fn enrol(
        &self,
        p: &mut Pass,
        me: CallerNo,
        c: ChanNo,
        s: SelNo,
        i: u32,
        serial: u32,
    ) -> Option<KeyId>
        requires ready { IsReady self.now p.old me }
        requires channel { IsChannel (limits_of self.now) c }
        requires key { IsKey (limits_of self.now) s i }
        requires claimed { own_claim s.0 i (acts_seen p.old me) ≡ Some (record { channel = c; serial = serial }) }
        requires holds { IsTrue (holds (state_seen p.old) me c) }
        requires clear { IsTrue (is_clear c.0 s.0 (acts_seen p.old me)) }
        ensures { Steps self.now p.old p.new me (Enrol c s i serial result) }
    {
        let key = KeyId { index: i, serial };
        let new = encode::enrolled(key);
        let found = self.step_that(
            p,
            me,
            Part::Enrolled(c.0, s.0),
            Instruction::Swap(new),
            Details::Enrolled(key),
        );
        enrolled_of(found)
    }
}

//! Steps on a selector's gate.
ghost use Rattle.std.specs.Prelude.{◌≡◌, IsTrue};
ghost use Rattle.nio_history.specs.Conditions.{IsSelector, has_turn, has_begun};
ghost use Rattle.nio_history.specs.declared.act.Act.TheVariants.{Wake, LookGate, BeginLook, EndWake, ShutBit};
ghost use Rattle.nio_words.specs.Passes.{IsReady, limits_of, state_seen};
ghost use Rattle.nio_words.specs.Steps.{Steps};

use crate::decode::{gate_of, is_set};
use crate::instruction::Instruction;
use crate::part::Part;
use crate::words::{Pass, Words};
use nio_base::{CallerNo, SelNo};
use nio_history::GateWord;

// The bits of a gate with a pending wakeup, and of one that is shut.
const WOKEN: u32 = 0;

const SHUT: u32 = 1;

impl Words {
    /// Leaves a wakeup at the selector. Says whether one was pending.
    pub fn wake(&self, p: &mut Pass, me: CallerNo, s: SelNo) -> bool
        requires ready { IsReady self.now p.old me }
        requires selector { IsSelector (limits_of self.now) s }
        requires made { IsTrue ((state_seen p.old).selector s.0) }
        ensures { Steps self.now p.old p.new me (Wake s result) }
    {
        let found = self.step(p, me, Part::Gate(s.0), Instruction::SetBit(WOKEN));
        is_set(found, WOKEN)
    }

    /// Looks at the selector's gate.
    pub fn look_gate(&self, p: &mut Pass, me: CallerNo, s: SelNo) -> GateWord
        requires ready { IsReady self.now p.old me }
        requires selector { IsSelector (limits_of self.now) s }
        ensures { Steps self.now p.old p.new me (LookGate s result) }
    {
        let found = self.step(p, me, Part::Gate(s.0), Instruction::Load);
        gate_of(found)
    }

    /// Looks at the gate as the holder of the selector's turn, and begins a selection where it isn't shut.
    pub fn begin_look(&self, p: &mut Pass, me: CallerNo, s: SelNo) -> GateWord
        requires ready { IsReady self.now p.old me }
        requires selector { IsSelector (limits_of self.now) s }
        requires turn { IsTrue (has_turn (state_seen p.old) me s) }
        ensures { Steps self.now p.old p.new me (BeginLook s result) }
    {
        let found = self.step(p, me, Part::Gate(s.0), Instruction::Load);
        gate_of(found)
    }

    /// Clears the wakeup of the selector. Answers the gate before.
    pub fn end_wake(&self, p: &mut Pass, me: CallerNo, s: SelNo) -> GateWord
        requires ready { IsReady self.now p.old me }
        requires selector { IsSelector (limits_of self.now) s }
        requires begun { IsTrue (has_begun (state_seen p.old) me s) }
        ensures { Steps self.now p.old p.new me (EndWake s result) }
    {
        let found = self.step(p, me, Part::Gate(s.0), Instruction::ClearBit(WOKEN));
        gate_of(found)
    }

    /// Shuts the selector, and makes the caller its closer where it wasn't shut. Says whether it was.
    pub fn shut_bit(&self, p: &mut Pass, me: CallerNo, s: SelNo) -> bool
        requires ready { IsReady self.now p.old me }
        requires selector { IsSelector (limits_of self.now) s }
        ensures { Steps self.now p.old p.new me (ShutBit s result) }
    {
        let found = self.step(p, me, Part::Gate(s.0), Instruction::SetBit(SHUT));
        is_set(found, SHUT)
    }
}

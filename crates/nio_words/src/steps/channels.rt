//! Steps on the channel that a number has: whether it is made, its kind, whether it is closed, its mode, and its
//! serial.
ghost use Rattle.std.specs.Prelude.{◌≡◌, ℕ, ◌<◌, IsTrue};
ghost use Rattle.nio_history.specs.Conditions.{IsChannel, AllMade, WasOpen, holds};
ghost use Rattle.nio_history.specs.OwnEvents.{is_clear};
ghost use Rattle.nio_base.specs.Numbers.{last_serial};
ghost use Rattle.nio_history.specs.declared.act.Act.TheVariants.{MakeChannel, LookChannel, SetMode, CloseBit};
ghost use Rattle.nio_history.specs.declared.act.Act.TheVariants.{Reopen};
ghost use Rattle.nio_words.specs.Passes.{IsReady, acts_seen, limits_of, state_seen};
ghost use Rattle.nio_words.specs.Steps.{Steps};

use crate::decode::{chan_of, is_set};
use crate::encode;
use crate::instruction::Instruction;
use crate::part::Part;
use crate::step::Details;
use crate::words::{Pass, Words};
use nio_base::{CallerNo, ChanNo, Kind};
use nio_history::Chan;

// The bit of a channel that is in non-blocking mode.
const NON_BLOCKING: u32 = 5;

impl Words {
    /// Makes the number's first channel, of this kind, open and in blocking mode. Says whether it was made.
    pub fn make_channel(&self, p: &mut Pass, me: CallerNo, c: ChanNo, kind: Kind) -> bool
        requires ready { IsReady self.now p.old me }
        requires channel { IsChannel (limits_of self.now) c }
        requires lower { AllMade (state_seen p.old) c.0 }
        ensures { Steps self.now p.old p.new me (MakeChannel c kind result) }
    {
        let new = encode::new_channel(kind, 0);
        let found = self.step_that(
            p,
            me,
            Part::Chan(c.0),
            Instruction::Exchange(0, new),
            Details::OfKind(kind),
        );
        is_set(found, 0)
    }

    /// Looks at the channel that the number has.
    pub fn look_channel(&self, p: &mut Pass, me: CallerNo, c: ChanNo) -> Chan
        requires ready { IsReady self.now p.old me }
        requires channel { IsChannel (limits_of self.now) c }
        ensures { Steps self.now p.old p.new me (LookChannel c result) }
    {
        let found = self.step(p, me, Part::Chan(c.0), Instruction::Load);
        chan_of(found)
    }

    /// Sets whether the channel is in blocking mode. Answers the channel before.
    pub fn set_mode(&self, p: &mut Pass, me: CallerNo, c: ChanNo, blocking: bool) -> Chan
        requires ready { IsReady self.now p.old me }
        requires channel { IsChannel (limits_of self.now) c }
        requires holds { IsTrue (holds (state_seen p.old) me c) }
        requires clear { IsTrue blocking → (s : ℕ) → s < (limits_of self.now).selectors
            → IsTrue (is_clear c.0 s (acts_seen p.old me)) }
        ensures { Steps self.now p.old p.new me (SetMode c blocking result) }
    {
        let instruction = Instruction::to_put_bit(NON_BLOCKING, !blocking);
        let found = self.step_that(p, me, Part::Chan(c.0), instruction, Details::Mode(blocking));
        chan_of(found)
    }

    /// Closes the channel that was found as `from`, open, where the number has it still; a channel that was set to
    /// non-blocking since stays as it is. Answers the channel before: where the number was given to a new one, that
    /// one.
    pub fn close_bit(&self, p: &mut Pass, me: CallerNo, c: ChanNo, from: Chan) -> Chan
        requires ready { IsReady self.now p.old me }
        requires channel { IsChannel (limits_of self.now) c }
        requires was_open { WasOpen (state_seen p.old) c from }
        ensures { Steps self.now p.old p.new me (CloseBit c from result) }
    {
        let closed = encode::channel(Chan {
            closed: true,
            ..from
        });
        let found = self.step_that(
            p,
            me,
            Part::Chan(c.0),
            Instruction::Max(closed),
            Details::Found(from),
        );
        chan_of(found)
    }

    /// Gives the number to a new channel of the same kind with the next serial, open and in blocking mode, where it
    /// has the closed channel `from`. Says whether it has another one: then nothing is changed.
    pub fn reopen(&self, p: &mut Pass, me: CallerNo, c: ChanNo, from: Chan) -> bool
        requires ready { IsReady self.now p.old me }
        requires channel { IsChannel (limits_of self.now) c }
        requires holds { IsTrue (holds (state_seen p.old) me c) }
        requires made { IsTrue from.made }
        requires closed { IsTrue from.closed }
        requires serial { from.serial < last_serial }
        requires clear { (s : ℕ) → s < (limits_of self.now).selectors → IsTrue (is_clear c.0 s (acts_seen p.old me)) }
        ensures { Steps self.now p.old p.new me (Reopen c from result) }
    {
        let old = encode::channel(from);
        let new = encode::new_channel(from.kind, from.serial + 1);
        let found = self.step_that(
            p,
            me,
            Part::Chan(c.0),
            Instruction::Exchange(old, new),
            Details::Found(from),
        );
        found != old
    }
}

//! Steps on the high-water marks, below which every channel is made, and every index of a selector claimed.
ghost use Rattle.std.specs.Prelude.{◌≤◌};
ghost use Rattle.nio_history.specs.Conditions.{IsSelector, AllMade, AllClaimed};
ghost use Rattle.nio_history.specs.declared.act.Act.TheVariants.{LookChannels, RaiseChannels, LookKeys, RaiseKeys};
ghost use Rattle.nio_words.specs.Passes.{IsReady, limits_of, state_seen};
ghost use Rattle.nio_words.specs.Steps.{Steps};

use crate::decode::number_of;
use crate::instruction::Instruction;
use crate::part::Part;
use crate::step::Details;
use crate::words::{Pass, Words};
use nio_base::{CallerNo, SelNo};

impl Words {
    /// Looks at the channels' high-water mark.
    pub fn look_channels(&self, p: &mut Pass, me: CallerNo) -> u32
        requires { IsReady self.now p.old me }
        ensures { Steps self.now p.old p.new me (LookChannels result) }
    {
        let found = self.step(p, me, Part::ChannelsHigh, Instruction::Load);
        number_of(found)
    }

    /// Raises the channels' high-water mark to `n`, unless it is at least as high. Answers what it was.
    pub fn raise_channels(&self, p: &mut Pass, me: CallerNo, n: u32) -> u32
        requires ready { IsReady self.now p.old me }
        requires most { n ≤ (limits_of self.now).channels }
        requires lower { AllMade (state_seen p.old) n }
        ensures { Steps self.now p.old p.new me (RaiseChannels n result) }
    {
        let least = u64::from(n);
        let found = self.step_that(
            p,
            me,
            Part::ChannelsHigh,
            Instruction::Max(least),
            Details::Number(n),
        );
        number_of(found)
    }

    /// Looks at the selector's keys' high-water mark.
    pub fn look_keys(&self, p: &mut Pass, me: CallerNo, s: SelNo) -> u32
        requires ready { IsReady self.now p.old me }
        requires selector { IsSelector (limits_of self.now) s }
        ensures { Steps self.now p.old p.new me (LookKeys s result) }
    {
        let found = self.step(p, me, Part::KeysHigh(s.0), Instruction::Load);
        number_of(found)
    }

    /// Raises the selector's keys' high-water mark to `n`, unless it is at least as high. Answers what it was.
    pub fn raise_keys(&self, p: &mut Pass, me: CallerNo, s: SelNo, n: u32) -> u32
        requires ready { IsReady self.now p.old me }
        requires selector { IsSelector (limits_of self.now) s }
        requires most { n ≤ (limits_of self.now).keys }
        requires lower { AllClaimed (state_seen p.old) s n }
        ensures { Steps self.now p.old p.new me (RaiseKeys s n result) }
    {
        let least = u64::from(n);
        let found = self.step_that(
            p,
            me,
            Part::KeysHigh(s.0),
            Instruction::Max(least),
            Details::Number(n),
        );
        number_of(found)
    }
}

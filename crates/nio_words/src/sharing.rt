//! Passes in several hands: splitting one, handing a number over, joining two.
ghost use Rattle.std.specs.Prelude.{◌≡◌, ℕ, ◌^◌, ◌<◌, ◌↔◌, IsTrue, IsOkAnd, bit_and};
ghost use Rattle.std.specs.Int.{bit_not, w64};
ghost use Rattle.nio_words.specs.Passes.{Holds, IsPassOf, numbers_of};
ghost use Rattle.nio_words.specs.Rule.{HasBit, joined_view, spent_view};
ghost use Rattle.nio_words.specs.Sharing.{SeesSame, Splits, HandsOver, Joins};

use crate::decode::is_set;
use crate::instruction::Instruction;
use crate::part::CALLERS;
use crate::view::View;
use crate::words::{Pass, Words};
use atomic_table::{Join, Split};
use nio_base::CallerNo;
use std::alloc::AllocError;
use std::marker::Brand;

// Which numbers go to which side is picked where the seat is split.
impl Split<View> for Brand {
    ghost left = { λ view. view };

    ghost right = { λ view. view };
}

/// The joined seat has the numbers of both, and the longer of what they have seen.
pub struct Joined;

impl Join<View> for Joined {
    ghost both = { joined_view };

    ghost spent = { spent_view };
}

impl Pass {
    /// Whether it holds the number.
    pub fn holds(&self, number: CallerNo) -> bool
        ensures { IsTrue result ↔ Holds self.now number }
    {
        let numbers = self.numbers;
        number.0 < 64 && is_set(numbers, number.0)
    }
}

impl Words {
    // A pass that has seen what `p` has, and takes these numbers from it.
    fn split_off(&self, p: &mut Pass, numbers: u64) -> Pass
        ghost taken: { ℕ }
        requires taken { taken ≡ numbers }
        requires pass { IsPassOf self.now p.old }
        requires numbers { (n : ℕ) → HasBit numbers n → HasBit (numbers_of p.old) n }
        ensures sees { SeesSame self.now p.old p.new result }
        ensures left { numbers_of p.new ≡ bit_and (numbers_of p.old) (bit_not w64 numbers) }
        ensures given { numbers_of result ≡ numbers }
        ensures fits { numbers_of p.old < 2 ^ 64 }
    {
        let seat = self.table.shared.split_seat::<Brand>(&mut p.seat);
        p.numbers &= !numbers;
        Pass { numbers, seat }
    }

    /// A second pass, which has seen what `p` has and holds no number. To tell another thread what
    /// one has seen is to hand it such a pass. It never answers Err.
    pub fn split(&self, p: &mut Pass) -> Result<Pass, AllocError>
        requires { IsPassOf self.now p.old }
        ensures { IsOkAnd result (λ given. Splits self.now p.old p.new given) }
    {
        Ok(self.split_off(p, 0))
    }

    /// A pass that has seen what `p` has and holds this one number, which `p` holds no longer. It
    /// never answers Err.
    pub fn hand_over(&self, p: &mut Pass, number: CallerNo) -> Result<Pass, AllocError>
        requires pass { IsPassOf self.now p.old }
        requires number { Holds p.old number }
        ensures { IsOkAnd result (λ given. HandsOver self.now number p.old p.new given) }
    {
        Ok(self.split_off(p, 1 << number.0))
    }

    /// Leaves `p` with the numbers of both passes and with the longer of what they have seen.
    pub fn join(&self, p: &mut Pass, other: Pass)
        requires pass { IsPassOf self.now p.old }
        requires other { IsPassOf self.now other }
        ensures { Joins self.now p.old other p.new }
    {
        let Pass { numbers, seat } = other;
        self.table.shared.join_seat::<Joined>(&mut p.seat, seat);
        p.numbers |= numbers;
        self.perform::<Brand>(&mut p.seat, CALLERS, Instruction::Load);
    }
}

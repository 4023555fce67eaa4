//! Drawing a caller's number, after which the pass acts for that caller.
ghost use Rattle.std.specs.Prelude.{◌≡◌};
ghost use Rattle.nio_base.specs.declared.numbers.CallerNo.{CallerNo as Number};
ghost use Rattle.nio_history.specs.Conditions.{IsCaller};
ghost use Rattle.nio_words.specs.Drawing.{Drawn, Draws};
ghost use Rattle.nio_words.specs.Passes.{IsPassOf, limits_of};

use crate::decode::is_set;
use crate::instruction::Instruction;
use crate::part::CALLERS;
use crate::words::{Pass, Words};
use nio_base::CallerNo;
use std::marker::Brand;
use thiserror::Error;

/// Why a number wasn't drawn.
#[derive(Clone, Copy, Debug, PartialEq, Eq, Error)]
pub enum DrawError {
    /// The number isn't below the table's limit of callers.
    #[error("there is no caller with this number")]
    NoSuchCaller,
    /// Some pass acts, or acted, for this caller.
    #[error("the number is drawn already")]
    CallerTaken,
}

impl Words {
    fn draw_as(&self, p: &mut Pass, _me: CallerNo, number: CallerNo) -> bool
        ghost who: { Number }
        requires who { who ≡ number }
        requires pass { IsPassOf self.now p.old }
        requires number { IsCaller (limits_of self.now) number }
        ensures { Draws self.now p.old p.new who result }
    {
        let set = Instruction::SetBit(number.0);
        let callers = self.perform::<Brand>(&mut p.seat, CALLERS, set);
        let drawn = is_set(callers, number.0);
        if !drawn {
            p.numbers |= 1 << number.0;
        }
        drawn
    }

    /// One step that draws the number, which is the caller's own. Says whether it was drawn; the
    /// pass holds it where it wasn't.
    pub fn draw_bit(&self, p: &mut Pass, me: CallerNo, number: CallerNo) -> bool
        requires pass { IsPassOf self.now p.old }
        requires number { IsCaller (limits_of self.now) number }
        requires own { me ≡ number }
        ensures { Draws self.now p.old p.new number result }
    {
        self.draw_as(p, me, number)
    }

    /// Makes the pass hold the number, so that it may step as that caller.
    pub fn draw(&self, p: &mut Pass, number: CallerNo) -> Result<(), DrawError>
        requires { IsPassOf self.now p.old }
        ensures pass { IsPassOf self.now p.new }
        ensures answer { Drawn self.now p.old p.new number result }
    {
        if number.0 >= self.limits.callers {
            return Err(DrawError::NoSuchCaller);
        }
        if self.draw_bit(p, number, number) {
            return Err(DrawError::CallerTaken);
        }
        Ok(())
    }
}

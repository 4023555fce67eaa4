//! What is done at the places, and their rule. No value of these types is made.
ghost use Rattle.std.specs.Prelude.{◌≡◌};

use crate::kept::Sharer;
use atomic_table::{Play, TableRule};
use nio_words::Words;

/// What was done at a place, which is given by its number.
pub enum Visit {
    /// The place was free, and was taken in hand.
    Comes(usize),
    /// It wasn't free.
    FindsTaken(usize),
    /// A caller was left at the place, which was in hand.
    Leaves(usize, Sharer),
    /// The caller that was left there was taken, and the place is in hand.
    Takes(usize, Sharer),
    /// No caller was left there.
    FindsNone(usize),
    /// The place, which was in hand, was freed.
    Frees(usize),
}

/// What a visitor knows: whose places these are, and what it did there, the last first. A clause reads an array as a
/// list of any length.
pub struct Visits {
    pub table: Words,
    pub made: [Visit; 0],
}

/// The rule of the places.
pub struct OneOrder;

impl TableRule<Option<Sharer>, Visits, Words> for OneOrder {
    ghost use Rattle.nio_c.specs.Visits.{AreKept, first_visits};

    ghost holds = { AreKept };

    ghost first = { first_visits };
}

/// A free place is taken in hand.
pub struct Coming;

/// A caller that was left is taken.
pub struct Taking;

/// A caller is left.
pub struct Leaving;

/// A place is freed.
pub struct Freeing;

/// One more visits the places, who does nothing yet.
pub struct Entering;

impl Play<Option<Sharer>, Visits> for Coming {
    ghost use Rattle.nio_c.specs.Visits.{Comes};

    ghost then = { λ step before found after. Comes step.word before found after };
}

impl Play<Option<Sharer>, Visits> for Taking {
    ghost use Rattle.nio_c.specs.Visits.{Takes};

    ghost then = { λ step before found after. Takes step.word before found after };
}

impl Play<Option<Sharer>, Visits> for Leaving {
    ghost use Rattle.nio_c.specs.Visits.{Leaves};

    ghost then = { λ step before found after. Leaves step.word before after };
}

impl Play<Option<Sharer>, Visits> for Freeing {
    ghost use Rattle.nio_c.specs.Visits.{Frees};

    ghost then = { λ step before found after. Frees step.word before after };
}

impl Play<Option<Sharer>, Visits> for Entering {
    ghost then = { λ step before found after. after ≡ before };
}

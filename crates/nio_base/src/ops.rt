//! Operation sets: what a key is interested in, and what its channel is ready for.
ghost use Rattle.std.specs.Prelude.{◌≡◌, ℕ, ◌<◌, ◌↔◌, bit_and, bit_or, IsTrue};

use std::marker::Model;

/// A set of operations. Java's bits: read 1, write 4, connect 8 and accept 16; the other bits have
/// no name and mean nothing, but are kept.
#[derive(Clone, Copy, Debug, PartialEq, Eq, Hash, PartialOrd, Ord)]
pub struct Ops {
    bits: u8,
}

impl Model for Ops {
    ghost Value = { ℕ };

    ghost view = { λ o. o.bits };

    ghost invariant = { λ o. o.bits < 256 };

    ghost inverse = { λ n. record { bits = n } };
}

impl Ops {
    /// No operation.
    pub const NONE: Ops = Ops { bits: 0 };

    /// Reading.
    pub const READ: Ops = Ops { bits: 1 };

    /// Writing.
    pub const WRITE: Ops = Ops { bits: 4 };

    /// Finishing a connection.
    pub const CONNECT: Ops = Ops { bits: 8 };

    /// Accepting a connection.
    pub const ACCEPT: Ops = Ops { bits: 16 };

    /// The set with these bits.
    pub fn of(bits: u8) -> Ops
        ensures { result ≡ bits }
    {
        Ops { bits }
    }

    /// The bits of the set.
    pub fn bits(self) -> u8
        ensures bits { result ≡ self }
        ensures below { self < 256 }
    {
        self.bits
    }

    /// The operations of either set.
    pub fn union(self, other: Ops) -> Ops
        ensures { result ≡ bit_or self other }
    {
        Ops {
            bits: self.bits | other.bits,
        }
    }

    /// The operations that both sets have.
    pub fn meet(self, other: Ops) -> Ops
        ensures { result ≡ bit_and self other }
    {
        Ops {
            bits: self.bits & other.bits,
        }
    }

    /// Whether each operation of this set is in the other.
    pub fn within(self, other: Ops) -> bool
        ensures { IsTrue result ↔ (bit_and self other ≡ self) }
    {
        self.bits & other.bits == self.bits
    }
}

//! Keys with operations: what a selection looks for, and what a poller tells.
ghost use Rattle.std.specs.Prelude.{◌≡◌, ℕ, List};
ghost use Rattle.nio_base.specs.declared.numbers.KeyId.{KeyId as Key};

use nio_base::{KeyId, Ops};
use std::marker::Model;

/// Keys of one selector, each with a set of operations, in the order in which they were given.
/// Contracts see the list of pairs.
#[derive(Debug, Drop)]
pub struct Pairs {
    pairs: Vec<(KeyId, Ops)>,
}

impl Model for Pairs {
    ghost Value = { List (Key × ℕ) };

    ghost view = { λ p. p.pairs.items };
}

impl Pairs {
    /// The pairs of the vector. Takes no memory.
    pub fn from_vec(pairs: Vec<(KeyId, Ops)>) -> Pairs
        ensures { result ≡ pairs.items }
    {
        Pairs { pairs }
    }

    /// The vector of the pairs. Takes no memory.
    pub fn into_vec(self) -> Vec<(KeyId, Ops)>
        ensures { result.items ≡ self }
    {
        self.pairs
    }

    /// The pairs, in their order.
    pub fn as_slice(&self) -> &[(KeyId, Ops)]
        ensures { result.now ≡ self.now }
    {
        self.pairs.as_slice()
    }
}

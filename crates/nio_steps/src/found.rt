//! What the plans ask of what steps found.
ghost use Rattle.std.specs.Prelude.{◌≡◌, ◌<◌};
ghost use Rattle.nio_base.specs.Kind.{valid_operations};
ghost use Rattle.nio_base.specs.Ops.{is_within};
ghost use Rattle.nio_steps.specs.KeyCalls.{has_bit as bit_of};

use nio_base::{Kind, Ops};

/// Whether bit `n` of a word is set.
pub fn has_bit(word: u64, n: u32) -> bool
    requires { n < 64 }
    ensures { result ≡ bit_of word n }
{
    word >> n & 1 == 1
}

/// Whether a channel of this kind supports each of these operations.
pub fn supports(kind: Kind, ops: Ops) -> bool
    ensures { result ≡ is_within ops (valid_operations kind) }
{
    ops.within(kind.valid_ops())
}

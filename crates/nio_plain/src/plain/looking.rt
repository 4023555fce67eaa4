//! What a selection looks at: the valid keys, each with its interest.
ghost use Rattle.std.specs.List.{All, AllPairs};
ghost use Rattle.std.specs.Prelude.{◌≡◌, ◌<◌, ◌≤◌, ◌^◌, IfOk, length, vec_len};
ghost use Rattle.nio_plain.specs.PlainState.{key_row, looked_below, no_key, places};

use super::selector::Key;
use nio_base::{KeyId, Ops};
use std::alloc::{AllocError, Global};

/// The valid keys with their interests, in rising order of the indexes.
pub(super) fn valid_keys(alloc: Global, keys: &[Key]) -> Result<Vec<(KeyId, Ops)>, AllocError>
    requires { length keys.now < 2 ^ 32 }
    ensures looked { IfOk result (λ v. v.items ≡ looked_below (places key_row no_key keys.now) (length keys.now)) }
    ensures rising { IfOk result (λ v. AllPairs (λ p q. p.0.index < q.0.index) v.items) }
    ensures below { IfOk result (λ v. All (λ p. p.0.index < length keys.now) v.items) }
    ensures few { IfOk result (λ v. vec_len v ≤ length keys.now) }
{
    let mut looked = Vec::new(alloc);
    for (index, key) in keys.iter().enumerate() {
        if key.is_valid() {
            looked.push((key.id(index as u32), key.interest))?;
        }
    }
    Ok(looked)
}

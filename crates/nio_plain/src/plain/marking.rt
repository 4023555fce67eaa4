//! What a poller told: the bits of each key, how they mark a key, and how many keys they update.
ghost use Rattle.std.specs.List.{All, AllPairs};
ghost use Rattle.std.specs.Prelude.{ℕ, ◌≡◌, ◌<◌, ◌^◌, IfOk, bit_and, count_by, length, slice_index, vec_len};
ghost use Rattle.nio_plain.specs.PlainState.{key_row, no_key, places};
ghost use Rattle.nio_plain.specs.Seq.Selections.{all_told, is_updated, marked};

use super::selector::Key;
use nio_base::{KeyId, Ops};
use nio_history::Mark;
use std::alloc::{AllocError, Global};

/// The serial of each index that the selection looks at, and 0 of the others below the bound.
pub(super) fn looked_serials(
    alloc: Global,
    looked: &[(KeyId, Ops)],
    bound: u32,
) -> Result<Vec<u32>, AllocError>
    requires rising { AllPairs (λ p q. p.0.index < q.0.index) looked.now }
    requires within { All (λ p. p.0.index < bound) looked.now }
    ensures long { IfOk result (λ v. vec_len v ≡ bound) }
    ensures serials { IfOk result (λ v. All (λ p. slice_index v.items p.0.index ≡ p.0.serial) looked.now) }
{
    let mut serials = Vec::from_elem(alloc, 0u32, bound as usize)?;
    for &(key, _) in looked {
        serials[key.index as usize] = key.serial;
    }
    Ok(serials)
}

/// All that was told of the key with this serial, for each index that has one.
pub(super) fn all_told(
    alloc: Global,
    pairs: &[(KeyId, Ops)],
    serials: &[u32],
) -> Result<Vec<Ops>, AllocError>
    ensures long { IfOk result (λ v. vec_len v ≡ length serials.now) }
    ensures told { IfOk result (λ v. (i : ℕ) → i < length serials.now → slice_index v.items i
        ≡ all_told pairs.now (record { index = i; serial = slice_index serials.now i })) }
{
    let mut told = Vec::from_elem(alloc, Ops::NONE, serials.len())?;
    for &(key, ops) in pairs {
        let index = key.index as usize;
        if index < serials.len() && serials[index] == key.serial {
            told[index] = told[index].union(ops);
        }
    }
    Ok(told)
}

/// The mark after the bits were told: a key that isn't selected starts afresh.
pub(super) fn marked(mark: Mark, bits: Ops) -> Mark
    ensures { result ≡ marked mark bits }
{
    if bits == Ops::NONE {
        mark
    } else if mark.selected {
        Mark {
            selected: true,
            ready: mark.ready.union(bits),
        }
    } else {
        Mark {
            selected: true,
            ready: bits,
        }
    }
}

/// Whether the bits update the key: it is added to the selected set, or gains a bit.
fn is_updated(mark: Mark, bits: Ops) -> bool
    ensures { result ≡ is_updated mark bits }
{
    bits != Ops::NONE && (!mark.selected || mark.ready.union(bits) != mark.ready)
}

/// How many of the looked keys the told bits update.
pub(super) fn updated_count(keys: &[Key], looked: &[(KeyId, Ops)], told: &[Ops]) -> u32
    requires in_keys { All (λ p. p.0.index < length keys.now) looked.now }
    requires in_told { All (λ p. p.0.index < length told.now) looked.now }
    requires few { length looked.now < 2 ^ 32 }
    ensures { result
        ≡ count_by (λ p. is_updated (places key_row no_key keys.now p.0.index).mark
        (bit_and (slice_index told.now p.0.index) p.1)) looked.now }
{
    let mut count = 0;
    for &(key, interest) in looked {
        let bits = told[key.index as usize].meet(interest);
        if is_updated(keys[key.index as usize].mark, bits) {
            count += 1;
        }
    }
    count
}

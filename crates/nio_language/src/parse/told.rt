//! Reading what a selection is told: a selector, `elapsed` or not, and pairs of keys and operations,
//! as many as there are.
ghost use Rattle.std.specs.Prelude.{◌≡◌, ℕ, ◌==◌, ◌↔◌, ◌<◌, ◌++◌, Bool, List, IsTrue, Any, IfOk, codes, map};
ghost use Rattle.std.specs.Prelude.{option_map};
ghost use Rattle.nio_base.specs.declared.numbers.KeyId.{KeyId as Key};
ghost use Rattle.nio_language.specs.Arguments.{ArePairs, ReadsArguments, elapsed_words, selector_told};
ghost use Rattle.nio_language.specs.Reading.{Reads};
ghost use Rattle.nio_language.specs.Words.{pair_word};

use super::name::{read_pair, read_selector};
use crate::pairs::Pairs;
use nio_base::{KeyId, Ops, SelNo};
use std::alloc::{AllocError, Global};

/// A selector, `elapsed` or not, and pairs that name each key at most once.
pub fn read_told(alloc: Global, args: &[&[u8]]) -> Result<Option<(SelNo, bool, Pairs)>, AllocError>
    ensures { IfOk result (ReadsArguments (λ p. selector_told p.0 p.1 p.2) (map (λ w. w.now) args.now)) }
{
    let Some((selector, rest)) = args.split_first() else {
        return Ok(None);
    };
    let Some(selector) = read_selector(selector) else {
        return Ok(None);
    };
    let (elapsed, pairs) = split_elapsed(rest);
    let Some(pairs) = read_pairs(alloc, pairs)? else {
        return Ok(None);
    };
    Ok(Some((selector, elapsed, Pairs::from_vec(pairs))))
}

/// Whether the first word is `elapsed`, and the words behind it.
fn split_elapsed<'a, 'b>(words: &'a [&'b [u8]]) -> (bool, &'a [&'b [u8]])
    ensures text { map (λ w. w.now) words.now ≡ elapsed_words result.0 ++ map (λ w. w.now) result.1.now }
    ensures only { (elapsed : Bool) (pairs : List (Key × ℕ))
        → map (λ w. w.now) words.now ≡ elapsed_words elapsed ++ map pair_word pairs
        → (elapsed ≡ result.0) × (map (λ w. w.now) result.1.now ≡ map pair_word pairs) }
{
    match words {
        [first, pairs @ ..] if is_elapsed(first) => (true, pairs),
        _ => (false, words),
    }
}

fn is_elapsed(word: &[u8]) -> bool
    ensures { IsTrue result ↔ (word.now ≡ codes "elapsed") }
{
    word == b"elapsed".as_slice()
}

fn read_pairs(alloc: Global, words: &[&[u8]]) -> Result<Option<Vec<(KeyId, Ops)>>, AllocError>
    ensures { IfOk result (λ r. Reads ArePairs (map pair_word) (map (λ w. w.now) words.now)
        (option_map (λ v. v.items) r)) }
{
    let mut pairs = Vec::with_capacity(alloc, words.len())?;
    for word in words {
        let Some(pair) = read_pair(word) else {
            return Ok(None);
        };
        if has_key(&pairs, pair.0) {
            return Ok(None);
        }
        pairs.push(pair)?;
    }
    Ok(Some(pairs))
}

fn has_key(pairs: &[(KeyId, Ops)], key: KeyId) -> bool
    ensures { IsTrue result ↔ Any (λ p. p.0 ≡ key) pairs.now }
{
    pairs.iter().any(|pair| pair.0 == key)
}

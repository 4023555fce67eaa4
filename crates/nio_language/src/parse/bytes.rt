//! Reading bytes, each of which is two lower-case hexadecimal digits.
ghost use Rattle.std.specs.Prelude.{◌≡◌, ◌↔◌, ℕ, ◌<◌, List, IfOk, IsTrue, map};
ghost use Rattle.std.specs.Option.{option_map};
ghost use Rattle.nio_language.specs.Arguments.{AreBytes, ReadsArguments, channel_bytes};
ghost use Rattle.nio_language.specs.Reading.{Reads};
ghost use Rattle.nio_language.specs.Words.{bytes_word};

use super::name::read_channel;
use crate::bytes::Bytes;
use crate::print::push_hex;
use hex::FromHexError;
use nio_base::ChanId;
use std::alloc::{AllocError, Global};

/// The most bytes of a line.
const BYTES_LIMIT: usize = 2000;

/// A channel, and bytes.
pub fn read_channel_bytes(
    alloc: Global,
    args: &[&[u8]],
) -> Result<Option<(ChanId, Bytes)>, AllocError>
    ensures { IfOk result (ReadsArguments (λ p. channel_bytes p.0 p.1) (map (λ w. w.now) args.now)) }
{
    let [channel, bytes] = args else {
        return Ok(None);
    };
    let Some(channel) = read_channel(channel) else {
        return Ok(None);
    };
    let Some(bytes) = read_bytes(alloc, bytes)? else {
        return Ok(None);
    };
    Ok(Some((channel, Bytes::from_vec(bytes))))
}

/// The bytes that a word is, where it is as it would be printed.
fn read_bytes(alloc: Global, word: &[u8]) -> Result<Option<Vec<u8>>, AllocError>
    ensures { IfOk result (λ r. Reads AreBytes bytes_word word.now (option_map (λ v. v.items) r)) }
{
    let Some(bytes) = decode(alloc, word)? else {
        return Ok(None);
    };
    if !is_printed(alloc, &bytes, word)? {
        return Ok(None);
    }
    Ok(Some(bytes))
}

/// What a word decodes to; nothing where it is a dash.
fn decode(alloc: Global, word: &[u8]) -> Result<Option<Vec<u8>>, AllocError>
    ensures { IfOk result (λ r. (bytes : List ℕ) → AreBytes bytes → word.now ≡ bytes_word bytes
        → option_map (λ v. v.items) r ≡ Some bytes) }
{
    if word == b"-".as_slice() {
        return Ok(Some(Vec::new(alloc)));
    }
    match hex::decode(alloc, word) {
        Ok(bytes) => Ok(Some(bytes)),
        Err(error) => match error {
            FromHexError::OutOfMemory => Err(AllocError),
            _ => Ok(None),
        },
    }
}

/// Whether the bytes are few enough for a line, and are printed as this word.
fn is_printed(alloc: Global, bytes: &[u8], word: &[u8]) -> Result<bool, AllocError>
    ensures { IfOk result (λ b. IsTrue b ↔ (AreBytes bytes.now × (word.now ≡ bytes_word bytes.now))) }
{
    if bytes.len() > BYTES_LIMIT {
        return Ok(false);
    }
    let mut printed = Vec::with_capacity(alloc, word.len())?;
    push_hex(&mut printed, bytes)?;
    Ok(printed.as_slice() == word)
}

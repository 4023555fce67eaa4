//! The words of a line that name something: `t1`, `s0`, `c2`, `c2.1`, `g0`, `g0.1`, `k3`, `k3.1`, and `k3:5`.
ghost use Rattle.std.specs.Prelude.{◌≢◌, ◌<◌, ◌≤◌, ◌^◌, ◌∷◌};
ghost use Rattle.std.specs.Fmt.{decimal};
ghost use Rattle.nio_language.specs.Arguments.{IsChannelName, IsKeyName, IsPair};
ghost use Rattle.nio_language.specs.GroupWords.{IsGroupName};
ghost use Rattle.nio_language.specs.Words.{IsName};
ghost use Rattle.nio_language.specs.Arguments.{IsSerial};
ghost use Rattle.nio_language.specs.GroupWords.{group_channel_word, operation_word};
ghost use Rattle.nio_language.specs.Reading.{Reads};
ghost use Rattle.nio_language.specs.Words.{IsNumber, caller_word, selector_word, channel_word, key_word, name_word};
ghost use Rattle.nio_language.specs.Words.{pair_word};

use super::cut::cut_at;
use super::number::read_number;
use nio_base::{CallerNo, ChanId, ChanNo, GChan, KeyId, OpNo, Ops, SelNo};

/// The largest number of a caller.
const CALLER_MAX: u32 = 63;

/// A caller.
pub fn read_caller(word: &[u8]) -> Option<CallerNo>
    ensures { Reads (λ t. t.0 < 64) caller_word word.now result }
{
    read_numbered(word, b't', CALLER_MAX).map(CallerNo)
}

/// A selector.
pub fn read_selector(word: &[u8]) -> Option<SelNo>
    ensures { Reads (λ s. s.0 < 2 ^ 32) selector_word word.now result }
{
    read_numbered(word, b's', u32::MAX).map(SelNo)
}

/// A channel.
pub fn read_channel(word: &[u8]) -> Option<ChanId>
    ensures { Reads IsChannelName channel_word word.now result }
{
    let (number, serial) = read_name(word, b'c')?;
    Some(ChanId {
        number: ChanNo(number),
        serial,
    })
}

/// A channel of the group.
pub fn read_group_channel(word: &[u8]) -> Option<GChan>
    ensures { Reads IsGroupName group_channel_word word.now result }
{
    let (number, serial) = read_name(word, b'g')?;
    Some(GChan { number, serial })
}

/// The number of an operation of the group.
pub fn read_operation(word: &[u8]) -> Option<OpNo>
    ensures { Reads (λ n. IsNumber n.0) operation_word word.now result }
{
    read_number(word, u64::from(u32::MAX)).map(OpNo)
}

/// A key.
pub fn read_key(word: &[u8]) -> Option<KeyId>
    ensures { Reads IsKeyName key_word word.now result }
{
    let (index, serial) = read_name(word, b'k')?;
    Some(KeyId { index, serial })
}

/// A letter and a number, and behind a point a serial, where that isn't 0.
fn read_name(word: &[u8], letter: u8) -> Option<(u32, u32)>
    requires { letter ≢ 46 }
    ensures { Reads (λ p. IsName p.0 p.1) (name_word letter) word.now result }
{
    match cut_at(word, b'.') {
        None => {
            let number = read_numbered(word, letter, u32::MAX)?;
            Some((number, 0))
        }
        Some((number, serial)) => {
            let number = read_numbered(number, letter, u32::MAX)?;
            let serial = read_serial(serial)?;
            Some((number, serial))
        }
    }
}

/// A serial that isn't 0.
fn read_serial(digits: &[u8]) -> Option<u32>
    ensures { Reads IsSerial decimal digits.now result }
{
    let serial = read_number(digits, u64::from(u32::MAX))?;
    if serial == 0 {
        None
    } else {
        Some(serial as u32)
    }
}

/// A set of operations, as a decimal number.
pub fn read_ops(word: &[u8]) -> Option<Ops>
    ensures { Reads (λ ops. ops < 256) decimal word.now result }
{
    let bits = read_number(word, 255)?;
    Some(Ops::of(bits as u8))
}

/// A letter and a number that is at most `max`.
fn read_numbered(word: &[u8], letter: u8, max: u32) -> Option<u32>
    ensures { Reads (λ n. n ≤ max) (λ n. letter ∷ decimal n) word.now result }
{
    let (first, digits) = word.split_first()?;
    if *first != letter {
        return None;
    }
    let number = read_number(digits, u64::from(max))?;
    Some(number as u32)
}

/// A key with operations.
pub fn read_pair(word: &[u8]) -> Option<(KeyId, Ops)>
    ensures { Reads IsPair pair_word word.now result }
{
    let (key, ops) = cut_at(word, b':')?;
    let key = read_key(key)?;
    let ops = read_ops(ops)?;
    Some((key, ops))
}

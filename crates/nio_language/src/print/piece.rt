//! The pieces of a line.
ghost use Rattle.std.specs.Prelude.{◌≡◌, ◌<◌, ◌/◌, ◌%◌, [], ◌∷◌, ◌++◌, OnOk, map};
ghost use Rattle.std.specs.Fmt.{decimal, signed_decimal};
ghost use Rattle.nio_language.specs.Printing.{spaced};
ghost use Rattle.nio_language.specs.Words.{bytes_word, channel_word, hex_digit, hex_digits, key_word, pair_word};
ghost use Rattle.nio_language.specs.Words.{serial_text};

use itoa::Buffer;
use nio_base::{ChanId, KeyId, Ops};
use std::alloc::AllocError;

/// Bytes as they are.
pub fn push_bytes(line: &mut Vec<u8>, bytes: &[u8]) -> Result<(), AllocError>
    ensures { OnOk result (line.new.items ≡ line.old.items ++ bytes.now) }
{
    line.extend_from_slice(bytes)
}

/// A number in decimal digits.
pub fn push_number(line: &mut Vec<u8>, number: u64) -> Result<(), AllocError>
    ensures { OnOk result (line.new.items ≡ line.old.items ++ decimal number) }
{
    line.extend_from_slice(Buffer::new().format(number).as_bytes())
}

/// A letter and a number.
pub fn push_numbered(line: &mut Vec<u8>, letter: u8, number: u32) -> Result<(), AllocError>
    ensures { OnOk result (line.new.items ≡ line.old.items ++ letter ∷ decimal number) }
{
    line.push(letter)?;
    push_number(line, u64::from(number))
}

/// A space and a word.
pub fn push_word(line: &mut Vec<u8>, word: &[u8]) -> Result<(), AllocError>
    ensures { OnOk result (line.new.items ≡ line.old.items ++ 32 ∷ word.now) }
{
    line.push(b' ')?;
    line.extend_from_slice(word)
}

/// A space, a letter and a number.
pub fn push_name(line: &mut Vec<u8>, letter: u8, number: u32) -> Result<(), AllocError>
    ensures { OnOk result (line.new.items ≡ line.old.items ++ 32 ∷ letter ∷ decimal number) }
{
    line.push(b' ')?;
    push_numbered(line, letter, number)
}

/// A space and a number.
pub fn push_number_word(line: &mut Vec<u8>, number: u64) -> Result<(), AllocError>
    ensures { OnOk result (line.new.items ≡ line.old.items ++ 32 ∷ decimal number) }
{
    line.push(b' ')?;
    push_number(line, number)
}

/// A space and a number of milliseconds.
pub fn push_time(line: &mut Vec<u8>, milliseconds: i64) -> Result<(), AllocError>
    ensures { OnOk result (line.new.items ≡ line.old.items ++ 32 ∷ signed_decimal milliseconds) }
{
    line.push(b' ')?;
    line.extend_from_slice(Buffer::new().format(milliseconds).as_bytes())
}

/// A space and operations.
pub fn push_ops(line: &mut Vec<u8>, ops: Ops) -> Result<(), AllocError>
    ensures { OnOk result (line.new.items ≡ line.old.items ++ 32 ∷ decimal ops) }
{
    push_number_word(line, u64::from(ops.bits()))
}

/// A channel's name.
pub fn push_channel(line: &mut Vec<u8>, channel: ChanId) -> Result<(), AllocError>
    ensures { OnOk result (line.new.items ≡ line.old.items ++ channel_word channel) }
{
    push_numbered(line, b'c', channel.number.0)?;
    push_serial(line, channel.serial)
}

/// A key's name.
pub fn push_key(line: &mut Vec<u8>, key: KeyId) -> Result<(), AllocError>
    ensures { OnOk result (line.new.items ≡ line.old.items ++ key_word key) }
{
    push_numbered(line, b'k', key.index)?;
    push_serial(line, key.serial)
}

/// A point and a serial; nothing where it is 0.
pub fn push_serial(line: &mut Vec<u8>, serial: u32) -> Result<(), AllocError>
    ensures { OnOk result (line.new.items ≡ line.old.items ++ serial_text serial) }
{
    if serial == 0 {
        Ok(())
    } else {
        push_numbered(line, b'.', serial)
    }
}

/// A space and a channel's name.
pub fn push_channel_word(line: &mut Vec<u8>, channel: ChanId) -> Result<(), AllocError>
    ensures { OnOk result (line.new.items ≡ line.old.items ++ 32 ∷ channel_word channel) }
{
    line.push(b' ')?;
    push_channel(line, channel)
}

/// A space and a key's name.
pub fn push_key_word(line: &mut Vec<u8>, key: KeyId) -> Result<(), AllocError>
    ensures { OnOk result (line.new.items ≡ line.old.items ++ 32 ∷ key_word key) }
{
    line.push(b' ')?;
    push_key(line, key)
}

/// Names of keys, each after a space.
pub fn push_keys(line: &mut Vec<u8>, keys: &[KeyId]) -> Result<(), AllocError>
    ensures { OnOk result (line.new.items ≡ line.old.items ++ spaced (map key_word keys.now)) }
{
    for key in keys {
        push_key_word(line, *key)?;
    }
    Ok(())
}

/// Keys with operations, each after a space.
pub fn push_pairs(line: &mut Vec<u8>, pairs: &[(KeyId, Ops)]) -> Result<(), AllocError>
    ensures { OnOk result (line.new.items ≡ line.old.items ++ spaced (map pair_word pairs.now)) }
{
    for pair in pairs {
        push_pair(line, *pair)?;
    }
    Ok(())
}

fn push_pair(line: &mut Vec<u8>, pair: (KeyId, Ops)) -> Result<(), AllocError>
    ensures { OnOk result (line.new.items ≡ line.old.items ++ 32 ∷ pair_word pair) }
{
    push_key_word(line, pair.0)?;
    line.push(b':')?;
    push_number(line, u64::from(pair.1.bits()))
}

/// Bytes, each as two hexadecimal digits; a dash where there are none.
pub fn push_hex(line: &mut Vec<u8>, bytes: &[u8]) -> Result<(), AllocError>
    ensures { OnOk result (line.new.items ≡ line.old.items ++ bytes_word bytes.now) }
{
    if bytes.is_empty() {
        push_bytes(line, b"-")
    } else {
        push_digits(line, bytes)
    }
}

fn push_digits(line: &mut Vec<u8>, bytes: &[u8]) -> Result<(), AllocError>
    ensures { OnOk result (line.new.items ≡ line.old.items ++ hex_digits bytes.now) }
{
    for byte in bytes {
        push_byte(line, *byte)?;
    }
    Ok(())
}

fn push_byte(line: &mut Vec<u8>, byte: u8) -> Result<(), AllocError>
    ensures { OnOk result (line.new.items ≡ line.old.items ++ hex_digit (byte / 16) ∷ hex_digit (byte % 16) ∷ []) }
{
    line.push(digit(byte / 16))?;
    line.push(digit(byte % 16))?;
    Ok(())
}

fn digit(value: u8) -> u8
    requires { value < 16 }
    ensures { result ≡ hex_digit value }
{
    if value < 10 {
        b'0' + value
    } else {
        b'a' - 10 + value
    }
}

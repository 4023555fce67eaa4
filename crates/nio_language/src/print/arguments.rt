//! Writing the arguments of calls, each after a space: one function for each shape that has more than
//! one argument, or more than one form.
ghost use Rattle.std.specs.Prelude.{◌≡◌, ◌++◌, OnOk};
ghost use Rattle.nio_language.specs.Arguments.{argument_words, attachment_words, channel_bytes, channel_count};
ghost use Rattle.nio_language.specs.Arguments.{channel_mode, channel_selector, elapsed_words, key_number, key_ops};
ghost use Rattle.nio_language.specs.Arguments.{mode_word, one_kind, registration, selector_key, selector_told};
ghost use Rattle.nio_language.specs.Arguments.{selector_wait, waiting_words};
ghost use Rattle.nio_language.specs.Printing.{spaced};
ghost use Rattle.nio_language.specs.Words.{kind_word};

use super::piece::{
    push_channel_word, push_hex, push_key_word, push_name, push_number_word, push_ops, push_pairs,
    push_time, push_word,
};
use crate::call::Waiting;
use nio_base::{ChanId, KeyId, Kind, Ops, SelNo};
use std::alloc::AllocError;

/// A kind of channel.
pub fn push_kind(line: &mut Vec<u8>, kind: Kind) -> Result<(), AllocError>
    ensures { OnOk result (line.new.items ≡ line.old.items ++ spaced (argument_words (one_kind kind))) }
{
    push_word(line, kind_text(kind))
}

/// A channel, and `on` or `off`.
pub fn push_mode(line: &mut Vec<u8>, channel: ChanId, on: bool) -> Result<(), AllocError>
    ensures { OnOk result (line.new.items ≡ line.old.items ++ spaced (argument_words (channel_mode channel on))) }
{
    push_channel_word(line, channel)?;
    push_word(line, mode_text(on))
}

/// A channel and a selector.
pub fn push_channel_selector(
    line: &mut Vec<u8>,
    channel: ChanId,
    selector: SelNo,
) -> Result<(), AllocError>
    ensures { OnOk result
        (line.new.items ≡ line.old.items ++ spaced (argument_words (channel_selector channel selector))) }
{
    push_channel_word(line, channel)?;
    push_name(line, b's', selector.0)
}

/// A channel and bytes in hexadecimal digits.
pub fn push_channel_bytes(
    line: &mut Vec<u8>,
    channel: ChanId,
    bytes: &[u8],
) -> Result<(), AllocError>
    ensures { OnOk result
        (line.new.items ≡ line.old.items ++ spaced (argument_words (channel_bytes channel bytes.now))) }
{
    push_channel_word(line, channel)?;
    line.push(b' ')?;
    push_hex(line, bytes)
}

/// A channel and a number of bytes.
pub fn push_channel_count(line: &mut Vec<u8>, channel: ChanId, count: u32) -> Result<(), AllocError>
    ensures { OnOk result
        (line.new.items ≡ line.old.items ++ spaced (argument_words (channel_count channel count))) }
{
    push_channel_word(line, channel)?;
    push_number_word(line, u64::from(count))
}

/// A selector, a channel, operations and, where there is one, an attachment.
pub fn push_registration(
    line: &mut Vec<u8>,
    selector: SelNo,
    channel: ChanId,
    ops: Ops,
    attachment: Option<u64>,
) -> Result<(), AllocError>
    ensures { OnOk result
        (line.new.items ≡ line.old.items ++ spaced (argument_words (registration selector channel ops attachment))) }
{
    push_name(line, b's', selector.0)?;
    push_channel_word(line, channel)?;
    push_ops(line, ops)?;
    push_attachment(line, attachment)
}

fn push_attachment(line: &mut Vec<u8>, attachment: Option<u64>) -> Result<(), AllocError>
    ensures { OnOk result (line.new.items ≡ line.old.items ++ spaced (attachment_words attachment)) }
{
    match attachment {
        Some(attachment) => push_number_word(line, attachment),
        None => Ok(()),
    }
}

/// A selector and a key.
pub fn push_selector_key(line: &mut Vec<u8>, selector: SelNo, key: KeyId) -> Result<(), AllocError>
    ensures { OnOk result
        (line.new.items ≡ line.old.items ++ spaced (argument_words (selector_key selector key))) }
{
    push_name(line, b's', selector.0)?;
    push_key_word(line, key)
}

/// A selector, a key and operations.
pub fn push_key_ops(
    line: &mut Vec<u8>,
    selector: SelNo,
    key: KeyId,
    ops: Ops,
) -> Result<(), AllocError>
    ensures { OnOk result
        (line.new.items ≡ line.old.items ++ spaced (argument_words (key_ops selector key ops))) }
{
    push_name(line, b's', selector.0)?;
    push_key_word(line, key)?;
    push_ops(line, ops)
}

/// A selector, a key and an attachment.
pub fn push_key_number(
    line: &mut Vec<u8>,
    selector: SelNo,
    key: KeyId,
    number: u64,
) -> Result<(), AllocError>
    ensures { OnOk result
        (line.new.items ≡ line.old.items ++ spaced (argument_words (key_number selector key number))) }
{
    push_name(line, b's', selector.0)?;
    push_key_word(line, key)?;
    push_number_word(line, number)
}

/// A selector, and how long a selection waits there.
pub fn push_wait(line: &mut Vec<u8>, selector: SelNo, waiting: Waiting) -> Result<(), AllocError>
    ensures { OnOk result (line.new.items ≡ line.old.items
        ++ spaced (argument_words (selector_wait selector waiting))) }
{
    push_name(line, b's', selector.0)?;
    push_waiting(line, waiting)
}

fn push_waiting(line: &mut Vec<u8>, waiting: Waiting) -> Result<(), AllocError>
    ensures { OnOk result (line.new.items ≡ line.old.items ++ spaced (waiting_words waiting)) }
{
    match waiting {
        Waiting::Now => push_word(line, b"now"),
        Waiting::Wait => push_word(line, b"wait"),
        Waiting::For(time) => {
            push_word(line, b"for")?;
            push_time(line, time)
        }
    }
}

/// A selector, and what its poller told.
pub fn push_told(
    line: &mut Vec<u8>,
    selector: SelNo,
    elapsed: bool,
    pairs: &[(KeyId, Ops)],
) -> Result<(), AllocError>
    ensures { OnOk result
        (line.new.items ≡ line.old.items ++ spaced (argument_words (selector_told selector elapsed pairs.now))) }
{
    push_name(line, b's', selector.0)?;
    push_elapsed(line, elapsed)?;
    push_pairs(line, pairs)
}

fn push_elapsed(line: &mut Vec<u8>, elapsed: bool) -> Result<(), AllocError>
    ensures { OnOk result (line.new.items ≡ line.old.items ++ spaced (elapsed_words elapsed)) }
{
    if elapsed {
        push_word(line, b"elapsed")
    } else {
        Ok(())
    }
}

fn kind_text(kind: Kind) -> &'static [u8]
    ensures { result.now ≡ kind_word kind }
{
    match kind {
        Kind::Stream => b"stream",
        Kind::Listener => b"listener",
        Kind::Source => b"source",
        Kind::Sink => b"sink",
        Kind::Datagram => b"datagram",
    }
}

fn mode_text(on: bool) -> &'static [u8]
    ensures { result.now ≡ mode_word on }
{
    if on { b"on" } else { b"off" }
}

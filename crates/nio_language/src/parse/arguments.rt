//! The arguments of calls: one reader for each shape that the arguments of a call may have.
ghost use Rattle.std.specs.Prelude.{map, ⊤};
ghost use Rattle.nio_language.specs.Arguments.{IsAttachment, ReadsArguments, attachment_words, channel_count};
ghost use Rattle.nio_language.specs.Arguments.{channel_mode, channel_selector, key_number, key_ops, mode_word, nothing};
ghost use Rattle.nio_language.specs.Arguments.{one_caller, one_channel, one_kind, one_selector, registration};
ghost use Rattle.nio_language.specs.Arguments.{selector_key};
ghost use Rattle.nio_language.specs.Reading.{Reads};
ghost use Rattle.nio_language.specs.Words.{kind_word};

use super::name::{read_caller, read_channel, read_key, read_ops, read_selector};
use super::number::read_number;
use nio_base::{CallerNo, ChanId, KeyId, Kind, Ops, SelNo};

/// No arguments.
pub fn read_none(args: &[&[u8]]) -> Option<()>
    ensures { ReadsArguments (λ _. nothing) (map (λ w. w.now) args.now) result }
{
    args.is_empty().then_some(())
}

/// One caller.
pub fn read_one_caller(args: &[&[u8]]) -> Option<CallerNo>
    ensures { ReadsArguments one_caller (map (λ w. w.now) args.now) result }
{
    let [caller] = args else {
        return None;
    };
    read_caller(caller)
}

/// One selector.
pub fn read_one_selector(args: &[&[u8]]) -> Option<SelNo>
    ensures { ReadsArguments one_selector (map (λ w. w.now) args.now) result }
{
    let [selector] = args else {
        return None;
    };
    read_selector(selector)
}

/// One channel.
pub fn read_one_channel(args: &[&[u8]]) -> Option<ChanId>
    ensures { ReadsArguments one_channel (map (λ w. w.now) args.now) result }
{
    let [channel] = args else {
        return None;
    };
    read_channel(channel)
}

/// A kind of channel.
pub fn read_kind(args: &[&[u8]]) -> Option<Kind>
    ensures { ReadsArguments one_kind (map (λ w. w.now) args.now) result }
{
    let [kind] = args else {
        return None;
    };
    read_kind_word(kind)
}

fn read_kind_word(word: &[u8]) -> Option<Kind>
    ensures { Reads (λ _. ⊤) kind_word word.now result }
{
    match word {
        b"stream" => Some(Kind::Stream),
        b"listener" => Some(Kind::Listener),
        b"source" => Some(Kind::Source),
        b"sink" => Some(Kind::Sink),
        b"datagram" => Some(Kind::Datagram),
        _ => None,
    }
}

/// A channel, and `on` or `off`.
pub fn read_mode(args: &[&[u8]]) -> Option<(ChanId, bool)>
    ensures { ReadsArguments (λ p. channel_mode p.0 p.1) (map (λ w. w.now) args.now) result }
{
    let [channel, mode] = args else {
        return None;
    };
    let channel = read_channel(channel)?;
    let on = read_mode_word(mode)?;
    Some((channel, on))
}

fn read_mode_word(word: &[u8]) -> Option<bool>
    ensures { Reads (λ _. ⊤) mode_word word.now result }
{
    match word {
        b"on" => Some(true),
        b"off" => Some(false),
        _ => None,
    }
}

/// A channel and a selector.
pub fn read_channel_selector(args: &[&[u8]]) -> Option<(ChanId, SelNo)>
    ensures { ReadsArguments (λ p. channel_selector p.0 p.1) (map (λ w. w.now) args.now) result }
{
    let [channel, selector] = args else {
        return None;
    };
    let channel = read_channel(channel)?;
    let selector = read_selector(selector)?;
    Some((channel, selector))
}

/// A channel, and how many bytes to read at most.
pub fn read_channel_count(args: &[&[u8]]) -> Option<(ChanId, u32)>
    ensures { ReadsArguments (λ p. channel_count p.0 p.1) (map (λ w. w.now) args.now) result }
{
    let [channel, count] = args else {
        return None;
    };
    let channel = read_channel(channel)?;
    let count = read_number(count, COUNT_LIMIT)?;
    Some((channel, count as u32))
}

/// The most bytes that a line can ask for.
const COUNT_LIMIT: u64 = 2048;

/// A selector, a channel, operations, and an attachment or none.
pub fn read_registration(args: &[&[u8]]) -> Option<(SelNo, ChanId, Ops, Option<u64>)>
    ensures { ReadsArguments (λ p. registration p.0 p.1 p.2 p.3) (map (λ w. w.now) args.now) result }
{
    let [selector, channel, ops, attachment @ ..] = args else {
        return None;
    };
    let selector = read_selector(selector)?;
    let channel = read_channel(channel)?;
    let ops = read_ops(ops)?;
    let attachment = read_attachment(attachment)?;
    Some((selector, channel, ops, attachment))
}

fn read_attachment(args: &[&[u8]]) -> Option<Option<u64>>
    ensures { Reads IsAttachment attachment_words (map (λ w. w.now) args.now) result }
{
    match args {
        [] => Some(None),
        [attachment] => read_number(attachment, u64::MAX).map(Some),
        _ => None,
    }
}

/// A selector and a key.
pub fn read_selector_key(args: &[&[u8]]) -> Option<(SelNo, KeyId)>
    ensures { ReadsArguments (λ p. selector_key p.0 p.1) (map (λ w. w.now) args.now) result }
{
    let [selector, key] = args else {
        return None;
    };
    let selector = read_selector(selector)?;
    let key = read_key(key)?;
    Some((selector, key))
}

/// A selector, a key and operations.
pub fn read_key_ops(args: &[&[u8]]) -> Option<(SelNo, KeyId, Ops)>
    ensures { ReadsArguments (λ p. key_ops p.0 p.1 p.2) (map (λ w. w.now) args.now) result }
{
    let [selector, key, ops] = args else {
        return None;
    };
    let selector = read_selector(selector)?;
    let key = read_key(key)?;
    let ops = read_ops(ops)?;
    Some((selector, key, ops))
}

/// A selector, a key and a number.
pub fn read_key_number(args: &[&[u8]]) -> Option<(SelNo, KeyId, u64)>
    ensures { ReadsArguments (λ p. key_number p.0 p.1 p.2) (map (λ w. w.now) args.now) result }
{
    let [selector, key, number] = args else {
        return None;
    };
    let selector = read_selector(selector)?;
    let key = read_key(key)?;
    let number = read_number(number, u64::MAX)?;
    Some((selector, key, number))
}

//! Writing a reply.
ghost use Rattle.std.specs.Prelude.{◌≡◌, ◌++◌, OnOk, map};
ghost use Rattle.std.specs.List.{join_with_byte};
ghost use Rattle.nio_language.specs.Printing.{spaced};
ghost use Rattle.nio_language.specs.Replies.{pairs_words, reply_text, why_word};
ghost use Rattle.nio_language.specs.Words.{key_word};

use super::group::push_group_reply;
use super::piece::{
    push_bytes, push_channel, push_channel_word, push_hex, push_key, push_keys, push_number,
    push_numbered, push_pairs, push_word,
};
use crate::reply::Reply;
use nio_base::{KeyId, Ops};
use nio_history::Why;
use std::alloc::AllocError;

/// The text of a reply.
pub fn push_reply(line: &mut Vec<u8>, reply: &Reply) -> Result<(), AllocError>
    ensures { OnOk result (line.new.items ≡ line.old.items ++ reply_text reply.now) }
{
    match reply {
        Reply::Selector(selector) => push_numbered(line, b's', selector.0),
        Reply::Channel(channel) => push_channel(line, *channel),
        Reply::Key(key) => push_key(line, *key),
        Reply::Number(number) => push_number(line, *number),
        Reply::Names(names) => push_names(line, names.as_slice()),
        Reply::Ok => push_bytes(line, b"ok"),
        Reply::Yes => push_bytes(line, b"yes"),
        Reply::No => push_bytes(line, b"no"),
        Reply::None => push_bytes(line, b"none"),
        Reply::Looked(pairs) => {
            push_bytes(line, b"looked")?;
            push_pairs_or_none(line, pairs.as_slice())
        }
        Reply::Selected(count, why) => {
            push_bytes(line, b"selected ")?;
            push_number(line, u64::from(*count))?;
            push_word(line, why_text(*why))
        }
        Reply::Again => push_bytes(line, b"again"),
        Reply::Left => push_bytes(line, b"left"),
        Reply::Already => push_bytes(line, b"already"),
        Reply::Closing => push_bytes(line, b"closing"),
        Reply::Closed => push_bytes(line, b"closed"),
        Reply::SelectorsSpent => push_bytes(line, b"selectors-spent"),
        Reply::ChannelsSpent => push_bytes(line, b"channels-spent"),
        Reply::ClosedChannel => push_bytes(line, b"closed-channel"),
        Reply::IllegalBlockingMode => push_bytes(line, b"illegal-blocking-mode"),
        Reply::IllegalOps => push_bytes(line, b"illegal-ops"),
        Reply::CancelledKey => push_bytes(line, b"cancelled-key"),
        Reply::ClosedSelector => push_bytes(line, b"closed-selector"),
        Reply::Full => push_bytes(line, b"full"),
        Reply::Busy => push_bytes(line, b"busy"),
        Reply::NegativeTimeout => push_bytes(line, b"negative-timeout"),
        Reply::NotSelecting => push_bytes(line, b"not-selecting"),
        Reply::NotClosing => push_bytes(line, b"not-closing"),
        Reply::NoCaller => push_bytes(line, b"no-caller"),
        Reply::NoSelector => push_bytes(line, b"no-selector"),
        Reply::NoChannel => push_bytes(line, b"no-channel"),
        Reply::NoKey => push_bytes(line, b"no-key"),
        Reply::Ends(source, sink) => {
            push_channel(line, *source)?;
            push_channel_word(line, *sink)
        }
        Reply::Bytes(bytes) => push_hex(line, bytes.as_slice()),
        Reply::End => push_bytes(line, b"end"),
        Reply::NotOwner => push_bytes(line, b"not-owner"),
        Reply::ClosedByInterrupt => push_bytes(line, b"closed-by-interrupt"),
        Reply::AsyncClose => push_bytes(line, b"async-close"),
        Reply::BrokenPipe => push_bytes(line, b"broken-pipe"),
        Reply::Group(reply) => push_group_reply(line, *reply),
    }
}

/// Names of keys, with a space between each two.
fn push_names(line: &mut Vec<u8>, keys: &[KeyId]) -> Result<(), AllocError>
    ensures { OnOk result
        (line.new.items ≡ line.old.items ++ join_with_byte 32 (map key_word keys.now)) }
{
    match keys.split_first() {
        None => Ok(()),
        Some((first, others)) => {
            push_key(line, *first)?;
            push_keys(line, others)
        }
    }
}

/// Keys with operations, or `none`, each after a space.
fn push_pairs_or_none(line: &mut Vec<u8>, pairs: &[(KeyId, Ops)]) -> Result<(), AllocError>
    ensures { OnOk result (line.new.items ≡ line.old.items ++ spaced (pairs_words pairs.now)) }
{
    if pairs.is_empty() {
        push_word(line, b"none")
    } else {
        push_pairs(line, pairs)
    }
}

fn why_text(why: Why) -> &'static [u8]
    ensures { result.now ≡ why_word why }
{
    match why {
        Why::Ready => b"ready",
        Why::Closed => b"closed",
        Why::Now => b"now",
        Why::Woken => b"woken",
        Why::Interrupted => b"interrupted",
        Why::Elapsed => b"elapsed",
    }
}

//! Writing the lines of a timed script's history.
ghost use Rattle.std.specs.Prelude.{◌≡◌, ◌∷◌, ◌++◌, codes, IfOk, OnOk};
ghost use Rattle.std.specs.Fmt.{decimal};
ghost use Rattle.std.specs.List.{join_with_byte};
ghost use Rattle.nio_language.specs.GroupWords.{group_channel_word, operation_kind_word};
ghost use Rattle.nio_language.specs.Words.{serial_text};
ghost use Rattle.nio_timed.specs.Lines.{start_words, timed_line_text};
ghost use Rattle.nio_timed.specs.Replies.{timed_history_line, timed_reply_text};
ghost use Rattle.nio_timed.specs.declared.call.TimedCall.TheVariants.{Group, StartTimed};

use crate::call::{TimedCall, TimedLine, TimedStart};
use crate::reply::TimedReply;
use itoa::Buffer;
use nio_base::{CallerNo, GChan, OpKind, OpNo};
use nio_language::{Call, GroupCall, Reply, print_line, print_reply};
use std::alloc::{AllocError, Global};

/// Most lines of a history have fewer bytes.
const USUAL_LENGTH: usize = 64;

/// The line of a history for call number `number`, with its newline.
pub(crate) fn print_timed_line(
    alloc: Global,
    number: u64,
    line: &TimedLine,
    reply: &TimedReply,
) -> Result<Vec<u8>, AllocError>
    ensures { IfOk result (λ bytes. bytes.items ≡ timed_history_line number line.now reply.now) }
{
    let mut text = Vec::with_capacity(alloc, USUAL_LENGTH)?;
    push_number(&mut text, number)?;
    text.push(b' ')?;
    push_line(alloc, &mut text, line)?;
    text.extend_from_slice(b" -> ")?;
    push_reply(alloc, &mut text, reply)?;
    text.push(b'\n')?;
    Ok(text)
}

fn push_line(alloc: Global, text: &mut Vec<u8>, line: &TimedLine) -> Result<(), AllocError>
    ensures { OnOk result (text.new.items ≡ text.old.items ++ timed_line_text line.now) }
{
    match &line.call {
        TimedCall::Group(call) => push_group_line(alloc, text, line.caller, *call),
        TimedCall::StartTimed(start) => push_start_line(text, line.caller, *start),
        TimedCall::Expire(now) => {
            push_caller(text, line.caller)?;
            text.extend_from_slice(b" expire ")?;
            push_number(text, *now)
        }
        TimedCall::Next => {
            push_caller(text, line.caller)?;
            text.extend_from_slice(b" next")
        }
    }
}

// What stands before the line in a history of one call, and behind it where the reply is `ok`.
const BEFORE: usize = 2;

const BEHIND: usize = 7;

// A line that scripts have too.
fn push_group_line(
    alloc: Global,
    text: &mut Vec<u8>,
    caller: CallerNo,
    call: GroupCall,
) -> Result<(), AllocError>
    ensures { OnOk result
        (text.new.items ≡ text.old.items ++ timed_line_text (record { caller = caller; call = Group call })) }
{
    let history = print_line(alloc, 1, caller, &Call::Group(call), &Reply::Ok)?;
    text.extend_from_slice(&history[BEFORE..history.len() - BEHIND])
}

fn push_start_line(
    text: &mut Vec<u8>,
    caller: CallerNo,
    start: TimedStart,
) -> Result<(), AllocError>
    ensures { OnOk result
        (text.new.items ≡ text.old.items ++ timed_line_text (record { caller = caller; call = StartTimed start })) }
{
    push_caller(text, caller)?;
    text.extend_from_slice(b" start-timed ")?;
    push_start(text, start)
}

fn push_start(text: &mut Vec<u8>, start: TimedStart) -> Result<(), AllocError>
    ensures { OnOk result (text.new.items ≡ text.old.items ++ join_with_byte 32 (start_words start)) }
{
    push_operation(text, start)?;
    push_times(text, start.now, start.limit)
}

fn push_channel(text: &mut Vec<u8>, chan: GChan) -> Result<(), AllocError>
    ensures { OnOk result (text.new.items ≡ text.old.items ++ group_channel_word chan) }
{
    text.push(b'g')?;
    push_number(text, u64::from(chan.number))?;
    push_serial(text, chan.serial)
}

// A point and a serial; nothing where it is 0.
fn push_serial(text: &mut Vec<u8>, serial: u32) -> Result<(), AllocError>
    ensures { OnOk result (text.new.items ≡ text.old.items ++ serial_text serial) }
{
    if serial == 0 {
        return Ok(());
    }
    text.push(b'.')?;
    push_number(text, u64::from(serial))
}

// The channel, the kind and the length.
fn push_operation(text: &mut Vec<u8>, start: TimedStart) -> Result<(), AllocError>
    ensures { OnOk result (text.new.items ≡ text.old.items
        ++ group_channel_word start.chan ++ 32 ∷ operation_kind_word start.kind ++ 32 ∷ decimal start.len) }
{
    push_channel(text, start.chan)?;
    text.push(b' ')?;
    push_kind(text, start.kind)?;
    text.push(b' ')?;
    push_number(text, start.len)
}

// The moment and the limit, each behind a space.
fn push_times(text: &mut Vec<u8>, now: u64, limit: u64) -> Result<(), AllocError>
    ensures { OnOk result (text.new.items ≡ text.old.items ++ 32 ∷ decimal now ++ 32 ∷ decimal limit) }
{
    text.push(b' ')?;
    push_number(text, now)?;
    text.push(b' ')?;
    push_number(text, limit)
}

fn push_caller(text: &mut Vec<u8>, caller: CallerNo) -> Result<(), AllocError>
    ensures { OnOk result (text.new.items ≡ text.old.items ++ 116 ∷ decimal caller.0) }
{
    text.push(b't')?;
    push_number(text, u64::from(caller.0))
}

fn push_kind(text: &mut Vec<u8>, kind: OpKind) -> Result<(), AllocError>
    ensures { OnOk result (text.new.items ≡ text.old.items ++ operation_kind_word kind) }
{
    match kind {
        OpKind::Accept => text.extend_from_slice(b"accept"),
        OpKind::Connect => text.extend_from_slice(b"connect"),
        OpKind::Read => text.extend_from_slice(b"read"),
        OpKind::Write => text.extend_from_slice(b"write"),
    }
}

fn push_reply(alloc: Global, text: &mut Vec<u8>, reply: &TimedReply) -> Result<(), AllocError>
    ensures { OnOk result (text.new.items ≡ text.old.items ++ timed_reply_text reply.now) }
{
    match reply {
        TimedReply::Script(reply) => text.extend_from_slice(&print_reply(alloc, reply)?),
        TimedReply::NoLimitHere => text.extend_from_slice(b"no-limit-here"),
        TimedReply::LimitTooLong => text.extend_from_slice(b"limit-too-long"),
        TimedReply::TimedOut => text.extend_from_slice(b"timed-out"),
        TimedReply::Timeout(op) => push_timeout(text, *op),
    }
}

fn push_timeout(text: &mut Vec<u8>, op: OpNo) -> Result<(), AllocError>
    ensures { OnOk result (text.new.items ≡ text.old.items ++ codes "op " ++ decimal op.0 ++ codes " timeout") }
{
    text.extend_from_slice(b"op ")?;
    push_number(text, op.0)?;
    text.extend_from_slice(b" timeout")
}

fn push_number(text: &mut Vec<u8>, number: u64) -> Result<(), AllocError>
    ensures { OnOk result (text.new.items ≡ text.old.items ++ decimal number) }
{
    text.extend_from_slice(Buffer::new().format(number).as_bytes())
}

//! The reply of a line to what its call answers.
ghost use Rattle.std.specs.Prelude.{◌≡◌, ◌==◌, if◌then◌else◌, take};
ghost use Rattle.nio_serial.specs.Replies.{key_refusal, channel_refusal, set_reply, put_reply, find_reply};
ghost use Rattle.nio_serial.specs.Replies.{channel_reply, mode_reply, register_reply, closed_reply, pipe_refusal};
ghost use Rattle.nio_serial.specs.Replies.{selector_reply};
ghost use Rattle.nio_sole.specs.PipeReplies.{read_reply, read_says, write_reply, write_says};

use nio_base::{ChanId, KeyId, KeyNo, Ops, SelNo};
use nio_language::{Bytes, Reply};
use nio_pipe::{PipeError, PipeRead, PipeWrite};
use nio_plain::replies::not_now;
use nio_steps::{ChannelError, KeyError, SelectorsSpent};

fn key_refusal(refusal: KeyError) -> Reply
    ensures { result ≡ key_refusal refusal }
{
    match refusal {
        KeyError::CancelledKey => Reply::CancelledKey,
        KeyError::IllegalOps => Reply::IllegalOps,
    }
}

fn channel_refusal(refusal: ChannelError) -> Reply
    ensures { result ≡ channel_refusal refusal }
{
    match refusal {
        ChannelError::ChannelsSpent => Reply::ChannelsSpent,
        ChannelError::IllegalOps => Reply::IllegalOps,
        ChannelError::ClosedChannel => Reply::ClosedChannel,
        ChannelError::Busy => Reply::Busy,
        ChannelError::IllegalBlockingMode => Reply::IllegalBlockingMode,
        ChannelError::CancelledKey => Reply::CancelledKey,
        ChannelError::ClosedSelector => Reply::ClosedSelector,
        ChannelError::Full => Reply::Full,
    }
}

pub(crate) fn set_reply(answer: Result<Ops, KeyError>) -> Reply
    ensures { result ≡ set_reply answer }
{
    match answer {
        Ok(ops) => Reply::Number(u64::from(ops.bits())),
        Err(refusal) => key_refusal(refusal),
    }
}

pub(crate) fn put_reply(answer: Result<(), KeyError>) -> Reply
    ensures { result ≡ put_reply answer }
{
    match answer {
        Ok(()) => Reply::Ok,
        Err(refusal) => key_refusal(refusal),
    }
}

pub(crate) fn find_reply(answer: Option<KeyNo>) -> Reply
    ensures { result ≡ find_reply answer }
{
    match answer {
        None => Reply::None,
        Some(key) => Reply::Key(KeyId {
            index: key.index,
            serial: key.serial,
        }),
    }
}

pub(crate) fn channel_reply(answer: Result<ChanId, ChannelError>) -> Reply
    ensures { result ≡ channel_reply answer }
{
    match answer {
        Ok(chan) => Reply::Channel(chan),
        Err(refusal) => channel_refusal(refusal),
    }
}

pub(crate) fn mode_reply(answer: Result<(), ChannelError>) -> Reply
    ensures { result ≡ mode_reply answer }
{
    match answer {
        Ok(()) => Reply::Ok,
        Err(refusal) => channel_refusal(refusal),
    }
}

pub(crate) fn register_reply(answer: Result<KeyNo, ChannelError>) -> Reply
    ensures { result ≡ register_reply answer }
{
    match answer {
        Ok(key) => Reply::Key(KeyId {
            index: key.index,
            serial: key.serial,
        }),
        Err(refusal) => channel_refusal(refusal),
    }
}

/// Whether the call closed the channel.
pub fn closed_reply(answer: bool) -> Reply
    ensures { result ≡ closed_reply answer }
{
    if answer { Reply::Ok } else { Reply::Already }
}

pub(crate) fn selector_reply(answer: Result<SelNo, SelectorsSpent>) -> Reply
    ensures { result ≡ selector_reply answer }
{
    match answer {
        Ok(sel) => Reply::Selector(sel),
        Err(_) => Reply::SelectorsSpent,
    }
}

/// What a read answers, which left these bytes in its slice.
pub fn read_reply(answer: Result<(PipeRead, bool), PipeError>, bytes: Vec<u8>) -> Reply
    ensures { result ≡ read_reply answer bytes.items }
{
    match answer {
        Ok((read, blocking)) => read_says(read, bytes, blocking),
        Err(refusal) => pipe_refusal(refusal),
    }
}

fn read_says(read: PipeRead, bytes: Vec<u8>, blocking: bool) -> Reply
    ensures { result ≡ read_says read bytes.items blocking }
{
    match read {
        PipeRead::Bytes(count) => bytes_reply(count, bytes),
        PipeRead::End => Reply::End,
        PipeRead::NotYet => not_now(blocking),
    }
}

// The first so many bytes.
fn bytes_reply(count: usize, mut bytes: Vec<u8>) -> Reply
    ensures { result ≡ (if count == 0 then Reply.Number 0 else Reply.Bytes (take count bytes.items)) }
{
    if count == 0 {
        return Reply::Number(0);
    }
    bytes.truncate(count);
    Reply::Bytes(Bytes::from_vec(bytes))
}

/// What a write answers.
pub fn write_reply(answer: Result<(PipeWrite, bool), PipeError>) -> Reply
    ensures { result ≡ write_reply answer }
{
    match answer {
        Ok((write, blocking)) => write_says(write, blocking),
        Err(refusal) => pipe_refusal(refusal),
    }
}

fn write_says(write: PipeWrite, blocking: bool) -> Reply
    ensures { result ≡ write_says write blocking }
{
    match write {
        PipeWrite::Bytes(count) => Reply::Number(count as u64),
        PipeWrite::NotYet => not_now(blocking),
    }
}

fn pipe_refusal(refusal: PipeError) -> Reply
    ensures { result ≡ pipe_refusal refusal }
{
    match refusal {
        PipeError::ClosedChannel => Reply::ClosedChannel,
        PipeError::ClosedByInterrupt => Reply::ClosedByInterrupt,
        PipeError::AsynchronousClose => Reply::AsyncClose,
        PipeError::BrokenPipe => Reply::BrokenPipe,
    }
}

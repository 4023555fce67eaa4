//! The calls of lines on pipes, and the seal that a close of an own sink leaves.
ghost use Rattle.std.specs.Prelude.{◌≡◌, ◌==◌, ◌&&◌, position};
ghost use Rattle.nio_plain.specs.Seq.Pipes.{is_same_id};
ghost use Rattle.nio_sole.specs.Makes.{MayMake, MakesCall};

use crate::desk::{Desk, OwnedPipe};
use crate::replies::{closed_reply, read_reply, write_reply};
use nio_base::{CallerNo, ChanId};
use nio_language::{Bytes, Call, Reply};
use nio_pipe::{CAPACITY, PipeMakeError, held_pipe};
use nio_words::Words;
use std::alloc::{AllocError, Global};

// Makes a pipe whose source the caller owns, and whose sink the target. Room for it is taken before it is made.
pub(crate) fn pipe(
    alloc: Global,
    w: &Words,
    d: &mut Desk,
    me: CallerNo,
    target: CallerNo,
) -> Result<Reply, AllocError>
    requires { MayMake w.now d.old me (Call.Pipe target) }
    ensures { MakesCall (λ plan. plan) w.now d.old d.new me (Call.Pipe target) result }
{
    match d.pipes.reserve(1) {
        Err(error) => Err(error),
        Ok(()) => match held_pipe(alloc, w, &mut d.pass, me) {
            Ok(pipe) => {
                let ends = Reply::Ends(pipe.source(), pipe.sink());
                d.pipes.push_reserved(OwnedPipe {
                    reader: me,
                    writer: target,
                    pipe,
                });
                Ok(ends)
            }
            Err(PipeMakeError::ChannelsSpent) => Ok(Reply::ChannelsSpent),
            Err(PipeMakeError::Memory) => Err(AllocError),
        },
    }
}

// Reads up to so many bytes from the caller's own pipe. The memory for them is taken before the channel is looked at.
pub(crate) fn pread(
    alloc: Global,
    w: &Words,
    d: &mut Desk,
    me: CallerNo,
    chan: ChanId,
    most: u32,
) -> Result<Reply, AllocError>
    requires { MayMake w.now d.old me (Call.Pread chan most) }
    ensures { MakesCall (λ plan. plan) w.now d.old d.new me (Call.Pread chan most) result }
{
    let Some(place) = source_place(&d.pipes, me, chan) else {
        return Ok(Reply::NotOwner);
    };
    match Vec::from_elem(alloc, 0u8, CAPACITY.min(most as usize)) {
        Err(error) => Err(error),
        Ok(mut bytes) => {
            let pipe = &mut d.pipes[place].pipe;
            pipe.law();
            let answer = pipe.try_read_in_mode(w, &mut d.pass, me, &mut bytes);
            Ok(read_reply(answer, bytes))
        }
    }
}

// Writes as many of the bytes as have room into the caller's own pipe.
pub(crate) fn pwrite(
    w: &Words,
    d: &mut Desk,
    me: CallerNo,
    chan: ChanId,
    bytes: &Bytes,
) -> Result<Reply, AllocError>
    requires { MayMake w.now d.old me (Call.Pwrite chan bytes.now) }
    ensures { MakesCall (λ plan. plan) w.now d.old d.new me (Call.Pwrite chan bytes.now) result }
{
    let Some(place) = sink_place(&d.pipes, me, chan) else {
        return Ok(Reply::NotOwner);
    };
    let pipe = &mut d.pipes[place].pipe;
    pipe.law();
    let answer = pipe.try_write_in_mode(w, &mut d.pass, me, bytes.as_slice());
    Ok(write_reply(answer))
}

// Closes the channel. The caller's own sink leaves its seal.
pub(crate) fn close_channel(
    w: &Words,
    d: &mut Desk,
    me: CallerNo,
    chan: ChanId,
) -> Result<Reply, AllocError>
    requires { MayMake w.now d.old me (Call.Closec chan) }
    ensures { MakesCall (λ plan. plan) w.now d.old d.new me (Call.Closec chan) result }
{
    match sink_place(&d.pipes, me, chan) {
        Some(place) => Ok(closed_reply(d.pipes[place].pipe.close_sink(w, &mut d.pass, me))),
        None => Ok(closed_reply(nio_channel::close_channel(w, &mut d.pass, me, chan))),
    }
}

// The place of the caller's own pipe with this source.
fn source_place(pipes: &[OwnedPipe], me: CallerNo, chan: ChanId) -> Option<usize>
    ensures { result ≡ position (λ x. is_same_id x.pipe.source chan && (x.reader.0 == me.0)) pipes.now }
{
    pipes
        .iter()
        .position(|owned| owned.pipe.source() == chan && owned.reader == me)
}

// The place of the caller's own pipe with this sink.
fn sink_place(pipes: &[OwnedPipe], me: CallerNo, chan: ChanId) -> Option<usize>
    ensures { result ≡ position (λ x. is_same_id x.pipe.sink chan && (x.writer.0 == me.0)) pipes.now }
{
    pipes
        .iter()
        .position(|owned| owned.pipe.sink() == chan && owned.writer == me)
}

//! Lines after `go` on the ends of pipes that the caller owns.
ghost use Rattle.std.specs.Prelude.{◌≡◌, IfOk, position};
ghost use mathlib.Core.List.{IsPrefix};
ghost use Rattle.nio_language.specs.declared.call.Call.TheVariants.{Closec, Pread, Pwrite};
ghost use Rattle.nio_pipe.specs.Ends.{sink_chan, source_chan};
ghost use Rattle.nio_plain.specs.Seq.Pipes.{is_same_id};
ghost use Rattle.nio_words.specs.Passes.{IsPassOf, seen};
ghost use Rattle.nio_race.specs.Racers.{CalledOn, StandsWith};

use crate::ends::OwnEnds;
use crate::line::script_line;
use nio_base::{CallerNo, ChanId};
use nio_keys::find_channel;
use nio_language::{Bytes, Call, Reply};
use nio_pipe::{CAPACITY, PipeSink, PipeSource};
use nio_sole::{Desk, closed_reply, read_reply, write_reply};
use nio_words::Words;
use std::alloc::{AllocError, Global};
use std::sync::Wait;

// Reads up to so many bytes from the caller's own source. In blocking mode it waits for a byte or the end. The memory
// is taken before the read.
pub(crate) fn read_line<R: Wait>(
    rt: &R,
    alloc: Global,
    w: &Words,
    d: &mut Desk,
    ends: &mut OwnEnds,
    me: CallerNo,
    chan: ChanId,
    most: u32,
) -> Result<Reply, AllocError>
    requires { StandsWith w.now d.old ends.old me }
    ensures line { IfOk result (CalledOn w.now d.old d.new ends.old ends.new me (Pread chan most)) }
    ensures stands { StandsWith w.now d.new ends.new me }
    ensures later { IsPrefix (seen d.old.pass) (seen d.new.pass) }
{
    if find_channel(w, &mut d.pass, me, chan.number.0, chan.serial).is_none() {
        return Ok(Reply::NoChannel);
    }
    let Some(place) = source_place(&ends.sources, chan) else {
        return Ok(Reply::NotOwner);
    };
    let mut bytes = Vec::from_elem(alloc, 0u8, CAPACITY.min(most as usize))?;
    let answer = ends.sources[place].read(rt, w, &mut d.pass, me, &mut bytes);
    // A read that waits finds nothing in non-blocking mode alone.
    Ok(read_reply(answer.map(|read| (read, false)), bytes))
}

// Writes as many of the bytes as have room into the caller's own sink. In blocking mode it waits for room.
pub(crate) fn write_line<R: Wait>(
    rt: &R,
    w: &Words,
    d: &mut Desk,
    ends: &mut OwnEnds,
    me: CallerNo,
    chan: ChanId,
    bytes: &Bytes,
) -> Reply
    requires { StandsWith w.now d.old ends.old me }
    ensures line { CalledOn w.now d.old d.new ends.old ends.new me (Pwrite chan bytes.now) result }
    ensures stands { StandsWith w.now d.new ends.new me }
    ensures later { IsPrefix (seen d.old.pass) (seen d.new.pass) }
{
    if find_channel(w, &mut d.pass, me, chan.number.0, chan.serial).is_none() {
        return Reply::NoChannel;
    }
    let Some(place) = sink_place(&ends.sinks, chan) else {
        return Reply::NotOwner;
    };
    let answer = ends.sinks[place].write(rt, w, &mut d.pass, me, bytes.as_slice());
    // A write that waits finds no room in non-blocking mode alone.
    write_reply(answer.map(|written| (written, false)))
}

// Closes a channel. The caller's own sink leaves its seal.
pub(crate) fn close_line<R: Wait>(
    rt: &R,
    alloc: Global,
    w: &Words,
    d: &mut Desk,
    ends: &mut OwnEnds,
    me: CallerNo,
    chan: ChanId,
) -> Result<Reply, AllocError>
    requires { StandsWith w.now d.old ends.old me }
    ensures line { IfOk result (CalledOn w.now d.old d.new ends.old ends.new me (Closec chan)) }
    ensures stands { IfOk result (λ _. StandsWith w.now d.new ends.new me) }
    ensures pass { IsPassOf w.now d.new.pass }
    ensures later { IsPrefix (seen d.old.pass) (seen d.new.pass) }
{
    let Some(place) = sink_place(&ends.sinks, chan) else {
        return script_line(rt, alloc, w, d, me, &Call::Closec(chan));
    };
    if find_channel(w, &mut d.pass, me, chan.number.0, chan.serial).is_none() {
        return Ok(Reply::NoChannel);
    }
    Ok(closed_reply(ends.sinks[place].close(w, &mut d.pass, me)))
}

fn source_place(sources: &[PipeSource], chan: ChanId) -> Option<usize>
    ensures { result ≡ position (λ source. is_same_id (source_chan source) chan) sources.now }
{
    sources.iter().position(|source| source.chan() == chan)
}

fn sink_place(sinks: &[PipeSink], chan: ChanId) -> Option<usize>
    ensures { result ≡ position (λ sink. is_same_id (sink_chan sink) chan) sinks.now }
{
    sinks.iter().position(|sink| sink.chan() == chan)
}

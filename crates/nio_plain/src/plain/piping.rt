//! Pipes: making, reading and writing them, and the seal.
ghost use Rattle.std.specs.Prelude.{◌≡◌, ◌<◌, ◌==◌, ◌&&◌, if◌then◌else◌, Some, position, vec_len};
ghost use Rattle.nio_history.specs.Sets.{is_open_channel};
ghost use Rattle.nio_plain.specs.Plain.{RepliesAs, Kept};
ghost use Rattle.nio_plain.specs.PlainState.{limits_of, rules_of, state_of};
ghost use Rattle.nio_plain.specs.Seq.Pipes.{is_same_id, own_sink, own_source, pipe_at, with_seal};
ghost use Rattle.nio_plain.specs.Seq.Piping.{not_now, pipe_call, pread_call, pwrite_call, read_first, room_for};
ghost use Rattle.nio_plain.specs.Seq.Piping.{write_first};

use super::Plain;
use super::channel::Channel;
use super::pipe::Pipe;
use crate::replies::not_now;
use nio_base::{CallerNo, ChanId, Kind};
use nio_language::{Bytes, Reply};
use std::alloc::{AllocError, Global};

/// The most bytes that wait in a pipe.
const PIPE_ROOM: usize = 65_536;

impl Plain {
    /// Makes a pipe whose source the caller owns, and whose sink the other.
    pub(super) fn pipe(
        &mut self,
        alloc: Global,
        me: CallerNo,
        target: CallerNo,
    ) -> Result<Reply, AllocError>
        ensures { RepliesAs self.old self.new result
            (pipe_call (rules_of self.old) (limits_of self.old) (state_of self.old) me target) }
    {
        if target.0 >= self.limits.callers {
            return Ok(Reply::NoCaller);
        }
        let Some(source) = self.next_channel(Kind::Source) else {
            return Ok(Reply::ChannelsSpent);
        };
        self.channels.reserve(2)?;
        self.pipes.reserve(1)?;
        self.put_channel(source, Kind::Source);
        let Some(sink) = self.next_channel(Kind::Sink) else {
            self.shut_channel(source.number);
            return Ok(Reply::ChannelsSpent);
        };
        self.put_channel(sink, Kind::Sink);
        self.pipes.push_reserved(Pipe {
            source,
            sink,
            reader: me,
            writer: target,
            waiting: Vec::new(alloc),
            sealed: false,
        });
        Ok(Reply::Ends(source, sink))
    }

    /// The place of the pipe whose source is this channel and the caller's own.
    fn own_source(&self, me: CallerNo, chan: ChanId) -> Option<usize>
        ensures { result ≡ own_source (state_of self.now).pipes me chan }
    {
        source_place(&self.pipes, me, chan)
    }

    /// The place of the pipe whose sink is this channel and the caller's own.
    fn own_sink(&self, me: CallerNo, chan: ChanId) -> Option<usize>
        ensures { result ≡ own_sink (state_of self.now).pipes me chan }
    {
        sink_place(&self.pipes, me, chan)
    }

    /// The caller's own sink leaves its seal, where the channel is one.
    pub(super) fn leave_seal(&mut self, me: CallerNo, chan: ChanId)
        ensures left { state_of self.new ≡ with_seal (own_sink (state_of self.old).pipes me chan) (state_of self.old) }
        ensures kept { Kept self.old self.new }
    {
        if let Some(place) = self.own_sink(me, chan) {
            self.seal(place);
        }
    }

    /// Reads up to so many bytes from a pipe by its source.
    pub(super) fn pread(
        &mut self,
        alloc: Global,
        me: CallerNo,
        chan: ChanId,
        most: u32,
    ) -> Result<Reply, AllocError>
        requires { me.0 < (limits_of self.old).callers }
        ensures { RepliesAs self.old self.new result (pread_call (state_of self.old) me chan most) }
    {
        let channel = match self.channel(chan) {
            Ok(channel) => channel,
            Err(refusal) => return Ok(refusal),
        };
        let Some(place) = self.own_source(me, chan) else {
            return Ok(Reply::NotOwner);
        };
        if !channel.is_open(chan.serial) {
            return Ok(Reply::ClosedChannel);
        }
        if self.finds_interrupt(me, channel.blocking) {
            self.shut_channel(chan.number);
            return Ok(Reply::ClosedByInterrupt);
        }
        if most == 0 {
            return Ok(Reply::Number(0));
        }
        self.read_from(alloc, channel, place, most)
    }

    /// Reads from the pipe at this place, whose source is open.
    fn read_from(
        &mut self,
        alloc: Global,
        channel: Channel,
        place: usize,
        most: u32,
    ) -> Result<Reply, AllocError>
        requires { place < vec_len self.old.pipes }
        ensures { let pipe = pipe_at (state_of self.old).pipes place in
            RepliesAs self.old self.new result
            (read_first (state_of self.old) channel.blocking most place pipe.waiting pipe.sealed) }
    {
        let pipe = &self.pipes[place];
        if pipe.waiting.is_empty() {
            return Ok(end_or_not_now(pipe.sealed, channel.blocking));
        }
        let bytes = self.pipes[place].take(alloc, most as usize)?;
        Ok(Reply::Bytes(Bytes::from_vec(bytes)))
    }

    /// Writes bytes into a pipe by its sink, as many as have room.
    pub(super) fn pwrite(
        &mut self,
        me: CallerNo,
        chan: ChanId,
        bytes: &[u8],
    ) -> Result<Reply, AllocError>
        requires { me.0 < (limits_of self.old).callers }
        ensures { RepliesAs self.old self.new result (pwrite_call (state_of self.old) me chan bytes.now) }
    {
        let channel = match self.channel(chan) {
            Ok(channel) => channel,
            Err(refusal) => return Ok(refusal),
        };
        let Some(place) = self.own_sink(me, chan) else {
            return Ok(Reply::NotOwner);
        };
        if !channel.is_open(chan.serial) {
            self.seal(place);
            return Ok(Reply::ClosedChannel);
        }
        if self.finds_interrupt(me, channel.blocking) {
            self.shut_channel(chan.number);
            self.seal(place);
            return Ok(Reply::ClosedByInterrupt);
        }
        let source = self.pipes[place].source;
        if !self.is_open(source) {
            return Ok(Reply::BrokenPipe);
        }
        if bytes.is_empty() {
            return Ok(Reply::Number(0));
        }
        self.write_to(channel, place, bytes)
    }

    /// Writes into the pipe at this place, whose ends are open.
    fn write_to(
        &mut self,
        channel: Channel,
        place: usize,
        bytes: &[u8],
    ) -> Result<Reply, AllocError>
        requires { place < vec_len self.old.pipes }
        ensures { let room = room_for bytes.now (pipe_at (state_of self.old).pipes place) in
            RepliesAs self.old self.new result
            (write_first (state_of self.old) channel.blocking bytes.now place room) }
    {
        let waiting = self.pipes[place].waiting.len();
        let room = bytes.len().min(PIPE_ROOM.saturating_sub(waiting));
        if room == 0 {
            return Ok(not_now(channel.blocking));
        }
        self.pipes[place].put(&bytes[..room])?;
        Ok(Reply::Number(room as u64))
    }

    /// The sink of the pipe at this place leaves its seal.
    fn seal(&mut self, place: usize)
        requires { place < vec_len self.old.pipes }
        ensures left { state_of self.new ≡ with_seal (Some place) (state_of self.old) }
        ensures kept { Kept self.old self.new }
    {
        self.pipes[place].sealed = true;
    }

    /// Whether a call in this mode finds its caller interrupted.
    fn finds_interrupt(&self, me: CallerNo, blocking: bool) -> bool
        requires { me.0 < (limits_of self.now).callers }
        ensures { result ≡ (blocking && (state_of self.now).shared.interrupted me.0) }
    {
        blocking && self.is_interrupted(me)
    }

    /// Whether a channel is open.
    fn is_open(&self, chan: ChanId) -> bool
        ensures { result ≡ is_open_channel ((state_of self.now).shared.chan chan.number.0) chan.serial }
    {
        let number = chan.number.0 as usize;
        number < self.channels.len() && self.channels[number].is_open(chan.serial)
    }
}

/// The reply where no byte waits, of a pipe with the seal or without.
fn end_or_not_now(sealed: bool, blocking: bool) -> Reply
    ensures { result ≡ (if sealed then Reply.End else not_now blocking) }
{
    if sealed {
        Reply::End
    } else {
        not_now(blocking)
    }
}

fn source_place(pipes: &[Pipe], me: CallerNo, chan: ChanId) -> Option<usize>
    ensures { result ≡ position (λ p. is_same_id p.source chan && (p.reader.0 == me.0)) pipes.now }
{
    pipes
        .iter()
        .position(|pipe| pipe.source == chan && pipe.reader == me)
}

fn sink_place(pipes: &[Pipe], me: CallerNo, chan: ChanId) -> Option<usize>
    ensures { result ≡ position (λ p. is_same_id p.sink chan && (p.writer.0 == me.0)) pipes.now }
{
    pipes
        .iter()
        .position(|pipe| pipe.sink == chan && pipe.writer == me)
}

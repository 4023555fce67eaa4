//! A pipe whose two ends are in one hand.
ghost use Rattle.std.specs.Prelude.{◌≡◌, [], length, min, take, drop, ◌++◌, IfErr, IfOk, Ok, Err};
ghost use Rattle.nio_history.specs.PassViews.{HasChannel, HasNoPin};
ghost use Rattle.nio_steps.specs.Calls.{CallClause};
ghost use Rattle.nio_steps.specs.ChannelCalls.{close_channel_plan};
ghost use Rattle.nio_steps.specs.PipeCalls.{MakesPipe, try_read_plan, try_write_plan};
ghost use Rattle.nio_steps.specs.Runs.{Completes};
ghost use Rattle.nio_steps.specs.declared.refusal.PipeError.TheVariants.{ClosedByInterrupt};
ghost use Rattle.nio_words.specs.Passes.{IsReady, limits_of};
ghost use Rattle.nio_words.specs.Views.{view};
ghost use Rattle.nio_channel.specs.Closed.{IsClosed};
ghost use Rattle.nio_pipe.specs.Answers.{bytes_read, mode_found, read_answer as answer_of_read, without_mode};
ghost use Rattle.nio_pipe.specs.Answers.{write_answer as answer_of_write};
ghost use Rattle.nio_pipe.specs.Calls.{HasEnds, TriesRead, TriesWrite};
ghost use Rattle.nio_pipe.specs.Held.{pipe_made};
ghost use Rattle.nio_pipe.specs.Making.{AreParts};
ghost use Rattle.nio_pipe.specs.Pipe.{after_end, after_read, after_write, IsAtEnd, IsLawful, new_pipe, room_of};
ghost use Rattle.nio_pipe.specs.Pipe.{waiting};
ghost use Rattle.nio_pipe.specs.declared.answers.PipeRead.TheVariants.{End};

use crate::answers::{PipeRead, PipeWrite, leaves_seal, read_answer, write_answer};
use crate::checks::{check_open, check_write, open_ends};
use crate::making::Rings;
use crate::sink::PipeSink;
use crate::source::PipeSource;
use circular_buffer::HeapCircularBuffer;
use nio_base::{CallerNo, ChanId};
use nio_channel::close_channel;
use nio_steps::{PipeError, PipeMakeError};
use nio_trace::Trace;
use nio_words::{Pass, Words};
use std::alloc::Global;
use std::marker::Model;

/// How many bytes wait in a pipe at most.
pub const CAPACITY: usize = 65_536;

/// A pipe whose two ends are in one hand. Contracts see all that was ever written into it and read
/// from it; the buffer holds what waits.
#[derive(Drop)]
pub struct HeldPipe {
    source: ChanId,
    sink: ChanId,
    buffer: HeapCircularBuffer<u8>,
    sent: Trace<u8>,
    received: Trace<u8>,
    sealed: bool,
}

impl Model for HeldPipe {
    ghost use Rattle.nio_pipe.specs.Kept.{IsKept};
    ghost use Rattle.nio_pipe.specs.Pipe.{Pipe};

    ghost Value = { Pipe };

    ghost view = { λ h. record {
      source = h.source;
      sink = h.sink;
      sent = h.sent;
      received = h.received;
      sealed = h.sealed;
    } };

    ghost invariant = { λ h. IsKept h.sent h.received h.buffer };
}

/// Makes a pipe: Java's `Pipe.open`. Its memory is taken before its two channels are opened.
pub fn held_pipe(
    alloc: Global,
    w: &Words,
    p: &mut Pass,
    me: CallerNo,
) -> Result<HeldPipe, PipeMakeError>
    requires ready { IsReady w.now p.old me }
    requires unpinned { HasNoPin (view w.now p.old) me }
    ensures call { CallClause me (MakesPipe (limits_of w.now))
        (view w.now p.old) (view w.now p.new) (pipe_made result) }
    ensures ready { IsReady w.now p.new me }
    ensures unpinned { HasNoPin (view w.now p.new) me }
    ensures ends { IfOk result (λ pipe. HasEnds (view w.now p.new) pipe.source pipe.sink) }
    ensures empty { IfOk result (λ pipe. pipe ≡ new_pipe pipe.source pipe.sink) }
{
    let buffer = HeapCircularBuffer::with_capacity(alloc, CAPACITY)?;
    let ends = open_ends(w, p, me)?;
    Ok(HeldPipe {
        source: ends.source,
        sink: ends.sink,
        buffer,
        sent: Trace::new(),
        received: Trace::new(),
        sealed: false,
    })
}

impl HeldPipe {
    /// The channel of the end that is read.
    pub fn source(&self) -> ChanId
        ensures { result ≡ self.now.source }
    {
        self.source
    }

    /// The channel of the end that is written.
    pub fn sink(&self) -> ChanId
        ensures { result ≡ self.now.sink }
    {
        self.sink
    }

    /// Reads as many bytes as wait and fit into the slice.
    pub fn try_read(
        &mut self,
        w: &Words,
        p: &mut Pass,
        me: CallerNo,
        into: &mut [u8],
    ) -> Result<PipeRead, PipeError>
        requires ready { IsReady w.now p.old me }
        requires channel { HasChannel (view w.now p.old) self.old.source }
        requires unpinned { HasNoPin (view w.now p.old) me }
        ensures call { CallClause me (TriesRead (limits_of w.now) self.old.source)
            (view w.now p.old) (view w.now p.new) result }
        ensures ready { IsReady w.now p.new me }
        ensures unpinned { HasNoPin (view w.now p.new) me }
        ensures closed { result ≡ Err ClosedByInterrupt → IsClosed (view w.now p.new) self.old.source }
        ensures answer { IfOk result (λ answer. answer ≡ answer_of_read (length into.old)
            (min (length into.old) (length (waiting self.old))) self.old.sealed) }
        ensures bytes { into.new ≡ take (bytes_read result) (waiting self.old) ++ drop (bytes_read result) into.old }
        ensures pipe { self.new ≡ after_read self.old result }
        ensures end { result ≡ Ok End → IsAtEnd self.new }
    {
        check_open(w, p, me, self.source)?;
        Ok(self.give(into))
    }

    /// Reads as `try_read` does. Says besides whether it found the source's channel in blocking mode.
    pub fn try_read_in_mode(
        &mut self,
        w: &Words,
        p: &mut Pass,
        me: CallerNo,
        into: &mut [u8],
    ) -> Result<(PipeRead, bool), PipeError>
        requires ready { IsReady w.now p.old me }
        requires channel { HasChannel (view w.now p.old) self.old.source }
        requires unpinned { HasNoPin (view w.now p.old) me }
        ensures call { CallClause me (Completes (try_read_plan (limits_of w.now) self.old.source))
            (view w.now p.old) (view w.now p.new) (mode_found result) }
        ensures ready { IsReady w.now p.new me }
        ensures unpinned { HasNoPin (view w.now p.new) me }
        ensures closed { result ≡ Err ClosedByInterrupt → IsClosed (view w.now p.new) self.old.source }
        ensures answer { IfOk result (λ found. found.0 ≡ answer_of_read (length into.old)
            (min (length into.old) (length (waiting self.old))) self.old.sealed) }
        ensures bytes { into.new ≡ take (bytes_read (without_mode result)) (waiting self.old)
            ++ drop (bytes_read (without_mode result)) into.old }
        ensures pipe { self.new ≡ after_read self.old (without_mode result) }
        ensures end { IfOk result (λ found. found.0 ≡ End → IsAtEnd self.new) }
    {
        let blocking = check_open(w, p, me, self.source)?;
        Ok((self.give(into), blocking))
    }

    // Gives as many bytes as wait and fit into the slice.
    fn give(&mut self, into: &mut [u8]) -> PipeRead
        ensures answer { result ≡ answer_of_read (length into.old) (min (length into.old) (length (waiting self.old)))
            self.old.sealed }
        ensures bytes { into.new ≡ take (bytes_read (Ok result)) (waiting self.old)
            ++ drop (bytes_read (Ok result)) into.old }
        ensures pipe { self.new ≡ after_read self.old (Ok result) }
        ensures end { result ≡ End → IsAtEnd self.new }
    {
        let given = self.buffer.read_into(into);
        self.received.extend(&into[..given]);
        read_answer(into.len(), given, self.sealed)
    }

    /// Writes as many bytes of the slice as there is room for. Where it finds the sink's channel
    /// closed, or closes it, it leaves the seal.
    pub fn try_write(
        &mut self,
        w: &Words,
        p: &mut Pass,
        me: CallerNo,
        from: &[u8],
    ) -> Result<PipeWrite, PipeError>
        requires ready { IsReady w.now p.old me }
        requires ends { HasEnds (view w.now p.old) self.old.source self.old.sink }
        requires unpinned { HasNoPin (view w.now p.old) me }
        ensures call { CallClause me (TriesWrite (limits_of w.now) self.old.source self.old.sink)
            (view w.now p.old) (view w.now p.new) result }
        ensures ready { IsReady w.now p.new me }
        ensures unpinned { HasNoPin (view w.now p.new) me }
        ensures closed { result ≡ Err ClosedByInterrupt → IsClosed (view w.now p.new) self.old.sink }
        ensures answer { IfOk result (λ answer. answer ≡ answer_of_write (length from.now)
            (min (length from.now) (room_of self.old))) }
        ensures pipe { self.new ≡ after_write self.old from.now result }
    {
        match check_write(w, p, me, self.source, self.sink) {
            Ok(_) => Ok(self.take(from)),
            Err(refusal) => {
                self.sealed = self.sealed || leaves_seal(refusal);
                Err(refusal)
            }
        }
    }

    /// Writes as `try_write` does. Says besides whether it found the sink's channel in blocking mode.
    pub fn try_write_in_mode(
        &mut self,
        w: &Words,
        p: &mut Pass,
        me: CallerNo,
        from: &[u8],
    ) -> Result<(PipeWrite, bool), PipeError>
        requires ready { IsReady w.now p.old me }
        requires ends { HasEnds (view w.now p.old) self.old.source self.old.sink }
        requires unpinned { HasNoPin (view w.now p.old) me }
        ensures call { CallClause me (Completes (try_write_plan (limits_of w.now) self.old.source self.old.sink))
            (view w.now p.old) (view w.now p.new) (mode_found result) }
        ensures ready { IsReady w.now p.new me }
        ensures unpinned { HasNoPin (view w.now p.new) me }
        ensures closed { result ≡ Err ClosedByInterrupt → IsClosed (view w.now p.new) self.old.sink }
        ensures answer { IfOk result (λ found. found.0 ≡ answer_of_write (length from.now)
            (min (length from.now) (room_of self.old))) }
        ensures pipe { self.new ≡ after_write self.old from.now (without_mode result) }
    {
        match check_write(w, p, me, self.source, self.sink) {
            Ok(blocking) => Ok((self.take(from), blocking)),
            Err(refusal) => {
                self.sealed = self.sealed || leaves_seal(refusal);
                Err(refusal)
            }
        }
    }

    // Takes as many bytes as there is room for.
    fn take(&mut self, from: &[u8]) -> PipeWrite
        ensures answer { result ≡ answer_of_write (length from.now) (min (length from.now) (room_of self.old)) }
        ensures pipe { self.new ≡ after_write self.old from.now (Ok result) }
    {
        let taken = self.buffer.fill_from_slice(from);
        self.sent.extend(&from[..taken]);
        write_answer(from.len(), taken)
    }

    /// Closes the source's channel. Says whether this call closed it.
    pub fn close_source(&mut self, w: &Words, p: &mut Pass, me: CallerNo) -> bool
        requires ready { IsReady w.now p.old me }
        requires channel { HasChannel (view w.now p.old) self.old.source }
        requires unpinned { HasNoPin (view w.now p.old) me }
        ensures call { CallClause me (Completes (close_channel_plan (limits_of w.now) self.old.source))
            (view w.now p.old) (view w.now p.new) result }
        ensures ready { IsReady w.now p.new me }
        ensures unpinned { HasNoPin (view w.now p.new) me }
        ensures closed { IsClosed (view w.now p.new) self.old.source }
        ensures pipe { self.new ≡ self.old }
    {
        close_channel(w, p, me, self.source)
    }

    /// Closes the sink's channel and leaves the seal. Says whether this call closed it.
    pub fn close_sink(&mut self, w: &Words, p: &mut Pass, me: CallerNo) -> bool
        requires ready { IsReady w.now p.old me }
        requires channel { HasChannel (view w.now p.old) self.old.sink }
        requires unpinned { HasNoPin (view w.now p.old) me }
        ensures call { CallClause me (Completes (close_channel_plan (limits_of w.now) self.old.sink))
            (view w.now p.old) (view w.now p.new) result }
        ensures ready { IsReady w.now p.new me }
        ensures unpinned { HasNoPin (view w.now p.new) me }
        ensures closed { IsClosed (view w.now p.new) self.old.sink }
        ensures pipe { self.new ≡ after_end self.old }
    {
        let closes = close_channel(w, p, me, self.sink);
        self.sealed = true;
        closes
    }

    /// Parts the pipe into its two ends, with the same waiting bytes and the same seal. Where memory lacks, the pipe
    /// comes back.
    pub fn part(self, alloc: Global) -> Result<(PipeSource, PipeSink), HeldPipe>
        ensures parts { IfOk result (λ ends. AreParts self ends.0 ends.1) }
        ensures back { IfErr result (λ pipe. pipe ≡ self) }
    {
        let Ok(rings) = Rings::make(alloc) else {
            return Err(self);
        };
        let HeldPipe {
            source,
            sink,
            buffer,
            sent: _,
            received: _,
            sealed,
        } = self;
        let (mut source, mut sink) = rings.ends(source, sink);
        let (first, second) = buffer.as_slices();
        sink.take_over(first, second, sealed);
        source.beside(&mut sink);
        sink.look_beside(&mut source);
        Ok((source, sink))
    }

    /// A pipe is lawful. Call it where a proof needs that.
    pub fn law(&self)
        ensures { IsLawful self.now }
    {
        let _ = &self.buffer;
    }
}

//! The calls of a caller on pipes. What the ends of a pipe hold stands in no part of the table.
ghost use Rattle.std.specs.Prelude.{◌≡◌, ◌≤◌, ◌||◌, false, true, Err, IfOk, IsTrue, OnErr};
ghost use Rattle.nio_channel.specs.Closed.{IsClosed};
ghost use Rattle.nio_history.specs.OwnEvents.{has};
ghost use Rattle.nio_history.specs.PassViews.{HasChannel, done_between};
ghost use Rattle.nio_pipe.specs.Calls.{HasEnds, TriesRead, TriesWrite, WaitsToRead, WaitsToWrite};
ghost use Rattle.nio_pipe.specs.Ends.{HadNoByte, HadNoPlace, HasTriedToRead, HasTriedToWrite};
ghost use Rattle.nio_pipe.specs.Ends.{IsSameSink, free, is_sealed};
ghost use Rattle.nio_pipe.specs.Ends.{other_chan, places, sent, sink_chan, source_chan};
ghost use Rattle.nio_pipe.specs.Making.{AreNew, ends_made};
ghost use Rattle.nio_steps.specs.ChannelCalls.{close_channel_plan};
ghost use Rattle.nio_steps.specs.PipeCalls.{MakesPipe};
ghost use Rattle.nio_steps.specs.Runs.{Completes};
ghost use Rattle.nio_steps.specs.declared.refusal.PipeError.TheVariants.{AsynchronousClose, BrokenPipe};
ghost use Rattle.nio_steps.specs.declared.refusal.PipeError.TheVariants.{ClosedByInterrupt};
ghost use Rattle.nio_caller.specs.Callers.{sees};
ghost use Rattle.nio_caller.specs.NamedCalls.{Calls, IfCalled, IfUncalled, OnChannel, MayRefuse};
ghost use Rattle.nio_caller.specs.Piping.{HasRead, HasWritten, OnEnds, finds_opened};
ghost use Rattle.nio_caller.specs.declared.refusal.CallError.TheVariants.{NoSuchChannel};

use super::Caller;
use crate::refusal::{CallError, called};
use crate::table::Table;
use nio_pipe::{PipeRead, PipeSink, PipeSource, PipeWrite};
use nio_steps::{PipeError, PipeMakeError};
use std::alloc::Global;
use std::sync::Wait;

impl<T: Table> Caller<T> {
    /// Makes a pipe: Java's `Pipe.open`. Its memory is taken before its two channels are opened.
    pub fn pipe(&mut self, alloc: Global) -> Result<(PipeSource, PipeSink), PipeMakeError>
        ensures call { Calls MakesPipe self.old self.new (ends_made result) }
        ensures channels { IfOk result (λ ends. HasEnds (sees self.new) (source_chan ends.0) (sink_chan ends.1)) }
        ensures ends { IfOk result (λ ends. AreNew ends.0 ends.1) }
    {
        nio_pipe::pipe(alloc, self.table.words(), &mut self.pass, self.number)
    }

    /// Reads as many bytes as are found to wait and fit into the slice. At the seal, with every byte read, it answers
    /// `End`. A source of another table's pipe may be taken for a channel that was never opened.
    pub fn try_read(
        &mut self,
        source: &mut PipeSource,
        into: &mut [u8],
    ) -> Result<PipeRead, CallError<PipeError>>
        ensures call { Calls (λ l. OnChannel l (source_chan source.old) (Err NoSuchChannel)
            (MayRefuse (TriesRead l (source_chan source.old)))) self.old self.new result }
        ensures untouched { IfUncalled result ((source.new ≡ source.old) × (into.new ≡ into.old)) }
        ensures read { IfCalled result (HasRead source.old source.new into.old into.new) }
        ensures closed { IfCalled result (λ answer. answer ≡ Err ClosedByInterrupt
            → IsClosed (sees self.new) (source_chan source.old)) }
    {
        if !self.has_channel(source.chan()) {
            return Err(CallError::NoSuchChannel);
        }
        called(source.try_read(self.table.words(), &mut self.pass, self.number, into))
    }

    /// Java's `read` of a pipe's source: `try_read`, again and again while it answers `NotYet` and the channel is in
    /// blocking mode.
    pub fn read<R: Wait>(
        &mut self,
        rt: &R,
        source: &mut PipeSource,
        into: &mut [u8],
    ) -> Result<PipeRead, CallError<PipeError>>
        ensures call { Calls (λ l. OnChannel l (source_chan source.old) (Err NoSuchChannel)
            (MayRefuse (WaitsToRead l (source_chan source.old) (HasTriedToRead source.old source.new into.old))))
            self.old self.new result }
        ensures untouched { IfUncalled result ((source.new ≡ source.old) × (into.new ≡ into.old)) }
        ensures read { IfCalled result (HasRead source.old source.new into.old into.new) }
        ensures closed { IfCalled result (λ answer. answer ≡ Err ClosedByInterrupt
            → IsClosed (sees self.new) (source_chan source.old)) }
        ensures closed_meanwhile { IfCalled result (λ answer. answer ≡ Err AsynchronousClose
            → HadNoByte source.old source.new into.old answer) }
    {
        if !self.has_channel(source.chan()) {
            return Err(CallError::NoSuchChannel);
        }
        called(source.read(rt, self.table.words(), &mut self.pass, self.number, into))
    }

    /// Writes as many bytes of the slice as are found to have room. Where it finds the sink's channel closed, or closes
    /// it, it leaves the seal.
    pub fn try_write(
        &mut self,
        sink: &mut PipeSink,
        from: &[u8],
    ) -> Result<PipeWrite, CallError<PipeError>>
        ensures call { Calls (λ l. OnEnds l (other_chan sink.old) (sink_chan sink.old)
            (TriesWrite l (other_chan sink.old) (sink_chan sink.old))) self.old self.new result }
        ensures untouched { IfUncalled result (sink.new ≡ sink.old) }
        ensures written { IfCalled result (HasWritten sink.old sink.new from.now) }
        ensures closed { IfCalled result (λ answer. answer ≡ Err ClosedByInterrupt
            → IsClosed (sees self.new) (sink_chan sink.old)) }
        ensures broken { IfCalled result (λ answer. answer ≡ Err BrokenPipe → sink.new ≡ sink.old) }
        ensures refused { OnErr result (places sink.new ≡ places sink.old) }
    {
        if !self.has_channel(sink.other_chan()) {
            return Err(CallError::NoSuchChannel);
        }
        if !self.has_channel(sink.chan()) {
            return Err(CallError::NoSuchChannel);
        }
        called(sink.try_write(self.table.words(), &mut self.pass, self.number, from))
    }

    /// Java's `write` of a pipe's sink: `try_write`, again and again while it answers `NotYet` and the channel is in
    /// blocking mode.
    pub fn write<R: Wait>(
        &mut self,
        rt: &R,
        sink: &mut PipeSink,
        from: &[u8],
    ) -> Result<PipeWrite, CallError<PipeError>>
        ensures call { Calls (λ l. OnEnds l (other_chan sink.old) (sink_chan sink.old)
            (WaitsToWrite l (other_chan sink.old) (sink_chan sink.old) (HasTriedToWrite sink.old sink.new from.now)))
            self.old self.new result }
        ensures untouched { IfUncalled result (sink.new ≡ sink.old) }
        ensures written { IfCalled result (HasWritten sink.old sink.new from.now) }
        ensures closed { IfCalled result (λ answer. answer ≡ Err ClosedByInterrupt
            → IsClosed (sees self.new) (sink_chan sink.old)) }
        ensures closed_meanwhile { IfCalled result (λ answer. answer ≡ Err AsynchronousClose
            → HadNoPlace sink.old sink.new from.now answer) }
        ensures broken { IfCalled result (λ answer. answer ≡ Err BrokenPipe → free sink.old ≤ free sink.new) }
        ensures refused { OnErr result (places sink.old ≤ places sink.new) }
    {
        if !self.has_channel(sink.other_chan()) {
            return Err(CallError::NoSuchChannel);
        }
        if !self.has_channel(sink.chan()) {
            return Err(CallError::NoSuchChannel);
        }
        called(sink.write(rt, self.table.words(), &mut self.pass, self.number, from))
    }

    /// Closes the channel of a pipe's source. Says whether this call closed it; false where there is no such channel.
    pub fn close_source(&mut self, source: &mut PipeSource) -> bool
        ensures call { Calls (λ l. OnChannel l (source_chan source.old) false
            (Completes (close_channel_plan l (source_chan source.old)))) self.old self.new result }
        ensures closes { IsTrue result → IsClosed (sees self.new) (source_chan source.old) }
        ensures closed { HasChannel (sees self.old) (source_chan source.old)
            → IsClosed (sees self.new) (source_chan source.old) }
        ensures source { source.new ≡ source.old }
    {
        if !self.has_channel(source.chan()) {
            return false;
        }
        source.close(self.table.words(), &mut self.pass, self.number)
    }

    /// Closes the channel of a pipe's sink, and leaves the seal. Says whether this call closed it; false where there is
    /// no such channel, and nothing is left then.
    pub fn close_sink(&mut self, sink: &mut PipeSink) -> bool
        ensures call { Calls (λ l. OnChannel l (sink_chan sink.old) false
            (Completes (close_channel_plan l (sink_chan sink.old)))) self.old self.new result }
        ensures closes { IsTrue result → IsClosed (sees self.new) (sink_chan sink.old) }
        ensures closed { HasChannel (sees self.old) (sink_chan sink.old)
            → IsClosed (sees self.new) (sink_chan sink.old) }
        ensures seal { is_sealed sink.new ≡ (is_sealed sink.old || has (finds_opened (sink_chan sink.old))
            (done_between self.old.number (sees self.old) (sees self.new))) }
        ensures sealed { HasChannel (sees self.old) (sink_chan sink.old) → is_sealed sink.new ≡ true }
        ensures sink { IsSameSink sink.old sink.new }
        ensures sent { sent sink.new ≡ sent sink.old }
        ensures places { places sink.new ≡ places sink.old }
    {
        if !self.has_channel(sink.chan()) {
            return false;
        }
        sink.close(self.table.words(), &mut self.pass, self.number)
    }
}

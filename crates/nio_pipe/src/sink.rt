//! The end of a pipe that is written into.
ghost use Rattle.std.specs.Prelude.{◌≡◌, ◌<◌, false};
ghost use Rattle.rtrb.specs.Ring.{known_free, producer_capacity, sent as pushed};
ghost use Rattle.nio_pipe.specs.Counts.{count_of, seals_left};

use crate::answers::{PipeWrite, leaves_seal, refusal_after, write_answer, write_goes_on};
use crate::checks::check_write;
use crate::source::PipeSource;
use nio_base::{CallerNo, ChanId};
use nio_channel::close_channel;
use nio_steps::PipeError;
use nio_trace::{Reading, Trace};
use nio_words::{Pass, Words};
use rtrb::Producer;
use std::sync::Wait;
use std::thread;

/// The end of a pipe that is written into. It can move to a thread of its own.
#[derive(Drop)]
pub struct PipeSink {
    pub(crate) chan: ChanId,
    pub(crate) source: ChanId,
    pub(crate) bytes: Producer<u8>,
    pub(crate) seals: Producer<u64>,
    // how many bytes were written, modulo 2^64
    count: u64,
    pub(crate) sealed: bool,
    // what contracts see of each try to write: the places to fill that were known after it
    pub(crate) tries: Trace<usize>,
    ghost sized: { producer_capacity bytes ≡ 65536 },
    ghost counted: { count ≡ count_of (pushed bytes) },
    ghost left: { pushed seals ≡ seals_left sealed count },
    ghost place: { sealed ≡ false → 0 < known_free seals },
}

impl PipeSink {
    ghost use Rattle.std.specs.Prelude.{◌≤◌, ◌+◌, ◌++◌, ◌||◌, [], ◌∷◌, length, min, true, IsFalse, OnOk, OnErr, IfOk};
    ghost use Rattle.std.specs.Prelude.{Ok, Err};
    ghost use Rattle.nio_history.specs.PassViews.{HasChannel, HasNoPin};
    ghost use Rattle.nio_steps.specs.Calls.{CallClause};
    ghost use Rattle.nio_steps.specs.ChannelCalls.{close_channel_plan};
    ghost use Rattle.nio_steps.specs.Runs.{Completes};
    ghost use Rattle.nio_steps.specs.declared.refusal.PipeError.TheVariants.{AsynchronousClose, BrokenPipe};
    ghost use Rattle.nio_steps.specs.declared.refusal.PipeError.TheVariants.{ClosedByInterrupt};
    ghost use Rattle.nio_words.specs.Passes.{IsReady, limits_of};
    ghost use Rattle.nio_words.specs.Views.{view};
    ghost use Rattle.nio_channel.specs.Closed.{IsClosed};
    ghost use Rattle.nio_pipe.specs.Answers.{bytes_written, leaves_seal as answer_leaves_seal};
    ghost use Rattle.nio_pipe.specs.Answers.{write_answer as answer_of_write};
    ghost use Rattle.nio_pipe.specs.Calls.{HasEnds, TriesWrite, WaitsToWrite};
    ghost use Rattle.nio_pipe.specs.Ends.{other_chan, sink_chan, received, knows_end, sent, free, places, is_sealed};
    ghost use Rattle.nio_pipe.specs.Ends.{tries_to_write};
    ghost use Rattle.nio_pipe.specs.Ends.{AreEnds, HadNoPlace, HasTriedToWrite, IsSameSink, SourceLooks, SinkLooks};
    ghost use Rattle.nio_pipe.specs.Ends.{TakesBytes};
    ghost use Rattle.nio_pipe.specs.declared.answers.PipeWrite.TheVariants.{NotYet};

    // The sink of a pipe into which nothing was written.
    pub(crate) fn make(
        chan: ChanId,
        source: ChanId,
        bytes: Producer<u8>,
        seals: Producer<u64>,
    ) -> PipeSink
        requires sized { producer_capacity bytes ≡ 65536 }
        requires fresh { pushed bytes ≡ [] }
        requires unsealed { pushed seals ≡ [] }
        requires place { 0 < known_free seals }
        ensures bytes { result.bytes ≡ bytes }
        ensures seals { result.seals ≡ seals }
        ensures channel { result.chan ≡ chan }
        ensures other { result.source ≡ source }
        ensures seal { result.sealed ≡ false }
    {
        PipeSink {
            chan,
            source,
            bytes,
            seals,
            count: 0,
            sealed: false,
            tries: Trace::new(),
        }
    }

    /// The channel of this end.
    pub fn chan(&self) -> ChanId
        ensures { result ≡ sink_chan self.now }
    {
        self.chan
    }

    /// The channel of the other end, the pipe's source.
    pub fn other_chan(&self) -> ChanId
        ensures { result ≡ other_chan self.now }
    {
        self.source
    }

    /// Writes as many bytes of the slice as are found to have room. Where it finds the sink's channel
    /// closed, or closes it, it leaves the seal.
    pub fn try_write(
        &mut self,
        w: &Words,
        p: &mut Pass,
        me: CallerNo,
        from: &[u8],
    ) -> Result<PipeWrite, PipeError>
        requires ready { IsReady w.now p.old me }
        requires ends { HasEnds (view w.now p.old) (other_chan self.old) (sink_chan self.old) }
        requires unpinned { HasNoPin (view w.now p.old) me }
        ensures call { CallClause me (TriesWrite (limits_of w.now) (other_chan self.old) (sink_chan self.old))
            (view w.now p.old) (view w.now p.new) result }
        ensures ready { IsReady w.now p.new me }
        ensures unpinned { HasNoPin (view w.now p.new) me }
        ensures closed { result ≡ Err ClosedByInterrupt → IsClosed (view w.now p.new) (sink_chan self.old) }
        ensures broken { result ≡ Err BrokenPipe → self.new ≡ self.old }
        ensures refused { OnErr result (places self.new ≡ places self.old) }
        ensures same { IsSameSink self.old self.new }
        ensures bytes { TakesBytes self.old self.new from.now (bytes_written result) }
        ensures seal { is_sealed self.new ≡ (is_sealed self.old || answer_leaves_seal result) }
        ensures answer { IfOk result (λ answer. answer ≡ answer_of_write (length from.now) (bytes_written result)) }
        ensures least { OnOk result (min (length from.now) (free self.old) ≤ bytes_written result) }
        ensures most { OnOk result (bytes_written result < length from.now → free self.new ≡ 0) }
        ensures places { OnOk result (free self.old ≤ free self.new + bytes_written result) }
        ensures not_yet { result ≡ Ok NotYet → (free self.old ≡ 0) × (free self.new ≡ 0) }
    {
        match check_write(w, p, me, self.source, self.chan) {
            Ok(_) => Ok(self.push(from)),
            Err(refusal) => {
                self.seal_after(refusal);
                Err(refusal)
            }
        }
    }

    /// `try_write`, again and again while it answers `NotYet` and the channel is in blocking mode.
    pub fn write<R: Wait>(
        &mut self,
        rt: &R,
        w: &Words,
        p: &mut Pass,
        me: CallerNo,
        from: &[u8],
    ) -> Result<PipeWrite, PipeError>
        requires ready { IsReady w.now p.old me }
        requires ends { HasEnds (view w.now p.old) (other_chan self.old) (sink_chan self.old) }
        requires unpinned { HasNoPin (view w.now p.old) me }
        ensures call { CallClause me (WaitsToWrite (limits_of w.now) (other_chan self.old) (sink_chan self.old)
            (HasTriedToWrite self.old self.new from.now)) (view w.now p.old) (view w.now p.new) result }
        ensures ready { IsReady w.now p.new me }
        ensures unpinned { HasNoPin (view w.now p.new) me }
        ensures closed { result ≡ Err ClosedByInterrupt → IsClosed (view w.now p.new) (sink_chan self.old) }
        ensures closed_meanwhile { result ≡ Err AsynchronousClose → HadNoPlace self.old self.new from.now result }
        ensures broken { result ≡ Err BrokenPipe → free self.old ≤ free self.new }
        ensures refused { OnErr result (places self.old ≤ places self.new) }
        ensures same { IsSameSink self.old self.new }
        ensures bytes { TakesBytes self.old self.new from.now (bytes_written result) }
        ensures seal { is_sealed self.new ≡ (is_sealed self.old || answer_leaves_seal result) }
        ensures answer { IfOk result (λ answer. answer ≡ answer_of_write (length from.now) (bytes_written result)) }
        ensures least { OnOk result (min (length from.now) (free self.old) ≤ bytes_written result) }
        ensures most { OnOk result (bytes_written result < length from.now → free self.new ≡ 0) }
        ensures places { OnOk result (free self.old ≤ free self.new + bytes_written result) }
        ensures not_yet { result ≡ Ok NotYet → (free self.old ≡ 0) × (free self.new ≡ 0) }
    {
        let source = self.source;
        let chan = self.chan;
        let mut waited = false;
        for _ in rt.forever() {
            match check_write(w, p, me, source, chan) {
                Ok(blocking) => {
                    let answer = self.push(from);
                    if !write_goes_on(answer, blocking) {
                        return Ok(answer);
                    }
                }
                Err(refusal) => {
                    self.seal_after(refusal);
                    return Err(refusal_after(waited, refusal));
                }
            }
            waited = true;
            thread::yield_now();
        }
        unreachable!()
    }

    // Writes as many bytes as are found to have room.
    pub(crate) fn push(&mut self, from: &[u8]) -> PipeWrite
        ensures same { IsSameSink self.old self.new }
        ensures bytes { TakesBytes self.old self.new from.now (bytes_written (Ok result)) }
        ensures seal { is_sealed self.new ≡ is_sealed self.old }
        ensures answer { result ≡ answer_of_write (length from.now) (bytes_written (Ok result)) }
        ensures least { min (length from.now) (free self.old) ≤ bytes_written (Ok result) }
        ensures most { bytes_written (Ok result) < length from.now → free self.new ≡ 0 }
        ensures places { free self.old ≤ free self.new + bytes_written (Ok result) }
        ensures looked { places self.old ≤ places self.new + bytes_written (Ok result) }
        ensures tries { tries_to_write self.new ≡ tries_to_write self.old ++ free self.new ∷ [] }
        ensures not_yet { result ≡ NotYet → (free self.old ≡ 0) × (free self.new ≡ 0) }
    {
        if self.sealed {
            self.tries.push(&0);
            return write_answer(from.len(), 0);
        }
        let (pushed, _) = self.bytes.push_partial_slice(from);
        self.count = self.count.wrapping_add(pushed.len() as u64);
        self.tries
            .extend_from::<Producer<u8>, FreePlaces>(&self.bytes);
        write_answer(from.len(), pushed.len())
    }

    // Leaves the seal where a write that is refused so does.
    fn seal_after(&mut self, refusal: PipeError)
        ensures same { IsSameSink self.old self.new }
        ensures sent { sent self.new ≡ sent self.old }
        ensures seal { is_sealed self.new ≡ (is_sealed self.old || answer_leaves_seal (Err refusal)) }
        ensures ring { self.new.bytes ≡ self.old.bytes }
        ensures tries { tries_to_write self.new ≡ tries_to_write self.old }
        ensures broken { refusal ≡ BrokenPipe → self.new ≡ self.old }
    {
        if leaves_seal(refusal) {
            self.leave_seal();
        }
    }

    // Leaves the seal, once.
    pub(crate) fn leave_seal(&mut self)
        ensures same { IsSameSink self.old self.new }
        ensures ring { self.new.bytes ≡ self.old.bytes }
        ensures tries { tries_to_write self.new ≡ tries_to_write self.old }
        ensures sent { sent self.new ≡ sent self.old }
        ensures seal { is_sealed self.new ≡ true }
    {
        if !self.sealed {
            self.seals.push_reserved(self.count);
            self.sealed = true;
        }
    }

    // Takes over the bytes that wait in another pipe, which stand in two slices, and its seal.
    pub(crate) fn take_over(&mut self, first: &[u8], second: &[u8], sealed: bool)
        requires empty { sent self.old ≡ [] }
        requires free { free self.old ≡ 65536 }
        requires unsealed { IsFalse (is_sealed self.old) }
        requires few { length first.now + length second.now ≤ 65536 }
        ensures same { IsSameSink self.old self.new }
        ensures sent { sent self.new ≡ first.now ++ second.now }
        ensures seal { is_sealed self.new ≡ sealed }
    {
        self.push(first);
        self.push(second);
        if sealed {
            self.leave_seal();
        }
    }

    // Looks at the ring beside the source, which finds every free place.
    pub(crate) fn look_beside(&mut self, source: &mut PipeSource)
        requires { AreEnds source.old self.old }
        ensures sink { SinkLooks self.old self.new }
        ensures source { SourceLooks source.old source.new }
        ensures ends { AreEnds source.new self.new }
        ensures end { knows_end source.new ≡ knows_end source.old }
        ensures free { IsFalse (is_sealed self.new) → free self.new + length (sent self.new)
            ≡ 65536 + length (received source.new) }
    {
        self.bytes.slots_beside(&mut source.bytes);
    }

    /// Closes the sink's channel and leaves the seal. Says whether this call closed it.
    pub fn close(&mut self, w: &Words, p: &mut Pass, me: CallerNo) -> bool
        requires ready { IsReady w.now p.old me }
        requires channel { HasChannel (view w.now p.old) (sink_chan self.old) }
        requires unpinned { HasNoPin (view w.now p.old) me }
        ensures call { CallClause me (Completes (close_channel_plan (limits_of w.now) (sink_chan self.old)))
            (view w.now p.old) (view w.now p.new) result }
        ensures ready { IsReady w.now p.new me }
        ensures unpinned { HasNoPin (view w.now p.new) me }
        ensures closed { IsClosed (view w.now p.new) (sink_chan self.old) }
        ensures same { IsSameSink self.old self.new }
        ensures sent { sent self.new ≡ sent self.old }
        ensures places { places self.new ≡ places self.old }
        ensures seal { is_sealed self.new ≡ true }
    {
        let closes = close_channel(w, p, me, self.chan);
        self.leave_seal();
        closes
    }
}

// Reads off a ring the places that are known to be free.
struct FreePlaces;

impl Reading<Producer<u8>, usize> for FreePlaces {
    ghost use Rattle.std.specs.Prelude.{[], ◌∷◌};
    ghost use Rattle.rtrb.specs.Ring.{known_free};

    ghost items = { λ ring. known_free ring ∷ [] };
}

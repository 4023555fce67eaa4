//! The end of a pipe that is read from.
ghost use Rattle.std.specs.Prelude.{◌≡◌, ◌<◌, ◌≤◌, ◌++◌, [], length, take, drop};
ghost use mathlib.Core.List.{IsPrefix};
ghost use Rattle.rtrb.specs.Ring.{consumer_capacity, known_items, received as popped, sent as pushed, SameConsumer};
ghost use Rattle.nio_pipe.specs.Counts.{count_known, count_of, left_to, seals_taken, IsReached};

use crate::answers::{PipeRead, read_answer, read_goes_on, refusal_after};
use crate::checks::check_open;
use crate::sink::PipeSink;
use core::mem::replace_with;
use nio_base::{CallerNo, ChanId};
use nio_channel::close_channel;
use nio_steps::PipeError;
use nio_trace::{Reading, Trace};
use nio_words::{Pass, Words};
use rtrb::Consumer;
use std::sync::Wait;
use std::thread;

/// The end of a pipe that is read from. It can move to a thread of its own.
#[derive(Drop)]
pub struct PipeSource {
    pub(crate) chan: ChanId,
    pub(crate) bytes: Consumer<u8>,
    pub(crate) seals: Consumer<u64>,
    // how many bytes were read, modulo 2^64
    count: u64,
    // the seal, once it was taken from the ring: the sink's count
    seal: Option<u64>,
    // how many bytes wait up to the seal, once all of them were seen
    pub(crate) to_end: Option<usize>,
    // what contracts see of each try to read: how much was known after it
    pub(crate) tries: Trace<usize>,
    ghost sized: { consumer_capacity bytes ≡ 65536 },
    ghost counted: { count ≡ count_of (popped bytes) },
    ghost took: { popped seals ≡ seals_taken seal },
    ghost reached: { IsReached (popped bytes) (known_items bytes) seal to_end },
}

impl PipeSource {
    ghost use Rattle.std.specs.Prelude.{◌<◌, ◌≤◌, ◌++◌, [], ◌∷◌, length, true, None, Some, IfNone, IfSome, IsSome};
    ghost use Rattle.std.specs.Prelude.{OnOk};
    ghost use Rattle.std.specs.Prelude.{IfOk, Ok, Err};
    ghost use Rattle.nio_history.specs.PassViews.{HasChannel, HasNoPin};
    ghost use Rattle.nio_steps.specs.Calls.{CallClause};
    ghost use Rattle.nio_steps.specs.ChannelCalls.{close_channel_plan};
    ghost use Rattle.nio_steps.specs.Runs.{Completes};
    ghost use Rattle.nio_steps.specs.declared.refusal.PipeError.TheVariants.{AsynchronousClose, ClosedByInterrupt};
    ghost use Rattle.nio_words.specs.Passes.{IsReady, limits_of};
    ghost use Rattle.nio_words.specs.Views.{view};
    ghost use Rattle.nio_channel.specs.Closed.{IsClosed};
    ghost use Rattle.nio_pipe.specs.Answers.{bytes_read, read_answer as answer_of_read};
    ghost use Rattle.nio_pipe.specs.Calls.{TriesRead, WaitsToRead};
    ghost use Rattle.nio_pipe.specs.Ends.{source_chan, received, known, knows_end, sent, is_sealed, pipe_of, AreEnds};
    ghost use Rattle.nio_pipe.specs.Ends.{GivesBytes, HadNoByte, HasTriedToRead, IsAtEnd, IsSameSource, IsSameSink};
    ghost use Rattle.nio_pipe.specs.Ends.{KnowsNothing};
    ghost use Rattle.nio_pipe.specs.Ends.{SinkLooks, SourceLooks, tries_to_read};
    ghost use Rattle.nio_pipe.specs.Pipe.{IsLawful};
    ghost use Rattle.nio_pipe.specs.Pipe.{IsAtEnd as IsPipeAtEnd};
    ghost use Rattle.nio_pipe.specs.declared.answers.PipeRead.TheVariants.{End, NotYet};

    // The source of a pipe into which nothing was written.
    pub(crate) fn make(chan: ChanId, bytes: Consumer<u8>, seals: Consumer<u64>) -> PipeSource
        requires sized { consumer_capacity bytes ≡ 65536 }
        requires fresh { popped bytes ≡ [] }
        requires unsealed { popped seals ≡ [] }
        ensures bytes { result.bytes ≡ bytes }
        ensures seals { result.seals ≡ seals }
        ensures channel { result.chan ≡ chan }
        ensures end { result.to_end ≡ None }
    {
        PipeSource {
            chan,
            bytes,
            seals,
            count: 0,
            seal: None,
            to_end: None,
            tries: Trace::new(),
        }
    }

    /// The channel of this end.
    pub fn chan(&self) -> ChanId
        ensures { result ≡ source_chan self.now }
    {
        self.chan
    }

    /// Reads as many bytes as are found to wait and fit into the slice. At the seal, with every byte
    /// read, it answers `End`.
    pub fn try_read(
        &mut self,
        w: &Words,
        p: &mut Pass,
        me: CallerNo,
        into: &mut [u8],
    ) -> Result<PipeRead, PipeError>
        requires ready { IsReady w.now p.old me }
        requires channel { HasChannel (view w.now p.old) (source_chan self.old) }
        requires unpinned { HasNoPin (view w.now p.old) me }
        ensures call { CallClause me (TriesRead (limits_of w.now) (source_chan self.old))
            (view w.now p.old) (view w.now p.new) result }
        ensures ready { IsReady w.now p.new me }
        ensures unpinned { HasNoPin (view w.now p.new) me }
        ensures closed { result ≡ Err ClosedByInterrupt → IsClosed (view w.now p.new) (source_chan self.old) }
        ensures same { IsSameSource self.old self.new }
        ensures bytes { GivesBytes self.old self.new into.old into.new (bytes_read result) }
        ensures answer { IfOk result (λ answer. answer ≡ answer_of_read (length into.old) (bytes_read result)
            (knows_end self.new)) }
        ensures most { OnOk result (bytes_read result < length into.old → known self.new ≡ []) }
        ensures not_yet { result ≡ Ok NotYet → KnowsNothing self.old × KnowsNothing self.new }
        ensures end { result ≡ Ok End → IsAtEnd self.new }
        ensures stays { IsAtEnd self.old → IfOk result (λ answer. answer ≡ answer_of_read (length into.old) 0 true) }
    {
        check_open(w, p, me, self.chan)?;
        Ok(self.give(into))
    }

    /// `try_read`, again and again while it answers `NotYet` and the channel is in blocking mode.
    pub fn read<R: Wait>(
        &mut self,
        rt: &R,
        w: &Words,
        p: &mut Pass,
        me: CallerNo,
        into: &mut [u8],
    ) -> Result<PipeRead, PipeError>
        requires ready { IsReady w.now p.old me }
        requires channel { HasChannel (view w.now p.old) (source_chan self.old) }
        requires unpinned { HasNoPin (view w.now p.old) me }
        ensures call { CallClause me (WaitsToRead (limits_of w.now) (source_chan self.old)
            (HasTriedToRead self.old self.new into.old)) (view w.now p.old) (view w.now p.new) result }
        ensures ready { IsReady w.now p.new me }
        ensures unpinned { HasNoPin (view w.now p.new) me }
        ensures closed { result ≡ Err ClosedByInterrupt → IsClosed (view w.now p.new) (source_chan self.old) }
        ensures closed_meanwhile { result ≡ Err AsynchronousClose → HadNoByte self.old self.new into.old result }
        ensures same { IsSameSource self.old self.new }
        ensures bytes { GivesBytes self.old self.new into.old into.new (bytes_read result) }
        ensures answer { IfOk result (λ answer. answer ≡ answer_of_read (length into.old) (bytes_read result)
            (knows_end self.new)) }
        ensures most { OnOk result (bytes_read result < length into.old → known self.new ≡ []) }
        ensures not_yet { result ≡ Ok NotYet → KnowsNothing self.old × KnowsNothing self.new }
        ensures end { result ≡ Ok End → IsAtEnd self.new }
        ensures stays { IsAtEnd self.old → IfOk result (λ answer. answer ≡ answer_of_read (length into.old) 0 true) }
    {
        let chan = self.chan;
        let mut waited = false;
        for _ in rt.forever() {
            match check_open(w, p, me, chan) {
                Ok(blocking) => {
                    let answer = self.give(into);
                    if !read_goes_on(answer, blocking) {
                        return Ok(answer);
                    }
                }
                Err(refusal) => return Err(refusal_after(waited, refusal)),
            }
            waited = true;
            thread::yield_now();
        }
        unreachable!()
    }

    /// How many bytes wait, for a hand that has both ends. The source then knows of all of them, and of the
    /// seal.
    pub fn beside(&mut self, sink: &mut PipeSink) -> usize
        requires { AreEnds self.old sink.old }
        ensures waiting { result ≡ length (known self.new) }
        ensures whole { received self.new ++ known self.new ≡ sent sink.new }
        ensures end { knows_end self.new ≡ is_sealed sink.new }
        ensures source { SourceLooks self.old self.new }
        ensures sink { SinkLooks sink.old sink.new }
        ensures ends { AreEnds self.new sink.new }
        ensures lawful { IsLawful (pipe_of self.new sink.new) }
        ensures told { IsAtEnd self.old → IsPipeAtEnd (pipe_of self.new sink.new) }
    {
        self.take_seal_beside(sink);
        let waiting = self.bytes.slots_beside(&mut sink.bytes);
        self.reach_end();
        waiting
    }

    // Takes the seal, where it was left.
    fn take_seal_beside(&mut self, sink: &mut PipeSink)
        requires { AreEnds self.old sink.old }
        ensures bytes { self.new.bytes ≡ self.old.bytes }
        ensures seals { SameConsumer self.old.seals self.new.seals }
        ensures channel { self.new.chan ≡ self.old.chan }
        ensures to_end { self.new.to_end ≡ self.old.to_end }
        ensures seal { seals_taken self.new.seal ≡ pushed sink.new.seals }
        ensures sink_bytes { sink.new.bytes ≡ sink.old.bytes }
        ensures sink { SinkLooks sink.old sink.new }
    {
        let left = self.seals.slots_beside(&mut sink.seals);
        if self.seal.is_none() && left > 0 {
            self.seal = Some(self.seals.pop_known());
        }
    }

    /// Closes the source's channel. Says whether this call closed it.
    pub fn close(&mut self, w: &Words, p: &mut Pass, me: CallerNo) -> bool
        requires ready { IsReady w.now p.old me }
        requires channel { HasChannel (view w.now p.old) (source_chan self.old) }
        requires unpinned { HasNoPin (view w.now p.old) me }
        ensures call { CallClause me (Completes (close_channel_plan (limits_of w.now) (source_chan self.old)))
            (view w.now p.old) (view w.now p.new) result }
        ensures ready { IsReady w.now p.new me }
        ensures unpinned { HasNoPin (view w.now p.new) me }
        ensures closed { IsClosed (view w.now p.new) (source_chan self.old) }
        ensures same { self.new ≡ self.old }
    {
        close_channel(w, p, me, self.chan)
    }

    // Reads what is found to wait, and looks for the seal where no byte waits.
    fn give(&mut self, into: &mut [u8]) -> PipeRead
        ensures same { IsSameSource self.old self.new }
        ensures bytes { GivesBytes self.old self.new into.old into.new (bytes_read (Ok result)) }
        ensures answer { result ≡ answer_of_read (length into.old) (bytes_read (Ok result)) (knows_end self.new) }
        ensures most { bytes_read (Ok result) < length into.old → known self.new ≡ [] }
        ensures not_yet { result ≡ NotYet → KnowsNothing self.old × KnowsNothing self.new }
        ensures end { result ≡ End → IsAtEnd self.new }
        ensures stays { IsAtEnd self.old → result ≡ answer_of_read (length into.old) 0 true }
        ensures tries { tries_to_read self.new ≡ tries_to_read self.old ++ count_known self.new.to_end
            (known_items self.new.bytes) ∷ [] }
    {
        self.look();
        let given = self.pop(into);
        self.note_try();
        read_answer(into.len(), given, self.to_end.is_some())
    }

    // Adds what is known to the tries.
    fn note_try(&mut self)
        ensures { self.new ≡ record self.old {
          tries = self.old.tries ++ count_known self.old.to_end
              (known_items self.old.bytes) ∷ [];
        } }
    {
        let to_end = self.to_end;
        self.tries.extend_from::<Known, KnownCount>(&Known {
            bytes: &self.bytes,
            to_end,
        });
    }

    // Looks for the seal where no byte waits.
    fn look(&mut self)
        ensures looks { SourceLooks self.old self.new }
        ensures tries { self.new.tries ≡ self.old.tries }
    {
        if self.to_end.is_none() && self.bytes.is_empty() {
            self.look_for_end();
        }
    }

    // Takes the seal, if it is there. What was written before it can be seen then.
    fn look_for_end(&mut self)
        requires end { self.old.to_end ≡ None }
        requires empty { known_items self.old.bytes ≡ [] }
        ensures looks { SourceLooks self.old self.new }
        ensures tries { self.new.tries ≡ self.old.tries }
    {
        self.take_seal();
        self.bytes.slots();
        self.reach_end();
    }

    fn take_seal(&mut self)
        ensures bytes { self.new.bytes ≡ self.old.bytes }
        ensures seals { SameConsumer self.old.seals self.new.seals }
        ensures channel { self.new.chan ≡ self.old.chan }
        ensures end { self.new.to_end ≡ self.old.to_end }
        ensures tries { self.new.tries ≡ self.old.tries }
    {
        if self.seal.is_none() {
            self.seal = self.seals.pop().ok();
        }
    }

    // Works out how many bytes wait up to the seal, and keeps that where all of them were seen.
    fn reach_end(&mut self)
        ensures bytes { self.new.bytes ≡ self.old.bytes }
        ensures seals { self.new.seals ≡ self.old.seals }
        ensures channel { self.new.chan ≡ self.old.chan }
        ensures reached { IfSome self.old.seal (λ seal. left_to seal self.old.count ≤ length
            (known_items self.old.bytes) → self.new.to_end ≡ Some (left_to seal self.old.count)) }
        ensures kept { IfNone self.old.seal (self.new.to_end ≡ self.old.to_end) }
        ensures tries { self.new.tries ≡ self.old.tries }
    {
        if let Some(seal) = self.seal {
            let left = seal.wrapping_sub(self.count);
            if left <= self.bytes.cached_slots() as u64 {
                self.to_end = Some(left as usize);
            }
        }
    }

    // Reads as many bytes as are found to wait, up to the seal where it is known.
    fn pop(&mut self, into: &mut [u8]) -> usize
        ensures same { IsSameSource self.old self.new }
        ensures bytes { GivesBytes self.old self.new into.old into.new result }
        ensures most { result < length into.old → known self.new ≡ [] }
        ensures end { knows_end self.new ≡ knows_end self.old }
        ensures tries { self.new.tries ≡ self.old.tries }
    {
        match self.to_end {
            Some(left) => self.pop_to_end(into, left),
            None => self.pop_seen(into),
        }
    }

    fn pop_seen(&mut self, into: &mut [u8]) -> usize
        requires { self.old.to_end ≡ None }
        ensures same { IsSameSource self.old self.new }
        ensures bytes { GivesBytes self.old self.new into.old into.new result }
        ensures most { result < length into.old → known self.new ≡ [] }
        ensures end { self.new.to_end ≡ None }
        ensures tries { self.new.tries ≡ self.old.tries }
    {
        let given = pop_slice(&mut self.bytes, into);
        self.count = self.count.wrapping_add(given as u64);
        given
    }

    // Reads bytes that were all seen, of which so many are left up to the seal.
    fn pop_to_end(&mut self, into: &mut [u8], left: usize) -> usize
        requires { self.old.to_end ≡ Some left }
        ensures same { IsSameSource self.old self.new }
        ensures bytes { GivesBytes self.old self.new into.old into.new result }
        ensures most { result < length into.old → known self.new ≡ [] }
        ensures end { IsSome self.new.to_end }
        ensures tries { self.new.tries ≡ self.old.tries }
    {
        let room = left.min(into.len());
        let given = pop_slice(&mut self.bytes, &mut into[..room]);
        self.count = self.count.wrapping_add(given as u64);
        self.to_end = Some(left - given);
        given
    }
}

// Pops as many bytes as there are and fit into the slice, by `pop_by_value`.
fn pop_slice(bytes: &mut Consumer<u8>, slice: &mut [u8]) -> usize
    ensures ring { SameConsumer bytes.old bytes.new }
    ensures fit { result ≤ length slice.old }
    ensures popped { popped bytes.new ≡ popped bytes.old ++ take result slice.new }
    ensures rest { drop result slice.new ≡ drop result slice.old }
    ensures known { IsPrefix (known_items bytes.old) (take result slice.new ++ known_items bytes.new) }
    ensures most { result < length slice.old → known_items bytes.new ≡ [] }
{
    let (given, _) = replace_with(bytes, slice, pop_by_value);
    given
}

// Takes the ring's end by value and hands it back. Behind a reference its fields would be read anew for each byte,
// since the bytes that are written might lie there.
fn pop_by_value<'a>(
    mut bytes: Consumer<u8>,
    slice: &'a mut [u8],
) -> (Consumer<u8>, (usize, &'a mut [u8]))
    ensures slice { result.1.1.ghost_name ≡ slice.entry.ghost_name }
    ensures ring { SameConsumer bytes result.0 }
    ensures fit { result.1.0 ≤ length slice.old }
    ensures popped { popped result.0 ≡ popped bytes ++ take result.1.0 result.1.1.now }
    ensures rest { drop result.1.0 result.1.1.now ≡ drop result.1.0 slice.old }
    ensures known { IsPrefix (known_items bytes) (take result.1.0 result.1.1.now ++ known_items result.0) }
    ensures most { result.1.0 < length slice.old → known_items result.0 ≡ [] }
{
    let given = bytes.pop_partial_slice(slice);
    (bytes, (given, slice))
}

// What a source knows: the bytes that were seen in its ring, and the end.
#[derive(Clone, Copy)]
struct Known<'a> {
    bytes: &'a Consumer<u8>,
    to_end: Option<usize>,
}

// Reads off how much that is.
struct KnownCount;

impl<'a> Reading<Known<'a>, usize> for KnownCount {
    ghost use Rattle.std.specs.Prelude.{[], ◌∷◌};
    ghost use Rattle.rtrb.specs.Ring.{known_items};
    ghost use Rattle.nio_pipe.specs.Counts.{count_known};

    ghost items = { λ known. count_known known.to_end (known_items known.bytes.now) ∷ [] };
}

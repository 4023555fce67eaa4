//! Making a pipe with two ends.
ghost use Rattle.std.specs.Prelude.{◌≡◌, IfOk};
ghost use Rattle.nio_history.specs.PassViews.{HasNoPin};
ghost use Rattle.nio_steps.specs.Calls.{CallClause};
ghost use Rattle.nio_steps.specs.PipeCalls.{MakesPipe};
ghost use Rattle.nio_words.specs.Passes.{IsReady, limits_of};
ghost use Rattle.nio_words.specs.Views.{view};
ghost use Rattle.nio_pipe.specs.Calls.{HasEnds};
ghost use Rattle.nio_pipe.specs.Ends.{sink_chan, source_chan};
ghost use Rattle.nio_pipe.specs.Making.{ends_made, AreNew, AreEmpty};

use crate::checks::open_ends;
use crate::held::CAPACITY;
use crate::sink::PipeSink;
use crate::source::PipeSource;
use nio_base::{CallerNo, ChanId};
use nio_steps::PipeMakeError;
use nio_words::{Pass, Words};
use rtrb::{Consumer, Producer, RingBuffer};
use std::alloc::{AllocError, Global};

/// Makes a pipe: Java's `Pipe.open`. Its memory is taken before its two channels are opened.
pub fn pipe(
    alloc: Global,
    w: &Words,
    p: &mut Pass,
    me: CallerNo,
) -> Result<(PipeSource, PipeSink), PipeMakeError>
    requires ready { IsReady w.now p.old me }
    requires unpinned { HasNoPin (view w.now p.old) me }
    ensures call { CallClause me (MakesPipe (limits_of w.now))
        (view w.now p.old) (view w.now p.new) (ends_made result) }
    ensures ready { IsReady w.now p.new me }
    ensures unpinned { HasNoPin (view w.now p.new) me }
    ensures channels { IfOk result (λ ends. HasEnds (view w.now p.new) (source_chan ends.0) (sink_chan ends.1)) }
    ensures ends { IfOk result (λ ends. AreNew ends.0 ends.1) }
{
    let rings = Rings::make(alloc)?;
    let ends = open_ends(w, p, me)?;
    Ok(rings.ends(ends.source, ends.sink))
}

/// The rings of a pipe, each with its two ends: one for the bytes, one of a single place for the seal. So the seal
/// has a place beside the bytes, and comes to the source with the number of bytes that were sent before it.
#[derive(Drop)]
pub(crate) struct Rings {
    bytes_in: Producer<u8>,
    bytes_out: Consumer<u8>,
    seals_in: Producer<u64>,
    seals_out: Consumer<u64>,
}

impl Rings {
    pub(crate) fn make(alloc: Global) -> Result<Rings, AllocError>
        ensures { IfOk result AreEmpty }
    {
        let (bytes_in, bytes_out) = RingBuffer::new(alloc, CAPACITY)?;
        let (seals_in, seals_out) = RingBuffer::new(alloc, 1)?;
        Ok(Rings {
            bytes_in,
            bytes_out,
            seals_in,
            seals_out,
        })
    }

    pub(crate) fn ends(self, source: ChanId, sink: ChanId) -> (PipeSource, PipeSink)
        requires { AreEmpty self }
        ensures ends { AreNew result.0 result.1 }
        ensures source { result.0.chan ≡ source }
        ensures sink { result.1.chan ≡ sink }
    {
        (
            PipeSource::make(source, self.bytes_out, self.seals_out),
            PipeSink::make(sink, source, self.bytes_in, self.seals_in),
        )
    }
}

//! Bytes from one thread to another, through the two ends of a pipe and through a ring of the same size alone.
ghost use Rattle.std.specs.Prelude.{◌≤◌, length, IfOk};
ghost use Rattle.nio_channel.specs.Idle.{AreIdle};
ghost use Rattle.nio_pipe.specs.Answers.{bytes_written};
ghost use Rattle.nio_pipe.specs.Calls.{HasEnds};
ghost use Rattle.nio_pipe.specs.Ends.{other_chan, sink_chan, source_chan, IsSameSink, IsSameSource};
ghost use Rattle.nio_pipe.specs.Idle.{MayUse};
ghost use Rattle.nio_pipe.specs.Making.{AreNew};
ghost use Rattle.nio_words.specs.Views.{view};

use crate::pair::{ONE, ZERO, two_callers};
use anyhow::ensure;
use nio_base::ChanId;
use nio_pipe::{
    CAPACITY, PipeError, PipeMakeError, PipeRead, PipeSink, PipeSource, PipeWrite, pipe,
};
use nio_words::{Pass, Words};
use rtrb::{Consumer, Producer, RingBuffer};
use std::alloc::Global;
use std::rt::Runtime;
use std::sync::Wait;
use std::thread;
use std::thread::{Threads, join};
use std::time::{Duration, Instant};

/// So many pieces of one length.
#[derive(Clone, Copy)]
struct Load {
    length: usize,
    pieces: usize,
}

impl Load {
    fn total(&self) -> usize {
        self.length.saturating_mul(self.pieces)
    }
}

/// 256 mebibytes each.
const LOADS: &[Load] = &[
    Load {
        length: 64,
        pieces: 4_194_304,
    },
    Load {
        length: 4_096,
        pieces: 65_536,
    },
    Load {
        length: 65_536,
        pieces: 4_096,
    },
];

/// A small load, of pieces that don't fill the ring evenly.
const SMALL: Load = Load {
    length: 1_000,
    pieces: 100,
};

/// Prints the nanoseconds of each load, through a pipe and through a ring.
pub fn measure<R: Runtime<A = Global> + Threads + Wait + Sync>(rt: &R) -> anyhow::Result<()> {
    for load in LOADS {
        println!(rt;
            "nio_{} {} rtrb_{} {}",
            load.length,
            time_pipe(rt, *load)?.as_nanos(),
            load.length,
            time_ring(rt, *load)?.as_nanos()
        )?;
    }
    Ok(())
}

/// Carries a small load through a pipe and through a ring.
pub fn run<R: Runtime<A = Global> + Threads + Wait + Sync>(rt: &R) -> anyhow::Result<()> {
    time_pipe(rt, SMALL)?;
    time_ring(rt, SMALL)?;
    Ok(())
}

/// How long the load takes through a pipe.
fn time_pipe<R: Runtime<A = Global> + Threads + Wait + Sync>(
    rt: &R,
    load: Load,
) -> anyhow::Result<Duration> {
    let (words, mut p) = two_callers(rt.alloc())?;
    let (source, sink) = open(rt.alloc(), &words, &mut p)?;
    let q = words.hand_over(&mut p, ONE)?;
    let piece = vec![in rt.alloc(); 7u8; load.length]?;
    let into = vec![in rt.alloc(); 0u8; load.length]?;
    let start = Instant::now(rt)?;
    let (read, written) = carry(rt, &words, p, q, source, sink, into, &piece, load.pieces);
    let took = start.elapsed(rt)?;
    written?;
    ensure!(read? == load.total(), "bytes are missing");
    Ok(took)
}

/// A new pipe, made by `ZERO`. Nothing was sent through it.
pub fn open(alloc: Global, w: &Words, p: &mut Pass) -> Result<(PipeSource, PipeSink), PipeMakeError>
    requires { AreIdle w.now p.old }
    ensures idle { AreIdle w.now p.new }
    ensures channels { IfOk result (λ ends. HasEnds (view w.now p.new) (source_chan ends.0) (sink_chan ends.1)) }
    ensures ends { IfOk result (λ ends. AreNew ends.0 ends.1) }
{
    pipe(alloc, w, p, ZERO)
}

/// Reads in this thread or another what another writes.
fn carry<R: Threads + Wait + Sync>(
    rt: &R,
    w: &Words,
    p: Pass,
    q: Pass,
    source: PipeSource,
    sink: PipeSink,
    into: Vec<u8>,
    piece: &[u8],
    pieces: usize,
) -> (Result<usize, PipeError>, Result<(), PipeError>)
    requires reader { MayUse w.now p ZERO (source_chan source) (sink_chan sink) }
    requires writer { MayUse w.now q ONE (other_chan sink) (sink_chan sink) }
{
    let other = sink.chan();
    join(
        rt,
        || -> Result<usize, PipeError>
            requires { MayUse w.now p ZERO (source_chan source) other }
        { reads(rt, w, p, source, other, into) },
        || -> Result<(), PipeError>
            requires { MayUse w.now q ONE (other_chan sink) (sink_chan sink) }
        { writes(rt, w, q, sink, piece, pieces) },
    )
}

/// Reads until the end, and closes the source. Answers how many bytes came.
fn reads<R: Wait>(
    rt: &R,
    w: &Words,
    mut p: Pass,
    mut source: PipeSource,
    other: ChanId,
    mut into: Vec<u8>,
) -> Result<usize, PipeError>
    requires { MayUse w.now p ZERO (source_chan source) other }
{
    let count = read_to_end(rt, w, &mut p, &mut source, other, &mut into);
    source.close(w, &mut p, ZERO);
    count
}

fn read_to_end<R: Wait>(
    rt: &R,
    w: &Words,
    p: &mut Pass,
    source: &mut PipeSource,
    other: ChanId,
    into: &mut [u8],
) -> Result<usize, PipeError>
    requires { MayUse w.now p.old ZERO (source_chan source.old) other }
    ensures { MayUse w.now p.new ZERO (source_chan source.new) other }
{
    let mut count = 0usize;
    for _ in rt.forever() {
        match read(rt, w, p, source, other, into)? {
            PipeRead::Bytes(given) => count = count.saturating_add(given),
            PipeRead::NotYet => thread::yield_now(),
            PipeRead::End => break,
        }
    }
    Ok(count)
}

/// One read of the reader, as much as `into` has room for.
pub fn read<R: Wait>(
    rt: &R,
    w: &Words,
    p: &mut Pass,
    source: &mut PipeSource,
    other: ChanId,
    into: &mut [u8],
) -> Result<PipeRead, PipeError>
    requires { MayUse w.now p.old ZERO (source_chan source.old) other }
    ensures { MayUse w.now p.new ZERO (source_chan source.new) other }
{
    source.read(rt, w, p, ZERO, into)
}

/// Writes the piece so many times, and closes the sink.
fn writes<R: Wait>(
    rt: &R,
    w: &Words,
    mut q: Pass,
    mut sink: PipeSink,
    piece: &[u8],
    pieces: usize,
) -> Result<(), PipeError>
    requires { MayUse w.now q ONE (other_chan sink) (sink_chan sink) }
{
    let written = write_pieces(rt, w, &mut q, &mut sink, piece, pieces);
    sink.close(w, &mut q, ONE);
    written
}

fn write_pieces<R: Wait>(
    rt: &R,
    w: &Words,
    q: &mut Pass,
    sink: &mut PipeSink,
    piece: &[u8],
    pieces: usize,
) -> Result<(), PipeError>
    requires { MayUse w.now q.old ONE (other_chan sink.old) (sink_chan sink.old) }
    ensures { MayUse w.now q.new ONE (other_chan sink.new) (sink_chan sink.new) }
{
    for _ in 0..pieces {
        write_piece(rt, w, q, sink, piece)?;
    }
    Ok(())
}

/// Writes the whole piece.
pub fn write_piece<R: Wait>(
    rt: &R,
    w: &Words,
    q: &mut Pass,
    sink: &mut PipeSink,
    piece: &[u8],
) -> Result<(), PipeError>
    requires { MayUse w.now q.old ONE (other_chan sink.old) (sink_chan sink.old) }
    ensures { MayUse w.now q.new ONE (other_chan sink.new) (sink_chan sink.new) }
{
    let mut rest = piece;
    for _ in rt.forever() {
        let taken = write(rt, w, q, sink, rest)?;
        rest = &rest[taken..];
        if rest.is_empty() {
            break;
        }
    }
    Ok(())
}

/// Answers how many bytes were written.
fn write<R: Wait>(
    rt: &R,
    w: &Words,
    q: &mut Pass,
    sink: &mut PipeSink,
    from: &[u8],
) -> Result<usize, PipeError>
    requires { MayUse w.now q.old ONE (other_chan sink.old) (sink_chan sink.old) }
    ensures may { MayUse w.now q.new ONE (other_chan sink.new) (sink_chan sink.new) }
    ensures few { IfOk result (λ taken. taken ≤ length from.now) }
{
    match sink.write(rt, w, q, ONE, from)? {
        PipeWrite::Bytes(taken) => Ok(taken),
        PipeWrite::NotYet => Ok(0),
    }
}

/// How long the load takes through a ring alone.
fn time_ring<R: Runtime<A = Global> + Threads + Wait + Sync>(
    rt: &R,
    load: Load,
) -> anyhow::Result<Duration> {
    let (producer, consumer) = RingBuffer::<u8>::new(rt.alloc(), CAPACITY)?;
    let piece = vec![in rt.alloc(); 7u8; load.length]?;
    let into = vec![in rt.alloc(); 0u8; load.length]?;
    let start = Instant::now(rt)?;
    join(
        rt,
        || pops(rt, consumer, into, load.total()),
        || pushes(rt, producer, &piece, load.pieces),
    );
    Ok(start.elapsed(rt)?)
}

/// Takes bytes out until there were so many.
fn pops<R: Wait>(rt: &R, mut consumer: Consumer<u8>, mut into: Vec<u8>, total: usize) {
    let mut count = 0usize;
    for _ in rt.forever() {
        let given = consumer.pop_partial_slice(&mut into);
        if given == 0 {
            thread::yield_now();
        }
        count = count.saturating_add(given);
        if count >= total {
            break;
        }
    }
}

/// Puts the piece in so many times.
fn pushes<R: Wait>(rt: &R, mut producer: Producer<u8>, piece: &[u8], pieces: usize) {
    for _ in 0..pieces {
        push_piece(rt, &mut producer, piece);
    }
}

fn push_piece<R: Wait>(rt: &R, producer: &mut Producer<u8>, piece: &[u8]) {
    let mut rest = piece;
    for _ in rt.forever() {
        let (pushed, left) = producer.push_partial_slice(rest);
        if left.is_empty() {
            break;
        }
        if pushed.is_empty() {
            thread::yield_now();
        }
        rest = left;
    }
}

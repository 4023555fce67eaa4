//! A mebibyte from one thread to another through a pipe, in pieces of changing lengths, each byte checked.
ghost use Rattle.nio_pipe.specs.Ends.{other_chan, sink_chan, source_chan};
ghost use Rattle.nio_pipe.specs.Idle.{MayUse};

use crate::pair::{ONE, ZERO, two_callers};
use crate::pipe::{open, read, write_piece};
use anyhow::ensure;
use nio_base::ChanId;
use nio_pipe::{PipeError, PipeRead, PipeSink, PipeSource};
use nio_words::{Pass, Words};
use std::alloc::Global;
use std::rt::Runtime;
use std::sync::Wait;
use std::thread;
use std::thread::{Threads, join};
use std::time::{Clock, Duration};

/// How many bytes go through.
const TOTAL: usize = 1 << 20;

/// The longest piece.
const LONGEST: usize = 4_096;

/// How long a slow thread sleeps after each piece.
const PAUSE_MICROS: u64 = 20;

/// The thread that sleeps after each of its pieces.
#[derive(Clone, Copy, PartialEq, Eq)]
pub enum Slow {
    Reader,
    Writer,
}

/// The bytes that go through: 0 to 250, again and again.
#[derive(Clone, Copy)]
struct Pattern {
    next: u8,
}

impl Pattern {
    fn next(&mut self) -> u8 {
        let byte = self.next;
        self.next = if byte < 250 { byte + 1 } else { 0 };
        byte
    }
}

/// Lengths from 1 to the longest, in no order.
#[derive(Clone, Copy)]
struct Lengths {
    state: u32,
}

impl Lengths {
    fn next(&mut self) -> usize {
        self.state = self
            .state
            .wrapping_mul(1_664_525)
            .wrapping_add(1_013_904_223);
        (self.state >> 20) as usize + 1
    }
}

/// Carries all bytes over, and fails where they didn't come over as they were.
pub fn run<R: Runtime<A = Global> + Threads + Wait + Sync>(
    rt: &R,
    slow: Slow,
) -> anyhow::Result<()> {
    let (words, mut p) = two_callers(rt.alloc())?;
    let (source, sink) = open(rt.alloc(), &words, &mut p)?;
    let q = words.hand_over(&mut p, ONE)?;
    let piece = vec![in rt.alloc(); 0u8; LONGEST]?;
    let into = vec![in rt.alloc(); 0u8; LONGEST]?;
    let (read, written) = carry(rt, &words, p, q, source, sink, into, piece, slow);
    written?;
    ensure!(read? == TOTAL, "other bytes came over, or not all");
    Ok(())
}

fn carry<R: Clock + Threads + Wait + Sync>(
    rt: &R,
    w: &Words,
    p: Pass,
    q: Pass,
    source: PipeSource,
    sink: PipeSink,
    into: Vec<u8>,
    piece: Vec<u8>,
    slow: Slow,
) -> (Result<usize, PipeError>, Result<(), PipeError>)
    requires reader { MayUse w.now p ZERO (source_chan source) (sink_chan sink) }
    requires writer { MayUse w.now q ONE (other_chan sink) (sink_chan sink) }
{
    let other = sink.chan();
    join(
        rt,
        || -> Result<usize, PipeError>
            requires { MayUse w.now p ZERO (source_chan source) other }
        { reads(rt, w, p, source, other, into, slow == Slow::Reader) },
        || -> Result<(), PipeError>
            requires { MayUse w.now q ONE (other_chan sink) (sink_chan sink) }
        { writes(rt, w, q, sink, piece, slow == Slow::Writer) },
    )
}

fn reads<R: Clock + Wait>(
    rt: &R,
    w: &Words,
    mut p: Pass,
    mut source: PipeSource,
    other: ChanId,
    mut into: Vec<u8>,
    is_slow: bool,
) -> Result<usize, PipeError>
    requires { MayUse w.now p ZERO (source_chan source) other }
{
    let count = read_all(rt, w, &mut p, &mut source, other, &mut into, is_slow);
    source.close(w, &mut p, ZERO);
    count
}

/// Reads until the end. Answers how many bytes came up to the first wrong one.
fn read_all<R: Clock + Wait>(
    rt: &R,
    w: &Words,
    p: &mut Pass,
    source: &mut PipeSource,
    other: ChanId,
    into: &mut [u8],
    is_slow: bool,
) -> Result<usize, PipeError>
    requires { MayUse w.now p.old ZERO (source_chan source.old) other }
    ensures { MayUse w.now p.new ZERO (source_chan source.new) other }
{
    let mut lengths = Lengths { state: 1 };
    let mut pattern = Pattern { next: 0 };
    let mut count = 0usize;
    for _ in rt.forever() {
        let length = lengths.next().min(into.len());
        match read(rt, w, p, source, other, &mut into[..length])? {
            PipeRead::Bytes(given) => {
                if !follow(&mut pattern, into, given) {
                    break;
                }
                count = count.saturating_add(given);
            }
            PipeRead::NotYet => thread::yield_now(),
            PipeRead::End => break,
        }
        if is_slow {
            thread::sleep(rt, Duration::from_micros(PAUSE_MICROS));
        }
    }
    Ok(count)
}

/// Whether the first bytes, so many, are the next of the pattern.
fn follow(pattern: &mut Pattern, bytes: &[u8], count: usize) -> bool {
    let mut all = true;
    for byte in bytes.iter().take(count) {
        all &= *byte == pattern.next();
    }
    all
}

fn writes<R: Clock + Wait>(
    rt: &R,
    w: &Words,
    mut q: Pass,
    mut sink: PipeSink,
    mut piece: Vec<u8>,
    is_slow: bool,
) -> Result<(), PipeError>
    requires { MayUse w.now q ONE (other_chan sink) (sink_chan sink) }
{
    let written = write_all(rt, w, &mut q, &mut sink, &mut piece, is_slow);
    sink.close(w, &mut q, ONE);
    written
}

/// Writes all bytes.
fn write_all<R: Clock + Wait>(
    rt: &R,
    w: &Words,
    q: &mut Pass,
    sink: &mut PipeSink,
    piece: &mut [u8],
    is_slow: bool,
) -> Result<(), PipeError>
    requires { MayUse w.now q.old ONE (other_chan sink.old) (sink_chan sink.old) }
    ensures { MayUse w.now q.new ONE (other_chan sink.new) (sink_chan sink.new) }
{
    let mut lengths = Lengths { state: 2 };
    let mut pattern = Pattern { next: 0 };
    let mut left = TOTAL;
    for _ in rt.forever() {
        let length = lengths.next().min(piece.len()).min(left);
        let next = &mut piece[..length];
        for byte in next.iter_mut() {
            *byte = pattern.next();
        }
        write_piece(rt, w, q, sink, next)?;
        left = left.saturating_sub(length);
        if left == 0 {
            break;
        }
        if is_slow {
            thread::sleep(rt, Duration::from_micros(PAUSE_MICROS));
        }
    }
    Ok(())
}

//! A pipe in one hand, with each answer and each refusal, also after its numbers were given to new channels; one that
//! is filled to the brim by its two ends; one that is parted with bytes in it; two ends in two threads; and readers
//! that an interrupt or a close ends.
ghost use Rattle.std.specs.Prelude.{◌≡◌, ◌≤◌, length, IfOk};
ghost use Rattle.nio_channel.specs.Idle.{AreIdle};
ghost use Rattle.nio_history.specs.Conditions.{IsCaller};
ghost use Rattle.nio_pipe.specs.Answers.{bytes_written};
ghost use Rattle.nio_pipe.specs.Calls.{HasEnds};
ghost use Rattle.nio_pipe.specs.Ends.{AreEnds, IsSameSource, IsSameSink};
ghost use Rattle.nio_pipe.specs.Idle.{HasBoth, MayUse};
ghost use Rattle.nio_words.specs.Passes.{limits_of};
ghost use Rattle.nio_words.specs.Views.{view};

use crate::calls::{self, Call, OnChannel, Reply};
use crate::tables::{C0, C0_AGAIN, C1, C1_AGAIN, ONE, ZERO, table};
use nio_base::{CallerNo, ChanId, Limits};
use nio_channel::{close_channel, reopen_channel, try_set_blocking};
use nio_pipe::{
    HeldPipe, PipeError, PipeMakeError, PipeRead, PipeSink, PipeSource, PipeWrite, held_pipe, pipe,
};
use nio_words::{Pass, Words};
use std::alloc::{AllocError, Global};
use std::sync::Wait;
use std::test::Fail;
use std::thread;
use std::thread::{Threads, join};

const SMALL: Limits = Limits {
    callers: 2,
    selectors: 1,
    channels: 3,
    keys: 1,
};

/// A call of the first caller on a pipe, or what goes before one.
#[derive(Clone, Copy)]
enum OnPipe {
    /// Reads into a slice of this length.
    Read(usize),
    /// Writes a slice of this length.
    Write(usize),
    CloseSource,
    CloseSink,
    /// The caller is interrupted.
    Interrupt,
    /// Both channels are set to non-blocking mode.
    Unblock,
    /// The source is reopened, and the sink.
    Reopen,
}

#[derive(Clone, Copy, Debug, PartialEq, Eq)]
enum Told {
    Read(Result<PipeRead, PipeError>),
    Write(Result<PipeWrite, PipeError>),
    Closes(bool),
    /// What has the number of the source then, and of the sink, where it was reopened.
    Reopened(Option<ChanId>, Option<ChanId>),
    Done,
}

fn made(alloc: Global, w: &Words, p: &mut Pass) -> Result<HeldPipe, PipeMakeError>
    requires { AreIdle w.now p.old }
    ensures idle { AreIdle w.now p.new }
    ensures ends { IfOk result (λ pipe. HasEnds (view w.now p.new) pipe.source pipe.sink) }
{
    held_pipe(alloc, w, p, ZERO)
}

fn unblock(w: &Words, p: &mut Pass, source: ChanId, sink: ChanId)
    requires { MayUse w.now p.old ZERO source sink }
    ensures { MayUse w.now p.new ZERO source sink }
{
    let _ = try_set_blocking(w, p, ZERO, source, false);
    let _ = try_set_blocking(w, p, ZERO, sink, false);
}

fn unblock_ends(w: &Words, p: &mut Pass, source: &PipeSource, sink: &PipeSink)
    requires { MayUse w.now p.old ZERO source.now.chan sink.now.chan }
    ensures { MayUse w.now p.new ZERO source.now.chan sink.now.chan }
{
    unblock(w, p, source.chan(), sink.chan());
}

fn reopen(w: &Words, p: &mut Pass, source: ChanId, sink: ChanId) -> Told
    requires { MayUse w.now p.old ZERO source sink }
    ensures { MayUse w.now p.new ZERO source sink }
{
    let first = reopen_channel(w, p, ZERO, source);
    let second = reopen_channel(w, p, ZERO, sink);
    Told::Reopened(first.ok(), second.ok())
}

fn reopen_ends(w: &Words, p: &mut Pass, source: &PipeSource, sink: &PipeSink) -> Told
    requires { MayUse w.now p.old ZERO source.now.chan sink.now.chan }
    ensures { MayUse w.now p.new ZERO source.now.chan sink.now.chan }
{
    reopen(w, p, source.chan(), sink.chan())
}

fn answer(w: &Words, p: &mut Pass, pipe: &mut HeldPipe, bytes: &mut [u8], call: OnPipe) -> Told
    requires { MayUse w.now p.old ZERO pipe.old.source pipe.old.sink }
    ensures { MayUse w.now p.new ZERO pipe.new.source pipe.new.sink }
{
    match call {
        OnPipe::Read(count) => {
            let count = count.min(bytes.len());
            let into = &mut bytes[..count];
            Told::Read(pipe.try_read(w, p, ZERO, into))
        }
        OnPipe::Write(count) => {
            let count = count.min(bytes.len());
            let from = &bytes[..count];
            Told::Write(pipe.try_write(w, p, ZERO, from))
        }
        OnPipe::CloseSource => Told::Closes(pipe.close_source(w, p, ZERO)),
        OnPipe::CloseSink => Told::Closes(pipe.close_sink(w, p, ZERO)),
        OnPipe::Interrupt => {
            w.set_interrupt(p, ZERO, ZERO);
            Told::Done
        }
        OnPipe::Unblock => {
            unblock(w, p, pipe.source(), pipe.sink());
            Told::Done
        }
        OnPipe::Reopen => reopen(w, p, pipe.source(), pipe.sink()),
    }
}

/// Whether each call is answered so.
fn are_answered(
    w: &Words,
    p: &mut Pass,
    pipe: &mut HeldPipe,
    bytes: &mut [u8],
    calls: &[(OnPipe, Told)],
) -> bool
    requires { MayUse w.now p.old ZERO pipe.old.source pipe.old.sink }
    ensures { MayUse w.now p.new ZERO pipe.new.source pipe.new.sink }
{
    for (call, told) in calls {
        if answer(w, p, pipe, bytes, *call) != *told {
            return false;
        }
    }
    true
}

const FILLS_AND_ENDS: &[(OnPipe, Told)] = &[
    (OnPipe::Read(0), Told::Read(Ok(PipeRead::Bytes(0)))),
    (OnPipe::Write(0), Told::Write(Ok(PipeWrite::Bytes(0)))),
    (OnPipe::Read(5), Told::Read(Ok(PipeRead::NotYet))),
    (
        OnPipe::Write(65_537),
        Told::Write(Ok(PipeWrite::Bytes(65_536))),
    ),
    (OnPipe::Write(1), Told::Write(Ok(PipeWrite::NotYet))),
    (OnPipe::Read(1), Told::Read(Ok(PipeRead::Bytes(1)))),
    (OnPipe::Write(2), Told::Write(Ok(PipeWrite::Bytes(1)))),
    (OnPipe::CloseSink, Told::Closes(true)),
    (OnPipe::CloseSink, Told::Closes(false)),
    (OnPipe::Write(1), Told::Write(Err(PipeError::ClosedChannel))),
    (
        OnPipe::Read(65_537),
        Told::Read(Ok(PipeRead::Bytes(65_536))),
    ),
    (OnPipe::Read(0), Told::Read(Ok(PipeRead::Bytes(0)))),
    (OnPipe::Read(1), Told::Read(Ok(PipeRead::End))),
    (OnPipe::CloseSource, Told::Closes(true)),
    (OnPipe::Read(1), Told::Read(Err(PipeError::ClosedChannel))),
];

const IS_INTERRUPTED: &[(OnPipe, Told)] = &[
    (OnPipe::Interrupt, Told::Done),
    (
        OnPipe::Write(1),
        Told::Write(Err(PipeError::ClosedByInterrupt)),
    ),
    (OnPipe::Write(1), Told::Write(Err(PipeError::ClosedChannel))),
    (
        OnPipe::Read(1),
        Told::Read(Err(PipeError::ClosedByInterrupt)),
    ),
    (OnPipe::CloseSink, Told::Closes(false)),
];

/// In non-blocking mode an interrupt does nothing.
const BREAKS: &[(OnPipe, Told)] = &[
    (OnPipe::Interrupt, Told::Done),
    (OnPipe::Unblock, Told::Done),
    (OnPipe::Write(2), Told::Write(Ok(PipeWrite::Bytes(2)))),
    (OnPipe::CloseSource, Told::Closes(true)),
    (OnPipe::Write(0), Told::Write(Err(PipeError::BrokenPipe))),
];

/// The source's number is given to another channel, and then the sink's.
const IS_REOPENED: &[(OnPipe, Told)] = &[
    (OnPipe::Write(2), Told::Write(Ok(PipeWrite::Bytes(2)))),
    (OnPipe::CloseSource, Told::Closes(true)),
    (OnPipe::Reopen, Told::Reopened(Some(C0_AGAIN), None)),
    (OnPipe::Read(1), Told::Read(Err(PipeError::ClosedChannel))),
    (OnPipe::Write(1), Told::Write(Err(PipeError::BrokenPipe))),
    (OnPipe::CloseSource, Told::Closes(false)),
    (OnPipe::CloseSink, Told::Closes(true)),
    (OnPipe::Reopen, Told::Reopened(None, Some(C1_AGAIN))),
    (OnPipe::Write(1), Told::Write(Err(PipeError::ClosedChannel))),
    (OnPipe::CloseSink, Told::Closes(false)),
];

/// The sink's number alone is.
const HAS_A_REOPENED_SINK: &[(OnPipe, Told)] = &[
    (OnPipe::Write(2), Told::Write(Ok(PipeWrite::Bytes(2)))),
    (OnPipe::CloseSink, Told::Closes(true)),
    (OnPipe::Reopen, Told::Reopened(None, Some(C1_AGAIN))),
    (OnPipe::Write(1), Told::Write(Err(PipeError::ClosedChannel))),
    (OnPipe::Read(3), Told::Read(Ok(PipeRead::Bytes(2)))),
    (OnPipe::Read(1), Told::Read(Ok(PipeRead::End))),
];

#[test]
fn a_pipe_in_one_hand(rt: HostRuntime) -> Result<(), Fail> {
    let mut bytes = vec![in rt.alloc(); 0u8; 65_537]?;
    for calls in [
        FILLS_AND_ENDS,
        IS_INTERRUPTED,
        BREAKS,
        IS_REOPENED,
        HAS_A_REOPENED_SINK,
    ] {
        let (words, mut p) = table(rt.alloc(), SMALL)?;
        let mut pipe = made(rt.alloc(), &words, &mut p)?;
        assert!(rt; are_answered(&words, &mut p, &mut pipe, &mut bytes, calls));
    }
    Ok(())
}

#[test]
fn no_number_is_left_for_a_sink(rt: HostRuntime) -> Result<(), Fail> {
    let (words, mut p) = table(rt.alloc(), SMALL)?;
    made(rt.alloc(), &words, &mut p)?;
    let refused = made(rt.alloc(), &words, &mut p).err();
    assert!(rt; refused == Some(PipeMakeError::ChannelsSpent));
    Ok(())
}

/// A table whose only pipe has all channels.
const FOR_A_PIPE: Limits = Limits {
    callers: 2,
    selectors: 1,
    channels: 2,
    keys: 1,
};

const CARRIES: &[(OnPipe, Told)] = &[
    (OnPipe::Read(3), Told::Read(Ok(PipeRead::NotYet))),
    (OnPipe::Write(2), Told::Write(Ok(PipeWrite::Bytes(2)))),
    (OnPipe::Read(3), Told::Read(Ok(PipeRead::Bytes(2)))),
];

#[test]
fn the_numbers_of_a_pipe_come_back(rt: HostRuntime) -> Result<(), Fail> {
    let (words, mut p) = table(rt.alloc(), FOR_A_PIPE)?;
    made(rt.alloc(), &words, &mut p)?;
    for chan in [C0, C1] {
        let close = Call::OnChannel(chan, OnChannel::Close);
        assert!(rt; calls::answer(rt.alloc(), &words, &mut p, close) == Reply::Flag(true));
    }
    let mut pipe = made(rt.alloc(), &words, &mut p)?;
    assert!(rt; pipe.source() == C0_AGAIN && pipe.sink() == C1_AGAIN);
    let mut bytes = [1, 2, 3];
    assert!(rt; are_answered(&words, &mut p, &mut pipe, &mut bytes, CARRIES));
    Ok(())
}

fn ends_made(
    alloc: Global,
    w: &Words,
    p: &mut Pass,
) -> Result<(PipeSource, PipeSink), PipeMakeError>
    requires { AreIdle w.now p.old }
    ensures idle { AreIdle w.now p.new }
    ensures channels { IfOk result (λ ends. HasEnds (view w.now p.new) ends.0.chan ends.1.chan) }
    ensures ends { IfOk result (λ ends. AreEnds ends.0 ends.1) }
{
    pipe(alloc, w, p, ZERO)
}

/// A table with a pipe, a pass for each caller, and the pipe's ends.
fn ends_in_two(alloc: Global) -> Result<(Words, Pass, Pass, PipeSource, PipeSink), Fail>
    ensures reader { IfOk result (λ made. MayUse made.0 made.1 ZERO made.3.chan made.4.chan) }
    ensures writer { IfOk result (λ made. MayUse made.0 made.2 ONE made.4.source made.4.chan) }
    ensures ends { IfOk result (λ made. AreEnds made.3 made.4) }
{
    let (words, mut p) = table(alloc, SMALL)?;
    let (source, sink) = ends_made(alloc, &words, &mut p)?;
    let q = words.hand_over(&mut p, ONE)?;
    Ok((words, p, q, source, sink))
}

fn reads(
    w: &Words,
    p: &mut Pass,
    me: CallerNo,
    source: &mut PipeSource,
    other: ChanId,
    into: &mut [u8],
) -> Result<PipeRead, PipeError>
    requires { MayUse w.now p.old me source.old.chan other }
    ensures same { IsSameSource source.old source.new }
    ensures may { MayUse w.now p.new me source.new.chan other }
{
    source.try_read(w, p, me, into)
}

fn writes(
    w: &Words,
    p: &mut Pass,
    me: CallerNo,
    sink: &mut PipeSink,
    from: &[u8],
) -> Result<PipeWrite, PipeError>
    requires { MayUse w.now p.old me sink.old.source sink.old.chan }
    ensures same { IsSameSink sink.old sink.new }
    ensures may { MayUse w.now p.new me sink.new.source sink.new.chan }
    ensures few { bytes_written result ≤ length from.now }
{
    sink.try_write(w, p, me, from)
}

fn closes(w: &Words, p: &mut Pass, me: CallerNo, sink: &mut PipeSink) -> bool
    requires { MayUse w.now p.old me sink.old.source sink.old.chan }
    ensures same { IsSameSink sink.old sink.new }
    ensures may { MayUse w.now p.new me sink.new.source sink.new.chan }
{
    sink.close(w, p, me)
}

/// A call of the first caller on the ends of a pipe, both in its hand.
fn answer_at_ends(
    w: &Words,
    p: &mut Pass,
    source: &mut PipeSource,
    sink: &mut PipeSink,
    bytes: &mut [u8],
    call: OnPipe,
) -> Told
    requires { HasBoth w.now p.old source.old sink.old }
    ensures { HasBoth w.now p.new source.new sink.new }
{
    match call {
        OnPipe::Read(count) => {
            let count = count.min(bytes.len());
            let into = &mut bytes[..count];
            Told::Read(reads(w, p, ZERO, source, sink.chan(), into))
        }
        OnPipe::Write(count) => {
            let count = count.min(bytes.len());
            Told::Write(writes(w, p, ZERO, sink, &bytes[..count]))
        }
        OnPipe::CloseSource => Told::Closes(source.close(w, p, ZERO)),
        OnPipe::CloseSink => Told::Closes(closes(w, p, ZERO, sink)),
        OnPipe::Interrupt => Told::Done,
        OnPipe::Unblock => {
            unblock_ends(w, p, source, sink);
            Told::Done
        }
        OnPipe::Reopen => reopen_ends(w, p, source, sink),
    }
}

const FILLS_TO_THE_BRIM: &[(OnPipe, Told)] = &[
    (OnPipe::Unblock, Told::Done),
    (
        OnPipe::Write(65_537),
        Told::Write(Ok(PipeWrite::Bytes(65_536))),
    ),
    (OnPipe::Write(1), Told::Write(Ok(PipeWrite::NotYet))),
    (OnPipe::Read(1), Told::Read(Ok(PipeRead::Bytes(1)))),
    (OnPipe::Write(1), Told::Write(Ok(PipeWrite::Bytes(1)))),
    (OnPipe::CloseSink, Told::Closes(true)),
    (
        OnPipe::Read(65_537),
        Told::Read(Ok(PipeRead::Bytes(65_536))),
    ),
    (OnPipe::Read(1), Told::Read(Ok(PipeRead::End))),
    (OnPipe::CloseSource, Told::Closes(true)),
];

/// Whether each call is answered so.
fn are_answered_at_ends(
    w: &Words,
    p: &mut Pass,
    source: &mut PipeSource,
    sink: &mut PipeSink,
    bytes: &mut [u8],
    calls: &[(OnPipe, Told)],
) -> bool
    requires { HasBoth w.now p.old source.old sink.old }
    ensures { HasBoth w.now p.new source.new sink.new }
{
    for (call, told) in calls {
        if answer_at_ends(w, p, source, sink, bytes, *call) != *told {
            return false;
        }
    }
    true
}

#[test]
fn both_ends_in_one_hand(rt: HostRuntime) -> Result<(), Fail> {
    let mut bytes = vec![in rt.alloc(); 7u8; 65_537]?;
    for calls in [FILLS_TO_THE_BRIM, IS_REOPENED, HAS_A_REOPENED_SINK] {
        let (words, mut p) = table(rt.alloc(), SMALL)?;
        let (mut source, mut sink) = ends_made(rt.alloc(), &words, &mut p)?;
        assert!(rt;
            are_answered_at_ends(&words, &mut p, &mut source, &mut sink, &mut bytes, calls)
        );
    }
    Ok(())
}

const BEFORE_PARTING: &[(OnPipe, Told)] = &[
    (OnPipe::Write(3), Told::Write(Ok(PipeWrite::Bytes(3)))),
    (OnPipe::Read(1), Told::Read(Ok(PipeRead::Bytes(1)))),
    (OnPipe::CloseSink, Told::Closes(true)),
];

fn parted(
    alloc: Global,
    w: &Words,
    p: &Pass,
    pipe: HeldPipe,
) -> Result<(PipeSource, PipeSink), AllocError>
    requires { MayUse w.now p.now ZERO pipe.source pipe.sink }
    ensures { IfOk result (λ ends. HasBoth w.now p.now ends.0 ends.1) }
{
    let Ok(ends) = pipe.part(alloc) else {
        return Err(AllocError);
    };
    Ok(ends)
}

#[test]
fn a_pipe_is_parted_with_bytes_in_it(rt: HostRuntime) -> Result<(), Fail> {
    let (words, mut p) = table(rt.alloc(), SMALL)?;
    let mut pipe = made(rt.alloc(), &words, &mut p)?;
    let mut bytes = [1, 2, 3];
    assert!(rt; are_answered(&words, &mut p, &mut pipe, &mut bytes, BEFORE_PARTING));
    let (mut source, mut sink) = parted(rt.alloc(), &words, &p, pipe)?;
    for told in [PipeRead::Bytes(2), PipeRead::End] {
        let call = OnPipe::Read(3);
        let read = answer_at_ends(&words, &mut p, &mut source, &mut sink, &mut bytes, call);
        assert!(rt; read == Told::Read(Ok(told)) && bytes == [2, 3, 3]);
    }
    assert!(rt; source.beside(&mut sink) == 0);
    Ok(())
}

/// How many bytes go from one thread to the other, and how often each tries at most.
const TOTAL: usize = 200_000;

const TRIES: u32 = 100_000_000;

/// Byte j is j modulo 251.
fn fill(piece: &mut [u8], from: usize)
    requires from { from ≤ 200000 }
    requires length { length piece.old ≤ 1000 }
{
    for (i, byte) in piece.iter_mut().enumerate() {
        *byte = ((from + i) % 251) as u8;
    }
}

/// Writes all bytes in pieces, and closes the sink. Says whether that was done.
fn writes_all(w: &Words, mut p: Pass, me: CallerNo, mut sink: PipeSink) -> (PipeSink, bool)
    requires { MayUse w.now p me sink.source sink.chan }
    ensures { IsSameSink sink result.0 }
{
    let mut piece = [0u8; 1000];
    let mut sent = 0;
    for _ in 0..TRIES {
        if sent == TOTAL {
            closes(w, &mut p, me, &mut sink);
            return (sink, true);
        }
        let count = (TOTAL - sent).min(piece.len());
        fill(&mut piece[..count], sent);
        let written = writes(w, &mut p, me, &mut sink, &piece[..count]);
        if written.is_err() {
            return (sink, false);
        }
        sent += count_of(written);
    }
    (sink, false)
}

/// How many bytes were written. Where there was no place, the other thread may run.
fn count_of(written: Result<PipeWrite, PipeError>) -> usize
    ensures { result ≡ bytes_written written }
{
    match written {
        Ok(PipeWrite::Bytes(taken)) => taken,
        Ok(PipeWrite::NotYet) => {
            thread::yield_now();
            0
        }
        Err(_) => 0,
    }
}

/// Whether these are the bytes from this one on.
fn are_next(bytes: &[u8], from: usize) -> bool
    requires from { from ≤ 200000 }
    requires length { length bytes.now ≤ 1000 }
{
    for (i, byte) in bytes.iter().enumerate() {
        if usize::from(*byte) != (from + i) % 251 {
            return false;
        }
    }
    true
}

/// Reads all bytes until the end. Says whether they were the right ones.
fn reads_all(
    w: &Words,
    mut p: Pass,
    me: CallerNo,
    mut source: PipeSource,
    other: ChanId,
) -> (PipeSource, bool)
    requires { MayUse w.now p me source.chan other }
    ensures { IsSameSource source result.0 }
{
    let mut into = [0u8; 700];
    let mut received: usize = 0;
    for _ in 0..TRIES {
        match reads(w, &mut p, me, &mut source, other, &mut into) {
            Ok(PipeRead::Bytes(given)) => {
                if given > into.len() || received > TOTAL || !are_next(&into[..given], received) {
                    return (source, false);
                }
                received += given;
            }
            Ok(PipeRead::End) => return (source, received == TOTAL),
            Ok(PipeRead::NotYet) => thread::yield_now(),
            Err(_) => return (source, false),
        }
    }
    (source, false)
}

/// Carries all bytes through the pipe, its ends in two threads. Says whether they came over, and how many
/// bytes then wait.
fn carries<R: Threads + Sync>(
    rt: &R,
    w: &Words,
    p: Pass,
    q: Pass,
    source: PipeSource,
    sink: PipeSink,
) -> (bool, usize)
    requires ends { AreEnds source sink }
    requires reader { MayUse w.now p ZERO source.chan sink.chan }
    requires writer { MayUse w.now q ONE sink.source sink.chan }
{
    let other = sink.chan();
    let ((mut source, read), (mut sink, written)) = join(
        rt,
        || -> (PipeSource, bool)
            requires { MayUse w.now p ZERO source.chan other }
            ensures { IsSameSource source result.0 }
        { reads_all(w, p, ZERO, source, other) },
        || -> (PipeSink, bool)
            requires { MayUse w.now q ONE sink.source sink.chan }
            ensures { IsSameSink sink result.0 }
        { writes_all(w, q, ONE, sink) },
    );
    (read && written, source.beside(&mut sink))
}

#[test]
fn two_threads_have_one_end_each(rt: HostRuntime) -> Result<(), Fail> {
    let (words, mut p, q, source, sink) = ends_in_two(rt.alloc())?;
    unblock_ends(&words, &mut p, &source, &sink);
    let (came_over, waiting) = carries(&rt, &words, p, q, source, sink);
    assert!(rt; came_over && waiting == 0);
    Ok(())
}

/// Reads until there is another answer than bytes.
fn reads_on<R: Wait>(
    rt: &R,
    w: &Words,
    mut p: Pass,
    mut source: PipeSource,
    other: ChanId,
) -> Option<Result<PipeRead, PipeError>>
    requires { MayUse w.now p ZERO source.chan other }
{
    let mut into = [0u8; 700];
    for _ in 0..TRIES {
        let read = source.read(rt, w, &mut p, ZERO, &mut into);
        if !matches!(read, Ok(PipeRead::Bytes(_))) {
            return Some(read);
        }
    }
    None
}

/// Writes one byte more than a pipe holds, which waits for the reader, and then closes the source or
/// interrupts the reader. Says what the two writes answered.
fn writes_and_ends<R: Wait>(
    rt: &R,
    w: &Words,
    mut q: Pass,
    mut sink: PipeSink,
    source: ChanId,
    bytes: &[u8],
    closes: bool,
) -> (Result<PipeWrite, PipeError>, Result<PipeWrite, PipeError>)
    requires idle { MayUse w.now q ONE sink.source sink.chan }
    requires source { source ≡ sink.source }
    requires zero { IsCaller (limits_of w.now) ZERO }
{
    let first = sink.write(rt, w, &mut q, ONE, bytes);
    let second = sink.write(rt, w, &mut q, ONE, &[7]);
    if closes {
        close_channel(w, &mut q, ONE, source);
    } else {
        w.set_interrupt(&mut q, ONE, ZERO);
    }
    (first, second)
}

/// A reader in one thread, which waits, and in the other a writer that ends it.
fn meet<R: Threads + Wait + Sync>(
    rt: &R,
    w: &Words,
    p: Pass,
    q: Pass,
    source: PipeSource,
    sink: PipeSink,
    bytes: &[u8],
    closes: bool,
) -> (
    Option<Result<PipeRead, PipeError>>,
    (Result<PipeWrite, PipeError>, Result<PipeWrite, PipeError>),
)
    requires reader { MayUse w.now p ZERO source.chan sink.chan }
    requires writer { MayUse w.now q ONE sink.source sink.chan }
    requires ends { AreEnds source sink }
    requires zero { IsCaller (limits_of w.now) ZERO }
{
    let (first, other) = (source.chan(), sink.chan());
    join(
        rt,
        || -> Option<Result<PipeRead, PipeError>>
            requires { MayUse w.now p ZERO source.chan other }
        { reads_on(rt, w, p, source, other) },
        || -> (Result<PipeWrite, PipeError>, Result<PipeWrite, PipeError>)
            requires { MayUse w.now q ONE sink.source sink.chan × (first ≡ sink.source)
                × IsCaller (limits_of w.now) ZERO }
        { writes_and_ends(rt, w, q, sink, first, bytes, closes) },
    )
}

#[test]
fn a_reader_that_waits_is_ended(rt: HostRuntime) -> Result<(), Fail> {
    let bytes = vec![in rt.alloc(); 7u8; 65_536]?;
    for closes in [true, false] {
        let (words, p, q, source, sink) = ends_in_two(rt.alloc())?;
        let (read, written) = meet(&rt, &words, p, q, source, sink, &bytes, closes);
        assert!(rt; written == (Ok(PipeWrite::Bytes(65_536)), Ok(PipeWrite::Bytes(1))));
        // Where the close comes between two reads the later one finds the channel closed.
        assert!(rt;
            match read {
                Some(Err(PipeError::AsynchronousClose | PipeError::ClosedChannel)) => closes,
                Some(Err(PipeError::ClosedByInterrupt)) => !closes,
                _ => false,
            }
        );
    }
    Ok(())
}

/// Writes until there is another answer than bytes.
fn writes_on<R: Wait>(
    rt: &R,
    w: &Words,
    mut q: Pass,
    mut sink: PipeSink,
    bytes: &[u8],
) -> Option<Result<PipeWrite, PipeError>>
    requires { MayUse w.now q ONE sink.source sink.chan }
{
    for _ in 0..TRIES {
        let written = sink.write(rt, w, &mut q, ONE, bytes);
        if !matches!(written, Ok(PipeWrite::Bytes(_))) {
            return Some(written);
        }
    }
    None
}

/// Reads one byte, which waits for the writer, and then closes the sink's channel or the source.
fn reads_and_ends<R: Wait>(
    rt: &R,
    w: &Words,
    mut p: Pass,
    mut source: PipeSource,
    sink: ChanId,
    closes_sink: bool,
) -> Result<PipeRead, PipeError>
    requires { MayUse w.now p ZERO source.chan sink }
{
    let mut into = [0u8; 1];
    let read = source.read(rt, w, &mut p, ZERO, &mut into);
    if closes_sink {
        close_channel(w, &mut p, ZERO, sink);
    } else {
        source.close(w, &mut p, ZERO);
    }
    read
}

/// A writer in one thread, which waits for room, and in the other a reader that ends it.
fn meet_writer<R: Threads + Wait + Sync>(
    rt: &R,
    w: &Words,
    p: Pass,
    q: Pass,
    source: PipeSource,
    sink: PipeSink,
    bytes: &[u8],
    closes_sink: bool,
) -> (
    Result<PipeRead, PipeError>,
    Option<Result<PipeWrite, PipeError>>,
)
    requires reader { MayUse w.now p ZERO source.chan sink.chan }
    requires writer { MayUse w.now q ONE sink.source sink.chan }
{
    let other = sink.chan();
    join(
        rt,
        || -> Result<PipeRead, PipeError>
            requires { MayUse w.now p ZERO source.chan other }
        { reads_and_ends(rt, w, p, source, other, closes_sink) },
        || -> Option<Result<PipeWrite, PipeError>>
            requires { MayUse w.now q ONE sink.source sink.chan }
        { writes_on(rt, w, q, sink, bytes) },
    )
}

#[test]
fn a_writer_that_waits_is_ended(rt: HostRuntime) -> Result<(), Fail> {
    let bytes = vec![in rt.alloc(); 7u8; 65_536]?;
    for closes_sink in [true, false] {
        let (words, p, q, source, sink) = ends_in_two(rt.alloc())?;
        let (read, written) = meet_writer(&rt, &words, p, q, source, sink, &bytes, closes_sink);
        assert!(rt; read == Ok(PipeRead::Bytes(1)));
        // Where the close comes between two writes the later one finds the channel closed.
        assert!(rt;
            match written {
                Some(Err(PipeError::AsynchronousClose | PipeError::ClosedChannel)) => closes_sink,
                Some(Err(PipeError::BrokenPipe)) => !closes_sink,
                _ => false,
            }
        );
    }
    Ok(())
}

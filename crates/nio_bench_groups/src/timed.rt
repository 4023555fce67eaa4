//! Operations with time limits from their start until they have timed out and ended, alone and among many whose limits
//! are long.
use anyhow::{bail, ensure};
use nio_base::{GChan, OpNo};
use nio_deadline::{TimedCore, TimedResult};
use nio_group::{GKind, GroupLimits, OpKind, Outcome};
use std::alloc::Global;
use std::rt::Runtime;
use std::time::Instant;

/// How many operations are pending beside the measured ones.
const CROWD: u32 = 59_999;

/// How many operations are measured in each round.
const TURNS: u32 = 65_536;

/// How many are made before those.
const FIRST_TURNS: u32 = 4_096;

/// How many streams are open. On each a read and a write can time out, once each.
const STREAMS: u32 = 65_536;

/// How many rounds are made. The fastest counts.
const ROUNDS: u32 = 5;

/// The time limit of the measured operations, in milliseconds.
const SHORT: u64 = 1;

/// The time limit of the others.
const LONG: u64 = 1 << 40;

/// Starts, times out, takes and finishes operations one by one, with 1 and with 60,000 in flight, and prints the
/// nanoseconds for each operation and the ratio in hundredths.
pub fn measure<R: Runtime<A = Global>>(rt: &R) -> anyhow::Result<()> {
    let mut one = u128::MAX;
    let mut many = u128::MAX;
    for _ in 0..ROUNDS {
        one = one.min(time_turns(rt, 0)?);
        many = many.min(time_turns(rt, CROWD)?);
    }
    let turns = u128::from(TURNS);
    println!(rt;
        "timed {} {} {}",
        one / turns,
        many / turns,
        many.saturating_mul(100) / one.max(1)
    )?;
    Ok(())
}

/// How many nanoseconds the measured operations take, with so many pending beside.
fn time_turns<R: Runtime<A = Global>>(rt: &R, others: u32) -> anyhow::Result<u128> {
    let mut timed = crowded(rt, STREAMS, others)?;
    turn(&mut timed, others, FIRST_TURNS)?;
    let start = Instant::now(rt)?;
    turn(&mut timed, others.saturating_add(FIRST_TURNS), TURNS)?;
    Ok(start.elapsed(rt)?.as_nanos())
}

/// A small run, with so many operations pending beside.
pub fn run(rt: &impl Alloc<A = Global>, others: u32) -> anyhow::Result<()> {
    let mut timed = crowded(rt, 16, others)?;
    turn(&mut timed, others, 16)?;
    ensure!(
        timed.expire(LONG) == others,
        "not each operation has timed out"
    );
    for _ in 0..others {
        end(&mut timed)?;
    }
    timed.shutdown_now();
    ensure!(timed.is_terminated(), "the group hasn't terminated");
    Ok(())
}

/// A group with so many streams, on which so many operations are pending.
fn crowded(rt: &impl Alloc<A = Global>, streams: u32, others: u32) -> anyhow::Result<TimedCore> {
    let limits = GroupLimits {
        channels: 65_536,
        flight: 65_536,
        ops: 1 << 62,
    };
    let mut timed = TimedCore::make(rt.alloc(), limits)?;
    for _ in 0..streams {
        connect(&mut timed)?;
    }
    for number in 0..others {
        let (chan, kind) = place(number);
        start(&mut timed, chan, kind, 0, LONG)?;
    }
    Ok(timed)
}

/// Opens a stream, and connects it.
fn connect(timed: &mut TimedCore) -> anyhow::Result<()> {
    let chan = timed.open_channel(GKind::Stream)?;
    let op = start(timed, chan, OpKind::Connect, 0, 0)?;
    timed.report(op, Outcome::Connected)?;
    end(timed)?;
    Ok(())
}

/// The stream and the kind of the read or write with this number, counted from 0.
fn place(number: u32) -> (GChan, OpKind) {
    let kind = if number % 2 == 0 {
        OpKind::Read
    } else {
        OpKind::Write
    };
    let chan = GChan {
        number: number / 2,
        serial: 0,
    };
    (chan, kind)
}

/// So many operations, from the one with this number on, each from its start until it has timed out and ended.
fn turn(timed: &mut TimedCore, from: u32, count: u32) -> anyhow::Result<()> {
    for number in from..from.saturating_add(count) {
        let (chan, kind) = place(number);
        let now = u64::from(number);
        start(timed, chan, kind, now, SHORT)?;
        ensure!(
            timed.expire(now.saturating_add(SHORT)) == 1,
            "not one operation has timed out"
        );
        ensure!(
            end(timed)? == TimedResult::InterruptedByTimeout,
            "an operation hasn't timed out"
        );
    }
    Ok(())
}

/// Starts an operation on a channel that must have been made.
fn start(
    timed: &mut TimedCore,
    chan: GChan,
    kind: OpKind,
    now: u64,
    limit: u64,
) -> anyhow::Result<OpNo> {
    ensure!(timed.is_made(chan), "a channel isn't made");
    Ok(timed.start_timed(chan, kind, 1, now, limit)?)
}

/// Takes the completion at the front of the queue, and ends its operation.
fn end(timed: &mut TimedCore) -> anyhow::Result<TimedResult> {
    let Some(done) = timed.take() else {
        bail!("a completion is missing");
    };
    timed.finish(done.op)?;
    Ok(done.result)
}

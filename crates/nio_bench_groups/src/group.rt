//! Operations of a group from their start to their end, alone and among many that are pending.
use anyhow::{bail, ensure};
use nio_base::GChan;
use nio_group::{GKind, GroupCore, GroupLimits, OpKind, Outcome};
use std::alloc::Global;
use std::rt::Runtime;
use std::time::Instant;

/// The channel whose operations are measured.
const MEASURED: GChan = GChan {
    number: 0,
    serial: 0,
};

/// How many operations are pending beside the measured ones.
const CROWD: u32 = 59_999;

/// How many operations are measured in each round.
const TURNS: u32 = 1_000_000;

/// Starts, reports, takes and finishes operations one by one, with 1 and with 60,000 in flight, and
/// prints the nanoseconds for each operation and the ratio in hundredths.
pub fn measure<R: Runtime<A = Global>>(rt: &R) -> anyhow::Result<()> {
    let one = time_turns(rt, 0)?;
    let many = time_turns(rt, CROWD)?;
    let turns = u128::from(TURNS);
    println!(rt;
        "group {} {} {}",
        one / turns,
        many / turns,
        many.saturating_mul(100) / one.max(1)
    )?;
    Ok(())
}

/// How many nanoseconds the measured operations take, with so many pending beside.
fn time_turns<R: Runtime<A = Global>>(rt: &R, others: u32) -> anyhow::Result<u128> {
    let mut group = crowded(rt, others)?;
    turn(&mut group, TURNS)?;
    let start = Instant::now(rt)?;
    turn(&mut group, TURNS)?;
    Ok(start.elapsed(rt)?.as_nanos())
}

/// A small run, with so many operations pending beside.
pub fn run(rt: &impl Alloc<A = Global>, others: u32) -> anyhow::Result<()> {
    let mut group = crowded(rt, others)?;
    turn(&mut group, 16)?;
    group.shutdown_now();
    for _ in 0..others {
        let Some(done) = group.take() else {
            bail!("a completion is missing");
        };
        group.finish(done.op())?;
    }
    ensure!(group.is_terminated(), "the group hasn't terminated");
    Ok(())
}

/// A group with so many bound listeners, an accept pending on each, and one more.
fn crowded(rt: &impl Alloc<A = Global>, others: u32) -> anyhow::Result<GroupCore> {
    let limits = GroupLimits {
        channels: 65_536,
        flight: 65_536,
        ops: 1 << 62,
    };
    let mut group = GroupCore::make(rt.alloc(), limits)?;
    open(&mut group)?;
    for _ in 0..others {
        let chan = open(&mut group)?;
        ensure!(group.is_made(chan), "a channel isn't made");
        group.start(chan, OpKind::Accept, 0)?;
    }
    Ok(group)
}

/// A new listener, bound.
fn open(group: &mut GroupCore) -> anyhow::Result<GChan> {
    let chan = group.open_channel(GKind::Listener)?;
    ensure!(group.is_made(chan), "a channel isn't made");
    group.bind(chan)?;
    Ok(chan)
}

/// So many operations of the measured channel, each from its start to its end.
fn turn(group: &mut GroupCore, count: u32) -> anyhow::Result<()> {
    for _ in 0..count {
        ensure!(group.is_made(MEASURED), "a channel isn't made");
        let op = group.start(MEASURED, OpKind::Accept, 0)?;
        group.report(op, Outcome::Fault)?;
        let Some(done) = group.take() else {
            bail!("a completion is missing");
        };
        group.finish(done.op())?;
    }
    Ok(())
}

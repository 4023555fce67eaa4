//! Operations that one thread starts, and workers in others handle by a handler that does nothing.
ghost use Rattle.std.specs.Prelude.{◌≤◌, All};
ghost use Rattle.std.specs.Thread.{IsSync};
ghost use Rattle.nio_pool.specs.Queues.{IsPassOf};

use anyhow::ensure;
use nio_base::{GChan, NoGate};
use nio_group::{GKind, GroupCore, GroupLimits, OpKind};
use nio_pool::{CompletionQueue, Group, Handed, Handler, QueuePass, work};
use std::alloc::Global;
use std::rt::Runtime;
use std::sync::Wait;
use std::thread;
use std::thread::{Threads, join};
use std::time::{Duration, Instant};

/// How many operations are started in all.
const OPERATIONS: u32 = 1_048_576;

/// How many are started under one hold of the lock.
const BUNCH: u32 = 16;

/// How many are in flight at most, and for how many completions the queue has room.
const FLIGHT: u32 = 1_024;

/// The channel of all operations. It is closed, so each completes as it is started.
const CLOSED: GChan = GChan {
    number: 0,
    serial: 0,
};

/// Does nothing.
#[derive(Drop)]
struct Empty;

impl Handler for Empty {
    fn completed<R: Wait>(&self, _rt: &R, _group: &Group, _done: Handed) {}
}

/// Prints the nanoseconds that all operations take with 1, 2 and 4 workers.
pub fn measure<R: Runtime<A = Global> + Threads + Wait + Sync>(rt: &R) -> anyhow::Result<()> {
    let one = time_workers(rt, 1, OPERATIONS)?;
    let two = time_workers(rt, 2, OPERATIONS)?;
    let four = time_workers(rt, 4, OPERATIONS)?;
    println!(rt;
        "calls {} workers_1 {} workers_2 {} workers_4 {}",
        OPERATIONS,
        one.as_nanos(),
        two.as_nanos(),
        four.as_nanos()
    )?;
    Ok(())
}

/// A hundred operations, with two workers.
pub fn run<R: Runtime<A = Global> + Threads + Wait + Sync>(rt: &R) -> anyhow::Result<()> {
    time_workers(rt, 2, 100)?;
    Ok(())
}

/// How long so many operations take with so many workers.
fn time_workers<R: Runtime<A = Global> + Threads + Wait + Sync>(
    rt: &R,
    workers: u32,
    operations: u32,
) -> anyhow::Result<Duration>
    requires { (1 ≤ workers) × (workers ≤ 65) }
{
    let limits = GroupLimits {
        channels: 1,
        flight: FLIGHT,
        ops: 1 << 62,
    };
    let group = Group::make(rt.alloc(), i64::from(workers), limits)?;
    let chan = group.lock(rt).open_channel(GKind::Stream)?;
    close(&mut group.lock(rt));
    let (queue, passes) = CompletionQueue::make(rt.alloc(), workers, FLIGHT)?;
    let start = Instant::now(rt)?;
    handle_all(rt, &group, &queue, passes, operations);
    let took = start.elapsed(rt)?;
    ensure!(
        chan == CLOSED && group.lock(rt).is_terminated(),
        "the group hasn't terminated"
    );
    Ok(took)
}

fn close(core: &mut GroupCore) {
    if core.is_made(CLOSED) {
        core.close_channel(CLOSED);
    }
}

/// Starts the operations and then shuts the group down, while a thread for each pass works.
fn handle_all<R: Threads + Wait + Sync>(
    rt: &R,
    group: &Group,
    queue: &CompletionQueue,
    passes: Vec<QueuePass>,
    operations: u32,
)
    requires { All (IsPassOf queue.now) passes.items }
{
    join(
        rt,
        || start_all(rt, group, operations),
        move ||
            requires { IsSync R.row × All (IsPassOf queue.now) passes.items }
        {
            let mut passes = passes;
            work_all(rt, group, queue, passes.as_mut_slice());
        },
    );
}

fn start_all<R: Wait>(rt: &R, group: &Group, operations: u32) {
    let mut left = operations;
    for _ in rt.forever() {
        if left == 0 {
            break;
        }
        let started = start_some(&mut group.lock(rt), left.min(BUNCH));
        left = left.saturating_sub(started);
        if started == 0 {
            thread::yield_now();
        } else {
            group.wake(rt);
        }
    }
    group.lock(rt).shutdown();
    group.wake(rt);
}

/// Starts as many operations, or fewer where too many are in flight. Answers how many.
fn start_some(core: &mut GroupCore, count: u32) -> u32 {
    for started in 0..count {
        if !core.is_made(CLOSED) || core.start(CLOSED, OpKind::Read, 1).is_err() {
            return started;
        }
    }
    count
}

/// Works with each pass in a thread of its own.
fn work_all<R: Threads + Wait + Sync>(
    rt: &R,
    group: &Group,
    queue: &CompletionQueue,
    passes: &mut [QueuePass],
)
    requires { All (IsPassOf queue.now) passes.old }
{
    let threads = passes.len().max(1);
    thread::for_each_mut(
        rt,
        passes,
        threads,
        &|_, pass| work(rt, group, queue, pass, &Empty, &NoGate, 0),
    );
}

//! Workers in threads of their own.
ghost use Rattle.std.specs.Prelude.{◌<◌, ◌≤◌, All, length};
ghost use Rattle.std.specs.Thread.{IsSync};
ghost use Rattle.nio_pool.specs.Queues.{IsPassOf};

use crate::group::{close, close_stream, connect_stream, limits, start_read};
use crate::queue::next_pass;
use nio_base::{Gate, NoGate, OpNo};
use nio_group::{Finished, GroupLimits, StartError, Why};
use nio_pool::{CompletionQueue, Group, Handed, Handler, QueuePass, work};
use std::alloc::Global;
use std::sync::atomic::{AtomicBool, AtomicU64, Ordering};
use std::sync::{Condvar, Mutex, Wait};
use std::test::Fail;
use std::thread;
use std::thread::{Threads, join};
use std::time::{Clock, CpuClock, Duration};

/// Works with each pass in a thread of its own, as the worker with the pass's place.
fn run_workers<R: Threads + Wait + Sync, H: Handler + Sync, G: Gate + Sync>(
    rt: &R,
    group: &Group,
    queue: &CompletionQueue,
    passes: &mut [QueuePass],
    handler: &H,
    gate: &G,
)
    requires passes { All (IsPassOf queue.now) passes.old }
    requires few { length passes.old ≤ 65 }
{
    let threads = passes.len().max(1);
    thread::for_each_mut(
        rt,
        passes,
        threads,
        &|me, pass|
            requires { (me < 65) × IsPassOf queue.now pass.old }
        { work(rt, group, queue, pass, handler, gate, me as u32) },
    );
}

/// Expects the operations in their order.
#[derive(Drop)]
struct InOrder {
    met: AtomicU64,
    failed: AtomicBool,
}

impl Handler for InOrder {
    fn completed<R: Wait>(&self, rt: &R, group: &Group, done: Handed) {
        if self.met.fetch_add(1, Ordering::SeqCst) != done.done().op().0 {
            self.failed.store(true, Ordering::SeqCst);
            // so that a worker that goes by a queue of its own ends too
            let _ = group.lock(rt).finish(OpNo(0));
        }
    }
}

#[test]
fn worker_uses_its_queue(rt: HostRuntime) -> Result<(), Fail> {
    let group = Group::make(rt.alloc(), 1, limits(2))?;
    let (queue, mut passes) = CompletionQueue::make(rt.alloc(), 1, 4)?;
    let mut pass = next_pass(&queue, &mut passes).expect(&rt, "the one pass");
    let mut core = group.lock(&rt);
    close_stream(&mut core)?;
    start_read(&mut core)?;
    start_read(&mut core)?;
    let zero = core.take().expect(&rt, "operation 0 has completed");
    core.shutdown();
    drop(core);
    assert!(rt; queue.put(&rt, &mut pass, zero).is_ok());
    let handler = InOrder {
        met: AtomicU64::new(0),
        failed: AtomicBool::new(false),
    };
    work(&rt, &group, &queue, &mut pass, &handler, &NoGate, 0);
    assert!(rt; !handler.failed.load(Ordering::SeqCst));
    assert_eq!(rt; handler.met.load(Ordering::SeqCst), 2);
    assert!(rt; group.await_termination(&rt).is_terminated());
    Ok(())
}

/// Counts how often each operation is handled. For each it starts another, and where no more may be started it shuts
/// the group down.
#[derive(Drop)]
struct Counting<'a> {
    handled: &'a [AtomicU64],
}

impl<'a> Handler for Counting<'a> {
    fn completed<R: Wait>(&self, rt: &R, group: &Group, done: Handed) {
        if let Some(count) = self.handled.get(done.done().op().0 as usize) {
            count.fetch_add(1, Ordering::SeqCst);
        }
        let mut core = group.lock(rt);
        if start_read(&mut core).is_err() {
            core.shutdown();
        }
        drop(core);
        group.wake(rt);
    }
}

/// Runs so many workers until as many operations are handled, of which the first 64 are started at once. Answers
/// whether each was handled once.
fn handles_each_once<R: Threads + Wait + Sync, G: Gate + Sync>(
    rt: &R,
    alloc: Global,
    workers: u32,
    operations: u32,
    gate: &G,
) -> Result<bool, Fail>
    requires workers { (1 ≤ workers) × (workers ≤ 65) }
    requires operations { (1 ≤ operations) × (operations ≤ 1000000) }
{
    let mut handled = Vec::with_capacity(alloc, operations as usize)?;
    for _ in 0..operations {
        handled.push(AtomicU64::new(0))?;
    }
    let group = Group::make(alloc, i64::from(workers), limits(u64::from(operations)))?;
    let mut core = group.lock(rt);
    close_stream(&mut core)?;
    for _ in 0..operations.min(64) {
        start_read(&mut core)?;
    }
    drop(core);
    let (queue, mut passes) = CompletionQueue::make(alloc, workers, 8)?;
    let handler = Counting { handled: &handled };
    run_workers(rt, &group, &queue, passes.as_mut_slice(), &handler, gate);
    let terminated = group.await_termination(rt).is_terminated();
    Ok(
        terminated
            && handled
                .iter()
                .all(|count| count.load(Ordering::SeqCst) == 1),
    )
}

#[test]
fn four_workers(rt: HostRuntime) -> Result<(), Fail> {
    assert!(rt; handles_each_once(&rt, rt.alloc(), 4, 100_000, &NoGate)?);
    Ok(())
}

/// For each operation it starts another. Where none may be started it shuts the group down.
#[derive(Drop)]
struct Refilling {
    handled: AtomicU64,
    had_too_many: AtomicBool,
}

impl Handler for Refilling {
    fn completed<R: Wait>(&self, rt: &R, group: &Group, _done: Handed) {
        self.handled.fetch_add(1, Ordering::SeqCst);
        let mut core = group.lock(rt);
        if let Err(refused) = start_read(&mut core) {
            if matches!(refused, StartError::FlightFull) {
                self.had_too_many.store(true, Ordering::SeqCst);
            }
            core.shutdown();
        }
    }
}

/// One worker takes two completions at a time, and three operations may be in flight. So a handler may start one only
/// where that of the operation before has ended its own.
#[test]
fn operation_ends_with_its_handler(rt: HostRuntime) -> Result<(), Fail> {
    let limits = GroupLimits {
        channels: 1,
        flight: 3,
        ops: 100,
    };
    let group = Group::make(rt.alloc(), 1, limits)?;
    let (queue, mut passes) = CompletionQueue::make(rt.alloc(), 1, 4)?;
    let mut pass = next_pass(&queue, &mut passes).expect(&rt, "the one pass");
    let mut core = group.lock(&rt);
    close_stream(&mut core)?;
    start_read(&mut core)?;
    start_read(&mut core)?;
    drop(core);
    let handler = Refilling {
        handled: AtomicU64::new(0),
        had_too_many: AtomicBool::new(false),
    };
    work(&rt, &group, &queue, &mut pass, &handler, &NoGate, 0);
    assert!(rt; !handler.had_too_many.load(Ordering::SeqCst));
    assert_eq!(rt; handler.handled.load(Ordering::SeqCst), 100);
    Ok(())
}

/// How often a worker looks whether the other has come before it gives up.
const TURNS: u32 = 100_000_000;

/// Holds each of two workers until the other has come with a completion of its own.
#[derive(Drop)]
struct Meeting {
    first_came: AtomicBool,
    second_came: AtomicBool,
    given_up: AtomicBool,
}

impl Meeting {
    fn wait_for(&self, other: &AtomicBool) {
        for _ in 0..TURNS {
            if other.load(Ordering::SeqCst) {
                return;
            }
            thread::yield_now();
        }
        self.given_up.store(true, Ordering::SeqCst);
    }
}

impl Gate for Meeting {
    fn pass<R: Wait>(&self, _rt: &R, who: u32, _what: u64) {
        match who {
            0 => {
                self.first_came.store(true, Ordering::SeqCst);
                self.wait_for(&self.second_came);
            }
            1 => {
                self.second_came.store(true, Ordering::SeqCst);
                self.wait_for(&self.first_came);
            }
            _ => self.given_up.store(true, Ordering::SeqCst),
        }
    }
}

#[test]
fn two_workers_meet(rt: HostRuntime) -> Result<(), Fail> {
    let gate = Meeting {
        first_came: AtomicBool::new(false),
        second_came: AtomicBool::new(false),
        given_up: AtomicBool::new(false),
    };
    assert!(rt; handles_each_once(&rt, rt.alloc(), 2, 2, &gate)?);
    assert!(rt; !gate.given_up.load(Ordering::SeqCst));
    Ok(())
}

/// Where the stream is connected it starts a read and closes the stream. Where the read has been ended by that it shuts
/// the group down.
#[derive(Drop)]
struct Closing {
    ended_by_close: AtomicBool,
}

impl Handler for Closing {
    fn completed<R: Wait>(&self, rt: &R, group: &Group, done: Handed) {
        let mut core = group.lock(rt);
        match done.done().result() {
            Finished::Connected => {
                let _ = start_read(&mut core);
                close(&mut core);
            }
            Finished::Failed(Why::AsynchronousClose) => {
                self.ended_by_close.store(true, Ordering::SeqCst);
                core.shutdown();
            }
            Finished::Count(_)
            | Finished::End
            | Finished::Accepted(_)
            | Finished::Failed(
                Why::Fault | Why::ClosedChannel | Why::ShutdownGroup | Why::ChannelsSpent,
            ) => core.shutdown(),
        }
    }
}

#[test]
fn handler_closes_and_shuts_down(rt: HostRuntime) -> Result<(), Fail> {
    let group = Group::make(rt.alloc(), 1, limits(2))?;
    let (queue, mut passes) = CompletionQueue::make(rt.alloc(), 1, 1)?;
    connect_stream(&mut group.lock(&rt))?;
    let handler = Closing {
        ended_by_close: AtomicBool::new(false),
    };
    run_workers(
        &rt,
        &group,
        &queue,
        passes.as_mut_slice(),
        &handler,
        &NoGate,
    );
    assert!(rt; handler.ended_by_close.load(Ordering::SeqCst));
    assert!(rt; group.await_termination(&rt).is_terminated());
    Ok(())
}

/// How much processor time all threads take together while four workers have nothing to do for a second. Then the group
/// is shut down. `None` where the clock failed.
fn idle_second<R: Threads + Wait + Sync + Clock + CpuClock>(
    rt: &R,
    group: &Group,
    queue: &CompletionQueue,
    passes: Vec<QueuePass>,
) -> Option<Duration>
    requires passes { All (IsPassOf queue.now) passes.items }
    requires few { length passes.items ≤ 65 }
{
    let handler = Closing {
        ended_by_close: AtomicBool::new(false),
    };
    let (took, ()) = join(
        rt,
        || {
            thread::sleep(rt, Duration::from_millis(200));
            let before = rt.process_cpu_time().ok();
            thread::sleep(rt, Duration::from_secs(1));
            let after = rt.process_cpu_time().ok();
            group.lock(rt).shutdown_now();
            group.wake(rt);
            after?.checked_sub(before?)
        },
        move ||
            requires { IsSync R.row × All (IsPassOf queue.now) passes.items × (length passes.items ≤ 65) }
        {
            let mut passes = passes;
            run_workers(rt, group, queue, passes.as_mut_slice(), &handler, &NoGate);
        },
    );
    took
}

#[test]
fn idle_workers_sleep(rt: HostRuntime) -> Result<(), Fail> {
    let group = Group::make(rt.alloc(), 4, limits(2))?;
    let (queue, passes) = CompletionQueue::make(rt.alloc(), 4, 1)?;
    let took = idle_second(&rt, &group, &queue, passes);
    let took = took.expect(&rt, "the clock can be read");
    assert!(rt; took < Duration::from_millis(20), "{took:?}");
    Ok(())
}

/// Starts an operation while the workers sleep. Answers how many are handled until the group has terminated.
fn start_late<R: Threads + Wait + Sync + Clock>(
    rt: &R,
    group: &Group,
    queue: &CompletionQueue,
    passes: Vec<QueuePass>,
) -> u64
    requires passes { All (IsPassOf queue.now) passes.items }
    requires few { length passes.items ≤ 65 }
{
    let handler = Refilling {
        handled: AtomicU64::new(0),
        had_too_many: AtomicBool::new(false),
    };
    let refilling = &handler;
    join(
        rt,
        || {
            thread::sleep(rt, Duration::from_millis(200));
            let _ = start_read(&mut group.lock(rt));
            group.wake(rt);
        },
        move ||
            requires { IsSync R.row × All (IsPassOf queue.now) passes.items × (length passes.items ≤ 65) }
        {
            let mut passes = passes;
            run_workers(rt, group, queue, passes.as_mut_slice(), refilling, &NoGate);
        },
    );
    handler.handled.load(Ordering::SeqCst)
}

#[test]
fn sleeper_is_woken(rt: HostRuntime) -> Result<(), Fail> {
    let group = Group::make(rt.alloc(), 2, limits(1))?;
    let (queue, passes) = CompletionQueue::make(rt.alloc(), 2, 1)?;
    close_stream(&mut group.lock(&rt))?;
    assert_eq!(rt; start_late(&rt, &group, &queue, passes), 1);
    Ok(())
}

/// Holds the worker that comes first until it is opened, and lets the other pass. Counts what is handled.
#[derive(Drop)]
struct HoldsFirst {
    came: AtomicU64,
    handled: AtomicU64,
    is_open: Mutex<bool>,
    opened: Condvar,
}

impl HoldsFirst {
    fn new() -> HoldsFirst {
        HoldsFirst {
            came: AtomicU64::new(0),
            handled: AtomicU64::new(0),
            is_open: Mutex::new(false),
            opened: Condvar::new(),
        }
    }

    fn open<R: Wait>(&self, rt: &R) {
        *self.is_open.lock(rt) = true;
        self.opened.notify_all();
    }
}

impl Gate for HoldsFirst {
    fn pass<R: Wait>(&self, rt: &R, _who: u32, _what: u64) {
        if self.came.fetch_add(1, Ordering::SeqCst) != 0 {
            return;
        }
        let mut is_open = self.is_open.lock(rt);
        for _ in rt.forever() {
            if *is_open {
                return;
            }
            is_open = self.opened.wait(rt, is_open);
        }
        unreachable!()
    }
}

impl Handler for HoldsFirst {
    fn completed<R: Wait>(&self, _rt: &R, _group: &Group, _done: Handed) {
        self.handled.fetch_add(1, Ordering::SeqCst);
    }
}

/// How often a thread looks whether a count has come so far, at least 50 microseconds apart, before it gives up.
const LOOKS: u32 = 200_000;

/// Whether the count comes so far in time.
fn comes_to<R: Clock>(rt: &R, count: &AtomicU64, wanted: u64) -> bool {
    for _ in 0..LOOKS {
        if count.load(Ordering::SeqCst) >= wanted {
            return true;
        }
        thread::sleep(rt, Duration::from_micros(50));
    }
    false
}

/// Where a completion is left to the workers.
#[derive(Clone, Copy)]
enum LeftIn {
    Group,
    Queue,
}

/// Starts an operation, which completes at once, and calls a worker.
fn complete_one<R: Wait>(
    rt: &R,
    group: &Group,
    queue: &CompletionQueue,
    pass: &mut QueuePass,
    left_in: LeftIn,
)
    requires { IsPassOf queue.now pass.old }
    ensures { IsPassOf queue.now pass.new }
{
    let mut core = group.lock(rt);
    let _ = start_read(&mut core);
    match left_in {
        LeftIn::Group => {
            drop(core);
            group.wake(rt);
        }
        LeftIn::Queue => {
            let moved = queue.move_from(rt, pass, &mut core);
            group.wake_for(core, moved.count);
        }
    }
}

/// How many operations complete one by one.
const ONE_BY_ONE: u64 = 200;

/// Completes an operation, and once a worker is held with that, the others one by one. Answers how many of these are
/// handled in time.
fn complete_beside_held<R: Wait + Clock>(
    rt: &R,
    group: &Group,
    queue: &CompletionQueue,
    pass: &mut QueuePass,
    left_in: LeftIn,
    gate: &HoldsFirst,
) -> u64
    requires { IsPassOf queue.now pass.old }
{
    complete_one(rt, group, queue, pass, left_in);
    if !comes_to(rt, &gate.came, 1) {
        return 0;
    }
    for before in 0..ONE_BY_ONE {
        complete_one(rt, group, queue, pass, left_in);
        if !comes_to(rt, &gate.handled, before + 1) {
            return before;
        }
    }
    ONE_BY_ONE
}

/// Two workers, of which one is held. Answers how many of the operations that complete meanwhile are handled in time.
fn handled_beside_held<R: Threads + Wait + Sync + Clock>(
    rt: &R,
    group: &Group,
    queue: &CompletionQueue,
    own: QueuePass,
    passes: Vec<QueuePass>,
    left_in: LeftIn,
) -> u64
    requires own { IsPassOf queue.now own }
    requires passes { All (IsPassOf queue.now) passes.items }
    requires few { length passes.items ≤ 65 }
{
    let gate = HoldsFirst::new();
    let held = &gate;
    let (handled, ()) = join(
        rt,
        move ||
            requires { IsPassOf queue.now own }
        {
            let mut own = own;
            let handled = complete_beside_held(rt, group, queue, &mut own, left_in, held);
            group.lock(rt).shutdown();
            group.wake(rt);
            held.open(rt);
            handled
        },
        move ||
            requires { IsSync R.row × All (IsPassOf queue.now) passes.items × (length passes.items ≤ 65) }
        {
            let mut passes = passes;
            run_workers(rt, group, queue, passes.as_mut_slice(), held, held);
        },
    );
    handled
}

/// As `handled_beside_held`, over a group of its own.
fn handled_in_new_group<R: Threads + Wait + Sync + Clock>(
    rt: &R,
    alloc: Global,
    left_in: LeftIn,
) -> Result<u64, Fail> {
    let group = Group::make(alloc, 2, limits(ONE_BY_ONE + 1))?;
    let (queue, mut passes) = CompletionQueue::make(alloc, 3, 4)?;
    let Some(own) = next_pass(&queue, &mut passes) else {
        return Ok(0);
    };
    if passes.len() != 2 {
        return Ok(0);
    }
    close_stream(&mut group.lock(rt))?;
    Ok(handled_beside_held(rt, &group, &queue, own, passes, left_in))
}

/// While a worker is held, the other one, which sleeps in between, handles all that completes.
#[test]
fn held_worker_holds_up_no_other_completion(rt: HostRuntime) -> Result<(), Fail> {
    let in_group = handled_in_new_group(&rt, rt.alloc(), LeftIn::Group)?;
    assert_eq!(rt; in_group, ONE_BY_ONE);
    let in_queue = handled_in_new_group(&rt, rt.alloc(), LeftIn::Queue)?;
    assert_eq!(rt; in_queue, ONE_BY_ONE);
    Ok(())
}

//! What the handlers of a group's completions share with each other and with the dispatcher.
ghost use mathlib.Core.List.{IsPrefix};
ghost use Rattle.nio_pool.specs.Queues.{GoesOn, IsPassOf};
ghost use Rattle.std.specs.Prelude.{◌≡◌, ◌+◌, length};

use crate::counts::Counters;
use crate::handlers::{handle, handle_batch};
use nio_group::{Completion, GroupCore, Job};
use nio_jobs::Streams;
use nio_pool::{CompletionQueue, Group, Handed, QueuePass};
use std::alloc::{AllocError, Global};
use std::sync::atomic::{AtomicBool, AtomicU64, Ordering};
use std::sync::{Mutex, Wait};
use std::thread;

// How often the dispatcher lets other threads run, at most, before it begins without a worker. It does so to the end
// only where starting the worker threads failed.
const YIELDS: u32 = 500_000;

/// The streams of the connections under a lock, and the jobs that handlers have handed over to the dispatcher. Who holds
/// the lock of the streams may take the group's lock, or that of the jobs; who holds one of these takes no other.
#[derive(Drop)]
pub(crate) struct SharedStreams {
    streams: Mutex<Streams>,
    jobs: Mutex<Vec<Job>>,
    // whether the dispatcher waits until it is told that jobs were handed over
    is_awaited: AtomicBool,
    // how many workers have begun
    workers: AtomicU64,
    pub counters: Counters,
}

impl SharedStreams {
    /// With room for so many channels, and for the jobs of so many operations.
    pub(crate) fn make(
        alloc: Global,
        channels: u32,
        flight: u32,
    ) -> Result<SharedStreams, AllocError> {
        Ok(SharedStreams {
            streams: Mutex::new(Streams::make(alloc, channels, flight)?),
            jobs: Mutex::new(Vec::with_capacity(alloc, flight as usize)?),
            is_awaited: AtomicBool::new(false),
            workers: AtomicU64::new(0),
            counters: Counters::new(),
        })
    }

    /// A worker has begun. It works until the group has terminated.
    pub(crate) fn join_in(&self) {
        self.workers.fetch_add(1, Ordering::SeqCst);
    }

    /// Lets other threads run until a worker has begun, so many times at most.
    pub(crate) fn await_worker(&self) {
        for _ in 0..YIELDS {
            if self.has_worker() {
                return;
            }
            thread::yield_now();
        }
    }

    /// Whether a worker has begun.
    pub(crate) fn has_worker(&self) -> bool {
        self.workers.load(Ordering::SeqCst) != 0
    }

    /// Opens the listener's channel, and starts its first accept.
    pub(crate) fn listen<R: Wait>(&self, rt: &R, group: &Group) {
        let mut streams = self.streams.lock(rt);
        let mut core = group.lock(rt);
        streams.listen::<GroupCore>(&mut core);
        drop(core);
        self.hand_over(rt, &mut streams);
    }

    /// Handles this completion and others that wait with it, under one getting of the locks, and hands the jobs of what
    /// that starts over in one piece. Says how many it handled, and whether the dispatcher is to be told of jobs.
    pub(crate) fn handle<R: Wait>(
        &self,
        rt: &R,
        group: &Group,
        queue: &CompletionQueue,
        pass: &mut QueuePass,
        first: Handed,
    ) -> (u64, bool)
        requires { IsPassOf queue.now pass.old }
        ensures pass { GoesOn queue.now pass.old pass.new }
        ensures put { pass.new.hand.put ≡ pass.old.hand.put }
        ensures counted { length pass.new.hand.taken + 1 ≡ length pass.old.hand.taken + result.0 }
    {
        let mut streams = self.streams.lock(rt);
        let mut core = group.lock(rt);
        let count = handle_batch(rt, &mut streams, &mut core, queue, pass, first);
        drop(core);
        (count, self.hand_over(rt, &mut streams))
    }

    /// Handles a completion that isn't in the queue, as the dispatcher does where that has no room.
    pub(crate) fn handle_alone<R: Wait>(&self, rt: &R, group: &Group, done: &Completion) {
        let mut streams = self.streams.lock(rt);
        let mut core = group.lock(rt);
        handle(&mut streams, &mut core, done);
        drop(core);
        self.hand_over(rt, &mut streams);
    }

    // Hands the jobs of what was started over. Says whether the dispatcher is to be told: it waits, and wasn't told yet.
    fn hand_over<R: Wait>(&self, rt: &R, streams: &mut Streams) -> bool
        ensures { streams.new.held ≡ streams.old.held }
    {
        if !streams.has_started() {
            return false;
        }
        streams.move_started_to(&mut self.jobs.lock(rt));
        self.is_awaited.load(Ordering::SeqCst) && self.is_awaited.swap(false, Ordering::SeqCst)
    }

    /// Moves the jobs that were handed over to the end of the dispatcher's.
    pub(crate) fn take_over<R: Wait>(&self, rt: &R, arrived: &mut Vec<Job>)
        ensures { IsPrefix arrived.old.items arrived.new.items }
    {
        let mut jobs = self.jobs.lock(rt);
        let _ = arrived.append(&mut jobs);
    }

    /// The dispatcher is about to wait. False where it isn't to: jobs have been handed over since it took them.
    pub(crate) fn await_jobs<R: Wait>(&self, rt: &R) -> bool {
        self.is_awaited.store(true, Ordering::SeqCst);
        // whoever hands jobs over after this look finds that they are awaited
        if self.jobs.lock(rt).is_empty() {
            return true;
        }
        self.is_awaited.store(false, Ordering::SeqCst);
        false
    }

    /// The dispatcher doesn't wait any more. Says whether it was told that jobs were handed over.
    pub(crate) fn stop_awaiting(&self) -> bool {
        !self.is_awaited.swap(false, Ordering::SeqCst)
    }
}

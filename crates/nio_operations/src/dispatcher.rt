//! The dispatcher of a group: the thread that makes the calls on the net.
ghost use mathlib.Core.List.{IsPrefix};
ghost use Rattle.std.specs.Prelude.{◌≡◌, ◌⊎◌, []};
ghost use Rattle.nio_operations.specs.Reporting.{ReportsAndMoves};
ghost use Rattle.nio_pool.specs.Queues.{GoesOn, IsPassOf};

use crate::handlers::ProxyHandler;
use crate::streams::SharedStreams;
use nio_group::{GroupCore, Job};
use nio_jobs::{Done, Exchange, report_all};
use nio_poller::NoBell;
use nio_pool::{CompletionQueue, Group, Moved, QueuePass, handle_waiting};
use std::sync::atomic::Ordering;
use std::sync::{MutexGuard, Wait};
use std::thread;

/// Exchanges jobs with a group between threads, whose workers handle the completions. It puts these into the workers'
/// queue, as many as a round has, and wakes as many workers as can use them. What they start comes with a later exchange.
///
/// It handles completions itself, by its own pass, where no worker has begun. It also does so with a single completion
/// while all workers sleep and it has no job to go on with: it would wait for that one handler alone.
#[derive(Drop)]
pub(crate) struct Dispatcher<'a, R> {
    rt: &'a R,
    group: &'a Group,
    queue: &'a CompletionQueue,
    pass: QueuePass,
    streams: &'a SharedStreams,
    ghost its: { IsPassOf queue.now pass },
}

impl<'a, R: Wait> Exchange for Dispatcher<'a, R> {
    fn exchange<S: Wait>(&mut self, _rt: &S, done: &mut Vec<Done>, arrived: &mut Vec<Job>) {
        self.streams.take_over(self.rt, arrived);
        self.report(done, arrived);
    }

    // Where workers handle completions they are reported a round at a time.
    fn exchange_early(&mut self, done: &mut Vec<Done>, arrived: &mut Vec<Job>)
        ensures reported { (done.new.items ≡ []) ⊎ (done.new.items ≡ done.old.items) }
        ensures kept { IsPrefix arrived.old.items arrived.new.items }
    {
        if self.is_prompt() {
            self.report(done, arrived);
        }
    }

    fn is_prompt(&self) -> bool {
        !self.streams.has_worker()
    }

    fn may_wait(&mut self) -> bool {
        self.streams.await_jobs(self.rt)
    }

    // A net in memory doesn't wait: then others may run.
    fn has_waited(&mut self, in_vain: bool) {
        let was_told = self.streams.stop_awaiting();
        if in_vain && !was_told {
            thread::yield_now();
        }
    }
}

impl<'a, R: Wait> Dispatcher<'a, R> {
    /// Of a group whose workers share this queue; `pass` is the dispatcher's own.
    pub(crate) fn over(
        rt: &'a R,
        group: &'a Group,
        queue: &'a CompletionQueue,
        pass: QueuePass,
        streams: &'a SharedStreams,
    ) -> Dispatcher<'a, R>
        requires { IsPassOf queue.now pass }
        ensures queue { result.queue.now ≡ queue.now }
        ensures pass { result.pass ≡ pass }
    {
        Dispatcher {
            rt,
            group,
            queue,
            pass,
            streams,
        }
    }

    // Reports what the calls came to, under one getting of the group's lock, and sees that the completions of that are
    // handled.
    fn report(&mut self, done: &mut Vec<Done>, arrived: &mut Vec<Job>)
        ensures reported { done.new.items ≡ [] }
        ensures kept { IsPrefix arrived.old.items arrived.new.items }
        ensures pass { GoesOn self.old.queue.now self.old.pass self.new.pass }
    {
        if done.is_empty() {
            return;
        }
        let mut core = self.group.lock(self.rt);
        let moved = self.report_and_move(&mut core, done, arrived);
        done.clear();
        self.see_to(core, moved, arrived);
    }

    // Reports all, takes the jobs of the operations that are still pending, and moves the completions into the queue.
    fn report_and_move(
        &mut self,
        core: &mut GroupCore,
        done: &[Done],
        arrived: &mut Vec<Job>,
    ) -> Moved
        ensures moves { ReportsAndMoves done.now core.old core.new self.old.pass self.new.pass result }
        ensures kept { IsPrefix arrived.old.items arrived.new.items }
    {
        report_all::<GroupCore>(core, done, arrived);
        self.queue.move_from(self.rt, &mut self.pass, core)
    }

    // Sees that the completions are handled that were moved into the queue: wakes workers for them, or handles them
    // itself, and takes the jobs of what that starts. With a single one it would wait, where it has no job to go on
    // with. Where the queue has no room, more may be left in the core.
    fn see_to(&mut self, core: MutexGuard<'_, GroupCore>, moved: Moved, arrived: &mut Vec<Job>)
        ensures kept { IsPrefix arrived.old.items arrived.new.items }
        ensures pass { GoesOn self.old.queue.now self.old.pass self.new.pass }
    {
        let would_wait = moved.count == 1 && arrived.is_empty() && self.group.are_all_asleep();
        if would_wait || moved.back.is_some() || !self.streams.has_worker() {
            drop(core);
            self.handle_moved(moved);
            self.handle_rest();
            self.streams.take_over(self.rt, arrived);
        } else {
            self.group.wake_for(core, moved.count);
        }
    }

    // Handles what waits in the queue, as a worker does, and the completion that it had no room for.
    fn handle_moved(&mut self, moved: Moved)
        ensures pass { GoesOn self.old.queue.now self.old.pass self.new.pass }
        ensures put { self.new.pass.hand.put ≡ self.old.pass.hand.put }
        ensures queue { self.new.queue.now ≡ self.old.queue.now }
    {
        let count = &self.streams.counters.by_dispatcher;
        let handler = ProxyHandler {
            streams: self.streams,
            bell: &NoBell,
            count,
        };
        handle_waiting(self.rt, self.group, self.queue, &mut self.pass, &handler);
        if let Some(done) = moved.back {
            self.streams.handle_alone(self.rt, self.group, &done);
            count.fetch_add(1, Ordering::SeqCst);
        }
    }

    // Handles what is queued in the core since, as by handlers.
    fn handle_rest(&mut self)
        ensures { GoesOn self.old.queue.now self.old.pass self.new.pass }
    {
        for _ in self.rt.forever() {
            let mut core = self.group.lock(self.rt);
            let moved = self.queue.move_from(self.rt, &mut self.pass, &mut core);
            drop(core);
            if moved.count == 0 && moved.back.is_none() {
                return;
            }
            self.handle_moved(moved);
        }
        unreachable!()
    }
}

//! The handlers of a proxy's completions.
ghost use Rattle.std.specs.Prelude.{◌≡◌};
ghost use Rattle.nio_operations.specs.Handling.{Handles, after_due, after_handled, held_after_due};
ghost use Rattle.nio_pool.specs.Queues.{IsPassOf};

use crate::streams::SharedStreams;
use nio_group::{Completion, GroupCore};
use nio_jobs::Streams;
use nio_poller::Bell;
use nio_pool::{BATCH, BatchHandler, CompletionQueue, Group, Handed, QueuePass};
use std::sync::Wait;
use std::sync::atomic::{AtomicU64, Ordering};

/// Starts what is due once operations have completed, and rings for the dispatcher where that waits for a job.
#[derive(Drop)]
pub(crate) struct ProxyHandler<'a, B> {
    pub streams: &'a SharedStreams,
    pub bell: &'a B,
    /// How many completions were handled by whoever has this handler.
    pub count: &'a AtomicU64,
}

impl<'a, B: Bell> BatchHandler for ProxyHandler<'a, B> {
    fn completed_all<R: Wait>(
        &self,
        rt: &R,
        group: &Group,
        queue: &CompletionQueue,
        pass: &mut QueuePass,
        first: Handed,
    ) {
        let (count, is_awaited) = self.streams.handle(rt, group, queue, pass, first);
        self.count.fetch_add(count, Ordering::SeqCst);
        if is_awaited {
            self.bell.ring();
        }
    }
}

/// Handles the completion `first` and further ones, which it takes with the pass from the front of the queue, up to
/// `BATCH` in all. Says how many.
pub(crate) fn handle_batch<R: Wait>(
    rt: &R,
    streams: &mut Streams,
    core: &mut GroupCore,
    queue: &CompletionQueue,
    pass: &mut QueuePass,
    first: Handed,
) -> u64
    requires { IsPassOf queue.now pass.old }
    ensures handles { Handles first (record { held = streams.old.held; group = core.old })
        (record { held = streams.new.held; group = core.new }) pass.old pass.new result }
    ensures pass { IsPassOf queue.now pass.new }
{
    handle(streams, core, first.done());
    for count in 1..BATCH {
        let Some(next) = queue.take(rt, pass) else {
            return count;
        };
        handle(streams, core, next.done());
    }
    BATCH
}

/// Starts what is due once an operation has completed, and ends the operation.
pub(crate) fn handle(streams: &mut Streams, core: &mut GroupCore, done: &Completion)
    ensures core { core.new ≡ after_handled streams.old.held core.old done.now }
    ensures held { streams.new.held ≡ held_after_due streams.old.held core.old done.now }
{
    streams.go_on(core, done.chan(), done.kind(), done.result());
    // it runs, since its completion was taken
    let _ = core.finish(done.op());
}

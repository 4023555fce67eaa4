//! The workers of a group.
ghost use Rattle.std.specs.Prelude.{◌≡◌, ◌∷◌, ◌++◌, [], IfErr, IfNone, IsTrue, OnErr, OnOk};
ghost use Rattle.std.specs.Sync.Mutex.{mutex_guard_value};
ghost use Rattle.nio_group.specs.Group.{is_terminated, IsLawful};
ghost use Rattle.nio_pool.specs.Batches.{numbers_in, FindsBatch, IsBatch, PutsBatches, TakesInto};
ghost use Rattle.nio_pool.specs.Hands.{number};
ghost use Rattle.nio_pool.specs.Queues.{IsPassOf, GoesOn, IsDrained};
ghost use Rattle.nio_pool.specs.declared.worker.Found.TheVariants.{End};

use crate::alone::Alone;
use crate::group::Group;
use crate::queue::{CompletionQueue, Handed, QueuePass};
use nio_base::Gate;
use nio_group::{Completion, GroupCore};
use std::array;
use std::sync::{MutexGuard, Wait};

/// What is called with each completion.
pub trait Handler {
    /// The operation has completed. It ends when this returns. The group isn't locked, so a handler may start
    /// operations, close channels and shut the group down.
    fn completed<R: Wait>(&self, rt: &R, group: &Group, done: Handed);
}

/// How many completions a handler of batches is called with at most.
pub const BATCH: u64 = 16;

/// What is called with a completion, and with others that wait with it.
pub trait BatchHandler {
    /// The operation of `first` has completed. The handler may take further completions with the pass, up to `BATCH`
    /// in all: it has to handle what it takes, and to end each operation in the core. It calls `finish` of none but
    /// these. The group isn't locked.
    fn completed_all<R: Wait>(
        &self,
        rt: &R,
        group: &Group,
        queue: &CompletionQueue,
        pass: &mut QueuePass,
        first: Handed,
    )
        requires { IsPassOf queue.now pass.old }
        ensures pass { GoesOn queue.now pass.old pass.new }
        ensures put { pass.new.hand.put ≡ pass.old.hand.put };
}

/// Completions on their way from the group to the queue.
type Batch = [Option<Completion>; 16];

/// What a worker finds under the lock.
enum Found {
    /// Completions that nobody has put into the queue yet.
    Fresh(Batch),
    /// One that came into the queue meanwhile.
    Waiting(Handed),
    /// The group has terminated.
    End,
}

/// What a worker works with.
#[derive(Drop)]
struct Worker<'a, H, G> {
    group: &'a Group,
    queue: &'a CompletionQueue,
    handler: &'a H,
    gate: &'a G,
    me: u32,
}

/// Works as the worker `me` of the group until it has terminated. It takes a completion from the queue, passes the
/// test gate with `me` and the operation's number, calls the handler, and notes that the operation has ended: from then
/// on nobody who locks the group finds it running. Where the queue is empty it puts up to 16 of the group's completions
/// there, and where there are none it sleeps. While it leaves completions in the queue and another worker sleeps, it
/// calls that one before it passes the gate. Where the queue has no room for all that it took from the group, it handles
/// one from the queue before it goes on: the rest waits until that handler has returned, also while other workers sleep.
/// With room for as many as can be in flight that doesn't come. With a pass that has all parts it leaves the queue empty.
pub fn work<R: Wait, H: Handler, G: Gate>(
    rt: &R,
    group: &Group,
    queue: &CompletionQueue,
    pass: &mut QueuePass,
    handler: &H,
    gate: &G,
    me: u32,
)
    requires { IsPassOf queue.now pass.old }
    ensures pass { GoesOn queue.now pass.old pass.new }
    ensures put { PutsBatches pass.old.hand.put pass.new.hand.put }
    ensures drained { IsDrained queue.now pass.new }
{
    let alone = Alone::over(group, handler);
    work_in_batches(rt, group, queue, pass, &alone, gate, me);
    alone.leave();
}

/// Works as `work` does, but with a handler of batches: it passes the test gate with the number of the first operation
/// of a batch, before the handler takes the others, and leaves it to the handler to end the operations. So a worker that
/// is held at the gate has one completion; the others wait in the queue for any worker.
pub fn work_in_batches<R: Wait, H: BatchHandler, G: Gate>(
    rt: &R,
    group: &Group,
    queue: &CompletionQueue,
    pass: &mut QueuePass,
    handler: &H,
    gate: &G,
    me: u32,
)
    requires { IsPassOf queue.now pass.old }
    ensures pass { GoesOn queue.now pass.old pass.new }
    ensures put { PutsBatches pass.old.hand.put pass.new.hand.put }
    ensures drained { IsDrained queue.now pass.new }
{
    let worker = Worker {
        group,
        queue,
        handler,
        gate,
        me,
    };
    drop(worker.work(rt, pass));
}

/// Handles what waits in the queue, as a worker does, but passes no test gate: for a thread that is no worker. It returns
/// where it finds the queue empty.
pub fn handle_waiting<R: Wait, H: BatchHandler>(
    rt: &R,
    group: &Group,
    queue: &CompletionQueue,
    pass: &mut QueuePass,
    handler: &H,
)
    requires { IsPassOf queue.now pass.old }
    ensures pass { GoesOn queue.now pass.old pass.new }
    ensures put { pass.new.hand.put ≡ pass.old.hand.put }
    ensures drained { IsDrained queue.now pass.new }
{
    for _ in rt.forever() {
        let Some(first) = take(rt, queue, pass) else {
            return;
        };
        handler.completed_all(rt, group, queue, pass, first);
    }
    unreachable!()
}

// As the queue's `take`, with the clause that loops keep.
fn take<R: Wait>(rt: &R, queue: &CompletionQueue, pass: &mut QueuePass) -> Option<Handed>
    requires { IsPassOf queue.now pass.old }
    ensures pass { GoesOn queue.now pass.old pass.new }
    ensures put { pass.new.hand.put ≡ pass.old.hand.put }
    ensures drained { IfNone result (IsDrained queue.now pass.new) }
{
    queue.take(rt, pass)
}

// As the queue's `put`, with the clause that loops keep.
fn put<R: Wait>(
    rt: &R,
    queue: &CompletionQueue,
    pass: &mut QueuePass,
    done: Completion,
) -> Result<(), Completion>
    requires { IsPassOf queue.now pass.old }
    ensures pass { GoesOn queue.now pass.old pass.new }
    ensures put { OnOk result (pass.new.hand.put ≡ pass.old.hand.put ++ number done ∷ []) }
    ensures back { IfErr result (λ back. back ≡ done) }
    ensures unchanged { OnErr result (pass.new.hand.put ≡ pass.old.hand.put) }
{
    queue.put(rt, pass, done)
}

// The completions at the front of the group's own queue.
fn next_batch(core: &mut GroupCore) -> Batch
    ensures takes { TakesInto result core.old core.new }
    ensures batch { IsBatch result }
{
    core.law();
    let mut batch = array::from_fn(|_| None);
    for slot in &mut batch {
        *slot = core.take();
    }
    batch
}

impl<'a, H: BatchHandler, G: Gate> Worker<'a, H, G> {
    // Works until the group has terminated, and lends its core.
    fn work<R: Wait>(&self, rt: &R, pass: &mut QueuePass) -> MutexGuard<'a, GroupCore>
        requires { IsPassOf self.now.queue.now pass.old }
        ensures pass { GoesOn self.now.queue.now pass.old pass.new }
        ensures put { PutsBatches pass.old.hand.put pass.new.hand.put }
        ensures drained { IsDrained self.now.queue.now pass.new }
        ensures terminated { IsTrue (is_terminated (mutex_guard_value result)) }
        ensures lawful { IsLawful (mutex_guard_value result) }
    {
        for _ in rt.forever() {
            match take(rt, self.queue, pass) {
                Some(handed) => self.serve(rt, pass, handed),
                None => match self.find(rt, pass) {
                    Found::Fresh(batch) => self.put_all(rt, pass, batch),
                    Found::Waiting(handed) => self.serve(rt, pass, handed),
                    Found::End => {
                        self.group.wake_all();
                        return self.group.await_termination(rt);
                    }
                },
            }
        }
        unreachable!()
    }

    // Calls a sleeping worker for what else waits in the queue, and then the handler. Where it ends the last operation,
    // this worker finds next that the group has terminated.
    fn serve<R: Wait>(&self, rt: &R, pass: &mut QueuePass, first: Handed)
        requires { IsPassOf self.now.queue.now pass.old }
        ensures pass { GoesOn self.now.queue.now pass.old pass.new }
        ensures put { pass.new.hand.put ≡ pass.old.hand.put }
    {
        if self.group.can_call() && !self.queue.is_empty(pass) {
            self.group.call(rt);
        }
        self.gate.pass(rt, self.me, first.done().op().0);
        self.handler
            .completed_all(rt, self.group, self.queue, pass, first);
    }

    // Looks under the lock for something to do, and sleeps while there is nothing.
    fn find<R: Wait>(&self, rt: &R, pass: &mut QueuePass) -> Found
        requires pass { IsPassOf self.now.queue.now pass.old }
        requires drained { IsDrained self.now.queue.now pass.old }
        ensures pass { GoesOn self.now.queue.now pass.old pass.new }
        ensures put { pass.new.hand.put ≡ pass.old.hand.put }
        ensures batch { FindsBatch result }
        ensures end { result ≡ End → IsDrained self.now.queue.now pass.new }
    {
        let mut core = self.group.lock(rt);
        for _ in rt.forever() {
            let batch = next_batch(&mut core);
            if batch[0].is_some() {
                return Found::Fresh(batch);
            }
            if core.is_terminated() {
                return Found::End;
            }
            self.group.announce_sleep();
            // completions may have been put since the queue was found empty
            match take(rt, self.queue, pass) {
                None => core = self.group.sleep(rt, core),
                Some(handed) => {
                    self.group.end_sleep();
                    return Found::Waiting(handed);
                }
            }
            self.group.end_sleep();
        }
        unreachable!()
    }

    // Puts the completions into the queue. Calls a sleeping worker for what may be left in the group.
    fn put_all<R: Wait>(&self, rt: &R, pass: &mut QueuePass, batch: Batch)
        requires { IsPassOf self.now.queue.now pass.old }
        ensures pass { GoesOn self.now.queue.now pass.old pass.new }
        ensures put { pass.new.hand.put ≡ pass.old.hand.put ++ numbers_in batch }
    {
        // a full batch may have left more in the group
        if batch[15].is_some() && self.group.can_call() {
            self.group.call(rt);
        }
        for slot in batch {
            if let Some(done) = slot {
                self.put_next(rt, pass, done);
            }
        }
    }

    // Puts one more completion. While the queue is full it handles one itself.
    fn put_next<R: Wait>(&self, rt: &R, pass: &mut QueuePass, done: Completion)
        requires { IsPassOf self.now.queue.now pass.old }
        ensures pass { GoesOn self.now.queue.now pass.old pass.new }
        ensures put { pass.new.hand.put ≡ pass.old.hand.put ++ number done ∷ [] }
    {
        let mut done = done;
        for _ in rt.forever() {
            match put(rt, self.queue, pass, done) {
                Ok(()) => return,
                Err(back) => done = back,
            }
            if let Some(handed) = take(rt, self.queue, pass) {
                self.serve(rt, pass, handed);
            }
        }
        unreachable!()
    }
}

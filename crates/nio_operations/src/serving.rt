//! Serving a plan by the operations of a group.
ghost use Rattle.std.specs.Prelude.{◌≡◌, ◌+◌, ◌*◌, ◌<◌, ◌≤◌, All, IfOk, IfSome, IsSomeAnd, length};
ghost use Rattle.std.specs.Thread.{IsSync};
ghost use Rattle.nio_link.specs.Nets.{view_of};
ghost use Rattle.nio_jobs.specs.ByJobs.{IsNew, exchange_of};
ghost use Rattle.nio_pool.specs.Queues.{IsPassOf};
ghost use Rattle.nio_jobs.specs.Plans.{HasSlotForEach};
ghost use Rattle.nio_serve.specs.Serving.{IsFresh, Serves};

use crate::counts::HandledCounts;
use crate::dispatcher::Dispatcher;
use crate::handlers::ProxyHandler;
use crate::streams::SharedStreams;
use nio_base::Gate;
use nio_group::GroupLimits;
use nio_jobs::ByJobs;
use nio_link::{JobNet, Net};
use nio_poller::Bell;
use nio_pool::{CompletionQueue, Group, QueuePass, work_in_batches};
use nio_relay::{ProxyPlan, Served};
use nio_serve::{ServeError, serve};
use std::alloc::{AllocError, Global};
use std::sync::Wait;
use std::thread;
use std::thread::Threads;

// How many channels the group of this plan has: the listener's, and two for each connection.
fn channels_of(plan: ProxyPlan) -> u32
    requires { HasSlotForEach plan }
    ensures { result ≡ 2 * plan.conns + 1 }
{
    2 * plan.conns + 1
}

// How many operations of this plan's group are in flight at most: an accept, a read and a write for each stream, and
// some more, since a handler starts what is due before it ends its own operation.
fn flight_of(plan: ProxyPlan) -> u32
    requires { HasSlotForEach plan }
    ensures { result ≡ 4 * plan.conns + 66 }
{
    4 * plan.conns + 66
}

// What the dispatcher and the workers share.
#[derive(Drop)]
struct SharedGroup {
    group: Group,
    queue: CompletionQueue,
    streams: SharedStreams,
}

impl SharedGroup {
    // With a pass of the queue for the dispatcher, and one for each worker.
    fn make(
        alloc: Global,
        plan: ProxyPlan,
        workers: u32,
    ) -> Result<(SharedGroup, Option<QueuePass>, Vec<QueuePass>), AllocError>
        requires plan { HasSlotForEach plan }
        requires workers { (1 ≤ workers) × (workers ≤ 64) }
        ensures own { IfOk result (λ made. IsSomeAnd made.1 (IsPassOf made.0.queue)) }
        ensures passes { IfOk result (λ made. All (IsPassOf made.0.queue) made.2.items) }
        ensures count { IfOk result (λ made. length made.2.items ≡ workers) }
    {
        let channels = channels_of(plan);
        let flight = flight_of(plan);
        let limits = GroupLimits {
            channels,
            flight,
            ops: 1 << 62,
        };
        let Ok(group) = Group::make(alloc, i64::from(workers), limits) else {
            return Err(AllocError);
        };
        let streams = SharedStreams::make(alloc, channels, flight)?;
        let (queue, passes) = CompletionQueue::make(alloc, workers + 1, flight)?;
        let shared = SharedGroup {
            group,
            queue,
            streams,
        };
        let mut passes = passes;
        let own = passes.pop();
        Ok((shared, own, passes))
    }
}

// Works with each pass in a thread of its own, as the worker with the pass's place, until the group has terminated.
fn work_all<R: Threads + Wait + Sync, B: Bell + Sync, G: Gate + Sync>(
    rt: &R,
    shared: &SharedGroup,
    passes: &mut [QueuePass],
    bell: &B,
    gate: &G,
)
    requires passes { All (IsPassOf shared.now.queue) passes.old }
    requires few { length passes.old ≤ 64 }
{
    let threads = passes.len().max(1);
    let SharedGroup {
        group,
        queue,
        streams,
    } = shared;
    thread::for_each_mut(
        rt,
        passes,
        threads,
        &|me, pass|
            requires { (me < 64) × IsPassOf queue.now pass.old }
        {
            streams.join_in();
            let handler = ProxyHandler {
                streams,
                bell,
                count: streams.counters.of_worker(me),
            };
            work_in_batches(rt, group, queue, pass, &handler, gate, me as u32);
        },
    );
}

// What a proxy answers that has no memory to begin.
fn no_memory<N: Net>(net: &JobNet<N>, plan: ProxyPlan) -> Result<Served, ServeError>
    requires fresh { IsFresh (view_of N.Net net.now) }
    ensures { Serves plan (view_of N.Net net.now) (view_of N.Net net.now) result }
{
    let _ = net;
    Err(ServeError::Memory)
}

// The way by jobs of the group, in which the listener accepts; `own` is the dispatcher's pass.
fn open_way<'a, R: Wait>(
    rt: &'a R,
    alloc: Global,
    shared: &'a SharedGroup,
    own: QueuePass,
    plan: ProxyPlan,
) -> Result<ByJobs<Dispatcher<'a, R>>, AllocError>
    requires plan { HasSlotForEach plan }
    requires pass { IsPassOf shared.now.queue own }
    ensures new { IfOk result (λ way. IsNew (exchange_of way) (2 * plan.conns + 1) (4 * plan.conns + 66) way) }
    ensures queue { IfOk result (λ way. (exchange_of way).queue.now ≡ shared.now.queue) }
    ensures pass { IfOk result (λ way. (exchange_of way).pass ≡ own) }
{
    let SharedGroup {
        group,
        queue,
        streams,
    } = shared;
    streams.listen(rt, group);
    let dispatcher = Dispatcher::over(rt, group, queue, own, streams);
    ByJobs::make(alloc, dispatcher, channels_of(plan), flight_of(plan))
}

// Serves the plan with the jobs that the group hands out.
fn serve_by_jobs<R: Wait, N: Net>(
    rt: &R,
    alloc: Global,
    net: &mut JobNet<N>,
    shared: &SharedGroup,
    own: QueuePass,
    plan: ProxyPlan,
) -> Result<Served, ServeError>
    requires plan { HasSlotForEach plan }
    requires pass { IsPassOf shared.now.queue own }
    requires fresh { IsFresh (view_of N.Net net.old) }
    ensures { Serves plan (view_of N.Net net.old) (view_of N.Net net.new) result }
{
    match open_way(rt, alloc, shared, own, plan) {
        Ok(mut way) => serve(rt, alloc, &mut way, net, plan),
        Err(AllocError) => no_memory(net, plan),
    }
}

// Closes all channels of the group. It terminates once the workers have handled what was pending.
fn close_group<R: Wait>(rt: &R, group: &Group) {
    group.lock(rt).shutdown_now();
    group.wake(rt);
}

// Is the dispatcher: serves the plan, and then closes the group, so that the workers end. Where threads can be made, it
// begins once a worker has.
fn dispatch<R: Wait, N: Net>(
    rt: &R,
    alloc: Global,
    net: &mut JobNet<N>,
    shared: &SharedGroup,
    own: &mut Option<QueuePass>,
    has_threads: bool,
    plan: ProxyPlan,
) -> Result<Served, ServeError>
    requires plan { HasSlotForEach plan }
    requires pass { IfSome own.old (IsPassOf shared.now.queue) }
    requires fresh { IsFresh (view_of N.Net net.old) }
    ensures { Serves plan (view_of N.Net net.old) (view_of N.Net net.new) result }
{
    if has_threads {
        shared.streams.await_worker();
    }
    let served = match own.take() {
        Some(own) => serve_by_jobs(rt, alloc, net, shared, own, plan),
        None => no_memory(net, plan),
    };
    close_group(rt, &shared.group);
    served
}

// Whether a thread can be made now.
fn can_make_threads<R: Threads + Wait>(rt: &R) -> bool {
    match thread::spawn(rt, || ()) {
        Ok(made) => {
            made.join(rt);
            true
        }
        Err(_refused) => false,
    }
}

/// How a proxy ended, and how many completions each has handled.
#[derive(Clone, Copy)]
pub struct CountedServe {
    pub served: Result<Served, ServeError>,
    pub counts: HandledCounts,
}

/// Relays as many connections as the plan says, and then ends, by the operations of an asynchronous channel group. The
/// calling thread is the dispatcher: it polls the net, makes each call on it for a job of the group's, and reports what
/// the calls of a round came to. The handlers run on this many workers, each in a thread of its own. A worker takes a
/// completion from the queue, passes the test gate, with its number and the operation's, and then handles it with up to
/// 15 others that wait: it starts what is due next. It rings the bell, which has to be that of the net, where the
/// dispatcher waits for what it started. So a handler that is held at the gate holds up no other connection while a
/// worker is free (tested only), but for an accept's: that one accepts the next client, so none comes while it is held.
///
/// The dispatcher handles completions itself, and passes no gate, until a worker has begun, as where no thread can be
/// made; and a single one that comes while all workers sleep and it has no job to go on with (`serve_group_counted` says
/// how often).
///
/// A connection ends when both of its directions are shut, or at the first fault of one of its links, which closes both
/// and is counted. At every end the links, the listener and the group are closed, and the workers have ended. `Memory`
/// is also answered where the proxy's own table refuses a call.
pub fn serve_group<R: Threads + Wait + Sync, N: Net, B: Bell + Sync, G: Gate + Sync>(
    rt: &R,
    alloc: Global,
    net: &mut JobNet<N>,
    bell: &B,
    gate: &G,
    plan: ProxyPlan,
    workers: u32,
) -> Result<Served, ServeError>
    requires plan { HasSlotForEach plan }
    requires workers { (1 ≤ workers) × (workers ≤ 64) }
    requires fresh { IsFresh (view_of N.Net net.old) }
    ensures { Serves plan (view_of N.Net net.old) (view_of N.Net net.new) result }
{
    serve_group_counted(rt, alloc, net, bell, gate, plan, workers).served
}

/// As `serve_group`, with the counts of what the dispatcher and the workers have handled.
pub fn serve_group_counted<R: Threads + Wait + Sync, N: Net, B: Bell + Sync, G: Gate + Sync>(
    rt: &R,
    alloc: Global,
    net: &mut JobNet<N>,
    bell: &B,
    gate: &G,
    plan: ProxyPlan,
    workers: u32,
) -> CountedServe
    requires plan { HasSlotForEach plan }
    requires workers { (1 ≤ workers) × (workers ≤ 64) }
    requires fresh { IsFresh (view_of N.Net net.old) }
    ensures { Serves plan (view_of N.Net net.old) (view_of N.Net net.new) result.served }
{
    let Ok((shared, own, passes)) = SharedGroup::make(alloc, plan, workers) else {
        return CountedServe {
            served: no_memory(net, plan),
            counts: HandledCounts::NONE,
        };
    };
    let mut own = own;
    let mut passes = passes;
    let has_threads = can_make_threads(rt);
    let mut served = Err(ServeError::Memory);
    thread::join_mut(
        rt,
        &mut ||
            requires { IsSync R.row × IsSync B.row × IsSync G.row × All (IsPassOf shared.queue) passes.items
                × (length passes.items ≤ 64) }
        { work_all(rt, &shared, passes.as_mut_slice(), bell, gate) },
        &mut || served = dispatch(rt, alloc, net, &shared, &mut own, has_threads, plan),
    );
    CountedServe {
        served,
        counts: shared.streams.counters.counts(),
    }
}

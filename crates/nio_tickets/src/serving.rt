//! Serving a plan by operations that have tickets.
ghost use Rattle.std.specs.Prelude.{◌≡◌, ◌+◌, ◌*◌, IfOk, IsSomeAnd};
ghost use Rattle.nio_link.specs.Nets.{view_of};
ghost use Rattle.nio_jobs.specs.ByJobs.{IsNew, exchange_of};
ghost use Rattle.nio_jobs.specs.Plans.{HasSlotForEach};
ghost use Rattle.nio_tickets.specs.Answers.{serve_answer_of};
ghost use Rattle.nio_tickets.specs.Handling.{opened};
ghost use Rattle.nio_serve.specs.Serving.{IsFresh, Serves};

use crate::clerk::Clerk;
use futures::task::{Doorbell, Solo};
use nio_jobs::ByJobs;
use nio_link::{JobNet, Net};
use nio_relay::{ProxyPlan, Served};
use nio_serve::{ServeError, serve};
use std::alloc::{AllocError, AllocGlobal, Global};
use std::random::RandomSource;
use std::sync::Wait;
use thiserror::Error;

/// Why a proxy by tickets ended before its plan was served.
#[derive(Clone, Copy, Debug, PartialEq, Eq, Error)]
pub enum FutureError {
    /// A poll failed, or the listener.
    #[error("the net failed")]
    NetFault,
    /// There is no memory or no random number, or the proxy's own table refused a call.
    #[error("out of memory")]
    Memory,
}

// How many channels the desk of this plan has: the listener's, and two for each connection.
fn channels_of(plan: ProxyPlan) -> u32
    requires { HasSlotForEach plan }
    ensures { result ≡ 2 * plan.conns + 1 }
{
    2 * plan.conns + 1
}

// How many tickets of this plan's desk are out at most: of an accept, and of a read and a write for each stream.
fn flight_of(plan: ProxyPlan) -> u32
    requires { HasSlotForEach plan }
    ensures { result ≡ 4 * plan.conns + 1 }
{
    4 * plan.conns + 1
}

// The way by jobs of a new desk, whose tickets are polled by the task of this executor.
fn open_way(
    executor: &Solo,
    alloc: Global,
    plan: ProxyPlan,
) -> Result<ByJobs<Clerk<'_>>, AllocError>
    requires { HasSlotForEach plan }
    ensures new { IfOk result (λ way. IsNew (exchange_of way) (2 * plan.conns + 1) (4 * plan.conns + 1) way) }
    ensures clerk { IfOk result (λ way. IsSomeAnd (exchange_of way)
        (λ state. state
        ≡ opened (2 * plan.conns + 1) (4 * plan.conns + 1) state.office.desk.source state.office.desk.places)) }
{
    let channels = channels_of(plan);
    let flight = flight_of(plan);
    let clerk = Clerk::open(executor, alloc, channels, flight)?;
    ByJobs::make(alloc, clerk, channels, flight)
}

// The loop's answer, with this crate's error of the same name.
fn with_own_error(answer: Result<Served, ServeError>) -> Result<Served, FutureError>
    ensures { serve_answer_of result ≡ answer }
{
    match answer {
        Ok(served) => Ok(served),
        Err(ServeError::NetFault) => Err(FutureError::NetFault),
        Err(ServeError::Memory) => Err(FutureError::Memory),
    }
}

/// Relays as many connections as the plan says, and then ends, by the operations of a desk. The calling thread makes
/// each call on the net for a job of a pending operation. It reports at once what the call came to, polls the tickets
/// of the operations that this ended by one `Round`, and starts what is due after each result. All rounds are polled in
/// one task of an executor, whose context is made once, before the proxy's first round; neither they nor the calls of the
/// desk take memory.
///
/// A connection ends when both of its directions are shut, or at the first fault of one of its links, which closes both
/// and is counted. At every end the links, the listener and the desk are closed. `Memory` is also answered where the
/// proxy's own table refuses a call, or where the executor lacks the random number that it needs.
pub fn serve_future<R, N: Net>(
    rt: &R,
    alloc: Global,
    net: &mut JobNet<N>,
    plan: ProxyPlan,
) -> Result<Served, FutureError>
where
    R: Wait + RandomSource + AllocGlobal,
    requires plan { HasSlotForEach plan }
    requires fresh { IsFresh (view_of N.Net net.old) }
    ensures { Serves plan (view_of N.Net net.old) (view_of N.Net net.new) (serve_answer_of result) }
{
    // No thread waits for a task there, so none sleeps at the doorbell.
    let Ok(executor) = Solo::new(rt, Doorbell::spinning()) else {
        return Err(FutureError::Memory);
    };
    let Ok(mut way) = open_way(&executor, alloc, plan) else {
        return Err(FutureError::Memory);
    };
    let served = serve(rt, alloc, &mut way, net, plan);
    way.into_exchange().close();
    with_own_error(served)
}

//! The command `proxy --way many`.
ghost use Rattle.std.specs.Prelude.{◌≡◌, ◌<◌, ◌≤◌, All, Err, drop, length, take};
ghost use Rattle.nio_link.specs.Nets.{view_of};
ghost use Rattle.nio_reactor.specs.Many.{ServesMany};
ghost use Rattle.nio_reactor.specs.Placing.{served_of};
ghost use Rattle.nio_reactor.specs.declared.many.ManyError.TheVariants.{Memory};
ghost use Rattle.nio_relay.specs.Plan.{IsServable};
ghost use Rattle.nio_serve.specs.Serving.{IsFresh};
ghost use Rattle.nio_run.specs.Many.{many_answer_of};

use crate::lending::{give_back, lend};
use nio_base::Gate;
use nio_link::Passable;
use nio_poller::Bell;
use nio_reactor::{ManyError, serve_many};
use nio_relay::{ProxyPlan, Served};
use nio_serve::ServeError;
use nio_trace::Trace;
use nio_words::Pass;
use std::alloc::Global;
use std::sync::Wait;
use std::thread::Threads;

/// Relays the connections of a plan by so many workers. They have the first of the nets `more`, and the first of the
/// bells. Where there are fewer nets than workers, that counts as want of memory.
pub(crate) fn serve_over_first<R, N: Passable + Send + Drop, B: Bell + Drop, G: Gate + Sync>(
    rt: &R,
    alloc: Global,
    net: &mut N,
    more: &mut Vec<N>,
    bells: Vec<B>,
    gate: &G,
    plan: ProxyPlan,
    workers: u32,
) -> Result<Served, ManyError>
where
    R: Threads + Wait + Sync,
    requires plan { IsServable plan }
    requires workers { (1 ≤ workers) × (workers ≤ 15) }
    requires fresh { IsFresh (view_of N.Net net.old) }
    requires more { All (λ x. IsFresh (view_of N.Net x)) more.old.items }
    ensures serves { ServesMany N.Net plan net.old net.new (take workers more.old.items) (take workers more.new.items)
        result }
    ensures count { length more.new.items ≡ length more.old.items }
    ensures others { drop workers more.new.items ≡ drop workers more.old.items }
    ensures few { length more.old.items < workers
        → (result ≡ Err Memory) × (net.new ≡ net.old) × (more.new.items ≡ more.old.items) }
{
    let count = workers as usize;
    if more.len() < count {
        return Err(ManyError::Memory);
    }
    let Ok(mut lent) = lend(alloc, more, count) else {
        return Err(ManyError::Memory);
    };
    let served = serve_many(
        rt,
        alloc,
        net,
        &mut lent,
        bells,
        gate,
        plan,
        &mut Trace::new(),
    );
    give_back(more, lent);
    without_pass(served)
}

/// The answer of the proxy by workers, as the other ways have it.
pub(crate) fn many_answer(answer: Result<Served, ManyError>) -> Result<Served, ServeError>
    ensures { result ≡ many_answer_of answer }
{
    match answer {
        Ok(served) => Ok(served),
        Err(ManyError::NetFault) => Err(ServeError::NetFault),
        Err(ManyError::Memory) => Err(ServeError::Memory),
    }
}

// What was answered, without the pass, which is let go.
fn without_pass(served: Result<(Served, Pass), ManyError>) -> Result<Served, ManyError>
    ensures { result ≡ served_of served }
{
    match served {
        Ok((served, _pass)) => Ok(served),
        Err(error) => Err(error),
    }
}

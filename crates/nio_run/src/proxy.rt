//! The command `proxy`.
ghost use Rattle.std.specs.Prelude.{◌≡◌, ◌≤◌, ℕ, All};
ghost use Rattle.nio_bytes.specs.Cause.{Rose};
ghost use Rattle.nio_link.specs.Nets.{view_of};
ghost use Rattle.nio_serve.specs.Serving.{IsFresh};
ghost use Rattle.nio_run.specs.Many.{DoesMany};
ghost use Rattle.nio_run.specs.Proxy.{DoesProxy, HasOneNet, HasWorkers, IsServableBy, SaysOutcome, served_line};
ghost use Rattle.nio_run.specs.Relays.{EndsRelay, SaysLine};
ghost use Rattle.nio_tickets.specs.Answers.{serve_answer_of};

use crate::ended::Ended;
use crate::many::{many_answer, serve_over_first};
use nio_base::Gate;
use nio_bytes::Sink;
use nio_command::ProxyWay;
use nio_link::{JobNet, Passable};
use nio_operations::serve_group;
use nio_poller::Bell;
use nio_proxy::serve_select;
use nio_relay::{ProxyPlan, Served};
use nio_script::{Status, write_out};
use nio_serve::ServeError;
use nio_tickets::{FutureError, serve_future};
use std::alloc::{AllocGlobal, Global};
use std::random::RandomSource;
use std::sync::Wait;
use std::thread::Threads;

/// Relays the connections of a plan in this way, and says how many there were: by a selector, by the operations of a
/// group, by operations with tickets, or by a selector that accepts and others that work over the nets `more`.
pub fn serve<R, K: Sink, N: Passable + Send + Drop, B: Bell + Sync + Drop, G: Gate + Sync>(
    rt: &R,
    alloc: Global,
    output: &mut K,
    net: N,
    more: &mut Vec<N>,
    bell: &B,
    bells: Vec<B>,
    gate: &G,
    plan: ProxyPlan,
    way: ProxyWay,
) -> Ended<N>
where
    R: Threads + Wait + RandomSource + AllocGlobal + Sync,
    requires plan { IsServableBy way plan }
    requires way { HasWorkers way }
    requires fresh { IsFresh (view_of N.Net net) }
    requires more { All (λ x. IsFresh (view_of N.Net x)) more.old.items }
    ensures proxy { HasOneNet way → DoesProxy K.Sink plan (view_of N.Net net) (view_of N.Net result.net) output.old
        output.new result.status }
    ensures alone { HasOneNet way → more.new ≡ more.old }
    ensures many { (workers : ℕ) → way ≡ ProxyWay.Many workers
        → DoesMany K.Sink N.Net plan workers net result.net more.old.items more.new.items output.old output.new
        result.status }
    ensures ends { EndsRelay result.status }
    ensures rose { result.status ≡ Status.WriteFault → Rose (K.faults output.old) (K.faults output.new) }
    ensures later { K.faults output.old ≤ K.faults output.new }
{
    match way {
        ProxyWay::Select => {
            let mut net = net;
            let served = serve_select(rt, alloc, &mut net, plan);
            Ended {
                status: say(alloc, output, served),
                net,
            }
        }
        ProxyWay::Group(workers) => {
            let mut jobs = JobNet::over(net);
            let served = serve_group(rt, alloc, &mut jobs, bell, gate, plan, workers);
            Ended {
                status: say(alloc, output, served),
                net: jobs.into_net(),
            }
        }
        ProxyWay::Future => {
            let mut jobs = JobNet::over(net);
            let served = serve_future(rt, alloc, &mut jobs, plan);
            Ended {
                status: say(alloc, output, serve_answer(served)),
                net: jobs.into_net(),
            }
        }
        ProxyWay::Many(workers) => {
            let mut net = net;
            let served = serve_over_first(rt, alloc, &mut net, more, bells, gate, plan, workers);
            Ended {
                status: say(alloc, output, many_answer(served)),
                net,
            }
        }
    }
}

// The answer of the proxy by tickets, as the ways by a selector and by a group have it.
fn serve_answer(answer: Result<Served, FutureError>) -> Result<Served, ServeError>
    ensures { result ≡ serve_answer_of answer }
{
    match answer {
        Ok(served) => Ok(served),
        Err(FutureError::NetFault) => Err(ServeError::NetFault),
        Err(FutureError::Memory) => Err(ServeError::Memory),
    }
}

// Says how many connections were served, where they were.
fn say<K: Sink>(alloc: Global, output: &mut K, served: Result<Served, ServeError>) -> Status
    ensures said { SaysOutcome K.Sink served output.old output.new result }
    ensures later { K.faults output.old ≤ K.faults output.new }
{
    match served {
        Ok(served) => say_served(alloc, output, served),
        Err(ServeError::NetFault) => Status::NetFault,
        Err(ServeError::Memory) => Status::Memory,
    }
}

// Says how many connections were served.
fn say_served<K: Sink>(alloc: Global, output: &mut K, served: Served) -> Status
    ensures said { SaysLine K.Sink (served_line served) output.old output.new result }
    ensures later { K.faults output.old ≤ K.faults output.new }
{
    let connections = served.connections;
    let faults = served.faults;
    let Ok(text) = format!(in alloc; "served {connections} faults {faults}\n") else {
        return Status::Memory;
    };
    match write_out(output, text.as_bytes()) {
        Ok(()) => Status::Done,
        Err(status) => status,
    }
}

//! Serving a plan by selections.
ghost use Rattle.nio_link.specs.Nets.{view_of};
ghost use Rattle.nio_relay.specs.Plan.{IsServable};
ghost use Rattle.nio_serve.specs.Serving.{IsFresh, Serves};

use nio_board::Direct;
use nio_link::Net;
use nio_relay::{ProxyPlan, Served};
use nio_serve::{ServeError, serve};
use std::alloc::Global;
use std::sync::Wait;

/// Relays as many connections as the plan says, and then ends. A connection ends when both of its directions are shut,
/// or at the first fault of one of its links, which closes both and is counted. At every end the links and the listener
/// that are still open are closed. `Memory` is also answered where the proxy's own table refuses a call.
pub fn serve_select<R: Wait, N: Net>(
    rt: &R,
    alloc: Global,
    net: &mut N,
    plan: ProxyPlan,
) -> Result<Served, ServeError>
    requires plan { IsServable plan }
    requires fresh { IsFresh (view_of N.Net net.old) }
    ensures { Serves plan (view_of N.Net net.old) (view_of N.Net net.new) result }
{
    serve(rt, alloc, &mut Direct, net, plan)
}

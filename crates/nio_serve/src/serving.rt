//! Serving a plan.
ghost use Rattle.std.specs.Prelude.{◌≡◌, [], IfOk, OnOk};
ghost use Rattle.nio_link.specs.Nets.{view_of};
ghost use Rattle.nio_relay.specs.Plan.{IsServable};
ghost use Rattle.nio_words.specs.Passes.{IsFirstPass};
ghost use Rattle.nio_board.specs.Board.{IsSameSeat};
ghost use Rattle.nio_serve.specs.Serving.{IsFresh, Serves};
ghost use Rattle.nio_serve.specs.Watching.{HasRegisteredAll, HasRegisteredSome};

use crate::proxy::{LISTENER, Proxy};
use crate::way::Way;
use nio_base::{CallerNo, Limits};
use nio_board::{Board, Refused};
use nio_relay::{ProxyPlan, Served};
use nio_words::{Pass, Words};
use std::alloc::Global;
use std::sync::Wait;
use thiserror::Error;

/// Why a proxy ended before its plan was served.
#[derive(Clone, Copy, Debug, PartialEq, Eq, Error)]
pub enum ServeError {
    /// A poll failed, or the listener.
    #[error("the net failed")]
    NetFault,
    /// There is no memory, or the proxy's own table refused a call.
    #[error("out of memory")]
    Memory,
}

/// A channel and a key for each link of 16,000 slots, with the listener: a slot's numbers are given again.
const LIMITS: Limits = Limits {
    callers: 2,
    selectors: 1,
    channels: 32_768,
    keys: 32_768,
};

/// The caller that makes the calls.
const ME: CallerNo = CallerNo(0);

// The board of the first caller of a new table. Nothing refuses it, since the limits have a caller and a selector.
fn open_board<'a>(alloc: Global, words: &'a Words, pass: Pass) -> Result<Board<'a>, Refused>
    requires { IsFirstPass words.now pass }
    ensures { IfOk result (λ board. board.registered ≡ []) }
{
    let mut pass = pass;
    match words.draw(&mut pass, ME) {
        Ok(()) => Board::open(alloc, words, pass, ME),
        Err(_error) => Err(Refused),
    }
}

/// Relays as many connections as the plan says, and then ends. A connection ends when both of its directions are shut,
/// or at the first fault of one of its links, which closes both and is counted. At every end the links and the listener
/// that are still open are closed. `Memory` is also answered where the proxy's own table refuses a call.
pub fn serve<R: Wait, N, W: Way<N>>(
    rt: &R,
    alloc: Global,
    way: &mut W,
    net: &mut N,
    plan: ProxyPlan,
) -> Result<Served, ServeError>
    requires plan { IsServable plan }
    requires fresh { IsFresh (view_of W.Way net.old) }
    ensures { Serves plan (view_of W.Way net.old) (view_of W.Way net.new) result }
{
    let Ok((words, pass)) = Words::make(alloc, LIMITS) else {
        return Err(ServeError::Memory);
    };
    let Ok(board) = open_board(alloc, &words, pass) else {
        return Err(ServeError::Memory);
    };
    let (served, _board) = serve_on(rt, alloc, way, net, board, plan);
    served
}

/// `serve` over a board on which no channel is registered yet, which it gives back. The board's channels are named as the
/// net's. Those that were registered are the first of these: the listener, and then the two links of each connection, in
/// the order of the accepts. Where the plan was served, all were registered.
pub fn serve_on<'a, R: Wait, N, W: Way<N>>(
    rt: &R,
    alloc: Global,
    way: &mut W,
    net: &mut N,
    board: Board<'a>,
    plan: ProxyPlan,
) -> (Result<Served, ServeError>, Board<'a>)
    requires plan { IsServable plan }
    requires fresh { IsFresh (view_of W.Way net.old) }
    requires unregistered { board.registered ≡ [] }
    ensures serves { Serves plan (view_of W.Way net.old) (view_of W.Way net.new) result.0 }
    ensures seat { IsSameSeat board.entry result.1 }
    ensures registered { OnOk result.0 (HasRegisteredAll (W.accepted net.old) (W.accepted net.new) result.1.registered) }
    ensures within { HasRegisteredSome (W.accepted net.old) (W.accepted net.new) result.1.registered }
{
    let mut proxy = match Proxy::open(rt, alloc, board, plan) {
        Ok(proxy) => proxy,
        Err(board) => return (Err(ServeError::Memory), board),
    };
    if way.listen(net, LISTENER, plan.listen).is_err() {
        return (Err(ServeError::NetFault), proxy.into_board());
    }
    let outcome = proxy.run(rt, way, net);
    proxy.close_all(way, net);
    let faults = proxy.connections.faulted;
    let board = proxy.into_board();
    match outcome {
        Ok(()) => (
            Ok(Served {
                connections: plan.conns,
                faults,
            }),
            board,
        ),
        Err(error) => (Err(error), board),
    }
}

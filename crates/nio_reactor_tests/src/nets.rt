//! Nets in memory, and the proxy over them.
ghost use Rattle.std.specs.Prelude.{◌≤◌, All, IfOk, length};
ghost use Rattle.nio_link.specs.MemoryNet.{shown};
ghost use Rattle.nio_link.specs.Nets.{view_of};
ghost use Rattle.nio_relay.specs.Plan.{IsServable};
ghost use Rattle.nio_serve.specs.Serving.{IsFresh};

use crate::no_room::Roomy;
use nio_base::{Addr, Gate};
use nio_board::Direct;
use nio_link::{MemoryNet, NetPlan, Passable, PeerPlan};
use nio_poller::{Bell, NoBell};
use nio_reactor::{ManyError, serve_many};
use nio_relay::{ProxyPlan, Served};
use nio_serve::{ServeError, serve};
use nio_trace::Trace;
use nio_words::Pass;
use std::alloc::{AllocError, Global};
use std::sync::Wait;
use std::thread::Threads;

/// A client and its target: the lengths of the pieces that each sends, how many bytes the target takes a write at most,
/// and what of the target fails.
#[derive(Clone, Copy)]
pub(crate) struct Peer {
    pub sends: &'static [usize],
    pub answers: &'static [usize],
    pub most: usize,
    pub fail_connect: bool,
    pub fail_write_after: Option<u64>,
}

/// A client that sends 20,000 bytes in three pieces, to a target that takes 7 bytes a write and answers 9.
pub(crate) const SENDER: Peer = Peer {
    sends: &[1, 16_384, 3_615],
    answers: &[9],
    most: 7,
    fail_connect: false,
    fail_write_after: None,
};

/// So many bytes, from this place on, of those that repeat after 251.
pub(crate) fn bytes(alloc: Global, from: usize, count: usize) -> Result<Vec<u8>, AllocError> {
    let mut bytes = Vec::with_capacity(alloc, count)?;
    for i in 0..count {
        bytes.push((from.wrapping_add(i) % 251) as u8)?;
    }
    Ok(bytes)
}

/// The same bytes in pieces of these lengths.
fn pieces(alloc: Global, from: usize, lengths: &[usize]) -> Result<Vec<Vec<u8>>, AllocError> {
    let mut pieces = Vec::new(alloc);
    let mut from = from;
    for length in lengths {
        pieces.push(bytes(alloc, from, *length)?)?;
        from = from.wrapping_add(*length);
    }
    Ok(pieces)
}

/// Where the bytes of a client begin, and those of a target.
pub(crate) const OF_CLIENT: usize = 0;

const OF_TARGET: usize = 100;

/// The acceptor, or the worker with this number.
#[derive(Clone, Copy, PartialEq, Eq)]
pub(crate) enum Part {
    Acceptor,
    Worker(usize),
}

/// What is to fail: a call of `accept`, a poll of the net of this part, each counted from 0; which worker's net is to
/// have no memory for links; and how many more clients are awaited than come.
#[derive(Clone, Copy)]
pub(crate) struct Failures {
    pub accept: Option<u64>,
    pub poll: Option<(Part, u64)>,
    pub room: Option<usize>,
    pub absent: usize,
}

pub(crate) const NO_FAILURES: Failures = Failures {
    accept: None,
    poll: None,
    room: None,
    absent: 0,
};

/// A net that was just made, for these connections.
pub(crate) fn net_of(
    alloc: Global,
    peers: &[Peer],
    fail_accept: Option<u64>,
    fail_poll: Option<u64>,
) -> Result<Roomy<MemoryNet>, AllocError>
    ensures { IfOk result (λ made. IsFresh (shown made.net)) }
{
    let mut plans = Vec::new(alloc);
    for peer in peers {
        plans.push(PeerPlan {
            sends: pieces(alloc, OF_CLIENT, peer.sends)?,
            answers: pieces(alloc, OF_TARGET, peer.answers)?,
            most: peer.most,
            fail_connect: peer.fail_connect,
            fail_write_after: peer.fail_write_after,
        })?;
    }
    let net = MemoryNet::make(
        alloc,
        NetPlan {
            peers: plans,
            fail_poll,
            fail_accept,
        },
    )?;
    Ok(Roomy {
        net,
        has_room: true,
    })
}

/// The poll of this part's net that is to fail.
fn poll_of(failures: Failures, part: Part) -> Option<u64> {
    match failures.poll {
        Some((one, poll)) if one == part => Some(poll),
        _ => None,
    }
}

/// The net of this worker, which was just made.
fn net_of_worker(
    alloc: Global,
    failures: Failures,
    worker: usize,
) -> Result<Roomy<MemoryNet>, AllocError>
    ensures { IfOk result (λ made. IsFresh (shown made.net)) }
{
    let made = net_of(alloc, &[], None, poll_of(failures, Part::Worker(worker)))?;
    Ok(Roomy {
        net: made.net,
        has_room: failures.room != Some(worker),
    })
}

/// The nets of so many workers, which were just made.
fn nets_of(
    alloc: Global,
    workers: usize,
    failures: Failures,
) -> Result<Vec<Roomy<MemoryNet>>, AllocError>
    ensures some { IfOk result (λ nets. 1 ≤ length nets.items) }
    ensures few { IfOk result (λ nets. length nets.items ≤ 15) }
    ensures fresh { IfOk result (λ nets. All (λ made. IsFresh (shown made.net)) nets.items) }
{
    let mut nets = Vec::new(alloc);
    for _ in 0..workers.clamp(1, 15) {
        let net = net_of_worker(alloc, failures, nets.len())?;
        nets.push(net)?;
    }
    Ok(nets)
}

/// Serves the plan over nets that were just made.
pub(crate) fn serve_fresh<
    R: Threads + Wait + Sync,
    N: Passable + Send + Drop,
    B: Bell + Drop,
    G: Gate + Sync,
>(
    rt: &R,
    alloc: Global,
    net: &mut N,
    more: &mut Vec<N>,
    bells: Vec<B>,
    gate: &G,
    plan: ProxyPlan,
) -> Result<(Served, Pass), ManyError>
    requires plan { IsServable plan }
    requires some { 1 ≤ length more.old.items }
    requires few { length more.old.items ≤ 15 }
    requires fresh { IsFresh (view_of N.Net net.old) }
    requires fresh_each { All (λ x. IsFresh (view_of N.Net x)) more.old.items }
{
    serve_many(rt, alloc, net, more, bells, gate, plan, &mut Trace::new())
}

/// What was answered, and the pass, where there is one.
pub(crate) fn parts_of(
    done: Result<(Served, Pass), ManyError>,
) -> (Result<Served, ManyError>, Option<Pass>) {
    match done {
        Ok((served, pass)) => (Ok(served), Some(pass)),
        Err(error) => (Err(error), None),
    }
}

pub(crate) const ANYWHERE: Addr = Addr {
    ip: [127, 0, 0, 1],
    port: 8080,
};

/// What a proxy with workers came to, its pass, its net, and those of the workers.
#[derive(Drop)]
pub(crate) struct Relayed {
    pub served: Result<Served, ManyError>,
    pub pass: Option<Pass>,
    pub net: Roomy<MemoryNet>,
    pub more: Vec<Roomy<MemoryNet>>,
}

/// Serves these connections by so many workers, 16 at once.
pub(crate) fn serves<R: Threads + Wait + Sync, G: Gate + Sync>(
    rt: &R,
    alloc: Global,
    peers: &[Peer],
    failures: Failures,
    workers: usize,
    gate: &G,
) -> Result<Relayed, AllocError> {
    serves_by(rt, alloc, peers, failures, workers, 16, gate)
}

/// Serves these connections by so many workers, so many at once.
pub(crate) fn serves_by<R: Threads + Wait + Sync, G: Gate + Sync>(
    rt: &R,
    alloc: Global,
    peers: &[Peer],
    failures: Failures,
    workers: usize,
    at_once: u32,
    gate: &G,
) -> Result<Relayed, AllocError> {
    let plan = ProxyPlan {
        listen: ANYWHERE,
        target: ANYWHERE,
        conns: peers.len().saturating_add(failures.absent).clamp(1, 1_000) as u32,
        at_once: at_once.clamp(1, 16_000),
    };
    let mut net = net_of(
        alloc,
        peers,
        failures.accept,
        poll_of(failures, Part::Acceptor),
    )?;
    let mut more = nets_of(alloc, workers, failures)?;
    let bells: Vec<NoBell> = Vec::new(alloc);
    let done = serve_fresh(rt, alloc, &mut net, &mut more, bells, gate, plan);
    let (served, pass) = parts_of(done);
    Ok(Relayed {
        served,
        pass,
        net,
        more,
    })
}

/// Serves these connections by one loop, so many at once.
pub(crate) fn serves_alone<R: Wait>(
    rt: &R,
    alloc: Global,
    peers: &[Peer],
    at_once: u32,
) -> Result<Result<Served, ServeError>, AllocError> {
    let plan = ProxyPlan {
        listen: ANYWHERE,
        target: ANYWHERE,
        conns: peers.len().clamp(1, 100_000) as u32,
        at_once: at_once.clamp(1, 16_000),
    };
    let mut made = net_of(alloc, peers, None, None)?;
    Ok(serve(rt, alloc, &mut Direct, &mut made.net, plan))
}

//! Nets in memory, and the proxy over them.
ghost use Rattle.std.specs.Prelude.{◌≡◌, IfOk};
ghost use Rattle.nio_base.specs.declared.numbers.ChanId.{ChanId};
ghost use Rattle.nio_link.specs.Links.{IsUnused};
ghost use Rattle.nio_link.specs.Places.{places_after, never_asked};
ghost use Rattle.nio_link.specs.Slots.{carried_at};

use nio_base::{Addr, ChanId, ChanNo, Gate};
use nio_link::{JobNet, MemoryNet, NetPlan, PeerPlan};
use nio_operations::{CountedServe, serve_group_counted};
use nio_poller::NoBell;
use nio_relay::{ProxyPlan, Served};
use nio_serve::ServeError;
use std::alloc::{AllocError, Global};
use std::sync::Wait;
use std::thread::Threads;

/// A client and its target: the lengths of the pieces that each sends; how many bytes each takes a write at most; what
/// fails; and how many bytes arrive at each (at the client of a connection that fails: at most), and whether both links
/// are shut at the end.
#[derive(Clone, Copy)]
pub(crate) struct Peer {
    pub sends: &'static [usize],
    pub answers: &'static [usize],
    pub most: usize,
    pub fail_connect: bool,
    pub fail_write_after: Option<u64>,
    pub at_target: usize,
    pub at_client: usize,
    pub is_shut: bool,
}

pub(crate) const SHORT: Peer = Peer {
    sends: &[2],
    answers: &[1],
    most: 1,
    fail_connect: false,
    fail_write_after: None,
    at_target: 2,
    at_client: 1,
    is_shut: true,
};

/// Pieces of bytes that repeat after 251.
fn pieces(alloc: Global, lengths: &[usize]) -> Result<Vec<Vec<u8>>, AllocError> {
    let mut pieces = Vec::new(alloc);
    let mut from: usize = 0;
    for length in lengths {
        let mut piece = Vec::with_capacity(alloc, *length)?;
        for i in 0..*length {
            piece.push((from.wrapping_add(i) % 251) as u8)?;
        }
        pieces.push(piece)?;
        from = from.wrapping_add(*length);
    }
    Ok(pieces)
}

/// A net that was just made, for these connections.
pub(crate) fn net_of(
    alloc: Global,
    peers: &[Peer],
    fail_poll: Option<u64>,
    fail_accept: Option<u64>,
) -> Result<MemoryNet, AllocError>
    ensures fresh { IfOk result (λ net. (c : ChanId) → IsUnused (carried_at net.slots net.past c)) }
    ensures unasked { IfOk result (λ net. (c : ChanId) → places_after net.changes c ≡ never_asked) }
{
    let mut plans = Vec::new(alloc);
    for peer in peers {
        plans.push(PeerPlan {
            sends: pieces(alloc, peer.sends)?,
            answers: pieces(alloc, peer.answers)?,
            most: peer.most,
            fail_connect: peer.fail_connect,
            fail_write_after: peer.fail_write_after,
        })?;
    }
    MemoryNet::make(
        alloc,
        NetPlan {
            peers: plans,
            fail_poll,
            fail_accept,
        },
    )
}

/// The first channel of a number.
pub(crate) fn channel(number: u32) -> ChanId {
    ChanId::first(ChanNo(number))
}

const ANYWHERE: Addr = Addr {
    ip: [127, 0, 0, 1],
    port: 8080,
};

/// Serves so many connections by two workers, and counts what each of them and the dispatcher handle.
pub(crate) fn serves_counted<R: Threads + Wait + Sync, G: Gate + Sync>(
    rt: &R,
    alloc: Global,
    net: MemoryNet,
    conns: usize,
    gate: &G,
) -> (CountedServe, MemoryNet)
    requires fresh { (c : ChanId) → IsUnused (carried_at net.slots net.past c) }
    requires unasked { (c : ChanId) → places_after net.changes c ≡ never_asked }
{
    let plan = ProxyPlan {
        listen: ANYWHERE,
        target: ANYWHERE,
        conns: conns.clamp(1, 16) as u32,
        at_once: 16,
    };
    let mut jobs = JobNet::over(net);
    let counted = serve_group_counted(rt, alloc, &mut jobs, &NoBell, gate, plan, 2);
    (counted, jobs.into_net())
}

/// Serves so many connections by two workers.
pub(crate) fn serves<R: Threads + Wait + Sync, G: Gate + Sync>(
    rt: &R,
    alloc: Global,
    net: MemoryNet,
    conns: usize,
    gate: &G,
) -> (Result<Served, ServeError>, MemoryNet)
    requires fresh { (c : ChanId) → IsUnused (carried_at net.slots net.past c) }
    requires unasked { (c : ChanId) → places_after net.changes c ≡ never_asked }
{
    let (counted, net) = serves_counted(rt, alloc, net, conns, gate);
    (counted.served, net)
}

//! What a net in memory is to do.
ghost use Rattle.std.specs.Prelude.{◌≡◌, ◌≤◌, map, IfOk};
ghost use Rattle.nio_base.specs.declared.numbers.ChanId.{ChanId};
ghost use Rattle.nio_link.specs.Links.{IsUnused};
ghost use Rattle.nio_link.specs.Places.{places_after, never_asked};
ghost use Rattle.nio_link.specs.Slots.{carried_at};
ghost use Rattle.nio_link.specs.NetPlans.{fresh_link, client_end, target_end, limit_of, numbers_of, planned};
ghost use Rattle.nio_link.specs.Pieces.{total};
ghost use Rattle.nio_link.specs.declared.memory.peer_no.PeerNo.TheVariants as peer;

use crate::memory::link::MemoryLink;
use crate::memory::memory_net::MemoryNet;
use crate::memory::passing::past_room;
use crate::memory::peer_no::PeerNo;
use crate::memory::pieces::Pieces;
use crate::memory::slot::Slot;
use crate::place_log::PlaceLog;
use nio_bytes::Calls;
use nio_trace::Trace;
use std::alloc::{AllocError, Global};
use std::collections::VecDeque;

/// One connection: a client, which is accepted, and a target, which is connected to.
#[derive(Drop)]
pub struct PeerPlan {
    /// What the client sends, then its end. A read gives at most one piece; for an empty piece it answers once that
    /// nothing has come yet.
    pub sends: Vec<Vec<u8>>,
    /// What the target sends, then its end.
    pub answers: Vec<Vec<u8>>,
    /// The most bytes that the target takes per write, at least 1.
    pub most: usize,
    /// Whether connecting to the target fails.
    pub fail_connect: bool,
    /// After how many bytes a write to the target fails.
    pub fail_write_after: Option<u64>,
}

/// The connections in their order, and which poll and which call of `accept` fails, counted from 0.
#[derive(Drop)]
pub struct NetPlan {
    /// What the other ends of the links do: those that come to a listener, and those that are connected to.
    pub peers: Vec<PeerPlan>,
    /// The poll that fails, counted from 0.
    pub fail_poll: Option<u64>,
    /// The call of `accept` that fails, counted from 0.
    pub fail_accept: Option<u64>,
}

impl MemoryNet {
    /// A net with room for a listener and two links a peer: its channels have numbers up to twice the number of peers,
    /// until a link is put in beyond them, and a call of `Net` on any other number fails. It takes memory for all links
    /// and bytes of its plan, and no more where numbers serve again; a write past the plan's bytes fails. A link that
    /// `accept` makes is the client of the next peer, and one that `connect` makes is the target of the next peer not
    /// yet connected.
    #[tactic(auto, using(crate::proofs::FreshNet::planned_unused, crate::proofs::FreshNet::planned_unasked))]
    pub fn make(alloc: Global, plan: NetPlan) -> Result<MemoryNet, AllocError>
        ensures planned { IfOk result (λ net. net ≡ planned plan) }
        ensures fresh { IfOk result (λ net. (c : ChanId) → IsUnused (carried_at net.slots net.past c)) }
        ensures unasked { IfOk result (λ net. (c : ChanId) → places_after net.changes c ≡ never_asked) }
    {
        Self::of_plan(alloc, plan)
    }

    fn of_plan(alloc: Global, plan: NetPlan) -> Result<MemoryNet, AllocError>
        ensures { IfOk result (λ net. net ≡ planned plan) }
    {
        let mut slots = Vec::new(alloc);
        let mut clients = Vec::new(alloc);
        let mut targets = Vec::new(alloc);
        slots.push(Slot::Free)?;
        for peer in plan.peers {
            let (client, target) = ends_of(alloc, clients.len(), peer)?;
            clients.push(client)?;
            targets.push(target)?;
            slots.push(Slot::Free)?;
            slots.push(Slot::Free)?;
        }
        let log = PlaceLog::make(alloc, slots.len())?;
        let most = past_room(clients.len(), targets.len())?;
        Ok(MemoryNet {
            slots,
            past: VecDeque::with_capacity(alloc, most)?,
            clients: VecDeque::from_vec(clients),
            targets: VecDeque::from_vec(targets),
            polls: Calls::new(numbers(alloc, plan.fail_poll)?),
            accepts: Calls::new(numbers(alloc, plan.fail_accept)?),
            faulted: Trace::new(),
            log,
            findings: Trace::new(),
        })
    }
}

fn numbers(alloc: Global, number: Option<u64>) -> Result<Vec<u64>, AllocError>
    ensures { IfOk result (λ list. list.items ≡ numbers_of number) }
{
    let mut list = Vec::new(alloc);
    if let Some(number) = number {
        list.push(number)?;
    }
    Ok(list)
}

// Both ends of the connection at this place of the plan.
fn ends_of(
    alloc: Global,
    place: usize,
    peer: PeerPlan,
) -> Result<(MemoryLink, MemoryLink), AllocError>
    ensures { IfOk result (λ ends. (ends.0 ≡ client_end place peer) × (ends.1 ≡ target_end place peer)) }
{
    let sent = bytes_in(&peer.sends)?;
    let answered = bytes_in(&peer.answers)?;
    let limit = limit(peer.fail_write_after, sent);
    let mut client = open(alloc, peer.sends, sent, usize::MAX, answered)?;
    client.peer = PeerNo::Planned(place);
    let mut target = open(alloc, peer.answers, answered, peer.most.max(1), limit)?;
    target.peer = PeerNo::Planned(place);
    target.fail_connect = peer.fail_connect;
    Ok((client, target))
}

// An end of the first peer that has carried nothing, and memory for what it is to carry.
fn open(
    alloc: Global,
    pieces: Vec<Vec<u8>>,
    count: usize,
    most: usize,
    limit: usize,
) -> Result<MemoryLink, AllocError>
    requires count { count ≡ total (map (λ piece. piece.items) pieces.items) }
    requires most { 1 ≤ most }
    ensures { IfOk result (λ link. link
        ≡ fresh_link (peer.Planned 0) (map (λ piece. piece.items) pieces.items) most limit) }
{
    Ok(MemoryLink {
        peer: PeerNo::Planned(0),
        pieces: Pieces::make(Vec::new(alloc), pieces),
        got: Vec::with_capacity(alloc, count)?,
        ended: false,
        put: Vec::with_capacity(alloc, limit)?,
        shut: false,
        most,
        limit,
        fail_connect: false,
    })
}

fn limit(after: Option<u64>, room: usize) -> usize
    ensures { result ≡ limit_of after room }
{
    match after {
        None => room,
        Some(after) => room.min(after as usize),
    }
}

// How many bytes there are in all. Where the count doesn't fit, there is no memory for them either.
fn bytes_in(pieces: &[Vec<u8>]) -> Result<usize, AllocError>
    ensures { IfOk result (λ count. count ≡ total (map (λ piece. piece.items) pieces.now)) }
{
    let mut count: usize = 0;
    for piece in pieces {
        count = count.checked_add(piece.len()).ok_or(AllocError)?;
    }
    Ok(count)
}

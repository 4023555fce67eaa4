//! Links that are handed from net to net, and a net whose calls use up jobs.
ghost use Rattle.std.specs.Prelude.{◌≡◌, ◌≢◌, true, Ok, IfOk, IfSome, IsTrue};
ghost use Rattle.nio_base.specs.declared.group.OpKind.TheVariants as op;
ghost use Rattle.nio_base.specs.declared.numbers.ChanId.{ChanId as Channel};
ghost use Rattle.nio_link.specs.Jobs.{of_net};
ghost use Rattle.nio_link.specs.Links.{IsUnused};
ghost use Rattle.nio_link.specs.Nets.{view_of, MayTakeOut};
ghost use Rattle.nio_link.specs.Places.{places_after, never_asked, IsFree};
ghost use Rattle.nio_link.specs.Slots.{carried_at};
ghost use Rattle.nio_link.specs.declared.place.Standing.TheVariants as standing;

use nio_base::{Addr, ChanId, ChanNo, GChan};
use nio_group::{GKind, GroupCore, GroupLimits, Job, OpKind, StartError};
use nio_link::{Failed, JobNet, MemoryNet, Net, NetPlan, Passable, PeerPlan, Put, of_net};
use nio_mio::MioNet;
use std::alloc::{AllocError, Global};
use std::net::TcpListener;
use std::test::Fail;

const ANYWHERE: Addr = Addr {
    ip: [127, 0, 0, 1],
    port: 7,
};

/// The channel of the net whose operation the group starts.
const TARGET: ChanId = ChanId {
    number: ChanNo(2),
    serial: 0,
};

/// The first channel of this number.
fn first(number: u32) -> ChanId
    ensures { result ≡ record { number = record { 0 = number }; serial = 0 } }
{
    ChanId::first(ChanNo(number))
}

/// Hands a link from one net to another.
fn hand_over<N: Passable>(from: &mut N, out: ChanId, to: &mut N, chan: ChanId) -> bool
    requires may { MayTakeOut out (view_of N.Passable from.old) }
    requires free { IsFree (N.place to.old) chan }
{
    match from.take_out(out) {
        Some(link) => to.put_in(chan, link).is_ok(),
        None => false,
    }
}

/// A peer whose client sends 64 bytes, and whose target sends none.
fn peer(alloc: Global, fail_connect: bool) -> Result<PeerPlan, AllocError> {
    let mut sends = Vec::new(alloc);
    sends.push(vec![in alloc; b'x'; 64]?)?;
    Ok(PeerPlan {
        sends,
        answers: Vec::new(alloc),
        most: 64,
        fail_connect,
        fail_write_after: None,
    })
}

/// A net of two peers, of which the first can't be connected to.
fn two_peers(alloc: Global) -> Result<MemoryNet, AllocError>
    ensures unused { IfOk result (λ net. (c : Channel) → IsUnused (carried_at net.slots net.past c)) }
    ensures unasked { IfOk result (λ net. (c : Channel) → places_after net.changes c ≡ never_asked) }
{
    let mut peers = Vec::new(alloc);
    peers.push(peer(alloc, true)?)?;
    peers.push(peer(alloc, false)?)?;
    MemoryNet::make(
        alloc,
        NetPlan {
            peers,
            fail_poll: None,
            fail_accept: None,
        },
    )
}

/// A net without peers: it has channel 0 alone.
fn no_peers(alloc: Global) -> Result<MemoryNet, AllocError>
    ensures unasked { IfOk result (λ net. (c : Channel) → places_after net.changes c ≡ never_asked) }
{
    MemoryNet::make(
        alloc,
        NetPlan {
            peers: Vec::new(alloc),
            fail_poll: None,
            fail_accept: None,
        },
    )
}

/// Accepts the next client. Nothing is carried by that.
#[tactic(auto, using(nio_link::proofs::Changes::changed_here))]
fn accept(net: &mut MemoryNet, chan: ChanId) -> Result<bool, Failed>
    ensures links { (c : Channel) → carried_at net.new.slots net.new.past c ≡ carried_at net.old.slots net.old.past c }
    ensures linked { result ≡ Ok true → (places_after net.new.changes chan).standing ≡ standing.Linked }
{
    net.accept_link(first(0), chan)
}

/// Accepts both clients, under the channels 1 and 3.
fn accept_both(net: &mut MemoryNet) -> bool
    requires unused { (c : Channel) → IsUnused (carried_at net.old.slots net.old.past c) }
    requires unasked { (c : Channel) → places_after net.old.changes c ≡ never_asked }
    ensures unused { IsUnused (carried_at net.new.slots net.new.past (record { number = record { 0 = 3 }; serial = 0 })) }
    ensures linked { IsTrue result → (places_after net.new.changes (record { number = record { 0 = 3 }; serial = 0 })).standing ≡ standing.Linked }
{
    let _listens = net.listen(first(0), ANYWHERE);
    let _first = accept(net, first(1));
    let second = accept(net, first(3));
    is_made(second)
}

fn is_made(accepted: Result<bool, Failed>) -> bool
    ensures { IsTrue result → accepted ≡ Ok true }
{
    matches!(accepted, Ok(true))
}

#[test]
fn a_link_takes_its_own_peer_along(rt: HostRuntime) -> Result<(), Fail> {
    let mut from = two_peers(rt.alloc())?;
    let mut to = no_peers(rt.alloc())?;
    let accepted = accept_both(&mut from);
    assert!(rt; accepted);
    let handed = hand_over(&mut from, first(3), &mut to, first(5));
    assert!(rt; handed);
    // Its target can be connected to in the other net; the target that stayed can't.
    assert!(rt; to.connect_link(first(6), ANYWHERE) == Ok(false));
    assert!(rt; to.finish_link(first(6)) == Ok(true));
    assert!(rt; to.write_link(first(6), b"second") == Ok(Put::Bytes(6)));
    assert!(rt; from.connect_link(first(2), ANYWHERE) == Ok(false));
    assert!(rt; from.finish_link(first(2)) == Err(Failed));
    assert!(rt; from.connect_link(first(4), ANYWHERE) == Err(Failed));
    Ok(())
}

/// Connects a link in one net, and hands it to another.
fn hand_connected<N: Passable>(from: &mut N, to: &mut N, at: Addr) -> Result<bool, Failed>
    requires place { IsFree (N.place from.old) (record { number = record { 0 = 1 }; serial = 0 }) }
    requires link { IsUnused (N.link from.old (record { number = record { 0 = 1 }; serial = 0 })) }
    requires free { IsFree (N.place to.old) (record { number = record { 0 = 40000 }; serial = 0 }) }
{
    if !from.connect(first(1), at)? {
        return Ok(false);
    }
    Ok(hand_over(from, first(1), to, first(40_000)))
}

#[test]
fn a_connected_socket_goes_to_another_net(rt: HostRuntime) -> Result<(), Fail> {
    let listener = TcpListener::bind(&rt, "127.0.0.1:0")?;
    let at = Addr {
        ip: [127, 0, 0, 1],
        port: listener.local_addr()?.port(),
    };
    let (mut from, _bell) = MioNet::make(rt, rt.alloc())?;
    let (mut to, _other_bell) = MioNet::make(rt, rt.alloc())?;
    assert!(rt; hand_connected(&mut from, &mut to, at) == Ok(true));
    Ok(())
}

/// Starts to connect a channel of the group, and takes the job for it. None where the channel isn't made.
fn start_to_connect(group: &mut GroupCore, chan: GChan) -> Result<Option<Job>, StartError>
    ensures kind { IfOk result (λ found. IfSome found (λ job. job.kind ≡ op.Connect)) }
    ensures its { IfOk result (λ found. IfSome found (λ job. job.chan ≡ chan)) }
{
    if group.is_made(chan) {
        let _op = group.start(chan, OpKind::Connect, 0)?;
    }
    if group.is_made(chan) {
        return Ok(group.job(chan, OpKind::Connect));
    }
    Ok(None)
}

/// Makes the call of a job that connects.
fn connect_for<N: Net>(net: N, job: Job, chan: ChanId) -> (Result<bool, Failed>, N)
    requires kind { job.kind ≡ op.Connect }
    requires its { job.chan ≡ of_net chan }
    requires free { IsFree (N.place net) chan }
{
    let mut jobs = JobNet::over(net);
    let made = jobs.try_connect(job, chan, ANYWHERE);
    (made, jobs.into_net())
}

#[test]
fn a_job_is_used_up(rt: HostRuntime) -> Result<(), Fail> {
    let mut group = GroupCore::make(
        rt.alloc(),
        GroupLimits {
            channels: 3,
            flight: 1,
            ops: 1,
        },
    )?;
    let _listener = group.open_channel(GKind::Listener)?;
    let _client = group.open_channel(GKind::Stream)?;
    let _target = group.open_channel(GKind::Stream)?;
    let net = two_peers(rt.alloc())?;
    let made = match start_to_connect(&mut group, of_net(TARGET))? {
        Some(job) => connect_for(net, job, TARGET).0,
        None => Err(Failed),
    };
    assert!(rt; made == Ok(false));
    Ok(())
}

//! Which bytes arrive at both ends, and how the proxy ends.
ghost use Rattle.std.specs.Prelude.{◌≡◌, IfOk};
ghost use Rattle.nio_base.specs.declared.numbers.ChanId.{ChanId};
ghost use Rattle.nio_link.specs.Links.{IsUnused};
ghost use Rattle.nio_link.specs.Places.{places_after, never_asked};
ghost use Rattle.nio_link.specs.Slots.{carried_at};

use nio_base::{Addr, ChanId, ChanNo};
use nio_link::{JobNet, MemoryNet, NetPlan, PeerPlan};
use nio_relay::{ProxyPlan, Served};
use nio_tickets::serve_future;
use std::alloc::{AllocError, Global};
use std::test::Fail;

const ANYWHERE: Addr = Addr {
    ip: [127, 0, 0, 1],
    port: 8080,
};

/// A client that sends more than a direction holds, and its target's answer of one byte. The target takes so many bytes
/// a write at most, and its writes may fail.
fn peer(alloc: Global, fail_write_after: Option<u64>) -> Result<PeerPlan, AllocError> {
    let mut sends = Vec::new(alloc);
    sends.push(vec![in alloc; 1; 20_000]?)?;
    let mut answers = Vec::new(alloc);
    answers.push(vec![in alloc; 2; 1]?)?;
    Ok(PeerPlan {
        sends,
        answers,
        most: 5_000,
        fail_connect: false,
        fail_write_after,
    })
}

/// Two connections, of which the second target takes 10 bytes.
fn net_of_two(alloc: Global) -> Result<MemoryNet, AllocError>
    ensures fresh { IfOk result (λ net. (c : ChanId) → IsUnused (carried_at net.slots net.past c)) }
    ensures unasked { IfOk result (λ net. (c : ChanId) → places_after net.changes c ≡ never_asked) }
{
    let mut peers = Vec::new(alloc);
    peers.push(peer(alloc, None)?)?;
    peers.push(peer(alloc, Some(10))?)?;
    MemoryNet::make(
        alloc,
        NetPlan {
            peers,
            fail_poll: None,
            fail_accept: None,
        },
    )
}

/// The first channel of a number.
fn channel(number: u32) -> ChanId {
    ChanId::first(ChanNo(number))
}

#[test]
fn relays_two(rt: HostRuntime) -> Result<(), Fail> {
    let plan = ProxyPlan {
        listen: ANYWHERE,
        target: ANYWHERE,
        conns: 2,
        at_once: 2,
    };
    let mut jobs = JobNet::over(net_of_two(rt.alloc())?);
    let served = serve_future(&rt, rt.alloc(), &mut jobs, plan);
    let one_failed = Served {
        connections: 2,
        faults: 1,
    };
    assert_eq!(rt; served, Ok(one_failed));
    let net = jobs.into_net();
    assert_eq!(rt; net.put_bytes(channel(2)).len(), 20_000);
    assert_eq!(rt; net.put_bytes(channel(1)).len(), 1);
    assert!(rt; net.is_shut(channel(1)) && net.is_shut(channel(2)));
    assert_eq!(rt; net.put_bytes(channel(4)).len(), 10);
    Ok(())
}

//! The proxy by tickets over nets that fail: each of the first polls, an accept, a connect and a write.
ghost use Rattle.std.specs.Prelude.{◌≡◌, IfOk};
ghost use Rattle.nio_base.specs.declared.numbers.ChanId.{ChanId};
ghost use Rattle.nio_link.specs.Links.{IsUnused};
ghost use Rattle.nio_link.specs.Places.{places_after, never_asked};
ghost use Rattle.nio_link.specs.Slots.{carried_at};

use nio_base::{Addr, ChanId, ChanNo};
use nio_link::{JobNet, MemoryNet, NetPlan, PeerPlan};
use nio_relay::{ProxyPlan, Served};
use nio_tickets::{FutureError, serve_future};
use std::alloc::{AllocError, AllocGlobal, Global};
use std::process::Abort;
use std::random::RandomSource;
use std::sync::Wait;
use std::test::Fail;

const ANYWHERE: Addr = Addr {
    ip: [127, 0, 0, 1],
    port: 8080,
};

const PLAN: ProxyPlan = ProxyPlan {
    listen: ANYWHERE,
    target: ANYWHERE,
    conns: 2,
    at_once: 2,
};

/// What fails beside the first target, which takes ten bytes, and the answer.
#[derive(Clone, Copy)]
struct Row {
    name: &'static str,
    fail_poll: Option<u64>,
    fail_accept: Option<u64>,
    fail_connect: bool,
    served: Result<Served, FutureError>,
}

const A_WRITE: Row = Row {
    name: "a write",
    fail_poll: None,
    fail_accept: None,
    fail_connect: false,
    served: Ok(Served {
        connections: 2,
        faults: 1,
    }),
};

const A_POLL: Row = Row {
    name: "a poll",
    served: Err(FutureError::NetFault),
    ..A_WRITE
};

const ROWS: [Row; 3] = [
    A_WRITE,
    Row {
        name: "a connect",
        fail_connect: true,
        ..A_WRITE
    },
    Row {
        name: "an accept",
        fail_accept: Some(1),
        served: Err(FutureError::NetFault),
        ..A_WRITE
    },
];

/// How many of the first polls fail in turn.
const POLLS: u64 = 10;

/// A client that sends 20,000 bytes in three pieces, to a target that takes 7 bytes a write and answers nothing.
fn sender(
    alloc: Global,
    fail_connect: bool,
    fail_write_after: Option<u64>,
) -> Result<PeerPlan, AllocError> {
    let mut sends = Vec::new(alloc);
    for length in [1, 16_384, 3_615] {
        sends.push(vec![in alloc; 1; length]?)?;
    }
    Ok(PeerPlan {
        sends,
        answers: Vec::new(alloc),
        most: 7,
        fail_connect,
        fail_write_after,
    })
}

/// Two such connections.
fn net_of_two(alloc: Global, row: &Row) -> Result<MemoryNet, AllocError>
    ensures fresh { IfOk result (λ net. (c : ChanId) → IsUnused (carried_at net.slots net.past c)) }
    ensures unasked { IfOk result (λ net. (c : ChanId) → places_after net.changes c ≡ never_asked) }
{
    let mut peers = Vec::new(alloc);
    peers.push(sender(alloc, row.fail_connect, Some(10))?)?;
    peers.push(sender(alloc, false, None)?)?;
    MemoryNet::make(
        alloc,
        NetPlan {
            peers,
            fail_poll: row.fail_poll,
            fail_accept: row.fail_accept,
        },
    )
}

/// The first channel of a number.
fn channel(number: u32) -> ChanId {
    ChanId::first(ChanNo(number))
}

/// Whether what was put on each link of this connection begins what was read from the other.
fn is_begun(net: &MemoryNet, client: ChanId, target: ChanId) -> bool {
    net.got_bytes(client).starts_with(net.put_bytes(target))
        && net.got_bytes(target).starts_with(net.put_bytes(client))
}

fn ends_as<R>(rt: &R, alloc: Global, row: &Row) -> Result<(), Fail>
where
    R: Abort + AllocGlobal + RandomSource + Wait,
{
    let mut jobs = JobNet::over(net_of_two(alloc, row)?);
    let served = serve_future(rt, alloc, &mut jobs, PLAN);
    let (name, poll) = (row.name, row.fail_poll);
    assert_eq!(rt; served, row.served, "{name} {poll:?}");
    let net = jobs.into_net();
    let begun = is_begun(&net, channel(1), channel(2)) && is_begun(&net, channel(3), channel(4));
    assert!(rt; begun, "{name} {poll:?}");
    Ok(())
}

#[test]
fn failing_nets(rt: HostRuntime) -> Result<(), Fail> {
    for poll in 0..POLLS {
        let row = Row {
            fail_poll: Some(poll),
            ..A_POLL
        };
        ends_as(&rt, rt.alloc(), &row)?;
    }
    for row in ROWS {
        ends_as(&rt, rt.alloc(), &row)?;
    }
    Ok(())
}

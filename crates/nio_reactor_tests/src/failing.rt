//! The proxy with several selectors over nets that fail: each of the first polls of each net, an accept, a connect and
//! a write. Two workers serve two connections.
use crate::nets::{ANYWHERE, Failures, NO_FAILURES, Part, Peer, SENDER, serves};
use nio_base::{ChanId, ChanNo, NoGate};
use nio_link::MemoryNet;
use nio_reactor::ManyError;
use nio_relay::Served;
use std::alloc::Global;
use std::process::Abort;
use std::sync::Wait;
use std::test::Fail;
use std::thread::Threads;

/// Two connections, of which the first target takes 10 bytes.
const ONE_OF_TWO_FAILS: &[Peer] = &[
    Peer {
        fail_write_after: Some(10),
        ..SENDER
    },
    SENDER,
];

/// Two connections, of which the first target can't be connected.
const ONE_ISNT_CONNECTED: &[Peer] = &[
    Peer {
        fail_connect: true,
        ..SENDER
    },
    SENDER,
];

/// The connections, what fails beside, how many polls from that one on fail in turn, the answer, and how many bytes
/// arrive at each target, where each of these polls leaves the same.
#[derive(Clone, Copy)]
struct Row {
    name: &'static str,
    peers: &'static [Peer],
    fails: Failures,
    polls: u64,
    served: Result<Served, ManyError>,
    arrived: [Option<usize>; 2],
}

const A_WRITE: Row = Row {
    name: "a write",
    peers: ONE_OF_TWO_FAILS,
    fails: NO_FAILURES,
    polls: 1,
    served: Ok(Served {
        connections: 2,
        faults: 1,
    }),
    arrived: [Some(10), Some(20_000)],
};

const ROWS: [Row; 10] = [
    A_WRITE,
    Row {
        name: "a connect",
        peers: ONE_ISNT_CONNECTED,
        arrived: [Some(0), Some(20_000)],
        ..A_WRITE
    },
    Row {
        name: "the first accept",
        fails: Failures {
            accept: Some(0),
            ..NO_FAILURES
        },
        served: Err(ManyError::NetFault),
        arrived: [Some(0), Some(0)],
        ..A_WRITE
    },
    // what was accepted before is served
    Row {
        name: "the second accept",
        fails: Failures {
            accept: Some(1),
            ..NO_FAILURES
        },
        served: Err(ManyError::NetFault),
        arrived: [Some(10), Some(0)],
        ..A_WRITE
    },
    Row {
        name: "the acceptor's first poll",
        fails: Failures {
            poll: Some((Part::Acceptor, 0)),
            ..NO_FAILURES
        },
        served: Err(ManyError::NetFault),
        arrived: [Some(0), Some(0)],
        ..A_WRITE
    },
    Row {
        name: "a poll of the acceptor, which awaits a third client",
        fails: Failures {
            poll: Some((Part::Acceptor, 1)),
            absent: 1,
            ..NO_FAILURES
        },
        polls: 9,
        served: Err(ManyError::NetFault),
        ..A_WRITE
    },
    // one poll tells of both clients
    Row {
        name: "a poll that the acceptor doesn't make",
        fails: Failures {
            poll: Some((Part::Acceptor, 1)),
            ..NO_FAILURES
        },
        polls: 9,
        ..A_WRITE
    },
    // the other worker goes on
    Row {
        name: "a poll of the first worker",
        fails: Failures {
            poll: Some((Part::Worker(0), 0)),
            ..NO_FAILURES
        },
        polls: 3,
        served: Err(ManyError::NetFault),
        arrived: [None, Some(20_000)],
        ..A_WRITE
    },
    Row {
        name: "a poll that the first worker doesn't make",
        fails: Failures {
            poll: Some((Part::Worker(0), 3)),
            ..NO_FAILURES
        },
        polls: 7,
        ..A_WRITE
    },
    Row {
        name: "a poll of the second worker",
        fails: Failures {
            poll: Some((Part::Worker(1), 0)),
            ..NO_FAILURES
        },
        polls: 10,
        served: Err(ManyError::NetFault),
        arrived: [Some(10), None],
        ..A_WRITE
    },
];

/// The same failures, but for so many polls later.
fn later(fails: Failures, more: u64) -> Failures {
    Failures {
        poll: fails.poll.map(|(part, at)| (part, at.saturating_add(more))),
        ..fails
    }
}

/// The first channel of this number.
fn first(number: u32) -> ChanId {
    ChanId::first(ChanNo(number))
}

/// Whether no link stands under this channel, neither connected nor being connected.
fn is_closed(net: &mut MemoryNet, chan: ChanId) -> bool {
    net.shut_link(chan).is_err() && net.finish_link(chan).is_err()
}

/// Whether neither a listener nor a link stands in the net.
fn is_vacant(net: &mut MemoryNet) -> bool {
    net.listen_on(first(0), ANYWHERE).is_ok()
        && is_closed(net, first(1))
        && is_closed(net, first(2))
        && is_closed(net, first(3))
        && is_closed(net, first(4))
}

/// Whether what was put on each link of the net's first connection begins what was read from the other.
fn is_begun(net: &MemoryNet) -> bool {
    let (client, target) = (first(1), first(2));
    net.got_bytes(client).starts_with(net.put_bytes(target))
        && net.got_bytes(target).starts_with(net.put_bytes(client))
}

fn ends_as<R>(rt: &R, alloc: Global, row: &Row, more: u64) -> Result<(), Fail>
where
    R: Abort + Threads + Wait + Sync,
{
    let mut relayed = serves(rt, alloc, row.peers, later(row.fails, more), 2, &NoGate)?;
    let name = row.name;
    assert_eq!(rt; relayed.served, row.served, "{name} {more}");
    assert!(rt; is_vacant(&mut relayed.net.net), "{name} {more}");
    for (roomy, arrived) in relayed.more.iter_mut().zip(row.arrived.iter()) {
        let count = roomy.net.put_bytes(first(2)).len();
        assert_eq!(rt; arrived.unwrap_or(count), count, "{name} {more}");
        assert!(rt;
            is_begun(&roomy.net) && is_vacant(&mut roomy.net),
            "{name} {more}"
        );
    }
    Ok(())
}

#[test]
fn failing_nets(rt: HostRuntime) -> Result<(), Fail> {
    for row in ROWS {
        for more in 0..row.polls {
            ends_as(&rt, rt.alloc(), &row, more)?;
        }
    }
    Ok(())
}

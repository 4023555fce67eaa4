//! The proxy by operations over nets that fail: each of the first polls, an accept, a connect and a write.
use crate::nets::{Peer, channel, net_of, serves};
use crate::relays::{ONE_OF_TWO_FAILS, SENDER};
use nio_base::{ChanId, NoGate};
use nio_link::MemoryNet;
use nio_relay::Served;
use nio_serve::ServeError;
use std::alloc::Global;
use std::process::Abort;
use std::sync::Wait;
use std::test::Fail;
use std::thread::Threads;

/// Two connections, of which the first target can't be connected.
const ONE_ISNT_CONNECTED: &[Peer] = &[
    Peer {
        fail_connect: true,
        ..SENDER
    },
    SENDER,
];

const ONE_FAULT: Result<Served, ServeError> = Ok(Served {
    connections: 2,
    faults: 1,
});

/// What fails, the connections, which poll and which call of `accept` fails, and the answer.
#[derive(Clone, Copy)]
struct Row {
    name: &'static str,
    peers: &'static [Peer],
    fail_poll: Option<u64>,
    fail_accept: Option<u64>,
    served: Result<Served, ServeError>,
}

const A_WRITE: Row = Row {
    name: "a write",
    peers: ONE_OF_TWO_FAILS,
    fail_poll: None,
    fail_accept: None,
    served: ONE_FAULT,
};

const A_POLL: Row = Row {
    name: "a poll",
    served: Err(ServeError::NetFault),
    ..A_WRITE
};

const ROWS: [Row; 3] = [
    A_WRITE,
    Row {
        name: "a connect",
        peers: ONE_ISNT_CONNECTED,
        ..A_WRITE
    },
    Row {
        name: "an accept",
        fail_accept: Some(1),
        served: Err(ServeError::NetFault),
        ..A_WRITE
    },
];

/// How many of the first polls fail in turn.
const POLLS: u64 = 10;

/// Whether what was put on each link of this connection begins what was read from the other.
fn is_begun(net: &MemoryNet, client: ChanId, target: ChanId) -> bool {
    net.got_bytes(client).starts_with(net.put_bytes(target))
        && net.got_bytes(target).starts_with(net.put_bytes(client))
}

fn ends_as<R>(rt: &R, alloc: Global, row: &Row) -> Result<(), Fail>
where
    R: Abort + Threads + Wait + Sync,
{
    let net = net_of(alloc, row.peers, row.fail_poll, row.fail_accept)?;
    let (served, net) = serves(rt, alloc, net, 2, &NoGate);
    let (name, poll) = (row.name, row.fail_poll);
    assert_eq!(rt; served, row.served, "{name} {poll:?}");
    let begun = is_begun(&net, channel(1), channel(2)) && is_begun(&net, channel(3), channel(4));
    assert!(rt; begun, "{name} {poll:?}");
    Ok(())
}

#[test]
fn failing_nets(rt: HostRuntime) -> Result<(), Fail> {
    for poll in 0..POLLS {
        let row = Row {
            fail_poll: Some(poll),
            ..A_POLL
        };
        ends_as(&rt, rt.alloc(), &row)?;
    }
    for row in ROWS {
        ends_as(&rt, rt.alloc(), &row)?;
    }
    Ok(())
}

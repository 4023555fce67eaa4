//! The proxy over a net in memory: how the program ends, what it says, and which bytes arrive at both ends.
ghost use Rattle.std.specs.Prelude.{IfOk};
ghost use Rattle.nio_link.specs.MemoryNet.{shown};
ghost use Rattle.nio_serve.specs.Serving.{IsFresh};

use super::runs;
use nio_base::{ChanId, ChanNo};
use nio_bytes::{MemorySink, MemorySource};
use nio_link::{MemoryNet, NetPlan, PeerPlan};
use nio_poller::NoBell;
use std::alloc::{Alloc, AllocError, AllocGlobal, Global};
use std::io;
use std::process::Abort;
use std::random::RandomSource;
use std::sync::Wait;
use std::test::Fail;
use std::thread::Threads;

/// A client and its target: the lengths of the pieces that each sends, of which an empty one says once that nothing has
/// come yet; what fails; and how many bytes arrive at each, and whether both links are shut at the end.
#[derive(Clone, Copy)]
pub(super) struct Peer {
    sends: &'static [usize],
    answers: &'static [usize],
    most: usize,
    fail_connect: bool,
    fail_write_after: Option<u64>,
    at_target: usize,
    at_client: usize,
    is_shut: bool,
}

/// The connections, which poll and which call of `accept` fails, and how the program ends.
#[derive(Clone, Copy)]
struct Row {
    name: &'static str,
    peers: &'static [Peer],
    conns: &'static str,
    fail_poll: Option<u64>,
    fail_accept: Option<u64>,
    status: u8,
    written: &'static str,
}

pub(super) const SHORT: Peer = Peer {
    sends: &[2],
    answers: &[1],
    most: 1,
    fail_connect: false,
    fail_write_after: None,
    at_target: 2,
    at_client: 1,
    is_shut: true,
};

/// A client that sends 20,000 bytes in three pieces, to a target that takes 7 bytes a write and answers nothing.
const SENDER: Peer = Peer {
    sends: &[1, 16_384, 3_615],
    answers: &[],
    most: 7,
    at_target: 20_000,
    at_client: 0,
    ..SHORT
};

/// Two such connections, of which the first target takes 10 bytes.
const ONE_OF_TWO_FAILS: &[Peer] = &[
    Peer {
        fail_write_after: Some(10),
        at_target: 10,
        is_shut: false,
        ..SENDER
    },
    SENDER,
];

const ONE: Row = Row {
    name: "one",
    peers: &[SHORT],
    conns: "1",
    fail_poll: None,
    fail_accept: None,
    status: 0,
    written: "served 1 faults 0\n",
};

/// Two connections, which are relayed in both ways.
const TWO: Row = Row {
    name: "two",
    peers: &[SENDER, SHORT],
    conns: "2",
    written: "served 2 faults 0\n",
    ..ONE
};

const RELAY_ONE: Row = Row {
    name: "relay_one",
    peers: &[SENDER],
    ..ONE
};

const RELAY_ONE_OF_TWO_FAILS: Row = Row {
    name: "relay_one_of_two_fails",
    peers: ONE_OF_TWO_FAILS,
    conns: "2",
    written: "served 2 faults 1\n",
    ..ONE
};

const RELAY_ACCEPT_FAILS: Row = Row {
    name: "relay_accept_fails",
    peers: &[Peer {
        at_target: 0,
        is_shut: false,
        ..SENDER
    }],
    fail_accept: Some(0),
    status: 7,
    written: "",
    ..ONE
};

/// A client that is accepted, and not served.
const UNSERVED: Peer = Peer {
    at_target: 0,
    at_client: 0,
    is_shut: false,
    ..SHORT
};

/// As many connections as there may be. The net has numbers for two, so the listener fails with the third.
const MANY_AWAITED: Row = Row {
    name: "many_awaited",
    peers: &[UNSERVED, UNSERVED],
    conns: "4294967295",
    status: 7,
    written: "",
    ..ONE
};

/// The rows that end alike in every way.
const ALIKE: &[Row] = &[TWO, RELAY_ONE, RELAY_ONE_OF_TWO_FAILS, RELAY_ACCEPT_FAILS];

const ROWS: &[Row] = &[
    ONE,
    MANY_AWAITED,
    Row {
        name: "empty_connection",
        peers: &[Peer {
            sends: &[],
            answers: &[],
            at_target: 0,
            at_client: 0,
            ..SHORT
        }],
        ..ONE
    },
    Row {
        name: "client_ends_first",
        peers: &[Peer {
            sends: &[5],
            answers: &[0, 0, 0, 0, 0, 0, 9],
            most: 100,
            at_target: 5,
            at_client: 9,
            ..SHORT
        }],
        ..ONE
    },
    Row {
        name: "target_ends_first",
        peers: &[Peer {
            sends: &[0, 0, 0, 0, 0, 0, 5],
            answers: &[],
            most: 100,
            at_target: 5,
            at_client: 0,
            ..SHORT
        }],
        ..ONE
    },
    Row {
        name: "pieces_of_1_and_of_16385_seven_a_write",
        peers: &[Peer {
            sends: &[1, 16_385, 1],
            answers: &[16_385, 1],
            most: 7,
            at_target: 16_387,
            at_client: 16_386,
            ..SHORT
        }],
        ..ONE
    },
    Row {
        name: "a_write_fails",
        peers: &[
            Peer {
                sends: &[100],
                answers: &[0, 0, 0, 0, 0, 0, 0, 0, 0, 0, 9],
                most: 100,
                fail_write_after: Some(10),
                at_target: 10,
                at_client: 0,
                is_shut: false,
                ..SHORT
            },
            SHORT,
        ],
        conns: "2",
        written: "served 2 faults 1\n",
        ..ONE
    },
    Row {
        name: "a_connect_fails",
        peers: &[
            SHORT,
            Peer {
                sends: &[5],
                answers: &[5],
                most: 100,
                fail_connect: true,
                at_target: 0,
                at_client: 0,
                is_shut: false,
                ..SHORT
            },
            SHORT,
        ],
        conns: "3",
        written: "served 3 faults 1\n",
        ..ONE
    },
];

/// Two connections, of which the first target can't be connected.
const ONE_ISNT_CONNECTED: &[Peer] = &[
    Peer {
        fail_connect: true,
        ..SENDER
    },
    SENDER,
];

/// The name of what fails, the connections, which poll and which call of `accept` fails, how many polls from that one
/// on are tried, and how the program ends.
type Failing = (
    &'static str,
    &'static [Peer],
    Option<u64>,
    Option<u64>,
    u64,
    u8,
    &'static str,
);

const FAILING: [Failing; 4] = [
    ("a poll", ONE_OF_TWO_FAILS, Some(0), None, 10, 7, ""),
    ("an accept", ONE_OF_TWO_FAILS, None, Some(1), 1, 7, ""),
    (
        "a connect",
        ONE_ISNT_CONNECTED,
        None,
        None,
        1,
        0,
        "served 2 faults 1\n",
    ),
    (
        "a write",
        ONE_OF_TWO_FAILS,
        None,
        None,
        1,
        0,
        "served 2 faults 1\n",
    ),
];

/// Bytes that repeat after `period` of them.
fn bytes(alloc: Global, from: usize, count: usize, period: usize) -> Result<Vec<u8>, AllocError> {
    let mut bytes = Vec::with_capacity(alloc, count)?;
    for i in 0..count {
        bytes.push((from.wrapping_add(i) % period.clamp(1, 256)) as u8)?;
    }
    Ok(bytes)
}

/// The same bytes in pieces.
fn pieces(alloc: Global, lengths: &[usize], period: usize) -> Result<Vec<Vec<u8>>, AllocError> {
    let mut pieces = Vec::new(alloc);
    let mut from: usize = 0;
    for length in lengths {
        pieces.push(bytes(alloc, from, *length, period)?)?;
        from = from.wrapping_add(*length);
    }
    Ok(pieces)
}

/// A client's bytes repeat after 251, and a target's after 241.
const OF_CLIENT: usize = 251;

const OF_TARGET: usize = 241;

fn peer_plan(alloc: Global, peer: &Peer) -> Result<PeerPlan, AllocError> {
    Ok(PeerPlan {
        sends: pieces(alloc, peer.sends, OF_CLIENT)?,
        answers: pieces(alloc, peer.answers, OF_TARGET)?,
        most: peer.most,
        fail_connect: peer.fail_connect,
        fail_write_after: peer.fail_write_after,
    })
}

/// A net that was just made, for these connections.
pub(super) fn net_of(
    alloc: Global,
    peers: &[Peer],
    fail_poll: Option<u64>,
    fail_accept: Option<u64>,
) -> Result<MemoryNet, AllocError>
    ensures { IfOk result (λ net. IsFresh (shown net)) }
{
    let mut plans = Vec::new(alloc);
    for peer in peers {
        plans.push(peer_plan(alloc, peer)?)?;
    }
    MemoryNet::make(
        alloc,
        NetPlan {
            peers: plans,
            fail_poll,
            fail_accept,
        },
    )
}

/// The status of the program that relays so many connections, what it wrote, and the net that it left.
fn relays<R>(
    rt: &R,
    alloc: Global,
    net: MemoryNet,
    way: &str,
    conns: &str,
) -> Result<(u8, MemorySink, MemoryNet), AllocError>
where
    R: Threads + Wait + RandomSource + AllocGlobal + Sync,
    requires { IsFresh (shown net) }
{
    let words = [
        "proxy",
        "--way",
        way,
        "--listen=127.0.0.1:8080",
        "--target",
        "127.0.0.1:80",
        "--conns",
        conns,
    ];
    let mut source = MemorySource::make(Vec::new(alloc), 1, Vec::new(alloc));
    let mut sink = MemorySink::make(alloc, 5, Vec::new(alloc), 64)?;
    let (status, net) = runs(rt, alloc, &words, &mut source, &mut sink, net, &NoBell)?;
    Ok((status, sink, net))
}

/// The first channel of this number.
pub(super) fn link(number: u32) -> ChanId {
    ChanId::first(ChanNo(number))
}

/// Whether the bytes that were put on the two links are the first that the peers sent, so many of them, and both links
/// are shut or not.
fn has_arrived(
    net: &MemoryNet,
    client: ChanId,
    target: ChanId,
    peer: &Peer,
    (of_client, of_target): (&[u8], &[u8]),
) -> bool {
    let at_target = net.put_bytes(target);
    let at_client = net.put_bytes(client);
    at_target.len() == peer.at_target
        && at_client.len() == peer.at_client
        && of_client.starts_with(at_target)
        && of_target.starts_with(at_client)
        && (net.is_shut(client) && net.is_shut(target)) == peer.is_shut
}

fn ends_as<R>(rt: &R, alloc: Global, way: &str, row: &Row, sent: (&[u8], &[u8])) -> Result<(), Fail>
where
    R: Abort + Threads + Wait + RandomSource + AllocGlobal + Sync,
{
    let net = net_of(alloc, row.peers, row.fail_poll, row.fail_accept)?;
    let (status, sink, net) = relays(rt, alloc, net, way, row.conns)?;
    assert_eq!(rt; status, row.status, "{} {way}", row.name);
    assert_eq!(rt; sink.bytes(), row.written.as_bytes(), "{} {way}", row.name);
    let mut client: u32 = 1;
    for peer in row.peers {
        let target = link(client.wrapping_add(1));
        let arrived = has_arrived(&net, link(client), target, peer, sent);
        assert!(rt; arrived, "{} {way}: {client}", row.name);
        client = client.wrapping_add(2);
    }
    Ok(())
}

#[test]
fn relays_end_as_written_down(rt: HostRuntime) -> Result<(), Fail> {
    let of_client = bytes(rt.alloc(), 0, 20_000, OF_CLIENT)?;
    let of_target = bytes(rt.alloc(), 0, 20_000, OF_TARGET)?;
    for row in ROWS {
        ends_as(&rt, rt.alloc(), "select", row, (&of_client, &of_target))?;
    }
    Ok(())
}

#[test]
fn all_ways_end_alike(rt: HostRuntime) -> Result<(), Fail> {
    let of_client = bytes(rt.alloc(), 0, 20_000, OF_CLIENT)?;
    let of_target = bytes(rt.alloc(), 0, 20_000, OF_TARGET)?;
    for way in ["select", "group", "future"] {
        for row in ALIKE {
            ends_as(&rt, rt.alloc(), way, row, (&of_client, &of_target))?;
        }
    }
    Ok(())
}

/// Whether what was put on each link of this connection begins what was read from the other.
fn is_begun(net: &MemoryNet, client: ChanId, target: ChanId) -> bool {
    net.got_bytes(client).starts_with(net.put_bytes(target))
        && net.got_bytes(target).starts_with(net.put_bytes(client))
}

#[test]
fn failing_nets(rt: HostRuntime) -> Result<(), Fail> {
    let alloc = rt.alloc();
    for (name, peers, poll, accept, polls, code, written) in FAILING {
        for more in 0..polls {
            let net = net_of(alloc, peers, poll.map(|at| at.saturating_add(more)), accept)?;
            let (status, sink, net) = relays(&rt, alloc, net, "select", "2")?;
            assert_eq!(rt; status, code, "failing_nets: {name} {more}");
            assert_eq!(rt;
                sink.bytes(),
                written.as_bytes(),
                "failing_nets: {name} {more}"
            );
            let begun = is_begun(&net, link(1), link(2)) && is_begun(&net, link(3), link(4));
            assert!(rt; begun, "failing_nets: {name} {more}");
        }
    }
    Ok(())
}

/// A runtime that has no random bytes, so that no executor can be made for the polls of tickets.
#[derive(Drop)]
struct NoRandom<R> {
    rt: R,
}

impl<R: Threads> Threads for NoRandom<R> {}

impl<R: Wait> Wait for NoRandom<R> {}

impl<R: Alloc> Alloc for NoRandom<R> {
    type A = R::A;

    fn alloc(&self) -> R::A {
        self.rt.alloc()
    }
}

impl<R> RandomSource for NoRandom<R> {
    fn fill_bytes(&self, _buf: &mut [u8]) -> io::Result<()> {
        Err(io::Error::other("no random bytes"))
    }
}

#[test]
fn a_refused_executor_counts_as_want_of_memory(rt: HostRuntime) -> Result<(), Fail> {
    let net = net_of(rt.alloc(), &[SHORT], None, None)?;
    let refusing = NoRandom { rt: &rt };
    let (status, sink, _net) = relays(&refusing, rt.alloc(), net, "future", "1")?;
    assert_eq!(rt; status, 6);
    assert!(rt; sink.bytes().is_empty());
    Ok(())
}

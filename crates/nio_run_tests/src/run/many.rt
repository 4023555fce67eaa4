//! The proxy with a net for each worker: how the program ends, what it says, and which bytes arrive in which net.
ghost use Rattle.std.specs.Prelude.{All, IfOk};
ghost use Rattle.nio_link.specs.MemoryNet.{shown};
ghost use Rattle.nio_serve.specs.Serving.{IsFresh};

use super::relays::link;
use super::runs_with;
use nio_base::{ChanId, NoGate};
use nio_bytes::{MemorySink, MemorySource};
use nio_link::{MemoryNet, NetPlan, PeerPlan};
use nio_poller::NoBell;
use std::alloc::{AllocError, AllocGlobal, Global};
use std::random::RandomSource;
use std::sync::Wait;
use std::test::Fail;
use std::thread::Threads;

/// How many connections there are.
const CONNS: usize = 3;

/// How many bytes each client sends.
const SENT: usize = 5_000;

/// Which connection isn't made, which call of `accept` fails, how many connections are awaited, the words on the workers,
/// how many nets they are given, how the program ends, and for each net how many bytes arrive at the targets of its first two connections.
#[derive(Clone, Copy)]
struct Row {
    name: &'static str,
    unconnected: Option<usize>,
    fail_accept: Option<u64>,
    conns: &'static str,
    workers: &'static [&'static str],
    nets: usize,
    status: u8,
    written: &'static str,
    arrived: &'static [(usize, usize)],
}

/// The third net isn't used.
const DEALT_OUT: Row = Row {
    name: "links_dealt_out",
    unconnected: None,
    fail_accept: None,
    conns: "3",
    workers: &["--workers", "2"],
    nets: 3,
    status: 0,
    written: "served 3 faults 0\n",
    arrived: &[(SENT, SENT), (SENT, 0), (0, 0)],
};

const ROWS: &[Row] = &[
    DEALT_OUT,
    Row {
        name: "one_target_fails",
        unconnected: Some(1),
        written: "served 3 faults 1\n",
        arrived: &[(SENT, SENT), (0, 0), (0, 0)],
        ..DEALT_OUT
    },
    Row {
        name: "four_workers_by_default",
        workers: &[],
        nets: 4,
        arrived: &[(SENT, 0), (SENT, 0), (SENT, 0), (0, 0)],
        ..DEALT_OUT
    },
    Row {
        name: "fewer_nets_than_workers",
        nets: 1,
        status: 6,
        written: "",
        arrived: &[(0, 0)],
        ..DEALT_OUT
    },
    // those that have come are served
    Row {
        name: "many_awaited",
        fail_accept: Some(3),
        conns: "4294967295",
        status: 7,
        written: "",
        ..DEALT_OUT
    },
    Row {
        name: "an_accept_fails",
        fail_accept: Some(0),
        status: 7,
        written: "",
        arrived: &[(0, 0), (0, 0), (0, 0)],
        ..DEALT_OUT
    },
];

/// A client that sends its bytes, and a target that takes 700 of them a write, if it can be connected.
fn peer(alloc: Global, sent: &[u8], fail_connect: bool) -> Result<PeerPlan, AllocError> {
    Ok(PeerPlan {
        sends: vec![in alloc; sent.to_vec(alloc)?]?,
        answers: Vec::new(alloc),
        most: 700,
        fail_connect,
        fail_write_after: None,
    })
}

/// The net of the listener.
fn net_of(alloc: Global, row: &Row, sent: &[u8]) -> Result<MemoryNet, AllocError>
    ensures { IfOk result (λ net. IsFresh (shown net)) }
{
    let mut peers = Vec::new(alloc);
    for number in 0..CONNS {
        peers.push(peer(alloc, sent, row.unconnected == Some(number))?)?;
    }
    MemoryNet::make(
        alloc,
        NetPlan {
            peers,
            fail_poll: None,
            fail_accept: row.fail_accept,
        },
    )
}

/// So many nets to which nobody connects.
pub(super) fn nets_of(alloc: Global, count: usize) -> Result<Vec<MemoryNet>, AllocError>
    ensures { IfOk result (λ nets. All (λ net. IsFresh (shown net)) nets.items) }
{
    let mut nets = Vec::new(alloc);
    for _ in 0..count {
        let net = super::relays::net_of(alloc, &[], None, None)?;
        nets.push(net)?;
    }
    Ok(nets)
}

/// The status of the program that relays the connections of a row, what it wrote, and the nets of the workers.
fn relays<R>(
    rt: &R,
    alloc: Global,
    row: &Row,
    sent: &[u8],
) -> Result<(u8, MemorySink, Vec<MemoryNet>), AllocError>
where
    R: Threads + Wait + RandomSource + AllocGlobal + Sync,
{
    let mut words = vec![in alloc;
        "proxy",
        "--way=many",
        "--listen=127.0.0.1:8080",
        "--target=127.0.0.1:80",
        "--conns",
        row.conns,
    ]?;
    words.extend_from_slice(row.workers)?;
    let mut source = MemorySource::make(Vec::new(alloc), 1, Vec::new(alloc));
    let mut sink = MemorySink::make(alloc, 5, Vec::new(alloc), 64)?;
    let net = net_of(alloc, row, sent)?;
    let mut more = nets_of(alloc, row.nets)?;
    let bells = Vec::new(alloc);
    let (status, _net) = runs_with(
        rt,
        alloc,
        &words,
        &mut source,
        &mut sink,
        net,
        &mut more,
        &NoBell,
        bells,
        &NoGate,
    )?;
    Ok((status, sink, more))
}

/// The links of a connection in a worker's net: its client's and its target's.
type Links = (ChanId, ChanId);

/// The links of a net's first two connections.
fn first_links() -> [Links; 2] {
    [(link(1), link(2)), (link(3), link(4))]
}

/// Whether both links have ended and are shut.
fn is_over(net: &MemoryNet, (client, target): Links) -> bool {
    net.has_ended(client) && net.has_ended(target) && net.is_shut(client) && net.is_shut(target)
}

/// Whether so many of the bytes have arrived at the target of a connection. Where all have, it is over, else not.
fn has_arrived(net: &MemoryNet, sent: &[u8], links: Links, count: usize) -> bool {
    let at_target = net.put_bytes(links.1);
    at_target.len() == count
        && sent.starts_with(at_target)
        && is_over(net, links) == (count == sent.len())
}

/// Whether so many of the bytes have arrived at the targets of a net's first two connections.
fn have_arrived(net: &MemoryNet, sent: &[u8], (first, second): (usize, usize)) -> bool {
    let [of_first, of_second] = first_links();
    has_arrived(net, sent, of_first, first) && has_arrived(net, sent, of_second, second)
}

#[test]
fn workers_end_as_written_down(rt: HostRuntime) -> Result<(), Fail> {
    let mut sent = Vec::new(rt.alloc());
    for at in 0..SENT {
        sent.push((at % 251) as u8)?;
    }
    for row in ROWS {
        let (status, sink, more) = relays(&rt, rt.alloc(), row, &sent)?;
        assert_eq!(rt; status, row.status, "{}", row.name);
        assert_eq!(rt; sink.bytes(), row.written.as_bytes(), "{}", row.name);
        assert_eq!(rt; more.len(), row.nets, "{}", row.name);
        for (net, &arrived) in more.iter().zip(row.arrived) {
            assert!(rt; have_arrived(net, &sent, arrived), "{}", row.name);
        }
    }
    Ok(())
}

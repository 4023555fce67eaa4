//! How the proxy by operations ends, and which bytes arrive at both ends.
use crate::nets::{Peer, SHORT, channel, net_of, serves};
use nio_base::{ChanId, NoGate};
use nio_link::MemoryNet;
use nio_relay::Served;
use nio_serve::ServeError;
use std::test::Fail;

/// The connections, which call of `accept` fails, and the answer.
#[derive(Clone, Copy)]
struct Row {
    name: &'static str,
    peers: &'static [Peer],
    fail_accept: Option<u64>,
    served: Result<Served, ServeError>,
}

/// A client that sends 20,000 bytes in three pieces, to a target that takes 7 bytes a write and answers nothing.
pub(crate) const SENDER: Peer = Peer {
    sends: &[1, 16_384, 3_615],
    answers: &[],
    most: 7,
    at_target: 20_000,
    at_client: 0,
    ..SHORT
};

/// Two such connections, of which the first target takes 10 bytes.
pub(crate) const ONE_OF_TWO_FAILS: &[Peer] = &[
    Peer {
        fail_write_after: Some(10),
        at_target: 10,
        is_shut: false,
        ..SENDER
    },
    SENDER,
];

const ONE: Row = Row {
    name: "relay_one",
    peers: &[SENDER],
    fail_accept: None,
    served: Ok(Served {
        connections: 1,
        faults: 0,
    }),
};

const ROWS: &[Row] = &[
    ONE,
    Row {
        name: "relay_one_of_two_fails",
        peers: ONE_OF_TWO_FAILS,
        served: Ok(Served {
            connections: 2,
            faults: 1,
        }),
        ..ONE
    },
    Row {
        name: "relay_accept_fails",
        peers: &[Peer {
            at_target: 0,
            is_shut: false,
            ..SENDER
        }],
        fail_accept: Some(0),
        served: Err(ServeError::NetFault),
        ..ONE
    },
    Row {
        name: "both_ways_past_the_room",
        peers: &[Peer {
            sends: &[0, 16_385, 1],
            answers: &[16_385, 0, 0, 1],
            most: 5_000,
            at_target: 16_386,
            at_client: 16_386,
            ..SHORT
        }],
        ..ONE
    },
    Row {
        name: "a_connect_fails",
        peers: &[
            SHORT,
            Peer {
                fail_connect: true,
                at_target: 0,
                at_client: 0,
                is_shut: false,
                ..SHORT
            },
            SHORT,
        ],
        served: Ok(Served {
            connections: 3,
            faults: 1,
        }),
        ..ONE
    },
    Row {
        name: "a_write_fails_beside_others",
        peers: &[
            SHORT,
            Peer {
                sends: &[100],
                answers: &[0, 0, 0, 0, 0, 0, 0, 0, 0, 0, 9],
                most: 100,
                fail_write_after: Some(10),
                at_target: 10,
                at_client: 9,
                is_shut: false,
                ..SHORT
            },
            SHORT,
        ],
        served: Ok(Served {
            connections: 3,
            faults: 1,
        }),
        ..ONE
    },
    Row {
        name: "client_ends_first",
        peers: &[Peer {
            sends: &[5],
            answers: &[0, 0, 0, 0, 0, 0, 9],
            most: 100,
            at_target: 5,
            at_client: 9,
            ..SHORT
        }],
        ..ONE
    },
    Row {
        name: "target_ends_first",
        peers: &[Peer {
            sends: &[0, 0, 0, 0, 0, 0, 5],
            answers: &[],
            most: 100,
            at_target: 5,
            at_client: 0,
            ..SHORT
        }],
        ..ONE
    },
    // a permit that is lost where several come together leaves a connection unserved, and this doesn't end
    Row {
        name: "eight_at_once",
        peers: &[SHORT; 8],
        served: Ok(Served {
            connections: 8,
            faults: 0,
        }),
        ..ONE
    },
];

/// Whether so many bytes were put on the two links, the first that the other gave, and both links are shut or not. Where
/// a call fails, the other direction may have carried fewer.
fn has_arrived(net: &MemoryNet, client: ChanId, target: ChanId, peer: &Peer) -> bool {
    let at_target = net.put_bytes(target);
    let at_client = net.put_bytes(client);
    at_target.len() == peer.at_target
        && at_client.len() <= peer.at_client
        && (at_client.len() == peer.at_client || !peer.is_shut)
        && net.got_bytes(client).starts_with(at_target)
        && net.got_bytes(target).starts_with(at_client)
        && (net.is_shut(client) && net.is_shut(target)) == peer.is_shut
}

#[test]
fn relays_end_as_written_down(rt: HostRuntime) -> Result<(), Fail> {
    for row in ROWS {
        let net = net_of(rt.alloc(), row.peers, None, row.fail_accept)?;
        let (served, net) = serves(&rt, rt.alloc(), net, row.peers.len(), &NoGate);
        assert_eq!(rt; served, row.served, "{}", row.name);
        let mut client: u32 = 1;
        for peer in row.peers {
            let target = channel(client.wrapping_add(1));
            let arrived = has_arrived(&net, channel(client), target, peer);
            assert!(rt; arrived, "{}: {client}", row.name);
            client = client.wrapping_add(2);
        }
    }
    Ok(())
}

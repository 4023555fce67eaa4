//! More connections than there are slots: the numbers of the channels serve again.
use crate::nets::{Failures, NO_FAILURES, Part, Peer, serves_alone, serves_by};
use nio_base::NoGate;
use nio_reactor::ManyError;
use nio_relay::Served;
use std::alloc::{AllocError, Global};
use std::test::Fail;

/// A client that sends 3 bytes, to a target that takes 7 bytes a write and answers 2.
const SMALL: Peer = Peer {
    sends: &[3],
    answers: &[2],
    most: 7,
    fail_connect: false,
    fail_write_after: None,
};

/// How many connections there are, over how many slots, by how many workers, what fails, and the answer. One target in
/// ten can't be connected.
#[derive(Clone, Copy)]
struct Row {
    conns: u32,
    at_once: u32,
    workers: usize,
    fails: Failures,
    served: Result<Served, ManyError>,
}

const ONE_SLOT: Row = Row {
    conns: 20,
    at_once: 1,
    workers: 1,
    fails: NO_FAILURES,
    served: Ok(Served {
        connections: 20,
        faults: 2,
    }),
};

const SIXTY: Row = Row {
    conns: 60,
    at_once: 4,
    workers: 3,
    fails: NO_FAILURES,
    served: Ok(Served {
        connections: 60,
        faults: 6,
    }),
};

const ROWS: [Row; 6] = [
    ONE_SLOT,
    SIXTY,
    // each worker has a slot
    Row {
        at_once: 2,
        workers: 5,
        ..SIXTY
    },
    Row {
        conns: 300,
        at_once: 64,
        workers: 4,
        served: Ok(Served {
            connections: 300,
            faults: 30,
        }),
        ..SIXTY
    },
    // the worker that has failed holds up no one
    Row {
        fails: Failures {
            poll: Some((Part::Worker(1), 3)),
            ..NO_FAILURES
        },
        served: Err(ManyError::NetFault),
        ..SIXTY
    },
    Row {
        fails: Failures {
            room: Some(2),
            ..NO_FAILURES
        },
        served: Err(ManyError::Memory),
        ..SIXTY
    },
];

fn peers(alloc: Global, count: u32) -> Result<Vec<Peer>, AllocError> {
    let mut peers = Vec::new(alloc);
    for number in 0..count {
        peers.push(Peer {
            fail_connect: number % 10 == 3,
            ..SMALL
        })?;
    }
    Ok(peers)
}

#[test]
fn slots_serve_again(rt: HostRuntime) -> Result<(), Fail> {
    for row in ROWS {
        let Row {
            conns,
            at_once,
            workers,
            ..
        } = row;
        let peers = peers(rt.alloc(), conns)?;
        let relayed = serves_by(
            &rt,
            rt.alloc(),
            &peers,
            row.fails,
            workers,
            at_once,
            &NoGate,
        )?;
        assert_eq!(rt; relayed.served, row.served, "{conns} {at_once} {workers}");
    }
    Ok(())
}

/// The same by one loop, without workers: how many connections there are, over how many slots, and how many have a fault.
#[test]
fn slots_of_one_loop_serve_again(rt: HostRuntime) -> Result<(), Fail> {
    for (conns, at_once, faults) in [(20, 1, 2), (60, 4, 6), (300, 64, 30), (2_000, 64, 200)] {
        let peers = peers(rt.alloc(), conns)?;
        let served = serves_alone(&rt, rt.alloc(), &peers, at_once)?;
        let wanted = Served {
            connections: conns,
            faults,
        };
        assert_eq!(rt; served, Ok(wanted), "{conns} {at_once}");
    }
    Ok(())
}

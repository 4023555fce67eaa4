//! Which bytes arrive in which net, and how the proxy ends.
use crate::nets::{Failures, NO_FAILURES, OF_CLIENT, SENDER, bytes, serves};
use nio_base::{CallerNo, ChanId, ChanNo, NoGate};
use nio_reactor::ManyError;
use nio_relay::Served;
use nio_words::Pass;
use std::test::Fail;

/// How many workers serve three connections, what fails, the answer, and for each worker how many bytes arrive at the
/// targets of its first two connections.
#[derive(Clone, Copy)]
struct Row {
    name: &'static str,
    workers: usize,
    fails: Failures,
    served: Result<Served, ManyError>,
    arrived: &'static [(usize, usize)],
}

const THREE: Row = Row {
    name: "three_by_two",
    workers: 2,
    fails: NO_FAILURES,
    served: Ok(Served {
        connections: 3,
        faults: 0,
    }),
    arrived: &[(20_000, 20_000), (20_000, 0)],
};

const ROWS: &[Row] = &[
    THREE,
    Row {
        name: "one_worker",
        workers: 1,
        arrived: &[(20_000, 20_000)],
        ..THREE
    },
    Row {
        name: "more_workers_than_connections",
        workers: 5,
        arrived: &[(20_000, 0), (20_000, 0), (20_000, 0), (0, 0), (0, 0)],
        ..THREE
    },
    Row {
        name: "no_memory_for_a_link",
        fails: Failures {
            room: Some(1),
            ..NO_FAILURES
        },
        served: Err(ManyError::Memory),
        arrived: &[(20_000, 20_000), (0, 0)],
        ..THREE
    },
];

/// So many of the bytes, from the first on.
fn first_of(bytes: &[u8], count: usize) -> &[u8] {
    &bytes[..count.min(bytes.len())]
}

/// Whether the pass has the numbers of the acceptor and of so many workers, and no other.
fn has_numbers(pass: &Pass, workers: usize) -> bool {
    for number in 0..64 {
        if pass.holds(CallerNo(number)) != (number as usize <= workers) {
            return false;
        }
    }
    true
}

#[test]
fn bytes_arrive_at_the_targets(rt: HostRuntime) -> Result<(), Fail> {
    let sent = bytes(rt.alloc(), OF_CLIENT, 20_000)?;
    for row in ROWS {
        let relayed = serves(
            &rt,
            rt.alloc(),
            &[SENDER; 3],
            row.fails,
            row.workers,
            &NoGate,
        )?;
        assert!(rt; relayed.served == row.served, "{}", row.name);
        if let Some(pass) = &relayed.pass {
            assert!(rt; has_numbers(pass, row.workers), "{}", row.name);
        }
        for (roomy, &(first, second)) in relayed.more.iter().zip(row.arrived) {
            let first_arrived = roomy.net.put_bytes(ChanId::first(ChanNo(2)))
                == first_of(&sent, first);
            let second_arrived = roomy.net.put_bytes(ChanId::first(ChanNo(4)))
                == first_of(&sent, second);
            assert!(rt; first_arrived && second_arrived, "{}", row.name);
        }
    }
    Ok(())
}

//! The workers of a proxy run beside each other, and handle its completions.
use crate::nets::{Peer, SHORT, channel, net_of, serves, serves_counted};
use nio_base::Gate;
use nio_operations::HandledCounts;
use nio_relay::Served;
use std::sync::Wait;
use std::sync::atomic::{AtomicBool, Ordering};
use std::test::Fail;
use std::thread;

/// How often a worker looks whether the other has come before it gives up.
const TURNS: u32 = 100_000_000;

/// The operation that accepts the first client. Its handler starts what comes next, so while it is held nothing else
/// completes. It comes to a worker only where not all of them sleep yet.
const FIRST_ACCEPT: u64 = 0;

/// Holds each of two workers until the other has come with a completion of its own, but for that of the first accept.
/// The connections have completions together; while one worker is held with the first of them, only the other can take
/// the next one.
#[derive(Drop)]
struct Meeting {
    first_came: AtomicBool,
    second_came: AtomicBool,
    given_up: AtomicBool,
}

impl Meeting {
    fn new() -> Meeting {
        Meeting {
            first_came: AtomicBool::new(false),
            second_came: AtomicBool::new(false),
            given_up: AtomicBool::new(false),
        }
    }

    /// Whether both have come.
    fn have_met(&self) -> bool {
        let both = self.first_came.load(Ordering::SeqCst)
            && self.second_came.load(Ordering::SeqCst);
        both && !self.given_up.load(Ordering::SeqCst)
    }

    fn meet(&self, own: &AtomicBool, other: &AtomicBool) {
        own.store(true, Ordering::SeqCst);
        for _ in 0..TURNS {
            if other.load(Ordering::SeqCst) {
                return;
            }
            thread::yield_now();
        }
        self.given_up.store(true, Ordering::SeqCst);
    }
}

impl Gate for Meeting {
    fn pass<R: Wait>(&self, _rt: &R, who: u32, what: u64) {
        if what == FIRST_ACCEPT {
            return;
        }
        match who {
            0 => self.meet(&self.first_came, &self.second_came),
            1 => self.meet(&self.second_came, &self.first_came),
            _ => self.given_up.store(true, Ordering::SeqCst),
        }
    }
}

/// A connection of many small writes, both ways.
const STEADY: Peer = Peer {
    sends: &[2_000],
    answers: &[2_000],
    most: 7,
    at_target: 2_000,
    at_client: 2_000,
    ..SHORT
};

#[test]
fn two_workers_meet(rt: HostRuntime) -> Result<(), Fail> {
    let gate = Meeting::new();
    let net = net_of(rt.alloc(), &[STEADY; 2], None, None)?;
    let (served, _net) = serves(&rt, rt.alloc(), net, 2, &gate);
    let all = Served {
        connections: 2,
        faults: 0,
    };
    assert_eq!(rt; served, Ok(all));
    assert!(rt; gate.have_met());
    Ok(())
}

/// A client that sends 64 bytes, of which each is read by itself.
const PIECEMEAL: Peer = Peer {
    sends: &[1; 64],
    answers: &[],
    most: 64,
    at_target: 64,
    at_client: 0,
    ..SHORT
};

/// At least nine of ten completions of 16 connections, with 1,024 reads, are handled by workers, and each worker handles
/// some. The dispatcher handles one that comes alone while all workers sleep.
#[test]
fn workers_handle_what_comes_together(rt: HostRuntime) -> Result<(), Fail> {
    let gate = Meeting::new();
    let net = net_of(rt.alloc(), &[PIECEMEAL; 16], None, None)?;
    let (counted, net) = serves_counted(&rt, rt.alloc(), net, 16, &gate);
    let all = Served {
        connections: 16,
        faults: 0,
    };
    assert_eq!(rt; counted.served, Ok(all));
    for connection in 0..16 {
        let target = channel(2 * connection + 2);
        assert_eq!(rt; net.put_bytes(target).len(), PIECEMEAL.at_target);
    }
    let HandledCounts {
        by_dispatcher,
        by_workers: [first, second, ..],
    } = counted.counts;
    let by_workers = first.saturating_add(second);
    let handled = by_workers.saturating_add(by_dispatcher);
    assert!(rt; gate.have_met());
    assert!(rt; 1_024 <= handled, "{handled} were handled");
    assert!(rt; 0 < first && 0 < second, "{first} and {second} by workers");
    assert!(rt;
        by_dispatcher <= handled / 10,
        "{by_dispatcher} of {handled} by the dispatcher"
    );
    Ok(())
}

//! The workers of a proxy run beside each other.
use crate::nets::{NO_FAILURES, SENDER, serves};
use nio_base::Gate;
use nio_relay::Served;
use std::sync::Wait;
use std::sync::atomic::{AtomicBool, Ordering};
use std::test::Fail;
use std::thread;

/// How often a worker looks whether the other has come before it gives up.
const TURNS: u32 = 100_000_000;

/// Holds each of two workers until the other has come with a connection of its own.
#[derive(Drop)]
struct Meeting {
    first_came: AtomicBool,
    second_came: AtomicBool,
    given_up: AtomicBool,
}

impl Meeting {
    fn meet(&self, own: &AtomicBool, other: &AtomicBool) {
        own.store(true, Ordering::SeqCst);
        for _ in 0..TURNS {
            if other.load(Ordering::SeqCst) {
                return;
            }
            thread::yield_now();
        }
        self.given_up.store(true, Ordering::SeqCst);
    }
}

impl Gate for Meeting {
    fn pass<R: Wait>(&self, _rt: &R, who: u32, what: u64) {
        match (who, what) {
            (0, 0) => self.meet(&self.first_came, &self.second_came),
            (1, 1) => self.meet(&self.second_came, &self.first_came),
            _ => self.given_up.store(true, Ordering::SeqCst),
        }
    }
}

#[test]
fn two_workers_meet(rt: HostRuntime) -> Result<(), Fail> {
    let gate = Meeting {
        first_came: AtomicBool::new(false),
        second_came: AtomicBool::new(false),
        given_up: AtomicBool::new(false),
    };
    let relayed = serves(&rt, rt.alloc(), &[SENDER; 2], NO_FAILURES, 2, &gate)?;
    let all = Served {
        connections: 2,
        faults: 0,
    };
    assert_eq!(rt; relayed.served, Ok(all));
    assert!(rt; gate.first_came.load(Ordering::SeqCst) && gate.second_came.load(Ordering::SeqCst));
    assert!(rt; !gate.given_up.load(Ordering::SeqCst));
    Ok(())
}

//! Counts of the completions that were handled.
use std::array;
use std::sync::atomic::{AtomicU64, Ordering};

/// How many workers a group has at most.
const MOST: usize = 64;

/// How many completions the dispatcher has handled, and each worker, by its number.
#[derive(Clone, Copy)]
pub struct HandledCounts {
    pub by_dispatcher: u64,
    pub by_workers: [u64; 64],
}

impl HandledCounts {
    /// Nobody has handled any.
    pub(crate) const NONE: HandledCounts = HandledCounts {
        by_dispatcher: 0,
        by_workers: [0; MOST],
    };
}

/// The counts while handlers run.
#[derive(Drop)]
pub(crate) struct Counters {
    pub by_dispatcher: AtomicU64,
    by_workers: [AtomicU64; MOST],
}

impl Counters {
    pub(crate) fn new() -> Counters {
        Counters {
            by_dispatcher: AtomicU64::new(0),
            by_workers: array::from_fn(|_| AtomicU64::new(0)),
        }
    }

    /// The count of the worker with this number.
    pub(crate) fn of_worker(&self, worker: usize) -> &AtomicU64 {
        let all = &self.by_workers[..];
        &all[worker % MOST]
    }

    /// What was counted so far.
    pub(crate) fn counts(&self) -> HandledCounts {
        HandledCounts {
            by_dispatcher: self.by_dispatcher.load(Ordering::SeqCst),
            by_workers: array::from_fn(|worker| self.of_worker(worker).load(Ordering::SeqCst)),
        }
    }
}

//! The bells of callers that block.
use nio_poller::{Bell, SleeperBell};

pub(crate) fn ring_all(bells: &[SleeperBell]) {
    for bell in bells {
        bell.ring();
    }
}

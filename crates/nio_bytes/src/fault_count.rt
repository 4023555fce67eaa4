//! A count of faults.
ghost use Rattle.std.specs.Prelude.{◌≡◌, ◌≤◌};
ghost use Rattle.nio_bytes.specs.Cause.{Rose, count_after};

use crate::failed::Failed;
use std::marker::Model;

/// How often a source or sink has failed. The count stops at the greatest `u64`.
#[derive(Drop)]
pub struct FaultCount {
    faults: u64,
}

impl Model for FaultCount {
    ghost use Rattle.std.specs.Prelude.{ℕ};

    ghost Value = { ℕ };

    ghost view = { λ c. c.faults };
}

impl FaultCount {
    /// No fault yet.
    pub fn new() -> FaultCount
        ensures { result ≡ 0 }
    {
        FaultCount { faults: 0 }
    }

    /// Counts a fault, and returns it.
    pub fn fail(&mut self) -> Failed
        ensures count { self.new ≡ count_after self.old }
        ensures later { self.old ≤ self.new }
        ensures rose { Rose self.old self.new }
    {
        self.faults = self.faults.saturating_add(1);
        Failed
    }
}

//! The calls of a source or sink in memory, some of which fail.
ghost use Rattle.std.specs.Prelude.{◌≡◌, ◌↔◌, ◌⊎◌, false, IsErr, OnOk, OnErr};
ghost use Rattle.nio_bytes.specs.Cause.{HasCause};

use crate::failed::Failed;
use crate::fault_count::FaultCount;
use std::marker::Model;

/// Counts calls from 0, and fails those whose numbers were given.
#[derive(Drop)]
pub struct Calls {
    fail_at: Vec<u64>,
    made: u64,
    faults: FaultCount,
}

impl Model for Calls {
    ghost use Rattle.nio_bytes.specs.Calls.{Calls as Counted};

    ghost Value = { Counted };

    ghost view = { λ c. record { fail_at = c.fail_at.items; made = c.made; faults = c.faults } };
}

impl Calls {
    ghost use Rattle.nio_bytes.specs.Calls.{no_calls, after_success, after_failure, FailsNext};

    /// No call was made yet. Those with these numbers, counted from 0, are to fail.
    pub fn new(fail_at: Vec<u64>) -> Calls
        ensures { result ≡ no_calls fail_at.items }
    {
        Calls {
            fail_at,
            made: 0,
            faults: FaultCount::new(),
        }
    }

    /// Counts a call. It fails where its number was given to `new`, or where `able` is false.
    pub fn next(&mut self, able: bool) -> Result<(), Failed>
        ensures fails { IsErr result ↔ (FailsNext self.old ⊎ (able ≡ false)) }
        ensures ok { OnOk result (self.new ≡ after_success self.old) }
        ensures err { OnErr result (self.new ≡ after_failure self.old) }
        ensures cause { HasCause self.old.faults self.new.faults result }
    {
        let fails = !able || self.fail_at.contains(&self.made);
        self.made = self.made.saturating_add(1);
        if fails {
            return Err(self.faults.fail());
        }
        Ok(())
    }
}

//! A source over bytes in memory that never fails.
ghost use Rattle.std.specs.Prelude.{◌≡◌, ℕ, ◌<◌, ◌≤◌, ◌↔◌, List, [], min, length, take, drop, Some, Ok, IfOk, OnErr};
ghost use Rattle.std.specs.Io.KnownBytes.{prepend_known};
ghost use Rattle.nio_bytes.specs.Cause.{HasCause};

use crate::failed::Failed;
use crate::source::Source;
use std::marker::Model;

/// Gives bytes, as many as there is room for. A caller sees the list of those still to come.
#[derive(Drop)]
pub struct SteadySource {
    bytes: Vec<u8>,
    at: usize,
}

impl Model for SteadySource {
    ghost use Rattle.std.specs.Prelude.{ℕ, ◌≤◌, List, drop, vec_len};

    ghost Value = { List ℕ };

    ghost view = { λ s. drop s.at s.bytes.items };

    ghost invariant = { λ s. s.at ≤ vec_len s.bytes };
}

impl SteadySource {
    /// A source of these bytes, and then the end.
    pub fn make(bytes: Vec<u8>) -> SteadySource
        ensures { result ≡ bytes.items }
    {
        SteadySource { bytes, at: 0 }
    }

    /// Puts the next bytes at the front of `into`, as many as it has room for, and counts them.
    pub(crate) fn give(&mut self, into: &mut [u8]) -> usize
        ensures count { result ≡ min (length into.new) (length self.old) }
        ensures bytes { take result into.new ≡ take result self.old }
        ensures left { self.new ≡ drop result self.old }
    {
        let rest = &self.bytes[self.at..];
        let count = into.len().min(rest.len());
        into[..count].copy_from_slice(&rest[..count]);
        self.at += count;
        count
    }
}

impl Source for SteadySource {
    ghost left = { λ s. Some s };

    ghost faults = { λ _. 0 };

    fn read(&mut self, into: &mut [u8]) -> Result<usize, Failed>
        ensures within { IfOk result (λ count. count ≤ length into.new) }
        ensures next { IfOk result (λ count.
            Some self.old ≡ prepend_known (take count into.new) (Some self.new)) }
        ensures end { IfOk result (λ count. 0 < length into.new → (count ≡ 0) ↔ (self.old ≡ [])) }
        ensures kept { OnErr result (Some self.new ≡ Some self.old) }
        ensures cause { HasCause 0 0 result }
        ensures count { result ≡ Ok (min (length into.new) (length self.old)) }
    {
        Ok(self.give(into))
    }
}

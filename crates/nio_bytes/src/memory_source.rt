//! A source over bytes in memory, some of whose reads fail.
ghost use Rattle.std.specs.Prelude.{◌≡◌, ℕ, ◌<◌, ◌≤◌, ◌↔◌, [], min, length, take, drop, Some, IfOk, IsErr, OnErr};
ghost use Rattle.std.specs.Io.KnownBytes.{prepend_known};
ghost use Rattle.nio_bytes.specs.Cause.{HasCause};

use crate::calls::Calls;
use crate::failed::Failed;
use crate::source::Source;
use crate::steady_source::SteadySource;
use std::marker::Model;

/// Gives bytes in pieces. The reads with given numbers fail.
#[derive(Drop)]
pub struct MemorySource {
    bytes: SteadySource,
    piece: usize,
    reads: Calls,
}

impl Model for MemorySource {
    ghost use Rattle.std.specs.Prelude.{◌≤◌};
    ghost use Rattle.nio_bytes.specs.MemorySource.{Bytes};

    ghost Value = { Bytes };

    ghost view = { λ s. record { left = s.bytes; piece = s.piece; reads = s.reads } };

    ghost invariant = { λ s. 1 ≤ s.piece };
}

impl MemorySource {
    ghost use Rattle.nio_bytes.specs.Calls.{no_calls};

    /// A source of these bytes, at most `piece` of them a read. The reads whose numbers, from 0,
    /// stand in `fail_at` fail, and take nothing.
    pub fn make(bytes: Vec<u8>, piece: usize, fail_at: Vec<u64>) -> MemorySource
        requires { 1 ≤ piece }
        ensures { result ≡ record {
          left = bytes.items;
          piece = piece;
          reads = no_calls fail_at.items;
        } }
    {
        MemorySource {
            bytes: SteadySource::make(bytes),
            piece,
            reads: Calls::new(fail_at),
        }
    }
}

impl Source for MemorySource {
    ghost use Rattle.nio_bytes.specs.Calls.{after_success, after_failure, FailsNext};

    ghost left = { λ s. Some s.left };

    ghost faults = { λ s. s.reads.faults };

    fn read(&mut self, into: &mut [u8]) -> Result<usize, Failed>
        // As every source.
        ensures within { IfOk result (λ count. count ≤ length into.new) }
        ensures next { IfOk result (λ count.
            Some self.old.left ≡ prepend_known (take count into.new) (Some self.new.left)) }
        ensures end { IfOk result (λ count. 0 < length into.new →
            (count ≡ 0) ↔ (self.old.left ≡ [])) }
        ensures kept { OnErr result (Some self.new.left ≡ Some self.old.left) }
        ensures cause { HasCause self.old.reads.faults self.new.reads.faults result }

        // By its piece and the failures that it was made with.
        ensures fails { IsErr result ↔ FailsNext self.old.reads }
        ensures count { IfOk result (λ count.
            count ≡ min (length into.new) (min self.old.piece (length self.old.left))) }
        ensures ok { IfOk result (λ count. self.new ≡ record self.old {
          left = drop count self.old.left;
          reads = after_success self.old.reads;
        }) }
        ensures err { OnErr result (self.new ≡ record self.old {
          reads = after_failure self.old.reads;
        }) }
    {
        self.reads.next(true)?;
        let count = into.len().min(self.piece);
        Ok(self.bytes.give(&mut into[..count]))
    }
}

//! A sink into memory, some of whose writes and flushes fail.
ghost use Rattle.std.specs.Prelude.{◌≡◌, ℕ, ◌-◌, ◌<◌, ◌≤◌, ◌↔◌, ◌⊎◌, ◌++◌, true, false, [], min, length, take, Some};
ghost use Rattle.std.specs.Prelude.{IfOk, IsErr, OnOk, OnErr};
ghost use Rattle.std.specs.Io.KnownBytes.{append_known};
ghost use Rattle.nio_bytes.specs.Cause.{HasCause};
ghost use Rattle.nio_bytes.specs.Sink.{shown};

use crate::calls::Calls;
use crate::failed::Failed;
use crate::sink::Sink;
use std::alloc::{AllocError, Global};
use std::marker::Model;

/// Takes bytes in pieces while there is room. The calls with given numbers fail.
#[derive(Drop)]
pub struct MemorySink {
    bytes: Vec<u8>,
    flushed: bool,
    piece: usize,
    room: usize,
    calls: Calls,
}

impl Model for MemorySink {
    ghost use Rattle.std.specs.Prelude.{◌≤◌, vec_len, vec_capacity};
    ghost use Rattle.nio_bytes.specs.MemorySink.{Bytes};

    ghost Value = { Bytes };

    ghost view = { λ s. record {
      taken = s.bytes.items;
      flushed = s.flushed;
      piece = s.piece;
      room = s.room;
      calls = s.calls;
    } };

    ghost invariant = { λ s.
        (vec_len s.bytes ≤ s.room) × (s.room ≤ vec_capacity s.bytes) × (1 ≤ s.piece) };
}

impl MemorySink {
    ghost use Rattle.nio_bytes.specs.Calls.{no_calls};

    /// A sink with room for `room` bytes, which takes at most `piece` of them a write. The calls
    /// whose numbers, from 0, stand in `fail_at` fail; writes and flushes are numbered together. A
    /// write also fails where it has bytes and no room is left. A write that fails takes nothing.
    pub fn make(
        alloc: Global,
        piece: usize,
        fail_at: Vec<u64>,
        room: usize,
    ) -> Result<MemorySink, AllocError>
        requires { 1 ≤ piece }
        ensures { IfOk result (λ sink. sink ≡ record {
          taken = [];
          flushed = false;
          piece = piece;
          room = room;
          calls = no_calls fail_at.items;
        }) }
    {
        Ok(MemorySink {
            bytes: Vec::with_capacity(alloc, room)?,
            flushed: false,
            piece,
            room,
            calls: Calls::new(fail_at),
        })
    }

    /// The bytes taken so far.
    pub fn bytes(&self) -> &[u8]
        ensures { result.now ≡ self.now.taken }
    {
        &self.bytes
    }
}

impl Sink for MemorySink {
    ghost use Rattle.nio_bytes.specs.Calls.{after_success, after_failure, FailsNext};

    ghost taken = { λ s. Some s.taken };

    ghost flushed = { λ s. Some s.flushed };

    ghost faults = { λ s. s.calls.faults };

    fn write(&mut self, from: &[u8]) -> Result<usize, Failed>
        // As every sink.
        ensures within { IfOk result (λ count. count ≤ length from.now) }
        ensures some { IfOk result (λ count. 0 < length from.now → 0 < count) }
        ensures taken { IfOk result (λ count.
            Some self.new.taken ≡ append_known (Some self.old.taken) (take count from.now)) }
        ensures kept { OnErr result (Some self.new.taken ≡ Some self.old.taken) }
        ensures unflushed { Some self.new.flushed ≡ shown (Some self.old.flushed) false }
        ensures cause { HasCause self.old.calls.faults self.new.calls.faults result }

        // By its piece, its room and the failures that it was made with.
        ensures fails { IsErr result ↔ (FailsNext self.old.calls
            ⊎ ((0 < length from.now) × (self.old.room ≤ length self.old.taken))) }
        ensures count { IfOk result (λ count. count ≡ min (length from.now)
            (min self.old.piece (self.old.room - length self.old.taken))) }
        ensures ok { IfOk result (λ count. self.new ≡ record self.old {
          taken = self.old.taken ++ take count from.now;
          flushed = false;
          calls = after_success self.old.calls;
        }) }
        ensures err { OnErr result (self.new ≡ record self.old {
          flushed = false;
          calls = after_failure self.old.calls;
        }) }
    {
        self.flushed = false;
        let free = self.room - self.bytes.len();
        self.calls.next(from.is_empty() || free > 0)?;
        let count = from.len().min(self.piece).min(free);
        self.bytes.extend_from_slice(&from[..count]).unwrap();
        Ok(count)
    }

    fn flush(&mut self) -> Result<(), Failed>
        // As every sink.
        ensures kept { Some self.new.taken ≡ Some self.old.taken }
        ensures flushed { OnOk result (Some self.new.flushed ≡ shown (Some self.old.flushed) true) }
        ensures failed { OnErr result (Some self.new.flushed ≡ Some self.old.flushed) }
        ensures cause { HasCause self.old.calls.faults self.new.calls.faults result }

        // By its piece, its room and the failures that it was made with.
        ensures fails { IsErr result ↔ FailsNext self.old.calls }
        ensures ok { OnOk result (self.new ≡ record self.old {
          flushed = true;
          calls = after_success self.old.calls;
        }) }
        ensures err { OnErr result (self.new ≡ record self.old {
          calls = after_failure self.old.calls;
        }) }
    {
        self.calls.next(true)?;
        self.flushed = true;
        Ok(())
    }
}

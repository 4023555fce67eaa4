//! The buffer of one direction, and what it asks of the two ends.
ghost use Rattle.std.specs.Prelude.{◌≡◌, ◌≤◌, [], ◌↔◌, length, IsTrue, IfOk};
ghost use mathlib.Core.List.{IsPrefix};
ghost use Rattle.nio_relay.specs.Flow.{fresh, buffered, room_of, IsLawful, MayTake, WantsRead, WantsWrite, WantsShut};
ghost use Rattle.nio_relay.specs.Flow.{takes, writes, ends, shuts, fails};

use circular_buffer::HeapCircularBuffer;
use nio_trace::Trace;
use std::alloc::{AllocError, Global};
use std::marker::Model;

/// How many bytes a direction buffers at most.
pub const CAPACITY: usize = 16_384;

/// The bytes on their way from one end of a relayed connection to the other. Contracts see all
/// that it ever took and wrote; the buffer has what is taken and not yet written.
#[derive(Drop)]
pub struct Direction {
    buffer: HeapCircularBuffer<u8>,
    taken: Trace<u8>,
    ended: bool,
    shut: bool,
    failed: bool,
}

impl Model for Direction {
    ghost use Rattle.nio_relay.specs.Flow.{Flow};
    ghost use Rattle.nio_relay.specs.Kept.{written_of, IsKept};

    ghost Value = { Flow };

    ghost view = { λ d. record {
      taken = d.taken;
      written = written_of d.taken d.buffer.items;
      ended = d.ended;
      shut = d.shut;
      failed = d.failed;
    } };

    ghost invariant = { λ d. IsKept d.taken d.buffer d.ended d.shut };
}

/// What a direction asks for: to be given bytes or the end of input, to have bytes written, to
/// have the output shut.
#[derive(Clone, Copy, Debug, PartialEq, Eq, Hash)]
pub struct Want {
    /// To take more: the one end hasn't ended, and there is room.
    pub read: bool,
    /// To write what is buffered.
    pub write: bool,
    /// To shut the other end: all that was taken is written, and the one end has ended.
    pub shut: bool,
}

impl Direction {
    /// A direction that has relayed nothing. No later call takes memory.
    pub fn make(alloc: Global) -> Result<Direction, AllocError>
        ensures { IfOk result (λ d. d ≡ fresh) }
    {
        Ok(Direction {
            buffer: HeapCircularBuffer::with_capacity(alloc, CAPACITY)?,
            taken: Trace::new(),
            ended: false,
            shut: false,
            failed: false,
        })
    }

    /// How many more bytes it can take.
    pub fn room(&self) -> usize
        ensures { result ≡ room_of self.now }
    {
        CAPACITY - self.buffer.len()
    }

    /// Whether the one end's input has ended.
    pub fn is_ended(&self) -> bool
        ensures { result ≡ self.now.ended }
    {
        self.ended
    }

    /// Whether the other end's output was shut.
    pub fn is_shut(&self) -> bool
        ensures { result ≡ self.now.shut }
    {
        self.shut
    }

    /// Whether a fault has come.
    pub fn has_failed(&self) -> bool
        ensures { result ≡ self.now.failed }
    {
        self.failed
    }

    /// What is to be done next. After a fault it asks for nothing.
    pub fn want(&self) -> Want
        ensures read { IsTrue result.read ↔ WantsRead self.now }
        ensures write { IsTrue result.write ↔ WantsWrite self.now }
        ensures shut { IsTrue result.shut ↔ WantsShut self.now }
    {
        let is_empty = self.buffer.is_empty();
        Want {
            read: !self.failed && !self.ended && !self.buffer.is_full(),
            write: !self.failed && !is_empty,
            shut: !self.failed && self.ended && is_empty && !self.shut,
        }
    }

    /// The bytes to be written next. More may be buffered, which come to the front once these are
    /// written.
    pub fn front(&self) -> &[u8]
        ensures prefix { IsPrefix result.now (buffered self.now) }
        ensures empty { (result.now ≡ []) ↔ (buffered self.now ≡ []) }
    {
        let (first, second) = self.buffer.as_slices();
        if first.is_empty() { second } else { first }
    }

    /// To be called once these bytes were read from the one end.
    pub fn on_read(&mut self, bytes: &[u8])
        requires { MayTake self.old bytes.now }
        ensures { self.new ≡ takes self.old bytes.now }
    {
        self.buffer.fill_from_slice(bytes);
        self.taken.extend(bytes);
    }

    /// To be called once the first `n` of the buffered bytes were written to the other end: as many bytes
    /// of `front` as it took.
    pub fn on_written(&mut self, n: usize)
        requires { n ≤ length (buffered self.old) }
        ensures { self.new ≡ writes self.old n }
    {
        self.buffer.truncate_front(self.buffer.len() - n);
    }

    /// To be called once these bytes were read from the one end while none were buffered, and the first `n` of them
    /// were written to the other end at once. Only the others are copied.
    pub fn on_passed(&mut self, bytes: &[u8], n: usize)
        requires bytes { MayTake self.old bytes.now }
        requires none_buffered { buffered self.old ≡ [] }
        requires within { n ≤ length bytes.now }
        ensures { self.new ≡ writes (takes self.old bytes.now) n }
    {
        self.buffer.fill_from_slice(&bytes[n..]);
        self.taken.extend(bytes);
    }

    /// To be called once the one end's input has ended. What is buffered is still to be written.
    pub fn on_end(&mut self)
        ensures { self.new ≡ ends self.old }
    {
        self.ended = true;
    }

    /// To be called once the other end's output was shut.
    pub fn on_shut(&mut self)
        requires { WantsShut self.old }
        ensures { self.new ≡ shuts self.old }
    {
        self.shut = true;
    }

    /// To be called once one of the two ends has failed.
    pub fn on_fault(&mut self)
        ensures { self.new ≡ fails self.old }
    {
        self.failed = true;
    }

    /// To be called once its connection has ended, before it is used for another one: it is as one that was just made,
    /// with the buffer that it has.
    pub fn reset(&mut self)
        ensures { self.new ≡ fresh }
    {
        self.buffer.clear();
        self.taken = Trace::new();
        self.ended = false;
        self.shut = false;
        self.failed = false;
    }

    /// A direction is lawful. Call it where a proof needs that.
    pub fn law(&self)
        ensures { IsLawful self.now }
    {
        let _ = &self.taken;
    }
}

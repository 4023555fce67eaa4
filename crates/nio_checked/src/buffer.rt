//! Bytes that were read and are still to be written.
ghost use Rattle.std.specs.Prelude.{◌≡◌, ◌≢◌, ◌↔◌, ◌-◌, ◌≤◌, [], ◌++◌, IfOk, IsTrue, length, drop};
ghost use mathlib.Core.List.{IsPrefix};
ghost use Rattle.circular_buffer.specs.Buffer.{buffer};

use circular_buffer::HeapCircularBuffer;
use nio_base::Ops;
use std::alloc::{AllocError, Global};
use std::marker::Model;

/// Bytes that were read and are still to be written, as in Java's `ByteBuffer`. A read adds bytes at the end, a write
/// takes them from the front; there is no `flip` and no `compact`.
#[derive(Drop)]
pub struct ByteBuffer {
    bytes: HeapCircularBuffer<u8>,
}

impl Model for ByteBuffer {
    ghost use Rattle.std.specs.Prelude.{ℕ};
    ghost use Rattle.circular_buffer.specs.Buffer.{Buffer};

    ghost Value = { Buffer ℕ };

    ghost view = { λ b. b.bytes };
}

impl ByteBuffer {
    /// An empty buffer that has room for so many bytes: Java's `allocate`.
    pub fn with_capacity(alloc: Global, capacity: usize) -> Result<ByteBuffer, AllocError>
        ensures { IfOk result (λ made. made ≡ buffer [] capacity) }
    {
        Ok(ByteBuffer {
            bytes: HeapCircularBuffer::with_capacity(alloc, capacity)?,
        })
    }

    /// Whether no byte is to be written.
    pub fn is_empty(&self) -> bool
        ensures { IsTrue result ↔ (self.now.items ≡ []) }
    {
        self.bytes.is_empty()
    }

    /// How many bytes are to be written.
    pub fn len(&self) -> usize
        ensures { result ≡ length self.now.items }
    {
        self.bytes.len()
    }

    /// How many more bytes it has room for.
    pub fn room(&self) -> usize
        ensures { result ≡ self.now.capacity - length self.now.items }
    {
        self.bytes.capacity() - self.bytes.len()
    }

    /// The bytes that are to be written first. More may follow once these are taken away.
    #[tactic(auto, using(crate::proofs::Giving::front_none))]
    pub fn front(&self) -> &[u8]
        ensures prefix { IsPrefix result.now self.now.items }
        ensures empty { (result.now ≡ []) ↔ (self.now.items ≡ []) }
    {
        let (first, second) = self.bytes.as_slices();
        if first.is_empty() { second } else { first }
    }

    /// What a link that writes what it has read is to be ready for next: to write while bytes are to be written, else
    /// to read.
    pub fn interest(&self) -> Ops
        ensures read { self.now.items ≡ [] → result ≡ 1 }
        ensures write { self.now.items ≢ [] → result ≡ 4 }
    {
        if self.is_empty() {
            Ops::READ
        } else {
            Ops::WRITE
        }
    }

    /// Adds bytes that there is room for.
    pub fn put(&mut self, bytes: &[u8])
        requires { length bytes.now ≤ self.old.capacity - length self.old.items }
        ensures { self.new ≡ buffer (self.old.items ++ bytes.now) self.old.capacity }
    {
        self.bytes.fill_from_slice(bytes);
    }

    /// Takes so many bytes away from the front.
    pub fn advance(&mut self, count: usize)
        requires { count ≤ length self.old.items }
        ensures { self.new ≡ buffer (drop count self.old.items) self.old.capacity }
    {
        self.bytes.truncate_front(self.bytes.len() - count);
    }
}

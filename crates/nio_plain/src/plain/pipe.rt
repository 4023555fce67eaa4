//! A pipe of the plain system.
ghost use Rattle.std.specs.Prelude.{◌≡◌, ◌++◌, IfOk, OnErr, OnOk, drop, take};
ghost use Rattle.nio_plain.specs.PlainState.{pipe_of};

use nio_base::{CallerNo, ChanId};
use std::alloc::{AllocError, Global};

/// A pipe with the bytes that wait in it, the first to be read first.
#[derive(Drop)]
pub(super) struct Pipe {
    pub(super) source: ChanId,
    pub(super) sink: ChanId,
    pub(super) reader: CallerNo,
    pub(super) writer: CallerNo,
    pub(super) waiting: Vec<u8>,
    pub(super) sealed: bool,
}

impl Pipe {
    /// Takes up to so many waiting bytes out of the pipe. Want of memory leaves it as it was.
    pub(super) fn take(&mut self, alloc: Global, most: usize) -> Result<Vec<u8>, AllocError>
        ensures bytes { IfOk result (λ v. v.items ≡ take most self.old.waiting.items) }
        ensures left { OnOk result
            (pipe_of self.new ≡ record (pipe_of self.old) { waiting = drop most self.old.waiting.items }) }
        ensures memory { OnErr result (pipe_of self.new ≡ pipe_of self.old) }
    {
        let count = most.min(self.waiting.len());
        let bytes = Vec::from_slice(alloc, &self.waiting[..count])?;
        self.waiting.rotate_left(count);
        self.waiting.truncate(self.waiting.len() - count);
        Ok(bytes)
    }

    /// Puts bytes behind those that wait in the pipe. Want of memory leaves it as it was.
    pub(super) fn put(&mut self, bytes: &[u8]) -> Result<(), AllocError>
        ensures left { OnOk result
            (pipe_of self.new ≡ record (pipe_of self.old) { waiting = self.old.waiting.items ++ bytes.now }) }
        ensures memory { OnErr result (pipe_of self.new ≡ pipe_of self.old) }
    {
        self.waiting.extend_from_slice(bytes)
    }
}

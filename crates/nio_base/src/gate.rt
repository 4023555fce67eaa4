//! A test gate, which workers pass, so that a test can hold one of them at a known place.
use std::sync::Wait;

/// Where a worker may be held. A program passes `NoGate`.
pub trait Gate {
    /// Returns once the worker `who` may go on to its piece of work `what`.
    fn pass<R: Wait>(&self, rt: &R, who: u32, what: u64);
}

/// A test gate that is always open.
#[derive(Clone, Copy, Debug, PartialEq, Eq, Hash)]
pub struct NoGate;

impl Gate for NoGate {
    fn pass<R: Wait>(&self, _rt: &R, _who: u32, _what: u64) {}
}

//! What makes a poller that waits return.

/// Rings for a poller that waits, so that it returns and its selection looks again. A ring may be lost: no contract
/// says that it arrives.
pub trait Bell {
    /// Makes the poller that waits return, where the ring arrives.
    fn ring(&self);
}

/// A bell for a poller that never waits.
#[derive(Clone, Copy, Debug, PartialEq, Eq, Hash)]
pub struct NoBell;

impl Bell for NoBell {
    fn ring(&self) {}
}

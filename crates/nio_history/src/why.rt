//! Why a selection ended.

/// Why a selection ended: the first that holds, in this order.
#[derive(Clone, Copy, Debug, PartialEq, Eq)]
pub enum Why {
    /// A key was updated.
    Ready,
    /// Closing the selector had begun.
    Closed,
    /// The selection didn't wait.
    Now,
    /// A wakeup was pending.
    Woken,
    /// The caller's interrupt status was set.
    Interrupted,
    /// The time was over.
    Elapsed,
}

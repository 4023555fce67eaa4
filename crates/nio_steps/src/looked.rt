//! What a selection looks at.
use nio_base::{ChanNo, Ops};

/// A key that a selection looks at, as it found the key when it began.
#[derive(Clone, Copy, Debug, PartialEq, Eq)]
pub struct LookedKey {
    /// The key's index at its selector.
    pub index: u32,
    /// Its serial: which key of this index it is.
    pub serial: u32,
    /// The channel that it registers.
    pub channel: ChanNo,
    /// Its interest set.
    pub interest: Ops,
}

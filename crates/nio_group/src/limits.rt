//! How much a group can hold.

/// How much a group can hold.
#[derive(Clone, Copy, Debug, PartialEq, Eq, Hash)]
pub struct GroupLimits {
    /// How many numbers it gives to channels at most: from 1 to 65,536.
    pub channels: u32,
    /// How many operations it has in flight at most: from 1 to 65,536.
    pub flight: u32,
    /// How many operations it accepts in all: from 1 to 2^62.
    pub ops: u64,
}

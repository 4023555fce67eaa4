//! What a look at one part of the shared state finds.
ghost use Rattle.std.specs.Prelude.{◌≡◌};
ghost use Rattle.nio_history.specs.Sets.{fits, is_in_key_set, is_valid_key, was_published};
ghost use Rattle.nio_history.specs.Sets.{fits_channel, is_open_channel};

use crate::timeout::Milliseconds;
use nio_base::{ChanNo, Kind, Ops};

/// The gate of a selector: whether a wakeup is pending, and whether closing it has begun.
#[derive(Clone, Copy, Debug, PartialEq, Eq)]
pub struct GateWord {
    /// A wakeup is pending.
    pub woken: bool,
    /// Closing the selector has begun: Java's `isOpen` is false.
    pub shut: bool,
}

/// How far the key of an index has come, the channel that the index was claimed for, and the serial of
/// the key. A key is published when its registration is complete. The index of a removed key can be
/// claimed again, for a new key with the next serial.
#[derive(Clone, Copy, Debug, PartialEq, Eq)]
pub struct Stage {
    /// The index was given to a channel.
    pub claimed: bool,
    /// The registration is complete.
    pub published: bool,
    /// The key was cancelled.
    pub cancelled: bool,
    /// The key left the key set.
    pub removed: bool,
    /// The channel of the key.
    pub chan: ChanNo,
    /// How many keys had this index before.
    pub serial: u32,
}

impl Stage {
    /// Whether the key with this serial is the present one of its index.
    pub fn fits(self, serial: u32) -> bool
        ensures { result ≡ fits self serial }
    {
        self.claimed && self.serial == serial
    }

    /// Whether the key with this serial was published. A lower serial than the present one was.
    pub fn was_published(self, serial: u32) -> bool
        ensures { result ≡ was_published self serial }
    {
        serial < self.serial || self.fits(serial) && self.published
    }

    /// Whether the key with this serial is in the key set.
    pub fn is_in_key_set(self, serial: u32) -> bool
        ensures { result ≡ is_in_key_set self serial }
    {
        self.fits(serial) && self.published && !self.removed
    }

    /// Whether the key with this serial is valid.
    pub fn is_valid_key(self, serial: u32) -> bool
        ensures { result ≡ is_valid_key self serial }
    {
        self.is_in_key_set(serial) && !self.cancelled
    }
}

/// How far the key of an index has come, and whether the index is pinned.
#[derive(Clone, Copy, Debug, PartialEq, Eq)]
pub struct IndexWord {
    /// How far the key has come.
    pub stage: Stage,
    /// Somebody has a pin on the index.
    pub pinned: bool,
}

/// The channel that a number has: whether it is made, its kind, whether it is closed, whether it is in blocking
/// mode, and its serial. The number of a closed channel can be given to a new channel of the same kind, with the
/// next serial.
#[derive(Clone, Copy, Debug, PartialEq, Eq)]
pub struct Chan {
    /// The number's first channel was opened.
    pub made: bool,
    /// Its kind.
    pub kind: Kind,
    /// It was closed.
    pub closed: bool,
    /// It is in blocking mode.
    pub blocking: bool,
    /// How many channels had this number before.
    pub serial: u32,
}

impl Chan {
    /// Whether the channel with this serial is the present one of its number.
    pub fn fits(self, serial: u32) -> bool
        ensures { result ≡ fits_channel self serial }
    {
        self.made && self.serial == serial
    }

    /// Whether the channel with this serial is open. A channel with a lower serial than the present one is closed.
    pub fn is_open(self, serial: u32) -> bool
        ensures { result ≡ is_open_channel self serial }
    {
        self.fits(serial) && !self.closed
    }
}

/// Whether a key is in its selector's selected set, and its ready set.
#[derive(Clone, Copy, Debug, PartialEq, Eq)]
pub struct Mark {
    /// The key is in the selected set.
    pub selected: bool,
    /// Its ready set.
    pub ready: Ops,
}

/// How long a selection waits.
#[derive(Clone, Copy, Debug, PartialEq, Eq)]
pub enum Mode {
    /// It doesn't wait: Java's `selectNow`.
    Now,
    /// It waits without a limit of time: Java's `select()`.
    Wait,
    /// It waits for at most so many milliseconds: Java's `select(timeout)`. `Mode::waiting` makes it.
    For(Milliseconds),
}

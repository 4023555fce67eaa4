//! How long a selection waits for a time that is given in milliseconds.
ghost use Rattle.std.specs.Prelude.{◌≡◌, ◌-◌, ◌^◌, suc, min};
ghost use Rattle.nio_history.specs.Timeout.{mode_for};

use crate::found::Mode;
use thiserror::Error;

/// A time of at least one millisecond: the first one, and so many more.
#[derive(Clone, Copy, Debug, PartialEq, Eq)]
pub struct Milliseconds {
    /// How many more they are than one.
    pub after_the_first: u64,
}

impl Milliseconds {
    /// How many they are. Of 2^64 one is left out.
    pub fn get(self) -> u64
        ensures { result ≡ min (suc self.after_the_first) (2 ^ 64 - 1) }
    {
        self.after_the_first.saturating_add(1)
    }
}

/// A timeout is negative: Java's `IllegalArgumentException`.
#[derive(Clone, Copy, Debug, PartialEq, Eq, Error)]
#[error("the timeout is negative")]
pub struct NegativeTimeout;

impl Mode {
    /// Waits for at most `ms` milliseconds. 0 waits without limit, as in Java's `select(long)`.
    pub fn waiting(ms: i64) -> Result<Mode, NegativeTimeout>
        ensures { result ≡ mode_for ms }
    {
        match ms {
            0 => Ok(Mode::Wait),
            ms if ms < 0 => Err(NegativeTimeout),
            ms => Ok(Mode::For(Milliseconds {
                after_the_first: ms as u64 - 1,
            })),
        }
    }
}

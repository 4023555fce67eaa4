//! Why an operation with a time limit isn't started.
ghost use Rattle.std.specs.Prelude.{◌≡◌};

use nio_group::StartError;
use std::alloc::AllocError;
use thiserror::Error;

/// Why an operation isn't started.
#[derive(Clone, Copy, Debug, PartialEq, Eq, Error)]
pub enum TimedError {
    /// Only a read and a write may have a limit.
    #[error("an operation of this kind has no time limit")]
    NoLimitHere,
    /// The deadline is past the last moment, 18,446,744,073,709,551,615.
    #[error("the time limit is too long")]
    LimitTooLong,
    /// An earlier operation of this kind on the channel timed out.
    #[error("an earlier operation of this kind on the channel timed out")]
    TimedOut,
    /// There is no memory for one more deadline.
    #[error("out of memory")]
    Memory,
    /// The group refuses the operation.
    #[error("{0}")]
    Start(StartError),
}

impl From<StartError> for TimedError {
    ghost use Rattle.nio_deadline.specs.declared.refusal.TimedError.TheVariants.{Start};

    ghost from_gives = { λ e o. o ≡ Start e };

    fn from(refused: StartError) -> Self {
        TimedError::Start(refused)
    }
}

impl From<AllocError> for TimedError {
    ghost use Rattle.nio_deadline.specs.declared.refusal.TimedError.TheVariants.{Memory};

    ghost from_gives = { λ _ e. e ≡ Memory };

    fn from(_error: AllocError) -> Self {
        TimedError::Memory
    }
}

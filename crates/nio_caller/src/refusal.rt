//! Why a call of a caller has no answer.
ghost use Rattle.std.specs.Prelude.{◌≡◌};
ghost use Rattle.nio_caller.specs.NamedCalls.{as_called};

use std::fmt::Display;
use thiserror::Error;

/// Why a call has no answer: a name that it was given was never made, or what the call itself refuses.
#[derive(Clone, Copy, Debug, PartialEq, Eq, Error)]
#[error_bound(E: Display)]
pub enum CallError<E> {
    /// The selector was never made.
    #[error("there is no such selector")]
    NoSuchSelector,
    /// The channel was never opened.
    #[error("there is no such channel")]
    NoSuchChannel,
    /// The key was never made.
    #[error("there is no such key")]
    NoSuchKey,
    /// The names were found, and the call refused.
    #[error("{0}")]
    Refused(E),
}

// The answer of a call that was made.
pub(crate) fn called<T, E>(answer: Result<T, E>) -> Result<T, CallError<E>>
    ensures { result ≡ as_called answer }
{
    match answer {
        Ok(value) => Ok(value),
        Err(error) => Err(CallError::Refused(error)),
    }
}

/// Why a caller gave no number away.
#[derive(Clone, Copy, Debug, PartialEq, Eq, Error)]
pub enum SplitError {
    /// It doesn't hold the number, or it is its own.
    #[error("the caller has no such number to give away")]
    NotHeld,
    /// There can be no further handle of the table.
    #[error("the table has as many handles as it may")]
    NoHandle,
}

/// The caller has no selection in progress on the selector: nothing was done.
#[derive(Clone, Copy, Debug, PartialEq, Eq, Error)]
#[error("the caller has no selection in progress on the selector")]
pub struct NotSelecting;

/// The caller has no closing of the selector in progress: nothing was done.
#[derive(Clone, Copy, Debug, PartialEq, Eq, Error)]
#[error("the caller has no closing of the selector in progress")]
pub struct NotClosing;

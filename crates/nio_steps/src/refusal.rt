//! Why a call is refused: one error for the calls of each crate that stands on the plans.
ghost use Rattle.std.specs.Prelude.{◌≡◌};

use std::alloc::AllocError;
use thiserror::Error;

/// Why a call on a key is refused.
#[derive(Clone, Copy, Debug, PartialEq, Eq, Error)]
pub enum KeyError {
    /// The key isn't valid: Java's `CancelledKeyException`.
    #[error("the key isn't valid any more")]
    CancelledKey,
    /// A channel of this kind doesn't support the operations: Java's `IllegalArgumentException`.
    #[error("the channel doesn't support these operations")]
    IllegalOps,
}

/// Why a channel isn't opened, registered or set to a mode.
#[derive(Clone, Copy, Debug, PartialEq, Eq, Error)]
pub enum ChannelError {
    /// No number is left for a channel of the kind: each has one that is open, still registered, of another kind, held
    /// by another caller, or the last that it may have.
    #[error("no number is free for a channel of this kind")]
    ChannelsSpent,
    /// A channel of this kind doesn't support the operations: Java's `IllegalArgumentException`.
    #[error("the channel doesn't support these operations")]
    IllegalOps,
    /// The channel is closed: Java's `ClosedChannelException`.
    #[error("the channel is closed")]
    ClosedChannel,
    /// Another caller registers the channel, or sets its mode.
    #[error("another caller registers the channel or sets its mode")]
    Busy,
    /// The channel is in blocking mode and can't be registered, or is registered and can't go back
    /// to it: Java's `IllegalBlockingModeException`.
    #[error("the channel's blocking mode doesn't allow this")]
    IllegalBlockingMode,
    /// The channel's key is cancelled and not yet deregistered: Java's `CancelledKeyException`.
    #[error("the channel's key is cancelled and not yet removed")]
    CancelledKey,
    /// The selector is closed: Java's `ClosedSelectorException`.
    #[error("the selector is closed")]
    ClosedSelector,
    /// The selector has as many keys as it may.
    #[error("the selector has as many keys as it may")]
    Full,
}

/// Why a channel's number isn't given to a new channel.
#[derive(Clone, Copy, Debug, PartialEq, Eq, Error)]
pub enum ReopenError {
    /// The number was given to another channel since.
    #[error("the channel's number was given to another channel")]
    Lost,
    /// The channel is open.
    #[error("the channel is open")]
    Open,
    /// The number had as many channels as it may.
    #[error("the channel's number had as many channels as it may")]
    SerialsSpent,
    /// Another caller registers a channel of this number, sets its mode or opens it; or the mode of the closed
    /// channel changed during the call, by a closing that began before.
    #[error("another caller registers the channel, sets its mode, opens it or is still closing it")]
    Busy,
    /// A key of the channel is in a key set: a selection on its selector removes it.
    #[error("the channel is still registered")]
    Registered,
}

/// As many selectors are made as may be.
#[derive(Clone, Copy, Debug, PartialEq, Eq, Error)]
#[error("as many selectors are made as may be")]
pub struct SelectorsSpent;

/// Why a selection doesn't begin.
#[derive(Clone, Copy, Debug, PartialEq, Eq, Error)]
pub enum BeginError {
    /// The selector is closed: Java's `ClosedSelectorException`.
    #[error("the selector is closed")]
    ClosedSelector,
    /// A selection is in progress on the selector, perhaps the caller's own.
    #[error("a selection is in progress on the selector")]
    Busy,
    /// There is no memory for the list of keys. The turn is free again.
    #[error("out of memory")]
    Memory,
}

impl From<AllocError> for BeginError {
    ghost use Rattle.nio_steps.specs.declared.refusal.BeginError.TheVariants.{Memory};

    ghost from_gives = { λ _ e. e ≡ Memory };

    fn from(_error: AllocError) -> BeginError {
        BeginError::Memory
    }
}

/// Why a selector's keys aren't listed.
#[derive(Clone, Copy, Debug, PartialEq, Eq, Error)]
pub enum ListError {
    /// The selector is closed: Java's `ClosedSelectorException`.
    #[error("the selector is closed")]
    ClosedSelector,
    /// There is no memory for the list.
    #[error("out of memory")]
    Memory,
}

impl From<AllocError> for ListError {
    ghost use Rattle.nio_steps.specs.declared.refusal.ListError.TheVariants.{Memory};

    ghost from_gives = { λ _ e. e ≡ Memory };

    fn from(_error: AllocError) -> ListError {
        ListError::Memory
    }
}

/// Why a pipe isn't made.
#[derive(Clone, Copy, Debug, PartialEq, Eq, Error)]
pub enum PipeMakeError {
    /// No number is free for one of a pipe's two channels. The one that was made is closed.
    #[error("no number is free for a channel of the pipe")]
    ChannelsSpent,
    /// There is no memory for the pipe.
    #[error("out of memory")]
    Memory,
}

impl From<AllocError> for PipeMakeError {
    ghost use Rattle.nio_steps.specs.declared.refusal.PipeMakeError.TheVariants.{Memory};

    ghost from_gives = { λ _ e. e ≡ Memory };

    fn from(_error: AllocError) -> PipeMakeError {
        PipeMakeError::Memory
    }
}

/// Why nothing is read from a pipe or written to it.
#[derive(Clone, Copy, Debug, PartialEq, Eq, Error)]
pub enum PipeError {
    /// The channel is closed: Java's `ClosedChannelException`.
    #[error("the channel is closed")]
    ClosedChannel,
    /// The caller is interrupted, and its call closed the channel: Java's `ClosedByInterruptException`.
    #[error("the caller was interrupted, and the channel was closed")]
    ClosedByInterrupt,
    /// Another caller closed the channel while this one waited: Java's `AsynchronousCloseException`.
    #[error("another caller closed the channel")]
    AsynchronousClose,
    /// The pipe's source is closed, so that nobody will read: Java's `IOException` of a broken pipe.
    #[error("the pipe's source is closed")]
    BrokenPipe,
}

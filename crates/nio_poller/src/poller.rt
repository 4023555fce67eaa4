//! What says which channels are ready.
ghost use Rattle.std.specs.Prelude.{◌≡◌, IfOk, OnErr};
ghost use Rattle.nio_poller.specs.Polls.{CountsFaults, AddsPoll, told_of_channel};
ghost use Rattle.nio_poller.specs.declared.poller.PollError.TheVariants.{Fault};

use nio_history::Mode;
use nio_select::{Asked, Told};
use std::alloc::Global;
use std::sync::Wait;
use thiserror::Error;

/// Why a poll has no answer.
#[derive(Clone, Copy, Debug, PartialEq, Eq, Error)]
pub enum PollError {
    /// The poll failed.
    #[error("the poll failed")]
    Fault,
    /// There is no memory for the answer.
    #[error("out of memory")]
    Memory,
}

/// Says which channels are ready for what. Readiness is told by level: what isn't used up is told again.
pub trait Poller {
    ghost use Rattle.std.specs.Prelude.{ℕ, Option, List};
    ghost use Rattle.nio_base.specs.declared.numbers.ChanNo.{ChanNo};
    ghost use Rattle.nio_poller.specs.Polled.{Polled};

    // How often a poll has failed.
    ghost poll_faults: { Self → ℕ };

    // What the last poll told of a channel, as far as no call on that channel has found since that it isn't ready.
    ghost ready: { Self → ChanNo → ℕ };

    // The polls that answered, oldest first, where the poller shows them.
    ghost polls: { Self → Option (List Polled) };

    // What stays the same from a state of the poller to one that polls made of it.
    ghost kept: { Self → Self → Type 0 };

    /// Waits as long as `mode` says, or until a channel of the list is ready for what it is asked for, or until the
    /// poller's bell rings; it may return early. Answers which channels are ready, and whether the time is over.
    fn poll<R: Wait>(
        &mut self,
        rt: &R,
        alloc: Global,
        asked: &Asked,
        mode: Mode,
    ) -> Result<Told, PollError>
        ensures cause { CountsFaults Fault (poll_faults self.old) (poll_faults self.new) result }
        ensures ready { IfOk result (λ told. (c : ChanNo) → ready self.new c
            ≡ told_of_channel asked.now.keys told.pairs.items c) }
        ensures unready { OnErr result ((c : ChanNo) → ready self.new c ≡ 0) }
        ensures polls { AddsPoll (polls self.old) (polls self.new) asked.now.keys mode result }
        ensures kept { kept self.old self.new };

    ghost kept_same: { (x : Self) → kept x x };

    ghost kept_on: { (x y z : Self) → kept x y → kept y z → kept x z };
}

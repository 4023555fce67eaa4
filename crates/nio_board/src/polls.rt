//! How the caller of a board polls.
ghost use Rattle.std.specs.Prelude.{◌≡◌, IfOk, OnErr};
ghost use Rattle.nio_poller.specs.Polls.{AddsPoll, CountsFaults, told_of_channel};
ghost use Rattle.nio_poller.specs.declared.poller.PollError.TheVariants.{Fault};
ghost use Rattle.nio_board.specs.Polling.{AddsPollFor};

use nio_history::Mode;
use nio_poller::{PollError, Poller};
use nio_select::{Asked, Told};
use std::alloc::Global;
use std::sync::Wait;

/// How the caller of a board polls a net of type `N`: what a poll of the net is, and how long it may wait.
pub trait Polls<N> {
    ghost use Rattle.std.specs.Prelude.{ℕ, Option, List};
    ghost use Rattle.nio_base.specs.declared.numbers.ChanNo.{ChanNo};
    ghost use Rattle.nio_poller.specs.Polled.{Polled};

    // How often a poll of the net has failed.
    ghost poll_faults: { N → ℕ };

    // What the last poll told of a channel, as far as no call on that channel has found since that it isn't ready.
    ghost ready: { N → ChanNo → ℕ };

    // The polls that answered, oldest first, where the net shows them.
    ghost polls: { N → Option (List Polled) };

    // What stays the same from a state of the net to one that polls made of it.
    ghost kept: { N → N → Type 0 };

    /// Polls the net once, for these keys: in this mode, or in another one that the way chooses.
    fn poll<R: Wait>(
        &mut self,
        net: &mut N,
        rt: &R,
        alloc: Global,
        asked: &Asked,
        mode: Mode,
    ) -> Result<Told, PollError>
        ensures cause { CountsFaults Fault (poll_faults net.old) (poll_faults net.new) result }
        ensures ready { IfOk result (λ told. (c : ChanNo) → ready net.new c
            ≡ told_of_channel asked.now.keys told.pairs.items c) }
        ensures polls { AddsPollFor (polls net.old) (polls net.new) asked.now.keys result }
        ensures kept { kept net.old net.new };

    // A net is kept where nothing is done.
    ghost kept_same: { (x : N) → kept x x };
}

/// Polls the net itself, in the mode that is asked for.
#[derive(Clone, Copy, Debug, PartialEq, Eq)]
pub struct Direct;

impl<N: Poller> Polls<N> for Direct {
    ghost use Rattle.nio_base.specs.declared.numbers.ChanNo.{ChanNo};

    ghost poll_faults = { N.poll_faults };

    ghost ready = { N.ready };

    ghost polls = { N.polls };

    ghost kept = { N.kept };

    fn poll<R: Wait>(
        &mut self,
        net: &mut N,
        rt: &R,
        alloc: Global,
        asked: &Asked,
        mode: Mode,
    ) -> Result<Told, PollError>
        ensures cause { CountsFaults Fault (N.poll_faults net.old) (N.poll_faults net.new) result }
        ensures ready { IfOk result (λ told. (c : ChanNo) → N.ready net.new c
            ≡ told_of_channel asked.now.keys told.pairs.items c) }
        ensures unready { OnErr result ((c : ChanNo) → N.ready net.new c ≡ 0) }
        ensures polls { AddsPoll (N.polls net.old) (N.polls net.new) asked.now.keys mode result }
        ensures kept { N.kept net.old net.new }
    {
        net.poll(rt, alloc, asked, mode)
    }

    ghost kept_same = { N.kept_same };
}

//! The poller of a `block`.
ghost use Rattle.std.specs.Prelude.{◌≡◌, ℕ, Some, IfOk, OnErr};
ghost use Rattle.nio_poller.specs.Polls.{CountsFaults, AddsPoll, told_of_channel};
ghost use Rattle.nio_poller.specs.declared.poller.PollError.TheVariants.{Fault};
ghost use Rattle.nio_race.specs.Quiet.{AreStillUntold};

use nio_history::Mode;
use nio_poller::{PollError, Poller, Sleeper, ToldPoll};
use nio_select::{Asked, Told};
use nio_trace::Trace;
use std::alloc::Global;
use std::sync::Wait;

/// A poller that tells nothing, sleeps, and keeps its polls for contracts.
#[derive(Drop)]
pub(crate) struct Quiet<'a> {
    sleeper: &'a mut Sleeper,
    polls: Trace<ToldPoll>,
}

impl<'a> Quiet<'a> {
    ghost use Rattle.std.specs.Prelude.{[]};

    /// A poller that has answered no poll.
    pub(crate) fn over(sleeper: &'a mut Sleeper) -> Quiet<'a>
        ensures { result.polls ≡ [] }
    {
        Quiet {
            sleeper,
            polls: Trace::new(),
        }
    }
}

impl<'a> Poller for Quiet<'a> {
    ghost use Rattle.nio_base.specs.declared.numbers.ChanNo.{ChanNo};
    ghost use Rattle.nio_race.specs.Quiet.{AreStillUntold};

    ghost poll_faults = { λ _. 0 };

    // Nothing is ever ready.
    ghost ready = { λ _ _. 0 };

    ghost polls = { λ s. Some s.polls };

    ghost kept = { λ before after. AreStillUntold before.polls after.polls };

    fn poll<R: Wait>(
        &mut self,
        rt: &R,
        alloc: Global,
        asked: &Asked,
        mode: Mode,
    ) -> Result<Told, PollError>
        ensures cause { CountsFaults Fault 0 0 result }
        ensures ready { IfOk result (λ told. (c : ChanNo) → 0 ≡ told_of_channel asked.now.keys told.pairs.items c) }
        ensures unready { OnErr result ((_ : ChanNo) → ◌≡◌ {A = ℕ} 0 0) }
        ensures polls { AddsPoll (Some self.old.polls) (Some self.new.polls) asked.now.keys mode result }
        ensures kept { AreStillUntold self.old.polls self.new.polls }
    {
        let told = self.sleeper.poll(rt, alloc, asked, mode)?;
        ToldPoll::add_to(&mut self.polls, asked, mode, &told);
        Ok(told)
    }

    ghost kept_same = { λ _ untold. untold };

    ghost kept_on = { λ _ _ _ first second untold. second (first untold) };
}

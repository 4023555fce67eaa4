//! A poller whose answers are given beforehand, for tests.
ghost use Rattle.std.specs.Prelude.{◌≡◌, ◌↔◌, true, false, Some, IfOk, IsErr, OnErr};
ghost use Rattle.nio_bytes.specs.Calls.{after_failure, FailsNext};
ghost use Rattle.nio_poller.specs.Polls.{CountsFaults, AddsPoll, told_of_channel};
ghost use Rattle.nio_poller.specs.declared.poller.PollError.TheVariants.{Fault};

use crate::poller::{PollError, Poller};
use crate::told_poll::ToldPoll;
use nio_bytes::Calls;
use nio_history::Mode;
use nio_select::{Asked, Told};
use nio_trace::Trace;
use std::alloc::Global;
use std::marker::Model;
use std::sync::Wait;
use std::vec::IntoIter;

/// A poller that gives the listed answers in their order, and then answers that nothing is ready and the time is
/// over. Calls with a listed number, counted from 0, fail, and use up no answer.
#[derive(Drop)]
pub struct Scripted {
    answers: IntoIter<Told>,
    calls: Calls,
    failed: bool,
    polls: Trace<ToldPoll>,
}

impl Model for Scripted {
    ghost use Rattle.std.specs.Prelude.{map};
    ghost use Rattle.std.specs.Vec.Iter.{into_iter_items};
    ghost use Rattle.nio_select.specs.InProgress.{poll_of};
    ghost use Rattle.nio_poller.specs.Scripts.{Script};

    ghost Value = { Script };

    ghost view = { λ s. record {
      answers = map poll_of (into_iter_items s.answers);
      calls = s.calls;
      failed = s.failed;
      polls = s.polls;
    } };
}

impl Scripted {
    ghost use Rattle.std.specs.Prelude.{[], map};
    ghost use Rattle.nio_bytes.specs.Calls.{no_calls};
    ghost use Rattle.nio_select.specs.InProgress.{poll_of};
    ghost use Rattle.nio_poller.specs.Scripts.{next_answer, later_answers};

    /// A poller with these answers, whose calls with these numbers fail.
    pub fn make(answers: Vec<Told>, fail_at: Vec<u64>) -> Scripted
        ensures { result ≡ record {
          answers = map poll_of answers.items;
          calls = no_calls fail_at.items;
          failed = false;
          polls = [];
        } }
    {
        Scripted {
            answers: answers.into_iter(),
            calls: Calls::new(fail_at),
            failed: false,
            polls: Trace::new(),
        }
    }

    fn next_told(&mut self, alloc: Global) -> Told
        ensures told { poll_of result ≡ next_answer self.old.answers }
        ensures left { self.new ≡ record self.old { answers = later_answers self.old.answers } }
    {
        match self.answers.next() {
            Some(told) => told,
            None => Told {
                pairs: Vec::new(alloc),
                elapsed: true,
            },
        }
    }
}

impl Poller for Scripted {
    ghost use Rattle.std.specs.Prelude.{⊤};
    ghost use Rattle.nio_base.specs.declared.numbers.ChanNo.{ChanNo};
    ghost use Rattle.nio_select.specs.InProgress.{poll_of};
    ghost use Rattle.nio_poller.specs.Scripts.{next_answer, after_poll, told_last};

    ghost poll_faults = { λ s. s.calls.faults };

    ghost ready = { told_last };

    ghost polls = { λ s. Some s.polls };

    ghost kept = { λ _ _. ⊤ };

    fn poll<R: Wait>(
        &mut self,
        _rt: &R,
        alloc: Global,
        asked: &Asked,
        mode: Mode,
    ) -> Result<Told, PollError>
        // As every poller.
        ensures cause { CountsFaults Fault self.old.calls.faults self.new.calls.faults result }
        ensures ready { IfOk result (λ told. (c : ChanNo) → told_last self.new c
            ≡ told_of_channel asked.now.keys told.pairs.items c) }
        ensures unready { OnErr result ((c : ChanNo) → told_last self.new c ≡ 0) }
        ensures polls { AddsPoll (Some self.old.polls) (Some self.new.polls) asked.now.keys mode result }

        // By its answers and the failures that it was made with.
        ensures fails { IsErr result ↔ FailsNext self.old.calls }
        ensures answer { IfOk result (λ told. poll_of told ≡ next_answer self.old.answers) }
        ensures ok { IfOk result (λ _. self.new ≡ after_poll self.old asked.now.keys mode) }
        ensures err { OnErr result (self.new
            ≡ record self.old { calls = after_failure self.old.calls; failed = true }) }
    {
        if self.calls.next(true).is_err() {
            self.failed = true;
            return Err(PollError::Fault);
        }
        let told = self.next_told(alloc);
        self.failed = false;
        ToldPoll::add_to(&mut self.polls, asked, mode, &told);
        Ok(told)
    }

    ghost kept_same = { λ _. tt };

    ghost kept_on = { λ _ _ _ _ _. tt };
}

//! A judge of events: the state after the events so far, and what each caller knows.
ghost use Rattle.std.specs.Prelude.{◌≡◌, ◌<◌, ◌+◌, ◌↔◌, [], ◌∷◌, ◌++◌, length, IsTrue, IfOk, OnOk};
ghost use Rattle.std.specs.Bool.{OnTrue};

use crate::counts::Counts;
use crate::dues::Dues;
use crate::memory::Memory;
use crate::state::StateTables;
use nio_base::{CallerNo, Limits};
use nio_history::{Act, Event};
use std::alloc::{AllocError, Global};

mod conditions;

/// What the events so far left.
#[derive(Drop)]
pub(crate) struct Judge {
    limits: Limits,
    state: StateTables,
    dues: Dues,
    counts: Counts,
    memory: Memory,
}

impl Judge {
    ghost use Rattle.nio_base.specs.Limits.{IsFit};
    ghost use Rattle.nio_history.specs.Acts.{effect};
    ghost use Rattle.nio_history.specs.Answers.{Answers};
    ghost use Rattle.nio_history.specs.Conditions.{IsCaller};
    ghost use Rattle.nio_history.specs.Histories.{IsLegal, IsStep};
    ghost use Rattle.nio_audit.specs.Allowing.{state_of, IsAllowed};
    ghost use Rattle.nio_audit.specs.Bounds.{IsBounded};
    ghost use Rattle.nio_audit.specs.Counting.{channels_after, keys_after};
    ghost use Rattle.nio_audit.specs.DueIndexes.{IsBefore};
    ghost use Rattle.nio_audit.specs.Following.{Follows};
    ghost use Rattle.nio_audit.specs.Remembering.{knowledge_of, learned};
    ghost use Rattle.nio_audit.specs.StepNumbers.{number_of};
    ghost use Rattle.nio_audit.specs.TableWords.{row};

    /// A judge before the first event.
    pub(crate) fn new(alloc: Global, limits: Limits) -> Judge
        ensures limits { result.limits ≡ limits }
        ensures follows { Follows result [] }
    {
        Judge {
            limits,
            state: StateTables::new(alloc),
            dues: Dues::new(alloc),
            counts: Counts::new(alloc),
            memory: Memory::new(alloc),
        }
    }

    /// Whether the event is a step after these events, which are steps; where it is, the judge goes on.
    pub(crate) fn judge(&mut self, past: &[Event], event: &Event) -> Result<bool, AllocError>
        requires fit { IsFit self.old.limits }
        requires room { length past.now < 18446744073709551615 }
        requires legal { IsLegal self.old.limits past.now }
        requires follows { Follows self.old past.now }
        ensures limits { self.new.limits ≡ self.old.limits }
        ensures step { IfOk result (λ is_step. IsTrue is_step ↔ IsStep self.old.limits past.now event.now) }
        ensures follows { IfOk result (λ is_step. OnTrue is_step (Follows self.new (past.now ++ event.now ∷ []))) }
    {
        if !self.is_step(event.caller, &event.act) {
            return Ok(false);
        }
        self.record(past.len() as u64 + 1, event.caller, &event.act)?;
        Ok(true)
    }

    /// Whether the caller may make the step, and found what the state answers.
    fn is_step(&self, me: CallerNo, act: &Act) -> bool
        requires { IsFit self.now.limits }
        ensures { IsTrue result ↔ (IsCaller self.now.limits me × IsAllowed self.now me act.now
            × Answers (state_of self.now) me act.now) }
    {
        self.may_step(me, act) && self.state.answers(me, act)
    }

    /// Whether the caller may make the step, whatever it finds.
    pub(crate) fn may_step(&self, me: CallerNo, act: &Act) -> bool
        ensures { IsTrue result ↔ (IsCaller self.now.limits me × IsAllowed self.now me act.now) }
    {
        me.0 < self.limits.callers && self.allows(me, act)
    }

    /// Goes on by a step at this moment.
    fn record(&mut self, now: u64, me: CallerNo, act: &Act) -> Result<(), AllocError>
        requires fit { IsFit self.old.limits }
        requires allowed { IsAllowed self.old me act.now }
        requires serial { IsBounded (state_of self.old) (number_of act.now) }
        requires before { IsBefore self.old.dues now }
        ensures limits { self.new.limits ≡ self.old.limits }
        ensures state { OnOk result (state_of self.new ≡ effect (state_of self.old) me act.now) }
        ensures channels { OnOk result (self.new.counts.channels
            ≡ channels_after self.old.counts.channels (number_of act.now)) }
        ensures keys { OnOk result (row self.new.counts.keys
            ≡ keys_after (row self.old.counts.keys) (number_of act.now)) }
        ensures before { OnOk result (IsBefore self.new.dues (now + 1)) }
        ensures knowledge { OnOk result (knowledge_of self.new.memory
            ≡ learned now me act.now (knowledge_of self.old.memory)) }
    {
        self.memory.learn(now, me, act)?;
        self.counts.learn(act)?;
        self.dues.learn(now, &self.state, act)?;
        self.state.apply(me, act)
    }
}

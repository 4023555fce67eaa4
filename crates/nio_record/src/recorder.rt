//! A table, and what its callers did on it.
ghost use Rattle.std.specs.Prelude.{◌≡◌, ◌≢◌, ◌+◌, ◌<◌, ◌≤◌, ◌↔◌, [], ◌∷◌, ◌++◌, IfOk, OnErr, Err, ◌⊎◌};
ghost use Rattle.nio_record.specs.declared.recorder.RecordError.TheVariants.{NoStep};
ghost use Rattle.std.specs.Vec.{vec_len, vec_capacity};
ghost use Rattle.nio_history.specs.Histories.{event_of};
ghost use Rattle.nio_history.specs.Questions.{question_of};
ghost use Rattle.nio_words.specs.Passes.{IsFirstPass, limits_of};
ghost use Rattle.nio_record.specs.Recorded.{HasDrawn, IsDraw, IsRecorded, MayMake, acts_for, draws, table_limits};
ghost use Rattle.nio_record.specs.Recorded.{written};

use crate::making::make_step;
use nio_audit::{AuditError, may_step};
use nio_base::{CallerNo, Limits};
use nio_history::{Act, Event};
use nio_words::{Pass, Words};
use std::alloc::{AllocError, Global};
use thiserror::Error;

/// Why a step wasn't made.
#[derive(Clone, Copy, Debug, PartialEq, Eq, Error)]
pub enum RecordError {
    /// The caller may not make this step now, or the step draws a number.
    #[error("the caller may not make the step")]
    NoStep,
    /// There is no memory for the list of events.
    #[error("there is no memory for the events")]
    Memory,
}

impl From<AllocError> for RecordError {
    ghost use Rattle.nio_record.specs.declared.recorder.RecordError.TheVariants.{Memory};

    ghost from_gives = { λ _ e. e ≡ Memory };

    fn from(_error: AllocError) -> RecordError {
        RecordError::Memory
    }
}

// Draws the number of each caller with the first pass of a table.
fn draw_all(w: &Words, p: &mut Pass)
    requires { IsFirstPass w.now p.old }
    ensures { HasDrawn w.now p.new (limits_of w.now).callers }
{
    for number in 0..w.limits().callers {
        draw_next(w, p, CallerNo(number));
    }
}

fn draw_next(w: &Words, p: &mut Pass, number: CallerNo)
    requires drawn { HasDrawn w.now p.old number.0 }
    requires below { number.0 < (limits_of w.now).callers }
    ensures { HasDrawn w.now p.new (number.0 + 1) }
{
    let _found = w.draw_bit(p, number, number);
}

// What is written down of the draws of so many callers.
fn drawn(alloc: Global, callers: u32) -> Result<Vec<Event>, AllocError>
    ensures { IfOk result (λ events. events.items ≡ draws callers) }
{
    let mut events = Vec::with_capacity(alloc, callers as usize)?;
    for number in 0..callers {
        let caller = CallerNo(number);
        add(&mut events, caller, &Act::DrawBit(caller, false));
    }
    Ok(events)
}

/// Writes down what the caller did, where there is room for it.
fn add(events: &mut Vec<Event>, caller: CallerNo, act: &Act)
    requires { vec_len events.old < vec_capacity events.old }
    ensures items { events.new.items ≡ events.old.items ++ event_of caller act.now ∷ [] }
    ensures capacity { vec_capacity events.old ≤ vec_capacity events.new }
    ensures len { vec_len events.new ≡ vec_len events.old + 1 }
{
    if events.push(Event { caller, act: *act }).is_err() {
        unreachable!()
    }
}

/// A table, its only pass, which acts for every caller, and all that they did.
#[derive(Drop)]
pub struct Recorder {
    words: Words,
    pass: Pass,
    events: Vec<Event>,
}

impl Recorder {
    ghost use Rattle.nio_base.specs.Limits.{IsFit};

    /// A new table, after all callers drew their numbers. It fails for want of memory alone.
    pub fn make(alloc: Global, limits: Limits) -> Result<Recorder, RecordError>
        requires { IsFit limits }
        ensures recorded { IfOk result IsRecorded }
        ensures limits { IfOk result (λ made. table_limits made ≡ limits) }
        ensures written { IfOk result (λ made. written made ≡ draws limits.callers) }
        ensures callers { IfOk result (λ made. (n : CallerNo) → n.0 < limits.callers → acts_for made n) }
        ensures only_memory { result ≢ Err NoStep }
    {
        let (words, mut pass) = Words::make(alloc, limits)?;
        draw_all(&words, &mut pass);
        let events = drawn(alloc, limits.callers)?;
        Ok(Recorder {
            words,
            pass,
            events,
        })
    }

    /// Makes the step, whatever `act` says of what it finds, and writes it down. Answers the act with what it found.
    /// A draw answers `NoStep`, since all callers are drawn.
    pub fn step(&mut self, alloc: Global, caller: CallerNo, act: Act) -> Result<Act, RecordError>
        requires { IsRecorded self.old }
        ensures recorded { IsRecorded self.new }
        ensures limits { table_limits self.new ≡ table_limits self.old }
        ensures callers { (n : CallerNo) → acts_for self.new n ↔ acts_for self.old n }
        ensures asked { IfOk result (λ made. question_of made ≡ question_of act) }
        ensures written { IfOk result (λ made. written self.new ≡ written self.old ++ event_of caller made ∷ []) }
        ensures refused { OnErr result (written self.new ≡ written self.old) }
        ensures no_step { result ≡ Err NoStep → ¬ MayMake self.old caller act ⊎ IsDraw act }
        ensures may { IfOk result (λ _. MayMake self.old caller act) }
    {
        let limits = self.words.limits();
        if !self.pass.holds(caller) {
            return Err(RecordError::NoStep);
        }
        match may_step(alloc, limits, &self.events, caller, &act) {
            Ok(true) => {}
            Ok(false) => return Err(RecordError::NoStep),
            Err(AuditError::Memory) => return Err(RecordError::Memory),
            Err(AuditError::NotAStep { .. }) => unreachable!(),
        }
        if self.events.reserve(1).is_err() {
            return Err(RecordError::Memory);
        }
        let Some(made) = make_step(&self.words, &mut self.pass, caller, act) else {
            return Err(RecordError::NoStep);
        };
        add(&mut self.events, caller, &made);
        Ok(made)
    }

    /// All that was done, oldest first.
    pub fn events(&self) -> &[Event]
        ensures { result.now ≡ written self.now }
    {
        &self.events
    }
}

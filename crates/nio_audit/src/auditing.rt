//! Whether a list of events is a legal history, and which step may come next.
ghost use Rattle.std.specs.Prelude.{◌≡◌, ◌≢◌, ◌↔◌, ℕ, IsOk, IfOk, IsTrue};
ghost use Rattle.nio_base.specs.Limits.{IsFit};
ghost use Rattle.nio_history.specs.Histories.{IsLegal};
ghost use Rattle.nio_audit.specs.Audit.{IsFirstNoStep, MayStep};
ghost use Rattle.nio_audit.specs.Following.{HasJudged};
ghost use Rattle.nio_audit.specs.declared.auditing.AuditError.TheVariants.{Memory, NotAStep};

use crate::judge::Judge;
use nio_base::{CallerNo, Limits};
use nio_history::{Act, Event};
use std::alloc::{AllocError, Global};
use thiserror::Error;

/// Why a list of events isn't a legal history, or wasn't judged.
#[derive(Clone, Copy, Debug, PartialEq, Eq, Error)]
pub enum AuditError {
    /// The event at this place, counted from 0, is the first that isn't a step after those before it.
    #[error("event {at} isn't a step after those before it")]
    NotAStep { at: u64 },
    /// There is no memory for what the judge keeps.
    #[error("out of memory")]
    Memory,
}

impl From<AllocError> for AuditError {
    ghost from_gives = { λ _ e. e ≡ Memory };

    fn from(_: AllocError) -> AuditError {
        AuditError::Memory
    }
}

/// Judges a recorded run: whether each event is a step after those before it, in a table with these limits. The time
/// grows with the number of events.
pub fn audit(alloc: Global, limits: Limits, events: &[Event]) -> Result<(), AuditError>
    requires { IsFit limits }
    ensures ok { result ≢ Err Memory → IsOk result ↔ IsLegal limits events.now }
    ensures not_a_step { (at : ℕ) → result ≢ Err Memory → (result ≡ Err (NotAStep at))
        ↔ IsFirstNoStep limits events.now at }
{
    judged(alloc, limits, events)?;
    Ok(())
}

/// Whether the caller may make the step after these events, whatever the step finds. The events are judged as by
/// `audit`, and where that answers an error, so does this.
pub fn may_step(
    alloc: Global,
    limits: Limits,
    events: &[Event],
    caller: CallerNo,
    act: &Act,
) -> Result<bool, AuditError>
    requires { IsFit limits }
    ensures ok { result ≢ Err Memory → IsOk result ↔ IsLegal limits events.now }
    ensures not_a_step { (at : ℕ) → result ≢ Err Memory → (result ≡ Err (NotAStep at))
        ↔ IsFirstNoStep limits events.now at }
    ensures may { IfOk result (λ may. IsTrue may ↔ MayStep limits events.now caller act.now) }
{
    let judge = judged(alloc, limits, events)?;
    Ok(judge.may_step(caller, act))
}

/// What the events left, where they are a legal history.
fn judged(alloc: Global, limits: Limits, events: &[Event]) -> Result<Judge, AuditError>
    requires { IsFit limits }
    ensures ok { result ≢ Err Memory → IsOk result ↔ IsLegal limits events.now }
    ensures not_a_step { (at : ℕ) → result ≢ Err Memory → (result ≡ Err (NotAStep at))
        ↔ IsFirstNoStep limits events.now at }
    ensures judge { IfOk result (λ judge. HasJudged judge limits events.now) }
{
    let mut judge = Judge::new(alloc, limits);
    for (at, event) in events.iter().enumerate() {
        if !judge.judge(&events[..at], event)? {
            return Err(AuditError::NotAStep { at: at as u64 });
        }
    }
    Ok(judge)
}

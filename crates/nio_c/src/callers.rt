//! The exports that make a table, give numbers away, and let callers go.
ghost use Rattle.std.specs.Prelude.{◌≡◌, IfOk, MatchBool, MatchResult};
ghost use Rattle.nio_base.specs.Limits.{IsFit};
ghost use Rattle.nio_select.specs.Listed.{ok_seen};
ghost use Rattle.nio_c.specs.Exports.{Exports, ExportsHeld, Refuses};
ghost use Rattle.nio_c.specs.Making.{IsFirst, IsGiven, LetsGo, MakesTable, SaysNumber, SplitsOff};
ghost use Rattle.nio_c.specs.Statuses.{done, split_refusal, status_of};
ghost use Rattle.nio_c.specs.Values.{as_limits, caller_no};
ghost use Rattle.nio_c.specs.declared.status.Status.TheVariants as status;

use crate::handle::Handle;
use crate::kept::{Kept, Sharer};
use crate::places::Visitor;
use crate::status::{Refusal, Status};
use crate::values::TableLimits;
use nio_base::{CallerNo, Limits};
use nio_caller::{Caller, SplitError};
use nio_words::Words;
use std::alloc::{AllocError, Global};
use std::sync::Arc;

/// Makes a table, and its first caller, which holds every number.
#[unsafe(no_mangle)]
pub extern "C" fn nio_make(alloc: Global, limits: &TableLimits, first: &mut Handle) -> u32
    ensures { MakesTable (as_limits limits.now) first.old first.new result }
{
    if first.is_full() {
        return Status::FullHandle.code();
    }
    let limits = limits.limits();
    if !limits.fits() {
        return Status::IllegalArgument.code();
    }
    match first_caller(alloc, limits) {
        Ok(caller) => {
            first.put(caller);
            Status::Done.code()
        }
        Err(_error) => Status::NoMemory.code(),
    }
}

fn first_caller(alloc: Global, limits: Limits) -> Result<Box<Kept, Global>, AllocError>
    requires { IsFit limits }
    ensures { IfOk result (λ kept. IsFirst limits kept.value.caller) }
{
    let (words, pass) = Words::make(alloc, limits)?;
    let visitor = Visitor::first(alloc, &words)?;
    let table = Arc::new(alloc, words)?;
    let caller = Caller::first(table, pass);
    Ok(Box::new(alloc, Kept::new(alloc, caller, visitor))?)
}

/// Gives a number away, to a new caller at the same table.
#[unsafe(no_mangle)]
pub extern "C" fn nio_split(
    alloc: Global,
    caller: &mut Handle,
    number: u32,
    given: &mut Handle,
) -> u32
    ensures { MatchBool given.old.full
        (Refuses status.FullHandle (given.new ≡ given.old) caller.old caller.new result)
        (ExportsHeld (SplitsOff (caller_no number)) (status_of split_refusal)
        (λ answer. IsGiven answer given.old given.new) (given.new ≡ given.old)
        caller.old caller.new result) }
{
    if given.is_full() {
        return Status::FullHandle.code();
    }
    let Some(mut kept) = caller.take(alloc) else {
        return Status::EmptyHandle.code();
    };
    let split = split_off(alloc, &mut kept, CallerNo(number));
    caller.put(kept);
    match split {
        Ok(boxed) => {
            given.put(boxed);
            Status::Done.code()
        }
        Err(error) => error.status().code(),
    }
}

// Gives a number away. Where there is no memory for the new caller, the number comes back: `NoHandle`.
#[tactic(auto, using(crate::proofs::Splitting::all_back, crate::proofs::Splitting::none_gone, crate::proofs::Splitting::split_refused))]
fn split_off(
    alloc: Global,
    acting: &mut Kept,
    number: CallerNo,
) -> Result<Box<Kept, Global>, SplitError>
    ensures { SplitsOff number acting.old acting.new (ok_seen (λ given. given.value) result) }
{
    let Some(visitor) = acting.visitor.another() else {
        return Err(SplitError::NoHandle);
    };
    let given = match acting.caller.split(number) {
        Ok(given) => given,
        Err(error) => return Err(error),
    };
    match on_heap(alloc, given, visitor) {
        Ok(kept) => Ok(kept),
        Err(given) => {
            acting.caller.join(given);
            Err(SplitError::NoHandle)
        }
    }
}

// Puts a caller on the heap, or gives it back where there is no memory.
pub(crate) fn on_heap(
    alloc: Global,
    caller: Sharer,
    visitor: Visitor,
) -> Result<Box<Kept, Global>, Sharer>
    requires { visitor.table ≡ caller.table }
    ensures caller { MatchResult result (λ kept. kept.value.caller ≡ caller) (λ same. same ≡ caller) }
    ensures visitor { IfOk result (λ kept. kept.value.visitor ≡ visitor) }
{
    match Box::new(alloc, Kept::new(alloc, caller, visitor)) {
        Ok(kept) => Ok(kept),
        Err(failed) => Err(failed.value.into_parts().0),
    }
}

/// Lets the caller go.
#[unsafe(no_mangle)]
pub extern "C" fn nio_free(alloc: Global, caller: &mut Handle) -> u32
    ensures { LetsGo caller.old caller.new result }
{
    match caller.take(alloc) {
        Some(kept) => {
            drop(kept);
            Status::Done.code()
        }
        None => Status::EmptyHandle.code(),
    }
}

/// The caller's number.
#[unsafe(no_mangle)]
pub extern "C" fn nio_number(alloc: Global, caller: &mut Handle, number: &mut u32) -> u32
    ensures { Exports SaysNumber done (λ answer. number.new ≡ answer) (number.new ≡ number.old)
        caller.old caller.new result }
{
    let Some(kept) = caller.take(alloc) else {
        return Status::EmptyHandle.code();
    };
    *number = kept.caller.number().0;
    caller.put(kept);
    Status::Done.code()
}

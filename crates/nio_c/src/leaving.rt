//! The exports by which callers come back: one leaves its caller at the table, and another one takes it.
ghost use Rattle.std.specs.Prelude.{◌≡◌, MatchBool, MatchResult};
ghost use Rattle.nio_select.specs.Listed.{ok_seen};
ghost use Rattle.nio_c.specs.Exports.{ExportsHeld, Refuses};
ghost use Rattle.nio_c.specs.Leaving.{GivesBack, IsLeft, TakesBack, found_no_place};
ghost use Rattle.nio_c.specs.Making.{IsGiven};
ghost use Rattle.nio_c.specs.Statuses.{status_of, take_back_refusal};
ghost use Rattle.nio_c.specs.declared.status.Status.TheVariants as status;

use crate::callers::on_heap;
use crate::handle::Handle;
use crate::kept::Kept;
use crate::places::Visitor;
use crate::status::{Refusal, Status};
use std::alloc::Global;

/// Why no caller was taken back: none is left at the table, or there is no memory.
#[derive(Clone, Copy, Debug)]
pub(crate) enum TakeBackError {
    NoneLeft,
    Memory,
}

/// Leaves the caller at its table, for one who takes it back.
#[unsafe(no_mangle)]
pub extern "C" fn nio_give_back(alloc: Global, caller: &mut Handle) -> u32
    ensures { GivesBack caller.old caller.new result }
{
    let Some(kept) = caller.take(alloc) else {
        return Status::EmptyHandle.code();
    };
    match give_back(kept) {
        Ok(_visitor) => Status::Done.code(),
        Err(kept) => {
            caller.put(kept);
            Status::Busy.code()
        }
    }
}

// Leaves the caller at the first place that is free. There are as many places as callers, so one is.
fn give_back(kept: Box<Kept, Global>) -> Result<Visitor, Box<Kept, Global>>
    ensures { MatchResult result (λ visitor. IsLeft kept.value visitor)
        (λ same. same.value ≡ found_no_place kept.value) }
{
    let mut kept = kept;
    let Some(hand) = kept.visitor.come_to_free() else {
        return Err(kept);
    };
    let (caller, mut visitor) = Box::into_inner(kept).into_parts();
    visitor.leave(hand, caller);
    Ok(visitor)
}

/// Takes a caller back that was left at the table of this one.
#[unsafe(no_mangle)]
pub extern "C" fn nio_take_back(alloc: Global, caller: &mut Handle, given: &mut Handle) -> u32
    ensures { MatchBool given.old.full
        (Refuses status.FullHandle (given.new ≡ given.old) caller.old caller.new result)
        (ExportsHeld TakesBack (status_of take_back_refusal)
        (λ answer. IsGiven answer given.old given.new) (given.new ≡ given.old)
        caller.old caller.new result) }
{
    if given.is_full() {
        return Status::FullHandle.code();
    }
    let Some(mut kept) = caller.take(alloc) else {
        return Status::EmptyHandle.code();
    };
    let taken = take_back(alloc, &mut kept);
    caller.put(kept);
    match taken {
        Ok(boxed) => {
            given.put(boxed);
            Status::Done.code()
        }
        Err(error) => error.status().code(),
    }
}

// Takes the first caller that was left. Where there is no memory for it, it is left at its place again.
fn take_back(alloc: Global, acting: &mut Kept) -> Result<Box<Kept, Global>, TakeBackError>
    ensures { TakesBack acting.old acting.new (ok_seen (λ taken. taken.value) result) }
{
    let Some(another) = acting.visitor.another() else {
        return Err(TakeBackError::Memory);
    };
    let Some((caller, hand)) = acting.visitor.take_first() else {
        return Err(TakeBackError::NoneLeft);
    };
    match on_heap(alloc, caller, another) {
        Ok(kept) => {
            acting.visitor.free(hand);
            Ok(kept)
        }
        Err(caller) => {
            acting.visitor.leave(hand, caller);
            Err(TakeBackError::Memory)
        }
    }
}

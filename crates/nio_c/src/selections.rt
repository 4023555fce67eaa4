//! The exports on selections and closings in progress, which the caller keeps.
ghost use Rattle.std.specs.Prelude.{◌≡◌, ⊤, MatchResult, is_some, length, map, unwrap_or};
ghost use Rattle.nio_history.specs.Timeout.{mode_for};
ghost use Rattle.nio_history.specs.declared.found.Mode.TheVariants as mode;
ghost use Rattle.nio_c.specs.Exports.{Exports, ExportsHeld, Refuses};
ghost use Rattle.nio_c.specs.Lists.{asked_count, asked_into, asked_status};
ghost use Rattle.nio_c.specs.Selections.{Asks, BeginsOn, FinishesOn, LeavesOn, ShutsOn, TakesList, TellsFound};
ghost use Rattle.nio_c.specs.Selections.{TellsListing, WroteChanges, asked_in, finish_status, told_selection};
ghost use Rattle.nio_c.specs.Selections.{told_status};
ghost use Rattle.nio_c.specs.Statuses.{begin_refusal, call_refusal, done, selecting_refusal, status_found, status_of};
ghost use Rattle.nio_c.specs.Values.{as_told, sel_no};
ghost use Rattle.nio_c.specs.declared.status.Status.TheVariants as status;

use crate::answers::{done_or, finished, write_count, write_said, write_selected};
use crate::handle::Handle;
use crate::kept::Sharer;
use crate::lists::write_asked;
use crate::status::Status;
use crate::values::{Changed, Looked, Pair, Selection};
use crate::writing::Writing;
use nio_base::SelNo;
use nio_select::{Mode, Unlisted};
use std::alloc::Global;

/// Takes the selector's list, where nobody has that. Writes whether it was taken.
#[unsafe(no_mangle)]
pub extern "C" fn nio_take_list(
    alloc: Global,
    caller: &mut Handle,
    selector: u32,
    taken: &mut bool,
) -> u32
    ensures { Exports (TakesList (sel_no selector)) done
        (λ answer. taken.new ≡ answer) (taken.new ≡ taken.old)
        caller.old caller.new result }
{
    let Some(mut kept) = caller.take(alloc) else {
        return Status::EmptyHandle.code();
    };
    *taken = kept.caller.take_list(alloc, SelNo(selector));
    caller.put(kept);
    Status::Done.code()
}

/// Begins a selection that doesn't wait: the first half of Java's `selectNow`.
#[unsafe(no_mangle)]
pub extern "C" fn nio_begin_now(alloc: Global, caller: &mut Handle, selector: u32) -> u32
    ensures { Exports (BeginsOn (sel_no selector) mode.Now) (status_of (call_refusal begin_refusal))
        (λ answer. ⊤) ⊤
        caller.old caller.new result }
{
    begin_in(alloc, caller, SelNo(selector), Mode::Now)
}

/// Begins a selection that waits for at most so many milliseconds, 0 for without limit: the first half of Java's
/// `select(long)`.
#[unsafe(no_mangle)]
pub extern "C" fn nio_begin(alloc: Global, caller: &mut Handle, selector: u32, ms: i64) -> u32
    ensures { MatchResult (mode_for ms)
        (λ mode. Exports (BeginsOn (sel_no selector) mode) (status_of (call_refusal begin_refusal))
        (λ answer. ⊤) ⊤
        caller.old caller.new result)
        (λ error. Refuses status.IllegalArgument ⊤ caller.old caller.new result) }
{
    match Mode::waiting(ms) {
        Ok(mode) => begin_in(alloc, caller, SelNo(selector), mode),
        Err(_error) => Status::IllegalArgument.code(),
    }
}

fn begin_in(alloc: Global, caller: &mut Handle, sel: SelNo, mode: Mode) -> u32
    ensures { Exports (BeginsOn sel mode) (status_of (call_refusal begin_refusal))
        (λ answer. ⊤) ⊤
        caller.old caller.new result }
{
    let Some(mut kept) = caller.take(alloc) else {
        return Status::EmptyHandle.code();
    };
    let answer = kept.caller.begin(alloc, sel, mode);
    caller.put(kept);
    done_or(answer).code()
}

/// The keys that the selection in progress asks for.
#[unsafe(no_mangle)]
pub extern "C" fn nio_asked(
    alloc: Global,
    caller: &mut Handle,
    selector: u32,
    keys: &mut [Looked],
    count: &mut usize,
) -> u32
    ensures { Exports (Asks (sel_no selector)) (asked_status (length keys.old))
        (λ answer. (keys.new ≡ asked_into answer keys.old) × (count.new ≡ asked_count answer count.old))
        ((keys.new ≡ keys.old) × (count.new ≡ count.old))
        caller.old caller.new result }
{
    let Some(kept) = caller.take(alloc) else {
        return Status::EmptyHandle.code();
    };
    let status = write_selection(&kept.caller, SelNo(selector), keys, count);
    caller.put(kept);
    status.code()
}

// Writes the keys that the caller's selection in progress asks for.
fn write_selection(acting: &Sharer, sel: SelNo, keys: &mut [Looked], count: &mut usize) -> Status
    ensures status { result ≡ asked_status (length keys.old) (asked_in acting.now sel) }
    ensures keys { keys.new ≡ asked_into (asked_in acting.now sel) keys.old }
    ensures count { count.new ≡ asked_count (asked_in acting.now sel) count.old }
{
    match acting.selection(sel) {
        Some(selection) => write_asked(selection.asked(), keys, count),
        None => Status::NotSelecting,
    }
}

/// Tells the selection in progress what a poll found. Where it is over, its answer is written. With `enough` a
/// selection with a time is also over where something was told of what it asks for, as in JDK 17.
#[unsafe(no_mangle)]
pub extern "C" fn nio_told(
    alloc: Global,
    caller: &mut Handle,
    selector: u32,
    pairs: &[Pair],
    elapsed: bool,
    enough: bool,
    selected: &mut Selection,
) -> u32
    ensures { ExportsHeld
        (TellsFound (sel_no selector) enough (record { pairs = map as_told pairs.now; elapsed = elapsed })) told_status
        (λ answer. selected.new ≡ told_selection answer selected.old) (selected.new ≡ selected.old)
        caller.old caller.new result }
{
    let Some(mut kept) = caller.take(alloc) else {
        return Status::EmptyHandle.code();
    };
    let mut unlisted = Unlisted;
    let answer = kept.tell(SelNo(selector), pairs, elapsed, enough, &mut unlisted);
    caller.put(kept);
    write_selected(answer, selected).code()
}

/// The same, and writes what it did to keys: each that it marked and each that it removed, in the order of its steps, as
/// many as there is room for, and how many there were.
#[unsafe(no_mangle)]
pub extern "C" fn nio_told_listing(
    alloc: Global,
    caller: &mut Handle,
    selector: u32,
    pairs: &[Pair],
    elapsed: bool,
    enough: bool,
    selected: &mut Selection,
    changes: &mut [Changed],
    changed: &mut usize,
) -> u32
    ensures { ExportsHeld
        (TellsListing (sel_no selector) enough (record { pairs = map as_told pairs.now; elapsed = elapsed }))
        (λ told. told_status told.answer)
        (λ told. (selected.new ≡ told_selection told.answer selected.old)
        × WroteChanges told changes.old changes.new changed.old changed.new)
        ((selected.new ≡ selected.old) × (changes.new ≡ changes.old) × (changed.new ≡ changed.old))
        caller.old caller.new result }
{
    let Some(mut kept) = caller.take(alloc) else {
        return Status::EmptyHandle.code();
    };
    let mut writing = Writing {
        into: changes,
        count: 0,
    };
    let answer = kept.tell_listing(SelNo(selector), pairs, elapsed, enough, &mut writing);
    caller.put(kept);
    write_count(&answer, writing.count, changed);
    write_selected(answer, selected).code()
}

/// Gives the turn of the selection in progress back.
#[unsafe(no_mangle)]
pub extern "C" fn nio_leave(alloc: Global, caller: &mut Handle, selector: u32) -> u32
    ensures { Exports (LeavesOn (sel_no selector)) (status_of selecting_refusal)
        (λ answer. ⊤) ⊤
        caller.old caller.new result }
{
    let Some(mut kept) = caller.take(alloc) else {
        return Status::EmptyHandle.code();
    };
    let answer = kept.caller.leave(SelNo(selector));
    caller.put(kept);
    done_or(answer).code()
}

/// Begins to close the selector. Writes whether this call began it.
#[unsafe(no_mangle)]
pub extern "C" fn nio_shut(
    alloc: Global,
    caller: &mut Handle,
    selector: u32,
    began: &mut bool,
) -> u32
    ensures { Exports (ShutsOn (sel_no selector)) (λ answer. status_found status.NoSuchSelector (is_some answer))
        (λ answer. began.new ≡ unwrap_or answer began.old) (began.new ≡ began.old)
        caller.old caller.new result }
{
    let Some(mut kept) = caller.take(alloc) else {
        return Status::EmptyHandle.code();
    };
    let answer = kept.caller.shut(SelNo(selector));
    caller.put(kept);
    write_said(answer, began).code()
}

/// Ends the closing that the caller began: the selector is closed then.
#[unsafe(no_mangle)]
pub extern "C" fn nio_try_finish(alloc: Global, caller: &mut Handle, selector: u32) -> u32
    ensures { Exports (FinishesOn (sel_no selector)) finish_status
        (λ answer. ⊤) ⊤
        caller.old caller.new result }
{
    let Some(mut kept) = caller.take(alloc) else {
        return Status::EmptyHandle.code();
    };
    let answer = kept.caller.try_finish(SelNo(selector));
    caller.put(kept);
    finished(answer).code()
}

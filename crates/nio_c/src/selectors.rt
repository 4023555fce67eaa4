//! The exports on selectors, and those on interrupts.
ghost use Rattle.std.specs.Prelude.{◌≡◌, ⊤, Err, None, false, is_some, length, unwrap_or};
ghost use Rattle.std.specs.Result.{result_unwrap_or};
ghost use Rattle.nio_caller.specs.NamedCalls.{Calls, Does, Gives, MayRefuse, OnCaller, OnSelector};
ghost use Rattle.nio_caller.specs.declared.refusal.CallError.TheVariants.{NoSuchSelector};
ghost use Rattle.nio_select.specs.Listed.{ok_seen};
ghost use Rattle.nio_steps.specs.KeyCalls.{find_selector_plan};
ghost use Rattle.nio_steps.specs.Runs.{Completes};
ghost use Rattle.nio_steps.specs.SelectCalls.{ListsKeys, ListsSelected};
ghost use Rattle.nio_steps.specs.SelectCalls.{interrupt_plan, interrupted_plan, open_selector_plan, wakeup_plan};
ghost use Rattle.nio_c.specs.Exports.{Exports};
ghost use Rattle.nio_c.specs.Lists.{counted, list_status, listed};
ghost use Rattle.nio_c.specs.Statuses.{call_refusal, done, list_refusal, spent_refusal, status_found, status_of};
ghost use Rattle.nio_c.specs.Values.{caller_no, key_of, sel_no};
ghost use Rattle.nio_c.specs.declared.status.Status.TheVariants as status;

use crate::answers::{write_said, write_selector};
use crate::handle::Handle;
use crate::lists::write_listed;
use crate::status::{Status, found};
use crate::values::Key;
use nio_base::{CallerNo, SelNo};
use nio_poller::NoBell;
use std::alloc::Global;

/// Opens a selector: Java's `Selector.open`.
#[unsafe(no_mangle)]
pub extern "C" fn nio_open_selector(alloc: Global, caller: &mut Handle, selector: &mut u32) -> u32
    ensures { Exports (Calls (λ l. Completes (open_selector_plan l)))
        (status_of spent_refusal) (λ answer. selector.new ≡ result_unwrap_or (ok_seen (λ s. s.0) answer) selector.old)
        (selector.new ≡ selector.old)
        caller.old caller.new result }
{
    let Some(mut kept) = caller.take(alloc) else {
        return Status::EmptyHandle.code();
    };
    let answer = kept.caller.open_selector();
    caller.put(kept);
    write_selector(answer, selector).code()
}

/// Whether there is such a selector.
#[unsafe(no_mangle)]
pub extern "C" fn nio_find_selector(alloc: Global, caller: &mut Handle, selector: u32) -> u32
    ensures { Exports (Calls (λ l. Completes (find_selector_plan l selector)))
        (λ answer. status_found status.NoSuchSelector (is_some answer)) (λ answer. ⊤) ⊤
        caller.old caller.new result }
{
    let Some(mut kept) = caller.take(alloc) else {
        return Status::EmptyHandle.code();
    };
    let answer = kept.caller.find_selector(selector);
    caller.put(kept);
    found(answer.is_some(), Status::NoSuchSelector).code()
}

/// The keys of the selector: Java's `keys`.
#[unsafe(no_mangle)]
pub extern "C" fn nio_keys(
    alloc: Global,
    caller: &mut Handle,
    selector: u32,
    keys: &mut [Key],
    count: &mut usize,
) -> u32
    ensures { Exports (Calls (λ l. OnSelector l (sel_no selector) (Err NoSuchSelector)
        (MayRefuse (ListsKeys (sel_no selector))))) (list_status (length keys.old) (call_refusal list_refusal))
        (λ answer. (keys.new ≡ listed key_of answer keys.old) × (count.new ≡ counted answer count.old))
        ((keys.new ≡ keys.old) × (count.new ≡ count.old))
        caller.old caller.new result }
{
    let Some(mut kept) = caller.take(alloc) else {
        return Status::EmptyHandle.code();
    };
    let answer = kept.caller.keys(alloc, SelNo(selector));
    caller.put(kept);
    write_listed(answer, keys, count).code()
}

/// The selected keys of the selector: Java's `selectedKeys`.
#[unsafe(no_mangle)]
pub extern "C" fn nio_selected_keys(
    alloc: Global,
    caller: &mut Handle,
    selector: u32,
    keys: &mut [Key],
    count: &mut usize,
) -> u32
    ensures { Exports (Calls (λ l. OnSelector l (sel_no selector) (Err NoSuchSelector)
        (MayRefuse (ListsSelected (sel_no selector))))) (list_status (length keys.old) (call_refusal list_refusal))
        (λ answer. (keys.new ≡ listed key_of answer keys.old) × (count.new ≡ counted answer count.old))
        ((keys.new ≡ keys.old) × (count.new ≡ count.old))
        caller.old caller.new result }
{
    let Some(mut kept) = caller.take(alloc) else {
        return Status::EmptyHandle.code();
    };
    let answer = kept.caller.selected_keys(alloc, SelNo(selector));
    caller.put(kept);
    write_listed(answer, keys, count).code()
}

/// Leaves a wakeup at the selector: Java's `wakeup`. Writes whether one was pending already. C rings.
#[unsafe(no_mangle)]
pub extern "C" fn nio_wakeup(
    alloc: Global,
    caller: &mut Handle,
    selector: u32,
    pending: &mut bool,
) -> u32
    ensures { Exports
        (Calls (λ l. OnSelector l (sel_no selector) None (Gives (Completes (wakeup_plan (sel_no selector))))))
        (λ answer. status_found status.NoSuchSelector (is_some answer))
        (λ answer. pending.new ≡ unwrap_or answer pending.old) (pending.new ≡ pending.old)
        caller.old caller.new result }
{
    let Some(mut kept) = caller.take(alloc) else {
        return Status::EmptyHandle.code();
    };
    let answer = kept.caller.wakeup(SelNo(selector), &NoBell);
    caller.put(kept);
    write_said(answer, pending).code()
}

/// Sets the interrupt status of the caller with this number: Java's `Thread.interrupt`. C rings.
#[unsafe(no_mangle)]
pub extern "C" fn nio_interrupt(alloc: Global, caller: &mut Handle, number: u32) -> u32
    ensures { Exports
        (Calls (λ l. OnCaller l (caller_no number) false (Does (Completes (interrupt_plan (caller_no number))))))
        (status_found status.NoSuchCaller) (λ answer. ⊤) ⊤
        caller.old caller.new result }
{
    let Some(mut kept) = caller.take(alloc) else {
        return Status::EmptyHandle.code();
    };
    let is_there = kept.caller.interrupt(CallerNo(number), &NoBell);
    caller.put(kept);
    found(is_there, Status::NoSuchCaller).code()
}

/// Whether the caller's own interrupt status was set; clears it: Java's `Thread.interrupted`.
#[unsafe(no_mangle)]
pub extern "C" fn nio_interrupted(alloc: Global, caller: &mut Handle, interrupted: &mut bool) -> u32
    ensures { Exports (Calls (λ l. Completes interrupted_plan))
        done (λ answer. interrupted.new ≡ answer) (interrupted.new ≡ interrupted.old)
        caller.old caller.new result }
{
    let Some(mut kept) = caller.take(alloc) else {
        return Status::EmptyHandle.code();
    };
    *interrupted = kept.caller.interrupted();
    caller.put(kept);
    Status::Done.code()
}

//! The exports on keys.
ghost use Rattle.std.specs.Prelude.{◌≡◌, ⊤, Err, None, false, is_some, option_map, unwrap_or};
ghost use Rattle.std.specs.Result.{result_unwrap_or};
ghost use Rattle.nio_caller.specs.NamedCalls.{Calls, Does, MayRefuse, OnKey, OnSelector};
ghost use Rattle.nio_caller.specs.Several.{TakesSelected};
ghost use Rattle.nio_caller.specs.declared.refusal.CallError.TheVariants.{NoSuchKey};
ghost use Rattle.nio_steps.specs.KeyCalls.{attach_plan, attachment_plan, cancel_plan, find_plan, interest_and_plan};
ghost use Rattle.nio_steps.specs.KeyCalls.{interest_or_plan, interest_plan, is_valid_plan, ready_plan};
ghost use Rattle.nio_steps.specs.KeyCalls.{set_interest_plan, unselect_plan};
ghost use Rattle.nio_steps.specs.Runs.{Completes};
ghost use Rattle.nio_c.specs.Exports.{Exports};
ghost use Rattle.nio_c.specs.Statuses.{call_refusal, done, key_refusal, status_found, status_of};
ghost use Rattle.nio_c.specs.Values.{channel_id, key_no, key_of, sel_no};
ghost use Rattle.nio_c.specs.declared.status.Status.TheVariants as status;

use crate::answers::{done_or, write_found, write_ops};
use crate::handle::Handle;
use crate::status::{Status, found};
use crate::values::{Channel, Key};
use nio_base::{Ops, SelNo};
use std::alloc::Global;

/// Whether there is such a key.
#[unsafe(no_mangle)]
pub extern "C" fn nio_find_key(alloc: Global, caller: &mut Handle, key: Key) -> u32
    ensures { Exports (Calls (λ l. OnSelector l (key_no key).sel None
        (Completes (find_plan l (key_no key).sel key.index key.serial))))
        (λ answer. status_found status.NoSuchKey (is_some answer)) (λ answer. ⊤) ⊤
        caller.old caller.new result }
{
    let Some(mut kept) = caller.take(alloc) else {
        return Status::EmptyHandle.code();
    };
    let answer = kept.caller.find(SelNo(key.selector), key.index, key.serial);
    caller.put(kept);
    found(answer.is_some(), Status::NoSuchKey).code()
}

/// Whether the key is valid: Java's `isValid`. False where there is no such key.
#[unsafe(no_mangle)]
pub extern "C" fn nio_is_valid(
    alloc: Global,
    caller: &mut Handle,
    key: Key,
    valid: &mut bool,
) -> u32
    ensures { Exports (Calls (λ l. OnKey l (key_no key) false (Completes (is_valid_plan (key_no key)))))
        done (λ answer. valid.new ≡ answer) (valid.new ≡ valid.old)
        caller.old caller.new result }
{
    let Some(mut kept) = caller.take(alloc) else {
        return Status::EmptyHandle.code();
    };
    *valid = kept.caller.is_valid(key.number());
    caller.put(kept);
    Status::Done.code()
}

/// Cancels the key: Java's `cancel`.
#[unsafe(no_mangle)]
pub extern "C" fn nio_cancel(alloc: Global, caller: &mut Handle, key: Key) -> u32
    ensures { Exports (Calls (λ l. OnKey l (key_no key) false (Does (Completes (cancel_plan (key_no key))))))
        (status_found status.NoSuchKey) (λ answer. ⊤) ⊤
        caller.old caller.new result }
{
    let Some(mut kept) = caller.take(alloc) else {
        return Status::EmptyHandle.code();
    };
    let is_there = kept.caller.cancel(key.number());
    caller.put(kept);
    found(is_there, Status::NoSuchKey).code()
}

/// The key's interest set: Java's `interestOps()`.
#[unsafe(no_mangle)]
pub extern "C" fn nio_interest(alloc: Global, caller: &mut Handle, key: Key, ops: &mut u8) -> u32
    ensures { Exports
        (Calls (λ l. OnKey l (key_no key) (Err NoSuchKey) (MayRefuse (Completes (interest_plan (key_no key))))))
        (status_of (call_refusal key_refusal)) (λ answer. ops.new ≡ result_unwrap_or answer ops.old) (ops.new ≡ ops.old)
        caller.old caller.new result }
{
    let Some(mut kept) = caller.take(alloc) else {
        return Status::EmptyHandle.code();
    };
    let answer = kept.caller.interest(key.number());
    caller.put(kept);
    write_ops(answer, ops).code()
}

/// Puts `ops` in the place of the key's interest set: Java's `interestOps(int)`.
#[unsafe(no_mangle)]
pub extern "C" fn nio_set_interest(alloc: Global, caller: &mut Handle, key: Key, ops: u8) -> u32
    ensures { Exports
        (Calls (λ l. OnKey l (key_no key) (Err NoSuchKey) (MayRefuse (Completes (set_interest_plan (key_no key) ops)))))
        (status_of (call_refusal key_refusal)) (λ answer. ⊤) ⊤
        caller.old caller.new result }
{
    let Some(mut kept) = caller.take(alloc) else {
        return Status::EmptyHandle.code();
    };
    let answer = kept.caller.set_interest(key.number(), Ops::of(ops));
    caller.put(kept);
    done_or(answer).code()
}

/// Adds `ops` to the key's interest set, and answers the set before: Java's `interestOpsOr`.
#[unsafe(no_mangle)]
pub extern "C" fn nio_interest_or(
    alloc: Global,
    caller: &mut Handle,
    key: Key,
    ops: u8,
    before: &mut u8,
) -> u32
    ensures { Exports
        (Calls (λ l. OnKey l (key_no key) (Err NoSuchKey) (MayRefuse (Completes (interest_or_plan (key_no key) ops)))))
        (status_of (call_refusal key_refusal)) (λ answer. before.new ≡ result_unwrap_or answer before.old)
        (before.new ≡ before.old)
        caller.old caller.new result }
{
    let Some(mut kept) = caller.take(alloc) else {
        return Status::EmptyHandle.code();
    };
    let answer = kept.caller.interest_or(key.number(), Ops::of(ops));
    caller.put(kept);
    write_ops(answer, before).code()
}

/// Keeps of the key's interest set what `ops` has too, and answers the set before: Java's `interestOpsAnd`.
#[unsafe(no_mangle)]
pub extern "C" fn nio_interest_and(
    alloc: Global,
    caller: &mut Handle,
    key: Key,
    ops: u8,
    before: &mut u8,
) -> u32
    ensures { Exports
        (Calls (λ l. OnKey l (key_no key) (Err NoSuchKey) (MayRefuse (Completes (interest_and_plan (key_no key) ops)))))
        (status_of (call_refusal key_refusal)) (λ answer. before.new ≡ result_unwrap_or answer before.old)
        (before.new ≡ before.old)
        caller.old caller.new result }
{
    let Some(mut kept) = caller.take(alloc) else {
        return Status::EmptyHandle.code();
    };
    let answer = kept.caller.interest_and(key.number(), Ops::of(ops));
    caller.put(kept);
    write_ops(answer, before).code()
}

/// The key's ready set: Java's `readyOps`.
#[unsafe(no_mangle)]
pub extern "C" fn nio_ready(alloc: Global, caller: &mut Handle, key: Key, ready: &mut u8) -> u32
    ensures { Exports
        (Calls (λ l. OnKey l (key_no key) (Err NoSuchKey) (MayRefuse (Completes (ready_plan (key_no key))))))
        (status_of (call_refusal key_refusal)) (λ answer. ready.new ≡ result_unwrap_or answer ready.old)
        (ready.new ≡ ready.old)
        caller.old caller.new result }
{
    let Some(mut kept) = caller.take(alloc) else {
        return Status::EmptyHandle.code();
    };
    let answer = kept.caller.ready(key.number());
    caller.put(kept);
    write_ops(answer, ready).code()
}

/// Takes the key out of the selected set: Java's `selectedKeys().remove`. False where there is no such key.
#[unsafe(no_mangle)]
pub extern "C" fn nio_unselect(
    alloc: Global,
    caller: &mut Handle,
    key: Key,
    taken: &mut bool,
) -> u32
    ensures { Exports (Calls (λ l. OnKey l (key_no key) false (Completes (unselect_plan (key_no key)))))
        done (λ answer. taken.new ≡ answer) (taken.new ≡ taken.old)
        caller.old caller.new result }
{
    let Some(mut kept) = caller.take(alloc) else {
        return Status::EmptyHandle.code();
    };
    *taken = kept.caller.unselect(key.number());
    caller.put(kept);
    Status::Done.code()
}

/// Takes the channel's key out of the selected set, where it has one there.
#[unsafe(no_mangle)]
pub extern "C" fn nio_take_selected(
    alloc: Global,
    caller: &mut Handle,
    channel: Channel,
    selector: u32,
    key: &mut Key,
) -> u32
    ensures { Exports (Calls (λ l. TakesSelected l (channel_id channel) (sel_no selector)))
        (λ answer. status_found status.NoSuchKey (is_some answer))
        (λ answer. key.new ≡ unwrap_or (option_map key_of answer) key.old) (key.new ≡ key.old)
        caller.old caller.new result }
{
    let Some(mut kept) = caller.take(alloc) else {
        return Status::EmptyHandle.code();
    };
    let answer = kept.caller.take_selected(channel.id(), SelNo(selector));
    caller.put(kept);
    write_found(answer, key).code()
}

/// Gives the key an attachment, 0 for none, and answers the one before: Java's `attach`.
#[unsafe(no_mangle)]
pub extern "C" fn nio_attach(
    alloc: Global,
    caller: &mut Handle,
    key: Key,
    attachment: u64,
    before: &mut u64,
) -> u32
    ensures { Exports (Calls (λ l. OnKey l (key_no key) 0 (Completes (attach_plan (key_no key) attachment))))
        done (λ answer. before.new ≡ answer) (before.new ≡ before.old)
        caller.old caller.new result }
{
    let Some(mut kept) = caller.take(alloc) else {
        return Status::EmptyHandle.code();
    };
    *before = kept.caller.attach(key.number(), attachment);
    caller.put(kept);
    Status::Done.code()
}

/// The key's attachment, 0 for none: Java's `attachment`.
#[unsafe(no_mangle)]
pub extern "C" fn nio_attachment(
    alloc: Global,
    caller: &mut Handle,
    key: Key,
    attachment: &mut u64,
) -> u32
    ensures { Exports (Calls (λ l. OnKey l (key_no key) 0 (Completes (attachment_plan (key_no key)))))
        done (λ answer. attachment.new ≡ answer) (attachment.new ≡ attachment.old)
        caller.old caller.new result }
{
    let Some(mut kept) = caller.take(alloc) else {
        return Status::EmptyHandle.code();
    };
    *attachment = kept.caller.attachment(key.number());
    caller.put(kept);
    Status::Done.code()
}

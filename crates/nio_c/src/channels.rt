//! The exports on channels.
ghost use Rattle.std.specs.Prelude.{◌≡◌, ⊤, Err, MatchOption, None, false, is_some, option_map, unwrap_or};
ghost use Rattle.std.specs.Result.{result_unwrap_or};
ghost use Rattle.nio_caller.specs.NamedCalls.{Calls, MayRefuse, OnChannel, OnSelector};
ghost use Rattle.nio_caller.specs.declared.refusal.CallError.TheVariants.{NoSuchChannel, NoSuchSelector};
ghost use Rattle.nio_select.specs.Listed.{ok_seen};
ghost use Rattle.nio_steps.specs.ChannelCalls.{close_channel_plan, is_blocking_plan, is_open_plan, is_registered_plan};
ghost use Rattle.nio_steps.specs.ChannelCalls.{key_for_plan, open_channel_plan, reopen_channel_plan};
ghost use Rattle.nio_steps.specs.ChannelCalls.{try_register_plan, try_set_blocking_plan};
ghost use Rattle.nio_steps.specs.KeyCalls.{find_channel_plan};
ghost use Rattle.nio_steps.specs.Runs.{Completes};
ghost use Rattle.nio_c.specs.Exports.{Exports, Refuses};
ghost use Rattle.nio_c.specs.Statuses.{call_refusal, channel_refusal, done, reopen_refusal, status_found, status_of};
ghost use Rattle.nio_c.specs.Values.{channel_id, channel_of, key_of, kind_numbered, sel_no};
ghost use Rattle.nio_c.specs.declared.status.Status.TheVariants as status;

use crate::answers::{done_or, write_channel, write_found, write_key};
use crate::handle::Handle;
use crate::status::{Status, found};
use crate::values::{Channel, Key, kind_of};
use nio_base::{Kind, Ops, SelNo};
use std::alloc::Global;

/// Opens a channel of the kind with this number, in blocking mode.
#[unsafe(no_mangle)]
pub extern "C" fn nio_open_channel(
    alloc: Global,
    caller: &mut Handle,
    kind: u32,
    channel: &mut Channel,
) -> u32
    ensures { MatchOption (kind_numbered kind)
        (Refuses status.IllegalArgument (channel.new ≡ channel.old) caller.old caller.new result)
        (λ kind. Exports (Calls (λ l. Completes (open_channel_plan l kind))) (status_of channel_refusal)
        (λ answer. channel.new ≡ result_unwrap_or (ok_seen channel_of answer) channel.old) (channel.new ≡ channel.old)
        caller.old caller.new result) }
{
    match kind_of(kind) {
        Some(kind) => open_of_kind(alloc, caller, kind, channel),
        None => Status::IllegalArgument.code(),
    }
}

fn open_of_kind(alloc: Global, caller: &mut Handle, kind: Kind, channel: &mut Channel) -> u32
    ensures { Exports (Calls (λ l. Completes (open_channel_plan l kind))) (status_of channel_refusal)
        (λ answer. channel.new ≡ result_unwrap_or (ok_seen channel_of answer) channel.old) (channel.new ≡ channel.old)
        caller.old caller.new result }
{
    let Some(mut kept) = caller.take(alloc) else {
        return Status::EmptyHandle.code();
    };
    let answer = kept.caller.open_channel(kind);
    caller.put(kept);
    write_channel(answer, channel).code()
}

/// Opens a channel of this number, which is closed: the quick way.
#[unsafe(no_mangle)]
pub extern "C" fn nio_reopen_channel(
    alloc: Global,
    caller: &mut Handle,
    channel: Channel,
    next: &mut Channel,
) -> u32
    ensures { Exports
        (Calls (λ l. OnChannel l (channel_id channel) (Err NoSuchChannel)
        (MayRefuse (Completes (reopen_channel_plan l (channel_id channel))))))
        (status_of (call_refusal reopen_refusal))
        (λ answer. next.new ≡ result_unwrap_or (ok_seen channel_of answer) next.old) (next.new ≡ next.old)
        caller.old caller.new result }
{
    let Some(mut kept) = caller.take(alloc) else {
        return Status::EmptyHandle.code();
    };
    let answer = kept.caller.reopen_channel(channel.id());
    caller.put(kept);
    write_channel(answer, next).code()
}

/// Whether there is such a channel.
#[unsafe(no_mangle)]
pub extern "C" fn nio_find_channel(alloc: Global, caller: &mut Handle, channel: Channel) -> u32
    ensures { Exports (Calls (λ l. Completes (find_channel_plan l channel.number channel.serial)))
        (λ answer. status_found status.NoSuchChannel (is_some answer)) (λ answer. ⊤) ⊤
        caller.old caller.new result }
{
    let Some(mut kept) = caller.take(alloc) else {
        return Status::EmptyHandle.code();
    };
    let answer = kept.caller.find_channel(channel.number, channel.serial);
    caller.put(kept);
    found(answer.is_some(), Status::NoSuchChannel).code()
}

/// Whether the channel is open: Java's `isOpen`. False where there is no such channel.
#[unsafe(no_mangle)]
pub extern "C" fn nio_is_open(
    alloc: Global,
    caller: &mut Handle,
    channel: Channel,
    is_open: &mut bool,
) -> u32
    ensures { Exports
        (Calls (λ l. OnChannel l (channel_id channel) false (Completes (is_open_plan (channel_id channel)))))
        done (λ answer. is_open.new ≡ answer) (is_open.new ≡ is_open.old)
        caller.old caller.new result }
{
    let Some(mut kept) = caller.take(alloc) else {
        return Status::EmptyHandle.code();
    };
    *is_open = kept.caller.is_open(channel.id());
    caller.put(kept);
    Status::Done.code()
}

/// Whether the channel is in blocking mode: Java's `isBlocking`. False where there is no such channel.
#[unsafe(no_mangle)]
pub extern "C" fn nio_is_blocking(
    alloc: Global,
    caller: &mut Handle,
    channel: Channel,
    blocking: &mut bool,
) -> u32
    ensures { Exports
        (Calls (λ l. OnChannel l (channel_id channel) false (Completes (is_blocking_plan (channel_id channel)))))
        done (λ answer. blocking.new ≡ answer) (blocking.new ≡ blocking.old)
        caller.old caller.new result }
{
    let Some(mut kept) = caller.take(alloc) else {
        return Status::EmptyHandle.code();
    };
    *blocking = kept.caller.is_blocking(channel.id());
    caller.put(kept);
    Status::Done.code()
}

/// Sets whether the channel is in blocking mode: Java's `configureBlocking`, without waiting.
#[unsafe(no_mangle)]
pub extern "C" fn nio_set_blocking(
    alloc: Global,
    caller: &mut Handle,
    channel: Channel,
    on: bool,
) -> u32
    ensures { Exports
        (Calls (λ l. OnChannel l (channel_id channel) (Err NoSuchChannel)
        (MayRefuse (Completes (try_set_blocking_plan l (channel_id channel) on)))))
        (status_of (call_refusal channel_refusal)) (λ answer. ⊤) ⊤
        caller.old caller.new result }
{
    let Some(mut kept) = caller.take(alloc) else {
        return Status::EmptyHandle.code();
    };
    let answer = kept.caller.try_set_blocking(channel.id(), on);
    caller.put(kept);
    done_or(answer).code()
}

/// Registers the channel with the selector: Java's `register`, without waiting.
#[unsafe(no_mangle)]
pub extern "C" fn nio_register(
    alloc: Global,
    caller: &mut Handle,
    selector: u32,
    channel: Channel,
    ops: u8,
    attachment: u64,
    key: &mut Key,
) -> u32
    ensures { Exports (Calls (λ l. OnSelector l (sel_no selector) (Err NoSuchSelector)
        (OnChannel l (channel_id channel) (Err NoSuchChannel)
        (MayRefuse (Completes (try_register_plan l (sel_no selector) (channel_id channel) ops attachment))))))
        (status_of (call_refusal channel_refusal))
        (λ answer. key.new ≡ result_unwrap_or (ok_seen key_of answer) key.old) (key.new ≡ key.old)
        caller.old caller.new result }
{
    let Some(mut kept) = caller.take(alloc) else {
        return Status::EmptyHandle.code();
    };
    let answer = kept
        .caller
        .try_register(SelNo(selector), channel.id(), Ops::of(ops), attachment);
    caller.put(kept);
    write_key(answer, key).code()
}

/// The channel's key in the selector, where it has one: Java's `keyFor`.
#[unsafe(no_mangle)]
pub extern "C" fn nio_key_for(
    alloc: Global,
    caller: &mut Handle,
    channel: Channel,
    selector: u32,
    key: &mut Key,
) -> u32
    ensures { Exports (Calls (λ l. OnSelector l (sel_no selector) None (OnChannel l (channel_id channel) None
        (Completes (key_for_plan (channel_id channel) (sel_no selector))))))
        (λ answer. status_found status.NoSuchKey (is_some answer))
        (λ answer. key.new ≡ unwrap_or (option_map key_of answer) key.old) (key.new ≡ key.old)
        caller.old caller.new result }
{
    let Some(mut kept) = caller.take(alloc) else {
        return Status::EmptyHandle.code();
    };
    let answer = kept.caller.key_for(channel.id(), SelNo(selector));
    caller.put(kept);
    write_found(answer, key).code()
}

/// Whether the channel is registered: Java's `isRegistered`. False where there is no such channel.
#[unsafe(no_mangle)]
pub extern "C" fn nio_is_registered(
    alloc: Global,
    caller: &mut Handle,
    channel: Channel,
    registered: &mut bool,
) -> u32
    ensures { Exports
        (Calls (λ l. OnChannel l (channel_id channel) false (Completes (is_registered_plan l (channel_id channel)))))
        done (λ answer. registered.new ≡ answer) (registered.new ≡ registered.old)
        caller.old caller.new result }
{
    let Some(mut kept) = caller.take(alloc) else {
        return Status::EmptyHandle.code();
    };
    *registered = kept.caller.is_registered(channel.id());
    caller.put(kept);
    Status::Done.code()
}

/// Closes the channel and cancels its keys: Java's `close`. Writes whether this call closed it.
#[unsafe(no_mangle)]
pub extern "C" fn nio_close_channel(
    alloc: Global,
    caller: &mut Handle,
    channel: Channel,
    closed: &mut bool,
) -> u32
    ensures { Exports
        (Calls (λ l. OnChannel l (channel_id channel) false (Completes (close_channel_plan l (channel_id channel)))))
        done (λ answer. closed.new ≡ answer) (closed.new ≡ closed.old)
        caller.old caller.new result }
{
    let Some(mut kept) = caller.take(alloc) else {
        return Status::EmptyHandle.code();
    };
    *closed = kept.caller.close_channel(channel.id());
    caller.put(kept);
    Status::Done.code()
}

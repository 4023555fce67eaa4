//! What calls answer, as statuses; and the answers, written for C.
ghost use Rattle.std.specs.Prelude.{◌≡◌, is_some, option_map, unwrap_or};
ghost use Rattle.std.specs.Result.{result_unwrap_or};
ghost use Rattle.nio_select.specs.Listed.{ok_seen};
ghost use Rattle.nio_c.specs.Selections.{changes_count, finish_status, told_selection, told_status};
ghost use Rattle.nio_c.specs.Statuses.{call_refusal, channel_refusal, key_refusal, spent_refusal, status_found};
ghost use Rattle.nio_c.specs.Statuses.{status_of};
ghost use Rattle.nio_c.specs.Values.{channel_of, key_of};
ghost use Rattle.nio_c.specs.declared.status.Status.TheVariants as status;

use crate::status::{Refusal, Status};
use crate::values::{Channel, Key, Selection};
use nio_base::{ChanId, KeyNo, Ops, SelNo};
use nio_caller::{CallError, NotClosing, NotSelecting};
use nio_steps::{ChannelError, KeyError, Selected, SelectorsSpent};

// The status of a call that answers nothing, or refuses.
pub(crate) fn done_or<E: Refusal>(answer: Result<(), E>) -> Status
    ensures { result ≡ status_of E.refusal answer }
{
    match answer {
        Ok(()) => Status::Done,
        Err(error) => error.status(),
    }
}

pub(crate) fn write_selector(answer: Result<SelNo, SelectorsSpent>, selector: &mut u32) -> Status
    ensures status { result ≡ status_of spent_refusal answer }
    ensures selector { selector.new ≡ result_unwrap_or (ok_seen (λ s. s.0) answer) selector.old }
{
    match answer {
        Ok(number) => {
            *selector = number.0;
            Status::Done
        }
        Err(error) => error.status(),
    }
}

pub(crate) fn write_channel<E: Refusal>(answer: Result<ChanId, E>, channel: &mut Channel) -> Status
    ensures status { result ≡ status_of E.refusal answer }
    ensures channel { channel.new ≡ result_unwrap_or (ok_seen channel_of answer) channel.old }
{
    match answer {
        Ok(id) => {
            *channel = Channel::of(id);
            Status::Done
        }
        Err(error) => error.status(),
    }
}

pub(crate) fn write_key(answer: Result<KeyNo, CallError<ChannelError>>, key: &mut Key) -> Status
    ensures status { result ≡ status_of (call_refusal channel_refusal) answer }
    ensures key { key.new ≡ result_unwrap_or (ok_seen key_of answer) key.old }
{
    match answer {
        Ok(number) => {
            *key = Key::of(number);
            Status::Done
        }
        Err(error) => error.status(),
    }
}

// Writes the key, where one was found.
pub(crate) fn write_found(answer: Option<KeyNo>, key: &mut Key) -> Status
    ensures status { result ≡ status_found status.NoSuchKey (is_some answer) }
    ensures key { key.new ≡ unwrap_or (option_map key_of answer) key.old }
{
    match answer {
        Some(number) => {
            *key = Key::of(number);
            Status::Done
        }
        None => Status::NoSuchKey,
    }
}

pub(crate) fn write_ops(answer: Result<Ops, CallError<KeyError>>, ops: &mut u8) -> Status
    ensures status { result ≡ status_of (call_refusal key_refusal) answer }
    ensures ops { ops.new ≡ result_unwrap_or answer ops.old }
{
    match answer {
        Ok(set) => {
            *ops = set.bits();
            Status::Done
        }
        Err(error) => error.status(),
    }
}

// Writes the answer of a selection that is over.
pub(crate) fn write_selected(
    answer: Option<Result<Option<Selected>, NotSelecting>>,
    selected: &mut Selection,
) -> Status
    ensures status { result ≡ told_status answer }
    ensures selected { selected.new ≡ told_selection answer selected.old }
{
    match answer {
        Some(Ok(Some(over))) => {
            *selected = Selection::of(over);
            Status::Done
        }
        Some(Ok(None)) => Status::Again,
        Some(Err(error)) => error.status(),
        None => Status::NoMemory,
    }
}

// Writes how many changes there were, where a selection was told.
pub(crate) fn write_count(
    answer: &Option<Result<Option<Selected>, NotSelecting>>,
    count: usize,
    changed: &mut usize,
)
    ensures { changed.new ≡ changes_count answer.now count changed.old }
{
    if let Some(Ok(_)) = answer {
        *changed = count;
    }
}

// Writes what the call said, where there is such a selector.
pub(crate) fn write_said(answer: Option<bool>, said: &mut bool) -> Status
    ensures status { result ≡ status_found status.NoSuchSelector (is_some answer) }
    ensures said { said.new ≡ unwrap_or answer said.old }
{
    match answer {
        Some(is_so) => {
            *said = is_so;
            Status::Done
        }
        None => Status::NoSuchSelector,
    }
}

// The status of a try to finish a closing.
pub(crate) fn finished(answer: Result<bool, NotClosing>) -> Status
    ensures { result ≡ finish_status answer }
{
    match answer {
        Ok(true) => Status::Done,
        Ok(false) => Status::Busy,
        Err(_error) => Status::NotClosing,
    }
}

//! Writing a call.
ghost use Rattle.std.specs.Prelude.{◌≡◌, ◌++◌, OnOk};
ghost use Rattle.nio_language.specs.Arguments.{argument_words};
ghost use Rattle.nio_language.specs.CallWords.{arguments};
ghost use Rattle.nio_language.specs.Calls.{call_words, line_text};
ghost use Rattle.nio_language.specs.Printing.{spaced};

use super::arguments::{
    push_channel_bytes, push_channel_count, push_channel_selector, push_key_number, push_key_ops,
    push_kind, push_mode, push_registration, push_selector_key, push_told, push_wait,
};
use super::group::push_group_arguments;
use super::piece::{push_channel_word, push_name, push_numbered, push_word};
use crate::call::Call;
use crate::call_word::CallWord;
use nio_base::CallerNo;
use std::alloc::AllocError;

/// A caller and its call.
pub fn push_line_text(line: &mut Vec<u8>, caller: CallerNo, call: &Call) -> Result<(), AllocError>
    ensures { OnOk result (line.new.items ≡ line.old.items ++ line_text caller call.now) }
{
    push_numbered(line, b't', caller.0)?;
    push_call(line, call)
}

/// The call's word and its arguments, each after a space.
fn push_call(line: &mut Vec<u8>, call: &Call) -> Result<(), AllocError>
    ensures { OnOk result (line.new.items ≡ line.old.items ++ spaced (call_words call.now)) }
{
    push_word(line, CallWord::of(call).text())?;
    push_arguments(line, call)
}

fn push_arguments(line: &mut Vec<u8>, call: &Call) -> Result<(), AllocError>
    ensures { OnOk result (line.new.items ≡ line.old.items ++ spaced (argument_words (arguments call.now))) }
{
    match call {
        Call::Selector | Call::Interrupted => Ok(()),
        Call::Interrupt(caller) | Call::Pipe(caller) => push_name(line, b't', caller.0),
        Call::Failed(selector)
        | Call::Wakeup(selector)
        | Call::Close(selector)
        | Call::CloseEnd(selector)
        | Call::Keys(selector)
        | Call::Selected(selector) => push_name(line, b's', selector.0),
        Call::IsBlocking(channel)
        | Call::IsOpen(channel)
        | Call::IsRegistered(channel)
        | Call::Closec(channel) => push_channel_word(line, *channel),
        Call::Channel(kind) => push_kind(line, *kind),
        Call::Blocking(channel, on) => push_mode(line, *channel, *on),
        Call::KeyFor(channel, selector) => push_channel_selector(line, *channel, *selector),
        Call::Register(selector, channel, ops, attachment) => {
            push_registration(line, *selector, *channel, *ops, *attachment)
        }
        Call::Valid(selector, key)
        | Call::Interest(selector, key)
        | Call::Ready(selector, key)
        | Call::Cancel(selector, key)
        | Call::Unselect(selector, key)
        | Call::Attachment(selector, key) => push_selector_key(line, *selector, *key),
        Call::Iset(selector, key, ops)
        | Call::Ior(selector, key, ops)
        | Call::Iand(selector, key, ops) => push_key_ops(line, *selector, *key, *ops),
        Call::Attach(selector, key, attachment) => {
            push_key_number(line, *selector, *key, *attachment)
        }
        Call::Begin(selector, waiting) => push_wait(line, *selector, *waiting),
        Call::Pwrite(channel, bytes) => push_channel_bytes(line, *channel, bytes.as_slice()),
        Call::Pread(channel, count) => push_channel_count(line, *channel, *count),
        Call::Group(call) => push_group_arguments(line, *call),
        Call::Told(selector, elapsed, pairs) => {
            push_told(line, *selector, *elapsed, pairs.as_slice())
        }
    }
}

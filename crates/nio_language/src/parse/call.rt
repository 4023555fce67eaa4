//! Reading a call: its word, and then its arguments by their shape.
ghost use Rattle.std.specs.Prelude.{IfOk, map};
ghost use Rattle.nio_language.specs.Calls.{IsCall, call_words};
ghost use Rattle.nio_language.specs.Lines.{ReadsCall};
ghost use Rattle.nio_language.specs.Reading.{Reads};

use super::arguments::{
    read_channel_count, read_channel_selector, read_key_number, read_key_ops, read_kind, read_mode,
    read_none, read_one_caller, read_one_channel, read_one_selector, read_registration,
    read_selector_key,
};
use super::bytes::read_channel_bytes;
use super::group::read_group_call;
use super::told::read_told;
use super::waiting::read_wait;
use crate::call::Call;
use crate::call_word::CallWord;
use std::alloc::{AllocError, Global};

/// The call that these words are.
pub fn read_call(alloc: Global, words: &[&[u8]]) -> Result<Option<Call>, AllocError>
    ensures { IfOk result (Reads IsCall call_words (map (λ w. w.now) words.now)) }
{
    let Some((word, args)) = words.split_first() else {
        return Ok(None);
    };
    match CallWord::read(word) {
        Some(word) => read_arguments(alloc, word, args),
        None => Ok(None),
    }
}

/// The call with this word whose arguments these words are.
fn read_arguments(alloc: Global, word: CallWord, args: &[&[u8]]) -> Result<Option<Call>, AllocError>
    ensures { IfOk result (ReadsCall word (map (λ w. w.now) args.now)) }
{
    match word {
        CallWord::Alone(word) => Ok(read_none(args).map(|()| word.call())),
        CallWord::OnCaller(word) => Ok(read_one_caller(args).map(|t| word.call(t))),
        CallWord::OnSelector(word) => Ok(read_one_selector(args).map(|s| word.call(s))),
        CallWord::OnChannel(word) => Ok(read_one_channel(args).map(|c| word.call(c))),
        CallWord::OnKey(word) => Ok(read_selector_key(args).map(|(s, k)| word.call(s, k))),
        CallWord::OnKeyOps(word) => Ok(read_key_ops(args).map(|(s, k, ops)| word.call(s, k, ops))),
        CallWord::Channel => Ok(read_kind(args).map(Call::Channel)),
        CallWord::Blocking => Ok(read_mode(args).map(|(c, on)| Call::Blocking(c, on))),
        CallWord::KeyFor => Ok(read_channel_selector(args).map(|(c, s)| Call::KeyFor(c, s))),
        CallWord::Register => Ok(read_registration(args).map(|(s, c, ops, att)| Call::Register(
            s, c, ops, att,
        ))),
        CallWord::Attach => Ok(read_key_number(args).map(|(s, k, n)| Call::Attach(s, k, n))),
        CallWord::Begin => Ok(read_wait(args).map(|(s, waiting)| Call::Begin(s, waiting))),
        CallWord::Told => Ok(read_told(alloc, args)?.map(|(s, elapsed, pairs)| Call::Told(
            s, elapsed, pairs,
        ))),
        CallWord::Pwrite => {
            Ok(read_channel_bytes(alloc, args)?.map(|(c, bytes)| Call::Pwrite(c, bytes)))
        }
        CallWord::Pread => Ok(read_channel_count(args).map(|(c, n)| Call::Pread(c, n))),
        CallWord::OnGroup(word) => Ok(read_group_call(word, args).map(Call::Group)),
    }
}

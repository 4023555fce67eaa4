//! Reading the lines that scripts don't have: `start-timed`, `expire` and `next`.
ghost use Rattle.std.specs.Prelude.{◌≡◌, ◌↔◌, IsTrue, map};
ghost use Rattle.nio_language.specs.Reading.{Reads};
ghost use Rattle.nio_timed.specs.Lines.{IsTimedStart, start_words, timed_line_words, timed_words};
ghost use Rattle.nio_timed.specs.Reading.{IsOwnCall, IsOwnLine};

use crate::call::{TimedCall, TimedLine, TimedStart};
use nio_language::{read_caller, read_group_channel, read_number, read_operation_kind};

/// The line that these words are.
pub(crate) fn read_words(words: &[&[u8]]) -> Option<TimedLine>
    ensures { Reads IsOwnLine timed_line_words (map (λ w. w.now) words.now) result }
{
    let (caller, call) = words.split_first()?;
    let caller = read_caller(caller)?;
    let call = read_call(call)?;
    Some(TimedLine { caller, call })
}

fn read_call(words: &[&[u8]]) -> Option<TimedCall>
    ensures { Reads IsOwnCall timed_words (map (λ w. w.now) words.now) result }
{
    match words {
        [word] if is_word(word, b"next") => Some(TimedCall::Next),
        [word, now] if is_word(word, b"expire") => {
            read_number(now, u64::MAX).map(TimedCall::Expire)
        }
        [word, args @ ..] if is_word(word, b"start-timed") => {
            read_start(args).map(TimedCall::StartTimed)
        }
        _ => None,
    }
}

fn is_word(word: &[u8], wanted: &[u8]) -> bool
    ensures { IsTrue result ↔ (word.now ≡ wanted.now) }
{
    word == wanted
}

/// A channel, what is to be done, a number of bytes, a moment and a limit.
fn read_start(args: &[&[u8]]) -> Option<TimedStart>
    ensures { Reads IsTimedStart start_words (map (λ w. w.now) args.now) result }
{
    let [chan, kind, len, now, limit] = args else {
        return None;
    };
    let chan = read_group_channel(chan)?;
    let kind = read_operation_kind(kind)?;
    let len = read_number(len, u64::from(u32::MAX))?;
    let now = read_number(now, u64::MAX)?;
    let limit = read_number(limit, u64::MAX)?;
    Some(TimedStart {
        chan,
        kind,
        len,
        now,
        limit,
    })
}

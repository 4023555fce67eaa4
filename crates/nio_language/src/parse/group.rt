//! Reading a call on the group: its arguments, by its word.
ghost use Rattle.std.specs.Prelude.{◌∷◌, [], map, ⊤};
ghost use Rattle.std.specs.Fmt.{decimal};
ghost use Rattle.nio_language.specs.GroupCalls.{IsOutcome, ReadsGroupCall};
ghost use Rattle.nio_language.specs.GroupWords.{group_channel_word, group_kind_word, operation_kind_word};
ghost use Rattle.nio_language.specs.GroupWords.{operation_word, outcome_words};
ghost use Rattle.nio_language.specs.GroupWords.{IsGroupName};
ghost use Rattle.nio_language.specs.Reading.{Reads};
ghost use Rattle.nio_language.specs.Words.{IsNumber};

use super::arguments::read_none;
use super::name::{read_group_channel, read_operation};
use super::number::read_number;
use super::waiting::is_word;
use crate::group_call::GroupCall;
use crate::group_word::GroupWord;
use nio_base::{GChan, GKind, OpKind, OpNo, Outcome};

/// The call on the group with this word whose arguments these words are.
pub fn read_group_call(word: GroupWord, args: &[&[u8]]) -> Option<GroupCall>
    ensures { ReadsGroupCall word (map (λ w. w.now) args.now) result }
{
    match word {
        GroupWord::Gopen => read_kind(args).map(GroupCall::Gopen),
        GroupWord::Gbind => read_channel(args).map(GroupCall::Gbind),
        GroupWord::Start => read_start(args).map(|(g, kind, len)| GroupCall::Start(g, kind, len)),
        GroupWord::Report => read_report(args).map(|(n, outcome)| GroupCall::Report(n, outcome)),
        GroupWord::Take => read_none(args).map(|()| GroupCall::Take),
        GroupWord::Done => read_done(args).map(GroupCall::Done),
        GroupWord::Gclose => read_channel(args).map(GroupCall::Gclose),
        GroupWord::Shutdown => read_none(args).map(|()| GroupCall::Shutdown),
        GroupWord::ShutdownNow => read_none(args).map(|()| GroupCall::ShutdownNow),
        GroupWord::IsShutdown => read_none(args).map(|()| GroupCall::IsShutdown),
        GroupWord::Terminated => read_none(args).map(|()| GroupCall::Terminated),
    }
}

fn read_kind(args: &[&[u8]]) -> Option<GKind>
    ensures { Reads (λ _. ⊤) (λ kind. group_kind_word kind ∷ []) (map (λ w. w.now) args.now) result }
{
    let [kind] = args else {
        return None;
    };
    read_kind_word(kind)
}

fn read_kind_word(word: &[u8]) -> Option<GKind>
    ensures { Reads (λ _. ⊤) group_kind_word word.now result }
{
    match word {
        b"stream" => Some(GKind::Stream),
        b"listener" => Some(GKind::Listener),
        _ => None,
    }
}

fn read_channel(args: &[&[u8]]) -> Option<GChan>
    ensures { Reads IsGroupName (λ g. group_channel_word g ∷ []) (map (λ w. w.now) args.now) result }
{
    let [channel] = args else {
        return None;
    };
    read_group_channel(channel)
}

fn read_done(args: &[&[u8]]) -> Option<OpNo>
    ensures { Reads (λ n. IsNumber n.0) (λ n. operation_word n ∷ []) (map (λ w. w.now) args.now) result }
{
    let [operation] = args else {
        return None;
    };
    read_operation(operation)
}

/// A channel, what is to be done, and a number of bytes.
fn read_start(args: &[&[u8]]) -> Option<(GChan, OpKind, u64)>
    ensures { Reads (λ p. IsGroupName p.0 × IsNumber p.2)
        (λ p. group_channel_word p.0 ∷ operation_kind_word p.1 ∷ decimal p.2 ∷ []) (map (λ w. w.now) args.now) result }
{
    let [channel, kind, len] = args else {
        return None;
    };
    let channel = read_group_channel(channel)?;
    let kind = read_operation_kind(kind)?;
    let len = read_number(len, u64::from(u32::MAX))?;
    Some((channel, kind, len))
}

/// What an operation is to do.
pub fn read_operation_kind(word: &[u8]) -> Option<OpKind>
    ensures { Reads (λ _. ⊤) operation_kind_word word.now result }
{
    match word {
        b"accept" => Some(OpKind::Accept),
        b"connect" => Some(OpKind::Connect),
        b"read" => Some(OpKind::Read),
        b"write" => Some(OpKind::Write),
        _ => None,
    }
}

/// An operation, and what came of it.
fn read_report(args: &[&[u8]]) -> Option<(OpNo, Outcome)>
    ensures { Reads (λ p. IsNumber p.0.0 × IsOutcome p.1) (λ p. operation_word p.0 ∷ outcome_words p.1)
        (map (λ w. w.now) args.now) result }
{
    let [operation, outcome @ ..] = args else {
        return None;
    };
    let operation = read_operation(operation)?;
    let outcome = read_outcome(outcome)?;
    Some((operation, outcome))
}

fn read_outcome(args: &[&[u8]]) -> Option<Outcome>
    ensures { Reads IsOutcome outcome_words (map (λ w. w.now) args.now) result }
{
    match args {
        [word] if is_word(word, b"end") => Some(Outcome::End),
        [word] if is_word(word, b"connected") => Some(Outcome::Connected),
        [word] if is_word(word, b"accepted") => Some(Outcome::Accepted),
        [word] if is_word(word, b"fault") => Some(Outcome::Fault),
        [word, count] if is_word(word, b"count") => {
            read_number(count, u64::from(u32::MAX)).map(Outcome::Count)
        }
        _ => None,
    }
}

//! A whole text, read as a history by one of the rules.
ghost use Rattle.std.specs.Prelude.{◌≡◌, ◌≢◌, ◌++◌, ◌+◌, ◌∷◌, ◌↔◌, [], ℕ, List, All, codes, map, option_map};
ghost use Rattle.std.specs.Prelude.{option_copied, vec_len, IfOk, IfSome, IsSomeAnd, IsTrue, OnOk, MatchResult};
ghost use Rattle.std.specs.Fmt.{decimal};
ghost use Rattle.nio_language.specs.Calls.{IsLine};
ghost use Rattle.nio_script.specs.Entries.{Finds, Adds, IsNoEntry};
ghost use Rattle.nio_script.specs.History.{Entry, IsCallOf, IsEntry, AreEntries, IsHistory, IsFirstBadEntry};
ghost use Rattle.nio_script.specs.HistoryCall.{entry_of};

use crate::script::{ScriptError, lines_of};
use nio_language::{
    Call, ParseError, Parsed, ScriptCall, cut_at, is_blank, parse_line, read_number,
};
use nio_plain::Rules;
use std::alloc::{AllocError, AllocFailed, Global};

/// A line of a history: a call, and the text of the reply that the history says it had.
#[derive(Debug, Drop)]
pub struct HistoryCall<'a> {
    /// The call, and who made it.
    pub line: ScriptCall,
    /// The reply as it was written.
    pub reply: &'a [u8],
}

impl From<AllocFailed<HistoryCall<'_>>> for ScriptError {
    ghost use Rattle.nio_script.specs.declared.script.ScriptError.TheVariants.{Memory};

    ghost from_gives = { λ _ e. e ≡ Memory };

    fn from(_e: AllocFailed<HistoryCall<'_>>) -> ScriptError {
        ScriptError::Memory
    }
}

/// What stands before and after the first arrow, where nothing before it has a `>`.
fn cut_at_arrow(text: &[u8]) -> Option<(&[u8], &[u8])>
    ensures found { IfSome result (λ p. text.now ≡ p.0.now ++ codes " -> " ++ p.1.now) }
    ensures only { (before after : List ℕ) → All (λ b. b ≢ 62) before
        → text.now ≡ before ++ codes " -> " ++ after
        → IsSomeAnd result (λ p. (p.0.now ≡ before) × (p.1.now ≡ after)) }
{
    let (before, after) = cut_at(text, b'>')?;
    let call = before.strip_suffix(b" -")?;
    let reply = after.strip_prefix(b" ")?;
    Some((call, reply))
}

/// What stands behind this number and a space.
fn behind_number(text: &[u8], number: u64) -> Option<&[u8]>
    ensures { Finds (λ rest. text.now ≡ decimal number ++ codes " " ++ rest) (option_copied result) }
{
    let (word, rest) = cut_at(text, b' ')?;
    if read_number(word, u64::MAX)? == number {
        Some(rest)
    } else {
        None
    }
}

/// The call that a text is.
fn read_call(alloc: Global, text: &[u8]) -> Result<Option<ScriptCall>, AllocError>
    ensures { IfOk result (Finds (λ line. IsLine line.caller line.call text.now)) }
{
    match parse_line(alloc, text) {
        Ok(Parsed::Line { caller, call }) => Ok(Some(ScriptCall { caller, call })),
        Ok(Parsed::Blank) => Ok(None),
        Err(ParseError::Malformed) => Ok(None),
        Err(ParseError::Memory) => Err(AllocError),
    }
}

/// Whether the call is in the grammar of these rules.
fn is_call_of(rules: Rules, call: &Call) -> bool
    ensures { IsTrue result ↔ IsCallOf rules call.now }
{
    match rules {
        Rules::First => !call.is_later(),
        Rules::Now => true,
    }
}

/// The call and the reply of the line with this number, as texts.
fn split_entry(line: &[u8], number: u64) -> Option<(&[u8], &[u8])>
    ensures found { IfSome result (λ p. line.now
        ≡ decimal number ++ codes " " ++ p.0.now ++ codes " -> " ++ p.1.now) }
    ensures only { (call reply : List ℕ) → All (λ b. b ≢ 62) call
        → line.now ≡ decimal number ++ codes " " ++ call ++ codes " -> " ++ reply
        → IsSomeAnd result (λ p. (p.0.now ≡ call) × (p.1.now ≡ reply)) }
{
    cut_at_arrow(behind_number(line, number)?)
}

/// The entry with this number that a line is.
fn read_entry<'a>(
    alloc: Global,
    line: &'a [u8],
    number: u64,
    rules: Rules,
) -> Result<Option<HistoryCall<'a>>, AllocError>
    ensures { IfOk result (λ read.
        Finds (λ e. IsEntry rules number e line.now) (option_map entry_of read)) }
{
    let Some((call, reply)) = split_entry(line, number) else {
        return Ok(None);
    };
    let Some(line) = read_call(alloc, call)? else {
        return Ok(None);
    };
    if is_call_of(rules, &line.call) {
        Ok(Some(HistoryCall { line, reply }))
    } else {
        Ok(None)
    }
}

/// Reads one line, and adds its entry to those before.
fn read_history_line<'a>(
    alloc: Global,
    line: &'a [u8],
    number: u64,
    rules: Rules,
    calls: &mut Vec<HistoryCall<'a>>,
) -> Result<(), ScriptError>
    ensures read { OnOk result
        (Adds (AreEntries rules (vec_len calls.old + 1) (line.now ∷ []))
        (map entry_of calls.old.items) (map entry_of calls.new.items)) }
    ensures bad { (n : ℕ) → result ≡ Err (ScriptError.BadLine n)
        → (n ≡ number) × IsNoEntry rules (vec_len calls.old + 1) line.now }
{
    if is_blank(line) {
        return Ok(());
    }
    let Some(call) = read_entry(alloc, line, calls.len() as u64 + 1, rules)? else {
        return Err(ScriptError::BadLine { line: number });
    };
    calls.push(call)?;
    Ok(())
}

/// The calls of a history by these rules, with their replies.
pub fn parse_history<'a>(
    alloc: Global,
    text: &'a [u8],
    rules: Rules,
) -> Result<Vec<HistoryCall<'a>>, ScriptError>
    ensures ok { IfOk result (λ calls. IsHistory rules text.now (map entry_of calls.items)) }

    // Whatever entries the text is a history of, these are the result.
    ensures only { (entries : List Entry) → IsHistory rules text.now entries →
        MatchResult result (λ read. map entry_of read.items ≡ entries)
        (λ e. e ≡ ScriptError.Memory) }
    ensures bad { (line : ℕ) → result ≡ Err (ScriptError.BadLine line)
        → IsFirstBadEntry rules text.now line }
{
    let lines = lines_of(alloc, text)?;
    let mut calls = Vec::new(alloc);
    let mut number = 0;
    for line in &lines {
        number += 1;
        read_history_line(alloc, line, number, rules, &mut calls)?;
    }
    Ok(calls)
}

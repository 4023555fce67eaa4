//! A whole text, read as a script.
ghost use Rattle.std.specs.Prelude.{◌≡◌, ◌<◌, ◌^◌, ◌∷◌, [], ℕ, List, length, map, IfOk, OnOk, MatchResult};
ghost use Rattle.nio_language.specs.Script.{lines_of, AreCalls, IsScript, IsFirstBad};
ghost use Rattle.nio_language.specs.declared.call.ScriptCall.{ScriptCall};
ghost use Rattle.nio_script.specs.Entries.{Adds, IsNoLine, StopsAt};

use nio_language::{ParseError, Parsed, ScriptCall, parse_line};
use std::alloc::{AllocError, AllocFailed, Global};

/// Why a text isn't read as a script.
#[derive(Clone, Copy, Debug, PartialEq, Eq)]
pub enum ScriptError {
    /// This line is the first that isn't in the grammar, counted from 1 over all lines.
    BadLine { line: u64 },
    /// There is no memory for the calls.
    Memory,
}

impl From<AllocError> for ScriptError {
    ghost use Rattle.nio_script.specs.declared.script.ScriptError.TheVariants.{Memory};

    ghost from_gives = { λ _ e. e ≡ Memory };

    fn from(_e: AllocError) -> ScriptError {
        ScriptError::Memory
    }
}

impl From<AllocFailed<ScriptCall>> for ScriptError {
    ghost use Rattle.nio_script.specs.declared.script.ScriptError.TheVariants.{Memory};

    ghost from_gives = { λ _ e. e ≡ Memory };

    fn from(_e: AllocFailed<ScriptCall>) -> ScriptError {
        ScriptError::Memory
    }
}

/// The lines of a text.
pub fn lines_of(alloc: Global, text: &[u8]) -> Result<Vec<&[u8]>, AllocError>
    ensures { IfOk result (λ lines. map (λ line. line.now) lines.items ≡ lines_of text.entry.now) }
{
    text.split(|byte| *byte == b'\n').collect(alloc)
}

/// Reads one line, and adds its call to those before.
fn read_line(
    alloc: Global,
    line: &[u8],
    number: u64,
    calls: &mut Vec<ScriptCall>,
) -> Result<(), ScriptError>
    ensures read { OnOk result (Adds (AreCalls (line.now ∷ [])) calls.old.items calls.new.items) }
    ensures bad { (n : ℕ) → result ≡ Err (ScriptError.BadLine n)
        → (n ≡ number) × IsNoLine AreCalls line.now }
{
    match parse_line(alloc, line) {
        Ok(Parsed::Blank) => Ok(()),
        Ok(Parsed::Line { caller, call }) => {
            calls.push(ScriptCall { caller, call })?;
            Ok(())
        }
        Err(ParseError::Malformed) => Err(ScriptError::BadLine { line: number }),
        Err(ParseError::Memory) => Err(ScriptError::Memory),
    }
}

/// The calls of lines. Blank lines may stand among them.
pub fn read_calls(alloc: Global, lines: &[&[u8]]) -> Result<Vec<ScriptCall>, ScriptError>
    requires { length lines.now < 2 ^ 64 }
    ensures ok { IfOk result (λ calls. AreCalls (map (λ line. line.now) lines.now) calls.items) }
    ensures bad { (n : ℕ) → result ≡ Err (ScriptError.BadLine n)
        → StopsAt AreCalls 0 (map (λ line. line.now) lines.now) n }
{
    let mut calls = Vec::new(alloc);
    let mut number = 0;
    for line in lines {
        number += 1;
        read_line(alloc, line, number, &mut calls)?;
    }
    Ok(calls)
}

/// The calls of a script.
pub fn parse_script(alloc: Global, text: &[u8]) -> Result<Vec<ScriptCall>, ScriptError>
    ensures ok { IfOk result (λ calls. IsScript text.now calls.items) }

    // Whatever calls the text is a script of, these are the result.
    ensures only { (calls : List ScriptCall) → IsScript text.now calls →
        MatchResult result (λ read. read.items ≡ calls) (λ e. e ≡ ScriptError.Memory) }
    ensures bad { (line : ℕ) → result ≡ Err (ScriptError.BadLine line) → IsFirstBad text.now line }
{
    let lines = lines_of(alloc, text)?;
    read_calls(alloc, &lines)
}

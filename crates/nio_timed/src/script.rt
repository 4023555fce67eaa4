//! A whole text, read as a timed script.
ghost use Rattle.std.specs.Prelude.{◌≡◌, ◌∷◌, ◌++◌, [], ℕ, IfOk, OnOk};
ghost use Rattle.nio_script.specs.Entries.{Adds};
ghost use Rattle.nio_timed.specs.Lines.{AreTimedLines, IsFirstBadTimed, IsInTimedGrammar, IsTimedScript};

use crate::call::TimedLine;
use crate::line::read_timed_line;
use nio_language::is_blank;
use nio_script::{ScriptError, lines_of};
use std::alloc::{AllocError, Global};

/// The calls of a timed script.
pub fn parse_timed(alloc: Global, text: &[u8]) -> Result<Vec<TimedLine>, ScriptError>
    ensures ok { IfOk result (λ calls. IsTimedScript text.now calls.items) }
    ensures bad { (line : ℕ) → result ≡ Err (ScriptError.BadLine line) → IsFirstBadTimed text.now line }
{
    let lines = lines_of(alloc, text)?;
    let mut calls = Vec::new(alloc);
    let mut number = 0;
    for line in &lines {
        number += 1;
        read_line(alloc, line, number, &mut calls)?;
    }
    Ok(calls)
}

// Reads one line, and adds its call to those before.
fn read_line(
    alloc: Global,
    line: &[u8],
    number: u64,
    calls: &mut Vec<TimedLine>,
) -> Result<(), ScriptError>
    ensures read { OnOk result (Adds (AreTimedLines (line.now ∷ [])) calls.old.items calls.new.items) }
    ensures bad { (n : ℕ) → result ≡ Err (ScriptError.BadLine n) → (n ≡ number) × (IsInTimedGrammar line.now → ⊥) }
{
    if is_blank(line) {
        return Ok(());
    }
    match read_timed_line(alloc, line)? {
        Some(line) => Ok(push_line(calls, line)?),
        None => Err(ScriptError::BadLine { line: number }),
    }
}

fn push_line(calls: &mut Vec<TimedLine>, line: TimedLine) -> Result<(), AllocError>
    ensures { OnOk result (calls.new.items ≡ calls.old.items ++ line ∷ []) }
{
    calls.push(line)?;
    Ok(())
}

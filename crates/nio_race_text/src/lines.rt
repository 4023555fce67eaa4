//! The lines of a race text: where `go` cuts them, and the calls behind it.
ghost use Rattle.std.specs.Prelude.{◌≡◌, ◌+◌, ◌<◌, ◌^◌, ◌∷◌, ◌++◌, ◌↔◌, [], ℕ, IsTrue, map, length, IfOk, OnOk};
ghost use Rattle.std.specs.Prelude.{MatchOption};
ghost use Rattle.nio_script.specs.Entries.{Adds, IsNoLine, StopsAt};
ghost use Rattle.nio_race_text.specs.RaceLines.{AreRaceLines};
ghost use Rattle.nio_race_text.specs.RaceText.{go_line};
ghost use Rattle.nio_race_text.specs.Reading.{AreGoless, IsCutAtGo};

use crate::call::RaceLine;
use crate::line::read_race_call;
use nio_language::is_blank;
use nio_script::ScriptError;
use std::alloc::{AllocError, Global};

/// The lines before and behind the first `go`.
pub fn cut_at_go<'a, 'b>(lines: &'b [&'a [u8]]) -> Option<(&'b [&'a [u8]], &'b [&'a [u8]])>
    ensures { let texts = map (λ line. line.now) in
        MatchOption result (AreGoless (texts lines.now))
        (λ parts. IsCutAtGo (texts lines.now) (texts parts.0.now) (texts parts.1.now)) }
{
    let place = lines.iter().position(|line| is_go(line))?;
    Some((&lines[..place], &lines[place + 1..]))
}

fn is_go(line: &[u8]) -> bool
    ensures { IsTrue result ↔ (line.now ≡ go_line) }
{
    line == b"go".as_slice()
}

/// The calls of the race, before whose lines so many others stand.
pub fn read_race(alloc: Global, lines: &[&[u8]], skipped: u64) -> Result<Vec<RaceLine>, ScriptError>
    requires { skipped + length lines.now < 2 ^ 64 }
    ensures ok { IfOk result (λ race. AreRaceLines (map (λ line. line.now) lines.now) race.items) }
    ensures bad { (n : ℕ) → result ≡ Err (ScriptError.BadLine n)
        → StopsAt AreRaceLines skipped (map (λ line. line.now) lines.now) n }
{
    let mut race = Vec::new(alloc);
    let mut number = skipped;
    for line in lines {
        number += 1;
        read_race_line(alloc, line, number, &mut race)?;
    }
    Ok(race)
}

// Reads one line of the race, and adds its call to those before.
fn read_race_line(
    alloc: Global,
    line: &[u8],
    number: u64,
    race: &mut Vec<RaceLine>,
) -> Result<(), ScriptError>
    ensures read { OnOk result (Adds (AreRaceLines (line.now ∷ [])) race.old.items race.new.items) }
    ensures bad { (n : ℕ) → result ≡ Err (ScriptError.BadLine n)
        → (n ≡ number) × IsNoLine AreRaceLines line.now }
{
    if is_blank(line) {
        return Ok(());
    }
    match read_race_call(alloc, line)? {
        Some(line) => Ok(push_line(race, line)?),
        None => Err(ScriptError::BadLine { line: number }),
    }
}

fn push_line(race: &mut Vec<RaceLine>, line: RaceLine) -> Result<(), AllocError>
    ensures { OnOk result (race.new.items ≡ race.old.items ++ line ∷ []) }
{
    race.push(line)?;
    Ok(())
}

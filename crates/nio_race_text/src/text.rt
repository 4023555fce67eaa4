//! A whole text, read as a race text.
ghost use Rattle.std.specs.Prelude.{◌≡◌, ◌⊎◌, ◌<◌, ◌^◌, ℕ, List, map, length, IfOk, MatchResult};
ghost use Rattle.nio_language.specs.Script.{lines_of};
ghost use Rattle.nio_language.specs.declared.call.ScriptCall.{ScriptCall};
ghost use Rattle.nio_race_text.specs.RaceText.{AreRaceText, IsFirstBadRace, IsRaceText};
ghost use Rattle.nio_race_text.specs.declared.call.RaceLine.{RaceLine};

use crate::call::RaceLine;
use crate::lines::{cut_at_go, read_race};
use nio_language::ScriptCall;
use nio_script::{ScriptError, lines_of, read_calls};
use std::alloc::Global;
use std::marker::Model;

/// The calls of a race text. Contracts see the two lists.
#[derive(Drop)]
pub struct RaceText {
    setup: Vec<ScriptCall>,
    race: Vec<RaceLine>,
}

impl Model for RaceText {
    ghost use Rattle.nio_race_text.specs.RaceText.{RaceCalls};

    ghost Value = { RaceCalls };

    ghost view = { λ text. record { setup = text.setup.items; race = text.race.items } };
}

impl RaceText {
    /// The calls before `go`, which are made one after the other.
    pub fn setup(&self) -> &[ScriptCall]
        ensures { result.now ≡ self.now.setup }
    {
        &self.setup
    }

    /// The calls behind `go` in the order of their lines. Each caller makes its own in its thread.
    pub fn race(&self) -> &[RaceLine]
        ensures { result.now ≡ self.now.race }
    {
        &self.race
    }
}

/// The calls of a race text. A bad line is counted from 1 over all lines, `go` among them.
pub fn parse_race(alloc: Global, text: &[u8]) -> Result<RaceText, ScriptError>
    ensures ok { IfOk result (λ calls. IsRaceText text.now calls.setup calls.race) }

    // Whatever calls the text is a race text of, these are the result.
    ensures only { (setup : List ScriptCall) (race : List RaceLine) → IsRaceText text.now setup race →
        MatchResult result (λ calls. (calls.setup ≡ setup) × (calls.race ≡ race))
        (λ e. e ≡ ScriptError.Memory) }
    ensures bad { (line : ℕ) → result ≡ Err (ScriptError.BadLine line) → IsFirstBadRace text.now line }

    // Whichever line is the first bad one, the error names it.
    ensures only_bad { (line : ℕ) → IsFirstBadRace text.now line →
        (result ≡ Err (ScriptError.BadLine line)) ⊎ (result ≡ Err ScriptError.Memory) }
{
    let lines = lines_of(alloc, text)?;
    read_parts(alloc, &lines)
}

// The calls of the lines before and behind `go`.
fn read_parts(alloc: Global, lines: &[&[u8]]) -> Result<RaceText, ScriptError>
    requires { length lines.now < 2 ^ 64 }
    ensures ok { IfOk result (λ calls.
        AreRaceText (map (λ line. line.now) lines.now) calls.setup calls.race) }
    ensures bad { (text : List ℕ) (n : ℕ) → lines_of text ≡ map (λ line. line.now) lines.now
        → result ≡ Err (ScriptError.BadLine n) → IsFirstBadRace text n }
{
    let Some((front, back)) = cut_at_go(lines) else {
        let setup = read_calls(alloc, lines)?;
        return Ok(RaceText {
            setup,
            race: Vec::new(alloc),
        });
    };
    let setup = read_calls(alloc, front)?;
    let race = read_race(alloc, back, front.len() as u64 + 1)?;
    Ok(RaceText { setup, race })
}

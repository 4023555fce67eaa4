//! The lines before `go`, one after the other.
ghost use Rattle.std.specs.Prelude.{◌≡◌, ◌++◌, [], IfOk};
ghost use Rattle.nio_plain.specs.Answer.{answer_to};
ghost use Rattle.nio_plain.specs.declared.rules.Rules.TheVariants.{Now};
ghost use Rattle.nio_plain.specs.ScriptState.{script_opening};
ghost use Rattle.nio_sole.specs.Said.{state_at};
ghost use Rattle.nio_sole.specs.Stands.{Stands, progress_of};
ghost use Rattle.nio_words.specs.Passes.{IsFirstPass, IsPassOf, limits_of};
ghost use Rattle.nio_race.specs.Setup.{HasSetUp, KeepsSetup, SaysAndWrites};

use nio_language::{ScriptCall, print_line};
use nio_sole::{Desk, open_desk, say_line};
use nio_words::{Pass, Words};
use std::alloc::{AllocError, Global};

/// Draws every number and makes the setup's lines. Adds their history to the text. Want of memory leaves the pass as
/// one of the table.
pub(crate) fn set_up(
    alloc: Global,
    w: &Words,
    p: &mut Pass,
    setup: &[ScriptCall],
    text: &mut Vec<u8>,
) -> Result<Desk, AllocError>
    requires { IsFirstPass w.now p.old }
    ensures set_up { IfOk result (λ d. HasSetUp w.now d setup.now) }
    ensures pipes { IfOk result (λ d. KeepsSetup (limits_of w.now) setup.now (progress_of d).pipes) }
    ensures text { IfOk result (λ _. text.new.items ≡ text.old.items ++ answer_to Now (limits_of w.now) setup.now) }
    ensures pass { IsPassOf w.now p.new }
{
    let mut desk = open_desk(alloc, w, p)?;
    match make_lines(alloc, w, &mut desk, setup, text) {
        Ok(()) => Ok(desk),
        Err(error) => {
            w.join(p, desk.into_pass());
            Err(error)
        }
    }
}

// Makes the lines in turn.
fn make_lines(
    alloc: Global,
    w: &Words,
    d: &mut Desk,
    setup: &[ScriptCall],
    text: &mut Vec<u8>,
) -> Result<(), AllocError>
    requires set_up { HasSetUp w.now d.old [] }
    requires opening { state_at d.old ≡ script_opening }
    ensures set_up { IfOk result (λ _. HasSetUp w.now d.new setup.now) }
    ensures text { IfOk result (λ _. text.new.items ≡ text.old.items ++ answer_to Now (limits_of w.now) setup.now) }
    ensures stands { Stands w.now d.new }
{
    for (index, line) in setup.iter().enumerate() {
        make_line(alloc, w, d, index as u64 + 1, line, text)?;
    }
    Ok(())
}

// Makes a line, and adds its history.
fn make_line(
    alloc: Global,
    w: &Words,
    d: &mut Desk,
    number: u64,
    line: &ScriptCall,
    text: &mut Vec<u8>,
) -> Result<(), AllocError>
    requires { Stands w.now d.old }
    ensures said { IfOk result (λ _. SaysAndWrites w.now d.old d.new number line.now text.old.items text.new.items) }
    ensures stands { Stands w.now d.new }
{
    let reply = say_line(alloc, w, d, line.caller, &line.call)?;
    let history = print_line(alloc, number, line.caller, &line.call, &reply)?;
    text.extend_from_slice(&history)
}

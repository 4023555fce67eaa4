//! The lines of a race's callers, with their replies.
ghost use Rattle.std.specs.Prelude.{◌≡◌, ◌++◌, ◌∷◌, IfOk};
ghost use Rattle.nio_language.specs.declared.reply.Reply.TheVariants.{NoCaller};
ghost use Rattle.nio_race_text.specs.RaceOutput.{race_line_text};
ghost use Rattle.nio_race.specs.Race.{callers_text, caller_text, calls_by, strange_replies};
ghost use Rattle.nio_race.specs.Racers.{replies_by};
ghost use Rattle.nio_race.specs.Output.{WritesCaller, WritesLine};

use crate::racer::Racer;
use nio_base::CallerNo;
use nio_language::Reply;
use nio_race_text::{RaceLine, print_race_line};
use std::alloc::{AllocError, Global};

// A line names a caller below this number.
const NAMED_CALLERS: u32 = 64;

/// Adds each caller's lines with their replies to the text, in rising order of the callers. The lines of a caller
/// that has no racer have the reply `no-caller`.
pub(crate) fn add_callers(
    alloc: Global,
    race: &[RaceLine],
    racers: &[Racer],
    text: &mut Vec<u8>,
) -> Result<(), AllocError>
    ensures { IfOk result (λ _. text.new.items ≡ text.old.items
        ++ callers_text 0 64 race.now (replies_by race.now racers.now)) }
{
    for number in 0..NAMED_CALLERS {
        add_caller(alloc, race, racers, CallerNo(number), text)?;
    }
    Ok(())
}

// Adds the lines of a caller.
fn add_caller(
    alloc: Global,
    race: &[RaceLine],
    racers: &[Racer],
    caller: CallerNo,
    text: &mut Vec<u8>,
) -> Result<(), AllocError>
    ensures { IfOk result (λ _. WritesCaller caller race.now (replies_by race.now racers.now caller) text.old.items
        text.new.items) }
{
    let number = caller.0 as usize;
    if number < racers.len() {
        add_lines(alloc, race, caller, &racers[number].replies, text)
    } else {
        add_strange_lines(alloc, race, caller, text)
    }
}

// Adds the lines of a caller with these replies.
fn add_lines(
    alloc: Global,
    race: &[RaceLine],
    caller: CallerNo,
    replies: &[Reply],
    text: &mut Vec<u8>,
) -> Result<(), AllocError>
    ensures { IfOk result (λ _. WritesCaller caller race.now replies.now text.old.items text.new.items) }
{
    let mut made = 0;
    for line in race {
        made = add_line(alloc, line, caller, replies, made, text)?;
    }
    Ok(())
}

// Adds the line, where it is the caller's and has a reply. So many lines of the caller stand before it. Answers how
// many stand before the next one.
fn add_line(
    alloc: Global,
    line: &RaceLine,
    caller: CallerNo,
    replies: &[Reply],
    made: usize,
    text: &mut Vec<u8>,
) -> Result<usize, AllocError>
    ensures { IfOk result (λ later. WritesLine caller line.now replies.now made later text.old.items text.new.items) }
{
    if line.caller.0 != caller.0 || made >= replies.len() {
        return Ok(made);
    }
    print_line(alloc, line, made as u64 + 1, &replies[made], text)?;
    Ok(made + 1)
}

// Adds the lines of a caller whose number isn't below the limit.
fn add_strange_lines(
    alloc: Global,
    race: &[RaceLine],
    caller: CallerNo,
    text: &mut Vec<u8>,
) -> Result<(), AllocError>
    ensures { IfOk result (λ _. WritesCaller caller race.now (strange_replies (calls_by caller race.now)) text.old.items
        text.new.items) }
{
    let mut made = 0;
    for line in race {
        if line.caller.0 == caller.0 {
            made += 1;
            print_line(alloc, line, made, &Reply::NoCaller, text)?;
        }
    }
    Ok(())
}

// Adds a line with its reply, whatever its caller.
fn print_line(
    alloc: Global,
    line: &RaceLine,
    number: u64,
    reply: &Reply,
    text: &mut Vec<u8>,
) -> Result<(), AllocError>
    ensures { IfOk result (λ _. text.new.items ≡ text.old.items
        ++ race_line_text line.now.caller number line.now.call reply.now) }
{
    let line = print_race_line(alloc, line.caller, number, &line.call, reply)?;
    text.extend_from_slice(&line)
}

//! Reading a line of a timed script that isn't blank.
ghost use Rattle.std.specs.Prelude.{IfOk};
ghost use Rattle.nio_language.specs.Script.{IsInGrammar};
ghost use Rattle.nio_script.specs.Entries.{Finds};
ghost use Rattle.nio_timed.specs.Lines.{IsTimedLine};
ghost use Rattle.nio_timed.specs.Reading.{IsGroupLineOf};

use crate::call::{TimedCall, TimedLine};
use crate::own::read_words;
use nio_base::CallerNo;
use nio_language::{Call, LINE_LIMIT, ParseError, Parsed, parse_line, words_of};
use std::alloc::{AllocError, Global};

/// The caller and the call of a line.
pub(crate) fn read_timed_line(alloc: Global, line: &[u8]) -> Result<Option<TimedLine>, AllocError>
    ensures { IfOk result (Finds (λ l. IsTimedLine l line.now)) }
{
    match parse_line(alloc, line) {
        Ok(Parsed::Line { caller, call }) => Ok(group_line(caller, call)),
        Ok(Parsed::Blank) => Ok(None),
        Err(ParseError::Malformed) => read_own_line(alloc, line),
        Err(ParseError::Memory) => Err(AllocError),
    }
}

// The line of a script's call, where that is on the group.
fn group_line(caller: CallerNo, call: Call) -> Option<TimedLine>
    ensures { IsGroupLineOf caller call result }
{
    let Call::Group(call) = call else {
        return None;
    };
    Some(TimedLine {
        caller,
        call: TimedCall::Group(call),
    })
}

// The caller and the call of a line that scripts don't have.
fn read_own_line(alloc: Global, line: &[u8]) -> Result<Option<TimedLine>, AllocError>
    requires { IsInGrammar line.now → ⊥ }
    ensures { IfOk result (Finds (λ l. IsTimedLine l line.now)) }
{
    if line.len() > LINE_LIMIT {
        return Ok(None);
    }
    let words = words_of(alloc, line)?;
    Ok(read_words(&words))
}

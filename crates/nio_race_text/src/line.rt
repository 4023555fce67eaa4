//! Reading a line behind `go`: a script's, or `block`.
ghost use Rattle.std.specs.Prelude.{IfOk};
ghost use Rattle.nio_script.specs.Entries.{Finds};
ghost use Rattle.nio_race_text.specs.RaceLines.{IsBlockLine, IsRaceLine};

use crate::call::{RaceCall, RaceLine};
use nio_base::{CallerNo, SelNo};
use nio_language::{ParseError, Parsed, cut_at, parse_line, read_caller, read_selector};
use std::alloc::{AllocError, Global};

/// The caller and the call of a line behind `go`.
pub fn read_race_call(alloc: Global, line: &[u8]) -> Result<Option<RaceLine>, AllocError>
    ensures { IfOk result (Finds (λ r. IsRaceLine r.caller r.call line.now)) }
{
    match parse_line(alloc, line) {
        Ok(Parsed::Line { caller, call }) => {
            if call.may_race() {
                Ok(Some(RaceLine {
                    caller,
                    call: RaceCall::Script(call),
                }))
            } else {
                Ok(None)
            }
        }
        Ok(Parsed::Blank) => Ok(None),
        Err(ParseError::Malformed) => match read_block(line) {
            Some((caller, selector)) => Ok(Some(RaceLine {
                caller,
                call: RaceCall::Block(selector),
            })),
            None => Ok(None),
        },
        Err(ParseError::Memory) => Err(AllocError),
    }
}

// The caller and the selector of a line `tN block sM`.
fn read_block(line: &[u8]) -> Option<(CallerNo, SelNo)>
    ensures { Finds (λ p. IsBlockLine p.0 p.1 line.now) result }
{
    let (caller, rest) = cut_at(line, b' ')?;
    let selector = rest.strip_prefix(b"block ")?;
    let caller = read_caller(caller)?;
    let selector = read_selector(selector)?;
    Some((caller, selector))
}

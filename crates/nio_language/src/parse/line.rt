//! Reading a line: its caller, and then its call.
ghost use Rattle.std.specs.Prelude.{IfOk, map};
ghost use Rattle.nio_language.specs.Reading.{Reads};
ghost use Rattle.nio_language.specs.Lines.{FitsLine, line_words, ReadsLine};

use super::call::read_call;
use super::name::read_caller;
use super::words::words_of;
use crate::call::Call;
use nio_base::CallerNo;
use std::alloc::{AllocError, Global};

/// The most bytes of a line that isn't blank.
pub const LINE_LIMIT: usize = 4096;

/// The caller and the call of a line that isn't blank.
pub fn read_line(alloc: Global, line: &[u8]) -> Result<Option<(CallerNo, Call)>, AllocError>
    ensures { IfOk result (ReadsLine line.now) }
{
    if line.len() > LINE_LIMIT {
        return Ok(None);
    }
    let words = words_of(alloc, line)?;
    line_from(alloc, &words)
}

fn line_from(alloc: Global, words: &[&[u8]]) -> Result<Option<(CallerNo, Call)>, AllocError>
    ensures { IfOk result (Reads FitsLine line_words (map (λ w. w.now) words.now)) }
{
    let Some((caller, call)) = words.split_first() else {
        return Ok(None);
    };
    let Some(caller) = read_caller(caller) else {
        return Ok(None);
    };
    match read_call(alloc, call)? {
        Some(call) => Ok(Some((caller, call))),
        None => Ok(None),
    }
}

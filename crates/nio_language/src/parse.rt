//! Reading the lines of a script.
ghost use Rattle.std.specs.Prelude.{◌≡◌, ◌≢◌, ◌↔◌, IsTrue};
ghost use Rattle.nio_language.specs.Calls.{IsBlank, IsLine};
ghost use Rattle.nio_language.specs.Script.{IsInGrammar};

use crate::call::Call;
pub use cut::cut_at;
pub use group::read_operation_kind;
pub use line::LINE_LIMIT;
use line::read_line;
pub use name::{read_caller, read_group_channel, read_selector};
use nio_base::CallerNo;
pub use number::read_number;
use std::alloc::{AllocError, Global};
use thiserror::Error;
pub use words::words_of;

mod arguments;
mod bytes;
mod call;
mod cut;
mod group;
mod line;
mod name;
mod number;
mod told;
mod waiting;
mod words;

/// What a line of a script says.
#[derive(Debug, Drop)]
pub enum Parsed {
    /// Nothing: the line is empty, or a comment.
    Blank,
    /// A call, and who makes it.
    Line { caller: CallerNo, call: Call },
}

/// Why a line isn't read.
#[derive(Debug, Drop, Error)]
pub enum ParseError {
    /// The line isn't in the grammar of scripts.
    #[error("malformed line")]
    Malformed,
    /// There is no memory for what the line says.
    #[error("out of memory")]
    Memory,
}

impl From<AllocError> for ParseError {
    ghost use Rattle.nio_language.specs.declared.parse.ParseError.TheVariants.{Memory};

    ghost from_gives = { λ _ e. e ≡ Memory };

    fn from(_error: AllocError) -> Self {
        ParseError::Memory
    }
}

/// Reads a line of a script, without its newline.
pub fn parse_line(alloc: Global, line: &[u8]) -> Result<Parsed, ParseError>
    ensures blank { result ≡ Ok Parsed.Blank ↔ IsBlank line.now }
    ensures found { (caller : CallerNo) (call : Call)
        → result ≡ Ok (Parsed.Line caller call) → IsLine caller call line.now }
    ensures only { (caller : CallerNo) (call : Call)
        → IsLine caller call line.now → result ≢ Err ParseError.Memory
        → result ≡ Ok (Parsed.Line caller call) }
    ensures malformed { result ≢ Err ParseError.Memory
        → (result ≡ Err ParseError.Malformed ↔ (IsInGrammar line.now → ⊥)) }
{
    if is_blank(line) {
        return Ok(Parsed::Blank);
    }
    match read_line(alloc, line)? {
        Some((caller, call)) => Ok(Parsed::Line { caller, call }),
        None => Err(ParseError::Malformed),
    }
}

/// Whether a line says nothing: it is empty, or a comment.
pub fn is_blank(line: &[u8]) -> bool
    ensures { IsTrue result ↔ IsBlank line.now }
{
    match line.first() {
        None => true,
        Some(byte) => *byte == b'#',
    }
}

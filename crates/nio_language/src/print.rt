//! Writing the lines of a history, and replies alone.
ghost use Rattle.std.specs.Prelude.{◌≡◌, IfOk};
ghost use Rattle.nio_language.specs.Replies.{history_line, reply_text};

use crate::call::Call;
use crate::reply::Reply;
use call::push_line_text;
use nio_base::CallerNo;
pub use piece::push_hex;
use piece::{push_bytes, push_number};
use reply::push_reply;
use std::alloc::{AllocError, Global};

mod arguments;
mod call;
mod group;
mod piece;
mod reply;

/// Most lines of a history have fewer bytes.
const USUAL_LENGTH: usize = 64;

/// The line of a history for call number `number`, with its newline.
pub fn print_line(
    alloc: Global,
    number: u64,
    caller: CallerNo,
    call: &Call,
    reply: &Reply,
) -> Result<Vec<u8>, AllocError>
    ensures { IfOk result (λ bytes. bytes.items ≡ history_line number caller call.now reply.now) }
{
    let mut line = Vec::with_capacity(alloc, USUAL_LENGTH)?;
    push_number(&mut line, number)?;
    push_bytes(&mut line, b" ")?;
    push_line_text(&mut line, caller, call)?;
    push_bytes(&mut line, b" -> ")?;
    push_reply(&mut line, reply)?;
    push_bytes(&mut line, b"\n")?;
    Ok(line)
}

/// The text of a reply as a line of a history has it, with no newline.
pub fn print_reply(alloc: Global, reply: &Reply) -> Result<Vec<u8>, AllocError>
    ensures { IfOk result (λ bytes. bytes.items ≡ reply_text reply.now) }
{
    let mut text = Vec::with_capacity(alloc, USUAL_LENGTH)?;
    push_reply(&mut text, reply)?;
    Ok(text)
}

//! Printing the calls of a race with their replies.
ghost use Rattle.std.specs.Prelude.{◌≡◌, ◌++◌, codes, IfOk, OnOk};
ghost use Rattle.std.specs.Fmt.{decimal};
ghost use Rattle.nio_language.specs.Words.{caller_word};
ghost use Rattle.nio_race_text.specs.RaceOutput.{race_line_text};
ghost use Rattle.nio_race_text.specs.declared.call.RaceCall.TheVariants.{Block, Script};

use crate::call::RaceCall;
use itoa::Buffer;
use nio_base::{CallerNo, SelNo};
use nio_language::{Call, Reply, print_line, print_reply};
use std::alloc::{AllocError, Global};

// Most lines have fewer bytes.
const USUAL_LENGTH: usize = 64;

/// The line of a race's output for the caller's call number `number`, counted from 1, with its newline.
pub fn print_race_line(
    alloc: Global,
    caller: CallerNo,
    number: u64,
    call: &RaceCall,
    reply: &Reply,
) -> Result<Vec<u8>, AllocError>
    ensures { IfOk result (λ line. line.items ≡ race_line_text caller number call.now reply.now) }
{
    match call {
        RaceCall::Script(call) => print_script_call(alloc, caller, number, call, reply),
        RaceCall::Block(selector) => print_block(alloc, caller, number, *selector, reply),
    }
}

// The line of a script's call: that of a history, with its number and its caller exchanged.
fn print_script_call(
    alloc: Global,
    caller: CallerNo,
    number: u64,
    call: &Call,
    reply: &Reply,
) -> Result<Vec<u8>, AllocError>
    ensures { IfOk result (λ line. line.items ≡ race_line_text caller number (Script call.now) reply.now) }
{
    let history = print_line(alloc, number, caller, call, reply)?;
    let mut line = Vec::with_capacity(alloc, history.len())?;
    push_head(&mut line, caller, number)?;
    // The history's line has as many bytes before the call's word.
    let head = line.len();
    line.extend_from_slice(&history[head..])?;
    Ok(line)
}

// The line of `block`.
fn print_block(
    alloc: Global,
    caller: CallerNo,
    number: u64,
    selector: SelNo,
    reply: &Reply,
) -> Result<Vec<u8>, AllocError>
    ensures { IfOk result (λ line. line.items ≡ race_line_text caller number (Block selector) reply.now) }
{
    let mut line = Vec::with_capacity(alloc, USUAL_LENGTH)?;
    push_head(&mut line, caller, number)?;
    line.extend_from_slice(b"block s")?;
    push_number(&mut line, u64::from(selector.0))?;
    line.extend_from_slice(b" -> ")?;
    line.extend_from_slice(&print_reply(alloc, reply)?)?;
    line.push(b'\n')?;
    Ok(line)
}

// The caller and the number of its call, each before a space.
fn push_head(line: &mut Vec<u8>, caller: CallerNo, number: u64) -> Result<(), AllocError>
    ensures { OnOk result
        (line.new.items ≡ line.old.items ++ caller_word caller ++ codes " " ++ decimal number ++ codes " ") }
{
    line.push(b't')?;
    push_number(line, u64::from(caller.0))?;
    line.push(b' ')?;
    push_number(line, number)?;
    line.push(b' ')?;
    Ok(())
}

fn push_number(line: &mut Vec<u8>, number: u64) -> Result<(), AllocError>
    ensures { OnOk result (line.new.items ≡ line.old.items ++ decimal number) }
{
    line.extend_from_slice(Buffer::new().format(number).as_bytes())
}

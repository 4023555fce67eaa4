//! Histories, checked against the documented system by one of the rules.
ghost use Rattle.std.specs.Prelude.{◌≡◌, ◌≢◌, ℕ, ◌<◌, ◌≤◌, ◌⊎◌, List, map, length, IfOk, IfNone, IfSome, OnOk};
ghost use Rattle.nio_base.specs.Limits.{IsFit};
ghost use Rattle.nio_bytes.specs.Cause.{Rose};
ghost use Rattle.nio_language.specs.Replies.{reply_text};
ghost use Rattle.nio_language.specs.declared.reply.Reply.{Reply};
ghost use Rattle.nio_plain.specs.ScriptState.{script_opening};
ghost use Rattle.nio_script.specs.Check.{right_reply, IsLegalHistory, IsFirstIllegal, IsVerdict, EndsEntries};
ghost use Rattle.nio_script.specs.Check.{IsSaidIllegal, legal_text, illegal_text, IsFoundLegal, IsHalfSaid};
ghost use Rattle.nio_script.specs.Check.{IsFoundIllegal, IsNoHistory, EndsCheckText, EndsCheck};
ghost use Rattle.nio_script.specs.History.{Entry, IsHistory, IsFirstBadEntry};
ghost use Rattle.nio_script.specs.HistoryCall.{entry_of};
ghost use Rattle.nio_script.specs.Input.{CausesFault, StopsPastLongest};
ghost use Rattle.nio_script.specs.Output.{WritesPrefix, IsWritten, WritesOrFails};
ghost use Rattle.nio_script.specs.Run.{left_by_call, ReadsText};

use crate::history::{HistoryCall, parse_history};
use crate::input::{LONGEST_INPUT, read_input};
use crate::output::{offer, write_out};
use crate::run::refuse;
use crate::script::ScriptError;
use crate::status::Status;
use nio_base::Limits;
use nio_bytes::{Sink, Source};
use nio_language::{Reply, print_reply};
use nio_plain::{Plain, Rules, System};
use std::alloc::{AllocError, Global};

/// A call of a history whose reply is wrong.
#[derive(Drop)]
struct Wrong {
    /// The call's number, from 1.
    number: u64,
    /// The right reply.
    right: Reply,
}

/// Makes the call of an entry. Answers the right reply where the entry has another text.
fn correction<Y: System>(
    alloc: Global,
    call: &HistoryCall,
    system: &mut Y,
) -> Result<Option<Reply>, AllocError>
    ensures same { IfOk result (λ found. IfNone found (call.now.reply.now
        ≡ reply_text (right_reply (Y.rules system.old) (Y.limits system.old) (Y.state system.old)
        (entry_of call.now)))) }
    ensures right { IfOk result (λ found. IfSome found (λ right.
        right ≡ right_reply (Y.rules system.old) (Y.limits system.old) (Y.state system.old) (entry_of call.now))) }
    ensures wrong { IfOk result (λ found. IfSome found (λ right.
        call.now.reply.now ≢ reply_text right)) }
    ensures left { OnOk result (Y.state system.new
        ≡ left_by_call (Y.rules system.old) (Y.limits system.old) (Y.state system.old) call.now.line) }
    ensures kept { Y.kept system.old system.new }
{
    let right = system.call(alloc, call.line.caller, &call.line.call)?;
    let text = print_reply(alloc, &right)?;
    if call.reply == text.as_slice() {
        Ok(None)
    } else {
        Ok(Some(right))
    }
}

/// Makes the calls in turn, up to the first whose reply is wrong.
fn follow_calls<Y: System>(
    alloc: Global,
    calls: &[HistoryCall],
    system: &mut Y,
) -> Result<Option<Wrong>, AllocError>
    requires { Y.state system.old ≡ script_opening }
    ensures legal { IfOk result (λ found. IfNone found
        (IsLegalHistory (Y.rules system.old) (Y.limits system.old) (map entry_of calls.now))) }
    ensures illegal { IfOk result (λ found. IfSome found (λ wrong. IsFirstIllegal
        (Y.rules system.old) (Y.limits system.old) (map entry_of calls.now) wrong.number wrong.right)) }
{
    for (index, call) in calls.iter().enumerate() {
        if let Some(right) = correction(alloc, call, system)? {
            let number = index as u64 + 1;
            return Ok(Some(Wrong { number, right }));
        }
    }
    Ok(None)
}

/// Makes the calls on a new system, up to the first whose reply is wrong.
fn first_wrong(
    alloc: Global,
    calls: &[HistoryCall],
    limits: Limits,
    rules: Rules,
) -> Result<Option<Wrong>, AllocError>
    requires { IsFit limits }
    ensures legal { IfOk result (λ found. IfNone found
        (IsLegalHistory rules limits (map entry_of calls.now))) }
    ensures illegal { IfOk result (λ found. IfSome found (λ wrong. IsFirstIllegal
        rules limits (map entry_of calls.now) wrong.number wrong.right)) }
{
    let mut system = match rules {
        Rules::First => Plain::make_first(alloc, limits)?,
        Rules::Now => Plain::make(alloc, limits)?,
    };
    follow_calls(alloc, calls, &mut system)
}

/// Says that a history of so many calls is legal.
fn say_legal<K: Sink>(alloc: Global, count: u64, output: &mut K) -> Status
    ensures done { result ≡ Status.Done →
        IsWritten K.Sink output.old output.new (legal_text count) }
    ensures still { result ≡ Status.Done → K.faults output.new ≡ K.faults output.old }
    ensures write_fault { result ≡ Status.WriteFault →
        WritesPrefix K.Sink output.old output.new (legal_text count) }
    ensures rose { result ≡ Status.WriteFault → Rose (K.faults output.old) (K.faults output.new) }
    ensures memory { result ≡ Status.Memory → output.new ≡ output.old }
    ensures ends { (result ≡ Status.Done) ⊎ (result ≡ Status.WriteFault) ⊎ (result ≡ Status.Memory) }
    ensures later { K.faults output.old ≤ K.faults output.new }
{
    let Ok(text) = format!(in alloc; "legal {count}\n") else {
        return Status::Memory;
    };
    match write_out(output, text.as_bytes()) {
        Ok(()) => Status::Done,
        Err(status) => status,
    }
}

/// What is said of the first call whose reply is wrong.
fn illegal_line(alloc: Global, wrong: &Wrong) -> Result<Vec<u8>, AllocError>
    ensures { IfOk result (λ text. text.items ≡ illegal_text wrong.now.number wrong.now.right) }
{
    let mut text = format!(in alloc; "illegal {}: ", wrong.number)?.into_bytes();
    text.extend_from_slice(&print_reply(alloc, &wrong.right)?)?;
    text.push(b'\n')?;
    Ok(text)
}

/// Says which call is the first whose reply is wrong, and its right reply. That the sink fails
/// meanwhile changes no status.
fn say_illegal<K: Sink>(alloc: Global, wrong: &Wrong, output: &mut K) -> Status
    ensures status { (result ≡ Status.Illegal wrong.now.number) ⊎ (result ≡ Status.Memory) }
    ensures said { result ≡ Status.Illegal wrong.now.number →
        WritesOrFails K.Sink output.old output.new (illegal_text wrong.now.number wrong.now.right) }
    ensures memory { result ≡ Status.Memory → output.new ≡ output.old }
    ensures later { K.faults output.old ≤ K.faults output.new }
{
    let Ok(text) = illegal_line(alloc, wrong) else {
        return Status::Memory;
    };
    offer(output, &text);
    Status::Illegal { line: wrong.number }
}

/// Checks the calls of a history, and says what was found.
fn check_calls<K: Sink>(
    alloc: Global,
    calls: &[HistoryCall],
    output: &mut K,
    limits: Limits,
    rules: Rules,
) -> Status
    requires { IsFit limits }

    ensures done { result ≡ Status.Done →
        IsWritten K.Sink output.old output.new (legal_text (length calls.now)) }
    ensures still { result ≡ Status.Done → K.faults output.new ≡ K.faults output.old }
    ensures illegal { (number : ℕ) → result ≡ Status.Illegal number →
        IsSaidIllegal K.Sink output.old output.new rules limits number (map entry_of calls.now) }
    ensures write_fault { result ≡ Status.WriteFault →
        WritesPrefix K.Sink output.old output.new (legal_text (length calls.now)) }
    ensures rose { result ≡ Status.WriteFault → Rose (K.faults output.old) (K.faults output.new) }
    ensures memory { result ≡ Status.Memory → output.new ≡ output.old }
    ensures ends { EndsEntries rules limits (map entry_of calls.now) result }
    ensures later { K.faults output.old ≤ K.faults output.new }
{
    match first_wrong(alloc, calls, limits, rules) {
        Ok(None) => say_legal(alloc, calls.len() as u64, output),
        Ok(Some(wrong)) => say_illegal(alloc, &wrong, output),
        Err(_) => Status::Memory,
    }
}

/// Checks the history that a text is by these rules.
fn check_text<K: Sink>(
    alloc: Global,
    text: &[u8],
    output: &mut K,
    limits: Limits,
    rules: Rules,
) -> Status
    requires { IsFit limits }

    ensures done { result ≡ Status.Done →
        IsFoundLegal K.Sink output.old output.new rules limits text.now }
    ensures illegal { (number : ℕ) → result ≡ Status.Illegal number →
        IsFoundIllegal K.Sink output.old output.new rules limits number text.now }
    ensures bad_script { (line : ℕ) → result ≡ Status.BadScript line →
        IsNoHistory K.Sink output.old output.new rules line text.now }
    ensures write_fault { result ≡ Status.WriteFault →
        IsHalfSaid K.Sink output.old output.new rules limits text.now }
    ensures rose { result ≡ Status.WriteFault → Rose (K.faults output.old) (K.faults output.new) }
    ensures memory { result ≡ Status.Memory → output.new ≡ output.old }
    ensures of_history { (entries : List Entry) → IsHistory rules text.now entries →
        EndsEntries rules limits entries result }
    ensures of_bad { (line : ℕ) → IsFirstBadEntry rules text.now line →
        (result ≡ Status.BadScript line) ⊎ (result ≡ Status.Memory) }
    ensures ends { EndsCheckText result }
    ensures later { K.faults output.old ≤ K.faults output.new }
{
    match parse_history(alloc, text, rules) {
        Ok(calls) => check_calls(alloc, &calls, output, limits, rules),
        Err(ScriptError::BadLine { line }) => refuse(alloc, line, output),
        Err(ScriptError::Memory) => Status::Memory,
    }
}

/// Reads a history, and says whether each of its replies is the one that the documented system gives
/// by these rules. The whole input is read, and every line of it parsed, before the first call.
///
/// By the first rules a line whose call names a channel, a key or a channel of the group with a serial, as `c0.1`,
/// `k0.1` and `g0.1`, or opens a datagram channel is a bad line.
pub fn run_check<S: Source, K: Sink>(
    alloc: Global,
    input: &mut S,
    output: &mut K,
    limits: Limits,
    rules: Rules,
) -> Status
    requires { IsFit limits }

    // What each status says.
    ensures done { result ≡ Status.Done → ReadsText S.Source input.old input.new
        (IsFoundLegal K.Sink output.old output.new rules limits) }
    ensures illegal { (number : ℕ) → result ≡ Status.Illegal number →
        ReadsText S.Source input.old input.new
        (IsFoundIllegal K.Sink output.old output.new rules limits number) }
    ensures bad_script { (line : ℕ) → result ≡ Status.BadScript line →
        ReadsText S.Source input.old input.new
        (IsNoHistory K.Sink output.old output.new rules line) }
    ensures write_fault { result ≡ Status.WriteFault → ReadsText S.Source input.old input.new
        (IsHalfSaid K.Sink output.old output.new rules limits) }
    ensures memory { result ≡ Status.Memory → output.new ≡ output.old }
    ensures unread { (result ≡ Status.ReadFault) ⊎ (result ≡ Status.TooLong) →
        output.new ≡ output.old }
    ensures ends { EndsCheck result }

    // What each fault comes of.
    ensures read_fault { CausesFault (S.faults input.old) (S.faults input.new)
        (result ≡ Status.ReadFault) }
    ensures rose { result ≡ Status.WriteFault → Rose (K.faults output.old) (K.faults output.new) }
    ensures later { K.faults output.old ≤ K.faults output.new }
    ensures too_long { StopsPastLongest S.Source input.old input.new (result ≡ Status.TooLong) }

    // What comes of each text, where the source shows it.
    ensures of_legal { IfSome (S.left input.old) (λ text. (entries : List Entry) →
        length text ≤ LONGEST_INPUT → IsHistory rules text entries → IsLegalHistory rules limits entries →
        (result ≡ Status.Done) ⊎ (result ≡ Status.ReadFault) ⊎ (result ≡ Status.WriteFault)
        ⊎ (result ≡ Status.Memory)) }
    ensures of_illegal { IfSome (S.left input.old) (λ text. (entries : List Entry)
        (number : ℕ) (right : Reply) → length text ≤ LONGEST_INPUT → IsHistory rules text entries →
        IsFirstIllegal rules limits entries number right → (result ≡ Status.Illegal number)
        ⊎ (result ≡ Status.ReadFault) ⊎ (result ≡ Status.Memory)) }
    ensures of_bad { IfSome (S.left input.old) (λ text. (line : ℕ) →
        length text ≤ LONGEST_INPUT → IsFirstBadEntry rules text line → (result ≡ Status.BadScript line)
        ⊎ (result ≡ Status.ReadFault) ⊎ (result ≡ Status.Memory)) }
    ensures of_long { IfSome (S.left input.old) (λ text. LONGEST_INPUT < length text →
        (result ≡ Status.TooLong) ⊎ (result ≡ Status.ReadFault) ⊎ (result ≡ Status.Memory)) }

    // A history is judged where no count of faults rises and there is memory.
    ensures complete { IfSome (S.left input.old) (λ text. (entries : List Entry) →
        length text ≤ LONGEST_INPUT → IsHistory rules text entries →
        ¬ Rose (S.faults input.old) (S.faults input.new) →
        ¬ Rose (K.faults output.old) (K.faults output.new) →
        IsVerdict rules limits entries result ⊎ (result ≡ Status.Memory)) }
{
    match read_input(alloc, input) {
        Ok(text) => check_text(alloc, &text, output, limits, rules),
        Err(status) => status,
    }
}

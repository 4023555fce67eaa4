//! Running a timed script.
ghost use Rattle.std.specs.Prelude.{◌≡◌, ◌<◌, ◌≤◌, ◌⊎◌, ◌++◌, ℕ, List, length, IfOk, IfSome, OnOk};
ghost use Rattle.nio_bytes.specs.Cause.{Rose};
ghost use Rattle.nio_script.specs.Input.{CausesFault, StopsPastLongest};
ghost use Rattle.nio_script.specs.Output.{IsWritten, WritesPrefix};
ghost use Rattle.nio_script.specs.Run.{EndsScript, EndsText, ReadsText};
ghost use Rattle.nio_timed.specs.Called.{timed_answer_to, timed_left, timed_reply};
ghost use Rattle.nio_timed.specs.Does.{IsTimed, IsTimedInPart, IsUntimed};
ghost use Rattle.nio_timed.specs.Lines.{IsFirstBadTimed, IsTimedScript};
ghost use Rattle.nio_timed.specs.Replies.{timed_history_line};
ghost use Rattle.nio_timed.specs.declared.call.TimedLine.{TimedLine};

use crate::call::TimedLine;
use crate::called::call_timed;
use crate::print::print_timed_line;
use crate::script::parse_timed;
use nio_bytes::{Sink, Source};
use nio_deadline::TimedCore;
use nio_plain::GROUP_LIMITS;
use nio_script::{LONGEST_INPUT, ScriptError, Status, read_input, refuse, write_out};
use std::alloc::{AllocError, Global};

/// Makes a call, and adds its line to the history.
fn answer_call(
    alloc: Global,
    number: u64,
    line: &TimedLine,
    history: &mut Vec<u8>,
    timed: &mut TimedCore,
) -> Result<(), AllocError>
    ensures line { OnOk result (history.new.items
        ≡ history.old.items ++ timed_history_line number line.now (timed_reply timed.old line.now.call)) }
    ensures left { OnOk result (timed.new ≡ timed_left timed.old line.now.call) }
{
    let reply = call_timed(timed, line.call)?;
    let text = print_timed_line(alloc, number, line, &reply)?;
    history.extend_from_slice(&text)
}

/// The history of a timed script's calls.
fn answer(alloc: Global, calls: &[TimedLine]) -> Result<Vec<u8>, AllocError>
    ensures { IfOk result (λ history. history.items ≡ timed_answer_to calls.now) }
{
    let mut timed = TimedCore::make(alloc, GROUP_LIMITS)?;
    let mut history = Vec::new(alloc);
    for (index, line) in calls.iter().enumerate() {
        answer_call(alloc, index as u64 + 1, line, &mut history, &mut timed)?;
    }
    Ok(history)
}

/// Runs the timed script that a text is.
fn run_text<K: Sink>(alloc: Global, text: &[u8], output: &mut K) -> Status
    ensures done { result ≡ Status.Done → IsTimed K.Sink output.old output.new text.now }
    ensures bad_script { (line : ℕ) → result ≡ Status.BadScript line →
        IsUntimed K.Sink output.old output.new line text.now }
    ensures write_fault { result ≡ Status.WriteFault → IsTimedInPart K.Sink output.old output.new text.now }
    ensures memory { result ≡ Status.Memory → output.new ≡ output.old }
    ensures rose { result ≡ Status.WriteFault → Rose (K.faults output.old) (K.faults output.new) }
    ensures of_script { (calls : List TimedLine) → IsTimedScript text.now calls →
        (result ≡ Status.Done) ⊎ (result ≡ Status.WriteFault) ⊎ (result ≡ Status.Memory) }
    ensures of_bad { (line : ℕ) → IsFirstBadTimed text.now line →
        (result ≡ Status.BadScript line) ⊎ (result ≡ Status.Memory) }
    ensures ends { EndsText result }
    ensures later { K.faults output.old ≤ K.faults output.new }
{
    match parse_timed(alloc, text) {
        Ok(calls) => run_calls(alloc, &calls, output),
        Err(ScriptError::BadLine { line }) => refuse(alloc, line, output),
        Err(ScriptError::Memory) => Status::Memory,
    }
}

/// Makes the calls of a timed script, and writes their history.
fn run_calls<K: Sink>(alloc: Global, calls: &[TimedLine], output: &mut K) -> Status
    ensures done { result ≡ Status.Done → IsWritten K.Sink output.old output.new (timed_answer_to calls.now) }
    ensures still { result ≡ Status.Done → K.faults output.new ≡ K.faults output.old }
    ensures write_fault { result ≡ Status.WriteFault →
        WritesPrefix K.Sink output.old output.new (timed_answer_to calls.now) }
    ensures rose { result ≡ Status.WriteFault → Rose (K.faults output.old) (K.faults output.new) }
    ensures memory { result ≡ Status.Memory → output.new ≡ output.old }
    ensures ends { (result ≡ Status.Done) ⊎ (result ≡ Status.WriteFault) ⊎ (result ≡ Status.Memory) }
    ensures later { K.faults output.old ≤ K.faults output.new }
{
    let Ok(history) = answer(alloc, calls) else {
        return Status::Memory;
    };
    match write_out(output, &history) {
        Ok(()) => Status::Done,
        Err(status) => status,
    }
}

/// Reads a timed script and writes its history. The whole input is read, and every line of it parsed, before the first
/// call; the history is written behind the last one.
pub fn run_timed<S: Source, K: Sink>(alloc: Global, input: &mut S, output: &mut K) -> Status
    // What each status says.
    ensures done { result ≡ Status.Done → ReadsText S.Source input.old input.new
        (IsTimed K.Sink output.old output.new) }
    ensures bad_script { (line : ℕ) → result ≡ Status.BadScript line → ReadsText S.Source input.old input.new
        (IsUntimed K.Sink output.old output.new line) }
    ensures write_fault { result ≡ Status.WriteFault → ReadsText S.Source input.old input.new
        (IsTimedInPart K.Sink output.old output.new) }
    ensures memory { result ≡ Status.Memory → output.new ≡ output.old }
    ensures unread { (result ≡ Status.ReadFault) ⊎ (result ≡ Status.TooLong) → output.new ≡ output.old }
    ensures ends { EndsScript result }

    // What each fault comes of.
    ensures read_fault { CausesFault (S.faults input.old) (S.faults input.new)
        (result ≡ Status.ReadFault) }
    ensures rose { result ≡ Status.WriteFault → Rose (K.faults output.old) (K.faults output.new) }
    ensures later { K.faults output.old ≤ K.faults output.new }
    ensures too_long { StopsPastLongest S.Source input.old input.new (result ≡ Status.TooLong) }

    // What comes of each text, where the source shows it.
    ensures of_script { IfSome (S.left input.old) (λ text. (calls : List TimedLine) →
        length text ≤ LONGEST_INPUT → IsTimedScript text calls → (result ≡ Status.Done)
        ⊎ (result ≡ Status.ReadFault) ⊎ (result ≡ Status.WriteFault) ⊎ (result ≡ Status.Memory)) }
    ensures of_bad { IfSome (S.left input.old) (λ text. (line : ℕ) →
        length text ≤ LONGEST_INPUT → IsFirstBadTimed text line → (result ≡ Status.BadScript line)
        ⊎ (result ≡ Status.ReadFault) ⊎ (result ≡ Status.Memory)) }
    ensures of_long { IfSome (S.left input.old) (λ text. LONGEST_INPUT < length text →
        (result ≡ Status.TooLong) ⊎ (result ≡ Status.ReadFault) ⊎ (result ≡ Status.Memory)) }

    // A timed script is answered where no count of faults rises and there is memory.
    ensures complete { IfSome (S.left input.old) (λ text. (calls : List TimedLine) →
        length text ≤ LONGEST_INPUT → IsTimedScript text calls →
        ¬ Rose (S.faults input.old) (S.faults input.new) →
        ¬ Rose (K.faults output.old) (K.faults output.new) →
        (result ≡ Status.Done) ⊎ (result ≡ Status.Memory)) }
{
    match read_input(alloc, input) {
        Ok(text) => run_text(alloc, &text, output),
        Err(status) => status,
    }
}

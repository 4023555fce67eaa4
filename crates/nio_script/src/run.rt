//! Scripts, from the bytes that come in to the bytes that go out.
ghost use Rattle.std.specs.Prelude.{◌≡◌, ℕ, ◌<◌, ◌≤◌, ◌⊎◌, List, [], ◌∷◌, length, IfSome, IfErr, IsErrOf};
ghost use Rattle.std.specs.Prelude.{OnOk, OnErr};
ghost use Rattle.nio_bytes.specs.Cause.{Rose};
ghost use Rattle.nio_language.specs.Script.{IsScript, IsFirstBad};
ghost use Rattle.nio_language.specs.declared.call.ScriptCall.{ScriptCall};
ghost use Rattle.nio_plain.specs.Answer.{answer_from, left_from};
ghost use Rattle.nio_plain.specs.ScriptState.{script_opening};
ghost use Rattle.nio_script.specs.Input.{CausesFault, StopsPastLongest};
ghost use Rattle.nio_script.specs.Output.{IsWritten, WritesOrFails, Gathers};
ghost use Rattle.nio_script.specs.Run.{line_for, bad_line, ReadsText, IsAnswered, IsCutShort, IsRefused, IsUntouched};
ghost use Rattle.nio_script.specs.Run.{MakesAll, MakesOne, MakesPrefix, StopsWithin, WritesOfMade, EndsText, EndsScript};

use crate::input::{LONGEST_INPUT, read_input};
use crate::output::{offer, put_line, write_out};
use crate::script::{ScriptError, parse_script};
use crate::status::Status;
use nio_bytes::{Sink, Source};
use nio_language::{ScriptCall, print_line};
use nio_plain::System;
use std::alloc::Global;

/// Makes a call, and puts its line of the history behind those that are kept back.
fn answer_call<K: Sink, Y: System>(
    alloc: Global,
    number: u64,
    line: &ScriptCall,
    kept: &mut Vec<u8>,
    output: &mut K,
    system: &mut Y,
) -> Result<(), Status>
    ensures ok { OnOk result (Gathers K.Sink output.old output.new kept.old.items kept.new.items
        (line_for (Y.rules system.old) (Y.limits system.old) (Y.state system.old) number line.now)) }
    ensures makes { OnOk result (MakesOne Y.System system.old system.new line.now) }
    ensures stops { OnErr result (WritesOfMade K.Sink Y.System output.old output.new system.old kept.old.items number
        (StopsWithin Y.System system.old system.new (line.now ∷ []))) }
    ensures write_fault { IsErrOf result Status.WriteFault →
        WritesOfMade K.Sink Y.System output.old output.new system.old kept.old.items number
        (MakesPrefix Y.System system.old system.new (line.now ∷ [])) }
    ensures kept { Y.kept system.old system.new }
    ensures cause { CausesFault (K.faults output.old) (K.faults output.new)
        (IsErrOf result Status.WriteFault) }
    ensures others { IfErr result (λ status. (status ≡ Status.WriteFault)
        ⊎ (status ≡ Status.Memory)) }
{
    let reply = system.call(alloc, line.caller, &line.call)?;
    let text = print_line(alloc, number, line.caller, &line.call, &reply)?;
    put_line(output, kept, &text)
}

/// Makes the calls in turn, and writes their history.
fn run_calls<K: Sink, Y: System>(
    alloc: Global,
    calls: &[ScriptCall],
    output: &mut K,
    system: &mut Y,
) -> Result<(), Status>
    ensures ok { OnOk result (IsWritten K.Sink output.old output.new
        (answer_from (Y.rules system.old) (Y.limits system.old) (Y.state system.old) 1 calls.now)) }
    ensures left { OnOk result (Y.state system.new
        ≡ left_from (Y.rules system.old) (Y.limits system.old) (Y.state system.old) calls.now) }
    ensures makes { OnOk result (MakesAll Y.System system.old system.new calls.now) }
    ensures stops { OnErr result (WritesOfMade K.Sink Y.System output.old output.new system.old [] 1
        (StopsWithin Y.System system.old system.new calls.now)) }
    ensures write_fault { IsErrOf result Status.WriteFault →
        WritesOfMade K.Sink Y.System output.old output.new system.old [] 1
        (MakesPrefix Y.System system.old system.new calls.now) }
    ensures kept { Y.kept system.old system.new }
    ensures cause { CausesFault (K.faults output.old) (K.faults output.new)
        (IsErrOf result Status.WriteFault) }
    ensures others { IfErr result (λ status. (status ≡ Status.WriteFault)
        ⊎ (status ≡ Status.Memory)) }
{
    let mut kept = Vec::new(alloc);
    for (index, line) in calls.iter().enumerate() {
        answer_call(alloc, index as u64 + 1, line, &mut kept, output, system)?;
    }
    write_out(output, &kept)
}

/// Says which line is the first that isn't in the grammar. That the sink fails meanwhile changes
/// no status.
pub fn refuse<K: Sink>(alloc: Global, line: u64, output: &mut K) -> Status
    ensures status { (result ≡ Status.BadScript line) ⊎ (result ≡ Status.Memory) }
    ensures said { result ≡ Status.BadScript line →
        WritesOrFails K.Sink output.old output.new (bad_line line) }
    ensures memory { result ≡ Status.Memory → output.new ≡ output.old }
    ensures later { K.faults output.old ≤ K.faults output.new }
{
    let Ok(text) = format!(in alloc; "bad line {line}\n") else {
        return Status::Memory;
    };
    offer(output, text.as_bytes());
    Status::BadScript { line }
}

/// Runs the script that a text is.
fn run_text<K: Sink, Y: System>(
    alloc: Global,
    text: &[u8],
    output: &mut K,
    system: &mut Y,
) -> Status
    requires { Y.state system.old ≡ script_opening }

    ensures done { result ≡ Status.Done →
        IsAnswered K.Sink Y.System output.old output.new system.old system.new text.now }
    ensures bad_script { (line : ℕ) → result ≡ Status.BadScript line →
        IsRefused K.Sink output.old output.new system.old system.new line text.now }
    ensures write_fault { result ≡ Status.WriteFault →
        IsCutShort K.Sink Y.System output.old output.new system.old
        (MakesPrefix Y.System system.old system.new) text.now }
    ensures rose { result ≡ Status.WriteFault → Rose (K.faults output.old) (K.faults output.new) }
    ensures memory { result ≡ Status.Memory →
        IsUntouched output.old output.new system.old system.new
        ⊎ IsCutShort K.Sink Y.System output.old output.new system.old
        (StopsWithin Y.System system.old system.new) text.now }
    ensures of_script { (calls : List ScriptCall) → IsScript text.now calls →
        (result ≡ Status.Done) ⊎ (result ≡ Status.WriteFault) ⊎ (result ≡ Status.Memory) }
    ensures of_bad { (line : ℕ) → IsFirstBad text.now line →
        (result ≡ Status.BadScript line) ⊎ (result ≡ Status.Memory) }
    ensures ends { EndsText result }
    ensures kept { Y.kept system.old system.new }
    ensures later { K.faults output.old ≤ K.faults output.new }
{
    match parse_script(alloc, text) {
        Ok(calls) => match run_calls(alloc, &calls, output, system) {
            Ok(()) => Status::Done,
            Err(status) => status,
        },
        Err(ScriptError::BadLine { line }) => refuse(alloc, line, output),
        Err(ScriptError::Memory) => Status::Memory,
    }
}

/// Reads a script and writes its history. The whole input is read, and every line of it parsed,
/// before the first call.
pub fn run_script<S: Source, K: Sink, Y: System>(
    alloc: Global,
    input: &mut S,
    output: &mut K,
    system: &mut Y,
) -> Status
    requires { Y.state system.old ≡ script_opening }

    // What each status says.
    ensures done { result ≡ Status.Done → ReadsText S.Source input.old input.new
        (IsAnswered K.Sink Y.System output.old output.new system.old system.new) }
    ensures bad_script { (line : ℕ) → result ≡ Status.BadScript line →
        ReadsText S.Source input.old input.new
        (IsRefused K.Sink output.old output.new system.old system.new line) }
    ensures write_fault { result ≡ Status.WriteFault → ReadsText S.Source input.old input.new
        (IsCutShort K.Sink Y.System output.old output.new system.old (MakesPrefix Y.System system.old system.new)) }
    ensures memory { result ≡ Status.Memory →
        IsUntouched output.old output.new system.old system.new
        ⊎ ReadsText S.Source input.old input.new
        (IsCutShort K.Sink Y.System output.old output.new system.old (StopsWithin Y.System system.old system.new)) }
    ensures unread { (result ≡ Status.ReadFault) ⊎ (result ≡ Status.TooLong) →
        IsUntouched output.old output.new system.old system.new }
    ensures ends { EndsScript result }

    // What each fault comes of.
    ensures read_fault { CausesFault (S.faults input.old) (S.faults input.new)
        (result ≡ Status.ReadFault) }
    ensures rose { result ≡ Status.WriteFault → Rose (K.faults output.old) (K.faults output.new) }
    ensures later { K.faults output.old ≤ K.faults output.new }
    ensures too_long { StopsPastLongest S.Source input.old input.new (result ≡ Status.TooLong) }

    // What comes of each text, where the source shows it.
    ensures of_script { IfSome (S.left input.old) (λ text. (calls : List ScriptCall) →
        length text ≤ LONGEST_INPUT → IsScript text calls → (result ≡ Status.Done)
        ⊎ (result ≡ Status.ReadFault) ⊎ (result ≡ Status.WriteFault) ⊎ (result ≡ Status.Memory)) }
    ensures of_bad { IfSome (S.left input.old) (λ text. (line : ℕ) →
        length text ≤ LONGEST_INPUT → IsFirstBad text line → (result ≡ Status.BadScript line)
        ⊎ (result ≡ Status.ReadFault) ⊎ (result ≡ Status.Memory)) }
    ensures of_long { IfSome (S.left input.old) (λ text. LONGEST_INPUT < length text →
        (result ≡ Status.TooLong) ⊎ (result ≡ Status.ReadFault) ⊎ (result ≡ Status.Memory)) }

    // A script is answered where no count of faults rises and there is memory.
    ensures complete { IfSome (S.left input.old) (λ text. (calls : List ScriptCall) →
        length text ≤ LONGEST_INPUT → IsScript text calls →
        ¬ Rose (S.faults input.old) (S.faults input.new) →
        ¬ Rose (K.faults output.old) (K.faults output.new) →
        (result ≡ Status.Done) ⊎ (result ≡ Status.Memory)) }

    ensures kept { Y.kept system.old system.new }
{
    match read_input(alloc, input) {
        Ok(text) => run_text(alloc, &text, output, system),
        Err(status) => status,
    }
}

//! Loads, from the number of rounds to the bytes that go out.
ghost use Rattle.std.specs.Prelude.{◌≡◌, ◌≤◌, ◌+◌, ◌*◌, ◌⊎◌, IfOk, length};
ghost use Rattle.nio_bytes.specs.Cause.{Rose};
ghost use Rattle.nio_language.specs.Script.{IsScript};
ghost use Rattle.nio_plain.specs.ScriptState.{script_opening};
ghost use Rattle.nio_load.specs.Generator.{generated};
ghost use Rattle.nio_load.specs.Load.{IsSummed, IsHalfSummed, IsUnsummed, EndsLoad};

use crate::generator::generate;
use crate::summary::summarize;
use nio_bytes::Sink;
use nio_language::ScriptCall;
use nio_plain::System;
use nio_script::{ScriptError, Status, parse_script, write_out};
use std::alloc::{AllocError, Global};

/// Runs the generated script of so many rounds, and writes its summary. The first byte is written
/// after the last call.
pub fn run_load<K: Sink, Y: System>(
    alloc: Global,
    rounds: u32,
    output: &mut K,
    system: &mut Y,
) -> Status
    requires opening { Y.state system.old ≡ script_opening }
    requires rounds { rounds ≤ 100000 }

    // What each status says.
    ensures done { result ≡ Status.Done →
        IsSummed K.Sink Y.System output.old output.new system.old system.new rounds }
    ensures write_fault { result ≡ Status.WriteFault →
        IsHalfSummed K.Sink Y.System output.old output.new system.old system.new rounds }
    ensures memory { result ≡ Status.Memory →
        IsUnsummed Y.System output.old output.new system.old system.new rounds }
    ensures ends { EndsLoad result }

    // What a fault comes of.
    ensures rose { result ≡ Status.WriteFault → Rose (K.faults output.old) (K.faults output.new) }
    ensures later { K.faults output.old ≤ K.faults output.new }

    // The script is run and summed up where no count of faults rises and there is memory.
    ensures complete { ¬ Rose (K.faults output.old) (K.faults output.new) →
        (result ≡ Status.Done) ⊎ (result ≡ Status.Memory) }

    ensures kept { Y.kept system.old system.new }
{
    let Ok(calls) = generated_calls(alloc, rounds) else {
        return Status::Memory;
    };
    let Ok(summary) = summarize(alloc, &calls, system) else {
        return Status::Memory;
    };
    match write_out(output, summary.as_bytes()) {
        Ok(()) => Status::Done,
        Err(status) => status,
    }
}

// The calls of the generated script.
fn generated_calls(alloc: Global, rounds: u32) -> Result<Vec<ScriptCall>, AllocError>
    ensures script { IfOk result (λ calls. IsScript (generated rounds) calls.items) }
    ensures few { IfOk result (λ calls. length calls.items ≤ 193 + 4 * rounds) }
{
    let text = generate(alloc, rounds)?;
    match parse_script(alloc, &text) {
        Ok(calls) => Ok(calls),
        Err(ScriptError::Memory) => Err(AllocError),
        Err(ScriptError::BadLine { .. }) => unreachable!(),
    }
}

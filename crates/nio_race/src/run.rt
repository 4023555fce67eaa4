//! Races, from the bytes that come in to the bytes that go out.
ghost use Rattle.std.specs.Prelude.{◌≡◌, ◌<◌, ◌≤◌, ◌⊎◌, ◌↔◌, ◌++◌, [], ℕ, List, All, length, IfOk, IfSome, IsFalse};
ghost use Rattle.std.specs.Prelude.{IsTrue};
ghost use Rattle.nio_bytes.specs.Cause.{Rose};
ghost use Rattle.nio_language.specs.declared.call.ScriptCall.{ScriptCall};
ghost use Rattle.nio_race_text.specs.RaceText.{IsFirstBadRace, IsRaceText};
ghost use Rattle.nio_race_text.specs.declared.call.RaceLine.{RaceLine};
ghost use Rattle.nio_script.specs.Input.{CausesFault, StopsPastLongest};
ghost use Rattle.nio_script.specs.Output.{IsWritten, WritesPrefix};
ghost use Rattle.nio_script.specs.Run.{EndsScript, EndsText, ReadsText};
ghost use Rattle.nio_sole.specs.Stands.{Stands, progress_of};
ghost use Rattle.nio_words.specs.Passes.{IsFirstPass, IsPassOf, limits_of};
ghost use Rattle.nio_race.specs.Does.{DoesRace, IsRaceCutShort, IsRaceRefused, IsRaceUntouched, IsRaced};
ghost use Rattle.nio_race.specs.Ends.{ArePipes};
ghost use Rattle.nio_race.specs.Race.{callers_text};
ghost use Rattle.nio_race.specs.Racers.{HaveRaced, IsSetOff, replies_by};
ghost use Rattle.nio_race.specs.Running.{HaveRun, RunsTo};
ghost use Rattle.nio_race.specs.Runs.{MayRaceLines};
ghost use Rattle.nio_race.specs.SetOff.{AreRacers};

use crate::ends::join_ends;
use crate::gather::gather;
use crate::output::add_callers;
use crate::racer::{Racer, run_lines};
use crate::set_off::set_off;
use crate::setup::set_up;
use nio_base::Gate;
use nio_bytes::{Sink, Source};
use nio_language::ScriptCall;
use nio_poller::SleeperBell;
use nio_race_text::{RaceLine, parse_race};
use nio_script::{LONGEST_INPUT, ScriptError, Status, read_input, refuse, write_out};
use nio_sole::Desk;
use nio_words::{Pass, Words};
use std::alloc::{AllocError, Global};
use std::sync::Wait;
use std::thread;
use std::thread::Threads;

/// Reads a race text, runs it and writes its output. The whole input is read, and every line of it parsed, before the
/// first call. Every number is drawn with the pass, and the lines before `go` are made one after the other. Then each
/// caller below the table's limit makes its lines after `go` in a thread of its own, with a pass of its own. It passes
/// the test gate before each, with its number and the line's number among its lines, from 1. It goes on with the
/// selections and closings that it began before `go`, and with the ends of pipes that it owns; what it leaves in
/// progress is forgotten. Another caller's lines have the reply `no-caller`.
///
/// No byte is written before every thread has returned and all passes are joined. Where memory lacks nothing is
/// written. A race whose caller waits for something that no line does never returns.
pub fn run_race<R: Threads + Wait + Sync, S: Source, K: Sink, G: Gate + Sync>(
    rt: &R,
    alloc: Global,
    input: &mut S,
    output: &mut K,
    table: &Words,
    pass: &mut Pass,
    gate: &G,
) -> Status
    requires first { IsFirstPass table.now pass.old }
    ensures race { DoesRace S.Source K.Sink table.now input.old input.new output.old output.new pass.old
        pass.new result }

    // What each fault comes of.
    ensures read_fault { CausesFault (S.faults input.old) (S.faults input.new)
        (result ≡ Status.ReadFault) }
    ensures rose { result ≡ Status.WriteFault → Rose (K.faults output.old) (K.faults output.new) }
    ensures later { K.faults output.old ≤ K.faults output.new }
    ensures too_long { StopsPastLongest S.Source input.old input.new (result ≡ Status.TooLong) }
{
    read_and_run(rt, alloc, input, output, table, pass, gate)
}

// Reads a race text, runs it and writes its output.
fn read_and_run<R: Threads + Wait + Sync, S: Source, K: Sink, G: Gate + Sync>(
    rt: &R,
    alloc: Global,
    input: &mut S,
    output: &mut K,
    table: &Words,
    pass: &mut Pass,
    gate: &G,
) -> Status
    requires { IsFirstPass table.now pass.old }
    ensures done { result ≡ Status.Done → ReadsText S.Source input.old input.new
        (IsRaced K.Sink table.now output.old output.new pass.new) }
    ensures bad_script { (line : ℕ) → result ≡ Status.BadScript line →
        ReadsText S.Source input.old input.new (IsRaceRefused K.Sink output.old output.new pass.old pass.new line) }
    ensures write_fault { result ≡ Status.WriteFault →
        ReadsText S.Source input.old input.new (IsRaceCutShort K.Sink table.now output.old output.new pass.new) }
    ensures memory { result ≡ Status.Memory → output.new ≡ output.old }
    ensures unread { (result ≡ Status.ReadFault) ⊎ (result ≡ Status.TooLong)
        → IsRaceUntouched output.old output.new pass.old pass.new }
    ensures ends { EndsScript result }
    ensures kept { IsPassOf table.now pass.new }
    ensures read_fault { CausesFault (S.faults input.old) (S.faults input.new)
        (result ≡ Status.ReadFault) }
    ensures rose { result ≡ Status.WriteFault → Rose (K.faults output.old) (K.faults output.new) }
    ensures later { K.faults output.old ≤ K.faults output.new }
    ensures too_long { StopsPastLongest S.Source input.old input.new (result ≡ Status.TooLong) }
    ensures of_race { IfSome (S.left input.old) (λ text. (setup : List ScriptCall) (race : List RaceLine) →
        length text ≤ LONGEST_INPUT → IsRaceText text setup race → (result ≡ Status.Done)
        ⊎ (result ≡ Status.ReadFault) ⊎ (result ≡ Status.WriteFault) ⊎ (result ≡ Status.Memory)) }
    ensures of_bad { IfSome (S.left input.old) (λ text. (line : ℕ) →
        length text ≤ LONGEST_INPUT → IsFirstBadRace text line → (result ≡ Status.BadScript line)
        ⊎ (result ≡ Status.ReadFault) ⊎ (result ≡ Status.Memory)) }
    ensures of_long { IfSome (S.left input.old) (λ text. LONGEST_INPUT < length text →
        (result ≡ Status.TooLong) ⊎ (result ≡ Status.ReadFault) ⊎ (result ≡ Status.Memory)) }
    ensures complete { IfSome (S.left input.old) (λ text. (setup : List ScriptCall) (race : List RaceLine) →
        length text ≤ LONGEST_INPUT → IsRaceText text setup race →
        ¬ Rose (S.faults input.old) (S.faults input.new) →
        ¬ Rose (K.faults output.old) (K.faults output.new) →
        (result ≡ Status.Done) ⊎ (result ≡ Status.Memory)) }
{
    match read_input(alloc, input) {
        Ok(text) => run_text(rt, alloc, &text, output, table, pass, gate),
        Err(status) => status,
    }
}

// Runs the race text that a text is.
fn run_text<R: Threads + Wait + Sync, K: Sink, G: Gate + Sync>(
    rt: &R,
    alloc: Global,
    text: &[u8],
    output: &mut K,
    table: &Words,
    pass: &mut Pass,
    gate: &G,
) -> Status
    requires { IsFirstPass table.now pass.old }
    ensures done { result ≡ Status.Done → IsRaced K.Sink table.now output.old output.new pass.new text.now }
    ensures bad_script { (line : ℕ) → result ≡ Status.BadScript line →
        IsRaceRefused K.Sink output.old output.new pass.old pass.new line text.now }
    ensures write_fault { result ≡ Status.WriteFault → IsRaceCutShort K.Sink table.now output.old output.new
        pass.new text.now }
    ensures rose { result ≡ Status.WriteFault → Rose (K.faults output.old) (K.faults output.new) }
    ensures memory { result ≡ Status.Memory → output.new ≡ output.old }
    ensures of_race { (setup : List ScriptCall) (race : List RaceLine) → IsRaceText text.now setup race →
        (result ≡ Status.Done) ⊎ (result ≡ Status.WriteFault) ⊎ (result ≡ Status.Memory) }
    ensures of_bad { (line : ℕ) → IsFirstBadRace text.now line →
        (result ≡ Status.BadScript line) ⊎ (result ≡ Status.Memory) }
    ensures ends { EndsText result }
    ensures kept { IsPassOf table.now pass.new }
    ensures later { K.faults output.old ≤ K.faults output.new }
{
    match parse_race(alloc, text) {
        Ok(lines) => match race(rt, alloc, table, pass, lines.setup(), lines.race(), gate) {
            Ok(text) => write(output, &text),
            Err(AllocError) => Status::Memory,
        },
        Err(ScriptError::BadLine { line }) => refuse(alloc, line, output),
        Err(ScriptError::Memory) => Status::Memory,
    }
}

// Writes the output.
fn write<K: Sink>(output: &mut K, bytes: &[u8]) -> Status
    ensures done { result ≡ Status.Done → IsWritten K.Sink output.old output.new bytes.now
        × (K.faults output.new ≡ K.faults output.old) }
    ensures write_fault { result ≡ Status.WriteFault → WritesPrefix K.Sink output.old output.new bytes.now
        × Rose (K.faults output.old) (K.faults output.new) }
    ensures either { (result ≡ Status.Done) ⊎ (result ≡ Status.WriteFault) }
    ensures later { K.faults output.old ≤ K.faults output.new }
{
    match write_out(output, bytes) {
        Ok(()) => Status::Done,
        Err(status) => status,
    }
}

// Makes the setup and runs the callers. Answers the output. At the end all passes are joined.
fn race<R: Threads + Wait + Sync, G: Gate + Sync>(
    rt: &R,
    alloc: Global,
    w: &Words,
    p: &mut Pass,
    setup: &[ScriptCall],
    lines: &[RaceLine],
    gate: &G,
) -> Result<Vec<u8>, AllocError>
    requires first { IsFirstPass w.now p.old }
    requires lines { MayRaceLines lines.now }
    ensures run { IfOk result (λ text. RunsTo w.now p.new setup.now lines.now text.items) }
    ensures kept { IsPassOf w.now p.new }
{
    let mut text = Vec::new(alloc);
    let mut desk = set_up(alloc, w, p, setup, &mut text)?;
    let mut racers = Vec::new(alloc);
    let run = run_callers(rt, alloc, w, &mut desk, lines, gate, &mut racers, &mut text);
    gather(w, p, racers);
    w.join(p, desk.into_pass());
    run?;
    Ok(text)
}

// Makes a racer for each caller, and lets them make their lines beside each other. Adds these to the text.
fn run_callers<R: Threads + Wait + Sync, G: Gate + Sync>(
    rt: &R,
    alloc: Global,
    w: &Words,
    d: &mut Desk,
    lines: &[RaceLine],
    gate: &G,
    racers: &mut Vec<Racer>,
    text: &mut Vec<u8>,
) -> Result<(), AllocError>
    requires stands { Stands w.now d.old }
    requires none { racers.old.items ≡ [] }
    requires pipes { ArePipes (limits_of w.now) (progress_of d.old).pipes }
    requires lines { MayRaceLines lines.now }
    ensures run { IfOk result (λ _. HaveRun w.now d.old lines.now racers.new.items) }
    ensures text { IfOk result (λ _. text.new.items ≡ text.old.items
        ++ callers_text 0 64 lines.now (replies_by lines.now racers.new.items)) }
    ensures racers { AreRacers w.now racers.new.items }
    ensures pass { IsPassOf w.now d.new.pass }
{
    let mut bells = Vec::new(alloc);
    let owners = set_off(alloc, w, d, lines, racers, &mut bells)?;
    run_threads(rt, alloc, w, lines, &bells, gate, racers);
    if !had_memory(racers) {
        return Err(AllocError);
    }
    join_ends(racers, owners);
    add_callers(alloc, lines, racers, text)
}

// Lets the racers make their lines, each in a thread of its own. All threads have returned at the end.
fn run_threads<R: Threads + Wait + Sync, G: Gate + Sync>(
    rt: &R,
    alloc: Global,
    w: &Words,
    lines: &[RaceLine],
    bells: &[SleeperBell],
    gate: &G,
    racers: &mut Vec<Racer>,
)
    requires set_off { All (IsSetOff w.now) racers.old.items }
    requires lines { MayRaceLines lines.now }
    ensures { HaveRaced w.now lines.now racers.old.items racers.new.items }
{
    let threads = racers.len().max(1);
    thread::for_each_mut(
        rt,
        racers.as_mut_slice(),
        threads,
        &|_, racer| { run_lines(rt, alloc, w, lines, bells, gate, racer) },
    );
}

// Whether none of them stopped for want of memory.
fn had_memory(racers: &[Racer]) -> bool
    ensures { IsTrue result ↔ All (λ r. IsFalse r.lacks_memory) racers.now }
{
    racers.iter().all(|racer| !racer.lacks_memory)
}

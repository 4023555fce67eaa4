//! All that the program does, from its words and its input to its output and its status.
ghost use Rattle.std.specs.Prelude.{◌≡◌, ◌≤◌, ◌⊎◌, ℕ, All, map};
ghost use Rattle.std.specs.String.{string_bytes};
ghost use Rattle.nio_bytes.specs.Cause.{Rose};
ghost use Rattle.nio_script.specs.Input.{CausesFault, StopsPastLongest};
ghost use Rattle.nio_script.specs.Run.{ReadsText};
ghost use Rattle.nio_words.specs.Passes.{IsFirstPass, limits_of};
ghost use Rattle.nio_run.specs.Commands.{DoesScript, DoesCheck, WritesLegal};
ghost use Rattle.nio_run.specs.Load.{DoesLoad};
ghost use Rattle.nio_run.specs.Many.{DoesMany};
ghost use Rattle.nio_run.specs.Packets.{DoesPackets};
ghost use Rattle.nio_run.specs.Proxy.{DoesProxy, HasOneNet};
ghost use Rattle.nio_run.specs.Words.{IsUsage};
ghost use Rattle.nio_command.specs.Words.{IsScriptCommand, IsCheckCommand, IsCheckFirstCommand, IsRaceCommand};
ghost use Rattle.nio_command.specs.Words.{BeginsPackets, BeginsProxy, HasOptions, IsLoadCommand, IsPacketsCommand};
ghost use Rattle.nio_command.specs.Words.{IsProxyCommand, IsTimedCommand, SaysNothing};
ghost use Rattle.nio_datagram.specs.Packets.{no_traffic};
ghost use Rattle.nio_datagram.specs.Serving.{client_chan, target_chan};
ghost use Rattle.nio_datagram.specs.Places.{IsFree};
ghost use Rattle.nio_relay.specs.declared.plan.PacketPlan.{PacketPlan};
ghost use Rattle.nio_link.specs.Nets.{view_of};
ghost use Rattle.nio_race.specs.Does.{DoesRace};
ghost use Rattle.nio_serve.specs.Serving.{IsFresh};
ghost use Rattle.nio_command.specs.declared.way.ProxyWay.{ProxyWay};
ghost use Rattle.nio_command.specs.declared.way.ProxyWay.TheVariants.{Many};
ghost use Rattle.nio_relay.specs.declared.plan.ProxyPlan.{ProxyPlan};
ghost use Rattle.nio_run.specs.Timed.{DoesTimed};

use crate::ended::Ended;
use crate::packets::relay_packets;
use crate::proxy::serve;
use crate::words::named;
use nio_base::{Gate, Limits};
use nio_bytes::{Sink, Source};
use nio_command::{Command, WordsError};
use nio_datagram::PacketNet;
use nio_link::Passable;
use nio_load::run_load;
use nio_plain::Rules;
use nio_poller::Bell;
use nio_race::run_race;
use nio_script::{Status, offer, run_check, run_script};
use nio_sole::Sole;
use nio_timed::run_timed;
use nio_words::{Pass, Words};
use std::alloc::{AllocError, AllocGlobal, Global};
use std::random::RandomSource;
use std::sync::Wait;
use std::thread::Threads;

/// How much a system of the program can hold.
pub const PROGRAM_LIMITS: Limits = Limits {
    callers: 64,
    selectors: 16,
    channels: 1_024,
    keys: 1_024,
};

/// The usage line, which is written where the words are no command.
const USAGE: &str =
    "usage: nio script | check | check-1 | race | proxy --way select|group|future|many --listen ADDR --target ADDR \
        --conns N [--workers W] | load N | packets --listen ADDR --local ADDR --target ADDR --count N | timed\n";

/// Does what the words say: all that the program does. `script`, `race` and `load` make their calls on this table, by
/// the rules of now; `check` and `check-1` make theirs on a system of their own with the same limits; `timed` makes its
/// calls on a group of its own; `proxy` relays over the net, in the way that the words say, with a table of its own;
/// the bell makes the net's poll return. `proxy --way many` also uses the first of the nets `more`, one for each worker
/// (`workers_of` says how many); the first of them have the bells `bells`, in their order. `packets` relays over the
/// net of packets, with a table of its own.
pub fn run<R, S: Source, K: Sink, N, D: PacketNet, B, G: Gate + Sync>(
    rt: &R,
    alloc: Global,
    words: &[String],
    input: &mut S,
    output: &mut K,
    table: &Words,
    pass: &mut Pass,
    net: N,
    more: &mut Vec<N>,
    packets: &mut D,
    bell: &B,
    bells: Vec<B>,
    gate: &G,
) -> Ended<N>
where
    R: Threads + Wait + RandomSource + AllocGlobal + Sync,
    N: Passable + Send + Drop,
    B: Bell + Sync + Drop,
    requires first { IsFirstPass table.now pass.old }
    requires limits { limits_of table.now ≡ PROGRAM_LIMITS }
    requires fresh { IsFresh (view_of N.Net net) }
    requires more { All (λ x. IsFresh (view_of N.Net x)) more.old.items }
    requires client_unused { D.traffic packets.old client_chan ≡ no_traffic }
    requires target_unused { D.traffic packets.old target_chan ≡ no_traffic }
    requires client_free { IsFree (D.place packets.old) client_chan }
    requires target_free { IsFree (D.place packets.old) target_chan }

    // The words are looked at first. There may be no memory to read the options of `proxy` or of `packets`.
    ensures usage { result.status ≡ Status.Usage → SaysNothing (map string_bytes words.now) }
    ensures nothing { SaysNothing (map string_bytes words.now) →
        (result.status ≡ Status.Usage)
        ⊎ ((result.status ≡ Status.Memory) × HasOptions (map string_bytes words.now)) }
    ensures usage_said { result.status ≡ Status.Usage →
        IsUsage K.Sink input.old input.new output.old output.new pass.old pass.new }
    ensures nothing_written { SaysNothing (map string_bytes words.now) → result.status ≡ Status.Memory →
        output.new ≡ output.old }
    ensures nothing_relayed { SaysNothing (map string_bytes words.now) →
        (result.net ≡ net) × (packets.new ≡ packets.old) }

    // What each command does.
    ensures script { IsScriptCommand (map string_bytes words.now) →
        DoesScript S.Source K.Sink table.now input.old input.new output.old output.new
        pass.old pass.new result.status }
    ensures race { IsRaceCommand (map string_bytes words.now) →
        DoesRace S.Source K.Sink table.now input.old input.new output.old output.new
        pass.old pass.new result.status }
    ensures check { IsCheckCommand (map string_bytes words.now) →
        DoesCheck S.Source K.Sink Rules.Now PROGRAM_LIMITS input.old input.new
        output.old output.new pass.old pass.new result.status }
    ensures check_first { IsCheckFirstCommand (map string_bytes words.now) →
        DoesCheck S.Source K.Sink Rules.First PROGRAM_LIMITS input.old input.new
        output.old output.new pass.old pass.new result.status }
    ensures timed { IsTimedCommand (map string_bytes words.now) →
        DoesTimed S.Source K.Sink input.old input.new output.old output.new result.status }
    ensures timed_alone { IsTimedCommand (map string_bytes words.now) → pass.new ≡ pass.old }
    ensures load { (rounds : ℕ) → IsLoadCommand (map string_bytes words.now) rounds →
        DoesLoad K.Sink table.now rounds output.old output.new pass.old pass.new result.status }
    ensures load_alone { (rounds : ℕ) → IsLoadCommand (map string_bytes words.now) rounds →
        input.new ≡ input.old }
    ensures proxy { (plan : ProxyPlan) (way : ProxyWay) → IsProxyCommand (map string_bytes words.now) plan way →
        HasOneNet way → DoesProxy K.Sink plan (view_of N.Net net) (view_of N.Net result.net) output.old output.new
        result.status }
    ensures proxy_alone { BeginsProxy (map string_bytes words.now) →
        (input.new ≡ input.old) × (pass.new ≡ pass.old) }
    ensures many { (plan : ProxyPlan) (workers : ℕ)
        → IsProxyCommand (map string_bytes words.now) plan (Many workers)
        → DoesMany K.Sink N.Net plan workers net result.net more.old.items more.new.items output.old output.new
        result.status }
    ensures no_workers { ((plan : ProxyPlan) (workers : ℕ)
        → IsProxyCommand (map string_bytes words.now) plan (Many workers) → ⊥)
        → more.new ≡ more.old }
    ensures no_net { (BeginsProxy (map string_bytes words.now) → ⊥) → result.net ≡ net }
    ensures packets { (plan : PacketPlan) → IsPacketsCommand (map string_bytes words.now) plan →
        DoesPackets K.Sink plan (D.traffic packets.old) (D.traffic packets.new) (D.place packets.old)
        (D.place packets.new) (D.packet_faults packets.old) (D.packet_faults packets.new) (D.poll_faults packets.old)
        (D.poll_faults packets.new) output.old output.new result.status }
    ensures packets_alone { BeginsPackets (map string_bytes words.now) →
        (input.new ≡ input.old) × (pass.new ≡ pass.old) }
    ensures no_packets { (BeginsPackets (map string_bytes words.now) → ⊥) → packets.new ≡ packets.old }

    // What `script` writes is legal for `check`.
    ensures legal { IsScriptCommand (map string_bytes words.now) → result.status ≡ Status.Done →
        ReadsText S.Source input.old input.new
        (WritesLegal K.Sink output.old output.new Rules.Now PROGRAM_LIMITS) }

    // What each fault comes of.
    ensures read_fault { CausesFault (S.faults input.old) (S.faults input.new)
        (result.status ≡ Status.ReadFault) }
    ensures rose { result.status ≡ Status.WriteFault → Rose (K.faults output.old) (K.faults output.new) }
    ensures later { K.faults output.old ≤ K.faults output.new }
    ensures too_long { StopsPastLongest S.Source input.old input.new (result.status ≡ Status.TooLong) }
{
    match named(alloc, words) {
        Ok(Command::Script) => Ended {
            status: run_on_table(alloc, input, output, table, pass),
            net,
        },
        Ok(Command::Check) => Ended {
            status: run_check(alloc, input, output, PROGRAM_LIMITS, Rules::Now),
            net,
        },
        Ok(Command::CheckFirst) => Ended {
            status: run_check(alloc, input, output, PROGRAM_LIMITS, Rules::First),
            net,
        },
        Ok(Command::Race) => Ended {
            status: run_race(rt, alloc, input, output, table, pass, gate),
            net,
        },
        Ok(Command::Timed) => Ended {
            status: run_timed(alloc, input, output),
            net,
        },
        Ok(Command::Load(rounds)) => Ended {
            status: load_on_table(alloc, rounds, output, table, pass),
            net,
        },
        Ok(Command::Proxy(plan, way)) => {
            serve(rt, alloc, output, net, more, bell, bells, gate, plan, way)
        }
        Ok(Command::Packets(plan)) => Ended {
            status: relay_packets(rt, alloc, output, packets, plan),
            net,
        },
        Err(WordsError::Usage) => {
            offer(output, USAGE.as_bytes());
            Ended {
                status: Status::Usage,
                net,
            }
        }
        Err(WordsError::Memory) => Ended {
            status: Status::Memory,
            net,
        },
    }
}

// Runs a script on the table.
fn run_on_table<S: Source, K: Sink>(
    alloc: Global,
    input: &mut S,
    output: &mut K,
    table: &Words,
    pass: &mut Pass,
) -> Status
    requires first { IsFirstPass table.now pass.old }
    ensures script { DoesScript S.Source K.Sink table.now input.old input.new output.old output.new pass.old pass.new
        result }
    ensures read_fault { CausesFault (S.faults input.old) (S.faults input.new)
        (result ≡ Status.ReadFault) }
    ensures rose { result ≡ Status.WriteFault → Rose (K.faults output.old) (K.faults output.new) }
    ensures later { K.faults output.old ≤ K.faults output.new }
    ensures too_long { StopsPastLongest S.Source input.old input.new (result ≡ Status.TooLong) }
{
    match Sole::make(alloc, table, pass) {
        Ok(mut sole) => {
            let status = run_script(alloc, input, output, &mut sole);
            table.join(pass, sole.into_pass());
            status
        }
        Err(AllocError) => Status::Memory,
    }
}

// Runs the generated script of so many rounds on the table.
fn load_on_table<K: Sink>(
    alloc: Global,
    rounds: u32,
    output: &mut K,
    table: &Words,
    pass: &mut Pass,
) -> Status
    requires first { IsFirstPass table.now pass.old }
    requires rounds { rounds ≤ 100000 }
    ensures load { DoesLoad K.Sink table.now rounds output.old output.new pass.old pass.new result }
    ensures rose { result ≡ Status.WriteFault → Rose (K.faults output.old) (K.faults output.new) }
    ensures later { K.faults output.old ≤ K.faults output.new }
{
    match Sole::make(alloc, table, pass) {
        Ok(mut sole) => {
            let status = run_load(alloc, rounds, output, &mut sole);
            table.join(pass, sole.into_pass());
            status
        }
        Err(AllocError) => Status::Memory,
    }
}

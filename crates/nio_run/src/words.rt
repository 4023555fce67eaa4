//! The command that the words of the command line say.
ghost use Rattle.std.specs.Prelude.{◌≡◌, ◌≢◌, ◌≤◌, ◌⊎◌, ◌↔◌, ℕ, IfOk, map};
ghost use Rattle.std.specs.String.{string_bytes};
ghost use Rattle.nio_command.specs.Words.{IsScriptCommand, IsCheckCommand, IsCheckFirstCommand, IsRaceCommand};
ghost use Rattle.nio_command.specs.Words.{HasOptions, IsLoadCommand, IsPacketsCommand, IsProxyCommand, IsTimedCommand};
ghost use Rattle.nio_command.specs.Words.{SaysNothing};
ghost use Rattle.nio_relay.specs.Plan.{IsRelayable};
ghost use Rattle.nio_relay.specs.declared.plan.PacketPlan.{PacketPlan};
ghost use Rattle.nio_relay.specs.declared.plan.ProxyPlan.{ProxyPlan};
ghost use Rattle.nio_run.specs.Proxy.{HasWorkers, IsServableBy};

use nio_command::{Command, ProxyWay, WordsError, command_of};
use std::alloc::{AllocError, Global};

/// The command that the words are, by each command.
pub fn named(alloc: Global, words: &[String]) -> Result<Command, WordsError>
    ensures script { (result ≡ Ok Command.Script) ↔ IsScriptCommand (map string_bytes words.now) }
    ensures check { (result ≡ Ok Command.Check) ↔ IsCheckCommand (map string_bytes words.now) }
    ensures check_first { (result ≡ Ok Command.CheckFirst) ↔ IsCheckFirstCommand (map string_bytes words.now) }
    ensures race { (result ≡ Ok Command.Race) ↔ IsRaceCommand (map string_bytes words.now) }
    ensures timed { (result ≡ Ok Command.Timed) ↔ IsTimedCommand (map string_bytes words.now) }
    ensures load { (rounds : ℕ) → (result ≡ Ok (Command.Load rounds))
        ↔ IsLoadCommand (map string_bytes words.now) rounds }
    ensures proxy { (plan : ProxyPlan) (way : ProxyWay) → result ≡ Ok (Command.Proxy plan way)
        → IsProxyCommand (map string_bytes words.now) plan way }
    ensures proxy_only { (plan : ProxyPlan) (way : ProxyWay) → IsProxyCommand (map string_bytes words.now) plan way
        → (result ≡ Ok (Command.Proxy plan way)) ⊎ (result ≡ Err WordsError.Memory) }
    ensures servable { (plan : ProxyPlan) (way : ProxyWay) → result ≡ Ok (Command.Proxy plan way)
        → IsServableBy way plan × HasWorkers way }
    ensures packets { (plan : PacketPlan) → result ≡ Ok (Command.Packets plan)
        → IsPacketsCommand (map string_bytes words.now) plan }
    ensures packets_only { (plan : PacketPlan) → IsPacketsCommand (map string_bytes words.now) plan
        → (result ≡ Ok (Command.Packets plan)) ⊎ (result ≡ Err WordsError.Memory) }
    ensures relayable { (plan : PacketPlan) → result ≡ Ok (Command.Packets plan) → IsRelayable plan }
    ensures usage { result ≡ Err WordsError.Usage → SaysNothing (map string_bytes words.now) }
    ensures nothing { SaysNothing (map string_bytes words.now) → (result ≡ Err WordsError.Usage)
        ⊎ (result ≡ Err WordsError.Memory) }
    ensures memory { result ≡ Err WordsError.Memory → HasOptions (map string_bytes words.now) }
{
    command_of(alloc, words)
}

/// How many nets `run` needs in `more`: as many as `proxy --way many` has workers, and none for other words.
pub fn workers_of(alloc: Global, words: &[String]) -> Result<usize, AllocError>
    ensures many { (plan : ProxyPlan) (workers : ℕ)
        → IsProxyCommand (map string_bytes words.now) plan (ProxyWay.Many workers)
        → IfOk result (λ count. count ≡ workers) }
    ensures others { ((plan : ProxyPlan) (workers : ℕ)
        → IsProxyCommand (map string_bytes words.now) plan (ProxyWay.Many workers) → ⊥)
        → IfOk result (λ count. count ≡ 0) }
    ensures few { IfOk result (λ count. count ≤ 15) }
{
    match named(alloc, words) {
        Ok(command) => Ok(workers_in(command)),
        Err(WordsError::Usage) => Ok(0),
        Err(WordsError::Memory) => Err(AllocError),
    }
}

// How many workers this command has that need a net each.
fn workers_in(command: Command) -> usize
    ensures many { (plan : ProxyPlan) (workers : ℕ) → command ≡ Command.Proxy plan (ProxyWay.Many workers)
        → result ≡ workers }
    ensures others { ((plan : ProxyPlan) (workers : ℕ) → command ≡ Command.Proxy plan (ProxyWay.Many workers) → ⊥)
        → result ≡ 0 }
{
    match command {
        Command::Proxy(_, way) => workers_by(way),
        _ => 0,
    }
}

// How many workers this way has that need a net each.
fn workers_by(way: ProxyWay) -> usize
    ensures many { (workers : ℕ) → way ≡ ProxyWay.Many workers → result ≡ workers }
    ensures others { ((workers : ℕ) → way ≡ ProxyWay.Many workers → ⊥) → result ≡ 0 }
{
    match way {
        ProxyWay::Many(workers) => workers as usize,
        ProxyWay::Select | ProxyWay::Group(_) | ProxyWay::Future => 0,
    }
}

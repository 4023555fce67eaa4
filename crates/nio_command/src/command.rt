//! The commands of the program, and how they are read from the words of the command line.
ghost use Rattle.std.specs.Prelude.{◌≡◌, ◌≢◌, ◌↔◌, List, ℕ, ◌∷◌, [], map, codes, Ok, Err, Some, IfSome};
ghost use Rattle.std.specs.String.{string_bytes};
ghost use Rattle.nio_command.specs.Words.{HasOptions, IsCommand, IsPacketsCommand, IsProxyCommand, SaysNothing};

use crate::number::read_number;
use crate::packet_options::read_packet_options;
use crate::plan::{read_packet_plan, read_proxy_plan};
use crate::proxy_options::read_proxy_options;
use crate::way::ProxyWay;
use nio_relay::{PacketPlan, ProxyPlan};
use std::alloc::{AllocError, Global};

/// A command of the program.
#[derive(Clone, Copy, Debug, PartialEq, Eq)]
pub enum Command {
    /// `script`: reads a script and writes its history.
    Script,
    /// `check`: reads a history text and says whether it is legal by the rules of now.
    Check,
    /// `check-1`: reads a history text and says whether it is legal by the first rules.
    CheckFirst,
    /// `race`: reads a race, runs each of its callers in a thread, and writes their lines with the replies.
    Race,
    /// `timed`: reads a timed script and writes its history.
    Timed,
    /// `load N`: runs a generated script of N rounds, and writes a summary of the replies.
    Load(u32),
    /// `proxy` and its options: relays TCP connections as this plan says, and waits for them in this way.
    Proxy(ProxyPlan, ProxyWay),
    /// `packets` and its options: relays UDP packets as this plan says.
    Packets(PacketPlan),
}

/// Why the words of a command line aren't a command.
#[derive(Clone, Copy, Debug, PartialEq, Eq)]
pub enum WordsError {
    /// The program has no such command.
    Usage,
    /// There was no memory to read the options of `proxy` or of `packets`.
    Memory,
}

impl From<AllocError> for WordsError {
    ghost use Rattle.nio_command.specs.declared.command.WordsError.TheVariants.{Memory};

    ghost from_gives = { λ _ e. e ≡ Memory };

    fn from(_error: AllocError) -> Self {
        WordsError::Memory
    }
}

/// Reads the words of a command line, without the program's name, as a command. Memory is taken only where the first
/// word is `proxy` or `packets`.
pub fn command_of(alloc: Global, words: &[String]) -> Result<Command, WordsError>
    ensures found { (command : Command) → result ≡ Ok command
        → IsCommand (map string_bytes words.now) command }
    ensures only { (command : Command) → IsCommand (map string_bytes words.now) command
        → result ≢ Err WordsError.Memory → result ≡ Ok command }
    ensures usage { result ≢ Err WordsError.Memory
        → (result ≡ Err WordsError.Usage ↔ SaysNothing (map string_bytes words.now)) }
    ensures memory { result ≡ Err WordsError.Memory → HasOptions (map string_bytes words.now) }
{
    match words {
        [word] => command_named(word.as_str()).ok_or(WordsError::Usage),
        [word, options @ ..] if word.as_str() == "proxy" => {
            let (plan, way) = read_proxy(alloc, options)?;
            Ok(Command::Proxy(plan, way))
        }
        [word, options @ ..] if word.as_str() == "packets" => {
            Ok(Command::Packets(read_packets(alloc, options)?))
        }
        [word, rounds] if word.as_str() == "load" => {
            read_load(rounds.as_str()).ok_or(WordsError::Usage)
        }
        _ => Err(WordsError::Usage),
    }
}

// Reads a command that has one word only.
fn command_named(word: &str) -> Option<Command>
    ensures found { IfSome result (λ command. IsCommand (word.now ∷ []) command) }
    ensures only { (command : Command) → IsCommand (word.now ∷ []) command
        → result ≡ Some command }
{
    match word {
        "script" => Some(Command::Script),
        "check" => Some(Command::Check),
        "check-1" => Some(Command::CheckFirst),
        "race" => Some(Command::Race),
        "timed" => Some(Command::Timed),
        _ => None,
    }
}

// Reads the word after `load` as a number of rounds.
fn read_load(word: &str) -> Option<Command>
    ensures found { IfSome result (λ command. IsCommand (codes "load" ∷ word.now ∷ []) command) }
    ensures only { (command : Command) → IsCommand (codes "load" ∷ word.now ∷ []) command
        → result ≡ Some command }
{
    let rounds = read_number(word, 1, 100_000)?;
    Some(Command::Load(rounds))
}

// Reads the words after `proxy` as a plan and a way.
fn read_proxy(alloc: Global, words: &[String]) -> Result<(ProxyPlan, ProxyWay), WordsError>
    ensures found { (plan : ProxyPlan) (way : ProxyWay) → result ≡ Ok (plan, way)
        → IsProxyCommand (codes "proxy" ∷ map string_bytes words.now) plan way }
    ensures only { (plan : ProxyPlan) (way : ProxyWay)
        → IsProxyCommand (codes "proxy" ∷ map string_bytes words.now) plan way
        → result ≢ Err WordsError.Memory → result ≡ Ok (plan, way) }
{
    let texts = read_proxy_options(alloc, words)?.ok_or(WordsError::Usage)?;
    read_proxy_plan(texts).ok_or(WordsError::Usage)
}

// Reads the words after `packets` as a plan.
fn read_packets(alloc: Global, words: &[String]) -> Result<PacketPlan, WordsError>
    ensures found { (plan : PacketPlan) → result ≡ Ok plan
        → IsPacketsCommand (codes "packets" ∷ map string_bytes words.now) plan }
    ensures only { (plan : PacketPlan) → IsPacketsCommand (codes "packets" ∷ map string_bytes words.now) plan
        → result ≢ Err WordsError.Memory → result ≡ Ok plan }
{
    let texts = read_packet_options(alloc, words)?.ok_or(WordsError::Usage)?;
    read_packet_plan(texts).ok_or(WordsError::Usage)
}

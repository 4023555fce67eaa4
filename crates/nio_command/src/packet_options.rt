//! The options of `packets`, read as texts.
ghost use Rattle.std.specs.Prelude.{◌≡◌, IfOk, IfSome, IsSomeAnd, map};
ghost use Rattle.std.specs.String.{string_bytes};
ghost use Rattle.clap.specs.Words.{app_of, found_of};
ghost use Rattle.nio_command.specs.Apps.{packets_app};
ghost use Rattle.nio_command.specs.Options.{AreOptions};
ghost use Rattle.nio_command.specs.Texts.{AreNoPacketOptions, FindsPacketValues, packet_texts_of};
ghost use Rattle.nio_command.specs.Values.{PacketValues, packet_options};

use crate::options::{find_options, option, without_options};
use clap::{ArgMatches, Command};
use std::alloc::{AllocError, Global};

/// The values of the options of `packets`, as they are written on the command line.
#[derive(Clone, Copy, Debug, PartialEq, Eq)]
pub struct PacketTexts<'a> {
    /// `--listen`: the address at which the client's packets come.
    pub listen: &'a str,
    /// `--local`: the address from which they are sent on.
    pub local: &'a str,
    /// `--target`: the address to which they are sent on.
    pub target: &'a str,
    /// `--count`: how many packets of the client are sent on before the relay ends.
    pub count: &'a str,
}

/// Reads the words after `packets` as its options. `Ok(None)` where they aren't the four options, each given once.
pub fn read_packet_options<'a>(
    alloc: Global,
    words: &'a [String],
) -> Result<Option<PacketTexts<'a>>, AllocError>
    ensures found { IfOk result (λ read. IfSome read (λ t.
        AreOptions (map string_bytes words.now) (packet_options (packet_texts_of t)))) }
    ensures only { (v : PacketValues) → AreOptions (map string_bytes words.now) (packet_options v)
        → AreNoPacketOptions v → IfOk result (λ read. IsSomeAnd read (λ t. packet_texts_of t ≡ v)) }
{
    let command = packets_command(alloc)?;
    match find_options(command, words)? {
        Some(matches) => Ok(texts_found(&matches)),
        None => Ok(None),
    }
}

// Describes the options of `packets` to `clap`.
fn packets_command<'a>(alloc: Global) -> Result<Command<'a>, AllocError>
    ensures { IfOk result (λ c. app_of c ≡ packets_app) }
{
    without_options(alloc)
        .arg(option(alloc, "listen", true))?
        .arg(option(alloc, "local", true))?
        .arg(option(alloc, "target", true))?
        .arg(option(alloc, "count", true))
}

// The values of the options, if `clap` found them.
fn texts_found<'a>(matches: &ArgMatches<'a>) -> Option<PacketTexts<'a>>
    ensures found { IfSome result (λ t. FindsPacketValues (found_of matches.now) (packet_texts_of t)) }
    ensures only { (v : PacketValues) → FindsPacketValues (found_of matches.now) v
        → IsSomeAnd result (λ t. packet_texts_of t ≡ v) }
{
    Some(PacketTexts {
        listen: matches.get_str("listen")?,
        local: matches.get_str("local")?,
        target: matches.get_str("target")?,
        count: matches.get_str("count")?,
    })
}

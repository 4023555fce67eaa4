//! The options of `proxy`, read as texts.
ghost use Rattle.std.specs.Prelude.{◌≡◌, IfOk, IfSome, IsSomeAnd, map};
ghost use Rattle.std.specs.String.{string_bytes};
ghost use Rattle.clap.specs.Words.{app_of, found_of};
ghost use Rattle.nio_command.specs.Apps.{proxy_app};
ghost use Rattle.nio_command.specs.Options.{AreOptions};
ghost use Rattle.nio_command.specs.Texts.{AreNoOptions, FindsValues, texts_of};
ghost use Rattle.nio_command.specs.Values.{ProxyValues, proxy_options};

use crate::options::{find_options, option, without_options};
use clap::{ArgMatches, Command};
use std::alloc::{AllocError, Global};

/// The values of the options of `proxy`, as they are written on the command line.
#[derive(Clone, Copy, Debug, PartialEq, Eq)]
pub struct ProxyTexts<'a> {
    /// `--way`: how the proxy waits for its connections.
    pub way: &'a str,
    /// `--listen`: the address at which it accepts connections.
    pub listen: &'a str,
    /// `--target`: the address to which it connects for each of them.
    pub target: &'a str,
    /// `--conns`: how many connections it relays before it ends.
    pub conns: &'a str,
    /// `--workers`, where it is given: how many workers there are.
    pub workers: Option<&'a str>,
}

/// Reads the words after `proxy` as its options. `Ok(None)` where they aren't the four required options and
/// perhaps `--workers`, each given once.
pub fn read_proxy_options<'a>(
    alloc: Global,
    words: &'a [String],
) -> Result<Option<ProxyTexts<'a>>, AllocError>
    ensures found { IfOk result (λ read. IfSome read (λ t.
        AreOptions (map string_bytes words.now) (proxy_options (texts_of t)))) }
    ensures only { (v : ProxyValues) → AreOptions (map string_bytes words.now) (proxy_options v)
        → AreNoOptions v → IfOk result (λ read. IsSomeAnd read (λ t. texts_of t ≡ v)) }
{
    let command = proxy_command(alloc)?;
    match find_options(command, words)? {
        Some(matches) => Ok(texts_found(&matches)),
        None => Ok(None),
    }
}

// Describes the options of `proxy` to `clap`.
fn proxy_command<'a>(alloc: Global) -> Result<Command<'a>, AllocError>
    ensures { IfOk result (λ c. app_of c ≡ proxy_app) }
{
    without_options(alloc)
        .arg(option(alloc, "way", true))?
        .arg(option(alloc, "listen", true))?
        .arg(option(alloc, "target", true))?
        .arg(option(alloc, "conns", true))?
        .arg(option(alloc, "workers", false))
}

// The values of the options, if `clap` found those that are required.
fn texts_found<'a>(matches: &ArgMatches<'a>) -> Option<ProxyTexts<'a>>
    ensures found { IfSome result (λ t. FindsValues (found_of matches.now) (texts_of t)) }
    ensures only { (v : ProxyValues) → FindsValues (found_of matches.now) v
        → IsSomeAnd result (λ t. texts_of t ≡ v) }
{
    Some(ProxyTexts {
        way: matches.get_str("way")?,
        listen: matches.get_str("listen")?,
        target: matches.get_str("target")?,
        conns: matches.get_str("conns")?,
        workers: matches.get_str("workers"),
    })
}

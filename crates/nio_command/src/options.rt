//! The options behind the first word of a command, found with `clap`. Each takes one value.
ghost use Rattle.std.specs.Prelude.{◌≡◌, IfOk, IfSome, IsSome, [], false, true, map, codes};
ghost use Rattle.std.specs.List.{list_any};
ghost use Rattle.std.specs.Str.{bytes_eq};
ghost use Rattle.std.specs.String.{string_bytes};
ghost use Rattle.clap.specs.Words.{app_of, fault_of, is_simple_and_free, rule_of};
ghost use Rattle.nio_command.specs.Apps.{added_rule, no_options};
ghost use Rattle.nio_command.specs.Texts.{IsParse, NoDashes};

use clap::error::ErrorKind;
use clap::{Arg, ArgMatches, Command};
use std::alloc::{AllocError, Global};

/// A command without options. `clap` is given only the words after the first. There is no option for help.
pub fn without_options<'a>(alloc: Global) -> Command<'a>
    ensures { app_of result ≡ no_options }
{
    Command::new(alloc, "nio")
        .no_binary_name(true)
        .disable_help_flag(true)
}

/// The option `--name`, which takes one value.
pub fn option<'a>(alloc: Global, name: &'a str, required: bool) -> Arg<'a>
    ensures rule { rule_of result ≡ added_rule name.entry.now required }
    ensures local { result.global ≡ false }
{
    Arg::new(alloc, name).long(name).required(required)
}

/// Finds the options of a command in these words. `Ok(None)` where the words aren't options of this command, each
/// once at most and all required ones among them.
pub fn find_options<'a>(
    command: Command<'a>,
    words: &'a [String],
) -> Result<Option<ArgMatches<'a>>, AllocError>
    requires { is_simple_and_free (app_of command) ≡ true }
    ensures found { IfOk result (λ read. IfSome read
        (IsParse (app_of command.entry) (map string_bytes words.now))) }
    ensures only { NoDashes (map string_bytes words.now)
        → fault_of (app_of command.entry) (map string_bytes words.now) ≡ [] → IfOk result IsSome }
{
    if has_dashes(words) {
        return Ok(None);
    }
    match command.try_get_matches_from(words) {
        Ok(matches) => Ok(Some(matches)),
        Err(error) if error.kind() == ErrorKind::OutOfMemory => Err(AllocError),
        Err(_) => Ok(None),
    }
}

// Whether one of the words is `--`. `clap` reads no word after it as an option.
fn has_dashes(words: &[String]) -> bool
    ensures { result ≡ list_any (λ w. bytes_eq (string_bytes w) (codes "--")) words.now }
{
    for word in words {
        if word.as_str() == "--" {
            return true;
        }
    }
    false
}

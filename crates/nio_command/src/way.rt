//! How the proxy waits for its connections, and how that is read from the options.
ghost use Rattle.std.specs.Prelude.{◌≡◌, ℕ, IfSome, None, Some};
ghost use Rattle.nio_command.specs.Words.{AsksForWay, AsksForWorkers};
ghost use Rattle.nio_command.specs.Texts.{text_of};

use crate::number::read_number;

/// How many workers there are where the words don't say it.
const DEFAULT_WORKERS: u32 = 4;

/// How many workers a group has at most.
const MOST_OF_GROUP: u32 = 64;

/// How many workers there are at most that have a selector each.
const MOST_SELECTORS: u32 = 15;

/// How the proxy waits for its connections.
#[derive(Clone, Copy, Debug, PartialEq, Eq)]
pub enum ProxyWay {
    /// `select`: by a selector, in one thread.
    Select,
    /// `group`: by the operations of an asynchronous channel group, with so many workers, each in a thread of its own.
    Group(u32),
    /// `future`: by operations that have tickets, in one thread.
    Future,
    /// `many`: by a selector that accepts, and by so many workers, each in a thread of its own, with a net and a selector
    /// of its own.
    Many(u32),
}

/// Reads the values of `--way` and of `--workers`. None where one of them isn't valid, or the second is given with
/// `select` or with `future`.
pub fn read_way(way: &str, workers: Option<&str>) -> Option<ProxyWay>
    ensures found { IfSome result (λ read. AsksForWay way.now (text_of workers.entry) read) }
    ensures only { (read : ProxyWay) → AsksForWay way.now (text_of workers.entry) read → result ≡ Some read }
{
    match way {
        "select" => without_workers(workers, ProxyWay::Select),
        "group" => Some(ProxyWay::Group(read_workers(workers, MOST_OF_GROUP)?)),
        "future" => without_workers(workers, ProxyWay::Future),
        "many" => Some(ProxyWay::Many(read_workers(workers, MOST_SELECTORS)?)),
        _ => None,
    }
}

// A way with which no number of workers is given.
fn without_workers(workers: Option<&str>, way: ProxyWay) -> Option<ProxyWay>
    ensures found { IfSome result (λ read. (read ≡ way) × (text_of workers.entry ≡ None)) }
    ensures only { text_of workers.entry ≡ None → result ≡ Some way }
{
    match workers {
        None => Some(way),
        Some(_) => None,
    }
}

// Reads the value of `--workers`, if it is given: a number up to `most`.
fn read_workers(workers: Option<&str>, most: u32) -> Option<u32>
    ensures found { IfSome result (λ count. AsksForWorkers most (text_of workers.entry) count) }
    ensures only { (count : ℕ) → AsksForWorkers most (text_of workers.entry) count → result ≡ Some count }
{
    match workers {
        None => Some(DEFAULT_WORKERS),
        Some(text) => read_number(text, 1, most),
    }
}

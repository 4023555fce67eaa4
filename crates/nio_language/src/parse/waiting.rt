//! How long a selection waits: `now`, `wait`, or `for` a time in milliseconds.
ghost use Rattle.std.specs.Prelude.{◌≡◌, ◌↔◌, ◌<◌, ◌^◌, ◌∷◌, IsTrue, map, neg_ℤ, pos};
ghost use Rattle.std.specs.Fmt.{signed_decimal};
ghost use Rattle.nio_language.specs.Arguments.{IsMilliseconds, IsTime, ReadsArguments, selector_wait, waiting_words};
ghost use Rattle.nio_language.specs.Reading.{Reads};

use super::name::read_selector;
use super::number::read_number;
use crate::call::Waiting;
use nio_base::SelNo;

/// A selector, and how long to wait.
pub fn read_wait(args: &[&[u8]]) -> Option<(SelNo, Waiting)>
    ensures { ReadsArguments (λ p. selector_wait p.0 p.1) (map (λ w. w.now) args.now) result }
{
    let (selector, waiting) = args.split_first()?;
    let selector = read_selector(selector)?;
    let waiting = read_waiting(waiting)?;
    Some((selector, waiting))
}

fn read_waiting(args: &[&[u8]]) -> Option<Waiting>
    ensures { Reads IsTime waiting_words (map (λ w. w.now) args.now) result }
{
    match args {
        [word] if is_word(word, b"now") => Some(Waiting::Now),
        [word] if is_word(word, b"wait") => Some(Waiting::Wait),
        [word, time] if is_word(word, b"for") => read_time(time).map(Waiting::For),
        _ => None,
    }
}

pub(super) fn is_word(word: &[u8], wanted: &[u8]) -> bool
    ensures { IsTrue result ↔ (word.now ≡ wanted.now) }
{
    word == wanted
}

/// A number of milliseconds, less than 2^63 either way.
fn read_time(word: &[u8]) -> Option<i64>
    ensures { Reads IsMilliseconds signed_decimal word.now result }
{
    match word {
        [b'-', digits @ ..] => read_below_zero(digits),
        _ => {
            let after = read_number(word, TIME_LIMIT)?;
            Some(after as i64)
        }
    }
}

/// The number whose digits stand behind a minus.
fn read_below_zero(digits: &[u8]) -> Option<i64>
    ensures { Reads IsMilliseconds signed_decimal (45 ∷ digits.now) result }
{
    let before = read_number(digits, TIME_LIMIT)?;
    if before == 0 {
        None
    } else {
        Some(negated(before))
    }
}

fn negated(number: u64) -> i64
    requires { number < 2 ^ 63 }
    ensures { result ≡ neg_ℤ (pos number) }
{
    -(number as i64)
}

/// The most milliseconds that a line can say.
const TIME_LIMIT: u64 = 9_223_372_036_854_775_807;

//! Decimal numbers, without a sign and without needless leading zeros.
ghost use Rattle.std.specs.Prelude.{◌≡◌, ◌<◌, ◌≤◌, IsTrue, ◌↔◌, length, slice_index, ◌≢◌};
ghost use Rattle.std.specs.Fmt.{decimal};
ghost use Rattle.nio_language.specs.Reading.{Reads};

use std::str;

/// The number that a text is in decimal, where it is at most `max`.
pub fn read_number(text: &[u8], max: u64) -> Option<u64>
    ensures { Reads (λ n. n ≤ max) decimal text.now result }
{
    if !begins_as_number(text) {
        return None;
    }
    let Ok(digits) = str::from_utf8(text) else {
        return None;
    };
    let Ok(number) = digits.parse::<u64>() else {
        return None;
    };
    if number <= max { Some(number) } else { None }
}

/// Whether no sign and no needless zero stands before the other bytes.
fn begins_as_number(text: &[u8]) -> bool
    ensures { IsTrue result
        ↔ ((slice_index text.now 0 ≢ 43) × (slice_index text.now 0 ≡ 48 → length text.now ≡ 1)) }
{
    match text.first() {
        Some(b'+') => false,
        Some(b'0') => text.len() == 1,
        _ => true,
    }
}

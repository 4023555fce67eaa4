//! Decimal numbers, without a sign and without leading zeros.
ghost use Rattle.std.specs.Prelude.{◌≡◌, ◌≢◌, ◌≤◌, ◌↔◌, ℕ, IfSome, IsTrue, Some, length, slice_index};
ghost use Rattle.std.specs.Fmt.{decimal};

/// Reads a decimal number from `least` to `most`. None where the text isn't one, or has a sign or a leading zero.
pub fn read_number(text: &str, least: u32, most: u32) -> Option<u32>
    ensures found { IfSome result (λ n. (least ≤ n) × (n ≤ most) × (text.now ≡ decimal n)) }
    ensures only { (n : ℕ) → least ≤ n → n ≤ most → text.now ≡ decimal n → result ≡ Some n }
{
    if !begins_as_number(text) {
        return None;
    }
    let Ok(number) = text.parse::<u32>() else {
        return None;
    };
    if least <= number && number <= most {
        Some(number)
    } else {
        None
    }
}

// Whether the text begins neither with a plus sign nor with a zero that other characters follow.
fn begins_as_number(text: &str) -> bool
    ensures { IsTrue result
        ↔ ((slice_index text.now 0 ≢ 43) × (slice_index text.now 0 ≡ 48 → length text.now ≡ 1)) }
{
    match text.as_bytes().first() {
        Some(b'+') => false,
        Some(b'0') => text.len() == 1,
        _ => true,
    }
}

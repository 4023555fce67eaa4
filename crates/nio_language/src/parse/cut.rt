//! Taking a text apart at a byte.
ghost use Rattle.std.specs.Prelude.{◌≡◌, ◌≢◌, ℕ, List, ◌∷◌, ◌++◌, All, IfSome, IsSomeAnd, position, ◌==◌, ◌<◌, length};

/// What stands before and after the first such byte.
pub fn cut_at(text: &[u8], byte: u8) -> Option<(&[u8], &[u8])>
    ensures found { IfSome result (λ p. text.now ≡ p.0.now ++ byte ∷ p.1.now) }
    ensures only { (before after : List ℕ) → All (λ b. b ≢ byte) before
        → text.now ≡ before ++ byte ∷ after
        → IsSomeAnd result (λ p. (p.0.now ≡ before) × (p.1.now ≡ after)) }
{
    let place = first_place(text, byte)?;
    Some((&text[..place], &text[place + 1..]))
}

fn first_place(text: &[u8], byte: u8) -> Option<usize>
    ensures place { result ≡ position (λ b. b == byte) text.now }
    ensures within { IfSome result (λ i. i < length text.now) }
{
    text.iter().position(|b| *b == byte)
}

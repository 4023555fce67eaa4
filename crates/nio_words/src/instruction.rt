//! The atomic instructions of the table's steps.
ghost use Rattle.std.specs.Prelude.{◌≡◌};
ghost use Rattle.nio_words.specs.Instructions.{put_bit};

/// What one step does to its word. It finds what stood there before.
#[derive(Clone, Copy)]
pub enum Instruction {
    /// Leaves the word as it is.
    Load,
    /// Sets this bit.
    SetBit(u32),
    /// Clears this bit.
    ClearBit(u32),
    /// Sets these bits.
    Or(u64),
    /// Clears all bits but these.
    And(u64),
    /// Adds this number.
    Add(u64),
    /// Subtracts this number.
    Subtract(u64),
    /// Raises the word to this number, unless it is at least as high.
    Max(u64),
    /// Puts this word in its place.
    Swap(u64),
    /// Where the first word stands there, puts the second in its place.
    Exchange(u64, u64),
}

impl Instruction {
    /// Sets the bit where `set`, and else clears it.
    #[inline(always)]
    pub(crate) fn to_put_bit(k: u32, set: bool) -> Instruction
        ensures { result ≡ put_bit k set }
    {
        if set {
            Instruction::SetBit(k)
        } else {
            Instruction::ClearBit(k)
        }
    }
}

//! Where the rows of words begin.
ghost use Rattle.std.specs.Prelude.{◌≡◌};
ghost use Rattle.nio_base.specs.Limits.{IsFit};
ghost use Rattle.nio_words.specs.Places.{free_words as words_of_free};
ghost use Rattle.nio_words.specs.RowStarts.{AreRowStarts};

use nio_base::Limits;

/// How many words the free indexes of a selector have, and how many its touched ones.
#[inline(always)]
pub(crate) fn free_words(limits: &Limits) -> usize
    requires { IsFit limits.now }
    ensures { result ≡ words_of_free limits.now }
{
    (limits.keys as usize + 63) / 64
}

/// The places of the first words of rows. They depend on the limits alone, so a table computes them once, and a step
/// adds only its part's column.
#[derive(Clone, Copy)]
pub struct RowStarts {
    pub(crate) gates: usize,
    pub(crate) stages: usize,
    pub(crate) interests: usize,
    pub(crate) marks: usize,
    pub(crate) notes: usize,
    pub(crate) frees: usize,
    pub(crate) touched: usize,
    pub(crate) listers: usize,
}

impl RowStarts {
    pub(crate) fn of(limits: &Limits) -> RowStarts
        requires { IsFit limits.now }
        ensures { AreRowStarts limits.now result }
    {
        let selectors = limits.selectors as usize;
        let channels = limits.channels as usize;
        let of_keys = selectors * limits.keys as usize;
        let gates = 5 + channels + channels + channels * selectors;
        let stages = gates + selectors + selectors + selectors;
        let interests = stages + of_keys;
        let marks = interests + of_keys;
        let notes = marks + of_keys;
        let frees = notes + of_keys;
        let touched = frees + selectors * free_words(limits);
        RowStarts {
            gates,
            stages,
            interests,
            marks,
            notes,
            frees,
            touched,
            listers: touched + selectors * free_words(limits),
        }
    }
}

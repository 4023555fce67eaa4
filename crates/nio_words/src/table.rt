//! Making a table.
ghost use Rattle.std.specs.Prelude.{◌≡◌, IfOk};
ghost use Rattle.nio_base.specs.Limits.{IsFit};
ghost use Rattle.nio_words.specs.Encodings.{limits_word as word_of_limits};
ghost use Rattle.nio_words.specs.Passes.{IsFirstPass, limits_of};
ghost use Rattle.nio_words.specs.Places.{word_count as count_of_words};

use crate::part::LIMITS;
use crate::row_starts::{RowStarts, free_words};
use crate::words::{Pass, Words};
use atomic_table::Table;
use nio_base::Limits;
use std::alloc::{AllocError, Global};

fn word_count(limits: &Limits) -> usize
    requires { IsFit limits.now }
    ensures { result ≡ count_of_words limits.now }
{
    let selectors = limits.selectors as usize;
    let channels = limits.channels as usize;
    let of_keys = selectors * limits.keys as usize;
    let of_words = selectors * free_words(limits);
    5 + channels
        + channels
        + channels * selectors
        + selectors
        + selectors
        + selectors
        + of_keys
        + of_keys
        + of_keys
        + of_keys
        + of_words
        + of_words
        + selectors
}

fn limits_word(limits: &Limits) -> u64
    requires { IsFit limits.now }
    ensures { result ≡ word_of_limits limits.now }
{
    u64::from(limits.callers)
        + u64::from(limits.selectors) * (1 << 8)
        + u64::from(limits.channels) * (1 << 16)
        + u64::from(limits.keys) * (1 << 40)
}

impl Words {
    /// A table in the opening state, and its first pass.
    pub fn make(alloc: Global, limits: Limits) -> Result<(Words, Pass), AllocError>
        requires { IsFit limits }
        ensures limits { IfOk result (λ made. limits_of made.0 ≡ limits) }
        ensures pass { IfOk result (λ made. IsFirstPass made.0 made.1) }
    {
        let mut words = vec![in alloc; 0u64; word_count(&limits)]?;
        words[LIMITS] = limits_word(&limits);
        let (table, seat) = Table::of_words(alloc, words.as_slice(), &limits)?;
        let starts = RowStarts::of(&limits);
        Ok((
            Words {
                limits,
                starts,
                table,
            },
            Pass { numbers: 0, seat },
        ))
    }

    /// How many callers, selectors, channels and keys the table has words for.
    pub fn limits(&self) -> Limits
        ensures { result ≡ limits_of self.now }
    {
        self.limits
    }
}

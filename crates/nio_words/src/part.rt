//! The parts of the shared state, and where the word of each stands in the table.
ghost use Rattle.std.specs.Prelude.{◌≡◌, ◌<◌};
ghost use Rattle.nio_base.specs.Limits.{IsFit};
ghost use Rattle.nio_words.specs.Places.{IsWithin, place, word_count};
ghost use Rattle.nio_words.specs.RowStarts.{AreRowStarts};

use crate::row_starts::{RowStarts, free_words};
use nio_base::Limits;

/// A part of the state that one word holds, with the numbers that it is of.
#[derive(Clone, Copy)]
pub enum Part {
    /// Which callers are drawn.
    Callers,
    /// Which callers are interrupted.
    Interrupts,
    /// Which selectors are made.
    Selectors,
    /// The channels' high-water mark.
    ChannelsHigh,
    /// A channel.
    Chan(u32),
    /// Who holds a channel.
    Hold(u32),
    /// The key that is enrolled for a channel in a selector.
    Enrolled(u32, u32),
    /// The gate of a selector.
    Gate(u32),
    /// Who has the turn of a selector.
    Turn(u32),
    /// The keys' high-water mark of a selector.
    KeysHigh(u32),
    /// The stage of an index's key, and how many pins are on the index.
    Key(u32, u32),
    /// A key's interest set.
    Interest(u32, u32),
    /// Whether a key is selected, and its ready set.
    Mark(u32, u32),
    /// A key's attachment.
    Note(u32, u32),
    /// Which of 64 indexes of a selector are free.
    Free(u32, u32),
    /// Which of 64 indexes of a selector are touched.
    Touched(u32, u32),
    /// Who has the list of a selector.
    Lister(u32),
}

/// The place of the word of the drawn callers.
pub(crate) const CALLERS: usize = 0;

/// The place of the word that holds the limits, which no step changes.
pub(crate) const LIMITS: usize = 1;

/// The place of a part's word.
#[inline(always)]
pub(crate) fn place_of(limits: &Limits, starts: &RowStarts, part: Part) -> usize
    requires fit { IsFit limits.now }
    requires starts { AreRowStarts limits.now starts.now }
    requires within { IsWithin limits.now part }
    ensures place { result ≡ place limits.now part }
    ensures inside { result < word_count limits.now }
{
    let selectors = limits.selectors as usize;
    let channels = limits.channels as usize;
    let keys = limits.keys as usize;
    match part {
        Part::Callers => 0,
        Part::Interrupts => 2,
        Part::Selectors => 3,
        Part::ChannelsHigh => 4,
        Part::Chan(c) => 5 + c as usize,
        Part::Hold(c) => 5 + channels + c as usize,
        Part::Enrolled(c, s) => 5 + channels + channels + (c as usize * selectors + s as usize),
        Part::Gate(s) => starts.gates + s as usize,
        Part::Turn(s) => starts.gates + selectors + s as usize,
        Part::KeysHigh(s) => starts.gates + selectors + selectors + s as usize,
        Part::Key(s, i) => starts.stages + (s as usize * keys + i as usize),
        Part::Interest(s, i) => starts.interests + (s as usize * keys + i as usize),
        Part::Mark(s, i) => starts.marks + (s as usize * keys + i as usize),
        Part::Note(s, i) => starts.notes + (s as usize * keys + i as usize),
        Part::Free(s, j) => starts.frees + (s as usize * free_words(limits) + j as usize),
        Part::Touched(s, j) => starts.touched + (s as usize * free_words(limits) + j as usize),
        Part::Lister(s) => starts.listers + s as usize,
    }
}

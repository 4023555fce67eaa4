//! The table and its passes, and what is true of every one.
ghost use Rattle.std.specs.Prelude.{◌≡◌, [], false};
ghost use Rattle.nio_base.specs.Limits.{IsFit};
ghost use Rattle.nio_words.specs.Places.{word_count};
ghost use Rattle.nio_words.specs.RowStarts.{AreRowStarts};

use crate::row_starts::RowStarts;
use crate::view::{OneHistory, View};
use atomic_table::{Seat, Table};
use nio_base::Limits;
use std::alloc::Global;

/// The shared table. Any number of threads may step on it at the same time, each with passes of its
/// own.
#[derive(Drop)]
pub struct Words {
    pub(crate) limits: Limits,
    pub(crate) starts: RowStarts,
    pub(crate) table: Table<(), View, Limits, OneHistory, Global>,
    ghost fit: { IsFit limits },
    ghost starts_are: { AreRowStarts limits starts },
    ghost key: { table.shared.key ≡ limits },
    ghost sized: { table.shared.table_id.words ≡ word_count limits },
}

/// What a thread steps with: the history as far as it was seen, and the callers' numbers that it
/// acts for. It belongs to the table that made it.
#[derive(Drop)]
pub struct Pass {
    pub(crate) numbers: u64,
    pub(crate) seat: Seat<(), View>,
    ghost numbers_are: { seat.me.0.numbers ≡ numbers },
    ghost unspent: { seat.me.0.spent ≡ false },
    ghost carries_nothing: { seat.me.1 ≡ [] },
}

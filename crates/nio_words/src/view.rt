//! What a seat at the table knows, and the table's rule. No value of these types is made.
use atomic_table::TableRule;
use nio_base::Limits;
use nio_history::Event;

/// What one of two joined passes knew. A clause reads an array as a list of any length.
pub struct Half {
    /// The history as far as it was seen.
    pub seen: [Event; 0],
    /// The callers' numbers that it held, one bit each.
    pub numbers: u64,
}

/// What a seat knows.
pub struct View {
    /// The history as far as it was seen.
    pub seen: [Event; 0],
    /// The callers' numbers that it holds, one bit each.
    pub numbers: u64,
    /// The table's limits.
    pub limits: Limits,
    /// Whether it is the table's only one.
    pub alone: bool,
    /// Whether it was joined into another.
    pub spent: bool,
    /// What both passes knew, where the seat comes from a joining and no step was made since; else empty.
    pub halves: [Half; 0],
}

/// The rule of the table.
pub struct OneHistory;

impl TableRule<(), View, Limits> for OneHistory {
    ghost use Rattle.nio_words.specs.Rule.{IsKept, first_view};

    ghost holds = { IsKept };

    ghost first = { first_view };
}

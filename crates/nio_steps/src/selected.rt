//! What a selection answers.
use nio_history::Why;

/// What a selection answers.
#[derive(Clone, Copy, Debug, PartialEq, Eq)]
pub struct Selected {
    /// How many of its marks succeeded: Java's number of keys. A mark adds the key to the selected set or adds to its
    /// ready set.
    pub count: u32,
    /// Why it is over.
    pub why: Why,
}

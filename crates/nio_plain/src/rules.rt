//! The rules by which a system gives indexes to keys and numbers to channels, those of the group among them.

/// Whether the index of a removed key and the number of a closed channel come back, and what the end of a selection
/// removes.
#[derive(Clone, Copy, Debug, PartialEq, Eq)]
pub enum Rules {
    /// The first rules: each new key has a new index and each channel a new number, with serial 0, each channel of the
    /// group too. Once the group gave each of its numbers, it refuses to open a channel, and to take the report of an
    /// accepted connection. The end of a selection removes the cancelled keys that the selection looked at.
    First,
    /// The rules of now: the index of a key that a selection removed becomes free, and the next key gets it, with the
    /// next serial. Where every number is made, the number of a closed channel that isn't registered is given to the
    /// next channel of its kind, with the next serial; in the group that of one without an operation in flight. The end
    /// of a selection removes every cancelled key.
    Now,
}

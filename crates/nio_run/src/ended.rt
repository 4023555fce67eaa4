//! How the program ends.
use nio_script::Status;

/// How the program ends, and the net that it was given.
#[derive(Drop)]
pub struct Ended<N> {
    /// How it ended.
    pub status: Status,
    /// The net that it was given.
    pub net: N,
}

//! The library under one name: callers and their calls, and the public items of the crates below.
//!
//! A [`Caller`] makes the calls of one thread, at a table that it borrows or shares; they take any selector, channel or
//! key. The functions under `select`, `channel` and `keys` make the same calls with a table, a pass and a number that are
//! passed to them, and require that what they name was made.
#![tactic(auto)]

pub use nio_base::{Addr, CallerNo, ChanId, ChanNo, KeyId, KeyNo, Kind, Limits, Ops, SelNo};
pub use nio_caller::{CallError, Caller, NotClosing, NotSelecting, SplitError, Table};
pub use nio_words::{DrawError, Pass, Words};

/// Limits for a program with a few threads: 8 callers, 4 selectors, 1,024 channels, and 1,024 indexes of keys in each
/// selector. The table takes about 180 kilobytes then.
pub const USUAL_LIMITS: Limits = Limits {
    callers: 8,
    selectors: 4,
    channels: 1_024,
    keys: 1_024,
};

pub mod channel;
pub mod group;
pub mod keys;
pub mod net;
pub mod pipe;
pub mod proxy;
pub mod select;

//! The table of selectors, channels and keys for C: each call of a caller that doesn't wait, as an export.
//!
//! C has a caller by a handle, which it makes of zeroes. An export looks first whether there is a caller in the handle,
//! makes its call and answers a status; what the call answers is written behind pointers. No export requires anything:
//! what C can get wrong and a program can see is a status. `nio.h` says what each export does, and what C owes beside
//! that. `Exports` says of each what it does: the clause of the caller's own call.
#![tactic(auto)]

pub use handle::Handle;
pub use status::Status;
pub use values::{Changed, Channel, Key, Looked, Pair, Selection, TableLimits};

mod answers;
mod callers;
mod channels;
mod handle;
mod kept;
mod keys;
mod leaving;
mod lists;
mod parts;
mod places;
mod selections;
mod selectors;
mod status;
mod taking;
mod values;
mod visits;
mod writing;

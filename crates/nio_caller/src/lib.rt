//! Callers: each is a number and a pass that acts for it, at a table that it borrows or shares. The calls on selectors,
//! channels, keys and pipes are its methods.
//!
//! A method takes any selector, channel or key. It looks up what is named, as a line of a script does, and refuses where
//! that was never made (`CallError`, or false, None or 0); else it makes the call of the crates below. `Calls` says of
//! each what it does: the looks, and then the call's plan, at the caller's table, with its number. That a caller may make
//! calls, has no pin, has its lists, and may go on with what it has in progress holds of every value, so no method asks
//! for it.
#![tactic(auto)]

pub use callers::Caller;
pub use laws::{found_law, names_law};
pub use refusal::{CallError, NotClosing, NotSelecting, SplitError};
pub use table::Table;

mod callers;
mod laws;
mod lists;
mod progress;
mod refusal;
mod table;

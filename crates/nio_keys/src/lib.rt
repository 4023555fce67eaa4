//! Calls that find selectors, channels and keys by their numbers, and calls on keys.
//!
//! Each call ensures `CallClause` of its plan: what the caller's pass has seen grew by a whole run of the
//! plan with the call's answer, and by what other callers did between. A call that works on a key pins the
//! key's index meanwhile: it asks for a caller that has no pin, and leaves it without one. None of the calls
//! waits or takes memory.
#![tactic(auto)]

pub use finds::{find, find_channel, find_selector};
pub use interests::{interest, interest_and, interest_or, set_interest};
pub use nio_steps::KeyError;
pub use selected::{ready, unselect};
pub use simple::{attach, attachment, cancel, is_valid};

mod finds;
mod interests;
mod pinned;
mod selected;
mod simple;

//! The shared table of selectors, keys and channels: words that change in single atomic steps, and
//! the passes that callers step with. All steps of all callers stand in one legal history.
#![tactic(auto)]

pub use drawing::DrawError;
pub use laws::{going_on_law, hold_law, own_law, permanent_law, selection_law, whole_law};
pub use words::{Pass, Words};

mod decode;
mod drawing;
mod encode;
mod instruction;
mod laws;
mod part;
mod row_starts;
mod sharing;
mod step;
mod steps;
mod table;
mod view;
mod words;

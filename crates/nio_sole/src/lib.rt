//! A script's calls on the shared table, one after the other.
#![tactic(auto)]

pub use desk::{Begun, Desk, OwnedPipe, Shut, drop_selection, forget_closings, forget_selections};
pub use laws::sole_law;
pub use line::{make_line, say_line};
pub use making::{no_progress, open_desk};
pub use replies::{closed_reply, read_reply, write_reply};
pub use sole::Sole;

mod channels;
mod closing;
mod desk;
mod group;
mod keys;
mod laws;
mod line;
mod listing;
mod making;
mod names;
mod pairs;
mod pipes;
mod replies;
mod selections;
mod selectors;
mod sole;

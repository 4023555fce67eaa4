//! Opening a selector, selecting, listing a selector's keys, and closing a selector.
//!
//! A selection is three calls: `try_begin` removes cancelled keys and looks at what each valid key is
//! interested in, the caller asks a poller, and `told` marks the keys that are ready. `told` says `Again`
//! where nothing was ready and the selection may go on waiting; where it ends the selection it removes the keys that
//! were cancelled meanwhile. A selection in progress is a value (`Selecting`) that is spent by `told` or by `leave`;
//! a closing is one too (`Closing`).
//!
//! Each call ensures `CallClause` of its plan: what the caller's pass has seen grew by a whole run of the
//! plan with the call's answer, and by what other callers did between. No call waits. `try_begin`, `keys` and
//! `selected_keys` take memory; where it lacks they answer `Memory`, and the selector is as it was.
#![tactic(auto)]

pub use asked::{Asked, Renumber};
pub use beginning::try_begin;
pub use change_list::ChangeList;
pub use changes::{KeyChange, Lister, Unlisted};
pub use closing::{Closing, Finish, Shutting, shut};
pub use laws::{
    alone_law, change_list_law, closed_law, gone_law, kept_list_law, listed_gone_law,
    listed_steps_law, steps_law, told_changes_law, turn_law,
};
pub use list::{KeyList, Refused, take_list};
pub use listing::{keys, selected_keys};
pub use nio_history::Mode;
pub use nio_steps::{BeginError, ListError, LookedKey, Selected, SelectorsSpent};
pub use opening::open_selector;
pub use selecting::{After, Selecting};
pub use selector::Selector;
pub use stamp::Stamp;
pub use told::Told;

mod asked;
mod beginning;
mod change_list;
mod changes;
mod closing;
mod laws;
mod list;
mod listing;
mod lists;
mod noted;
mod opening;
mod removing;
mod selecting;
mod selector;
mod slot;
mod stages;
mod stamp;
mod telling;
mod told;
mod touched;

//! Pollers and bells, and the calls that wait for them: `select`, `wakeup`, `close`, `interrupt`.
//!
//! A `Poller` says which channels are ready; a `Bell` makes a poller that waits return. `select`,
//! `select_now` and `select_for` begin a selection, poll, and tell the selection what was answered, until it is
//! over; `select_told` and `select_told_for` are over once anything was told. `wakeup`, `close` and `interrupt` change the table first and ring then, so that a caller that waits
//! looks again. That a ring arrives isn't proved: only what stands in the table is.
#![tactic(auto)]

pub use bell::{Bell, NoBell};
pub use laws::told_ends_law;
pub use poller::{PollError, Poller};
pub use scripted::Scripted;
pub use selecting::{SelectError, select, select_for, select_now, select_told, select_told_for};
pub use sleeper::{Sleeper, SleeperBell};
pub use told_poll::ToldPoll;
pub use until::tells_some;
pub use waking::{close, interrupt, interrupted, wakeup};

mod bell;
mod laws;
mod poller;
mod scripted;
mod selecting;
mod sleeper;
mod told_poll;
mod until;
mod waking;

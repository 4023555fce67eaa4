//! The state of the sequential selector, the events by which callers in threads change it, which lists of events are
//! legal histories, and the laws of legal histories.
#![tactic(auto)]

pub use act::Act;
pub use event::Event;
pub use found::{Chan, GateWord, IndexWord, Mark, Mode, Stage};
pub use timeout::{Milliseconds, NegativeTimeout};
pub use why::Why;

mod act;
mod event;
mod found;
pub mod laws;
mod timeout;
mod why;

//! Where calls don't overlap, their steps amount to the calls of the documented system.
//!
//! `specs/Documented` has the map from a state of the table, with the selections in progress, to a state of
//! a script, and `specs/Lines` how the line of a script is made on the table: its look-ups, the plan of its
//! call and its reply. `specs/Reopening` has the one documented call that no line of a script is. `specs/Between` says
//! what holds between two calls of a serial history, and `specs/Laws` has the laws: each call, performed on such a
//! state, has the reply and leaves the state of the documented call, by the rules of now, and what holds between calls
//! holds again. `specs/Serial` says the same of whole histories of lines, and `specs/LeftLaws` what is true of the states
//! that documented calls leave.
//!
//! Of calls that aren't made for a script: `specs/Called` says which call of the documented system a call on the table
//! is, and what it names, `specs/Left` what a serial history leaves: a state between two calls, and what its calls left
//! in progress. `specs/SequenceLaws` has the laws: every serial history leaves such a state, one call more has the
//! documented reply and leaves the documented state, and a history of calls of a script is a run of that script.
#![tactic(auto)]

pub use laws::{amounts_law, between_law, left_law, runs_law, seq_law, serial_law};

mod laws;

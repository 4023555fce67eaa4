//! Races: callers in threads of their own, over one table. A race text is a setup, whose lines are made one after the
//! other, a line `go`, and the lines of the callers.
#![tactic(auto)]

pub use run::run_race;

mod bells;
mod block;
mod ends;
mod gather;
mod line;
mod output;
mod piping;
mod quiet;
mod racer;
mod run;
mod set_off;
mod setup;

//! Loads: a generated script of many selections, run on a system and summed up.
#![tactic(auto)]

pub use generator::generate;
pub use run::run_load;

mod generator;
pub mod laws;
mod run;
mod summary;

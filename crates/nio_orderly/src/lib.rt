//! Histories in which each caller makes whole calls, and the cancellations owed in them.
#![tactic(auto)]

pub mod laws;

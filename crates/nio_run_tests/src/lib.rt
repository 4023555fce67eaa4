//! Tests of the top call `run`.
#![tactic(auto)]

#[cfg(test)]
mod run;

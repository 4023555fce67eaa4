//! Tests of groups between threads.
#![tactic(auto)]

#[cfg(test)]
mod group;
#[cfg(test)]
mod queue;
#[cfg(test)]
mod workers;

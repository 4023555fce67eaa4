//! Tests of groups with time limits.
#![tactic(auto)]

#[cfg(test)]
mod tests;

//! Tests of operations as futures.
#![tactic(auto)]

#[cfg(test)]
mod tests;

//! Tests of the proxy by operations that have tickets, over nets in memory.
#![tactic(auto)]

#[cfg(test)]
mod failing;
#[cfg(test)]
mod relays;

//! Tests of the proxy by operations, over a net in memory.
#![tactic(auto)]

#[cfg(test)]
mod failing;
#[cfg(test)]
mod loopback;
#[cfg(test)]
mod nets;
#[cfg(test)]
mod relays;
#[cfg(test)]
mod workers;

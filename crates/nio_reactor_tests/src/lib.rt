//! Tests of the proxy with several selectors, over nets in memory and over sockets.
#![tactic(auto)]

#[cfg(test)]
mod failing;
#[cfg(test)]
mod gates;
#[cfg(test)]
mod loopback;
#[cfg(test)]
mod nets;
#[cfg(test)]
mod no_room;
#[cfg(test)]
mod relays;
#[cfg(test)]
mod slots;

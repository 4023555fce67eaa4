//! Tests of nets, links, lines and relays.
#![tactic(auto)]

#[cfg(test)]
mod lines;
#[cfg(test)]
mod link;
#[cfg(test)]
mod mio_net;
#[cfg(test)]
mod passing;
#[cfg(test)]
mod relay;

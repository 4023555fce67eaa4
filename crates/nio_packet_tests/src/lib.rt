//! Tests of datagram channels and of the relay of packets, over packets in memory and sockets.
#![tactic(auto)]

#[cfg(test)]
mod link;
#[cfg(test)]
mod loopback;
#[cfg(test)]
mod relay;
#[cfg(test)]
mod reluctant;

//! Tests of the calls between threads, in a module for each crate that has them. (A crate with tests is proved twice,
//! without them and with them; this one has nothing else.)
#![tactic(auto)]

#[cfg(test)]
mod amid;
#[cfg(test)]
mod audit;
#[cfg(test)]
mod caller;
#[cfg(test)]
mod calls;
#[cfg(test)]
mod channel;
#[cfg(test)]
mod keys;
#[cfg(test)]
mod listed;
#[cfg(test)]
mod pipe;
#[cfg(test)]
mod poller;
#[cfg(test)]
mod recorder;
#[cfg(test)]
mod select;
#[cfg(test)]
mod several;
#[cfg(test)]
mod tables;
#[cfg(test)]
mod words;

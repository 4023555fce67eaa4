//! Serving the connections of a proxy by operations that have tickets. One thread makes the calls on the net, each for
//! a job of an operation that is pending at a desk, and polls the tickets between the proxy's rounds.
#![tactic(auto)]

pub use serving::{FutureError, serve_future};

mod clerk;
mod office;
mod polling;
mod seats;
mod serving;

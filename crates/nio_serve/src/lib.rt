//! Serving the connections of a proxy: one loop for every way in which its calls on a net are made.
#![tactic(auto)]

pub use serving::{ServeError, serve, serve_on};
pub use way::Way;

mod connections;
mod direct;
mod link;
mod proxy;
mod relay;
mod serving;
mod slot;
mod spare;
mod way;

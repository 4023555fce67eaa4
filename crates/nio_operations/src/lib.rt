//! Serving the connections of a proxy by the operations of an asynchronous channel group. The calling thread makes the
//! calls on the net, each for a job that the group handed out; workers run the handlers, which start the next
//! operations.
#![tactic(auto)]

pub use counts::HandledCounts;
pub use serving::{CountedServe, serve_group, serve_group_counted};

mod counts;
mod dispatcher;
mod handlers;
mod serving;
mod streams;

//! A proxy with one selector that accepts, and others that work: each link that was accepted is handed to a worker,
//! in a thread of its own, with a net and a selector of its own.
#![tactic(auto)]

pub use handover::Handover;
pub use many::{ManyError, serve_many};

mod accepting;
mod by_line;
mod door;
mod handed;
mod handover;
mod heard;
mod lane;
mod lines;
mod many;
mod message;
mod ready;
mod table;
mod working;

//! A proxy that relays connections between their clients and a target by selections, over any net.
#![tactic(auto)]

pub use select::serve_select;

mod select;

//! The documented system, and a plain system that keeps its state in vectors.
#![tactic(auto)]

pub use plain::{GROUP_LIMITS, Plain, call_group, mode_of};
pub use rules::Rules;
pub use system::System;

pub mod group_replies;
pub mod laws;
mod plain;
pub mod replies;
mod rules;
mod system;

//! A judge of events: whether a recorded run is a legal history, and which step may come next.
#![tactic(auto)]

pub use auditing::{AuditError, audit, may_step};

mod auditing;
mod counts;
mod dues;
mod judge;
mod memory;
mod state;
mod table;

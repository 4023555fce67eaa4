//! The steps of each call on selectors, keys, channels and pipes, as plans, and the laws about plans;
//! and what these calls answer.
//!
//! A plan is a reply, or a question to the shared state and how the call goes on with each answer.
//! `specs/KeyCalls`, `specs/ChannelCalls`, `specs/SelectCalls` and `specs/PipeCalls` have the plan of each
//! call, and what a call that waits does: runs of a plan, one after the other. `specs/TableCalls` lists the
//! calls, each with a row that has its plan and what else laws ask of it. A call ensures
//! `CallClause`: what its pass has seen grew by acts of the caller that have the call's shape, as a whole
//! run of its plan, and by what other callers did. `specs/Laws` has what follows from the plans alone.
#![tactic(auto)]

pub use found::{has_bit, supports};
pub use laws::{
    begin_law, bound_law, close_law, given_back_law, list_law, listed_bound_law, listed_law,
    progress_law, run_law, told_law, works_law,
};
pub use looked::LookedKey;
pub use refusal::{
    BeginError, ChannelError, KeyError, ListError, PipeError, PipeMakeError, ReopenError,
    SelectorsSpent,
};
pub use selected::Selected;

mod found;
mod laws;
mod looked;
mod refusal;
mod selected;

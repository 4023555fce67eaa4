//! A list that exists in proofs alone: what a direction, a pipe or a net ever carried, or what a
//! thread had seen when it began. A program holds no byte of it.
//!
//! A clause on a trace alone says nothing of the program, since a body that does nothing could meet
//! it too. It says something only where an invariant ties the trace to what the program holds.
#![tactic(auto)]

pub use trace::{Reading, Trace};

mod trace;

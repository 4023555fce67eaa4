//! What every crate of nio speaks of: operation sets and kinds of channel, the numbers that name
//! callers, selectors, channels and keys, the limits of a system, the channels and operations of
//! groups, and the test gate, where a test holds a worker.
#![tactic(auto)]

pub use gate::{Gate, NoGate};
pub use group::{Finished, GKind, OpKind, Outcome, Why};
pub use kind::Kind;
pub use limits::Limits;
pub use numbers::{Addr, CallerNo, ChanId, ChanNo, GChan, KeyId, KeyNo, OpNo, SelNo};
pub use ops::Ops;

mod gate;
mod group;
mod kind;
mod limits;
mod numbers;
mod ops;

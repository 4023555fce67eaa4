//! What a net in memory found.
use nio_base::{ChanNo, Ops};
use nio_poller::ToldPoll;

/// What was found of the readiness of numbers: a poll told it, or had no answer; a call found a channel not ready for
/// an operation; or what was told of a number is over, since something was made there, closed or taken out.
#[derive(Drop)]
pub(crate) enum Finding {
    Told(ToldPoll),
    Untold,
    NotReady(ChanNo, Ops),
    Forgotten(ChanNo),
}

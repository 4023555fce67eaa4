//! What a net of packets in memory found.
use nio_base::{ChanNo, Ops};
use nio_poller::ToldPoll;

/// What was found of the readiness of channels: a poll told it, or had no answer, a receive found a channel not ready
/// for an operation, or what was told of a number is over, as a socket was bound or closed there.
#[derive(Drop)]
pub(crate) enum Finding {
    Told(ToldPoll),
    Untold,
    NotReady(ChanNo, Ops),
    Forgotten(ChanNo),
}

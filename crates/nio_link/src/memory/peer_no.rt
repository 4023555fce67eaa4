//! The peers of a net in memory.
ghost use Rattle.std.specs.Prelude.{◌≡◌};
ghost use Rattle.nio_link.specs.MemoryLinks.{is_same_peer};
ghost use Rattle.nio_link.specs.Places.{is_same_channel};

use nio_base::ChanId;

/// Which peer a link is an end of. No two peers of a net have the same number, since a channel
/// bears one link.
#[derive(Clone, Copy, Debug, PartialEq, Eq)]
pub(crate) enum PeerNo {
    /// The peer of the net's plan at this place, counted from 0.
    Planned(usize),
    /// The peer of the link that was put in under this channel.
    PutIn(ChanId),
}

pub(crate) fn is_same_channel(one: ChanId, other: ChanId) -> bool
    ensures { result ≡ is_same_channel one other }
{
    one.number.0 == other.number.0 && one.serial == other.serial
}

pub(crate) fn is_same_peer(one: PeerNo, other: PeerNo) -> bool
    ensures { result ≡ is_same_peer one other }
{
    match (one, other) {
        (PeerNo::Planned(m), PeerNo::Planned(n)) => m == n,
        (PeerNo::PutIn(c), PeerNo::PutIn(d)) => is_same_channel(c, d),
        (PeerNo::Planned(_), PeerNo::PutIn(_)) | (PeerNo::PutIn(_), PeerNo::Planned(_)) => false,
    }
}

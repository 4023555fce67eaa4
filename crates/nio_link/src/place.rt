//! What a channel of a net was asked to be, and what stands there.
ghost use Rattle.std.specs.Prelude.{◌≡◌, false};
ghost use Rattle.nio_link.specs.Places.{is_standing, stands, place_after, standing_after, moves_link, IsAllowed};

use crate::net::Failed;
use nio_base::{Addr, ChanId};

/// What a channel of a net was asked to be. A channel is one thing in its life: what comes after it under its number has
/// a later serial.
#[derive(Clone, Copy, Debug, PartialEq, Eq)]
pub enum Role {
    /// Nothing yet.
    Nothing,
    /// A listener at this address.
    Listener(Addr),
    /// A link from this listener.
    Accepted(ChanId),
    /// A link to this address.
    Connected(Addr),
    /// A link that was taken out of another net, or of this one from under another channel.
    PutIn,
}

/// What stands under a channel of a net.
#[derive(Clone, Copy, Debug, PartialEq, Eq)]
pub enum Standing {
    /// Nothing was made there.
    Nothing,
    /// A listener.
    Listening,
    /// A link that isn't connected yet.
    Connecting,
    /// A link, which can be read and written.
    Linked,
    /// A link whose side on which bytes are written was shut.
    Shut,
    /// What stood there was closed or taken out, or a link couldn't be connected.
    Gone,
}

/// What a channel was asked to be, and what stands there.
#[derive(Clone, Copy, Debug, PartialEq, Eq)]
pub struct Place {
    /// What the channel was asked to be.
    pub role: Role,
    /// What stands there.
    pub standing: Standing,
}

/// A change of the place of a channel, by the call of `Net` or `Passable` that the variant names. The places of a net
/// follow from the list of its changes (`places_after`).
#[derive(Clone, Copy, Debug, PartialEq, Eq)]
pub enum Change {
    /// A listener was made at this address.
    Listen(Addr),
    /// A link was accepted from this listener.
    Accept(ChanId),
    /// A link to this address was made, and is connected or not yet, or couldn't be.
    Connect(Addr, Result<bool, Failed>),
    /// A link is connected now.
    FinishConnect,
    /// The side of a link on which bytes are written was shut.
    ShutWrite,
    /// What stood there was closed, or couldn't be connected.
    Close,
    /// A link was taken out.
    TakeOut,
    /// A link was put in.
    PutIn,
}

/// A link stands under a channel from the change that makes it or puts it in until the one that closes it or takes it
/// out; as long as changes come only where they are allowed, no other change ends that. `IsAllowed` asks less than the
/// calls of `Net` do.
pub fn stands_law(before: Place, change: Change)
    ensures stands { stands (place_after change before) ≡ is_standing (standing_after change) }
    ensures others { moves_link change ≡ false → IsAllowed change before
        → stands (place_after change before) ≡ stands before }
{}

//! Nets whose links can be handed to another net.
ghost use Rattle.nio_link.specs.Nets.{view_of, MayTakeOut, TakesOut, PutsIn};
ghost use Rattle.nio_link.specs.Places.{IsFree};

use crate::net::Net;
use nio_base::ChanId;

/// A net from which a link can be taken out, and into which one can be put. So one net can accept links that others
/// serve.
pub trait Passable: Net {
    /// A link that was taken out of a net, and stands in none.
    type Link: Drop + Send;

    /// Takes out the link under this channel. None where no link stands there. A link that was read, written or shut
    /// can't be taken out.
    fn take_out(&mut self, chan: ChanId) -> Option<Self::Link>
        requires { MayTakeOut chan (view_of Self.Net self.old) }
        ensures { TakesOut chan (view_of Self.Net self.old) (view_of Self.Net self.new) result };

    /// Puts a link in under this channel. Where there is no memory for it, it comes back, and the net is as before.
    fn put_in(&mut self, chan: ChanId, link: Self::Link) -> Result<(), Self::Link>
        requires { IsFree (Self.place self.old) chan }
        ensures { PutsIn chan link (view_of Self.Net self.old) (view_of Self.Net self.new) result };
}

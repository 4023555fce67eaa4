//! What carries bytes over links.
ghost use Rattle.std.specs.Prelude.{◌≡◌, ◌≢◌, []};
ghost use Rattle.nio_link.specs.Links.{Link};
ghost use Rattle.nio_link.specs.Nets.{view_of, MayAccept, MayFinish, MayRead, MayWrite, Listens, Accepts, Connects};
ghost use Rattle.nio_link.specs.Nets.{Finishes, Reads, Writes, Shuts, Closes};
ghost use Rattle.nio_link.specs.Places.{IsFree};

use nio_base::{Addr, ChanId};
use nio_poller::Poller;
use thiserror::Error;

/// A call on a link or a listener failed.
#[derive(Clone, Copy, Debug, PartialEq, Eq, Error)]
#[error("the call on the link failed")]
pub struct Failed;

/// What a read gave.
#[derive(Clone, Copy, Debug, PartialEq, Eq)]
pub enum Got {
    /// So many bytes, at least one, at the front of the buffer.
    Bytes(usize),
    /// The other side has ended.
    End,
    /// Nothing has come yet.
    NotYet,
}

/// What a write took.
#[derive(Clone, Copy, Debug, PartialEq, Eq)]
pub enum Put {
    /// So many bytes, at least one, from the front.
    Bytes(usize),
    /// There is no room yet.
    NotYet,
}

/// Links and listeners, and a poller that says what they are ready for. Each is named by the channel under which it
/// was made: a number and a serial. A number serves again, under a later serial, once what stood there was closed or
/// taken out, or couldn't be connected; what a link has carried, and how often its calls failed, is shown by its own name
/// still. A call may be made only where its channel's place allows it: so a call that fails does so for what the net
/// finds, and not because the caller made it at a wrong time. A call that needs readiness may be made where the last poll
/// told it of the channel's number and, since then, no call has found otherwise, or made, closed or taken out anything
/// under that number: so it reaches what its caller was told of, and nothing that came there later.
pub trait Net: Poller {
    ghost use Rattle.std.specs.Prelude.{ℕ, List};
    ghost use Rattle.nio_base.specs.declared.numbers.ChanId.{ChanId};
    ghost use Rattle.nio_link.specs.declared.place.Place.{Place};
    ghost use Rattle.nio_link.specs.declared.place.Standing.TheVariants as standing;

    // What a link has carried, as far as the net shows it.
    ghost link: { Self → ChanId → Link };

    // How often a call on a link or a listener has failed.
    ghost faults: { Self → ChanId → ℕ };

    // What a channel was asked to be, and what stands there.
    ghost place: { Self → ChanId → Place };

    // The channels of the links that were accepted, in the order in which their accepts answered true.
    ghost accepted: { Self → List ChanId };

    /// Makes a listener under this channel. Where that fails, the channel can be asked again.
    fn listen(&mut self, chan: ChanId, at: Addr) -> Result<(), Failed>
        requires { IsFree (place self.old) chan }
        ensures { Listens chan at (view_of Self.Net self.old) (view_of Self.Net self.new) result };

    /// Takes a connection from a listener, and makes a link of it under the channel `chan`. False where none has come
    /// yet. Where none has come, or the call fails, the channel can be asked again.
    fn accept(&mut self, listener: ChanId, chan: ChanId) -> Result<bool, Failed>
        requires { MayAccept listener chan (view_of Self.Net self.old) }
        ensures { Accepts listener chan (view_of Self.Net self.old) (view_of Self.Net self.new) result };

    /// Begins to connect a link under this channel. True where it is connected; false where that isn't done yet. As in
    /// Java, a link that couldn't be connected is closed.
    fn connect(&mut self, chan: ChanId, to: Addr) -> Result<bool, Failed>
        requires { IsFree (place self.old) chan }
        ensures { Connects chan to (view_of Self.Net self.old) (view_of Self.Net self.new) result };

    /// Goes on connecting a link. True where it is connected; false where that isn't done yet. As in Java, a link that
    /// couldn't be connected is closed.
    fn finish_connect(&mut self, chan: ChanId) -> Result<bool, Failed>
        requires { MayFinish chan (view_of Self.Net self.old) }
        ensures { Finishes chan (view_of Self.Net self.old) (view_of Self.Net self.new) result };

    /// Reads what has come on a link, as far as it fits.
    fn read(&mut self, chan: ChanId, into: &mut [u8]) -> Result<Got, Failed>
        requires some { into.old ≢ [] }
        requires may { MayRead chan (view_of Self.Net self.old) }
        ensures { Reads chan (view_of Self.Net self.old) (view_of Self.Net self.new) into.old into.new result };

    /// Writes bytes on a link, as many as it takes.
    fn write(&mut self, chan: ChanId, from: &[u8]) -> Result<Put, Failed>
        requires some { from.now ≢ [] }
        requires may { MayWrite chan (view_of Self.Net self.old) }
        ensures { Writes chan (view_of Self.Net self.old) (view_of Self.Net self.new) from.now result };

    /// Shuts the side of a link on which bytes are written, so that the other side finds their end.
    fn shut_write(&mut self, chan: ChanId) -> Result<(), Failed>
        requires { (place self.old chan).standing ≡ standing.Linked }
        ensures { Shuts chan (view_of Self.Net self.old) (view_of Self.Net self.new) result };

    /// Closes a link or a listener, where one stands there. What it has carried is shown as before.
    fn close(&mut self, chan: ChanId)
        ensures { Closes chan (view_of Self.Net self.old) (view_of Self.Net self.new) };

    // Polls carry no bytes, count no faults of links, leave what stands, and accept nothing.
    ghost kept_links: { (x y : Self) → Self.kept x y → (c : ChanId) → link y c ≡ link x c };

    ghost kept_faults: { (x y : Self) → Self.kept x y → (c : ChanId) → faults y c ≡ faults x c };

    ghost kept_places: { (x y : Self) → Self.kept x y → (c : ChanId) → place y c ≡ place x c };

    ghost kept_accepted: { (x y : Self) → Self.kept x y → accepted y ≡ accepted x };
}

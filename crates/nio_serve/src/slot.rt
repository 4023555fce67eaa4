//! A slot: the place of a connection, which others take after it.
ghost use Rattle.std.specs.Prelude.{◌≡◌, ◌+◌, ◌^◌, ◌<◌, ◌++◌, [], ◌∷◌, None, Some};
ghost use Rattle.nio_serve.specs.Changes.{begun, new_slot};

use crate::relay::{Ended, Relay};
use nio_trace::Trace;

/// A slot relays one connection at a time. The links of the s-th one that takes it, counted from 0, have the serial s.
#[derive(Drop)]
pub(crate) struct Slot {
    /// How many connections have taken it.
    pub uses: u32,
    /// The last of them, while it is relayed.
    pub relay: Option<Relay>,
    /// How the others have ended, in proofs alone.
    pub past: Trace<Ended>,
}

impl Slot {
    /// One that no connection has taken.
    pub(crate) fn new() -> Slot
        ensures { result ≡ new_slot }
    {
        Slot {
            uses: 0,
            relay: None,
            past: Trace::new(),
        }
    }

    /// Takes the connection out that it relays.
    pub(crate) fn take(&mut self) -> Option<Relay>
        ensures taken { result ≡ self.old.relay }
        ensures left { self.new ≡ record self.old { relay = None } }
    {
        self.relay.take()
    }

    /// Puts the connection in that it relays.
    pub(crate) fn put(&mut self, relay: Relay)
        ensures { self.new ≡ record self.old { relay = Some relay } }
    {
        self.relay = Some(relay);
    }

    /// The connection that was taken out has ended so.
    pub(crate) fn end(&mut self, ended: Ended)
        ensures { self.new ≡ record self.old { past = self.old.past ++ ended ∷ [] } }
    {
        self.past.push(&ended);
    }

    /// A connection takes the slot. There is nothing that relays it where memory lacks.
    pub(crate) fn begin(&mut self, relay: Option<Relay>)
        requires { self.old.uses + 1 < 2 ^ 32 }
        ensures { self.new ≡ begun relay self.old }
    {
        self.uses += 1;
        match relay {
            Some(relay) => self.put(relay),
            None => self.end(Ended::Dropped),
        }
    }
}

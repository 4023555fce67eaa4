//! A net that may have no memory for links that are put in.

use nio_base::{Addr, ChanId};
use nio_history::Mode;
use nio_link::{Failed, Got, Net, Passable, Put};
use nio_poller::{PollError, Poller};
use nio_select::{Asked, Told};
use std::alloc::Global;
use std::sync::Wait;

/// A net. Where it has no room, each link that is put in comes back.
#[derive(Drop)]
pub(crate) struct Roomy<N> {
    pub net: N,
    pub has_room: bool,
}

impl<N: Passable> Poller for Roomy<N> {
    ghost poll_faults = { λ n. N.poll_faults n.net };

    ghost ready = { λ n. N.ready n.net };

    ghost polls = { λ n. N.polls n.net };

    ghost kept = { λ x y. N.kept x.net y.net };

    fn poll<R: Wait>(
        &mut self,
        rt: &R,
        alloc: Global,
        asked: &Asked,
        mode: Mode,
    ) -> Result<Told, PollError> {
        self.net.poll(rt, alloc, asked, mode)
    }

    ghost kept_same = { λ x. N.kept_same x.net };

    ghost kept_on = { λ x y z h k. N.kept_on x.net y.net z.net h k };
}

impl<N: Passable> Net for Roomy<N> {
    ghost link = { λ n. N.link n.net };

    ghost faults = { λ n. N.faults n.net };

    ghost place = { λ n. N.place n.net };

    ghost accepted = { λ n. N.accepted n.net };

    fn listen(&mut self, chan: ChanId, at: Addr) -> Result<(), Failed> {
        self.net.listen(chan, at)
    }

    fn accept(&mut self, listener: ChanId, chan: ChanId) -> Result<bool, Failed> {
        self.net.accept(listener, chan)
    }

    fn connect(&mut self, chan: ChanId, to: Addr) -> Result<bool, Failed> {
        self.net.connect(chan, to)
    }

    fn finish_connect(&mut self, chan: ChanId) -> Result<bool, Failed> {
        self.net.finish_connect(chan)
    }

    fn read(&mut self, chan: ChanId, into: &mut [u8]) -> Result<Got, Failed> {
        self.net.read(chan, into)
    }

    fn write(&mut self, chan: ChanId, from: &[u8]) -> Result<Put, Failed> {
        self.net.write(chan, from)
    }

    fn shut_write(&mut self, chan: ChanId) -> Result<(), Failed> {
        self.net.shut_write(chan)
    }

    fn close(&mut self, chan: ChanId) {
        self.net.close(chan)
    }

    ghost kept_links = { λ x y h. N.kept_links x.net y.net h };

    ghost kept_faults = { λ x y h. N.kept_faults x.net y.net h };

    ghost kept_places = { λ x y h. N.kept_places x.net y.net h };

    ghost kept_accepted = { λ x y h. N.kept_accepted x.net y.net h };
}

impl<N: Passable> Passable for Roomy<N> {
    type Link = N::Link;

    fn take_out(&mut self, chan: ChanId) -> Option<N::Link> {
        self.net.take_out(chan)
    }

    fn put_in(&mut self, chan: ChanId, link: N::Link) -> Result<(), N::Link> {
        if self.has_room {
            self.net.put_in(chan, link)
        } else {
            Err(link)
        }
    }
}

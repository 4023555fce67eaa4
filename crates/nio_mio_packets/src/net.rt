//! The net over sockets.
ghost use Rattle.std.specs.Prelude.{◌≡◌, ◌<◌, IfOk, IsTrue, length};

use crate::side::{Side, bind_at, new_sides, receive_at, send_at};
use crate::sockets::Sockets;
use nio_base::{Addr, ChanId, Ops};
use nio_datagram::{Came, PacketNet};
use nio_history::Mode;
use nio_kept::{Counts, Readiness, raise};
use nio_link::Failed;
use nio_poller::{PollError, Poller};
use nio_select::{Asked, Told};
use std::alloc::{AllocError, Global};
use std::net::Net as System;
use std::sync::Wait;
use std::time::Clock;

/// A net of UDP sockets over IPv4, for as many numbers of channels as it was made for, from 0 on. It has no bell: only
/// packets end a wait. On another number `bind_packets`, `receive` and `send` fail. A number that serves again takes no
/// further memory.
#[derive(Drop)]
pub struct MioPackets<S> {
    system: S,
    sockets: Sockets,
    readiness: Readiness,
    poll_faults: u64,
    counts: Counts,
    sides: Vec<Side>,
}

impl<S: System + Clock + Copy> MioPackets<S> {
    ghost use Rattle.nio_mio_packets.specs.Faultless.{IsFaultless, IsUnpolled};
    ghost use Rattle.nio_mio_packets.specs.Sides.{IsFresh, numbers_of};

    /// A net without sockets. Where the system refuses a poll object, each call of the net that can fail fails.
    pub fn make(system: S, alloc: Global, numbers: usize) -> Result<MioPackets<S>, AllocError>
        ensures numbers { IfOk result (λ net. numbers_of net ≡ numbers) }
        ensures fresh { IfOk result IsFresh }
        ensures faultless { IfOk result IsFaultless }
        ensures unpolled { IfOk result IsUnpolled }
    {
        let sides = new_sides(alloc, numbers)?;
        let sockets = Sockets::make(&system, alloc, numbers)?;
        Ok(MioPackets {
            system,
            sockets,
            readiness: Readiness::new(),
            poll_faults: 0,
            counts: Counts::new(),
            sides,
        })
    }
}

impl<S: System + Clock + Copy> Poller for MioPackets<S> {
    ghost use Rattle.std.specs.Prelude.{Some, refl};
    ghost use Rattle.std.proofs.Common.{◌∙◌};
    ghost use Rattle.nio_kept.specs.Readiness.{polls_of, ready_of};

    ghost poll_faults = { λ m. m.poll_faults };

    ghost ready = { λ m. ready_of m.readiness };

    ghost polls = { λ m. Some (polls_of m.readiness) };

    // The counts stay, and what was carried and stands.
    ghost kept = { λ x y. (y.counts ≡ x.counts) × (y.sides ≡ x.sides) };

    fn poll<R: Wait>(
        &mut self,
        rt: &R,
        alloc: Global,
        asked: &Asked,
        mode: Mode,
    ) -> Result<Told, PollError> {
        match self.sockets.wait(rt, &self.system, asked, mode) {
            Ok(elapsed) => match self.sockets.tell(alloc, asked, elapsed) {
                Ok(told) => {
                    self.readiness.answered(asked, mode, &told);
                    Ok(told)
                }
                Err(AllocError) => {
                    self.readiness.failed();
                    Err(PollError::Memory)
                }
            },
            Err(Failed) => {
                self.readiness.failed();
                raise(&mut self.poll_faults);
                Err(PollError::Fault)
            }
        }
    }

    ghost kept_same = { λ x. (refl, refl) };

    ghost kept_on = { λ x y z h k. (k.0 ∙ h.0, k.1 ∙ h.1) };
}

impl<S> MioPackets<S> {
    ghost use Rattle.nio_mio_packets.specs.Sides.{is_bound_at};

    // Whether the channel has a socket.
    fn is_bound(&self, chan: ChanId) -> bool
        ensures bound { result ≡ is_bound_at self.now.sides.items chan }
        ensures inside { IsTrue result → chan.number.0 < length self.now.sides.items }
    {
        let place = chan.number.0 as usize;
        place < self.sides.len() && self.sides[place].is_bound_as(chan.serial)
    }
}

impl<S: System + Clock + Copy> PacketNet for MioPackets<S> {
    ghost use Rattle.std.proofs.Common.{ap};
    ghost use Rattle.nio_kept.specs.Counts.{count_of};
    ghost use Rattle.nio_mio_packets.specs.Sides.{traffic_at as traffic_there, place_at as place_there};

    ghost traffic = { λ m. traffic_there m.sides.items };

    ghost packet_faults = { λ m. count_of m.counts };

    ghost place = { λ m. place_there m.sides.items };

    fn bind_packets(&mut self, chan: ChanId, at: Addr) -> Result<(), Failed> {
        if chan.number.0 as usize >= self.sides.len() {
            return Err(self.counts.fail(chan));
        }
        match self.sockets.bind(&self.system, chan.number, at) {
            Ok(()) => {
                bind_at(&mut self.sides, chan, at);
                self.readiness.forget(chan.number);
                Ok(())
            }
            Err(Failed) => Err(self.counts.fail(chan)),
        }
    }

    fn receive(&mut self, chan: ChanId, into: &mut [u8]) -> Result<Came, Failed> {
        if chan.number.0 as usize >= self.sides.len() {
            return Err(self.counts.fail(chan));
        }
        match self.sockets.receive(chan.number, into) {
            Ok(Came::Packet { len, from }) => {
                receive_at(&mut self.sides, chan.number, from, into, len);
                Ok(Came::Packet { len, from })
            }
            Ok(Came::NotYet) => {
                self.readiness.take(chan.number, Ops::READ);
                Ok(Came::NotYet)
            }
            Err(Failed) => Err(self.counts.fail(chan)),
        }
    }

    fn send(&mut self, chan: ChanId, bytes: &[u8], to: Addr) -> Result<bool, Failed> {
        if chan.number.0 as usize >= self.sides.len() {
            return Err(self.counts.fail(chan));
        }
        match self.sockets.send(chan.number, bytes, to) {
            Ok(true) => {
                send_at(&mut self.sides, chan.number, to, bytes);
                Ok(true)
            }
            Ok(false) => {
                self.readiness.take(chan.number, Ops::WRITE);
                Ok(false)
            }
            Err(Failed) => Err(self.counts.fail(chan)),
        }
    }

    fn connect_packets(&mut self, chan: ChanId, to: Addr) {
        if self.is_bound(chan) {
            self.sockets.connect(chan.number, to);
        }
    }

    fn close_packets(&mut self, chan: ChanId) {
        if !self.is_bound(chan) {
            return;
        }
        self.sockets.close(chan.number);
        self.sides[chan.number.0 as usize].close(chan.serial);
        self.readiness.forget(chan.number);
    }

    ghost kept_traffic = { λ x y h c. ap (λ sides. traffic_there sides.items c) h.1 };

    ghost kept_faults = { λ x y h c. ap (λ counts. count_of counts c) h.0 };

    ghost kept_places = { λ x y h c. ap (λ sides. place_there sides.items c) h.1 };
}

//! A net in memory of which each other send finds no room.
ghost use Rattle.std.specs.Prelude.{◌≡◌, IfOk, OnErr};
ghost use Rattle.nio_base.specs.declared.numbers.ChanNo.{ChanNo as Channel};
ghost use Rattle.nio_datagram.specs.MemoryPackets.{KeepsPackets};
ghost use Rattle.nio_kept.specs.Readiness.{ready_of};
ghost use Rattle.nio_poller.specs.Polls.{CountsFaults, AddsPoll, told_of_channel};
ghost use Rattle.nio_poller.specs.declared.poller.PollError.TheVariants.{Fault};

use nio_base::{Addr, ChanId, Ops};
use nio_datagram::{Came, Failed, MemoryPackets, PacketNet};
use nio_history::Mode;
use nio_kept::Readiness;
use nio_poller::{PollError, Poller};
use nio_select::{Asked, Told};
use std::alloc::Global;
use std::sync::Wait;

/// The net, and whether its next send finds no room.
#[derive(Drop)]
pub(crate) struct Reluctant {
    pub net: MemoryPackets,
    is_full: bool,
    readiness: Readiness,
}

impl Reluctant {
    pub(crate) fn over(net: MemoryPackets) -> Reluctant
        ensures { result.net ≡ net }
    {
        Reluctant {
            net,
            is_full: true,
            readiness: Readiness::new(),
        }
    }
}

impl Poller for Reluctant {
    ghost use Rattle.std.specs.Prelude.{None, refl};
    ghost use Rattle.std.proofs.Common.{◌∙◌};

    ghost poll_faults = { λ _. 0 };

    ghost ready = { λ s. ready_of s.readiness };

    ghost polls = { λ _. None };

    ghost kept = { λ x y. KeepsPackets x.net y.net };

    fn poll<R: Wait>(
        &mut self,
        rt: &R,
        alloc: Global,
        asked: &Asked,
        mode: Mode,
    ) -> Result<Told, PollError>
        ensures cause { CountsFaults Fault 0 0 result }
        ensures ready { IfOk result (λ told. (c : Channel)
            → ready_of self.new.readiness c ≡ told_of_channel asked.now.keys told.pairs.items c) }
        ensures unready { OnErr result ((c : Channel) → ready_of self.new.readiness c ≡ 0) }
        ensures polls { AddsPoll None None asked.now.keys mode result }
        ensures kept { KeepsPackets self.old.net self.new.net }
    {
        match self.net.poll(rt, alloc, asked, mode) {
            Ok(told) => {
                self.readiness.answered(asked, mode, &told);
                Ok(told)
            }
            Err(error) => {
                self.readiness.failed();
                Err(error)
            }
        }
    }

    ghost kept_same = { λ s. record { sides = refl; faulted = refl } };

    ghost kept_on = { λ x y z first second. record {
      sides = second.sides ∙ first.sides;
      faulted = second.faulted ∙ first.faulted;
    } };
}

impl PacketNet for Reluctant {
    ghost use Rattle.std.proofs.Common.{ap};
    ghost use Rattle.nio_datagram.specs.MemoryPackets.{traffic_at, place_at};
    ghost use Rattle.nio_link.specs.MemoryNet.{times};

    ghost traffic = { λ s. traffic_at s.net.sides };

    ghost packet_faults = { λ s. times s.net.faulted };

    ghost place = { λ s. place_at s.net.sides };

    fn bind_packets(&mut self, chan: ChanId, at: Addr) -> Result<(), Failed> {
        match self.net.bind_socket(chan, at) {
            Ok(()) => {
                self.readiness.forget(chan.number);
                Ok(())
            }
            Err(_failure) => Err(Failed),
        }
    }

    fn receive(&mut self, chan: ChanId, into: &mut [u8]) -> Result<Came, Failed> {
        match self.net.receive_packet(chan, into) {
            Ok(Came::NotYet) => {
                self.readiness.take(chan.number, Ops::READ);
                Ok(Came::NotYet)
            }
            Ok(Came::Packet { len, from }) => Ok(Came::Packet { len, from }),
            Err(Failed) => Err(Failed),
        }
    }

    fn send(&mut self, chan: ChanId, bytes: &[u8], to: Addr) -> Result<bool, Failed> {
        let is_full = self.is_full;
        self.is_full = !is_full;
        if is_full {
            self.readiness.take(chan.number, Ops::WRITE);
            return Ok(false);
        }
        match self.net.send_packet(chan, bytes, to) {
            Ok(()) => Ok(true),
            Err(_failure) => Err(Failed),
        }
    }

    fn connect_packets(&mut self, _chan: ChanId, _to: Addr) {}

    fn close_packets(&mut self, chan: ChanId) {
        let was_bound = self.net.is_bound(chan);
        self.net.close_packets(chan);
        if was_bound {
            self.readiness.forget(chan.number);
        }
    }

    ghost kept_traffic = { λ x y kept c. ap (λ sides. traffic_at sides c) kept.sides };

    ghost kept_faults = { λ x y kept c. ap (λ faulted. times faulted c) kept.faulted };

    ghost kept_places = { λ x y kept c. ap (λ sides. place_at sides c) kept.sides };
}

//! The net over sockets.
ghost use Rattle.std.specs.Prelude.{◌≡◌, ◌<◌, ◌≤◌, [], ◌∷◌, ◌++◌, IfOk, OnOk, length};

use crate::bell::MioBell;
use crate::loose::LooseSocket;
use crate::sockets::{PLACES, Sockets};
use nio_base::{Addr, ChanId, ChanNo, Ops};
use nio_history::Mode;
use nio_kept::{Counts, Readiness, raise};
use nio_link::{Change, Failed, Got, Net, Passable, PlaceLog, Put};
use nio_poller::{PollError, Poller};
use nio_select::{Asked, Told};
use std::alloc::{AllocError, Global};
use std::net::Net as System;
use std::sync::Wait;
use std::time::Clock;

/// A net of TCP sockets over IPv4, for channels numbered below 32,001 until a link is put in beyond them. A call of
/// `Net` on another number fails. A number that serves again takes no further memory. It doesn't show contracts which
/// bytes a link has carried.
#[derive(Drop)]
pub struct MioNet<S> {
    system: S,
    sockets: Sockets,
    readiness: Readiness,
    poll_faults: u64,
    counts: Counts,
    log: PlaceLog,
}

impl<S: System + Clock + Copy> MioNet<S> {
    ghost use Rattle.nio_mio.specs.Unasked.{IsFaultless, IsUnasked, IsUnpolled};

    /// A net without sockets, and its bell. Takes the memory for all sockets that there may be. Where the system
    /// refuses a poll object or a waker, the bell does nothing, and each call of the net that can fail fails.
    pub fn make(system: S, alloc: Global) -> Result<(MioNet<S>, MioBell), AllocError>
        ensures unasked { IfOk result (λ made. IsUnasked made.0) }
        ensures faultless { IfOk result (λ made. IsFaultless made.0) }
        ensures unpolled { IfOk result (λ made. IsUnpolled made.0) }
    {
        let log = PlaceLog::make(alloc, PLACES)?;
        let (sockets, bell) = Sockets::make(&system, alloc)?;
        let net = MioNet {
            system,
            sockets,
            readiness: Readiness::new(),
            poll_faults: 0,
            counts: Counts::new(),
            log,
        };
        Ok((net, bell))
    }
}

impl<S> MioNet<S> {
    // Makes room for this number and the next, under which the link to the peer is then made.
    fn make_room(&mut self, number: ChanNo) -> Result<(), AllocError>
        ensures changes { self.new.log.changes ≡ self.old.log.changes }
        ensures room { OnOk result (number.0 < length self.new.log.occupants) }
        ensures rest { self.new ≡ record self.old { sockets = self.new.sockets; log = self.new.log } }
    {
        let places = number.0 as usize + 2;
        self.log.grow(places)?;
        self.sockets.grow(places)
    }
}

impl<S> MioNet<S> {
    ghost use Rattle.nio_base.specs.declared.numbers.ChanId.{ChanId};
    ghost use Rattle.nio_base.specs.declared.numbers.ChanNo.{ChanNo};
    ghost use Rattle.nio_bytes.specs.Cause.{Rose};
    ghost use Rattle.nio_kept.specs.Counts.{count_of};
    ghost use Rattle.nio_kept.specs.Readiness.{polls_of, ready_of};
    ghost use Rattle.nio_link.specs.Links.{IsSameBut};
    ghost use Rattle.nio_link.specs.declared.place.Change.TheVariants as change;

    // A link that couldn't be connected is closed.
    fn give_up(&mut self, chan: ChanId) -> Failed
        ensures changes { self.new.log.changes ≡ self.old.log.changes ++ (chan, change.Close) ∷ [] }
        ensures later { count_of self.old.counts chan ≤ count_of self.new.counts chan }
        ensures rose { Rose (count_of self.old.counts chan) (count_of self.new.counts chan) }
        ensures others { IsSameBut chan (count_of self.old.counts) (count_of self.new.counts) }
        ensures unready { ready_of self.new.readiness chan.number ≡ 0 }
        ensures ready_else { IsSameBut chan.number (ready_of self.old.readiness) (ready_of self.new.readiness) }
        ensures shown { polls_of self.new.readiness ≡ polls_of self.old.readiness }
        ensures polls { self.new.poll_faults ≡ self.old.poll_faults }
    {
        self.log.push(chan, Change::Close);
        self.readiness.forget(chan.number);
        self.counts.fail(chan)
    }
}

impl<S: System + Clock + Copy> Poller for MioNet<S> {
    ghost use Rattle.std.specs.Prelude.{Some, refl};
    ghost use Rattle.std.proofs.Common.{◌∙◌};
    ghost use Rattle.nio_kept.specs.Readiness.{polls_of, ready_of};

    ghost poll_faults = { λ m. m.poll_faults };

    ghost ready = { λ m. ready_of m.readiness };

    ghost polls = { λ m. Some (polls_of m.readiness) };

    // The counts stay, and what stands.
    ghost kept = { λ x y. (y.counts ≡ x.counts) × (y.log.changes ≡ x.log.changes) };

    fn poll<R: Wait>(
        &mut self,
        rt: &R,
        alloc: Global,
        asked: &Asked,
        mode: Mode,
    ) -> Result<Told, PollError> {
        match self.sockets.poll(rt, &self.system, alloc, asked, mode) {
            Ok(told) => {
                self.readiness.answered(asked, mode, &told);
                Ok(told)
            }
            Err(PollError::Memory) => {
                self.readiness.failed();
                Err(PollError::Memory)
            }
            Err(PollError::Fault) => {
                self.readiness.failed();
                raise(&mut self.poll_faults);
                Err(PollError::Fault)
            }
        }
    }

    ghost kept_same = { λ x. (refl, refl) };

    ghost kept_on = { λ x y z h k. (k.0 ∙ h.0, k.1 ∙ h.1) };
}

#[tactic(auto, using(nio_link::proofs::Changes::accepted_here, nio_link::proofs::Changes::changed_here, nio_link::proofs::Changes::changed_else))]
impl<S: System + Clock + Copy> Net for MioNet<S> {
    ghost use Rattle.std.proofs.Common.{ap};
    ghost use Rattle.std.specs.Prelude.{None, refl};
    ghost use Rattle.nio_kept.specs.Counts.{count_of};
    ghost use Rattle.nio_link.specs.Accepts.{accepted_by};
    ghost use Rattle.nio_link.specs.Places.{places_after};

    ghost link = { λ m c. record { got = None; ended = None; put = None; shut = None } };

    ghost faults = { λ m. count_of m.counts };

    ghost place = { λ m. places_after m.log.changes };

    ghost accepted = { λ m. accepted_by m.log.changes };

    fn listen(&mut self, chan: ChanId, at: Addr) -> Result<(), Failed> {
        if !self.log.has(chan.number) {
            return Err(self.counts.fail(chan));
        }
        match self.sockets.listen(&self.system, chan.number, at) {
            Ok(()) => {
                self.log.push(chan, Change::Listen(at));
                self.readiness.forget(chan.number);
                Ok(())
            }
            Err(Failed) => Err(self.counts.fail(chan)),
        }
    }

    fn accept(&mut self, listener: ChanId, chan: ChanId) -> Result<bool, Failed> {
        if !self.log.has(chan.number) {
            return Err(self.counts.fail(listener));
        }
        match self.sockets.accept(listener.number, chan.number) {
            Ok(true) => {
                self.log.push(chan, Change::Accept(listener));
                self.readiness.forget(chan.number);
                Ok(true)
            }
            Ok(false) => {
                self.readiness.take(listener.number, Ops::ACCEPT);
                Ok(false)
            }
            Err(Failed) => Err(self.counts.fail(listener)),
        }
    }

    fn connect(&mut self, chan: ChanId, to: Addr) -> Result<bool, Failed> {
        if !self.log.has(chan.number) {
            self.log.push(chan, Change::Connect(to, Err(Failed)));
            return Err(self.counts.fail(chan));
        }
        match self.sockets.connect(&self.system, chan.number, to) {
            Ok(connected) => {
                self.log.push(chan, Change::Connect(to, Ok(connected)));
                self.readiness.forget(chan.number);
                Ok(connected)
            }
            Err(Failed) => {
                self.log.push(chan, Change::Connect(to, Err(Failed)));
                Err(self.counts.fail(chan))
            }
        }
    }

    fn finish_connect(&mut self, chan: ChanId) -> Result<bool, Failed> {
        if !self.log.has(chan.number) {
            return Err(self.give_up(chan));
        }
        match self.sockets.finish_connect(chan.number) {
            Ok(true) => {
                self.log.push(chan, Change::FinishConnect);
                Ok(true)
            }
            Ok(false) => {
                self.readiness.take(chan.number, Ops::CONNECT);
                Ok(false)
            }
            Err(Failed) => Err(self.give_up(chan)),
        }
    }

    fn read(&mut self, chan: ChanId, into: &mut [u8]) -> Result<Got, Failed> {
        match self.sockets.read(chan.number, into) {
            Ok(Got::NotYet) => {
                self.readiness.take(chan.number, Ops::READ);
                Ok(Got::NotYet)
            }
            Ok(got) => Ok(got),
            Err(Failed) => Err(self.counts.fail(chan)),
        }
    }

    fn write(&mut self, chan: ChanId, from: &[u8]) -> Result<Put, Failed> {
        match self.sockets.write(chan.number, from) {
            Ok(Put::NotYet) => {
                self.readiness.take(chan.number, Ops::WRITE);
                Ok(Put::NotYet)
            }
            Ok(put) => Ok(put),
            Err(Failed) => Err(self.counts.fail(chan)),
        }
    }

    fn shut_write(&mut self, chan: ChanId) -> Result<(), Failed> {
        if !self.log.has(chan.number) {
            return Err(self.counts.fail(chan));
        }
        match self.sockets.shut_write(chan.number) {
            Ok(()) => {
                self.log.push(chan, Change::ShutWrite);
                Ok(())
            }
            Err(Failed) => Err(self.counts.fail(chan)),
        }
    }

    fn close(&mut self, chan: ChanId) {
        if self.log.is_there(chan) {
            self.sockets.close(chan.number);
            self.readiness.forget(chan.number);
        }
        self.log.push(chan, Change::Close);
    }

    ghost kept_links = { λ x y h c. refl };

    ghost kept_faults = { λ x y h c. ap (λ counts. count_of counts c) h.0 };

    ghost kept_places = { λ x y h c. ap (λ changes. places_after changes c) h.1 };

    ghost kept_accepted = { λ x y h. ap accepted_by h.1 };
}

#[tactic(auto, using(nio_link::proofs::Changes::accepted_here, nio_link::proofs::Changes::changed_here, nio_link::proofs::Changes::changed_else))]
impl<S: System + Clock + Copy> Passable for MioNet<S> {
    type Link = LooseSocket;

    fn take_out(&mut self, chan: ChanId) -> Option<LooseSocket> {
        if !self.log.stands(chan) {
            return None;
        }
        self.log.push(chan, Change::TakeOut);
        self.readiness.forget(chan.number);
        Some(LooseSocket::over(self.sockets.take_out(chan.number)))
    }

    /// Where the system refuses to watch the socket, the next poll tells all that is asked of the channel, and its next
    /// call fails.
    fn put_in(&mut self, chan: ChanId, link: LooseSocket) -> Result<(), LooseSocket> {
        if self.make_room(chan.number).is_err() {
            return Err(link);
        }
        self.sockets.put_in(chan.number, link.into_stream());
        self.log.push(chan, Change::PutIn);
        self.readiness.forget(chan.number);
        Ok(())
    }
}

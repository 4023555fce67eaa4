//! The checked net.
ghost use Rattle.std.specs.Prelude.{◌≡◌, ◌≢◌, ◌↔◌, ◌+◌, ◌<◌, [], Err, IfNone, IfOk, IfSome, IsTrue, Ok, OnErr, false};
ghost use Rattle.std.specs.Prelude.{slice_get, Some};
ghost use Rattle.nio_base.specs.declared.numbers.ChanId.{ChanId as Channel};
ghost use Rattle.nio_link.specs.Links.{IsGot, IsPut};
ghost use Rattle.nio_link.specs.Nets.{view_of, Listens, Accepts, Connects, Finishes, Reads, Writes, Shuts, Closes};
ghost use Rattle.nio_link.specs.Places.{never_asked, is_there, IsFree, IsLinked};
ghost use Rattle.nio_link.specs.Readiness.{ready_after_accept, ready_after_close, ready_after_connect, ready_after_making};
ghost use Rattle.nio_link.specs.Readiness.{ready_after_read, ready_after_write};
ghost use Rattle.nio_link.specs.declared.net.Got.TheVariants as got;
ghost use Rattle.nio_link.specs.declared.net.Put.TheVariants as put;
ghost use Rattle.nio_link.specs.declared.place.Standing.TheVariants as standing;
ghost use Rattle.nio_checked.specs.Checked.{as_failed};
ghost use Rattle.nio_checked.specs.Listed.{IsTold, told_after};
ghost use Rattle.nio_checked.specs.declared.calls.NetError.TheVariants.{NotAllowed};

use crate::calls;
use crate::calls::NetError;
use crate::told::list;
use nio_base::{Addr, ChanId, ChanNo, Ops};
use nio_history::Mode;
use nio_link::{Got, Net, Occupants, Put};
use nio_poller::{PollError, Poller};
use nio_select::{Asked, Told};
use std::alloc::{AllocError, Global};
use std::marker::Model;
use std::sync::Wait;

/// A net whose calls may be made at any time. Each looks first at what stands under its channel, and at what the last
/// poll told of it; a call that may not be made doesn't reach the net.
#[derive(Drop)]
pub struct CheckedNet<N: Net + Drop> {
    net: N,
    kept: Occupants,
    told: Vec<(ChanNo, Ops)>,
    given: usize,
    failed: bool,
}

impl<N: Net + Drop> Model for CheckedNet<N> {
    ghost use Rattle.std.specs.Prelude.{length};
    ghost use Rattle.nio_checked.specs.Checked.{Checked, IsChecked};

    ghost Value = { Checked N };

    ghost view = { λ c. record {
      net = c.net;
      numbers = length c.kept;
      told = c.told.items;
      given = c.given;
      failed = c.failed;
    } };

    ghost invariant = { λ c. IsChecked (N.ready c.net) (N.place c.net) c.kept c.told.items };
}

impl<N: Net + Drop> CheckedNet<N> {
    /// A checked net over a net on which no call was made yet, for so many numbers, from 0 on.
    pub fn make(alloc: Global, net: N, numbers: u32) -> Result<CheckedNet<N>, AllocError>
        requires { (c : Channel) → N.place net c ≡ never_asked }
        ensures { IfOk result (λ made. made ≡ record {
          net = net;
          numbers = numbers;
          told = [];
          given = 0;
          failed = false;
        }) }
    {
        let kept = Occupants::make(alloc, numbers as usize)?;
        Ok(CheckedNet {
            net,
            kept,
            told: Vec::new(alloc),
            given: 0,
            failed: false,
        })
    }

    /// The net that its calls reach.
    pub fn net(&self) -> &N
        ensures { result.now ≡ self.now.net }
    {
        &self.net
    }

    /// The channel of this number under which a link or a listener stands: at most one does. What a poll told of the
    /// number is told of that channel.
    #[tactic(auto, using(crate::proofs::Standing::standing_channel_is))]
    pub fn channel_at(&self, number: ChanNo) -> Option<ChanId>
        ensures { (c : Channel) → (result ≡ Some c)
            ↔ ((c.number ≡ number) × IsTrue (is_there (N.place self.now.net c).standing)) }
    {
        calls::standing_at(&self.kept, number)
    }

    /// What the last poll told, one number after the other, with what its channel is ready for (`channel_at`).
    pub fn next_told(&mut self) -> Option<(ChanNo, Ops)>
        ensures next { result ≡ slice_get self.old.told self.old.given }
        ensures given { IfSome result (λ _. self.new ≡ record self.old { given = self.old.given + 1 }) }
        ensures all { IfNone result (self.new ≡ self.old) }
    {
        if self.given < self.told.len() {
            let next = self.told[self.given];
            self.given += 1;
            Some(next)
        } else {
            None
        }
    }

    /// Makes a listener under this channel. Where that fails, the channel can be asked again. What was told of the
    /// number is not told of the listener.
    pub fn listen(&mut self, chan: ChanId, at: Addr) -> Result<(), NetError>
        ensures allowed { result ≢ Err NotAllowed
            ↔ ((chan.number.0 < self.old.numbers) × IsFree (N.place self.old.net) chan) }
        ensures refused { result ≡ Err NotAllowed → self.new ≡ self.old }
        ensures call { result ≢ Err NotAllowed
            → Listens chan at (view_of N.Net self.old.net) (view_of N.Net self.new.net) (as_failed result) }
        ensures told { result ≢ Err NotAllowed → self.new.told ≡ told_after chan.number
            (ready_after_making (is_there (N.place self.new.net chan).standing)) self.old.told }
        ensures rest { self.new ≡ record self.old { net = self.new.net; told = self.new.told } }
    {
        calls::listen(&mut self.net, &mut self.kept, &mut self.told, chan, at)
    }

    /// Takes a connection from a listener, and makes a link of it under the channel `chan`. False where none has come,
    /// as far as the last poll told and no call since has found otherwise. What was told of the link's number is not
    /// told of the link.
    pub fn accept(&mut self, listener: ChanId, chan: ChanId) -> Result<bool, NetError>
        ensures allowed { result ≢ Err NotAllowed ↔ (((N.place self.old.net listener).standing ≡ standing.Listening)
            × ((chan.number.0 < self.old.numbers) × IsFree (N.place self.old.net) chan)) }
        ensures refused { result ≡ Err NotAllowed → self.new ≡ self.old }
        ensures untold { result ≢ Err NotAllowed → ¬ IsTold self.old.told listener.number 16
            → (result ≡ Ok false) × (self.new ≡ self.old) }
        ensures call { result ≢ Err NotAllowed → IsTold self.old.told listener.number 16
            → Accepts listener chan (view_of N.Net self.old.net) (view_of N.Net self.new.net) (as_failed result) }
        ensures told { result ≢ Err NotAllowed → IsTold self.old.told listener.number 16 → self.new.told
            ≡ told_after chan.number (ready_after_making (is_there (N.place self.new.net chan).standing))
            (told_after listener.number (ready_after_accept (as_failed result)) self.old.told) }
        ensures rest { self.new ≡ record self.old { net = self.new.net; told = self.new.told } }
    {
        calls::accept(
            &mut self.net,
            &mut self.kept,
            &mut self.told,
            listener,
            chan,
        )
    }

    /// Begins to connect a link under this channel. True where it is connected; false where that isn't done yet. A link
    /// that couldn't be connected is closed. What was told of the number is not told of the link.
    pub fn connect(&mut self, chan: ChanId, to: Addr) -> Result<bool, NetError>
        ensures allowed { result ≢ Err NotAllowed
            ↔ ((chan.number.0 < self.old.numbers) × IsFree (N.place self.old.net) chan) }
        ensures refused { result ≡ Err NotAllowed → self.new ≡ self.old }
        ensures call { result ≢ Err NotAllowed
            → Connects chan to (view_of N.Net self.old.net) (view_of N.Net self.new.net) (as_failed result) }
        ensures told { result ≢ Err NotAllowed → self.new.told ≡ told_after chan.number
            (ready_after_making (is_there (N.place self.new.net chan).standing)) self.old.told }
        ensures rest { self.new ≡ record self.old { net = self.new.net; told = self.new.told } }
    {
        calls::connect(&mut self.net, &mut self.kept, &mut self.told, chan, to)
    }

    /// Goes on connecting a link. True where it is connected; false where that isn't done yet, as far as the last poll
    /// told and no call since has found otherwise. A link that couldn't be connected is closed.
    pub fn finish_connect(&mut self, chan: ChanId) -> Result<bool, NetError>
        ensures allowed { result ≢ Err NotAllowed ↔ ((N.place self.old.net chan).standing ≡ standing.Connecting) }
        ensures refused { result ≡ Err NotAllowed → self.new ≡ self.old }
        ensures untold { result ≢ Err NotAllowed → ¬ IsTold self.old.told chan.number 8
            → (result ≡ Ok false) × (self.new ≡ self.old) }
        ensures call { result ≢ Err NotAllowed → IsTold self.old.told chan.number 8
            → Finishes chan (view_of N.Net self.old.net) (view_of N.Net self.new.net) (as_failed result) }
        ensures told { result ≢ Err NotAllowed → IsTold self.old.told chan.number 8
            → self.new.told ≡ told_after chan.number (ready_after_connect (as_failed result)) self.old.told }
        ensures rest { self.new ≡ record self.old { net = self.new.net; told = self.new.told } }
    {
        calls::finish_connect(&mut self.net, &mut self.kept, &mut self.told, chan)
    }

    /// Reads what has come on a link, as far as it fits. `NotYet` where the last poll didn't tell that it can be read,
    /// or a call since has found that it can't.
    pub fn read(&mut self, chan: ChanId, into: &mut [u8]) -> Result<Got, NetError>
        requires { into.old ≢ [] }
        ensures allowed { result ≢ Err NotAllowed ↔ IsLinked (N.place self.old.net chan).standing }
        ensures refused { result ≡ Err NotAllowed → (self.new ≡ self.old) × (into.new ≡ into.old) }
        ensures untold { result ≢ Err NotAllowed → ¬ IsTold self.old.told chan.number 1
            → (result ≡ Ok got.NotYet) × (self.new ≡ self.old) × (into.new ≡ into.old) }
        ensures got { IfOk result (IsGot into.old) }
        ensures call { result ≢ Err NotAllowed → IsTold self.old.told chan.number 1
            → Reads chan (view_of N.Net self.old.net) (view_of N.Net self.new.net) into.old into.new
            (as_failed result) }
        ensures told { result ≢ Err NotAllowed → IsTold self.old.told chan.number 1
            → self.new.told ≡ told_after chan.number (ready_after_read (as_failed result)) self.old.told }
        ensures rest { self.new ≡ record self.old { net = self.new.net; told = self.new.told } }
    {
        calls::read(&mut self.net, &self.kept, &mut self.told, chan, into)
    }

    /// Writes bytes on a link, as many as it takes. `NotYet` where the last poll didn't tell that it can be written, or
    /// a call since has found that it can't.
    pub fn write(&mut self, chan: ChanId, from: &[u8]) -> Result<Put, NetError>
        requires { from.now ≢ [] }
        ensures allowed { result ≢ Err NotAllowed ↔ ((N.place self.old.net chan).standing ≡ standing.Linked) }
        ensures refused { result ≡ Err NotAllowed → self.new ≡ self.old }
        ensures untold { result ≢ Err NotAllowed → ¬ IsTold self.old.told chan.number 4
            → (result ≡ Ok put.NotYet) × (self.new ≡ self.old) }
        ensures put { IfOk result (IsPut from.now) }
        ensures call { result ≢ Err NotAllowed → IsTold self.old.told chan.number 4
            → Writes chan (view_of N.Net self.old.net) (view_of N.Net self.new.net) from.now (as_failed result) }
        ensures told { result ≢ Err NotAllowed → IsTold self.old.told chan.number 4
            → self.new.told ≡ told_after chan.number (ready_after_write (as_failed result)) self.old.told }
        ensures rest { self.new ≡ record self.old { net = self.new.net; told = self.new.told } }
    {
        calls::write(&mut self.net, &self.kept, &mut self.told, chan, from)
    }

    // Whether the channel has a link that can be read.
    pub(crate) fn may_read(&self, chan: ChanId) -> bool
        ensures { IsTrue result ↔ IsLinked (N.place self.now.net chan).standing }
    {
        calls::is_linked(calls::standing_of(&self.kept, chan))
    }

    // Whether the channel has a link that can be written.
    pub(crate) fn may_write(&self, chan: ChanId) -> bool
        ensures { IsTrue result ↔ ((N.place self.now.net chan).standing ≡ standing.Linked) }
    {
        calls::is_whole(calls::standing_of(&self.kept, chan))
    }

    /// Shuts the side of a link on which bytes are written, so that the other side finds their end.
    pub fn shut_write(&mut self, chan: ChanId) -> Result<(), NetError>
        ensures allowed { result ≢ Err NotAllowed ↔ ((N.place self.old.net chan).standing ≡ standing.Linked) }
        ensures refused { result ≡ Err NotAllowed → self.new ≡ self.old }
        ensures call { result ≢ Err NotAllowed
            → Shuts chan (view_of N.Net self.old.net) (view_of N.Net self.new.net) (as_failed result) }
        ensures rest { self.new ≡ record self.old { net = self.new.net } }
    {
        calls::shut_write(&mut self.net, &mut self.kept, &self.told, chan)
    }

    /// Closes what stands under the channel, if anything does. What was told of it is told no more.
    pub fn close(&mut self, chan: ChanId)
        ensures call { Closes chan (view_of N.Net self.old.net) (view_of N.Net self.new.net) }
        ensures told { self.new.told
            ≡ told_after chan.number (ready_after_close (N.place self.old.net chan).standing) self.old.told }
        ensures rest { self.new ≡ record self.old { net = self.new.net; told = self.new.told } }
    {
        calls::close(&mut self.net, &mut self.kept, &mut self.told, chan);
    }
}

impl<N: Net + Drop> Poller for CheckedNet<N> {
    ghost use Rattle.nio_base.specs.declared.numbers.ChanNo.{ChanNo};
    ghost use Rattle.nio_poller.specs.Polls.{AddsPoll, CountsFaults, told_of_channel};
    ghost use Rattle.nio_poller.specs.declared.poller.PollError.TheVariants as failure;
    ghost use Rattle.nio_checked.specs.Checked.{ready_of};
    ghost use Rattle.nio_checked.specs.Listed.{listed};

    ghost poll_faults = { λ c. N.poll_faults c.net };

    ghost ready = { λ c. ready_of (N.ready c.net) c.failed };

    ghost polls = { λ c. N.polls c.net };

    ghost kept = { λ x y. N.kept x.net y.net };

    fn poll<R: Wait>(
        &mut self,
        rt: &R,
        alloc: Global,
        asked: &Asked,
        mode: Mode,
    ) -> Result<Told, PollError>
        // As every poller.
        ensures cause { CountsFaults failure.Fault (N.poll_faults self.old.net) (N.poll_faults self.new.net) result }
        ensures ready { IfOk result (λ answer. (c : ChanNo) → ready_of (N.ready self.new.net) self.new.failed c
            ≡ told_of_channel asked.now.keys answer.pairs.items c) }
        ensures unready { OnErr result ((c : ChanNo) → ready_of (N.ready self.new.net) self.new.failed c ≡ 0) }
        ensures polls { AddsPoll (N.polls self.old.net) (N.polls self.new.net) asked.now.keys mode result }
        ensures kept { N.kept self.old.net self.new.net }

        // What it told is listed by channels.
        ensures told { IfOk result (λ answer. self.new.told ≡ listed answer.pairs.items asked.now.keys) }
        ensures untold { OnErr result (self.new.told ≡ []) }
        ensures given { self.new.given ≡ 0 }
        ensures numbers { self.new.numbers ≡ self.old.numbers }
        ensures failed { IsTrue self.new.failed → (result ≡ Err failure.Memory) × (self.new.net ≡ self.old.net) }
    {
        self.told.clear();
        self.given = 0;
        self.failed = self.told.reserve(asked.len()).is_err();
        if self.failed {
            return Err(PollError::Memory);
        }
        let answer = self.net.poll(rt, alloc, asked, mode)?;
        list(asked, answer.pairs.as_slice(), &mut self.told);
        Ok(answer)
    }

    ghost kept_same = { λ x. N.kept_same x.net };

    ghost kept_on = { λ x y z h k. N.kept_on x.net y.net z.net h k };
}

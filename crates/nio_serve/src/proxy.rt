//! The proxy at work: accepting, and serving what a selection tells.
ghost use Rattle.std.specs.Prelude.{◌≡◌, ◌≢◌, ℕ, ◌-◌, ◌/◌, ◌≤◌, ◌⊎◌, [], Err, IfErr, IfOk, IsSome, IsTrue, OnOk, length};
ghost use Rattle.nio_base.specs.declared.numbers.ChanId.{ChanId};
ghost use Rattle.nio_base.specs.declared.numbers.ChanNo.{ChanNo};
ghost use Rattle.nio_bytes.specs.Cause.{Rose};
ghost use Rattle.nio_link.specs.Links.{IsSameBut};
ghost use Rattle.nio_link.specs.Places.{IsVacant};
ghost use Rattle.nio_link.specs.declared.place.Standing.TheVariants.{Listening};
ghost use Rattle.nio_base.specs.Ops.{is_within};
ghost use Rattle.nio_board.specs.Board.{AreOrdered, AreReady, IsSameBoard, IsSameSeat};
ghost use Rattle.nio_serve.specs.Nets.{IsQuiet};
ghost use Rattle.nio_serve.specs.Passing.{number_after};
ghost use Rattle.nio_serve.specs.Serving.{listener};
ghost use Rattle.nio_serve.specs.Changes.{AreUnbegun};
ghost use Rattle.nio_serve.specs.Slots.{AreServed, IsElseReady, IsSlotReady, ListensAt, Serving};
ghost use Rattle.nio_serve.specs.Watching.{Watching, WatchesAll};
ghost use Rattle.nio_serve.specs.declared.serving.ServeError.TheVariants.{NetFault};

use crate::connections::{Connections, SlotTold};
use crate::link::ToldOps;
use crate::serving::ServeError;
use crate::way::Way;
use nio_base::{ChanId, ChanNo, Kind, Ops};
use nio_board::{Board, Port, Refused};
use nio_poller::PollError;
use nio_relay::{CAPACITY, ProxyPlan};
use std::alloc::{AllocError, Global};
use std::sync::Wait;

/// The channel of the listener.
pub(crate) const LISTENER: ChanId = ChanId {
    number: ChanNo(0),
    serial: 0,
};

// The first number after those of the slot to which this one belongs; after the listener's the first of all.
fn number_after(chan: ChanNo) -> u64
    ensures { result ≡ number_after chan }
{
    2 * ((u64::from(chan.0) + 1) / 2) + 1
}

// The slot to which a number belongs that isn't the listener's.
fn slot_of(chan: ChanNo) -> usize
    requires { 1 ≤ chan.0 }
    ensures { result ≡ (chan.0 - 1) / 2 }
{
    (chan.0 as usize - 1) / 2
}

// What the slot of a link was told ready for. Where the link is a client's, it is also what its target's was told, if that
// comes next.
fn slot_told(told: (ChanNo, Ops), next: (ChanNo, Ops)) -> SlotTold
    requires { 1 ≤ told.0.0 }
    ensures slot { result.slot ≡ (told.0.0 - 1) / 2 }
    ensures ready { (ready : ChanNo → ℕ) → IsTrue (is_within told.1 (ready told.0))
        → IsTrue (is_within next.1 (ready next.0)) → IsSlotReady ready result }
{
    let (chan, ops) = told;
    let slot = slot_of(chan);
    if chan.0 % 2 == 0 {
        let client = Ops::NONE;
        return SlotTold {
            slot,
            ops: ToldOps {
                client,
                target: ops,
            },
        };
    }
    let target = if next.0.0 as usize == 2 * slot + 2 {
        next.1
    } else {
        Ops::NONE
    };
    SlotTold {
        slot,
        ops: ToldOps {
            client: ops,
            target,
        },
    }
}

// What the listener was told ready for: it comes first in what was told, if it was told anything.
fn told_of_listener(told: &[(ChanNo, Ops)]) -> Ops
    ensures { (ready : ChanNo → ℕ) → AreReady ready told.now → IsTrue (is_within result (ready listener.number)) }
{
    match told.first() {
        Some((chan, ops)) if *chan == LISTENER.number => *ops,
        Some(_) | None => Ops::NONE,
    }
}

/// What a proxy works with. The listener is watched at its port, for `interest`, until all connections were accepted.
#[derive(Drop)]
pub(crate) struct Proxy<'a> {
    alloc: Global,
    pub board: Board<'a>,
    pub port: Option<Port>,
    interest: Ops,
    pub connections: Connections,
}

impl<'a> Proxy<'a> {
    /// A proxy that hasn't begun to listen. Gives the board back where it can't be made.
    pub(crate) fn open<R: Wait>(
        rt: &R,
        alloc: Global,
        board: Board<'a>,
        plan: ProxyPlan,
    ) -> Result<Proxy<'a>, Board<'a>>
        requires unregistered { board.registered ≡ [] }
        ensures unbegun { IfOk result (λ proxy. AreUnbegun plan proxy.connections) }
        ensures watched { IfOk result (λ proxy. IsSome proxy.port) }
        ensures seat { IfOk result (λ proxy. IsSameSeat board.entry proxy.board) }
        ensures registered { IfOk result (λ proxy. WatchesAll proxy.board proxy.connections) }
        ensures refused { IfErr result (IsSameBoard board.entry) }
    {
        let Ok(connections) = Connections::make(alloc, plan) else {
            return Err(board);
        };
        let mut board = board;
        match board.watch(rt, LISTENER, Kind::Listener, Ops::ACCEPT) {
            Ok(port) => Ok(Proxy {
                alloc,
                board,
                port: Some(port),
                interest: Ops::ACCEPT,
                connections,
            }),
            Err(Refused) => Err(board),
        }
    }

    /// Gives the board back.
    pub(crate) fn into_board(self) -> Board<'a>
        ensures { result ≡ self.entry.board }
    {
        self.board
    }

    // Accepts the next connection, if the plan has one, it has come, and a slot is free. Says whether another one may
    // have come.
    fn accept_one<R: Wait, N, W: Way<N>>(
        &mut self,
        rt: &R,
        way: &mut W,
        net: &mut N,
    ) -> Result<bool, ServeError>
        requires ready { IsTrue (is_within 16 (W.ready net.old listener.number)) }
        requires listens { (W.place net.old listener).standing ≡ Listening }
        requires served { AreServed (W.link net.old) (W.place net.old) self.old.connections }
        requires watched { WatchesAll self.old.board self.old.connections }
        ensures serving { Serving W.Way net.old net.new self.old.connections self.new.connections }
        ensures listens { W.place net.new listener ≡ W.place net.old listener }
        ensures port { self.new.port ≡ self.old.port }
        ensures cause { result ≡ Err NetFault → Rose (W.faults net.old listener) (W.faults net.new listener) }
        ensures more { IfOk result (λ more. IsTrue more → W.ready net.new listener.number
            ≡ W.ready net.old listener.number) }
        ensures watching { Watching self.old.board self.new.board self.new.connections result }
    {
        if self.connections.begun < self.connections.conns {
            self.connections
                .accept(rt, self.alloc, way, net, &mut self.board)
        } else {
            Ok(false)
        }
    }

    // Accepts the connections that have come, as far as slots are free.
    fn accept_all<R: Wait, N, W: Way<N>>(
        &mut self,
        rt: &R,
        way: &mut W,
        net: &mut N,
    ) -> Result<(), ServeError>
        requires ready { IsTrue (is_within 16 (W.ready net.old listener.number)) }
        requires listens { (W.place net.old listener).standing ≡ Listening }
        requires served { AreServed (W.link net.old) (W.place net.old) self.old.connections }
        requires watched { WatchesAll self.old.board self.old.connections }
        ensures serving { Serving W.Way net.old net.new self.old.connections self.new.connections }
        ensures listens { W.place net.new listener ≡ W.place net.old listener }
        ensures port { self.new.port ≡ self.old.port }
        ensures cause { result ≡ Err NetFault → Rose (W.faults net.old listener) (W.faults net.new listener) }
        ensures watching { Watching self.old.board self.new.board self.new.connections result }
    {
        for _ in 0..=self.connections.conns {
            if !self.accept_one(rt, way, net)? {
                return Ok(());
            }
        }
        Ok(())
    }

    // Accepts where the listener was told ready for that.
    fn accept_told<R: Wait, N, W: Way<N>>(
        &mut self,
        rt: &R,
        way: &mut W,
        net: &mut N,
        ops: Ops,
    ) -> Result<(), ServeError>
        requires ready { IsTrue (is_within ops (W.ready net.old listener.number)) }
        requires listens { ListensAt self.old.port (W.place net.old listener).standing }
        requires served { AreServed (W.link net.old) (W.place net.old) self.old.connections }
        requires watched { WatchesAll self.old.board self.old.connections }
        ensures serving { Serving W.Way net.old net.new self.old.connections self.new.connections }
        ensures listens { W.place net.new listener ≡ W.place net.old listener }
        ensures port { self.new.port ≡ self.old.port }
        ensures cause { result ≡ Err NetFault → Rose (W.faults net.old listener) (W.faults net.new listener) }
        ensures watching { Watching self.old.board self.new.board self.new.connections result }
    {
        if self.port.is_some() && Ops::ACCEPT.within(ops) {
            self.accept_all(rt, way, net)
        } else {
            Ok(())
        }
    }

    // Does what the links of a slot's connection were told ready for, and what comes of it for the table.
    fn serve_slot<N, W: Way<N>>(
        &mut self,
        way: &mut W,
        net: &mut N,
        told: SlotTold,
        scratch: &mut [u8],
    ) -> Result<(), ServeError>
        requires scratch { length scratch.old ≡ CAPACITY }
        requires ready { IsSlotReady (W.ready net.old) told }
        requires served { AreServed (W.link net.old) (W.place net.old) self.old.connections }
        requires watched { WatchesAll self.old.board self.old.connections }
        ensures serving { Serving W.Way net.old net.new self.old.connections self.new.connections }
        ensures listens { W.place net.new listener ≡ W.place net.old listener }
        ensures port { self.new.port ≡ self.old.port }
        ensures ready { IsElseReady told.slot (W.ready net.old) (W.ready net.new) }
        ensures cause { result ≢ Err NetFault }
        ensures watching { Watching self.old.board self.new.board self.new.connections result }
    {
        match self
            .connections
            .serve(way, net, &mut self.board, told, scratch)
        {
            Ok(()) => Ok(()),
            Err(Refused) => Err(ServeError::Memory),
        }
    }

    // Does what the slot of a link was told ready for.
    fn serve_told<N, W: Way<N>>(
        &mut self,
        way: &mut W,
        net: &mut N,
        told: (ChanNo, Ops),
        next: (ChanNo, Ops),
        scratch: &mut [u8],
    ) -> Result<(), ServeError>
        requires scratch { length scratch.old ≡ CAPACITY }
        requires link { 1 ≤ told.0.0 }
        requires ready { IsTrue (is_within told.1 (W.ready net.old told.0)) }
        requires ready_next { IsTrue (is_within next.1 (W.ready net.old next.0)) }
        requires served { AreServed (W.link net.old) (W.place net.old) self.old.connections }
        requires watched { WatchesAll self.old.board self.old.connections }
        ensures serving { Serving W.Way net.old net.new self.old.connections self.new.connections }
        ensures listens { W.place net.new listener ≡ W.place net.old listener }
        ensures port { self.new.port ≡ self.old.port }
        ensures ready { (c : ChanNo) → number_after told.0 ≤ c.0 → W.ready net.new c ≡ W.ready net.old c }
        ensures accepts { W.ready net.new listener.number ≡ W.ready net.old listener.number }
        ensures cause { result ≢ Err NetFault }
        ensures watching { Watching self.old.board self.new.board self.new.connections result }
    {
        self.serve_slot(way, net, slot_told(told, next), scratch)
    }

    // Does what a selection told of links: serves each connection once, with what was told first of each of its links. A
    // link told of twice may no longer be ready the second time; if it is, the next selection tells of it again.
    fn serve_links<N, W: Way<N>>(
        &mut self,
        way: &mut W,
        net: &mut N,
        told: &[(ChanNo, Ops)],
        scratch: &mut [u8],
    ) -> Result<(), ServeError>
        requires scratch { length scratch.old ≡ CAPACITY }
        requires ready { AreReady (W.ready net.old) told.now }
        requires ordered { AreOrdered told.now }
        requires served { AreServed (W.link net.old) (W.place net.old) self.old.connections }
        requires watched { WatchesAll self.old.board self.old.connections }
        ensures serving { Serving W.Way net.old net.new self.old.connections self.new.connections }
        ensures listens { W.place net.new listener ≡ W.place net.old listener }
        ensures port { self.new.port ≡ self.old.port }
        ensures accepts { W.ready net.new listener.number ≡ W.ready net.old listener.number }
        ensures cause { result ≢ Err NetFault }
        ensures watching { Watching self.old.board self.new.board self.new.connections result }
    {
        let mut unserved = 1;
        for index in 0..told.len() {
            let one = told[index];
            if (one.0.0 as u64) < unserved {
                continue;
            }
            let next = told[(index + 1).min(told.len() - 1)];
            unserved = number_after(one.0);
            let served = self.serve_told(way, net, one, next, scratch);
            if served.is_err() {
                return served;
            }
        }
        Ok(())
    }

    // Does what a selection told: serves the links, and then accepts. The listener comes first in what was told.
    fn serve_all<R: Wait, N, W: Way<N>>(
        &mut self,
        rt: &R,
        way: &mut W,
        net: &mut N,
        told: &[(ChanNo, Ops)],
        scratch: &mut [u8],
    ) -> Result<(), ServeError>
        requires scratch { length scratch.old ≡ CAPACITY }
        requires ready { AreReady (W.ready net.old) told.now }
        requires ordered { AreOrdered told.now }
        requires listens { ListensAt self.old.port (W.place net.old listener).standing }
        requires served { AreServed (W.link net.old) (W.place net.old) self.old.connections }
        requires watched { WatchesAll self.old.board self.old.connections }
        ensures serving { Serving W.Way net.old net.new self.old.connections self.new.connections }
        ensures listens { W.place net.new listener ≡ W.place net.old listener }
        ensures port { self.new.port ≡ self.old.port }
        ensures cause { result ≡ Err NetFault → Rose (W.faults net.old listener) (W.faults net.new listener) }
        ensures watching { Watching self.old.board self.new.board self.new.connections result }
    {
        let served = self.serve_links(way, net, told, scratch);
        if served.is_err() {
            return served;
        }
        let ops = told_of_listener(told);
        self.accept_told(rt, way, net, ops)
    }

    // One selection. It has removed the keys of the connections that ended before it.
    fn select<R: Wait, N, W: Way<N>>(
        &mut self,
        rt: &R,
        way: &mut W,
        net: &mut N,
        told: &mut Vec<(ChanNo, Ops)>,
    ) -> Result<(), ServeError>
        requires served { AreServed (W.link net.old) (W.place net.old) self.old.connections }
        requires watched { WatchesAll self.old.board self.old.connections }
        ensures serving { Serving W.Way net.old net.new self.old.connections self.new.connections }
        ensures listens { W.place net.new listener ≡ W.place net.old listener }
        ensures port { self.new.port ≡ self.old.port }
        ensures ready { IfOk result (λ _. AreReady (W.ready net.new) told.new.items) }
        ensures ordered { IfOk result (λ _. AreOrdered told.new.items) }
        ensures cause { result ≡ Err NetFault → Rose (W.poll_faults net.old) (W.poll_faults net.new) }
        ensures watching { Watching self.old.board self.new.board self.new.connections result }
    {
        match self.board.select(rt, self.alloc, way, net, told) {
            Ok(()) => {
                self.connections.release();
                Ok(())
            }
            Err(PollError::Fault) => Err(ServeError::NetFault),
            Err(PollError::Memory) => Err(ServeError::Memory),
        }
    }

    // Goes on with the connection of a channel for which the way permits a call now: begins to connect its target, and
    // watches its links for what is permitted.
    fn serve_permitted<N, W: Way<N>>(
        &mut self,
        way: &mut W,
        net: &mut N,
        chan: ChanId,
        scratch: &mut [u8],
    ) -> Result<(), ServeError>
        requires scratch { length scratch.old ≡ CAPACITY }
        requires served { AreServed (W.link net.old) (W.place net.old) self.old.connections }
        requires watched { WatchesAll self.old.board self.old.connections }
        ensures serving { Serving W.Way net.old net.new self.old.connections self.new.connections }
        ensures listens { W.place net.new listener ≡ W.place net.old listener }
        ensures port { self.new.port ≡ self.old.port }
        ensures cause { result ≢ Err NetFault }
        ensures watching { Watching self.old.board self.new.board self.new.connections result }
    {
        if chan.number.0 == 0 {
            return Ok(());
        }
        let slot = slot_of(chan.number);
        match self.connections.begin(way, net, &mut self.board, slot) {
            Ok(()) => {
                let ops = ToldOps::NOTHING;
                self.serve_slot(way, net, SlotTold { slot, ops }, scratch)
            }
            Err(Refused) => Err(ServeError::Memory),
        }
    }

    // Goes on with the connections of all channels for which the way has permitted a call.
    fn serve_all_permitted<N, W: Way<N>>(
        &mut self,
        way: &mut W,
        net: &mut N,
        scratch: &mut [u8],
    ) -> Result<(), ServeError>
        requires scratch { length scratch.old ≡ CAPACITY }
        requires served { AreServed (W.link net.old) (W.place net.old) self.old.connections }
        requires watched { WatchesAll self.old.board self.old.connections }
        ensures serving { Serving W.Way net.old net.new self.old.connections self.new.connections }
        ensures listens { W.place net.new listener ≡ W.place net.old listener }
        ensures port { self.new.port ≡ self.old.port }
        ensures cause { result ≢ Err NetFault }
        ensures watching { Watching self.old.board self.new.board self.new.connections result }
    {
        for _ in 0..u64::MAX {
            let Some(chan) = way.permitted() else {
                return Ok(());
            };
            self.serve_permitted(way, net, chan, scratch)?;
        }
        Ok(())
    }

    // For what the listener is to be watched: to accept, where the way permits that and there is a slot for a client.
    fn wanted<N, W: Way<N>>(&self, way: &W) -> Ops
        ensures full { self.now.connections.idle.items ≡ [] → result ≡ 0 }
    {
        if self.connections.is_full() {
            Ops::NONE
        } else {
            Ops::ACCEPT.meet(way.permits(LISTENER))
        }
    }

    // Watches the listener for what is wanted, if it isn't watched so already.
    fn watch_listener<N, W: Way<N>>(&mut self, way: &W) -> Result<(), ServeError>
        ensures connections { self.new.connections ≡ self.old.connections }
        ensures port { self.new.port ≡ self.old.port }
        ensures cause { result ≢ Err NetFault }
        ensures board { IsSameBoard self.old.board self.new.board }
    {
        let Some(port) = self.port else {
            return Ok(());
        };
        let wanted = self.wanted::<N, W>(way);
        if self.interest != wanted {
            if self.board.set(port, wanted).is_err() {
                return Err(ServeError::Memory);
            }
            self.interest = wanted;
        }
        Ok(())
    }

    // Goes on with what the way has permitted since the last round, and watches for no more than that.
    fn prepare<R: Wait, N, W: Way<N>>(
        &mut self,
        rt: &R,
        way: &mut W,
        net: &mut N,
        scratch: &mut [u8],
    ) -> Result<(), ServeError>
        requires scratch { length scratch.old ≡ CAPACITY }
        requires served { AreServed (W.link net.old) (W.place net.old) self.old.connections }
        requires watched { WatchesAll self.old.board self.old.connections }
        ensures serving { Serving W.Way net.old net.new self.old.connections self.new.connections }
        ensures listens { W.place net.new listener ≡ W.place net.old listener }
        ensures port { self.new.port ≡ self.old.port }
        ensures cause { result ≢ Err NetFault }
        ensures watching { Watching self.old.board self.new.board self.new.connections result }
    {
        way.begin_round(rt);
        self.serve_all_permitted(way, net, scratch)?;
        self.watch_listener::<N, W>(way)
    }

    // One round: what was permitted since the last one, one selection, and what it told.
    fn round<R: Wait, N, W: Way<N>>(
        &mut self,
        rt: &R,
        way: &mut W,
        net: &mut N,
        told: &mut Vec<(ChanNo, Ops)>,
        scratch: &mut [u8],
    ) -> Result<(), ServeError>
        requires scratch { length scratch.old ≡ CAPACITY }
        requires listens { ListensAt self.old.port (W.place net.old listener).standing }
        requires served { AreServed (W.link net.old) (W.place net.old) self.old.connections }
        requires watched { WatchesAll self.old.board self.old.connections }
        ensures serving { Serving W.Way net.old net.new self.old.connections self.new.connections }
        ensures listens { W.place net.new listener ≡ W.place net.old listener }
        ensures port { self.new.port ≡ self.old.port }
        ensures cause { result ≡ Err NetFault → Rose (W.poll_faults net.old) (W.poll_faults net.new)
            ⊎ Rose (W.faults net.old listener) (W.faults net.new listener) }
        ensures watching { Watching self.old.board self.new.board self.new.connections result }
    {
        let prepared = self.prepare(rt, way, net, scratch);
        if prepared.is_err() {
            return prepared;
        }
        let selected = self.select(rt, way, net, told);
        if selected.is_err() {
            return selected;
        }
        self.serve_all(rt, way, net, told, scratch)
    }

    // Closes the listener once all connections were accepted.
    fn stop_listening<N, W: Way<N>>(&mut self, way: &mut W, net: &mut N)
        requires listens { ListensAt self.old.port (W.place net.old listener).standing }
        ensures quiet { IsQuiet W.Way net.old net.new }
        ensures places { IsSameBut listener (W.place net.old) (W.place net.new) }
        ensures listens { ListensAt self.new.port (W.place net.new listener).standing }
        ensures connections { self.new.connections ≡ self.old.connections }
        ensures board { IsSameBoard self.old.board self.new.board }
    {
        if self.connections.begun >= self.connections.conns {
            if let Some(port) = self.port {
                self.board.unwatch(port);
                way.close(net, LISTENER);
                self.port = None;
            }
        }
    }

    // Serves until all connections have ended.
    fn serve<R: Wait, N, W: Way<N>>(
        &mut self,
        rt: &R,
        way: &mut W,
        net: &mut N,
        scratch: &mut [u8],
    ) -> Result<(), ServeError>
        requires scratch { length scratch.old ≡ CAPACITY }
        requires listens { ListensAt self.old.port (W.place net.old listener).standing }
        requires served { AreServed (W.link net.old) (W.place net.old) self.old.connections }
        requires watched { WatchesAll self.old.board self.old.connections }
        ensures serving { Serving W.Way net.old net.new self.old.connections self.new.connections }
        ensures listens { ListensAt self.new.port (W.place net.new listener).standing }
        ensures role { (W.place net.new listener).role ≡ (W.place net.old listener).role }
        ensures cause { result ≡ Err NetFault → Rose (W.poll_faults net.old) (W.poll_faults net.new)
            ⊎ Rose (W.faults net.old listener) (W.faults net.new listener) }
        ensures ended { OnOk result (self.new.connections.ended ≡ self.new.connections.conns) }
        ensures watching { Watching self.old.board self.new.board self.new.connections result }
    {
        let mut told = Vec::new(self.alloc);
        for _ in rt.forever() {
            if self.connections.ended == self.connections.conns {
                return Ok(());
            }
            let served = self.round(rt, way, net, &mut told, scratch);
            if served.is_err() {
                return served;
            }
            self.stop_listening(way, net);
        }
        unreachable!()
    }

    /// Serves until all connections have ended.
    pub(crate) fn run<R: Wait, N, W: Way<N>>(
        &mut self,
        rt: &R,
        way: &mut W,
        net: &mut N,
    ) -> Result<(), ServeError>
        requires listens { ListensAt self.old.port (W.place net.old listener).standing }
        requires served { AreServed (W.link net.old) (W.place net.old) self.old.connections }
        requires watched { WatchesAll self.old.board self.old.connections }
        ensures serving { Serving W.Way net.old net.new self.old.connections self.new.connections }
        ensures listens { ListensAt self.new.port (W.place net.new listener).standing }
        ensures role { (W.place net.new listener).role ≡ (W.place net.old listener).role }
        ensures cause { result ≡ Err NetFault → Rose (W.poll_faults net.old) (W.poll_faults net.new)
            ⊎ Rose (W.faults net.old listener) (W.faults net.new listener) }
        ensures ended { OnOk result (self.new.connections.ended ≡ self.new.connections.conns) }
        ensures watching { Watching self.old.board self.new.board self.new.connections result }
    {
        match vec![in self.alloc; 0; CAPACITY] {
            Ok(mut scratch) => self.serve(rt, way, net, &mut scratch),
            Err(AllocError) => Err(ServeError::Memory),
        }
    }

    /// Closes what is still open.
    pub(crate) fn close_all<N, W: Way<N>>(&self, way: &mut W, net: &mut N)
        requires served { AreServed (W.link net.old) (W.place net.old) self.now.connections }
        requires listens { ListensAt self.now.port (W.place net.old listener).standing }
        ensures quiet { IsQuiet W.Way net.old net.new }
        ensures vacant { (c : ChanId) → IsVacant (W.place net.new c).standing }
    {
        self.connections.close_all(way, net);
        self.close_listener(way, net);
    }

    // Closes the listener, if it still stands.
    fn close_listener<N, W: Way<N>>(&self, way: &mut W, net: &mut N)
        requires listens { ListensAt self.now.port (W.place net.old listener).standing }
        ensures quiet { IsQuiet W.Way net.old net.new }
        ensures vacant { IsVacant (W.place net.new listener).standing }
    {
        if self.port.is_some() {
            way.close(net, LISTENER);
        }
    }
}

//! All connections, and the slots that they take.
ghost use Rattle.std.specs.Prelude.{◌≡◌, ◌≢◌, ℕ, ◌+◌, ◌-◌, ◌*◌, ◌^◌, ◌<◌, ◌↔◌, [], Some, Err, IfOk, IsFalse, IsSome, IsTrue};
ghost use Rattle.std.specs.Prelude.{All, AllPairs, IfSome, MatchOption, OnErr, length};
ghost use Rattle.nio_base.specs.declared.numbers.ChanId.{ChanId};
ghost use Rattle.nio_bytes.specs.Cause.{Rose};
ghost use Rattle.nio_link.specs.Places.{IsFree};
ghost use Rattle.nio_link.specs.declared.place.Role.TheVariants as role;
ghost use Rattle.nio_link.specs.declared.place.Standing.TheVariants.{Linked, Listening};
ghost use Rattle.nio_base.specs.Ops.{is_within};
ghost use Rattle.nio_board.specs.Board.{IsSameBoard};
ghost use Rattle.nio_serve.specs.Changes.{AreUnbegun, Frees, GoesOn, IsNextSlot, Occupies, PutsBack, TakesOut, new_slot};
ghost use Rattle.nio_serve.specs.Nets.{AreApart, Accepts, FailsToAccept, IsQuiet, IsStill};
ghost use Rattle.nio_serve.specs.Serving.{listener};
ghost use Rattle.nio_serve.specs.Slots.{AreClosed, AreServed, AreSlots, IsElseReady, IsSlotReady, Serving, client_at};
ghost use Rattle.nio_serve.specs.Slots.{statuses, target_at};
ghost use Rattle.nio_serve.specs.Watching.{Watching, WatchesAll};
ghost use Rattle.nio_serve.specs.declared.serving.ServeError.TheVariants.{NetFault};

use crate::link::{Links, Told, ToldOps};
use crate::proxy::LISTENER;
use crate::relay::{Ended, Relay, close_links, open_relay, take_on};
use crate::serving::ServeError;
use crate::slot::Slot;
use crate::spare::Spare;
use crate::way::Way;
use nio_base::{Addr, ChanId, ChanNo};
use nio_board::{Board, Refused};
use nio_link::Failed;
use nio_relay::{CAPACITY, ProxyPlan};
use nio_trace::Trace;
use std::alloc::{AllocError, Global};
use std::collections::VecDeque;
use std::sync::Wait;

/// The connections of a plan, `conns` in all. Each takes a slot. It is counted how many began, how many of them have ended,
/// and how many of these by a fault.
#[derive(Drop)]
pub(crate) struct Connections {
    pub conns: u32,
    pub target: Addr,
    pub slots: Vec<Slot>,
    /// The slots that relay no connection, in the order in which they are taken.
    pub idle: VecDeque<usize>,
    /// How many of these are free, the first ones. The connections of the others have ended since the last selection: the
    /// next one removes their keys.
    pub free: usize,
    spare: Spare,
    pub begun: u32,
    pub ended: u32,
    pub faulted: u32,
    /// The accepted clients, in their order, in proofs alone.
    pub clients: Trace<ChanId>,
}

// Accepts a connection under the channel of the next client, if one has come. None has where the way holds that back.
fn accept<N, W: Way<N>>(way: &mut W, net: &mut N, client: ChanId) -> Result<bool, Failed>
    requires ready { IsTrue (is_within 16 (W.ready net.old listener.number)) }
    requires listens { (W.place net.old listener).standing ≡ Listening }
    requires free { IsFree (W.place net.old) client }
    ensures begun { IfOk result (λ more. IsTrue more → Accepts W.Way client net.old net.new) }
    ensures accepted { IfOk result (λ more. IsTrue more → W.place net.new client
        ≡ record { role = role.Accepted listener; standing = Linked }) }
    ensures early { IfOk result (λ more. IsFalse more → IsStill W.Way net.old net.new) }
    ensures failed { OnErr result (FailsToAccept W.Way net.old net.new) }
    ensures cause { OnErr result (Rose (W.faults net.old listener) (W.faults net.new listener)) }
{
    match way.accept(net, LISTENER, client) {
        Some(answer) => answer,
        None => Ok(false),
    }
}

// The links of the connection that takes a slot after so many others.
fn links_of(slot: usize, uses: u32) -> Links
    requires few { slot < 16000 }
    ensures client { result.client ≡ client_at slot uses }
    ensures target { result.target ≡ target_at slot uses }
    ensures apart { AreApart result.client result.target }
{
    let client = 2 * slot as u32 + 1;
    Links {
        client: ChanId {
            number: ChanNo(client),
            serial: uses,
        },
        target: ChanId {
            number: ChanNo(client + 1),
            serial: uses,
        },
    }
}

// So many slots that no connection has taken, and their numbers in order.
fn make_slots(alloc: Global, count: usize) -> Result<(Vec<Slot>, VecDeque<usize>), AllocError>
    ensures slots { IfOk result (λ made. All (λ slot. slot ≡ new_slot) made.0.items) }
    ensures count { IfOk result (λ made. length made.0.items ≡ count) }
    ensures idle { IfOk result (λ made. All (λ i. i < count) made.1.items) }
    ensures once { IfOk result (λ made. AllPairs (λ i j. i ≢ j) made.1.items) }
    ensures all { IfOk result (λ made. length made.1.items ≡ count) }
{
    let mut slots = Vec::with_capacity(alloc, count)?;
    let mut idle = VecDeque::with_capacity(alloc, count)?;
    for number in 0..count {
        slots.push(Slot::new())?;
        idle.push_back(number)?;
    }
    Ok((slots, idle))
}

/// What the links of a slot's connection were told ready for.
#[derive(Clone, Copy, Debug, PartialEq, Eq)]
pub(crate) struct SlotTold {
    pub slot: usize,
    pub ops: ToldOps,
}

impl Connections {
    /// None yet, with as many slots as the plan can use.
    pub(crate) fn make(alloc: Global, plan: ProxyPlan) -> Result<Connections, AllocError>
        ensures unbegun { IfOk result (AreUnbegun plan) }
    {
        let count = plan.slots() as usize;
        let (slots, idle) = make_slots(alloc, count)?;
        Ok(Connections {
            conns: plan.conns,
            target: plan.target,
            slots,
            idle,
            free: count,
            spare: Spare::new(alloc),
            begun: 0,
            ended: 0,
            faulted: 0,
            clients: Trace::new(),
        })
    }

    /// Whether every slot relays a connection: then no client can be accepted until one has ended.
    pub(crate) fn is_full(&self) -> bool
        ensures { IsTrue result ↔ (self.now.idle.items ≡ []) }
    {
        self.idle.is_empty()
    }

    // Takes the connection out that a slot relays.
    fn take(&mut self, slot: usize) -> Option<Relay>
        ensures { MatchOption result (self.new ≡ self.old) (λ relay. TakesOut slot relay self.old self.new) }
    {
        if slot < self.slots.len() && self.slots[slot].relay.is_some() {
            self.slots[slot].take()
        } else {
            None
        }
    }

    // Puts a connection back into its slot, or counts it as ended.
    fn put(&mut self, slot: usize, relay: Relay, ended: Option<Ended>) -> Result<(), Refused>
        requires within { slot < length self.old.slots.items }
        requires few { self.old.ended + 1 < 2 ^ 32 }
        requires few_faulted { self.old.faulted + 1 < 2 ^ 32 }
        ensures { PutsBack slot relay ended self.old self.new }
    {
        let Some(ended) = ended else {
            self.slots[slot].put(relay);
            return Ok(());
        };
        self.slots[slot].end(ended);
        self.ended += u32::from(ended.is_end());
        self.faulted += u32::from(ended.is_fault());
        self.spare.give(relay.there);
        self.spare.give(relay.back);
        match self.idle.push_back(slot) {
            Ok(()) => Ok(()),
            Err(_full) => Err(Refused),
        }
    }

    // Puts a connection back, and watches its links for what is to be done next, if it hasn't ended.
    fn go_on<N, W: Way<N>>(
        &mut self,
        way: &W,
        board: &mut Board<'_>,
        slot: usize,
        relay: Relay,
        ended: Option<Ended>,
    ) -> Result<(), Refused>
        requires within { slot < length self.old.slots.items }
        requires few { self.old.ended + 1 < 2 ^ 32 }
        requires few_faulted { self.old.faulted + 1 < 2 ^ 32 }
        ensures goes { GoesOn slot relay ended self.old self.new }
        ensures board { IsSameBoard board.old board.new }
    {
        let mut relay = relay;
        let followed = relay.follow::<N, W>(way, board, ended);
        self.put(slot, relay, ended)?;
        followed
    }

    /// Does what the links of a slot's connection were told ready for, and watches them for what is to be done next.
    pub(crate) fn serve<N, W: Way<N>>(
        &mut self,
        way: &mut W,
        net: &mut N,
        board: &mut Board<'_>,
        told: SlotTold,
        scratch: &mut [u8],
    ) -> Result<(), Refused>
        requires scratch { length scratch.old ≡ CAPACITY }
        requires ready { IsSlotReady (W.ready net.old) told }
        requires served { AreServed (W.link net.old) (W.place net.old) self.old }
        ensures serving { Serving W.Way net.old net.new self.old self.new }
        ensures ready { IsElseReady told.slot (W.ready net.old) (W.ready net.new) }
        ensures listens { W.place net.new listener ≡ W.place net.old listener }
        ensures clients { self.new.clients ≡ self.old.clients }
        ensures board { IsSameBoard board.old board.new }
    {
        let Some(mut relay) = self.take(told.slot) else {
            return Ok(());
        };
        let links = links_of(told.slot, self.slots[told.slot].uses - 1);
        let ops = told.ops;
        let ended = relay.serve(way, net, board, Told { links, ops }, scratch);
        self.go_on::<N, W>(way, board, told.slot, relay, ended)
    }

    /// Begins to connect the target of a slot's connection, where that wasn't begun before and the way permits it now.
    pub(crate) fn begin<N, W: Way<N>>(
        &mut self,
        way: &mut W,
        net: &mut N,
        board: &mut Board<'_>,
        slot: usize,
    ) -> Result<(), Refused>
        requires served { AreServed (W.link net.old) (W.place net.old) self.old }
        ensures serving { Serving W.Way net.old net.new self.old self.new }
        ensures ready { W.ready net.new listener.number ≡ W.ready net.old listener.number }
        ensures listens { W.place net.new listener ≡ W.place net.old listener }
        ensures clients { self.new.clients ≡ self.old.clients }
        ensures board { IsSameBoard board.old board.new }
    {
        let Some(mut relay) = self.take(slot) else {
            return Ok(());
        };
        let links = links_of(slot, self.slots[slot].uses - 1);
        let ended = relay.begin(way, net, board, links, self.target);
        self.go_on::<N, W>(way, board, slot, relay, ended)
    }

    // The slot that the next connection takes, if one is free.
    fn next_slot(&self) -> Option<usize>
        ensures { IfSome result (IsNextSlot self.now) }
    {
        if self.free == 0 {
            return None;
        }
        self.idle.front().copied()
    }

    // The connection of an accepted client takes the first free slot. There is nothing that relays it where memory lacks.
    fn occupy(&mut self, client: ChanId, relay: Option<Relay>)
        requires free { 0 < self.old.free }
        requires slots { AreSlots self.old }
        requires few { self.old.begun + 1 < 2 ^ 32 }
        ensures { Occupies client relay self.old self.new }
    {
        let Some(slot) = self.idle.pop_front() else {
            unreachable!();
        };
        self.free -= 1;
        self.slots[slot].begin(relay);
        self.begun += 1;
        self.clients.push(&client);
    }

    // Accepts the next connection, if one has come and a slot is free, and takes it on. Answers the slot that it took.
    fn accept_next<R: Wait, N, W: Way<N>>(
        &mut self,
        rt: &R,
        alloc: Global,
        way: &mut W,
        net: &mut N,
        board: &mut Board<'_>,
    ) -> Result<Option<usize>, ServeError>
        requires ready { IsTrue (is_within 16 (W.ready net.old listener.number)) }
        requires listens { (W.place net.old listener).standing ≡ Listening }
        requires served { AreServed (W.link net.old) (W.place net.old) self.old }
        requires few { self.old.begun < self.old.conns }
        requires watched { WatchesAll board.old self.old }
        ensures serving { Serving W.Way net.old net.new self.old self.new }
        ensures listens { W.place net.new listener ≡ W.place net.old listener }
        ensures cause { result ≡ Err NetFault → Rose (W.faults net.old listener) (W.faults net.new listener) }
        ensures more { IfOk result (λ took. IsSome took → W.ready net.new listener.number
            ≡ W.ready net.old listener.number) }
        ensures watching { Watching board.old board.new self.new result }
    {
        let Some(slot) = self.next_slot() else {
            return Ok(None);
        };
        let links = links_of(slot, self.slots[slot].uses);
        match accept(way, net, links.client) {
            Ok(true) => {
                let opened = open_relay(rt, alloc, board, &mut self.spare, links);
                let relay = take_on(way, net, links, opened);
                let is_dropped = relay.is_none();
                self.occupy(links.client, relay);
                if is_dropped {
                    Err(ServeError::Memory)
                } else {
                    Ok(Some(slot))
                }
            }
            Ok(false) => Ok(None),
            Err(Failed) => Err(ServeError::NetFault),
        }
    }

    /// Accepts the next connection, if one has come and a slot is free, takes it on, and begins to connect its target. Says
    /// whether another one may have come.
    pub(crate) fn accept<R: Wait, N, W: Way<N>>(
        &mut self,
        rt: &R,
        alloc: Global,
        way: &mut W,
        net: &mut N,
        board: &mut Board<'_>,
    ) -> Result<bool, ServeError>
        requires ready { IsTrue (is_within 16 (W.ready net.old listener.number)) }
        requires listens { (W.place net.old listener).standing ≡ Listening }
        requires served { AreServed (W.link net.old) (W.place net.old) self.old }
        requires few { self.old.begun < self.old.conns }
        requires watched { WatchesAll board.old self.old }
        ensures serving { Serving W.Way net.old net.new self.old self.new }
        ensures listens { W.place net.new listener ≡ W.place net.old listener }
        ensures cause { result ≡ Err NetFault → Rose (W.faults net.old listener) (W.faults net.new listener) }
        ensures more { IfOk result (λ more. IsTrue more → W.ready net.new listener.number
            ≡ W.ready net.old listener.number) }
        ensures watching { Watching board.old board.new self.new result }
    {
        let Some(slot) = self.accept_next(rt, alloc, way, net, board)? else {
            return Ok(false);
        };
        match self.begin(way, net, board, slot) {
            Ok(()) => Ok(true),
            Err(Refused) => Err(ServeError::Memory),
        }
    }

    /// All slots that relay no connection are free: a selection that is over now has removed their keys.
    pub(crate) fn release(&mut self)
        ensures { Frees self.old self.new }
    {
        self.free = self.idle.len();
    }

    /// Closes the links of the connections that haven't ended.
    pub(crate) fn close_all<N, W: Way<N>>(&self, way: &mut W, net: &mut N)
        requires served { AreServed (W.link net.old) (W.place net.old) self.now }
        ensures quiet { IsQuiet W.Way net.old net.new }
        ensures closed { (j s : ℕ) → AreClosed j s (W.place net.new) }
        ensures listens { W.place net.new listener ≡ W.place net.old listener }
    {
        for number in 0..self.slots.len() {
            close_relayed(way, net, &self.slots[number], number);
        }
    }
}

// Closes the links of a slot's connection, if it relays one.
fn close_relayed<N, W: Way<N>>(way: &mut W, net: &mut N, slot: &Slot, number: usize)
    requires few { number < 16000 }
    requires counted { slot.now.uses ≡ length (statuses (Some slot.now)) }
    ensures quiet { IsQuiet W.Way net.old net.new }
    ensures listens { W.place net.new listener ≡ W.place net.old listener }
    ensures closed { IsSome slot.now.relay → AreClosed number (slot.now.uses - 1) (W.place net.new) }
{
    if slot.relay.is_some() {
        close_links(way, net, links_of(number, slot.uses - 1));
    }
}

//! The net of packets in memory.
ghost use Rattle.std.specs.Prelude.{◌≡◌, ◌≢◌, ◌↔◌, ◌⊎◌, ◌<◌, ◌≤◌, [], ◌∷◌, ◌++◌, true, false, Ok, Err, IfOk};
ghost use Rattle.std.specs.Prelude.{OnErr, OnOk, IsOk, IsTrue, Some, length, option_map, refl};
ghost use Rattle.std.specs.List.{slice_get};
ghost use Rattle.nio_base.specs.declared.numbers.ChanId.{ChanId};
ghost use Rattle.nio_base.specs.declared.numbers.ChanNo.{ChanNo};
ghost use Rattle.nio_bytes.specs.Calls.{FailsNext};
ghost use Rattle.nio_link.specs.MemoryNet.{answer_of, faulted_after, if_some, times};
ghost use Rattle.nio_link.specs.NetPlans.{numbers_of};
ghost use Rattle.nio_poller.specs.Polls.{CountsFaults, AddsPoll, told_of_channel};
ghost use Rattle.nio_poller.specs.declared.poller.PollError.TheVariants.{Fault, Memory};
ghost use Rattle.nio_select.specs.InProgress.{poll_of};
ghost use Rattle.nio_datagram.specs.Nets.{MayReceive, MaySend, Binds, Receives, Sends, Closes};
ghost use Rattle.nio_datagram.specs.Packets.{no_traffic, IsCame};
ghost use Rattle.nio_datagram.specs.Places.{IsFree};
ghost use Rattle.nio_datagram.specs.Sides.{receive_answer, receive_buffer, side_ready};
ghost use Rattle.nio_datagram.specs.MemoryPackets.{side_at, planned, traffic_at, place_at, ready_told, polls_told};
ghost use Rattle.nio_datagram.specs.MemoryPackets.{told_pairs, findings_after, findings_closed, is_bound_at, can_bind};
ghost use Rattle.nio_datagram.specs.MemoryPackets.{sides_after_bind, sides_after_receive, sides_after_send};
ghost use Rattle.nio_datagram.specs.MemoryPackets.{sides_after_close, after_bind, faulted_on, after_receive};
ghost use Rattle.nio_datagram.specs.MemoryPackets.{after_sent, after_planned_send, after_lost_send, after_close};
ghost use Rattle.nio_datagram.specs.MemoryPackets.{after_poll, after_lost_poll, KeepsPackets, shown};
ghost use Rattle.nio_datagram.specs.declared.memory.memory_packets.SendFailure.TheVariants as failure;
ghost use Rattle.nio_datagram.specs.declared.memory.side.BindFailure.TheVariants as refusal;
ghost use Rattle.nio_datagram.specs.declared.net.Place.TheVariants as place_is;

use crate::memory::finding::Finding;
use crate::memory::side::{BindFailure, Side};
use crate::net::{Came, LONGEST, PacketNet};
use crate::packet::SentPacket;
use nio_base::{Addr, ChanId, ChanNo, Ops};
use nio_bytes::Calls;
use nio_history::Mode;
use nio_link::Failed;
use nio_poller::{PollError, Poller};
use nio_select::{Asked, Told};
use nio_trace::{Reading, Trace};
use std::alloc::{AllocError, Global};
use std::marker::Model;
use std::sync::Wait;
use thiserror::Error;

/// Why a packet couldn't be sent in memory.
#[derive(Clone, Copy, Debug, PartialEq, Eq, Error)]
pub enum SendFailure {
    /// No socket is bound there, or this send was to fail.
    #[error("the send failed")]
    Planned,
    /// There is no memory to keep the packet.
    #[error("out of memory")]
    Memory,
}

/// A net of the numbers 0 and 1, whose packets are memory. A number serves again, under a later serial, once its socket
/// was closed: then those of its packets come that are left. A relay over it returns only where enough of the client's
/// packets are planned, or a call fails or memory lacks.
#[derive(Drop)]
pub struct MemoryPackets {
    alloc: Global,
    sides: Vec<Side>,
    sends: Calls,
    faulted: Trace<ChanId>,
    findings: Trace<Finding>,
}

impl Model for MemoryPackets {
    ghost use Rattle.nio_datagram.specs.MemoryPackets.{PacketsState};

    ghost Value = { PacketsState };

    ghost view = { λ n. record {
      sides = n.sides.items;
      sends = n.sends;
      faulted = n.faulted;
      findings = n.findings;
    } };
}

// Counts a failure of a call on this channel.
fn count<T>(faulted: &mut Trace<ChanId>, chan: ChanId, outcome: &Result<T, Failed>)
    ensures { faulted.new ≡ faulted_after outcome.now chan faulted.old }
{
    if outcome.is_err() {
        faulted.push(&chan);
    }
}

// Logs that a receive found no packet, where `is_early` says that it did.
fn log(findings: &mut Trace<Finding>, number: ChanNo, is_early: bool)
    ensures { findings.new ≡ findings_after is_early number 1 findings.old }
{
    if is_early {
        findings.push(&Finding::NotReady(number, Ops::READ));
    }
}

// Logs that what was told of a number is over, where a socket was bound there.
fn log_closed(findings: &mut Trace<Finding>, number: ChanNo, was_bound: bool)
    ensures { findings.new ≡ findings_closed was_bound number findings.old }
{
    if was_bound {
        findings.push(&Finding::Forgotten(number));
    }
}

fn numbers(alloc: Global, number: Option<u64>) -> Result<Vec<u64>, AllocError>
    ensures { IfOk result (λ list. list.items ≡ numbers_of number) }
{
    let mut list = Vec::new(alloc);
    if let Some(number) = number {
        list.push(number)?;
    }
    Ok(list)
}

fn is_bound_at(sides: &[Side], chan: ChanId) -> bool
    ensures bound { result ≡ is_bound_at sides.now chan }
    ensures inside { IsTrue result → chan.number.0 < length sides.now }
{
    let at = chan.number.0 as usize;
    at < sides.len() && sides[at].is_bound_as(chan.serial)
}

fn bind_at(alloc: Global, sides: &mut [Side], chan: ChanId, at: Addr) -> Result<(), BindFailure>
    ensures fails { result ≢ Err refusal.Memory
        → ((result ≡ Err refusal.NotFree) ↔ (can_bind sides.old chan ≡ false)) }
    ensures free { IsOk result → can_bind sides.old chan ≡ true }
    ensures ok { OnOk result (sides.new ≡ sides_after_bind sides.old chan at) }
    ensures err { OnErr result (sides.new ≡ sides.old) }
{
    let place = chan.number.0 as usize;
    if place >= sides.len() {
        return Err(BindFailure::NotFree);
    }
    sides[place].bind(alloc, chan.serial, at)
}

fn receive_at(sides: &mut [Side], chan: ChanId, into: &mut [u8]) -> Result<Came, Failed>
    requires { LONGEST ≤ length into.old }
    ensures answer { result ≡ receive_answer (side_at sides.old chan.number) chan.serial }
    ensures buffer { into.new ≡ receive_buffer (side_at sides.old chan.number) chan.serial into.old }
    ensures after { sides.new ≡ sides_after_receive sides.old chan }
    ensures short { IfOk result IsCame }
{
    let at = chan.number.0 as usize;
    if at >= sides.len() {
        return Err(Failed);
    }
    sides[at].receive(chan.serial, into)
}

fn send_at(sides: &mut [Side], chan: ChanId, packet: SentPacket) -> Result<(), AllocError>
    requires { chan.number.0 < length sides.old }
    ensures ok { OnOk result (sides.new ≡ sides_after_send sides.old chan packet) }
    ensures err { OnErr result (sides.new ≡ sides.old) }
{
    sides[chan.number.0 as usize].send(packet)
}

fn close_at(sides: &mut [Side], chan: ChanId)
    ensures { sides.new ≡ sides_after_close sides.old chan }
{
    let at = chan.number.0 as usize;
    if at < sides.len() {
        sides[at].close(chan.serial);
    }
}

// The packets that were sent on a channel.
fn went_at(sides: &[Side], chan: ChanId) -> &[SentPacket]
    ensures { result.now ≡ (traffic_at sides.now chan).went }
{
    let at = chan.number.0 as usize;
    if at >= sides.len() {
        return &[];
    }
    sides[at].went(chan.serial)
}

// What a number is ready for.
fn ready_of(sides: &[Side], number: ChanNo) -> Ops
    ensures { result ≡ side_ready (side_at sides.now number) }
{
    let at = number.0 as usize;
    if at >= sides.len() {
        return Ops::NONE;
    }
    sides[at].ready()
}

// Tells of a key, where there is something to tell.
fn tell_one(pairs: &mut Vec<(u32, Ops)>, index: u32, ops: Ops) -> Result<(), AllocError>
    ensures { IfOk result (λ _. pairs.new.items ≡ pairs.old.items ++ if_some (index, ops)) }
{
    if ops.bits() != 0 {
        pairs.push((index, ops))?;
    }
    Ok(())
}

// What a poll tells of these keys.
#[tactic(auto, using(nio_select::proofs::KeysTo::none_below))]
fn tell(alloc: Global, sides: &[Side], asked: &Asked) -> Result<Vec<(u32, Ops)>, AllocError>
    ensures { IfOk result (λ pairs. pairs.items ≡ told_pairs sides.now asked.now.keys) }
{
    let mut pairs = Vec::new(alloc);
    for index in 0..asked.bound() {
        if let Some(key) = asked.key(index) {
            let ops = ready_of(sides, key.channel).meet(key.interest);
            tell_one(&mut pairs, key.index, ops)?;
        }
    }
    Ok(pairs)
}

impl MemoryPackets {
    /// A net with the numbers 0 and 1. `client` are the packets that come to number 0, `target` those of number 1, each
    /// with its sender. A packet is cut at 65,507 bytes. The send with the number `fail_send` fails, counted from
    /// 0 over all channels.
    pub fn make(
        alloc: Global,
        client: Vec<(Addr, Vec<u8>)>,
        target: Vec<(Addr, Vec<u8>)>,
        fail_send: Option<u64>,
    ) -> Result<MemoryPackets, AllocError>
        ensures planned { IfOk result (λ net. net ≡ planned client.items target.items fail_send) }
        ensures fresh { IfOk result (λ net. (c : ChanId) → traffic_at net.sides c ≡ no_traffic) }
        ensures unbound { IfOk result (λ net. (c : ChanId) → place_at net.sides c ≡ place_is.Unbound) }
    {
        Self::of_plan(alloc, client, target, fail_send)
    }

    fn of_plan(
        alloc: Global,
        client: Vec<(Addr, Vec<u8>)>,
        target: Vec<(Addr, Vec<u8>)>,
        fail_send: Option<u64>,
    ) -> Result<MemoryPackets, AllocError>
        ensures { IfOk result (λ net. net ≡ planned client.items target.items fail_send) }
    {
        let mut sides = Vec::new(alloc);
        sides.push(Side::make(alloc, client))?;
        sides.push(Side::make(alloc, target))?;
        Ok(MemoryPackets {
            alloc,
            sides,
            sends: Calls::new(numbers(alloc, fail_send)?),
            faulted: Trace::new(),
            findings: Trace::new(),
        })
    }

    /// How many packets were sent on this channel.
    pub fn went_len(&self, chan: ChanId) -> usize
        ensures { result ≡ length (traffic_at self.now.sides chan).went }
    {
        went_at(&self.sides, chan).len()
    }

    /// To whom a packet was sent, by its place among those that were sent on this channel.
    pub fn went_to(&self, chan: ChanId, at: usize) -> Addr
        requires { at < length (traffic_at self.now.sides chan).went }
        ensures { option_map (λ p. p.addr) (slice_get (traffic_at self.now.sides chan).went at) ≡ Some result }
    {
        went_at(&self.sides, chan)[at].to()
    }

    /// The bytes of that packet.
    pub fn went_bytes(&self, chan: ChanId, at: usize) -> &[u8]
        requires { at < length (traffic_at self.now.sides chan).went }
        ensures { option_map (λ p. p.bytes) (slice_get (traffic_at self.now.sides chan).went at) ≡ Some result.now }
    {
        went_at(&self.sides, chan)[at].bytes()
    }

    /// Whether a socket is bound under this channel.
    pub fn is_bound(&self, chan: ChanId) -> bool
        ensures { result ≡ is_bound_at self.now.sides chan }
    {
        is_bound_at(&self.sides, chan)
    }

    /// Binds as `PacketNet::bind_packets` does, at any time.
    pub fn bind_socket(&mut self, chan: ChanId, at: Addr) -> Result<(), BindFailure>
        ensures fails { result ≢ Err refusal.Memory
            → ((result ≡ Err refusal.NotFree) ↔ (can_bind self.old.sides chan ≡ false)) }
        ensures free { IsOk result → can_bind self.old.sides chan ≡ true }
        ensures ok { OnOk result (self.new ≡ after_bind self.old chan at) }
        ensures err { OnErr result (self.new ≡ faulted_on chan self.old) }
    {
        match bind_at(self.alloc, &mut self.sides, chan, at) {
            Ok(()) => {
                self.findings.push(&Finding::Forgotten(chan.number));
                Ok(())
            }
            Err(failure) => {
                self.faulted.push(&chan);
                Err(failure)
            }
        }
    }

    /// Receives as `PacketNet::receive` does, at any time: it fails where nothing is bound there.
    pub fn receive_packet(&mut self, chan: ChanId, into: &mut [u8]) -> Result<Came, Failed>
        requires { LONGEST ≤ length into.old }
        ensures answer { result ≡ receive_answer (side_at self.old.sides chan.number) chan.serial }
        ensures buffer { into.new ≡ receive_buffer (side_at self.old.sides chan.number) chan.serial into.old }
        ensures after { self.new ≡ after_receive self.old chan }
        ensures short { IfOk result IsCame }
    {
        let result = receive_at(&mut self.sides, chan, into);
        count(&mut self.faulted, chan, &result);
        let is_early = matches!(&result, Ok(Came::NotYet));
        log(&mut self.findings, chan.number, is_early);
        result
    }

    /// Sends as `PacketNet::send` does, at any time: it fails where nothing is bound there, where the plan says so, and
    /// where there is no memory to keep the packet.
    pub fn send_packet(&mut self, chan: ChanId, bytes: &[u8], to: Addr) -> Result<(), SendFailure>
        ensures fails { result ≢ Err failure.Memory → ((result ≡ Err failure.Planned)
            ↔ (FailsNext self.old.sends ⊎ (is_bound_at self.old.sides chan ≡ false))) }
        ensures ok { OnOk result (self.new
            ≡ after_sent self.old chan (record { addr = to; bytes = bytes.now })) }
        ensures failed { result ≡ Err failure.Planned → self.new ≡ after_planned_send self.old chan }
        ensures lost { result ≡ Err failure.Memory → self.new ≡ after_lost_send self.old chan }
        ensures inside { IsOk result → chan.number.0 < length self.old.sides }
        ensures bound { IsOk result → is_bound_at self.old.sides chan ≡ true }
    {
        let able = is_bound_at(&self.sides, chan);
        if self.sends.next(able).is_err() {
            self.faulted.push(&chan);
            return Err(SendFailure::Planned);
        }
        let Ok(packet) = SentPacket::of(self.alloc, bytes, to) else {
            self.faulted.push(&chan);
            return Err(SendFailure::Memory);
        };
        let Ok(()) = send_at(&mut self.sides, chan, packet) else {
            self.faulted.push(&chan);
            return Err(SendFailure::Memory);
        };
        Ok(())
    }

    /// Closes the socket of a channel, if it has one.
    pub(crate) fn close_socket(&mut self, chan: ChanId)
        ensures { self.new ≡ after_close self.old chan }
    {
        let was_bound = is_bound_at(&self.sides, chan);
        log_closed(&mut self.findings, chan.number, was_bound);
        close_at(&mut self.sides, chan);
    }
}

impl Poller for MemoryPackets {
    ghost use Rattle.std.proofs.Common.{◌∙◌};

    ghost poll_faults = { λ _. 0 };

    ghost ready = { λ s. ready_told s.findings };

    ghost polls = { λ s. Some (polls_told s.findings) };

    ghost kept = { KeepsPackets };

    fn poll<R: Wait>(
        &mut self,
        _rt: &R,
        alloc: Global,
        asked: &Asked,
        mode: Mode,
    ) -> Result<Told, PollError>
        // As every poller.
        ensures cause { CountsFaults Fault 0 0 result }
        ensures ready { IfOk result (λ told. (c : ChanNo)
            → ready_told self.new.findings c ≡ told_of_channel asked.now.keys told.pairs.items c) }
        ensures unready { OnErr result ((c : ChanNo) → ready_told self.new.findings c ≡ 0) }
        ensures polls { AddsPoll (Some (polls_told self.old.findings)) (Some (polls_told self.new.findings))
            asked.now.keys mode result }
        ensures kept { KeepsPackets self.old self.new }

        // By its packets.
        ensures never { result ≢ Err Fault }
        ensures answer { IfOk result (λ told. poll_of told ≡ answer_of (told_pairs self.old.sides asked.now.keys)) }
        ensures ok { IfOk result (λ told. self.new
            ≡ after_poll self.old (record { asked = asked.now.keys; mode = mode; answer = poll_of told })) }
        ensures lost { OnErr result (self.new ≡ after_lost_poll self.old) }
    {
        let Ok(pairs) = tell(alloc, &self.sides, asked) else {
            self.findings.push(&Finding::Untold);
            return Err(PollError::Memory);
        };
        let told = Told {
            elapsed: pairs.is_empty(),
            pairs,
        };
        self.findings
            .extend_from::<PollAnswer, OnePoll>(&PollAnswer {
                asked,
                mode,
                told: &told,
            });
        Ok(told)
    }

    ghost kept_same = { λ s. record { sides = refl; faulted = refl } };

    ghost kept_on = { λ x y z first second. record {
      sides = second.sides ∙ first.sides;
      faulted = second.faulted ∙ first.faulted;
    } };
}

#[derive(Clone, Copy)]
struct PollAnswer<'a> {
    asked: &'a Asked,
    mode: Mode,
    told: &'a Told,
}

/// Reads a poll off its answer.
struct OnePoll;

impl<'a> Reading<PollAnswer<'a>, Finding> for OnePoll {
    ghost use Rattle.std.specs.Prelude.{[], ◌∷◌};
    ghost use Rattle.nio_select.specs.InProgress.{poll_of};
    ghost use Rattle.nio_datagram.specs.declared.memory.finding.Finding.TheVariants.{Told as WasTold};

    ghost items = { λ answer. WasTold (record {
      asked = answer.asked.now.keys;
      mode = answer.mode;
      answer = poll_of answer.told.now;
    }) ∷ [] };
}

// Each call has the clause of its net's call, and says what it answers and leaves by its plan.
impl PacketNet for MemoryPackets {
    ghost use Rattle.std.proofs.Common.{ap};

    ghost traffic = { λ s. traffic_at s.sides };

    ghost packet_faults = { λ s. times s.faulted };

    ghost place = { λ s. place_at s.sides };

    fn bind_packets(&mut self, chan: ChanId, at: Addr) -> Result<(), Failed>
        requires { IsFree (place_at self.old.sides) chan }
        ensures call { Binds chan at (shown self.old) (shown self.new) result }
        ensures ok { OnOk result (self.new ≡ after_bind self.old chan at) }
        ensures err { OnErr result (self.new ≡ faulted_on chan self.old) }
    {
        match self.bind_socket(chan, at) {
            Ok(()) => Ok(()),
            Err(_failure) => Err(Failed),
        }
    }

    fn receive(&mut self, chan: ChanId, into: &mut [u8]) -> Result<Came, Failed>
        requires room { LONGEST ≤ length into.old }
        requires may { MayReceive chan (shown self.old) }
        ensures call { Receives chan (shown self.old) (shown self.new) into.new result }
        ensures answer { result ≡ receive_answer (side_at self.old.sides chan.number) chan.serial }
        ensures buffer { into.new ≡ receive_buffer (side_at self.old.sides chan.number) chan.serial into.old }
        ensures after { self.new ≡ after_receive self.old chan }
    {
        self.receive_packet(chan, into)
    }

    fn send(&mut self, chan: ChanId, bytes: &[u8], to: Addr) -> Result<bool, Failed>
        requires fits { length bytes.now ≤ LONGEST }
        requires may { MaySend chan (shown self.old) }
        ensures call { Sends chan to (shown self.old) (shown self.new) bytes.now result }

        // By its plan: there is always room.
        ensures never_early { result ≢ Ok false }
        ensures ok { result ≡ Ok true
            → self.new ≡ after_sent self.old chan (record { addr = to; bytes = bytes.now }) }
        ensures err { OnErr result
            ((self.new ≡ after_planned_send self.old chan) ⊎ (self.new ≡ after_lost_send self.old chan)) }
    {
        match self.send_packet(chan, bytes, to) {
            Ok(()) => Ok(true),
            Err(_failure) => Err(Failed),
        }
    }

    fn connect_packets(&mut self, _chan: ChanId, _to: Addr)
        ensures { self.new ≡ self.old }
    {}

    fn close_packets(&mut self, chan: ChanId)
        ensures call { Closes chan (shown self.old) (shown self.new) }
        ensures after { self.new ≡ after_close self.old chan }
    {
        self.close_socket(chan);
    }

    ghost kept_traffic = { λ x y kept c. ap (λ sides. traffic_at sides c) kept.sides };

    ghost kept_faults = { λ x y kept c. ap (λ faulted. times faulted c) kept.faulted };

    ghost kept_places = { λ x y kept c. ap (λ sides. place_at sides c) kept.sides };
}

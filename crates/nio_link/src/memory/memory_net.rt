//! The net in memory.
ghost use Rattle.std.specs.Prelude.{◌≡◌, ◌≢◌, ◌⊎◌, ◌↔◌, [], ◌∷◌, ◌++◌, false, Some, Ok, Err, IfOk, IsErr};
ghost use Rattle.std.specs.Prelude.{true, OnErr, IsSome, IsTrue, ◌<◌, ◌≤◌, length, refl};
ghost use Rattle.nio_bytes.specs.Calls.{FailsNext};
ghost use Rattle.nio_poller.specs.Polls.{CountsFaults, AddsPoll, told_of_channel};
ghost use Rattle.nio_poller.specs.declared.poller.PollError.TheVariants.{Fault, Memory};
ghost use Rattle.nio_select.specs.InProgress.{poll_of};
ghost use Rattle.nio_link.specs.Accepts.{accepted_by};
ghost use Rattle.nio_link.specs.Links.{IsPut};
ghost use Rattle.nio_link.specs.Nets.{MayAccept, MayFinish, MayRead, MayWrite, Listens, Accepts, Connects, Finishes};
ghost use Rattle.nio_link.specs.Nets.{Reads, Writes, Shuts, Closes};
ghost use Rattle.nio_link.specs.Places.{places_after, stands, IsFree, IsVacantNumber};
ghost use Rattle.nio_link.specs.Slots.{carried_at, link_at, read_answer, read_buffer, write_answer, shut_answer};
ghost use Rattle.nio_link.specs.Slots.{comes_after, finish_answer, slot_at, ArePast};
ghost use Rattle.nio_link.specs.declared.place.Standing.TheVariants as standing;
ghost use Rattle.nio_link.specs.MemoryNet.{NetState, shown, connected, after_read, after_write, after_shut, times};
ghost use Rattle.nio_link.specs.MemoryNet.{ready_told, polls_told, faulted_after, findings_after, findings_closed};
ghost use Rattle.nio_link.specs.MemoryNet.{is_waiting, told_pairs, if_some, answer_of, after_poll, after_lost_poll};
ghost use Rattle.nio_link.specs.MemoryNet.{after_failed_poll, KeepsLinks, can_accept, after_accept, is_free};
ghost use Rattle.nio_link.specs.MemoryNet.{has_number};
ghost use Rattle.nio_link.specs.MemoryNet.{after_failed_accept, connect_answer, after_connect, listen_answer};
ghost use Rattle.nio_link.specs.MemoryNet.{after_listen, after_finish, finish_any, after_finish_any, after_close};
ghost use Rattle.nio_link.specs.MemoryNet.{refused, AreFresh};

use crate::memory::finding::Finding;
use crate::memory::link::MemoryLink;
use crate::memory::slot::{
    PastLink, Slot, can_bear, finish_at, link_of, put_at, read_at, ready_of, shut_at, write_at,
};
use crate::net::{Failed, Got, Net, Put};
use crate::place::Change;
use crate::place_log::PlaceLog;
use nio_base::{Addr, ChanId, ChanNo, Ops};
use nio_bytes::Calls;
use nio_history::Mode;
use nio_poller::{PollError, Poller};
use nio_select::{Asked, Told};
use nio_trace::{Reading, Trace};
use std::alloc::{AllocError, Global};
use std::collections::VecDeque;
use std::marker::Model;
use std::sync::Wait;

/// A net whose links and listeners are memory.
#[derive(Drop)]
pub struct MemoryNet {
    pub(crate) slots: Vec<Slot>,
    pub(crate) past: VecDeque<PastLink>,
    pub(crate) clients: VecDeque<MemoryLink>,
    pub(crate) targets: VecDeque<MemoryLink>,
    pub(crate) polls: Calls,
    pub(crate) accepts: Calls,
    pub(crate) faulted: Trace<ChanId>,
    pub(crate) log: PlaceLog,
    pub(crate) findings: Trace<Finding>,
}

impl Model for MemoryNet {
    ghost use Rattle.std.specs.Prelude.{length};
    ghost use Rattle.std.specs.VecDeque.{deque_capacity};
    ghost use Rattle.nio_link.specs.MemoryNet.{NetState, AreInHand};
    ghost use Rattle.nio_link.specs.Places.{places_after};

    ghost Value = { NetState };

    ghost view = { λ n. record {
      slots = n.slots.items;
      past = n.past.items;
      clients = n.clients.items;
      targets = n.targets.items;
      polls = n.polls;
      accepts = n.accepts;
      faulted = n.faulted;
      changes = n.log.changes;
      occupants = n.log.occupants;
      findings = n.findings;
    } };

    ghost invariant = { λ n. AreInHand n.slots.items n.past.items n.clients.items n.targets.items
        (places_after n.log.changes) (length n.log.occupants) (deque_capacity n.past) };
}

// Counts a failure of a call on this channel.
fn count<T>(faulted: &mut Trace<ChanId>, chan: ChanId, outcome: &Result<T, Failed>)
    ensures { faulted.new ≡ faulted_after outcome.now chan faulted.old }
{
    if outcome.is_err() {
        faulted.push(&chan);
    }
}

// Logs that a call found a channel not ready for an operation, where `is_early` says that it did.
fn log(findings: &mut Trace<Finding>, number: ChanNo, op: Ops, is_early: bool)
    ensures { findings.new ≡ findings_after is_early number op findings.old }
{
    if is_early {
        findings.push(&Finding::NotReady(number, op));
    }
}

// Logs that what stood under a number was closed, where anything did.
fn log_closed(findings: &mut Trace<Finding>, number: ChanNo, stood: bool)
    ensures { findings.new ≡ findings_closed stood number findings.old }
{
    if stood {
        findings.push(&Finding::Forgotten(number));
    }
}

fn is_next(queue: &VecDeque<MemoryLink>) -> bool
    ensures { result ≡ is_waiting queue.now.items }
{
    queue.front().is_some()
}

// Tells of a key, where there is something to tell.
fn tell_one(pairs: &mut Vec<(u32, Ops)>, index: u32, ops: Ops) -> Result<(), AllocError>
    ensures { IfOk result (λ _. pairs.new.items ≡ pairs.old.items ++ if_some (index, ops)) }
{
    if ops.bits() != 0 {
        pairs.push((index, ops))?;
    }
    Ok(())
}

// What a poll tells of these keys.
#[tactic(auto, using(nio_select::proofs::KeysTo::none_below))]
fn tell(
    alloc: Global,
    slots: &[Slot],
    log: &PlaceLog,
    waiting: bool,
    asked: &Asked,
) -> Result<Vec<(u32, Ops)>, AllocError>
    ensures { IfOk result (λ pairs. pairs.items ≡ told_pairs slots.now log.now.occupants waiting asked.now.keys) }
{
    let mut pairs = Vec::new(alloc);
    for index in 0..asked.bound() {
        if let Some(key) = asked.key(index) {
            let occupant = log.occupant(key.channel);
            let ops = ready_of(slots, key.channel, occupant, waiting).meet(key.interest);
            tell_one(&mut pairs, key.index, ops)?;
        }
    }
    Ok(pairs)
}

impl MemoryNet {
    /// The bytes that reads of this link gave.
    pub fn got_bytes(&self, chan: ChanId) -> &[u8]
        ensures { (carried_at self.now.slots self.now.past chan).got ≡ Some result.now }
    {
        match link_of(&self.slots, &self.past, chan) {
            Some(link) => &link.got,
            None => &[],
        }
    }

    /// The bytes that writes on this link took.
    pub fn put_bytes(&self, chan: ChanId) -> &[u8]
        ensures { (carried_at self.now.slots self.now.past chan).put ≡ Some result.now }
    {
        match link_of(&self.slots, &self.past, chan) {
            Some(link) => &link.put,
            None => &[],
        }
    }

    /// Whether a read of this link told the end.
    pub fn has_ended(&self, chan: ChanId) -> bool
        ensures { (carried_at self.now.slots self.now.past chan).ended ≡ Some result }
    {
        match link_of(&self.slots, &self.past, chan) {
            Some(link) => link.ended,
            None => false,
        }
    }

    /// Whether the side of this link on which bytes are written was shut.
    pub fn is_shut(&self, chan: ChanId) -> bool
        ensures { (carried_at self.now.slots self.now.past chan).shut ≡ Some result }
    {
        match link_of(&self.slots, &self.past, chan) {
            Some(link) => link.shut,
            None => false,
        }
    }

    /// Reads as `Net::read` does, at any time: it fails where no connected link stands there.
    #[tactic(auto, using(crate::proofs::Hand::hand_read))]
    pub fn read_link(&mut self, chan: ChanId, into: &mut [u8]) -> Result<Got, Failed>
        requires { into.old ≢ [] }
        ensures answer { result ≡ read_answer (connected self.old chan) (length into.old) }
        ensures buffer { into.new ≡ read_buffer (connected self.old chan) into.old }
        ensures after { self.new ≡ after_read self.old chan into.old }
        ensures there { IsTrue (stands (places_after self.old.changes chan)) → IsSome (connected self.old chan) }
    {
        let is_linked = self.log.stands(chan);
        let result = read_at(&mut self.slots, chan, is_linked, into);
        count(&mut self.faulted, chan, &result);
        let is_early = matches!(&result, Ok(Got::NotYet));
        log(&mut self.findings, chan.number, Ops::READ, is_early);
        result
    }

    /// Writes as `Net::write` does, at any time: it fails where no connected link stands there, and where the plan says
    /// so.
    #[tactic(auto, using(crate::proofs::Hand::hand_written))]
    pub fn write_link(&mut self, chan: ChanId, from: &[u8]) -> Result<Put, Failed>
        requires { from.now ≢ [] }
        ensures answer { result ≡ write_answer (connected self.old chan) (length from.now) }
        ensures after { self.new ≡ after_write self.old chan from.now }
        ensures put { IfOk result (IsPut from.now) }
        ensures there { IsTrue (stands (places_after self.old.changes chan)) → IsSome (connected self.old chan) }
    {
        let is_linked = self.log.stands(chan);
        let result = write_at(&mut self.slots, chan, is_linked, from);
        count(&mut self.faulted, chan, &result);
        result
    }

    /// Shuts as `Net::shut_write` does, at any time: it fails where no connected link stands there.
    #[tactic(auto, using(crate::proofs::Hand::hand_shut))]
    pub fn shut_link(&mut self, chan: ChanId) -> Result<(), Failed>
        ensures answer { result ≡ shut_answer (connected self.old chan) }
        ensures after { self.new ≡ after_shut self.old chan }
        ensures there { IsTrue (stands (places_after self.old.changes chan)) → IsSome (connected self.old chan) }
    {
        let is_linked = self.log.stands(chan);
        match shut_at(&mut self.slots, chan, is_linked) {
            Ok(()) => {
                self.log.push(chan, Change::ShutWrite);
                Ok(())
            }
            Err(Failed) => Err(self.fail(chan)),
        }
    }

    /// Goes on connecting as `Net::finish_connect` does, at any time: it fails where no link is being connected
    /// there, and where the plan says so; the plan's failure closes the link.
    pub fn finish_link(&mut self, chan: ChanId) -> Result<bool, Failed>
        ensures answer { result ≡ finish_any self.old chan }
        ensures after { self.new ≡ after_finish_any self.old chan }
    {
        if self.log.is_connecting(chan) {
            self.finish_there(chan)
        } else {
            Err(self.fail(chan))
        }
    }

    #[tactic(auto, using(crate::proofs::Hand::hand_logged))]
    fn finish_there(&mut self, chan: ChanId) -> Result<bool, Failed>
        requires { (places_after self.old.changes chan).standing ≡ standing.Connecting }
        ensures answer { result ≡ finish_answer (link_at self.old.slots chan) }
        ensures after { self.new ≡ after_finish result self.old chan }
        ensures there { IsSome (link_at self.old.slots chan) }
    {
        match finish_at(&self.slots, chan) {
            Ok(made) => {
                self.log.push(chan, Change::FinishConnect);
                Ok(made)
            }
            Err(Failed) => {
                self.log.push(chan, Change::Close);
                log_closed(&mut self.findings, chan.number, true);
                Err(self.fail(chan))
            }
        }
    }

    // Counts a failure of a call on this channel.
    fn fail(&mut self, chan: ChanId) -> Failed
        ensures { self.new ≡ record self.old { faulted = self.old.faulted ++ chan ∷ [] } }
    {
        self.faulted.push(&chan);
        Failed
    }

    // Whether the net has the number, nothing stands there, and its links came before this channel.
    fn is_free(&self, chan: ChanId) -> bool
        ensures free { result ≡ is_free self.now chan }
        ensures vacant { IsTrue result → IsVacantNumber (places_after self.now.changes) chan.number }
        ensures later { IsTrue result → comes_after (slot_at self.now.slots chan.number) chan.serial ≡ true }
        ensures inside { IsTrue result → chan.number.0 < length self.now.slots }
        ensures room { length self.now.slots ≤ length self.now.occupants }
        ensures serves { IsFree (places_after self.now.changes) chan → is_free self.now chan ≡ has_number self.now chan }
    {
        self.log.is_vacant(chan.number) && can_bear(&self.slots, chan)
    }

    /// Listens as `Net::listen` does, at any time: it fails where the channel's number isn't free.
    #[tactic(auto, using(crate::proofs::Hand::hand_logged))]
    pub fn listen_on(&mut self, chan: ChanId, at: Addr) -> Result<(), Failed>
        ensures answer { result ≡ listen_answer self.old chan }
        ensures after { self.new ≡ after_listen self.old chan at }
        ensures serves { IsFree (places_after self.old.changes) chan → is_free self.old chan ≡ has_number self.old chan }
    {
        if !self.is_free(chan) {
            return Err(self.fail(chan));
        }
        self.log.push(chan, Change::Listen(at));
        self.findings.push(&Finding::Forgotten(chan.number));
        Ok(())
    }

    /// Begins to connect as `Net::connect` does, at any time: it fails where the channel's number isn't free, and where
    /// the plan has no further peer. What stands under the channel stays, as in Java.
    #[tactic(auto, using(crate::proofs::Hand::hand_connected, crate::proofs::Hand::room_for_target))]
    pub fn connect_link(&mut self, chan: ChanId, to: Addr) -> Result<bool, Failed>
        ensures answer { result ≡ connect_answer self.old chan }
        ensures after { self.new ≡ after_connect self.old chan to }
        ensures serves { IsFree (places_after self.old.changes) chan → is_free self.old chan ≡ has_number self.old chan }
        ensures fresh { AreFresh self.old.targets }
        ensures spent { ArePast self.old.slots self.old.past }
    {
        if !self.is_free(chan) {
            return Err(self.refuse(chan, to));
        }
        let Some(link) = self.targets.pop_front() else {
            return Err(self.refuse(chan, to));
        };
        put_at(&mut self.slots, &mut self.past, chan, link);
        self.log.push(chan, Change::Connect(to, Ok(false)));
        self.findings.push(&Finding::Forgotten(chan.number));
        Ok(false)
    }

    // A link that couldn't be connected is gone. What stands under its channel already stays.
    #[tactic(auto, using(crate::proofs::Hand::hand_logged, crate::proofs::Making::not_there))]
    fn refuse(&mut self, chan: ChanId, to: Addr) -> Failed
        ensures { self.new ≡ refused self.old chan to }
    {
        if self.log.is_there(chan) {
            return self.fail(chan);
        }
        self.log.push(chan, Change::Connect(to, Err(Failed)));
        self.fail(chan)
    }

    /// Accepts as `Net::accept` does, at any time: it fails where no listener stands there, where the channel's number
    /// isn't free, and where the plan says so.
    #[tactic(auto, using(crate::proofs::Hand::hand_accepted, crate::proofs::Hand::room_for_client))]
    pub fn accept_link(&mut self, listener: ChanId, chan: ChanId) -> Result<bool, Failed>
        ensures fails { IsErr result ↔ (FailsNext self.old.accepts ⊎ (can_accept self.old listener chan ≡ false)) }
        ensures answer { IfOk result (λ made. made ≡ is_waiting self.old.clients) }
        ensures free { IfOk result (λ _. can_accept self.old listener chan ≡ true) }
        ensures ok { IfOk result (λ _. self.new ≡ after_accept self.old listener chan) }
        ensures err { OnErr result (self.new ≡ after_failed_accept self.old listener) }
        ensures serves { IsFree (places_after self.old.changes) chan → is_free self.old chan ≡ has_number self.old chan }
        ensures fresh { AreFresh self.old.clients }
        ensures spent { ArePast self.old.slots self.old.past }
    {
        let listens = self.log.is_listening(listener);
        let free = self.is_free(chan);
        if self.accepts.next(listens && free).is_err() {
            return Err(self.fail(listener));
        }
        let Some(link) = self.clients.pop_front() else {
            log(&mut self.findings, listener.number, Ops::ACCEPT, true);
            return Ok(false);
        };
        put_at(&mut self.slots, &mut self.past, chan, link);
        self.log.push(chan, Change::Accept(listener));
        self.findings.push(&Finding::Forgotten(chan.number));
        Ok(true)
    }

    #[tactic(auto, using(crate::proofs::Hand::hand_logged))]
    pub(crate) fn close_channel(&mut self, chan: ChanId)
        ensures { self.new ≡ after_close self.old chan }
    {
        let stood = self.log.is_there(chan);
        log_closed(&mut self.findings, chan.number, stood);
        self.log.push(chan, Change::Close);
    }
}

impl Poller for MemoryNet {
    ghost use Rattle.std.proofs.Common.{◌∙◌};
    ghost use Rattle.nio_base.specs.declared.numbers.ChanNo.{ChanNo};

    ghost poll_faults = { λ s. s.polls.faults };

    ghost ready = { λ s. ready_told s.findings };

    ghost polls = { λ s. Some (polls_told s.findings) };

    ghost kept = { KeepsLinks };

    fn poll<R: Wait>(
        &mut self,
        _rt: &R,
        alloc: Global,
        asked: &Asked,
        mode: Mode,
    ) -> Result<Told, PollError>
        // As every poller.
        ensures cause { CountsFaults Fault self.old.polls.faults self.new.polls.faults result }
        ensures ready { IfOk result (λ told. (c : ChanNo)
            → ready_told self.new.findings c ≡ told_of_channel asked.now.keys told.pairs.items c) }
        ensures unready { OnErr result ((c : ChanNo) → ready_told self.new.findings c ≡ 0) }
        ensures polls { AddsPoll (Some (polls_told self.old.findings)) (Some (polls_told self.new.findings))
            asked.now.keys mode result }
        ensures kept { KeepsLinks self.old self.new }

        // By its plan.
        ensures fails { (result ≡ Err Fault) ↔ FailsNext self.old.polls }
        ensures answer { IfOk result (λ told. poll_of told ≡ answer_of
            (told_pairs self.old.slots self.old.occupants (is_waiting self.old.clients) asked.now.keys)) }
        ensures ok { IfOk result (λ told. self.new
            ≡ after_poll self.old (record { asked = asked.now.keys; mode = mode; answer = poll_of told })) }
        ensures lost { result ≡ Err Memory → self.new ≡ after_lost_poll self.old }
        ensures failed { result ≡ Err Fault → self.new ≡ after_failed_poll self.old }
    {
        if self.polls.next(true).is_err() {
            self.findings.push(&Finding::Untold);
            return Err(PollError::Fault);
        }
        let Ok(pairs) = tell(alloc, &self.slots, &self.log, is_next(&self.clients), asked) else {
            self.findings.push(&Finding::Untold);
            return Err(PollError::Memory);
        };
        let told = Told {
            elapsed: pairs.is_empty(),
            pairs,
        };
        self.findings
            .extend_from::<PollAnswer, OnePoll>(&PollAnswer {
                asked,
                mode,
                told: &told,
            });
        Ok(told)
    }

    ghost kept_same = { λ s. record { slots = refl; past = refl; faulted = refl; changes = refl; occupants = refl } };

    ghost kept_on = { λ x y z first second. record {
      slots = second.slots ∙ first.slots;
      past = second.past ∙ first.past;
      faulted = second.faulted ∙ first.faulted;
      changes = second.changes ∙ first.changes;
      occupants = second.occupants ∙ first.occupants;
    } };
}

#[derive(Clone, Copy)]
struct PollAnswer<'a> {
    asked: &'a Asked,
    mode: Mode,
    told: &'a Told,
}

/// Reads a poll off its answer.
struct OnePoll;

impl<'a> Reading<PollAnswer<'a>, Finding> for OnePoll {
    ghost use Rattle.std.specs.Prelude.{[], ◌∷◌};
    ghost use Rattle.nio_select.specs.InProgress.{poll_of};
    ghost use Rattle.nio_link.specs.declared.memory.finding.Finding.TheVariants.{Told as WasTold};

    ghost items = { λ answer. WasTold (record {
      asked = answer.asked.now.keys;
      mode = answer.mode;
      answer = poll_of answer.told.now;
    }) ∷ [] };
}

// Each call has the clause of its net's call, and says what it answers and leaves by its plan. A free channel whose number
// the net has is served, and a link that stands there is found.
impl Net for MemoryNet {
    ghost use Rattle.std.proofs.Common.{◌∙◌, ap};
    ghost use Rattle.nio_base.specs.declared.numbers.ChanId.{ChanId};

    ghost link = { λ s. carried_at s.slots s.past };

    ghost faults = { λ s. times s.faulted };

    ghost place = { λ s. places_after s.changes };

    ghost accepted = { λ s. accepted_by s.changes };

    fn listen(&mut self, chan: ChanId, at: Addr) -> Result<(), Failed>
        requires { IsFree (places_after self.old.changes) chan }
        ensures call { Listens chan at (shown self.old) (shown self.new) result }
        ensures answer { result ≡ listen_answer self.old chan }
        ensures after { self.new ≡ after_listen self.old chan at }
        ensures serves { is_free self.old chan ≡ has_number self.old chan }
    {
        self.listen_on(chan, at)
    }

    fn accept(&mut self, listener: ChanId, chan: ChanId) -> Result<bool, Failed>
        requires { MayAccept listener chan (shown self.old) }
        ensures call { Accepts listener chan (shown self.old) (shown self.new) result }
        ensures fails { IsErr result ↔ (FailsNext self.old.accepts ⊎ (can_accept self.old listener chan ≡ false)) }
        ensures answer { IfOk result (λ made. made ≡ is_waiting self.old.clients) }
        ensures ok { IfOk result (λ _. self.new ≡ after_accept self.old listener chan) }
        ensures err { OnErr result (self.new ≡ after_failed_accept self.old listener) }
        ensures serves { is_free self.old chan ≡ has_number self.old chan }
    {
        self.accept_link(listener, chan)
    }

    fn connect(&mut self, chan: ChanId, to: Addr) -> Result<bool, Failed>
        requires { IsFree (places_after self.old.changes) chan }
        ensures call { Connects chan to (shown self.old) (shown self.new) result }
        ensures answer { result ≡ connect_answer self.old chan }
        ensures after { self.new ≡ after_connect self.old chan to }
        ensures serves { is_free self.old chan ≡ has_number self.old chan }
    {
        self.connect_link(chan, to)
    }

    fn finish_connect(&mut self, chan: ChanId) -> Result<bool, Failed>
        requires { MayFinish chan (shown self.old) }
        ensures call { Finishes chan (shown self.old) (shown self.new) result }
        ensures answer { result ≡ finish_answer (link_at self.old.slots chan) }
        ensures after { self.new ≡ after_finish result self.old chan }
        ensures there { IsSome (link_at self.old.slots chan) }
    {
        self.finish_there(chan)
    }

    fn read(&mut self, chan: ChanId, into: &mut [u8]) -> Result<Got, Failed>
        requires some { into.old ≢ [] }
        requires may { MayRead chan (shown self.old) }
        ensures call { Reads chan (shown self.old) (shown self.new) into.old into.new result }
        ensures answer { result ≡ read_answer (connected self.old chan) (length into.old) }
        ensures buffer { into.new ≡ read_buffer (connected self.old chan) into.old }
        ensures after { self.new ≡ after_read self.old chan into.old }
        ensures there { IsSome (connected self.old chan) }
    {
        self.read_link(chan, into)
    }

    fn write(&mut self, chan: ChanId, from: &[u8]) -> Result<Put, Failed>
        requires some { from.now ≢ [] }
        requires may { MayWrite chan (shown self.old) }
        ensures call { Writes chan (shown self.old) (shown self.new) from.now result }
        ensures answer { result ≡ write_answer (connected self.old chan) (length from.now) }
        ensures after { self.new ≡ after_write self.old chan from.now }
        ensures there { IsSome (connected self.old chan) }
    {
        self.write_link(chan, from)
    }

    fn shut_write(&mut self, chan: ChanId) -> Result<(), Failed>
        requires { (places_after self.old.changes chan).standing ≡ standing.Linked }
        ensures call { Shuts chan (shown self.old) (shown self.new) result }
        ensures answer { result ≡ shut_answer (connected self.old chan) }
        ensures after { self.new ≡ after_shut self.old chan }
        ensures there { IsSome (connected self.old chan) }
    {
        self.shut_link(chan)
    }

    fn close(&mut self, chan: ChanId)
        ensures call { Closes chan (shown self.old) (shown self.new) }
        ensures after { self.new ≡ after_close self.old chan }
    {
        self.close_channel(chan);
    }

    ghost kept_links = { λ x y kept c.
        ap (λ slots. carried_at slots y.past c) kept.slots ∙ ap (λ past. carried_at x.slots past c) kept.past };

    ghost kept_faults = { λ x y kept c. ap (λ faulted. times faulted c) kept.faulted };

    ghost kept_places = { λ x y kept c. ap (λ changes. places_after changes c) kept.changes };

    ghost kept_accepted = { λ x y kept. ap accepted_by kept.changes };
}

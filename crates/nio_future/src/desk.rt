//! A group whose operations have tickets.
ghost use Rattle.std.specs.Prelude.{◌≡◌, ◌<◌, ◌≤◌, ◌↔◌, ℕ, IfOk, IfSome, IsNone, IsTrue, OnErr, length};
ghost use Rattle.futures.specs.Task.{Covers, Keeps};
ghost use Rattle.nio_group.specs.Flight.{IsPendingAs, op_at};
ghost use Rattle.nio_group.specs.Stages.{is_pending};
ghost use Rattle.nio_future.specs.Desk.{empty_desk, held_at, is_out, own_source, result_at, tickets_out};
ghost use Rattle.nio_group.specs.Group.{is_made, is_present, is_terminated, IsMade, StaysMade};
ghost use Rattle.nio_group.specs.Group.{is_open as channel_is_open};
ghost use Rattle.nio_group.specs.Limits.{IsFit};
ghost use Rattle.nio_future.specs.Kept.{IsDesk, IsSettling};
ghost use Rattle.nio_group.specs.Run as group;
ghost use Rattle.nio_group.specs.Steps.{IsJobOf, answer_to_bind, answer_to_open, answer_to_report};
ghost use Rattle.nio_future.specs.Steps.{after_cancel, after_poll, after_start, answer_to_poll, answer_to_start};
ghost use Rattle.nio_future.specs.Steps.{by_group, closed_for, settled, start_refusal, with_result, IsNotYet};
ghost use Rattle.nio_future.specs.Tickets.{GivesTicket, IsTicketOf, KeepsTickets, ReturnsTicket, TakesTicket};

use crate::ticket::{OpTicket, Polled};
use crate::waiting::Waiting;
use futures::task::{Context, Source};
use nio_base::{Finished, GChan, GKind, OpKind, OpNo, Outcome};
use nio_group::{
    GroupCore, GroupLimits, Job, Operation, Operations, ReportError, Stage, StartError,
};
use std::alloc::{AllocError, Global};
use std::marker::Model;

/// An asynchronous channel group whose operations have tickets. Only `make` takes memory.
#[derive(Drop)]
pub struct Desk {
    core: GroupCore,
    out: Operations,
    source: Source,
    waiting: Waiting,
}

impl Model for Desk {
    ghost use Rattle.nio_future.specs.Desk.{DeskState};
    ghost use Rattle.nio_future.specs.Kept.{IsDesk};

    ghost Value = { DeskState };

    ghost view = { λ d. record { group = d.core; out = d.out; source = d.source.id; places = d.waiting } };

    ghost invariant = { λ d. IsDesk (record { group = d.core; out = d.out; source = d.source.id; places = d.waiting }) };
}

impl Desk {
    /// A desk of an empty group with room for all that these limits allow.
    pub fn make(alloc: Global, limits: GroupLimits) -> Result<Desk, AllocError>
        requires { IsFit limits }
        ensures { IfOk result (λ desk. desk ≡ empty_desk limits desk.source desk.places) }
    {
        let core = GroupCore::make(alloc, limits)?;
        let out = Operations::make(alloc, limits.flight)?;
        let waiting = Waiting::make(alloc, limits.channels)?;
        Ok(Desk {
            core,
            out,
            source: Source::new(),
            waiting,
        })
    }

    /// Each pending operation's ticket is out, and what the desk holds for tickets fits its group. Call it where a proof
    /// needs that.
    pub fn law(&self)
        ensures { IsDesk self.now }
    {
        let _ = &self.waiting;
    }

    /// Opens a channel with the next number, or one that comes back.
    pub fn open_channel(&mut self, kind: GKind) -> Result<GChan, StartError>
        ensures answer { result ≡ answer_to_open self.old.group kind }
        ensures after { self.new ≡ by_group self.old (group.open_channel kind) }
        ensures opened { IfOk result (IsMade self.new.group) }
        ensures made { StaysMade self.old.group self.new.group }
        ensures tickets { KeepsTickets self.old self.new }
        ensures refused { OnErr result (self.new ≡ self.old) }
    {
        let answer = self.core.open_channel(kind);
        settle(
            &mut self.core,
            &mut self.out,
            &self.source,
            &mut self.waiting,
        );
        answer
    }

    /// Binds a listener.
    pub fn bind(&mut self, chan: GChan) -> Result<(), StartError>
        requires { IsMade self.old.group chan }
        ensures answer { result ≡ answer_to_bind self.old.group chan }
        ensures after { self.new ≡ by_group self.old (group.bind chan) }
        ensures made { StaysMade self.old.group self.new.group }
        ensures tickets { KeepsTickets self.old self.new }
        ensures refused { OnErr result (self.new ≡ self.old) }
    {
        let answer = self.core.bind(chan);
        settle(
            &mut self.core,
            &mut self.out,
            &self.source,
            &mut self.waiting,
        );
        answer
    }

    /// Starts an operation, and gives its ticket. A read or a write may read or write up to `len` bytes. Where as many
    /// tickets are out as operations may be in flight, the answer is FlightFull.
    pub fn start(&mut self, chan: GChan, kind: OpKind, len: u64) -> Result<OpTicket, StartError>
        requires { IsMade self.old.group chan }
        ensures answer { result ≡ answer_to_start self.old chan kind }
        ensures after { self.new ≡ after_start self.old chan kind len }
        ensures full { result ≡ Err StartError.FlightFull → tickets_out self.old ≡ self.old.out.limit }
        ensures made { StaysMade self.old.group self.new.group }
        ensures given { IfOk result (λ ticket. IsTicketOf self.new ticket) }
        ensures tickets { IfOk result (λ ticket. TakesTicket ticket self.old self.new) }
        ensures refused { OnErr result (self.new ≡ self.old) }
    {
        if let Some(refused) = self.start_refusal(chan, kind) {
            return Err(refused);
        }
        let op = self.core.start(chan, kind, len)?;
        self.out.accept(Operation {
            chan,
            kind,
            len,
            stage: Stage::Pending,
        });
        settle(
            &mut self.core,
            &mut self.out,
            &self.source,
            &mut self.waiting,
        );
        Ok(OpTicket::make(op, &self.source))
    }

    /// What `start` would be refused with now.
    fn start_refusal(&self, chan: GChan, kind: OpKind) -> Option<StartError>
        requires { IsMade self.now.group chan }
        ensures { result ≡ start_refusal self.now chan kind }
    {
        if let Some(refused) = self.core.start_refusal(chan, kind) {
            return Some(refused);
        }
        if self.out.in_flight() == self.out.limit() as usize {
            return Some(StartError::FlightFull);
        }
        None
    }

    /// The operation with this number, if its ticket is out: pending, or queued with the result that waits for the ticket.
    pub fn operation(&self, op: OpNo) -> Option<Operation>
        ensures { result ≡ held_at self.now op.0 }
    {
        self.out.get(op.0)
    }

    /// Polls a ticket: the operation's result, once that has come, or the ticket back while the operation is pending.
    /// Then the task is woken by the call that completes this operation; no clause says that it is woken, and a test shows
    /// it. Another task that waits for the same operation is woken at once.
    pub fn poll_op(&mut self, ticket: OpTicket, cx: &mut Context<'_>) -> Polled
        requires { IsTicketOf self.old ticket }
        ensures answer { result ≡ answer_to_poll self.old ticket }
        ensures after { self.new ≡ after_poll self.old ticket.op.0 }
        ensures pending { IsNotYet result ↔ IsTrue (is_pending (op_at self.old.group.flight ticket.op.0)) }
        ensures registered { IsNotYet result → Covers cx.new (λ source. source ≡ own_source self.old ticket.op.0) }
        ensures kept { Keeps cx.old cx.new }
        ensures same_group { self.new.group ≡ self.old.group }
        ensures tickets { ReturnsTicket ticket result self.old self.new }
    {
        let number = ticket.op();
        match self.result_of(number) {
            Some(finished) => {
                self.out.end(number.0);
                Polled::Ready(finished)
            }
            None => {
                let held = self.out.get(number.0).unwrap();
                self.waiting.register(cx, held.chan, held.kind);
                Polled::NotYet(ticket)
            }
        }
    }

    /// The result that waits for the ticket of this operation.
    fn result_of(&self, op: OpNo) -> Option<Finished>
        ensures { result ≡ result_at self.now op.0 }
    {
        match self.out.get(op.0)?.stage {
            Stage::Queued(finished) => Some(finished),
            Stage::Pending | Stage::Running => None,
        }
    }

    /// Cancels an operation: true where it was pending, and then its channel is closed as by `close_channel`. The ticket
    /// is used up in both cases, and with it the result. That cancelling closes the channel is a rule of this crate.
    pub fn cancel(&mut self, ticket: OpTicket) -> bool
        requires { IsTicketOf self.old ticket }
        ensures answer { result ≡ is_pending (op_at self.old.group.flight ticket.op.0) }
        ensures after { self.new ≡ after_cancel self.old ticket.op.0 }
        ensures made { StaysMade self.old.group self.new.group }
        ensures tickets { GivesTicket ticket self.old self.new }
    {
        let op = ticket.op();
        let pending = self.close_for(op);
        self.out.end(op.0);
        pending
    }

    /// Closes the channel of an operation, if that is pending; true where it was.
    fn close_for(&mut self, op: OpNo) -> bool
        ensures answer { result ≡ is_pending (op_at self.old.group.flight op.0) }
        ensures after { self.new ≡ closed_for self.old (op_at self.old.group.flight op.0) }
        ensures made { StaysMade self.old.group self.new.group }
        ensures tickets { KeepsTickets self.old self.new }
        ensures out { is_out self.new op.0 ≡ is_out self.old op.0 }
        ensures ended { op_at self.new.group.flight op.0 ≡ None }
    {
        let Some(held) = self.out.get(op.0) else {
            return false;
        };
        if let Stage::Pending = held.stage {
            self.close_channel(held.chan);
            return true;
        }
        false
    }

    /// The pending operation of this kind on this channel, for the caller who does its work.
    pub fn job(&self, chan: GChan, kind: OpKind) -> Option<Job>
        requires { IsMade self.now.group chan }
        ensures some { IfSome result (λ job. IsJobOf self.now.group chan kind job) }
        ensures none { IsNone result ↔ (IsTrue (is_present self.now.group chan)
            → (n : ℕ) → IsPendingAs self.now.group.flight chan.number kind n → ⊥) }
    {
        self.core.job(chan, kind)
    }

    /// Reports what came of a pending operation. From then on polling its ticket gives the result.
    pub fn report(&mut self, op: OpNo, outcome: Outcome) -> Result<(), ReportError>
        ensures answer { result ≡ answer_to_report self.old.group op.0 outcome }
        ensures after { self.new ≡ by_group self.old (group.report op outcome) }
        ensures made { StaysMade self.old.group self.new.group }
        ensures tickets { KeepsTickets self.old self.new }
        ensures refused { OnErr result (self.new ≡ self.old) }
    {
        let answer = self.core.report(op, outcome);
        settle(
            &mut self.core,
            &mut self.out,
            &self.source,
            &mut self.waiting,
        );
        answer
    }

    /// Closes a channel, and completes what is pending on it; true where it was open.
    pub fn close_channel(&mut self, chan: GChan) -> bool
        requires { IsMade self.old.group chan }
        ensures answer { result ≡ channel_is_open self.old.group chan }
        ensures after { self.new ≡ by_group self.old (group.close_channel chan) }
        ensures made { StaysMade self.old.group self.new.group }
        ensures tickets { KeepsTickets self.old self.new }
    {
        let answer = self.core.close_channel(chan);
        settle(
            &mut self.core,
            &mut self.out,
            &self.source,
            &mut self.waiting,
        );
        answer
    }

    /// Opens no more channels. Operations go on.
    pub fn shutdown(&mut self)
        ensures after { self.new ≡ by_group self.old group.shutdown }
        ensures made { StaysMade self.old.group self.new.group }
        ensures tickets { KeepsTickets self.old self.new }
    {
        self.core.shutdown();
        settle(
            &mut self.core,
            &mut self.out,
            &self.source,
            &mut self.waiting,
        );
    }

    /// Shuts down and closes every channel, in rising order.
    pub fn shutdown_now(&mut self)
        ensures after { self.new ≡ by_group self.old group.shutdown_now }
        ensures made { StaysMade self.old.group self.new.group }
        ensures tickets { KeepsTickets self.old self.new }
    {
        self.core.shutdown_now();
        settle(
            &mut self.core,
            &mut self.out,
            &self.source,
            &mut self.waiting,
        );
    }

    /// Whether the group has been shut down: Java's `isShutdown`.
    pub fn is_shutdown(&self) -> bool
        ensures { result ≡ self.now.group.is_shut }
    {
        self.core.is_shutdown()
    }

    /// Whether the group is shut down and all its channels are closed: Java's `isTerminated`. Results may still wait for
    /// their tickets.
    pub fn is_terminated(&self) -> bool
        ensures { result ≡ is_terminated self.now.group }
    {
        self.core.is_terminated()
    }

    /// Whether a channel of this name was made, be it closed by now or not.
    pub fn is_made(&self, chan: GChan) -> bool
        ensures answer { result ≡ is_made self.now.group chan }
        ensures made { IsTrue result ↔ IsMade self.now.group chan }
        ensures few { IsTrue result → chan.number < 65536 }
    {
        self.core.is_made(chan)
    }

    /// How many numbers were given to channels: those from 0 on.
    pub fn channels(&self) -> u32
        ensures { result ≡ length self.now.group.channels }
    {
        self.core.channels()
    }
}

/// Takes each completion of the group, ends its operation, puts its result by for its ticket, and wakes the task that
/// waits for it.
fn settle(core: &mut GroupCore, out: &mut Operations, source: &Source, waiting: &mut Waiting)
    requires { IsSettling (record { group = core.old; out = out.old; source = source.now.id; places = waiting.old }) }
    ensures settles { record { group = core.new; out = out.new; source = source.now.id; places = waiting.new }
        ≡ settled (record { group = core.old; out = out.old; source = source.now.id; places = waiting.old }) }
    ensures desk { IsDesk (record { group = core.new; out = out.new; source = source.now.id; places = waiting.new }) }
{
    let _ = source;
    while let Some(done) = core.take() {
        let op = done.op();
        let _ = core.finish(op);
        put_by(out, op, done.result());
        waiting.wake(done.chan(), done.kind());
    }
}

/// Puts a result by for the ticket of its operation, if that is out.
fn put_by(out: &mut Operations, op: OpNo, finished: Finished)
    ensures { out.new ≡ with_result out.old op.0 finished }
{
    if let Some(mut held) = out.get(op.0) {
        held.stage = Stage::Queued(finished);
        out.replace(op.0, held);
    }
}

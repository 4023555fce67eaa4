//! An asynchronous channel group as calls of one thread.
ghost use Rattle.std.specs.Prelude.{◌≡◌, ℕ, ◌+◌, ◌<◌, ◌≤◌, ◌↔◌, IfOk, IfSome, IfNone, IsTrue, length, Some, None};
ghost use Rattle.std.specs.Prelude.{IsNone, ◌≢◌, if◌then◌else◌};
ghost use Rattle.nio_group.specs.Limits.{IsFit};
ghost use Rattle.nio_group.specs.Stages.{is_running as handler_runs};
ghost use Rattle.nio_group.specs.Flight.{IsPendingAs, accepted, op_at};
ghost use Rattle.nio_group.specs.Group.{empty_group, channel_at, is_made, is_present, is_terminated, IsLawful, IsMade};
ghost use Rattle.nio_group.specs.Group.{is_open as channel_is_open};
ghost use Rattle.nio_group.specs.Making.{next_name, with_made, is_of_kind};
ghost use Rattle.nio_group.specs.Refusals.{report_refusal, start_refusal as refusal_of_start};
ghost use Rattle.nio_group.specs.Steps.{answer_to_open, after_open, answer_to_bind, after_bind, answer_to_start};
ghost use Rattle.nio_group.specs.Steps.{after_start, answer_to_report, after_report, completed, answer_to_take};
ghost use Rattle.nio_group.specs.Steps.{after_take, answer_to_finish, after_finish, after_close, after_closing};
ghost use Rattle.nio_group.specs.Steps.{after_shutdown};
ghost use Rattle.nio_group.specs.Steps.{after_shutdown_now, IsJobOf, result_of as finished_as};
ghost use Rattle.nio_group.specs.Steps.{first_stage as stage_at_start};

use crate::channel::{Channel, Endpoint, Link};
use crate::completion::{Completion, Job};
use crate::flight::{Flight, complete_all};
use crate::limits::GroupLimits;
use crate::operation::{Operation, Stage};
use crate::pending::Pending;
use crate::refusal::{NotRunning, ReportError, StartError};
use crate::refuse;
use nio_base::{Finished, GChan, GKind, OpKind, OpNo, Outcome, Why};
use std::alloc::{AllocError, Global};
use std::marker::Model;

/// An asynchronous channel group: its channels, its operations in flight, and the queue of their
/// completions. It takes all its memory when it is made.
#[derive(Drop)]
pub struct GroupCore {
    flight: Flight,
    channels: Vec<Channel>,
    pending: Vec<Pending>,
    open_channels: u32,
    shut: bool,
    limits: GroupLimits,
}

impl Model for GroupCore {
    ghost use Rattle.nio_group.specs.Group.{Group};

    ghost Value = { Group };

    ghost use Rattle.nio_group.specs.GroupKept.{group_of, IsGroupKept};

    ghost view = { λ g. group_of g.flight g.channels.items g.shut g.limits };

    ghost use Rattle.std.specs.Vec.{vec_capacity};

    ghost invariant = { λ g. IsGroupKept g.flight g.channels.items g.pending.items g.open_channels g.shut g.limits
        (vec_capacity g.channels) (vec_capacity g.pending) };
}

impl GroupCore {
    /// An empty group with room for all that these limits allow.
    pub fn make(alloc: Global, limits: GroupLimits) -> Result<GroupCore, AllocError>
        requires { IsFit limits }
        ensures { IfOk result (λ group. group ≡ empty_group limits) }
    {
        let flight = Flight::make(alloc, limits.flight)?;
        let channels = Vec::with_capacity(alloc, limits.channels as usize)?;
        let pending = Vec::with_capacity(alloc, limits.channels as usize)?;
        Ok(GroupCore {
            flight,
            channels,
            pending,
            open_channels: 0,
            shut: false,
            limits,
        })
    }

    /// A group is lawful. Call it where a proof needs that.
    pub fn law(&self)
        ensures { IsLawful self.now }
    {
        let _ = &self.shut;
    }

    /// Opens a channel with the least number that no channel has had. Once each number was given, it takes the least one
    /// whose channel is closed, of this kind, and of a serial below the greatest, and has no operation in flight, pending,
    /// queued or running; the new channel has the next serial.
    pub fn open_channel(&mut self, kind: GKind) -> Result<GChan, StartError>
        ensures answer { result ≡ answer_to_open self.old kind }
        ensures after { self.new ≡ after_open self.old kind }
    {
        if self.shut {
            return Err(StartError::ShutdownGroup);
        }
        let Some(chan) = self.next_name(kind) else {
            return Err(StartError::ChannelsSpent);
        };
        self.make_channel(chan, kind, Endpoint::new(kind));
        Ok(chan)
    }

    /// The name of the next channel of this kind, if there is a number for it.
    fn next_name(&self, kind: GKind) -> Option<GChan>
        ensures { result ≡ next_name self.now kind }
    {
        let made = self.channels();
        if made < self.limits.channels {
            return Some(GChan {
                number: made,
                serial: 0,
            });
        }
        for number in 0..made {
            let channel = self.channels[number as usize];
            let in_flight = self.pending[number as usize].in_flight;
            if channel.gives_way(kind, in_flight) {
                return Some(GChan {
                    number,
                    serial: channel.serial + 1,
                });
            }
        }
        None
    }

    /// Makes the next channel of this kind, open, under the name that is found for it.
    fn make_channel(&mut self, chan: GChan, kind: GKind, endpoint: Endpoint)
        requires named { next_name self.old kind ≡ Some chan }
        requires fits { IsTrue (is_of_kind kind endpoint) }
        requires fresh { endpoint ≢ Endpoint.Stream Link.Connecting }
        ensures { self.new ≡ with_made self.old (Some chan) endpoint }
    {
        let channel = Channel {
            serial: chan.serial,
            is_open: true,
            endpoint,
        };
        self.open_channels += 1;
        let at = chan.number as usize;
        if at == self.channels.len() {
            self.channels.push_reserved(channel);
            self.pending.push_reserved(Pending::none());
        } else {
            self.channels[at] = channel;
        }
    }

    /// Binds a listener.
    pub fn bind(&mut self, chan: GChan) -> Result<(), StartError>
        requires { IsMade self.old chan }
        ensures answer { result ≡ answer_to_bind self.old chan }
        ensures after { self.new ≡ after_bind self.old chan }
    {
        let at = chan.number as usize;
        let channel = self.channels[at];
        if let Some(refused) = refuse::bind(self.is_open(chan), channel.endpoint) {
            return Err(refused);
        }
        self.channels[at] = Channel {
            endpoint: Endpoint::Listener(true),
            ..channel
        };
        Ok(())
    }

    /// Starts an operation. A read or a write may read or write up to `len` bytes.
    pub fn start(&mut self, chan: GChan, kind: OpKind, len: u64) -> Result<OpNo, StartError>
        requires { IsMade self.old chan }
        ensures answer { result ≡ answer_to_start self.old chan kind }
        ensures after { self.new ≡ after_start self.old chan kind len }
    {
        if let Some(refused) = self.start_refusal(chan, kind) {
            return Err(refused);
        }
        let at = chan.number as usize;
        let channel = self.channels[at];
        let stage = first_stage(self.is_open(chan), kind, len);
        let number = self.flight.accept(Operation {
            chan,
            kind,
            len,
            stage,
        });
        let counted = self.pending[at].with_one_more(channel.serial == chan.serial);
        if let Stage::Pending = stage {
            self.pending[at] = counted.with(kind, Some(number));
            if let OpKind::Connect = kind {
                self.channels[at] = Channel {
                    endpoint: Endpoint::Stream(Link::Connecting),
                    ..channel
                };
            }
        } else {
            self.pending[at] = counted;
        }
        Ok(OpNo(number))
    }

    /// What `start` would be refused with now.
    pub fn start_refusal(&self, chan: GChan, kind: OpKind) -> Option<StartError>
        requires { IsMade self.now chan }
        ensures { result ≡ refusal_of_start self.now chan kind }
    {
        if self.is_terminated() {
            return Some(StartError::ShutdownGroup);
        }
        let at = chan.number as usize;
        let channel = self.channels[at];
        let pending = self.pending[at].get(kind).is_some();
        if let Some(refused) = refuse::start(self.is_open(chan), channel.endpoint, pending, kind) {
            return Some(refused);
        }
        if self.flight.accepted() == self.limits.ops {
            return Some(StartError::OpsSpent);
        }
        if self.flight.in_flight() == self.limits.flight as usize {
            return Some(StartError::FlightFull);
        }
        None
    }

    /// The pending operation of this kind on this channel, for the caller who does its work.
    pub fn job(&self, chan: GChan, kind: OpKind) -> Option<Job>
        requires { IsMade self.now chan }
        ensures some { IfSome result (λ job. IsJobOf self.now chan kind job) }
        ensures none { IsNone result ↔
            (IsTrue (is_present self.now chan) → (n : ℕ) → IsPendingAs self.now.flight chan.number kind n → ⊥) }
    {
        if !self.is_present(chan) {
            return None;
        }
        let number = self.pending[chan.number as usize].get(kind)?;
        let operation = self.flight.get(number)?;
        Some(Job::make(OpNo(number), operation.chan, operation.kind, operation.len))
    }

    /// Reports what came of a pending operation, and queues its completion.
    pub fn report(&mut self, op: OpNo, outcome: Outcome) -> Result<(), ReportError>
        ensures answer { result ≡ answer_to_report self.old op.0 outcome }
        ensures after { self.new ≡ after_report self.old op.0 outcome }
    {
        let Some(operation) = self.flight.get(op.0) else {
            return Err(ReportError::NotPending);
        };
        if let Some(refused) = refuse::report(operation, outcome) {
            return Err(refused);
        }
        let finished = self.result_of(outcome);
        self.complete(op, operation, outcome, finished);
        if let Finished::Accepted(chan) = finished {
            self.make_channel(chan, GKind::Stream, Endpoint::Stream(Link::Connected));
        }
        Ok(())
    }

    /// Completes a pending operation, which may have this outcome, with this result.
    fn complete(&mut self, op: OpNo, operation: Operation, outcome: Outcome, finished: Finished)
        requires found { op_at self.old.flight op.0 ≡ Some operation }
        requires allowed { report_refusal (Some operation) outcome ≡ None }
        requires channel { operation.chan.number < length self.old.channels }
        ensures { self.new ≡ completed self.old op.0 outcome finished operation }
    {
        let at = operation.chan.number as usize;
        self.flight.complete(op.0, operation, finished);
        self.pending[at] = self.pending[at].with(operation.kind, None);
        let channel = self.channels[at];
        match outcome {
            Outcome::Connected => {
                self.channels[at] = Channel {
                    endpoint: Endpoint::Stream(Link::Connected),
                    ..channel
                };
            }
            Outcome::Fault => {
                if let OpKind::Connect = operation.kind {
                    self.channels[at] = Channel {
                        is_open: false,
                        ..channel
                    };
                    self.open_channels -= 1;
                }
            }
            Outcome::Accepted | Outcome::Count(_) | Outcome::End => {}
        }
    }

    fn result_of(&self, outcome: Outcome) -> Finished
        ensures { result ≡ finished_as self.now outcome }
    {
        match outcome {
            Outcome::Count(count) => Finished::Count(count),
            Outcome::End => Finished::End,
            Outcome::Connected => Finished::Connected,
            Outcome::Fault => Finished::Failed(Why::Fault),
            Outcome::Accepted => {
                if self.shut {
                    return Finished::Failed(Why::ShutdownGroup);
                }
                match self.next_name(GKind::Stream) {
                    Some(chan) => Finished::Accepted(chan),
                    None => Finished::Failed(Why::ChannelsSpent),
                }
            }
        }
    }

    /// Takes the completion at the front of the queue. Its operation runs until `finish`.
    pub fn take(&mut self) -> Option<Completion>
        ensures answer { result ≡ answer_to_take self.old }
        ensures after { self.new ≡ after_take self.old }
    {
        let (number, operation) = self.flight.take()?;
        match operation.stage {
            Stage::Queued(finished) => Some(Completion::make(
                OpNo(number),
                operation.chan,
                operation.kind,
                finished,
            )),
            _ => None,
        }
    }

    /// Ends a running operation, whose handler has ended.
    pub fn finish(&mut self, op: OpNo) -> Result<(), NotRunning>
        ensures answer { result ≡ answer_to_finish self.old op.0 }
        ensures after { self.new ≡ after_finish self.old op.0 }
    {
        let Some(operation) = running(self.flight.get(op.0)) else {
            return Err(NotRunning);
        };
        self.flight.finish(op.0);
        let chan = operation.chan;
        let at = chan.number as usize;
        let channel = self.channels[at];
        self.pending[at] = self.pending[at].with_one_less(channel.serial == chan.serial);
        Ok(())
    }

    /// Closes a channel, and completes what is pending on it; true where it was open.
    pub fn close_channel(&mut self, chan: GChan) -> bool
        requires { IsMade self.old chan }
        ensures answer { result ≡ channel_is_open self.old chan }
        ensures after { self.new ≡ after_close self.old chan }
    {
        self.is_present(chan) && self.close_present(chan.number)
    }

    /// Closes the channel that a number has now.
    fn close_present(&mut self, number: u32) -> bool
        requires { number < length self.old.channels }
        ensures answer { result ≡ (channel_at self.old number).is_open }
        ensures after { self.new ≡ after_closing self.old number }
    {
        let at = number as usize;
        let channel = self.channels[at];
        if !channel.is_open {
            return false;
        }
        let pending = self.pending[at];
        complete_all(&mut self.flight, number, pending);
        self.pending[at] = pending.without_pending();
        self.channels[at] = Channel {
            is_open: false,
            ..channel
        };
        self.open_channels -= 1;
        true
    }

    /// Opens no more channels. Operations go on.
    pub fn shutdown(&mut self)
        ensures { self.new ≡ after_shutdown self.old }
    {
        self.shut = true;
    }

    /// Shuts down and closes every channel, in rising order.
    pub fn shutdown_now(&mut self)
        ensures { self.new ≡ after_shutdown_now self.old }
    {
        self.shutdown();
        for number in 0..self.channels() {
            let _ = self.close_present(number);
        }
    }

    /// Whether the group has been shut down: Java's `isShutdown`.
    pub fn is_shutdown(&self) -> bool
        ensures { result ≡ self.now.is_shut }
    {
        self.shut
    }

    /// Whether the group is shut down, all its channels are closed and all handlers have ended: Java's
    /// `isTerminated`.
    pub fn is_terminated(&self) -> bool
        ensures { result ≡ is_terminated self.now }
    {
        self.shut && self.open_channels == 0 && self.flight.in_flight() == 0
    }

    /// How many numbers were given to channels: those from 0 on.
    pub fn channels(&self) -> u32
        ensures { result ≡ length self.now.channels }
    {
        self.channels.len() as u32
    }

    /// Whether a channel of this name was made, be it closed by now or not.
    pub fn is_made(&self, chan: GChan) -> bool
        ensures answer { result ≡ is_made self.now chan }
        ensures made { IsTrue result ↔ IsMade self.now chan }
        ensures few { IsTrue result → chan.number < 65536 }
    {
        match self.channels.get(chan.number as usize) {
            Some(channel) => chan.serial <= channel.serial,
            None => false,
        }
    }

    /// Whether a channel isn't closed: Java's `isOpen`. One whose number has another channel by now is closed.
    pub fn is_open(&self, chan: GChan) -> bool
        requires { IsMade self.now chan }
        ensures { result ≡ channel_is_open self.now chan }
    {
        self.is_present(chan) && self.channels[chan.number as usize].is_open
    }

    /// Whether this is the channel that its number has now.
    fn is_present(&self, chan: GChan) -> bool
        requires { chan.number < length self.now.channels }
        ensures { result ≡ is_present self.now chan }
    {
        self.channels[chan.number as usize].serial == chan.serial
    }

    /// How many operations were accepted. They have the numbers from 0 on.
    pub fn accepted(&self) -> u64
        ensures { result ≡ accepted self.now.flight }
    {
        self.flight.accepted()
    }
}

/// The stage of an operation as it is started.
fn first_stage(is_open: bool, kind: OpKind, len: u64) -> Stage
    ensures { result ≡ stage_at_start is_open kind len }
{
    if !is_open {
        return Stage::Queued(Finished::Failed(Why::ClosedChannel));
    }
    match kind {
        OpKind::Read | OpKind::Write if len == 0 => Stage::Queued(Finished::Count(0)),
        _ => Stage::Pending,
    }
}

/// The operation, if its handler runs.
fn running(operation: Option<Operation>) -> Option<Operation>
    ensures { result ≡ if handler_runs operation then operation else None }
{
    match operation?.stage {
        Stage::Running => operation,
        Stage::Pending | Stage::Queued(_) => None,
    }
}

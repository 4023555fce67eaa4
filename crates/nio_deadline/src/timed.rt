//! A group of one thread whose reads and writes may have time limits.
ghost use Rattle.std.specs.Prelude.{◌≡◌, ◌≢◌, ◌<◌, ◌≤◌, ◌∷◌, ℕ, [], length, IfOk, IfSome, OnErr, replicate};
ghost use Rattle.std.specs.VecDeque.{deque_len, deque_capacity};
ghost use Rattle.std.specs.Prelude.{All, IsTrue, IsNone, ◌↔◌, false};
ghost use Rattle.nio_group.specs.Flight.{IsPendingAs};
ghost use Rattle.nio_group.specs.Group as group;
ghost use Rattle.nio_group.specs.Group.{IsMade, is_made, is_present, is_open as channel_is_open};
ghost use Rattle.nio_group.specs.Limits.{IsFit};
ghost use Rattle.nio_group.specs.Steps as group_steps;
ghost use Rattle.nio_group.specs.Steps.{IsJobOf, after_bind, after_close, after_finish, after_open, after_report};
ghost use Rattle.nio_group.specs.Steps.{after_shutdown, after_shutdown_now, answer_to_bind, answer_to_finish};
ghost use Rattle.nio_group.specs.Steps.{answer_to_open, answer_to_report};
ghost use Rattle.nio_deadline.specs.Deadlines.{first_moment, due};
ghost use Rattle.nio_deadline.specs.Timed.{IsLawful, empty_timed, no_kinds, own_refusal, with_group, may_have_limit};
ghost use Rattle.nio_deadline.specs.Steps.{after_expire, after_start, after_take, answer_to_expire, answer_to_start};
ghost use Rattle.nio_deadline.specs.Steps.{answer_to_take, by_group, is_among, with_limit, without_number};
ghost use Rattle.nio_deadline.specs.Kept.{TimesOutFirst, is_among_later, without_job};

use crate::deadlines::{Deadlines, Moment, Place};
use crate::done::{TimedDone, TimedResult};
use crate::kinds::{Kinds, may_have_limit};
use crate::refusal::TimedError;
use nio_base::{GChan, GKind, OpKind, OpNo, Outcome};
use nio_group::{GroupCore, GroupLimits, Job, NotRunning, ReportError, StartError};
use std::alloc::{AllocError, Global};
use std::collections::VecDeque;
use std::marker::Model;

/// An asynchronous channel group whose reads and writes may have time limits. Only `make` and `start_timed` take
/// memory. Moments and limits are in milliseconds; moments count from where the caller likes.
#[derive(Drop)]
pub struct TimedCore {
    core: GroupCore,
    deadlines: Deadlines,
    timed_out: VecDeque<u64>,
    kinds: Vec<Kinds>,
}

impl Model for TimedCore {
    ghost use Rattle.std.specs.VecDeque.{deque_len, deque_capacity};
    ghost use Rattle.nio_deadline.specs.Timed.{Timed};
    ghost use Rattle.nio_deadline.specs.Kept.{timed_of, IsTimedKept};

    ghost Value = { Timed };

    ghost view = { λ t. timed_of t.core t.deadlines t.timed_out.items t.kinds.items };

    ghost invariant = { λ t. IsTimedKept (timed_of t.core t.deadlines t.timed_out.items t.kinds.items)
        (deque_len t.timed_out) (deque_capacity t.timed_out) };
}

impl TimedCore {
    /// An empty group with room for all that these limits allow but the deadlines.
    pub fn make(alloc: Global, limits: GroupLimits) -> Result<TimedCore, AllocError>
        requires { IsFit limits }
        ensures { IfOk result (λ timed. timed ≡ empty_timed limits) }
    {
        let core = GroupCore::make(alloc, limits)?;
        let kinds = no_kinds_yet(alloc, limits.channels as usize)?;
        Ok(TimedCore {
            core,
            deadlines: Deadlines::new(alloc),
            timed_out: VecDeque::new(alloc),
            kinds,
        })
    }

    /// A group with time limits is lawful. Call it where a proof needs that.
    pub fn law(&self)
        ensures { IsLawful self.now }
    {
        let _ = &self.kinds;
    }

    /// Opens a channel with the next number, or one that comes back.
    pub fn open_channel(&mut self, kind: GKind) -> Result<GChan, StartError>
        ensures answer { result ≡ answer_to_open self.old.group kind }
        ensures after { self.new ≡ with_group self.old (after_open self.old.group kind) }
        ensures refused { OnErr result (self.new ≡ self.old) }
    {
        self.core.open_channel(kind)
    }

    /// Binds a listener.
    pub fn bind(&mut self, chan: GChan) -> Result<(), StartError>
        requires { IsMade self.old.group chan }
        ensures answer { result ≡ answer_to_bind self.old.group chan }
        ensures after { self.new ≡ with_group self.old (after_bind self.old.group chan) }
        ensures refused { OnErr result (self.new ≡ self.old) }
    {
        self.core.bind(chan)
    }

    /// Starts an operation. A read or a write may read or write up to `len` bytes, and may have a limit: where the
    /// operation is pending so many milliseconds after `now`, `expire` times it out. A limit of 0 is none.
    pub fn start_timed(
        &mut self,
        chan: GChan,
        kind: OpKind,
        len: u64,
        now: u64,
        limit: u64,
    ) -> Result<OpNo, TimedError>
        requires { IsMade self.old.group chan }
        ensures answer { result ≢ Err TimedError.Memory → result ≡ answer_to_start self.old chan kind now limit }
        ensures after { result ≢ Err TimedError.Memory → self.new ≡ after_start self.old chan kind len now limit }
        ensures memory { result ≡ Err TimedError.Memory →
            (self.new ≡ self.old) × (own_refusal self.old chan kind now limit ≡ None) }
        ensures wanted { result ≡ Err TimedError.Memory → (limit ≢ 0) × (len ≢ 0)
            × IsTrue (may_have_limit kind) × IsTrue (channel_is_open self.old.group chan) }
        ensures refused { OnErr result (self.new ≡ self.old) }
    {
        if let Some(refused) = self.refusal(chan, kind, now, limit) {
            return Err(refused);
        }
        if limit == 0 || len == 0 || !self.core.is_open(chan) {
            return Ok(self.start_unlimited(chan, kind, len)?);
        }
        self.start_limited(chan, kind, len, now + limit)
    }

    /// Starts an operation that has no deadline.
    fn start_unlimited(&mut self, chan: GChan, kind: OpKind, len: u64) -> Result<OpNo, StartError>
        requires { IsMade self.old.group chan }
        ensures answer { result ≡ group_steps.answer_to_start self.old.group chan kind }
        ensures after { self.new ≡ with_group self.old (group_steps.after_start self.old.group chan kind len) }
        ensures refused { OnErr result (self.new ≡ self.old) }
    {
        self.core.start(chan, kind, len)
    }

    /// Starts an operation that has this deadline where it is pending, which it is unless the group refuses it.
    fn start_limited(
        &mut self,
        chan: GChan,
        kind: OpKind,
        len: u64,
        at: u64,
    ) -> Result<OpNo, TimedError>
        requires made { IsMade self.old.group chan }
        requires is_open { IsTrue (channel_is_open self.old.group chan) }
        requires some { 0 < len }
        requires limited { IsTrue (may_have_limit kind) }
        ensures answer { result ≢ Err TimedError.Memory
            → result ≡ by_group (group_steps.answer_to_start self.old.group chan kind) }
        ensures after { result ≢ Err TimedError.Memory → self.new
            ≡ with_limit self.old chan kind at
            (with_group self.old (group_steps.after_start self.old.group chan kind len)) }
        ensures refused { OnErr result (self.new ≡ self.old) }
    {
        let op = self.core.accepted();
        self.timed_out.reserve(self.deadlines.len() + 1)?;
        self.deadlines
            .insert(Moment { at, op }, Place { chan, kind })?;
        match self.core.start(chan, kind, len) {
            Ok(op) => Ok(op),
            Err(refused) => {
                self.deadlines.remove(op);
                Err(TimedError::Start(refused))
            }
        }
    }

    /// Why an operation isn't started, where that isn't the group's cause.
    fn refusal(&self, chan: GChan, kind: OpKind, now: u64, limit: u64) -> Option<TimedError>
        requires { IsMade self.now.group chan }
        ensures { result ≡ own_refusal self.now chan kind now limit }
    {
        if limit != 0 && !may_have_limit(kind) {
            return Some(TimedError::NoLimitHere);
        }
        if limit > u64::MAX - now {
            return Some(TimedError::LimitTooLong);
        }
        if self.core.is_open(chan) && self.kinds[chan.number as usize].of(chan.serial).has(kind) {
            return Some(TimedError::TimedOut);
        }
        None
    }

    /// The pending operation of this kind on this channel, for the caller who does its work.
    pub fn job(&self, chan: GChan, kind: OpKind) -> Option<Job>
        requires { IsMade self.now.group chan }
        ensures some { IfSome result (λ job. IsJobOf self.now.group chan kind job) }
        ensures none { IsNone result ↔ (IsTrue (is_present self.now.group chan)
            → (n : ℕ) → IsPendingAs self.now.group.flight chan.number kind n → ⊥) }
    {
        self.core.job(chan, kind)
    }

    /// Reports what came of a pending operation, and queues its completion.
    pub fn report(&mut self, op: OpNo, outcome: Outcome) -> Result<(), ReportError>
        ensures answer { result ≡ answer_to_report self.old.group op.0 outcome }
        ensures after { self.new ≡ with_group self.old (after_report self.old.group op.0 outcome) }
        ensures refused { OnErr result (self.new ≡ self.old) }
    {
        self.core.report(op, outcome)?;
        self.deadlines.remove(op.0);
        Ok(())
    }

    /// Times out each pending operation whose deadline is at most `now`, in rising order of deadline and then number,
    /// and answers how many there were.
    pub fn expire(&mut self, now: u64) -> u32
        ensures answer { result ≡ answer_to_expire self.old now }
        ensures after { self.new ≡ after_expire self.old now }
    {
        self.few();
        let mut count = 0;
        while self.expire_first(now) {
            count += 1;
        }
        count
    }

    /// There are at most 65,536 deadlines. Call it where a proof needs that.
    fn few(&self)
        ensures { length self.now.deadlines ≤ 65536 }
    {
        let _ = &self.kinds;
    }

    /// Times out the operation with the first deadline, if that is at most `now`.
    fn expire_first(&mut self, now: u64) -> bool
        ensures done { IsTrue result → TimesOutFirst now self.old self.new }
        ensures none { result ≡ false → (self.new ≡ self.old) × (due now self.old.deadlines ≡ []) }
    {
        let Some((op, place)) = self.deadlines.pop_due(now) else {
            return false;
        };
        let at = place.chan.number as usize;
        let _ = self.core.report(OpNo(op), Outcome::Fault);
        self.timed_out.push_back_reserved(op);
        self.kinds[at] = self.kinds[at].of(place.chan.serial).with(place.kind);
        true
    }

    /// The least deadline of a pending operation.
    pub fn next_deadline(&self) -> Option<u64>
        ensures is { result ≡ first_moment self.now.deadlines }
        ensures least { IfSome result (λ at. All (λ d. at ≤ d.at) self.now.deadlines) }
    {
        self.deadlines.first()
    }

    /// Takes the completion at the front of the queue. Its operation runs until `finish`.
    pub fn take(&mut self) -> Option<TimedDone>
        ensures answer { result ≡ answer_to_take self.old }
        ensures after { self.new ≡ after_take self.old }
    {
        let completion = self.core.take()?;
        let op = completion.op();
        let result = if take_late(&mut self.timed_out, op.0) {
            TimedResult::InterruptedByTimeout
        } else {
            TimedResult::Core(completion.result())
        };
        Some(TimedDone {
            op,
            chan: completion.chan(),
            kind: completion.kind(),
            result,
        })
    }

    /// Ends a running operation, whose handler has ended.
    pub fn finish(&mut self, op: OpNo) -> Result<(), NotRunning>
        ensures answer { result ≡ answer_to_finish self.old.group op.0 }
        ensures after { self.new ≡ with_group self.old (after_finish self.old.group op.0) }
        ensures refused { OnErr result (self.new ≡ self.old) }
    {
        self.core.finish(op)
    }

    /// Closes a channel, and completes what is pending on it; true where it was open.
    pub fn close_channel(&mut self, chan: GChan) -> bool
        requires { IsMade self.old.group chan }
        ensures answer { result ≡ channel_is_open self.old.group chan }
        ensures after { self.new ≡ with_group self.old (after_close self.old.group chan) }
    {
        remove_job(&mut self.deadlines, self.core.job(chan, OpKind::Read));
        remove_job(&mut self.deadlines, self.core.job(chan, OpKind::Write));
        self.core.close_channel(chan)
    }

    /// Opens no more channels. Operations go on.
    pub fn shutdown(&mut self)
        ensures { self.new ≡ with_group self.old (after_shutdown self.old.group) }
    {
        self.core.shutdown();
    }

    /// Shuts down and closes every channel, in rising order.
    pub fn shutdown_now(&mut self)
        ensures { self.new ≡ with_group self.old (after_shutdown_now self.old.group) }
    {
        self.core.shutdown_now();
        self.deadlines.clear();
    }

    /// Whether the group has been shut down: Java's `isShutdown`.
    pub fn is_shutdown(&self) -> bool
        ensures { result ≡ self.now.group.is_shut }
    {
        self.core.is_shutdown()
    }

    /// Whether the group is shut down, all its channels are closed and all handlers have ended: Java's
    /// `isTerminated`.
    pub fn is_terminated(&self) -> bool
        ensures { result ≡ group.is_terminated self.now.group }
    {
        self.core.is_terminated()
    }

    /// Whether a channel of this name was made, be it closed by now or not.
    pub fn is_made(&self, chan: GChan) -> bool
        ensures answer { result ≡ is_made self.now.group chan }
        ensures made { IsTrue result ↔ IsMade self.now.group chan }
    {
        self.core.is_made(chan)
    }

    /// How many numbers were given to channels: those from 0 on.
    pub fn channels(&self) -> u32
        ensures { result ≡ length self.now.group.channels }
    {
        self.core.channels()
    }
}

/// Whether this operation, whose completion was at the front of the queue, has timed out; its number is taken out
/// then. The operations that have timed out stand in the order of the queue, so it is the first of them.
fn take_late(timed_out: &mut VecDeque<u64>, op: u64) -> bool
    requires { is_among_later op timed_out.old.items ≡ false }
    ensures answer { result ≡ is_among op timed_out.old.items }
    ensures after { timed_out.new.items ≡ without_number op timed_out.old.items }
    ensures fewer { deque_len timed_out.old ≡ length timed_out.old.items
        → deque_len timed_out.new ≡ length timed_out.new.items }
    ensures room { deque_capacity timed_out.new ≡ deque_capacity timed_out.old }
{
    let Some(first) = timed_out.front() else {
        return false;
    };
    if *first != op {
        return false;
    }
    timed_out.pop_front();
    true
}

/// Removes the deadline of the operation that a job names, if it has one.
fn remove_job(deadlines: &mut Deadlines, job: Option<Job>)
    ensures { deadlines.new ≡ without_job job deadlines.old }
{
    if let Some(job) = job {
        deadlines.remove(job.op().0);
    }
}

/// For each number that no kind of operation has timed out on a channel of it.
fn no_kinds_yet(alloc: Global, channels: usize) -> Result<Vec<Kinds>, AllocError>
    ensures { IfOk result (λ kinds. kinds.items ≡ replicate channels no_kinds) }
{
    vec![in alloc; Kinds::none(); channels]
}

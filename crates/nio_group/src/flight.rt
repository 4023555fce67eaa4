//! The operations of a group from their start to their end, and the queue of their completions.
ghost use Rattle.std.specs.Prelude.{◌≡◌, ℕ, ◌+◌, ◌<◌, ◌≤◌, ◌^◌, IfOk, IsTrue, is_some, count_by, length, Some, None};
ghost use Rattle.std.specs.Prelude.{true};
ghost use Rattle.nio_group.specs.Stages.{is_running, is_pending};
ghost use Rattle.nio_base.specs.declared.group.OpKind.{OpKind};
ghost use Rattle.nio_group.specs.Pending.{slot_of};
ghost use Rattle.nio_group.specs.Flight.{IsPendingAs, op_at, accepted, in_flight, no_flight, with_accepted};
ghost use Rattle.nio_group.specs.Flight.{with_completed, flight_after_take, next_taken, with_ended};
ghost use Rattle.nio_group.specs.Flight.{with_channel_closed};

use crate::operation::{Operation, Stage};
use crate::operations::Operations;
use crate::pending::Pending;
use nio_base::{Finished, Why};
use std::alloc::{AllocError, Global};
use std::collections::VecDeque;
use std::marker::Model;

/// The operations in flight and the numbers of those whose completions wait.
#[derive(Drop)]
pub(crate) struct Flight {
    operations: Operations,
    queue: VecDeque<u64>,
}

impl Model for Flight {
    ghost use Rattle.nio_group.specs.Flight as spec;
    ghost use Rattle.nio_group.specs.FlightKept.{IsFlightKept};
    ghost use Rattle.std.specs.VecDeque.{deque_len, deque_capacity};

    ghost Value = { spec.Flight };

    ghost view = { λ f. record {
      operations = f.operations.operations;
      queue = f.queue.items;
      limit = f.operations.limit;
    } };

    ghost invariant = { λ f. IsFlightKept f.operations f.queue.items (deque_len f.queue) (deque_capacity f.queue) };
}

impl Flight {
    /// Room for `limit` operations in flight.
    pub(crate) fn make(alloc: Global, limit: u32) -> Result<Flight, AllocError>
        requires some { 1 ≤ limit }
        requires few { limit ≤ 65536 }
        ensures empty { IfOk result (λ f. f ≡ no_flight limit) }
    {
        let operations = Operations::make(alloc, limit)?;
        let queue = VecDeque::with_capacity(alloc, limit as usize)?;
        Ok(Flight { operations, queue })
    }

    pub(crate) fn accepted(&self) -> u64
        ensures { result ≡ accepted self.now }
    {
        self.operations.accepted()
    }

    pub(crate) fn in_flight(&self) -> usize
        ensures { result ≡ in_flight self.now }
    {
        self.operations.in_flight()
    }

    pub(crate) fn limit(&self) -> u32
        ensures { result ≡ self.now.limit }
    {
        self.operations.limit()
    }

    pub(crate) fn get(&self, number: u64) -> Option<Operation>
        ensures { result ≡ op_at self.now number }
    {
        self.operations.get(number)
    }

    /// Accepts an operation that is pending, or queued at once.
    pub(crate) fn accept(&mut self, operation: Operation) -> u64
        requires room { in_flight self.old < self.old.limit }
        requires numbers { accepted self.old < 2 ^ 62 }
        ensures number { result ≡ accepted self.old }
        ensures accepts { self.new ≡ with_accepted self.old operation }
    {
        let number = self.operations.accept(operation);
        if let Stage::Queued(_) = operation.stage {
            self.queue.push_back_reserved(number);
        }
        number
    }

    /// Completes a pending operation.
    pub(crate) fn complete(&mut self, number: u64, mut operation: Operation, finished: Finished)
        requires is { op_at self.old number ≡ Some operation }
        requires pending { is_pending (Some operation) ≡ true }
        ensures { self.new ≡ with_completed self.old number finished }
    {
        operation.stage = Stage::Queued(finished);
        self.operations.replace(number, operation);
        self.queue.push_back_reserved(number);
    }

    /// Takes the completion at the front of the queue.
    pub(crate) fn take(&mut self) -> Option<(u64, Operation)>
        ensures taken { result ≡ next_taken self.old self.old.queue }
        ensures after { self.new ≡ flight_after_take self.old self.old.queue }
    {
        let number = self.queue.pop_front()?;
        let operation = self.operations.get(number)?;
        let mut running = operation;
        running.stage = Stage::Running;
        self.operations.replace(number, running);
        Some((number, operation))
    }

    /// Ends a running operation.
    pub(crate) fn finish(&mut self, number: u64)
        requires { is_running (op_at self.old number) ≡ true }
        ensures { self.new ≡ with_ended self.old number }
    {
        self.operations.end(number);
    }
}

/// Completes what is pending on a channel that is closed, in rising order of the numbers.
pub(crate) fn complete_all(flight: &mut Flight, chan: u32, pending: Pending)
    requires listed { (kind : OpKind) (n : ℕ) → slot_of pending kind ≡ Some n → IsPendingAs flight.old chan kind n }
    requires all { (kind : OpKind) (n : ℕ) → IsPendingAs flight.old chan kind n → slot_of pending kind ≡ Some n }
    ensures { flight.new ≡ with_channel_closed flight.old chan }
{
    let mut left = pending;
    while let Some(number) = left.least() {
        if let Some(operation) = flight.get(number) {
            flight.complete(number, operation, Finished::Failed(Why::AsynchronousClose));
            left = left.with(operation.kind, None);
        }
    }
}

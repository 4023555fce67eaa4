//! Who exchanges jobs with a desk.
ghost use mathlib.Core.List.{IsPrefix};
ghost use Rattle.std.specs.Prelude.{◌≡◌, ◌⊎◌, ◌≤◌, [], IfOk, IsSomeAnd, Some};
ghost use Rattle.nio_tickets.specs.Handling.{after_settling, opened};

use crate::office::AtRest;
use crate::polling::poll_and_start;
use futures::task::{Context, Solo};
use nio_group::Job;
use nio_jobs::{Done, Exchange, Streams, report_all};
use std::alloc::{AllocError, Global};
use std::marker::Model;
use std::sync::Wait;

/// Reports what each call came to, polls the tickets of the operations that this ended in one round, and starts what is
/// due after each result.
#[derive(Drop)]
pub(crate) struct Clerk<'a> {
    task: Task<'a>,
    // a round takes it, and gives it back
    rest: Option<AtRest>,
    streams: Streams,
}

/// The task that polls the tickets. It runs for as long as there is a clerk, and so is never parked.
struct Task<'a> {
    cx: Context<'a>,
}

impl Drop for Task<'_> {
    fn drop(self) {
        let Self { cx } = self;
        cx.cancel();
    }
}

impl<'a> Model for Clerk<'a> {
    ghost use Rattle.std.specs.Prelude.{Option, IsSomeAnd};
    ghost use Rattle.std.specs.Option.{option_map};
    ghost use Rattle.nio_tickets.specs.Handling.{ClerkState};
    ghost use Rattle.nio_tickets.specs.Rest.{IsAtRest};

    ghost Value = { Option ClerkState };

    ghost view = { λ clerk. option_map (λ rest. record { office = rest.office; held = clerk.streams.held }) clerk.rest };

    ghost invariant = { λ clerk. IsSomeAnd clerk.rest IsAtRest };
}

impl<'a> Clerk<'a> {
    /// At a new desk of so many channels and operations, where the listener accepts. All memory is taken here.
    pub(crate) fn open(
        executor: &'a Solo,
        alloc: Global,
        channels: u32,
        flight: u32,
    ) -> Result<Clerk<'a>, AllocError>
        requires channels { (1 ≤ channels) × (channels ≤ 65536) }
        requires flight { (1 ≤ flight) × (flight ≤ 65536) }
        ensures { IfOk result (λ clerk. IsSomeAnd clerk
            (λ state. state ≡ opened channels flight state.office.desk.source state.office.desk.places)) }
    {
        let mut rest = AtRest::make(alloc, channels, flight)?;
        let mut streams = Streams::make(alloc, channels, flight)?;
        streams.listen(&mut rest.office);
        let task = Task {
            cx: executor.begin(),
        };
        Ok(Clerk {
            task,
            rest: Some(rest),
            streams,
        })
    }

    /// Closes all channels of the desk.
    pub(crate) fn close(self) {
        let rest = self.rest.unwrap();
        rest.office.close();
    }

    // Reports all, polls the tickets of what that ended, and takes the jobs of what was started.
    fn settle(&mut self, done: &mut Vec<Done>, arrived: &mut Vec<Job>)
        ensures settled { IsSomeAnd self.old (λ state. self.new ≡ Some (after_settling state done.old.items)) }
        ensures reported { done.new.items ≡ [] }
        ensures kept { IsPrefix arrived.old.items arrived.new.items }
    {
        let mut rest = self.rest.take().unwrap();
        report_all(&mut rest.office, done, arrived);
        let rest = poll_and_start(rest, &mut self.streams, &mut self.task.cx, done);
        self.rest = Some(rest);
        done.clear();
        self.streams.move_started_to(arrived);
    }
}

impl Exchange for Clerk<'_> {
    fn exchange<W: Wait>(&mut self, _rt: &W, done: &mut Vec<Done>, arrived: &mut Vec<Job>)
        ensures settled { IsSomeAnd self.old (λ state. self.new ≡ Some (after_settling state done.old.items)) }
        ensures reported { done.new.items ≡ [] }
        ensures kept { IsPrefix arrived.old.items arrived.new.items }
    {
        self.settle(done, arrived);
    }

    fn exchange_early(&mut self, done: &mut Vec<Done>, arrived: &mut Vec<Job>)
        ensures settled { IsSomeAnd self.old (λ state. self.new ≡ Some (after_settling state done.old.items)) }
        ensures all { done.new.items ≡ [] }
        ensures reported { (done.new.items ≡ []) ⊎ (done.new.items ≡ done.old.items) }
        ensures kept { IsPrefix arrived.old.items arrived.new.items }
    {
        self.settle(done, arrived);
    }
}

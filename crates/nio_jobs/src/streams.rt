//! Which operations are started on the streams of the connections.
ghost use mathlib.Core.List.{IsPrefix};
ghost use Rattle.std.specs.Prelude.{◌≡◌, ◌≢◌, ◌↔◌, ◌++◌, [], IfOk, IsTrue, replicate};
ghost use Rattle.nio_jobs.specs.Handling.{after_accepted, after_listening, after_result};
ghost use Rattle.nio_jobs.specs.Handling.{held_after_result, starting, starting_some};

use crate::next::{Directions, Next, Start};
use crate::starter::Starter;
use nio_base::{Finished, GChan, GKind, OpKind};
use nio_group::Job;
use std::alloc::{AllocError, Global};
use std::marker::Model;

/// The group's channel of the listener.
const LISTENER: GChan = GChan {
    number: 0,
    serial: 0,
};

/// How many bytes the direction from each stream holds, and the jobs of the operations that were started and that
/// nobody has taken yet.
#[derive(Drop)]
pub struct Streams {
    directions: Directions,
    started: Vec<Job>,
}

impl Model for Streams {
    ghost use Rattle.nio_jobs.specs.StreamsState.{StreamsState};

    ghost Value = { StreamsState };

    ghost view = { λ streams. record { held = streams.directions; started = streams.started.items } };
}

impl Streams {
    /// With room for so many channels, and for the jobs of so many operations.
    pub fn make(alloc: Global, channels: u32, flight: u32) -> Result<Streams, AllocError>
        ensures { IfOk result (λ streams. streams ≡ record { held = replicate channels 0; started = [] }) }
    {
        Ok(Streams {
            directions: Directions::make(alloc, channels)?,
            started: Vec::with_capacity(alloc, flight as usize)?,
        })
    }

    /// Whether there is a job that nobody has taken yet.
    pub fn has_started(&self) -> bool
        ensures { IsTrue result ↔ (self.now.started ≢ []) }
    {
        !self.started.is_empty()
    }

    /// Moves these jobs to the end of the others. Where there is no memory they stay.
    pub fn move_started_to(&mut self, arrived: &mut Vec<Job>)
        ensures none_lost { arrived.new.items ++ self.new.started ≡ arrived.old.items ++ self.old.started }
        ensures kept { IsPrefix arrived.old.items arrived.new.items }
        ensures held { self.new.held ≡ self.old.held }
    {
        let _ = arrived.append(&mut self.started);
    }

    /// Opens the listener's channel, and starts its first accept.
    pub fn listen<S: Starter>(&mut self, at: &mut S)
        ensures after { at.new ≡ after_listening S.Starter at.old }
        ensures held { self.new.held ≡ self.old.held }
    {
        if let Ok(listener) = at.open_channel(GKind::Listener) {
            if at.is_made(listener) {
                at.bind(listener);
            }
            let accept = Start {
                chan: listener,
                kind: OpKind::Accept,
                len: 0,
            };
            self.start(at, accept);
        }
    }

    /// Starts what is due once an operation has this result, if its channel was made. Nothing is due where it failed, or
    /// where the stream has ended.
    pub fn go_on<S: Starter>(&mut self, at: &mut S, chan: GChan, kind: OpKind, finished: Finished)
        ensures after { at.new ≡ after_result S.Starter self.old.held at.old chan kind finished }
        ensures held { self.new.held ≡ held_after_result S.Starter self.old.held at.old chan kind finished }
    {
        if !at.is_made(chan) {
            return;
        }
        match self.directions.next(chan, kind, finished) {
            Next::Nothing => {}
            Next::Accepted => self.accepted(at),
            Next::Both(first, second) => {
                self.start_some(at, first);
                self.start_some(at, second);
            }
        }
    }

    // Opens the target's channel and connects it, and only then accepts the next client: so each channel of the group
    // has the number of the net's.
    fn accepted<S: Starter>(&mut self, at: &mut S)
        ensures after { at.new ≡ after_accepted S.Starter at.old }
        ensures held { self.new.held ≡ self.old.held }
    {
        if let Ok(target) = at.open_channel(GKind::Stream) {
            let connect = Start {
                chan: target,
                kind: OpKind::Connect,
                len: 0,
            };
            let accept = Start {
                chan: LISTENER,
                kind: OpKind::Accept,
                len: 0,
            };
            self.start(at, connect);
            self.start(at, accept);
        }
    }

    // Starts a read or a write, if it is for any bytes.
    fn start_some<S: Starter>(&mut self, at: &mut S, start: Start)
        ensures after { at.new ≡ starting_some S.Starter at.old start }
        ensures held { self.new.held ≡ self.old.held }
    {
        if start.len != 0 {
            self.start(at, start);
        }
    }

    // Starts an operation, if its channel was made, and keeps its job. A start that is refused is dropped: none is, until
    // the group is shut down.
    fn start<S: Starter>(&mut self, at: &mut S, start: Start)
        ensures after { at.new ≡ starting S.Starter at.old start }
        ensures held { self.new.held ≡ self.old.held }
    {
        if !at.is_made(start.chan) {
            return;
        }
        if let Some(job) = at.start(start.chan, start.kind, start.len) {
            // there is room for the jobs of all operations that can be in flight
            let _ = self.started.push(job);
        }
    }
}

//! Which operations are due next on the streams of the connections.
ghost use Rattle.std.specs.Prelude.{◌≡◌, ◌<◌, IfOk, replicate, slice_set};
ghost use Rattle.nio_base.specs.declared.group.OpKind.TheVariants.{Read, Write};
ghost use Rattle.nio_jobs.specs.Next.{held_after_count, held_after_finished, held_by, peer};
ghost use Rattle.nio_jobs.specs.Next.{next_after, next_after_connected, next_after_reading, next_after_writing};

use crate::directions::{ROOM, after_read, after_write};
use nio_base::{Finished, GChan, OpKind};
use std::alloc::{AllocError, Global};
use std::marker::Model;

// The other stream of a connection. Clients have odd numbers, and the target of each has the next one.
fn peer(chan: GChan) -> GChan
    requires { chan.number < 4294967295 }
    ensures { result ≡ peer chan }
{
    let number = if chan.number % 2 == 1 {
        chan.number + 1
    } else {
        chan.number.saturating_sub(1)
    };
    GChan { number, ..chan }
}

/// An operation that is due. A read or a write for no bytes isn't started.
#[derive(Clone, Copy, Debug, PartialEq, Eq)]
pub struct Start {
    /// On which channel.
    pub chan: GChan,
    /// What it does.
    pub kind: OpKind,
    /// How many bytes it may read or write.
    pub len: u64,
}

/// What is to be done once an operation has completed.
#[derive(Clone, Copy, Debug, PartialEq, Eq)]
pub enum Next {
    /// Nothing: it failed, or its stream has ended.
    Nothing,
    /// A client was accepted. Its target's channel is opened and connected, and only then the next client is accepted:
    /// so each channel of the group has the number of the net's.
    Accepted,
    /// The first of these is started, and then the second.
    Both(Start, Start),
}

/// How many bytes the direction from each stream holds.
#[derive(Drop)]
pub struct Directions {
    held: Vec<u64>,
}

impl Model for Directions {
    ghost use Rattle.std.specs.Prelude.{ℕ, List};

    ghost Value = { List ℕ };

    ghost view = { λ directions. directions.held.items };
}

impl Directions {
    /// Of so many channels, none of which holds any bytes.
    pub fn make(alloc: Global, channels: u32) -> Result<Directions, AllocError>
        ensures { IfOk result (λ directions. directions ≡ replicate channels 0) }
    {
        Ok(Directions {
            held: vec![in alloc; 0; channels as usize]?,
        })
    }

    /// What is due once an operation has completed. A read that gave bytes has a write of them to the peer, if none is
    /// in flight, and reads on where there is room. A write has the rest, and reads on from the peer where that waited
    /// for room. A target that is connected has a read from both streams.
    pub fn next(&mut self, chan: GChan, kind: OpKind, finished: Finished) -> Next
        requires { chan.number < 4294967295 }
        ensures next { result ≡ next_after self.old chan kind finished }
        ensures held { self.new ≡ held_after_finished self.old chan kind finished }
    {
        match finished {
            Finished::Accepted(_) => Next::Accepted,
            Finished::Connected => after_connected(chan),
            Finished::Count(count) => match kind {
                OpKind::Read => self.after_reading(chan, count),
                OpKind::Write => self.after_writing(chan, count),
                OpKind::Accept | OpKind::Connect => Next::Nothing,
            },
            Finished::End | Finished::Failed(_) => Next::Nothing,
        }
    }

    fn after_reading(&mut self, source: GChan, count: u64) -> Next
        requires { source.number < 4294967295 }
        ensures next { result ≡ next_after_reading source (held_by self.old source) count }
        ensures held { self.new ≡ held_after_count self.old source Read count }
    {
        let due = after_read(self.held_by(source), count);
        self.set_held(source, due.held);
        let write = Start {
            chan: peer(source),
            kind: OpKind::Write,
            len: due.write,
        };
        let read = Start {
            chan: source,
            kind: OpKind::Read,
            len: due.read,
        };
        Next::Both(write, read)
    }

    fn after_writing(&mut self, sink: GChan, count: u64) -> Next
        requires { sink.number < 4294967295 }
        ensures next { result ≡ next_after_writing sink (held_by self.old (peer sink)) count }
        ensures held { self.new ≡ held_after_count self.old sink Write count }
    {
        let source = peer(sink);
        let due = after_write(self.held_by(source), count);
        self.set_held(source, due.held);
        let write = Start {
            chan: sink,
            kind: OpKind::Write,
            len: due.write,
        };
        let read = Start {
            chan: source,
            kind: OpKind::Read,
            len: due.read,
        };
        Next::Both(write, read)
    }

    // How many bytes the direction from this stream holds.
    fn held_by(&self, source: GChan) -> u64
        ensures { result ≡ held_by self.now source }
    {
        match self.held.get(source.number as usize) {
            Some(held) => *held,
            None => 0,
        }
    }

    fn set_held(&mut self, source: GChan, held: u64)
        ensures { self.new ≡ slice_set self.old source.number held }
    {
        let at = source.number as usize;
        if at < self.held.len() {
            self.held[at] = held;
        }
    }
}

fn after_connected(target: GChan) -> Next
    requires { target.number < 4294967295 }
    ensures { result ≡ next_after_connected target }
{
    let of_client = Start {
        chan: peer(target),
        kind: OpKind::Read,
        len: ROOM,
    };
    let of_target = Start {
        chan: target,
        kind: OpKind::Read,
        len: ROOM,
    };
    Next::Both(of_client, of_target)
}

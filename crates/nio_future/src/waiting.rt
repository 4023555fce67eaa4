//! The tasks that wait for operations.
ghost use Rattle.std.specs.Prelude.{◌≡◌, ◌≤◌};
ghost use Rattle.futures.specs.Task.{Covers, Keeps};
ghost use Rattle.nio_future.specs.Desk.{place_of, source_at};

use futures::task::{Context, Poll, Source, Waker};
use nio_base::{GChan, OpKind};
use std::alloc::{AllocError, Global};
use std::marker::Model;

/// The place of the operations of this kind on this channel, where there is one for each kind and each number of a
/// channel.
pub fn place_of(chan: GChan, kind: OpKind) -> usize
    ensures { result ≡ place_of chan kind }
{
    let first = 4 * chan.number as usize;
    match kind {
        OpKind::Accept => first,
        OpKind::Connect => first + 1,
        OpKind::Read => first + 2,
        OpKind::Write => first + 3,
    }
}

/// A source, and the waker of the task that waits there.
#[derive(Drop)]
struct Place {
    source: Source,
    waker: Option<Waker>,
}

/// Where tasks wait for operations, one task for each pending one.
#[derive(Drop)]
pub(crate) struct Waiting {
    places: Vec<Place>,
}

impl Model for Waiting {
    ghost use Rattle.std.specs.Prelude.{ℕ, List, map};
    ghost use Rattle.nio_future.specs.declared.waiting.Place.{Place};

    ghost Value = { List ℕ };

    ghost view = { λ waiting. map (λ (place : Place). place.source.id) waiting.places.items };
}

impl Waiting {
    /// With the places of so many channels.
    pub(crate) fn make(alloc: Global, channels: u32) -> Result<Waiting, AllocError>
        requires { channels ≤ 65536 }
    {
        let count = 4 * channels as usize;
        let mut places = Vec::with_capacity(alloc, count)?;
        for _ in 0..count {
            places.push(Place {
                source: Source::new(),
                waker: None,
            })?;
        }
        Ok(Waiting { places })
    }

    /// Registers the task at the source of the operations of this kind on this channel. Another task that waits there is
    /// woken.
    pub(crate) fn register(&mut self, cx: &mut Context<'_>, chan: GChan, kind: OpKind)
        ensures same { self.new ≡ self.old }
        ensures registered { Covers cx.new (λ source. source ≡ source_at self.old chan kind) }
        ensures kept { Keeps cx.old cx.new }
    {
        let _: Poll<()> = match self.places.get_mut(place_of(chan, kind)) {
            Some(place) => cx.register(&place.source, &mut place.waker),
            // a desk has a place for each operation; without one the task asks to be polled again
            None => cx.yield_now(),
        };
    }

    /// Wakes the task that waits for the operation of this kind on this channel, by the drop of its waker.
    pub(crate) fn wake(&mut self, chan: GChan, kind: OpKind)
        ensures { self.new ≡ self.old }
    {
        if let Some(place) = self.places.get_mut(place_of(chan, kind)) {
            place.waker = None;
        }
    }
}

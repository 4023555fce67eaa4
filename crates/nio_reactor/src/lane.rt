//! What a worker works on.
ghost use Rattle.std.specs.Prelude.{◌≡◌, ◌+◌, ◌*◌, ◌<◌, ◌≤◌, ◌++◌, ◌⊎◌, [], All, IsFalse, IsTrue, Some, length, map, slice_get};
ghost use mathlib.Core.List.{IsPrefix};
ghost use Rattle.nio_link.specs.Places.{never_asked};
ghost use Rattle.nio_serve.specs.Serving.{listener};
ghost use Rattle.nio_reactor.specs.Dealing.{number_of, share};
ghost use Rattle.nio_reactor.specs.Lanes.{IsSpare, IsToldOpen};
ghost use Rattle.nio_reactor.specs.Receiving.{in_hand, is_door_of, is_early, is_over, put_number};

use crate::door::{Door, address_of};
use crate::handover::Handover;
use crate::heard::{Heard, hear_out};
use crate::lines::Lines;
use crate::message::Message;
use crate::ready::Ready;
use nio_line::{LineIn, LineOut};
use nio_link::Passable;
use nio_relay::Served;
use nio_serve::ServeError;
use nio_trace::Trace;
use nio_words::Pass;
use std::alloc::Global;
use std::marker::PhantomData;
use std::sync::Wait;

/// A worker's net, with the line on which its links come. The net itself has no listener.
#[derive(Drop)]
pub(crate) struct Lane<N: Passable, K: Lines<N::Link>> {
    /// Where the worker's selections and its buffers are allocated.
    pub alloc: Global,
    pub net: N,
    /// The worker's number, which is that of its line.
    pub worker: u32,
    pub line: LineOut<Message<N::Link>>,
    /// A bell rings where a link was sent.
    pub has_bell: bool,
    pub heard: Heard<N::Link>,
    pub door: Door,
    /// How many of the worker's links weren't put in yet.
    pub left: u32,
    /// How many slots the worker has.
    pub slots: u32,
    /// What is ready of what the last poll told.
    pub ready: Ready,
    /// The links that were put in, in their order.
    pub put: Trace<Handover>,
    /// What the worker came to.
    pub outcome: Result<Served, ServeError>,
    pub lines: PhantomData<K>,
    ghost spare: { IsSpare door (N.place net) },
    ghost told: { IsToldOpen ready door },
    ghost its: { slice_get K.lines worker ≡ Some line.line },
    ghost at_door: { IsFalse (is_door_of worker door) → length line.carried ≡ 0 },
    ghost numbers: { map number_of line.carried ≡ map put_number put ++ in_hand heard },
    ghost own: { All (λ h. h.worker ≡ worker) put },
    ghost count: { left + length put ≡ share (length K.lines) worker K.conns },
    ghost early: { IsTrue (is_early heard) → 0 < left },
    ghost slots_are: { slots ≡ share (length K.lines) worker K.slots },
    ghost few: { slots ≤ 16000 },
    ghost within: { All (λ h. h.client.number.0 < 2 * slots) put },
}

/// A worker: its lane, and the pass that has its number at the shared table.
#[derive(Drop)]
pub(crate) struct Worker<N: Passable, K: Lines<N::Link>> {
    pub lane: Lane<N, K>,
    pub pass: Pass,
}

impl<N: Passable, K: Lines<N::Link>> Lane<N, K> {
    ghost use Rattle.std.specs.Prelude.{false};
    ghost use Rattle.nio_reactor.specs.declared.door.Door.TheVariants.{Unasked};

    /// The lane of this worker, which has done nothing yet and has so many slots. So many links are to come on its line.
    pub(crate) fn over(
        alloc: Global,
        net: N,
        worker: u32,
        line: LineOut<Message<N::Link>>,
        left: u32,
        slots: u32,
        has_bell: bool,
    ) -> Lane<N, K>
        requires unused { N.place net listener ≡ never_asked }
        requires its { slice_get K.lines worker ≡ Some line.line }
        requires new { line.carried ≡ [] }
        requires all { left ≡ share (length K.lines) worker K.conns }
        requires slots { slots ≡ share (length K.lines) worker K.slots }
        requires few { slots ≤ 16000 }
        ensures net { result.net ≡ net }
        ensures line { result.line ≡ line }
        ensures door { result.door ≡ Unasked }
        ensures on_time { is_early result.heard ≡ false }
    {
        Lane {
            alloc,
            net,
            worker,
            line,
            has_bell,
            heard: Heard::Nothing,
            door: Door::Unasked,
            left,
            slots,
            ready: Ready::Net,
            put: Trace::new(),
            outcome: Err(ServeError::Memory),
            lines: PhantomData,
        }
    }

    /// Notes what worker `number` came to. Where it has failed, the links that still come are let go.
    pub(crate) fn end<R: Wait>(&mut self, rt: &R, number: u32, outcome: Result<Served, ServeError>)
        requires few { number < 16 }
        ensures net { self.new.net ≡ self.old.net }
        ensures put { self.new.put ≡ self.old.put }
        ensures early { is_early self.new.heard ≡ is_early self.old.heard }
        ensures own { (self.old.line.carried ≡ []) ⊎ (self.old.worker ≡ number)
            → (self.new.line.carried ≡ []) ⊎ (self.new.worker ≡ number) }
        ensures outcome { self.new.outcome ≡ outcome }
    {
        self.outcome = outcome;
        if outcome.is_err() {
            self.let_go(rt, number);
        }
    }

    // Lets the links go that weren't put in, once worker `number` has ended, if this is its lane.
    fn let_go<R: Wait>(&mut self, rt: &R, number: u32)
        requires few { number < 16 }
        ensures net { self.new.net ≡ self.old.net }
        ensures put { self.new.put ≡ self.old.put }
        ensures outcome { self.new.outcome ≡ self.old.outcome }
        ensures early { is_early self.new.heard ≡ is_early self.old.heard }
        ensures over { self.old.worker ≡ number → IsTrue (is_over self.new.heard) }
        ensures own { (self.old.line.carried ≡ []) ⊎ (self.old.worker ≡ number)
            → (self.new.line.carried ≡ []) ⊎ (self.new.worker ≡ number) }
    {
        if self.worker != number {
            return;
        }
        self.ready = Ready::Nothing;
        self.door = Door::Closed(address_of(number));
        hear_out(rt, &mut self.line, &mut self.heard);
    }

    /// Takes in the end of line `number` that sends, if that is this lane's line, and gives back the net.
    pub(crate) fn settle(self, number: u32, entry: LineIn<Message<N::Link>>) -> N
        requires entry { slice_get K.lines number ≡ Some entry.line }
        requires own { (self.line.carried ≡ []) ⊎ (self.worker ≡ number) }
        ensures net { result ≡ self.net }
        ensures prefix { IsPrefix self.line.carried entry.carried }
    {
        let mut line = self.line;
        if self.worker == number {
            line.settle(entry);
        }
        self.net
    }
}

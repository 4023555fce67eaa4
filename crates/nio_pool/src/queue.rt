//! The bounded queue through which the workers of a group share its completions.
ghost use Rattle.std.specs.Prelude.{◌≡◌, ℕ, ◌-◌, ◌<◌, ◌≤◌, ◌↔◌, [], length, All, IfOk, IfErr, IfSome, IsOk, IsNone};
ghost use Rattle.std.specs.Prelude.{OnOk, OnErr, IsTrue};
ghost use Rattle.crossbeam_queue.specs.Passes.{view as view_of, IsPassOf as IsOf};
ghost use Rattle.nio_pool.specs.Hands.{hand, joined};
ghost use Rattle.nio_pool.specs.Queues.{IsPassOf, new_pass, with_put, with_taken, WasFull, WasEmpty, HasAllParts};
ghost use Rattle.nio_pool.specs.Queues.{HasRoom, HasTakenAll, Waits};

use crate::hand::{Balance, Cut, Hand, Joined, Share, Take};
use crossbeam_queue::{Pass, RuledArrayQueue};
use nio_group::Completion;
use std::alloc::{AllocError, Global};
use std::marker::{Brand, Model};
use std::sync::Wait;

/// A bounded queue of completions. Any number of threads may put and take at the same time, each with a pass of its
/// own.
#[derive(Drop)]
pub struct CompletionQueue {
    ring: RuledArrayQueue<Completion, Hand, Balance>,
    parts: u32,
}

impl Model for CompletionQueue {
    ghost use Rattle.nio_pool.specs.Queues.{QueueFields};

    ghost Value = { QueueFields };

    ghost use Rattle.crossbeam_queue.specs.Passes.{ruled_capacity};

    ghost view = { λ q. record { id = q.ring.table.shared.table_id; parts = q.parts; room = ruled_capacity q.ring } };

    ghost use Rattle.std.specs.Prelude.{◌≤◌};

    ghost invariant = { λ q. q.parts ≤ 65 };
}

/// What a thread puts and takes completions with. It belongs to the queue that made it, and has one or more of its
/// parts; while it has all of them there is no other pass.
#[derive(Drop)]
pub struct QueuePass {
    pass: Pass<Completion, Hand>,
    parts: u32,
}

impl Model for QueuePass {
    ghost use Rattle.nio_pool.specs.Queues.{PassFields};

    ghost Value = { PassFields };

    ghost use Rattle.nio_pool.specs.Kept.{pass_of, IsPassKept};

    ghost view = { λ p. pass_of p.pass };

    ghost invariant = { λ p. IsPassKept p.pass p.parts };
}

/// A completion that was taken from a queue. It can't be copied, and `CompletionQueue::take` alone makes one.
#[derive(Debug, Drop)]
pub struct Handed {
    done: Completion,
}

impl Model for Handed {
    ghost use Rattle.nio_group.specs.Completion.{CompletionFields};

    ghost Value = { CompletionFields };

    ghost view = { λ handed. handed.done };
}

impl Handed {
    /// The completion.
    pub fn done(&self) -> &Completion
        ensures { result.now ≡ self.now }
    {
        &self.done
    }
}

impl QueuePass {
    /// How many parts of its queue it has.
    pub fn parts(&self) -> u32
        ensures { result ≡ self.now.hand.parts }
    {
        self.parts
    }

    // Cuts one part off.
    fn cut(&mut self, ring: &RuledArrayQueue<Completion, Hand, Balance>) -> QueuePass
        requires queue { self.old.queue ≡ ring.now.table.shared.table_id }
        requires parts { 1 < self.old.hand.parts }
        ensures same { self.new.queue ≡ self.old.queue }
        ensures left { self.new.hand ≡ record self.old.hand { parts = self.old.hand.parts - 1 } }
        ensures queue { result.queue ≡ self.old.queue }
        ensures one { result.hand ≡ hand 1 self.old.hand.all [] [] }
    {
        let pass = ring.another::<Cut>(&mut self.pass);
        self.parts -= 1;
        QueuePass { pass, parts: 1 }
    }
}

// The first pass of a queue gets all of its parts.
fn open(
    ring: &RuledArrayQueue<Completion, Hand, Balance>,
    mut pass: Pass<Completion, Hand>,
    parts: u32,
) -> QueuePass
    ghost all: { ℕ }
    requires all { all ≡ parts }
    requires some { 1 ≤ parts }
    requires queue { IsOf ring.now pass }
    requires first { view_of pass ≡ hand 1 1 [] [] }
    ensures queue { result.queue ≡ ring.now.table.shared.table_id }
    ensures hand { result.hand ≡ hand parts parts [] [] }
{
    ring.another::<Brand>(&mut pass);
    QueuePass { pass, parts }
}

impl CompletionQueue {
    /// A queue with room for `room` completions, from 1 to 65,536, and its passes, from 1 to 65, with one part each.
    pub fn make(
        alloc: Global,
        parts: u32,
        room: u32,
    ) -> Result<(CompletionQueue, Vec<QueuePass>), AllocError>
        requires parts { (1 ≤ parts) × (parts ≤ 65) }
        requires room { (1 ≤ room) × (room ≤ 65536) }
        ensures parts { IfOk result (λ made. made.0.parts ≡ parts) }
        ensures room { IfOk result (λ made. made.0.room ≡ room) }
        ensures count { IfOk result (λ made. length made.1.items ≡ parts) }
        ensures passes { IfOk result (λ made. All (λ p. p ≡ new_pass made.0) made.1.items) }
    {
        let mut passes = Vec::with_capacity(alloc, parts as usize)?;
        let (ring, pass) = RuledArrayQueue::ruled(alloc, room as usize)?;
        let mut first = open(&ring, pass, parts);
        for _ in 1..parts {
            passes.push_reserved(first.cut(&ring));
        }
        passes.push_reserved(first);
        Ok((CompletionQueue { ring, parts }, passes))
    }

    /// Puts a completion at the back. It comes back only where the queue held `room` completions at a moment of this
    /// call. Of a pass with all parts contracts say exactly when that is. Of a pass with fewer parts `full` refuses no
    /// answer, since others may have filled the queue. No clause says at which end a completion is put: first in,
    /// first out is the order of `RuledArrayQueue`.
    pub fn put<R: Wait>(
        &self,
        rt: &R,
        pass: &mut QueuePass,
        done: Completion,
    ) -> Result<(), Completion>
        requires { IsPassOf self.now pass.old }
        ensures pass { IsPassOf self.now pass.new }
        ensures put { OnOk result (pass.new ≡ with_put pass.old done) }
        ensures back { IfErr result (λ back. back ≡ done) }
        ensures unchanged { OnErr result (pass.new ≡ pass.old) }
        ensures full { OnErr result (WasFull self.now pass.old) }
        ensures exact { HasAllParts self.now pass.old → IsOk result ↔ HasRoom self.now pass.old }
    {
        self.ring.push_as::<Brand, R>(rt, &mut pass.pass, done)
    }

    /// Takes the completion at the front. None only where the queue was empty at a moment of this call. Of a pass with
    /// all parts contracts say exactly when that is, and that what is taken had been put more often than taken. Of a
    /// pass with fewer parts `empty` refuses no answer, since others may have emptied the queue. No clause says which
    /// completion is at the front: first in, first out is the order of `RuledArrayQueue`.
    pub fn take<R: Wait>(&self, rt: &R, pass: &mut QueuePass) -> Option<Handed>
        requires { IsPassOf self.now pass.old }
        ensures pass { IsPassOf self.now pass.new }
        ensures taken { IfSome result (λ handed. pass.new ≡ with_taken pass.old handed) }
        ensures unchanged { IsNone result → pass.new ≡ pass.old }
        ensures empty { IsNone result → WasEmpty pass.old }
        ensures exact { HasAllParts self.now pass.old → IsNone result ↔ HasTakenAll pass.old }
        ensures waited { HasAllParts self.now pass.old → IfSome result (λ handed. Waits pass.old handed) }
    {
        let done = self.ring.pop_as::<Take, R>(rt, &mut pass.pass)?;
        Some(Handed { done })
    }

    // Whether nothing waited at a moment of this call.
    pub(crate) fn is_empty(&self, pass: &mut QueuePass) -> bool
        requires { IsPassOf self.now pass.old }
        ensures unchanged { pass.new ≡ pass.old }
        ensures empty { IsTrue result → WasEmpty pass.old }
    {
        self.ring.is_empty_as::<Take>(&mut pass.pass)
    }

    /// Makes one pass of two: it has the parts of both, and what both have put and taken.
    pub fn join(&self, pass: &mut QueuePass, other: QueuePass)
        requires pass { IsPassOf self.now pass.old }
        requires other { IsPassOf self.now other }
        ensures pass { IsPassOf self.now pass.new }
        ensures both { pass.new.hand ≡ joined pass.old.hand other.hand }
    {
        let QueuePass {
            pass: absorbed,
            parts,
        } = other;
        self.ring.absorb::<Joined>(&mut pass.pass, absorbed);
        self.ring.learn_as::<Share>(&mut pass.pass);
        pass.parts += parts;
    }
}

//! What each pass of a queue of completions knows, the queue's rule, and the steps on it. All of it exists in proofs
//! alone.
ghost use Rattle.std.specs.Prelude.{◌≡◌, ◌-◌, ◌≤◌, []};
ghost use Rattle.nio_pool.specs.Hands.{hand, joined, spent, IsBalanced, Moment, Puts, Takes};

use crossbeam_queue::protocol::{Join, Lesson, Outcome, Protocol, Split};
use nio_group::Completion;
use std::collections::LinkedList;
use std::marker::Brand;

/// What a pass knows: its parts, of how many in all, and the numbers of the operations whose completions it has put
/// and taken, in order. No value of it is made.
pub struct Hand {
    pub parts: u32,
    pub all: u32,
    pub put: LinkedList<u64>,
    pub taken: LinkedList<u64>,
}

/// The rule of a queue.
pub struct Balance;

impl Protocol<Completion, Hand> for Balance {
    ghost holds = { IsBalanced };

    ghost first = { hand 1 1 [] [] };
}

// Of how many parts a queue is made is picked where its first pass gets them.
impl Split<Hand> for Brand {
    ghost left = { λ v. v };

    ghost right = { λ v. spent };
}

/// A pass gives one of its parts to a new pass.
pub struct Cut;

impl Split<Hand> for Cut {
    ghost left = { λ v. record v { parts = v.parts - 1 } };

    ghost right = { λ v. hand 1 v.all [] [] };
}

/// A pass takes in what another knows.
pub struct Joined;

impl Join<Hand> for Joined {
    ghost both = { joined };

    ghost spent = { spent };
}

/// A pass has no more parts than there are.
pub struct Share;

impl Lesson<Completion, Hand> for Share {
    ghost fact = { λ v _. v.parts ≤ v.all };
}

// For how much a queue has room is picked where a completion is put.
impl Outcome<Completion, Hand> for Brand {
    ghost then = { Puts 0 };
}

impl Lesson<Completion, Hand> for Brand {
    ghost fact = { Moment };
}

/// A completion is taken.
pub struct Take;

impl Outcome<Completion, Hand> for Take {
    ghost then = { Takes };
}

impl Lesson<Completion, Hand> for Take {
    ghost fact = { Moment };
}

//! What the passes of a line know, its rule, and the steps on it. All of it exists in proofs alone.
ghost use Rattle.std.specs.Prelude.{◌≡◌, [], ◌∷◌, ◌++◌};
ghost use Rattle.nio_line.specs.Hands.{new_hand, joined, IsOrdered, Receives, Knows};
ghost use Rattle.nio_line.specs.declared.hand.Part.TheVariants as part;

use crossbeam_channel::protocol::{Join, Lesson, Outcome, Protocol, Split};
use std::collections::LinkedList;
use std::marker::Brand;

/// What a pass of a line may do. The first pass stands for the whole line; it is parted into one that sends and one
/// that receives. At last the one that receives takes in the other, which is spent.
#[derive(Clone, Copy)]
pub enum Part {
    Whole,
    Sends,
    Receives,
    Both,
    Spent,
}

/// What a pass knows: its part, how many messages its line has room for, and what was sent and received with it. No
/// value of it is made.
pub struct Hand<T> {
    pub part: Part,
    pub room: usize,
    pub sent: LinkedList<T>,
    pub received: LinkedList<T>,
}

/// The rule of a line.
pub struct Order;

impl<T> Protocol<T, Hand<T>> for Order {
    ghost holds = { IsOrdered };

    ghost first = { new_hand part.Whole 0 };
}

// For how many messages a line has room is picked where its first pass is parted.
impl<T> Split<Hand<T>> for Brand {
    ghost left = { λ v. new_hand part.Sends 0 };

    ghost right = { λ v. new_hand part.Receives 0 };
}

/// The pass that receives takes in the one that sends.
pub struct Ends;

impl<T> Join<Hand<T>> for Ends {
    ghost both = { joined };

    ghost spent = { new_hand part.Spent 0 };
}

/// A message is sent.
pub struct Sending;

impl<T> Outcome<T, Hand<T>> for Sending {
    ghost then = { λ v x w. w ≡ record v { sent = v.sent ++ x ∷ [] } };
}

impl<T> Lesson<T, Hand<T>> for Sending {
    ghost fact = { λ v items. Unit {0} };
}

/// A message is received.
pub struct Receiving;

impl<T> Outcome<T, Hand<T>> for Receiving {
    ghost then = { Receives };
}

impl<T> Lesson<T, Hand<T>> for Receiving {
    ghost fact = { Knows };
}

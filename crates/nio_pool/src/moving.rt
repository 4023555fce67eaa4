//! Moving completions from a group's core into the queue of its workers.
ghost use Rattle.std.specs.Prelude.{◌≡◌};
ghost use Rattle.nio_pool.specs.Moves.{Moves};
ghost use Rattle.nio_pool.specs.Queues.{IsPassOf};

use crate::queue::{CompletionQueue, QueuePass};
use nio_group::{Completion, GroupCore};
use std::sync::Wait;

/// What moving completions came to.
#[derive(Debug, Drop)]
pub struct Moved {
    /// How many are in the queue now.
    pub count: u64,
    /// One that was taken from the core, and for which the queue had no room: then more may be left in the core.
    pub back: Option<Completion>,
}

impl CompletionQueue {
    /// Takes the completions that are queued in the core, one after the other, and puts each at the back of the queue,
    /// until the core has none or the queue has no room.
    pub fn move_from<R: Wait>(&self, rt: &R, pass: &mut QueuePass, core: &mut GroupCore) -> Moved
        requires { IsPassOf self.now pass.old }
        ensures pass { IsPassOf self.now pass.new }
        ensures moves { Moves core.old core.new pass.old pass.new result }
    {
        let mut moved = Moved {
            count: 0,
            back: None,
        };
        for _ in rt.forever() {
            core.law();
            let Some(done) = core.take() else {
                return moved;
            };
            match self.put(rt, pass, done) {
                Ok(()) => moved.count = moved.count.saturating_add(1),
                Err(back) => {
                    moved.back = Some(back);
                    return moved;
                }
            }
        }
        unreachable!()
    }
}

//! The buffers of connections that have ended.
ghost use Rattle.std.specs.Prelude.{◌≡◌, IfOk};
ghost use Rattle.nio_relay.specs.Flow.{fresh};

use nio_relay::Direction;
use std::alloc::{AllocError, Global};

/// The directions of connections that have ended, which the next ones take again.
#[derive(Drop)]
pub(crate) struct Spare {
    directions: Vec<Direction>,
}

impl Spare {
    pub(crate) fn new(alloc: Global) -> Spare {
        Spare {
            directions: Vec::new(alloc),
        }
    }

    /// A direction that has relayed nothing: one that was given back, or a new one where none is left.
    pub(crate) fn take(&mut self, alloc: Global) -> Result<Direction, AllocError>
        ensures { IfOk result (λ direction. direction ≡ fresh) }
    {
        let Some(mut direction) = self.directions.pop() else {
            return Direction::make(alloc);
        };
        direction.reset();
        Ok(direction)
    }

    /// Keeps a direction for the next connection, if there is memory for that.
    pub(crate) fn give(&mut self, direction: Direction) {
        let _ = self.directions.push(direction);
    }
}

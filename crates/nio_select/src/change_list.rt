//! A list of what a selection that is told does to keys.
ghost use Rattle.std.specs.Prelude.{◌≡◌, IfOk};
ghost use Rattle.nio_select.specs.ChangeLists.{no_changes};

use crate::changes::{KeyChange, Lister};
use std::alloc::{AllocError, Global};
use std::marker::Model;

/// A list of the changes that it took note of, in their order: as many as it has room for. It counts those too for which
/// it has none. Contracts see the changes, the room, and the count.
#[derive(Debug, Drop)]
pub struct ChangeList {
    changes: Vec<KeyChange>,
    count: usize,
}

impl Model for ChangeList {
    ghost use Rattle.std.specs.Vec.{vec_capacity};
    ghost use Rattle.nio_select.specs.ChangeLists.{ListedChanges};

    ghost Value = { ListedChanges };

    ghost view = { λ list. record { changes = list.changes.items; room = vec_capacity list.changes; count = list.count } };
}

impl ChangeList {
    /// An empty list with room for so many changes.
    pub fn with_room(alloc: Global, room: usize) -> Result<ChangeList, AllocError>
        ensures { IfOk result (λ list. list ≡ no_changes room) }
    {
        Ok(ChangeList {
            changes: Vec::with_capacity(alloc, room)?,
            count: 0,
        })
    }

    /// The changes for which it had room.
    pub fn changes(&self) -> &[KeyChange]
        ensures { result.now ≡ self.now.changes }
    {
        self.changes.as_slice()
    }

    /// How many changes it took note of, `usize::MAX` at most.
    pub fn count(&self) -> usize
        ensures { result ≡ self.now.count }
    {
        self.count
    }

    /// Forgets all changes.
    pub fn clear(&mut self)
        ensures { self.new ≡ no_changes self.old.room }
    {
        self.changes.clear();
        self.count = 0;
    }
}

impl Lister for ChangeList {
    ghost use Rattle.nio_select.specs.ChangeLists.{with_change};

    ghost noted = { with_change };

    fn note(&mut self, change: KeyChange) {
        if self.changes.len() < self.changes.capacity() {
            self.changes.push_reserved(change);
        }
        self.count = self.count.saturating_add(1);
    }
}

//! What a selection does to keys as it is told, written for C.
ghost use Rattle.std.specs.Prelude.{◌≡◌};

use crate::values::Changed;
use nio_select::{KeyChange, Lister};

/// C's array, to which changes are written as long as there is room, and how many there were.
#[derive(Drop)]
pub(crate) struct Writing<'a> {
    pub(crate) into: &'a mut [Changed],
    pub(crate) count: usize,
}

impl Lister for Writing<'_> {
    ghost use Rattle.nio_c.specs.Writing.{written};

    ghost noted = { written };

    fn note(&mut self, change: KeyChange) {
        if self.count < self.into.len() {
            self.into[self.count] = Changed::of(change);
        }
        self.count = self.count.saturating_add(1);
    }
}

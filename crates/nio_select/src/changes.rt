//! What a selection that is told does to keys.
ghost use Rattle.std.specs.Prelude.{◌≡◌, ◌<◌, ◌≤◌, ◌^◌, None, is_some, fold, get_or, option_map};
ghost use Rattle.nio_steps.specs.SelectCalls.{one_if};
ghost use Rattle.nio_select.specs.KeyChanges.{marked_of, removed_key};
ghost use Rattle.nio_select.specs.Kept.{entry_kept};

use crate::slot::{Slot, slot_at};
use nio_base::{ChanNo, Ops};
use nio_history::Stage;

/// A key of a selector that a selection there marked or removed as it was told. To mark a key is to add it to the selected
/// set, or operations to its ready set.
#[derive(Clone, Copy, Debug, PartialEq, Eq)]
pub struct KeyChange {
    /// The key's index at its selector.
    pub index: u32,
    /// Its serial: which key of this index it is.
    pub serial: u32,
    /// The number of its channel.
    pub channel: ChanNo,
    /// Its ready set since it was marked; none where it was removed.
    pub ready: Ops,
    /// Whether it was removed.
    pub removed: bool,
}

/// Takes note of what a selection does to keys as it is told.
pub trait Lister {
    ghost use Rattle.nio_select.specs.declared.changes.KeyChange.{KeyChange};

    // What it is once it took note of this.
    ghost noted: { Self → KeyChange → Self };

    /// Takes note of a change.
    fn note(&mut self, change: KeyChange)
        ensures { self.new ≡ noted self.old change };
}

/// A lister that takes no note.
#[derive(Clone, Copy, Debug)]
pub struct Unlisted;

impl Lister for Unlisted {
    ghost noted = { λ unlisted change. unlisted };

    fn note(&mut self, _change: KeyChange) {}
}

// Takes note of a mark of the key that is kept at this place, where it succeeded. Answers how many did.
pub(crate) fn note_mark<L: Lister>(
    lister: &mut L,
    slots: &[Option<Slot>],
    i: usize,
    marked: Option<Ops>,
) -> u32
    requires { i < 2 ^ 32 }
    ensures count { result ≡ one_if (is_some marked) }
    ensures most { result ≤ 1 }
    ensures none { result ≡ 0 → lister.new ≡ lister.old }
    ensures noted { lister.new
        ≡ fold L.noted lister.old (marked_of i (option_map entry_kept (get_or slots.now i None)) marked) }
{
    let Some(ready) = marked else {
        return 0;
    };
    let Some(slot) = slot_at(slots, i) else {
        return 1;
    };
    lister.note(KeyChange {
        index: i as u32,
        serial: slot.serial,
        channel: slot.channel,
        ready,
        removed: false,
    });
    1
}

// The removal of the key of this index that was found so.
pub(crate) fn removal(index: u32, found: Stage) -> KeyChange
    ensures { result ≡ removed_key index found }
{
    KeyChange {
        index,
        serial: found.serial,
        channel: found.chan,
        ready: Ops::NONE,
        removed: true,
    }
}

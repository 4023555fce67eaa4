//! What is kept of a key that a selection asks for.
ghost use Rattle.std.specs.Prelude.{◌≡◌, None, get_or};
ghost use Rattle.nio_select.specs.Kept.{one_if_some};
ghost use Rattle.nio_select.specs.ToldSlots.{wanted as what_is_wanted};

use nio_base::{ChanNo, Ops};

// A key that a selection asks for. Its place says which index it has.
#[derive(Clone, Copy, Debug)]
pub(crate) struct Slot {
    pub(crate) serial: u32,
    pub(crate) channel: ChanNo,
    pub(crate) interest: Ops,
}

// What is kept at this place.
pub(crate) fn slot_at(slots: &[Option<Slot>], i: usize) -> Option<Slot>
    ensures { result ≡ get_or slots.now i None }
{
    if i < slots.len() { slots[i] } else { None }
}

// How many keys are kept there.
pub(crate) fn count_of(slot: Option<Slot>) -> usize
    ensures { result ≡ one_if_some slot }
{
    match slot {
        Some(_) => 1,
        None => 0,
    }
}

// What of these operations the key is interested in.
pub(crate) fn wanted(slot: Option<Slot>, told: Ops) -> Ops
    ensures { result ≡ what_is_wanted slot told }
{
    match slot {
        Some(slot) => told.meet(slot.interest),
        None => Ops::NONE,
    }
}

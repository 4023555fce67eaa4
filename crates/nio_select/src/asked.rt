//! The keys that a selection asks its poller for.
ghost use Rattle.std.specs.Prelude.{◌≡◌, ◌+◌, ◌*◌, ◌<◌, ◌≤◌, ◌==◌, ◌^◌, ◌++◌, [], ◌∷◌, None, Some, IfOk, OnOk, IsTrue, is_some, length, map, option_map, option_to_list};
ghost use Rattle.std.specs.Vec.{vec_capacity};
ghost use Rattle.nio_steps.specs.Lists.{listed_at};
ghost use Rattle.nio_steps.specs.Looking.{enlisted, looked_key, without_index};
ghost use Rattle.nio_select.specs.Asked.{AreBelow, IsRising, key_at, keys_to, renumbered_key};
ghost use Rattle.nio_select.specs.Kept.{entry_kept, kept, renumbered_slot};

use crate::noted::{Noted, lengthen};
use crate::slot::{Slot, count_of, slot_at};
use crate::stamp::Stamp;
use nio_base::{ChanNo, Ops};
use nio_history::Stage;
use nio_steps::LookedKey;
use std::alloc::{AllocError, Global};
use std::marker::Model;

/// Gives each channel another number.
pub trait Renumber {
    ghost use Rattle.nio_base.specs.declared.numbers.ChanNo.{ChanNo};

    // The number that a channel is given.
    ghost renumbered: { Self → ChanNo → ChanNo };

    /// The number that this channel is given.
    fn renumber(&self, chan: ChanNo) -> ChanNo
        ensures { result ≡ renumbered self.now chan };
}

/// The keys that a selection asks its poller for: those that it found valid, or, where it goes by the selector's list,
/// that the list then has. The key of an index stands at its place, so they rise. Contracts see the list of them, the
/// bound below which their indexes are, and what changed in the list.
#[derive(Debug, Drop)]
pub struct Asked {
    pub(crate) slots: Vec<Option<Slot>>,
    pub(crate) noted: Noted,
    pub(crate) count: usize,
    pub(crate) changed: Vec<u32>,
    pub(crate) stamp: Option<Stamp>,
}

impl Model for Asked {
    ghost use Rattle.std.specs.Prelude.{length};
    ghost use Rattle.std.specs.Vec.{vec_capacity};
    ghost use Rattle.nio_select.specs.Asked.{Looked, IsKept};
    ghost use Rattle.nio_select.specs.KeyKept.{keys_from};

    ghost Value = { Looked };

    ghost view = { λ a. record {
      keys = keys_from 0 a.slots.items;
      bound = length a.slots.items;
      changed = a.changed.items;
      room = vec_capacity a.changed;
      stamp = a.stamp;
    } };

    ghost invariant = { λ a. IsKept a.slots.items a.noted a.count };
}

impl Asked {
    // No key, and room for none.
    pub(crate) fn new(alloc: Global) -> Asked
        ensures keys { result.keys ≡ [] }
        ensures stamp { result.stamp ≡ None }
    {
        Asked {
            slots: Vec::new(alloc),
            noted: Noted::new(alloc),
            count: 0,
            changed: Vec::new(alloc),
            stamp: None,
        }
    }

    /// How many keys there are.
    pub fn len(&self) -> usize
        ensures { result ≡ length self.now.keys }
    {
        self.count
    }

    /// Whether there is none.
    pub fn is_empty(&self) -> bool
        ensures { result ≡ (length self.now.keys == 0) }
    {
        self.count == 0
    }

    /// The bound below which the indexes of the keys are.
    pub fn bound(&self) -> u32
        ensures is { result ≡ self.now.bound }
        ensures below { AreBelow result self.now.keys }
        ensures all { keys_to result self.now.keys ≡ self.now.keys }
        ensures rise { IsRising self.now.keys }
    {
        self.slots.len() as u32
    }

    // What is kept of this index.
    fn slot(&self, index: u32) -> Option<Slot>
        ensures is { option_map entry_kept result ≡ listed_at self.now.keys index }
        ensures next { keys_to (index + 1) self.now.keys
            ≡ keys_to index self.now.keys ++ option_to_list (kept index result) }
    {
        slot_at(self.slots.as_slice(), index as usize)
    }

    /// The key with this index.
    pub fn key(&self, index: u32) -> Option<LookedKey>
        ensures is { result ≡ key_at index self.now.keys }
        ensures next { keys_to (index + 1) self.now.keys ≡ keys_to index self.now.keys ++ option_to_list result }
    {
        key_kept(index, self.slot(index))
    }

    /// Where the selection goes by the selector's list: the indexes whose bits its beginning took, in rising order.
    /// Outside them the keys are those that the list had before.
    pub fn changed(&self) -> &[u32]
        ensures { result.now ≡ self.now.changed }
    {
        self.changed.as_slice()
    }

    /// Which beginning made the list, where the selection goes by the selector's list. Who saw the list with this stamp
    /// has seen the same keys, and who saw the one with the number before need look only at what changed: of lists of
    /// one table, which are numbered alike.
    pub fn stamp(&self) -> Option<Stamp>
        ensures { result ≡ self.now.stamp }
    {
        self.stamp
    }

    /// The same list, in which each channel has the number that it is given.
    pub fn renumbered<B: Renumber>(&self, alloc: Global, by: &B) -> Result<Asked, AllocError>
        ensures keys { IfOk result (λ asked. asked.keys ≡ map (renumbered_key (B.renumbered by.now)) self.now.keys) }
        ensures bound { IfOk result (λ asked. asked.bound ≡ self.now.bound) }
        ensures changed { IfOk result (λ asked. asked.changed ≡ self.now.changed) }
        ensures stamp { IfOk result (λ asked. asked.stamp ≡ self.now.stamp) }
    {
        let mut slots = Vec::with_capacity(alloc, self.slots.len())?;
        for slot in &self.slots {
            slots.push(renumber_slot(slot, by))?;
        }
        Ok(Asked {
            slots,
            noted: self.noted.copied(alloc)?,
            count: self.count,
            changed: Vec::from_slice(alloc, self.changed.as_slice())?,
            stamp: self.stamp,
        })
    }

    // Makes room for the keys of so many words of 64 indexes, and for as many changes where the list has a stamp. There
    // is no change yet, and the keys stay.
    pub(crate) fn make_room(&mut self, words: u32) -> Result<(), AllocError>
        requires { words ≤ 2 ^ 25 }
        ensures keys { self.new.keys ≡ self.old.keys }
        ensures stamp { self.new.stamp ≡ self.old.stamp }
        ensures changed { self.new.changed ≡ [] }
        ensures bound { OnOk result (64 * words ≤ self.new.bound) }
        ensures room { OnOk result (IsTrue (is_some self.old.stamp) → 64 * words ≤ self.new.room) }
    {
        self.changed.clear();
        reserve_changes(&mut self.changed, self.stamp, 64 * words as usize)?;
        self.noted.make_room(words as usize)?;
        lengthen(&mut self.slots, 64 * words as usize, None)
    }

    // The key of this index is one that was found so.
    pub(crate) fn put(&mut self, i: u32, stage: Stage, interest: Ops)
        requires { i < self.old.bound }
        ensures { self.new ≡ record self.old { keys = enlisted (looked_key i stage interest) (without_index i self.old.keys) } }
    {
        let was = self.slots[i as usize];
        let more = self.count + 1;
        self.count = more - count_of(was);
        self.slots[i as usize] = Some(Slot {
            serial: stage.serial,
            channel: stage.chan,
            interest,
        });
    }

    // No key has this index.
    pub(crate) fn take_out(&mut self, i: u32)
        requires { i < self.old.bound }
        ensures { self.new ≡ record self.old { keys = without_index i self.old.keys } }
    {
        let was = self.slots[i as usize];
        self.count -= count_of(was);
        self.slots[i as usize] = None;
    }

    // A beginning with the selector's list makes it, with this stamp.
    pub(crate) fn set_stamp(&mut self, stamp: Stamp)
        ensures { self.new ≡ record self.old { stamp = Some stamp } }
    {
        self.stamp = Some(stamp);
    }

    // The bit of this index was taken.
    pub(crate) fn note_changed(&mut self, i: u32)
        requires { length self.old.changed < self.old.room }
        ensures { self.new ≡ record self.old { changed = self.old.changed ++ i ∷ [] } }
    {
        self.changed.push_reserved(i);
    }
}

// Makes room for so many changes, where the list has a stamp.
fn reserve_changes(changed: &mut Vec<u32>, stamp: Option<Stamp>, n: usize) -> Result<(), AllocError>
    ensures items { changed.new.items ≡ changed.old.items }
    ensures room { OnOk result (IsTrue (is_some stamp) → n ≤ vec_capacity changed.new) }
{
    if stamp.is_none() {
        return Ok(());
    }
    changed.reserve(n)
}

// The key of this index that is kept so.
fn key_kept(index: u32, slot: Option<Slot>) -> Option<LookedKey>
    ensures { result ≡ kept index slot }
{
    match slot {
        Some(slot) => Some(LookedKey {
            index,
            serial: slot.serial,
            channel: slot.channel,
            interest: slot.interest,
        }),
        None => None,
    }
}

// The slot, whose channel has the number that it is given.
fn renumber_slot<B: Renumber>(slot: &Option<Slot>, by: &B) -> Option<Slot>
    ensures { result ≡ renumbered_slot (B.renumbered by.now) slot.now }
{
    match *slot {
        Some(slot) => Some(Slot {
            channel: by.renumber(slot.channel),
            ..slot
        }),
        None => None,
    }
}

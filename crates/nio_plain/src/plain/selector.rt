//! A selector of the plain system, with its keys and the selection in progress.
ghost use Rattle.std.specs.Prelude.{◌≡◌, ◌<◌, ◌≤◌, ◌^◌, IfSome, vec_len};
ghost use Rattle.std.specs.List.{All, AllPairs};
ghost use Rattle.std.proofs.Props.{props};

use super::looking::valid_keys;
use super::marking::marked;
use crate::rules::Rules;
use nio_base::{CallerNo, ChanNo, KeyId, Ops};
use nio_history::{GateWord, Mark, Mode};
use nio_language::Pairs;
use std::alloc::{AllocError, Global};
use std::collections::BTreeMap;

/// The latest key of an index.
#[derive(Clone, Copy, Debug)]
pub(super) struct Key {
    pub(super) chan: ChanNo,
    pub(super) serial: u32,
    pub(super) cancelled: bool,
    pub(super) removed: bool,
    /// Whether a selection removed the key by the rules of now: its index is free then, unless the
    /// serial is the last.
    pub(super) released: bool,
    pub(super) interest: Ops,
    pub(super) mark: Mark,
    /// The attachment, 0 for none.
    pub(super) note: u64,
}

impl Key {
    ghost use Rattle.nio_plain.specs.PlainState.{is_listed, key_row, new_key_row, removed_row, swept_key};
    ghost use Rattle.std.specs.Prelude.{◌&&◌, false, if◌then◌else◌, true};
    ghost use Rattle.nio_history.specs.Sets.{fits, is_in_key_set, is_valid, is_valid_key};
    ghost use Rattle.nio_plain.specs.Seq.Selections.{marked};

    /// A key as it is registered: valid and not selected.
    pub(super) fn new(chan: ChanNo, serial: u32, interest: Ops, note: u64) -> Key
        ensures { key_row result ≡ new_key_row chan.0 serial interest note }
    {
        Key {
            chan,
            serial,
            cancelled: false,
            removed: false,
            released: false,
            interest,
            mark: Mark {
                selected: false,
                ready: Ops::NONE,
            },
            note,
        }
    }

    /// The key's name, by its index.
    pub(super) fn id(&self, index: u32) -> KeyId
        ensures { result ≡ record { index = index; serial = (key_row self.now).stage.serial } }
    {
        KeyId {
            index,
            serial: self.serial,
        }
    }

    /// Whether the serial is this key's, and not that of an earlier key of the index.
    pub(super) fn fits(&self, serial: u32) -> bool
        ensures { result ≡ fits (key_row self.now).stage serial }
    {
        self.serial == serial
    }

    pub(super) fn is_valid(&self) -> bool
        ensures { result ≡ is_valid (key_row self.now).stage }
    {
        !self.removed && !self.cancelled
    }

    /// Whether the key with this serial is in the key set.
    pub(super) fn is_in_key_set(&self, serial: u32) -> bool
        ensures { result ≡ is_in_key_set (key_row self.now).stage serial }
    {
        self.serial == serial && !self.removed
    }

    /// Whether the key with this serial is valid.
    pub(super) fn is_valid_key(&self, serial: u32) -> bool
        ensures { result ≡ is_valid_key (key_row self.now).stage serial }
    {
        self.serial == serial && self.is_valid()
    }

    /// Whether the key with this serial is in the selected set.
    pub(super) fn is_selected_key(&self, serial: u32) -> bool
        ensures { result ≡ (fits (key_row self.now).stage serial && is_listed (key_row self.now) true) }
    {
        self.serial == serial && self.is_listed(true)
    }

    /// Whether the index is free: a new key can get it.
    fn is_free(&self) -> bool
        ensures { result ≡ (key_row self.now).free }
    {
        self.released && self.serial < u32::MAX
    }

    /// Whether the key isn't removed, and is selected where only such are asked for.
    pub(super) fn is_listed(&self, selected: bool) -> bool
        ensures { result ≡ is_listed (key_row self.now) selected }
    {
        !self.removed && (!selected || self.mark.selected)
    }

    /// Removes the key from every set, where it is cancelled. Its index becomes free then, as the
    /// rules say.
    fn sweep(&mut self, rules: Rules)
        ensures { key_row self.new ≡ swept_key rules (key_row self.old) }
    {
        if !self.removed && self.cancelled {
            self.remove();
            if matches!(rules, Rules::Now) {
                self.released = true;
            }
        }
    }

    /// The same of the key with this serial alone.
    fn remove_if_cancelled(&mut self, serial: u32, rules: Rules)
        ensures { key_row self.new ≡ (if fits (key_row self.old).stage serial then swept_key rules (key_row self.old)
            else key_row self.old) }
    {
        if self.fits(serial) {
            self.sweep(rules);
        }
    }

    /// Marks the key with this serial with the bits that were told of it.
    fn mark_key(&mut self, serial: u32, bits: Ops)
        ensures { key_row self.new ≡ (if fits (key_row self.old).stage serial then record (key_row self.old)
            { mark = marked (key_row self.old).mark bits } else key_row self.old) }
    {
        if self.fits(serial) {
            self.mark = marked(self.mark, bits);
        }
    }

    /// Removes the key from every set.
    fn remove(&mut self)
        ensures { key_row self.new ≡ removed_row (λ _. false) (key_row self.old) }
    {
        self.removed = true;
        self.cancelled = false;
        self.mark.selected = false;
    }
}

/// A selection in progress: its caller, which has the selector's turn, how long it waits, the
/// number of indexes when it began, and the keys that it looked at with the interest of each.
#[derive(Drop)]
pub(super) struct Selecting {
    pub(super) caller: CallerNo,
    pub(super) mode: Mode,
    pub(super) bound: u32,
    pub(super) looked: Vec<(KeyId, Ops)>,
    ghost rising: { AllPairs (λ p q. p.0.index < q.0.index) looked.items },
    ghost below_bound: { All (λ p. p.0.index < bound) looked.items },
    ghost few: { vec_len looked ≤ bound },
}

/// A closing that has begun: the caller that closes, and whether it has finished.
#[derive(Clone, Copy, Debug)]
pub(super) struct Closing {
    pub(super) closer: CallerNo,
    pub(super) finished: bool,
}

/// A selector that was opened.
#[derive(Drop)]
pub(super) struct Selector {
    pub(super) woken: bool,
    pub(super) closing: Option<Closing>,
    pub(super) selecting: Option<Selecting>,
    /// The latest key of each index.
    pub(super) keys: Vec<Key>,
    /// The latest key of each channel, by the channel's number.
    pub(super) enrolled: BTreeMap<u32, KeyId>,
    ghost few_keys: { vec_len keys < 2 ^ 32 },
    ghost bound_within: { IfSome selecting (λ x. x.bound ≤ vec_len keys) } by { Prim.hlevel props },
}

impl Selector {
    ghost use Rattle.std.specs.Prelude.{◌+◌, IfOk, OnOk, OnErr, is_some, length, slice_index};
    ghost use Rattle.nio_plain.specs.PlainState.{emptied, free_in, key_in, key_row, looked_below, marked_keys};
    ghost use Rattle.nio_plain.specs.PlainState.{new_selector, next_in, selector_row, swept, swept_looked};
    ghost use Rattle.nio_plain.specs.PlainState.{with_cancelled_key, with_closing_ended, with_key_added, with_key_at};
    ghost use Rattle.nio_plain.specs.PlainState.{with_selection_begun, with_selection_ended};

    pub(super) fn new(alloc: Global) -> Selector
        ensures { selector_row result ≡ new_selector }
    {
        Selector {
            woken: false,
            closing: None,
            selecting: None,
            keys: Vec::new(alloc),
            enrolled: BTreeMap::new(alloc),
        }
    }

    pub(super) fn is_shut(&self) -> bool
        ensures { result ≡ is_some self.now.closing }
    {
        self.closing.is_some()
    }

    /// The channel's key, where it is in the key set.
    pub(super) fn key_of(&self, chan: ChanNo) -> Option<KeyId>
        ensures key { result ≡ key_in (selector_row self.now) chan.0 }
        ensures made { IfSome result (λ id. id.index < vec_len self.now.keys) }
    {
        let id = self.enrolled.get(&chan.0).copied()?;
        match self.keys.get(id.index as usize) {
            Some(key) if key.is_in_key_set(id.serial) => Some(id),
            _ => None,
        }
    }

    /// Puts a key in the place of one.
    pub(super) fn put_key(&mut self, index: u32, key: Key)
        requires { index < vec_len self.old.keys }
        ensures { selector_row self.new ≡ with_key_at (selector_row self.old) index (key_row key) }
    {
        self.keys[index as usize] = key;
    }

    /// Cancels the channel's key, where it isn't removed.
    pub(super) fn cancel_key_of(&mut self, chan: ChanNo)
        ensures { selector_row self.new ≡ with_cancelled_key (selector_row self.old) chan.0 }
    {
        if let Some(id) = self.key_of(chan) {
            self.keys[id.index as usize].cancelled = true;
        }
    }

    /// Removes every key.
    fn remove_keys(&mut self)
        ensures { selector_row self.new ≡ record (selector_row self.old)
            { keys = emptied (selector_row self.old).keys } }
    {
        for index in 0..self.keys.len() {
            self.keys[index].remove();
        }
    }

    /// Ends the closing: every key is removed.
    pub(super) fn finish_closing(&mut self, closer: CallerNo)
        ensures { selector_row self.new ≡ with_closing_ended (selector_row self.old) closer }
    {
        self.remove_keys();
        self.closing = Some(Closing {
            closer,
            finished: true,
        });
    }

    /// The least free index.
    fn free_index(&self) -> Option<u32>
        ensures least { result ≡ free_in (selector_row self.now) }
        ensures there { IfSome result (λ index. index < vec_len self.now.keys) }
    {
        for (index, key) in self.keys.iter().enumerate() {
            if key.is_free() {
                return Some(index as u32);
            }
        }
        None
    }

    /// The key that the selector gives next: the least free index with the next serial, and else the
    /// next index, below the limit.
    pub(super) fn next_key(&self, limit: u32) -> Option<KeyId>
        ensures next { result ≡ next_in limit (selector_row self.now) }
        ensures there { IfSome result (λ id. id.index ≤ vec_len self.now.keys) }
        ensures below { IfSome result (λ id. id.index + 1 < 2 ^ 32) }
    {
        if let Some(index) = self.free_index() {
            let serial = self.keys[index as usize].serial + 1;
            return Some(KeyId { index, serial });
        }
        let index = self.keys.len() as u32;
        if index < limit {
            Some(KeyId { index, serial: 0 })
        } else {
            None
        }
    }

    /// Adds a key with this name, and enrols it for its channel.
    pub(super) fn add_key(&mut self, id: KeyId, key: Key) -> Result<(), AllocError>
        requires there { id.index ≤ vec_len self.old.keys }
        requires below { id.index + 1 < 2 ^ 32 }
        ensures ok { OnOk result (selector_row self.new ≡ with_key_added (selector_row self.old) key.chan.0 id
            (key_row key)) }
        ensures memory { OnErr result (selector_row self.new ≡ selector_row self.old) }
    {
        let index = id.index as usize;
        if index < self.keys.len() {
            self.enrolled.insert(key.chan.0, id)?;
            self.keys[index] = key;
        } else {
            self.keys.reserve(1)?;
            self.enrolled.insert(key.chan.0, id)?;
            self.keys.push(key)?;
        }
        Ok(())
    }

    /// Removes each cancelled key.
    fn sweep(&mut self, rules: Rules)
        ensures { selector_row self.new ≡ record (selector_row self.old)
            { keys = swept rules (selector_row self.old).keys } }
    {
        for index in 0..self.keys.len() {
            self.keys[index].sweep(rules);
        }
    }

    /// Removes each looked key that is cancelled.
    fn sweep_looked(&mut self, rules: Rules, looked: &[(KeyId, Ops)])
        requires rising { AllPairs (λ p q. p.0.index < q.0.index) looked.now }
        requires in_keys { All (λ p. p.0.index < vec_len self.old.keys) looked.now }
        ensures { selector_row self.new ≡ record (selector_row self.old)
            { keys = swept_looked rules (selector_row self.old).keys looked.now } }
    {
        for &(id, _) in looked {
            self.keys[id.index as usize].remove_if_cancelled(id.serial, rules);
        }
    }

    /// Begins a selection, and answers the keys that it looks at. Takes its memory first.
    pub(super) fn begin(
        &mut self,
        alloc: Global,
        rules: Rules,
        caller: CallerNo,
        mode: Mode,
    ) -> Result<Pairs, AllocError>
        ensures looked { IfOk result (λ pairs. pairs ≡ looked_below (selector_row self.old).keys
            (selector_row self.old).keys_high) }
        ensures left { OnOk result (selector_row self.new ≡ with_selection_begun rules (selector_row self.old)
            caller mode) }
        ensures memory { OnErr result (selector_row self.new ≡ selector_row self.old) }
    {
        let looked = valid_keys(alloc, &self.keys)?;
        let answer = Vec::from_slice(alloc, &looked)?;
        let bound = self.keys.len() as u32;
        self.sweep(rules);
        self.selecting = Some(Selecting {
            caller,
            mode,
            bound,
            looked,
        });
        Ok(Pairs::from_vec(answer))
    }

    pub(super) fn gate(&self) -> GateWord
        ensures { result ≡ (selector_row self.now).gate }
    {
        GateWord {
            woken: self.woken,
            shut: self.is_shut(),
        }
    }

    /// Marks each looked key with what was told of its interest.
    fn mark(&mut self, looked: &[(KeyId, Ops)], told: &[Ops])
        requires rising { AllPairs (λ p q. p.0.index < q.0.index) looked.now }
        requires in_told { All (λ p. p.0.index < length told.now) looked.now }
        requires in_keys { length told.now ≤ vec_len self.old.keys }
        ensures row { selector_row self.new ≡ record (selector_row self.old)
            { keys = marked_keys (selector_row self.old).keys looked.now (slice_index told.now) } }
        ensures long { vec_len self.new.keys ≡ vec_len self.old.keys }
    {
        for &(id, interest) in looked {
            let bits = told[id.index as usize].meet(interest);
            self.keys[id.index as usize].mark_key(id.serial, bits);
        }
    }

    /// Ends the selection in progress: its keys are marked, the cancelled keys are removed, by the first rules those
    /// alone that it looked at, and the wakeup is used up.
    pub(super) fn end_selection(&mut self, rules: Rules, told: &[Ops])
        requires { IfSome self.old.selecting (λ x. length told.now ≡ x.bound) }
        ensures { IfSome self.old.selecting
            (λ x. selector_row self.new ≡ with_selection_ended rules (selector_row self.old) x.looked.items
            (slice_index told.now)) }
    {
        if let Some(selecting) = self.selecting.take() {
            self.mark(&selecting.looked, told);
            match rules {
                Rules::First => self.sweep_looked(rules, &selecting.looked),
                Rules::Now => self.sweep(rules),
            }
            self.woken = false;
        }
    }
}

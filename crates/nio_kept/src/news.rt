//! What the system told of each channel, and which keys of a list are ready by it.
//!
//! Where a selection goes by its selector's list, a poll looks only at the keys that changed since the list that was seen
//! last, and at those that may be ready. Else it looks at all keys.
ghost use Rattle.std.specs.Prelude.{◌≡◌, ℕ, ◌+◌, ◌-◌, ◌≤◌, ◌==◌, ◌||◌, ◌++◌, not, All, None, IsTrue, IsFalse, IsSome, IfNone, IfOk, OnOk};
ghost use Rattle.std.specs.Prelude.{if◌then◌else◌, bit_and, bit_or, length, option_to_list, slice_get, slice_index, slice_set};
ghost use Rattle.std.specs.List.{filter};
ghost use Rattle.std.specs.List.Sorted.{IsStrictlyIncreasing};
ghost use Rattle.nio_select.specs.Asked.{Looked, has_changed, key_at, keys_to};
ghost use Rattle.nio_kept.specs.Looks.{AreListed, KnowsAt, looked_at};
ghost use Rattle.nio_kept.specs.News.{is_ready as is_ready_by, is_same as are_same, is_next as are_next};
ghost use Rattle.nio_kept.specs.News.{AreApart, AreFound, AreNoted, Continues, Follows, Knows, Remembers, StillKnows, ready_keys};

use nio_base::{ChanNo, Ops};
use nio_select::{Asked, LookedKey, Stamp};
use std::alloc::{AllocError, Global};
use std::marker::Model;

/// What is kept of each channel, by its number: the bit of an operation, from an event until a call finds the channel
/// not ready for it. Of a channel without a place nothing is kept.
#[derive(Drop)]
pub struct News {
    kept: Vec<Ops>,
    // For each channel, the index of its key in the list where it was seen last.
    keys: Vec<u32>,
    // The indexes of the keys that may be ready.
    candidates: Vec<u32>,
    // The stamp of the list that was seen last, where nothing of it was lost.
    seen: Option<Stamp>,
}

impl Model for News {
    ghost use Rattle.std.specs.Prelude.{◌≤◌, length};
    ghost use Rattle.nio_kept.specs.News.{Heard};

    ghost Value = { Heard };

    ghost view = { λ n. record {
      kept = n.kept.items;
      keys = n.keys.items;
      candidates = n.candidates.items;
      seen = n.seen;
    } };

    ghost invariant = { λ n. length n.kept.items ≤ length n.keys.items };
}

impl News {
    /// Nothing is kept.
    pub fn make(alloc: Global, places: usize) -> Result<News, AllocError>
        ensures places { IfOk result (λ news. length news.kept ≡ places) }
        ensures nothing { IfOk result (λ news. All (λ bits. bits ≡ 0) news.kept) }
        ensures unseen { IfOk result (λ news. news.seen ≡ None) }
    {
        Ok(News {
            kept: vec![in alloc; Ops::NONE; places]?,
            keys: vec![in alloc; 0_u32; places]?,
            candidates: Vec::new(alloc),
            seen: None,
        })
    }

    /// Makes places for the channels below this number. There are never fewer than before.
    pub fn grow(&mut self, places: usize) -> Result<(), AllocError>
        ensures same { (c : ℕ) → slice_index self.new.kept c ≡ slice_index self.old.kept c }
        ensures room { OnOk result (places ≤ length self.new.kept) }
        ensures never_fewer { length self.old.kept ≤ length self.new.kept }
        ensures known { StillKnows self.old self.new }
    {
        if places <= self.kept.len() {
            return Ok(());
        }
        // Of the new channels no index is noted.
        self.seen = None;
        self.keys.resize(places, 0)?;
        self.kept.resize(places, Ops::NONE)
    }

    /// What is kept of the channel.
    pub fn of(&self, chan: ChanNo) -> Ops
        ensures { result ≡ slice_index self.now.kept chan.0 }
    {
        bits_of(self.kept.as_slice(), chan)
    }

    /// Whether a key may be ready. After a look at the list and what was heard since, one is.
    pub fn has_candidates(&self) -> bool
        ensures { result ≡ not (length self.now.candidates == 0) }
    {
        !self.candidates.is_empty()
    }

    /// Keeps these operations too, and takes the channel's key for one that may be ready.
    pub fn add(&mut self, chan: ChanNo, ops: Ops)
        ensures kept { self.new.kept
            ≡ slice_set self.old.kept chan.0 (bit_or (slice_index self.old.kept chan.0) ops) }
        ensures known { StillKnows self.old self.new }
    {
        self.keep(chan, ops);
        let Some(index) = self.noted_of(chan) else {
            return;
        };
        match self.candidates.push(index) {
            Ok(()) => {}
            Err(_full) => self.seen = None,
        }
    }

    /// Keeps none but these operations.
    pub fn keep_only(&mut self, chan: ChanNo, ops: Ops)
        ensures kept { self.new ≡ record self.old {
          kept = slice_set self.old.kept chan.0 (bit_and (slice_index self.old.kept chan.0) ops);
        } }
        ensures known { StillKnows self.old self.new }
    {
        let bits = self.of(chan).meet(ops);
        self.put(chan, bits);
    }

    /// Keeps the operation no longer.
    pub fn clear(&mut self, chan: ChanNo, op: Ops)
        ensures kept { self.new ≡ record self.old {
          kept = slice_set self.old.kept chan.0 (bit_and (slice_index self.old.kept chan.0) (255 - op));
        } }
        ensures known { StillKnows self.old self.new }
    {
        self.keep_only(chan, Ops::of(!op.bits()));
    }

    fn keep(&mut self, chan: ChanNo, ops: Ops)
        ensures { self.new ≡ record self.old {
          kept = slice_set self.old.kept chan.0 (bit_or (slice_index self.old.kept chan.0) ops);
        } }
    {
        let bits = self.of(chan).union(ops);
        self.put(chan, bits);
    }

    fn put(&mut self, chan: ChanNo, bits: Ops)
        ensures { self.new ≡ record self.old { kept = slice_set self.old.kept chan.0 bits } }
    {
        if let Some(place) = self.kept.get_mut(chan.0 as usize) {
            *place = bits;
        }
    }

    // The index that is noted for the channel; None where it has no place.
    fn noted_of(&self, chan: ChanNo) -> Option<u32>
        ensures noted { result ≡ slice_get self.now.keys chan.0 }
        ensures unplaced { IfNone result (length self.now.kept ≤ chan.0) }
    {
        self.keys.get(chan.0 as usize).copied()
    }

    /// Begins a poll: looks at the keys that may be ready, and at those that changed since the list that was seen last,
    /// or at all, where this list doesn't follow on that one. The candidates are then keys that are ready.
    pub fn look(&mut self, asked: &Asked) -> Result<(), AllocError>
        ensures kept { self.new.kept ≡ self.old.kept }
        ensures ready { OnOk result (All (λ i. IsTrue (is_ready_by self.new.kept (key_at i asked.now.keys)))
            self.new.candidates) }
        ensures knows { OnOk result (Continues self.old asked.now → Knows self.new asked.now.keys) }
        ensures seen { OnOk result (self.new.seen ≡ asked.now.stamp) }
        ensures remembers { Continues self.old asked.now → Remembers self.new asked.now }
    {
        let seen = self.seen;
        self.seen = None;
        self.look_after(asked, seen)?;
        self.seen = asked.stamp();
        Ok(())
    }

    // The same, where this is the stamp of the list that was seen last.
    fn look_after(&mut self, asked: &Asked, seen: Option<Stamp>) -> Result<(), AllocError>
        ensures kept { self.new.kept ≡ self.old.kept }
        ensures seen { self.new.seen ≡ self.old.seen }
        ensures ready { OnOk result (All (λ i. IsTrue (is_ready_by self.new.kept (key_at i asked.now.keys)))
            self.new.candidates) }
        ensures knows { OnOk result ((before : Looked) → Follows before asked.now
            → (IsTrue (are_same seen asked.now.stamp || are_next seen asked.now.stamp)
            → IsSome seen → (seen ≡ before.stamp) × Knows self.old before.keys)
            → AreApart asked.now.keys → Knows self.new asked.now.keys) }
    {
        if is_same(seen, asked.stamp()) {
            self.leave_ready(asked);
            return Ok(());
        }
        if is_next(seen, asked.stamp()) {
            self.leave_ready(asked);
            return self.look_at_changed(asked);
        }
        self.look_over_all(asked)
    }

    // Of the candidates only those stay that are ready.
    fn leave_ready(&mut self, asked: &Asked)
        ensures { self.new ≡ record self.old {
          candidates = filter (λ i. is_ready_by self.old.kept (key_at i asked.now.keys)) self.old.candidates;
        } }
    {
        let kept = self.kept.as_slice();
        self.candidates
            .retain(|index| has_ready(kept, asked, *index));
    }

    fn look_at_changed(&mut self, asked: &Asked) -> Result<(), AllocError>
        requires { All (λ i. IsTrue (is_ready_by self.old.kept (key_at i asked.now.keys))) self.old.candidates }
        ensures kept { self.new.kept ≡ self.old.kept }
        ensures seen { self.new.seen ≡ self.old.seen }
        ensures ready { OnOk result (All (λ i. IsTrue (is_ready_by self.new.kept (key_at i asked.now.keys)))
            self.new.candidates) }
        ensures knows { OnOk result (AreApart asked.now.keys
            → KnowsAt (λ i. IsFalse (has_changed asked.now.changed i)) self.old asked.now.keys
            → Knows self.new asked.now.keys) }
    {
        for &index in asked.changed() {
            self.look_at(asked, index)?;
        }
        Ok(())
    }

    fn look_over_all(&mut self, asked: &Asked) -> Result<(), AllocError>
        ensures kept { self.new.kept ≡ self.old.kept }
        ensures seen { self.new.seen ≡ self.old.seen }
        ensures ready { OnOk result (All (λ i. IsTrue (is_ready_by self.new.kept (key_at i asked.now.keys)))
            self.new.candidates) }
        ensures knows { OnOk result (AreApart asked.now.keys → Knows self.new asked.now.keys) }
    {
        self.candidates.clear();
        for index in 0..asked.bound() {
            self.look_at(asked, index)?;
        }
        Ok(())
    }

    // Notes the index of the key there, and takes it for a candidate where it is ready.
    fn look_at(&mut self, asked: &Asked, index: u32) -> Result<(), AllocError>
        ensures kept { self.new.kept ≡ self.old.kept }
        ensures seen { self.new.seen ≡ self.old.seen }
        ensures looked { OnOk result (self.new ≡ looked_at self.old index (key_at index asked.now.keys)) }
        ensures alone { keys_to (index + 1) asked.now.keys
            ≡ keys_to index asked.now.keys ++ option_to_list (key_at index asked.now.keys) }
    {
        let Some(key) = asked.key(index) else {
            return Ok(());
        };
        self.note(key.channel, index);
        if is_ready(self.kept.as_slice(), &key) {
            self.candidates.push(index)?;
        }
        Ok(())
    }

    fn note(&mut self, chan: ChanNo, index: u32)
        ensures { self.new ≡ record self.old { keys = slice_set self.old.keys chan.0 index } }
    {
        if let Some(noted) = self.keys.get_mut(chan.0 as usize) {
            *noted = index;
        }
    }

    /// In a poll, keeps what the system tells of a channel too, and takes its key for a candidate where that is ready
    /// then. False where there was no memory for it.
    pub fn hear(&mut self, asked: &Asked, chan: ChanNo, ops: Ops) -> bool
        ensures kept { self.new.kept
            ≡ slice_set self.old.kept chan.0 (bit_or (slice_index self.old.kept chan.0) ops) }
        ensures knows { IsTrue result → Knows self.old asked.now.keys → Knows self.new asked.now.keys }
        ensures remembers { Remembers self.old asked.now → Remembers self.new asked.now }
    {
        self.keep(chan, ops);
        let is_heard = self.list(asked, chan);
        if !is_heard {
            self.seen = None;
        }
        is_heard
    }

    // Takes the key of the channel for a candidate, where it is ready. Says whether there was memory for it.
    fn list(&mut self, asked: &Asked, chan: ChanNo) -> bool
        ensures same { self.new ≡ record self.old { candidates = self.new.candidates } }
        ensures listed { IsTrue result → AreNoted self.old asked.now.keys
            → AreListed self.old.kept asked.now.keys chan.0 self.old.candidates self.new.candidates }
    {
        let Some(index) = self.noted_of(chan) else {
            return true;
        };
        if has_ready(self.kept.as_slice(), asked, index) {
            self.candidates.push(index).is_ok()
        } else {
            true
        }
    }

    /// The keys that are ready, in the order of the list, each with what for.
    pub fn tell(&mut self, alloc: Global, asked: &Asked) -> Result<Vec<(u32, Ops)>, AllocError>
        ensures told { IfOk result (λ pairs. AreFound self.old.kept asked.now.keys self.old.candidates
            → pairs.items ≡ ready_keys self.old.kept asked.now.keys) }
        ensures same { self.new ≡ record self.old { candidates = self.new.candidates } }
        ensures known { StillKnows self.old self.new }
    {
        self.candidates.sort_unstable();
        self.candidates.dedup();
        self.tell_candidates(alloc, asked)
    }

    fn tell_candidates(&self, alloc: Global, asked: &Asked) -> Result<Vec<(u32, Ops)>, AllocError>
        requires { IsStrictlyIncreasing self.now.candidates }
        ensures { IfOk result (λ pairs. AreFound self.now.kept asked.now.keys self.now.candidates
            → pairs.items ≡ ready_keys self.now.kept asked.now.keys) }
    {
        let mut pairs = Vec::with_capacity(alloc, self.candidates.len())?;
        for &index in &self.candidates {
            self.tell_at(asked, index, &mut pairs)?;
        }
        Ok(pairs)
    }

    // What is kept of the channel of the key with this index, as far as the key is interested in it.
    fn tell_at(
        &self,
        asked: &Asked,
        index: u32,
        pairs: &mut Vec<(u32, Ops)>,
    ) -> Result<(), AllocError>
        ensures told { OnOk result (pairs.new.items ≡ pairs.old.items
            ++ ready_keys self.now.kept (option_to_list (key_at index asked.now.keys))) }
        ensures alone { keys_to (index + 1) asked.now.keys
            ≡ keys_to index asked.now.keys ++ option_to_list (key_at index asked.now.keys) }
    {
        let Some(key) = asked.key(index) else {
            return Ok(());
        };
        let bits = self.of(key.channel).meet(key.interest);
        if bits != Ops::NONE {
            pairs.push((index, bits))?;
        }
        Ok(())
    }
}

// What is kept of the channel.
fn bits_of(kept: &[Ops], chan: ChanNo) -> Ops
    ensures { result ≡ slice_index kept.now chan.0 }
{
    match kept.get(chan.0 as usize) {
        Some(bits) => *bits,
        None => Ops::NONE,
    }
}

// Whether the key is ready for something.
fn is_ready(kept: &[Ops], key: &LookedKey) -> bool
    ensures { result ≡ is_ready_by kept.now (Some key.now) }
{
    bits_of(kept, key.channel).meet(key.interest) != Ops::NONE
}

// Whether there is a key with this index, and it is ready for something.
fn has_ready(kept: &[Ops], asked: &Asked, index: u32) -> bool
    ensures is { result ≡ is_ready_by kept.now (key_at index asked.now.keys) }
    ensures alone { keys_to (index + 1) asked.now.keys
        ≡ keys_to index asked.now.keys ++ option_to_list (key_at index asked.now.keys) }
{
    match asked.key(index) {
        Some(key) => is_ready(kept, &key),
        None => false,
    }
}

// Whether one beginning made both lists.
fn is_same(before: Option<Stamp>, now: Option<Stamp>) -> bool
    ensures { result ≡ are_same before now }
{
    match (before, now) {
        (Some(before), Some(now)) => before == now,
        (Some(_) | None, Some(_) | None) => false,
    }
}

// Whether the selector's next beginning made the second list.
fn is_next(before: Option<Stamp>, now: Option<Stamp>) -> bool
    ensures { result ≡ are_next before now }
{
    match (before, now) {
        (Some(before), Some(now)) => {
            before.selector == now.selector && before.number.wrapping_add(1) == now.number
        }
        (Some(_) | None, Some(_) | None) => false,
    }
}

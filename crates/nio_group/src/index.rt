//! Where in the slab each operation in flight is: an open table from operation numbers to keys that
//! takes all its memory when it is made.
ghost use Rattle.std.specs.Prelude.{◌≡◌, ℕ, ◌+◌, ◌<◌, ◌≤◌, ◌*◌, IfOk, IfNone, IfSome, Some, None, false, true, is_some};
ghost use Rattle.std.specs.Prelude.{count_by, slice_index_or, length};
ghost use Rattle.nio_group.specs.Index.{key_of, entries, ChangesKey, has_number, home_of};

use std::alloc::{AllocError, Global};
use std::marker::Model;

/// An operation's number and its key in the slab.
#[derive(Clone, Copy, Debug, PartialEq, Eq)]
pub(crate) struct Entry {
    pub(crate) number: u64,
    pub(crate) key: usize,
}

/// The keys of at most `limit` numbers. The search for a number begins at its home, and ends `reach`
/// slots after it: no number was ever put further from its home.
#[derive(Drop)]
pub(crate) struct Index {
    slots: Vec<Option<Entry>>,
    limit: usize,
    reach: usize,
}

impl Model for Index {
    ghost use Rattle.nio_group.specs.Index as spec;

    ghost Value = { spec.Index };

    ghost view = { λ index. record { slots = index.slots.items; limit = index.limit } };

    ghost invariant = { λ index. spec.IsTable index.slots.items index.limit index.reach };
}

/// The slot at which the search for a number begins: Knuth's multiplicative hash, which spreads
/// numbers that follow one another.
fn home(number: u64, limit: usize) -> usize
    requires some { 1 ≤ limit }
    requires few { limit ≤ 65536 }
    ensures place { result ≡ home_of number limit }
    ensures below { result < 2 * limit }
{
    let spread = number.wrapping_mul(11_400_714_819_323_198_485) >> 32;
    (spread % (2 * limit as u64)) as usize
}

/// The slot, at most `reach` past the home, that has this number.
fn find(slots: &[Option<Entry>], home: usize, reach: usize, number: u64) -> Option<usize>
    requires { home + reach < length slots.now }
    ensures found { IfSome result (λ i. (home ≤ i) × (i ≤ home + reach)
        × (has_number number (slice_index_or slots.now i None) ≡ true)) }
    ensures absent { IfNone result ((i : ℕ) → home ≤ i → i ≤ home + reach
        → has_number number (slice_index_or slots.now i None) ≡ false) }
{
    for at in home..home + reach + 1 {
        if let Some(entry) = slots[at] {
            if entry.number == number {
                return Some(at);
            }
        }
    }
    None
}

/// The first vacant slot from the home on.
fn vacant(slots: &[Option<Entry>], home: usize, limit: usize) -> usize
    requires room { count_by is_some slots.now < limit }
    requires size { home + limit ≤ length slots.now }
    ensures vacant { slice_index_or slots.now result None ≡ None }
    ensures from_home { home ≤ result }
    ensures before_end { result < home + limit }
{
    let mut at = home;
    while slots[at].is_some() {
        at += 1;
    }
    at
}

impl Index {
    /// An index that holds `limit` keys without taking more memory.
    pub(crate) fn make(alloc: Global, limit: usize) -> Result<Index, AllocError>
        requires some { 1 ≤ limit }
        requires few { limit ≤ 65536 }
        ensures empty { IfOk result (λ index. (n : ℕ) → key_of index n ≡ None) }
        ensures count { IfOk result (λ index. entries index ≡ 0) }
        ensures limit { IfOk result (λ index. index.limit ≡ limit) }
    {
        let mut slots = Vec::new(alloc);
        slots.resize(3 * limit, None)?;
        Ok(Index {
            slots,
            limit,
            reach: 0,
        })
    }

    pub(crate) fn get(&self, number: u64) -> Option<usize>
        ensures { result ≡ key_of self.now number }
    {
        let home = home(number, self.limit);
        let at = find(&self.slots, home, self.reach, number)?;
        let entry = self.slots[at]?;
        Some(entry.key)
    }

    pub(crate) fn insert(&mut self, number: u64, key: usize)
        requires new { key_of self.old number ≡ None }
        requires room { entries self.old < self.old.limit }
        ensures changes { ChangesKey self.old self.new number (Some key) }
        ensures count { entries self.new ≡ entries self.old + 1 }
        ensures limit { self.new.limit ≡ self.old.limit }
    {
        let home = home(number, self.limit);
        let at = vacant(&self.slots, home, self.limit);
        self.slots[at] = Some(Entry { number, key });
        self.reach = self.reach.max(at - home);
    }

    pub(crate) fn remove(&mut self, number: u64)
        requires { is_some (key_of self.old number) ≡ true }
        ensures changes { ChangesKey self.old self.new number None }
        ensures count { entries self.new + 1 ≡ entries self.old }
        ensures limit { self.new.limit ≡ self.old.limit }
    {
        let home = home(number, self.limit);
        if let Some(at) = find(&self.slots, home, self.reach, number) {
            self.slots[at] = None;
        }
    }
}

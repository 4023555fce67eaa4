//! What was told of the indexes of a selector, while a selection is told.
ghost use Rattle.std.specs.Prelude.{◌≡◌, ◌*◌, ◌<◌, ◌≤◌, ◌^◌, IfOk, OnOk, get_or, length};
ghost use Rattle.nio_select.specs.Kept.{IsLonger};
ghost use Rattle.nio_select.specs.ToldSlots.{IsPutTo, IsTakenFrom};

use nio_base::Ops;
use std::alloc::{AllocError, Global};

// What was told of each index, and which of 64 indexes it was told of, word by word: nothing, but while a selection is
// told.
#[derive(Debug, Drop)]
pub(crate) struct Noted {
    pub(crate) told: Vec<Ops>,
    pub(crate) words: Vec<u64>,
}

impl Noted {
    // With room for no index.
    pub(crate) fn new(alloc: Global) -> Noted
        ensures told { length result.told.items ≡ 0 }
        ensures words { length result.words.items ≡ 0 }
    {
        Noted {
            told: Vec::new(alloc),
            words: Vec::new(alloc),
        }
    }

    // A copy.
    pub(crate) fn copied(&self, alloc: Global) -> Result<Noted, AllocError>
        ensures told { IfOk result (λ noted. noted.told.items ≡ self.now.told.items) }
        ensures words { IfOk result (λ noted. noted.words.items ≡ self.now.words.items) }
    {
        Ok(Noted {
            told: Vec::from_slice(alloc, self.told.as_slice())?,
            words: Vec::from_slice(alloc, self.words.as_slice())?,
        })
    }

    // Makes room for so many words.
    pub(crate) fn make_room(&mut self, words: usize) -> Result<(), AllocError>
        requires { words ≤ 2 ^ 25 }
        ensures told { IsLonger self.old.told.items self.new.told.items 0 }
        ensures words { IsLonger self.old.words.items self.new.words.items 0 }
        ensures told_room { OnOk result (64 * words ≤ length self.new.told.items) }
        ensures words_room { OnOk result (words ≤ length self.new.words.items) }
        ensures few { length self.old.words.items ≤ 2 ^ 25 → length self.new.words.items ≤ 2 ^ 25 }
    {
        lengthen(&mut self.words, words, 0)?;
        lengthen(&mut self.told, 64 * words, Ops::NONE)
    }

    // Tells this of an index that there is room for.
    pub(crate) fn put(&mut self, i: usize, ops: Ops)
        requires told { i < length self.old.told.items }
        requires words { i < 64 * length self.old.words.items }
        ensures { IsPutTo i ops self.old self.new }
    {
        self.told[i] = self.told[i].union(ops);
        self.words[i / 64] |= 1 << (i % 64);
    }

    // What was told of the index. From now on nothing is.
    pub(crate) fn take(&mut self, i: usize) -> Ops
        ensures result { result ≡ get_or self.old.told.items i 0 }
        ensures rest { IsTakenFrom i self.old self.new }
    {
        if i >= self.told.len() {
            return Ops::NONE;
        }
        let told = self.told[i];
        self.told[i] = Ops::NONE;
        told
    }
}

// Adds so many of this value that the list is as long as `n`, where it is shorter.
pub(crate) fn lengthen<T: Copy>(list: &mut Vec<T>, n: usize, value: T) -> Result<(), AllocError>
    ensures longer { IsLonger list.old.items list.new.items value }
    ensures ok { OnOk result (n ≤ length list.new.items) }
    ensures most { n < length list.new.items → list.new.items ≡ list.old.items }
{
    if n <= list.len() {
        return Ok(());
    }
    list.resize(n, value)
}

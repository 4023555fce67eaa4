//! The sets of a selector: its key set and its selected set, in rising order of the indexes.
ghost use Rattle.std.specs.Prelude.{◌≡◌, ◌<◌, ◌^◌, IfOk, length};
ghost use Rattle.nio_plain.specs.Plain.{RepliesAs};
ghost use Rattle.nio_plain.specs.PlainState.{in_set_of, key_row, listed_below, no_key, places, state_of};
ghost use Rattle.nio_plain.specs.Seq.Listing.{keys_call, listed, selected_call};

use super::Plain;
use super::selector::Key;
use crate::replies::names_or_none;
use nio_base::{KeyId, SelNo};
use nio_language::Reply;
use std::alloc::{AllocError, Global};

impl Plain {
    pub(super) fn keys(&self, alloc: Global, sel: SelNo) -> Result<Reply, AllocError>
        ensures { RepliesAs self.now self.now result (keys_call (state_of self.now) sel) }
    {
        self.set_of(alloc, sel, false)
    }

    pub(super) fn selected(&self, alloc: Global, sel: SelNo) -> Result<Reply, AllocError>
        ensures { RepliesAs self.now self.now result (selected_call (state_of self.now) sel) }
    {
        self.set_of(alloc, sel, true)
    }

    /// The key set, or the selected set.
    fn set_of(&self, alloc: Global, sel: SelNo, selected: bool) -> Result<Reply, AllocError>
        ensures { RepliesAs self.now self.now result (listed (state_of self.now) sel
            (in_set_of (state_of self.now) sel.0 selected)) }
    {
        let place = match self.selector(sel) {
            Ok(place) => place,
            Err(refusal) => return Ok(refusal),
        };
        let selector = &self.selectors[place];
        if selector.is_shut() {
            return Ok(Reply::ClosedSelector);
        }
        Ok(names_or_none(names(alloc, &selector.keys, selected)?))
    }
}

/// The keys that aren't removed, or those among them that are selected.
fn names(alloc: Global, keys: &[Key], selected: bool) -> Result<Vec<KeyId>, AllocError>
    requires { length keys.now < 2 ^ 32 }
    ensures { IfOk result (λ v. v.items ≡ listed_below (places key_row no_key keys.now) selected (length keys.now)) }
{
    let mut names = Vec::new(alloc);
    for (index, key) in keys.iter().enumerate() {
        if key.is_listed(selected) {
            names.push(key.id(index as u32))?;
        }
    }
    Ok(names)
}

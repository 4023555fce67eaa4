//! What a handle keeps.
ghost use Rattle.std.specs.Prelude.{◌≡◌, ◌<◌, ◌≤◌, Some, Ok, OnErr, OnOk, fold, length, map, vec_capacity};
ghost use Rattle.nio_caller.specs.Callers.{selection};
ghost use Rattle.nio_select.specs.InProgress.{poll_of};
ghost use Rattle.nio_c.specs.Selections.{TellsFound, asked_in, is_over as over_where, tells_asked as asked_told};
ghost use Rattle.nio_c.specs.Selections.{told_changes};
ghost use Rattle.nio_c.specs.Values.{as_told};
ghost use Rattle.nio_c.specs.Writing.{counted_on, written_on};

use crate::places::Visitor;
use crate::values::Pair;
use crate::writing::Writing;
use nio_base::{Ops, SelNo};
use nio_caller::{Caller, NotSelecting};
use nio_poller::tells_some;
use nio_select::{Lister, Told};
use nio_steps::Selected;
use nio_words::Words;
use std::alloc::{AllocError, Global};
use std::marker::Model;
use std::sync::Arc;

/// A caller that shares its table.
pub(crate) type Sharer = Caller<Arc<Words, Global>>;

/// A caller, a visitor to the places at its table where callers are left, and what it was told last: the memory of that
/// serves again.
#[derive(Drop)]
pub struct Kept {
    pub(crate) caller: Sharer,
    pub(crate) visitor: Visitor,
    told: Told,
}

impl Model for Kept {
    ghost use Rattle.std.specs.Prelude.{◌≡◌, vec_capacity};
    ghost use Rattle.nio_c.specs.Holding.{Holding};

    ghost Value = { Holding };

    ghost view = { λ kept. record {
      caller = kept.caller;
      room = vec_capacity kept.told.pairs;
      visitor = kept.visitor;
    } };

    ghost invariant = { λ kept. kept.visitor.table ≡ kept.caller.table };
}

impl Kept {
    pub(crate) fn new(alloc: Global, caller: Sharer, visitor: Visitor) -> Kept
        requires { visitor.table ≡ caller.table }
        ensures caller { result.caller ≡ caller }
        ensures visitor { result.visitor ≡ visitor }
    {
        Kept {
            caller,
            visitor,
            told: Told {
                pairs: Vec::new(alloc),
                elapsed: false,
            },
        }
    }

    pub(crate) fn into_parts(self) -> (Sharer, Visitor)
        ensures parts { result ≡ (self.caller, self.visitor) }
        ensures table { result.1.table ≡ result.0.table }
    {
        let Kept {
            caller,
            visitor,
            told: _told,
        } = self;
        (caller, visitor)
    }

    // Tells the caller's selection in progress what a poll found; the lister takes note of what that does to keys. None:
    // there was no memory for that, and nothing was told.
    pub(crate) fn tell<L: Lister>(
        &mut self,
        sel: SelNo,
        found: &[Pair],
        elapsed: bool,
        enough: bool,
        lister: &mut L,
    ) -> Option<Result<Option<Selected>, NotSelecting>>
        ensures told { TellsFound sel enough (record { pairs = map as_told found.now; elapsed = elapsed })
            self.old self.new result }
        ensures listed { lister.new ≡ fold L.noted lister.old
            (told_changes result (selection self.old.caller sel) self.old.caller self.new.caller) }
        ensures again { result ≡ Some (Ok None) → lister.new ≡ lister.old }
    {
        take_in(&mut self.told.pairs, found).ok()?;
        self.told.elapsed = elapsed;
        self.told.elapsed = is_over(&self.caller, sel, &self.told, enough);
        Some(self.caller.told_listing(sel, &self.told, lister))
    }

    // The same, and writes what that does to keys.
    pub(crate) fn tell_listing(
        &mut self,
        sel: SelNo,
        found: &[Pair],
        elapsed: bool,
        enough: bool,
        writing: &mut Writing<'_>,
    ) -> Option<Result<Option<Selected>, NotSelecting>>
        ensures told { TellsFound sel enough (record { pairs = map as_told found.now; elapsed = elapsed })
            self.old self.new result }
        ensures same_array { writing.new.into.ghost_name ≡ writing.old.into.ghost_name }
        ensures written { writing.new.into.now ≡ written_on writing.old.into.now writing.old.count
            (told_changes result (selection self.old.caller sel) self.old.caller self.new.caller) }
        ensures count { writing.new.count ≡ counted_on writing.old.count
            (told_changes result (selection self.old.caller sel) self.old.caller self.new.caller) }
        ensures again { result ≡ Some (Ok None) → writing.new.count ≡ writing.old.count }
    {
        self.tell(sel, found, elapsed, enough, writing)
    }
}

// Puts what a poll found in the place of what was told last.
fn take_in(told: &mut Vec<(u32, Ops)>, found: &[Pair]) -> Result<(), AllocError>
    ensures items { OnOk result (told.new.items ≡ map as_told found.now) }
    ensures fits { OnOk result (length found.now ≤ vec_capacity told.new) }
    ensures room { vec_capacity told.old ≤ vec_capacity told.new }
    ensures full { OnErr result (vec_capacity told.old < length found.now) }
{
    told.clear();
    for pair in found {
        told.push((pair.index, Ops::of(pair.ready)))?;
    }
    Ok(())
}

// Whether the selection in progress is told that its time is over: it is, or it is enough that something was told of
// what the selection asks for.
fn is_over(acting: &Sharer, sel: SelNo, told: &Told, enough: bool) -> bool
    ensures { result ≡ over_where enough (asked_in acting.now sel) (poll_of told.now) }
{
    told.elapsed || (enough && tells_asked(acting, sel, &told.pairs))
}

// Whether something was told of what the caller's selection in progress asks for.
fn tells_asked(acting: &Sharer, sel: SelNo, pairs: &[(u32, Ops)]) -> bool
    ensures { result ≡ asked_told (asked_in acting.now sel) pairs.now }
{
    match acting.selection(sel) {
        Some(selection) => tells_some(selection.asked(), pairs),
        None => false,
    }
}

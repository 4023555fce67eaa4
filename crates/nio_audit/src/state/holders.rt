//! Who has what in the state.
ghost use Rattle.std.specs.Prelude.{◌≡◌, ◌&&◌};
ghost use Rattle.nio_history.specs.Conditions.{is_held_by};

use crate::state::StateTables;
use nio_base::{CallerNo, ChanNo, SelNo};
use nio_history::Chan;

impl StateTables {
    ghost use Rattle.nio_history.specs.Sets.{in_cancelled_set};
    ghost use Rattle.nio_audit.specs.TableWords.{cube, grid, row};

    pub(crate) fn is_selector_made(&self, sel: SelNo) -> bool
        ensures { result ≡ row self.now.selector sel.0 }
    {
        self.selector.get(sel.0)
    }

    pub(crate) fn channel(&self, chan: ChanNo) -> Chan
        ensures { result ≡ row self.now.chan chan.0 }
    {
        self.chan.get(chan.0)
    }

    pub(crate) fn is_made(&self, chan: ChanNo) -> bool
        ensures { result ≡ (row self.now.chan chan.0).made }
    {
        self.channel(chan).made
    }

    pub(crate) fn is_claimed(&self, sel: SelNo, index: u32) -> bool
        ensures { result ≡ (grid self.now.key sel.0 index).claimed }
    {
        self.key.get(sel.0, index).claimed
    }

    pub(crate) fn holds(&self, me: CallerNo, chan: ChanNo) -> bool
        ensures { result ≡ is_held_by me (row self.now.hold chan.0) }
    {
        is_held_by(me, self.hold.get(chan.0))
    }

    pub(crate) fn has_turn(&self, me: CallerNo, sel: SelNo) -> bool
        ensures { result ≡ is_held_by me (row self.now.turn sel.0) }
    {
        is_held_by(me, self.turn.get(sel.0))
    }

    pub(crate) fn has_begun(&self, me: CallerNo, sel: SelNo) -> bool
        ensures { result ≡ (is_held_by me (row self.now.turn sel.0) && row self.now.begun sel.0) }
    {
        self.has_turn(me, sel) && self.begun.get(sel.0)
    }

    pub(crate) fn is_closer(&self, me: CallerNo, sel: SelNo) -> bool
        ensures { result ≡ is_held_by me (row self.now.closer sel.0) }
    {
        is_held_by(me, self.closer.get(sel.0))
    }

    pub(crate) fn has_entered(&self, me: CallerNo, sel: SelNo) -> bool
        ensures { result ≡ (is_held_by me (row self.now.closer sel.0) && row self.now.entered sel.0) }
    {
        self.is_closer(me, sel) && self.entered.get(sel.0)
    }

    pub(crate) fn has_pin(&self, me: CallerNo, sel: SelNo, index: u32) -> bool
        ensures { result ≡ cube self.now.pinned sel.0 index me.0 }
    {
        self.pinned.get(sel.0, index, me.0)
    }

    pub(crate) fn is_amid(&self, me: CallerNo, sel: SelNo, index: u32) -> bool
        ensures { result ≡ cube self.now.amid sel.0 index me.0 }
    {
        self.amid.get(sel.0, index, me.0)
    }

    pub(crate) fn has_list(&self, me: CallerNo, sel: SelNo) -> bool
        ensures { result ≡ is_held_by me (row self.now.lister sel.0) }
    {
        is_held_by(me, self.lister.get(sel.0))
    }

    pub(crate) fn has_taken(&self, me: CallerNo, sel: SelNo, index: u32) -> bool
        ensures { result ≡ is_held_by me (grid self.now.taker sel.0 index) }
    {
        is_held_by(me, self.taker.get(sel.0, index))
    }

    /// Whether the caller selects, and the key is in the cancelled set.
    pub(crate) fn may_remove_cancelled(&self, me: CallerNo, sel: SelNo, index: u32) -> bool
        ensures { result ≡ ((is_held_by me (row self.now.turn sel.0) && row self.now.begun sel.0) && in_cancelled_set
            (grid self.now.key sel.0 index)) }
    {
        let key = self.key.get(sel.0, index);
        self.has_begun(me, sel) && key.published && !key.removed && key.cancelled
    }
}

/// Whether the number that stands there, if any, is the caller's.
fn is_held_by(me: CallerNo, holder: Option<CallerNo>) -> bool
    ensures { result ≡ is_held_by me holder }
{
    holder == Some(me)
}

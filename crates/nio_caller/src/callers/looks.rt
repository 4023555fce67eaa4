//! How a caller looks up what is named by a call.
ghost use Rattle.std.specs.Bool.{then_some};
ghost use Rattle.std.specs.Prelude.{IsTrue};
ghost use Rattle.nio_history.specs.PassViews.{HasChannel, HasKey, HasSelector};
ghost use Rattle.nio_caller.specs.Callers.{StillHas, sees};
ghost use Rattle.nio_caller.specs.NamedCalls.{Calls, FindsChannel, FindsKey, FindsSelector};

use super::Caller;
use crate::table::Table;
use nio_base::{ChanId, KeyNo, SelNo};

impl<T: Table> Caller<T> {
    // Whether the selector was made.
    pub(super) fn has_selector(&mut self, sel: SelNo) -> bool
        ensures call { Calls (λ l. FindsSelector l sel) self.old self.new (then_some result sel) }
        ensures still { StillHas (sees self.old) (sees self.new) }
        ensures has { IsTrue result → HasSelector (sees self.new) sel }
    {
        self.find_selector(sel.0).is_some()
    }

    // Whether the channel was opened.
    pub(super) fn has_channel(&mut self, chan: ChanId) -> bool
        ensures call { Calls (λ l. FindsChannel l chan) self.old self.new (then_some result chan) }
        ensures still { StillHas (sees self.old) (sees self.new) }
        ensures has { IsTrue result → HasChannel (sees self.new) chan }
    {
        self.find_channel(chan.number.0, chan.serial).is_some()
    }

    // Whether the key was made.
    pub(super) fn has_key(&mut self, key: KeyNo) -> bool
        ensures call { Calls (λ l. FindsKey l key) self.old self.new (then_some result key) }
        ensures still { StillHas (sees self.old) (sees self.new) }
        ensures has { IsTrue result → HasKey (sees self.new) key }
    {
        self.find(key.sel, key.index, key.serial).is_some()
    }
}

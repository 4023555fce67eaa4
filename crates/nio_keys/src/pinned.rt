//! The index of a key is pinned while a call works on the key.
ghost use Rattle.std.specs.Prelude.{[], ◌∷◌};
ghost use Rattle.nio_history.specs.Conditions.{IsChannel};
ghost use Rattle.nio_history.specs.PassViews.{ActsClause, HasKey, HasNoPin};
ghost use Rattle.nio_history.specs.declared.act.Act.TheVariants.{Pin, Unpin};
ghost use Rattle.nio_words.specs.Passes.{IsReady, limits_of};
ghost use Rattle.nio_words.specs.Views.{view, IsPinned};

use nio_base::{CallerNo, KeyNo};
use nio_history::Stage;
use nio_words::{Pass, Words};

/// Pins the key's index. Answers its stage.
pub(crate) fn pin(w: &Words, p: &mut Pass, me: CallerNo, key: KeyNo) -> Stage
    requires ready { IsReady w.now p.old me }
    requires key { HasKey (view w.now p.old) key }
    requires unpinned { HasNoPin (view w.now p.old) me }
    ensures act { ActsClause me (Pin key.sel key.index result ∷ []) (view w.now p.old) (view w.now p.new) }
    ensures pinned { IsPinned w.now p.new me key.sel key.index }
    ensures channel { IsChannel (limits_of w.now) result.chan }
{
    w.pin(p, me, key.sel, key.index)
}

/// Takes the pin off the key's index.
pub(crate) fn unpin(w: &Words, p: &mut Pass, me: CallerNo, key: KeyNo)
    requires { IsPinned w.now p.old me key.sel key.index }
    ensures act { ActsClause me (Unpin key.sel key.index ∷ []) (view w.now p.old) (view w.now p.new) }
    ensures ready { IsReady w.now p.new me }
    ensures unpinned { HasNoPin (view w.now p.new) me }
{
    w.unpin(p, me, key.sel, key.index);
}

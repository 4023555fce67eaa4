//! The line `block`: a whole selection over the caller's own sleeper.
ghost use Rattle.std.specs.Prelude.{◌≡◌, IfOk};
ghost use mathlib.Core.List.{IsPrefix};
ghost use Rattle.nio_history.specs.PassViews.{HasSelector};
ghost use Rattle.nio_words.specs.Passes.{IsPassOf, seen};
ghost use Rattle.nio_words.specs.Views.{view};
ghost use Rattle.nio_race.specs.Racers.{BlocksOn, LooksAndBlocksOn, StandsFor};

use crate::quiet::Quiet;
use nio_base::{CallerNo, SelNo};
use nio_keys::find_selector;
use nio_language::Reply;
use nio_poller::{SelectError, Sleeper, select};
use nio_select::Selector;
use nio_sole::{Desk, drop_selection};
use nio_words::Words;
use std::alloc::{AllocError, Global};
use std::sync::Wait;

// Looks the selector up, and selects there without a limit of time.
pub(crate) fn block_line<R: Wait>(
    rt: &R,
    alloc: Global,
    w: &Words,
    d: &mut Desk,
    sleeper: &mut Sleeper,
    me: CallerNo,
    sel: SelNo,
) -> Result<Reply, AllocError>
    requires { StandsFor w.now d.old me }
    ensures line { IfOk result (LooksAndBlocksOn w.now d.old d.new me sel) }
    ensures stands { IfOk result (λ _. StandsFor w.now d.new me) }
    ensures pass { IsPassOf w.now d.new.pass }
    ensures later { IsPrefix (seen d.old.pass) (seen d.new.pass) }
{
    match find_selector(w, &mut d.pass, me, sel.0) {
        Some(_) => block_on(rt, alloc, w, d, sleeper, me, sel),
        None => Ok(Reply::NoSelector),
    }
}

// Selects without the selector's list, once the selector was found.
fn block_on<R: Wait>(
    rt: &R,
    alloc: Global,
    w: &Words,
    d: &mut Desk,
    sleeper: &mut Sleeper,
    me: CallerNo,
    sel: SelNo,
) -> Result<Reply, AllocError>
    requires stands { StandsFor w.now d.old me }
    requires selector { HasSelector (view w.now d.old.pass) sel }
    ensures line { IfOk result (λ r. BlocksOn w.now d.old d.new me sel r) }
    ensures stands { IfOk result (λ _. StandsFor w.now d.new me) }
    ensures pass { IsPassOf w.now d.new.pass }
    ensures later { IsPrefix (seen d.old.pass) (seen d.new.pass) }
{
    let mut selector = Selector::without_list(sel);
    let mut poller = Quiet::over(sleeper);
    match select(rt, alloc, w, &mut d.pass, me, &mut selector, &mut poller) {
        Ok(selected) => {
            drop_selection(&mut d.selections, sel);
            Ok(Reply::Selected(selected.count, selected.why))
        }
        Err(SelectError::ClosedSelector) => Ok(Reply::ClosedSelector),
        Err(SelectError::Memory) => Err(AllocError),
        Err(SelectError::PollFault | SelectError::NegativeTimeout) => unreachable!(),
    }
}

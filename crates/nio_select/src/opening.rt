//! Opening a selector.
ghost use Rattle.std.specs.Prelude.{IfOk, IfSome};
ghost use Rattle.nio_history.specs.Conditions.{IsSelector};
ghost use Rattle.nio_history.specs.PassViews.{HasSelector};
ghost use Rattle.nio_steps.specs.Calls.{CallClause};
ghost use Rattle.nio_steps.specs.Names.{selector};
ghost use Rattle.nio_steps.specs.Runs.{Completes};
ghost use Rattle.nio_steps.specs.SelectCalls.{open_selector_plan, makes_selector};
ghost use Rattle.nio_steps.specs.Sweeps.{seek_to};
ghost use Rattle.nio_words.specs.Passes.{IsReady, limits_of};
ghost use Rattle.nio_words.specs.Views.{view};

use nio_base::{CallerNo, SelNo};
use nio_steps::SelectorsSpent;
use nio_words::{Pass, Words};

/// Opens a selector: Java's `Selector.open`.
pub fn open_selector(w: &Words, p: &mut Pass, me: CallerNo) -> Result<SelNo, SelectorsSpent>
    requires ready { IsReady w.now p.old me }
    ensures call { CallClause me (Completes (open_selector_plan (limits_of w.now)))
        (view w.now p.old) (view w.now p.new) result }
    ensures ready { IsReady w.now p.new me }
    ensures made { IfOk result (HasSelector (view w.now p.new)) }
{
    match make_first(w, p, me) {
        Some(sel) => Ok(sel),
        None => Err(SelectorsSpent),
    }
}

// Makes the first selector that isn't made.
fn make_first(w: &Words, p: &mut Pass, me: CallerNo) -> Option<SelNo>
    requires ready { IsReady w.now p.old me }
    ensures call { CallClause me (Completes (seek_to (limits_of w.now).selectors 0 (λ n. makes_selector (selector n))))
        (view w.now p.old) (view w.now p.new) result }
    ensures ready { IsReady w.now p.new me }
    ensures made { IfSome result (HasSelector (view w.now p.new)) }
{
    for number in 0..w.limits().selectors {
        if let Some(sel) = make(w, p, me, SelNo(number)) {
            return Some(sel);
        }
    }
    None
}

fn make(w: &Words, p: &mut Pass, me: CallerNo, sel: SelNo) -> Option<SelNo>
    requires ready { IsReady w.now p.old me }
    requires inside { IsSelector (limits_of w.now) sel }
    ensures call { CallClause me (Completes (makes_selector sel)) (view w.now p.old) (view w.now p.new) result }
    ensures ready { IsReady w.now p.new me }
    ensures made { IfSome result (HasSelector (view w.now p.new)) }
{
    if w.make_selector(p, me, sel) {
        None
    } else {
        Some(sel)
    }
}

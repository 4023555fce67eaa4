//! What follows from the contracts of the calls of a selection, and from the laws of their plans. The functions do
//! nothing: their contracts are laws.
ghost use Rattle.nio_select.specs.ChangeLaws.{ChangesAreInOrder};
ghost use Rattle.nio_select.specs.ChangeLists.{ChangesAreListed};
ghost use Rattle.nio_select.specs.Laws.{CancelledKeysAreGone, CancelledKeysAreGoneAtEnd, EndsFindHigh};
ghost use Rattle.nio_select.specs.Laws.{CancelledListedKeysAreGone, CancelledListedKeysAreGoneAtEnd, ListsAreKept};
ghost use Rattle.nio_select.specs.Laws.{ValidKeysAreAsked, ValidListedKeysAreAsked};
ghost use Rattle.nio_select.specs.Laws.{SelectionsHaveWindows, CallsAreBounded, ListedCallsAreBounded};
ghost use Rattle.nio_select.specs.Laws.{SelectionsAreAlone, LeavingGivesBack, NoMemoryGivesBack};
ghost use Rattle.nio_select.specs.Laws.{ClosingsRemoveKeys, ClosingsFindHigh};

use nio_steps::{begin_law, bound_law, close_law, listed_bound_law, listed_law, told_law};

/// A key with an index below the bound that was published and cancelled before a selection began is removed once it has
/// begun, and isn't on its looked list; one that was published before and is valid then is on it. The end of a selection
/// finds a keys' high-water mark, and has removed each key with an index below it that was published and cancelled before
/// that look.
pub fn gone_law()
    ensures begun { CancelledKeysAreGone }
    ensures looked { ValidKeysAreAsked }
    ensures ended { CancelledKeysAreGoneAtEnd }
    ensures finds { EndsFindHigh }
{
    begin_law();
    told_law()
}

/// The same of selections that go by the selector's list.
pub fn listed_gone_law()
    ensures begun { CancelledListedKeysAreGone }
    ensures looked { ValidListedKeysAreAsked }
    ensures ended { CancelledListedKeysAreGoneAtEnd }
{
    listed_law()
}

/// The caller that has a selector's list has it for good.
pub fn kept_list_law()
    ensures { ListsAreKept }
{}

/// The steps of a selection are bounded by what it finds when it begins and at its end, and by what other callers
/// unselect meanwhile.
pub fn steps_law()
    ensures windows { SelectionsHaveWindows }
    ensures bounded { CallsAreBounded }
{
    bound_law()
}

/// So are those of a selection that goes by the selector's list, by what it finds touched and what it is told.
pub fn listed_steps_law()
    ensures { ListedCallsAreBounded }
{
    listed_bound_law()
}

/// While a caller selects nobody else takes bits of touched indexes of the selector, marks or removes a key of it, or ends
/// its wakeup.
pub fn alone_law()
    ensures { SelectionsAreAlone }
{}

/// After `leave`, and after a `try_begin` for which there is no memory, the turn is free. A wakeup that was pending when
/// `leave` was called, or when the `try_begin` took the turn, is pending still.
pub fn turn_law()
    ensures leave { LeavingGivesBack }
    ensures no_memory { NoMemoryGivesBack }
{}

/// A closing that has finished has found a keys' high-water mark, and has removed each key with an index below it that
/// was claimed before.
pub fn closed_law()
    ensures removes { ClosingsRemoveKeys }
    ensures finds { ClosingsFindHigh }
{
    close_law()
}

/// A selection that is told marks keys, as many as it says that it updated, and then removes keys; each part with rising
/// indexes. One that goes on does nothing to keys.
pub fn told_changes_law()
    ensures { ChangesAreInOrder }
{}

/// A list of changes has the first that it took note of, as many as it has room for, and counts them all.
pub fn change_list_law()
    ensures { ChangesAreListed }
{}

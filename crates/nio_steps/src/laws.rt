//! What the plans promise, as the contracts of functions that do nothing.
ghost use Rattle.nio_steps.specs.Laws.{RunsArePerformed, BeginsSelection, LooksInOrder, LooksAtValidKeys};
ghost use Rattle.nio_steps.specs.Laws.{CancelledKeysGo, ValidKeysAreLookedAt, MarksOnlyAsTold, MarksLookedKeys};
ghost use Rattle.nio_steps.specs.Laws.{AgainGoesOn, CountsSelection};
ghost use Rattle.nio_steps.specs.Laws.{CancelledKeysGoAtEnd, SelectionsStand, ClosingsStand, ClosedRemovesKeys};
ghost use Rattle.nio_steps.specs.Laws.{WorksOnlyThere};
ghost use Rattle.nio_steps.specs.PinLaws.{PinsAreGivenBack};
ghost use Rattle.nio_steps.specs.Bound.{SelectionIsBounded};
ghost use Rattle.nio_steps.specs.ListLaws.{ListsAreEmptyAtFirst, ListsStay, BeginningsList, RefusalsLeaveList};
ghost use Rattle.nio_steps.specs.ListLaws.{OtherCallsLeaveList, WaitingCallsLeaveList, ListedKeysStood};
ghost use Rattle.nio_steps.specs.ListLaws.{MarksListedKeys, CancelledListedKeysGo, ValidKeysAreListed};
ghost use Rattle.nio_steps.specs.ListLaws.{CancelledListedKeysGoAtEnd, ListedSelectionIsBounded};

/// A call between whose steps nobody comes answers, and leaves, what its plan says of the state
/// before it.
pub fn run_law<R>()
    ensures { RunsArePerformed R }
{}

/// What `try_begin` answers is the selection that it began, until the turn is given back or a key is marked or removed.
/// Without the selector's list, the looked list is in rising order; each looked key was found valid by a look of that
/// call, with the channel, the serial and the interest set of its entry; the looked list has each key with an index below
/// the bound that was published before the call and is valid when it returns; and a key with an index below the bound that
/// was published and cancelled before is removed, and isn't in the looked list.
pub fn begin_law()
    ensures begins { BeginsSelection }
    ensures in_order { LooksInOrder }
    ensures valid { LooksAtValidKeys }
    ensures looked { ValidKeysAreLookedAt }
    ensures cancelled { CancelledKeysGo }
{}

/// A selection marks an index only for what the poller told of it, and the index has the key that the selection
/// looked at then. It counts each mark that succeeded, and ends with the first `told` that makes one. At its end it
/// removes each cancelled key with an index below the high-water mark that it then finds.
pub fn told_law()
    ensures only_as_told { MarksOnlyAsTold }
    ensures looked { MarksLookedKeys }
    ensures goes_on { AgainGoesOn }
    ensures counts { CountsSelection }
    ensures cancelled { CancelledKeysGoAtEnd }
{}

/// A selection and a closing that a caller's own steps show in progress stand in the state, whatever
/// other callers did.
pub fn progress_law()
    ensures selections { SelectionsStand }
    ensures closings { ClosingsStand }
{}

/// A closing that has finished has removed each key with an index below the high-water mark that it found, where the
/// key was claimed before it looked at the high-water mark.
pub fn close_law()
    ensures { ClosedRemovesKeys }
{}

/// Each call gives back the pins that it takes, and so does each call that waits.
pub fn given_back_law()
    ensures { PinsAreGivenBack }
{}

/// A call that doesn't wait gives a turn back, and marks and removes keys, only on the selector that its row names.
pub fn works_law()
    ensures { WorksOnlyThere }
{}

/// A selection makes a bounded number of steps, whatever other callers do meanwhile: at most 9, one for each 64 indexes
/// below the high-water mark that it found when it began and below the one that it found at its end, 4 for each index
/// that it found not free when it began, 3 for each that it found not free at its end, and one for each time that
/// anybody unselects a key.
pub fn bound_law()
    ensures { SelectionIsBounded }
{}

/// The selector's list of the caller that has it is right: empty at first, taken on by each beginning of a selection
/// with it, and left by refusals and by all other calls, also by those that wait.
pub fn list_law()
    ensures empty { ListsAreEmptyAtFirst }
    ensures stays { ListsStay }
    ensures begins { BeginningsList }
    ensures refused { RefusalsLeaveList }
    ensures others { OtherCallsLeaveList }
    ensures waiting { WaitingCallsLeaveList }
{}

/// Each key on the looked list of a selection with the selector's list stood so after the selection had begun, and an
/// index that it marks has that key. The looked list has each key with an index below the bound that was published before
/// the call that began it and is valid when that call returns. The selection removes each key that was published and
/// cancelled before it began, and at its end each that was so before its look at the high-water mark.
pub fn listed_law()
    ensures stood { ListedKeysStood }
    ensures marked { MarksListedKeys }
    ensures looked { ValidKeysAreListed }
    ensures cancelled { CancelledListedKeysGo }
    ensures at_end { CancelledListedKeysGoAtEnd }
{}

/// A selection by the caller that knows the selector's list makes a bounded number of steps, whatever other callers do
/// meanwhile: at most 9, two for each 64 indexes below the high-water mark that it found when it began and one for each
/// 64 below the one that it found at its end, 4 for each index whose bit it took, 3 for each that it found touched at its
/// end, 2 for each looked key of which the poller told something, and one for each time that anybody unselects a key.
pub fn listed_bound_law()
    ensures { ListedSelectionIsBounded }
{}

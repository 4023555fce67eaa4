//! Laws of orderly and of careful histories. Each is the contract of a function that does nothing.
ghost use Rattle.nio_orderly.specs.AfterClosing.{OnlyPublishersOwe, ClosedSelectorsHaveNoKey};
ghost use Rattle.nio_orderly.specs.Careful.{BeginningsAreCareful, PreparedIsSaid};
ghost use Rattle.nio_orderly.specs.OrderlyLaws.{BeginningsAreOrderly, WholeIsOrderly, OneCallMore, OrderlyEndsInCall};
ghost use Rattle.nio_orderly.specs.OrderlyLaws.{SerialIsWhole, SerialCallMore};
ghost use Rattle.nio_orderly.specs.Examples.{DebtStands, CancellationIsLost};
ghost use Rattle.nio_orderly.specs.OrderlyCare.{OrderlyIsCareful, WholeIsSettled, OrderlyOwes, WholeLosesNoKey};
ghost use Rattle.nio_orderly.specs.OrderlyCare.{CloseChannelCloses, FinishCloses, AfterCloseChannel};
ghost use Rattle.nio_orderly.specs.OrderlyCare.{NoKeyAfterCloseChannel, NoKeyAfterFinish, NoKeyAfterClose};
ghost use Rattle.nio_orderly.specs.OrderlyExamples.{ClosedInRegistration, ReopenedMeanwhile, StepsOfNoCalls};
ghost use Rattle.nio_orderly.specs.Lists.{ListsAreKnown};
ghost use Rattle.nio_orderly.specs.Looked.{BeginLooksAtValid, SelectLooksAtValid};
ghost use Rattle.nio_orderly.specs.Owed.{NothingIsLost};
ghost use Rattle.nio_orderly.specs.Removals.{BeginRemovesCancelled, SelectRemovesCancelled, ToldRemovesCancelled};
ghost use Rattle.nio_orderly.specs.Removals.{ToldRemovesLooked};
ghost use Rattle.nio_orderly.specs.Removals.{CloseRemovesBelow, FinishRemovesPublished, CloseRemovesPublished};
ghost use Rattle.nio_orderly.specs.Reopening.{KeysKeepTheirChannel, SelectionsKeepChannels, EnrolledKeysAreOfTheChannel};
ghost use Rattle.nio_orderly.specs.Reopening.{ClosersCancelTheirOwn};
ghost use Rattle.nio_orderly.specs.Settled.{SettledLosesNoKey};
ghost use Rattle.nio_orderly.specs.Waited.{WaitingCallsAreCalls, CallsWithoutWaiting};

use nio_steps::{begin_law, listed_law};

/// A beginning of an orderly history is orderly: each caller made whole calls, and a beginning of one more. In a
/// serial history each caller makes whole calls, and so it does after one call more. A call that waits, where it may
/// come, is a list of whole calls that don't and may come.
pub fn orderly_law()
    ensures beginnings { BeginningsAreOrderly }
    ensures whole { WholeIsOrderly }
    ensures more { OneCallMore }
    ensures ends { OrderlyEndsInCall }
    ensures serial { SerialIsWhole }
    ensures serial_more { SerialCallMore }
    ensures waits { WaitingCallsAreCalls }
    ensures unwaiting { CallsWithoutWaiting }
{}

/// An orderly history is careful, whether it is legal or not, and a caller that has finished its calls owes
/// nothing. So in a legal and orderly history what is owed is owed by a caller that has still to do it, and in a
/// whole one no closed channel and no selector that its closer has entered has a valid key.
pub fn orderly_care_law()
    ensures careful { OrderlyIsCareful }
    ensures settled { WholeIsSettled }
    ensures owed { OrderlyOwes }
    ensures none_lost { WholeLosesNoKey }
{}

/// What a closing leaves in a legal and orderly history, whatever other callers do then. After a
/// `close_channel` that answers true only who publishes a key of the channel has still to cancel it, and once each
/// call is finished none is valid. After a `try_finish` that answers Closed, or a `close` that answers true, no key of
/// the selector is valid any more.
pub fn closing_calls_law()
    ensures closes { CloseChannelCloses }
    ensures finishes { FinishCloses }
    ensures channel { AfterCloseChannel }
    ensures no_key_of_channel { NoKeyAfterCloseChannel }
    ensures no_key_of_selector { NoKeyAfterFinish }
    ensures no_key_after_close { NoKeyAfterClose }
{}

/// The list that a caller has for a selector between its whole calls is that selector's list, in a legal history: it is
/// right by what the caller did.
pub fn lists_law()
    ensures { ListsAreKnown }
{}

/// A key that was published before a `try_begin` that answers Ok, or a `select` that begins, and is valid when that
/// returns, is on its looked list: in a legal and orderly history, where a list that the call is given is the selector's,
/// which its caller has.
pub fn looked_law()
    ensures begin { BeginLooksAtValid }
    ensures select { SelectLooksAtValid }
{
    begin_law();
    listed_law()
}

/// What is removed in a legal and orderly history. A selection that has begun has removed each key that was published
/// and cancelled before the call, and so has the `told` that ends a selection: where they go by a list, one that is the
/// selector's, which its caller has. A `try_finish` that answers Closed, or a
/// `close` that answers true, has removed each key that was published before the call. In any legal history the `told`
/// that ends a selection has removed each key that the selection looked at and that was cancelled before that call; and
/// such a `close` each key that was claimed before it looked at the keys' high-water mark, at an index below it.
pub fn removals_law()
    ensures begin { BeginRemovesCancelled }
    ensures select { SelectRemovesCancelled }
    ensures told { ToldRemovesCancelled }
    ensures looked { ToldRemovesLooked }
    ensures below { CloseRemovesBelow }
    ensures finish { FinishRemovesPublished }
    ensures close { CloseRemovesPublished }
{
    listed_law()
}

/// A channel's number is given to a new channel only where no key of it is in a key set. So in a legal and careful
/// history a key of the key set is a key of one channel, and the number of a key that a selection doesn't remove names
/// one channel for the whole selection. The key that is enrolled for a number, where it is in the key set, is a key of
/// the channel that the number has, and of none before. In a legal and orderly history who closes a channel cancels no
/// valid key of another.
pub fn reopening_law()
    ensures keys { KeysKeepTheirChannel }
    ensures selections { SelectionsKeepChannels }
    ensures enrolled { EnrolledKeysAreOfTheChannel }
    ensures closers { ClosersCancelTheirOwn }
{}

/// A channel that is closed while it is registered: the callers make whole calls, and the key is cancelled. A
/// channel whose number is given to a new one, which is registered, while its closing is on its way: the key stays. A
/// legal history whose steps are those of no calls.
pub fn orderly_examples_law()
    ensures whole { ClosedInRegistration }
    ensures reopened { ReopenedMeanwhile }
    ensures disorderly { StepsOfNoCalls }
{}

/// No cancellation is lost. In a legal and careful history, where a key is valid though its channel is closed or
/// its selector is shut, a caller has still to cancel or remove it. So where no caller owes that, no closed
/// channel and no selector that its closer has entered has a valid key. A beginning of a careful history is careful.
/// That a caller is prepared to publish is said with the acts before and after, too.
pub fn owed_law()
    ensures owed { NothingIsLost }
    ensures settled { SettledLosesNoKey }
    ensures beginnings { BeginningsAreCareful }
    ensures prepared { PreparedIsSaid }
{}

/// Once a caller has closed a channel and cancelled its keys, only who publishes a key of the channel has still
/// to cancel it. Once a caller has closed a selector, entered it and removed its keys, no key of it is valid any
/// more.
pub fn after_closing_law()
    ensures channel { OnlyPublishersOwe }
    ensures selector { ClosedSelectorsHaveNoKey }
{}

/// There is a legal and careful history in which a debt stands, and a legal history that isn't careful in which a
/// cancellation is lost.
pub fn owed_examples_law()
    ensures debt { DebtStands }
    ensures lost { CancellationIsLost }
{}

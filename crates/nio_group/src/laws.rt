//! The laws of a group, each the contract of a function with an empty body.
ghost use Rattle.nio_group.specs.Run.{StepsAreLawful, TerminatedStays, StagesGoForward, CompletesOnce, TakesOnce};
ghost use Rattle.nio_group.specs.Run.{TerminatedIsAtRest, NumbersComeBack, MadeStays, OldNamesAreClosed};

/// For each lawful state of a group and each call there are one reply and one next state, and that
/// state is lawful.
pub fn step_law()
    ensures { StepsAreLawful }
{}

/// Once a group has terminated it stays so, whatever is called.
pub fn terminated_law()
    ensures { TerminatedStays }
{}

/// An operation begins pending or queued. A call leaves it as it was, or takes it one stage on: from
/// pending to queued, from queued to running, from running to ended; its channel, kind and length
/// stay.
pub fn stage_law()
    ensures { StagesGoForward }
{}

/// In a run from the empty group an operation that was accepted and isn't pending any more has
/// completed exactly once; no other operation has completed.
pub fn completion_law()
    ensures { CompletesOnce }
{}

/// In a run the completion of an operation is taken at most once.
pub fn take_law()
    ensures { TakesOnce }
{}

/// Where a group has terminated no accepted operation is lost: each has ended, and none completes
/// from then on.
pub fn rest_law()
    ensures { TerminatedIsAtRest }
{}

/// A channel keeps its kind, and once closed it stays closed. Its number goes to another channel only where
/// it is closed and none of its operations is in flight: an open one of the same kind, with the next
/// serial. A name that was made stays so.
pub fn numbers_law()
    ensures come_back { NumbersComeBack }
    ensures made { MadeStays }
{}

/// A channel whose number has another one by now is closed for good: none of its operations is pending, so
/// none completes, and no call on it, or on an operation of it, changes a channel.
pub fn old_names_law()
    ensures { OldNamesAreClosed }
{}

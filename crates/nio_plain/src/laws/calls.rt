//! Laws of one call, and of the calls between two wakeups.
ghost use Rattle.nio_plain.specs.CallLaws.{RefusalsChangeNothing, OnlyToldBitsAreSelected, BitsAreToldAndLookedFor};
ghost use Rattle.nio_plain.specs.CallLaws.{EndLeavesNoneCancelled, LookedIsReplied, OnlyItselfEndsASelection};
ghost use Rattle.nio_plain.specs.CallLaws.{WakeupsArePending};
ghost use Rattle.nio_plain.specs.CallLaws.{FurtherWakeupsChangeNothing, WakeupsHaveReplies, WakeupsActAsOne};
ghost use Rattle.nio_plain.specs.CallLaws.{OnlyWakingCallsWake};

/// A refused call changes nothing, nor does one that only asks. The exceptions are calls on pipes: an owner's
/// `closec` or `pwrite` that finds its sink closed leaves the seal, an interrupted caller's `pread` or
/// `pwrite` closes its channel, and a `pipe` with one channel left makes and closes that channel.
pub fn refusals_law()
    ensures { RefusalsChangeNothing }
{}

/// A key becomes selected, and its ready set gains a bit, only for bits that the poller told in that
/// call and that the caller's own selection looked for.
pub fn told_law()
    ensures only { OnlyToldBitsAreSelected }
    ensures bits { BitsAreToldAndLookedFor }
{}

/// A selection in progress looks at what its `begin` replied, the valid keys with their interests, and
/// stays so until its own caller ends it. Its end, by the rules of now, leaves no cancelled key in the key set.
pub fn selections_law()
    ensures begun { LookedIsReplied }
    ensures stay { OnlyItselfEndsASelection }
    ensures ended { EndLeavesNoneCancelled }
{}

/// A wakeup stays until a selection of its selector ends, which uses it up, and further ones change
/// nothing until then: several wakeups act as one.
pub fn wakeups_law()
    ensures pending { WakeupsArePending }
    ensures further { FurtherWakeupsChangeNothing }
    ensures replied { WakeupsHaveReplies }
    ensures one { WakeupsActAsOne }
{}

/// A call whose word's row says that it doesn't wake (`wakes`) sets no pending wakeup, shuts no selector and sets no
/// caller's interrupt status.
pub fn waking_law()
    ensures { OnlyWakingCallsWake }
{}

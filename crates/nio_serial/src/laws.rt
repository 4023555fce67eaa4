//! The laws, as the contracts of functions that do nothing.
ghost use Rattle.nio_serial.specs.Laws.{CallsAmount, ToldAmounts, LinesAmount, BeginsBetween, DrawsStayBetween};
ghost use Rattle.nio_serial.specs.Laws.{CallsStayBetween, ToldStaysBetween, LinesStayBetween, PipesAreWhole};
ghost use Rattle.nio_serial.specs.Laws.{CallRunsAmount, ToldRunsAmount, LineRunsAmount, PassLinesAmount, LackingLeaves};
ghost use Rattle.nio_serial.specs.LeftLaws.{LeftAreWithinKeySet, LeftHasKeysBelowHigh, LeftHasLookedInKeySet};
ghost use Rattle.nio_serial.specs.LeftLaws.{LeadingKeepsPublished, LeadingKeepsInvalid, LeftHasNoKeyAtFree};
ghost use Rattle.nio_serial.specs.LeftLaws.{LeftMakesNewKeys, LeadingMakesOtherKeys, LeadingKeepsOpened};
ghost use Rattle.nio_serial.specs.LeftLaws.{LeadingKeepsClosed, LeadingKeepsKinds, LeftMakesNewChannels, ReopenedIsNew};
ghost use Rattle.nio_serial.specs.LeftLaws.{LeadingKeepsChannelsOfKeys, LeftFindsKeysOfChannels};
ghost use Rattle.nio_serial.specs.LeftLaws.{LeftHasOneKeyOfAChannel, LeftHasRegisteredInKeySets};
ghost use Rattle.nio_serial.specs.LeftLaws.{LeftHasRegisteredNonBlocking, LeftHasNoValidKeyOfClosed};
ghost use Rattle.nio_serial.specs.LeftLaws.{LeadingEmptiesClosed, LeftGroupIsLeftByARun, LeftGroupIsLawful};
ghost use Rattle.nio_serial.specs.Serial.{SerialLinesAmount};
ghost use Rattle.nio_serial.specs.SequenceLaws.{SequencesStand, NextCallIsDocumented, SequencesGrow, NothingIsSequence};
ghost use Rattle.nio_serial.specs.SequenceLaws.{ReopeningIsDocumented, SequencesAreScripts};

/// The steps of a call between which nobody comes amount to the documented call: the reply and the state
/// are its own. So do those of a `told` by index, which names the looked keys, and those of a script's line
/// with its look-ups. A call for which there is no memory leaves the state as it was.
pub fn amounts_law()
    ensures calls { CallsAmount }
    ensures told { ToldAmounts }
    ensures lines { LinesAmount }
    ensures lacking { LackingLeaves }
{}

/// What holds between two calls of a serial history holds at the beginning, after each draw, after each
/// call, and after each line. Then the ends of each pipe are made channels of their kinds, and at most 65,536
/// bytes wait in it.
pub fn between_law()
    ensures begins { BeginsBetween }
    ensures draws { DrawsStayBetween }
    ensures calls { CallsStayBetween }
    ensures told { ToldStaysBetween }
    ensures lines { LinesStayBetween }
    ensures pipes { PipesAreWhole }
{}

/// A run of a call in a legal history, with no event of another caller between, has the reply and leaves
/// the state of the documented call. So does a run of a `told` by index, of a line, and a line on the only pass
/// of a table.
pub fn runs_law()
    ensures calls { CallRunsAmount }
    ensures told { ToldRunsAmount }
    ensures lines { LineRunsAmount }
    ensures only { PassLinesAmount }
{}

/// Where lines don't overlap, a legal history of them is a run of their script by the documented system, by
/// the rules of now: each line has its reply, and the state that is left is the script's.
pub fn serial_law()
    ensures { SerialLinesAmount }
{}

/// What the laws of `nio_plain` say of the states that scripts leave, and of an earlier and a later one, is true of all
/// states that documented calls leave, by the rules of now, also where reopenings are among the calls, which no line of a
/// script is. A channel that a reopening gives a number to is new, as any that is opened. `between_law` says that what
/// stands between two calls shows such a state.
pub fn left_law()
    ensures within { LeftAreWithinKeySet }
    ensures below { LeftHasKeysBelowHigh }
    ensures looked { LeftHasLookedInKeySet }
    ensures published { LeadingKeepsPublished }
    ensures invalid { LeadingKeepsInvalid }
    ensures free { LeftHasNoKeyAtFree }
    ensures new_keys { LeftMakesNewKeys }
    ensures other_keys { LeadingMakesOtherKeys }
    ensures opened { LeadingKeepsOpened }
    ensures closed { LeadingKeepsClosed }
    ensures kinds { LeadingKeepsKinds }
    ensures new_channels { LeftMakesNewChannels }
    ensures reopened { ReopenedIsNew }
    ensures keys { LeadingKeepsChannelsOfKeys }
    ensures found { LeftFindsKeysOfChannels }
    ensures one { LeftHasOneKeyOfAChannel }
    ensures registered { LeftHasRegisteredInKeySets }
    ensures non_blocking { LeftHasRegisteredNonBlocking }
    ensures no_valid_key { LeftHasNoValidKeyOfClosed }
    ensures emptied { LeadingEmptiesClosed }
    ensures run { LeftGroupIsLeftByARun }
    ensures lawful { LeftGroupIsLawful }
{}

/// Where calls don't overlap, the table is the sequential selector of Java. A legal serial history leaves a
/// state between two calls, whatever its calls are. One call more that has a word in a script has the reply of the
/// documented system in that state, and leaves its next state. The same is true of a reopening, which has no word.
/// So a history of calls that have one has the replies of its script, and leaves the state that the script
/// leaves. A history with one call more is serial again.
pub fn seq_law()
    ensures stands { SequencesStand }
    ensures next { NextCallIsDocumented }
    ensures reopening { ReopeningIsDocumented }
    ensures grows { SequencesGrow }
    ensures nothing { NothingIsSequence }
    ensures scripts { SequencesAreScripts }
{}

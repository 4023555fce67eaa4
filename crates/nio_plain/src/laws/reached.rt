//! Laws of the states that scripts leave, whatever is called and within whatever limits.
ghost use Rattle.nio_plain.specs.ReachedLaws.{SetsAreWithinKeySet, KeysAreBelowHigh, LookedAreInKeySet, PublishedStays};
ghost use Rattle.nio_plain.specs.ReachedLaws.{InvalidKeysStayInvalid, FreeIndexHasNoKey, FirstRulesFreeNone};
ghost use Rattle.nio_plain.specs.ReachedLaws.{FirstRulesRemoveBelowTheBound, FirstRulesReopenNone};
ghost use Rattle.nio_plain.specs.ReachedLaws.{FirstRulesReopenNoneOfTheGroup, NewKeyIsNew};
ghost use Rattle.nio_plain.specs.ReachedLaws.{NewKeysDiffer, OpenedStays, ClosedStays, KindStays, NewChannelIsNew};
ghost use Rattle.nio_plain.specs.ReachedLaws.{KeyKeepsItsChannel};
ghost use Rattle.nio_plain.specs.ReachedLaws.{KeyOfAChannelIsFound, OneKeyOfAChannel, RegisteredIsInAKeySet};
ghost use Rattle.nio_plain.specs.ReachedLaws.{RegisteredIsNonBlocking, ClosedChannelHasNoValidKey};
ghost use Rattle.nio_plain.specs.ReachedLaws.{ClosedSelectorIsEmpty, GroupIsLeftByARun, GroupIsLawful};

/// The cancelled set and the selected set are subsets of the key set. Every key of the key set has an index
/// below the number of indexes that its selector has claimed, so a selection that begins looks at all of
/// them. The keys that a selection in progress looks at stay in the key set.
pub fn sets_law()
    ensures within { SetsAreWithinKeySet }
    ensures below { KeysAreBelowHigh }
    ensures looked { LookedAreInKeySet }
{}

/// A key that was published stays so, and one that isn't valid stays so: also after its index was
/// given to a later key.
pub fn invalid_keys_law()
    ensures published { PublishedStays }
    ensures invalid { InvalidKeysStayInvalid }
{}

/// A free index has no key in a set and no valid one.
pub fn free_index_law()
    ensures { FreeIndexHasNoKey }
{}

/// A registration's new key is valid, and was no key of its index before: two keys of one index have
/// different serials.
pub fn new_key_law()
    ensures new { NewKeyIsNew }
    ensures differ { NewKeysDiffer }
{}

/// By the first rules no index is ever free, so that a registration takes none, no number is given to a second channel,
/// be it one of the group, and what a selection removes at its end are the cancelled keys below the number of indexes
/// that it began with.
pub fn first_rules_law()
    ensures free { FirstRulesFreeNone }
    ensures reopen { FirstRulesReopenNone }
    ensures group { FirstRulesReopenNoneOfTheGroup }
    ensures removed { FirstRulesRemoveBelowTheBound }
{}

/// A channel that was opened stays so, and one that was closed stays so, also after its number was given to a later
/// one, which is of the same kind. A new channel was no channel of its number before, and has no key of an earlier one:
/// as long as a key is in a key set its number has the same channel.
pub fn channels_law()
    ensures opened { OpenedStays }
    ensures closed { ClosedStays }
    ensures kind { KindStays }
    ensures new { NewChannelIsNew }
    ensures keys { KeyKeepsItsChannel }
{}

/// A number has at most one key in a key set, and the calls find just that one.
pub fn key_of_channel_law()
    ensures one { OneKeyOfAChannel }
    ensures found { KeyOfAChannelIsFound }
{}

/// A channel counts as registered exactly where a key of it is in a key set, and then isn't in blocking
/// mode.
pub fn registered_law()
    ensures told { RegisteredIsInAKeySet }
    ensures non_blocking { RegisteredIsNonBlocking }
{}

/// No key of a closed channel is valid.
pub fn closed_channel_law()
    ensures { ClosedChannelHasNoValidKey }
{}

/// A selector whose closing has ended has no key, and never has one again.
pub fn closed_selector_law()
    ensures { ClosedSelectorIsEmpty }
{}

/// The group that a script leaves is one that a run of the group leaves, so that its laws hold of it, and it is
/// lawful.
pub fn group_law()
    ensures run { GroupIsLeftByARun }
    ensures lawful { GroupIsLawful }
{}

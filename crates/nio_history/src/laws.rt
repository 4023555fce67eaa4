//! Laws of legal histories. Each is the contract of a function that does nothing.
ghost use Rattle.nio_history.specs.Staying.{BeginningsAreLegal, FactsArePermanent, InvalidKeysStayInvalid};
ghost use Rattle.nio_history.specs.Staying.{OnlyItselfGivesBack, ConditionsStay, StatesAreSound, StatesAreWithin};
ghost use Rattle.nio_history.specs.Found.{StepsLeave, LooksTell, FoundStands};
ghost use Rattle.nio_history.specs.Holders.{ChannelStays, ModeStays, EnrolledStays, FoundEnrolledStays};
ghost use Rattle.nio_history.specs.Holders.{OutsideStays};
ghost use Rattle.nio_history.specs.Holders.{FoundClearStays};
ghost use Rattle.nio_history.specs.Holders.{ClearIsTrue, SelectsAlone, KeySetStays, MarksStay, WakeupStays};
ghost use Rattle.nio_history.specs.WhatIsFound.{FindsWhatAnswers};
ghost use Rattle.nio_history.specs.Lists.{ListsAreRight, TouchedSince};
ghost use Rattle.nio_history.specs.Pins.{PinsAreOwn, TakenIsOwn, PinnedKeysStay, ClaimsAgainWhereUnpinned};
ghost use Rattle.nio_history.specs.Pins.{ChangesAreOwn, ListsAreOwn};
ghost use Rattle.nio_history.specs.Pins.{ClaimsAgainTheRemoved, OwnClaimsStand, UnpublishedKeysStay};
ghost use Rattle.nio_history.specs.Pins.{EnrolledKeysAreClaimed, SelectionsKeepKeys};
ghost use Rattle.nio_history.specs.Spans.{HasIsSaid, LastIsSaid, SpanIsSaid, ClearIsSaid};
ghost use Rattle.nio_history.specs.Turns.{TurnHasOneHolder, HoldHasOneHolder, HolderKnowsMode, OneSelectionAtATime};
ghost use Rattle.nio_history.specs.Turns.{OnlyWhoMaySelects, TakersHaveList};
ghost use Rattle.nio_history.specs.Worked.{WorkedHistoryIsLegal, RefusedEventsAreNoSteps};

/// Each beginning of a legal history is legal.
pub fn beginnings_law()
    ensures { BeginningsAreLegal }
{}

/// What is drawn, made, claimed, published, cancelled, removed, closed or shut stays so, the high-water
/// marks don't fall, a number's channels are of one kind, and a closer stays the closer. So an invalid key stays
/// invalid, also where its index is given to a new key, and a closed channel closed, also where its number is.
pub fn permanent_law()
    ensures permanent { FactsArePermanent }
    ensures invalid { InvalidKeysStayInvalid }
{}

/// A turn, a selection, a hold, a pin and a taken index last until their caller itself gives them back.
pub fn own_law()
    ensures { OnlyItselfGivesBack }
{}

/// A caller whose step is allowed by what its pass has seen may take it later too, whatever others
/// did in between.
pub fn condition_law()
    ensures { ConditionsStay }
{}

/// The state after a legal history is sound: an index below a selector's high-water mark is claimed, what is
/// held is made, a channel that isn't made and the stage of an index that isn't claimed are as they were
/// at the opening, and more. And every number that it speaks of is within the limits.
pub fn soundness_law()
    ensures sound { StatesAreSound }
    ensures within { StatesAreWithin }
{}

/// Nobody takes a turn or a hold before whoever has it gives it back; and a holder that found its channel
/// non-blocking under its hold, and set no mode since, is right.
pub fn one_holder_law()
    ensures turn { TurnHasOneHolder }
    ensures hold { HoldHasOneHolder }
    ensures mode { HolderKnowsMode }
{}

/// One selection at a time: while a caller selects, nobody else takes bits of touched indexes of the selector, marks or
/// removes a key of it or ends its wakeup. Only a caller that has begun does so; the selector's closer, once it has
/// entered, removes keys too. Only the caller that has the selector's list takes such bits.
pub fn one_selection_law()
    ensures at_a_time { OneSelectionAtATime }
    ensures allowed { OnlyWhoMaySelects }
    ensures takers { TakersHaveList }
{}

/// A caller has a pin on an index where it pinned or claimed it and didn't take the pin off since, is amid a change
/// there where it touched the index since, and has taken an index where it took it when it was free and neither put
/// it back nor claimed it since; it has a list where it took it. So the state says of them what the caller's own
/// acts say.
pub fn own_pins_law()
    ensures pins { PinsAreOwn }
    ensures taken { TakenIsOwn }
    ensures changes { ChangesAreOwn }
    ensures lists { ListsAreOwn }
{}

/// A `claim_again` succeeds exactly where nobody has a pin on the index, and only from a key that was removed.
/// So an index keeps its key until a pin on it is taken off, and while a caller has the pin of its claim, the
/// key is the one that it claimed; nobody else publishes that key. A key that is enrolled for a channel was
/// claimed for it.
pub fn pins_law()
    ensures stays { PinnedKeysStay }
    ensures where_unpinned { ClaimsAgainWhereUnpinned }
    ensures removed_before { ClaimsAgainTheRemoved }
    ensures own_claim { OwnClaimsStand }
    ensures unpublished { UnpublishedKeysStay }
    ensures enrolled { EnrolledKeysAreClaimed }
{}

/// While a caller selects, a key that isn't removed yet, and that the caller doesn't remove, keeps its index
/// and its serial.
pub fn selected_keys_law()
    ensures { SelectionsKeepKeys }
{}

/// What one step leaves: what was seen before, then events of others alone, then the step. It found what
/// the state before it gives, and the state after it is its effect.
pub fn step_law()
    ensures { StepsLeave }
{}

/// What a look found is what the state gives just after it. And what is permanent and was found stands ever after: that
/// a caller has a selector's list is found by another that asks for it.
pub fn found_law()
    ensures looks { LooksTell }
    ensures stands { FoundStands }
{}

/// While a caller holds a channel number, nobody else gives the number to a new channel, sets the mode of its
/// channel, enrols a key for it or publishes a key of it. So what the caller last found enrolled is enrolled, and
/// a key that it found outside the key set is outside. Others may still close the channel; a closing that began
/// while the channel was non-blocking may leave the closed channel non-blocking.
pub fn hold_law()
    ensures channel { ChannelStays }
    ensures mode { ModeStays }
    ensures enrolled { EnrolledStays }
    ensures found_enrolled { FoundEnrolledStays }
    ensures outside { OutsideStays }
    ensures found_clear { FoundClearStays }
    ensures clear { ClearIsTrue }
{}

/// While a caller selects, nobody else takes bits of touched indexes of the selector, marks or removes a key of it or
/// ends its wakeup; all that
/// can happen to the mark of a key is that the key is taken out of the selected set.
pub fn selection_law()
    ensures alone { SelectsAlone }
    ensures key_set { KeySetStays }
    ensures marks { MarksStay }
    ensures wakeup { WakeupStays }
{}

/// Till a closer has entered, an index that isn't touched is as the caller that has the selector's list found it when it
/// looked there last, and nobody is amid a change of it; but where that caller took the index's bit and hasn't looked
/// there since, or is in the middle of that look. An index is touched exactly where somebody touched it since the bits of
/// its word were taken last: so the bits that a selection by the list takes are of indexes that somebody touched.
pub fn list_law()
    ensures right { ListsAreRight }
    ensures touched { TouchedSince }
{}

/// What each kind of step finds, said in one line a kind, is what the state answers to its question.
pub fn answers_law()
    ensures { FindsWhatAnswers }
{}

/// What the words over a caller's own acts say, said with the acts before and after: that it did such an act, what it
/// did since an act, and that no key of the key set is enrolled for a channel.
pub fn words_law()
    ensures has { HasIsSaid }
    ensures span { SpanIsSaid }
    ensures clear { ClearIsSaid }
{}

/// The same of the answer of the latest act that has one.
pub fn last_law<A>()
    ensures { LastIsSaid A }
{}

/// There are legal histories in which every kind of step stands, and events that can't follow.
pub fn worked_history_law()
    ensures legal { WorkedHistoryIsLegal }
    ensures refused { RefusedEventsAreNoSteps }
{}

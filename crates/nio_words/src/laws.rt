//! What follows from the table's rule and from the laws of legal histories alone. The functions do
//! nothing: their contracts are laws.
ghost use Rattle.nio_words.specs.Laws.{CallsGoOn, DrawsGoOn, SplitsGoOn, JoinsGoOn, GoingOnChains, HistoriesGoOn};
ghost use Rattle.nio_words.specs.Laws.{FactsStand, InvalidKeysStand, OwnStands, PinnedKeysStand};
ghost use Rattle.nio_words.specs.Laws.{ChannelStands, ModeStands, EnrolledStands, FoundEnrolledStands};
ghost use Rattle.nio_words.specs.Laws.{OutsideStands, FoundClearStands};
ghost use Rattle.nio_words.specs.Laws.{SelectsAlone, KeySetStands, SelectedKeysStand, MarksStand, WakeupStands};
ghost use Rattle.nio_words.specs.Whole.{HoldersOfAllSeeAll};

/// A pass that holds every number below the limit has seen the whole history.
pub fn whole_law()
    ensures { HoldersOfAllSeeAll }
{}

/// The other laws speak of a pass and a later one. A later pass is what a call, a draw, a split or a joining
/// leaves, and what several of them leave one after the other. The events that were seen in between are a
/// history, so the laws of `nio_history` apply to them.
pub fn going_on_law()
    ensures calls { CallsGoOn }
    ensures draws { DrawsGoOn }
    ensures splits { SplitsGoOn }
    ensures joins { JoinsGoOn }
    ensures chains { GoingOnChains }
    ensures histories { HistoriesGoOn }
{}

/// What is drawn, made, claimed, published, cancelled, removed, closed or shut, and what is below a high-water
/// mark, is so in what every later pass has seen, and a key that was published and isn't valid isn't valid there.
/// So is a channel closed there that was closed, also where its number was given to a new one.
pub fn permanent_law()
    ensures facts { FactsStand }
    ensures invalid { InvalidKeysStand }
{}

/// A turn, a selection, a hold, a pin and a taken index last until the caller that has them gives them back;
/// and a pinned index keeps its key.
pub fn own_law()
    ensures stands { OwnStands }
    ensures pinned { PinnedKeysStand }
{}

/// While a caller holds a channel number nobody else gives it to a new channel, sets the channel's mode, enrols
/// a key for it or publishes one of its keys. So what the caller found of these stands until it changes it or gives
/// the hold back; only a closing by others may leave the closed channel non-blocking.
pub fn hold_law()
    ensures channel { ChannelStands }
    ensures mode { ModeStands }
    ensures enrolled { EnrolledStands }
    ensures found_enrolled { FoundEnrolledStands }
    ensures outside { OutsideStands }
    ensures found_clear { FoundClearStands }
{}

/// While a caller selects nobody else takes bits of touched indexes of the selector, marks or removes a key of it or ends
/// its wakeup. So until
/// the caller itself does so or gives the turn back, a key stays in the key set and keeps its index, a pending
/// wakeup stays pending, and a key's mark changes at most by being taken out of the selected set.
pub fn selection_law()
    ensures alone { SelectsAlone }
    ensures key_set { KeySetStands }
    ensures keys { SelectedKeysStand }
    ensures marks { MarksStand }
    ensures wakeup { WakeupStands }
{}

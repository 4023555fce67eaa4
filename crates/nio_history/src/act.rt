//! The kinds of atomic step. Each step reads or changes one word of the shared table, at one moment.
use crate::found::{Chan, GateWord, IndexWord, Mark, Stage};
use nio_base::{CallerNo, ChanNo, KeyId, Kind, Ops, SelNo};

/// A step: its kind, its parameters in their order, and last what it found, which is its answer.
/// A step that changes a part of the state finds what stood there before; giving back a turn, a hold or a
/// pin, and putting an index, find nothing.
#[derive(Clone, Copy, Debug)]
pub enum Act {
    /// Draws a caller's number: whether it was drawn.
    DrawBit(CallerNo, bool),
    /// Makes a selector: whether it was made.
    MakeSelector(SelNo, bool),
    /// Looks at all selectors: bit s of the answer is set where selector s is made.
    LookSelectors(u64),
    /// Leaves a wakeup: whether one was pending.
    Wake(SelNo, bool),
    /// Looks at a selector's gate.
    LookGate(SelNo, GateWord),
    /// Sets a caller's interrupt status: whether it was set.
    SetInterrupt(CallerNo, bool),
    /// Clears the caller's own interrupt status: whether it was set.
    TakeInterrupt(bool),
    /// Looks at the caller's own interrupt status.
    LookInterrupt(bool),
    /// Looks at how far a key's index has come.
    LookKey(SelNo, u32, Stage),
    /// Cancels a key.
    CancelKey(SelNo, u32, Stage),
    /// Looks at a key's interest set.
    LookInterest(SelNo, u32, Ops),
    /// Puts an interest set in the place of a key's own.
    SwapInterest(SelNo, u32, Ops, Ops),
    /// Adds operations to a key's interest set.
    OrInterest(SelNo, u32, Ops, Ops),
    /// Keeps of a key's interest set only what the given set has too.
    AndInterest(SelNo, u32, Ops, Ops),
    /// Puts an attachment in the place of a key's own.
    SwapNote(SelNo, u32, u64, u64),
    /// Looks at a key's attachment.
    LookNote(SelNo, u32, u64),
    /// Makes a number's first channel, of this kind, open and in blocking mode: whether it was made.
    MakeChannel(ChanNo, Kind, bool),
    /// Looks at a channel.
    LookChannel(ChanNo, Chan),
    /// Claims an index of a selector for its first key, a key of this channel, and pins it: whether it was claimed.
    Claim(SelNo, u32, ChanNo, bool),
    /// Raises a selector's keys' high-water mark to this number, unless it is as high or higher.
    RaiseKeys(SelNo, u32, u32),
    /// Looks at a selector's keys' high-water mark.
    LookKeys(SelNo, u32),
    /// Publishes a key: its registration is complete.
    Publish(SelNo, u32, Stage),
    /// Looks at which key is enrolled for a channel in a selector.
    LookReg(ChanNo, SelNo, Option<KeyId>),
    /// Enrols a key, by its index and its serial, for a channel in a selector.
    Enrol(ChanNo, SelNo, u32, u32, Option<KeyId>),
    /// Takes the turn to select on a selector, where nobody has it: who had it.
    TakeTurn(SelNo, Option<CallerNo>),
    /// Looks at a selector's gate as the holder of its turn, and begins a selection where it isn't shut.
    BeginLook(SelNo, GateWord),
    /// Gives the turn back, and ends the selection.
    GiveTurn(SelNo),
    /// Removes a key from its selector.
    Remove(SelNo, u32, Stage),
    /// Looks at whether a key is selected, and at its ready set.
    LookMark(SelNo, u32, Mark),
    /// Selects a key for what the poller told of it, where its mark is the one that is named: the
    /// error is the mark that stands there.
    Mark(SelNo, u32, Mark, Ops, Result<(), Mark>),
    /// Takes a key out of the selected set: whether it was selected.
    UnselectBit(SelNo, u32, bool),
    /// Clears a selector's wakeup.
    EndWake(SelNo, GateWord),
    /// Looks at the channels' high-water mark.
    LookChannels(u32),
    /// Raises the channels' high-water mark to this number, unless it is as high or higher.
    RaiseChannels(u32, u32),
    /// Takes the hold of a channel, where nobody has it: who had it.
    TryHoldBit(ChanNo, Option<CallerNo>),
    /// Gives the hold of a channel back.
    Release(ChanNo),
    /// Sets whether a channel is in blocking mode.
    SetMode(ChanNo, bool, Chan),
    /// Closes the channel that was found so, open, unless its mode was set to non-blocking since or the number has
    /// another one: the channel that stands there.
    CloseBit(ChanNo, Chan, Chan),
    /// Shuts a selector, and makes the caller its closer where it wasn't shut: whether it was shut.
    ShutBit(SelNo, bool),
    /// Looks at the turn as the selector's closer, and enters where nobody has it: who has it.
    Enter(SelNo, Option<CallerNo>),
    /// Pins an index: until the caller unpins it, it isn't claimed again.
    Pin(SelNo, u32, Stage),
    /// Takes the caller's pin off an index.
    Unpin(SelNo, u32),
    /// Clears the mark of a key that isn't published yet.
    ClearMark(SelNo, u32, Mark),
    /// Claims an index again, from the stage of its removed key, for a new key of this channel with the
    /// next serial, and pins it, where nobody has a pin on it: whether somebody had one.
    ClaimAgain(SelNo, u32, ChanNo, Stage, bool),
    /// Looks at which of 64 indexes of a selector are free, the first of which is 64 times the number:
    /// bit b of the answer is set where index 64 times the number plus b is free.
    LookFree(SelNo, u32, u64),
    /// Makes an index free.
    PutFree(SelNo, u32),
    /// Takes an index out of the free ones: whether it was free.
    TakeFree(SelNo, u32, bool),
    /// Gives the number of a closed channel, from the channel that was found, to a new channel of its kind with the
    /// next serial, open and in blocking mode, where that channel stands there: whether another one does.
    Reopen(ChanNo, Chan, bool),
    /// Touches an index: tells the caller that has the selector's list to look there. Whether it was touched.
    Touch(SelNo, u32, bool),
    /// Looks at which of 64 indexes of a selector are touched, the first of which is 64 times the number:
    /// bit b of the answer is set where index 64 times the number plus b is touched.
    LookTouched(SelNo, u32, u64),
    /// Takes the bits of 64 indexes, so that none of them is touched any more: which of them were.
    TakeTouched(SelNo, u32, u64),
    /// Looks at how far a key's index has come, and at whether it is pinned.
    LookIndex(SelNo, u32, IndexWord),
    /// Takes a selector's list, where nobody has it: who had it.
    TakeList(SelNo, Option<CallerNo>),
}

//! The worked history of `nio_history`, in which each kind of step stands, in parts, without its two draws.
ghost use Rattle.nio_table_tests.specs.Following.{IsPart};

use crate::tables::{ONE, S, ZERO};
use nio_base::{CallerNo, ChanNo, KeyId, Kind, Ops};
use nio_history::{Act, Chan, GateWord, IndexWord, Mark, Stage};

pub(crate) const C: ChanNo = ChanNo(0);

pub(crate) const CLAIMED: Stage = Stage {
    claimed: true,
    published: false,
    cancelled: false,
    removed: false,
    chan: C,
    serial: 0,
};

pub(crate) const VALID: Stage = Stage {
    claimed: true,
    published: true,
    cancelled: false,
    removed: false,
    chan: C,
    serial: 0,
};

pub(crate) const CANCELLED: Stage = Stage {
    claimed: true,
    published: true,
    cancelled: true,
    removed: false,
    chan: C,
    serial: 0,
};

pub(crate) const REMOVED: Stage = Stage {
    claimed: true,
    published: true,
    cancelled: true,
    removed: true,
    chan: C,
    serial: 0,
};

pub(crate) const NEXT_CLAIMED: Stage = Stage {
    claimed: true,
    published: false,
    cancelled: false,
    removed: false,
    chan: C,
    serial: 1,
};

pub(crate) const NEXT_VALID: Stage = Stage {
    claimed: true,
    published: true,
    cancelled: false,
    removed: false,
    chan: C,
    serial: 1,
};

pub(crate) const NEXT_CANCELLED: Stage = Stage {
    claimed: true,
    published: true,
    cancelled: true,
    removed: false,
    chan: C,
    serial: 1,
};

pub(crate) const NEXT_REMOVED: Stage = Stage {
    claimed: true,
    published: true,
    cancelled: true,
    removed: true,
    chan: C,
    serial: 1,
};

pub(crate) const BLOCKING: Chan = Chan {
    made: true,
    kind: Kind::Source,
    closed: false,
    blocking: true,
    serial: 0,
};

pub(crate) const UNBLOCKED: Chan = Chan {
    made: true,
    kind: Kind::Source,
    closed: false,
    blocking: false,
    serial: 0,
};

pub(crate) const CLOSED: Chan = Chan {
    made: true,
    kind: Kind::Source,
    closed: true,
    blocking: true,
    serial: 0,
};

/// The one that has the channel's number after it.
pub(crate) const NEXT_CHANNEL: Chan = Chan {
    made: true,
    kind: Kind::Source,
    closed: false,
    blocking: true,
    serial: 1,
};

pub(crate) const QUIET: GateWord = GateWord {
    woken: false,
    shut: false,
};

pub(crate) const WOKEN: GateWord = GateWord {
    woken: true,
    shut: false,
};

pub(crate) const SHUT: GateWord = GateWord {
    woken: false,
    shut: true,
};

pub(crate) const UNMARKED: Mark = Mark {
    selected: false,
    ready: Ops::NONE,
};

pub(crate) const READABLE: Mark = Mark {
    selected: true,
    ready: Ops::READ,
};

/// The index while its first key is valid and nobody has a pin on it.
pub(crate) const UNPINNED: IndexWord = IndexWord {
    stage: VALID,
    pinned: false,
};

/// The same once its next key is cancelled and somebody has a pin on it.
pub(crate) const PINNED: IndexWord = IndexWord {
    stage: NEXT_CANCELLED,
    pinned: true,
};

pub(crate) const FIRST: KeyId = KeyId {
    index: 0,
    serial: 0,
};

pub(crate) const NEXT: KeyId = KeyId {
    index: 0,
    serial: 1,
};

/// Caller 0 opens a selector and a channel.
pub(crate) fn opening() -> [(CallerNo, Act); 6]
    ensures { IsPart 2 result }
{
    [
        (ZERO, Act::MakeSelector(S, false)),
        (ZERO, Act::LookSelectors(1)),
        (ZERO, Act::LookChannels(0)),
        (ZERO, Act::MakeChannel(C, Kind::Source, false)),
        (ZERO, Act::RaiseChannels(1, 0)),
        (ZERO, Act::LookChannels(1)),
    ]
}

/// It sets non-blocking mode; caller 1 finds the hold taken.
pub(crate) fn set_non_blocking() -> [(CallerNo, Act); 6]
    ensures { IsPart 8 result }
{
    [
        (ZERO, Act::LookChannel(C, BLOCKING)),
        (ZERO, Act::TryHoldBit(C, None)),
        (ONE, Act::TryHoldBit(C, Some(ZERO))),
        (ZERO, Act::LookChannel(C, BLOCKING)),
        (ZERO, Act::SetMode(C, false, BLOCKING)),
        (ZERO, Act::Release(C)),
    ]
}

/// It registers the channel: no index was claimed yet, so it claims index 0, which pins it.
pub(crate) fn registering() -> [(CallerNo, Act); 16]
    ensures { IsPart 14 result }
{
    [
        (ZERO, Act::TryHoldBit(C, None)),
        (ZERO, Act::LookChannel(C, UNBLOCKED)),
        (ZERO, Act::LookReg(C, S, None)),
        (ZERO, Act::LookGate(S, QUIET)),
        (ZERO, Act::LookKeys(S, 0)),
        (ZERO, Act::Claim(S, 0, C, false)),
        (ZERO, Act::RaiseKeys(S, 1, 0)),
        (ZERO, Act::LookGate(S, QUIET)),
        (ZERO, Act::Touch(S, 0, false)),
        (ZERO, Act::SwapInterest(S, 0, Ops::READ, Ops::NONE)),
        (ZERO, Act::SwapNote(S, 0, 7, 0)),
        (ZERO, Act::Enrol(C, S, 0, 0, None)),
        (ZERO, Act::Publish(S, 0, CLAIMED)),
        (ZERO, Act::LookChannel(C, UNBLOCKED)),
        (ZERO, Act::Unpin(S, 0)),
        (ZERO, Act::Release(C)),
    ]
}

/// Under a pin it changes the interest set to and fro.
pub(crate) fn changing_interest() -> [(CallerNo, Act); 6]
    ensures { IsPart 30 result }
{
    let operations = Ops::READ.union(Ops::WRITE);
    [
        (ZERO, Act::Pin(S, 0, VALID)),
        (ZERO, Act::Touch(S, 0, true)),
        (ZERO, Act::OrInterest(S, 0, Ops::WRITE, Ops::READ)),
        (ZERO, Act::AndInterest(S, 0, Ops::READ, operations)),
        (ZERO, Act::LookNote(S, 0, 7)),
        (ZERO, Act::Unpin(S, 0)),
    ]
}

/// It begins a selection; caller 1 finds the turn taken.
pub(crate) fn beginning() -> [(CallerNo, Act); 5]
    ensures { IsPart 36 result }
{
    [
        (ZERO, Act::TakeTurn(S, None)),
        (ONE, Act::TakeTurn(S, Some(ZERO))),
        (ZERO, Act::BeginLook(S, QUIET)),
        (ZERO, Act::LookKeys(S, 1)),
        (ZERO, Act::LookFree(S, 0, 0)),
    ]
}

/// It takes the selector's list, which caller 1 finds taken, and the bit of index 0, and looks there.
pub(crate) fn taking_the_list() -> [(CallerNo, Act); 7]
    ensures { IsPart 41 result }
{
    [
        (ZERO, Act::TakeList(S, None)),
        (ONE, Act::TakeList(S, Some(ZERO))),
        (ZERO, Act::LookTouched(S, 0, 1)),
        (ZERO, Act::TakeTouched(S, 0, 1)),
        (ZERO, Act::LookIndex(S, 0, UNPINNED)),
        (ZERO, Act::LookKey(S, 0, VALID)),
        (ZERO, Act::LookInterest(S, 0, Ops::READ)),
    ]
}

/// Caller 1 wakes it, and cancels the key under a pin, which it keeps.
pub(crate) fn waking_and_cancelling() -> [(CallerNo, Act); 4]
    ensures { IsPart 48 result }
{
    [
        (ONE, Act::Wake(S, false)),
        (ONE, Act::Pin(S, 0, VALID)),
        (ONE, Act::Touch(S, 0, false)),
        (ONE, Act::CancelKey(S, 0, VALID)),
    ]
}

/// It is told of the key twice, and ends the selection: the key is removed, and its index becomes free.
pub(crate) fn marking_and_ending() -> [(CallerNo, Act); 13]
    ensures { IsPart 52 result }
{
    let operations = Ops::READ.union(Ops::WRITE);
    [
        (ZERO, Act::LookMark(S, 0, UNMARKED)),
        (ZERO, Act::Mark(S, 0, UNMARKED, Ops::READ, Ok(()))),
        (ZERO, Act::Mark(S, 0, UNMARKED, Ops::READ, Err(READABLE))),
        (ZERO, Act::Mark(S, 0, READABLE, Ops::WRITE, Ok(()))),
        (
            ZERO,
            Act::LookMark(
                S,
                0,
                Mark {
                    selected: true,
                    ready: operations,
                },
            ),
        ),
        (ZERO, Act::LookGate(S, WOKEN)),
        (ZERO, Act::LookInterrupt(false)),
        (ZERO, Act::LookTouched(S, 0, 1)),
        (ZERO, Act::LookKey(S, 0, CANCELLED)),
        (ZERO, Act::Remove(S, 0, CANCELLED)),
        (ZERO, Act::PutFree(S, 0)),
        (ZERO, Act::EndWake(S, WOKEN)),
        (ZERO, Act::GiveTurn(S)),
    ]
}

/// It registers the channel again: index 0 is free, but caller 1 still has its pin on it.
pub(crate) fn finding_it_pinned() -> [(CallerNo, Act); 14]
    ensures { IsPart 65 result }
{
    [
        (ZERO, Act::LookChannel(C, UNBLOCKED)),
        (ZERO, Act::TryHoldBit(C, None)),
        (ZERO, Act::LookChannel(C, UNBLOCKED)),
        (ZERO, Act::LookReg(C, S, Some(FIRST))),
        (ZERO, Act::Pin(S, 0, REMOVED)),
        (ZERO, Act::Unpin(S, 0)),
        (ZERO, Act::LookGate(S, QUIET)),
        (ZERO, Act::LookKeys(S, 1)),
        (ZERO, Act::LookFree(S, 0, 1)),
        (ZERO, Act::TakeFree(S, 0, true)),
        (ONE, Act::TakeFree(S, 0, false)),
        (ZERO, Act::LookKey(S, 0, REMOVED)),
        (ZERO, Act::ClaimAgain(S, 0, C, REMOVED, true)),
        (ZERO, Act::PutFree(S, 0)),
    ]
}

/// Caller 1 takes its pin off: now the index is given again, to a key with serial 1.
pub(crate) fn registering_again() -> [(CallerNo, Act); 16]
    ensures { IsPart 79 result }
{
    let operations = Ops::READ.union(Ops::WRITE);
    [
        (ONE, Act::UnselectBit(S, 0, true)),
        (ONE, Act::Unpin(S, 0)),
        (ZERO, Act::LookFree(S, 0, 1)),
        (ZERO, Act::TakeFree(S, 0, true)),
        (ZERO, Act::LookKey(S, 0, REMOVED)),
        (ZERO, Act::ClaimAgain(S, 0, C, REMOVED, false)),
        (
            ZERO,
            Act::ClearMark(
                S,
                0,
                Mark {
                    selected: false,
                    ready: operations,
                },
            ),
        ),
        (ZERO, Act::LookGate(S, QUIET)),
        (ZERO, Act::Touch(S, 0, true)),
        (ZERO, Act::SwapInterest(S, 0, Ops::READ, Ops::READ)),
        (ZERO, Act::SwapNote(S, 0, 0, 7)),
        (ZERO, Act::Enrol(C, S, 0, 1, Some(FIRST))),
        (ZERO, Act::Publish(S, 0, NEXT_CLAIMED)),
        (ZERO, Act::LookChannel(C, UNBLOCKED)),
        (ZERO, Act::Unpin(S, 0)),
        (ZERO, Act::Release(C)),
    ]
}

/// It cancels this key too, and a selection removes it. That finds the index pinned by caller 1, so it touches it
/// again.
pub(crate) fn removing_again() -> [(CallerNo, Act); 19]
    ensures { IsPart 95 result }
{
    [
        (ZERO, Act::Pin(S, 0, NEXT_VALID)),
        (ZERO, Act::LookMark(S, 0, UNMARKED)),
        (ZERO, Act::Touch(S, 0, true)),
        (ZERO, Act::CancelKey(S, 0, NEXT_VALID)),
        (ZERO, Act::Unpin(S, 0)),
        (ONE, Act::Pin(S, 0, NEXT_CANCELLED)),
        (ZERO, Act::TakeTurn(S, None)),
        (ZERO, Act::BeginLook(S, QUIET)),
        (ZERO, Act::LookKeys(S, 1)),
        (ZERO, Act::LookFree(S, 0, 0)),
        (ZERO, Act::TakeTouched(S, 0, 1)),
        (ZERO, Act::LookIndex(S, 0, PINNED)),
        (ZERO, Act::Touch(S, 0, false)),
        (ZERO, Act::LookKey(S, 0, NEXT_CANCELLED)),
        (ZERO, Act::Remove(S, 0, NEXT_CANCELLED)),
        (ZERO, Act::PutFree(S, 0)),
        (ZERO, Act::EndWake(S, QUIET)),
        (ZERO, Act::GiveTurn(S)),
        (ONE, Act::Unpin(S, 0)),
    ]
}

/// Caller 1 sets blocking mode again: the enrolled key is removed.
pub(crate) fn blocking_again() -> [(CallerNo, Act); 5]
    ensures { IsPart 114 result }
{
    [
        (ONE, Act::TryHoldBit(C, None)),
        (ONE, Act::LookReg(C, S, Some(NEXT))),
        (ONE, Act::LookKey(S, 0, NEXT_REMOVED)),
        (ONE, Act::SetMode(C, true, UNBLOCKED)),
        (ONE, Act::Release(C)),
    ]
}

/// It closes the channel and the selector, and interrupts caller 0.
pub(crate) fn closing() -> [(CallerNo, Act); 11]
    ensures { IsPart 119 result }
{
    [
        (ONE, Act::CloseBit(C, BLOCKING, BLOCKING)),
        (ONE, Act::LookChannel(C, CLOSED)),
        (ONE, Act::ShutBit(S, false)),
        (ONE, Act::LookGate(S, SHUT)),
        (ZERO, Act::ShutBit(S, true)),
        (ONE, Act::Enter(S, None)),
        (ONE, Act::LookKeys(S, 1)),
        (ONE, Act::Remove(S, 0, NEXT_REMOVED)),
        (ONE, Act::SetInterrupt(ZERO, false)),
        (ZERO, Act::TakeInterrupt(true)),
        (ZERO, Act::LookInterrupt(false)),
    ]
}

/// Caller 1 gives the channel's number to a new channel, once; a closing of the old one that comes late leaves it.
pub(crate) fn reopening() -> [(CallerNo, Act); 8]
    ensures { IsPart 130 result }
{
    [
        (ONE, Act::TryHoldBit(C, None)),
        (ONE, Act::LookReg(C, S, Some(NEXT))),
        (ONE, Act::LookKey(S, 0, NEXT_REMOVED)),
        (ONE, Act::Reopen(C, CLOSED, false)),
        (ONE, Act::Reopen(C, CLOSED, true)),
        (ONE, Act::Release(C)),
        (ZERO, Act::CloseBit(C, BLOCKING, NEXT_CHANNEL)),
        (ZERO, Act::LookChannel(C, NEXT_CHANNEL)),
    ]
}

//! The worked history is legal, and events that are no steps are refused at their places.
use crate::tables::{ONE as V, S, ZERO as U};
use crate::words::SMALL;
use crate::words::history::{
    self, BLOCKING, C, CLAIMED, CLOSED, FIRST, NEXT, NEXT_CHANNEL, NEXT_REMOVED, QUIET, READABLE,
    REMOVED, UNBLOCKED, UNMARKED, VALID,
};
use nio_audit::{AuditError, audit};
use nio_base::{CallerNo, Kind, Ops};
use nio_history::{Act, Chan, Event, IndexWord, Mark};
use std::alloc::{AllocError, Global};
use std::process::Abort;

/// An event in the place of the one that stands there in the worked history.
type Row = (usize, CallerNo, Act);

/// The worked history, in which each kind of step stands.
fn worked(alloc: Global) -> Result<Vec<Event>, AllocError> {
    let mut events = Vec::new(alloc);
    let draws = [(U, Act::DrawBit(U, false)), (V, Act::DrawBit(V, false))];
    add(&mut events, &draws)?;
    add(&mut events, &history::opening())?;
    add(&mut events, &history::set_non_blocking())?;
    add(&mut events, &history::registering())?;
    add(&mut events, &history::changing_interest())?;
    add(&mut events, &history::beginning())?;
    add(&mut events, &history::taking_the_list())?;
    add(&mut events, &history::waking_and_cancelling())?;
    add(&mut events, &history::marking_and_ending())?;
    add(&mut events, &history::finding_it_pinned())?;
    add(&mut events, &history::registering_again())?;
    add(&mut events, &history::removing_again())?;
    add(&mut events, &history::blocking_again())?;
    add(&mut events, &history::closing())?;
    add(&mut events, &history::reopening())?;
    Ok(events)
}

fn add(events: &mut Vec<Event>, steps: &[(CallerNo, Act)]) -> Result<(), AllocError> {
    for (caller, act) in steps {
        events.push(Event {
            caller: *caller,
            act: *act,
        })?;
    }
    Ok(())
}

/// The verdict on the worked history with this row.
fn verdict_with(alloc: Global, row: Row) -> Result<Result<(), AuditError>, AllocError> {
    let (place, caller, act) = row;
    let mut events = worked(alloc)?;
    if let Some(stands) = events.get_mut(place) {
        *stands = Event { caller, act };
    }
    Ok(audit(alloc, SMALL, &events))
}

/// Each row is refused at its place.
fn are_refused<R: Abort>(rt: &R, alloc: Global, rows: &[Row]) -> Result<(), AllocError> {
    for row in rows {
        let refused = Err(AuditError::NotAStep { at: row.0 as u64 });
        assert_eq!(rt; verdict_with(alloc, *row)?, refused, "{row:?}");
    }
    Ok(())
}

const VALID_AND_PINNED: IndexWord = IndexWord {
    stage: VALID,
    pinned: true,
};

/// Events of the worked history with another answer, each with its place.
const ALTERED: [Row; 17] = [
    (3, U, Act::LookSelectors(0)),
    (10, V, Act::TryHoldBit(C, None)),
    (16, U, Act::LookReg(C, S, Some(FIRST))),
    (22, U, Act::Touch(S, 0, true)),
    (23, U, Act::SwapInterest(S, 0, Ops::READ, Ops::READ)),
    (34, U, Act::LookNote(S, 0, 0)),
    (37, V, Act::TakeTurn(S, None)),
    (43, U, Act::LookTouched(S, 0, 0)),
    (45, U, Act::LookIndex(S, 0, VALID_AND_PINNED)),
    (53, U, Act::Mark(S, 0, UNMARKED, Ops::READ, Err(UNMARKED))),
    (73, U, Act::LookFree(S, 0, 0)),
    (77, U, Act::ClaimAgain(S, 0, C, REMOVED, false)),
    (90, U, Act::Enrol(C, S, 0, 1, Some(NEXT))),
    (119, V, Act::CloseBit(C, BLOCKING, CLOSED)),
    (122, V, Act::LookGate(S, QUIET)),
    (129, U, Act::LookInterrupt(true)),
    (136, U, Act::CloseBit(C, BLOCKING, CLOSED)),
];

const REFUSED_AT_FIRST: [Row; 11] = [
    // a number is drawn once, and by its own caller
    (1, U, Act::DrawBit(U, true)),
    (1, U, Act::DrawBit(U, false)),
    (1, V, Act::DrawBit(U, false)),
    // a selector is woken once it is made
    (2, V, Act::Wake(S, false)),
    // only the holder of a channel sets its mode or claims for it
    (11, V, Act::SetMode(C, false, BLOCKING)),
    (14, U, Act::Claim(S, 0, C, false)),
    // what a step finds is what stands there
    (19, U, Act::Claim(S, 0, C, true)),
    // only who claimed an index publishes its key, and only with the pin of that claim
    (26, V, Act::Publish(S, 0, CLAIMED)),
    (29, U, Act::Publish(S, 0, VALID)),
    // a caller has one pin on an index at most, and takes off only its own
    (31, U, Act::Pin(S, 0, VALID)),
    (31, V, Act::Unpin(S, 0)),
];

const REFUSED_LATER: [Row; 12] = [
    // a step on a key is made under a pin
    (36, U, Act::OrInterest(S, 0, Ops::WRITE, Ops::READ)),
    (36, U, Act::CancelKey(S, 0, VALID)),
    // only the holder of the turn begins a selection
    (38, V, Act::BeginLook(S, QUIET)),
    // a selection removes no key that is not cancelled, and none twice
    (48, U, Act::Remove(S, 0, VALID)),
    (62, U, Act::Remove(S, 0, REMOVED)),
    // only the selecting caller marks, and only what it is told of and finds
    (53, V, Act::Mark(S, 0, UNMARKED, Ops::READ, Ok(()))),
    (53, U, Act::Mark(S, 0, UNMARKED, Ops::NONE, Ok(()))),
    (53, U, Act::Mark(S, 0, READABLE, Ops::WRITE, Ok(()))),
    // an index is put by the caller whose selection removed its key, or that has taken it, and once
    (62, V, Act::PutFree(S, 0)),
    (63, U, Act::PutFree(S, 0)),
    (75, V, Act::PutFree(S, 0)),
    (85, U, Act::PutFree(S, 0)),
];

const REFUSED_AT_LAST: [Row; 11] = [
    // an index is claimed again from what the caller found since it took it, and not while it is pinned
    (75, U, Act::ClaimAgain(S, 0, C, REMOVED, true)),
    (77, U, Act::ClaimAgain(S, 0, C, REMOVED, false)),
    (84, V, Act::ClaimAgain(S, 0, C, REMOVED, false)),
    // a mark is cleared before the key is published
    (92, U, Act::ClearMark(S, 0, UNMARKED)),
    // a key is enrolled with the serial of the claim
    (90, U, Act::Enrol(C, S, 0, 0, Some(FIRST))),
    // a channel goes back to blocking mode only after a look at its enrolled keys, since it enrolled one itself
    (115, V, Act::SetMode(C, true, UNBLOCKED)),
    (116, V, Act::SetMode(C, true, UNBLOCKED)),
    (92, U, Act::SetMode(C, true, UNBLOCKED)),
    // a closer removes after it has entered, and what it has found below the high-water mark since
    (124, V, Act::Remove(S, 0, NEXT_REMOVED)),
    (125, V, Act::Remove(S, 0, NEXT_REMOVED)),
    // only the closer enters
    (124, U, Act::Enter(S, None)),
];

const OF_ANOTHER_KIND: Chan = Chan {
    made: true,
    kind: Kind::Stream,
    closed: false,
    blocking: true,
    serial: 0,
};

const REFUSED_OF_CHANNELS: [Row; 10] = [
    // a channel is closed from one that was found open, of the kind and of a serial that its number has or had
    (130, U, Act::CloseBit(C, CLOSED, CLOSED)),
    (130, U, Act::CloseBit(C, OF_ANOTHER_KIND, CLOSED)),
    (130, U, Act::CloseBit(C, NEXT_CHANNEL, CLOSED)),
    // a number is given to a new channel by its holder, after a look at its enrolled keys under this hold
    (130, V, Act::Reopen(C, CLOSED, false)),
    (131, V, Act::Reopen(C, CLOSED, false)),
    (132, V, Act::Reopen(C, CLOSED, false)),
    (133, U, Act::Reopen(C, CLOSED, false)),
    // the channel that stands there gives it, where it is closed, and no other one
    (133, V, Act::Reopen(C, CLOSED, true)),
    (134, V, Act::Reopen(C, CLOSED, false)),
    (134, V, Act::Reopen(C, NEXT_CHANNEL, false)),
];

const REFUSED_OF_TOUCHES: [Row; 11] = [
    // an index is touched by who has a pin on it, or has begun
    (31, V, Act::Touch(S, 0, true)),
    // a change is made by who touched the index since it pinned it
    (22, U, Act::SwapInterest(S, 0, Ops::READ, Ops::NONE)),
    (22, U, Act::Publish(S, 0, CLAIMED)),
    (31, U, Act::OrInterest(S, 0, Ops::WRITE, Ops::READ)),
    (31, U, Act::AndInterest(S, 0, Ops::READ, Ops::READ)),
    (50, V, Act::CancelKey(S, 0, VALID)),
    // a list is taken once, and only who has it takes the bits, while it selects
    (41, U, Act::TakeTouched(S, 0, 1)),
    (42, V, Act::TakeList(S, None)),
    (43, V, Act::TakeTouched(S, 0, 1)),
    (37, U, Act::TakeTouched(S, 0, 1)),
    // what is touched is what stands there
    (44, U, Act::TakeTouched(S, 0, 0)),
];

#[test]
fn worked_history_is_legal(rt: HostRuntime) -> Result<(), AllocError> {
    let alloc = rt.alloc();
    let events = worked(alloc)?;
    assert_eq!(&rt; audit(alloc, SMALL, &events), Ok(()));
    Ok(())
}

#[test]
fn refused_events_are_no_steps(rt: HostRuntime) -> Result<(), AllocError> {
    let (first, later, last) = (REFUSED_AT_FIRST, REFUSED_LATER, REFUSED_AT_LAST);
    let (of_channels, of_touches) = (REFUSED_OF_CHANNELS, REFUSED_OF_TOUCHES);
    are_refused(&rt, rt.alloc(), &first)?;
    are_refused(&rt, rt.alloc(), &later)?;
    // A mark is cleared by who claimed the index.
    let mark = Mark {
        selected: false,
        ready: Ops::READ.union(Ops::WRITE),
    };
    are_refused(&rt, rt.alloc(), &[(85, V, Act::ClearMark(S, 0, mark))])?;
    are_refused(&rt, rt.alloc(), &last)?;
    are_refused(&rt, rt.alloc(), &of_channels)?;
    are_refused(&rt, rt.alloc(), &of_touches)
}

#[test]
fn other_answers_are_refused(rt: HostRuntime) -> Result<(), AllocError> {
    let altered = ALTERED;
    are_refused(&rt, rt.alloc(), &altered)
}

//! Calls of one caller that change a key, step by step. Each touches the key's index just before its change; in between
//! the caller, which has the selector's list, takes the bit. So each touch finds it clear.
ghost use Rattle.nio_record.specs.Recorded.{IsRecorded};

use super::{CHANNEL, Found, GATE, OPEN, READS, STAGE, agree};
use crate::tables::{S, ZERO};
use crate::words::SMALL as TABLE;
use crate::words::history::{BLOCKING, C, CANCELLED, CLAIMED, FIRST, UNBLOCKED, VALID};
use nio_audit::audit;
use nio_base::{Kind, Ops};
use nio_history::{Act, Chan};
use nio_record::{RecordError, Recorder};
use std::alloc::Global;
use std::test::Fail;

/// A step, and what it finds.
type Row = (Act, Found);

/// The channel as its closer leaves it.
const CLOSED: Chan = Chan {
    made: true,
    kind: Kind::Source,
    closed: true,
    blocking: false,
    serial: 0,
};

const NOTHING: Found = Found::Interest(Ops::NONE);

// Steps that several calls make.

const LOOKS: Row = (Act::LookChannel(C, CHANNEL), Found::Channel(UNBLOCKED));

const HOLDS: Row = (Act::TryHoldBit(C, None), Found::Other);

const RELEASES: Row = (Act::Release(C), Found::Other);

const LOOKS_AT_GATE: Row = (Act::LookGate(S, GATE), OPEN);

const FINDS_KEY: Row = (Act::LookReg(C, S, None), Found::Noted(Some(FIRST)));

const PINS: Row = (Act::Pin(S, 0, STAGE), Found::Key(VALID));

const UNPINS: Row = (Act::Unpin(S, 0), Found::Other);

const TOUCHES: Row = (Act::Touch(S, 0, false), Found::Flag(false));

/// Makes these steps. Says whether each finds what is listed.
fn finds(r: &mut Recorder, alloc: Global, rows: &[Row]) -> Result<bool, RecordError>
    requires { IsRecorded r.old }
    ensures { IsRecorded r.new }
{
    Ok(agree(r, alloc, ZERO, rows)? == rows.len())
}

/// The same of a call's steps and then of a selection that takes the bit.
fn touches(r: &mut Recorder, alloc: Global, rows: &[Row]) -> Result<bool, RecordError>
    requires { IsRecorded r.old }
    ensures { IsRecorded r.new }
{
    let takes = [
        (Act::TakeTurn(S, None), Found::Turn(None)),
        (Act::BeginLook(S, GATE), OPEN),
        (Act::TakeTouched(S, 0, 0), Found::Bits(1)),
        (Act::GiveTurn(S), Found::Nothing),
    ];
    let found = finds(r, alloc, rows)?;
    Ok(finds(r, alloc, &takes)? && found)
}

/// A selector and a channel are opened, and the selector's list is taken.
fn opens(r: &mut Recorder, alloc: Global) -> Result<bool, RecordError>
    requires { IsRecorded r.old }
    ensures { IsRecorded r.new }
{
    let rows = [
        (Act::MakeSelector(S, false), Found::Flag(false)),
        (Act::TakeList(S, None), Found::Other),
        (Act::MakeChannel(C, Kind::Source, false), Found::Other),
        HOLDS,
        (Act::SetMode(C, false, BLOCKING), Found::Other),
        RELEASES,
    ];
    finds(r, alloc, &rows)
}

/// The channel is registered, and registered again.
fn registers(r: &mut Recorder, alloc: Global) -> Result<[bool; 2], RecordError>
    requires { IsRecorded r.old }
    ensures { IsRecorded r.new }
{
    let first = [
        LOOKS,
        HOLDS,
        LOOKS,
        (Act::LookReg(C, S, None), Found::Noted(None)),
        LOOKS_AT_GATE,
        (Act::LookKeys(S, 0), Found::Bound(0)),
        (Act::Claim(S, 0, C, false), Found::Other),
        (Act::RaiseKeys(S, 1, 0), Found::Other),
        LOOKS_AT_GATE,
        TOUCHES,
        (Act::SwapInterest(S, 0, Ops::READ, Ops::NONE), NOTHING),
        (Act::SwapNote(S, 0, 0, 0), Found::Other),
        (Act::Enrol(C, S, 0, 0, None), Found::Other),
        (Act::Publish(S, 0, STAGE), Found::Key(CLAIMED)),
        LOOKS,
        UNPINS,
        RELEASES,
    ];
    let again = [
        LOOKS,
        HOLDS,
        LOOKS,
        FINDS_KEY,
        PINS,
        LOOKS_AT_GATE,
        TOUCHES,
        (Act::SwapInterest(S, 0, Ops::NONE, Ops::NONE), READS),
        UNPINS,
        RELEASES,
    ];
    Ok([touches(r, alloc, &first)?, touches(r, alloc, &again)?])
}

/// The key's interest set is set to reading, reading is taken out of it and added again.
fn changes_interest(r: &mut Recorder, alloc: Global) -> Result<[bool; 3], RecordError>
    requires { IsRecorded r.old }
    ensures { IsRecorded r.new }
{
    let sets = [
        PINS,
        LOOKS,
        TOUCHES,
        (Act::SwapInterest(S, 0, Ops::READ, Ops::NONE), NOTHING),
        UNPINS,
    ];
    let keeps = [
        PINS,
        TOUCHES,
        (Act::AndInterest(S, 0, Ops::NONE, Ops::NONE), READS),
        UNPINS,
    ];
    let adds = [
        PINS,
        LOOKS,
        TOUCHES,
        (Act::OrInterest(S, 0, Ops::READ, Ops::NONE), NOTHING),
        UNPINS,
    ];
    Ok([
        touches(r, alloc, &sets)?,
        touches(r, alloc, &keeps)?,
        touches(r, alloc, &adds)?,
    ])
}

/// The key is cancelled and the channel closed, which cancels the key once more, since no selection has removed it.
fn cancels_and_closes(r: &mut Recorder, alloc: Global) -> Result<[bool; 2], RecordError>
    requires { IsRecorded r.old }
    ensures { IsRecorded r.new }
{
    let cancels = [
        PINS,
        TOUCHES,
        (Act::CancelKey(S, 0, STAGE), Found::Key(VALID)),
        UNPINS,
    ];
    let closes = [
        LOOKS,
        (
            Act::CloseBit(C, UNBLOCKED, CHANNEL),
            Found::Channel(UNBLOCKED),
        ),
        FINDS_KEY,
        (Act::LookChannel(C, CHANNEL), Found::Channel(CLOSED)),
        (Act::Pin(S, 0, STAGE), Found::Key(CANCELLED)),
        TOUCHES,
        (Act::CancelKey(S, 0, STAGE), Found::Key(CANCELLED)),
        UNPINS,
    ];
    Ok([touches(r, alloc, &cancels)?, touches(r, alloc, &closes)?])
}

#[test]
fn changes_touch_the_index_first(rt: HostRuntime) -> Result<(), Fail> {
    let alloc = rt.alloc();
    let mut r = Recorder::make(alloc, TABLE)?;
    assert!(rt; opens(&mut r, alloc)?);
    assert_eq!(rt; registers(&mut r, alloc)?, [true; 2]);
    assert_eq!(rt; changes_interest(&mut r, alloc)?, [true; 3]);
    assert_eq!(rt; cancels_and_closes(&mut r, alloc)?, [true; 2]);
    assert!(rt; audit(alloc, TABLE, r.events()) == Ok(()));
    Ok(())
}

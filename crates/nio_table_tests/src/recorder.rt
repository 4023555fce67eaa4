//! A selection with an act of another caller before each of its steps, and after the last. What was written down is
//! legal, and with another answer it isn't. Selections whose steps are made one by one, with what each of them finds,
//! in the order in which the calls of selections make them.
ghost use Rattle.std.specs.Prelude.{◌<◌};
ghost use Rattle.nio_base.specs.Limits.{IsFit};
ghost use Rattle.nio_record.specs.Recorded.{IsRecorded};

use crate::tables::{ONE, S, ZERO};
use crate::words::SMALL as TABLE;
use crate::words::history::C;
use nio_audit::{AuditError, audit};
use nio_base::{CallerNo, ChanNo, KeyId, Kind, Limits, Ops};
use nio_history::{Act, Chan, Event, GateWord, IndexWord, Mark, Stage};
use nio_record::{RecordError, Recorder};
use std::alloc::{AllocError, Global};
use std::process::Abort;
use std::test::Fail;

mod changing;
mod closing;
mod four;

// What stands in an act that asks for a step: the step puts what it finds in its place.

const GATE: GateWord = GateWord {
    woken: false,
    shut: false,
};

const CHANNEL: Chan = Chan {
    made: false,
    kind: Kind::Stream,
    closed: false,
    blocking: true,
    serial: 0,
};

const STAGE: Stage = Stage {
    claimed: false,
    published: false,
    cancelled: false,
    removed: false,
    chan: C,
    serial: 0,
};

const MARK: Mark = Mark {
    selected: false,
    ready: Ops::NONE,
};

/// The stream as who closes it finds it.
const REGISTERED: Chan = Chan {
    made: true,
    kind: Kind::Stream,
    closed: false,
    blocking: false,
    serial: 0,
};

/// What the other caller does.
#[derive(Clone, Copy, Debug, PartialEq, Eq)]
enum Other {
    Cancels,
    Closes,
    Shuts,
    Unselects,
}

/// What the other caller does just before this step of the selection, counted from 1.
#[derive(Clone, Copy, Debug)]
struct Plot {
    other: Other,
    place: u32,
}

/// Makes these steps of a caller.
fn play(r: &mut Recorder, alloc: Global, caller: CallerNo, acts: &[Act]) -> Result<(), RecordError>
    requires { IsRecorded r.old }
    ensures { IsRecorded r.new }
{
    for act in acts {
        r.step(alloc, caller, *act)?;
    }
    Ok(())
}

/// The stream with this number is made and registered with this interest. Its key gets the same number as index.
fn register(r: &mut Recorder, alloc: Global, number: u32, interest: u8) -> Result<(), RecordError>
    requires recorded { IsRecorded r.old }
    requires few { number < 3 }
    ensures { IsRecorded r.new }
{
    let chan = ChanNo(number);
    let registers = [
        Act::MakeChannel(chan, Kind::Stream, false),
        Act::TryHoldBit(chan, None),
        Act::SetMode(chan, false, CHANNEL),
        Act::LookChannel(chan, CHANNEL),
        Act::LookReg(chan, S, None),
        Act::Claim(S, number, chan, false),
        Act::RaiseKeys(S, number + 1, 0),
        Act::Touch(S, number, false),
        Act::SwapInterest(S, number, Ops::of(interest), Ops::NONE),
        Act::Enrol(chan, S, number, 0, None),
        Act::Publish(S, number, STAGE),
        Act::Unpin(S, number),
        Act::Release(chan),
    ];
    play(r, alloc, ZERO, &registers)
}

/// A stream is registered with interest 5, and its key is selected with ready set 4.
fn set_up(r: &mut Recorder, alloc: Global) -> Result<(), RecordError>
    requires { IsRecorded r.old }
    ensures { IsRecorded r.new }
{
    play(r, alloc, ZERO, &[Act::MakeSelector(S, false)])?;
    register(r, alloc, 0, 5)?;
    let selects = [
        Act::TakeTurn(S, None),
        Act::BeginLook(S, GATE),
        Act::Mark(S, 0, MARK, Ops::of(4), Ok(())),
        Act::GiveTurn(S),
    ];
    play(r, alloc, ZERO, &selects)
}

fn disturb(r: &mut Recorder, alloc: Global, other: Other) -> Result<(), RecordError>
    requires { IsRecorded r.old }
    ensures { IsRecorded r.new }
{
    let cancels = [
        Act::Pin(S, 0, STAGE),
        Act::Touch(S, 0, false),
        Act::CancelKey(S, 0, STAGE),
        Act::Unpin(S, 0),
    ];
    let unselects = [
        Act::Pin(S, 0, STAGE),
        Act::UnselectBit(S, 0, false),
        Act::Unpin(S, 0),
    ];
    let closes = [
        Act::LookChannel(C, CHANNEL),
        Act::CloseBit(C, REGISTERED, CHANNEL),
        Act::LookReg(C, S, None),
        Act::LookChannel(C, CHANNEL),
    ];
    match other {
        Other::Cancels => play(r, alloc, ONE, &cancels),
        Other::Closes => {
            play(r, alloc, ONE, &closes)?;
            play(r, alloc, ONE, &cancels)
        }
        Other::Shuts => play(r, alloc, ONE, &[Act::ShutBit(S, false)]),
        Other::Unselects => play(r, alloc, ONE, &unselects),
    }
}

/// The part of an answer on which the next step of the selection depends.
#[derive(Clone, Copy)]
enum Saw {
    /// The selector is shut.
    Shut,
    /// The key is cancelled.
    Cancelled,
    /// The mark that was looked at.
    Mark(Mark),
    /// Marking failed, since this mark stands there.
    OtherMark(Mark),
    /// Nothing: the next step is the same whatever was found.
    Usual,
}

fn seen_in(act: Act) -> Saw {
    match act {
        Act::LookGate(_, gate) if gate.shut => Saw::Shut,
        Act::BeginLook(_, gate) if gate.shut => Saw::Shut,
        Act::LookKey(_, _, stage) if stage.cancelled => Saw::Cancelled,
        Act::LookMark(_, _, mark) => Saw::Mark(mark),
        Act::Mark(_, _, _, _, Err(mark)) => Saw::OtherMark(mark),
        _ => Saw::Usual,
    }
}

/// The selecting caller's step with this number, after the other caller's act where that is due.
fn step(
    r: &mut Recorder,
    alloc: Global,
    plot: Plot,
    number: u32,
    act: Act,
) -> Result<Saw, RecordError>
    requires { IsRecorded r.old }
    ensures { IsRecorded r.new }
{
    if number == plot.place {
        disturb(r, alloc, plot.other)?;
    }
    Ok(seen_in(r.step(alloc, ZERO, act)?))
}

/// The same of a look at the gate: whether the selector is shut.
fn finds_shut(
    r: &mut Recorder,
    alloc: Global,
    plot: Plot,
    number: u32,
    act: Act,
) -> Result<bool, RecordError>
    requires { IsRecorded r.old }
    ensures { IsRecorded r.new }
{
    let seen = step(r, alloc, plot, number, act)?;
    Ok(matches!(seen, Saw::Shut))
}

/// The same of a look at the key: whether it is cancelled. Then it is removed.
fn removes_cancelled(
    r: &mut Recorder,
    alloc: Global,
    plot: Plot,
    number: u32,
) -> Result<bool, RecordError>
    requires { IsRecorded r.old }
    ensures { IsRecorded r.new }
{
    let seen = step(r, alloc, plot, number, Act::LookKey(S, 0, STAGE))?;
    let cancelled = matches!(seen, Saw::Cancelled);
    if cancelled {
        play(
            r,
            alloc,
            ZERO,
            &[Act::Remove(S, 0, STAGE), Act::PutFree(S, 0)],
        )?;
    }
    Ok(cancelled)
}

/// Whether the selection looks at the key, or nothing where it is refused.
fn begin(r: &mut Recorder, alloc: Global, plot: Plot) -> Result<Option<bool>, RecordError>
    requires { IsRecorded r.old }
    ensures { IsRecorded r.new }
{
    if finds_shut(r, alloc, plot, 1, Act::LookGate(S, GATE))? {
        return Ok(None);
    }
    step(r, alloc, plot, 2, Act::TakeTurn(S, None))?;
    if finds_shut(r, alloc, plot, 3, Act::BeginLook(S, GATE))? {
        play(r, alloc, ZERO, &[Act::GiveTurn(S)])?;
        return Ok(None);
    }
    step(r, alloc, plot, 4, Act::LookKeys(S, 0))?;
    step(r, alloc, plot, 5, Act::LookFree(S, 0, 0))?;
    if removes_cancelled(r, alloc, plot, 6)? {
        return Ok(Some(false));
    }
    step(r, alloc, plot, 7, Act::LookInterest(S, 0, Ops::NONE))?;
    Ok(Some(true))
}

/// Marks the key, once more where another mark stands there. How many of the marks succeeded.
fn mark(r: &mut Recorder, alloc: Global, plot: Plot) -> Result<u32, RecordError>
    requires { IsRecorded r.old }
    ensures { IsRecorded r.new }
{
    let Saw::Mark(was) = step(r, alloc, plot, 8, Act::LookMark(S, 0, MARK))? else {
        return Ok(0);
    };
    let first = Act::Mark(S, 0, was, Ops::READ, Ok(()));
    let Saw::OtherMark(found) = step(r, alloc, plot, 9, first)? else {
        return Ok(1);
    };
    let second = Act::Mark(S, 0, found, Ops::READ, Ok(()));
    match seen_in(r.step(alloc, ZERO, second)?) {
        Saw::OtherMark(_) => Ok(0),
        _ => Ok(1),
    }
}

/// Ends the selection. Where it looked at the key it goes over it once more.
fn end(r: &mut Recorder, alloc: Global, plot: Plot, looked: bool) -> Result<(), RecordError>
    requires { IsRecorded r.old }
    ensures { IsRecorded r.new }
{
    step(r, alloc, plot, 10, Act::LookGate(S, GATE))?;
    step(r, alloc, plot, 11, Act::LookInterrupt(false))?;
    if looked {
        removes_cancelled(r, alloc, plot, 12)?;
    }
    step(r, alloc, plot, 13, Act::EndWake(S, GATE))?;
    step(r, alloc, plot, 14, Act::GiveTurn(S))?;
    Ok(())
}

/// A selection with Now that is told reading, up to a closing that is finished. Its count, or nothing where it is
/// refused.
fn select(r: &mut Recorder, alloc: Global, plot: Plot) -> Result<Option<u32>, RecordError>
    requires { IsRecorded r.old }
    ensures { IsRecorded r.new }
{
    let count = match begin(r, alloc, plot)? {
        None => None,
        Some(looked) => Some(tell(r, alloc, plot, looked)?),
    };
    if plot.place == 15 {
        disturb(r, alloc, plot.other)?;
    }
    if plot.other == Other::Shuts {
        let closes = [
            Act::Enter(S, None),
            Act::LookKeys(S, 0),
            Act::Remove(S, 0, STAGE),
        ];
        play(r, alloc, ONE, &closes)?;
    }
    Ok(count)
}

fn tell(r: &mut Recorder, alloc: Global, plot: Plot, looked: bool) -> Result<u32, RecordError>
    requires { IsRecorded r.old }
    ensures { IsRecorded r.new }
{
    let count = if looked { mark(r, alloc, plot)? } else { 0 };
    end(r, alloc, plot, looked)?;
    Ok(count)
}

/// How far the key has come, and its mark.
fn look(r: &mut Recorder, alloc: Global) -> Result<Option<(Stage, Mark)>, RecordError>
    requires { IsRecorded r.old }
    ensures { IsRecorded r.new }
{
    let pinned = r.step(alloc, ONE, Act::Pin(S, 0, STAGE))?;
    let looked = r.step(alloc, ONE, Act::LookMark(S, 0, MARK))?;
    match (pinned, looked) {
        (Act::Pin(_, _, stage), Act::LookMark(_, _, mark)) => Ok(Some((stage, mark))),
        _ => Ok(None),
    }
}

/// The act with another answer, where it has one. Of some kinds, which aren't the last here, it says that it has none.
fn with_another_answer(act: &Act) -> Option<Act> {
    match *act {
        Act::EndWake(s, GateWord { woken, shut }) => Some(Act::EndWake(
            s,
            GateWord {
                woken: !woken,
                shut,
            },
        )),
        Act::BeginLook(s, GateWord { woken, shut }) => Some(Act::BeginLook(
            s,
            GateWord {
                woken: !woken,
                shut,
            },
        )),
        Act::CancelKey(s, i, stage) => Some(Act::CancelKey(
            s,
            i,
            Stage {
                claimed: false,
                ..stage
            },
        )),
        Act::Remove(s, i, stage) => Some(Act::Remove(
            s,
            i,
            Stage {
                claimed: false,
                ..stage
            },
        )),
        Act::UnselectBit(s, i, was) => Some(Act::UnselectBit(s, i, !was)),
        _ => None,
    }
}

/// Whether the events are no longer legal, from that event on, with another answer in the last that has one.
fn is_another_refused(alloc: Global, limits: Limits, events: &[Event]) -> Result<bool, AllocError>
    requires { IsFit limits }
{
    let mut altered = events.to_vec(alloc)?;
    for (place, event) in events.iter().enumerate().rev() {
        if let Some(act) = with_another_answer(&event.act) {
            let caller = event.caller;
            if let Some(stands) = altered.get_mut(place) {
                *stands = Event { caller, act };
            }
            let refused = AuditError::NotAStep { at: place as u64 };
            return Ok(audit(alloc, limits, &altered) == Err(refused));
        }
    }
    Ok(false)
}

/// What is expected of a selection that another caller disturbs: its count, or nothing where it is refused; and of the
/// key at the end, whether it is valid, whether it is removed, and its mark.
fn expected(plot: Plot) -> (Option<u32>, bool, bool) {
    match plot.other {
        Other::Cancels | Other::Closes => (
            Some(if plot.place <= 6 { 0 } else { 1 }),
            false,
            plot.place <= 12,
        ),
        Other::Shuts => (if plot.place <= 3 { None } else { Some(1) }, false, true),
        Other::Unselects => (Some(1), true, false),
    }
}

fn expected_mark(place: u32) -> Mark {
    if place <= 9 {
        Mark {
            selected: true,
            ready: Ops::READ,
        }
    } else {
        Mark {
            selected: false,
            ready: Ops::of(5),
        }
    }
}

/// Whether the key and its mark are as expected.
fn is_expected(plot: Plot, stage: Stage, mark: Mark) -> bool {
    let (_count, valid, removed) = expected(plot);
    let is_marked = plot.other != Other::Unselects || mark == expected_mark(plot.place);
    stage.is_valid_key(0) == valid && stage.removed == removed && is_marked
}

/// A selection that another caller disturbs so.
fn is_disturbed<R: Abort>(rt: &R, alloc: Global, plot: Plot) -> Result<(), Fail> {
    let mut r = Recorder::make(alloc, TABLE)?;
    set_up(&mut r, alloc)?;
    let count = select(&mut r, alloc, plot)?;
    assert!(rt; count == expected(plot).0, "{plot:?}");
    assert!(rt; audit(alloc, TABLE, r.events()) == Ok(()), "{plot:?}");
    assert!(rt; is_another_refused(alloc, TABLE, r.events())?, "{plot:?}");
    let Some((stage, mark)) = look(&mut r, alloc)? else {
        panic!(rt; "there is no key")
    };
    assert!(rt; is_expected(plot, stage, mark), "{plot:?}");
    Ok(())
}

#[test]
fn selections_that_another_caller_disturbs(rt: HostRuntime) -> Result<(), Fail> {
    for other in [
        Other::Cancels,
        Other::Closes,
        Other::Shuts,
        Other::Unselects,
    ] {
        for place in 1..16 {
            is_disturbed(&rt, rt.alloc(), Plot { other, place })?;
        }
    }
    Ok(())
}

/// What a step found.
#[derive(Clone, Copy, Debug, PartialEq, Eq)]
enum Found {
    Nothing,
    Flag(bool),
    Gate(GateWord),
    /// Who had the turn.
    Turn(Option<CallerNo>),
    /// The keys' high-water mark.
    Bound(u32),
    /// The bits of 64 indexes: of the free ones, or of those that are touched.
    Bits(u64),
    Index(IndexWord),
    Key(Stage),
    Interest(Ops),
    Mark(Mark),
    Channel(Chan),
    /// The key that is noted.
    Noted(Option<KeyId>),
    /// Another step.
    Other,
}

fn found_by(act: Act) -> Found {
    match act {
        Act::MakeSelector(_, was) => Found::Flag(was),
        Act::Wake(_, was) => Found::Flag(was),
        Act::LookInterrupt(set) => Found::Flag(set),
        Act::LookGate(_, gate) => Found::Gate(gate),
        Act::BeginLook(_, gate) => Found::Gate(gate),
        Act::EndWake(_, gate) => Found::Gate(gate),
        Act::TakeTurn(_, holder) => Found::Turn(holder),
        Act::GiveTurn(_) => Found::Nothing,
        Act::LookKeys(_, bound) => Found::Bound(bound),
        Act::LookFree(_, _, word) => Found::Bits(word),
        Act::PutFree(_, _) => Found::Nothing,
        Act::Touch(_, _, was) => Found::Flag(was),
        Act::LookTouched(_, _, word) => Found::Bits(word),
        Act::TakeTouched(_, _, word) => Found::Bits(word),
        Act::LookIndex(_, _, word) => Found::Index(word),
        Act::LookKey(_, _, stage) => Found::Key(stage),
        Act::Remove(_, _, stage) => Found::Key(stage),
        Act::Pin(_, _, stage) => Found::Key(stage),
        Act::Publish(_, _, stage) => Found::Key(stage),
        Act::CancelKey(_, _, stage) => Found::Key(stage),
        Act::LookInterest(_, _, ops) => Found::Interest(ops),
        Act::SwapInterest(_, _, _, ops) => Found::Interest(ops),
        Act::OrInterest(_, _, _, ops) => Found::Interest(ops),
        Act::AndInterest(_, _, _, ops) => Found::Interest(ops),
        Act::LookMark(_, _, mark) => Found::Mark(mark),
        Act::LookChannel(_, chan) => Found::Channel(chan),
        Act::CloseBit(_, _, chan) => Found::Channel(chan),
        Act::LookReg(_, _, noted) => Found::Noted(noted),
        _ => Found::Other,
    }
}

/// Makes a step of a caller.
fn find(r: &mut Recorder, alloc: Global, caller: CallerNo, act: Act) -> Result<Found, RecordError>
    requires { IsRecorded r.old }
    ensures { IsRecorded r.new }
{
    Ok(found_by(r.step(alloc, caller, act)?))
}

/// Makes these steps of a caller, up to the first that finds something else than is listed. How many found what is
/// listed.
fn agree(
    r: &mut Recorder,
    alloc: Global,
    caller: CallerNo,
    rows: &[(Act, Found)],
) -> Result<usize, RecordError>
    requires { IsRecorded r.old }
    ensures { IsRecorded r.new }
{
    for (at, (act, wanted)) in rows.iter().enumerate() {
        if find(r, alloc, caller, *act)? != *wanted {
            return Ok(at);
        }
    }
    Ok(rows.len())
}

/// How many steps were made after the first `before`.
fn steps_after(r: &Recorder, before: usize) -> usize {
    r.events().iter().skip(before).count()
}

// What the steps of these tests find.

const OPEN: Found = Found::Gate(GATE);

const WOKEN: Found = Found::Gate(GateWord {
    woken: true,
    shut: false,
});

const READS: Found = Found::Interest(Ops::READ);

/// The first key of the stream with this number, which is also its index.
fn key_of(number: u32, cancelled: bool) -> Found {
    Found::Key(Stage {
        claimed: true,
        published: true,
        cancelled,
        removed: false,
        chan: ChanNo(number),
        serial: 0,
    })
}

/// Selections on a selector without keys: one that ends at once, one that a wakeup ends and one that would go on, with
/// a beginning of the other caller in the first. How many steps found what is listed, of 29.
fn select_without_keys(r: &mut Recorder, alloc: Global) -> Result<[usize; 9], RecordError>
    requires { IsRecorded r.old }
    ensures { IsRecorded r.new }
{
    let makes = [
        (Act::MakeSelector(S, false), Found::Flag(false)),
        (Act::MakeSelector(S, false), Found::Flag(true)),
    ];
    let begins = [
        (Act::LookGate(S, GATE), OPEN),
        (Act::TakeTurn(S, None), Found::Turn(None)),
        (Act::BeginLook(S, GATE), OPEN),
        (Act::LookKeys(S, 0), Found::Bound(0)),
    ];
    let is_busy = [
        (Act::LookGate(S, GATE), OPEN),
        (Act::TakeTurn(S, None), Found::Turn(Some(ZERO))),
    ];
    let ends = [
        (Act::LookGate(S, GATE), OPEN),
        (Act::LookInterrupt(false), Found::Flag(false)),
        (Act::EndWake(S, GATE), OPEN),
        (Act::GiveTurn(S), Found::Nothing),
    ];
    let wakes = [(Act::Wake(S, false), Found::Flag(false))];
    let is_woken = [
        (Act::LookGate(S, GATE), WOKEN),
        (Act::TakeTurn(S, None), Found::Turn(None)),
        (Act::BeginLook(S, GATE), WOKEN),
        (Act::LookKeys(S, 0), Found::Bound(0)),
        (Act::LookGate(S, GATE), WOKEN),
        (Act::LookInterrupt(false), Found::Flag(false)),
        (Act::EndWake(S, GATE), WOKEN),
        (Act::GiveTurn(S), Found::Nothing),
    ];
    let leaves = [
        (Act::LookGate(S, GATE), OPEN),
        (Act::LookInterrupt(false), Found::Flag(false)),
        (Act::GiveTurn(S), Found::Nothing),
    ];
    Ok([
        agree(r, alloc, ZERO, &makes)?,
        agree(r, alloc, ZERO, &begins)?,
        agree(r, alloc, ONE, &is_busy)?,
        agree(r, alloc, ZERO, &ends)?,
        agree(r, alloc, ONE, &wakes)?,
        agree(r, alloc, ZERO, &is_woken)?,
        agree(r, alloc, ZERO, &begins)?,
        agree(r, alloc, ZERO, &leaves)?,
        agree(r, alloc, ZERO, &begins)?,
    ])
}

#[test]
fn steps_of_selections_on_a_bare_table(rt: HostRuntime) -> Result<(), Fail> {
    let alloc = rt.alloc();
    let mut r = Recorder::make(alloc, TABLE)?;
    let agreed = select_without_keys(&mut r, alloc)?;
    assert!(rt; agreed == [2, 4, 2, 4, 1, 8, 4, 3, 4]);
    assert!(rt; audit(alloc, TABLE, r.events()) == Ok(()));
    Ok(())
}

const THREE_KEYS: Limits = Limits {
    callers: 2,
    selectors: 1,
    channels: 3,
    keys: 3,
};

/// Three streams are registered, and the key of the second is cancelled.
fn register_three(r: &mut Recorder, alloc: Global) -> Result<(), RecordError>
    requires { IsRecorded r.old }
    ensures { IsRecorded r.new }
{
    play(r, alloc, ZERO, &[Act::MakeSelector(S, false)])?;
    register(r, alloc, 0, 1)?;
    register(r, alloc, 1, 1)?;
    register(r, alloc, 2, 1)?;
    let cancels = [
        Act::Pin(S, 1, STAGE),
        Act::Touch(S, 1, false),
        Act::CancelKey(S, 1, STAGE),
        Act::Unpin(S, 1),
    ];
    play(r, alloc, ZERO, &cancels)
}

/// A selection with Now that is told nothing. It removes the cancelled key and puts its index.
fn first_selection(r: &mut Recorder, alloc: Global) -> Result<usize, RecordError>
    requires { IsRecorded r.old }
    ensures { IsRecorded r.new }
{
    let rows = [
        (Act::LookGate(S, GATE), OPEN),
        (Act::TakeTurn(S, None), Found::Turn(None)),
        (Act::BeginLook(S, GATE), OPEN),
        (Act::LookKeys(S, 0), Found::Bound(3)),
        (Act::LookFree(S, 0, 0), Found::Bits(0)),
        (Act::LookKey(S, 0, STAGE), key_of(0, false)),
        (Act::LookInterest(S, 0, Ops::NONE), READS),
        (Act::LookKey(S, 1, STAGE), key_of(1, true)),
        (Act::Remove(S, 1, STAGE), key_of(1, true)),
        (Act::PutFree(S, 1), Found::Nothing),
        (Act::LookKey(S, 2, STAGE), key_of(2, false)),
        (Act::LookInterest(S, 2, Ops::NONE), READS),
        (Act::LookGate(S, GATE), OPEN),
        (Act::LookInterrupt(false), Found::Flag(false)),
        (Act::LookKey(S, 0, STAGE), key_of(0, false)),
        (Act::LookKey(S, 2, STAGE), key_of(2, false)),
        (Act::EndWake(S, GATE), OPEN),
        (Act::GiveTurn(S), Found::Nothing),
    ];
    agree(r, alloc, ZERO, &rows)
}

/// Another one. It doesn't look at the index that is free.
fn second_selection(r: &mut Recorder, alloc: Global) -> Result<usize, RecordError>
    requires { IsRecorded r.old }
    ensures { IsRecorded r.new }
{
    let rows = [
        (Act::LookGate(S, GATE), OPEN),
        (Act::TakeTurn(S, None), Found::Turn(None)),
        (Act::BeginLook(S, GATE), OPEN),
        (Act::LookKeys(S, 0), Found::Bound(3)),
        (Act::LookFree(S, 0, 0), Found::Bits(2)),
        (Act::LookKey(S, 0, STAGE), key_of(0, false)),
        (Act::LookInterest(S, 0, Ops::NONE), READS),
        (Act::LookKey(S, 2, STAGE), key_of(2, false)),
        (Act::LookInterest(S, 2, Ops::NONE), READS),
        (Act::LookGate(S, GATE), OPEN),
        (Act::LookInterrupt(false), Found::Flag(false)),
        (Act::LookKey(S, 0, STAGE), key_of(0, false)),
        (Act::LookKey(S, 2, STAGE), key_of(2, false)),
        (Act::EndWake(S, GATE), OPEN),
        (Act::GiveTurn(S), Found::Nothing),
    ];
    agree(r, alloc, ZERO, &rows)
}

#[test]
fn steps_of_two_selections(rt: HostRuntime) -> Result<(), Fail> {
    let alloc = rt.alloc();
    let mut r = Recorder::make(alloc, THREE_KEYS)?;
    register_three(&mut r, alloc)?;
    let before = r.events().len();
    assert_eq!(rt; first_selection(&mut r, alloc)?, 18);
    assert_eq!(rt; steps_after(&r, before), 18);
    let between = r.events().len();
    assert_eq!(rt; second_selection(&mut r, alloc)?, 15);
    assert_eq!(rt; steps_after(&r, between), 15);
    assert!(rt; audit(alloc, THREE_KEYS, r.events()) == Ok(()));
    Ok(())
}

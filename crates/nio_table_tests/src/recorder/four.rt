//! Recorded runs of four callers, in many orders of their steps: two select, each on a selector of its own by its list,
//! the third changes a key of the one and cancels a key of the other, and the fourth closes the channel that is
//! registered with both. What was written down is legal, and with another answer it isn't. After one more selection by
//! each list both keys are removed.
ghost use Rattle.nio_record.specs.Recorded.{IsRecorded};

use super::{CHANNEL, Found, GATE, REGISTERED, STAGE, find, is_another_refused, play};
use crate::tables::{ONE, S, ZERO};
use crate::words::history::C;
use nio_audit::audit;
use nio_base::{CallerNo, Kind, Limits, Ops, SelNo};
use nio_history::{Act, IndexWord, Stage};
use nio_record::{RecordError, Recorder};
use std::alloc::Global;
use std::process::Abort;
use std::test::Fail;

const LIMITS: Limits = Limits {
    callers: 4,
    selectors: 2,
    channels: 1,
    keys: 1,
};

/// The other selector.
const T: SelNo = SelNo(1);

const TWO: CallerNo = CallerNo(2);

const THREE: CallerNo = CallerNo(3);

/// The next step of a call on the only index of a selector.
#[derive(Clone, Copy)]
enum Next {
    // a selection by the list that is told nothing
    LookGate,
    TakeTurn,
    BeginLook,
    LookKeys,
    LookTouched,
    TakeTouched,
    LookIndex,
    /// The index was found pinned, with a key so far.
    TouchAgain(Stage),
    RemoveFirst,
    PutFirst,
    LookInterest,
    LookGateAgain,
    LookInterrupt,
    LookKeysAgain,
    LookTouchedAgain,
    LookKey,
    RemoveLast,
    PutLast,
    EndWake,
    GiveTurn,
    // a change of the interest set
    PinToSet,
    LookKind,
    TouchToSet,
    Set,
    // a closing of the channel
    LookChannel,
    Close,
    LookForKey,
    Compare,
    // a cancelling
    PinToCancel,
    TouchToCancel,
    Cancel,
    Unpin,
}

fn act_of(sel: SelNo, next: Next) -> Act {
    match next {
        Next::LookGate | Next::LookGateAgain => Act::LookGate(sel, GATE),
        Next::TakeTurn => Act::TakeTurn(sel, None),
        Next::BeginLook => Act::BeginLook(sel, GATE),
        Next::LookKeys | Next::LookKeysAgain => Act::LookKeys(sel, 0),
        Next::LookTouched | Next::LookTouchedAgain => Act::LookTouched(sel, 0, 0),
        Next::TakeTouched => Act::TakeTouched(sel, 0, 0),
        Next::LookIndex => Act::LookIndex(
            sel,
            0,
            IndexWord {
                stage: STAGE,
                pinned: false,
            },
        ),
        Next::TouchAgain(_) | Next::TouchToSet | Next::TouchToCancel => Act::Touch(sel, 0, false),
        Next::RemoveFirst | Next::RemoveLast => Act::Remove(sel, 0, STAGE),
        Next::PutFirst | Next::PutLast => Act::PutFree(sel, 0),
        Next::LookInterest => Act::LookInterest(sel, 0, Ops::NONE),
        Next::LookInterrupt => Act::LookInterrupt(false),
        Next::LookKey => Act::LookKey(sel, 0, STAGE),
        Next::EndWake => Act::EndWake(sel, GATE),
        Next::GiveTurn => Act::GiveTurn(sel),
        Next::PinToSet | Next::PinToCancel => Act::Pin(sel, 0, STAGE),
        Next::LookKind | Next::LookChannel | Next::Compare => Act::LookChannel(C, CHANNEL),
        Next::Set => Act::SwapInterest(sel, 0, Ops::WRITE, Ops::NONE),
        Next::Close => Act::CloseBit(C, REGISTERED, CHANNEL),
        Next::LookForKey => Act::LookReg(C, sel, None),
        Next::Cancel => Act::CancelKey(sel, 0, STAGE),
        Next::Unpin => Act::Unpin(sel, 0),
    }
}

/// How a selection goes on from its look at a touched index, once that is touched again where it was pinned.
fn after_index(stage: Stage) -> Next {
    if stage.is_valid_key(0) {
        Next::LookInterest
    } else if stage.is_in_key_set(0) {
        Next::RemoveFirst
    } else {
        Next::LookGateAgain
    }
}

/// The step of a selection that comes after this one, by what was found.
fn after_selecting(next: Next, found: Found) -> Option<Next> {
    match (next, found) {
        (Next::LookGate, _) => Some(Next::TakeTurn),
        (Next::TakeTurn, _) => Some(Next::BeginLook),
        (Next::BeginLook, _) => Some(Next::LookKeys),
        (Next::LookKeys, _) => Some(Next::LookTouched),
        (Next::LookTouched, Found::Bits(0)) => Some(Next::LookGateAgain),
        (Next::LookTouched, _) => Some(Next::TakeTouched),
        (Next::TakeTouched, _) => Some(Next::LookIndex),
        (Next::LookIndex, Found::Index(word)) if word.pinned => Some(Next::TouchAgain(word.stage)),
        (Next::LookIndex, Found::Index(word)) => Some(after_index(word.stage)),
        (Next::TouchAgain(stage), _) => Some(after_index(stage)),
        (Next::RemoveFirst, _) => Some(Next::PutFirst),
        (Next::PutFirst | Next::LookInterest, _) => Some(Next::LookGateAgain),
        (Next::LookGateAgain, _) => Some(Next::LookInterrupt),
        (Next::LookInterrupt, _) => Some(Next::LookKeysAgain),
        (Next::LookKeysAgain, _) => Some(Next::LookTouchedAgain),
        (Next::LookTouchedAgain, Found::Bits(0)) => Some(Next::EndWake),
        (Next::LookTouchedAgain, _) => Some(Next::LookKey),
        (Next::LookKey, Found::Key(stage)) if stage.is_in_key_set(0) && !stage.is_valid_key(0) => {
            Some(Next::RemoveLast)
        }
        (Next::RemoveLast, _) => Some(Next::PutLast),
        (Next::LookKey | Next::PutLast, _) => Some(Next::EndWake),
        (Next::EndWake, _) => Some(Next::GiveTurn),
        _ => None,
    }
}

/// The step of any call that comes after this one, by what was found; none where it was the last.
fn after(next: Next, found: Found) -> Option<Next> {
    match (next, found) {
        (Next::PinToSet, Found::Key(stage)) if stage.is_valid_key(0) => Some(Next::LookKind),
        (Next::LookKind, _) => Some(Next::TouchToSet),
        (Next::TouchToSet, _) => Some(Next::Set),
        (Next::LookChannel, _) => Some(Next::Close),
        (Next::Close, _) => Some(Next::LookForKey),
        (Next::LookForKey, Found::Noted(Some(_))) => Some(Next::Compare),
        (Next::Compare, _) => Some(Next::PinToCancel),
        (Next::PinToCancel, Found::Key(stage)) if !stage.removed => Some(Next::TouchToCancel),
        (Next::TouchToCancel, _) => Some(Next::Cancel),
        (Next::PinToSet | Next::Set | Next::PinToCancel | Next::Cancel, _) => Some(Next::Unpin),
        _ => after_selecting(next, found),
    }
}

/// A caller, its calls by their selectors and first steps, and its next step, if any.
#[derive(Clone, Copy)]
struct Actor {
    caller: CallerNo,
    calls: &'static [(SelNo, Next)],
    next: Option<(SelNo, Next)>,
}

/// What the four do.
const ACTORS: [Actor; 4] = [
    Actor {
        caller: ZERO,
        calls: &[(S, Next::LookGate), (S, Next::LookGate)],
        next: None,
    },
    Actor {
        caller: ONE,
        calls: &[(T, Next::LookGate), (T, Next::LookGate)],
        next: None,
    },
    Actor {
        caller: TWO,
        calls: &[(S, Next::PinToSet), (T, Next::PinToCancel)],
        next: None,
    },
    // its second part is the rest of the closing
    Actor {
        caller: THREE,
        calls: &[(S, Next::LookChannel), (T, Next::LookForKey)],
        next: None,
    },
];

/// Makes this step, and answers the one that comes after it.
fn make(
    r: &mut Recorder,
    alloc: Global,
    caller: CallerNo,
    sel: SelNo,
    next: Next,
) -> Result<Option<Next>, RecordError>
    requires { IsRecorded r.old }
    ensures { IsRecorded r.new }
{
    Ok(after(next, find(r, alloc, caller, act_of(sel, next))?))
}

/// Makes the caller's next step. Where there is none its next call begins, if any.
fn go_on(r: &mut Recorder, alloc: Global, actor: &mut Actor) -> Result<(), RecordError>
    requires { IsRecorded r.old }
    ensures { IsRecorded r.new }
{
    let Some((sel, next)) = actor.next else {
        begin_next(actor);
        return Ok(());
    };
    let then = make(r, alloc, actor.caller, sel, next)?;
    actor.next = match then {
        Some(next) => Some((sel, next)),
        None => None,
    };
    Ok(())
}

fn begin_next(actor: &mut Actor) {
    if let Some((first, rest)) = actor.calls.split_first() {
        actor.next = Some(*first);
        actor.calls = rest;
    }
}

/// More turns than the calls have steps, with one for the beginning of each.
const TURNS: u32 = 64;

/// All that is left of what this caller does.
fn finish(r: &mut Recorder, alloc: Global, actor: &mut Actor) -> Result<(), RecordError>
    requires { IsRecorded r.old }
    ensures { IsRecorded r.new }
{
    for _ in 0..TURNS {
        go_on(r, alloc, actor)?;
    }
    Ok(())
}

/// The next number of a row of numbers, which picks one of four.
fn shuffled(number: u32) -> u32 {
    number.wrapping_mul(1_103_515_245).wrapping_add(12_345)
}

/// The four do what they do, in an order of their steps that the seed gives.
fn run(r: &mut Recorder, alloc: Global, seed: u32) -> Result<(), RecordError>
    requires { IsRecorded r.old }
    ensures { IsRecorded r.new }
{
    let [mut first, mut second, mut third, mut fourth] = ACTORS;
    let mut number = shuffled(seed);
    for _ in 0..TURNS {
        match number >> 30 {
            0 => go_on(r, alloc, &mut first)?,
            1 => go_on(r, alloc, &mut second)?,
            2 => go_on(r, alloc, &mut third)?,
            _ => go_on(r, alloc, &mut fourth)?,
        }
        number = shuffled(number);
    }
    finish(r, alloc, &mut third)?;
    finish(r, alloc, &mut fourth)?;
    finish(r, alloc, &mut first)?;
    finish(r, alloc, &mut second)
}

/// The stream is registered with this selector.
fn register(r: &mut Recorder, alloc: Global, sel: SelNo) -> Result<(), RecordError>
    requires { IsRecorded r.old }
    ensures { IsRecorded r.new }
{
    let registers = [
        Act::TryHoldBit(C, None),
        Act::LookChannel(C, CHANNEL),
        Act::LookReg(C, sel, None),
        Act::LookGate(sel, GATE),
        Act::LookKeys(sel, 0),
        Act::Claim(sel, 0, C, false),
        Act::RaiseKeys(sel, 1, 0),
        Act::LookGate(sel, GATE),
        Act::Touch(sel, 0, false),
        Act::SwapInterest(sel, 0, Ops::READ, Ops::NONE),
        Act::SwapNote(sel, 0, 0, 0),
        Act::Enrol(C, sel, 0, 0, None),
        Act::Publish(sel, 0, STAGE),
        Act::LookChannel(C, CHANNEL),
        Act::Unpin(sel, 0),
        Act::Release(C),
    ];
    play(r, alloc, ZERO, &registers)
}

/// Both selectors are opened, with their lists, and a stream is registered with both.
fn set_up(r: &mut Recorder, alloc: Global) -> Result<(), RecordError>
    requires { IsRecorded r.old }
    ensures { IsRecorded r.new }
{
    let opens = [
        Act::MakeSelector(S, false),
        Act::MakeSelector(T, false),
        Act::TakeList(S, None),
        Act::MakeChannel(C, Kind::Stream, false),
        Act::TryHoldBit(C, None),
        Act::SetMode(C, false, CHANNEL),
        Act::Release(C),
    ];
    play(r, alloc, ZERO, &opens)?;
    play(
        r,
        alloc,
        ONE,
        &[Act::LookSelectors(0), Act::TakeList(T, None)],
    )?;
    register(r, alloc, S)?;
    register(r, alloc, T)
}

/// A caller that makes one selection.
fn selecting(caller: CallerNo, sel: SelNo) -> Actor {
    Actor {
        caller,
        calls: &[],
        next: Some((sel, Next::LookGate)),
    }
}

/// Each of the two selects once more.
fn select_at_last(r: &mut Recorder, alloc: Global) -> Result<(), RecordError>
    requires { IsRecorded r.old }
    ensures { IsRecorded r.new }
{
    finish(r, alloc, &mut selecting(ZERO, S))?;
    finish(r, alloc, &mut selecting(ONE, T))
}

/// Whether the key of the selector is removed.
fn is_removed(r: &mut Recorder, alloc: Global, sel: SelNo) -> Result<bool, RecordError>
    requires { IsRecorded r.old }
    ensures { IsRecorded r.new }
{
    match find(r, alloc, TWO, Act::LookKey(sel, 0, STAGE))? {
        Found::Key(stage) => Ok(stage.removed),
        _ => Ok(false),
    }
}

/// A run in the order that the seed gives.
fn is_legal<R: Abort>(rt: &R, alloc: Global, seed: u32) -> Result<(), Fail> {
    let mut r = Recorder::make(alloc, LIMITS)?;
    set_up(&mut r, alloc)?;
    run(&mut r, alloc, seed)?;
    assert!(rt;
        is_another_refused(alloc, LIMITS, r.events())?,
        "seed {seed}"
    );
    select_at_last(&mut r, alloc)?;
    assert!(rt;
        is_removed(&mut r, alloc, S)? && is_removed(&mut r, alloc, T)?,
        "seed {seed}"
    );
    assert!(rt; audit(alloc, LIMITS, r.events()) == Ok(()), "seed {seed}");
    Ok(())
}

#[test]
fn four_callers_two_of_whom_select_by_lists(rt: HostRuntime) -> Result<(), Fail> {
    for seed in 0..10 {
        is_legal(&rt, rt.alloc(), seed)?;
    }
    Ok(())
}

//! Recorded runs in which one caller closes a channel while the other gives its number to a new one and registers that,
//! in many orders of their steps. What was written down is legal; the name of the closed channel closes nothing, and
//! the new channel's name leaves neither it open nor its key valid.
ghost use Rattle.nio_record.specs.Recorded.{IsRecorded};

use super::{CHANNEL, Found, STAGE, find, play};
use crate::tables::{ONE, S, ZERO};
use crate::words::SMALL as TABLE;
use crate::words::history::C;
use nio_audit::audit;
use nio_base::{Kind, Ops};
use nio_history::{Act, Chan, Stage};
use nio_record::{RecordError, Recorder};
use std::alloc::Global;
use std::process::Abort;
use std::test::Fail;

/// The number's first channel as it is made, and after it is closed.
const OPEN: Chan = Chan {
    made: true,
    kind: Kind::Stream,
    closed: false,
    blocking: true,
    serial: 0,
};

const CLOSED: Chan = Chan {
    made: true,
    kind: Kind::Stream,
    closed: true,
    blocking: true,
    serial: 0,
};

/// A step of closing a channel.
#[derive(Clone, Copy)]
enum Next {
    Look,
    /// The channel was found so.
    Close(Chan),
    LookForKey,
    Compare,
    Pin,
    Touch,
    Cancel,
    Unpin,
}

/// The other caller's closing of the channel with this serial, and its next step, if any.
#[derive(Clone, Copy)]
struct Closer {
    serial: u32,
    next: Option<Next>,
    when: When,
    /// How many steps the first caller has made of reopening and registering.
    made: u32,
}

/// When the closing goes on, by the steps of the first caller, counted from 1.
#[derive(Clone, Copy, Debug)]
struct When {
    /// It makes so many steps before the first channel is closed.
    early: u32,
    /// Just before this step it makes so many more.
    before: u32,
    many: u32,
    /// Just before this one it makes the others.
    later: u32,
}

/// How many steps a closing has at most.
const MOST: u32 = 9;

/// Makes this step of the closing.
fn close_by(r: &mut Recorder, alloc: Global, next: Next) -> Result<Found, RecordError>
    requires { IsRecorded r.old }
    ensures { IsRecorded r.new }
{
    match next {
        Next::Look | Next::Compare => find(r, alloc, ONE, Act::LookChannel(C, CHANNEL)),
        Next::Close(found) => find(r, alloc, ONE, Act::CloseBit(C, found, CHANNEL)),
        Next::LookForKey => find(r, alloc, ONE, Act::LookReg(C, S, None)),
        Next::Pin => find(r, alloc, ONE, Act::Pin(S, 0, STAGE)),
        Next::Touch => find(r, alloc, ONE, Act::Touch(S, 0, false)),
        Next::Cancel => find(r, alloc, ONE, Act::CancelKey(S, 0, STAGE)),
        Next::Unpin => find(r, alloc, ONE, Act::Unpin(S, 0)),
    }
}

/// What comes after the step, by what it found.
fn after(next: Next, serial: u32, found: Found) -> Option<Next> {
    match (next, found) {
        (Next::Look, Found::Channel(chan)) if chan.is_open(serial) => Some(Next::Close(chan)),
        (Next::Close(from), Found::Channel(chan)) if chan.is_open(serial) => {
            if chan.blocking || !from.blocking {
                Some(Next::LookForKey)
            } else {
                Some(Next::Close(chan))
            }
        }
        (Next::LookForKey, Found::Noted(Some(_))) => Some(Next::Compare),
        (Next::Compare, Found::Channel(chan)) if chan.fits(serial) => Some(Next::Pin),
        (Next::Pin, _) => Some(Next::Touch),
        (Next::Touch, _) => Some(Next::Cancel),
        (Next::Cancel, _) => Some(Next::Unpin),
        _ => None,
    }
}

/// Makes the next step of the closing, if any.
fn close_once(r: &mut Recorder, alloc: Global, closer: &mut Closer) -> Result<(), RecordError>
    requires { IsRecorded r.old }
    ensures { IsRecorded r.new }
{
    let Some(next) = closer.next else {
        return Ok(());
    };
    let found = close_by(r, alloc, next)?;
    closer.next = after(next, closer.serial, found);
    Ok(())
}

/// Makes so many steps of the closing, or as many as there are.
fn close_on(
    r: &mut Recorder,
    alloc: Global,
    closer: &mut Closer,
    many: u32,
) -> Result<(), RecordError>
    requires { IsRecorded r.old }
    ensures { IsRecorded r.new }
{
    for _ in 0..many {
        close_once(r, alloc, closer)?;
    }
    Ok(())
}

/// The first caller's next step, after those of the closing that are due.
fn step(
    r: &mut Recorder,
    alloc: Global,
    closer: &mut Closer,
    act: Act,
) -> Result<Found, RecordError>
    requires { IsRecorded r.old }
    ensures { IsRecorded r.new }
{
    let when = closer.when;
    closer.made = closer.made.saturating_add(1);
    if closer.made == when.before {
        close_on(r, alloc, closer, when.many)?;
    }
    if closer.made == when.later {
        close_on(r, alloc, closer, MOST)?;
    }
    find(r, alloc, ZERO, act)
}

fn steps(
    r: &mut Recorder,
    alloc: Global,
    closer: &mut Closer,
    acts: &[Act],
) -> Result<(), RecordError>
    requires { IsRecorded r.old }
    ensures { IsRecorded r.new }
{
    for act in acts {
        step(r, alloc, closer, *act)?;
    }
    Ok(())
}

/// A look at the number: whether its second channel is open.
fn finds_open(r: &mut Recorder, alloc: Global, closer: &mut Closer) -> Result<bool, RecordError>
    requires { IsRecorded r.old }
    ensures { IsRecorded r.new }
{
    let looked = step(r, alloc, closer, Act::LookChannel(C, CHANNEL))?;
    Ok(matches!(looked, Found::Channel(found) if found.is_open(1)))
}

/// The number is given to its second channel.
fn reopen(r: &mut Recorder, alloc: Global, closer: &mut Closer) -> Result<(), RecordError>
    requires { IsRecorded r.old }
    ensures { IsRecorded r.new }
{
    let reopens = [
        Act::LookChannel(C, CHANNEL),
        Act::TryHoldBit(C, None),
        Act::LookReg(C, S, None),
        Act::Reopen(C, CLOSED, false),
        Act::Release(C),
    ];
    steps(r, alloc, closer, &reopens)
}

/// Where that is open, it is made non-blocking and registered.
fn register(r: &mut Recorder, alloc: Global, closer: &mut Closer) -> Result<(), RecordError>
    requires { IsRecorded r.old }
    ensures { IsRecorded r.new }
{
    let registers = [
        Act::LookReg(C, S, None),
        Act::Claim(S, 0, C, false),
        Act::RaiseKeys(S, 1, 0),
        Act::Touch(S, 0, false),
        Act::SwapInterest(S, 0, Ops::READ, Ops::NONE),
        Act::Enrol(C, S, 0, 0, None),
        Act::Publish(S, 0, STAGE),
    ];
    steps(r, alloc, closer, &[Act::TryHoldBit(C, None)])?;
    if finds_open(r, alloc, closer)? {
        steps(r, alloc, closer, &[Act::SetMode(C, false, CHANNEL)])?;
        if finds_open(r, alloc, closer)? {
            steps(r, alloc, closer, &registers)?;
            if !finds_open(r, alloc, closer)? {
                play(r, alloc, ZERO, &[Act::CancelKey(S, 0, STAGE)])?;
            }
            steps(r, alloc, closer, &[Act::Unpin(S, 0)])?;
        }
    }
    steps(r, alloc, closer, &[Act::Release(C)])
}

/// A channel is opened and closed.
fn set_up(r: &mut Recorder, alloc: Global, closer: &mut Closer) -> Result<(), RecordError>
    requires { IsRecorded r.old }
    ensures { IsRecorded r.new }
{
    let opens = [
        Act::MakeSelector(S, false),
        Act::MakeChannel(C, Kind::Stream, false),
    ];
    let closes = [
        Act::LookChannel(C, CHANNEL),
        Act::CloseBit(C, OPEN, CHANNEL),
        Act::LookReg(C, S, None),
    ];
    play(r, alloc, ZERO, &opens)?;
    close_on(r, alloc, closer, closer.when.early)?;
    play(r, alloc, ZERO, &closes)
}

/// What the number has.
fn look_channel(r: &mut Recorder, alloc: Global) -> Result<Option<Chan>, RecordError>
    requires { IsRecorded r.old }
    ensures { IsRecorded r.new }
{
    match find(r, alloc, ZERO, Act::LookChannel(C, CHANNEL))? {
        Found::Channel(found) => Ok(Some(found)),
        _ => Ok(None),
    }
}

/// How far the key has come.
fn look_key(r: &mut Recorder, alloc: Global) -> Result<Option<Stage>, RecordError>
    requires { IsRecorded r.old }
    ensures { IsRecorded r.new }
{
    match find(r, alloc, ZERO, Act::LookKey(S, 0, STAGE))? {
        Found::Key(stage) => Ok(Some(stage)),
        _ => Ok(None),
    }
}

/// A run in which the closing of the channel with this serial goes on so.
fn is_closed_beside<R: Abort>(rt: &R, alloc: Global, serial: u32, when: When) -> Result<(), Fail> {
    let mut r = Recorder::make(alloc, TABLE)?;
    let mut closer = Closer {
        serial,
        next: Some(Next::Look),
        when,
        made: 0,
    };
    set_up(&mut r, alloc, &mut closer)?;
    reopen(&mut r, alloc, &mut closer)?;
    register(&mut r, alloc, &mut closer)?;
    close_on(&mut r, alloc, &mut closer, MOST)?;
    let (Some(found), Some(stage)) = (look_channel(&mut r, alloc)?, look_key(&mut r, alloc)?) else {
        panic!(rt; "the looks find nothing")
    };
    // Only who closes the second channel closes it, and cancels its key.
    let stays = serial == 0;
    assert!(rt; found.fits(1) && found.closed != stays, "{when:?}");
    assert!(rt; stage.is_valid_key(0) == stays, "{when:?}");
    assert!(rt; audit(alloc, TABLE, r.events()) == Ok(()), "{when:?}");
    Ok(())
}

/// The closing of the channel with this serial goes on before each step of the first caller from that one on. It pauses
/// there for three steps, or until the first caller has made all of its steps.
fn are_closed_beside<R: Abort>(
    rt: &R,
    alloc: Global,
    serial: u32,
    early: u32,
    first: u32,
) -> Result<(), Fail> {
    for before in first..20 {
        for later in [before + 3, 21] {
            for many in 1..5 {
                let when = When {
                    early,
                    before,
                    many,
                    later,
                };
                is_closed_beside(rt, alloc, serial, when)?;
            }
        }
    }
    Ok(())
}

/// It was found open, and then both close it.
#[test]
fn the_first_channel_is_closed_twice(rt: HostRuntime) -> Result<(), Fail> {
    are_closed_beside(&rt, rt.alloc(), 0, 1, 1)
}

/// Its closer looks for its key later.
#[test]
fn the_first_channel_is_closed_once(rt: HostRuntime) -> Result<(), Fail> {
    are_closed_beside(&rt, rt.alloc(), 0, 2, 1)
}

/// The closing begins once it is opened.
#[test]
fn the_second_channel_is_closed(rt: HostRuntime) -> Result<(), Fail> {
    are_closed_beside(&rt, rt.alloc(), 1, 0, 5)
}

//! Selections by a selector's list, during which the caller that selects acts itself: of each which indexes changed and
//! which keys it looks at. What was done during one changed in the next.
ghost use Rattle.std.specs.Prelude.{IfSome};
ghost use Rattle.nio_channel.specs.Idle.{AreIdle, zero};
ghost use Rattle.nio_select.specs.InHand.{selection_of};
ghost use Rattle.nio_select.specs.InProgress.{HasList, Selects};
ghost use Rattle.nio_steps.specs.SelectCalls.{Selection};
ghost use Rattle.nio_words.specs.Views.{view};

use crate::calls::{Call, NOTHING, Reply, answer, channel_with, key_with, told};
use crate::listed::agrees;
use crate::tables::{C0, C1, C2, S, ZERO, table};
use nio_base::{ChanId, Limits, Ops};
use nio_channel::{close_channel, try_register};
use nio_keys::{cancel, set_interest};
use nio_select::{After, KeyList, Mode, Selecting, Told, take_list};
use nio_words::{Pass, Words};
use std::test::Fail;

const LIMITS: Limits = Limits {
    callers: 2,
    selectors: 1,
    channels: 3,
    keys: 3,
};

/// What the caller does between the beginning of its selection and its end.
#[derive(Clone, Copy)]
enum Act {
    Nothing,
    /// Registers the channel for reading.
    Registers(ChanId),
    Closes(ChanId),
    /// On the key with this index and serial.
    Sets(u32, u32, u8),
    Cancels(u32, u32),
}

/// How a selection ends.
#[derive(Clone, Copy)]
enum End {
    /// It is told that nothing is ready.
    Told,
    /// Its poll failed.
    Left,
}

/// What has changed when a selection begins, and the keys that it looks at, each with its serial and its interest; what
/// is done during it, and how it ends.
type Row = (&'static [u32], &'static [(u32, u32, u8)], Act, End);

const READ: u8 = 1;

const BOTH: u8 = 5;

const ROWS: &[Row] = &[
    (&[], &[], Act::Registers(C0), End::Told),
    (&[0], &[(0, 0, READ)], Act::Registers(C1), End::Left),
    (
        &[1],
        &[(0, 0, READ), (1, 0, READ)],
        Act::Registers(C2),
        End::Told,
    ),
    (
        &[2],
        &[(0, 0, READ), (1, 0, READ), (2, 0, READ)],
        Act::Sets(1, 0, BOTH),
        End::Told,
    ),
    (
        &[1],
        &[(0, 0, READ), (1, 0, BOTH), (2, 0, READ)],
        Act::Sets(0, 0, BOTH),
        End::Left,
    ),
    (
        &[0],
        &[(0, 0, BOTH), (1, 0, BOTH), (2, 0, READ)],
        Act::Nothing,
        End::Told,
    ),
    // the end of the selection removes the key, and the next one takes the bit
    (
        &[],
        &[(0, 0, BOTH), (1, 0, BOTH), (2, 0, READ)],
        Act::Cancels(1, 0),
        End::Told,
    ),
    (
        &[1],
        &[(0, 0, BOTH), (2, 0, READ)],
        Act::Registers(C1),
        End::Told,
    ),
    (
        &[1],
        &[(0, 0, BOTH), (1, 1, READ), (2, 0, READ)],
        Act::Closes(C0),
        End::Told,
    ),
    (
        &[0],
        &[(1, 1, READ), (2, 0, READ)],
        Act::Closes(C2),
        End::Left,
    ),
    // one that is left removes none: the next does as it begins
    (&[2], &[(1, 1, READ)], Act::Cancels(1, 1), End::Left),
    (&[1], &[], Act::Nothing, End::Told),
    (&[], &[], Act::Nothing, End::Told),
];

/// Whether what the caller does isn't refused.
fn does(w: &Words, p: &mut Pass, act: Act) -> bool
    requires { AreIdle w.now p.old }
    ensures idle { AreIdle w.now p.new }
    ensures selecting { (selection : Selection) → Selects (view w.now p.old) zero selection
        → Selects (view w.now p.new) zero selection }
{
    match act {
        Act::Nothing => true,
        Act::Registers(chan) => registers(w, p, chan),
        Act::Closes(chan) => closes(w, p, chan),
        Act::Sets(index, serial, ops) => sets(w, p, index, serial, ops),
        Act::Cancels(index, serial) => cancels(w, p, index, serial),
    }
}

fn registers(w: &Words, p: &mut Pass, chan: ChanId) -> bool
    requires { AreIdle w.now p.old }
    ensures idle { AreIdle w.now p.new }
    ensures selecting { (selection : Selection) → Selects (view w.now p.old) zero selection
        → Selects (view w.now p.new) zero selection }
{
    let Some(chan) = channel_with(w, p, chan) else {
        return false;
    };
    try_register(w, p, ZERO, S, chan, Ops::READ, 0).is_ok()
}

fn closes(w: &Words, p: &mut Pass, chan: ChanId) -> bool
    requires { AreIdle w.now p.old }
    ensures idle { AreIdle w.now p.new }
    ensures selecting { (selection : Selection) → Selects (view w.now p.old) zero selection
        → Selects (view w.now p.new) zero selection }
{
    let Some(chan) = channel_with(w, p, chan) else {
        return false;
    };
    close_channel(w, p, ZERO, chan)
}

fn sets(w: &Words, p: &mut Pass, index: u32, serial: u32, ops: u8) -> bool
    requires { AreIdle w.now p.old }
    ensures idle { AreIdle w.now p.new }
    ensures selecting { (selection : Selection) → Selects (view w.now p.old) zero selection
        → Selects (view w.now p.new) zero selection }
{
    let Some(key) = key_with(w, p, index, serial) else {
        return false;
    };
    set_interest(w, p, ZERO, key, Ops::of(ops)).is_ok()
}

fn cancels(w: &Words, p: &mut Pass, index: u32, serial: u32) -> bool
    requires { AreIdle w.now p.old }
    ensures idle { AreIdle w.now p.new }
    ensures selecting { (selection : Selection) → Selects (view w.now p.old) zero selection
        → Selects (view w.now p.new) zero selection }
{
    let Some(key) = key_with(w, p, index, serial) else {
        return false;
    };
    cancel(w, p, ZERO, key);
    true
}

/// Ends the selection. The list comes back.
fn ends(w: &Words, p: &mut Pass, selection: Selecting, end: End, told: &Told) -> Option<KeyList>
    requires idle { AreIdle w.now p.old }
    requires begun { Selects (view w.now p.old) zero (selection_of selection) }
    ensures idle { AreIdle w.now p.new }
    ensures list { IfSome result (HasList (view w.now p.new) zero) }
{
    match end {
        End::Left => selection.leave(w, p, ZERO),
        End::Told => match selection.told(w, p, ZERO, told) {
            After::Done(_answer, list) => list,
            After::Again(again) => again.leave(w, p, ZERO),
        },
    }
}

/// A selection as the row says, and the list after it; none where it isn't so.
fn selects(w: &Words, p: &mut Pass, list: KeyList, row: &Row, told: &Told) -> Option<KeyList>
    requires idle { AreIdle w.now p.old }
    requires list { HasList (view w.now p.old) zero list }
    ensures idle { AreIdle w.now p.new }
    ensures list { IfSome result (HasList (view w.now p.new) zero) }
{
    let (changed, keys, act, end) = *row;
    let Ok(selection) = list.begin(w, p, ZERO, Mode::Now) else {
        return None;
    };
    let is_so = agrees(selection.asked(), changed, keys);
    let is_done = does(w, p, act);
    let back = ends(w, p, selection, end, told);
    if is_so && is_done { back } else { None }
}

#[test]
fn a_selecting_caller_acts(rt: HostRuntime) -> Result<(), Fail> {
    let alloc = rt.alloc();
    let (words, mut p) = table(alloc, LIMITS)?;
    let opened = answer(alloc, &words, &mut p, Call::OpenStreams(3));
    assert_eq!(rt; opened, Reply::Mode(Ok(())));
    let nothing = told(alloc, NOTHING, false)?;
    let mut list = take_list(alloc, &words, &mut p, ZERO, S);
    for (at, row) in ROWS.iter().enumerate() {
        let Some(last) = list else {
            panic!(rt; "row {at}")
        };
        list = selects(&words, &mut p, last, row, &nothing);
    }
    assert!(rt; list.is_some());
    Ok(())
}

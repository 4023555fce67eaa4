//! Selections by a selector's list: what is done between two of them, and during one; and of each which indexes changed
//! and which keys it looks at.
use crate::calls::{NOTHING, told};
use crate::tables::{C0, C0_AGAIN, C1, C2};
use nio_base::{CallerNo, ChanId, KeyNo, Kind, Limits, Ops, SelNo};
use nio_caller::Caller;
use nio_select::{Asked, Mode, Told};
use nio_words::Words;
use std::alloc::Global;
use std::process::Abort;
use std::sync::Wait;
use std::test::Fail;

const LIMITS: Limits = Limits {
    callers: 2,
    selectors: 1,
    channels: 4,
    keys: 4,
};

/// What is done beside the selections by the list: between two of them by the caller that has it, but for
/// `OtherSelects`, and during one by the other caller.
#[derive(Clone, Copy)]
enum Act {
    Nothing,
    /// Opens a stream.
    Opens,
    /// Registers the channel for reading.
    Registers(ChanId),
    Closes(ChanId),
    /// Opens the channel that comes after this one.
    Reopens(ChanId),
    /// On the key with this index and serial.
    Sets(u32, u32, u8),
    Cancels(u32, u32),
    /// The other caller selects without the list.
    OtherSelects,
}

/// How a selection by the list ends.
#[derive(Clone, Copy)]
enum End {
    /// It is told that nothing is ready.
    Told,
    /// Its poll failed.
    Left,
}

/// What is done; what has changed in the next selection by the list, and the keys that it looks at, each with its serial
/// and its interest; what is done during the selection, and how it ends.
type Row = (Act, &'static [u32], &'static [(u32, u32, u8)], Act, End);

const READ: u8 = 1;

const BOTH: u8 = 5;

/// The keys of three streams.
const THREE: &[(u32, u32, u8)] = &[(0, 0, READ), (1, 0, READ), (2, 0, READ)];

/// The same, once the first and the second are interested in both.
const SET: &[(u32, u32, u8)] = &[(0, 0, BOTH), (1, 0, BOTH), (2, 0, READ)];

const ROWS: &[Row] = &[
    (Act::Opens, &[], &[], Act::Nothing, End::Told),
    (Act::Opens, &[], &[], Act::Nothing, End::Told),
    (Act::Opens, &[], &[], Act::Nothing, End::Told),
    // keys that are registered, the last of them during a selection
    (
        Act::Registers(C0),
        &[0],
        &[(0, 0, READ)],
        Act::Registers(C1),
        End::Told,
    ),
    (Act::Registers(C2), &[1, 2], THREE, Act::Nothing, End::Told),
    (Act::Nothing, &[], THREE, Act::Nothing, End::Told),
    // an interest that is changed, and one during a selection
    (
        Act::Sets(0, 0, BOTH),
        &[0],
        &[(0, 0, BOTH), (1, 0, READ), (2, 0, READ)],
        Act::Sets(1, 0, BOTH),
        End::Told,
    ),
    (Act::Nothing, &[1], SET, Act::Nothing, End::Told),
    // the other caller's selection takes no bit
    (Act::OtherSelects, &[], SET, Act::OtherSelects, End::Told),
    (Act::Sets(2, 0, READ), &[2], SET, Act::Nothing, End::Left),
    // nor does one that was left lose what it took
    (Act::Nothing, &[], SET, Act::Sets(2, 0, BOTH), End::Left),
    (
        Act::OtherSelects,
        &[2],
        &[(0, 0, BOTH), (1, 0, BOTH), (2, 0, BOTH)],
        Act::Nothing,
        End::Told,
    ),
    // a key that is cancelled, and one whose channel is closed during a selection: its end removes that, and the next
    // selection takes the bit
    (
        Act::Cancels(1, 0),
        &[1],
        &[(0, 0, BOTH), (2, 0, BOTH)],
        Act::Closes(C0),
        End::Told,
    ),
    (Act::Nothing, &[0], &[(2, 0, BOTH)], Act::Nothing, End::Told),
    // indexes that come back: of the second channel, and of the one that comes after the first
    (
        Act::Registers(C1),
        &[0],
        &[(0, 1, READ), (2, 0, BOTH)],
        Act::Reopens(C0),
        End::Told,
    ),
    (
        Act::Registers(C0_AGAIN),
        &[1],
        &[(0, 1, READ), (1, 1, READ), (2, 0, BOTH)],
        Act::Nothing,
        End::Told,
    ),
    // a key that is cancelled, and removed by the other caller
    (
        Act::Cancels(0, 1),
        &[0],
        &[(1, 1, READ), (2, 0, BOTH)],
        Act::Cancels(1, 1),
        End::Left,
    ),
    (
        Act::OtherSelects,
        &[1],
        &[(2, 0, BOTH)],
        Act::Nothing,
        End::Told,
    ),
];

/// Whether what is done between two selections by the list isn't refused.
fn does_between<R: Wait>(
    rt: &R,
    alloc: Global,
    caller: &mut Caller<&Words>,
    other: &mut Caller<&Words>,
    sel: SelNo,
    act: Act,
) -> bool {
    match act {
        Act::OtherSelects => selects(alloc, other, sel),
        act => does(rt, alloc, caller, sel, act),
    }
}

/// Whether what the caller does isn't refused.
fn does<R: Wait>(rt: &R, alloc: Global, caller: &mut Caller<&Words>, sel: SelNo, act: Act) -> bool {
    match act {
        Act::Nothing => true,
        Act::Opens => caller.open_channel(Kind::Stream).is_ok(),
        Act::Registers(chan) => registers(rt, caller, sel, chan),
        Act::Closes(chan) => closes(caller, chan),
        Act::Reopens(chan) => reopens(caller, chan),
        Act::Sets(index, serial, ops) => sets(caller, sel, index, serial, ops),
        Act::Cancels(index, serial) => cancels(caller, sel, index, serial),
        Act::OtherSelects => selects(alloc, caller, sel),
    }
}

fn registers<R: Wait>(rt: &R, caller: &mut Caller<&Words>, sel: SelNo, chan: ChanId) -> bool {
    caller
        .register_non_blocking(rt, sel, chan, Ops::READ, 0)
        .is_ok()
}

fn closes(caller: &mut Caller<&Words>, chan: ChanId) -> bool {
    caller.close_channel(chan)
}

fn reopens(caller: &mut Caller<&Words>, chan: ChanId) -> bool {
    caller.reopen_channel(chan).is_ok()
}

fn sets(caller: &mut Caller<&Words>, sel: SelNo, index: u32, serial: u32, ops: u8) -> bool {
    let key = KeyNo { sel, index, serial };
    caller.set_interest(key, Ops::of(ops)).is_ok()
}

fn cancels(caller: &mut Caller<&Words>, sel: SelNo, index: u32, serial: u32) -> bool {
    caller.cancel(KeyNo { sel, index, serial })
}

/// A selection without the list that is told nothing. Says whether it begins, or is busy beside one by the list.
fn selects(alloc: Global, caller: &mut Caller<&Words>, sel: SelNo) -> bool {
    let Ok(told) = told(alloc, NOTHING, false) else {
        return false;
    };
    if caller.begin(alloc, sel, Mode::Now).is_err() {
        return true;
    }
    is_over(caller, sel, &told)
}

/// Tells the selection. Says whether it is over; where it isn't, it is left.
fn is_over(caller: &mut Caller<&Words>, sel: SelNo, told: &Told) -> bool {
    match caller.told(sel, told) {
        Ok(Some(_answer)) => true,
        Ok(None) => {
            let _ = caller.leave(sel);
            false
        }
        Err(_not_selecting) => false,
    }
}

/// Whether this has changed, and the selection looks at these keys.
pub(crate) fn agrees(asked: &Asked, changed: &[u32], keys: &[(u32, u32, u8)]) -> bool {
    let mut same = asked.changed() == changed && asked.len() == keys.len();
    for (index, serial, ops) in keys {
        same &= match asked.key(*index) {
            Some(key) => key.serial == *serial && key.interest.bits() == *ops,
            None => false,
        };
    }
    same
}

/// Ends the selection, whose list comes back to the caller.
fn ends(caller: &mut Caller<&Words>, sel: SelNo, told: &Told, end: End) -> bool {
    match end {
        End::Left => caller.leave(sel).is_ok(),
        End::Told => is_over(caller, sel, told),
    }
}

/// Whether the caller's selection looks at this.
fn looks_at(caller: &Caller<&Words>, sel: SelNo, changed: &[u32], keys: &[(u32, u32, u8)]) -> bool {
    match caller.selection(sel) {
        Some(selection) => agrees(selection.asked(), changed, keys),
        None => false,
    }
}

#[test]
fn selections_by_the_list(rt: HostRuntime) -> Result<(), Fail> {
    let (words, pass) = Words::make(rt.alloc(), LIMITS)?;
    let mut caller = Caller::first(&words, pass);
    let sel = caller.open_selector()?;
    let mut other = caller.split(CallerNo(1))?;
    let nothing = told(rt.alloc(), NOTHING, false)?;
    assert!(rt; caller.take_list(rt.alloc(), sel));
    assert!(rt; !other.take_list(rt.alloc(), sel));
    for (at, (before, changed, keys, during, end)) in ROWS.iter().enumerate() {
        assert!(rt;
            does_between(&rt, rt.alloc(), &mut caller, &mut other, sel, *before),
            "row {at}"
        );
        caller.begin(rt.alloc(), sel, Mode::Now)?;
        assert!(rt; looks_at(&caller, sel, changed, keys), "row {at}");
        assert!(rt; does(&rt, rt.alloc(), &mut other, sel, *during), "row {at}");
        assert!(rt; ends(&mut caller, sel, &nothing, *end), "row {at}");
    }
    Ok(())
}

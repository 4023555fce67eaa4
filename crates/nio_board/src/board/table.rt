//! The calls on the table: watching a channel, and leaving it.
ghost use Rattle.std.specs.Prelude.{◌≡◌, ◌^◌, ◌≤◌, [], ◌∷◌, IfOk, MatchOption, OnErr, OnOk};
ghost use Rattle.nio_history.specs.PassViews.{HasChannel};
ghost use Rattle.nio_words.specs.Views.{view};
ghost use Rattle.nio_board.specs.Board.{IsAtRest, board_of, one_more};
ghost use Rattle.nio_board.specs.BoardCalls.{AreMade, CancelsKey, ClosesChannel, FailsToFind, FailsToOpen};
ghost use Rattle.nio_board.specs.BoardCalls.{FailsToRegister, FailsToReopen, FailsToSet, FailsToTake, FailsToWatch};
ghost use Rattle.nio_board.specs.BoardCalls.{HasMade, SetsInterest, Takes, Unwatches, WatchesChannel};
ghost use Rattle.nio_board.specs.BoardCalls.{after_it, finds_channel, opens, registers, reopens};
ghost use Rattle.nio_board.specs.Called.{table_channel};

use super::{Port, Refused, Station};
use nio_base::{ChanId, KeyNo, Kind, Ops};
use nio_channel::{close_channel, open_channel, register, reopen_channel, set_blocking};
use nio_keys::{cancel, find, find_channel, set_interest};
use nio_words::{Pass, Words};
use std::sync::Wait;

impl Station {
    // The table's channel that is a channel of the board. None where its number is too large.
    fn table_channel(&self, chan: ChanId) -> Option<ChanId>
        ensures { MatchOption result (2 ^ 32 ≤ (table_channel self.now.deal chan).number.0)
            (λ c. c ≡ table_channel self.now.deal chan) }
    {
        let Some(deal) = self.deal else {
            return Some(chan);
        };
        match deal.channel(chan.number) {
            Some(number) => Some(ChanId {
                number,
                serial: chan.serial,
            }),
            None => None,
        }
    }
}

// Registers a channel of the board.
pub(super) fn watch_channel<R: Wait>(
    rt: &R,
    w: &Words,
    p: &mut Pass,
    at: &Station,
    chan: ChanId,
    kind: Kind,
    ops: Ops,
) -> Result<KeyNo, Refused>
    requires { IsAtRest (board_of w.now p.old at.now) }
    ensures watched { OnOk result (IsAtRest (board_of w.now p.new (one_more at.now chan))) }
    ensures refused { OnErr result (IsAtRest (board_of w.now p.new at.now)) }
    ensures made { IfOk result (λ key. HasMade (board_of w.now p.old at.now) (board_of w.now p.new at.now)
        (WatchesChannel at.now.deal at.now.selector.number kind (table_channel at.now.deal chan) ops key)) }
    ensures failed { OnErr result (HasMade (board_of w.now p.old at.now) (board_of w.now p.new at.now)
        (FailsToWatch at.now.deal at.now.selector.number kind (table_channel at.now.deal chan) ops)) }
{
    match at.table_channel(chan) {
        Some(own) => watch_own(rt, w, p, at, own, kind, ops),
        None => Err(Refused),
    }
}

// Registers a channel of the table, and closes it where that is refused.
fn watch_own<R: Wait>(
    rt: &R,
    w: &Words,
    p: &mut Pass,
    at: &Station,
    own: ChanId,
    kind: Kind,
    ops: Ops,
) -> Result<KeyNo, Refused>
    requires { IsAtRest (board_of w.now p.old at.now) }
    ensures watched { (c : ChanId) → own ≡ table_channel at.now.deal c
        → OnOk result (IsAtRest (board_of w.now p.new (one_more at.now c))) }
    ensures refused { OnErr result (IsAtRest (board_of w.now p.new at.now)) }
    ensures made { IfOk result (λ key. HasMade (board_of w.now p.old at.now) (board_of w.now p.new at.now)
        (WatchesChannel at.now.deal at.now.selector.number kind own ops key)) }
    ensures failed { OnErr result (HasMade (board_of w.now p.old at.now) (board_of w.now p.new at.now)
        (FailsToWatch at.now.deal at.now.selector.number kind own ops)) }
{
    take(w, p, at, own, kind)?;
    if set_blocking(rt, w, p, at.caller, own, false).is_err() {
        close_channel(w, p, at.caller, own);
        return Err(Refused);
    }
    register_made(rt, w, p, at, own, ops)
}

// Has a channel of the table. The first one of a number is opened, or found where the board has a deal.
fn take(w: &Words, p: &mut Pass, at: &Station, chan: ChanId, kind: Kind) -> Result<(), Refused>
    requires { IsAtRest (board_of w.now p.old at.now) }
    ensures rest { IsAtRest (board_of w.now p.new at.now) }
    ensures has { OnOk result (HasChannel (view w.now p.new) chan) }
    ensures taken { OnOk result (HasMade (board_of w.now p.old at.now) (board_of w.now p.new at.now)
        (Takes kind at.now.deal chan)) }
    ensures failed { OnErr result (HasMade (board_of w.now p.old at.now) (board_of w.now p.new at.now)
        (FailsToTake kind at.now.deal chan)) }
{
    if chan.serial > 0 {
        let before = ChanId {
            number: chan.number,
            serial: chan.serial - 1,
        };
        return reopen(w, p, at, before);
    }
    match at.deal {
        None => open_first(w, p, at, chan, kind),
        Some(_) => find_made(w, p, at, chan),
    }
}

// Opens the table's next channel, where that is the one that is asked for.
fn open_first(
    w: &Words,
    p: &mut Pass,
    at: &Station,
    chan: ChanId,
    kind: Kind,
) -> Result<(), Refused>
    requires { IsAtRest (board_of w.now p.old at.now) }
    ensures rest { IsAtRest (board_of w.now p.new at.now) }
    ensures has { OnOk result (HasChannel (view w.now p.new) chan) }
    ensures taken { OnOk result (AreMade (board_of w.now p.old at.now) (board_of w.now p.new at.now)
        (opens kind chan ∷ [])) }
    ensures failed { OnErr result (HasMade (board_of w.now p.old at.now) (board_of w.now p.new at.now)
        (FailsToOpen kind chan)) }
{
    match open_channel(w, p, at.caller, kind) {
        Ok(made) if made == chan => Ok(()),
        Ok(made) => {
            close_channel(w, p, at.caller, made);
            Err(Refused)
        }
        Err(_refusal) => Err(Refused),
    }
}

// Finds a channel that was opened.
fn find_made(w: &Words, p: &mut Pass, at: &Station, chan: ChanId) -> Result<(), Refused>
    requires { IsAtRest (board_of w.now p.old at.now) }
    ensures rest { IsAtRest (board_of w.now p.new at.now) }
    ensures has { OnOk result (HasChannel (view w.now p.new) chan) }
    ensures taken { OnOk result (AreMade (board_of w.now p.old at.now) (board_of w.now p.new at.now)
        (finds_channel chan (Some chan) ∷ [])) }
    ensures failed { OnErr result (HasMade (board_of w.now p.old at.now) (board_of w.now p.new at.now)
        (FailsToFind chan)) }
{
    let Some(made) = find_channel(w, p, at.caller, chan.number.0, chan.serial) else {
        return Err(Refused);
    };
    if made == chan { Ok(()) } else { Err(Refused) }
}

// Opens the channel after this one of the same number, where this one is closed, and its keys have left their key sets.
fn reopen(w: &Words, p: &mut Pass, at: &Station, before: ChanId) -> Result<(), Refused>
    requires { IsAtRest (board_of w.now p.old at.now) }
    ensures rest { IsAtRest (board_of w.now p.new at.now) }
    ensures has { OnOk result (HasChannel (view w.now p.new) (after_it before)) }
    ensures taken { OnOk result (AreMade (board_of w.now p.old at.now) (board_of w.now p.new at.now)
        (reopens before)) }
    ensures failed { OnErr result (HasMade (board_of w.now p.old at.now) (board_of w.now p.new at.now)
        (FailsToReopen before)) }
{
    find_made(w, p, at, before)?;
    match reopen_channel(w, p, at.caller, before) {
        Ok(_after) => Ok(()),
        Err(_refusal) => Err(Refused),
    }
}

// Registers a channel of the table, and closes it where that is refused.
fn register_made<R: Wait>(
    rt: &R,
    w: &Words,
    p: &mut Pass,
    at: &Station,
    own: ChanId,
    ops: Ops,
) -> Result<KeyNo, Refused>
    requires rest { IsAtRest (board_of w.now p.old at.now) }
    requires channel { HasChannel (view w.now p.old) own }
    ensures watched { (c : ChanId) → own ≡ table_channel at.now.deal c
        → OnOk result (IsAtRest (board_of w.now p.new (one_more at.now c))) }
    ensures refused { OnErr result (IsAtRest (board_of w.now p.new at.now)) }
    ensures made { IfOk result (λ key. AreMade (board_of w.now p.old at.now) (board_of w.now p.new at.now)
        (registers at.now.selector.number own ops key ∷ [])) }
    ensures failed { OnErr result (HasMade (board_of w.now p.old at.now) (board_of w.now p.new at.now)
        (FailsToRegister at.now.selector.number own ops)) }
{
    match register(rt, w, p, at.caller, at.selector.number(), own, ops, 0) {
        Ok(key) => Ok(key),
        Err(_refusal) => {
            close_channel(w, p, at.caller, own);
            Err(Refused)
        }
    }
}

// Sets the interest set of the key, where the table has it.
pub(super) fn set_interest_of(
    w: &Words,
    p: &mut Pass,
    at: &Station,
    key: KeyNo,
    ops: Ops,
) -> Result<(), Refused>
    requires { IsAtRest (board_of w.now p.old at.now) }
    ensures rest { IsAtRest (board_of w.now p.new at.now) }
    ensures made { OnOk result (HasMade (board_of w.now p.old at.now) (board_of w.now p.new at.now)
        (SetsInterest at.now.selector.number key ops)) }
    ensures refused { OnErr result (HasMade (board_of w.now p.old at.now) (board_of w.now p.new at.now)
        (FailsToSet at.now.selector.number key ops)) }
{
    let Some(key) = find(w, p, at.caller, at.selector.number(), key.index, key.serial) else {
        return Err(Refused);
    };
    match set_interest(w, p, at.caller, key, ops) {
        Ok(()) => Ok(()),
        Err(_refusal) => Err(Refused),
    }
}

// Cancels the port's key, and closes its channel, as far as the table has them.
pub(super) fn unwatch_port(w: &Words, p: &mut Pass, at: &Station, port: Port)
    requires { IsAtRest (board_of w.now p.old at.now) }
    ensures rest { IsAtRest (board_of w.now p.new at.now) }
    ensures made { HasMade (board_of w.now p.old at.now) (board_of w.now p.new at.now)
        (Unwatches at.now.deal at.now.selector.number port.key port.chan) }
{
    cancel_key(w, p, at, port.key);
    if let Some(chan) = at.table_channel(port.chan) {
        close_made(w, p, at, chan);
    }
}

fn cancel_key(w: &Words, p: &mut Pass, at: &Station, key: KeyNo)
    requires { IsAtRest (board_of w.now p.old at.now) }
    ensures rest { IsAtRest (board_of w.now p.new at.now) }
    ensures made { HasMade (board_of w.now p.old at.now) (board_of w.now p.new at.now)
        (CancelsKey at.now.selector.number key) }
{
    if let Some(key) = find(w, p, at.caller, at.selector.number(), key.index, key.serial) {
        cancel(w, p, at.caller, key);
    }
}

fn close_made(w: &Words, p: &mut Pass, at: &Station, chan: ChanId)
    requires { IsAtRest (board_of w.now p.old at.now) }
    ensures rest { IsAtRest (board_of w.now p.new at.now) }
    ensures made { HasMade (board_of w.now p.old at.now) (board_of w.now p.new at.now)
        (ClosesChannel chan) }
{
    if let Some(made) = find_channel(w, p, at.caller, chan.number.0, chan.serial) {
        close_channel(w, p, at.caller, made);
    }
}

//! The table that the acceptor and the workers share: what is done before they work, and the seats that they take at
//! it. Where the table refuses a call that is answered as want of memory.
ghost use Rattle.std.specs.Prelude.{◌≡◌, ◌+◌, ◌<◌, ◌≤◌, IfOk, IfSome, IfNone, OnOk, length};
ghost use Rattle.nio_base.specs.Limits.{IsFit};
ghost use Rattle.nio_board.specs.Called.{HasCalled};
ghost use Rattle.nio_words.specs.Passes.{IsFirstPass, IsPassOf, IsReady, acts_seen, limits_of};
ghost use Rattle.nio_reactor.specs.Placing.{caller, deal_of, table_for};
ghost use Rattle.nio_reactor.specs.Seats.{AreNewcomers, HaveDrawn, HaveSeats, IsNewcomer, IsSeat, acceptor_deal};

use crate::handed::LISTENER;
use nio_base::{CallerNo, ChanId, ChanNo, Kind, Limits};
use nio_board::{Board, Deal};
use nio_channel::open_channel;
use nio_keys::find_selector;
use nio_select::open_selector;
use nio_words::{Pass, Words};
use std::alloc::{AllocError, Global};

/// The number of the acceptor and of its selector. That of a worker is one higher than the worker's.
pub(crate) const ACCEPTOR: u32 = 0;

/// The limits of a table for so many workers.
pub(crate) fn limits_for(workers: u32) -> Limits
    requires { workers ≤ 15 }
    ensures limits { result ≡ table_for workers }
    ensures fit { IsFit result }
{
    Limits {
        callers: workers + 1,
        selectors: workers + 1,
        channels: 32_768,
        keys: 32_768,
    }
}

/// The acceptor's share of the table's channels: the listener, under its own number.
pub(crate) fn acceptor_share() -> Deal
    ensures { result ≡ acceptor_deal }
{
    Deal {
        workers: 1,
        worker: 0,
        listener: LISTENER.number,
    }
}

/// A worker's share of the table's channels, where all workers have so many slots.
pub(crate) fn share_for(workers: u32, worker: u32, slots: u32) -> Deal
    requires { (worker < 16) × (slots ≤ 16000) }
    ensures { result ≡ deal_of workers worker slots }
{
    Deal {
        workers,
        worker,
        listener: ChanNo(2 * slots + 1 + worker),
    }
}

// Draws the numbers of all callers.
fn draw_all(words: &Words, pass: &mut Pass) -> Result<(), AllocError>
    requires { IsFirstPass words.now pass.old }
    ensures { OnOk result (AreNewcomers words.now pass.new (limits_of words.now).callers) }
{
    for number in 0..words.limits().callers {
        if words.draw(pass, CallerNo(number)).is_err() {
            return Err(AllocError);
        }
    }
    Ok(())
}

// Opens all selectors.
fn open_selectors(words: &Words, pass: &mut Pass) -> Result<(), AllocError>
    requires some { 0 < (limits_of words.now).callers }
    requires callers { AreNewcomers words.now pass.old (limits_of words.now).callers }
    ensures { AreNewcomers words.now pass.new (limits_of words.now).callers }
{
    for _ in 0..words.limits().selectors {
        if open_selector(words, pass, CallerNo(ACCEPTOR)).is_err() {
            return Err(AllocError);
        }
    }
    Ok(())
}

// Opens the next channel, which has to be the one with this number.
fn open_as(words: &Words, pass: &mut Pass, number: u32, kind: Kind) -> Result<(), AllocError>
    requires some { 0 < (limits_of words.now).callers }
    requires callers { AreNewcomers words.now pass.old (limits_of words.now).callers }
    ensures { AreNewcomers words.now pass.new (limits_of words.now).callers }
{
    match open_channel(words, pass, CallerNo(ACCEPTOR), kind) {
        Ok(made) if made == ChanId::first(ChanNo(number)) => Ok(()),
        Ok(_) | Err(_) => Err(AllocError),
    }
}

// The kind of the channel with this number: a link, where it is one of so many slots.
fn kind_of(number: u32, slots: u32) -> Kind {
    if number != 0 && (number - 1) / 2 < slots {
        Kind::Stream
    } else {
        Kind::Listener
    }
}

// Opens the first channels of the listener, of so many slots, and of the lines.
fn open_channels(words: &Words, pass: &mut Pass, workers: u32, slots: u32) -> Result<(), AllocError>
    requires few { (workers ≤ 15) × (slots ≤ 16000) }
    requires some { 0 < (limits_of words.now).callers }
    requires callers { AreNewcomers words.now pass.old (limits_of words.now).callers }
    ensures { AreNewcomers words.now pass.new (limits_of words.now).callers }
{
    for number in 0..2 * slots + 1 + workers {
        open_as(words, pass, number, kind_of(number, slots))?;
    }
    Ok(())
}

// A pass for each worker, which has the worker's number alone.
fn hand_out(
    alloc: Global,
    words: &Words,
    pass: &mut Pass,
    workers: u32,
) -> Result<Vec<Pass>, AllocError>
    requires few { workers ≤ 15 }
    requires callers { AreNewcomers words.now pass.old (workers + 1) }
    ensures acceptor { OnOk result (IsNewcomer words.now pass.new (caller 0)) }
    ensures seats { IfOk result (λ passes. HaveSeats words.now (λ p. p) passes.items) }
    ensures count { IfOk result (λ passes. length passes.items ≡ workers) }
{
    let mut passes = Vec::with_capacity(alloc, workers as usize)?;
    for worker in 0..workers {
        let Ok(given) = words.hand_over(pass, CallerNo(worker + 1)) else {
            unreachable!();
        };
        passes.push_reserved(given);
    }
    Ok(passes)
}

/// Draws all numbers with the table's first pass, and opens the selectors and the channels as the acceptor. Answers a
/// pass for each worker; the acceptor's number is left.
pub(crate) fn set_up(
    alloc: Global,
    words: &Words,
    pass: &mut Pass,
    workers: u32,
    slots: u32,
) -> Result<Vec<Pass>, AllocError>
    requires few { (workers ≤ 15) × (slots ≤ 16000) }
    requires limits { limits_of words.now ≡ table_for workers }
    requires first { IsFirstPass words.now pass.old }
    ensures acceptor { OnOk result (IsNewcomer words.now pass.new (caller 0)) }
    ensures seats { IfOk result (λ passes. HaveSeats words.now (λ p. p) passes.items) }
    ensures count { IfOk result (λ passes. length passes.items ≡ workers) }
{
    draw_all(words, pass)?;
    open_selectors(words, pass)?;
    open_channels(words, pass, workers, slots)?;
    hand_out(alloc, words, pass, workers)
}

/// A board for the caller of this number, with the selector of this number. The pass hands the number over; where the
/// table has no such selector it keeps it.
pub(crate) fn take_seat<'a>(
    alloc: Global,
    words: &'a Words,
    pass: &mut Pass,
    number: u32,
    deal: Deal,
) -> Option<Board<'a>>
    requires { IsNewcomer words.now pass.old (caller number) }
    ensures none { IfNone result (IsReady words.now pass.new (caller number)) }
    ensures pass { IsPassOf words.now pass.new }
    ensures seat { IfSome result (IsSeat words.now number deal) }
{
    let me = CallerNo(number);
    let selector = find_selector(words, pass, me, number)?;
    let Ok(given) = words.hand_over(pass, me) else {
        unreachable!();
    };
    Some(Board::over(alloc, words, given, me, selector, Some(deal)))
}

/// Joins the board's pass to this one.
pub(crate) fn leave_seat(words: &Words, pass: &mut Pass, board: Board<'_>)
    requires pass { IsPassOf words.now pass.old }
    requires board { board.words ≡ words.now }
    ensures ready { IsReady words.now pass.new board.entry.caller }
    ensures called { HasCalled (limits_of words.now) (acts_seen pass.new board.entry.caller) board.entry.deal
        board.entry.selector board.entry.registered }
{
    let given = board.into_pass();
    words.join(pass, given);
}

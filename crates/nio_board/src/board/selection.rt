//! One selection, whose poll's answer is told by channels.
ghost use Rattle.std.specs.Prelude.{◌≡◌, IfErr, IfOk, OnErr, OnOk, bit_and};
ghost use Rattle.nio_poller.specs.Polls.{CountsFaults, told_of_channel};
ghost use Rattle.nio_poller.specs.declared.poller.PollError.TheVariants.{Fault};
ghost use Rattle.nio_select.specs.InHand.{list_of, selection_of, TakesOnList};
ghost use Rattle.nio_select.specs.InProgress.{poll_of};
ghost use Rattle.nio_board.specs.Board.{AreOrdered, AreReady, IsAtRest, IsSameBoard, IsSelecting, ListsTold, board_of};
ghost use Rattle.nio_board.specs.Board.{told_of_keys};
ghost use Rattle.nio_board.specs.BoardCalls.{BeginsSelection, FailsToBegin, HasMade, LeavesSelection, TellsPoll};
ghost use Rattle.nio_board.specs.Polling.{FailsToPoll, HasPolled, asked_by};

use super::Station;
use crate::deal::Deal;
use crate::polls::Polls;
use nio_base::{ChanNo, Ops};
use nio_history::Mode;
use nio_poller::PollError;
use nio_select::{After, Asked, Selecting, Told};
use nio_steps::LookedKey;
use nio_words::{Pass, Words};
use std::alloc::{AllocError, Global};
use std::sync::Wait;

// Begins a selection that waits, and lends it the selector's list. A caller that has its selector alone never finds it
// closed or busy; this is answered as want of memory.
pub(super) fn begin(
    alloc: Global,
    w: &Words,
    p: &mut Pass,
    at: &mut Station,
) -> Result<Selecting, AllocError>
    requires { IsAtRest (board_of w.now p.old at.old) }
    ensures rest { IsAtRest (board_of w.now p.new at.new) }
    ensures same { IsSameBoard (board_of w.now p.old at.old) (board_of w.now p.new at.new) }
    ensures begun { IfOk result (λ s. IsSelecting (board_of w.now p.new at.new) (selection_of s)) }
    ensures taken_on { IfOk result (TakesOnList at.old.selector) }
    ensures kept { OnErr result (at.new.selector ≡ at.old.selector) }
    ensures made { IfOk result (λ s. HasMade (board_of w.now p.old at.old) (board_of w.now p.new at.new)
        (BeginsSelection at.old.selector (selection_of s))) }
    ensures refused { OnErr result (HasMade (board_of w.now p.old at.old) (board_of w.now p.new at.new)
        (FailsToBegin at.old.selector)) }
{
    match at.selector.begin(alloc, w, p, at.caller, Mode::Wait) {
        Ok(selection) => Ok(selection),
        Err(_refusal) => Err(AllocError),
    }
}

// Leaves a selection for which no poll has answered.
pub(super) fn leave(w: &Words, p: &mut Pass, at: &mut Station, selection: Selecting)
    requires rest { IsAtRest (board_of w.now p.old at.old) }
    requires begun { IsSelecting (board_of w.now p.old at.old) (selection_of selection) }
    ensures rest { IsAtRest (board_of w.now p.new at.new) }
    ensures same { IsSameBoard (board_of w.now p.old at.old) (board_of w.now p.new at.new) }
    ensures back { at.new.selector.list ≡ list_of selection }
    ensures made { HasMade (board_of w.now p.old at.old) (board_of w.now p.new at.new)
        (LeavesSelection (selection_of selection)) }
{
    let list = selection.leave(w, p, at.caller);
    at.selector.give_back(list);
}

// Ends a selection with what a poller answered for it, and lists what was told.
pub(super) fn end(
    w: &Words,
    p: &mut Pass,
    at: &mut Station,
    selection: Selecting,
    answer: &Told,
    told: &mut Vec<(ChanNo, Ops)>,
) -> Result<(), AllocError>
    requires rest { IsAtRest (board_of w.now p.old at.old) }
    requires begun { IsSelecting (board_of w.now p.old at.old) (selection_of selection) }
    ensures rest { IsAtRest (board_of w.now p.new at.new) }
    ensures same { IsSameBoard (board_of w.now p.old at.old) (board_of w.now p.new at.new) }
    ensures back { at.new.selector.list ≡ list_of selection }
    ensures made { OnOk result (HasMade (board_of w.now p.old at.old) (board_of w.now p.new at.new)
        (TellsPoll (selection_of selection) (poll_of answer.now))) }
    ensures left { OnErr result (HasMade (board_of w.now p.old at.old) (board_of w.now p.new at.new)
        (LeavesSelection (selection_of selection))) }
    ensures ready { IfOk result (λ _. AreReady (told_of_channel selection.asked.keys answer.now.pairs.items)
        told.new.items) }
    ensures listed { IfOk result (λ _. ListsTold selection.asked.keys answer.now.pairs.items told.new.items) }
    ensures ordered { IfOk result (λ _. AreOrdered told.new.items) }
{
    match resolve(selection.asked(), answer.pairs.as_slice(), told) {
        Ok(()) => {
            tell(w, p, at, selection, answer);
            Ok(())
        }
        Err(AllocError) => {
            leave(w, p, at, selection);
            Err(AllocError)
        }
    }
}

// Tells the selection what the poller answered, and leaves it where it would go on.
pub(super) fn tell(w: &Words, p: &mut Pass, at: &mut Station, selection: Selecting, answer: &Told)
    requires rest { IsAtRest (board_of w.now p.old at.old) }
    requires begun { IsSelecting (board_of w.now p.old at.old) (selection_of selection) }
    ensures rest { IsAtRest (board_of w.now p.new at.new) }
    ensures same { IsSameBoard (board_of w.now p.old at.old) (board_of w.now p.new at.new) }
    ensures back { at.new.selector.list ≡ list_of selection }
    ensures made { HasMade (board_of w.now p.old at.old) (board_of w.now p.new at.new)
        (TellsPoll (selection_of selection) (poll_of answer.now)) }
{
    match selection.told(w, p, at.caller, answer) {
        After::Done(_selected, list) => at.selector.give_back(list),
        After::Again(next) => leave(w, p, at, next),
    }
}

// Polls for a selection, and lists what was told. With a deal the poll is asked for the channels as the deal numbers
// them, and they are listed so.
pub(super) fn poll<R: Wait, N, W: Polls<N>>(
    rt: &R,
    alloc: Global,
    way: &mut W,
    net: &mut N,
    selection: &Selecting,
    deal: Option<Deal>,
    told: &mut Vec<(ChanNo, Ops)>,
) -> Result<Told, PollError>
    ensures polled { IfOk result (λ answer. HasPolled (asked_by deal selection.now.asked.keys) (poll_of answer)
        (W.polls net.old) (W.polls net.new) (W.ready net.new)) }
    ensures failed { IfErr result (FailsToPoll (asked_by deal selection.now.asked.keys)
        (W.polls net.old) (W.polls net.new) (W.ready net.new)) }
    ensures kept { W.kept net.old net.new }
    ensures cause { CountsFaults Fault (W.poll_faults net.old) (W.poll_faults net.new) result }
    ensures ready { IfOk result (λ _. AreReady (W.ready net.new) told.new.items) }
    ensures listed { IfOk result (λ answer. ListsTold (asked_by deal selection.now.asked.keys) answer.pairs.items
        told.new.items) }
    ensures ordered { IfOk result (λ _. AreOrdered told.new.items) }
{
    let mode = selection.mode();
    let Some(deal) = deal else {
        return poll_for(rt, alloc, way, net, selection.asked(), mode, told);
    };
    match selection.asked().renumbered(alloc, &deal) {
        Ok(asked) => poll_for(rt, alloc, way, net, &asked, mode, told),
        Err(AllocError) => Err(PollError::Memory),
    }
}

// Polls for the keys of a list, and lists what was told of them.
fn poll_for<R: Wait, N, W: Polls<N>>(
    rt: &R,
    alloc: Global,
    way: &mut W,
    net: &mut N,
    asked: &Asked,
    mode: Mode,
    told: &mut Vec<(ChanNo, Ops)>,
) -> Result<Told, PollError>
    ensures polled { IfOk result (λ answer. HasPolled asked.now.keys (poll_of answer)
        (W.polls net.old) (W.polls net.new) (W.ready net.new)) }
    ensures failed { IfErr result (FailsToPoll asked.now.keys
        (W.polls net.old) (W.polls net.new) (W.ready net.new)) }
    ensures kept { W.kept net.old net.new }
    ensures cause { CountsFaults Fault (W.poll_faults net.old) (W.poll_faults net.new) result }
    ensures ready { IfOk result (λ _. AreReady (W.ready net.new) told.new.items) }
    ensures listed { IfOk result (λ answer. ListsTold asked.now.keys answer.pairs.items told.new.items) }
    ensures ordered { IfOk result (λ _. AreOrdered told.new.items) }
{
    match way.poll(net, rt, alloc, asked, mode) {
        Ok(answer) => match resolve(asked, answer.pairs.as_slice(), told) {
            Ok(()) => Ok(answer),
            Err(AllocError) => Err(PollError::Memory),
        },
        Err(error) => Err(error),
    }
}

// Lists, in the order of channels, what was told of the keys that the selection looked at, as far as they are
// interested in it. The order of the keys' indexes is another one: the index of a removed key comes back.
fn resolve(
    asked: &Asked,
    pairs: &[(u32, Ops)],
    told: &mut Vec<(ChanNo, Ops)>,
) -> Result<(), AllocError>
    ensures ready { IfOk result (λ _. AreReady (told_of_channel asked.now.keys pairs.now) told.new.items) }
    ensures listed { IfOk result (λ _. ListsTold asked.now.keys pairs.now told.new.items) }
    ensures ordered { IfOk result (λ _. AreOrdered told.new.items) }
{
    list(asked, pairs, told)?;
    told.sort_unstable_by_key(|one| one.0.0);
    Ok(())
}

// Lists it in the order of the pairs.
fn list(
    asked: &Asked,
    pairs: &[(u32, Ops)],
    told: &mut Vec<(ChanNo, Ops)>,
) -> Result<(), AllocError>
    ensures ready { IfOk result (λ _. AreReady (told_of_channel asked.now.keys pairs.now) told.new.items) }
    ensures exact { IfOk result (λ _. told.new.items ≡ told_of_keys asked.now.keys pairs.now) }
{
    told.clear();
    for &(index, bits) in pairs {
        if let Some(key) = asked.key(index) {
            told.push(met(bits, key))?;
        }
    }
    Ok(())
}

// The channel of the key, with what was told of it and it is interested in.
fn met(bits: Ops, key: LookedKey) -> (ChanNo, Ops)
    ensures { result ≡ (key.channel, bit_and bits key.interest) }
{
    (key.channel, bits.meet(key.interest))
}

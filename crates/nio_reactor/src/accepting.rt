//! The selector that accepts.
ghost use Rattle.std.specs.Prelude.{◌≡◌, ℕ, ◌<◌, ◌≤◌, ◌+◌, ◌⊎◌, [], ◌∷◌, Err, IfOk, IsTrue, IsFalse, OnOk, OnErr, length};
ghost use Rattle.nio_base.specs.declared.numbers.ChanNo.{ChanNo as Channel};
ghost use Rattle.nio_bytes.specs.Cause.{Rose};
ghost use Rattle.nio_link.specs.Nets.{view_of};
ghost use Rattle.nio_link.specs.declared.place.Standing.TheVariants.{Listening};
ghost use Rattle.nio_relay.specs.Plan.{IsServable};
ghost use Rattle.nio_board.specs.Board.{AreReady, IsSameBoard, IsSameSeat};
ghost use Rattle.nio_serve.specs.Serving.{listener, IsFresh};
ghost use Rattle.nio_base.specs.Ops.{is_within};
ghost use Rattle.nio_reactor.specs.Accepting.{Accepts, AreEnded, Deals, HasAccepted, HasSent, IsAccepting, clients_below};
ghost use Rattle.nio_reactor.specs.Many.{LeavesAcceptor};
ghost use Rattle.nio_reactor.specs.Placing.{caller};
ghost use Rattle.nio_reactor.specs.Seats.{IsNewcomer, LeavesSeat, acceptor_deal};
ghost use Rattle.nio_reactor.specs.declared.many.ManyError.TheVariants.{NetFault};

use crate::handed::{Handed, LISTENER, accept_link};
use crate::many::ManyError;
use crate::message::{Message, Outgoing};
use crate::table::{ACCEPTOR, acceptor_share, leave_seat, take_seat};
use nio_base::{ChanNo, Kind, Ops};
use nio_board::{Board, Direct};
use nio_line::LineIn;
use nio_link::{Failed, Net, Passable};
use nio_poller::{Bell, PollError};
use nio_relay::ProxyPlan;
use nio_words::{Pass, Words};
use std::alloc::Global;
use std::sync::Wait;

// Rings for the worker, where its net has a bell.
fn ring<B: Bell>(bells: &[B], worker: usize) {
    if let Some(bell) = bells.get(worker) {
        bell.ring();
    }
}

// Sends the link of this connection to its worker. Waits while that has as many links to take as it has slots.
fn deal<R: Wait, L: Drop, B: Bell>(
    rt: &R,
    lines: &mut [LineIn<Message<L>>],
    bells: &[B],
    handed: Handed<L>,
)
    requires some { 0 < length lines.old }
    ensures { Deals handed.number (handed.number + 1) lines.old lines.new }
{
    let worker = handed.number() as usize % lines.len();
    lines[worker].send(rt, Message::Work(handed));
    ring(bells, worker);
}

// Accepts the connection with this number, if it has come, takes its link out and sends it to its worker.
fn accept_one<R: Wait, N: Passable, B: Bell>(
    rt: &R,
    net: &mut N,
    lines: &mut [LineIn<Message<N::Link>>],
    bells: &[B],
    number: u32,
) -> Result<bool, Failed>
    requires ready { IsTrue (is_within 16 (N.ready net.old listener.number)) }
    requires listens { (N.place net.old listener).standing ≡ Listening }
    requires accepting { IsAccepting N.Net number net.old }
    requires some { 0 < length lines.old }
    ensures listens { N.place net.new listener ≡ N.place net.old listener }
    ensures come { IfOk result (λ more. IsTrue more → IsAccepting N.Net (number + 1) net.new) }
    ensures early { IfOk result (λ more. IsFalse more → IsAccepting N.Net number net.new) }
    ensures failing { OnErr result (IsAccepting N.Net number net.new) }
    ensures accepted { IfOk result (λ more. IsTrue more → Accepts N.Net number (number + 1) net.old net.new) }
    ensures still { IfOk result (λ more. IsFalse more → Accepts N.Net number number net.old net.new) }
    ensures failed { OnErr result (Accepts N.Net number number net.old net.new) }
    ensures dealt { IfOk result (λ more. IsTrue more → Deals number (number + 1) lines.old lines.new) }
    ensures undealt { IfOk result (λ more. IsFalse more → lines.new ≡ lines.old) }
    ensures unsent { OnErr result (lines.new ≡ lines.old) }
    ensures cause { OnErr result (Rose (N.faults net.old listener) (N.faults net.new listener)) }
    ensures more { IfOk result (λ more. IsTrue more → N.ready net.new listener.number
        ≡ N.ready net.old listener.number) }
{
    let Some(handed) = accept_link(net, number)? else {
        return Ok(false);
    };
    deal(rt, lines, bells, handed);
    Ok(true)
}

// Accepts all connections that have come, as far as the plan has them; `number` of them were accepted so far.
fn accept_come<R: Wait, N: Passable, B: Bell>(
    rt: &R,
    net: &mut N,
    lines: &mut [LineIn<Message<N::Link>>],
    bells: &[B],
    number: &mut u32,
    conns: u32,
) -> Result<(), ManyError>
    requires ready { IsTrue (is_within 16 (N.ready net.old listener.number)) }
    requires listens { (N.place net.old listener).standing ≡ Listening }
    requires accepting { IsAccepting N.Net number.old net.old }
    requires few { number.old ≤ conns }
    requires some { 0 < length lines.old }
    ensures listens { N.place net.new listener ≡ N.place net.old listener }
    ensures within { number.new ≤ conns }
    ensures accepting { IsAccepting N.Net number.new net.new }
    ensures accepted { Accepts N.Net number.old number.new net.old net.new }
    ensures dealt { Deals number.old number.new lines.old lines.new }
    ensures cause { result ≡ Err NetFault → Rose (N.faults net.old listener) (N.faults net.new listener) }
{
    for next in *number..conns {
        match accept_one(rt, net, lines, bells, next) {
            Ok(true) => *number = next + 1,
            Ok(false) => return Ok(()),
            Err(Failed) => return Err(ManyError::NetFault),
        }
    }
    Ok(())
}

// What was told first of a channel.
fn told_of(told: &[(ChanNo, Ops)], chan: ChanNo) -> Ops
    ensures { (ready : Channel → ℕ) → AreReady ready told.now → IsTrue (is_within result (ready chan)) }
{
    for &(one, ops) in told {
        if one == chan {
            return ops;
        }
    }
    Ops::NONE
}

// One round: one selection, and what has come.
fn round<R: Wait, N: Passable, B: Bell>(
    rt: &R,
    alloc: Global,
    board: &mut Board<'_>,
    net: &mut N,
    lines: &mut [LineIn<Message<N::Link>>],
    bells: &[B],
    number: &mut u32,
    conns: u32,
    told: &mut Vec<(ChanNo, Ops)>,
) -> Result<(), ManyError>
    requires listens { (N.place net.old listener).standing ≡ Listening }
    requires accepting { IsAccepting N.Net number.old net.old }
    requires few { number.old ≤ conns }
    requires some { 0 < length lines.old }
    ensures listens { N.place net.new listener ≡ N.place net.old listener }
    ensures within { number.new ≤ conns }
    ensures accepting { IsAccepting N.Net number.new net.new }
    ensures accepted { Accepts N.Net number.old number.new net.old net.new }
    ensures dealt { Deals number.old number.new lines.old lines.new }
    ensures cause { result ≡ Err NetFault → Rose (N.poll_faults net.old) (N.poll_faults net.new)
        ⊎ Rose (N.faults net.old listener) (N.faults net.new listener) }
    ensures board { IsSameBoard board.old board.new }
{
    match board.select(rt, alloc, &mut Direct, net, told) {
        Ok(()) => {}
        Err(PollError::Fault) => return Err(ManyError::NetFault),
        Err(PollError::Memory) => return Err(ManyError::Memory),
    }
    if Ops::ACCEPT.within(told_of(told, LISTENER.number)) {
        accept_come(rt, net, lines, bells, number, conns)
    } else {
        Ok(())
    }
}

// Accepts until the plan has no more connections.
fn deal_all<R: Wait, N: Passable, B: Bell>(
    rt: &R,
    alloc: Global,
    board: &mut Board<'_>,
    net: &mut N,
    lines: &mut [LineIn<Message<N::Link>>],
    bells: &[B],
    number: &mut u32,
    conns: u32,
) -> Result<(), ManyError>
    requires listens { (N.place net.old listener).standing ≡ Listening }
    requires accepting { IsAccepting N.Net number.old net.old }
    requires few { number.old ≤ conns }
    requires some { 0 < length lines.old }
    ensures listens { N.place net.new listener ≡ N.place net.old listener }
    ensures within { number.new ≤ conns }
    ensures all { OnOk result (number.new ≡ conns) }
    ensures accepting { IsAccepting N.Net number.new net.new }
    ensures accepted { Accepts N.Net number.old number.new net.old net.new }
    ensures dealt { Deals number.old number.new lines.old lines.new }
    ensures cause { result ≡ Err NetFault → Rose (N.poll_faults net.old) (N.poll_faults net.new)
        ⊎ Rose (N.faults net.old listener) (N.faults net.new listener) }
    ensures board { IsSameBoard board.old board.new }
{
    let mut told = Vec::new(alloc);
    for _ in rt.forever() {
        if *number == conns {
            return Ok(());
        }
        match round(
            rt, alloc, board, net, lines, bells, number, conns, &mut told,
        ) {
            Ok(()) => {}
            Err(error) => return Err(error),
        }
    }
    unreachable!()
}

// Listens, and accepts all connections of the plan; at the end the listener is closed. It alone is registered on the
// board.
fn accept_plan<R: Wait, N: Passable, B: Bell>(
    rt: &R,
    alloc: Global,
    board: &mut Board<'_>,
    net: &mut N,
    lines: &mut [LineIn<Message<N::Link>>],
    bells: &[B],
    plan: ProxyPlan,
    number: &mut u32,
) -> Result<(), ManyError>
    requires plan { IsServable plan }
    requires fresh { IsFresh (view_of N.Net net.old) }
    requires some { 0 < length lines.old }
    requires none { number.old ≡ 0 }
    requires unregistered { board.old.registered ≡ [] }
    ensures within { number.new ≤ plan.conns }
    ensures all { OnOk result (number.new ≡ plan.conns) }
    ensures accepted { Accepts N.Net number.old number.new net.old net.new }
    ensures dealt { Deals number.old number.new lines.old lines.new }
    ensures cause { result ≡ Err NetFault → Rose (N.poll_faults net.old) (N.poll_faults net.new)
        ⊎ Rose (N.faults net.old listener) (N.faults net.new listener) }
    ensures leaves { LeavesAcceptor plan (clients_below number.new) (view_of N.Net net.old) (view_of N.Net net.new) }
    ensures seat { IsSameSeat board.old board.new }
    ensures registered { OnOk result (board.new.registered ≡ listener ∷ []) }
{
    let Ok(_port) = board.watch(rt, LISTENER, Kind::Listener, Ops::ACCEPT) else {
        return Err(ManyError::Memory);
    };
    if net.listen(LISTENER, plan.listen).is_err() {
        return Err(ManyError::NetFault);
    }
    let outcome = deal_all(rt, alloc, board, net, lines, bells, number, plan.conns);
    net.close(LISTENER);
    outcome
}

// Accepts all connections of the plan, at the acceptor's seat.
fn accept_seated<R: Wait, N: Passable, B: Bell>(
    rt: &R,
    alloc: Global,
    words: &Words,
    pass: &mut Pass,
    net: &mut N,
    lines: &mut [LineIn<Message<N::Link>>],
    bells: &[B],
    plan: ProxyPlan,
    number: &mut u32,
) -> Result<(), ManyError>
    requires plan { IsServable plan }
    requires fresh { IsFresh (view_of N.Net net.old) }
    requires some { 0 < length lines.old }
    requires none { number.old ≡ 0 }
    requires newcomer { IsNewcomer words.now pass.old (caller 0) }
    ensures within { number.new ≤ plan.conns }
    ensures all { OnOk result (number.new ≡ plan.conns) }
    ensures accepted { Accepts N.Net number.old number.new net.old net.new }
    ensures dealt { Deals number.old number.new lines.old lines.new }
    ensures cause { result ≡ Err NetFault → Rose (N.poll_faults net.old) (N.poll_faults net.new)
        ⊎ Rose (N.faults net.old listener) (N.faults net.new listener) }
    ensures leaves { LeavesAcceptor plan (clients_below number.new) (view_of N.Net net.old) (view_of N.Net net.new) }
    ensures seat { LeavesSeat words.now 0 acceptor_deal (listener ∷ []) pass.new result }
{
    let Some(board) = take_seat(alloc, words, pass, ACCEPTOR, acceptor_share()) else {
        return Err(ManyError::Memory);
    };
    let mut board = board;
    let outcome = accept_plan(rt, alloc, &mut board, net, lines, bells, plan, number);
    leave_seat(words, pass, board);
    outcome
}

// Sends to each worker that no more links come.
fn end_all<R: Wait, L: Drop, B: Bell>(rt: &R, lines: &mut [LineIn<Message<L>>], bells: &[B])
    ensures { AreEnded lines.old lines.new }
{
    for worker in 0..lines.len() {
        lines[worker].send(rt, Message::End);
        ring(bells, worker);
    }
}

// Accepts all connections of the plan, sends each to its worker, and then ends all lines.
fn deal_plan<R: Wait, N: Passable, B: Bell>(
    rt: &R,
    alloc: Global,
    words: &Words,
    pass: &mut Pass,
    net: &mut N,
    lines: &mut [LineIn<Message<N::Link>>],
    bells: &[B],
    plan: ProxyPlan,
) -> Result<(), ManyError>
    requires plan { IsServable plan }
    requires fresh { IsFresh (view_of N.Net net.old) }
    requires some { 0 < length lines.old }
    requires newcomer { IsNewcomer words.now pass.old (caller 0) }
    ensures accepted { HasAccepted N.Net plan net.old net.new result }
    ensures sent { HasSent (N.accepted net.old) (N.accepted net.new) lines.old lines.new }
    ensures seat { LeavesSeat words.now 0 acceptor_deal (listener ∷ []) pass.new result }
{
    let mut number = 0;
    let outcome = accept_seated(rt, alloc, words, pass, net, lines, bells, plan, &mut number);
    end_all(rt, lines, bells);
    outcome
}

/// Accepts all connections of the plan, and sends each to its worker. At every end, the end of the lines is sent too.
pub(crate) fn accept_all<R: Wait, N: Passable, B: Bell + Drop>(
    rt: &R,
    words: &Words,
    net: &mut N,
    outgoing: &mut Outgoing<N::Link, B>,
) -> Result<(), ManyError>
    requires plan { IsServable outgoing.old.plan }
    requires fresh { IsFresh (view_of N.Net net.old) }
    requires some { 0 < length outgoing.old.lines.items }
    requires newcomer { IsNewcomer words.now outgoing.old.pass (caller 0) }
    ensures accepted { HasAccepted N.Net outgoing.old.plan net.old net.new result }
    ensures sent { HasSent (N.accepted net.old) (N.accepted net.new) outgoing.old.lines.items
        outgoing.new.lines.items }
    ensures seat { LeavesSeat words.now 0 acceptor_deal (listener ∷ []) outgoing.new.pass result }
{
    let Outgoing {
        alloc,
        pass,
        lines,
        bells,
        plan,
    } = outgoing;
    deal_plan(
        rt,
        *alloc,
        words,
        pass,
        net,
        lines.as_mut_slice(),
        bells,
        *plan,
    )
}

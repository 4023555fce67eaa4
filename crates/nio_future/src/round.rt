//! One round of polls, as a future.
ghost use Rattle.std.specs.Prelude.{◌≡◌, ◌∷◌, [], IfErr, IfOk, IsSomeAnd, length, ◌<◌};
ghost use Rattle.futures.specs.Poll.{IfReady, OnPending};
ghost use Rattle.std.specs.Vec.{vec_capacity};
ghost use Rattle.futures.specs.Task.{Keeps};
ghost use Rattle.nio_future.specs.Tickets.{AreTicketsOf};
ghost use Rattle.nio_future.specs.Round.{IsHand, Polls, with_ready, with_still};

use crate::desk::Desk;
use crate::ticket::{OpTicket, Polled};
use futures::Future;
use futures::executor::block_on;
use futures::task::{Context, Poll};
use nio_base::{Finished, GChan, OpKind, OpNo};
use nio_group::Operation;
use std::alloc::{AllocError, AllocGlobal, Global};
use std::random::RandomSource;
use std::sync::Wait;

/// The result that a ticket was handed, and of which operation it is.
#[derive(Clone, Copy, Debug, PartialEq, Eq)]
pub struct TicketResult {
    /// The operation's number.
    pub op: OpNo,
    /// The channel that it was on.
    pub chan: GChan,
    /// What it did.
    pub kind: OpKind,
    /// What came of it.
    pub finished: Finished,
}

/// A desk with tickets to poll, and room for what comes of them.
#[derive(Drop)]
pub struct Hand {
    /// The desk.
    pub desk: Desk,
    /// The tickets that are to be polled.
    pub tickets: Vec<OpTicket>,
    /// The tickets whose operations are pending.
    pub still: Vec<OpTicket>,
    /// The results that came.
    pub ready: Vec<TicketResult>,
}

impl Hand {
    /// A hand of these tickets of the desk. Where memory lacks, the desk and the tickets come back.
    pub fn new(
        alloc: Global,
        desk: Desk,
        tickets: Vec<OpTicket>,
    ) -> Result<Hand, (Desk, Vec<OpTicket>)>
        requires { AreTicketsOf desk tickets.items }
        ensures hand { IfOk result IsHand }
        ensures desk { IfOk result (λ hand. hand.desk ≡ desk) }
        ensures tickets { IfOk result (λ hand. hand.tickets.items ≡ tickets.items) }
        ensures desk_back { IfErr result (λ back. back.0 ≡ desk) }
        ensures tickets_back { IfErr result (λ back. back.1 ≡ tickets) }
    {
        let Ok(still) = Vec::with_capacity(alloc, tickets.len()) else {
            return Err((desk, tickets));
        };
        let Ok(ready) = Vec::with_capacity(alloc, tickets.len()) else {
            return Err((desk, tickets));
        };
        Ok(Hand {
            desk,
            tickets,
            still,
            ready,
        })
    }
}

/// A future that polls each ticket of a hand once, the last first, and gives the hand. So `still` and `ready` come in the
/// reverse order of `tickets`.
#[derive(Drop)]
pub struct Round {
    /// The hand, until the round is run.
    pub hand: Option<Hand>,
}

impl Round {
    /// A round that wasn't run yet.
    pub fn new(hand: Hand) -> Round
        ensures { result.hand ≡ Some hand }
    {
        Round { hand: Some(hand) }
    }
}

impl Future for Round {
    type Output = Hand;

    ghost can_poll = { λ round. IsSomeAnd round.hand IsHand };

    ghost gives = { λ round after. IsSomeAnd round.hand (λ before. Polls before after) };

    fn poll(&mut self, cx: &mut Context<'_>) -> Poll<Hand>
        requires { IsSomeAnd self.old.hand IsHand }
        ensures value { IfReady result (λ after. IsSomeAnd self.old.hand (λ before. Polls before after)) }
        ensures at_once { OnPending result ⊥ }
        ensures kept { Keeps cx.old cx.new }
    {
        let mut hand = self.hand.take().unwrap();
        poll_each(&mut hand, cx);
        Poll::Ready(hand)
    }
}

/// Runs one round. Where the executor lacks memory, or the random number that it needs, the answer is `AllocError`, and
/// the hand is gone.
pub fn run_round<R>(rt: &R, hand: Hand) -> Result<Hand, AllocError>
where
    R: Wait + RandomSource + AllocGlobal,
    requires { IsHand hand }
    ensures { IfOk result (λ after. Polls hand after) }
{
    block_on(rt, Round::new(hand)).map_err(|_error| AllocError)
}

/// Polls each ticket, the last first.
fn poll_each(hand: &mut Hand, cx: &mut Context<'_>)
    requires { IsHand hand.old }
    ensures polls { Polls hand.old hand.new }
    ensures kept { Keeps cx.old cx.new }
{
    while let Some(ticket) = hand.tickets.pop() {
        let op = ticket.op();
        let held = hand.desk.operation(op);
        let polled = hand.desk.poll_op(ticket, cx);
        put_away(op, held, polled, &mut hand.still, &mut hand.ready);
    }
}

/// Puts away what came of a poll of the ticket of this operation, as which the desk held it before.
fn put_away(
    op: OpNo,
    held: Option<Operation>,
    polled: Polled,
    still: &mut Vec<OpTicket>,
    ready: &mut Vec<TicketResult>,
)
    requires still_room { length still.old.items < vec_capacity still.old }
    requires ready_room { length ready.old.items < vec_capacity ready.old }
    ensures still { still.new.items ≡ with_still polled still.old.items }
    ensures ready { ready.new.items ≡ with_ready op held polled ready.old.items }
    ensures same_still { vec_capacity still.new ≡ vec_capacity still.old }
    ensures same_ready { vec_capacity ready.new ≡ vec_capacity ready.old }
{
    match polled {
        Polled::Ready(finished) => {
            if let Some(operation) = held {
                ready.push_reserved(TicketResult {
                    op,
                    chan: operation.chan,
                    kind: operation.kind,
                    finished,
                });
            }
        }
        Polled::NotYet(ticket) => still.push_reserved(ticket),
    }
}

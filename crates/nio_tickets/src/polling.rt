//! Polling the tickets of what was reported, in one round, and starting what is due.
ghost use Rattle.std.specs.Prelude.{◌≡◌, [], length, reverse};
ghost use Rattle.std.specs.Vec.{vec_capacity};
ghost use Rattle.nio_future.specs.Round.{IsHand, Polls};
ghost use Rattle.nio_tickets.specs.Handling.{after_polling, after_results};
ghost use Rattle.nio_tickets.specs.Rest.{IsAtRest};

use crate::office::{AtRest, Office};
use futures::Future;
use futures::task::{Context, Poll};
use nio_future::{Hand, Round, TicketResult};
use nio_jobs::{Done, Streams};

/// Polls the tickets of what these reports have ended, in one round, and starts what is due after each result. Gives the
/// office back.
pub(crate) fn poll_and_start(
    rest: AtRest,
    streams: &mut Streams,
    cx: &mut Context<'_>,
    done: &[Done],
) -> AtRest
    requires rest { IsAtRest rest }
    ensures after { record { office = result.office; held = streams.new.held }
        ≡ after_polling (record { office = rest.office; held = streams.old.held }) done.now }
    ensures rest { IsAtRest result }
{
    let AtRest {
        office,
        tickets,
        still,
        ready,
    } = rest;
    let Office { desk, mut seats } = office;
    let mut hand = Hand {
        desk,
        tickets,
        still,
        ready,
    };
    seats.move_ended_to(&mut hand.tickets, &hand.desk, done);
    let Hand {
        desk,
        tickets,
        mut still,
        mut ready,
    } = poll_all(hand, cx);
    seats.put_back(&mut still, &desk);
    let mut office = Office { desk, seats };
    start_due(&mut office, streams, &mut ready);
    AtRest {
        office,
        tickets,
        still,
        ready,
    }
}

// Polls all tickets of the hand.
fn poll_all(hand: Hand, cx: &mut Context<'_>) -> Hand
    requires { IsHand hand }
    ensures { Polls hand result }
{
    let mut round = Round::new(hand);
    match round.poll(cx) {
        Poll::Ready(polled) => polled,
        Poll::Pending => unreachable!(),
    }
}

// Starts what is due after each of these results, the last first.
fn start_due(office: &mut Office, streams: &mut Streams, ready: &mut Vec<TicketResult>)
    ensures after { record { office = office.new; held = streams.new.held }
        ≡ after_results (record { office = office.old; held = streams.old.held }) (reverse ready.old.items) }
    ensures count { length office.new.seats ≡ length office.old.seats }
    ensures none { ready.new.items ≡ [] }
    ensures capacity { vec_capacity ready.new ≡ vec_capacity ready.old }
{
    while let Some(one) = ready.pop() {
        streams.go_on(office, one.chan, one.kind, one.finished);
    }
}

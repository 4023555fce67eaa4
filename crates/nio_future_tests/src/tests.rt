//! Worked runs of a desk.
ghost use Rattle.std.specs.Prelude.{◌≡◌, ◌∷◌, [], IfOk};
ghost use Rattle.nio_future.specs.Tickets.{AreTicketsOf};

use futures::Future;
use futures::executor::block_on;
use futures::task::{Context, Doorbell, Poll, Solo};
use nio_base::{Finished, GChan, GKind, OpKind, OpNo, Outcome, Why};
use nio_future::{Desk, Hand, OpTicket, Polled, TicketResult, run_round};
use nio_group::{GroupLimits, StartError};
use std::alloc::{AllocError, AllocGlobal, Global};
use std::random::RandomSource;
use std::sync::Wait;
use std::test::Fail;

const LIMITS: GroupLimits = GroupLimits {
    channels: 2,
    flight: 2,
    ops: 4,
};

/// Polls each of these tickets once.
fn round<R>(rt: &R, alloc: Global, desk: Desk, tickets: Vec<OpTicket>) -> Result<Hand, Fail>
where
    R: Wait + RandomSource + AllocGlobal,
    requires { AreTicketsOf desk tickets.items }
    ensures tickets { IfOk result (λ hand. AreTicketsOf hand.desk hand.still.items) }
    ensures group { IfOk result (λ hand. hand.desk.group ≡ desk.group) }
{
    let hand = Hand::new(alloc, desk, tickets).map_err(|_back| AllocError)?;
    Ok(run_round(rt, hand)?)
}

/// A list of one ticket.
fn alone(alloc: Global, ticket: OpTicket) -> Result<Vec<OpTicket>, AllocError>
    ensures { IfOk result (λ tickets. tickets.items ≡ ticket ∷ []) }
{
    let mut tickets = Vec::new(alloc);
    tickets.push(ticket)?;
    Ok(tickets)
}

/// A connect whose ticket is polled while it is pending, and again once it has completed. This and `cancelled_read` are
/// one run, split for its proof.
#[test]
fn ticket_by_ticket(rt: HostRuntime) -> Result<(), Fail> {
    let alloc = rt.alloc();
    let mut desk = Desk::make(alloc, LIMITS)?;
    let stream = desk.open_channel(GKind::Stream)?;
    assert_eq!(rt;
        stream,
        GChan {
            number: 0,
            serial: 0
        }
    );
    let ticket = desk.start(stream, OpKind::Connect, 0)?;
    assert_eq!(rt; ticket.op(), OpNo(0));
    let waiting = round(&rt, alloc, desk, alone(alloc, ticket)?)?;
    assert_eq!(rt; waiting.still.len(), 1);
    assert_eq!(rt; waiting.ready.len(), 0);
    let mut desk = waiting.desk;
    desk.report(OpNo(0), Outcome::Connected)?;
    let done = round(&rt, alloc, desk, waiting.still)?;
    assert_eq!(rt; done.still.len(), 0);
    assert_eq!(rt;
        done.ready.as_slice(),
        [TicketResult {
            op: OpNo(0),
            chan: stream,
            kind: OpKind::Connect,
            finished: Finished::Connected,
        }]
        .as_slice()
    );
    Ok(())
}

/// A read that is cancelled closes its channel; the next one is answered that. `ticket_by_ticket` polls the connect.
#[test]
fn cancelled_read(rt: HostRuntime) -> Result<(), Fail> {
    let alloc = rt.alloc();
    let mut desk = Desk::make(alloc, LIMITS)?;
    let stream = desk.open_channel(GKind::Stream)?;
    let connect = desk.start(stream, OpKind::Connect, 0)?;
    desk.report(OpNo(0), Outcome::Connected)?;
    assert!(rt; !desk.cancel(connect));
    let read = desk.start(stream, OpKind::Read, 10)?;
    assert_eq!(rt; read.op(), OpNo(1));
    assert!(rt; desk.cancel(read));
    let late = desk.start(stream, OpKind::Read, 1)?;
    let done = round(&rt, alloc, desk, alone(alloc, late)?)?;
    let closed = TicketResult {
        op: OpNo(2),
        chan: stream,
        kind: OpKind::Read,
        finished: Finished::Failed(Why::ClosedChannel),
    };
    assert_eq!(rt; done.ready.as_slice(), [closed].as_slice());
    Ok(())
}

/// A ticket counts until it is used up, whether its operation has ended or not.
#[test]
fn as_many_tickets_as_may_be_in_flight(rt: HostRuntime) -> Result<(), Fail> {
    let mut desk = Desk::make(rt.alloc(), LIMITS)?;
    let stream = desk.open_channel(GKind::Stream)?;
    assert!(rt; desk.close_channel(stream));
    let first = desk.start(stream, OpKind::Connect, 0)?;
    let second = desk.start(stream, OpKind::Connect, 0)?;
    let third = desk.start(stream, OpKind::Connect, 0);
    assert_eq!(rt; third.err(), Some(StartError::FlightFull));
    assert!(rt; !desk.cancel(second));
    let third = desk.start(stream, OpKind::Connect, 0)?;
    assert_eq!(rt; third.op(), OpNo(2));
    assert!(rt; !desk.cancel(first));
    assert!(rt; !desk.cancel(third));
    desk.shutdown();
    assert!(rt; desk.is_shutdown());
    assert!(rt; desk.is_terminated());
    assert_eq!(rt; desk.channels(), 1);
    Ok(())
}

/// A future that reports its operation in the poll that finds it pending, and so wakes itself.
#[derive(Drop)]
struct OwnReport {
    desk: Desk,
    ticket: Option<OpTicket>,
}

impl Future for OwnReport {
    ghost use Rattle.std.specs.Prelude.{IsSomeAnd};
    ghost use Rattle.nio_future.specs.Tickets.{IsTicketOf};

    type Output = Finished;

    ghost can_poll = { λ own. IsSomeAnd own.ticket (IsTicketOf own.desk) };

    fn poll(&mut self, cx: &mut Context<'_>) -> Poll<Finished> {
        let ticket = self.ticket.take().unwrap();
        let number = ticket.op();
        match self.desk.poll_op(ticket, cx) {
            Polled::Ready(result) => Poll::Ready(result),
            Polled::NotYet(ticket) => {
                let _ = self.desk.report(number, Outcome::Connected);
                self.ticket = Some(ticket);
                Poll::Pending
            }
        }
    }
}

/// A task that waits at a desk is polled again, once a call of the desk has completed an operation.
#[test]
fn a_report_wakes_the_task(rt: HostRuntime) -> Result<(), Fail> {
    let mut desk = Desk::make(rt.alloc(), LIMITS)?;
    let stream = desk.open_channel(GKind::Stream)?;
    let ticket = desk.start(stream, OpKind::Connect, 0)?;
    let own = OwnReport {
        desk,
        ticket: Some(ticket),
    };
    assert_eq!(rt; block_on(&rt, own)?, Finished::Connected);
    Ok(())
}

/// Connects a new stream, and has the executor's task wait for that. Says whether it does.
fn await_connect(executor: &Solo, desk: &mut Desk) -> Result<bool, StartError> {
    let stream = desk.open_channel(GKind::Stream)?;
    let ticket = desk.start(stream, OpKind::Connect, 0)?;
    let mut cx = executor.begin();
    match desk.poll_op(ticket, &mut cx) {
        Polled::Ready(_) => {
            cx.cancel();
            Ok(false)
        }
        Polled::NotYet(_) => {
            cx.park();
            Ok(true)
        }
    }
}

/// Whether the executor's task was woken since it began to wait.
fn is_woken(executor: &Solo) -> bool {
    match executor.sleep() {
        Some(asleep) => {
            asleep.end();
            false
        }
        None => true,
    }
}

/// Two tasks wait for operations of one desk. A report wakes the task that waits for its operation, and not the other.
#[test]
fn a_report_wakes_its_own_task(rt: HostRuntime) -> Result<(), Fail> {
    let mut desk = Desk::make(rt.alloc(), LIMITS)?;
    let first_task = Solo::new(&rt, Doorbell::spinning())?;
    let second_task = Solo::new(&rt, Doorbell::spinning())?;
    assert!(rt; await_connect(&first_task, &mut desk)?);
    assert!(rt; await_connect(&second_task, &mut desk)?);
    assert!(rt; !is_woken(&first_task));
    assert!(rt; !is_woken(&second_task));
    desk.report(OpNo(1), Outcome::Connected)?;
    assert!(rt; !is_woken(&first_task));
    assert!(rt; is_woken(&second_task));
    desk.report(OpNo(0), Outcome::Connected)?;
    assert!(rt; is_woken(&first_task));
    Ok(())
}

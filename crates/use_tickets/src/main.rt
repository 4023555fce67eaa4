//! Operations with tickets. A stream is connected, and then read. Each round polls the tickets that are out; between
//! the rounds the program reports what came of the operations. In a server a net says what came of them.
#![tactic(auto)]

ghost use Rattle.std.specs.Prelude.{◌≡◌, [], ◌∷◌, IfOk};
ghost use Rattle.nio_group.specs.Group.{IsMade};
ghost use Rattle.nio_future.specs.Tickets.{AreTicketsOf};

use nio_base::{GChan, GKind, OpKind, Outcome};
use nio_future::{Desk, Hand, OpTicket, run_round};
use nio_group::{GroupLimits, StartError};
use std::alloc::{AllocError, AllocGlobal};
use std::io::Print;
use std::random::RandomSource;
use std::sync::Wait;

const LIMITS: GroupLimits = GroupLimits {
    channels: 1,
    flight: 2,
    ops: 1_000,
};

fn main(rt: HostRuntime) -> anyhow::Result<()> {
    let mut desk = Desk::make(rt.alloc(), LIMITS)?;
    let stream = desk.open_channel(GKind::Stream)?;
    let connect = start(&mut desk, stream, OpKind::Connect, 0)?;
    desk.report(connect.op(), Outcome::Connected)?;
    let connected = round(&rt, desk, vec![in rt.alloc(); connect]?)?;
    let mut desk = connected.desk;
    let read = start(&mut desk, stream, OpKind::Read, 100)?;
    let number = read.op();
    let waiting = round(&rt, desk, vec![in rt.alloc(); read]?)?;
    let mut desk = waiting.desk;
    desk.report(number, Outcome::Count(5))?;
    round(&rt, desk, waiting.still)?;
    Ok(())
}

/// Starts an operation of the stream, and gives its ticket.
fn start(desk: &mut Desk, stream: GChan, kind: OpKind, len: u64) -> Result<OpTicket, StartError>
    requires { IsMade desk.old.group stream }
    ensures its { IfOk result (λ ticket. AreTicketsOf desk.new (ticket ∷ [])) }
    ensures made { IfOk result (λ _. IsMade desk.new.group stream) }
{
    desk.start(stream, kind, len)
}

/// Polls each ticket once, and prints the results that came.
fn round<R>(rt: &R, desk: Desk, tickets: Vec<OpTicket>) -> anyhow::Result<Hand>
where
    R: AllocGlobal + Print + RandomSource + Wait,
    requires { AreTicketsOf desk tickets.items }
    ensures tickets { IfOk result (λ hand. AreTicketsOf hand.desk hand.still.items) }
    ensures group { IfOk result (λ hand. hand.desk.group ≡ desk.group) }
{
    let hand = Hand::new(rt.alloc(), desk, tickets).map_err(|_back| AllocError)?;
    let hand = run_round(rt, hand)?;
    for one in &hand.ready {
        println!(rt; "operation {}: {:?}", one.op.0, one.finished)?;
    }
    println!(rt; "tickets that are out: {}", hand.still.len())?;
    Ok(hand)
}

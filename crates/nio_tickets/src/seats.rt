//! The tickets that are out.
ghost use Rattle.std.specs.Prelude.{◌≡◌, ◌*◌, ◌+◌, ◌≤◌, [], ◌++◌, IfOk, Some, None, length, replicate, reverse};
ghost use Rattle.std.specs.Prelude.{slice_index_or, slice_set};
ghost use Rattle.std.specs.Vec.{vec_capacity};
ghost use Rattle.nio_future.specs.Desk.{held_at, place_of};
ghost use Rattle.nio_future.specs.Tickets.{AreTicketsOf};
ghost use Rattle.nio_tickets.specs.Seats.{AreSeated, TakesOut, seated, seating_all};
ghost use Rattle.nio_tickets.specs.Seats.{taking, taking_all, taking_channel, taking_held, taking_reported};

use nio_base::{GChan, OpKind, OpNo};
use nio_future::{Desk, OpTicket, place_of};
use nio_jobs::Done;
use nio_link::of_net;
use std::alloc::{AllocError, Global};
use std::marker::Model;

/// The tickets that are out, one of a number and kind at most. A net uses each number once, and so does its desk.
#[derive(Drop)]
pub(crate) struct Seats {
    seats: Vec<Option<OpTicket>>,
}

impl Model for Seats {
    ghost use Rattle.std.specs.Prelude.{List, Option};
    ghost use Rattle.nio_future.specs.Ticket.{Ticket};

    ghost Value = { List (Option Ticket) };

    ghost view = { λ seats. seats.seats.items };
}

impl Seats {
    /// Empty ones for so many channels.
    pub(crate) fn make(alloc: Global, channels: u32) -> Result<Seats, AllocError>
        ensures { IfOk result (λ seats. seats ≡ replicate (4 * channels) None) }
    {
        let count = 4 * channels as usize;
        let mut seats = Vec::with_capacity(alloc, count)?;
        for _ in 0..count {
            seats.push(None)?;
        }
        Ok(Seats { seats })
    }

    /// Keeps a ticket, if there is a seat for its channel.
    pub(crate) fn put(&mut self, chan: GChan, kind: OpKind, ticket: OpTicket)
        ensures { self.new ≡ slice_set self.old (place_of chan kind) (Some ticket) }
    {
        if let Some(seat) = self.seats.get_mut(place_of(chan, kind)) {
            *seat = Some(ticket);
        }
    }

    // Takes out the ticket of this kind for this channel, if it is out.
    fn take(&mut self, chan: GChan, kind: OpKind) -> Option<OpTicket>
        ensures ticket { result ≡ slice_index_or self.old (place_of chan kind) None }
        ensures rest { self.new ≡ slice_set self.old (place_of chan kind) None }
    {
        self.seats.get_mut(place_of(chan, kind))?.take()
    }

    /// Moves the tickets of what these reports have ended from their seats to the end of the others.
    pub(crate) fn move_ended_to(&mut self, tickets: &mut Vec<OpTicket>, desk: &Desk, done: &[Done])
        requires room { length tickets.old.items + length (seated self.old) ≤ vec_capacity tickets.old }
        ensures taken { record { seats = self.new; tickets = tickets.new.items }
            ≡ taking_all desk.now (record { seats = self.old; tickets = tickets.old.items }) done.now }
        ensures moved { TakesOut (record { seats = self.old; tickets = tickets.old.items })
            (record { seats = self.new; tickets = tickets.new.items }) }
        ensures capacity { vec_capacity tickets.new ≡ vec_capacity tickets.old }
    {
        for one in done {
            self.move_reported_to(tickets, desk, *one);
        }
    }

    // The same of one report.
    fn move_reported_to(&mut self, tickets: &mut Vec<OpTicket>, desk: &Desk, done: Done)
        requires room { length tickets.old.items + length (seated self.old) ≤ vec_capacity tickets.old }
        ensures taken { record { seats = self.new; tickets = tickets.new.items }
            ≡ taking_reported desk.now (record { seats = self.old; tickets = tickets.old.items }) done }
        ensures moved { TakesOut (record { seats = self.old; tickets = tickets.old.items })
            (record { seats = self.new; tickets = tickets.new.items }) }
        ensures capacity { vec_capacity tickets.new ≡ vec_capacity tickets.old }
    {
        match done {
            Done::Outcome(op, _) => self.move_operation_to(tickets, desk, op),
            Done::Again(_, _) => {}
            Done::Closed(chan) => self.move_channel_to(tickets, of_net(chan)),
        }
    }

    // Moves the ticket of this operation, if it is out.
    fn move_operation_to(&mut self, tickets: &mut Vec<OpTicket>, desk: &Desk, op: OpNo)
        requires room { length tickets.old.items + length (seated self.old) ≤ vec_capacity tickets.old }
        ensures taken { record { seats = self.new; tickets = tickets.new.items }
            ≡ taking_held (record { seats = self.old; tickets = tickets.old.items }) (held_at desk.now op.0) }
        ensures moved { TakesOut (record { seats = self.old; tickets = tickets.old.items })
            (record { seats = self.new; tickets = tickets.new.items }) }
        ensures capacity { vec_capacity tickets.new ≡ vec_capacity tickets.old }
    {
        if let Some(held) = desk.operation(op) {
            self.move_to(tickets, held.chan, held.kind);
        }
    }

    // Moves the tickets for this channel that are out.
    fn move_channel_to(&mut self, tickets: &mut Vec<OpTicket>, chan: GChan)
        requires room { length tickets.old.items + length (seated self.old) ≤ vec_capacity tickets.old }
        ensures taken { record { seats = self.new; tickets = tickets.new.items }
            ≡ taking_channel (record { seats = self.old; tickets = tickets.old.items }) chan }
        ensures moved { TakesOut (record { seats = self.old; tickets = tickets.old.items })
            (record { seats = self.new; tickets = tickets.new.items }) }
        ensures capacity { vec_capacity tickets.new ≡ vec_capacity tickets.old }
    {
        self.move_to(tickets, chan, OpKind::Accept);
        self.move_to(tickets, chan, OpKind::Connect);
        self.move_to(tickets, chan, OpKind::Read);
        self.move_to(tickets, chan, OpKind::Write);
    }

    // Moves the ticket of this kind for this channel, if it is out.
    fn move_to(&mut self, tickets: &mut Vec<OpTicket>, chan: GChan, kind: OpKind)
        requires room { length tickets.old.items + length (seated self.old) ≤ vec_capacity tickets.old }
        ensures taken { record { seats = self.new; tickets = tickets.new.items }
            ≡ taking (record { seats = self.old; tickets = tickets.old.items }) chan kind }
        ensures moved { TakesOut (record { seats = self.old; tickets = tickets.old.items })
            (record { seats = self.new; tickets = tickets.new.items }) }
        ensures capacity { vec_capacity tickets.new ≡ vec_capacity tickets.old }
    {
        if let Some(ticket) = self.take(chan, kind) {
            tickets.push_reserved(ticket);
        }
    }

    /// Puts the tickets that came back, the last first, into the seats of their operations' channels and kinds.
    pub(crate) fn put_back(&mut self, still: &mut Vec<OpTicket>, desk: &Desk)
        requires tickets { AreTicketsOf desk.now (still.old.items ++ seated self.old) }
        ensures seats { self.new ≡ seating_all desk.now self.old (reverse still.old.items) }
        ensures tickets { AreSeated desk.now self.new }
        ensures count { length self.new ≡ length self.old }
        ensures none { still.new.items ≡ [] }
        ensures capacity { vec_capacity still.new ≡ vec_capacity still.old }
    {
        while let Some(ticket) = still.pop() {
            if let Some(held) = desk.operation(ticket.op()) {
                self.put(held.chan, held.kind, ticket);
            }
        }
    }
}

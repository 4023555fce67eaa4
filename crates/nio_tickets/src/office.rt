//! A desk with the tickets that are out.
ghost use Rattle.std.specs.Prelude.{◌≡◌, ◌≤◌, IfOk};
ghost use Rattle.nio_tickets.specs.Handling.{empty_office};
ghost use Rattle.nio_tickets.specs.Rest.{IsAtRest};

use crate::seats::Seats;
use nio_base::{GChan, GKind, OpKind, OpNo, Outcome};
use nio_future::{Desk, OpTicket, TicketResult};
use nio_group::{GroupLimits, Job, StartError};
use nio_jobs::Starter;
use std::alloc::{AllocError, Global};
use std::marker::Model;

/// A desk with its tickets in their seats.
#[derive(Drop)]
pub(crate) struct Office {
    pub desk: Desk,
    pub seats: Seats,
}

impl Model for Office {
    ghost use Rattle.nio_tickets.specs.Office.{OfficeState};
    ghost use Rattle.nio_tickets.specs.Seats.{AreSeated};

    ghost Value = { OfficeState };

    ghost view = { λ office. record { desk = office.desk; seats = office.seats } };

    ghost invariant = { λ office. AreSeated office.desk office.seats };
}

impl Office {
    /// With a new desk of so many channels and operations.
    fn make(alloc: Global, channels: u32, flight: u32) -> Result<Office, AllocError>
        requires channels { (1 ≤ channels) × (channels ≤ 65536) }
        requires flight { (1 ≤ flight) × (flight ≤ 65536) }
        ensures { IfOk result (λ office. office
            ≡ empty_office channels flight office.desk.source office.desk.places) }
    {
        let limits = GroupLimits {
            channels,
            flight,
            ops: 1 << 62,
        };
        let desk = Desk::make(alloc, limits)?;
        let seats = Seats::make(alloc, channels)?;
        Ok(Office { desk, seats })
    }

    /// Closes all channels of the desk.
    pub(crate) fn close(self) {
        let mut desk = self.desk;
        desk.shutdown_now();
    }
}

impl Starter for Office {
    ghost use Rattle.nio_tickets.specs.Office.{of_office};

    ghost group = { of_office.group };

    ghost after = { of_office.after };

    fn is_made(&self, chan: GChan) -> bool {
        self.desk.is_made(chan)
    }

    fn open_channel(&mut self, kind: GKind) -> Result<GChan, StartError> {
        self.desk.open_channel(kind)
    }

    fn bind(&mut self, chan: GChan) {
        let _ = self.desk.bind(chan);
    }

    // Its ticket takes the seat of its channel and kind. Where the channel was closed, it stays there.
    fn start(&mut self, chan: GChan, kind: OpKind, len: u64) -> Option<Job> {
        let Ok(ticket) = self.desk.start(chan, kind, len) else {
            return None;
        };
        self.seats.put(chan, kind, ticket);
        self.job(chan, kind)
    }

    fn job(&self, chan: GChan, kind: OpKind) -> Option<Job> {
        if self.desk.is_made(chan) {
            self.desk.job(chan, kind)
        } else {
            None
        }
    }

    fn report(&mut self, op: OpNo, outcome: Outcome) {
        let _ = self.desk.report(op, outcome);
    }

    fn close_channel(&mut self, chan: GChan) {
        self.desk.close_channel(chan);
    }
}

/// An office between two rounds, with room to poll all its tickets.
#[derive(Drop)]
pub(crate) struct AtRest {
    pub office: Office,
    pub tickets: Vec<OpTicket>,
    pub still: Vec<OpTicket>,
    pub ready: Vec<TicketResult>,
}

impl AtRest {
    /// With a new desk of so many channels and operations. All memory is taken here.
    pub(crate) fn make(alloc: Global, channels: u32, flight: u32) -> Result<AtRest, AllocError>
        requires channels { (1 ≤ channels) × (channels ≤ 65536) }
        requires flight { (1 ≤ flight) × (flight ≤ 65536) }
        ensures office { IfOk result (λ rest. rest.office
            ≡ empty_office channels flight rest.office.desk.source rest.office.desk.places) }
        ensures rest { IfOk result IsAtRest }
    {
        let room = 4 * channels as usize;
        Ok(AtRest {
            office: Office::make(alloc, channels, flight)?,
            tickets: Vec::with_capacity(alloc, room)?,
            still: Vec::with_capacity(alloc, room)?,
            ready: Vec::with_capacity(alloc, room)?,
        })
    }
}

//! Tickets of operations. Only a desk makes them, and they can't be copied.
ghost use Rattle.std.specs.Prelude.{◌≡◌, [], ◌∷◌};

use futures::task::Source;
use nio_base::{Finished, OpNo};
use nio_trace::{Reading, Trace};
use std::marker::Model;

/// The right to one operation's result. It is polled, or cancelled; where it is dropped it stays out for good.
#[derive(Drop)]
pub struct OpTicket {
    op: OpNo,
    desk: Trace<u64>,
}

impl Model for OpTicket {
    ghost use Rattle.nio_future.specs.Ticket.{Ticket};

    ghost Value = { Ticket };

    ghost view = { λ ticket. record { op = ticket.op; desk = ticket.desk } };
}

impl OpTicket {
    /// A ticket of the desk with this source.
    pub(crate) fn make(op: OpNo, source: &Source) -> OpTicket
        ensures { result ≡ record { op = op; desk = source.now.id ∷ [] } }
    {
        let mut desk = Trace::new();
        desk.extend_from::<Source, Name>(source);
        OpTicket { op, desk }
    }

    /// The number of the operation.
    pub fn op(&self) -> OpNo
        ensures { result ≡ self.now.op }
    {
        self.op
    }
}

/// Reads the name of a source.
struct Name;

impl Reading<Source, u64> for Name {
    ghost use Rattle.std.specs.Prelude.{[], ◌∷◌};

    ghost items = { λ source. source.id ∷ [] };
}

/// What polling a ticket gives.
#[derive(Drop)]
pub enum Polled {
    /// The operation's result. The ticket is used up.
    Ready(Finished),
    /// The operation is pending. Here is its ticket back.
    NotYet(OpTicket),
}

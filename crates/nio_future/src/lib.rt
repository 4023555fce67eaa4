//! The operations of an asynchronous channel group as futures. Each operation that is started has a ticket, which is
//! polled until it gives the operation's one result.
#![tactic(auto)]

pub use desk::Desk;
pub use laws::ticket_law;
pub use round::{Hand, Round, TicketResult, run_round};
pub use ticket::{OpTicket, Polled};
pub use waiting::place_of;

mod desk;
mod laws;
mod round;
mod ticket;
mod waiting;

//! The law of tickets, the contract of a function with an empty body.
ghost use Rattle.nio_future.specs.Run.{TicketsAreRight};

/// Over every list of calls a ticket is handed the one result that the group gave its operation, at most once; it is
/// answered NotYet only while its operation is pending, and so never at a terminated desk.
pub fn ticket_law()
    ensures { TicketsAreRight }
{}

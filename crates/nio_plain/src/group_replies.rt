//! The reply that each answer of the group is.
ghost use Rattle.std.specs.Prelude.{◌≡◌};
ghost use Rattle.nio_group.specs.Run as step;
ghost use Rattle.nio_plain.specs.Seq.Grouping.{line_reply, report_refused, start_refused};

use nio_base::{GChan, OpNo};
use nio_group::{Completion, NotRunning, ReportError, StartError};
use nio_language::{GroupReply, Reply};

/// The reply to opening a channel.
pub fn opened(answer: Result<GChan, StartError>) -> Reply
    ensures { result ≡ line_reply (step.opened answer) }
{
    match answer {
        Ok(chan) => Reply::Group(GroupReply::Channel(chan)),
        Err(refusal) => start_refusal(refusal),
    }
}

/// The reply to binding a channel.
pub fn bound(answer: Result<(), StartError>) -> Reply
    ensures { result ≡ line_reply (step.bound answer) }
{
    match answer {
        Ok(()) => Reply::Ok,
        Err(refusal) => start_refusal(refusal),
    }
}

/// The reply to starting an operation.
pub fn started(answer: Result<OpNo, StartError>) -> Reply
    ensures { result ≡ line_reply (step.started answer) }
{
    match answer {
        Ok(operation) => Reply::Group(GroupReply::Op(operation)),
        Err(refusal) => start_refusal(refusal),
    }
}

/// The reply to reporting what came of an operation.
pub fn reported(answer: Result<(), ReportError>) -> Reply
    ensures { result ≡ line_reply (step.reported answer) }
{
    match answer {
        Ok(()) => Reply::Ok,
        Err(refusal) => report_refusal(refusal),
    }
}

/// The reply to taking a completion.
pub fn taken(answer: Option<Completion>) -> Reply
    ensures { result ≡ line_reply (step.taken answer) }
{
    match answer {
        None => Reply::None,
        Some(done) => Reply::Group(GroupReply::Completed(done.op(), done.result())),
    }
}

/// The reply to ending a running operation.
pub fn finished(answer: Result<(), NotRunning>) -> Reply
    ensures { result ≡ line_reply (step.finished answer) }
{
    match answer {
        Ok(()) => Reply::Ok,
        Err(NotRunning) => Reply::Group(GroupReply::NotRunning),
    }
}

/// The reply to closing a channel.
pub fn closed(was_open: bool) -> Reply
    ensures { result ≡ line_reply (step.closed was_open) }
{
    if was_open { Reply::Ok } else { Reply::Already }
}

/// The reply to a call that the group refuses.
pub fn start_refusal(refusal: StartError) -> Reply
    ensures { result ≡ start_refused refusal }
{
    match refusal {
        StartError::ShutdownGroup => Reply::Group(GroupReply::ShutdownGroup),
        StartError::WrongKind => Reply::Group(GroupReply::WrongKind),
        StartError::ClosedChannel => Reply::ClosedChannel,
        StartError::AlreadyBound => Reply::Group(GroupReply::AlreadyBound),
        StartError::AlreadyConnected => Reply::Group(GroupReply::AlreadyConnected),
        StartError::ConnectionPending => Reply::Group(GroupReply::ConnectionPending),
        StartError::NotYetConnected => Reply::Group(GroupReply::NotYetConnected),
        StartError::NotYetBound => Reply::Group(GroupReply::NotYetBound),
        StartError::ReadPending => Reply::Group(GroupReply::ReadPending),
        StartError::WritePending => Reply::Group(GroupReply::WritePending),
        StartError::AcceptPending => Reply::Group(GroupReply::AcceptPending),
        StartError::OpsSpent => Reply::Group(GroupReply::OpsSpent),
        StartError::FlightFull => Reply::Group(GroupReply::FlightFull),
        StartError::ChannelsSpent => Reply::ChannelsSpent,
    }
}

fn report_refusal(refusal: ReportError) -> Reply
    ensures { result ≡ report_refused refusal }
{
    match refusal {
        ReportError::NotPending => Reply::Group(GroupReply::NotPending),
        ReportError::WrongOutcome => Reply::Group(GroupReply::WrongOutcome),
    }
}

//! Which calls are refused, and why.
ghost use Rattle.std.specs.Prelude.{◌≡◌, Some};
ghost use Rattle.nio_group.specs.Refusals.{bind_refusal, channel_refusal, stream_refusal, report_refusal, is_allowed};

use crate::channel::{Endpoint, Link};
use crate::operation::{Operation, Stage};
use crate::refusal::{ReportError, StartError};
use nio_base::{OpKind, Outcome};

/// Why a channel can't be bound.
pub(crate) fn bind(is_open: bool, endpoint: Endpoint) -> Option<StartError>
    ensures { result ≡ bind_refusal is_open endpoint }
{
    match endpoint {
        Endpoint::Stream(_) => Some(StartError::WrongKind),
        Endpoint::Listener(_) if !is_open => Some(StartError::ClosedChannel),
        Endpoint::Listener(true) => Some(StartError::AlreadyBound),
        Endpoint::Listener(false) => None,
    }
}

/// Why no operation of this kind can be started on such a channel, where one may be pending.
pub(crate) fn start(
    is_open: bool,
    endpoint: Endpoint,
    pending: bool,
    kind: OpKind,
) -> Option<StartError>
    ensures { result ≡ channel_refusal is_open endpoint pending kind }
{
    match (endpoint, kind) {
        (Endpoint::Stream(_), OpKind::Accept) => Some(StartError::WrongKind),
        (Endpoint::Stream(link), _) => {
            if is_open {
                stream(link, pending, kind)
            } else {
                None
            }
        }
        (Endpoint::Listener(bound), OpKind::Accept) => {
            if !is_open {
                None
            } else if !bound {
                Some(StartError::NotYetBound)
            } else if pending {
                Some(StartError::AcceptPending)
            } else {
                None
            }
        }
        (Endpoint::Listener(_), _) => Some(StartError::WrongKind),
    }
}

/// Why an open stream doesn't connect, read or write.
fn stream(link: Link, pending: bool, kind: OpKind) -> Option<StartError>
    ensures { result ≡ stream_refusal link pending kind }
{
    match (link, kind) {
        (_, OpKind::Accept) => None,
        (Link::Unconnected, OpKind::Connect) => None,
        (Link::Connecting, OpKind::Connect) => Some(StartError::ConnectionPending),
        (Link::Connected, OpKind::Connect) => Some(StartError::AlreadyConnected),
        (Link::Connected, OpKind::Read) if pending => Some(StartError::ReadPending),
        (Link::Connected, OpKind::Write) if pending => Some(StartError::WritePending),
        (Link::Connected, _) => None,
        (_, _) => Some(StartError::NotYetConnected),
    }
}

/// Why a report of this outcome of this operation is refused.
pub(crate) fn report(operation: Operation, outcome: Outcome) -> Option<ReportError>
    ensures { result ≡ report_refusal (Some operation) outcome }
{
    match operation.stage {
        Stage::Pending if allowed(operation.kind, operation.len, outcome) => None,
        Stage::Pending => Some(ReportError::WrongOutcome),
        _ => Some(ReportError::NotPending),
    }
}

/// Whether an operation of this kind and length may have this outcome.
fn allowed(kind: OpKind, len: u64, outcome: Outcome) -> bool
    ensures { result ≡ is_allowed kind len outcome }
{
    match (kind, outcome) {
        (_, Outcome::Fault) => true,
        (OpKind::Read, Outcome::Count(count)) => 1 <= count && count <= len,
        (OpKind::Read, Outcome::End) => true,
        (OpKind::Write, Outcome::Count(count)) => 1 <= count && count <= len,
        (OpKind::Connect, Outcome::Connected) => true,
        (OpKind::Accept, Outcome::Accepted) => true,
        (_, _) => false,
    }
}

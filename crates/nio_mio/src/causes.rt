//! What an error of a call on a socket means to a net.
use std::io;
use std::io::ErrorKind;

/// What an error of the system says.
#[derive(Clone, Copy, Debug, PartialEq, Eq)]
pub(crate) enum Cause {
    /// The socket isn't ready; the system tells when it is.
    NotReady,
    /// A signal came. The call may go through at once.
    Interrupted,
    /// The connection was aborted.
    Aborted,
    /// The process or the system has no descriptor left.
    NoDescriptor,
    Fault,
}

// ENFILE and EMFILE of Linux.
const TOO_MANY_IN_SYSTEM: i32 = 23;

const TOO_MANY_IN_PROCESS: i32 = 24;

pub(crate) fn cause_of(error: &io::Error) -> Cause {
    match error.kind() {
        ErrorKind::WouldBlock => Cause::NotReady,
        ErrorKind::Interrupted => Cause::Interrupted,
        ErrorKind::ConnectionAborted => Cause::Aborted,
        _ => cause_by_number(error),
    }
}

fn cause_by_number(error: &io::Error) -> Cause {
    match error.raw_os_error() {
        Some(TOO_MANY_IN_SYSTEM | TOO_MANY_IN_PROCESS) => Cause::NoDescriptor,
        _ => Cause::Fault,
    }
}

//! Asynchronous channel groups: what their calls take and what comes of their operations.
use crate::numbers::GChan;

/// What a channel of a group is.
#[derive(Clone, Copy, Debug, PartialEq, Eq, Hash)]
pub enum GKind {
    /// A stream connection, as Java's `AsynchronousSocketChannel`.
    Stream,
    /// What accepts stream connections, as Java's `AsynchronousServerSocketChannel`.
    Listener,
}

/// What an operation does.
#[derive(Clone, Copy, Debug, PartialEq, Eq, Hash)]
pub enum OpKind {
    /// Java's `accept`.
    Accept,
    /// Java's `connect`.
    Connect,
    /// Java's `read`.
    Read,
    /// Java's `write`.
    Write,
}

/// What came of a pending operation, as its reporter saw it.
#[derive(Clone, Copy, Debug, PartialEq, Eq, Hash)]
pub enum Outcome {
    /// So many bytes were read or written.
    Count(u64),
    /// The stream that was read has ended.
    End,
    /// A connect is done.
    Connected,
    /// An accept has a connection.
    Accepted,
    /// The system's call failed.
    Fault,
}

/// Why an operation failed.
#[derive(Clone, Copy, Debug, PartialEq, Eq, Hash)]
pub enum Why {
    /// The system reported a fault.
    Fault,
    /// The channel was closed while the operation was pending.
    AsynchronousClose,
    /// The channel had been closed before the operation was started.
    ClosedChannel,
    /// A connection was accepted after the group had been shut down.
    ShutdownGroup,
    /// A connection was accepted and no channel number was left for it.
    ChannelsSpent,
}

/// The result of an operation, which its completion carries.
#[derive(Clone, Copy, Debug, PartialEq, Eq, Hash)]
pub enum Finished {
    /// So many bytes were read or written.
    Count(u64),
    /// The stream that was read has ended.
    End,
    /// The stream is connected.
    Connected,
    /// The stream that was accepted.
    Accepted(GChan),
    /// It failed, and why.
    Failed(Why),
}

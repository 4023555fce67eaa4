//! Kinds of channel, and the operations that each supports.
ghost use Rattle.std.specs.Prelude.{◌≡◌};

use crate::ops::Ops;

/// What a channel is: a stream connection, a listener, an end of a pipe, or a datagram channel.
#[derive(Clone, Copy, Debug, PartialEq, Eq, Hash)]
pub enum Kind {
    /// A stream connection, as Java's `SocketChannel`.
    Stream,
    /// What accepts stream connections, as Java's `ServerSocketChannel`.
    Listener,
    /// The end of a pipe that is read.
    Source,
    /// The end of a pipe that is written.
    Sink,
    /// What sends and receives packets, as Java's `DatagramChannel`.
    Datagram,
}

impl Kind {
    ghost use Rattle.nio_base.specs.Kind.{valid_operations};

    /// The operations that a channel of this kind supports, and the only ones that a key of it may
    /// be interested in: Java's `validOps`.
    pub fn valid_ops(self) -> Ops
        ensures { result ≡ valid_operations self }
    {
        match self {
            Kind::Stream => Ops::of(13),
            Kind::Listener => Ops::ACCEPT,
            Kind::Source => Ops::READ,
            Kind::Sink => Ops::WRITE,
            Kind::Datagram => Ops::of(5),
        }
    }
}

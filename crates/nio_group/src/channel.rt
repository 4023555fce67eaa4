//! The channels of a group.
ghost use Rattle.std.specs.Prelude.{◌≡◌};

use nio_base::GKind;

/// How far a stream's connection has come.
#[derive(Clone, Copy, Debug, PartialEq, Eq, Hash)]
pub enum Link {
    /// No connect is in progress or done.
    Unconnected,
    /// A connect is in progress.
    Connecting,
    /// It is connected.
    Connected,
}

/// A channel's kind, and what its kind has besides: a stream its connection, a listener whether
/// it is bound.
#[derive(Clone, Copy, Debug, PartialEq, Eq, Hash)]
pub enum Endpoint {
    /// A stream, and how far it is connected.
    Stream(Link),
    /// A listener, and whether it is bound.
    Listener(bool),
}

/// A channel of a group.
#[derive(Clone, Copy, Debug, PartialEq, Eq, Hash)]
pub struct Channel {
    /// How many channels had its number before.
    pub serial: u32,
    /// Whether it isn't closed yet.
    pub is_open: bool,
    /// A stream or a listener, and its state.
    pub endpoint: Endpoint,
}

impl Channel {
    ghost use Rattle.nio_group.specs.Making.{gives_way};

    /// Whether its number comes back for a channel of this kind, where so many of its operations are in flight.
    pub(crate) fn gives_way(self, kind: GKind, in_flight: u32) -> bool
        ensures { result ≡ gives_way kind self in_flight }
    {
        !self.is_open && self.endpoint.is_of_kind(kind) && self.serial < u32::MAX && in_flight == 0
    }
}

impl Endpoint {
    ghost use Rattle.nio_group.specs.Group.{new_endpoint};
    ghost use Rattle.nio_group.specs.Making.{is_of_kind};

    /// That of a channel as it is made: a stream is unconnected, a listener not bound.
    pub(crate) fn new(kind: GKind) -> Endpoint
        ensures { result ≡ new_endpoint kind }
    {
        match kind {
            GKind::Stream => Endpoint::Stream(Link::Unconnected),
            GKind::Listener => Endpoint::Listener(false),
        }
    }

    /// Whether it is that of a channel of this kind.
    pub(crate) fn is_of_kind(self, kind: GKind) -> bool
        ensures { result ≡ is_of_kind kind self }
    {
        match (kind, self) {
            (GKind::Stream, Endpoint::Stream(_)) => true,
            (GKind::Listener, Endpoint::Listener(_)) => true,
            (GKind::Stream, Endpoint::Listener(_)) => false,
            (GKind::Listener, Endpoint::Stream(_)) => false,
        }
    }
}

//! A link that keeps how far it is connected, and refuses the calls that its state doesn't allow.
ghost use Rattle.std.specs.Prelude.{◌≡◌, ◌≢◌, []};
ghost use Rattle.nio_link.specs.Nets.{view_of, MayFinish, MayRead, MayWrite};
ghost use Rattle.nio_link.specs.Places.{IsFree};
ghost use Rattle.nio_link.specs.Streams.{StandsAs, as_fault, connect_refusal, transfer_refusal, state_after};
ghost use Rattle.nio_link.specs.Streams.{ConnectClause, FinishClause, ReadClause, WriteClause, CloseClause};
ghost use Rattle.nio_link.specs.declared.stream.StreamState.TheVariants as state;

use crate::net::{Failed, Got, Net, Put};
use nio_base::{Addr, ChanId};
use std::marker::Model;
use thiserror::Error;

/// Why a call on a link has no answer.
#[derive(Clone, Copy, Debug, PartialEq, Eq, Error)]
pub enum LinkError {
    /// Java's `ClosedChannelException`.
    #[error("the channel is closed")]
    ClosedChannel,
    /// Java's `AlreadyConnectedException`.
    #[error("the channel is already connected")]
    AlreadyConnected,
    /// Java's `ConnectionPendingException`.
    #[error("a connection is pending")]
    ConnectionPending,
    /// Java's `NoConnectionPendingException`.
    #[error("no connection is pending")]
    NoConnectionPending,
    /// Java's `NotYetConnectedException`.
    #[error("the channel is not yet connected")]
    NotYetConnected,
    /// The net's call failed: Java's `IOException`.
    #[error("the call on the link failed")]
    Fault,
}

/// How far a link is connected.
#[derive(Clone, Copy, Debug, PartialEq, Eq)]
pub enum StreamState {
    /// No connection was begun.
    Unconnected,
    /// One was begun, and isn't finished.
    Connecting,
    /// It can be read and written.
    Connected,
    /// It was closed, or couldn't be connected.
    Closed,
}

/// A link of a net. Its calls look at its state first: what that refuses doesn't reach the net, and asks nothing of what
/// stands under its channel. What stands there is what its state says, as long as no other calls are made under its
/// number. `Net::shut_write` may be called there where it is connected: it can then still be read.
#[derive(Drop)]
pub struct StreamLink {
    chan: ChanId,
    state: StreamState,
}

impl Model for StreamLink {
    ghost use Rattle.nio_link.specs.Streams.{Stream};

    ghost Value = { Stream };

    ghost view = { λ s. record { channel = s.chan; state = s.state } };
}

impl StreamLink {
    /// A link that is to be connected under this channel.
    pub fn make(chan: ChanId) -> StreamLink
        ensures { result ≡ record { channel = chan; state = state.Unconnected } }
    {
        StreamLink {
            chan,
            state: StreamState::Unconnected,
        }
    }

    /// A link that a listener accepted under this channel.
    pub fn accepted(chan: ChanId) -> StreamLink
        ensures { result ≡ record { channel = chan; state = state.Connected } }
    {
        StreamLink {
            chan,
            state: StreamState::Connected,
        }
    }

    /// Begins to connect. True where it is connected; false where that isn't done yet. A fault closes the link.
    pub fn connect<N: Net>(&mut self, net: &mut N, to: Addr) -> Result<bool, LinkError>
        requires { self.old.state ≡ state.Unconnected → IsFree (N.place net.old) self.old.channel }
        ensures connect { ConnectClause (view_of N.Net)
            (connect_refusal self.old.state) to self.old self.new net.old net.new result }
        ensures stands { StandsAs self.old.state (N.place net.old) self.old.channel
            → StandsAs self.new.state (N.place net.new) self.new.channel }
    {
        match self.state {
            StreamState::Unconnected => {
                let made = net.connect(self.chan, to);
                self.settle(made)
            }
            StreamState::Connecting => Err(LinkError::ConnectionPending),
            StreamState::Connected => Err(LinkError::AlreadyConnected),
            StreamState::Closed => Err(LinkError::ClosedChannel),
        }
    }

    /// Goes on connecting. True where the link is connected; false where that isn't done yet. A fault closes the link.
    pub fn finish_connect<N: Net>(&mut self, net: &mut N) -> Result<bool, LinkError>
        requires { self.old.state ≡ state.Connecting → MayFinish self.old.channel (view_of N.Net net.old) }
        ensures finish { FinishClause (view_of N.Net)
            self.old.state self.old self.new net.old net.new result }
        ensures stands { StandsAs self.old.state (N.place net.old) self.old.channel
            → StandsAs self.new.state (N.place net.new) self.new.channel }
    {
        match self.state {
            StreamState::Unconnected => Err(LinkError::NoConnectionPending),
            StreamState::Connecting => {
                let made = net.finish_connect(self.chan);
                self.settle(made)
            }
            StreamState::Connected => Ok(true),
            StreamState::Closed => Err(LinkError::ClosedChannel),
        }
    }

    /// Reads what has come, as far as it fits.
    pub fn read<N: Net>(&mut self, net: &mut N, into: &mut [u8]) -> Result<Got, LinkError>
        requires some { self.old.state ≡ state.Connected → into.old ≢ [] }
        requires may { self.old.state ≡ state.Connected → MayRead self.old.channel (view_of N.Net net.old) }
        ensures read { ReadClause (view_of N.Net)
            (transfer_refusal self.old.state) self.old self.new net.old net.new into.old into.new result }
        ensures stands { StandsAs self.old.state (N.place net.old) self.old.channel
            → StandsAs self.new.state (N.place net.new) self.new.channel }
    {
        match self.state {
            StreamState::Unconnected | StreamState::Connecting => Err(LinkError::NotYetConnected),
            StreamState::Connected => told(net.read(self.chan, into)),
            StreamState::Closed => Err(LinkError::ClosedChannel),
        }
    }

    /// Writes bytes, as many as the link takes. The net's link may not have been shut for writing.
    pub fn write<N: Net>(&mut self, net: &mut N, from: &[u8]) -> Result<Put, LinkError>
        requires some { self.old.state ≡ state.Connected → from.now ≢ [] }
        requires may { self.old.state ≡ state.Connected → MayWrite self.old.channel (view_of N.Net net.old) }
        ensures write { WriteClause (view_of N.Net)
            (transfer_refusal self.old.state) self.old self.new net.old net.new from.now result }
        ensures stands { StandsAs self.old.state (N.place net.old) self.old.channel
            → StandsAs self.new.state (N.place net.new) self.new.channel }
    {
        match self.state {
            StreamState::Unconnected | StreamState::Connecting => Err(LinkError::NotYetConnected),
            StreamState::Connected => told(net.write(self.chan, from)),
            StreamState::Closed => Err(LinkError::ClosedChannel),
        }
    }

    /// Closes the link. False where it was closed before.
    pub fn close<N: Net>(&mut self, net: &mut N) -> bool
        ensures close { CloseClause (view_of N.Net)
            self.old.state self.old self.new net.old net.new result }
        ensures stands { StandsAs self.old.state (N.place net.old) self.old.channel
            → StandsAs self.new.state (N.place net.new) self.new.channel }
    {
        if self.state == StreamState::Closed {
            return false;
        }
        net.close(self.chan);
        self.state = StreamState::Closed;
        true
    }

    // Keeps what connecting came to. Where it failed, the net has no link there any more.
    fn settle(&mut self, made: Result<bool, Failed>) -> Result<bool, LinkError>
        ensures told { result ≡ as_fault made }
        ensures link { self.new ≡ record self.old { state = state_after result } }
    {
        self.state = state_of(&made);
        told(made)
    }
}

// The state that connecting comes to.
fn state_of(made: &Result<bool, Failed>) -> StreamState
    ensures { result ≡ state_after (as_fault made.now) }
{
    match made {
        Ok(true) => StreamState::Connected,
        Ok(false) => StreamState::Connecting,
        Err(Failed) => StreamState::Closed,
    }
}

// The net's answer, of which Failed is told as Fault.
fn told<T>(made: Result<T, Failed>) -> Result<T, LinkError>
    ensures { result ≡ as_fault made }
{
    match made {
        Ok(value) => Ok(value),
        Err(Failed) => Err(LinkError::Fault),
    }
}

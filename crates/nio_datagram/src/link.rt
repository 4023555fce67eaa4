//! A datagram channel that keeps whether it is bound and to whom it is connected, and refuses the calls that its state
//! doesn't allow.
ghost use Rattle.std.specs.Prelude.{◌≡◌, ◌≤◌, None, length};
ghost use Rattle.nio_datagram.specs.Packets.{is_stranger};
ghost use Rattle.nio_datagram.specs.Nets.{view_of, MayReceive, MaySend};
ghost use Rattle.nio_datagram.specs.Places.{IsFree};
ghost use Rattle.nio_datagram.specs.Datagrams.{StandsAs, as_fault, heard_of, bind_refusal, connect_refusal};
ghost use Rattle.nio_datagram.specs.Datagrams.{disconnect_refusal, receive_refusal, send_refusal, state_after_bind};
ghost use Rattle.nio_datagram.specs.Datagrams.{BindClause, ConnectClause, DisconnectClause, ReceiveClause};
ghost use Rattle.nio_datagram.specs.Datagrams.{SendClause, CloseClause};
ghost use Rattle.nio_datagram.specs.declared.link.DatagramState.TheVariants as state;

use crate::address::is_same_addr;
use crate::net::{Came, LONGEST, PacketNet};
use nio_base::{Addr, ChanId};
use nio_link::Failed;
use std::marker::Model;
use thiserror::Error;

/// Why a call on a datagram channel has no answer.
#[derive(Clone, Copy, Debug, PartialEq, Eq, Error)]
pub enum PacketError {
    /// Java's `ClosedChannelException`.
    #[error("the channel is closed")]
    ClosedChannel,
    /// Java's `AlreadyBoundException`.
    #[error("the channel is already bound")]
    AlreadyBound,
    /// Java's `AlreadyConnectedException`: by `connect` where the channel is connected; by `send` where it is connected
    /// to another address.
    #[error("the channel is already connected")]
    AlreadyConnected,
    /// The channel isn't bound. Java's `receive`, `send` and `connect` bind it instead.
    #[error("the channel is not yet bound")]
    NotYetBound,
    /// The packet has more bytes than a packet can have.
    #[error("the packet is too long")]
    TooLong,
    /// The net's call failed: Java's `IOException`.
    #[error("the call on the channel failed")]
    Fault,
}

/// Whether a datagram channel is bound.
#[derive(Clone, Copy, Debug, PartialEq, Eq)]
pub enum DatagramState {
    /// Not yet.
    Unbound,
    /// It can receive and send.
    Bound,
    /// It was closed.
    Closed,
}

/// What a receive found.
#[derive(Clone, Copy, Debug, PartialEq, Eq)]
pub enum Heard {
    /// A packet. Its bytes stand at the front of the buffer.
    Packet {
        /// How many bytes it has.
        len: usize,
        /// Who sent it.
        from: Addr,
    },
    /// The channel is connected, and another address sent the packet, which is gone.
    Stranger,
    /// None has come yet.
    NotYet,
}

/// A datagram channel of a net. Its calls look at its state first: what that refuses doesn't reach the net, and asks
/// nothing of what stands under its channel. That is what its state says, as long as no other calls are made there. To
/// whom it is connected isn't told the net. Dropping it leaves its socket bound.
#[derive(Drop)]
pub struct DatagramLink {
    chan: ChanId,
    state: DatagramState,
    peer: Option<Addr>,
}

impl Model for DatagramLink {
    ghost use Rattle.nio_datagram.specs.Datagrams.{Datagram};

    ghost Value = { Datagram };

    ghost view = { λ d. record { channel = d.chan; state = d.state; peer = d.peer } };
}

impl DatagramLink {
    /// A datagram channel that is neither bound nor connected.
    pub fn make(chan: ChanId) -> DatagramLink
        ensures { result ≡ record { channel = chan; state = state.Unbound; peer = None } }
    {
        DatagramLink {
            chan,
            state: DatagramState::Unbound,
            peer: None,
        }
    }

    /// To whom it is connected.
    pub fn peer(&self) -> Option<Addr>
        ensures { result ≡ self.now.peer }
    {
        self.peer
    }

    /// Binds the channel to this address. Where that fails it is as before.
    pub fn bind<N: PacketNet>(&mut self, net: &mut N, at: Addr) -> Result<(), PacketError>
        requires { self.old.state ≡ state.Unbound → IsFree (N.place net.old) self.old.channel }
        ensures bind { BindClause (view_of N.PacketNet)
            (bind_refusal self.old.state) at self.old self.new net.old net.new result }
        ensures stands { StandsAs self.old.state (N.place net.old) self.old.channel
            → StandsAs self.new.state (N.place net.new) self.new.channel }
    {
        match self.state {
            DatagramState::Unbound => {
                let made = net.bind_packets(self.chan, at);
                self.settle(made)
            }
            DatagramState::Bound => Err(PacketError::AlreadyBound),
            DatagramState::Closed => Err(PacketError::ClosedChannel),
        }
    }

    /// Connects the channel to this address: it then receives from no other, and sends to no other.
    pub fn connect(&mut self, to: Addr) -> Result<(), PacketError>
        ensures { ConnectClause (connect_refusal self.old) to self.old self.new result }
    {
        if self.state == DatagramState::Closed {
            return Err(PacketError::ClosedChannel);
        }
        if self.peer.is_some() {
            return Err(PacketError::AlreadyConnected);
        }
        self.peer = Some(to);
        Ok(())
    }

    /// Ends the connection. It has no effect where the channel isn't connected. On a closed channel Java's has none
    /// either; here it is refused.
    pub fn disconnect(&mut self) -> Result<(), PacketError>
        ensures { DisconnectClause (disconnect_refusal self.old.state) self.old self.new result }
    {
        if self.state == DatagramState::Closed {
            return Err(PacketError::ClosedChannel);
        }
        self.peer = None;
        Ok(())
    }

    /// Takes the next packet that has come. The buffer has room for 65,507 bytes. A stranger's packet is put there too.
    /// Where no packet came, or the call failed, its bytes may have changed.
    pub fn receive<N: PacketNet>(
        &mut self,
        net: &mut N,
        into: &mut [u8],
    ) -> Result<Heard, PacketError>
        requires room { self.old.state ≡ state.Bound → LONGEST ≤ length into.old }
        requires may { self.old.state ≡ state.Bound → MayReceive self.old.channel (view_of N.PacketNet net.old) }
        ensures receive { ReceiveClause (view_of N.PacketNet)
            (receive_refusal self.old.state) self.old self.new net.old net.new into.old into.new result }
        ensures stands { StandsAs self.old.state (N.place net.old) self.old.channel
            → StandsAs self.new.state (N.place net.new) self.new.channel }
    {
        match self.state {
            DatagramState::Unbound => Err(PacketError::NotYetBound),
            DatagramState::Bound => told_heard(self.peer, net.receive(self.chan, into)),
            DatagramState::Closed => Err(PacketError::ClosedChannel),
        }
    }

    /// Sends a packet with these bytes. True where it was taken, whole; false where there is no room yet.
    pub fn send<N: PacketNet>(
        &mut self,
        net: &mut N,
        bytes: &[u8],
        to: Addr,
    ) -> Result<bool, PacketError>
        requires { send_refusal self.old (length bytes.now) to ≡ None
            → MaySend self.old.channel (view_of N.PacketNet net.old) }
        ensures send { SendClause (view_of N.PacketNet)
            (send_refusal self.old (length bytes.now) to) to self.old self.new net.old net.new bytes.now result }
        ensures stands { StandsAs self.old.state (N.place net.old) self.old.channel
            → StandsAs self.new.state (N.place net.new) self.new.channel }
    {
        match self.state {
            DatagramState::Unbound => Err(PacketError::NotYetBound),
            DatagramState::Bound => {
                if is_stranger(self.peer, to) {
                    return Err(PacketError::AlreadyConnected);
                }
                if bytes.len() > LONGEST {
                    return Err(PacketError::TooLong);
                }
                told(net.send(self.chan, bytes, to))
            }
            DatagramState::Closed => Err(PacketError::ClosedChannel),
        }
    }

    /// Closes the channel. False where it was closed before.
    pub fn close<N: PacketNet>(&mut self, net: &mut N) -> bool
        ensures close { CloseClause (view_of N.PacketNet)
            self.old.state self.old self.new net.old net.new result }
        ensures stands { StandsAs self.old.state (N.place net.old) self.old.channel
            → StandsAs self.new.state (N.place net.new) self.new.channel }
    {
        if self.state == DatagramState::Closed {
            return false;
        }
        net.close_packets(self.chan);
        self.state = DatagramState::Closed;
        true
    }

    // Keeps what binding came to.
    fn settle(&mut self, made: Result<(), Failed>) -> Result<(), PacketError>
        ensures told { result ≡ as_fault made }
        ensures link { self.new ≡ record self.old { state = state_after_bind result } }
    {
        self.state = state_after_bind(&made);
        told(made)
    }
}

// Whether a channel is connected, and this is another address.
fn is_stranger(peer: Option<Addr>, from: Addr) -> bool
    ensures { result ≡ is_stranger peer from }
{
    match peer {
        Some(peer) => !is_same_addr(peer, from),
        None => false,
    }
}

// Whether the channel is bound, after a bind that was answered so.
fn state_after_bind(made: &Result<(), Failed>) -> DatagramState
    ensures { result ≡ state_after_bind (as_fault made.now) }
{
    match made {
        Ok(()) => DatagramState::Bound,
        Err(Failed) => DatagramState::Unbound,
    }
}

// The net's answer, of which Failed is told as Fault.
fn told<T>(made: Result<T, Failed>) -> Result<T, PacketError>
    ensures { result ≡ as_fault made }
{
    match made {
        Ok(value) => Ok(value),
        Err(Failed) => Err(PacketError::Fault),
    }
}

// The net's answer, of which a stranger's packet is told as Stranger.
fn told_heard(peer: Option<Addr>, made: Result<Came, Failed>) -> Result<Heard, PacketError>
    ensures { result ≡ heard_of peer made }
{
    match made {
        Ok(Came::Packet { len, from }) => {
            if is_stranger(peer, from) {
                Ok(Heard::Stranger)
            } else {
                Ok(Heard::Packet { len, from })
            }
        }
        Ok(Came::NotYet) => Ok(Heard::NotYet),
        Err(Failed) => Err(PacketError::Fault),
    }
}

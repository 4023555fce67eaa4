//! What carries packets.
ghost use Rattle.std.specs.Prelude.{◌≡◌, ◌≤◌, length};
ghost use Rattle.nio_datagram.specs.Nets.{view_of, MayReceive, MaySend, Binds, Receives, Sends, Stays, Closes};
ghost use Rattle.nio_datagram.specs.Packets.{Traffic};
ghost use Rattle.nio_datagram.specs.Places.{IsFree};

use nio_base::{Addr, ChanId};
use nio_link::Failed;
use nio_poller::Poller;

/// How many bytes a packet has at most: what UDP over IPv4 carries.
pub const LONGEST: usize = 65_507;

/// What a channel found when it looked for a packet.
#[derive(Clone, Copy, Debug, PartialEq, Eq)]
pub enum Came {
    /// A packet. Its bytes stand at the front of the buffer; it can have none.
    Packet {
        /// How many bytes it has.
        len: usize,
        /// Who sent it.
        from: Addr,
    },
    /// None has come yet.
    NotYet,
}

/// What stands under a channel of a net of packets.
#[derive(Clone, Copy, Debug, PartialEq, Eq)]
pub enum Place {
    /// Nothing: it was never bound.
    Unbound,
    /// A socket that was bound at this address, as it was asked for: with port 0 the system chooses the port.
    Bound(Addr),
    /// Nothing any more: the socket that was bound at this address, as it was asked for, was closed.
    Closed(Addr),
}

/// Sockets that send and receive packets, and a poller that says what they are ready for. Each is named by the channel
/// under which it was bound: a number and a serial. A number serves again, under a later serial, once its socket was
/// closed. A call may be made only where its channel's place allows it, and one that needs readiness where the last poll
/// told it of the channel's number and no call since has found otherwise, or bound or closed a socket there: so a call
/// that fails does so for what the net finds.
pub trait PacketNet: Poller {
    ghost use Rattle.std.specs.Prelude.{ℕ};
    ghost use Rattle.nio_base.specs.declared.numbers.ChanId.{ChanId};
    ghost use Rattle.nio_datagram.specs.declared.net.Place.{Place};

    // The packets that a channel has received and sent.
    ghost traffic: { Self → ChanId → Traffic };

    // How often a call on a channel has failed.
    ghost packet_faults: { Self → ChanId → ℕ };

    // What stands under a channel.
    ghost place: { Self → ChanId → Place };

    /// Binds a socket to this address, under this channel. Where it fails, nothing was made, and the channel can be
    /// asked again.
    fn bind_packets(&mut self, chan: ChanId, at: Addr) -> Result<(), Failed>
        requires { IsFree (place self.old) chan }
        ensures { Binds chan at (view_of Self.PacketNet self.old) (view_of Self.PacketNet self.new) result };

    /// Takes the next packet that has come to a channel. Its bytes are put at the front of the buffer, which has room
    /// for each packet; what lies behind them may change.
    fn receive(&mut self, chan: ChanId, into: &mut [u8]) -> Result<Came, Failed>
        requires room { LONGEST ≤ length into.old }
        requires may { MayReceive chan (view_of Self.PacketNet self.old) }
        ensures { Receives chan (view_of Self.PacketNet self.old) (view_of Self.PacketNet self.new) into.new result };

    /// Sends a packet with these bytes. True where it was taken, whole; false where there is no room yet.
    fn send(&mut self, chan: ChanId, bytes: &[u8], to: Addr) -> Result<bool, Failed>
        requires fits { length bytes.now ≤ LONGEST }
        requires may { MaySend chan (view_of Self.PacketNet self.old) }
        ensures { Sends chan to (view_of Self.PacketNet self.old) (view_of Self.PacketNet self.new) bytes.now result };

    /// The system's `connect` of the channel's socket. It is there for what the system does with a connected socket: it
    /// finds the route once and not for each send, drops packets from other addresses, and reports that the address
    /// refuses packets, so that a later call on the channel fails. Nothing that the net shows changes, whether the
    /// system connects the socket or refuses to: a link drops strangers' packets itself.
    fn connect_packets(&mut self, chan: ChanId, to: Addr)
        ensures { Stays (view_of Self.PacketNet self.old) (view_of Self.PacketNet self.new) };

    /// Closes the socket of a channel, where one is bound there. Its packets are shown as before.
    fn close_packets(&mut self, chan: ChanId)
        ensures { Closes chan (view_of Self.PacketNet self.old) (view_of Self.PacketNet self.new) };

    // Polls carry no packets, count no faults of channels, and leave what stands.
    ghost kept_traffic: { (x y : Self) → Self.kept x y → (c : ChanId) → traffic y c ≡ traffic x c };

    ghost kept_faults: { (x y : Self) → Self.kept x y → (c : ChanId) → packet_faults y c ≡ packet_faults x c };

    ghost kept_places: { (x y : Self) → Self.kept x y → (c : ChanId) → place y c ≡ place x c };
}

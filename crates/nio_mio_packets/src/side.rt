//! The sockets of a number, for contracts: what each has carried, and what stands there.
ghost use Rattle.std.specs.Prelude.{◌≡◌, ◌<◌, ◌≤◌, IfOk, length, replicate, slice_set, take};
ghost use Rattle.nio_datagram.specs.Sockets.{after_came, after_close, after_went, is_bound_as, no_sockets, with_socket};
ghost use Rattle.nio_mio_packets.specs.Sides.{sockets_at};

use nio_base::{Addr, ChanId, ChanNo};
use nio_datagram::{SentPacket, log_packet};
use nio_trace::{Reading, Trace};
use std::alloc::{AllocError, Global};
use std::marker::Model;

/// A socket: the serial of its channel, the address for which it was asked, and whether it is bound still. Its packets
/// exist in proofs alone.
#[derive(Drop)]
struct Socket {
    serial: u32,
    at: Addr,
    is_bound: bool,
    came: Trace<SentPacket>,
    went: Trace<SentPacket>,
}

impl Model for Socket {
    ghost use Rattle.nio_datagram.specs.Sockets.{SocketState};

    ghost Value = { SocketState };

    ghost view = { λ s. record {
      serial = s.serial;
      at = s.at;
      bound = s.is_bound;
      came = s.came;
      went = s.went;
    } };
}

/// The last socket of a number, and those before it, which exist in proofs alone: so a number that serves again takes
/// no further memory.
#[derive(Drop)]
pub(crate) struct Side {
    last: Option<Socket>,
    past: Trace<Socket>,
}

impl Model for Side {
    ghost use Rattle.nio_datagram.specs.Sockets.{Sockets};

    ghost Value = { Sockets };

    ghost view = { λ s. record { last = s.last; past = s.past } };
}

/// Reads the sockets of a number, the newest first.
struct AllSockets;

impl Reading<Side, Socket> for AllSockets {
    ghost use Rattle.nio_datagram.specs.Sockets.{moved};

    ghost items = { λ side. moved side.last side.past };
}

impl Side {
    /// Nothing was bound there.
    pub(crate) fn new() -> Side
        ensures { result ≡ no_sockets }
    {
        Side {
            last: None,
            past: Trace::new(),
        }
    }

    /// Whether the channel of this serial has a socket.
    pub(crate) fn is_bound_as(&self, serial: u32) -> bool
        ensures { result ≡ is_bound_as self.now.last serial }
    {
        match &self.last {
            Some(socket) => socket.is_bound && socket.serial == serial,
            None => false,
        }
    }

    /// A socket was bound. The last one is one of those before it then.
    pub(crate) fn bind(&mut self, serial: u32, at: Addr)
        ensures { self.new ≡ with_socket self.old serial at }
    {
        let mut past = Trace::new();
        past.extend_from::<Side, AllSockets>(self);
        self.past = past;
        self.last = Some(Socket {
            serial,
            at,
            is_bound: true,
            came: Trace::new(),
            went: Trace::new(),
        });
    }

    /// The socket of the channel of this serial was closed, if it had one.
    pub(crate) fn close(&mut self, serial: u32)
        ensures { self.new ≡ after_close self.old serial }
    {
        match &mut self.last {
            Some(socket) if socket.is_bound && socket.serial == serial => socket.is_bound = false,
            Some(_) | None => {}
        }
    }

    /// A packet came to the last socket.
    pub(crate) fn receive(&mut self, from: Addr, bytes: &[u8])
        ensures { self.new ≡ after_came self.old (record { addr = from; bytes = bytes.now }) }
    {
        if let Some(socket) = &mut self.last {
            log_packet(&mut socket.came, from, bytes);
        }
    }

    /// The last socket sent a packet.
    pub(crate) fn send(&mut self, to: Addr, bytes: &[u8])
        ensures { self.new ≡ after_went self.old (record { addr = to; bytes = bytes.now }) }
    {
        if let Some(socket) = &mut self.last {
            log_packet(&mut socket.went, to, bytes);
        }
    }
}

/// Notes that a socket was bound under a channel.
pub(crate) fn bind_at(sides: &mut [Side], chan: ChanId, at: Addr)
    requires { chan.number.0 < length sides.old }
    ensures { sides.new ≡ slice_set sides.old chan.number.0
        (with_socket (sockets_at sides.old chan.number) chan.serial at) }
{
    sides[chan.number.0 as usize].bind(chan.serial, at);
}

/// Notes that a packet came to the last socket of a number: so many bytes at the front of the buffer.
pub(crate) fn receive_at(sides: &mut [Side], number: ChanNo, from: Addr, buffer: &[u8], len: usize)
    requires inside { number.0 < length sides.old }
    requires within { len ≤ length buffer.now }
    ensures { sides.new ≡ slice_set sides.old number.0
        (after_came (sockets_at sides.old number) (record { addr = from; bytes = take len buffer.now })) }
{
    sides[number.0 as usize].receive(from, &buffer[..len]);
}

/// Notes that the last socket of a number sent a packet.
pub(crate) fn send_at(sides: &mut [Side], number: ChanNo, to: Addr, bytes: &[u8])
    requires { number.0 < length sides.old }
    ensures { sides.new ≡ slice_set sides.old number.0
        (after_went (sockets_at sides.old number) (record { addr = to; bytes = bytes.now })) }
{
    sides[number.0 as usize].send(to, bytes);
}

/// So many numbers under which nothing was bound.
pub(crate) fn new_sides(alloc: Global, numbers: usize) -> Result<Vec<Side>, AllocError>
    ensures { IfOk result (λ sides. sides.items ≡ replicate numbers no_sockets) }
{
    let mut sides = Vec::new(alloc);
    for _ in 0..numbers {
        sides.push(Side::new())?;
    }
    Ok(sides)
}

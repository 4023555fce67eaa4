//! One number of a net of packets in memory.
ghost use Rattle.std.specs.Prelude.{◌≡◌, ◌≢◌, ◌↔◌, ◌≤◌, Err, false, true, IfOk, IsOk, OnErr, OnOk, length, take};
ghost use Rattle.nio_datagram.specs.Packets.{IsCame};
ghost use Rattle.nio_datagram.specs.Sides.{planned_side, side_after_bind, side_after_close, receive_answer};
ghost use Rattle.nio_datagram.specs.Sides.{receive_buffer, side_after_receive, side_after_look, side_after_send};
ghost use Rattle.nio_datagram.specs.Sides.{side_ready, reading, next_packet, came_of, filled_by, cut, put_front};
ghost use Rattle.nio_datagram.specs.Sockets.{after_came, carried_before, comes_after, is_bound_as, new_socket, traffic_of};
ghost use Rattle.nio_datagram.specs.declared.memory.side.BindFailure.TheVariants as failure;

use crate::net::{Came, LONGEST};
use crate::packet::{SentPacket, log_packet};
use nio_base::{Addr, Ops};
use nio_link::Failed;
use nio_trace::Trace;
use std::alloc::{AllocError, Global};
use std::collections::VecDeque;
use std::marker::Model;
use thiserror::Error;

/// Why a socket couldn't be bound in memory.
#[derive(Clone, Copy, Debug, PartialEq, Eq, Error)]
pub enum BindFailure {
    /// The net hasn't the number, a socket stands there, or its last one was bound under the same serial or a later one.
    #[error("the channel can't be bound")]
    NotFree,
    /// There is no memory to keep the packets of the last socket.
    #[error("out of memory")]
    Memory,
}

/// A socket: the serial of its channel, the address for which it was asked, whether it is bound still, and the packets
/// that it has sent. Those that it has received exist in proofs alone.
#[derive(Drop)]
pub(crate) struct Socket {
    serial: u32,
    at: Addr,
    is_bound: bool,
    came: Trace<SentPacket>,
    went: Vec<SentPacket>,
}

impl Model for Socket {
    ghost use Rattle.nio_datagram.specs.Sockets.{SocketState};

    ghost Value = { SocketState };

    ghost view = { λ s. record {
      serial = s.serial;
      at = s.at;
      bound = s.is_bound;
      came = s.came;
      went = s.went.items;
    } };
}

impl Socket {
    fn new(alloc: Global, serial: u32, at: Addr) -> Socket
        ensures { result ≡ new_socket serial at }
    {
        Socket {
            serial,
            at,
            is_bound: true,
            came: Trace::new(),
            went: Vec::new(alloc),
        }
    }
}

/// The packets that come to a number, how many of them have come, the last socket that was bound there, and those before
/// it, the newest first.
#[derive(Drop)]
pub(crate) struct Side {
    coming: Vec<(Addr, Vec<u8>)>,
    at: usize,
    last: Option<Socket>,
    past: VecDeque<Socket>,
}

impl Model for Side {
    ghost use Rattle.std.specs.Prelude.{map};
    ghost use Rattle.nio_datagram.specs.Sides.{SideState, packet_of};

    ghost Value = { SideState };

    ghost view = { λ s. record {
      coming = map packet_of s.coming.items;
      at = s.at;
      sockets = record { last = s.last; past = s.past.items };
    } };
}

impl Side {
    /// To this number these packets come, each from its address.
    pub(crate) fn make(alloc: Global, coming: Vec<(Addr, Vec<u8>)>) -> Side
        ensures { result ≡ planned_side coming.items }
    {
        Side {
            coming,
            at: 0,
            last: None,
            past: VecDeque::new(alloc),
        }
    }

    /// Whether the channel of this serial has a socket.
    pub(crate) fn is_bound_as(&self, serial: u32) -> bool
        ensures { result ≡ is_bound_as self.now.sockets.last serial }
    {
        match &self.last {
            Some(socket) => socket.is_bound && socket.serial == serial,
            None => false,
        }
    }

    // Whether a socket of this serial can come after the last one.
    fn comes_after(&self, serial: u32) -> bool
        ensures { result ≡ comes_after self.now.sockets.last serial }
    {
        match &self.last {
            Some(socket) => !socket.is_bound && socket.serial < serial,
            None => true,
        }
    }

    /// The packets that the channel of this serial has sent.
    pub(crate) fn went(&self, serial: u32) -> &[SentPacket]
        ensures { result.now ≡ (traffic_of self.now.sockets serial).went }
    {
        match &self.last {
            Some(socket) if socket.serial == serial => &socket.went,
            Some(_) | None => went_before(&self.past, serial),
        }
    }

    pub(crate) fn bind(&mut self, alloc: Global, serial: u32, at: Addr) -> Result<(), BindFailure>
        ensures fails { result ≢ Err failure.Memory
            → ((result ≡ Err failure.NotFree) ↔ (comes_after self.old.sockets.last serial ≡ false)) }
        ensures free { IsOk result → comes_after self.old.sockets.last serial ≡ true }
        ensures ok { OnOk result (self.new ≡ side_after_bind self.old serial at) }
        ensures err { OnErr result (self.new ≡ self.old) }
    {
        if !self.comes_after(serial) {
            return Err(BindFailure::NotFree);
        }
        if self.past.reserve(1).is_err() {
            return Err(BindFailure::Memory);
        }
        if let Some(before) = self.last.replace(Socket::new(alloc, serial, at)) {
            self.past.push_front_reserved(before);
        }
        Ok(())
    }

    /// Closes the socket of the channel of this serial, if it has one.
    pub(crate) fn close(&mut self, serial: u32)
        ensures { self.new ≡ side_after_close self.old serial }
    {
        match &mut self.last {
            Some(socket) if socket.is_bound && socket.serial == serial => socket.is_bound = false,
            Some(_) | None => {}
        }
    }

    pub(crate) fn receive(&mut self, serial: u32, into: &mut [u8]) -> Result<Came, Failed>
        requires { LONGEST ≤ length into.old }
        ensures answer { result ≡ receive_answer self.old serial }
        ensures buffer { into.new ≡ receive_buffer self.old serial into.old }
        ensures after { self.new ≡ side_after_receive self.old serial }
        ensures short { IfOk result IsCame }
    {
        if !self.is_bound_as(serial) {
            return Err(Failed);
        }
        Ok(self.take_next(into))
    }

    // Takes the packet that comes next, for the last socket.
    fn take_next(&mut self, into: &mut [u8]) -> Came
        requires { LONGEST ≤ length into.old }
        ensures answer { result ≡ came_of (next_packet self.old) }
        ensures buffer { into.new ≡ filled_by (next_packet self.old) into.old }
        ensures after { self.new ≡ side_after_look (next_packet self.old) self.old }
        ensures short { IsCame result }
    {
        if self.at >= self.coming.len() {
            return Came::NotYet;
        }
        let (from, bytes) = &self.coming[self.at];
        let from = *from;
        let len = give(bytes, into);
        self.at += 1;
        self.log_came(from, into, len);
        Came::Packet { len, from }
    }

    // Notes that a packet came to the last socket: so many bytes at the front of the buffer.
    fn log_came(&mut self, from: Addr, buffer: &[u8], len: usize)
        requires { len ≤ length buffer.now }
        ensures { self.new ≡ record self.old {
          sockets = after_came self.old.sockets (record { addr = from; bytes = take len buffer.now });
        } }
    {
        if let Some(socket) = &mut self.last {
            log_packet(&mut socket.came, from, &buffer[..len]);
        }
    }

    /// Keeps a packet that was sent, for the last socket.
    pub(crate) fn send(&mut self, packet: SentPacket) -> Result<(), AllocError>
        ensures ok { OnOk result (self.new ≡ side_after_send self.old packet) }
        ensures err { OnErr result (self.new ≡ self.old) }
    {
        if let Some(socket) = &mut self.last {
            socket.went.push(packet)?;
        }
        Ok(())
    }

    /// What it is ready for.
    pub(crate) fn ready(&self) -> Ops
        ensures { result ≡ side_ready self.now }
    {
        match &self.last {
            Some(socket) if socket.is_bound => self.reading().union(Ops::WRITE),
            Some(_) | None => Ops::NONE,
        }
    }

    // Reading, where a packet is left.
    fn reading(&self) -> Ops
        ensures { result ≡ reading (next_packet self.now) }
    {
        if self.at < self.coming.len() {
            Ops::READ
        } else {
            Ops::NONE
        }
    }
}

// The packets that the channel of this serial has sent, by the closed sockets.
fn went_before(past: &VecDeque<Socket>, serial: u32) -> &[SentPacket]
    ensures { result.now ≡ (carried_before past.now.items serial).went }
{
    for at in 0..past.len() {
        let socket = &past[at];
        if socket.serial == serial {
            return &socket.went;
        }
    }
    &[]
}

// Puts the bytes of a packet at the front of the buffer, as many as a packet can have, and counts them.
fn give(bytes: &[u8], into: &mut [u8]) -> usize
    requires { LONGEST ≤ length into.old }
    ensures count { result ≡ length (cut bytes.now) }
    ensures buffer { into.new ≡ put_front (cut bytes.now) into.old }
    ensures short { result ≤ LONGEST }
{
    let len = bytes.len().min(LONGEST);
    into[..len].copy_from_slice(&bytes[..len]);
    len
}

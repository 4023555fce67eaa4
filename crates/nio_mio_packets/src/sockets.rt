//! The sockets by the numbers of their channels, and what the system told of each.
ghost use Rattle.std.specs.Prelude.{IfOk};
ghost use Rattle.nio_datagram.specs.Packets.{IsCame};

use mio::event::Event;
use mio::net::UdpSocket;
use mio::{Events, Interest, Poll, Token};
use nio_base::{Addr, ChanNo, Ops};
use nio_datagram::{Came, LONGEST};
use nio_history::Mode;
use nio_link::Failed;
use nio_select::{Asked, Told};
use std::alloc::{AllocError, Global};
use std::io;
use std::io::ErrorKind;
use std::net::{Ipv4Addr, Net, SocketAddr};
use std::sync::Wait;
use std::time::{Clock, Duration, Instant};

/// How many events one poll takes from the system.
const EVENTS: usize = 64;

/// A socket, to whom it is connected in the system, and whether the system is to tell of room for a send.
#[derive(Drop)]
struct Socket {
    socket: UdpSocket,
    peer: Option<Addr>,
    awaits_room: bool,
}

/// The sockets. A bit is kept for an operation of a channel from an event until a call finds it not ready; that for
/// writing from the bind on, since a new socket has room.
#[derive(Drop)]
pub(crate) struct Sockets {
    poll: Option<Poll>,
    events: Events,
    sockets: Vec<Option<Socket>>,
    kept: Vec<Ops>,
}

fn no_socket() -> Option<Socket> {
    None
}

impl Sockets {
    /// Takes all memory, and asks the system for a poll object. Where it refuses, each call that can fail does.
    pub(crate) fn make<R: Net>(
        rt: &R,
        alloc: Global,
        places: usize,
    ) -> Result<Sockets, AllocError> {
        let mut sockets = Vec::new(alloc);
        sockets.resize_with(places, no_socket)?;
        Ok(Sockets {
            poll: Poll::new(rt).ok(),
            events: Events::with_capacity(alloc, EVENTS)?,
            sockets,
            kept: vec![in alloc; Ops::NONE; places]?,
        })
    }

    /// Waits as long as `mode` says, but not where a bit that is asked for is kept. Answers whether the time is over.
    pub(crate) fn wait<R: Wait, C: Clock>(
        &mut self,
        rt: &R,
        clock: &C,
        asked: &Asked,
        mode: Mode,
    ) -> Result<bool, Failed> {
        let is_ready = is_any_ready(&self.kept, asked);
        match mode {
            Mode::Now => {
                self.poll_for(Some(Duration::ZERO))?;
                Ok(true)
            }
            Mode::For(_) | Mode::Wait if is_ready => {
                self.poll_for(Some(Duration::ZERO))?;
                Ok(false)
            }
            Mode::For(ms) => self.wait_at_most(rt, clock, asked, Duration::from_millis(ms.get())),
            Mode::Wait => {
                self.wait_for(rt, asked)?;
                Ok(false)
            }
        }
    }

    // Waits until a bit that is asked for is kept. What comes for other channels is kept meanwhile, and a signal ends
    // no wait.
    fn wait_for<R: Wait>(&mut self, rt: &R, asked: &Asked) -> Result<(), Failed> {
        for _ in rt.forever() {
            self.poll_for(None)?;
            if is_any_ready(&self.kept, asked) {
                return Ok(());
            }
        }
        unreachable!()
    }

    // The same, but no longer than this time. Answers whether it is over.
    fn wait_at_most<R: Wait, C: Clock>(
        &mut self,
        rt: &R,
        clock: &C,
        asked: &Asked,
        time: Duration,
    ) -> Result<bool, Failed> {
        let begun = now(clock)?;
        for _ in rt.forever() {
            let left = time.saturating_sub(now(clock)?.duration_since(begun));
            self.poll_for(Some(left))?;
            if is_any_ready(&self.kept, asked) {
                return Ok(false);
            }
            if left == Duration::ZERO {
                return Ok(true);
            }
        }
        unreachable!()
    }

    // One poll of the system, whose events are kept.
    fn poll_for(&mut self, timeout: Option<Duration>) -> Result<(), Failed> {
        let Some(poll) = &mut self.poll else {
            return Err(Failed);
        };
        match poll.poll(&mut self.events, timeout) {
            Ok(()) => {
                keep_all(&mut self.kept, &self.events);
                Ok(())
            }
            Err(_error) => Err(Failed),
        }
    }

    /// All that is kept of the channels that are asked for, also for what they aren't asked: who finds a packet then
    /// knows at once where it can be sent.
    pub(crate) fn tell(
        &self,
        alloc: Global,
        asked: &Asked,
        elapsed: bool,
    ) -> Result<Told, AllocError> {
        let mut pairs = Vec::with_capacity(alloc, asked.len())?;
        for index in 0..asked.bound() {
            if let Some(key) = asked.key(index) {
                let bits = kept_of(&self.kept, key.channel);
                if bits != Ops::NONE {
                    pairs.push((index, bits))?;
                }
            }
        }
        Ok(Told { pairs, elapsed })
    }

    pub(crate) fn bind<R: Net>(&mut self, rt: &R, chan: ChanNo, at: Addr) -> Result<(), Failed> {
        match bound(rt, &self.poll, chan, at) {
            Ok(socket) => self.put(chan, socket),
            Err(_error) => Err(Failed),
        }
    }

    fn put(&mut self, chan: ChanNo, socket: UdpSocket) -> Result<(), Failed> {
        let Some(place) = self.sockets.get_mut(chan.0 as usize) else {
            return Err(Failed);
        };
        *place = Some(Socket {
            socket,
            peer: None,
            awaits_room: false,
        });
        keep(&mut self.kept, chan, Ops::WRITE);
        Ok(())
    }

    /// Connects a socket in the system, which then looks no route up for each packet. Where the system refuses, the
    /// socket stays as it was.
    pub(crate) fn connect(&mut self, chan: ChanNo, to: Addr) {
        if let Some(Some(socket)) = self.sockets.get_mut(chan.0 as usize) {
            if socket.socket.connect(socket_addr(to)).is_ok() {
                socket.peer = Some(to);
            }
        }
    }

    pub(crate) fn receive(&mut self, chan: ChanNo, into: &mut [u8]) -> Result<Came, Failed>
        ensures { IfOk result IsCame }
    {
        match received(&self.sockets, chan, into) {
            Ok((len, from)) => packet(len, from),
            Err(error) => match self.not_moved(chan, Ops::READ, &error) {
                Ok(()) => Ok(Came::NotYet),
                Err(Failed) => Err(Failed),
            },
        }
    }

    pub(crate) fn send(&mut self, chan: ChanNo, bytes: &[u8], to: Addr) -> Result<bool, Failed> {
        match sent(&self.sockets, chan, bytes, to) {
            Ok(count) if count == bytes.len() => {
                // Where the system refuses, it goes on telling of room, which does no harm.
                let _watched = self.watch_room(chan);
                Ok(true)
            }
            Ok(_count) => Err(Failed),
            Err(error) => {
                self.not_moved(chan, Ops::WRITE, &error)?;
                self.watch_room(chan)?;
                Ok(false)
            }
        }
    }

    // No packet was moved. Where a signal came, the call may go through at once: the channel stays ready.
    fn not_moved(&mut self, chan: ChanNo, op: Ops, error: &io::Error) -> Result<(), Failed> {
        match error.kind() {
            ErrorKind::WouldBlock => {
                take(&mut self.kept, chan, op);
                Ok(())
            }
            ErrorKind::Interrupted => Ok(()),
            _ => Err(Failed),
        }
    }

    // Has the system tell of room exactly while none is known: else each packet that leaves would end a wait for
    // packets.
    fn watch_room(&mut self, chan: ChanNo) -> Result<(), Failed> {
        let awaits = kept_of(&self.kept, chan).meet(Ops::WRITE) == Ops::NONE;
        let Some(poll) = &self.poll else {
            return Err(Failed);
        };
        match self.sockets.get_mut(chan.0 as usize) {
            Some(Some(socket)) => await_room(poll, chan, socket, awaits),
            _ => Err(Failed),
        }
    }

    pub(crate) fn close(&mut self, chan: ChanNo) {
        if let Some(place) = self.sockets.get_mut(chan.0 as usize) {
            *place = None;
        }
        take(&mut self.kept, chan, Ops::of(u8::MAX));
    }
}

// Has the system tell of room for a socket, or no longer.
fn await_room(poll: &Poll, chan: ChanNo, socket: &mut Socket, awaits: bool) -> Result<(), Failed> {
    if socket.awaits_room == awaits {
        return Ok(());
    }
    let token = Token(chan.0 as usize);
    match poll
        .registry()
        .reregister(&mut socket.socket, token, interest(awaits))
    {
        Ok(()) => {
            socket.awaits_room = awaits;
            Ok(())
        }
        Err(_error) => Err(Failed),
    }
}

// For what a socket is registered.
fn interest(awaits_room: bool) -> Interest {
    if awaits_room {
        Interest::READABLE | Interest::WRITABLE
    } else {
        Interest::READABLE
    }
}

// A socket that is bound to the address, and registered for packets.
fn bound<R: Net>(rt: &R, poll: &Option<Poll>, chan: ChanNo, at: Addr) -> io::Result<UdpSocket> {
    let Some(poll) = poll else {
        return Err(missing());
    };
    let mut socket = UdpSocket::bind(rt, socket_addr(at))?;
    poll.registry()
        .register(&mut socket, Token(chan.0 as usize), interest(false))?;
    Ok(socket)
}

// The channel has no socket, or the net has no poll object.
fn missing() -> io::Error {
    io::Error::from(ErrorKind::NotFound)
}

fn socket_addr(addr: Addr) -> SocketAddr {
    let [a, b, c, d] = addr.ip;
    SocketAddr::from((Ipv4Addr::new(a, b, c, d), addr.port))
}

fn addr_of(from: SocketAddr) -> Option<Addr> {
    match from {
        SocketAddr::V4(from) => Some(Addr {
            ip: from.ip().octets(),
            port: from.port(),
        }),
        SocketAddr::V6(_) => None,
    }
}

// What came. IPv4 carries nothing longer, and to a socket of IPv4 only from such an address.
fn packet(len: usize, from: SocketAddr) -> Result<Came, Failed>
    ensures { IfOk result IsCame }
{
    if len > LONGEST {
        return Err(Failed);
    }
    match addr_of(from) {
        Some(from) => Ok(Came::Packet { len, from }),
        None => Err(Failed),
    }
}

// The next packet of the socket at this place.
fn received(
    sockets: &[Option<Socket>],
    chan: ChanNo,
    into: &mut [u8],
) -> io::Result<(usize, SocketAddr)> {
    match sockets.get(chan.0 as usize) {
        Some(Some(socket)) => socket.socket.recv_from(into),
        _ => Err(missing()),
    }
}

fn sent(sockets: &[Option<Socket>], chan: ChanNo, bytes: &[u8], to: Addr) -> io::Result<usize> {
    match sockets.get(chan.0 as usize) {
        Some(Some(socket)) if socket.peer == Some(to) => socket.socket.send(bytes),
        Some(Some(socket)) => socket.socket.send_to(bytes, socket_addr(to)),
        _ => Err(missing()),
    }
}

fn now<C: Clock>(clock: &C) -> Result<Instant, Failed> {
    match Instant::now(clock) {
        Ok(now) => Ok(now),
        Err(_error) => Err(Failed),
    }
}

// Whether a channel is ready for something that is asked of it.
fn is_any_ready(kept: &[Ops], asked: &Asked) -> bool {
    for index in 0..asked.bound() {
        if let Some(key) = asked.key(index) {
            if kept_of(kept, key.channel).meet(key.interest) != Ops::NONE {
                return true;
            }
        }
    }
    false
}

fn kept_of(kept: &[Ops], chan: ChanNo) -> Ops {
    match kept.get(chan.0 as usize) {
        Some(bits) => *bits,
        None => Ops::NONE,
    }
}

// Takes operations of a channel away.
fn take(kept: &mut [Ops], chan: ChanNo, ops: Ops) {
    if let Some(bits) = kept.get_mut(chan.0 as usize) {
        *bits = bits.meet(Ops::of(!ops.bits()));
    }
}

// Keeps operations of a channel.
fn keep(kept: &mut [Ops], chan: ChanNo, ops: Ops) {
    if let Some(bits) = kept.get_mut(chan.0 as usize) {
        *bits = bits.union(ops);
    }
}

fn keep_all(kept: &mut [Ops], events: &Events) {
    for event in events {
        let Token(place) = event.token();
        if let Some(bits) = kept.get_mut(place) {
            *bits = bits.union(told_by(event));
        }
    }
}

// What an event says of a socket. An error is told as both, so that a call finds it.
fn told_by(event: &Event) -> Ops {
    if event.is_error() {
        return Ops::of(5);
    }
    let reading = if event.is_readable() {
        Ops::READ
    } else {
        Ops::NONE
    };
    let writing = if event.is_writable() {
        Ops::WRITE
    } else {
        Ops::NONE
    };
    reading.union(writing)
}

//! One socket: a listener, or a link.
ghost use Rattle.std.specs.Io.{ReadsAtMost, WritesAtMost};

use mio::net::{TcpListener, TcpStream};
use mio::{Interest, Poll, Registry, Token};
use nio_base::{Addr, ChanNo};
use std::io;
use std::io::{ErrorKind, Read, Write};
use std::net::{Ipv4Addr, Net, Shutdown, SocketAddr};

/// A socket that is registered for both directions.
#[derive(Drop)]
pub(crate) enum Socket {
    Listener(TcpListener),
    Link(TcpStream),
}

fn socket_addr(addr: Addr) -> SocketAddr {
    let [a, b, c, d] = addr.ip;
    SocketAddr::from((Ipv4Addr::new(a, b, c, d), addr.port))
}

// The channel has no such socket, or the net has no poll object.
fn missing() -> io::Error {
    io::Error::from(ErrorKind::NotFound)
}

fn token(chan: ChanNo) -> Token {
    Token(chan.0 as usize)
}

/// Listens at the address, with `SO_REUSEADDR` and the longest backlog that the system allows.
pub(crate) fn listen<R: Net>(
    rt: &R,
    poll: &Option<Poll>,
    chan: ChanNo,
    at: Addr,
) -> io::Result<Socket> {
    let Some(poll) = poll else {
        return Err(missing());
    };
    let mut listener = TcpListener::bind(rt, socket_addr(at))?;
    poll.registry()
        .register(&mut listener, token(chan), Interest::READABLE)?;
    Ok(Socket::Listener(listener))
}

/// Begins to connect, and says whether that is done already.
pub(crate) fn connect<R: Net>(
    rt: &R,
    poll: &Option<Poll>,
    chan: ChanNo,
    to: Addr,
) -> io::Result<(Socket, bool)> {
    if poll.is_none() {
        return Err(missing());
    }
    let stream = TcpStream::connect(rt, socket_addr(to))?;
    let connected = stream.peer_addr().is_ok();
    let link = link(poll, chan, stream)?;
    Ok((link, connected))
}

/// Makes a link of a connection. `TCP_NODELAY` is set; where the system refuses that, the link goes without.
pub(crate) fn link(poll: &Option<Poll>, chan: ChanNo, stream: TcpStream) -> io::Result<Socket> {
    let Some(poll) = poll else {
        return Err(missing());
    };
    let mut stream = stream;
    let _ = stream.set_nodelay(true);
    poll.registry().register(
        &mut stream,
        token(chan),
        Interest::READABLE | Interest::WRITABLE,
    )?;
    Ok(Socket::Link(stream))
}

/// The socket at this place, which has none then.
pub(crate) fn take(sockets: &mut [Option<Socket>], chan: ChanNo) -> Option<Socket> {
    match sockets.get_mut(chan.0 as usize) {
        Some(place) => place.take(),
        None => None,
    }
}

/// The link at this place, which has none then. The poll object tells nothing more of it.
pub(crate) fn take_link(
    poll: &Option<Poll>,
    sockets: &mut [Option<Socket>],
    chan: ChanNo,
) -> Option<TcpStream> {
    let Some(place) = sockets.get_mut(chan.0 as usize) else {
        return None;
    };
    match place.take() {
        Some(Socket::Link(mut stream)) => {
            if let Some(poll) = poll {
                let _ = poll.registry().deregister(&mut stream);
            }
            Some(stream)
        }
        other => {
            *place = other;
            None
        }
    }
}

/// A spare descriptor, which is let go where none is left for a link that connects.
pub(crate) fn spare(poll: &Option<Poll>) -> io::Result<Registry> {
    match poll {
        Some(poll) => poll.registry().try_clone(),
        None => Err(missing()),
    }
}

/// The next connection of the listener at this place.
pub(crate) fn accept(sockets: &[Option<Socket>], listener: ChanNo) -> io::Result<TcpStream> {
    match sockets.get(listener.0 as usize) {
        Some(Some(Socket::Listener(listener))) => {
            let (stream, _from) = listener.accept()?;
            Ok(stream)
        }
        _ => Err(missing()),
    }
}

/// Whether the link at this place is connected; its error, where connecting failed.
pub(crate) fn is_connected(sockets: &[Option<Socket>], chan: ChanNo) -> io::Result<bool> {
    match sockets.get(chan.0 as usize) {
        Some(Some(Socket::Link(stream))) => has_connected(stream),
        _ => Err(missing()),
    }
}

fn has_connected(stream: &TcpStream) -> io::Result<bool> {
    if let Some(error) = stream.take_error()? {
        return Err(error);
    }
    match stream.peer_addr() {
        Ok(_peer) => Ok(true),
        Err(error) if error.kind() == ErrorKind::NotConnected => Ok(false),
        Err(error) => Err(error),
    }
}

pub(crate) fn read(
    sockets: &mut [Option<Socket>],
    chan: ChanNo,
    into: &mut [u8],
) -> io::Result<usize>
    ensures { ReadsAtMost result into.new }
{
    match sockets.get_mut(chan.0 as usize) {
        Some(Some(Socket::Link(stream))) => stream.read(into),
        _ => Err(missing()),
    }
}

pub(crate) fn write(sockets: &mut [Option<Socket>], chan: ChanNo, from: &[u8]) -> io::Result<usize>
    ensures { WritesAtMost result from.now }
{
    match sockets.get_mut(chan.0 as usize) {
        Some(Some(Socket::Link(stream))) => stream.write(from),
        _ => Err(missing()),
    }
}

pub(crate) fn shut_write(sockets: &[Option<Socket>], chan: ChanNo) -> io::Result<()> {
    match sockets.get(chan.0 as usize) {
        Some(Some(Socket::Link(stream))) => stream.shutdown(Shutdown::Write),
        _ => Err(missing()),
    }
}

//! What errors of the system mean to the calls, a connection that is refused, and what is read of one that ends. They
//! stand here because `Sockets` is private: through a net these calls need polls for keys that a selection asks for.
use super::*;
use std::io::Write;
use std::net::{Ipv4Addr, TcpListener, TcpStream};
use std::test::Fail;
use std::thread::sleep;

const LISTENER: ChanNo = ChanNo(0);

const LINK: ChanNo = ChanNo(1);

/// What a call comes to that found an error.
#[derive(Clone, Copy, Debug, PartialEq, Eq)]
enum Outcome {
    /// It answers "not yet", and may be made again at once.
    Again,
    /// It answers "not yet", and may be made again once a poll tells that it is ready.
    NotReady,
    Failed,
}

/// Linux's numbers of errors: EAGAIN, EINTR, ECONNABORTED, ENFILE, EMFILE, ECONNRESET. With each what it means to a
/// read or a write; to an accept where no link stands; and to one where a link does, whose descriptor can be had once
/// it is closed.
const ERRORS: [(i32, [Outcome; 3]); 6] = [
    (
        11,
        [Outcome::NotReady, Outcome::NotReady, Outcome::NotReady],
    ),
    (4, [Outcome::Again, Outcome::Again, Outcome::Again]),
    (103, [Outcome::Failed, Outcome::Again, Outcome::Again]),
    (23, [Outcome::Failed, Outcome::Failed, Outcome::NotReady]),
    (24, [Outcome::Failed, Outcome::Failed, Outcome::NotReady]),
    (104, [Outcome::Failed, Outcome::Failed, Outcome::Failed]),
];

/// How a "not yet" leaves the channel.
fn not_yet(sockets: &Sockets, chan: ChanNo, op: Ops) -> Outcome {
    if sockets.news.of(chan).meet(op) == op {
        Outcome::Again
    } else {
        Outcome::NotReady
    }
}

/// A read that finds the error.
fn read(sockets: &mut Sockets, cause: Cause) -> Outcome {
    sockets.news.add(LINK, Ops::READ);
    match sockets.not_moved(LINK, Ops::READ, cause) {
        Ok(()) => not_yet(sockets, LINK, Ops::READ),
        Err(Failed) => Outcome::Failed,
    }
}

/// An accept that finds the error, where so many links stand.
fn accept(sockets: &mut Sockets, links: usize, cause: Cause) -> Outcome {
    sockets.links = links;
    sockets.news.add(LISTENER, Ops::ACCEPT);
    match sockets.not_accepted(LISTENER, cause) {
        Ok(_made) => not_yet(sockets, LISTENER, Ops::ACCEPT),
        Err(Failed) => Outcome::Failed,
    }
}

#[test]
fn calls_take_errors_by_their_kind(rt: HostRuntime) -> Result<(), Fail> {
    let (mut sockets, _bell) = Sockets::make(&rt, rt.alloc())?;
    for (number, wanted) in ERRORS {
        let cause = cause_of(&io::Error::from_raw_os_error(number));
        let found = [
            read(&mut sockets, cause),
            accept(&mut sockets, 0, cause),
            accept(&mut sockets, 1, cause),
        ];
        assert_eq!(rt; found, wanted);
    }
    // A listener that waits for a descriptor is tried again once a link is closed.
    sockets.news.clear(LISTENER, Ops::ACCEPT);
    sockets.retry_waiting();
    assert_eq!(rt; sockets.news.of(LISTENER), Ops::ACCEPT);
    Ok(())
}

/// An address that nobody listens at.
fn free_address(rt: &HostRuntime) -> Result<Addr, Fail> {
    let listener = TcpListener::bind(rt, "127.0.0.1:0")?;
    Ok(Addr {
        ip: [127, 0, 0, 1],
        port: listener.local_addr()?.port(),
    })
}

/// One poll of the system, whose events are kept.
fn poll(sockets: &mut Sockets, time: Duration) -> Result<(), Fail> {
    sockets.poll_for(Some(time))?;
    for event in &sockets.events {
        if let Some(chan) = channel_of(event) {
            sockets.news.add(chan, told_by(event));
        }
    }
    Ok(())
}

/// Accepts a link to a peer, whose end is given. A poll leaves what an earlier one was told of the listener.
fn linked(rt: &HostRuntime, sockets: &mut Sockets) -> Result<TcpStream, Fail> {
    let at = free_address(rt)?;
    sockets.listen(rt, LISTENER, at)?;
    let peer = TcpStream::connect(rt, (Ipv4Addr::new(127, 0, 0, 1), at.port))?;
    poll(sockets, Duration::from_millis(50))?;
    poll(sockets, Duration::ZERO)?;
    let is_kept = not_yet(sockets, LISTENER, Ops::ACCEPT) == Outcome::Again;
    if is_kept && sockets.accept(LISTENER, LINK)? {
        Ok(peer)
    } else {
        Err(Fail::from("the listener has no connection"))
    }
}

/// What a read of the link gives once the system has told what came.
fn next(rt: &HostRuntime, sockets: &mut Sockets) -> Result<Got, Fail> {
    next_of(rt, sockets, LINK)
}

fn next_of(rt: &HostRuntime, sockets: &mut Sockets, chan: ChanNo) -> Result<Got, Fail> {
    sleep(rt, Duration::from_millis(50));
    poll(sockets, Duration::ZERO)?;
    Ok(sockets.read(chan, &mut [0_u8; 64])?)
}

#[test]
fn a_link_is_read_in_the_net_that_it_was_put_into(rt: HostRuntime) -> Result<(), Fail> {
    let (mut from, _bell) = Sockets::make(&rt, rt.alloc())?;
    let (mut to, _other_bell) = Sockets::make(&rt, rt.alloc())?;
    let mut peer = linked(&rt, &mut from)?;
    let stream = from.take_out(LINK);
    assert!(rt; stream.is_some() && from.links == 0 && from.take_out(LINK).is_none());
    let (beyond, unwatched) = (ChanNo(40_000), ChanNo(40_001));
    to.grow(40_002)?;
    to.put_in(beyond, stream);
    peer.write_all(b"bytes")?;
    assert_eq!(rt; next_of(&rt, &mut to, beyond)?, Got::Bytes(5));
    // Where the system refuses to watch a link, the channel counts as ready, and its next call fails.
    to.put_in(unwatched, None);
    assert!(rt; not_yet(&to, unwatched, Ops::READ) == Outcome::Again);
    assert!(rt; to.read(unwatched, &mut [0_u8; 64]) == Err(Failed));
    Ok(())
}

#[test]
fn an_end_behind_a_short_read_is_found(rt: HostRuntime) -> Result<(), Fail> {
    let (mut sockets, _bell) = Sockets::make(&rt, rt.alloc())?;
    // The end comes with the bytes.
    let mut peer = linked(&rt, &mut sockets)?;
    peer.write_all(b"bytes")?;
    drop(peer);
    assert_eq!(rt; next(&rt, &mut sockets)?, Got::Bytes(5));
    assert_eq!(rt; next(&rt, &mut sockets)?, Got::End);
    // Bytes come, and later more, and later the end.
    let mut peer = linked(&rt, &mut sockets)?;
    peer.write_all(b"bytes")?;
    assert_eq!(rt; next(&rt, &mut sockets)?, Got::Bytes(5));
    assert_eq!(rt; next(&rt, &mut sockets)?, Got::NotYet);
    peer.write_all(b"more")?;
    assert_eq!(rt; next(&rt, &mut sockets)?, Got::Bytes(4));
    drop(peer);
    assert_eq!(rt; next(&rt, &mut sockets)?, Got::End);
    Ok(())
}

/// Goes on connecting until that is done.
fn finish(rt: &HostRuntime, sockets: &mut Sockets) -> Result<bool, Failed> {
    for _ in 0..1_000 {
        if sockets.finish_connect(LINK)? {
            return Ok(true);
        }
        sleep(rt, Duration::from_millis(10));
    }
    Ok(false)
}

#[test]
fn a_refused_link_is_closed(rt: HostRuntime) -> Result<(), Fail> {
    let (mut sockets, _bell) = Sockets::make(&rt, rt.alloc())?;
    let at = free_address(&rt)?;
    let finished = match sockets.connect(&rt, LINK, at) {
        Ok(_connected) => finish(&rt, &mut sockets),
        Err(Failed) => Err(Failed),
    };
    assert_eq!(rt; finished, Err(Failed));
    assert_eq!(rt; sockets.links, 0);
    Ok(())
}

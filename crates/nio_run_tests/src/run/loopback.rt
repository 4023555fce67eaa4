//! The proxy over sockets: a client, the proxy and a target, each in a thread.
ghost use Rattle.std.specs.Prelude.{All, IfOk};
ghost use Rattle.nio_mio.specs.Unasked.{IsUnasked};

use super::runs_with;
use nio_base::NoGate;
use nio_bytes::{MemorySink, MemorySource};
use nio_mio::{MioBell, MioNet};
use std::alloc::{AllocError, AllocGlobal, Global};
use std::io;
use std::io::{Read, Write};
use std::net::{Net, Shutdown, TcpListener, TcpStream};
use std::random::RandomSource;
use std::sync::Wait;
use std::test::Fail;
use std::thread::{Threads, join, sleep};
use std::time::{Clock, Duration};

const COUNT: usize = 20_000;

/// As many as the program has by default.
const WORKERS: usize = 4;

/// An address that nobody listens at.
fn free_address(rt: &HostRuntime) -> Result<String, Fail> {
    let listener = TcpListener::bind(rt, "127.0.0.1:0")?;
    let port = listener.local_addr()?.port();
    Ok(format!(in rt.alloc(); "127.0.0.1:{port}")?)
}

/// Bytes that repeat after `period` of them.
fn bytes(alloc: Global, period: usize) -> Result<Vec<u8>, AllocError> {
    let mut bytes = Vec::with_capacity(alloc, COUNT)?;
    for at in 0..COUNT {
        bytes.push((at % period.clamp(1, 256)) as u8)?;
    }
    Ok(bytes)
}

/// The nets of the workers, which were just made, and their bells.
fn nets_of<S: Net + Clock + Copy>(
    system: S,
    alloc: Global,
) -> Result<(Vec<MioNet<S>>, Vec<MioBell>), AllocError>
    ensures { IfOk result (λ made. All IsUnasked made.0.items) }
{
    let mut nets = Vec::new(alloc);
    let mut bells = Vec::new(alloc);
    for _ in 0..WORKERS {
        let (net, bell) = MioNet::make(system, alloc)?;
        nets.push(net)?;
        bells.push(bell)?;
    }
    Ok((nets, bells))
}

/// The status of the program that relays one connection, and what it wrote.
fn relay<R>(
    rt: &R,
    system: HostRuntime,
    alloc: Global,
    way: &str,
    listen: &str,
    target: &str,
) -> Result<(u8, Vec<u8>), AllocError>
where
    R: Threads + Wait + RandomSource + AllocGlobal + Sync,
{
    let words = [
        "proxy", "--way", way, "--listen", listen, "--target", target, "--conns", "1",
    ];
    let mut source = MemorySource::make(Vec::new(alloc), 1, Vec::new(alloc));
    let mut sink = MemorySink::make(alloc, 8, Vec::new(alloc), 64)?;
    let (net, bell) = MioNet::make(system, alloc)?;
    let (mut more, bells) = nets_of(system, alloc)?;
    let (status, _net) = runs_with(
        rt,
        alloc,
        &words,
        &mut source,
        &mut sink,
        net,
        &mut more,
        &bell,
        bells,
        &NoGate,
    )?;
    Ok((status, sink.bytes().to_vec(alloc)?))
}

/// Connects once somebody listens.
fn connect(rt: &HostRuntime, to: &str) -> io::Result<TcpStream> {
    for _ in 0..1_000 {
        if let Ok(stream) = TcpStream::connect(rt, to) {
            return Ok(stream);
        }
        sleep(rt, Duration::from_millis(10));
    }
    TcpStream::connect(rt, to)
}

/// Sends the bytes and their end, and then takes what comes back.
fn ask(rt: &HostRuntime, to: &str, sent: &[u8]) -> io::Result<Vec<u8>> {
    let mut stream = connect(rt, to)?;
    stream.write_all(sent)?;
    stream.shutdown(Shutdown::Write)?;
    let mut came = Vec::new(rt.alloc());
    stream.read_to_end(&mut came)?;
    Ok(came)
}

/// Takes what comes on one connection until its end, and then sends the bytes.
fn answer(rt: &HostRuntime, listener: &TcpListener, sent: &[u8]) -> io::Result<Vec<u8>> {
    let (mut stream, _from) = listener.accept()?;
    let mut came = Vec::new(rt.alloc());
    stream.read_to_end(&mut came)?;
    stream.write_all(sent)?;
    Ok(came)
}

#[test]
fn relays_over_loopback(rt: HostRuntime) -> Result<(), Fail> {
    let question = bytes(rt.alloc(), 251)?;
    let reply = bytes(rt.alloc(), 241)?;
    for way in ["select", "group", "future", "many"] {
        let listener = TcpListener::bind(&rt, "127.0.0.1:0")?;
        let port = listener.local_addr()?.port();
        let target = format!(in rt.alloc(); "127.0.0.1:{port}")?;
        let listen = free_address(&rt)?;
        let (relayed, (asked, answered)) = join(
            &rt,
            || -> Result<(u8, Vec<u8>), AllocError> {
                relay(&rt, rt, rt.alloc(), way, &listen, &target)
            },
            || -> (io::Result<Vec<u8>>, io::Result<Vec<u8>>) {
                join(
                    &rt,
                    || -> io::Result<Vec<u8>> { ask(&rt, &listen, &question) },
                    || -> io::Result<Vec<u8>> { answer(&rt, &listener, &reply) },
                )
            },
        );
        let (code, written) = relayed?;
        assert_eq!(rt; code, 0, "{way}");
        assert_eq!(rt;
            written.as_slice(),
            "served 1 faults 0\n".as_bytes(),
            "{way}"
        );
        assert!(rt; asked? == reply, "{way}");
        assert!(rt; answered? == question, "{way}");
    }
    Ok(())
}

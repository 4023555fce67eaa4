//! The proxy with several selectors over sockets: twenty clients, the proxy with four workers, and a target that sends
//! back what comes.
ghost use Rattle.std.specs.Prelude.{◌≤◌, All, IfOk, length};
ghost use Rattle.nio_mio.specs.Unasked.{IsUnasked};

use crate::nets::{parts_of, serve_fresh};
use nio_base::{Addr, NoGate};
use nio_mio::{MioBell, MioNet};
use nio_reactor::ManyError;
use nio_relay::{ProxyPlan, Served};
use std::alloc::{AllocError, Global};
use std::io;
use std::io::{Read, Write};
use std::net::{Net, Shutdown, TcpListener, TcpStream};
use std::sync::Wait;
use std::test::Fail;
use std::thread::{Threads, join, sleep};
use std::time::{Clock, Duration};

const CLIENTS: usize = 20;

const WORKERS: usize = 4;

const COUNT: usize = 5_000;

const LOCAL: [u8; 4] = [127, 0, 0, 1];

/// The port of an address that nobody listens at.
fn free_port(rt: &HostRuntime) -> io::Result<u16> {
    let listener = TcpListener::bind(rt, "127.0.0.1:0")?;
    Ok(listener.local_addr()?.port())
}

/// What a client sends: bytes that tell it from the others.
fn bytes(alloc: Global, client: usize) -> Result<Vec<u8>, AllocError> {
    let mut bytes = Vec::with_capacity(alloc, COUNT)?;
    for at in 0..COUNT {
        bytes.push((at % (client.min(CLIENTS) + 100)) as u8)?;
    }
    Ok(bytes)
}

/// The nets of the workers, which were just made, and their bells.
fn nets_of<S: Net + Clock + Copy>(
    system: S,
    alloc: Global,
) -> Result<(Vec<MioNet<S>>, Vec<MioBell>), AllocError>
    ensures some { IfOk result (λ made. 1 ≤ length made.0.items) }
    ensures few { IfOk result (λ made. length made.0.items ≤ 15) }
    ensures unasked { IfOk result (λ made. All IsUnasked made.0.items) }
{
    let mut nets = Vec::new(alloc);
    let mut bells = Vec::new(alloc);
    for _ in 0..WORKERS {
        let (net, bell) = MioNet::make(system, alloc)?;
        nets.push(net)?;
        bells.push(bell)?;
    }
    Ok((nets, bells))
}

/// Relays the connections of all clients.
fn relay<R: Threads + Wait + Sync>(
    rt: &R,
    system: HostRuntime,
    alloc: Global,
    listen: u16,
    target: u16,
) -> Result<Result<Served, ManyError>, AllocError> {
    let plan = ProxyPlan {
        listen: Addr {
            ip: LOCAL,
            port: listen,
        },
        target: Addr {
            ip: LOCAL,
            port: target,
        },
        conns: CLIENTS as u32,
        at_once: CLIENTS as u32,
    };
    let (mut net, _bell) = MioNet::make(system, alloc)?;
    let (mut more, bells) = nets_of(system, alloc)?;
    let done = serve_fresh(rt, alloc, &mut net, &mut more, bells, &NoGate, plan);
    let (served, _pass) = parts_of(done);
    Ok(served)
}

/// Connects once somebody listens.
fn connect(rt: &HostRuntime, to: u16) -> io::Result<TcpStream> {
    for _ in 0..1_000 {
        if let Ok(stream) = TcpStream::connect(rt, ("127.0.0.1", to)) {
            return Ok(stream);
        }
        sleep(rt, Duration::from_millis(10));
    }
    TcpStream::connect(rt, ("127.0.0.1", to))
}

/// Connects all clients and sends their bytes; then takes what comes back. Says how many got back what they sent.
fn ask(rt: &HostRuntime, to: u16) -> io::Result<usize> {
    let mut streams = Vec::new(rt.alloc());
    for client in 0..CLIENTS {
        let mut stream = connect(rt, to)?;
        stream.write_all(&bytes(rt.alloc(), client)?)?;
        stream.shutdown(Shutdown::Write)?;
        streams.push(stream)?;
    }
    let mut good: usize = 0;
    for (client, stream) in streams.iter_mut().enumerate() {
        let mut came = Vec::new(rt.alloc());
        stream.read_to_end(&mut came)?;
        if came == bytes(rt.alloc(), client)? {
            good = good.saturating_add(1);
        }
    }
    Ok(good)
}

/// Connects the clients one after another, each once the one before has got back what it sent. Says how many got it
/// back.
fn ask_in_turn(rt: &HostRuntime, to: u16) -> io::Result<usize> {
    let mut good: usize = 0;
    for client in 0..CLIENTS {
        let sent = bytes(rt.alloc(), client)?;
        let mut stream = connect(rt, to)?;
        stream.write_all(&sent)?;
        stream.shutdown(Shutdown::Write)?;
        let mut came = Vec::new(rt.alloc());
        stream.read_to_end(&mut came)?;
        if came == sent {
            good = good.saturating_add(1);
        }
    }
    Ok(good)
}

/// Takes what comes on each connection until its end, and sends it back.
fn answer(listener: &TcpListener, alloc: Global) -> io::Result<()> {
    for _ in 0..CLIENTS {
        let (mut stream, _from) = listener.accept()?;
        let mut came = Vec::new(alloc);
        stream.read_to_end(&mut came)?;
        stream.write_all(&came)?;
    }
    Ok(())
}

#[test]
fn relays_over_loopback(rt: HostRuntime) -> Result<(), Fail> {
    let listener = TcpListener::bind(&rt, "127.0.0.1:0")?;
    let target = listener.local_addr()?.port();
    let listen = free_port(&rt)?;
    let (relayed, (asked, answered)) = join(
        &rt,
        || -> Result<Result<Served, ManyError>, AllocError> {
            relay(&rt, rt, rt.alloc(), listen, target)
        },
        || -> (io::Result<usize>, io::Result<()>) {
            join(
                &rt,
                || -> io::Result<usize> { ask(&rt, listen) },
                || -> io::Result<()> { answer(&listener, rt.alloc()) },
            )
        },
    );
    let all = Served {
        connections: CLIENTS as u32,
        faults: 0,
    };
    assert_eq!(rt; relayed?, Ok(all));
    assert_eq!(rt; asked?, CLIENTS);
    answered?;
    Ok(())
}

#[test]
fn accepts_while_it_relays(rt: HostRuntime) -> Result<(), Fail> {
    let listener = TcpListener::bind(&rt, "127.0.0.1:0")?;
    let target = listener.local_addr()?.port();
    let listen = free_port(&rt)?;
    let (relayed, (asked, answered)) = join(
        &rt,
        || -> Result<Result<Served, ManyError>, AllocError> {
            relay(&rt, rt, rt.alloc(), listen, target)
        },
        || -> (io::Result<usize>, io::Result<()>) {
            join(
                &rt,
                || -> io::Result<usize> { ask_in_turn(&rt, listen) },
                || -> io::Result<()> { answer(&listener, rt.alloc()) },
            )
        },
    );
    let all = Served {
        connections: CLIENTS as u32,
        faults: 0,
    };
    assert_eq!(rt; relayed?, Ok(all));
    assert_eq!(rt; asked?, CLIENTS);
    answered?;
    Ok(())
}

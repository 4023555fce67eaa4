//! A proxy over sockets, by selections. It relays one connection; a second thread is its client, and then its target.
#![tactic(auto)]

use nio::Addr;
use nio::net::MioNet;
use nio::proxy::{ProxyPlan, Served, serve_select};
use std::alloc::Global;
use std::io;
use std::io::{Read, Write};
use std::net::{Net, OpenListener, OpenStream, Shutdown, TcpListener, TcpStream};
use std::sync::Wait;
use std::thread::{join, sleep};
use std::time::{Clock, Duration};

fn main(rt: HostRuntime) -> anyhow::Result<()> {
    let target = TcpListener::bind(&rt, "127.0.0.1:0")?;
    let to = address_of(&target)?;
    let at = address_of(&TcpListener::bind(&rt, "127.0.0.1:0")?)?;
    let (served, said) = join(
        &rt,
        || -> anyhow::Result<Served> { proxy(&rt, at, to) },
        || -> io::Result<(String, String)> { talk(&rt, rt.alloc(), at, &target) },
    );
    let (question, answer) = said?;
    println!(rt; "{question} {answer}")?;
    println!(rt; "{:?}", served?)?;
    Ok(())
}

/// Relays one connection from this address to that one.
fn proxy<R: AllocGlobal + Clock + Copy + Net + Wait>(
    rt: &R,
    listen: Addr,
    target: Addr,
) -> anyhow::Result<Served> {
    let (mut net, _bell) = MioNet::make(*rt, rt.alloc())?;
    let plan = ProxyPlan {
        listen,
        target,
        conns: 1,
        at_once: 1,
    };
    Ok(serve_select(rt, rt.alloc(), &mut net, plan)?)
}

fn address_of(listener: &impl OpenListener) -> io::Result<Addr> {
    Ok(Addr {
        ip: [127, 0, 0, 1],
        port: listener.local_addr()?.port(),
    })
}

/// Connects to the proxy, once it listens, and asks; answers as the target; and takes the answer.
fn talk<R: Net + Clock>(
    rt: &R,
    alloc: Global,
    at: Addr,
    target: &R::Listener,
) -> io::Result<(String, String)> {
    let mut client = connect(rt, at)?;
    client.write_all("ping".as_bytes())?;
    client.shutdown(Shutdown::Write)?;
    let (mut stream, _from) = target.accept()?;
    let mut question = String::new(alloc);
    stream.read_to_string(&mut question)?;
    stream.write_all("pong".as_bytes())?;
    drop(stream);
    Ok((question, io::read_to_string(alloc, client)?))
}

fn connect<R: Net + Clock>(rt: &R, at: Addr) -> io::Result<R::Stream> {
    for _ in 0..1_000 {
        if let Ok(stream) = TcpStream::connect(rt, ("127.0.0.1", at.port)) {
            return Ok(stream);
        }
        sleep(rt, Duration::from_millis(10));
    }
    TcpStream::connect(rt, ("127.0.0.1", at.port))
}

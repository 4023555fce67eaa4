//! The proxy by operations over sockets: a client, the proxy and a target, each in a thread. The proxy's polls wait,
//! and its handlers ring.
use nio_base::{Addr, Gate, NoGate};
use nio_link::JobNet;
use nio_mio::MioNet;
use nio_operations::serve_group;
use nio_relay::{ProxyPlan, Served};
use nio_serve::ServeError;
use std::alloc::{AllocError, Global};
use std::io::{Read, Write};
use std::net::{Net, Shutdown, TcpListener, TcpStream};
use std::sync::Wait;
use std::sync::atomic::{AtomicBool, AtomicU64, Ordering};
use std::test::Fail;
use std::thread::{Threads, for_each_mut, join, sleep, yield_now};
use std::time::{Clock, Duration};
use std::{array, io};

const COUNT: usize = 50_000;

const LOCAL: [u8; 4] = [127, 0, 0, 1];

/// The port of an address that nobody listens at.
fn free_port(rt: &HostRuntime) -> io::Result<u16> {
    let listener = TcpListener::bind(rt, "127.0.0.1:0")?;
    Ok(listener.local_addr()?.port())
}

/// Bytes that repeat after `period` of them.
fn bytes(alloc: Global, period: usize) -> Result<Vec<u8>, AllocError> {
    let mut bytes = Vec::with_capacity(alloc, COUNT)?;
    for at in 0..COUNT {
        bytes.push((at % period.clamp(1, 256)) as u8)?;
    }
    Ok(bytes)
}

/// Relays up to four connections, by four workers.
fn relay<R: Threads + Wait + Sync + Net + Clock + Copy, G: Gate + Sync>(
    rt: &R,
    alloc: Global,
    listen: u16,
    target: u16,
    conns: u32,
    gate: &G,
) -> Result<Result<Served, ServeError>, AllocError> {
    let plan = ProxyPlan {
        listen: Addr {
            ip: LOCAL,
            port: listen,
        },
        target: Addr {
            ip: LOCAL,
            port: target,
        },
        conns: conns.clamp(1, CLIENTS as u32),
        at_once: CLIENTS as u32,
    };
    let (net, bell) = MioNet::make(*rt, alloc)?;
    let mut jobs = JobNet::over(net);
    Ok(serve_group(rt, alloc, &mut jobs, &bell, gate, plan, 4))
}

/// Connects once somebody listens.
fn connect(rt: &HostRuntime, to: u16) -> io::Result<TcpStream> {
    for _ in 0..1_000 {
        if let Ok(stream) = TcpStream::connect(rt, ("127.0.0.1", to)) {
            return Ok(stream);
        }
        sleep(rt, Duration::from_millis(10));
    }
    TcpStream::connect(rt, ("127.0.0.1", to))
}

/// Sends the bytes and their end, and then takes what comes back.
fn ask(rt: &HostRuntime, stream: TcpStream, sent: &[u8]) -> io::Result<Vec<u8>> {
    let mut stream = stream;
    stream.write_all(sent)?;
    stream.shutdown(Shutdown::Write)?;
    let mut came = Vec::new(rt.alloc());
    stream.read_to_end(&mut came)?;
    Ok(came)
}

/// Takes what comes on a connection until its end, and then sends the bytes.
fn answer(rt: &HostRuntime, stream: TcpStream, sent: &[u8]) -> io::Result<Vec<u8>> {
    let mut stream = stream;
    let mut came = Vec::new(rt.alloc());
    stream.read_to_end(&mut came)?;
    stream.write_all(sent)?;
    Ok(came)
}

#[test]
fn relays_over_loopback(rt: HostRuntime) -> Result<(), Fail> {
    let listener = TcpListener::bind(&rt, "127.0.0.1:0")?;
    let target = listener.local_addr()?.port();
    let listen = free_port(&rt)?;
    let question = bytes(rt.alloc(), 251)?;
    let reply = bytes(rt.alloc(), 241)?;
    let (relayed, (asked, answered)) = join(
        &rt,
        || -> Result<Result<Served, ServeError>, AllocError> {
            relay(&rt, rt.alloc(), listen, target, 1, &NoGate)
        },
        || -> (io::Result<Vec<u8>>, io::Result<Vec<u8>>) {
            join(
                &rt,
                || -> io::Result<Vec<u8>> { ask(&rt, connect(&rt, listen)?, &question) },
                || -> io::Result<Vec<u8>> { answer(&rt, listener.accept()?.0, &reply) },
            )
        },
    );
    let one = Served {
        connections: 1,
        faults: 0,
    };
    assert_eq!(rt; relayed?, Ok(one));
    assert!(rt; asked? == reply);
    assert!(rt; answered? == question);
    Ok(())
}

/// How many clients make round trips of one byte beside each other, how many each makes, and after how many of all no
/// worker is held any more.
const CLIENTS: usize = 4;

const ROUNDS: u64 = 200;

const LAST_HELD: u64 = 400;

/// How often a worker looks whether others have gone on before it gives up.
const TURNS: u32 = 20_000_000;

/// Holds one worker at a time until the clients have made 20 further round trips. The client whose completion is held
/// makes none of them.
#[derive(Drop)]
struct Holding {
    made: AtomicU64,
    is_held: AtomicBool,
    holds: AtomicU64,
    given_up: AtomicBool,
}

impl Holding {
    fn new() -> Holding {
        Holding {
            made: AtomicU64::new(0),
            is_held: AtomicBool::new(false),
            holds: AtomicU64::new(0),
            given_up: AtomicBool::new(false),
        }
    }

    /// Whether so many round trips were made, at last.
    fn come_to(&self, count: u64) -> bool {
        for _ in 0..TURNS {
            if count <= self.made.load(Ordering::SeqCst) {
                return true;
            }
            yield_now();
        }
        false
    }
}

impl Gate for Holding {
    fn pass<R: Wait>(&self, _rt: &R, _who: u32, _what: u64) {
        let made = self.made.load(Ordering::SeqCst);
        // before the first round trip only accepts and connects have completed
        if made == 0 || LAST_HELD < made || self.is_held.swap(true, Ordering::SeqCst) {
            return;
        }
        self.holds.fetch_add(1, Ordering::SeqCst);
        if !self.come_to(made.saturating_add(20)) {
            self.given_up.store(true, Ordering::SeqCst);
        }
        self.is_held.store(false, Ordering::SeqCst);
    }
}

/// Sends bytes, each once the one before has come back. Says whether the same came back.
fn make_rounds(rt: &HostRuntime, to: u16, made: &AtomicU64) -> io::Result<bool> {
    let mut stream = connect(rt, to)?;
    let mut is_same = true;
    for round in 0..ROUNDS {
        let sent = [(round % 251) as u8];
        stream.write_all(&sent)?;
        let mut came = [0; 1];
        stream.read_exact(&mut came)?;
        is_same = is_same && came == sent;
        made.fetch_add(1, Ordering::SeqCst);
    }
    Ok(is_same)
}

/// Takes a connection, and sends each byte back that comes.
fn echo(listener: &TcpListener) -> io::Result<bool> {
    let (mut stream, _from) = listener.accept()?;
    let mut byte = [0; 1];
    for _ in 0..=ROUNDS {
        if stream.read(&mut byte)? == 0 {
            return Ok(true);
        }
        stream.write_all(&byte)?;
    }
    Ok(false)
}

fn all_true(answers: &[io::Result<bool>]) -> bool {
    answers.iter().all(|answer| matches!(answer, Ok(true)))
}

#[test]
fn a_read_or_write_that_is_held_holds_up_no_other_connection(rt: HostRuntime) -> Result<(), Fail> {
    let listener = TcpListener::bind(&rt, "127.0.0.1:0")?;
    let target = listener.local_addr()?.port();
    let listen = free_port(&rt)?;
    let gate = Holding::new();
    let mut made: [io::Result<bool>; CLIENTS] = array::from_fn(|_| Ok(false));
    let mut echoed: [io::Result<bool>; CLIENTS] = array::from_fn(|_| Ok(false));
    let (relayed, ((), ())) = join(
        &rt,
        || -> Result<Result<Served, ServeError>, AllocError> {
            relay(&rt, rt.alloc(), listen, target, CLIENTS as u32, &gate)
        },
        || {
            join(
                &rt,
                || for_each_mut(
                    &rt,
                    &mut made,
                    CLIENTS,
                    &|_, one| *one = make_rounds(&rt, listen, &gate.made),
                ),
                || for_each_mut(&rt, &mut echoed, CLIENTS, &|_, one| *one = echo(&listener)),
            )
        },
    );
    let all = Served {
        connections: CLIENTS as u32,
        faults: 0,
    };
    assert_eq!(rt; relayed?, Ok(all));
    assert!(rt; all_true(&made) && all_true(&echoed));
    let holds = gate.holds.load(Ordering::SeqCst);
    assert!(rt; 0 < holds, "no worker was held");
    assert!(rt; !gate.given_up.load(Ordering::SeqCst), "{holds} were held");
    Ok(())
}

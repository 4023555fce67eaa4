//! The program nio over a net in memory, for trials in which memory is refused. The words are those of `proxy`; the
//! addresses name nothing. Two clients connect, and the first connection fails once its target has taken ten bytes.
#![tactic(auto)]

ghost use Rattle.std.specs.Prelude.{All, IfOk};
ghost use Rattle.nio_link.specs.MemoryNet.{shown};
ghost use Rattle.nio_serve.specs.Serving.{IsFresh};

use nio_base::NoGate;
use nio_bytes::{StdSink, SteadySource};
use nio_datagram::MemoryPackets;
use nio_link::{MemoryNet, NetPlan, PeerPlan};
use nio_poller::NoBell;
use nio_run::{PROGRAM_LIMITS, run, workers_of};
use nio_script::Status;
use nio_words::Words;
use std::alloc::{AllocError, Global};
use std::process::ExitCode;
use std::random::RandomSource;
use std::rt::Env;
use std::sync::Wait;
use std::thread::Threads;
use std::{env, io};

/// The lengths of the pieces that each client sends.
const SENT: [usize; 3] = [1, 16_384, 3_615];

/// A client that sends its bytes, and a target that takes 7 of them a write and answers nothing.
fn sender(alloc: Global, fail_write_after: Option<u64>) -> Result<PeerPlan, AllocError> {
    let mut sends = Vec::new(alloc);
    for length in SENT {
        sends.push(vec![in alloc; b'x'; length]?)?;
    }
    Ok(PeerPlan {
        sends,
        answers: Vec::new(alloc),
        most: 7,
        fail_connect: false,
        fail_write_after,
    })
}

/// Two connections, of which the first fails.
fn plan(alloc: Global) -> Result<NetPlan, AllocError> {
    let mut peers = Vec::new(alloc);
    peers.push(sender(alloc, Some(10))?)?;
    peers.push(sender(alloc, None)?)?;
    Ok(NetPlan {
        peers,
        fail_poll: None,
        fail_accept: None,
    })
}

/// So many nets to which nobody connects.
fn nets_of(alloc: Global, count: usize) -> Result<Vec<MemoryNet>, AllocError>
    ensures { IfOk result (λ nets. All (λ net. IsFresh (shown net)) nets.items) }
{
    let mut nets = Vec::new(alloc);
    for _ in 0..count {
        let nobody = NetPlan {
            peers: Vec::new(alloc),
            fail_poll: None,
            fail_accept: None,
        };
        let net = MemoryNet::make(alloc, nobody)?;
        nets.push(net)?;
    }
    Ok(nets)
}

/// The words of the command line, after the program's name. Where one isn't text there are none,
/// which is no command.
fn arguments(rt: &(impl Env + AllocGlobal)) -> Result<Vec<String>, AllocError> {
    match env::args(rt) {
        Ok(args) => args.skip(1).collect(rt.alloc()),
        Err(error) if error.kind() == io::ErrorKind::OutOfMemory => Err(AllocError),
        Err(_) => Ok(Vec::new(rt.alloc())),
    }
}

fn status<R>(rt: &R, alloc: Global) -> Result<Status, AllocError>
where
    R: Env + Print + AllocGlobal + RandomSource + Threads + Wait + Sync,
{
    let words = arguments(rt)?;
    let (table, mut pass) = Words::make(alloc, PROGRAM_LIMITS)?;
    let net = MemoryNet::make(alloc, plan(alloc)?)?;
    let mut more = nets_of(alloc, workers_of(alloc, &words)?)?;
    let mut packets = MemoryPackets::make(alloc, Vec::new(alloc), Vec::new(alloc), None)?;
    let mut input = SteadySource::make(Vec::new(alloc));
    let mut output = StdSink::over(io::writer(rt));
    let ended = run(
        rt,
        alloc,
        &words,
        &mut input,
        &mut output,
        &table,
        &mut pass,
        net,
        &mut more,
        &mut packets,
        &NoBell,
        Vec::new(alloc),
        &NoGate,
    );
    Ok(ended.status)
}

fn main(rt: HostRuntime) -> ExitCode {
    let status = status(&rt, rt.alloc()).unwrap_or(Status::Memory);
    ExitCode::from(status.code())
}

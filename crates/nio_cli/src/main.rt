//! The program nio: the selectors of `java.nio.channels`, driven by scripts.
#![tactic(auto)]

ghost use Rattle.std.specs.Prelude.{All, IfOk};
ghost use Rattle.nio_mio.specs.Unasked.{IsUnasked};

use nio_base::NoGate;
use nio_bytes::{StdSink, StdSource};
use nio_mio::{MioBell, MioNet};
use nio_mio_packets::MioPackets;
use nio_run::{PROGRAM_LIMITS, run, workers_of};
use nio_script::Status;
use nio_words::Words;
use std::alloc::{AllocError, Global};
use std::net::Net;
use std::process::ExitCode;
use std::rt::Env;
use std::time::Clock;
use std::{env, io};

/// How many channels the net of packets has: that of the client, and that of the target.
const PACKET_CHANNELS: usize = 2;

/// The words of the command line, after the program's name. Where one isn't text there are none,
/// which is no command.
fn arguments(rt: &(impl Env + AllocGlobal)) -> Result<Vec<String>, AllocError> {
    match env::args(rt) {
        Ok(args) => args.skip(1).collect(rt.alloc()),
        Err(error) if error.kind() == io::ErrorKind::OutOfMemory => Err(AllocError),
        Err(_) => Ok(Vec::new(rt.alloc())),
    }
}

/// So many nets without sockets, and their bells.
fn nets_of<S: Net + Clock + Copy>(
    system: S,
    alloc: Global,
    count: usize,
) -> Result<(Vec<MioNet<S>>, Vec<MioBell>), AllocError>
    ensures { IfOk result (λ made. All IsUnasked made.0.items) }
{
    let mut nets = Vec::new(alloc);
    let mut bells = Vec::new(alloc);
    for _ in 0..count {
        let (net, bell) = MioNet::make(system, alloc)?;
        nets.push(net)?;
        bells.push(bell)?;
    }
    Ok((nets, bells))
}

/// The nets that `proxy --way many` needs beside the first, and their bells; none for other words.
fn nets_for<S: Net + Clock + Copy>(
    system: S,
    alloc: Global,
    words: &[String],
) -> Result<(Vec<MioNet<S>>, Vec<MioBell>), AllocError>
    ensures { IfOk result (λ made. All IsUnasked made.0.items) }
{
    let workers = workers_of(alloc, words)?;
    nets_of(system, alloc, workers)
}

// What a run ends with for which there is no memory.
fn out_of_memory() -> ExitCode {
    ExitCode::from(Status::Memory.code())
}

fn main(rt: HostRuntime) -> ExitCode {
    let alloc = rt.alloc();
    let Ok(words) = arguments(&rt) else {
        return out_of_memory();
    };
    let Ok((table, mut pass)) = Words::make(alloc, PROGRAM_LIMITS) else {
        return out_of_memory();
    };
    let Ok((net, bell)) = MioNet::make(rt, alloc) else {
        return out_of_memory();
    };
    let Ok((mut more, bells)) = nets_for(rt, alloc, &words) else {
        return out_of_memory();
    };
    let Ok(mut packets) = MioPackets::make(rt, alloc, PACKET_CHANNELS) else {
        return out_of_memory();
    };
    let mut input = StdSource::over(rt.reader());
    let mut output = StdSink::over(io::writer(&rt));
    let ended = run(
        &rt,
        alloc,
        &words,
        &mut input,
        &mut output,
        &table,
        &mut pass,
        net,
        &mut more,
        &mut packets,
        &bell,
        bells,
        &NoGate,
    );
    ExitCode::from(ended.status.code())
}

//! An asynchronous channel group with a handler. Two workers take the completions of the group's operations, and call
//! the handler with each. A stream is connected and read; then the handler shuts the group down.
#![tactic(auto)]

ghost use Rattle.std.specs.Prelude.{◌<◌};
ghost use Rattle.nio.specs.Queues.{IsPassOf};

use nio::group::{
    CompletionQueue, Finished, GChan, GKind, Group, GroupCore, GroupLimits, Handed, Handler,
    NoGate, OpKind, Outcome, work,
};
use std::sync::Wait;
use std::sync::atomic::{AtomicU64, Ordering};
use std::thread;

const LIMITS: GroupLimits = GroupLimits {
    channels: 1,
    flight: 64,
    ops: 1_000,
};

/// Starts a read where the stream is connected. Here it completes at once; in a server a thread that owns a net reports
/// what came of it.
#[derive(Drop)]
struct Reading {
    bytes: AtomicU64,
}

impl Handler for Reading {
    fn completed<R: Wait>(&self, rt: &R, group: &Group, done: Handed) {
        let chan = done.done().chan();
        let mut core = group.lock(rt);
        match done.done().result() {
            Finished::Connected => {
                let _ = complete(&mut core, chan, OpKind::Read, Outcome::Count(5));
            }
            Finished::Count(bytes) => {
                self.bytes.fetch_add(bytes, Ordering::SeqCst);
                core.shutdown_now();
            }
            _ => core.shutdown_now(),
        }
        drop(core);
        group.wake(rt);
    }
}

fn main(rt: HostRuntime) -> anyhow::Result<()> {
    let group = Group::make(rt.alloc(), 2, LIMITS)?;
    let (queue, mut passes) = CompletionQueue::make(rt.alloc(), 2, 64)?;
    let mut core = group.lock(&rt);
    let stream = core.open_channel(GKind::Stream)?;
    complete(&mut core, stream, OpKind::Connect, Outcome::Connected)?;
    drop(core);
    let reading = Reading {
        bytes: AtomicU64::new(0),
    };
    thread::for_each_mut(
        &rt,
        passes.as_mut_slice(),
        2,
        &|me, pass|
            requires { (me < 2) × IsPassOf queue pass.old }
        { work(&rt, &group, &queue, pass, &reading, &NoGate, me as u32) },
    );
    let bytes = reading.bytes.load(Ordering::SeqCst);
    let ended = group.await_termination(&rt).is_terminated();
    println!(rt; "read: {bytes} bytes, terminated: {ended}")?;
    Ok(())
}

/// Starts an operation, and reports its outcome.
fn complete(
    core: &mut GroupCore,
    chan: GChan,
    kind: OpKind,
    outcome: Outcome,
) -> anyhow::Result<()> {
    if core.is_made(chan) {
        let op = core.start(chan, kind, 5)?;
        core.report(op, outcome)?;
    }
    Ok(())
}

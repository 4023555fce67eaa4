//! Making the calls of a timed script.
ghost use Rattle.std.specs.Prelude.{◌≡◌, IfOk, IsOk, OnOk, OnErr};
ghost use Rattle.nio_deadline.specs.Run as step;
ghost use Rattle.nio_timed.specs.Called.{KeepsDeadline, TakesMemory, stepped, timed_left, timed_reply};
ghost use Rattle.nio_timed.specs.Called.{with_named_channel};
ghost use Rattle.nio_timed.specs.declared.call.TimedCall.TheVariants.{Group, StartTimed};

use crate::call::{TimedCall, TimedStart};
use crate::reply::{
    TimedReply, bound, closed, finished, next, opened, reported, started, taken, yes_or_no,
};
use nio_base::{GChan, OpKind};
use nio_deadline::TimedCore;
use nio_language::{GroupCall, Reply};
use std::alloc::AllocError;

/// Makes a call, and answers with its reply. Only a `start-timed` with a limit takes memory.
pub fn call_timed(timed: &mut TimedCore, call: TimedCall) -> Result<TimedReply, AllocError>
    ensures reply { IfOk result (λ reply. reply ≡ timed_reply timed.old call) }
    ensures left { OnOk result (timed.new ≡ timed_left timed.old call) }
    ensures memory { OnErr result (timed.new ≡ timed.old) }
    ensures wanted { OnErr result (TakesMemory timed.old call) }
{
    match call {
        TimedCall::Group(call) => call_group(timed, call),
        TimedCall::StartTimed(wanted) => start(timed, wanted),
        TimedCall::Expire(now) => {
            let count = timed.expire(now);
            Ok(TimedReply::Script(Reply::Number(u64::from(count))))
        }
        TimedCall::Next => Ok(next(timed.next_deadline())),
    }
}

fn call_group(timed: &mut TimedCore, call: GroupCall) -> Result<TimedReply, AllocError>
    ensures reply { IfOk result (λ reply. reply ≡ timed_reply timed.old (Group call)) }
    ensures left { OnOk result (timed.new ≡ timed_left timed.old (Group call)) }
    ensures some { IsOk result }
{
    match call {
        GroupCall::Gopen(kind) => Ok(opened(timed.open_channel(kind))),
        GroupCall::Gbind(chan) => Ok(bind(timed, chan)),
        GroupCall::Start(chan, kind, len) => start(timed, unlimited(chan, kind, len)),
        GroupCall::Report(operation, outcome) => Ok(reported(timed.report(operation, outcome))),
        GroupCall::Take => Ok(taken(timed.take())),
        GroupCall::Done(operation) => Ok(finished(timed.finish(operation))),
        GroupCall::Gclose(chan) => Ok(close_channel(timed, chan)),
        GroupCall::Shutdown => {
            timed.shutdown();
            Ok(TimedReply::Script(Reply::Ok))
        }
        GroupCall::ShutdownNow => {
            timed.shutdown_now();
            Ok(TimedReply::Script(Reply::Ok))
        }
        GroupCall::IsShutdown => Ok(yes_or_no(timed.is_shutdown())),
        GroupCall::Terminated => Ok(yes_or_no(timed.is_terminated())),
    }
}

fn unlimited(chan: GChan, kind: OpKind, len: u64) -> TimedStart
    ensures { result ≡ record { chan = chan; kind = kind; len = len; now = 0; limit = 0 } }
{
    TimedStart {
        chan,
        kind,
        len,
        now: 0,
        limit: 0,
    }
}

fn start(timed: &mut TimedCore, wanted: TimedStart) -> Result<TimedReply, AllocError>
    ensures reply { IfOk result (λ reply. reply ≡ timed_reply timed.old (StartTimed wanted)) }
    ensures left { OnOk result (timed.new ≡ timed_left timed.old (StartTimed wanted)) }
    ensures memory { OnErr result (timed.new ≡ timed.old) }
    ensures wanted { OnErr result (KeepsDeadline timed.old wanted) }
{
    let TimedStart {
        chan,
        kind,
        len,
        now,
        limit,
    } = wanted;
    if !timed.is_made(chan) {
        return Ok(TimedReply::Script(Reply::NoChannel));
    }
    started(timed.start_timed(chan, kind, len, now, limit))
}

fn bind(timed: &mut TimedCore, chan: GChan) -> TimedReply
    ensures reply { result ≡ (with_named_channel timed.old chan (stepped timed.old (step.bind chan))).reply }
    ensures left { timed.new ≡ (with_named_channel timed.old chan (stepped timed.old (step.bind chan))).left }
{
    if !timed.is_made(chan) {
        return TimedReply::Script(Reply::NoChannel);
    }
    bound(timed.bind(chan))
}

fn close_channel(timed: &mut TimedCore, chan: GChan) -> TimedReply
    ensures reply { result ≡ (with_named_channel timed.old chan (stepped timed.old (step.close_channel chan))).reply }
    ensures left { timed.new ≡ (with_named_channel timed.old chan (stepped timed.old (step.close_channel chan))).left }
{
    if !timed.is_made(chan) {
        return TimedReply::Script(Reply::NoChannel);
    }
    closed(timed.close_channel(chan))
}

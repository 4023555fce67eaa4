//! Worked runs of a group with time limits, as tables of calls and replies.
use nio_base::{Finished, GChan, GKind, OpKind, OpNo, Outcome, Why};
use nio_deadline::{TimedCore, TimedError, TimedResult};
use nio_group::{GroupLimits, NotRunning, ReportError, StartError};
use std::test::Fail;

#[derive(Clone, Copy, Debug)]
enum Call {
    Open(GKind),
    Bind(GChan),
    Start(GChan, OpKind, u64, u64, u64),
    Job(GChan, OpKind),
    Report(u64, Outcome),
    Expire(u64),
    Next,
    Take,
    Finish(u64),
    Close(GChan),
    Shutdown,
    ShutdownNow,
    IsShutdown,
    IsTerminated,
}

#[derive(Clone, Copy, Debug, PartialEq, Eq)]
enum Reply {
    Opened(GChan),
    Started(u64),
    Working(u64),
    Completed(u64, TimedResult),
    Counted(u64),
    Nothing,
    Done,
    Is(bool),
    NotOpened(StartError),
    Refused(TimedError),
    NotReported(ReportError),
    NotRunning,
    NoChannel,
}

/// The reply to a call, where its channel is made.
fn reply_to(timed: &mut TimedCore, call: Call) -> Reply {
    match call {
        Call::Open(kind) => match timed.open_channel(kind) {
            Ok(chan) => Reply::Opened(chan),
            Err(refused) => Reply::NotOpened(refused),
        },
        Call::Bind(chan) if timed.is_made(chan) => match timed.bind(chan) {
            Ok(()) => Reply::Done,
            Err(refused) => Reply::NotOpened(refused),
        },
        Call::Start(chan, kind, len, now, limit) if timed.is_made(chan) => {
            match timed.start_timed(chan, kind, len, now, limit) {
                Ok(op) => Reply::Started(op.0),
                Err(refused) => Reply::Refused(refused),
            }
        }
        Call::Job(chan, kind) if timed.is_made(chan) => match timed.job(chan, kind) {
            Some(job) => Reply::Working(job.op().0),
            None => Reply::Nothing,
        },
        Call::Report(op, outcome) => match timed.report(OpNo(op), outcome) {
            Ok(()) => Reply::Done,
            Err(refused) => Reply::NotReported(refused),
        },
        Call::Expire(now) => Reply::Counted(u64::from(timed.expire(now))),
        Call::Next => match timed.next_deadline() {
            Some(at) => Reply::Counted(at),
            None => Reply::Nothing,
        },
        Call::Take => match timed.take() {
            Some(done) => Reply::Completed(done.op.0, done.result),
            None => Reply::Nothing,
        },
        Call::Finish(op) => match timed.finish(OpNo(op)) {
            Ok(()) => Reply::Done,
            Err(NotRunning) => Reply::NotRunning,
        },
        Call::Close(chan) if timed.is_made(chan) => Reply::Is(timed.close_channel(chan)),
        Call::Shutdown => {
            timed.shutdown();
            Reply::Done
        }
        Call::ShutdownNow => {
            timed.shutdown_now();
            Reply::Done
        }
        Call::IsShutdown => Reply::Is(timed.is_shutdown()),
        Call::IsTerminated => Reply::Is(timed.is_terminated()),
        Call::Bind(_) | Call::Start(_, _, _, _, _) | Call::Job(_, _) | Call::Close(_) => {
            Reply::NoChannel
        }
    }
}

const G0: GChan = GChan {
    number: 0,
    serial: 0,
};

const G1: GChan = GChan {
    number: 1,
    serial: 0,
};

const CONNECT: OpKind = OpKind::Connect;

const READ: OpKind = OpKind::Read;

const WRITE: OpKind = OpKind::Write;

const LATE: TimedResult = TimedResult::InterruptedByTimeout;

const LAST_MOMENT: u64 = 18_446_744_073_709_551_615;

/// A stream is opened and connected; this is operation 0.
const CONNECTED: &[(Call, Reply)] = &[
    (Call::Open(GKind::Stream), Reply::Opened(G0)),
    (Call::Start(G0, CONNECT, 0, 0, 0), Reply::Started(0)),
    (Call::Report(0, Outcome::Connected), Reply::Done),
    (
        Call::Take,
        Reply::Completed(0, TimedResult::Core(Finished::Connected)),
    ),
    (Call::Finish(0), Reply::Done),
];

const OPERATION_TIMES_OUT: &[(Call, Reply)] = &[
    (Call::Start(G0, READ, 10, 100, 50), Reply::Started(1)),
    (Call::Job(G0, READ), Reply::Working(1)),
    (Call::Next, Reply::Counted(150)),
    (Call::Expire(149), Reply::Counted(0)),
    (Call::Expire(150), Reply::Counted(1)),
    (
        Call::Report(1, Outcome::Count(3)),
        Reply::NotReported(ReportError::NotPending),
    ),
    (Call::Take, Reply::Completed(1, LATE)),
    (
        Call::Start(G0, READ, 10, 200, 0),
        Reply::Refused(TimedError::TimedOut),
    ),
    (Call::Start(G0, WRITE, 3, 200, 5), Reply::Started(2)),
    (Call::Report(2, Outcome::Count(3)), Reply::Done),
    (Call::Expire(900), Reply::Counted(0)),
    (
        Call::Take,
        Reply::Completed(2, TimedResult::Core(Finished::Count(3))),
    ),
    (Call::Next, Reply::Nothing),
    // The refusals in their order: the first cause is told.
    (
        Call::Start(G0, CONNECT, 0, LAST_MOMENT, 1),
        Reply::Refused(TimedError::NoLimitHere),
    ),
    (
        Call::Start(G0, READ, 1, LAST_MOMENT, 1),
        Reply::Refused(TimedError::LimitTooLong),
    ),
    (Call::Close(G0), Reply::Is(true)),
    (Call::Start(G0, READ, 1, 0, 1), Reply::Started(3)),
    (Call::Next, Reply::Nothing),
    (
        Call::Take,
        Reply::Completed(3, TimedResult::Core(Finished::Failed(Why::ClosedChannel))),
    ),
];

const LIMITS_THAT_ARE_REFUSED: &[(Call, Reply)] = &[
    (Call::Open(GKind::Stream), Reply::Opened(G0)),
    (
        Call::Start(G0, CONNECT, 0, 0, 5),
        Reply::Refused(TimedError::NoLimitHere),
    ),
    (
        Call::Start(G0, READ, 1, LAST_MOMENT, 1),
        Reply::Refused(TimedError::LimitTooLong),
    ),
    (
        Call::Start(G0, READ, 1, 0, 1),
        Reply::Refused(TimedError::Start(StartError::NotYetConnected)),
    ),
    (Call::Next, Reply::Nothing),
    (Call::Bind(G0), Reply::NotOpened(StartError::WrongKind)),
    (Call::Bind(G1), Reply::NoChannel),
];

const TWO_WITH_ONE_DEADLINE: &[(Call, Reply)] = &[
    (Call::Start(G0, WRITE, 1, 0, LAST_MOMENT), Reply::Started(1)),
    (Call::Start(G0, READ, 1, LAST_MOMENT, 0), Reply::Started(2)),
    (Call::Report(2, Outcome::End), Reply::Done),
    (
        Call::Start(G0, READ, 1, 5, LAST_MOMENT - 5),
        Reply::Started(3),
    ),
    (Call::Next, Reply::Counted(LAST_MOMENT)),
    (Call::Expire(LAST_MOMENT - 1), Reply::Counted(0)),
    (Call::Expire(LAST_MOMENT), Reply::Counted(2)),
    (
        Call::Take,
        Reply::Completed(2, TimedResult::Core(Finished::End)),
    ),
    (Call::Take, Reply::Completed(1, LATE)),
    (Call::Take, Reply::Completed(3, LATE)),
    (Call::Take, Reply::Nothing),
    (Call::Finish(3), Reply::Done),
    (Call::Finish(3), Reply::NotRunning),
];

const REPORTED_AT_THE_DEADLINE: &[(Call, Reply)] = &[
    (Call::Start(G0, READ, 8, 10, 5), Reply::Started(1)),
    (Call::Start(G0, WRITE, 8, 10, 4), Reply::Started(2)),
    (Call::Next, Reply::Counted(14)),
    (Call::Report(1, Outcome::Count(8)), Reply::Done),
    (Call::Expire(15), Reply::Counted(1)),
    (
        Call::Take,
        Reply::Completed(1, TimedResult::Core(Finished::Count(8))),
    ),
    (Call::Take, Reply::Completed(2, LATE)),
    (Call::Start(G0, READ, 8, 15, 0), Reply::Started(3)),
];

const SHUTDOWN_WITH_DEADLINES: &[(Call, Reply)] = &[
    (Call::Start(G0, READ, 8, 0, 5), Reply::Started(1)),
    (Call::Start(G0, WRITE, 8, 0, 6), Reply::Started(2)),
    (Call::Shutdown, Reply::Done),
    (Call::IsShutdown, Reply::Is(true)),
    (Call::Expire(5), Reply::Counted(1)),
    (Call::ShutdownNow, Reply::Done),
    (Call::Next, Reply::Nothing),
    (Call::Expire(6), Reply::Counted(0)),
    (Call::Take, Reply::Completed(1, LATE)),
    (Call::Finish(1), Reply::Done),
    (
        Call::Take,
        Reply::Completed(
            2,
            TimedResult::Core(Finished::Failed(Why::AsynchronousClose)),
        ),
    ),
    (Call::IsTerminated, Reply::Is(false)),
    (Call::Finish(2), Reply::Done),
    (Call::IsTerminated, Reply::Is(true)),
];

#[test]
fn runs_with_time_limits(rt: HostRuntime) -> Result<(), Fail> {
    let limits = GroupLimits {
        channels: 4,
        flight: 4,
        ops: 16,
    };
    let rows: [(&str, &[(Call, Reply)], &[(Call, Reply)]); 5] = [
        ("operation_times_out", CONNECTED, OPERATION_TIMES_OUT),
        ("limits_that_are_refused", &[], LIMITS_THAT_ARE_REFUSED),
        ("two_with_one_deadline", CONNECTED, TWO_WITH_ONE_DEADLINE),
        (
            "reported_at_the_deadline",
            CONNECTED,
            REPORTED_AT_THE_DEADLINE,
        ),
        (
            "shutdown_with_deadlines",
            CONNECTED,
            SHUTDOWN_WITH_DEADLINES,
        ),
    ];
    for (name, before, calls) in rows {
        let mut timed = TimedCore::make(rt.alloc(), limits)?;
        for (call, reply) in before.iter().chain(calls) {
            assert_eq!(rt; reply_to(&mut timed, *call), *reply, "{name}: {call:?}");
        }
    }
    Ok(())
}

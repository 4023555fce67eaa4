//! Worked runs of a group as tables of calls and replies.
use nio_base::{GChan, OpNo};
use nio_group::*;
use std::test::Fail;

#[derive(Clone, Copy, Debug)]
enum Call {
    Open(GKind),
    Bind(GChan),
    Start(GChan, OpKind, u64),
    Job(GChan, OpKind),
    Report(u64, Outcome),
    Take,
    Finish(u64),
    Close(GChan),
    IsOpen(GChan),
    Shutdown,
    ShutdownNow,
    IsShutdown,
    IsTerminated,
}

#[derive(Clone, Copy, Debug, PartialEq, Eq)]
enum Reply {
    Opened(GChan),
    Started(u64),
    Working(u64, u64),
    Completed(u64, Finished),
    Nothing,
    Done,
    Is(bool),
    Refused(StartError),
    NotReported(ReportError),
    NotRunning,
    NoChannel,
}

/// The reply to a call.
fn reply_to(group: &mut GroupCore, call: Call) -> Reply {
    match call {
        Call::Open(kind) => match group.open_channel(kind) {
            Ok(chan) => Reply::Opened(chan),
            Err(refused) => Reply::Refused(refused),
        },
        Call::Bind(_) | Call::Start(_, _, _) | Call::Job(_, _) | Call::Close(_) | Call::IsOpen(_) =>
            { reply_on(group, call) }
        Call::Report(op, outcome) => match group.report(OpNo(op), outcome) {
            Ok(()) => Reply::Done,
            Err(refused) => Reply::NotReported(refused),
        },
        Call::Take => match group.take() {
            Some(done) => Reply::Completed(done.op().0, done.result()),
            None => Reply::Nothing,
        },
        Call::Finish(op) => match group.finish(OpNo(op)) {
            Ok(()) => Reply::Done,
            Err(NotRunning) => Reply::NotRunning,
        },
        Call::Shutdown => {
            group.shutdown();
            Reply::Done
        }
        Call::ShutdownNow => {
            group.shutdown_now();
            Reply::Done
        }
        Call::IsShutdown => Reply::Is(group.is_shutdown()),
        Call::IsTerminated => Reply::Is(group.is_terminated()),
    }
}

/// The reply to a call on a channel, where that was made.
fn reply_on(group: &mut GroupCore, call: Call) -> Reply {
    match call {
        Call::Bind(chan) if group.is_made(chan) => match group.bind(chan) {
            Ok(()) => Reply::Done,
            Err(refused) => Reply::Refused(refused),
        },
        Call::Start(chan, kind, len) if group.is_made(chan) => match group.start(chan, kind, len) {
            Ok(op) => Reply::Started(op.0),
            Err(refused) => Reply::Refused(refused),
        },
        Call::Job(chan, kind) if group.is_made(chan) => match group.job(chan, kind) {
            Some(job) => Reply::Working(job.op().0, job.len()),
            None => Reply::Nothing,
        },
        Call::Close(chan) if group.is_made(chan) => Reply::Is(group.close_channel(chan)),
        Call::IsOpen(chan) if group.is_made(chan) => Reply::Is(group.is_open(chan)),
        _ => Reply::NoChannel,
    }
}

const G0: GChan = GChan {
    number: 0,
    serial: 0,
};

const G1: GChan = GChan {
    number: 1,
    serial: 0,
};

const G2: GChan = GChan {
    number: 2,
    serial: 0,
};

const G3: GChan = GChan {
    number: 3,
    serial: 0,
};

/// The second channel with the number 1, and the third.
const G1_1: GChan = GChan {
    number: 1,
    serial: 1,
};

const G1_2: GChan = GChan {
    number: 1,
    serial: 2,
};

const G2_1: GChan = GChan {
    number: 2,
    serial: 1,
};

const ACCEPT: OpKind = OpKind::Accept;

const CONNECT: OpKind = OpKind::Connect;

const READ: OpKind = OpKind::Read;

const WRITE: OpKind = OpKind::Write;

const GROUP_SHUTDOWN_NOW: &[(Call, Reply)] = &[
    (Call::Open(GKind::Stream), Reply::Opened(G0)),
    (
        Call::Start(G0, READ, 10),
        Reply::Refused(StartError::NotYetConnected),
    ),
    (Call::Start(G0, CONNECT, 0), Reply::Started(0)),
    (Call::Job(G0, CONNECT), Reply::Working(0, 0)),
    (Call::Report(0, Outcome::Connected), Reply::Done),
    (Call::Job(G0, CONNECT), Reply::Nothing),
    (Call::Take, Reply::Completed(0, Finished::Connected)),
    (Call::Finish(0), Reply::Done),
    (Call::Start(G0, READ, 10), Reply::Started(1)),
    (
        Call::Start(G0, READ, 10),
        Reply::Refused(StartError::ReadPending),
    ),
    (Call::IsShutdown, Reply::Is(false)),
    (Call::ShutdownNow, Reply::Done),
    (Call::IsShutdown, Reply::Is(true)),
    (Call::IsTerminated, Reply::Is(false)),
    (
        Call::Take,
        Reply::Completed(1, Finished::Failed(Why::AsynchronousClose)),
    ),
    (Call::IsTerminated, Reply::Is(false)),
    (Call::Finish(1), Reply::Done),
    (Call::IsTerminated, Reply::Is(true)),
    (
        Call::Start(G0, READ, 1),
        Reply::Refused(StartError::ShutdownGroup),
    ),
    (Call::Take, Reply::Nothing),
    (
        Call::Open(GKind::Stream),
        Reply::Refused(StartError::ShutdownGroup),
    ),
];

const ACCEPT_AFTER_SHUTDOWN: &[(Call, Reply)] = &[
    (Call::Open(GKind::Listener), Reply::Opened(G0)),
    (
        Call::Start(G0, ACCEPT, 0),
        Reply::Refused(StartError::NotYetBound),
    ),
    (Call::Bind(G0), Reply::Done),
    (Call::Bind(G0), Reply::Refused(StartError::AlreadyBound)),
    (Call::Start(G0, ACCEPT, 0), Reply::Started(0)),
    (
        Call::Start(G0, ACCEPT, 0),
        Reply::Refused(StartError::AcceptPending),
    ),
    (Call::Shutdown, Reply::Done),
    (Call::Report(0, Outcome::Accepted), Reply::Done),
    (
        Call::Take,
        Reply::Completed(0, Finished::Failed(Why::ShutdownGroup)),
    ),
    (
        Call::Report(0, Outcome::Accepted),
        Reply::NotReported(ReportError::NotPending),
    ),
];

const ACCEPTED_STREAM: &[(Call, Reply)] = &[
    (Call::Open(GKind::Listener), Reply::Opened(G0)),
    (
        Call::Start(G0, ACCEPT, 0),
        Reply::Refused(StartError::NotYetBound),
    ),
    (Call::Bind(G0), Reply::Done),
    (Call::Start(G0, ACCEPT, 0), Reply::Started(0)),
    (Call::Report(0, Outcome::Accepted), Reply::Done),
    (Call::Take, Reply::Completed(0, Finished::Accepted(G1))),
    (Call::Start(G1, READ, 0), Reply::Started(1)),
    (Call::Take, Reply::Completed(1, Finished::Count(0))),
    (Call::Start(G1, READ, 5), Reply::Started(2)),
    (
        Call::Report(2, Outcome::Count(6)),
        Reply::NotReported(ReportError::WrongOutcome),
    ),
    (Call::Report(2, Outcome::End), Reply::Done),
    (Call::Take, Reply::Completed(2, Finished::End)),
    (Call::Close(G1), Reply::Is(true)),
    (Call::Close(G1), Reply::Is(false)),
    (Call::Start(G1, WRITE, 3), Reply::Started(3)),
    (
        Call::Take,
        Reply::Completed(3, Finished::Failed(Why::ClosedChannel)),
    ),
];

const GROUP_LIMITS: &[(Call, Reply)] = &[
    (Call::Open(GKind::Listener), Reply::Opened(G0)),
    (
        Call::Open(GKind::Listener),
        Reply::Refused(StartError::ChannelsSpent),
    ),
    (Call::Bind(G0), Reply::Done),
    (Call::Start(G0, ACCEPT, 0), Reply::Started(0)),
    (Call::Report(0, Outcome::Accepted), Reply::Done),
    (
        Call::Take,
        Reply::Completed(0, Finished::Failed(Why::ChannelsSpent)),
    ),
    (
        Call::Start(G0, ACCEPT, 0),
        Reply::Refused(StartError::FlightFull),
    ),
    (Call::Finish(0), Reply::Done),
    (Call::Finish(0), Reply::NotRunning),
    (Call::Start(G0, ACCEPT, 0), Reply::Started(1)),
    (Call::Close(G0), Reply::Is(true)),
    (
        Call::Take,
        Reply::Completed(1, Finished::Failed(Why::AsynchronousClose)),
    ),
    (Call::Finish(1), Reply::Done),
    (
        Call::Start(G0, ACCEPT, 0),
        Reply::Refused(StartError::OpsSpent),
    ),
];

/// After the last number the least comes back whose channel is closed, of that kind, and without an operation in flight.
const NUMBERS_COME_BACK: &[(Call, Reply)] = &[
    (Call::Open(GKind::Listener), Reply::Opened(G0)),
    (Call::Open(GKind::Stream), Reply::Opened(G1)),
    (Call::Close(G1), Reply::Is(true)),
    (Call::Open(GKind::Stream), Reply::Opened(G2)),
    (Call::Open(GKind::Stream), Reply::Opened(G3)),
    (Call::Close(G2), Reply::Is(true)),
    (
        Call::Open(GKind::Listener),
        Reply::Refused(StartError::ChannelsSpent),
    ),
    (Call::Start(G1, READ, 1), Reply::Started(0)),
    (Call::Open(GKind::Stream), Reply::Opened(G2_1)),
    (
        Call::Open(GKind::Stream),
        Reply::Refused(StartError::ChannelsSpent),
    ),
    (
        Call::Take,
        Reply::Completed(0, Finished::Failed(Why::ClosedChannel)),
    ),
    (
        Call::Open(GKind::Stream),
        Reply::Refused(StartError::ChannelsSpent),
    ),
    (Call::Finish(0), Reply::Done),
    (Call::Open(GKind::Stream), Reply::Opened(G1_1)),
    (Call::IsOpen(G1_1), Reply::Is(true)),
    (Call::IsOpen(G2_1), Reply::Is(true)),
];

/// The first channel with the number 1 is closed for good, at every call.
const OLD_NAMES: &[(Call, Reply)] = &[
    (Call::Open(GKind::Listener), Reply::Opened(G0)),
    (Call::Open(GKind::Listener), Reply::Opened(G1)),
    (Call::Open(GKind::Listener), Reply::Opened(G2)),
    (Call::Open(GKind::Listener), Reply::Opened(G3)),
    (Call::Close(G1), Reply::Is(true)),
    (Call::Bind(G1_1), Reply::NoChannel),
    (Call::Open(GKind::Listener), Reply::Opened(G1_1)),
    (Call::Start(G1_2, ACCEPT, 0), Reply::NoChannel),
    (Call::IsOpen(G1), Reply::Is(false)),
    (Call::Bind(G1), Reply::Refused(StartError::ClosedChannel)),
    (Call::Bind(G1_1), Reply::Done),
    (Call::Start(G1_1, ACCEPT, 0), Reply::Started(0)),
    (Call::Start(G1, ACCEPT, 0), Reply::Started(1)),
    (
        Call::Start(G1, READ, 1),
        Reply::Refused(StartError::WrongKind),
    ),
    (Call::Job(G1, ACCEPT), Reply::Nothing),
    (Call::Job(G1_1, ACCEPT), Reply::Working(0, 0)),
    (Call::Close(G1), Reply::Is(false)),
    (Call::IsOpen(G1_1), Reply::Is(true)),
    (
        Call::Take,
        Reply::Completed(1, Finished::Failed(Why::ClosedChannel)),
    ),
    // an operation of the first channel is in flight, and none of the second
    (Call::Close(G1_1), Reply::Is(true)),
    (
        Call::Take,
        Reply::Completed(0, Finished::Failed(Why::AsynchronousClose)),
    ),
    (Call::Finish(0), Reply::Done),
    (Call::Open(GKind::Listener), Reply::Opened(G1_2)),
    (Call::Finish(1), Reply::Done),
    (Call::IsOpen(G1_2), Reply::Is(true)),
];

/// An accepted connection takes a number that came back.
const ACCEPTED_AGAIN: &[(Call, Reply)] = &[
    (Call::Open(GKind::Listener), Reply::Opened(G0)),
    (Call::Bind(G0), Reply::Done),
    (Call::Open(GKind::Stream), Reply::Opened(G1)),
    (Call::Open(GKind::Stream), Reply::Opened(G2)),
    (Call::Open(GKind::Stream), Reply::Opened(G3)),
    (Call::Start(G0, ACCEPT, 0), Reply::Started(0)),
    (Call::Report(0, Outcome::Accepted), Reply::Done),
    (
        Call::Take,
        Reply::Completed(0, Finished::Failed(Why::ChannelsSpent)),
    ),
    (Call::Finish(0), Reply::Done),
    (Call::Close(G2), Reply::Is(true)),
    (Call::Start(G0, ACCEPT, 0), Reply::Started(1)),
    (Call::Report(1, Outcome::Accepted), Reply::Done),
    (Call::Take, Reply::Completed(1, Finished::Accepted(G2_1))),
    (Call::Finish(1), Reply::Done),
    (Call::Start(G2_1, READ, 5), Reply::Started(2)),
    (Call::Start(G2, READ, 5), Reply::Started(3)),
    (Call::Job(G2_1, READ), Reply::Working(2, 5)),
];

#[test]
fn runs_of_a_group(rt: HostRuntime) -> Result<(), Fail> {
    let limits = GroupLimits {
        channels: 4,
        flight: 4,
        ops: 16,
    };
    let narrow = GroupLimits {
        channels: 1,
        flight: 1,
        ops: 2,
    };
    let rows = [
        ("group_shutdown_now", limits, GROUP_SHUTDOWN_NOW),
        ("accept_after_shutdown", limits, ACCEPT_AFTER_SHUTDOWN),
        ("accepted_stream", limits, ACCEPTED_STREAM),
        ("group_limits", narrow, GROUP_LIMITS),
        ("numbers_come_back", limits, NUMBERS_COME_BACK),
        ("old_names", limits, OLD_NAMES),
        ("accepted_again", limits, ACCEPTED_AGAIN),
    ];
    for (name, limits, calls) in rows {
        let mut group = GroupCore::make(rt.alloc(), limits)?;
        for (call, reply) in calls {
            assert_eq!(rt; reply_to(&mut group, *call), *reply, "{name}: {call:?}");
        }
    }
    Ok(())
}

/// Opens streams and closes them, one after another. Answers the name of the last one.
fn open_and_close(group: &mut GroupCore, count: u32) -> Result<Option<GChan>, StartError> {
    let mut last = None;
    for _ in 0..count {
        let chan = group.open_channel(GKind::Stream)?;
        if group.is_made(chan) {
            group.close_channel(chan);
        }
        last = Some(chan);
    }
    Ok(last)
}

#[test]
fn many_channels_of_a_small_group(rt: HostRuntime) -> Result<(), Fail> {
    let limits = GroupLimits {
        channels: 4,
        flight: 4,
        ops: 16,
    };
    let mut group = GroupCore::make(rt.alloc(), limits)?;
    let last = open_and_close(&mut group, 100_000)?;
    let wanted = GChan {
        number: 0,
        serial: 99_996,
    };
    assert_eq!(rt; last, Some(wanted));
    assert_eq!(rt; group.channels(), 4);
    Ok(())
}

//! How many threads a group may have, and what tests do with its core.
ghost use Rattle.std.specs.Prelude.{◌≤◌};
ghost use Rattle.nio_group.specs.Limits.{IsFit};

use nio_base::{GChan, OpNo};
use nio_group::{GKind, GroupCore, GroupLimits, OpKind, Outcome, StartError};
use nio_pool::{Group, GroupError};
use std::test::Fail;

/// The one channel.
const STREAM: GChan = GChan {
    number: 0,
    serial: 0,
};

/// One channel, and so many operations in all.
pub fn limits(ops: u64) -> GroupLimits
    requires { (1 ≤ ops) × (ops ≤ 1000000) }
    ensures { IsFit result }
{
    GroupLimits {
        channels: 1,
        flight: 65_536,
        ops,
    }
}

/// Opens a stream and closes it. An operation on it completes at once.
pub fn close_stream(core: &mut GroupCore) -> Result<(), StartError> {
    let chan = core.open_channel(GKind::Stream)?;
    if core.is_made(chan) {
        core.close_channel(chan);
    }
    Ok(())
}

/// Opens a stream and connects it.
pub fn connect_stream(core: &mut GroupCore) -> Result<(), Fail> {
    let chan = core.open_channel(GKind::Stream)?;
    if core.is_made(chan) {
        let connect = core.start(chan, OpKind::Connect, 0)?;
        core.report(connect, Outcome::Connected)?;
    }
    Ok(())
}

pub fn close(core: &mut GroupCore) {
    if core.is_made(STREAM) {
        core.close_channel(STREAM);
    }
}

/// Starts a read of one byte.
pub fn start_read(core: &mut GroupCore) -> Result<OpNo, StartError> {
    if !core.is_made(STREAM) {
        return Err(StartError::ClosedChannel);
    }
    core.start(STREAM, OpKind::Read, 1)
}

#[test]
fn group_limits(rt: HostRuntime) -> Result<(), Fail> {
    for (threads, refused) in [(-1, true), (0, true), (1, false), (64, false), (65, true)] {
        let made = Group::make(rt.alloc(), threads, limits(2));
        let bad = matches!(&made, Err(GroupError::BadThreads));
        assert_eq!(rt;
            (made.is_err(), bad),
            (refused, refused),
            "{threads} threads"
        );
    }
    Ok(())
}

//! The replies of timed scripts, and which reply an answer of the group is.
ghost use Rattle.std.specs.Prelude.{◌≡◌, ◌≢◌, IfOk, OnErr, OnOk};
ghost use Rattle.nio_deadline.specs.Run as step;
ghost use Rattle.nio_plain.specs.Seq.Replies as plain;
ghost use Rattle.nio_timed.specs.Called.{next_reply, timed_line_reply};
ghost use Rattle.nio_timed.specs.declared.reply.TimedReply.TheVariants.{Script};

use nio_base::{GChan, OpNo};
use nio_deadline::{TimedDone, TimedError, TimedResult};
use nio_group::{NotRunning, ReportError, StartError};
use nio_language::{GroupReply, Reply};
use nio_plain::{group_replies, replies};
use std::alloc::AllocError;

/// A reply of a timed script.
#[derive(Debug, Drop)]
pub enum TimedReply {
    /// A reply that scripts have too.
    Script(Reply),
    /// `no-limit-here`: only a read and a write may have a limit.
    NoLimitHere,
    /// `limit-too-long`: the deadline is past the last moment, 18,446,744,073,709,551,615.
    LimitTooLong,
    /// `timed-out`: an earlier operation of this kind on the channel timed out.
    TimedOut,
    /// `op N timeout`: the operation has completed since its limit passed first.
    Timeout(OpNo),
}

pub(crate) fn opened(answer: Result<GChan, StartError>) -> TimedReply
    ensures { result ≡ timed_line_reply (step.opened answer) }
{
    TimedReply::Script(group_replies::opened(answer))
}

pub(crate) fn bound(answer: Result<(), StartError>) -> TimedReply
    ensures { result ≡ timed_line_reply (step.bound answer) }
{
    TimedReply::Script(group_replies::bound(answer))
}

pub(crate) fn started(answer: Result<OpNo, TimedError>) -> Result<TimedReply, AllocError>
    ensures ok { IfOk result (λ reply. reply ≡ timed_line_reply (step.started answer)) }
    ensures some { OnOk result (answer ≢ Err TimedError.Memory) }
    ensures memory { OnErr result (answer ≡ Err TimedError.Memory) }
{
    match answer {
        Ok(op) => Ok(TimedReply::Script(Reply::Group(GroupReply::Op(op)))),
        Err(TimedError::NoLimitHere) => Ok(TimedReply::NoLimitHere),
        Err(TimedError::LimitTooLong) => Ok(TimedReply::LimitTooLong),
        Err(TimedError::TimedOut) => Ok(TimedReply::TimedOut),
        Err(TimedError::Memory) => Err(AllocError),
        Err(TimedError::Start(refusal)) => {
            Ok(TimedReply::Script(group_replies::start_refusal(refusal)))
        },
    }
}

pub(crate) fn reported(answer: Result<(), ReportError>) -> TimedReply
    ensures { result ≡ timed_line_reply (step.reported answer) }
{
    TimedReply::Script(group_replies::reported(answer))
}

pub(crate) fn taken(answer: Option<TimedDone>) -> TimedReply
    ensures { result ≡ timed_line_reply (step.taken answer) }
{
    let Some(done) = answer else {
        return TimedReply::Script(Reply::None);
    };
    match done.result {
        TimedResult::Core(finished) => {
            TimedReply::Script(Reply::Group(GroupReply::Completed(done.op, finished)))
        }
        TimedResult::InterruptedByTimeout => TimedReply::Timeout(done.op),
    }
}

pub(crate) fn finished(answer: Result<(), NotRunning>) -> TimedReply
    ensures { result ≡ timed_line_reply (step.finished answer) }
{
    TimedReply::Script(group_replies::finished(answer))
}

pub(crate) fn closed(was_open: bool) -> TimedReply
    ensures { result ≡ timed_line_reply (step.closed was_open) }
{
    TimedReply::Script(group_replies::closed(was_open))
}

pub(crate) fn next(deadline: Option<u64>) -> TimedReply
    ensures { result ≡ Script (next_reply deadline) }
{
    match deadline {
        None => TimedReply::Script(Reply::None),
        Some(at) => TimedReply::Script(Reply::Number(at)),
    }
}

pub(crate) fn yes_or_no(yes: bool) -> TimedReply
    ensures { result ≡ Script (plain.yes_or_no yes) }
{
    TimedReply::Script(replies::yes_or_no(yes))
}

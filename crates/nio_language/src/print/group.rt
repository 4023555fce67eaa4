//! Writing the arguments of calls on the group, each after a space, and the replies that these calls alone have.
ghost use Rattle.std.specs.Prelude.{◌≡◌, ◌∷◌, ◌++◌, OnOk};
ghost use Rattle.std.specs.List.{join_with_byte};
ghost use Rattle.nio_language.specs.GroupCalls.{group_argument_words};
ghost use Rattle.nio_language.specs.GroupReplies.{group_reply_words};
ghost use Rattle.nio_language.specs.GroupWords.{failure_word, finished_words, group_kind_word, operation_kind_word};
ghost use Rattle.nio_language.specs.GroupWords.{group_channel_word, operation_word, outcome_words};
ghost use Rattle.nio_language.specs.Printing.{spaced};

use super::piece::{
    push_bytes, push_number, push_number_word, push_numbered, push_serial, push_word,
};
use crate::group_call::GroupCall;
use crate::group_reply::GroupReply;
use nio_base::{Finished, GChan, GKind, OpKind, OpNo, Outcome, Why};
use std::alloc::AllocError;

/// The arguments of a call on the group, each after a space.
pub fn push_group_arguments(line: &mut Vec<u8>, call: GroupCall) -> Result<(), AllocError>
    ensures { OnOk result (line.new.items ≡ line.old.items ++ spaced (group_argument_words call)) }
{
    match call {
        GroupCall::Gopen(kind) => push_word(line, kind_text(kind)),
        GroupCall::Gbind(channel) | GroupCall::Gclose(channel) => push_channel_word(line, channel),
        GroupCall::Start(channel, kind, len) => push_start(line, channel, kind, len),
        GroupCall::Report(operation, outcome) => {
            push_number_word(line, operation.0)?;
            push_outcome(line, outcome)
        }
        GroupCall::Done(operation) => push_number_word(line, operation.0),
        GroupCall::Take
        | GroupCall::Shutdown
        | GroupCall::ShutdownNow
        | GroupCall::IsShutdown
        | GroupCall::Terminated => Ok(()),
    }
}

/// A channel's name.
fn push_channel(line: &mut Vec<u8>, channel: GChan) -> Result<(), AllocError>
    ensures { OnOk result (line.new.items ≡ line.old.items ++ group_channel_word channel) }
{
    push_numbered(line, b'g', channel.number)?;
    push_serial(line, channel.serial)
}

/// A space and a channel's name.
fn push_channel_word(line: &mut Vec<u8>, channel: GChan) -> Result<(), AllocError>
    ensures { OnOk result (line.new.items ≡ line.old.items ++ 32 ∷ group_channel_word channel) }
{
    line.push(b' ')?;
    push_channel(line, channel)
}

fn push_start(line: &mut Vec<u8>, channel: GChan, kind: OpKind, len: u64) -> Result<(), AllocError>
    ensures { OnOk result
        (line.new.items ≡ line.old.items ++ spaced (group_argument_words (GroupCall.Start channel kind len))) }
{
    push_channel_word(line, channel)?;
    push_word(line, operation_kind_text(kind))?;
    push_number_word(line, len)
}

fn push_outcome(line: &mut Vec<u8>, outcome: Outcome) -> Result<(), AllocError>
    ensures { OnOk result (line.new.items ≡ line.old.items ++ spaced (outcome_words outcome)) }
{
    match outcome {
        Outcome::Count(count) => {
            push_word(line, b"count")?;
            push_number_word(line, count)
        }
        Outcome::End => push_word(line, b"end"),
        Outcome::Connected => push_word(line, b"connected"),
        Outcome::Accepted => push_word(line, b"accepted"),
        Outcome::Fault => push_word(line, b"fault"),
    }
}

/// The text of a reply that calls on the group alone have.
pub fn push_group_reply(line: &mut Vec<u8>, reply: GroupReply) -> Result<(), AllocError>
    ensures { OnOk result (line.new.items ≡ line.old.items ++ join_with_byte 32 (group_reply_words reply)) }
{
    match reply {
        GroupReply::Channel(channel) => push_channel(line, channel),
        GroupReply::Op(operation) => {
            push_bytes(line, b"op ")?;
            push_number(line, operation.0)
        }
        GroupReply::Completed(operation, finished) => {
            push_bytes(line, b"op")?;
            push_completion(line, operation, finished)
        }
        GroupReply::ShutdownGroup => push_bytes(line, b"shutdown-group"),
        GroupReply::WrongKind => push_bytes(line, b"wrong-kind"),
        GroupReply::AlreadyBound => push_bytes(line, b"already-bound"),
        GroupReply::AlreadyConnected => push_bytes(line, b"already-connected"),
        GroupReply::ConnectionPending => push_bytes(line, b"connection-pending"),
        GroupReply::NotYetConnected => push_bytes(line, b"not-yet-connected"),
        GroupReply::NotYetBound => push_bytes(line, b"not-yet-bound"),
        GroupReply::ReadPending => push_bytes(line, b"read-pending"),
        GroupReply::WritePending => push_bytes(line, b"write-pending"),
        GroupReply::AcceptPending => push_bytes(line, b"accept-pending"),
        GroupReply::OpsSpent => push_bytes(line, b"ops-spent"),
        GroupReply::FlightFull => push_bytes(line, b"flight-full"),
        GroupReply::NotPending => push_bytes(line, b"not-pending"),
        GroupReply::WrongOutcome => push_bytes(line, b"wrong-outcome"),
        GroupReply::NotRunning => push_bytes(line, b"not-running"),
    }
}

/// An operation and its result, each word after a space.
fn push_completion(
    line: &mut Vec<u8>,
    operation: OpNo,
    finished: Finished,
) -> Result<(), AllocError>
    ensures { OnOk result
        (line.new.items ≡ line.old.items ++ spaced (operation_word operation ∷ finished_words finished)) }
{
    push_number_word(line, operation.0)?;
    push_finished(line, finished)
}

fn push_finished(line: &mut Vec<u8>, finished: Finished) -> Result<(), AllocError>
    ensures { OnOk result (line.new.items ≡ line.old.items ++ spaced (finished_words finished)) }
{
    match finished {
        Finished::Count(count) => {
            push_word(line, b"count")?;
            push_number_word(line, count)
        }
        Finished::End => push_word(line, b"end"),
        Finished::Connected => push_word(line, b"connected"),
        Finished::Accepted(channel) => {
            push_word(line, b"accepted")?;
            push_channel_word(line, channel)
        }
        Finished::Failed(why) => push_word(line, failure_text(why)),
    }
}

fn failure_text(why: Why) -> &'static [u8]
    ensures { result.now ≡ failure_word why }
{
    match why {
        Why::Fault => b"fault",
        Why::AsynchronousClose => b"async-close",
        Why::ClosedChannel => b"closed-channel",
        Why::ShutdownGroup => b"shutdown-group",
        Why::ChannelsSpent => b"channels-spent",
    }
}

fn kind_text(kind: GKind) -> &'static [u8]
    ensures { result.now ≡ group_kind_word kind }
{
    match kind {
        GKind::Stream => b"stream",
        GKind::Listener => b"listener",
    }
}

fn operation_kind_text(kind: OpKind) -> &'static [u8]
    ensures { result.now ≡ operation_kind_word kind }
{
    match kind {
        OpKind::Accept => b"accept",
        OpKind::Connect => b"connect",
        OpKind::Read => b"read",
        OpKind::Write => b"write",
    }
}

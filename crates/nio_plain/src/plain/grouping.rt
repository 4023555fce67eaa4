//! Calls on the group.
ghost use Rattle.std.specs.Prelude.{◌≡◌};
ghost use Rattle.nio_group.specs.Run as step;
ghost use Rattle.nio_plain.specs.Plain.{Replies};
ghost use Rattle.nio_plain.specs.PlainState.{rules_of, state_of};
ghost use Rattle.nio_plain.specs.Seq.Grouping.{asks_for_a_channel as call_asks, group_call, group_left, group_reply};
ghost use Rattle.nio_plain.specs.Seq.Grouping.{lacks_a_number, stepped, with_named_group_channel};

use super::{GROUP_LIMITS, Plain};
use crate::group_replies::{bound, closed, finished, opened, reported, started, taken};
use crate::replies::yes_or_no;
use crate::rules::Rules;
use nio_base::{GChan, OpKind, Outcome};
use nio_group::GroupCore;
use nio_language::{GroupCall, Reply};

impl Plain {
    /// Makes a call on the group.
    pub(super) fn call_on_group(&mut self, call: GroupCall) -> Reply
        ensures { Replies self.old self.new result (group_call (rules_of self.old) (state_of self.old) call) }
    {
        if self.lacks_a_number(call) {
            return Reply::ChannelsSpent;
        }
        call_group(&mut self.group, call)
    }

    /// Whether the group, by the rules of this system, has no number for the channel that the call asks for.
    fn lacks_a_number(&self, call: GroupCall) -> bool
        ensures { result ≡ lacks_a_number (rules_of self.now) (state_of self.now).group call }
    {
        match self.rules {
            Rules::First => {
                asks_for_a_channel(call)
                    && !self.group.is_shutdown()
                    && self.group.channels() == GROUP_LIMITS.channels
            }
            Rules::Now => false,
        }
    }
}

/// Whether the call asks for a new channel of the group.
fn asks_for_a_channel(call: GroupCall) -> bool
    ensures { result ≡ call_asks call }
{
    match call {
        GroupCall::Gopen(_) | GroupCall::Report(_, Outcome::Accepted) => true,
        GroupCall::Report(_, Outcome::Count(_) | Outcome::End | Outcome::Connected | Outcome::Fault)
        | GroupCall::Gbind(_)
        | GroupCall::Start(..)
        | GroupCall::Take
        | GroupCall::Done(_)
        | GroupCall::Gclose(_)
        | GroupCall::Shutdown
        | GroupCall::ShutdownNow
        | GroupCall::IsShutdown
        | GroupCall::Terminated => false,
    }
}

/// Makes one of the group's calls, and answers with its reply. It allocates nothing: the group took its memory when
/// it was made.
pub fn call_group(group: &mut GroupCore, call: GroupCall) -> Reply
    ensures reply { result ≡ group_reply group.old call }
    ensures left { group.new ≡ group_left group.old call }
{
    match call {
        GroupCall::Gopen(kind) => opened(group.open_channel(kind)),
        GroupCall::Gbind(chan) => bind(group, chan),
        GroupCall::Start(chan, kind, len) => start(group, chan, kind, len),
        GroupCall::Report(operation, outcome) => reported(group.report(operation, outcome)),
        GroupCall::Take => taken(group.take()),
        GroupCall::Done(operation) => finished(group.finish(operation)),
        GroupCall::Gclose(chan) => close_channel(group, chan),
        GroupCall::Shutdown => {
            group.shutdown();
            Reply::Ok
        }
        GroupCall::ShutdownNow => {
            group.shutdown_now();
            Reply::Ok
        }
        GroupCall::IsShutdown => yes_or_no(group.is_shutdown()),
        GroupCall::Terminated => yes_or_no(group.is_terminated()),
    }
}

fn bind(group: &mut GroupCore, chan: GChan) -> Reply
    ensures reply { result ≡ (with_named_group_channel group.old chan (stepped group.old (step.bind chan))).reply }
    ensures left { group.new ≡ (with_named_group_channel group.old chan (stepped group.old (step.bind chan))).left }
{
    if !group.is_made(chan) {
        return Reply::NoChannel;
    }
    bound(group.bind(chan))
}

fn start(group: &mut GroupCore, chan: GChan, kind: OpKind, len: u64) -> Reply
    ensures reply { result ≡
        (with_named_group_channel group.old chan (stepped group.old (step.start chan kind len))).reply }
    ensures left { group.new ≡
        (with_named_group_channel group.old chan (stepped group.old (step.start chan kind len))).left }
{
    if !group.is_made(chan) {
        return Reply::NoChannel;
    }
    started(group.start(chan, kind, len))
}

fn close_channel(group: &mut GroupCore, chan: GChan) -> Reply
    ensures reply { result ≡
        (with_named_group_channel group.old chan (stepped group.old (step.close_channel chan))).reply }
    ensures left { group.new ≡
        (with_named_group_channel group.old chan (stepped group.old (step.close_channel chan))).left }
{
    if !group.is_made(chan) {
        return Reply::NoChannel;
    }
    closed(group.close_channel(chan))
}

//! What a way by jobs and those who start the operations tell each other.
ghost use mathlib.Core.List.{IsPrefix};
ghost use Rattle.std.specs.Prelude.{◌≡◌, ◌⊎◌, []};

use nio_base::{ChanId, OpKind, OpNo, Outcome};
use nio_group::Job;
use std::sync::Wait;

/// What the calls of a round came to.
#[derive(Clone, Copy, Debug, PartialEq, Eq)]
pub enum Done {
    /// The operation has this outcome.
    Outcome(OpNo, Outcome),
    /// The channel's operation of this kind is still pending: its call found nothing to do, and used up the job.
    Again(ChanId, OpKind),
    /// The net's channel was closed.
    Closed(ChanId),
}

/// What a way by jobs reports to, and gets jobs from: a group whose handlers start the operations, or a desk whose
/// tickets are polled.
pub trait Exchange {
    /// Should report what the calls came to, in their order, and add the jobs that have been handed out since to the
    /// others. It waits for none. The clauses say that nothing is left to report, and that no job is lost that was
    /// there; not that each job that was handed out is added.
    fn exchange<R: Wait>(&mut self, rt: &R, done: &mut Vec<Done>, arrived: &mut Vec<Job>)
        ensures reported { done.new.items ≡ [] }
        ensures kept { IsPrefix arrived.old.items arrived.new.items };

    /// May do the same within a round, where a call lacks its job, so that it can be made in this round. It may wait
    /// only for a lock. All is taken off `done`, or nothing.
    fn exchange_early(&mut self, done: &mut Vec<Done>, arrived: &mut Vec<Job>)
        ensures reported { (done.new.items ≡ []) ⊎ (done.new.items ≡ done.old.items) }
        ensures kept { IsPrefix arrived.old.items arrived.new.items };

    /// Whether a job is handed out as soon as what calls came to is reported. Where it isn't, a channel is watched only
    /// for what there is a job for.
    fn is_prompt(&self) -> bool {
        true
    }

    /// A poll is about to wait. False where it isn't to, since jobs have been handed out meanwhile. It may wait only for
    /// a lock.
    fn may_wait(&mut self) -> bool {
        true
    }

    /// A poll that might wait has returned: in vain, where it told nothing.
    fn has_waited(&mut self, in_vain: bool) {
        let _ = in_vain;
    }
}

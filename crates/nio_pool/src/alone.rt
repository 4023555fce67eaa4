//! A handler of single completions, as one of batches.
ghost use Rattle.std.specs.Prelude.{◌≡◌};
ghost use Rattle.nio_pool.specs.Queues.{GoesOn, IsPassOf};

use crate::ended::OwnSlate;
use crate::group::Group;
use crate::queue::{CompletionQueue, Handed, QueuePass};
use crate::worker::{BatchHandler, Handler};
use std::sync::Wait;

/// Calls a handler with one completion at a time, and notes then that the operation has ended.
#[derive(Drop)]
pub(crate) struct Alone<'a, H> {
    handler: &'a H,
    slate: Option<OwnSlate<'a>>,
}

impl<'a, H: Handler> Alone<'a, H> {
    /// Of a worker of this group.
    pub(crate) fn over(group: &'a Group, handler: &'a H) -> Alone<'a, H> {
        Alone {
            handler,
            slate: group.take_slate(),
        }
    }

    /// The worker has done its work: another one may take its slate.
    pub(crate) fn leave(&self) {
        if let Some(slate) = &self.slate {
            slate.give_back();
        }
    }
}

impl<'a, H: Handler> BatchHandler for Alone<'a, H> {
    // It takes no further completion.
    fn completed_all<R: Wait>(
        &self,
        rt: &R,
        group: &Group,
        _queue: &CompletionQueue,
        _pass: &mut QueuePass,
        first: Handed,
    )
        requires { IsPassOf _queue.now _pass.old }
        ensures pass { GoesOn _queue.now _pass.old _pass.new }
        ensures put { _pass.new.hand.put ≡ _pass.old.hand.put }
        ensures none { _pass.new ≡ _pass.old }
    {
        let op = first.done().op();
        self.handler.completed(rt, group, first);
        group.end(rt, self.slate.as_ref(), op);
    }
}

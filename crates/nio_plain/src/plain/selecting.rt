//! Beginning a selection.
ghost use Rattle.std.specs.Prelude.{◌≡◌};
ghost use Rattle.nio_plain.specs.Plain.{RepliesAs};
ghost use Rattle.nio_plain.specs.PlainState.{rules_of, state_of};
ghost use Rattle.nio_plain.specs.Seq.Selections.{begin_call, mode_of};

use super::Plain;
use nio_base::{CallerNo, SelNo};
use nio_history::Mode;
use nio_language::{Reply, Waiting};
use std::alloc::{AllocError, Global};

impl Plain {
    pub(super) fn begin(
        &mut self,
        alloc: Global,
        me: CallerNo,
        sel: SelNo,
        waiting: Waiting,
    ) -> Result<Reply, AllocError>
        ensures { RepliesAs self.old self.new result (begin_call (rules_of self.old) (state_of self.old) me
            sel waiting) }
    {
        if sel.0 as usize >= self.selectors.len() {
            return Ok(Reply::NoSelector);
        }
        let Some(mode) = mode_of(waiting) else {
            return Ok(Reply::NegativeTimeout);
        };
        let selector = &self.selectors[sel.0 as usize];
        if selector.is_shut() {
            return Ok(Reply::ClosedSelector);
        }
        if selector.selecting.is_some() {
            return Ok(Reply::Busy);
        }
        let rules = self.rules;
        let looked = self.selectors[sel.0 as usize].begin(alloc, rules, me, mode)?;
        Ok(Reply::Looked(looked))
    }
}

/// How long the selection waits: a negative time is refused.
pub fn mode_of(waiting: Waiting) -> Option<Mode>
    ensures { result ≡ mode_of waiting }
{
    match waiting {
        Waiting::Now => Some(Mode::Now),
        Waiting::Wait => Some(Mode::Wait),
        Waiting::For(ms) => Mode::waiting(ms).ok(),
    }
}

//! Telling a selection what is ready.
ghost use Rattle.std.specs.Prelude.{◌≡◌, ◌==◌, false};
ghost use Rattle.nio_plain.specs.Plain.{Replies, RepliesAs};
ghost use Rattle.nio_plain.specs.PlainState.{rules_of, state_of};
ghost use Rattle.nio_plain.specs.Seq.Selections.{failed_call, goes_on, is_again, told_call, why_ended};

use super::Plain;
use super::marking::{all_told, looked_serials, updated_count};
use nio_base::{CallerNo, SelNo};
use nio_history::{GateWord, Mode, Why};
use nio_language::{Pairs, Reply};
use std::alloc::{AllocError, Global};

impl Plain {
    pub(super) fn told(
        &mut self,
        alloc: Global,
        me: CallerNo,
        sel: SelNo,
        elapsed: bool,
        pairs: &Pairs,
    ) -> Result<Reply, AllocError>
        ensures { RepliesAs self.old self.new result (told_call (rules_of self.old) (state_of self.old) me sel
            elapsed pairs.now) }
    {
        if sel.0 as usize >= self.selectors.len() {
            return Ok(Reply::NoSelector);
        }
        let selector = &self.selectors[sel.0 as usize];
        let Some(selecting) = &selector.selecting else {
            return Ok(Reply::NotSelecting);
        };
        if selecting.caller.0 != me.0 {
            return Ok(Reply::NotSelecting);
        }
        let serials = looked_serials(alloc, &selecting.looked, selecting.bound)?;
        let told = all_told(alloc, pairs.as_slice(), &serials)?;
        let count = updated_count(&selector.keys, &selecting.looked, &told);
        let gate = selector.gate();
        let interrupted = self.is_interrupted(me);
        let mode = selecting.mode;
        if is_again(gate, interrupted, mode, elapsed, count) {
            return Ok(Reply::Again);
        }
        let rules = self.rules;
        self.selectors[sel.0 as usize].end_selection(rules, &told);
        Ok(Reply::Selected(count, why_ended(gate, interrupted, mode, count)))
    }

    /// Leaves the caller's selection after a failed poll. A pending wakeup stays.
    pub(super) fn failed(&mut self, me: CallerNo, sel: SelNo) -> Reply
        ensures { Replies self.old self.new result (failed_call (state_of self.old) me sel) }
    {
        let place = match self.selector(sel) {
            Ok(place) => place,
            Err(refusal) => return refusal,
        };
        let Some(selecting) = &self.selectors[place].selecting else {
            return Reply::NotSelecting;
        };
        if selecting.caller.0 != me.0 {
            return Reply::NotSelecting;
        }
        self.selectors[place].selecting = None;
        Reply::Left
    }

    pub(super) fn is_interrupted(&self, caller: CallerNo) -> bool
        ensures { result ≡ (state_of self.now).shared.interrupted caller.0 }
    {
        self.interrupted
            .get(caller.0 as usize)
            .copied()
            .unwrap_or(false)
    }
}

/// Whether a selection in which so many keys were updated goes on.
fn is_again(gate: GateWord, interrupted: bool, mode: Mode, elapsed: bool, count: u32) -> bool
    ensures { result ≡ is_again gate interrupted mode elapsed count }
{
    let waits = goes_on(mode, elapsed);
    count == 0 && waits && !gate.woken && !gate.shut && !interrupted
}

/// Whether a selection of this mode waits on.
fn goes_on(mode: Mode, elapsed: bool) -> bool
    ensures { result ≡ goes_on mode elapsed }
{
    match mode {
        Mode::Now => false,
        Mode::Wait => true,
        Mode::For(_) => !elapsed,
    }
}

/// Why a selection in which so many keys were updated ended: the first that holds.
fn why_ended(gate: GateWord, interrupted: bool, mode: Mode, count: u32) -> Why
    ensures { result ≡ why_ended gate interrupted mode count }
{
    if count != 0 {
        Why::Ready
    } else if gate.shut {
        Why::Closed
    } else if matches!(mode, Mode::Now) {
        Why::Now
    } else if gate.woken {
        Why::Woken
    } else if interrupted {
        Why::Interrupted
    } else {
        Why::Elapsed
    }
}

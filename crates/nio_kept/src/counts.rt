//! How often calls on each channel have failed.
ghost use Rattle.std.specs.Prelude.{◌≡◌, ◌≤◌};
ghost use Rattle.nio_base.specs.declared.numbers.ChanId.{ChanId as Channel};
ghost use Rattle.nio_bytes.specs.Cause.{Rose, count_after};
ghost use Rattle.nio_link.specs.Links.{IsSameBut};

use nio_base::ChanId;
use nio_link::Failed;
use nio_trace::Trace;

/// The channels on which calls have failed, one for each failure. The list exists in proofs alone: so channels that
/// come back under later serials take no memory for it.
#[derive(Drop)]
pub struct Counts {
    failed: Trace<ChanId>,
}

impl Counts {
    ghost use Rattle.nio_kept.specs.Counts.{count_of};

    /// No call has failed.
    pub fn new() -> Counts
        ensures { (c : Channel) → count_of result c ≡ 0 }
    {
        Counts {
            failed: Trace::new(),
        }
    }

    /// Counts a fault of a call on the channel.
    pub fn fail(&mut self, chan: ChanId) -> Failed
        ensures later { count_of self.old chan ≤ count_of self.new chan }
        ensures rose { Rose (count_of self.old chan) (count_of self.new chan) }
        ensures others { IsSameBut chan (count_of self.old) (count_of self.new) }
    {
        self.failed.push(&chan);
        Failed
    }
}

/// Counts a fault. The count stops at the greatest `u64`.
pub fn raise(count: &mut u64)
    ensures later { count.old ≤ count.new }
    ensures rose { Rose count.old count.new }
    ensures count { count.new ≡ count_after count.old }
{
    *count = count.saturating_add(1);
}

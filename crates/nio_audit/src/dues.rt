//! Which indexes selections have still to put among the free ones.
ghost use Rattle.std.specs.Prelude.{◌≡◌, ◌+◌, ◌||◌, false, OnOk};
ghost use Rattle.nio_base.specs.declared.numbers.CallerNo.{CallerNo};
ghost use Rattle.nio_history.specs.State.{put_at};

use crate::state::StateTables;
use crate::table::{Grid, Row};
use nio_base::SelNo;
use nio_history::Act;
use std::alloc::{AllocError, Global};

/// Which indexes selections have still to put. A removal counts while no turn of the selector ended since.
#[derive(Drop)]
pub(crate) struct Dues {
    /// When the turn of a selector was given back last, or 0.
    ended: Row<u64>,
    /// When the key of an index was removed by a selection that hasn't put the index since, or 0.
    removed: Grid<u64>,
}

impl Dues {
    ghost use Rattle.nio_audit.specs.DueIndexes.{due_of, IsBefore};
    ghost use Rattle.nio_audit.specs.StateOf.{due_after};

    pub(crate) fn new(alloc: Global) -> Dues
        ensures due { due_of result ≡ (λ _ _. false) }
        ensures before { IsBefore result 1 }
    {
        Dues {
            ended: Row::new(alloc, 0),
            removed: Grid::new(alloc, 0),
        }
    }

    pub(crate) fn has(&self, sel: SelNo, index: u32) -> bool
        ensures { result ≡ due_of self.now sel.0 index }
    {
        self.ended.get(sel.0) < self.removed.get(sel.0, index)
    }

    /// What changes by an act at this moment, before the state is changed.
    pub(crate) fn learn(
        &mut self,
        now: u64,
        state: &StateTables,
        act: &Act,
    ) -> Result<(), AllocError>
        requires { IsBefore self.old now }
        ensures due { (me : CallerNo) → OnOk result (due_of self.new
            ≡ due_after state.now (due_of self.old) me act.now) }
        ensures before { OnOk result (IsBefore self.new (now + 1)) }
    {
        match *act {
            Act::GiveTurn(sel) => self.ended.set(sel.0, now),
            Act::Remove(sel, index, found) => {
                self.remove(now, sel, index, state.frees_index(sel, found))
            }
            Act::PutFree(sel, index) => self.removed.set(sel.0, index, 0),
            Act::DrawBit(..)
            | Act::MakeSelector(..)
            | Act::LookSelectors(..)
            | Act::Wake(..)
            | Act::LookGate(..)
            | Act::SetInterrupt(..)
            | Act::TakeInterrupt(..)
            | Act::LookInterrupt(..)
            | Act::LookKey(..)
            | Act::CancelKey(..)
            | Act::LookInterest(..)
            | Act::SwapInterest(..)
            | Act::OrInterest(..)
            | Act::AndInterest(..)
            | Act::SwapNote(..)
            | Act::LookNote(..)
            | Act::MakeChannel(..)
            | Act::LookChannel(..)
            | Act::Claim(..)
            | Act::RaiseKeys(..)
            | Act::LookKeys(..)
            | Act::Publish(..)
            | Act::LookReg(..)
            | Act::Enrol(..)
            | Act::TakeTurn(..)
            | Act::BeginLook(..)
            | Act::LookMark(..)
            | Act::Mark(..)
            | Act::UnselectBit(..)
            | Act::EndWake(..)
            | Act::LookChannels(..)
            | Act::RaiseChannels(..)
            | Act::TryHoldBit(..)
            | Act::Release(..)
            | Act::SetMode(..)
            | Act::CloseBit(..)
            | Act::ShutBit(..)
            | Act::Enter(..)
            | Act::Pin(..)
            | Act::Unpin(..)
            | Act::ClearMark(..)
            | Act::ClaimAgain(..)
            | Act::LookFree(..)
            | Act::TakeFree(..)
            | Act::Reopen(..)
            | Act::Touch(..)
            | Act::LookTouched(..)
            | Act::TakeTouched(..)
            | Act::LookIndex(..)
            | Act::TakeList(..) => Ok(()),
        }
    }

    fn remove(&mut self, now: u64, sel: SelNo, index: u32, frees: bool) -> Result<(), AllocError>
        requires { IsBefore self.old now }
        ensures due { OnOk result (due_of self.new ≡ put_at (due_of self.old) sel.0 index
            (due_of self.old sel.0 index || frees)) }
        ensures before { OnOk result (IsBefore self.new (now + 1)) }
    {
        let removed = self.removed.get(sel.0, index);
        self.removed
            .set(sel.0, index, if frees { now } else { removed })
    }
}

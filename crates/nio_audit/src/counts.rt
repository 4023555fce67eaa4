//! How many channels are made, and how many indexes of each selector are claimed.
ghost use Rattle.std.specs.Prelude.{◌≡◌, OnOk};

use crate::table::Row;
use nio_base::SelNo;
use nio_history::Act;
use std::alloc::{AllocError, Global};

/// The channels that are made, and the indexes of each selector that are claimed, are those below these numbers.
#[derive(Drop)]
pub(crate) struct Counts {
    channels: u32,
    keys: Row<u32>,
}

impl Counts {
    ghost use Rattle.nio_audit.specs.Bounds.{IsCountable};
    ghost use Rattle.nio_audit.specs.Counting.{channels_after, keys_after};
    ghost use Rattle.nio_audit.specs.StepNumbers.{number_of};
    ghost use Rattle.nio_audit.specs.TableWords.{row};

    pub(crate) fn new(alloc: Global) -> Counts
        ensures channels { result.channels ≡ 0 }
        ensures keys { row result.keys ≡ (λ _. 0) }
    {
        Counts {
            channels: 0,
            keys: Row::new(alloc, 0),
        }
    }

    pub(crate) fn channels(&self) -> u32
        ensures { result ≡ self.now.channels }
    {
        self.channels
    }

    pub(crate) fn keys(&self, sel: SelNo) -> u32
        ensures { result ≡ row self.now.keys sel.0 }
    {
        self.keys.get(sel.0)
    }

    pub(crate) fn learn(&mut self, act: &Act) -> Result<(), AllocError>
        requires { IsCountable (number_of act.now) }
        ensures channels { OnOk result (self.new.channels ≡ channels_after self.old.channels (number_of act.now)) }
        ensures keys { OnOk result (row self.new.keys ≡ keys_after (row self.old.keys) (number_of act.now)) }
    {
        match *act {
            Act::MakeChannel(chan, _, _) => {
                self.channels = self.channels.max(chan.0 + 1);
                Ok(())
            }
            Act::Claim(sel, index, _, _) => {
                let keys = self.keys.get(sel.0);
                self.keys.set(sel.0, keys.max(index + 1))
            }
            Act::DrawBit(..)
            | Act::MakeSelector(..)
            | Act::LookSelectors(..)
            | Act::Wake(..)
            | Act::LookGate(..)
            | Act::SetInterrupt(..)
            | Act::TakeInterrupt(..)
            | Act::LookInterrupt(..)
            | Act::LookKey(..)
            | Act::CancelKey(..)
            | Act::LookInterest(..)
            | Act::SwapInterest(..)
            | Act::OrInterest(..)
            | Act::AndInterest(..)
            | Act::SwapNote(..)
            | Act::LookNote(..)
            | Act::LookChannel(..)
            | Act::RaiseKeys(..)
            | Act::LookKeys(..)
            | Act::Publish(..)
            | Act::LookReg(..)
            | Act::Enrol(..)
            | Act::TakeTurn(..)
            | Act::BeginLook(..)
            | Act::GiveTurn(..)
            | Act::Remove(..)
            | Act::LookMark(..)
            | Act::Mark(..)
            | Act::UnselectBit(..)
            | Act::EndWake(..)
            | Act::LookChannels(..)
            | Act::RaiseChannels(..)
            | Act::TryHoldBit(..)
            | Act::Release(..)
            | Act::SetMode(..)
            | Act::CloseBit(..)
            | Act::ShutBit(..)
            | Act::Enter(..)
            | Act::Pin(..)
            | Act::Unpin(..)
            | Act::ClearMark(..)
            | Act::ClaimAgain(..)
            | Act::LookFree(..)
            | Act::PutFree(..)
            | Act::TakeFree(..)
            | Act::Reopen(..)
            | Act::Touch(..)
            | Act::LookTouched(..)
            | Act::TakeTouched(..)
            | Act::LookIndex(..)
            | Act::TakeList(..) => Ok(()),
        }
    }
}

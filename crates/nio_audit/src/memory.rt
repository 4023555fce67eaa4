//! What callers know from their own acts, as far as a condition reads it.
//!
//! Moments are places in the list of events, counted from 1; 0 is never.
ghost use Rattle.std.specs.Prelude.{◌≡◌, nat_lt, OnOk};

use crate::state::UNCLAIMED;
use crate::table::{Cube, Grid};
use nio_base::{CallerNo, ChanNo, KeyId, SelNo};
use nio_history::{Act, Stage};
use std::alloc::{AllocError, Global};

/// What a caller knows of a channel: when it took the hold last, and when it found the channel in non-blocking mode
/// last.
#[derive(Clone, Copy, Debug)]
pub(crate) struct HoldMemory {
    pub(crate) taken: u64,
    pub(crate) unblocked: u64,
}

/// What a caller knows of the key that is enrolled for a channel in a selector: when it found or enrolled it last,
/// which one it was, and when it enrolled one last.
#[derive(Clone, Copy, Debug)]
pub(crate) struct EnrolledMemory {
    pub(crate) found_at: u64,
    pub(crate) key: Option<KeyId>,
    pub(crate) enrolled: u64,
}

/// A caller's claim of an index: for which channel, and with which serial.
#[derive(Clone, Copy, Debug, PartialEq, Eq)]
pub(crate) struct Claim {
    pub(crate) channel: ChanNo,
    pub(crate) serial: u32,
}

/// What a caller knows of an index.
#[derive(Clone, Copy, Debug)]
pub(crate) struct IndexMemory {
    /// When it looked last, and the stage that it found.
    pub(crate) looked: u64,
    pub(crate) found: Stage,
    /// When it last found, of the key that it found last, that it is outside the key set.
    pub(crate) outside_before: u64,
    /// When it published a key of it last.
    pub(crate) published: u64,
    /// When it took it out of the free ones last.
    pub(crate) taken: u64,
    /// Its claim, while it has the pin of that claim.
    pub(crate) claim: Option<Claim>,
    /// Whether it claimed it, and hasn't published the key since.
    pub(crate) unpublished: bool,
}

/// What a closer knows of a selector: whether it has entered, and the greatest keys' high-water mark found since.
#[derive(Clone, Copy, Debug)]
pub(crate) struct ClosingMemory {
    pub(crate) entered: bool,
    pub(crate) below: u32,
}

/// What each caller knows.
#[derive(Drop)]
pub(crate) struct Memory {
    holds: Grid<HoldMemory>,
    enrolments: Cube<EnrolledMemory>,
    indexes: Cube<IndexMemory>,
    closings: Grid<ClosingMemory>,
}

impl IndexMemory {
    ghost use Rattle.nio_audit.specs.Remembering.{looked_again, outside_at};

    /// When it last found the key with this serial outside the key set.
    pub(crate) fn outside_at(&self, serial: u32) -> u64
        ensures { result ≡ outside_at self.now serial }
    {
        let key = self.found;
        if key.claimed && key.serial == serial && key.published && !key.removed {
            self.outside_before
        } else {
            self.looked
        }
    }

    fn looked_again(&self, now: u64, found: Stage) -> IndexMemory
        ensures { result ≡ looked_again now found self.now }
    {
        IndexMemory {
            looked: now,
            found,
            outside_before: self.outside_at(found.serial),
            ..*self
        }
    }
}

impl Memory {
    ghost use Rattle.nio_audit.specs.Bounds.{IsRemembered};
    ghost use Rattle.nio_audit.specs.Found.{found_by, is_clear_for, unblocked_by};
    ghost use Rattle.nio_audit.specs.Remembering.{knowledge_of, learned, nothing_known, with_claim, with_index};
    ghost use Rattle.nio_audit.specs.StepNumbers.{number_of};

    /// Before the first event, when no caller knows anything.
    pub(crate) fn new(alloc: Global) -> Memory
        ensures { knowledge_of result ≡ nothing_known }
    {
        Memory {
            holds: Grid::new(alloc, NO_HOLD),
            enrolments: Cube::new(alloc, NONE_ENROLLED),
            indexes: Cube::new(alloc, NO_INDEX),
            closings: Grid::new(alloc, NO_CLOSING),
        }
    }

    /// Whether the caller found the channel in non-blocking mode under its present hold.
    pub(crate) fn found_unblocked(&self, me: CallerNo, chan: ChanNo) -> bool
        ensures { result ≡ unblocked_by ((knowledge_of self.now).holds me.0 chan.0) }
    {
        let hold = self.holds.get(me.0, chan.0);
        hold.taken < hold.unblocked
    }

    /// Whether the caller found the enrolled key of the channel outside the key set, or none enrolled, under its
    /// present hold. A look that is older than its own enrolling or publishing doesn't count.
    pub(crate) fn is_clear(&self, me: CallerNo, chan: ChanNo, sel: u32) -> bool
        ensures { result ≡ is_clear_for (knowledge_of self.now) me chan.0 sel }
    {
        let hold = self.holds.get(me.0, chan.0);
        let enrolment = self.enrolments.get(me.0, chan.0, sel);
        if enrolment.found_at <= hold.taken {
            return false;
        }
        match enrolment.key {
            None => true,
            Some(key) => {
                let index = self.indexes.get(me.0, sel, key.index);
                let since = hold.taken.max(enrolment.enrolled.max(index.published));
                since < index.outside_at(key.serial)
            }
        }
    }

    /// The caller's claim of the index, while it has the pin of that claim.
    pub(crate) fn claim(&self, me: CallerNo, sel: SelNo, index: u32) -> Option<Claim>
        ensures { result ≡ ((knowledge_of self.now).indexes me.0 sel.0 index).claim }
    {
        self.indexes.get(me.0, sel.0, index).claim
    }

    /// Whether the caller claimed the index, and hasn't published the key since.
    pub(crate) fn is_unpublished(&self, me: CallerNo, sel: SelNo, index: u32) -> bool
        ensures { result ≡ ((knowledge_of self.now).indexes me.0 sel.0 index).unpublished }
    {
        self.indexes.get(me.0, sel.0, index).unpublished
    }

    /// The stage that the caller found last of the index, since it took it.
    pub(crate) fn stage_since_taken(&self, me: CallerNo, sel: SelNo, index: u32) -> Option<Stage>
        ensures { result ≡ found_by ((knowledge_of self.now).indexes me.0 sel.0 index) }
    {
        let memory = self.indexes.get(me.0, sel.0, index);
        if memory.taken < memory.looked {
            Some(memory.found)
        } else {
            None
        }
    }

    /// Whether the caller found the index below the keys' high-water mark since it entered.
    pub(crate) fn found_below(&self, me: CallerNo, sel: SelNo, index: u32) -> bool
        ensures { result ≡ nat_lt index ((knowledge_of self.now).closings me.0 sel.0).below }
    {
        index < self.closings.get(me.0, sel.0).below
    }

    /// Adds what the caller knows by its act at this moment.
    pub(crate) fn learn(&mut self, now: u64, me: CallerNo, act: &Act) -> Result<(), AllocError>
        requires { IsRemembered (number_of act.now) }
        ensures { OnOk result (knowledge_of self.new ≡ learned now me act.now (knowledge_of self.old)) }
    {
        match *act {
            Act::TryHoldBit(chan, found) => self.holds.update(me.0, chan.0, |memory| {
                if found.is_none() {
                    memory.taken = now;
                }
            }),
            Act::LookChannel(chan, found) => self.holds.update(me.0, chan.0, |memory| {
                if !found.blocking {
                    memory.unblocked = now;
                }
            }),
            Act::LookReg(chan, sel, found) => {
                self.enrolments.update(me.0, chan.0, sel.0, |memory| {
                    memory.found_at = now;
                    memory.key = found;
                })
            }
            Act::Enrol(chan, sel, index, serial, _) => {
                let enrolment = EnrolledMemory {
                    found_at: now,
                    key: Some(KeyId { index, serial }),
                    enrolled: now,
                };
                self.enrolments.set(me.0, chan.0, sel.0, enrolment)
            }
            Act::LookKey(sel, index, found) | Act::Pin(sel, index, found) => {
                self.indexes.update(me.0, sel.0, index, |memory| {
                    *memory = memory.looked_again(now, found);
                })
            }
            Act::LookIndex(sel, index, found) => {
                self.indexes.update(me.0, sel.0, index, |memory| {
                    *memory = memory.looked_again(now, found.stage);
                })
            }
            Act::Publish(sel, index, _) => self.indexes.update(me.0, sel.0, index, |memory| {
                memory.published = now;
                memory.unpublished = false;
            }),
            Act::TakeFree(sel, index, found) => self.indexes.update(me.0, sel.0, index, |memory| {
                if found {
                    memory.taken = now;
                }
            }),
            Act::Claim(sel, index, channel, found) => {
                self.remember_claim(me, sel, index, Claim { channel, serial: 0 }, found)
            }
            Act::ClaimAgain(sel, index, channel, from, found) => {
                let serial = from.serial + 1;
                self.remember_claim(me, sel, index, Claim { channel, serial }, found)
            }
            Act::Unpin(sel, index) => {
                self.indexes
                    .update(me.0, sel.0, index, |memory| memory.claim = None)
            }
            Act::Enter(sel, found) => self.closings.update(me.0, sel.0, |memory| {
                memory.entered = memory.entered || found.is_none();
            }),
            Act::LookKeys(sel, found) => self.closings.update(me.0, sel.0, |memory| {
                if memory.entered {
                    memory.below = memory.below.max(found);
                }
            }),
            Act::DrawBit(..)
            | Act::MakeSelector(..)
            | Act::LookSelectors(..)
            | Act::Wake(..)
            | Act::LookGate(..)
            | Act::SetInterrupt(..)
            | Act::TakeInterrupt(..)
            | Act::LookInterrupt(..)
            | Act::CancelKey(..)
            | Act::LookInterest(..)
            | Act::SwapInterest(..)
            | Act::OrInterest(..)
            | Act::AndInterest(..)
            | Act::SwapNote(..)
            | Act::LookNote(..)
            | Act::MakeChannel(..)
            | Act::RaiseKeys(..)
            | Act::TakeTurn(..)
            | Act::BeginLook(..)
            | Act::GiveTurn(..)
            | Act::Remove(..)
            | Act::LookMark(..)
            | Act::Mark(..)
            | Act::UnselectBit(..)
            | Act::EndWake(..)
            | Act::LookChannels(..)
            | Act::RaiseChannels(..)
            | Act::Release(..)
            | Act::SetMode(..)
            | Act::CloseBit(..)
            | Act::ShutBit(..)
            | Act::ClearMark(..)
            | Act::LookFree(..)
            | Act::PutFree(..)
            | Act::Reopen(..)
            | Act::Touch(..)
            | Act::LookTouched(..)
            | Act::TakeTouched(..)
            | Act::TakeList(..) => Ok(()),
        }
    }

    fn remember_claim(
        &mut self,
        me: CallerNo,
        sel: SelNo,
        index: u32,
        claim: Claim,
        found: bool,
    ) -> Result<(), AllocError>
        ensures { OnOk result (knowledge_of self.new
            ≡ with_index me sel index (with_claim claim found) (knowledge_of self.old)) }
    {
        self.indexes.update(me.0, sel.0, index, |memory| {
            if !found {
                memory.claim = Some(claim);
                memory.unpublished = true;
            }
        })
    }
}

const NO_HOLD: HoldMemory = HoldMemory {
    taken: 0,
    unblocked: 0,
};

const NONE_ENROLLED: EnrolledMemory = EnrolledMemory {
    found_at: 0,
    key: None,
    enrolled: 0,
};

const NO_INDEX: IndexMemory = IndexMemory {
    looked: 0,
    found: UNCLAIMED,
    outside_before: 0,
    published: 0,
    taken: 0,
    claim: None,
    unpublished: false,
};

const NO_CLOSING: ClosingMemory = ClosingMemory {
    entered: false,
    below: 0,
};

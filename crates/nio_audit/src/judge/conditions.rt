//! Whether a caller may make a step.
ghost use Rattle.std.specs.Prelude.{◌≡◌, ◌<◌, ◌*◌, ◌↔◌, ◌&&◌, ◌||◌, ℕ, Bool, Option, IsTrue};
ghost use Rattle.nio_base.specs.declared.numbers.KeyId.{KeyId};
ghost use Rattle.nio_history.specs.declared.found.Chan.{Chan};

use crate::judge::Judge;
use crate::memory::Claim;
use crate::state::LAST_SERIAL;
use nio_base::{CallerNo, ChanNo, SelNo};
use nio_history::{Act, Chan, Stage};

impl Judge {
    ghost use Rattle.nio_history.specs.Conditions.{has_begun, has_entered, has_pin, has_taken, has_turn, holds};
    ghost use Rattle.nio_history.specs.Conditions.{is_claimed, is_closer, is_made, may_put_due, may_remove_cancelled};
    ghost use Rattle.nio_history.specs.Conditions.{IsChannel, IsKey, IsSelector, WasOpen};
    ghost use Rattle.nio_audit.specs.Allowing.{may_clear_out_by, may_publish_by, state_of, IsAllowed};
    ghost use Rattle.nio_audit.specs.Found.{is_clear_for};
    ghost use Rattle.nio_audit.specs.Remembering.{knowledge_of};

    /// Whether the caller may make the step.
    pub(crate) fn allows(&self, me: CallerNo, act: &Act) -> bool
        ensures { IsTrue result ↔ IsAllowed self.now me act.now }
    {
        match *act {
            Act::DrawBit(number, found) => {
                number.0 < self.limits.callers && me == number && !found
            }
            Act::MakeSelector(sel, _)
            | Act::LookGate(sel, _)
            | Act::LookKeys(sel, _)
            | Act::TakeTurn(sel, _)
            | Act::ShutBit(sel, _)
            | Act::TakeList(sel, _) => self.is_selector(sel),
            Act::LookSelectors(_)
            | Act::TakeInterrupt(_)
            | Act::LookInterrupt(_)
            | Act::LookChannels(_) => true,
            Act::Wake(sel, _) => self.is_selector(sel) && self.state.is_selector_made(sel),
            Act::SetInterrupt(number, _) => number.0 < self.limits.callers,
            Act::LookKey(sel, index, _)
            | Act::TakeFree(sel, index, _)
            | Act::LookIndex(sel, index, _) => self.is_key(sel, index),
            Act::CancelKey(sel, index, _) => {
                self.is_key(sel, index)
                    && self.state.is_claimed(sel, index)
                    && self.state.has_pin(me, sel, index)
                    && self.state.is_amid(me, sel, index)
            }
            Act::LookInterest(sel, index, _)
            | Act::LookMark(sel, index, _)
            | Act::Touch(sel, index, _) => { self.may_look(me, sel, index) }
            Act::SwapInterest(sel, index, _, _)
            | Act::OrInterest(sel, index, _, _)
            | Act::AndInterest(sel, index, _, _) => {
                self.may_use(me, sel, index) && self.state.is_amid(me, sel, index)
            }
            Act::SwapNote(sel, index, _, _)
            | Act::LookNote(sel, index, _)
            | Act::UnselectBit(sel, index, _)
            | Act::Unpin(sel, index) => self.may_use(me, sel, index),
            Act::MakeChannel(chan, _, _) => {
                self.is_channel(chan) && chan.0 <= self.counts.channels()
            }
            Act::LookChannel(chan, _) => self.is_channel(chan),
            Act::Claim(sel, index, chan, _) => self.may_claim(me, sel, index, chan),
            Act::RaiseKeys(sel, n, _) => {
                self.is_selector(sel) && n <= self.limits.keys && n <= self.counts.keys(sel)
            }
            Act::Publish(sel, index, _) => {
                self.is_key(sel, index)
                    && self.may_publish(me, sel, index)
                    && self.state.is_amid(me, sel, index)
            }
            Act::LookReg(chan, sel, _) => self.is_channel(chan) && self.is_selector(sel),
            Act::Enrol(chan, sel, index, serial, _) => {
                self.may_enrol(me, chan, sel, index, serial)
            }
            Act::BeginLook(sel, _) | Act::GiveTurn(sel) => {
                self.is_selector(sel) && self.state.has_turn(me, sel)
            }
            Act::Remove(sel, index, _) => self.is_key(sel, index)
                && self.may_remove(me, sel, index),
            Act::Mark(sel, index, _, told, _) => {
                self.is_key(sel, index) && self.state.has_begun(me, sel) && told.bits() != 0
            }
            Act::EndWake(sel, _) => self.is_selector(sel) && self.state.has_begun(me, sel),
            Act::RaiseChannels(n, _) => n <= self.limits.channels && n <= self.counts.channels(),
            Act::TryHoldBit(chan, _) => self.is_channel(chan) && self.state.is_made(chan),
            Act::Release(chan) => self.is_channel(chan) && self.state.holds(me, chan),
            Act::SetMode(chan, blocking, _) => self.may_set_mode(me, chan, blocking),
            Act::CloseBit(chan, from, _) => self.is_channel(chan) && self.was_open(chan, from),
            Act::Enter(sel, _) => self.is_selector(sel) && self.state.is_closer(me, sel),
            Act::Pin(sel, index, _) => {
                self.is_key(sel, index)
                    && self.state.is_claimed(sel, index)
                    && !self.state.has_pin(me, sel, index)
            }
            Act::ClearMark(sel, index, _) => {
                self.is_key(sel, index) && self.memory.is_unpublished(me, sel, index)
            }
            Act::ClaimAgain(sel, index, chan, from, _) => {
                self.may_claim_again(me, sel, index, chan, from)
            }
            Act::LookFree(sel, part, _) | Act::LookTouched(sel, part, _) => {
                self.is_selector(sel) && self.is_part(part)
            }
            Act::TakeTouched(sel, part, _) => {
                self.is_selector(sel)
                    && self.is_part(part)
                    && self.state.has_begun(me, sel)
                    && self.state.has_list(me, sel)
            }
            Act::PutFree(sel, index) => self.is_key(sel, index) && self.may_put(me, sel, index),
            Act::Reopen(chan, from, _) => self.may_reopen(me, chan, from),
        }
    }

    fn is_selector(&self, sel: SelNo) -> bool
        ensures { IsTrue result ↔ IsSelector self.now.limits sel }
    {
        sel.0 < self.limits.selectors
    }

    fn is_channel(&self, chan: ChanNo) -> bool
        ensures { IsTrue result ↔ IsChannel self.now.limits chan }
    {
        chan.0 < self.limits.channels
    }

    fn is_key(&self, sel: SelNo, index: u32) -> bool
        ensures { IsTrue result ↔ IsKey self.now.limits sel index }
    {
        sel.0 < self.limits.selectors && index < self.limits.keys
    }

    /// Whether there are indexes in these 64.
    fn is_part(&self, part: u32) -> bool
        ensures { IsTrue result ↔ (64 * part < self.now.limits.keys) }
    {
        64 * u64::from(part) < u64::from(self.limits.keys)
    }

    /// Whether the caller has a pin on the index.
    fn may_use(&self, me: CallerNo, sel: SelNo, index: u32) -> bool
        ensures { IsTrue result ↔ (IsKey self.now.limits sel index
            × IsTrue (has_pin (state_of self.now) me sel index)) }
    {
        self.is_key(sel, index) && self.state.has_pin(me, sel, index)
    }

    /// Whether the caller has a pin on the index, or selects.
    fn may_look(&self, me: CallerNo, sel: SelNo, index: u32) -> bool
        ensures { IsTrue result ↔ (IsKey self.now.limits sel index
            × IsTrue (has_pin (state_of self.now) me sel index || has_begun (state_of self.now) me sel)) }
    {
        self.is_key(sel, index)
            && (self.state.has_pin(me, sel, index) || self.state.has_begun(me, sel))
    }

    fn may_claim(&self, me: CallerNo, sel: SelNo, index: u32, chan: ChanNo) -> bool
        ensures { (found : Bool) → IsTrue result ↔ IsAllowed self.now me (Act.Claim sel index chan found) }
    {
        self.is_key(sel, index)
            && self.is_channel(chan)
            && self.state.holds(me, chan)
            && index <= self.counts.keys(sel)
    }

    fn may_claim_again(
        &self,
        me: CallerNo,
        sel: SelNo,
        index: u32,
        chan: ChanNo,
        from: Stage,
    ) -> bool
        ensures { (found : Bool) → IsTrue result ↔ IsAllowed self.now me (Act.ClaimAgain sel index chan from found) }
    {
        self.is_key(sel, index)
            && self.is_channel(chan)
            && self.state.holds(me, chan)
            && self.state.has_taken(me, sel, index)
            && self.memory.stage_since_taken(me, sel, index) == Some(from)
            && from.serial < LAST_SERIAL
    }

    fn may_enrol(&self, me: CallerNo, chan: ChanNo, sel: SelNo, index: u32, serial: u32) -> bool
        ensures { (found : Option KeyId) → IsTrue result
            ↔ IsAllowed self.now me (Act.Enrol chan sel index serial found) }
    {
        self.is_channel(chan)
            && self.is_key(sel, index)
            && self.has_claimed(me, sel, index, chan, serial)
            && self.state.holds(me, chan)
            && self.memory.is_clear(me, chan, sel.0)
    }

    fn may_set_mode(&self, me: CallerNo, chan: ChanNo, blocking: bool) -> bool
        ensures { (found : Chan) → IsTrue result ↔ IsAllowed self.now me (Act.SetMode chan blocking found) }
    {
        self.is_channel(chan)
            && self.state.holds(me, chan)
            && (!blocking || self.is_clear_everywhere(me, chan))
    }

    /// Whether it is an open channel, of the number's kind, that the number has or had.
    fn was_open(&self, chan: ChanNo, from: Chan) -> bool
        ensures { IsTrue result ↔ WasOpen (state_of self.now) chan from }
    {
        let stands = self.state.channel(chan);
        from.made
            && !from.closed
            && from.kind == stands.kind
            && stands.made
            && from.serial <= stands.serial
    }

    fn may_reopen(&self, me: CallerNo, chan: ChanNo, from: Chan) -> bool
        ensures { (found : Bool) → IsTrue result ↔ IsAllowed self.now me (Act.Reopen chan from found) }
    {
        self.is_channel(chan)
            && self.state.holds(me, chan)
            && from.made
            && from.closed
            && from.serial < LAST_SERIAL
            && self.is_clear_everywhere(me, chan)
    }

    fn may_publish(&self, me: CallerNo, sel: SelNo, index: u32) -> bool
        ensures { result ≡ may_publish_by (state_of self.now) (knowledge_of self.now.memory) me
            ((knowledge_of self.now.memory).indexes me.0 sel.0 index).claim }
    {
        match self.memory.claim(me, sel, index) {
            None => false,
            Some(claim) => {
                self.state.holds(me, claim.channel)
                    && self.memory.found_unblocked(me, claim.channel)
            }
        }
    }

    fn has_claimed(
        &self,
        me: CallerNo,
        sel: SelNo,
        index: u32,
        channel: ChanNo,
        serial: u32,
    ) -> bool
        ensures { IsTrue result ↔ (((knowledge_of self.now.memory).indexes me.0 sel.0 index).claim
            ≡ Some (record { channel = channel; serial = serial })) }
    {
        self.memory.claim(me, sel, index) == Some(Claim { channel, serial })
    }

    fn may_remove(&self, me: CallerNo, sel: SelNo, index: u32) -> bool
        ensures { result ≡ (may_remove_cancelled (state_of self.now) me sel index || may_clear_out_by
            (state_of self.now) (knowledge_of self.now.memory) me sel index) }
    {
        self.state.may_remove_cancelled(me, sel, index)
            || self.state.has_entered(me, sel) && self.memory.found_below(me, sel, index)
    }

    fn may_put(&self, me: CallerNo, sel: SelNo, index: u32) -> bool
        ensures { result ≡ (has_taken (state_of self.now) me sel index || may_put_due (state_of self.now)
            me sel index) }
    {
        self.state.has_taken(me, sel, index)
            || self.state.has_begun(me, sel) && self.dues.has(sel, index)
    }

    /// Whether, in each selector, the caller found the channel's enrolled key outside the key set, or none enrolled.
    fn is_clear_everywhere(&self, me: CallerNo, chan: ChanNo) -> bool
        ensures { IsTrue result ↔ ((s : ℕ) → s < self.now.limits.selectors
            → IsTrue (is_clear_for (knowledge_of self.now.memory) me chan.0 s)) }
    {
        for sel in 0..self.limits.selectors {
            if !self.memory.is_clear(me, chan, sel) {
                return false;
            }
        }
        true
    }
}

//! Whether what a step found is what the state answers.
ghost use Rattle.std.specs.Prelude.{◌≡◌, ◌<◌, ◌+◌, ◌*◌, ◌↔◌, ℕ, Bool, not, IsTrue};

use crate::state::StateTables;
use nio_base::{CallerNo, ChanNo, SelNo};
use nio_history::{Act, Chan, IndexWord, Mark};

impl StateTables {
    ghost use Rattle.nio_history.specs.Answers.{Answers, bits_below, exchange_from, index_at, is_pinned, is_same_channel};
    ghost use Rattle.nio_audit.specs.Bounds.{IsReadable};
    ghost use Rattle.nio_audit.specs.StateOf.{state_with};
    ghost use Rattle.nio_audit.specs.StepNumbers.{number_of};
    ghost use Rattle.nio_audit.specs.TableWords.{grid, row};

    /// Whether the act found what the state answers.
    pub(crate) fn answers(&self, me: CallerNo, act: &Act) -> bool
        requires { IsReadable (number_of act.now) }
        ensures { (due : ℕ → ℕ → Bool) → IsTrue result ↔ Answers (state_with self.now due) me act.now }
    {
        match *act {
            Act::DrawBit(number, found) => found == self.drawn.get(number.0),
            Act::MakeSelector(sel, found) => found == self.selector.get(sel.0),
            Act::LookSelectors(found) => found == self.selectors_word(),
            Act::Wake(sel, found) => found == self.gate.get(sel.0).woken,
            Act::LookGate(sel, found) => found == self.gate.get(sel.0),
            Act::SetInterrupt(number, found) => found == self.interrupted.get(number.0),
            Act::TakeInterrupt(found) => found == self.interrupted.get(me.0),
            Act::LookInterrupt(found) => found == self.interrupted.get(me.0),
            Act::LookKey(sel, index, found) => found == self.key.get(sel.0, index),
            Act::CancelKey(sel, index, found) => found == self.key.get(sel.0, index),
            Act::LookInterest(sel, index, found) => found == self.interest.get(sel.0, index),
            Act::SwapInterest(sel, index, _, found) => found == self.interest.get(sel.0, index),
            Act::OrInterest(sel, index, _, found) => found == self.interest.get(sel.0, index),
            Act::AndInterest(sel, index, _, found) => found == self.interest.get(sel.0, index),
            Act::SwapNote(sel, index, _, found) => found == self.note.get(sel.0, index),
            Act::LookNote(sel, index, found) => found == self.note.get(sel.0, index),
            Act::MakeChannel(chan, _, found) => found == self.chan.get(chan.0).made,
            Act::LookChannel(chan, found) => found == self.chan.get(chan.0),
            Act::Claim(sel, index, _, found) => found == self.key.get(sel.0, index).claimed,
            Act::RaiseKeys(sel, _, found) => found == self.keys_high.get(sel.0),
            Act::LookKeys(sel, found) => found == self.keys_high.get(sel.0),
            Act::Publish(sel, index, found) => found == self.key.get(sel.0, index),
            Act::LookReg(chan, sel, found) => found == self.enrolled.get(chan.0, sel.0),
            Act::Enrol(chan, sel, _, _, found) => found == self.enrolled.get(chan.0, sel.0),
            Act::TakeTurn(sel, found) => found == self.turn.get(sel.0),
            Act::BeginLook(sel, found) => found == self.gate.get(sel.0),
            Act::GiveTurn(_) => true,
            Act::Remove(sel, index, found) => found == self.key.get(sel.0, index),
            Act::LookMark(sel, index, found) => found == self.mark.get(sel.0, index),
            Act::Mark(sel, index, from, _, found) => found == self.exchange(sel, index, from),
            Act::UnselectBit(sel, index, found) => found == self.mark.get(sel.0, index).selected,
            Act::EndWake(sel, found) => found == self.gate.get(sel.0),
            Act::LookChannels(found) => found == self.channels_high,
            Act::RaiseChannels(_, found) => found == self.channels_high,
            Act::TryHoldBit(chan, found) => found == self.hold.get(chan.0),
            Act::Release(_) => true,
            Act::SetMode(chan, _, found) => found == self.chan.get(chan.0),
            Act::CloseBit(chan, _, found) => found == self.chan.get(chan.0),
            Act::ShutBit(sel, found) => found == self.gate.get(sel.0).shut,
            Act::Enter(sel, found) => found == self.turn.get(sel.0),
            Act::Pin(sel, index, found) => found == self.key.get(sel.0, index),
            Act::Unpin(_, _) => true,
            Act::ClearMark(sel, index, found) => found == self.mark.get(sel.0, index),
            Act::ClaimAgain(sel, index, _, _, found) => found == self.is_pinned(sel, index),
            Act::LookFree(sel, part, found) => found == self.free_word(sel, part),
            Act::PutFree(_, _) => true,
            Act::TakeFree(sel, index, found) => found == self.free.get(sel.0, index),
            Act::Reopen(chan, from, found) => found == self.has_another(chan, from),
            Act::Touch(sel, index, found) => found == self.touched.get(sel.0, index),
            Act::LookTouched(sel, part, found) => found == self.touched_word(sel, part),
            Act::TakeTouched(sel, part, found) => found == self.touched_word(sel, part),
            Act::LookIndex(sel, index, found) => found == self.index(sel, index),
            Act::TakeList(sel, found) => found == self.lister.get(sel.0),
        }
    }

    /// All selectors that are made, as one number.
    fn selectors_word(&self) -> u64
        ensures { result ≡ bits_below 64 (row self.now.selector) }
    {
        let mut word = 0;
        for bit in 0..64 {
            if self.selector.get(bit) {
                word |= 1 << bit;
            }
        }
        word
    }

    /// Which of 64 indexes are free, as one number.
    fn free_word(&self, sel: SelNo, part: u32) -> u64
        requires { 64 * part < 262144 }
        ensures { result ≡ bits_below 64 (λ b. grid self.now.free sel.0 (64 * part + b)) }
    {
        let mut word = 0;
        for bit in 0..64 {
            if self.free.get(sel.0, 64 * part + bit) {
                word |= 1 << bit;
            }
        }
        word
    }

    /// Which of 64 indexes are touched, as one number.
    fn touched_word(&self, sel: SelNo, part: u32) -> u64
        requires { 64 * part < 262144 }
        ensures { result ≡ bits_below 64 (λ b. grid self.now.touched sel.0 (64 * part + b)) }
    {
        let mut word = 0;
        for bit in 0..64 {
            if self.touched.get(sel.0, 64 * part + bit) {
                word |= 1 << bit;
            }
        }
        word
    }

    /// The stage of the index's key, and whether somebody has a pin on the index.
    fn index(&self, sel: SelNo, index: u32) -> IndexWord
        ensures { (due : ℕ → ℕ → Bool) → result ≡ index_at (state_with self.now due) sel.0 index }
    {
        IndexWord {
            stage: self.key.get(sel.0, index),
            pinned: self.is_pinned(sel, index),
        }
    }

    /// Whether somebody has a pin on the index.
    fn is_pinned(&self, sel: SelNo, index: u32) -> bool
        ensures { (due : ℕ → ℕ → Bool) → result ≡ is_pinned (state_with self.now due) sel.0 index }
    {
        for caller in 0..64 {
            if self.pinned.get(sel.0, index, caller) {
                return true;
            }
        }
        false
    }

    /// Whether the number has another channel than this one.
    fn has_another(&self, chan: ChanNo, from: Chan) -> bool
        ensures { result ≡ not (is_same_channel (row self.now.chan chan.0) from) }
    {
        self.chan.get(chan.0) != from
    }

    /// What an exchange from this mark finds.
    fn exchange(&self, sel: SelNo, index: u32, from: Mark) -> Result<(), Mark>
        ensures { result ≡ exchange_from from (grid self.now.mark sel.0 index) }
    {
        let stands = self.mark.get(sel.0, index);
        if stands.selected == from.selected && stands.ready == from.ready {
            Ok(())
        } else {
            Err(stands)
        }
    }
}

//! The step that an act names, and the act with what the step found.
ghost use Rattle.std.specs.Prelude.{◌≡◌, None, IfSome};
ghost use Rattle.nio_history.specs.Conditions.{Condition};
ghost use Rattle.nio_history.specs.Questions.{question_of};
ghost use Rattle.nio_words.specs.Passes.{IsReady, acts_seen, limits_of, state_seen};
ghost use Rattle.nio_words.specs.Steps.{Steps};
ghost use Rattle.nio_record.specs.Recorded.{IsDraw};

use nio_base::CallerNo;
use nio_history::{Act, Mark};
use nio_words::{Pass, Words};

/// Makes the step, and answers the act with what it found, whatever `act` says of that. A draw is not made.
pub(crate) fn make_step(w: &Words, p: &mut Pass, me: CallerNo, act: Act) -> Option<Act>
    requires ready { IsReady w.now p.old me }
    requires may { Condition (limits_of w.now) (acts_seen p.old me) (state_seen p.old) me act }
    ensures made { IfSome result (Steps w.now p.old p.new me) }
    ensures asked { IfSome result (λ made. question_of made ≡ question_of act) }
    ensures nothing { result ≡ None → p.new ≡ p.old }
    ensures draw { result ≡ None → IsDraw act }
{
    match act {
        Act::DrawBit(_, _) => None,
        Act::MakeSelector(s, _) => Some(Act::MakeSelector(s, w.make_selector(p, me, s))),
        Act::LookSelectors(_) => Some(Act::LookSelectors(w.look_selectors(p, me))),
        Act::Wake(s, _) => Some(Act::Wake(s, w.wake(p, me, s))),
        Act::LookGate(s, _) => Some(Act::LookGate(s, w.look_gate(p, me, s))),
        Act::SetInterrupt(n, _) => Some(Act::SetInterrupt(n, w.set_interrupt(p, me, n))),
        Act::TakeInterrupt(_) => Some(Act::TakeInterrupt(w.take_interrupt(p, me))),
        Act::LookInterrupt(_) => Some(Act::LookInterrupt(w.look_interrupt(p, me))),
        Act::LookKey(s, i, _) => Some(Act::LookKey(s, i, w.look_key(p, me, s, i))),
        Act::CancelKey(s, i, _) => Some(Act::CancelKey(s, i, w.cancel_key(p, me, s, i))),
        Act::LookInterest(s, i, _) => Some(Act::LookInterest(s, i, w.look_interest(p, me, s, i))),
        Act::SwapInterest(s, i, ops, _) => {
            Some(Act::SwapInterest(s, i, ops, w.swap_interest(p, me, s, i, ops)))
        }
        Act::OrInterest(s, i, ops, _) => {
            Some(Act::OrInterest(s, i, ops, w.or_interest(p, me, s, i, ops)))
        }
        Act::AndInterest(s, i, ops, _) => {
            Some(Act::AndInterest(s, i, ops, w.and_interest(p, me, s, i, ops)))
        }
        Act::SwapNote(s, i, att, _) => Some(Act::SwapNote(
            s,
            i,
            att,
            w.swap_note(p, me, s, i, att),
        )),
        Act::LookNote(s, i, _) => Some(Act::LookNote(s, i, w.look_note(p, me, s, i))),
        Act::MakeChannel(c, kind, _) => {
            Some(Act::MakeChannel(c, kind, w.make_channel(p, me, c, kind)))
        }
        Act::LookChannel(c, _) => Some(Act::LookChannel(c, w.look_channel(p, me, c))),
        Act::Claim(s, i, c, _) => Some(Act::Claim(s, i, c, w.claim(p, me, s, i, c))),
        Act::RaiseKeys(s, n, _) => Some(Act::RaiseKeys(s, n, w.raise_keys(p, me, s, n))),
        Act::LookKeys(s, _) => Some(Act::LookKeys(s, w.look_keys(p, me, s))),
        Act::Publish(s, i, _) => Some(Act::Publish(s, i, w.publish(p, me, s, i))),
        Act::LookReg(c, s, _) => Some(Act::LookReg(c, s, w.look_reg(p, me, c, s))),
        Act::Enrol(c, s, i, serial, _) => {
            Some(Act::Enrol(c, s, i, serial, w.enrol(p, me, c, s, i, serial)))
        }
        Act::TakeTurn(s, _) => Some(Act::TakeTurn(s, w.take_turn(p, me, s))),
        Act::BeginLook(s, _) => Some(Act::BeginLook(s, w.begin_look(p, me, s))),
        Act::GiveTurn(s) => {
            w.give_turn(p, me, s);
            Some(Act::GiveTurn(s))
        }
        Act::Remove(s, i, _) => Some(Act::Remove(s, i, w.remove(p, me, s, i))),
        Act::LookMark(s, i, _) => Some(Act::LookMark(s, i, w.look_mark(p, me, s, i))),
        Act::Mark(s, i, from, told, _) => {
            let (selected, ready) = (from.selected, from.ready);
            let found = w.mark(p, me, s, i, from, told);
            Some(Act::Mark(s, i, Mark { selected, ready }, told, found))
        }
        Act::UnselectBit(s, i, _) => Some(Act::UnselectBit(s, i, w.unselect_bit(p, me, s, i))),
        Act::EndWake(s, _) => Some(Act::EndWake(s, w.end_wake(p, me, s))),
        Act::LookChannels(_) => Some(Act::LookChannels(w.look_channels(p, me))),
        Act::RaiseChannels(n, _) => Some(Act::RaiseChannels(n, w.raise_channels(p, me, n))),
        Act::TryHoldBit(c, _) => Some(Act::TryHoldBit(c, w.try_hold_bit(p, me, c))),
        Act::Release(c) => {
            w.release(p, me, c);
            Some(Act::Release(c))
        }
        Act::SetMode(c, blocking, _) => {
            Some(Act::SetMode(c, blocking, w.set_mode(p, me, c, blocking)))
        }
        Act::CloseBit(c, from, _) => Some(Act::CloseBit(c, from, w.close_bit(p, me, c, from))),
        Act::ShutBit(s, _) => Some(Act::ShutBit(s, w.shut_bit(p, me, s))),
        Act::Enter(s, _) => Some(Act::Enter(s, w.enter(p, me, s))),
        Act::Pin(s, i, _) => Some(Act::Pin(s, i, w.pin(p, me, s, i))),
        Act::Unpin(s, i) => {
            w.unpin(p, me, s, i);
            Some(Act::Unpin(s, i))
        }
        Act::ClearMark(s, i, _) => Some(Act::ClearMark(s, i, w.clear_mark(p, me, s, i))),
        Act::ClaimAgain(s, i, c, from, _) => {
            Some(Act::ClaimAgain(s, i, c, from, w.claim_again(p, me, s, i, c, from)))
        }
        Act::LookFree(s, j, _) => Some(Act::LookFree(s, j, w.look_free(p, me, s, j))),
        Act::PutFree(s, i) => {
            w.put_free(p, me, s, i);
            Some(Act::PutFree(s, i))
        }
        Act::TakeFree(s, i, _) => Some(Act::TakeFree(s, i, w.take_free(p, me, s, i))),
        Act::Reopen(c, from, _) => Some(Act::Reopen(c, from, w.reopen(p, me, c, from))),
        Act::Touch(s, i, _) => Some(Act::Touch(s, i, w.touch(p, me, s, i))),
        Act::LookTouched(s, j, _) => Some(Act::LookTouched(s, j, w.look_touched(p, me, s, j))),
        Act::TakeTouched(s, j, _) => Some(Act::TakeTouched(s, j, w.take_touched(p, me, s, j))),
        Act::LookIndex(s, i, _) => Some(Act::LookIndex(s, i, w.look_index(p, me, s, i))),
        Act::TakeList(s, _) => Some(Act::TakeList(s, w.take_list(p, me, s))),
    }
}

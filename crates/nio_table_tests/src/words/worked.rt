//! Two callers do, step by step on a table, what the worked history says. In it a caller's pin holds back the
//! other's claim of a free index; once it is taken off, the index is given again, with the next serial. At last
//! the number of the closed channel is given to a new one.
ghost use Rattle.std.specs.Prelude.{◌≡◌, ◌+◌, IsTrue, length};
ghost use Rattle.nio_history.specs.Conditions.{Condition};
ghost use Rattle.nio_words.specs.Passes.{IsReady, acts_seen, limits_of, state_seen};
ghost use Rattle.nio_words.specs.Steps.{Steps};
ghost use Rattle.nio_table_tests.specs.Following.{Follows, IsPart};

use super::{SMALL, history};
use crate::tables::drawn_table;
use nio_base::CallerNo;
use nio_history::{Act, Chan, IndexWord, Stage};
use nio_words::{Pass, Words};
use std::process::Abort;
use std::test::Fail;

// `==` stands in functions of its own, in which the check proves what it means.
fn same_channel(first: Chan, second: Chan) -> bool
    ensures { IsTrue result → first ≡ second }
{
    first == second
}

fn same_stage(first: Stage, second: Stage) -> bool
    ensures { IsTrue result → first ≡ second }
{
    first == second
}

fn same_index(first: IndexWord, second: IndexWord) -> bool
    ensures { IsTrue result → first ≡ second }
{
    first == second
}

/// Makes a step: whether it found what the act says. A draw is no step of a caller that is drawn.
fn repeats(w: &Words, p: &mut Pass, me: CallerNo, act: Act) -> bool
    requires ready { IsReady w.now p.old me }
    requires may { Condition (limits_of w.now) (acts_seen p.old me) (state_seen p.old) me act }
    ensures { IsTrue result → Steps w.now p.old p.new me act }
{
    match act {
        Act::DrawBit(_, _) => false,
        Act::MakeSelector(s, found) => w.make_selector(p, me, s) == found,
        Act::LookSelectors(found) => w.look_selectors(p, me) == found,
        Act::Wake(s, found) => w.wake(p, me, s) == found,
        Act::LookGate(s, found) => w.look_gate(p, me, s) == found,
        Act::SetInterrupt(n, found) => w.set_interrupt(p, me, n) == found,
        Act::TakeInterrupt(found) => w.take_interrupt(p, me) == found,
        Act::LookInterrupt(found) => w.look_interrupt(p, me) == found,
        Act::LookKey(s, i, found) => same_stage(w.look_key(p, me, s, i), found),
        Act::CancelKey(s, i, found) => same_stage(w.cancel_key(p, me, s, i), found),
        Act::LookInterest(s, i, found) => w.look_interest(p, me, s, i) == found,
        Act::SwapInterest(s, i, ops, found) => w.swap_interest(p, me, s, i, ops) == found,
        Act::OrInterest(s, i, ops, found) => w.or_interest(p, me, s, i, ops) == found,
        Act::AndInterest(s, i, ops, found) => w.and_interest(p, me, s, i, ops) == found,
        Act::SwapNote(s, i, att, found) => w.swap_note(p, me, s, i, att) == found,
        Act::LookNote(s, i, found) => w.look_note(p, me, s, i) == found,
        Act::MakeChannel(c, kind, found) => w.make_channel(p, me, c, kind) == found,
        Act::LookChannel(c, found) => same_channel(w.look_channel(p, me, c), found),
        Act::Claim(s, i, c, found) => w.claim(p, me, s, i, c) == found,
        Act::RaiseKeys(s, n, found) => w.raise_keys(p, me, s, n) == found,
        Act::LookKeys(s, found) => w.look_keys(p, me, s) == found,
        Act::Publish(s, i, found) => same_stage(w.publish(p, me, s, i), found),
        Act::LookReg(c, s, found) => w.look_reg(p, me, c, s) == found,
        Act::Enrol(c, s, i, serial, found) => w.enrol(p, me, c, s, i, serial) == found,
        Act::TakeTurn(s, found) => w.take_turn(p, me, s) == found,
        Act::BeginLook(s, found) => w.begin_look(p, me, s) == found,
        Act::GiveTurn(s) => {
            w.give_turn(p, me, s);
            true
        }
        Act::Remove(s, i, found) => same_stage(w.remove(p, me, s, i), found),
        Act::LookMark(s, i, found) => w.look_mark(p, me, s, i) == found,
        Act::Mark(s, i, from, told, found) => w.mark(p, me, s, i, from, told) == found,
        Act::UnselectBit(s, i, found) => w.unselect_bit(p, me, s, i) == found,
        Act::EndWake(s, found) => w.end_wake(p, me, s) == found,
        Act::LookChannels(found) => w.look_channels(p, me) == found,
        Act::RaiseChannels(n, found) => w.raise_channels(p, me, n) == found,
        Act::TryHoldBit(c, found) => w.try_hold_bit(p, me, c) == found,
        Act::Release(c) => {
            w.release(p, me, c);
            true
        }
        Act::SetMode(c, blocking, found) => same_channel(w.set_mode(p, me, c, blocking), found),
        Act::CloseBit(c, from, found) => same_channel(w.close_bit(p, me, c, from), found),
        Act::ShutBit(s, found) => w.shut_bit(p, me, s) == found,
        Act::Enter(s, found) => w.enter(p, me, s) == found,
        Act::Pin(s, i, found) => same_stage(w.pin(p, me, s, i), found),
        Act::Unpin(s, i) => {
            w.unpin(p, me, s, i);
            true
        }
        Act::ClearMark(s, i, found) => w.clear_mark(p, me, s, i) == found,
        Act::ClaimAgain(s, i, c, from, found) => w.claim_again(p, me, s, i, c, from) == found,
        Act::LookFree(s, j, found) => w.look_free(p, me, s, j) == found,
        Act::PutFree(s, i) => {
            w.put_free(p, me, s, i);
            true
        }
        Act::TakeFree(s, i, found) => w.take_free(p, me, s, i) == found,
        Act::Reopen(c, from, found) => w.reopen(p, me, c, from) == found,
        Act::Touch(s, i, found) => w.touch(p, me, s, i) == found,
        Act::LookTouched(s, j, found) => w.look_touched(p, me, s, j) == found,
        Act::TakeTouched(s, j, found) => w.take_touched(p, me, s, j) == found,
        Act::LookIndex(s, i, found) => same_index(w.look_index(p, me, s, i), found),
        Act::TakeList(s, found) => w.take_list(p, me, s) == found,
    }
}

/// Makes these steps of the worked history. `_from` says how many events stand before them there, and the
/// proof alone needs it.
fn follow(rt: &impl Abort, w: &Words, p: &mut Pass, _from: usize, steps: &[(CallerNo, Act)])
    requires follows { Follows w.now _from p.old }
    requires part { IsPart _from steps.now }
    ensures { Follows w.now (_from + length steps.now) p.new }
{
    for step in steps {
        assert!(rt; repeats(w, p, step.0, step.1));
    }
}

/// Until caller 0 has removed the first key and made its index free.
pub(super) fn remove_first_key(rt: &impl Abort, w: &Words, p: &mut Pass)
    requires { Follows w.now 2 p.old }
    ensures { Follows w.now 65 p.new }
{
    follow(rt, w, p, 2, &history::opening());
    follow(rt, w, p, 8, &history::set_non_blocking());
    follow(rt, w, p, 14, &history::registering());
    follow(rt, w, p, 30, &history::changing_interest());
    follow(rt, w, p, 36, &history::beginning());
    follow(rt, w, p, 41, &history::taking_the_list());
    follow(rt, w, p, 48, &history::waking_and_cancelling());
    follow(rt, w, p, 52, &history::marking_and_ending());
}

#[test]
fn table_follows_the_worked_history(rt: HostRuntime) -> Result<(), Fail> {
    let (words, mut p) = drawn_table(rt.alloc(), SMALL)?;
    remove_first_key(&rt, &words, &mut p);
    follow(&rt, &words, &mut p, 65, &history::finding_it_pinned());
    follow(&rt, &words, &mut p, 79, &history::registering_again());
    follow(&rt, &words, &mut p, 95, &history::removing_again());
    follow(&rt, &words, &mut p, 114, &history::blocking_again());
    follow(&rt, &words, &mut p, 119, &history::closing());
    follow(&rt, &words, &mut p, 130, &history::reopening());
    Ok(())
}

//! Whole selections.
ghost use Rattle.std.specs.Prelude.{◌≡◌, ◌≢◌, None, Err, Ok, IfOk, IfErr, IfSome, OnErr};
ghost use Rattle.nio_base.specs.declared.numbers.ChanNo.{ChanNo};
ghost use Rattle.nio_history.specs.declared.found.Mode.TheVariants as mode;
ghost use Rattle.nio_select.specs.InHand.{known_by, list_of, selection_of, TakesOnList};
ghost use Rattle.nio_select.specs.InProgress.{GivesBack, HasList, IfAgain, IfDone, MaySelect, Selects};
ghost use Rattle.nio_select.specs.Listed.{ok_seen};
ghost use Rattle.nio_steps.specs.Calls.{CallClause};
ghost use Rattle.nio_steps.specs.SelectCalls.{Begins, begin_finds_busy};
ghost use Rattle.nio_steps.specs.Waiting.{Retries};
ghost use Rattle.nio_steps.specs.declared.refusal.BeginError.TheVariants.{Busy};
ghost use Rattle.nio_words.specs.Passes.{IsReady};
ghost use Rattle.nio_words.specs.Views.{view};
ghost use Rattle.nio_poller.specs.Polls.{CountsFaults};
ghost use Rattle.nio_poller.specs.Selecting.{SelectClause, SelectToldClause, SelectsUntil, TimedClause, TimedToldClause};
ghost use Rattle.nio_poller.specs.Telling.{PollsOnce, PollsClause, error_in, failed_with};
ghost use Rattle.nio_poller.specs.declared.poller.PollError.TheVariants.{Fault};
ghost use Rattle.nio_poller.specs.declared.selecting.SelectError.TheVariants as select_error;

use crate::poller::{PollError, Poller};
use crate::until::{Until, Waiting};
use nio_base::CallerNo;
use nio_history::{Mode, NegativeTimeout};
use nio_select::{After, KeyList, Selecting, Selector};
use nio_steps::{BeginError, Selected};
use nio_words::{Pass, Words};
use std::alloc::Global;
use std::sync::Wait;
use std::thread;
use thiserror::Error;

/// Why a whole selection has no answer.
#[derive(Clone, Copy, Debug, PartialEq, Eq, Error)]
pub enum SelectError {
    /// The timeout is negative: Java's `IllegalArgumentException`.
    #[error("the timeout is negative")]
    NegativeTimeout,
    /// The selector is closed: Java's `ClosedSelectorException`.
    #[error("the selector is closed")]
    ClosedSelector,
    /// A poll failed: Java's `IOException`. The selection was left: its turn is free, and a pending wakeup stays.
    #[error("the poll failed")]
    PollFault,
    /// There is no memory for the list of keys or for a poll's answer. The turn is free.
    #[error("out of memory")]
    Memory,
}

/// Waits until a key of the selector is updated, a wakeup is pending, the selector is closed or the caller is
/// interrupted: Java's `select()`. While a selection is in progress there it waits for that one first; where that is
/// the caller's own, it waits for ever.
///
/// As Java's documentation says, a key is updated where it becomes selected or its ready set gains an operation. Where a
/// poll tells only of keys that are selected already with the operations told, the selection polls again at once: a
/// program that leaves such keys selected spins here. So take each key out of the selected set before the next
/// selection, or call `select_told`.
///
/// The poller sees one poll more than the wait needs: the first poll of the selection is made with `Mode::Now`, so that
/// what is pending is found before a poll waits. Each further one is made with `Mode::Wait`.
pub fn select<R: Wait, P: Poller>(
    rt: &R,
    alloc: Global,
    w: &Words,
    p: &mut Pass,
    me: CallerNo,
    selector: &mut Selector,
    poller: &mut P,
) -> Result<Selected, SelectError>
    requires ready { IsReady w.now p.old me }
    requires may { MaySelect (view w.now p.old) me selector.old }
    ensures call { SelectClause me mode.Wait selector.old selector.new
        (view w.now p.old) (view w.now p.new) (P.polls poller.old) (P.polls poller.new) (P.ready poller.new) result }
    ensures cause { CountsFaults select_error.PollFault (P.poll_faults poller.old) (P.poll_faults poller.new) result }
    ensures unready { result ≡ Err select_error.PollFault → (c : ChanNo) → P.ready poller.new c ≡ 0 }
    ensures kept { P.kept poller.old poller.new }
    ensures unasked { result ≡ Err select_error.ClosedSelector → poller.new ≡ poller.old }
    ensures ready { IsReady w.now p.new me }
    ensures may { MaySelect (view w.now p.new) me selector.new }
{
    let waiting = Waiting {
        mode: Mode::Wait,
        until: Until::Updated,
    };
    select_in(rt, alloc, w, p, me, selector, poller, waiting)
}

/// Selects without waiting: Java's `selectNow`. While a selection is in progress there it waits for that one first, as
/// `select` does.
pub fn select_now<R: Wait, P: Poller>(
    rt: &R,
    alloc: Global,
    w: &Words,
    p: &mut Pass,
    me: CallerNo,
    selector: &mut Selector,
    poller: &mut P,
) -> Result<Selected, SelectError>
    requires ready { IsReady w.now p.old me }
    requires may { MaySelect (view w.now p.old) me selector.old }
    ensures call { SelectClause me mode.Now selector.old selector.new
        (view w.now p.old) (view w.now p.new) (P.polls poller.old) (P.polls poller.new) (P.ready poller.new) result }
    ensures cause { CountsFaults select_error.PollFault (P.poll_faults poller.old) (P.poll_faults poller.new) result }
    ensures unready { result ≡ Err select_error.PollFault → (c : ChanNo) → P.ready poller.new c ≡ 0 }
    ensures kept { P.kept poller.old poller.new }
    ensures unasked { result ≡ Err select_error.ClosedSelector → poller.new ≡ poller.old }
    ensures ready { IsReady w.now p.new me }
    ensures may { MaySelect (view w.now p.new) me selector.new }
{
    let waiting = Waiting {
        mode: Mode::Now,
        until: Until::Updated,
    };
    select_in(rt, alloc, w, p, me, selector, poller, waiting)
}

/// The same as `select`, for at most `ms` milliseconds; 0 waits without limit: Java's `select(long)`. Each poll of the
/// selection but the first, which doesn't wait, is asked to wait for the whole time, and the selection is over where
/// such a poll says that it has passed. So a selection that goes on after a poll that returned early can wait for
/// longer than `ms` in all.
pub fn select_for<R: Wait, P: Poller>(
    rt: &R,
    alloc: Global,
    w: &Words,
    p: &mut Pass,
    me: CallerNo,
    selector: &mut Selector,
    poller: &mut P,
    ms: i64,
) -> Result<Selected, SelectError>
    requires ready { IsReady w.now p.old me }
    requires may { MaySelect (view w.now p.old) me selector.old }
    ensures call { TimedClause me ms selector.old selector.new
        (view w.now p.old) (view w.now p.new) (P.polls poller.old) (P.polls poller.new) (P.ready poller.new) result }
    ensures cause { CountsFaults select_error.PollFault (P.poll_faults poller.old) (P.poll_faults poller.new) result }
    ensures unready { result ≡ Err select_error.PollFault → (c : ChanNo) → P.ready poller.new c ≡ 0 }
    ensures kept { P.kept poller.old poller.new }
    ensures unasked { result ≡ Err select_error.ClosedSelector → poller.new ≡ poller.old }
    ensures refused { result ≡ Err select_error.NegativeTimeout → poller.new ≡ poller.old }
    ensures ready { IsReady w.now p.new me }
    ensures may { MaySelect (view w.now p.new) me selector.new }
{
    match Mode::waiting(ms) {
        Ok(mode) => {
            let waiting = Waiting {
                mode,
                until: Until::Updated,
            };
            select_in(rt, alloc, w, p, me, selector, poller, waiting)
        }
        Err(NegativeTimeout) => Err(SelectError::NegativeTimeout),
    }
}

/// The same as `select`, but over once a poll told anything of what the selection looked for, also of a key that is
/// selected already with those operations: what `select()` of JDK 17 does. It is for programs that leave keys selected,
/// with which `select` spins.
///
/// Where no key was updated it answers the count 0, and `Why::Elapsed` unless a closing, a wakeup or an interrupt ended
/// it too. `Why::Elapsed` says here that all that was told was selected already, or that another caller changed the marks
/// of those keys meanwhile: there is no limit of time, and each poll but the first is made with `Mode::Wait`.
pub fn select_told<R: Wait, P: Poller>(
    rt: &R,
    alloc: Global,
    w: &Words,
    p: &mut Pass,
    me: CallerNo,
    selector: &mut Selector,
    poller: &mut P,
) -> Result<Selected, SelectError>
    requires ready { IsReady w.now p.old me }
    requires may { MaySelect (view w.now p.old) me selector.old }
    ensures call { SelectToldClause me mode.Wait selector.old selector.new
        (view w.now p.old) (view w.now p.new) (P.polls poller.old) (P.polls poller.new) (P.ready poller.new) result }
    ensures cause { CountsFaults select_error.PollFault (P.poll_faults poller.old) (P.poll_faults poller.new) result }
    ensures unready { result ≡ Err select_error.PollFault → (c : ChanNo) → P.ready poller.new c ≡ 0 }
    ensures kept { P.kept poller.old poller.new }
    ensures unasked { result ≡ Err select_error.ClosedSelector → poller.new ≡ poller.old }
    ensures ready { IsReady w.now p.new me }
    ensures may { MaySelect (view w.now p.new) me selector.new }
{
    let waiting = Waiting {
        mode: Mode::Wait,
        until: Until::Told,
    };
    select_in(rt, alloc, w, p, me, selector, poller, waiting)
}

/// The same as `select_told`, for at most `ms` milliseconds; 0 waits without limit: what `select(long)` of JDK 17 does.
/// `Why::Elapsed` says that the time was over, or the same as after `select_told`. Each poll but the first is asked to
/// wait for the whole time, as in `select_for`.
pub fn select_told_for<R: Wait, P: Poller>(
    rt: &R,
    alloc: Global,
    w: &Words,
    p: &mut Pass,
    me: CallerNo,
    selector: &mut Selector,
    poller: &mut P,
    ms: i64,
) -> Result<Selected, SelectError>
    requires ready { IsReady w.now p.old me }
    requires may { MaySelect (view w.now p.old) me selector.old }
    ensures call { TimedToldClause me ms selector.old selector.new
        (view w.now p.old) (view w.now p.new) (P.polls poller.old) (P.polls poller.new) (P.ready poller.new) result }
    ensures cause { CountsFaults select_error.PollFault (P.poll_faults poller.old) (P.poll_faults poller.new) result }
    ensures unready { result ≡ Err select_error.PollFault → (c : ChanNo) → P.ready poller.new c ≡ 0 }
    ensures kept { P.kept poller.old poller.new }
    ensures unasked { result ≡ Err select_error.ClosedSelector → poller.new ≡ poller.old }
    ensures refused { result ≡ Err select_error.NegativeTimeout → poller.new ≡ poller.old }
    ensures ready { IsReady w.now p.new me }
    ensures may { MaySelect (view w.now p.new) me selector.new }
{
    match Mode::waiting(ms) {
        Ok(mode) => {
            let waiting = Waiting {
                mode,
                until: Until::Told,
            };
            select_in(rt, alloc, w, p, me, selector, poller, waiting)
        }
        Err(NegativeTimeout) => Err(SelectError::NegativeTimeout),
    }
}

fn select_in<R: Wait, P: Poller>(
    rt: &R,
    alloc: Global,
    w: &Words,
    p: &mut Pass,
    me: CallerNo,
    selector: &mut Selector,
    poller: &mut P,
    waiting: Waiting,
) -> Result<Selected, SelectError>
    requires ready { IsReady w.now p.old me }
    requires may { MaySelect (view w.now p.old) me selector.old }
    ensures call { SelectsUntil waiting.until me waiting.mode selector.old selector.new
        (view w.now p.old) (view w.now p.new) (P.polls poller.old) (P.polls poller.new) (P.ready poller.new) result }
    ensures cause { CountsFaults select_error.PollFault (P.poll_faults poller.old) (P.poll_faults poller.new) result }
    ensures unready { result ≡ Err select_error.PollFault → (c : ChanNo) → P.ready poller.new c ≡ 0 }
    ensures kept { P.kept poller.old poller.new }
    ensures unasked { result ≡ Err select_error.ClosedSelector → poller.new ≡ poller.old }
    ensures not_refused { result ≢ Err select_error.NegativeTimeout }
    ensures ready { IsReady w.now p.new me }
    ensures may { MaySelect (view w.now p.new) me selector.new }
{
    match begin(rt, alloc, w, p, me, selector, waiting.begun_with()) {
        Ok(selection) => {
            let (ended, list) = poll_until_over(rt, alloc, w, p, me, selection, poller, waiting);
            selector.give_back(list);
            ended
        }
        Err(BeginError::ClosedSelector) => Err(SelectError::ClosedSelector),
        Err(BeginError::Memory) => Err(SelectError::Memory),
        Err(BeginError::Busy) => unreachable!(),
    }
}

// Begins once nobody has the turn.
fn begin<R: Wait>(
    rt: &R,
    alloc: Global,
    w: &Words,
    p: &mut Pass,
    me: CallerNo,
    selector: &mut Selector,
    mode: Mode,
) -> Result<Selecting, BeginError>
    requires ready { IsReady w.now p.old me }
    requires may { MaySelect (view w.now p.old) me selector.old }
    ensures call { CallClause me (Retries (Begins selector.old.number mode (known_by selector.old)) begin_finds_busy)
        (view w.now p.old) (view w.now p.new) (ok_seen selection_of result) }
    ensures ready { IsReady w.now p.new me }
    ensures begun { IfOk result (λ s. Selects (view w.now p.new) me (selection_of s)) }
    ensures lent { IfOk result (λ s. (selector.new ≡ record selector.old { list = None })
        × TakesOnList selector.old s) }
    ensures refused { IfErr result (λ _. (selector.new ≡ selector.old)
        × MaySelect (view w.now p.new) me selector.new) }
    ensures waits { result ≢ Err Busy }
{
    for _ in rt.forever() {
        match selector.begin(alloc, w, p, me, mode) {
            Ok(selection) => return Ok(selection),
            Err(BeginError::Busy) => thread::yield_now(),
            Err(BeginError::ClosedSelector) => return Err(BeginError::ClosedSelector),
            Err(BeginError::Memory) => return Err(BeginError::Memory),
        }
    }
    unreachable!()
}

// Polls, and tells the selection what the poller answered, until it is over. The first poll doesn't wait: a wakeup or
// an interrupt may be pending whose ring ended an earlier poll, and the selection finds it before a poll waits. Where a
// poll has no answer the selection is left. The selector's list comes back, where the selection went by it.
fn poll_until_over<R: Wait, P: Poller>(
    rt: &R,
    alloc: Global,
    w: &Words,
    p: &mut Pass,
    me: CallerNo,
    selection: Selecting,
    poller: &mut P,
    waiting: Waiting,
) -> (Result<Selected, SelectError>, Option<KeyList>)
    requires ready { IsReady w.now p.old me }
    requires begun { Selects (view w.now p.old) me (selection_of selection) }
    ensures call { PollsClause me (selection_of selection) waiting
        (view w.now p.old) (view w.now p.new) (P.polls poller.old) (P.polls poller.new) (P.ready poller.new) result.0 }
    ensures cause { CountsFaults select_error.PollFault (P.poll_faults poller.old) (P.poll_faults poller.new) result.0 }
    ensures unready { result.0 ≡ Err select_error.PollFault → (c : ChanNo) → P.ready poller.new c ≡ 0 }
    ensures kept { P.kept poller.old poller.new }
    ensures not_closed { result.0 ≢ Err select_error.ClosedSelector }
    ensures not_refused { result.0 ≢ Err select_error.NegativeTimeout }
    ensures ready { IsReady w.now p.new me }
    ensures list { result.1 ≡ list_of selection }
    ensures had { IfSome result.1 (HasList (view w.now p.new) me) }
{
    let mut selection = selection;
    let mut is_first = true;
    for _ in rt.forever() {
        match poll_once(rt, alloc, w, p, me, selection, poller, waiting, is_first) {
            Ok(After::Again(next)) => {
                selection = next;
                is_first = false;
            }
            Ok(After::Done(answer, list)) => return (Ok(answer), list),
            Err(Left { error, list }) => return (Err(error_of(error)), list),
        }
    }
    unreachable!()
}

// Why the selection has no answer, where a poll has none.
fn error_of(error: PollError) -> SelectError
    ensures { result ≡ failed_with error }
{
    match error {
        PollError::Fault => SelectError::PollFault,
        PollError::Memory => SelectError::Memory,
    }
}

/// A poll had no answer, and its selection was left.
#[derive(Drop)]
struct Left {
    error: PollError,
    list: Option<KeyList>,
}

fn poll_once<R: Wait, P: Poller>(
    rt: &R,
    alloc: Global,
    w: &Words,
    p: &mut Pass,
    me: CallerNo,
    selection: Selecting,
    poller: &mut P,
    waiting: Waiting,
    is_first: bool,
) -> Result<After, Left>
    requires ready { IsReady w.now p.old me }
    requires begun { Selects (view w.now p.old) me (selection_of selection) }
    ensures call { PollsOnce me (selection_of selection) waiting is_first
        (view w.now p.old) (view w.now p.new) (P.polls poller.old) (P.polls poller.new) (P.ready poller.new) result }
    ensures cause { CountsFaults Fault (P.poll_faults poller.old) (P.poll_faults poller.new) (error_in result) }
    ensures unready { OnErr result ((c : ChanNo) → P.ready poller.new c ≡ 0) }
    ensures kept { P.kept poller.old poller.new }
    ensures ready { IsReady w.now p.new me }
    ensures goes_on { IfOk result (λ after. IfAgain after (λ s. (s ≡ selection)
        × Selects (view w.now p.new) me (selection_of s))) }
    ensures done { IfOk result (λ after. IfDone after (GivesBack (view w.now p.new) me selection)) }
    ensures left { IfErr result (λ left. GivesBack (view w.now p.new) me selection left.list) }
{
    let asked = selection.asked();
    match poller.poll(rt, alloc, asked, waiting.poll_mode(is_first)) {
        Ok(told) => {
            let told = waiting.tells(asked, is_first, told);
            Ok(selection.told(w, p, me, &told))
        }
        Err(error) => Err(Left {
            error,
            list: selection.leave(w, p, me),
        }),
    }
}

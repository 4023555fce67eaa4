//! The selections of a caller: whole ones, and the calls that they are made of. The caller keeps the selectors' lists that
//! it took, and selects by them; it keeps the selections that are in progress, and the closings.
ghost use Rattle.std.specs.Prelude.{◌≡◌, ◌↔◌, Err, IfOk, IfSome, None, Ok, OnErr, Some, if◌then◌else◌, false, is_some};
ghost use Rattle.std.specs.Prelude.{option_map};
ghost use Rattle.nio_base.specs.declared.numbers.ChanNo.{ChanNo};
ghost use Rattle.nio_history.specs.PassViews.{HasSelector};
ghost use Rattle.nio_history.specs.declared.found.Mode.TheVariants as mode;
ghost use Rattle.nio_poller.specs.Polls.{CountsFaults};
ghost use Rattle.nio_poller.specs.Selecting.{SelectClause, SelectToldClause, TimedClause, TimedToldClause};
ghost use Rattle.nio_poller.specs.declared.selecting.SelectError.TheVariants.{PollFault, ClosedSelector};
ghost use Rattle.nio_poller.specs.declared.selecting.SelectError.TheVariants.{NegativeTimeout};
ghost use Rattle.nio_select.specs.InHand.{TakesOnList, empty_list, known_by, list_of, selection_of};
ghost use Rattle.nio_select.specs.InProgress.{MaySelect, poll_of};
ghost use Rattle.nio_select.specs.KeyChanges.{TakesNote};
ghost use Rattle.nio_steps.specs.Calls.{CallClause};
ghost use Rattle.nio_steps.specs.Runs.{Completes};
ghost use Rattle.nio_steps.specs.SelectCalls.{Begins, leave_plan, shut_plan, take_list_plan};
ghost use Rattle.nio_words.specs.Passes.{IsReady};
ghost use Rattle.nio_words.specs.Views.{view};
ghost use Rattle.nio_caller.specs.Callers.{closing, held, selection, sees};
ghost use Rattle.nio_caller.specs.NamedCalls.{Gives, IfUncalled, MayRefuse, OnSelector};
ghost use Rattle.nio_caller.specs.Selections.{CallsOn, Finishes, HasBack, IsMade, SelectsOn, Starts, TellsKept};
ghost use Rattle.nio_caller.specs.Selections.{closing_after, closing_left, shut_says};
ghost use Rattle.nio_caller.specs.declared.refusal.CallError.TheVariants.{NoSuchSelector, Refused};

use super::Caller;
use crate::refusal::{CallError, NotClosing, NotSelecting, called};
use crate::table::Table;
use nio_base::{CallerNo, SelNo};
use nio_history::Mode;
use nio_poller::{Poller, SelectError};
use nio_select::{After, Finish, Lister, Selecting, Selector, Shutting, Told, Unlisted};
use nio_steps::{BeginError, Selected};
use nio_words::{Pass, Words};
use std::alloc::Global;
use std::sync::Wait;

impl<T: Table> Caller<T> {
    /// Takes the selector's list, where nobody has that: the caller has it for good, and its selections there look only
    /// at the keys that were touched since the last. Without the list a selection looks at every key. Says whether it was
    /// taken.
    pub fn take_list(&mut self, alloc: Global, sel: SelNo) -> bool
        ensures call { CallsOn sel (λ l. OnSelector l sel false (Completes (take_list_plan sel)))
            self.old self.new result }
        ensures list { held self.new sel
            ≡ (if result then record { number = sel; list = Some (empty_list sel) } else held self.old sel) }
        ensures progress { self.new.progress ≡ self.old.progress }
    {
        if !self.has_selector(sel) {
            return false;
        }
        match with_list(alloc, self.table.words(), &mut self.pass, self.number, sel) {
            Some(selector) => {
                self.lists.put(selector);
                true
            }
            None => false,
        }
    }

    /// Waits until a key of the selector was updated, a wakeup is pending, the selector is closed or the caller is
    /// interrupted: Java's `select()`. A key is updated where it comes into the selected set, or an operation into its
    /// ready set there. While a selection is in progress at the selector it waits for that one first; where that is the
    /// caller's own, it waits for ever. It goes by the selector's list where the caller took that.
    ///
    /// As Java's documentation says, it goes on where a poll told only of keys that are selected already with the
    /// operations told, and polls again at once: a program that doesn't take its keys out (`take_selected`) spins.
    pub fn select<R: Wait, P: Poller>(
        &mut self,
        rt: &R,
        alloc: Global,
        sel: SelNo,
        poller: &mut P,
    ) -> Result<Selected, CallError<SelectError>>
        ensures call { SelectsOn sel (λ before after seen. SelectClause self.old.number mode.Wait before after
            seen (sees self.new) (P.polls poller.old) (P.polls poller.new) (P.ready poller.new))
            self.old self.new result }
        ensures cause { CountsFaults (Refused PollFault) (P.poll_faults poller.old) (P.poll_faults poller.new) result }
        ensures unready { result ≡ Err (Refused PollFault) → (c : ChanNo) → P.ready poller.new c ≡ 0 }
        ensures kept { P.kept poller.old poller.new }
        ensures unasked { result ≡ Err (Refused ClosedSelector) → poller.new ≡ poller.old }
        ensures untouched { IfUncalled result (poller.new ≡ poller.old) }
    {
        if !self.has_selector(sel) {
            return Err(CallError::NoSuchSelector);
        }
        let mut selector = self.lists.take(sel);
        let selected = nio_poller::select(
            rt,
            alloc,
            self.table.words(),
            &mut self.pass,
            self.number,
            &mut selector,
            poller,
        );
        self.lists.put(selector);
        called(selected)
    }

    /// Selects without waiting: Java's `selectNow`. While a selection is in progress there it waits for that one
    /// first, as `select` does.
    pub fn select_now<R: Wait, P: Poller>(
        &mut self,
        rt: &R,
        alloc: Global,
        sel: SelNo,
        poller: &mut P,
    ) -> Result<Selected, CallError<SelectError>>
        ensures call { SelectsOn sel (λ before after seen. SelectClause self.old.number mode.Now before after
            seen (sees self.new) (P.polls poller.old) (P.polls poller.new) (P.ready poller.new))
            self.old self.new result }
        ensures cause { CountsFaults (Refused PollFault) (P.poll_faults poller.old) (P.poll_faults poller.new) result }
        ensures unready { result ≡ Err (Refused PollFault) → (c : ChanNo) → P.ready poller.new c ≡ 0 }
        ensures kept { P.kept poller.old poller.new }
        ensures unasked { result ≡ Err (Refused ClosedSelector) → poller.new ≡ poller.old }
        ensures untouched { IfUncalled result (poller.new ≡ poller.old) }
    {
        if !self.has_selector(sel) {
            return Err(CallError::NoSuchSelector);
        }
        let mut selector = self.lists.take(sel);
        let selected = nio_poller::select_now(
            rt,
            alloc,
            self.table.words(),
            &mut self.pass,
            self.number,
            &mut selector,
            poller,
        );
        self.lists.put(selector);
        called(selected)
    }

    /// The same as `select`, for at most `ms` milliseconds; 0 waits without limit: Java's `select(long)`. A selection
    /// that goes on after a poll that returned early can wait for longer than `ms` in all.
    pub fn select_for<R: Wait, P: Poller>(
        &mut self,
        rt: &R,
        alloc: Global,
        sel: SelNo,
        poller: &mut P,
        ms: i64,
    ) -> Result<Selected, CallError<SelectError>>
        ensures call { SelectsOn sel (λ before after seen. TimedClause self.old.number ms before after
            seen (sees self.new) (P.polls poller.old) (P.polls poller.new) (P.ready poller.new))
            self.old self.new result }
        ensures cause { CountsFaults (Refused PollFault) (P.poll_faults poller.old) (P.poll_faults poller.new) result }
        ensures unready { result ≡ Err (Refused PollFault) → (c : ChanNo) → P.ready poller.new c ≡ 0 }
        ensures kept { P.kept poller.old poller.new }
        ensures unasked { result ≡ Err (Refused ClosedSelector) → poller.new ≡ poller.old }
        ensures refused { result ≡ Err (Refused NegativeTimeout) → poller.new ≡ poller.old }
        ensures untouched { IfUncalled result (poller.new ≡ poller.old) }
    {
        if !self.has_selector(sel) {
            return Err(CallError::NoSuchSelector);
        }
        let mut selector = self.lists.take(sel);
        let selected = nio_poller::select_for(
            rt,
            alloc,
            self.table.words(),
            &mut self.pass,
            self.number,
            &mut selector,
            poller,
            ms,
        );
        self.lists.put(selector);
        called(selected)
    }

    /// The same as `select`, but over once a poll told anything of what the selection looked for, also of a key that is
    /// selected already with those operations: what `select()` of JDK 17 does. It is for programs that leave keys selected,
    /// with which `select` spins. Where no key was updated it answers the count 0, and `Why::Elapsed` where nothing else
    /// ended it.
    pub fn select_told<R: Wait, P: Poller>(
        &mut self,
        rt: &R,
        alloc: Global,
        sel: SelNo,
        poller: &mut P,
    ) -> Result<Selected, CallError<SelectError>>
        ensures call { SelectsOn sel (λ before after seen. SelectToldClause self.old.number mode.Wait before after
            seen (sees self.new) (P.polls poller.old) (P.polls poller.new) (P.ready poller.new))
            self.old self.new result }
        ensures cause { CountsFaults (Refused PollFault) (P.poll_faults poller.old) (P.poll_faults poller.new) result }
        ensures unready { result ≡ Err (Refused PollFault) → (c : ChanNo) → P.ready poller.new c ≡ 0 }
        ensures kept { P.kept poller.old poller.new }
        ensures unasked { result ≡ Err (Refused ClosedSelector) → poller.new ≡ poller.old }
        ensures untouched { IfUncalled result (poller.new ≡ poller.old) }
    {
        if !self.has_selector(sel) {
            return Err(CallError::NoSuchSelector);
        }
        let mut selector = self.lists.take(sel);
        let selected = nio_poller::select_told(
            rt,
            alloc,
            self.table.words(),
            &mut self.pass,
            self.number,
            &mut selector,
            poller,
        );
        self.lists.put(selector);
        called(selected)
    }

    /// The same as `select_told`, for at most `ms` milliseconds; 0 waits without limit: what `select(long)` of JDK 17 does.
    /// `Why::Elapsed` says that the time was over, or the same as after `select_told`.
    pub fn select_told_for<R: Wait, P: Poller>(
        &mut self,
        rt: &R,
        alloc: Global,
        sel: SelNo,
        poller: &mut P,
        ms: i64,
    ) -> Result<Selected, CallError<SelectError>>
        ensures call { SelectsOn sel (λ before after seen. TimedToldClause self.old.number ms before after
            seen (sees self.new) (P.polls poller.old) (P.polls poller.new) (P.ready poller.new))
            self.old self.new result }
        ensures cause { CountsFaults (Refused PollFault) (P.poll_faults poller.old) (P.poll_faults poller.new) result }
        ensures unready { result ≡ Err (Refused PollFault) → (c : ChanNo) → P.ready poller.new c ≡ 0 }
        ensures kept { P.kept poller.old poller.new }
        ensures unasked { result ≡ Err (Refused ClosedSelector) → poller.new ≡ poller.old }
        ensures refused { result ≡ Err (Refused NegativeTimeout) → poller.new ≡ poller.old }
        ensures untouched { IfUncalled result (poller.new ≡ poller.old) }
    {
        if !self.has_selector(sel) {
            return Err(CallError::NoSuchSelector);
        }
        let mut selector = self.lists.take(sel);
        let selected = nio_poller::select_told_for(
            rt,
            alloc,
            self.table.words(),
            &mut self.pass,
            self.number,
            &mut selector,
            poller,
            ms,
        );
        self.lists.put(selector);
        called(selected)
    }

    /// Begins a selection, by the selector's list where the caller has that: takes the selector's turn, removes the keys
    /// that were cancelled, and looks at the interest of those that are valid. The selection is in progress then:
    /// `selection` shows it, `told` and `leave` end it. `Busy` where a selection is in progress there, also one of the
    /// caller's own. The list is lent to the selection.
    pub fn begin(
        &mut self,
        alloc: Global,
        sel: SelNo,
        mode: Mode,
    ) -> Result<(), CallError<BeginError>>
        ensures call { CallsOn sel (λ l. OnSelector l sel (Err NoSuchSelector)
            (MayRefuse (Starts (selection self.new sel) (Begins sel mode (known_by (held self.old sel))))))
            self.old self.new result }
        ensures lent { IfOk result (λ _. IfSome (selection self.new sel) (λ s.
            (held self.new sel ≡ record { number = sel; list = None }) × TakesOnList (held self.old sel) s)) }
        ensures refused { OnErr result ((held self.new sel ≡ held self.old sel)
            × (selection self.new sel ≡ selection self.old sel)) }
        ensures closings { self.new.progress.closings ≡ self.old.progress.closings }
    {
        if !self.has_selector(sel) {
            return Err(CallError::NoSuchSelector);
        }
        let mut selector = self.lists.take(sel);
        let begun = selector.begin(alloc, self.table.words(), &mut self.pass, self.number, mode);
        self.lists.put(selector);
        match begun {
            Ok(selection) => {
                self.progress.put_selection(sel, selection);
                Ok(())
            }
            Err(error) => Err(CallError::Refused(error)),
        }
    }

    /// The caller's selection in progress on this selector: the keys that it asks for, and how long it waits. A poller is
    /// asked about these, and `told` takes its answer. None where the caller has none in progress there.
    pub fn selection(&self, sel: SelNo) -> Option<&Selecting>
        ensures { option_map (λ shown. shown.now) result ≡ selection self.now sel }
    {
        self.progress.selection(sel)
    }

    /// Tells the caller's selection in progress on this selector what a poller answered. None where no key was marked and
    /// nothing else ends the wait: it goes on, with a further poll. Else it is over, with this answer, and the selector's
    /// list, where it went by that, is the caller's again.
    pub fn told(&mut self, sel: SelNo, told: &Told) -> Result<Option<Selected>, NotSelecting>
        ensures none { (result ≡ Err (record {})) ↔ (selection self.old sel ≡ None) }
        ensures nothing { OnErr result (self.new ≡ self.old) }
        ensures call { IfSome (selection self.old sel) (λ s. CallsOn sel (λ _. TellsKept s (poll_of told.now))
            self.old self.new result) }
        ensures goes_on { result ≡ Ok None → (self.new.selectors ≡ self.old.selectors)
            × (selection self.new sel ≡ selection self.old sel) }
        ensures done { IfSome (selection self.old sel) (λ s. IfOk result (λ answer. IfSome answer (λ _.
            (selection self.new sel ≡ None) × HasBack (list_of s) self.old.selectors self.new.selectors))) }
        ensures closings { self.new.progress.closings ≡ self.old.progress.closings }
    {
        let mut unlisted = Unlisted;
        self.told_listing(sel, told, &mut unlisted)
    }

    /// Tells as `told` does, while the lister takes note of each key that is marked and of each that is removed, in the
    /// order of the steps: of none where the selection goes on.
    pub fn told_listing<L: Lister>(
        &mut self,
        sel: SelNo,
        told: &Told,
        lister: &mut L,
    ) -> Result<Option<Selected>, NotSelecting>
        ensures none { (result ≡ Err (record {})) ↔ (selection self.old sel ≡ None) }
        ensures nothing { OnErr result (self.new ≡ self.old) }
        ensures call { IfSome (selection self.old sel) (λ s. CallsOn sel (λ _. TellsKept s (poll_of told.now))
            self.old self.new result) }
        ensures goes_on { result ≡ Ok None → (self.new.selectors ≡ self.old.selectors)
            × (selection self.new sel ≡ selection self.old sel) }
        ensures done { IfSome (selection self.old sel) (λ s. IfOk result (λ answer. IfSome answer (λ _.
            (selection self.new sel ≡ None) × HasBack (list_of s) self.old.selectors self.new.selectors))) }
        ensures closings { self.new.progress.closings ≡ self.old.progress.closings }
        ensures listed { IfSome (selection self.old sel) (λ s. TakesNote L.noted s.asked.keys
            self.old.number (sees self.old) (sees self.new) lister.old lister.new) }
        ensures untold { OnErr result (lister.new ≡ lister.old) }
        ensures again { result ≡ Ok None → lister.new ≡ lister.old }
    {
        let Some(selection) = self.progress.take_selection(sel) else {
            return Err(NotSelecting);
        };
        match selection.told_listing(
            self.table.words(),
            &mut self.pass,
            self.number,
            told,
            lister,
        ) {
            After::Done(answer, list) => {
                self.lists.take_back(sel, list);
                Ok(Some(answer))
            }
            After::Again(selection) => {
                self.progress.put_selection(sel, selection);
                Ok(None)
            }
        }
    }

    /// Gives the turn of the caller's selection in progress on this selector back, after a poll that failed. A pending
    /// wakeup stays, and so do the keys' marks. The selector's list, where the selection went by it, is the caller's
    /// again.
    pub fn leave(&mut self, sel: SelNo) -> Result<(), NotSelecting>
        ensures none { (result ≡ Err (record {})) ↔ (selection self.old sel ≡ None) }
        ensures nothing { OnErr result (self.new ≡ self.old) }
        ensures call { IfSome (selection self.old sel) (λ s. CallsOn sel
            (λ _. IsMade (Completes (leave_plan (selection_of s)))) self.old self.new result) }
        ensures back { IfSome (selection self.old sel) (λ s.
            HasBack (list_of s) self.old.selectors self.new.selectors) }
        ensures over { selection self.new sel ≡ None }
        ensures closings { self.new.progress.closings ≡ self.old.progress.closings }
    {
        let Some(selection) = self.progress.take_selection(sel) else {
            return Err(NotSelecting);
        };
        let list = selection.leave(self.table.words(), &mut self.pass, self.number);
        self.lists.take_back(sel, list);
        Ok(())
    }

    /// Begins to close a selector: selections and registrations are refused from then on. Says whether this call began it:
    /// the closing is in progress then, and `try_finish` ends it. False where another call began to before; None where
    /// there is no such selector.
    pub fn shut(&mut self, sel: SelNo) -> Option<bool>
        ensures call { CallsOn sel (λ l. OnSelector l sel None (Gives (Completes (shut_plan sel))))
            self.old self.new (option_map shut_says result) }
        ensures lists { self.new.selectors ≡ self.old.selectors }
        ensures selections { self.new.progress.selections ≡ self.old.progress.selections }
        ensures closing { closing self.new sel ≡ closing_after result sel (closing self.old sel) }
    {
        if !self.has_selector(sel) {
            return None;
        }
        match nio_select::shut(self.table.words(), &mut self.pass, self.number, sel) {
            Shutting::Closing(closing) => {
                self.progress.put_closing(sel, closing);
                Some(true)
            }
            Shutting::AlreadyClosed => Some(false),
        }
    }

    /// Removes the keys of a selector that the caller began to close, where nobody selects there: the selector is closed
    /// then. False where somebody selects: the closing is still in progress.
    pub fn try_finish(&mut self, sel: SelNo) -> Result<bool, NotClosing>
        ensures none { (result ≡ Err (record {})) ↔ (closing self.old sel ≡ None) }
        ensures nothing { OnErr result (self.new ≡ self.old) }
        ensures call { IfSome (closing self.old sel) (λ _. CallsOn sel (λ _. Finishes sel) self.old self.new result) }
        ensures lists { self.new.selectors ≡ self.old.selectors }
        ensures selections { self.new.progress.selections ≡ self.old.progress.selections }
        ensures closing { closing self.new sel ≡ closing_left result (closing self.old sel) }
    {
        let Some(closing) = self.progress.take_closing(sel) else {
            return Err(NotClosing);
        };
        match closing.try_finish(self.table.words(), &mut self.pass, self.number) {
            Finish::Closed => Ok(true),
            Finish::Busy(closing) => {
                self.progress.put_closing(sel, closing);
                Ok(false)
            }
        }
    }
}

// The selector with its list, where nobody had that.
fn with_list(alloc: Global, w: &Words, p: &mut Pass, me: CallerNo, sel: SelNo) -> Option<Selector>
    requires ready { IsReady w.now p.old me }
    requires selector { HasSelector (view w.now p.old) sel }
    ensures call { CallClause me (Completes (take_list_plan sel))
        (view w.now p.old) (view w.now p.new) (is_some result) }
    ensures ready { IsReady w.now p.new me }
    ensures taken { IfSome result (λ s. s ≡ record { number = sel; list = Some (empty_list sel) }) }
    ensures may { IfSome result (MaySelect (view w.now p.new) me) }
{
    let selector = Selector::take(alloc, w, p, me, sel);
    if selector.has_list() {
        Some(selector)
    } else {
        None
    }
}

//! The calls of a caller that open, list, wake and close selectors, and those on interrupts.
ghost use Rattle.std.specs.Prelude.{Err, IfOk, None, false};
ghost use Rattle.nio_history.specs.PassViews.{HasSelector};
ghost use Rattle.nio_select.specs.Listed.{ok_seen};
ghost use Rattle.nio_steps.specs.Runs.{Completes};
ghost use Rattle.nio_steps.specs.SelectCalls.{open_selector_plan, ListsKeys, ListsSelected, wakeup_plan};
ghost use Rattle.nio_steps.specs.SelectCalls.{ClosesSelector, interrupt_plan, interrupted_plan};
ghost use Rattle.nio_caller.specs.Callers.{sees};
ghost use Rattle.nio_caller.specs.NamedCalls.{Calls, Does, Gives, OnCaller, OnSelector, MayRefuse};
ghost use Rattle.nio_caller.specs.declared.refusal.CallError.TheVariants.{NoSuchSelector};

use super::Caller;
use crate::refusal::{CallError, called};
use crate::table::Table;
use nio_base::{CallerNo, KeyNo, SelNo};
use nio_poller::Bell;
use nio_steps::{ListError, SelectorsSpent};
use std::alloc::Global;
use std::sync::Wait;

impl<T: Table> Caller<T> {
    /// Opens a selector: Java's `Selector.open`.
    pub fn open_selector(&mut self) -> Result<SelNo, SelectorsSpent>
        ensures call { Calls (λ l. Completes (open_selector_plan l)) self.old self.new result }
        ensures made { IfOk result (HasSelector (sees self.new)) }
    {
        nio_select::open_selector(self.table.words(), &mut self.pass, self.number)
    }

    /// The keys of the selector, in rising order of their indexes: Java's `keys`.
    pub fn keys(&mut self, alloc: Global, sel: SelNo) -> Result<Vec<KeyNo>, CallError<ListError>>
        ensures call { Calls (λ l. OnSelector l sel (Err NoSuchSelector) (MayRefuse (ListsKeys sel)))
            self.old self.new (ok_seen (λ v. v.items) result) }
    {
        if !self.has_selector(sel) {
            return Err(CallError::NoSuchSelector);
        }
        called(nio_select::keys(alloc, self.table.words(), &mut self.pass, self.number, sel))
    }

    /// The selected keys of the selector, in rising order of their indexes: Java's `selectedKeys`.
    pub fn selected_keys(
        &mut self,
        alloc: Global,
        sel: SelNo,
    ) -> Result<Vec<KeyNo>, CallError<ListError>>
        ensures call { Calls (λ l. OnSelector l sel (Err NoSuchSelector) (MayRefuse (ListsSelected sel)))
            self.old self.new (ok_seen (λ v. v.items) result) }
    {
        if !self.has_selector(sel) {
            return Err(CallError::NoSuchSelector);
        }
        called(nio_select::selected_keys(
            alloc,
            self.table.words(),
            &mut self.pass,
            self.number,
            sel,
        ))
    }

    /// Leaves a wakeup at the selector and rings: the selection that is in progress there, or else the next one,
    /// doesn't wait. Java's `wakeup`. It succeeds on a closed selector too. Says whether one was pending there already,
    /// which no selection had used up; None where there is no such selector.
    pub fn wakeup<B: Bell>(&mut self, sel: SelNo, bell: &B) -> Option<bool>
        ensures call { Calls (λ l. OnSelector l sel None (Gives (Completes (wakeup_plan sel)))) self.old self.new result }
    {
        if !self.has_selector(sel) {
            return None;
        }
        let pending = nio_poller::wakeup(
            self.table.words(),
            &mut self.pass,
            self.number,
            sel,
            bell,
        );
        Some(pending)
    }

    /// Closes the selector: Java's `close`. Refuses further selections and registrations, rings, waits until nobody
    /// selects there, and removes the selector's keys. Says whether this call closed it; false where there is no such
    /// selector. A caller that has a selection of its own in progress there would wait for ever.
    pub fn close<R: Wait, B: Bell>(&mut self, rt: &R, sel: SelNo, bell: &B) -> bool
        ensures call { Calls (λ l. OnSelector l sel false (ClosesSelector sel)) self.old self.new result }
    {
        if !self.has_selector(sel) {
            return false;
        }
        nio_poller::close(
            rt,
            self.table.words(),
            &mut self.pass,
            self.number,
            sel,
            bell,
        )
    }

    /// Sets the target's interrupt status and rings: Java's `Thread.interrupt`, for callers. Says whether the table has
    /// such a caller.
    pub fn interrupt<B: Bell>(&mut self, target: CallerNo, bell: &B) -> bool
        ensures call { Calls (λ l. OnCaller l target false (Does (Completes (interrupt_plan target))))
            self.old self.new result }
    {
        if target.0 >= self.table.words().limits().callers {
            return false;
        }
        nio_poller::interrupt(
            self.table.words(),
            &mut self.pass,
            self.number,
            target,
            bell,
        );
        true
    }

    /// Whether the caller's interrupt status was set; clears it. Java's `Thread.interrupted`.
    pub fn interrupted(&mut self) -> bool
        ensures call { Calls (λ l. Completes interrupted_plan) self.old self.new result }
    {
        nio_poller::interrupted(self.table.words(), &mut self.pass, self.number)
    }
}

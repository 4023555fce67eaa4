//! The calls of a caller on channels.
ghost use Rattle.std.specs.Prelude.{◌≡◌, ◌≢◌, ◌≤◌, Err, IfOk, IfSome, IsTrue, None, false, is_ok, suc};
ghost use Rattle.nio_history.specs.OwnEvents.{closes};
ghost use Rattle.nio_channel.specs.Closed.{IsClosed};
ghost use Rattle.nio_channel.specs.Registered.{IsKeyOf, IsCancelledWhereClosed};
ghost use Rattle.nio_history.specs.Conditions.{AllMade};
ghost use Rattle.nio_history.specs.OwnEvents.{has, reopens};
ghost use Rattle.nio_history.specs.PassViews.{HasChannel, HasKey, HasSelector, done_between, known};
ghost use Rattle.nio_history.specs.Permanent.{channel_of_kind, stands};
ghost use Rattle.nio_base.specs.Numbers.{last_serial};
ghost use Rattle.nio_steps.specs.ChannelCalls.{open_channel_plan, reopen_channel_plan, is_open_plan};
ghost use Rattle.nio_steps.specs.ChannelCalls.{is_blocking_plan, SetsBlocking};
ghost use Rattle.nio_steps.specs.ChannelCalls.{try_set_blocking_plan, Registers, try_register_plan, key_for_plan};
ghost use Rattle.nio_steps.specs.ChannelCalls.{is_registered_plan, close_channel_plan};
ghost use Rattle.nio_steps.specs.Names.{channel_of};
ghost use Rattle.nio_steps.specs.Runs.{Completes};
ghost use Rattle.nio_steps.specs.declared.refusal.ChannelError.TheVariants.{Busy, ChannelsSpent, ClosedChannel};
ghost use Rattle.nio_steps.specs.declared.refusal.ReopenError.TheVariants.{Lost, Open, SerialsSpent};
ghost use Rattle.nio_words.specs.Passes.{limits_of};
ghost use Rattle.nio_caller.specs.Callers.{sees};
ghost use Rattle.nio_caller.specs.NamedCalls.{Calls, IfCalled, OnChannel, OnSelector, MayRefuse};
ghost use Rattle.nio_caller.specs.Several.{RegistersNonBlocking};
ghost use Rattle.nio_caller.specs.declared.refusal.CallError.TheVariants.{NoSuchChannel, NoSuchSelector, Refused};

use super::Caller;
use crate::refusal::{CallError, called};
use crate::table::Table;
use nio_base::{ChanId, KeyNo, Kind, Ops, SelNo};
use nio_steps::{ChannelError, ReopenError};
use std::sync::Wait;

impl<T: Table> Caller<T> {
    /// Opens a channel of this kind, in blocking mode: Java's `open`. It has the first number that never had a channel;
    /// where each has had one, the first of a closed channel of this kind that isn't registered any more.
    pub fn open_channel(&mut self, kind: Kind) -> Result<ChanId, ChannelError>
        ensures call { Calls (λ l. Completes (open_channel_plan l kind)) self.old self.new result }
        ensures made { IfOk result (HasChannel (sees self.new)) }
        ensures kind { IfOk result (λ c. IsTrue (stands (channel_of_kind c.number.0 kind) (known (sees self.new)))) }
        ensures spent { result ≡ Err ChannelsSpent
            → AllMade (known (sees self.new)) (limits_of self.old.table).channels }
    {
        nio_channel::open_channel(self.table.words(), &mut self.pass, self.number, kind)
    }

    /// Opens a channel of the number of this one, which is closed: of its kind, in blocking mode, with the next serial.
    /// It is the quick way for who closed it; `open_channel` may look at every number. Refused where the channel is
    /// open (`Open`) or still registered (`Registered`), where its number was given to another one (`Lost`) or had as
    /// many as it may (`SerialsSpent`), and where another caller has the hold of the number (`Busy`).
    pub fn reopen_channel(&mut self, chan: ChanId) -> Result<ChanId, CallError<ReopenError>>
        ensures call { Calls (λ l. OnChannel l chan (Err NoSuchChannel)
            (MayRefuse (Completes (reopen_channel_plan l chan)))) self.old self.new result }
        ensures next { IfOk result (λ new. new ≡ channel_of chan.number (suc chan.serial)) }
        ensures made { IfOk result (HasChannel (sees self.new)) }
        ensures took { is_ok result
            ≡ has (reopens chan.number.0) (done_between self.old.number (sees self.old) (sees self.new)) }
        ensures lost { result ≡ Err (Refused Lost)
            → HasChannel (sees self.new) (channel_of chan.number (suc chan.serial)) }
        ensures spent { result ≡ Err (Refused SerialsSpent) → last_serial ≤ chan.serial }
        ensures closed { IfCalled result (λ answer. answer ≢ Err Open → IsClosed (sees self.new) chan) }
    {
        if !self.has_channel(chan) {
            return Err(CallError::NoSuchChannel);
        }
        called(nio_channel::reopen_channel(self.table.words(), &mut self.pass, self.number, chan))
    }

    /// Whether the channel is open: Java's `isOpen`. False where there is no such channel.
    pub fn is_open(&mut self, chan: ChanId) -> bool
        ensures call { Calls (λ l. OnChannel l chan false (Completes (is_open_plan chan))) self.old self.new result }
        ensures closed { result ≡ false → HasChannel (sees self.old) chan → IsClosed (sees self.new) chan }
    {
        if !self.has_channel(chan) {
            return false;
        }
        nio_channel::is_open(self.table.words(), &mut self.pass, self.number, chan)
    }

    /// Whether the channel is in blocking mode: Java's `isBlocking`. False where there is no such channel.
    pub fn is_blocking(&mut self, chan: ChanId) -> bool
        ensures call { Calls (λ l. OnChannel l chan false (Completes (is_blocking_plan chan)))
            self.old self.new result }
    {
        if !self.has_channel(chan) {
            return false;
        }
        nio_channel::is_blocking(self.table.words(), &mut self.pass, self.number, chan)
    }

    /// Sets whether the channel is in blocking mode: Java's `configureBlocking`. A channel that is registered stays
    /// non-blocking: `IllegalBlockingMode`. It waits while another caller registers the channel or sets its mode.
    pub fn set_blocking<R: Wait>(
        &mut self,
        rt: &R,
        chan: ChanId,
        on: bool,
    ) -> Result<(), CallError<ChannelError>>
        ensures call { Calls (λ l. OnChannel l chan (Err NoSuchChannel) (MayRefuse (SetsBlocking l chan on)))
            self.old self.new result }
        ensures closed { result ≡ Err (Refused ClosedChannel) → IsClosed (sees self.new) chan }
        ensures waits { result ≢ Err (Refused Busy) }
    {
        if !self.has_channel(chan) {
            return Err(CallError::NoSuchChannel);
        }
        called(nio_channel::set_blocking(
            rt,
            self.table.words(),
            &mut self.pass,
            self.number,
            chan,
            on,
        ))
    }

    /// The same without waiting: `Busy` where another caller registers the channel or sets its mode.
    pub fn try_set_blocking(
        &mut self,
        chan: ChanId,
        on: bool,
    ) -> Result<(), CallError<ChannelError>>
        ensures call { Calls (λ l. OnChannel l chan (Err NoSuchChannel)
            (MayRefuse (Completes (try_set_blocking_plan l chan on)))) self.old self.new result }
        ensures closed { result ≡ Err (Refused ClosedChannel) → IsClosed (sees self.new) chan }
    {
        if !self.has_channel(chan) {
            return Err(CallError::NoSuchChannel);
        }
        called(nio_channel::try_set_blocking(
            self.table.words(),
            &mut self.pass,
            self.number,
            chan,
            on,
        ))
    }

    /// Registers the channel with the selector: Java's `register`. Where the channel has a valid key there, this key is
    /// answered: its interest set becomes `ops`, and its attachment `att` where that isn't 0. Else a new key is made.
    /// It waits while another caller registers the channel or sets its mode.
    pub fn register<R: Wait>(
        &mut self,
        rt: &R,
        sel: SelNo,
        chan: ChanId,
        ops: Ops,
        att: u64,
    ) -> Result<KeyNo, CallError<ChannelError>>
        ensures call { Calls (λ l. OnSelector l sel (Err NoSuchSelector) (OnChannel l chan (Err NoSuchChannel)
            (MayRefuse (Registers l sel chan ops att)))) self.old self.new result }
        ensures waits { result ≢ Err (Refused Busy) }
        ensures in_selector { IfOk result (λ k. k.sel ≡ sel) }
        ensures key { IfOk result (HasKey (sees self.new)) }
        ensures its { IfOk result (IsKeyOf (sees self.new) chan) }
        ensures cancelled { IfOk result (IsCancelledWhereClosed (sees self.new) self.old.number chan) }
    {
        if !self.has_selector(sel) {
            return Err(CallError::NoSuchSelector);
        }
        if !self.has_channel(chan) {
            return Err(CallError::NoSuchChannel);
        }
        called(nio_channel::register(
            rt,
            self.table.words(),
            &mut self.pass,
            self.number,
            sel,
            chan,
            ops,
            att,
        ))
    }

    /// The same without waiting: `Busy` where another caller registers the channel or sets its mode.
    pub fn try_register(
        &mut self,
        sel: SelNo,
        chan: ChanId,
        ops: Ops,
        att: u64,
    ) -> Result<KeyNo, CallError<ChannelError>>
        ensures call { Calls (λ l. OnSelector l sel (Err NoSuchSelector) (OnChannel l chan (Err NoSuchChannel)
            (MayRefuse (Completes (try_register_plan l sel chan ops att))))) self.old self.new result }
        ensures in_selector { IfOk result (λ k. k.sel ≡ sel) }
        ensures key { IfOk result (HasKey (sees self.new)) }
        ensures its { IfOk result (IsKeyOf (sees self.new) chan) }
        ensures cancelled { IfOk result (IsCancelledWhereClosed (sees self.new) self.old.number chan) }
    {
        if !self.has_selector(sel) {
            return Err(CallError::NoSuchSelector);
        }
        if !self.has_channel(chan) {
            return Err(CallError::NoSuchChannel);
        }
        called(nio_channel::try_register(
            self.table.words(),
            &mut self.pass,
            self.number,
            sel,
            chan,
            ops,
            att,
        ))
    }

    /// Makes the channel non-blocking and registers it: Java's `configureBlocking(false)`, then `register`. It waits where
    /// one of these waits. Where the first is refused, nothing is registered.
    pub fn register_non_blocking<R: Wait>(
        &mut self,
        rt: &R,
        sel: SelNo,
        chan: ChanId,
        ops: Ops,
        att: u64,
    ) -> Result<KeyNo, CallError<ChannelError>>
        ensures call { Calls (λ l. OnSelector l sel (Err NoSuchSelector) (OnChannel l chan (Err NoSuchChannel)
            (MayRefuse (RegistersNonBlocking l sel chan ops att)))) self.old self.new result }
        ensures waits { result ≢ Err (Refused Busy) }
        ensures in_selector { IfOk result (λ k. k.sel ≡ sel) }
        ensures key { IfOk result (HasKey (sees self.new)) }
        ensures its { IfOk result (IsKeyOf (sees self.new) chan) }
        ensures cancelled { IfOk result (IsCancelledWhereClosed (sees self.new) self.old.number chan) }
    {
        if !self.has_selector(sel) {
            return Err(CallError::NoSuchSelector);
        }
        if !self.has_channel(chan) {
            return Err(CallError::NoSuchChannel);
        }
        called(self.register_found(rt, sel, chan, ops, att))
    }

    // The same, of a selector and a channel that were found.
    fn register_found<R: Wait>(
        &mut self,
        rt: &R,
        sel: SelNo,
        chan: ChanId,
        ops: Ops,
        att: u64,
    ) -> Result<KeyNo, ChannelError>
        requires selector { HasSelector (sees self.old) sel }
        requires channel { HasChannel (sees self.old) chan }
        ensures call { Calls (λ l. RegistersNonBlocking l sel chan ops att) self.old self.new result }
        ensures waits { result ≢ Err Busy }
        ensures in_selector { IfOk result (λ k. k.sel ≡ sel) }
        ensures key { IfOk result (HasKey (sees self.new)) }
        ensures its { IfOk result (IsKeyOf (sees self.new) chan) }
        ensures cancelled { IfOk result (IsCancelledWhereClosed (sees self.new) self.old.number chan) }
    {
        let me = self.number;
        nio_channel::set_blocking(rt, self.table.words(), &mut self.pass, me, chan, false)?;
        nio_channel::register(
            rt,
            self.table.words(),
            &mut self.pass,
            me,
            sel,
            chan,
            ops,
            att,
        )
    }

    /// The channel's key in the selector, where it has one: Java's `keyFor`. None where there is no such channel or
    /// selector.
    pub fn key_for(&mut self, chan: ChanId, sel: SelNo) -> Option<KeyNo>
        ensures call { Calls (λ l. OnSelector l sel None (OnChannel l chan None (Completes (key_for_plan chan sel))))
            self.old self.new result }
        ensures found { IfSome result (HasKey (sees self.new)) }
    {
        if !self.has_selector(sel) {
            return None;
        }
        if !self.has_channel(chan) {
            return None;
        }
        nio_channel::key_for(self.table.words(), &mut self.pass, self.number, chan, sel)
    }

    /// Whether the channel is registered with any selector: Java's `isRegistered`. False where there is no such
    /// channel.
    pub fn is_registered(&mut self, chan: ChanId) -> bool
        ensures call { Calls (λ l. OnChannel l chan false (Completes (is_registered_plan l chan)))
            self.old self.new result }
    {
        if !self.has_channel(chan) {
            return false;
        }
        nio_channel::is_registered(self.table.words(), &mut self.pass, self.number, chan)
    }

    /// Closes the channel and cancels its keys: Java's `close`. Says whether this call closed it. It never waits.
    pub fn close_channel(&mut self, chan: ChanId) -> bool
        ensures call { Calls (λ l. OnChannel l chan false (Completes (close_channel_plan l chan)))
            self.old self.new result }
        ensures took { result ≡ has (closes chan) (done_between self.old.number (sees self.old) (sees self.new)) }
        ensures closes { IsTrue result → IsClosed (sees self.new) chan }
        ensures closed { HasChannel (sees self.old) chan → IsClosed (sees self.new) chan }
    {
        if !self.has_channel(chan) {
            return false;
        }
        nio_channel::close_channel(self.table.words(), &mut self.pass, self.number, chan)
    }
}

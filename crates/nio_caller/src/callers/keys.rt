//! The calls of a caller on keys, and those that find what is known by its number.
ghost use Rattle.std.specs.Prelude.{IfSome, Err, None, false};
ghost use Rattle.nio_history.specs.PassViews.{HasChannel, HasKey, HasSelector};
ghost use Rattle.nio_steps.specs.KeyCalls.{find_selector_plan, find_channel_plan, find_plan, is_valid_plan};
ghost use Rattle.nio_steps.specs.KeyCalls.{cancel_plan, interest_plan, set_interest_plan, interest_or_plan};
ghost use Rattle.nio_steps.specs.KeyCalls.{interest_and_plan};
ghost use Rattle.nio_steps.specs.KeyCalls.{ready_plan, unselect_plan, attach_plan, attachment_plan};
ghost use Rattle.nio_steps.specs.Runs.{Completes};
ghost use Rattle.nio_caller.specs.Callers.{sees};
ghost use Rattle.nio_caller.specs.NamedCalls.{Calls, Does, OnKey, OnSelector, MayRefuse};
ghost use Rattle.nio_caller.specs.Several.{TakesSelected};
ghost use Rattle.nio_caller.specs.declared.refusal.CallError.TheVariants.{NoSuchKey};

use super::Caller;
use crate::refusal::{CallError, called};
use crate::table::Table;
use nio_base::{ChanId, KeyNo, Ops, SelNo};
use nio_steps::KeyError;

impl<T: Table> Caller<T> {
    /// The selector with this number, where it is made.
    pub fn find_selector(&mut self, number: u32) -> Option<SelNo>
        ensures call { Calls (λ l. Completes (find_selector_plan l number)) self.old self.new result }
        ensures found { IfSome result (HasSelector (sees self.new)) }
    {
        nio_keys::find_selector(self.table.words(), &mut self.pass, self.number, number)
    }

    /// The channel with this number and serial, where it was opened.
    pub fn find_channel(&mut self, number: u32, serial: u32) -> Option<ChanId>
        ensures call { Calls (λ l. Completes (find_channel_plan l number serial)) self.old self.new result }
        ensures found { IfSome result (HasChannel (sees self.new)) }
    {
        nio_keys::find_channel(
            self.table.words(),
            &mut self.pass,
            self.number,
            number,
            serial,
        )
    }

    /// The key with this index and serial in the selector, where it was published.
    pub fn find(&mut self, sel: SelNo, index: u32, serial: u32) -> Option<KeyNo>
        ensures call { Calls (λ l. OnSelector l sel None (Completes (find_plan l sel index serial)))
            self.old self.new result }
        ensures found { IfSome result (HasKey (sees self.new)) }
    {
        if !self.has_selector(sel) {
            return None;
        }
        nio_keys::find(
            self.table.words(),
            &mut self.pass,
            self.number,
            sel,
            index,
            serial,
        )
    }

    /// Whether the key is valid: Java's `isValid`. False where there is no such key.
    pub fn is_valid(&mut self, key: KeyNo) -> bool
        ensures call { Calls (λ l. OnKey l key false (Completes (is_valid_plan key))) self.old self.new result }
    {
        if !self.has_key(key) {
            return false;
        }
        nio_keys::is_valid(self.table.words(), &mut self.pass, self.number, key)
    }

    /// Cancels the key, valid or not: Java's `cancel`. Says whether there is such a key.
    pub fn cancel(&mut self, key: KeyNo) -> bool
        ensures call { Calls (λ l. OnKey l key false (Does (Completes (cancel_plan key)))) self.old self.new result }
    {
        if !self.has_key(key) {
            return false;
        }
        nio_keys::cancel(self.table.words(), &mut self.pass, self.number, key);
        true
    }

    /// The key's interest set: Java's `interestOps()`.
    pub fn interest(&mut self, key: KeyNo) -> Result<Ops, CallError<KeyError>>
        ensures call { Calls (λ l. OnKey l key (Err NoSuchKey) (MayRefuse (Completes (interest_plan key))))
            self.old self.new result }
    {
        if !self.has_key(key) {
            return Err(CallError::NoSuchKey);
        }
        called(nio_keys::interest(self.table.words(), &mut self.pass, self.number, key))
    }

    /// Puts `ops` in the place of the key's interest set: Java's `interestOps(int)`.
    pub fn set_interest(&mut self, key: KeyNo, ops: Ops) -> Result<(), CallError<KeyError>>
        ensures call { Calls (λ l. OnKey l key (Err NoSuchKey) (MayRefuse (Completes (set_interest_plan key ops))))
            self.old self.new result }
    {
        if !self.has_key(key) {
            return Err(CallError::NoSuchKey);
        }
        called(nio_keys::set_interest(self.table.words(), &mut self.pass, self.number, key, ops))
    }

    /// Adds `ops` to the key's interest set. Answers the set before: Java's `interestOpsOr`.
    pub fn interest_or(&mut self, key: KeyNo, ops: Ops) -> Result<Ops, CallError<KeyError>>
        ensures call { Calls (λ l. OnKey l key (Err NoSuchKey) (MayRefuse (Completes (interest_or_plan key ops))))
            self.old self.new result }
    {
        if !self.has_key(key) {
            return Err(CallError::NoSuchKey);
        }
        called(nio_keys::interest_or(self.table.words(), &mut self.pass, self.number, key, ops))
    }

    /// Keeps of the key's interest set only what `ops` has too. Answers the set before: Java's `interestOpsAnd`.
    pub fn interest_and(&mut self, key: KeyNo, ops: Ops) -> Result<Ops, CallError<KeyError>>
        ensures call { Calls (λ l. OnKey l key (Err NoSuchKey) (MayRefuse (Completes (interest_and_plan key ops))))
            self.old self.new result }
    {
        if !self.has_key(key) {
            return Err(CallError::NoSuchKey);
        }
        called(nio_keys::interest_and(self.table.words(), &mut self.pass, self.number, key, ops))
    }

    /// The key's ready set: Java's `readyOps`.
    pub fn ready(&mut self, key: KeyNo) -> Result<Ops, CallError<KeyError>>
        ensures call { Calls (λ l. OnKey l key (Err NoSuchKey) (MayRefuse (Completes (ready_plan key))))
            self.old self.new result }
    {
        if !self.has_key(key) {
            return Err(CallError::NoSuchKey);
        }
        called(nio_keys::ready(self.table.words(), &mut self.pass, self.number, key))
    }

    /// Takes the key out of its selector's selected set. Says whether it was taken out: Java's
    /// `selectedKeys().remove`.
    pub fn unselect(&mut self, key: KeyNo) -> bool
        ensures call { Calls (λ l. OnKey l key false (Completes (unselect_plan key))) self.old self.new result }
    {
        if !self.has_key(key) {
            return false;
        }
        nio_keys::unselect(self.table.words(), &mut self.pass, self.number, key)
    }

    /// Takes the channel's key in the selector out of the selected set, and answers it where this call took it out. After a
    /// poll that told of the channel it does what a Java program does by `next` and `remove` on the iterator of
    /// `selectedKeys`. None where there is no such selector or channel, where the channel has no key there, and where its
    /// key isn't selected.
    pub fn take_selected(&mut self, chan: ChanId, sel: SelNo) -> Option<KeyNo>
        ensures call { Calls (λ l. TakesSelected l chan sel) self.old self.new result }
        ensures channel { IfSome result (λ _. HasChannel (sees self.new) chan) }
        ensures key { IfSome result (HasKey (sees self.new)) }
    {
        if !self.has_selector(sel) {
            return None;
        }
        if !self.has_channel(chan) {
            return None;
        }
        match nio_channel::key_for(self.table.words(), &mut self.pass, self.number, chan, sel) {
            Some(key) => {
                let out = nio_keys::unselect(self.table.words(), &mut self.pass, self.number, key);
                out.then_some(key)
            }
            None => None,
        }
    }

    /// Gives the key an attachment, 0 for none. Answers the one before: Java's `attach`. Where there is no such key, or
    /// its index was given to another one, nothing is attached, and the answer is 0.
    pub fn attach(&mut self, key: KeyNo, att: u64) -> u64
        ensures call { Calls (λ l. OnKey l key 0 (Completes (attach_plan key att))) self.old self.new result }
    {
        if !self.has_key(key) {
            return 0;
        }
        nio_keys::attach(self.table.words(), &mut self.pass, self.number, key, att)
    }

    /// The key's attachment, 0 for none: Java's `attachment`. Where there is no such key, or its index was given to
    /// another one, the answer is 0.
    pub fn attachment(&mut self, key: KeyNo) -> u64
        ensures call { Calls (λ l. OnKey l key 0 (Completes (attachment_plan key))) self.old self.new result }
    {
        if !self.has_key(key) {
            return 0;
        }
        nio_keys::attachment(self.table.words(), &mut self.pass, self.number, key)
    }
}

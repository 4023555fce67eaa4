//! Registering a channel with a selector.
ghost use Rattle.std.specs.Option.{IfNone};
ghost use Rattle.std.specs.Prelude.{◌≡◌, ℕ, ◌<◌, IfSome, Option, vec_len};
ghost use Rattle.nio_plain.specs.Plain.{RepliesAs};
ghost use Rattle.nio_plain.specs.PlainState.{limits_of, state_of};
ghost use Rattle.nio_plain.specs.Seq.Replies.{unchanged};
ghost use Rattle.nio_plain.specs.Seq.Modes.{key_of};
ghost use Rattle.nio_plain.specs.Seq.Registering.{given_or_kept, register_call, registered};

use super::Plain;
use super::selector::Key;
use nio_base::{ChanId, Ops, SelNo};
use nio_language::Reply;
use std::alloc::AllocError;

impl Plain {
    pub(super) fn register(
        &mut self,
        sel: SelNo,
        chan: ChanId,
        ops: Ops,
        note: Option<u64>,
    ) -> Result<Reply, AllocError>
        ensures { RepliesAs self.old self.new result (register_call (limits_of self.old) (state_of self.old) sel
            chan ops note) }
    {
        if let Some(refusal) = self.refusal(sel, chan, ops) {
            return Ok(refusal);
        }
        let selector = &self.selectors[sel.0 as usize];
        match selector.key_of(chan.number) {
            Some(id) => {
                let key = selector.keys[id.index as usize];
                if key.cancelled {
                    return Ok(Reply::CancelledKey);
                }
                if selector.is_shut() {
                    return Ok(Reply::ClosedSelector);
                }
                let key = Key {
                    interest: ops,
                    note: given_or_kept(note, key.note),
                    ..key
                };
                self.selectors[sel.0 as usize].put_key(id.index, key);
                Ok(Reply::Key(id))
            }
            None => {
                if selector.is_shut() {
                    return Ok(Reply::ClosedSelector);
                }
                let Some(id) = selector.next_key(self.limits.keys) else {
                    return Ok(Reply::Full);
                };
                let key = Key::new(chan.number, id.serial, ops, note.unwrap_or(0));
                self.selectors[sel.0 as usize].add_key(id, key)?;
                Ok(Reply::Key(id))
            }
        }
    }

    /// Why the channel can't be registered so with any selector, and first of all that a name of
    /// the call isn't made.
    fn refusal(&self, sel: SelNo, chan: ChanId, ops: Ops) -> Option<Reply>
        ensures refused { IfSome result (λ reply. (note : Option ℕ)
            → register_call (limits_of self.now) (state_of self.now) sel chan ops note
            ≡ unchanged (state_of self.now) reply) }
        ensures passed { IfNone result ((note : Option ℕ) → register_call (limits_of self.now) (state_of self.now)
            sel chan ops note
            ≡ registered (limits_of self.now) (state_of self.now) sel.0 chan.number.0 ops note
            (key_of (state_of self.now).shared chan.number.0 sel.0)) }
        ensures made { IfNone result (sel.0 < vec_len self.now.selectors) }
    {
        if sel.0 as usize >= self.selectors.len() {
            return Some(Reply::NoSelector);
        }
        let channel = match self.channel(chan) {
            Ok(channel) => channel,
            Err(refusal) => return Some(refusal),
        };
        if !ops.within(channel.kind.valid_ops()) {
            return Some(Reply::IllegalOps);
        }
        if !channel.is_open(chan.serial) {
            return Some(Reply::ClosedChannel);
        }
        if channel.blocking {
            return Some(Reply::IllegalBlockingMode);
        }
        None
    }
}

/// The attachment of a key that is registered again: 0 is none, and changes nothing.
fn given_or_kept(given: Option<u64>, kept: u64) -> u64
    ensures { result ≡ given_or_kept given kept }
{
    match given {
        Some(note) if note != 0 => note,
        _ => kept,
    }
}

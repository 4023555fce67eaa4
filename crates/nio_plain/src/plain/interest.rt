//! A key's interest set: reading it, setting it, adding to it and taking from it.
ghost use Rattle.std.specs.Prelude.{◌≡◌};
ghost use Rattle.nio_plain.specs.Plain.{Replies};
ghost use Rattle.nio_plain.specs.PlainState.{state_of};
ghost use Rattle.nio_plain.specs.Seq.Keys.{iand_call, interest_call, ior_call, iset_call};
ghost use Rattle.nio_plain.specs.Seq.Registering.{are_legal};

use super::Plain;
use super::selector::Key;
use nio_base::{ChanNo, KeyId, Kind, Ops, SelNo};
use nio_language::Reply;

impl Plain {
    pub(super) fn interest(&self, sel: SelNo, id: KeyId) -> Reply
        ensures { Replies self.now self.now result (interest_call (state_of self.now) sel id) }
    {
        match self.valid_key(sel, id) {
            Ok(key) => Reply::Number(u64::from(key.interest.bits())),
            Err(refusal) => refusal,
        }
    }

    pub(super) fn set_interest(&mut self, sel: SelNo, id: KeyId, ops: Ops) -> Reply
        ensures { Replies self.old self.new result (iset_call (state_of self.old) sel id ops) }
    {
        let key = match self.valid_key(sel, id) {
            Ok(key) => key,
            Err(refusal) => return refusal,
        };
        if !self.are_legal(key.chan, ops) {
            return Reply::IllegalOps;
        }
        self.put_key(
            sel,
            id.index,
            Key {
                interest: ops,
                ..key
            },
        );
        Reply::Ok
    }

    pub(super) fn interest_or(&mut self, sel: SelNo, id: KeyId, ops: Ops) -> Reply
        ensures { Replies self.old self.new result (ior_call (state_of self.old) sel id ops) }
    {
        let key = match self.valid_key(sel, id) {
            Ok(key) => key,
            Err(refusal) => return refusal,
        };
        if !self.are_legal(key.chan, ops) {
            return Reply::IllegalOps;
        }
        let before = key.interest;
        let interest = before.union(ops);
        self.put_key(sel, id.index, Key { interest, ..key });
        Reply::Number(u64::from(before.bits()))
    }

    pub(super) fn interest_and(&mut self, sel: SelNo, id: KeyId, ops: Ops) -> Reply
        ensures { Replies self.old self.new result (iand_call (state_of self.old) sel id ops) }
    {
        let key = match self.valid_key(sel, id) {
            Ok(key) => key,
            Err(refusal) => return refusal,
        };
        let before = key.interest;
        let interest = before.meet(ops);
        self.put_key(sel, id.index, Key { interest, ..key });
        Reply::Number(u64::from(before.bits()))
    }

    /// Whether the channel's kind supports these operations.
    fn are_legal(&self, chan: ChanNo, ops: Ops) -> bool
        ensures { result ≡ are_legal ((state_of self.now).shared.chan chan.0).kind ops }
    {
        ops.within(self.kind_of(chan).valid_ops())
    }

    /// The channel's kind. The channel of a key is always made; else this is a stream.
    fn kind_of(&self, chan: ChanNo) -> Kind
        ensures { result ≡ ((state_of self.now).shared.chan chan.0).kind }
    {
        match self.channels.get(chan.0 as usize) {
            Some(channel) => channel.kind,
            None => Kind::Stream,
        }
    }
}

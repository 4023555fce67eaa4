//! Calls on a key: what it is asked for, cancelling it, and its attachment.
ghost use Rattle.nio_plain.specs.Plain.{Replies};
ghost use Rattle.nio_plain.specs.PlainState.{state_of};
ghost use Rattle.nio_plain.specs.Seq.Cancelling.{cancel_call};
ghost use Rattle.nio_plain.specs.Seq.Keys.{attach_call, attachment_call, ready_call, unselect_call, valid_call};

use super::Plain;
use super::selector::Key;
use crate::replies::yes_or_no;
use nio_base::{KeyId, SelNo};
use nio_history::Mark;
use nio_language::Reply;

impl Plain {
    pub(super) fn is_valid_key(&self, sel: SelNo, id: KeyId) -> Reply
        ensures { Replies self.now self.now result (valid_call (state_of self.now) sel id) }
    {
        match self.key(sel, id) {
            Ok(key) => yes_or_no(key.is_valid_key(id.serial)),
            Err(refusal) => refusal,
        }
    }

    pub(super) fn ready(&self, sel: SelNo, id: KeyId) -> Reply
        ensures { Replies self.now self.now result (ready_call (state_of self.now) sel id) }
    {
        match self.valid_key(sel, id) {
            Ok(key) => Reply::Number(u64::from(key.mark.ready.bits())),
            Err(refusal) => refusal,
        }
    }

    /// Cancels the key, unless it is removed or its index was given to a later key.
    pub(super) fn cancel(&mut self, sel: SelNo, id: KeyId) -> Reply
        ensures { Replies self.old self.new result (cancel_call (state_of self.old) sel id) }
    {
        let key = match self.key(sel, id) {
            Ok(key) => key,
            Err(refusal) => return refusal,
        };
        if !key.is_in_key_set(id.serial) {
            return Reply::Ok;
        }
        self.put_key(
            sel,
            id.index,
            Key {
                cancelled: true,
                ..key
            },
        );
        Reply::Ok
    }

    /// Takes the key out of the selected set.
    pub(super) fn unselect(&mut self, sel: SelNo, id: KeyId) -> Reply
        ensures { Replies self.old self.new result (unselect_call (state_of self.old) sel id) }
    {
        let key = match self.key(sel, id) {
            Ok(key) => key,
            Err(refusal) => return refusal,
        };
        if !key.is_selected_key(id.serial) {
            return Reply::No;
        }
        let mark = Mark {
            selected: false,
            ..key.mark
        };
        self.put_key(sel, id.index, Key { mark, ..key });
        Reply::Yes
    }

    pub(super) fn attach(&mut self, sel: SelNo, id: KeyId, note: u64) -> Reply
        ensures { Replies self.old self.new result (attach_call (state_of self.old) sel id note) }
    {
        let key = match self.key(sel, id) {
            Ok(key) => key,
            Err(refusal) => return refusal,
        };
        if !key.fits(id.serial) {
            return Reply::Number(0);
        }
        self.put_key(sel, id.index, Key { note, ..key });
        Reply::Number(key.note)
    }

    pub(super) fn attachment(&self, sel: SelNo, id: KeyId) -> Reply
        ensures { Replies self.now self.now result (attachment_call (state_of self.now) sel id) }
    {
        let key = match self.key(sel, id) {
            Ok(key) => key,
            Err(refusal) => return refusal,
        };
        if !key.fits(id.serial) {
            return Reply::Number(0);
        }
        Reply::Number(key.note)
    }
}

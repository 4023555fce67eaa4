//! What a channel is asked for.
ghost use Rattle.nio_plain.specs.Plain.{Replies};
ghost use Rattle.nio_plain.specs.PlainState.{limits_of, state_of};
ghost use Rattle.nio_plain.specs.Seq.Modes.{is_blocking_call, is_open_call, is_registered_call, key_for_call};

use super::Plain;
use crate::replies::yes_or_no;
use nio_base::{ChanId, SelNo};
use nio_language::Reply;

impl Plain {
    pub(super) fn is_blocking_channel(&self, chan: ChanId) -> Reply
        ensures { Replies self.now self.now result (is_blocking_call (state_of self.now) chan) }
    {
        match self.channel(chan) {
            Ok(channel) => yes_or_no(channel.is_blocking(chan.serial)),
            Err(refusal) => refusal,
        }
    }

    pub(super) fn is_open_channel(&self, chan: ChanId) -> Reply
        ensures { Replies self.now self.now result (is_open_call (state_of self.now) chan) }
    {
        match self.channel(chan) {
            Ok(channel) => yes_or_no(channel.is_open(chan.serial)),
            Err(refusal) => refusal,
        }
    }

    pub(super) fn is_registered_channel(&self, chan: ChanId) -> Reply
        ensures { Replies self.now self.now result (is_registered_call (limits_of self.now) (state_of self.now) chan) }
    {
        let channel = match self.channel(chan) {
            Ok(channel) => channel,
            Err(refusal) => return refusal,
        };
        if !channel.fits(chan.serial) {
            return Reply::No;
        }
        yes_or_no(self.has_key(chan.number))
    }

    pub(super) fn key_for(&self, chan: ChanId, sel: SelNo) -> Reply
        ensures { Replies self.now self.now result (key_for_call (state_of self.now) chan sel) }
    {
        let channel = match self.channel(chan) {
            Ok(channel) => channel,
            Err(refusal) => return refusal,
        };
        let place = match self.selector(sel) {
            Ok(place) => place,
            Err(refusal) => return refusal,
        };
        if !channel.fits(chan.serial) {
            return Reply::None;
        }
        match self.selectors[place].key_of(chan.number) {
            Some(key) => Reply::Key(key),
            None => Reply::None,
        }
    }
}

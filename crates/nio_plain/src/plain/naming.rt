//! The names of a line: the channel, the selector or the key that each stands for, or the refusal.
ghost use Rattle.std.specs.Prelude.{◌≡◌, ◌<◌, IfErr, IfOk, vec_len};
ghost use Rattle.nio_plain.specs.Naming.{LetsThrough, Refuses};
ghost use Rattle.nio_plain.specs.Plain.{Kept};
ghost use Rattle.nio_plain.specs.PlainState.{channel_row, key_row, no_selector, places, selector_row, state_of};
ghost use Rattle.nio_plain.specs.PlainState.{with_key_row};
ghost use Rattle.nio_plain.specs.Seq.Keys.{with_valid_key};
ghost use Rattle.nio_plain.specs.Seq.Names.{with_named_channel, with_named_key, with_named_selector};

use super::Plain;
use super::channel::Channel;
use super::selector::Key;
use nio_base::{ChanId, KeyId, SelNo};
use nio_language::Reply;

impl Plain {
    /// The present channel of the number of this name, where the channel of this name was opened.
    pub(super) fn channel(&self, chan: ChanId) -> Result<Channel, Reply>
        ensures through { IfOk result (λ _. LetsThrough (with_named_channel (state_of self.now) chan)) }
        ensures row { IfOk result (λ channel. (state_of self.now).shared.chan chan.number.0 ≡ channel_row channel) }
        ensures made { IfOk result (λ _. chan.number.0 < vec_len self.now.channels) }
        ensures refused { IfErr result (Refuses (state_of self.now) (with_named_channel (state_of self.now) chan)) }
    {
        let number = chan.number.0 as usize;
        if number >= self.channels.len() {
            return Err(Reply::NoChannel);
        }
        let channel = self.channels[number];
        if channel.serial < chan.serial {
            return Err(Reply::NoChannel);
        }
        Ok(channel)
    }

    /// The place of the selector of this name.
    pub(super) fn selector(&self, sel: SelNo) -> Result<usize, Reply>
        ensures through { IfOk result (λ _. LetsThrough (with_named_selector (state_of self.now) sel)) }
        ensures place { IfOk result (λ place. place ≡ sel.0) }
        ensures made { IfOk result (λ _. sel.0 < vec_len self.now.selectors) }
        ensures refused { IfErr result (Refuses (state_of self.now) (with_named_selector (state_of self.now) sel)) }
    {
        if sel.0 as usize >= self.selectors.len() {
            return Err(Reply::NoSelector);
        }
        Ok(sel.0 as usize)
    }

    /// The present key of the index of this name, where the key of this name was published.
    pub(super) fn key(&self, sel: SelNo, id: KeyId) -> Result<Key, Reply>
        ensures through { IfOk result (λ _. LetsThrough (with_named_key (state_of self.now) sel id)) }
        ensures row { IfOk result (λ key. (places selector_row no_selector self.now.selectors.items sel.0).keys id.index
            ≡ key_row key) }
        ensures claimed { IfOk result (λ _. id.index < (state_of self.now).shared.keys_high sel.0) }
        ensures refused { IfErr result (Refuses (state_of self.now) (with_named_key (state_of self.now) sel id)) }
    {
        if sel.0 as usize >= self.selectors.len() {
            return Err(Reply::NoSelector);
        }
        let selector = &self.selectors[sel.0 as usize];
        if id.index as usize >= selector.keys.len() {
            return Err(Reply::NoKey);
        }
        let key = selector.keys[id.index as usize];
        if key.serial < id.serial {
            return Err(Reply::NoKey);
        }
        Ok(key)
    }

    /// The key of this name, where it is valid.
    pub(super) fn valid_key(&self, sel: SelNo, id: KeyId) -> Result<Key, Reply>
        ensures through { IfOk result (λ _. LetsThrough (with_valid_key (state_of self.now) sel id)) }
        ensures row { IfOk result (λ key. (places selector_row no_selector self.now.selectors.items sel.0).keys id.index
            ≡ key_row key) }
        ensures claimed { IfOk result (λ _. id.index < (state_of self.now).shared.keys_high sel.0) }
        ensures refused { IfErr result (Refuses (state_of self.now) (with_valid_key (state_of self.now) sel id)) }
    {
        let key = match self.key(sel, id) {
            Ok(key) => key,
            Err(refusal) => return Err(refusal),
        };
        if !key.is_valid_key(id.serial) {
            return Err(Reply::CancelledKey);
        }
        Ok(key)
    }

    /// Puts a key in the place of one.
    pub(super) fn put_key(&mut self, sel: SelNo, index: u32, key: Key)
        requires { index < (state_of self.old).shared.keys_high sel.0 }
        ensures left { state_of self.new ≡ with_key_row (state_of self.old) sel.0 index (key_row key) }
        ensures kept { Kept self.old self.new }
    {
        self.selectors[sel.0 as usize].put_key(index, key);
    }
}

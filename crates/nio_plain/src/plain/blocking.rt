//! Setting a channel's mode: a registered channel may not return to blocking mode.
ghost use Rattle.std.specs.Prelude.{◌≡◌};
ghost use Rattle.nio_plain.specs.Plain.{Replies};
ghost use Rattle.nio_plain.specs.PlainState.{limits_of, state_of};
ghost use Rattle.nio_plain.specs.Seq.Modes.{blocking_call, has_key};

use super::Plain;
use nio_base::{ChanId, ChanNo};
use nio_language::Reply;

impl Plain {
    pub(super) fn set_blocking(&mut self, chan: ChanId, on: bool) -> Reply
        ensures { Replies self.old self.new result (blocking_call (limits_of self.old) (state_of self.old) chan on) }
    {
        let channel = match self.channel(chan) {
            Ok(channel) => channel,
            Err(refusal) => return refusal,
        };
        if !channel.is_open(chan.serial) {
            return Reply::ClosedChannel;
        }
        if on && self.has_key(chan.number) {
            return Reply::IllegalBlockingMode;
        }
        self.channels[chan.number.0 as usize].blocking = on;
        Reply::Ok
    }

    /// Whether the number's channel has a key in the key set of a selector.
    pub(super) fn has_key(&self, chan: ChanNo) -> bool
        ensures { result ≡ has_key (limits_of self.now) (state_of self.now).shared chan.0 }
    {
        for selector in &self.selectors {
            if selector.key_of(chan).is_some() {
                return true;
            }
        }
        false
    }
}

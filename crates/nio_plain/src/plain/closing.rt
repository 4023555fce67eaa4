//! Closing a selector, in two parts, and closing a channel.
ghost use Rattle.std.specs.Prelude.{◌≡◌, ◌<◌, vec_len};
ghost use Rattle.nio_plain.specs.Plain.{Replies, Kept};
ghost use Rattle.nio_plain.specs.PlainState.{state_of};
ghost use Rattle.nio_plain.specs.ScriptState.{with_shared};
ghost use Rattle.nio_plain.specs.Seq.Cancelling.{channel_closed, closec_call, with_keys_cancelled};
ghost use Rattle.nio_plain.specs.Seq.Closing.{close_call, close_end_call};

use super::Plain;
use super::selector::Closing;
use nio_base::{CallerNo, ChanId, ChanNo, SelNo};
use nio_language::Reply;

impl Plain {
    /// Begins to close the selector: from now on selections and registrations are refused.
    pub(super) fn close(&mut self, me: CallerNo, sel: SelNo) -> Reply
        ensures { Replies self.old self.new result (close_call (state_of self.old) me sel) }
    {
        let place = match self.selector(sel) {
            Ok(place) => place,
            Err(refusal) => return refusal,
        };
        if self.selectors[place].is_shut() {
            return Reply::Already;
        }
        self.selectors[place].closing = Some(Closing {
            closer: me,
            finished: false,
        });
        Reply::Closing
    }

    /// Ends the closing that the caller began: every key is removed.
    pub(super) fn close_end(&mut self, me: CallerNo, sel: SelNo) -> Reply
        ensures { Replies self.old self.new result (close_end_call (state_of self.old) me sel) }
    {
        let place = match self.selector(sel) {
            Ok(place) => place,
            Err(refusal) => return refusal,
        };
        let selector = &self.selectors[place];
        let Some(closing) = selector.closing else {
            return Reply::NotClosing;
        };
        if closing.closer.0 != me.0 {
            return Reply::NotClosing;
        }
        if closing.finished {
            return Reply::NotClosing;
        }
        if selector.selecting.is_some() {
            return Reply::Busy;
        }
        self.selectors[place].finish_closing(closing.closer);
        Reply::Closed
    }

    /// Closes the channel, and cancels its key in each selector. The caller's own sink leaves its seal.
    pub(super) fn close_channel(&mut self, me: CallerNo, chan: ChanId) -> Reply
        ensures { Replies self.old self.new result (closec_call (state_of self.old) me chan) }
    {
        let channel = match self.channel(chan) {
            Ok(channel) => channel,
            Err(refusal) => return refusal,
        };
        if !channel.is_open(chan.serial) {
            self.leave_seal(me, chan);
            return Reply::Already;
        }
        self.shut_channel(chan.number);
        self.leave_seal(me, chan);
        Reply::Ok
    }

    /// Closes the channel of a number that is made.
    pub(super) fn shut_channel(&mut self, chan: ChanNo)
        requires { chan.0 < vec_len self.old.channels }
        ensures left { state_of self.new ≡ with_shared (state_of self.old)
            (channel_closed (state_of self.old).shared chan.0) }
        ensures kept { Kept self.old self.new }
    {
        self.channels[chan.0 as usize].closed = true;
        self.cancel_keys_of(chan);
    }

    /// Cancels the key of the number's channel in each selector.
    fn cancel_keys_of(&mut self, chan: ChanNo)
        ensures left { state_of self.new ≡ with_shared (state_of self.old)
            (with_keys_cancelled (state_of self.old).shared chan.0) }
        ensures kept { Kept self.old self.new }
    {
        for place in 0..self.selectors.len() {
            self.selectors[place].cancel_key_of(chan);
        }
    }
}

//! Opening selectors and channels: the least number that isn't made comes next, and then, for a channel, the least
//! number that comes back.
ghost use Rattle.std.specs.Prelude.{◌≡◌, ◌+◌, ◌<◌, ◌≤◌, ◌^◌, IfSome, vec_len};
ghost use Rattle.std.specs.Vec.{vec_capacity};
ghost use Rattle.nio_plain.specs.Plain.{Kept, RepliesAs};
ghost use Rattle.nio_plain.specs.PlainState.{limits_of, rules_of, state_of};
ghost use Rattle.nio_plain.specs.ScriptState.{with_shared};
ghost use Rattle.nio_plain.specs.Seq.Opening.{channel_call, next_channel, number_comes_back, returning_number};
ghost use Rattle.nio_plain.specs.Seq.Opening.{selector_call, with_new_channel};

use super::Plain;
use super::channel::Channel;
use super::selector::Selector;
use crate::rules::Rules;
use nio_base::{ChanId, ChanNo, Kind, SelNo};
use nio_language::Reply;
use std::alloc::{AllocError, Global};

impl Plain {
    pub(super) fn open_selector(&mut self, alloc: Global) -> Result<Reply, AllocError>
        ensures { RepliesAs self.old self.new result (selector_call (limits_of self.old) (state_of self.old)) }
    {
        let number = self.selectors.len();
        if number >= self.limits.selectors as usize {
            return Ok(Reply::SelectorsSpent);
        }
        self.selectors.push(Selector::new(alloc))?;
        Ok(Reply::Selector(SelNo(number as u32)))
    }

    pub(super) fn open_channel(&mut self, kind: Kind) -> Result<Reply, AllocError>
        ensures { RepliesAs self.old self.new result
            (channel_call (rules_of self.old) (limits_of self.old) (state_of self.old) kind) }
    {
        let Some(chan) = self.next_channel(kind) else {
            return Ok(Reply::ChannelsSpent);
        };
        self.channels.reserve(1)?;
        self.put_channel(chan, kind);
        Ok(Reply::Channel(chan))
    }

    /// The channel of this kind that is opened next.
    pub(super) fn next_channel(&self, kind: Kind) -> Option<ChanId>
        ensures next { result ≡ next_channel (rules_of self.now) (limits_of self.now) (state_of self.now).shared kind }
        ensures there { IfSome result (λ chan. chan.number.0 ≤ vec_len self.now.channels) }
    {
        let number = self.channels.len();
        if number < self.limits.channels as usize {
            return Some(ChanId {
                number: ChanNo(number as u32),
                serial: 0,
            });
        }
        let number = self.returning_number(kind)?;
        Some(ChanId {
            number: ChanNo(number),
            serial: self.channels[number as usize].serial + 1,
        })
    }

    /// The least number that comes back for a channel of this kind.
    fn returning_number(&self, kind: Kind) -> Option<u32>
        ensures least { result
            ≡ returning_number (rules_of self.now) (limits_of self.now) (state_of self.now).shared kind }
        ensures there { IfSome result (λ number. number < vec_len self.now.channels) }
        ensures serial { IfSome result (λ number. ((state_of self.now).shared.chan number).serial + 1 < 2 ^ 32) }
    {
        for number in 0..self.limits.channels {
            if self.number_comes_back(number, kind) {
                return Some(number);
            }
        }
        None
    }

    /// Whether the number comes back for a channel of this kind.
    fn number_comes_back(&self, number: u32, kind: Kind) -> bool
        ensures { result ≡ number_comes_back (rules_of self.now) (limits_of self.now) (state_of self.now).shared kind
            number }
    {
        match self.rules {
            Rules::First => false,
            Rules::Now => match self.channels.get(number as usize) {
                None => false,
                Some(channel) => channel.can_reopen_as(kind) && !self.has_key(ChanNo(number)),
            },
        }
    }

    /// Makes the channel of this name. Takes no memory.
    pub(super) fn put_channel(&mut self, chan: ChanId, kind: Kind)
        requires next { chan.number.0 ≤ vec_len self.old.channels }
        requires room { chan.number.0 < vec_capacity self.old.channels }
        ensures left { state_of self.new ≡ with_shared (state_of self.old)
            (with_new_channel (state_of self.old).shared kind chan) }
        ensures kept { Kept self.old self.new }
        ensures size { vec_len self.new.channels ≤ vec_len self.old.channels + 1 }
        ensures capacity { vec_capacity self.new.channels ≡ vec_capacity self.old.channels }
        ensures pipes { self.new.pipes ≡ self.old.pipes }
    {
        let number = chan.number.0 as usize;
        let channel = Channel::new(kind, chan.serial);
        if number < self.channels.len() {
            self.channels[number] = channel;
        } else {
            self.channels.push_reserved(channel);
        }
    }
}

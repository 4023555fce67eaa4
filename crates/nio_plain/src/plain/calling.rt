//! The call of a line, by its word.
ghost use Rattle.std.specs.Prelude.{◌<◌};
ghost use Rattle.nio_plain.specs.Plain.{RepliesAs};
ghost use Rattle.nio_plain.specs.PlainState.{limits_of, rules_of, state_of};
ghost use Rattle.nio_plain.specs.Seq.{call_of};

use super::Plain;
use nio_base::CallerNo;
use nio_language::{Call, Reply};
use std::alloc::{AllocError, Global};

impl Plain {
    /// Makes one call of a caller that there is.
    pub(super) fn call_of(
        &mut self,
        alloc: Global,
        me: CallerNo,
        call: &Call,
    ) -> Result<Reply, AllocError>
        requires { me.0 < (limits_of self.old).callers }
        ensures { RepliesAs self.old self.new result (call_of (rules_of self.old) (limits_of self.old)
            (state_of self.old) me call.now) }
    {
        match call {
            Call::Selector => self.open_selector(alloc),
            Call::Channel(kind) => self.open_channel(*kind),
            Call::Blocking(chan, on) => Ok(self.set_blocking(*chan, *on)),
            Call::IsBlocking(chan) => Ok(self.is_blocking_channel(*chan)),
            Call::IsOpen(chan) => Ok(self.is_open_channel(*chan)),
            Call::IsRegistered(chan) => Ok(self.is_registered_channel(*chan)),
            Call::KeyFor(chan, sel) => Ok(self.key_for(*chan, *sel)),
            Call::Register(sel, chan, ops, note) => self.register(*sel, *chan, *ops, *note),
            Call::Closec(chan) => Ok(self.close_channel(me, *chan)),
            Call::Valid(sel, key) => Ok(self.is_valid_key(*sel, *key)),
            Call::Interest(sel, key) => Ok(self.interest(*sel, *key)),
            Call::Ready(sel, key) => Ok(self.ready(*sel, *key)),
            Call::Iset(sel, key, ops) => Ok(self.set_interest(*sel, *key, *ops)),
            Call::Ior(sel, key, ops) => Ok(self.interest_or(*sel, *key, *ops)),
            Call::Iand(sel, key, ops) => Ok(self.interest_and(*sel, *key, *ops)),
            Call::Cancel(sel, key) => Ok(self.cancel(*sel, *key)),
            Call::Unselect(sel, key) => Ok(self.unselect(*sel, *key)),
            Call::Attach(sel, key, note) => Ok(self.attach(*sel, *key, *note)),
            Call::Attachment(sel, key) => Ok(self.attachment(*sel, *key)),
            Call::Begin(sel, waiting) => self.begin(alloc, me, *sel, *waiting),
            Call::Told(sel, elapsed, pairs) => self.told(alloc, me, *sel, *elapsed, pairs),
            Call::Failed(sel) => Ok(self.failed(me, *sel)),
            Call::Wakeup(sel) => Ok(self.wakeup(*sel)),
            Call::Close(sel) => Ok(self.close(me, *sel)),
            Call::CloseEnd(sel) => Ok(self.close_end(me, *sel)),
            Call::Keys(sel) => self.keys(alloc, *sel),
            Call::Selected(sel) => self.selected(alloc, *sel),
            Call::Interrupt(target) => Ok(self.interrupt(*target)),
            Call::Interrupted => Ok(self.interrupted(me)),
            Call::Pipe(target) => self.pipe(alloc, me, *target),
            Call::Pwrite(chan, bytes) => self.pwrite(me, *chan, bytes.as_slice()),
            Call::Pread(chan, most) => self.pread(alloc, me, *chan, *most),
            Call::Group(call) => Ok(self.call_on_group(*call)),
        }
    }
}

//! The calls of a script: one variant for each call word, its arguments in the order of the line, and one for
//! all calls on the group.
ghost use Rattle.std.specs.Prelude.{◌↔◌, IsTrue};
ghost use Rattle.nio_language.specs.Arguments.{IsLaterKind};

use crate::bytes::Bytes;
use crate::group_call::GroupCall;
use crate::pairs::Pairs;
use nio_base::{CallerNo, ChanId, KeyId, Kind, Ops, SelNo};

/// A call as a line of a script gives it.
#[derive(Debug, Drop)]
pub enum Call {
    /// `selector`: opens a selector.
    Selector,
    /// `channel KIND`: opens a channel, which is in blocking mode and not registered.
    Channel(Kind),
    /// `blocking C on` or `off`: sets the channel's mode.
    Blocking(ChanId, bool),
    /// `is-blocking C`: whether the channel is in blocking mode; one whose number has a later channel isn't.
    IsBlocking(ChanId),
    /// `is-open C`: whether the channel isn't closed.
    IsOpen(ChanId),
    /// `is-registered C`: whether the channel has a key in a key set.
    IsRegistered(ChanId),
    /// `key-for C S`: the channel's key in the selector.
    KeyFor(ChanId, SelNo),
    /// `register S C OPS` or `register S C OPS ATT`: registers the channel, or changes the interest
    /// of its key, and its attachment where one is given that isn't 0.
    Register(SelNo, ChanId, Ops, Option<u64>),
    /// `closec C`: closes the channel.
    Closec(ChanId),
    /// `valid S K`: whether the key is valid.
    Valid(SelNo, KeyId),
    /// `interest S K`: the key's interest set.
    Interest(SelNo, KeyId),
    /// `ready S K`: the key's ready set.
    Ready(SelNo, KeyId),
    /// `iset S K OPS`: sets the interest set.
    Iset(SelNo, KeyId, Ops),
    /// `ior S K OPS`: adds to the interest set, and gives the one before.
    Ior(SelNo, KeyId, Ops),
    /// `iand S K OPS`: keeps of the interest set what is in OPS, and gives the one before.
    Iand(SelNo, KeyId, Ops),
    /// `cancel S K`: cancels the key.
    Cancel(SelNo, KeyId),
    /// `unselect S K`: takes the key out of the selected set.
    Unselect(SelNo, KeyId),
    /// `attach S K ATT`: sets the key's attachment, and gives the one before.
    Attach(SelNo, KeyId, u64),
    /// `attachment S K`: the key's attachment, 0 for none.
    Attachment(SelNo, KeyId),
    /// `begin S now`, `wait` or `for MS`: begins a selection.
    Begin(SelNo, Waiting),
    /// `told S` and pairs `K:OPS`, or `told S elapsed` and pairs: tells the caller's selection what
    /// is ready, and whether its time is over.
    Told(SelNo, bool, Pairs),
    /// `failed S`: the poll of the caller's selection failed.
    Failed(SelNo),
    /// `wakeup S`: leaves a wakeup.
    Wakeup(SelNo),
    /// `close S`: begins to close the selector.
    Close(SelNo),
    /// `close-end S`: ends the closing that the caller began.
    CloseEnd(SelNo),
    /// `keys S`: the selector's key set.
    Keys(SelNo),
    /// `selected S`: the selector's selected-key set.
    Selected(SelNo),
    /// `interrupt T`: sets the interrupt status of caller T.
    Interrupt(CallerNo),
    /// `interrupted`: whether the caller's interrupt status was set; clears it, as `Thread.interrupted` does.
    Interrupted,
    /// `pipe T`: opens a pipe; this caller owns its source, and caller T its sink.
    Pipe(CallerNo),
    /// `pwrite C HEX`: writes bytes into the pipe whose sink is C, and gives how many were written: as many as fit.
    Pwrite(ChanId, Bytes),
    /// `pread C N`: reads at most N bytes from the pipe whose source is C.
    Pread(ChanId, u32),
    /// A call on the group.
    Group(GroupCall),
}

impl Call {
    ghost use Rattle.nio_language.specs.Calls.{IsLaterCall};

    /// Whether the call came later than the first rules: no line named a channel, a key or a channel of the group with
    /// a serial, or opened a datagram channel, then.
    pub fn is_later(&self) -> bool
        ensures { IsTrue result ↔ IsLaterCall self.now }
    {
        match self {
            Call::Selector
            | Call::Begin(..)
            | Call::Failed(..)
            | Call::Wakeup(..)
            | Call::Close(..)
            | Call::CloseEnd(..)
            | Call::Keys(..)
            | Call::Selected(..)
            | Call::Interrupt(..)
            | Call::Interrupted
            | Call::Pipe(..) => false,
            Call::Group(call) => call.is_later(),
            Call::Channel(kind) => is_later_kind(*kind),
            Call::Blocking(chan, _)
            | Call::IsBlocking(chan)
            | Call::IsOpen(chan)
            | Call::IsRegistered(chan)
            | Call::KeyFor(chan, _)
            | Call::Register(_, chan, _, _)
            | Call::Closec(chan)
            | Call::Pwrite(chan, _)
            | Call::Pread(chan, _) => chan.serial != 0,
            Call::Valid(_, key)
            | Call::Interest(_, key)
            | Call::Ready(_, key)
            | Call::Iset(_, key, _)
            | Call::Ior(_, key, _)
            | Call::Iand(_, key, _)
            | Call::Cancel(_, key)
            | Call::Unselect(_, key)
            | Call::Attach(_, key, _)
            | Call::Attachment(_, key) => key.serial != 0,
            Call::Told(_, _, pairs) => pairs.as_slice().iter().any(|pair| pair.0.serial != 0),
        }
    }
}

/// Whether no line opened a channel of this kind by the first rules.
fn is_later_kind(kind: Kind) -> bool
    ensures { IsTrue result ↔ IsLaterKind kind }
{
    match kind {
        Kind::Stream | Kind::Listener | Kind::Source | Kind::Sink => false,
        Kind::Datagram => true,
    }
}

/// How a line says how long its selection waits.
#[derive(Clone, Copy, Debug, PartialEq, Eq)]
pub enum Waiting {
    /// `now`: not at all.
    Now,
    /// `wait`: without limit.
    Wait,
    /// `for MS`: so many milliseconds; 0 waits without limit.
    For(i64),
}

/// A call and who makes it: what a line of a script says that isn't blank.
#[derive(Debug, Drop)]
pub struct ScriptCall {
    /// Who makes the call.
    pub caller: CallerNo,
    /// What is called.
    pub call: Call,
}

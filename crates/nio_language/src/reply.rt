//! The replies to the calls of a script: one variant for each reply, and one for those that calls on the group
//! alone have.
use crate::bytes::Bytes;
use crate::group_reply::GroupReply;
use crate::names::Names;
use crate::pairs::Pairs;
use nio_base::{ChanId, KeyId, SelNo};
use nio_history::Why;

/// The reply to a call of a script.
#[derive(Debug, Drop)]
pub enum Reply {
    /// `sN`: the selector that was opened.
    Selector(SelNo),
    /// `cN`, or `cN.M`: the channel that was opened, by its number and, where that isn't 0, its serial.
    Channel(ChanId),
    /// `kN`, or `kN.M`: a key by its index and, where that isn't 0, its serial.
    Key(KeyId),
    /// A number: a set of operations or an attachment.
    Number(u64),
    /// Keys by their names, at least one, in rising order of their indexes.
    Names(Names),
    /// The call is done.
    Ok,
    /// It is so.
    Yes,
    /// It isn't so.
    No,
    /// There is no such key.
    None,
    /// `looked` and pairs of a key and operations, or `looked none`: each key with the interest looked at.
    Looked(Pairs),
    /// `selected N why`: how many keys were updated, and why the selection ended.
    Selected(u32, Why),
    /// The selection goes on.
    Again,
    /// The selection was left after a failed poll.
    Left,
    /// The channel or the selector was closed, or being closed, before.
    Already,
    /// The closing has begun.
    Closing,
    /// The closing has ended.
    Closed,
    /// No number is left for a selector.
    SelectorsSpent,
    /// No number is left for a channel of this kind.
    ChannelsSpent,
    /// The channel is closed.
    ClosedChannel,
    /// The channel is in blocking mode, or is registered and may not return to it.
    IllegalBlockingMode,
    /// The channel's kind hasn't all of these operations.
    IllegalOps,
    /// The key isn't valid any more.
    CancelledKey,
    /// The selector is closed.
    ClosedSelector,
    /// The selector has no index left for a key.
    Full,
    /// Somebody selects there, or another caller holds the channel.
    Busy,
    /// The time is below 0.
    NegativeTimeout,
    /// The caller has no selection in progress there.
    NotSelecting,
    /// The caller has no closing in progress there.
    NotClosing,
    /// There is no such caller.
    NoCaller,
    /// There is no such selector.
    NoSelector,
    /// There is no such channel.
    NoChannel,
    /// There is no such key.
    NoKey,
    /// The source and the sink of the pipe that was made, as `cN` or `cN.M` each.
    Ends(ChanId, ChanId),
    /// The bytes that were read, at least one.
    Bytes(Bytes),
    /// All bytes of the pipe were read, and no more come.
    End,
    /// The channel isn't this end of a pipe that the caller owns.
    NotOwner,
    /// The caller was interrupted, and its channel is closed.
    ClosedByInterrupt,
    /// Another caller closed the channel while the caller waited.
    AsyncClose,
    /// The pipe's source is closed.
    BrokenPipe,
    /// A reply that calls on the group alone have.
    Group(GroupReply),
}

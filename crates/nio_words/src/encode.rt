//! Parts of the state as words.
ghost use Rattle.std.specs.Prelude.{◌≡◌, ◌+◌, ◌^◌, ◌<◌, Some};
ghost use Rattle.nio_base.specs.Kind.{kind_code};
ghost use Rattle.nio_history.specs.Acts.{new_channel, new_key, selected_with};
ghost use Rattle.nio_words.specs.Encodings.{bit, channel_word, stage_word, mark_word, holder_word, enrolled_word};

use nio_base::{CallerNo, ChanNo, KeyId, Kind, Ops};
use nio_history::{Chan, Stage};

#[inline(always)]
fn bit(set: bool) -> u64
    ensures bit { result ≡ bit set }
    ensures below { result < 2 }
{
    if set { 1 } else { 0 }
}

#[inline(always)]
fn kind_code(kind: Kind) -> u64
    ensures code { result ≡ kind_code kind }
    ensures below { result < 5 }
{
    match kind {
        Kind::Stream => 0,
        Kind::Listener => 1,
        Kind::Source => 2,
        Kind::Sink => 3,
        Kind::Datagram => 4,
    }
}

/// The word of a channel.
#[inline(always)]
pub(crate) fn channel(c: Chan) -> u64
    ensures word { result ≡ channel_word c }
    ensures serial { c.serial < 2 ^ 32 }
{
    let mode = 16 * bit(c.closed) + 32 * bit(!c.blocking);
    bit(c.made) + 2 * kind_code(c.kind) + mode + u64::from(c.serial) * (1 << 32)
}

/// The word of a new channel: made, of this kind, open, in blocking mode, and with this serial.
#[inline(always)]
pub(crate) fn new_channel(kind: Kind, serial: u32) -> u64
    ensures { result ≡ channel_word (new_channel kind serial) }
{
    1 + 2 * kind_code(kind) + u64::from(serial) * (1 << 32)
}

/// One pin, as the word of an index counts it.
pub(crate) const PIN: u64 = 16;

/// The word of an index that was just claimed for this channel, with one pin on it.
#[inline(always)]
pub(crate) fn new_key(c: ChanNo, serial: u32) -> u64
    requires { c.0 < 2 ^ 20 }
    ensures { result ≡ stage_word (new_key c serial) 1 }
{
    1 + PIN + u64::from(c.0) * (1 << 12) + u64::from(serial) * (1 << 32)
}

/// The word of an index that has this key and no pin.
#[inline(always)]
pub(crate) fn unpinned(key: Stage) -> u64
    requires { key.chan.0 < 2 ^ 20 }
    ensures { result ≡ stage_word key 0 }
{
    let stages = bit(key.claimed)
        + 2 * bit(key.published)
        + 4 * bit(key.cancelled)
        + 8 * bit(key.removed);
    stages + u64::from(key.chan.0) * (1 << 12) + u64::from(key.serial) * (1 << 32)
}

/// The word of a hold or a turn that this caller has.
#[inline(always)]
pub(crate) fn holder(n: CallerNo) -> u64
    ensures { result ≡ holder_word (Some n) }
{
    u64::from(n.0) + 1
}

/// The word of a channel's enrolled key, where it is this one.
#[inline(always)]
pub(crate) fn enrolled(key: KeyId) -> u64
    requires { key.index + 1 < 2 ^ 32 }
    ensures { result ≡ enrolled_word (Some key) }
{
    u64::from(key.index) + 1 + u64::from(key.serial) * (1 << 32)
}

/// The word of a key's mark.
#[inline(always)]
pub(crate) fn mark(selected: bool, ready: Ops) -> u64
    ensures word { result ≡ mark_word (record { selected = selected; ready = ready }) }
    ensures ready { ready < 256 }
{
    u64::from(ready.bits()) + 256 * bit(selected)
}

/// The word of a key's mark once the selection has marked the key with what was told of it. `selected` and
/// `ready` are the mark before.
#[inline(always)]
pub(crate) fn selected_with(selected: bool, ready: Ops, told: Ops) -> u64
    ensures word { result ≡ mark_word (selected_with (record { selected = selected; ready = ready }) told) }
    ensures told { told < 256 }
{
    let all = if selected { ready.union(told) } else { told };
    mark(true, all)
}

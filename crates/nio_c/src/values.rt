//! The structs that C passes.
ghost use Rattle.std.specs.Prelude.{◌≡◌};
ghost use Rattle.nio_c.specs.Values.{as_changed, as_limits, as_looked, channel_id, channel_of, key_no, key_of, kind_numbered};
ghost use Rattle.nio_c.specs.Values.{selection_of, why_code};

use nio_base::{ChanId, ChanNo, KeyNo, Kind, Limits, SelNo};
use nio_history::Why;
use nio_select::KeyChange;
use nio_steps::{LookedKey, Selected};

/// How much a table holds: Rattle's `Limits`.
#[repr(C)]
#[derive(Clone, Copy, Debug)]
pub struct TableLimits {
    pub callers: u32,
    pub selectors: u32,
    pub channels: u32,
    pub keys: u32,
}

impl TableLimits {
    pub(crate) fn limits(&self) -> Limits
        ensures { result ≡ as_limits self.now }
    {
        Limits {
            callers: self.callers,
            selectors: self.selectors,
            channels: self.channels,
            keys: self.keys,
        }
    }
}

/// A channel.
#[repr(C)]
#[derive(Clone, Copy, Debug)]
pub struct Channel {
    pub number: u32,
    pub serial: u32,
}

impl Channel {
    pub(crate) fn of(id: ChanId) -> Channel
        ensures { result ≡ channel_of id }
    {
        Channel {
            number: id.number.0,
            serial: id.serial,
        }
    }

    pub(crate) fn id(self) -> ChanId
        ensures { result ≡ channel_id self }
    {
        ChanId {
            number: ChanNo(self.number),
            serial: self.serial,
        }
    }
}

/// A key.
#[repr(C)]
#[derive(Clone, Copy, Debug)]
pub struct Key {
    pub selector: u32,
    pub index: u32,
    pub serial: u32,
}

impl Key {
    pub(crate) fn of(key: KeyNo) -> Key
        ensures { result ≡ key_of key }
    {
        Key {
            selector: key.sel.0,
            index: key.index,
            serial: key.serial,
        }
    }

    pub(crate) fn number(self) -> KeyNo
        ensures { result ≡ key_no self }
    {
        KeyNo {
            sel: SelNo(self.selector),
            index: self.index,
            serial: self.serial,
        }
    }
}

/// A key that a selection looks at, as it found the key when it began.
#[repr(C)]
#[derive(Clone, Copy, Debug)]
pub struct Looked {
    pub index: u32,
    pub serial: u32,
    pub channel: u32,
    pub interest: u8,
}

impl Looked {
    pub(crate) fn of(key: LookedKey) -> Looked
        ensures { result ≡ as_looked key }
    {
        Looked {
            index: key.index,
            serial: key.serial,
            channel: key.channel.0,
            interest: key.interest.bits(),
        }
    }
}

/// What a poller tells: operations that the channel of a looked key is ready for.
#[repr(C)]
#[derive(Clone, Copy, Debug)]
pub struct Pair {
    pub index: u32,
    pub ready: u8,
}

/// A key that a selection marked or removed as it was told: its ready set since, or none where it was removed.
#[repr(C)]
#[derive(Clone, Copy, Debug)]
pub struct Changed {
    pub index: u32,
    pub serial: u32,
    pub channel: u32,
    pub ready: u8,
    pub removed: bool,
}

impl Changed {
    pub(crate) fn of(key: KeyChange) -> Changed
        ensures { result ≡ as_changed key }
    {
        Changed {
            index: key.index,
            serial: key.serial,
            channel: key.channel.0,
            ready: key.ready.bits(),
            removed: key.removed,
        }
    }
}

/// What a selection that is over answers.
#[repr(C)]
#[derive(Clone, Copy, Debug)]
pub struct Selection {
    pub count: u32,
    pub why: u32,
}

impl Selection {
    pub(crate) fn of(selected: Selected) -> Selection
        ensures { result ≡ selection_of selected }
    {
        Selection {
            count: selected.count,
            why: why_number(selected.why),
        }
    }
}

fn why_number(why: Why) -> u32
    ensures { result ≡ why_code why }
{
    match why {
        Why::Ready => 0,
        Why::Now => 1,
        Why::Woken => 2,
        Why::Closed => 3,
        Why::Interrupted => 4,
        Why::Elapsed => 5,
    }
}

// The kind with this number.
pub(crate) fn kind_of(number: u32) -> Option<Kind>
    ensures { result ≡ kind_numbered number }
{
    match number {
        0 => Some(Kind::Stream),
        1 => Some(Kind::Listener),
        2 => Some(Kind::Source),
        3 => Some(Kind::Sink),
        4 => Some(Kind::Datagram),
        _ => None,
    }
}

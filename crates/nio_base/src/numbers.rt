//! The numbers that name callers, selectors, channels, keys and operations, and a socket's address.
ghost use Rattle.std.specs.Prelude.{◌≡◌};
ghost use Rattle.nio_base.specs.Numbers.{first_channel};

/// A caller: who makes calls. A thread acts for one or more callers; each line of a script names
/// one.
#[derive(Clone, Copy, Debug, PartialEq, Eq, Hash, PartialOrd, Ord)]
pub struct CallerNo(pub u32);

/// A selector.
#[derive(Clone, Copy, Debug, PartialEq, Eq, Hash, PartialOrd, Ord)]
pub struct SelNo(pub u32);

/// The number of a selectable channel. The number of a closed channel can be given to a new one, so a channel
/// is named by its number and its serial: `ChanId`.
#[derive(Clone, Copy, Debug, PartialEq, Eq, Hash, PartialOrd, Ord)]
pub struct ChanNo(pub u32);

/// A selectable channel: its number, and its serial. The number of a closed channel can be given to a new
/// channel of the same kind, whose serial is then one higher; a number's first channel has serial 0.
#[derive(Clone, Copy, Debug, PartialEq, Eq, Hash, PartialOrd, Ord)]
pub struct ChanId {
    /// Its number.
    pub number: ChanNo,
    /// How many channels had this number before.
    pub serial: u32,
}

impl ChanId {
    /// The first channel of this number.
    pub fn first(number: ChanNo) -> ChanId
        ensures { result ≡ first_channel number }
    {
        ChanId { number, serial: 0 }
    }
}

/// A key within its selector: its index there, and its serial. The index of a removed key can be
/// given to a new key, whose serial is then one higher; an index's first key has serial 0.
#[derive(Clone, Copy, Debug, PartialEq, Eq, Hash, PartialOrd, Ord)]
pub struct KeyId {
    /// Its place in the selector.
    pub index: u32,
    /// How many keys had this index before.
    pub serial: u32,
}

/// A key: its selector, its index there, and its serial.
#[derive(Clone, Copy, Debug, PartialEq, Eq, Hash, PartialOrd, Ord)]
pub struct KeyNo {
    /// The selector.
    pub sel: SelNo,
    /// Its place in the selector.
    pub index: u32,
    /// How many keys had this index before.
    pub serial: u32,
}

/// An operation of an asynchronous channel group, counted from 0 as they are accepted.
#[derive(Clone, Copy, Debug, PartialEq, Eq, Hash, PartialOrd, Ord)]
pub struct OpNo(pub u64);

/// A channel of an asynchronous channel group: its number there, and its serial. The number of a closed
/// channel can be given to a new channel, whose serial is then one higher; a number's first channel has
/// serial 0.
#[derive(Clone, Copy, Debug, PartialEq, Eq, Hash, PartialOrd, Ord)]
pub struct GChan {
    /// Its number in the group.
    pub number: u32,
    /// How many channels had this number before.
    pub serial: u32,
}

/// The address of a socket: the four parts of an IPv4 address as they are written, and a port.
#[derive(Clone, Copy, Debug, PartialEq, Eq, Hash)]
pub struct Addr {
    /// The four numbers of the IPv4 address, in the order in which they are written.
    pub ip: [u8; 4],
    /// The port.
    pub port: u16,
}

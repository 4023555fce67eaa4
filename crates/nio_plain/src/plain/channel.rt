//! A channel of the plain system.
ghost use Rattle.std.specs.Prelude.{◌≡◌, ◌&&◌};
ghost use Rattle.nio_base.specs.Kind.{is_same_kind};

use nio_base::Kind;

/// The latest channel of a number.
#[derive(Clone, Copy, Debug)]
pub(super) struct Channel {
    pub(super) kind: Kind,
    pub(super) closed: bool,
    pub(super) blocking: bool,
    pub(super) serial: u32,
}

impl Channel {
    ghost use Rattle.nio_history.specs.Acts.{new_channel};
    ghost use Rattle.nio_history.specs.Sets.{can_reopen, fits_channel, is_open_channel};
    ghost use Rattle.nio_plain.specs.PlainState.{channel_row};

    /// A new channel, which is open and in blocking mode.
    pub(super) fn new(kind: Kind, serial: u32) -> Channel
        ensures { channel_row result ≡ new_channel kind serial }
    {
        Channel {
            kind,
            closed: false,
            blocking: true,
            serial,
        }
    }

    /// Whether the serial is this channel's, and not that of an earlier one of the number.
    pub(super) fn fits(&self, serial: u32) -> bool
        ensures { result ≡ fits_channel (channel_row self.now) serial }
    {
        self.serial == serial
    }

    /// Whether the channel with this serial is open.
    pub(super) fn is_open(&self, serial: u32) -> bool
        ensures { result ≡ is_open_channel (channel_row self.now) serial }
    {
        self.fits(serial) && !self.closed
    }

    /// Whether the channel with this serial is the number's and in blocking mode.
    pub(super) fn is_blocking(&self, serial: u32) -> bool
        ensures { result ≡ (fits_channel (channel_row self.now) serial && self.now.blocking) }
    {
        self.fits(serial) && self.blocking
    }

    /// Whether the number can be given to a new channel of this kind, unless this one is registered.
    pub(super) fn can_reopen_as(&self, kind: Kind) -> bool
        ensures { result ≡ (can_reopen (channel_row self.now) && is_same_kind self.now.kind kind) }
    {
        self.closed && self.serial < u32::MAX && self.kind == kind
    }
}

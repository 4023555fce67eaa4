//! Which kinds of operation have timed out on a channel.
ghost use Rattle.std.specs.Prelude.{◌≡◌};
ghost use Rattle.nio_deadline.specs.Timed.{has_kind, with_kind, no_kinds, kinds_of, may_have_limit};

use nio_base::OpKind;

/// Which kinds of operation have timed out on the channel with this serial.
#[derive(Clone, Copy, Debug)]
pub(crate) struct Kinds {
    pub(crate) serial: u32,
    pub(crate) read: bool,
    pub(crate) write: bool,
}

impl Kinds {
    pub(crate) fn none() -> Kinds
        ensures { result ≡ no_kinds }
    {
        Kinds {
            serial: 0,
            read: false,
            write: false,
        }
    }

    /// Those of the channel with this serial: none, where these are another channel's.
    pub(crate) fn of(self, serial: u32) -> Kinds
        ensures { result ≡ kinds_of serial self }
    {
        if self.serial == serial {
            return self;
        }
        Kinds {
            serial,
            ..Kinds::none()
        }
    }

    pub(crate) fn has(self, kind: OpKind) -> bool
        ensures { result ≡ has_kind self kind }
    {
        match kind {
            OpKind::Accept | OpKind::Connect => false,
            OpKind::Read => self.read,
            OpKind::Write => self.write,
        }
    }

    pub(crate) fn with(mut self, kind: OpKind) -> Kinds
        ensures { result ≡ with_kind self kind }
    {
        match kind {
            OpKind::Accept | OpKind::Connect => {}
            OpKind::Read => self.read = true,
            OpKind::Write => self.write = true,
        }
        self
    }
}

/// Whether an operation of this kind may have a time limit.
pub(crate) fn may_have_limit(kind: OpKind) -> bool
    ensures { result ≡ may_have_limit kind }
{
    match kind {
        OpKind::Accept | OpKind::Connect => false,
        OpKind::Read | OpKind::Write => true,
    }
}

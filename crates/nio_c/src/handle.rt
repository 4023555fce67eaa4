//! What C has of a caller.
ghost use Rattle.nio_c.specs.Holding.{Holding as Held};
ghost use Rattle.nio_c.specs.Owned.{handle_owns, holder_coded};

use crate::kept::Kept;
use crate::parts::Parts;
use std::alloc::Global;
use std::marker::Model;

/// What C has of a caller: a pointer to it, or nothing. A handle of zeroes has no caller.
#[repr(C)]
#[derive(Drop)]
pub struct Handle {
    at: *mut u8,
    /// Whether there is a caller.
    pub full: bool,
    // The caller, where there is one.
    pub ghost holder: { Held } by { holder_coded },
}

impl Model for Handle {
    ghost also_owns = { λ h. handle_owns h.full h.at h.holder };
}

unsafe impl Send for Handle {}

impl Handle {
    ghost use Rattle.std.specs.Prelude.{◌≡◌, true, MatchOption};
    ghost use Rattle.nio_c.specs.Handles.{Has, IsEmpty};

    // Whether there is a caller.
    pub(crate) fn is_full(&mut self) -> bool
        ensures { (result ≡ self.old.full) × (self.new ≡ self.old) }
    {
        self.full
    }

    // Takes the caller out.
    fn take_parts(&mut self, alloc: Global) -> Parts<Kept, Global>
        requires { self.old.full ≡ true }
        ensures { (result.value ≡ self.old.holder) × IsEmpty self.new }
    {
        self.full = false;
        let ptr = self.at as *mut Kept;
        Parts { ptr, alloc }
    }

    // A handle of this caller.
    fn of_parts(parts: Parts<Kept, Global>) -> Handle
        ensures { Has result parts.value }
    {
        let Parts { ptr, alloc: _ } = parts;
        let at = ptr as *mut u8;
        Handle { at, full: true }
    }

    // Takes the caller out, where there is one.
    pub(crate) fn take(&mut self, alloc: Global) -> Option<Box<Kept, Global>>
        ensures { MatchOption result (IsEmpty self.old × (self.new ≡ self.old))
            (λ caller. Has self.old caller.value × IsEmpty self.new) }
    {
        if !self.is_full() {
            return None;
        }
        Some(self.take_parts(alloc).into_box())
    }

    // Puts a caller into an empty handle.
    pub(crate) fn put(&mut self, caller: Box<Kept, Global>)
        requires { IsEmpty self.old }
        ensures { Has self.new caller.value }
    {
        *self = Handle::of_parts(Parts::of(caller));
    }
}

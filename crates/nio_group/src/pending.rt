//! Which operations are pending on a channel, and how many of it are in flight.
ghost use Rattle.std.specs.Prelude.{◌≡◌, ℕ, ◌<◌, ◌≤◌, Some, None, IfSome, IfNone, IsTrue, Option};
ghost use Rattle.nio_base.specs.declared.group.OpKind.{OpKind};
ghost use Rattle.nio_group.specs.Pending.{slot_of, with_slot, nothing_pending, none_pending, with_one_more, with_one_less};
ghost use Rattle.nio_group.specs.Pending.{lesser_of};

use nio_base::OpKind;

/// The number of the operation of each kind that is pending on a channel, if there is one, and how
/// many of its operations are in flight: pending, queued or running.
#[derive(Clone, Copy, Debug)]
pub(crate) struct Pending {
    pub(crate) accept: Option<u64>,
    pub(crate) connect: Option<u64>,
    pub(crate) read: Option<u64>,
    pub(crate) write: Option<u64>,
    pub(crate) in_flight: u32,
}

impl Pending {
    /// Nothing pending, and nothing in flight.
    pub(crate) fn none() -> Pending
        ensures { result ≡ nothing_pending }
    {
        Pending {
            accept: None,
            connect: None,
            read: None,
            write: None,
            in_flight: 0,
        }
    }

    /// Nothing pending, and as many in flight.
    pub(crate) fn without_pending(self) -> Pending
        ensures { result ≡ none_pending self }
    {
        Pending {
            in_flight: self.in_flight,
            ..Pending::none()
        }
    }

    /// One more in flight, where it counts, and the same pending.
    pub(crate) fn with_one_more(self, counts: bool) -> Pending
        requires { self.in_flight < 65536 }
        ensures { result ≡ with_one_more self counts }
    {
        let in_flight = if counts {
            self.in_flight + 1
        } else {
            self.in_flight
        };
        Pending { in_flight, ..self }
    }

    /// One less in flight, where it counts, and the same pending.
    pub(crate) fn with_one_less(self, counts: bool) -> Pending
        requires { IsTrue counts → 1 ≤ self.in_flight }
        ensures { result ≡ with_one_less self counts }
    {
        let in_flight = if counts {
            self.in_flight - 1
        } else {
            self.in_flight
        };
        Pending { in_flight, ..self }
    }

    pub(crate) fn get(self, kind: OpKind) -> Option<u64>
        ensures { result ≡ slot_of self kind }
    {
        match kind {
            OpKind::Accept => self.accept,
            OpKind::Connect => self.connect,
            OpKind::Read => self.read,
            OpKind::Write => self.write,
        }
    }

    /// The same, but for the pending operation of this kind, whose number is now this one, or none.
    pub(crate) fn with(mut self, kind: OpKind, number: Option<u64>) -> Pending
        ensures { result ≡ with_slot self kind number }
    {
        match kind {
            OpKind::Accept => self.accept = number,
            OpKind::Connect => self.connect = number,
            OpKind::Read => self.read = number,
            OpKind::Write => self.write = number,
        }
        self
    }

    /// The least of the numbers.
    pub(crate) fn least(self) -> Option<u64>
        ensures found { IfSome result (λ n. (kind : OpKind) × (slot_of self kind ≡ Some n)) }
        ensures least { IfSome result (λ n. (kind : OpKind) (m : ℕ) → slot_of self kind ≡ Some m → n ≤ m) }
        ensures none { IfNone result ((kind : OpKind) → slot_of self kind ≡ None) }
    {
        lesser(
            lesser(self.accept, self.connect),
            lesser(self.read, self.write),
        )
    }
}

/// The lesser of two numbers, each of which may be missing.
fn lesser(a: Option<u64>, b: Option<u64>) -> Option<u64>
    ensures { result ≡ lesser_of a b }
{
    match (a, b) {
        (Some(m), Some(n)) => Some(m.min(n)),
        (Some(m), None) => Some(m),
        (None, other) => other,
    }
}

//! The deadlines of operations: found by the moment, and by the operation's number.
ghost use Rattle.std.specs.Prelude.{◌≡◌, ◌∷◌, ◌<◌, ◌≤◌, ◌^◌, ℕ, [], length, IfNone, IfSome, OnOk, OnErr};
ghost use Rattle.nio_deadline.specs.Deadlines.{AreInOrder, with_deadline, without, first_moment, due};
ghost use Rattle.nio_deadline.specs.Kept.{deadline_of, IsAboveAll};

use nio_base::{GChan, OpKind};
use std::alloc::{AllocError, Global};
use std::collections::BTreeMap;
use std::marker::Model;

/// When an operation's time is up, and its number. Moments are in milliseconds, and count from where the caller likes.
#[derive(Clone, Copy, Debug, PartialEq, Eq, PartialOrd, Ord)]
pub(crate) struct Moment {
    pub(crate) at: u64,
    pub(crate) op: u64,
}

/// The channel and the kind of an operation.
#[derive(Clone, Copy, Debug)]
pub(crate) struct Place {
    pub(crate) chan: GChan,
    pub(crate) kind: OpKind,
}

/// The deadlines in order, and the moment of each by its operation's number.
#[derive(Drop)]
pub(crate) struct Deadlines {
    in_order: BTreeMap<Moment, Place>,
    moments: BTreeMap<u64, u64>,
}

impl Model for Deadlines {
    ghost use Rattle.std.specs.Prelude.{List};
    ghost use Rattle.nio_deadline.specs.Deadlines.{Deadline};
    ghost use Rattle.nio_deadline.specs.Kept.{deadlines_of, IsDeadlinesKept};

    ghost Value = { List Deadline };

    ghost view = { λ d. deadlines_of d.in_order.entries };

    ghost invariant = { λ d. IsDeadlinesKept (deadlines_of d.in_order.entries) d.moments };
}

impl Deadlines {
    pub(crate) fn new(alloc: Global) -> Deadlines
        ensures { result ≡ [] }
    {
        Deadlines {
            in_order: BTreeMap::new(alloc),
            moments: BTreeMap::new(alloc),
        }
    }

    /// The deadlines are in order. Call it where a proof needs that.
    pub(crate) fn law(&self)
        ensures { AreInOrder self.now }
    {
        let _ = &self.moments;
    }

    pub(crate) fn len(&self) -> usize
        ensures is { result ≡ length self.now }
        ensures small { result < 2 ^ 63 }
    {
        self.in_order.len()
    }

    /// The moment of the first deadline.
    pub(crate) fn first(&self) -> Option<u64>
        ensures { result ≡ first_moment self.now }
    {
        match self.in_order.first_key_value() {
            Some((moment, _)) => Some(moment.at),
            None => None,
        }
    }

    /// Adds the deadline of an operation whose number is above those that have one.
    pub(crate) fn insert(&mut self, moment: Moment, place: Place) -> Result<(), AllocError>
        requires { IsAboveAll moment.op self.old }
        ensures ok { OnOk result (self.new ≡ with_deadline (deadline_of (moment, place)) self.old) }
        ensures err { OnErr result (self.new ≡ self.old) }
    {
        self.moments.insert(moment.op, moment.at)?;
        if let Err(failed) = self.in_order.insert(moment, place) {
            self.moments.remove(&moment.op);
            return Err(failed.into());
        }
        Ok(())
    }

    /// Removes the deadline of an operation, if it has one.
    pub(crate) fn remove(&mut self, op: u64)
        ensures { self.new ≡ without op self.old }
    {
        if let Some(at) = self.moments.remove(&op) {
            self.in_order.remove(&Moment { at, op });
        }
    }

    /// Removes all.
    pub(crate) fn clear(&mut self)
        ensures { self.new ≡ [] }
    {
        self.in_order.clear();
        self.moments.clear();
    }

    /// Removes the first deadline, if it has come by now.
    pub(crate) fn pop_due(&mut self, now: u64) -> Option<(u64, Place)>
        ensures none { IfNone result ((self.new ≡ self.old) × (due now self.old ≡ [])) }
        ensures some { IfSome result (λ p. (at : ℕ) × (at ≤ now)
            × (self.old ≡ deadline_of (record { at = at; op = p.0 }, p.1) ∷ self.new)) }
    {
        if self.first()? > now {
            return None;
        }
        let (moment, place) = self.in_order.pop_first()?;
        self.moments.remove(&moment.op);
        Some((moment.op, place))
    }
}

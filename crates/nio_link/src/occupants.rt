//! What stands under each number of a net.
ghost use Rattle.std.specs.Prelude.{◌≡◌, [], IfOk, length, nat_lt, slice_set, OnErr, OnOk};
ghost use Rattle.nio_link.specs.PlaceLogs.{grown_occupants, occupant_at};

use crate::place::Standing;
use nio_base::ChanNo;
use std::alloc::{AllocError, Global};
use std::marker::Model;

/// What stands under a number: the serial of its channel, and how it stands.
#[derive(Clone, Copy, Debug, PartialEq, Eq)]
pub struct Occupant {
    /// The serial of the channel.
    pub serial: u32,
    /// How it stands.
    pub standing: Standing,
}

/// What stands under each number, from 0 on. Contracts see the list.
#[derive(Drop)]
pub struct Occupants {
    of: Vec<Option<Occupant>>,
}

impl Model for Occupants {
    ghost use Rattle.std.specs.Prelude.{List, Option};
    ghost use Rattle.nio_link.specs.declared.occupants.Occupant.{Occupant as Held};

    ghost Value = { List (Option Held) };

    ghost view = { λ h. h.of.items };
}

impl Occupants {
    /// Nothing stands under so many numbers.
    pub fn make(alloc: Global, room: usize) -> Result<Occupants, AllocError>
        ensures { IfOk result (λ occupants. occupants ≡ grown_occupants [] room) }
    {
        Ok(Occupants {
            of: vec![in alloc; None; room]?,
        })
    }

    /// What stands under this number; nothing beyond the last.
    pub fn at(&self, number: ChanNo) -> Option<Occupant>
        ensures { result ≡ occupant_at self.now number }
    {
        let at = number.0 as usize;
        if at < self.of.len() {
            self.of[at]
        } else {
            None
        }
    }

    /// Whether there is this number.
    pub fn has(&self, number: ChanNo) -> bool
        ensures { result ≡ nat_lt number.0 (length self.now) }
    {
        (number.0 as usize) < self.of.len()
    }

    /// Sets what stands under this number, where there is one.
    pub fn set(&mut self, number: ChanNo, occupant: Option<Occupant>)
        ensures { self.new ≡ slice_set self.old number.0 occupant }
    {
        if let Some(place) = self.of.get_mut(number.0 as usize) {
            *place = occupant;
        }
    }

    /// Makes places for the numbers below this one.
    pub fn grow(&mut self, room: usize) -> Result<(), AllocError>
        ensures ok { OnOk result (self.new ≡ grown_occupants self.old room) }
        ensures err { OnErr result (self.new ≡ self.old) }
    {
        let room = room.max(self.of.len());
        self.of.resize(room, None)
    }
}

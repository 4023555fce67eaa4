//! The changes of the places of a net, and what stands under each number.
ghost use Rattle.std.specs.Prelude.{◌≡◌, ◌↔◌, ◌<◌, [], ◌∷◌, ◌++◌, is_none, IfOk, OnOk, OnErr, IsTrue, length};
ghost use Rattle.std.specs.Prelude.{slice_set, nat_lt};
ghost use Rattle.nio_link.specs.PlaceLogs.{occupant_at, held_by, occupant_after, present, IsAlone, grown_occupants};
ghost use Rattle.nio_link.specs.Places.{places_after, standing_after, stands, is_connecting, is_listening, is_there};
ghost use Rattle.nio_link.specs.Places.{IsVacantNumber};

use crate::occupants::{Occupant, Occupants};
use crate::place::{Change, Standing};
use nio_base::{ChanId, ChanNo};
use nio_trace::Trace;
use std::alloc::{AllocError, Global};
use std::marker::Model;

/// Keeps for each number below its room what stands there. The list of changes, from which the places of the net
/// follow, exists in proofs alone; it has the changes of the numbers beyond the room too.
#[derive(Drop)]
pub struct PlaceLog {
    occupants: Occupants,
    changes: Trace<(ChanId, Change)>,
}

impl Model for PlaceLog {
    ghost use Rattle.nio_link.specs.PlaceLogs.{IsLogged, LogFields};

    ghost Value = { LogFields };

    ghost view = { λ l. record { changes = l.changes; occupants = l.occupants } };

    ghost invariant = { λ l. IsLogged l.occupants l.changes };
}

impl PlaceLog {
    /// No change yet, and room for so many numbers.
    #[tactic(auto, using(crate::proofs::Present::logged_first))]
    pub fn make(alloc: Global, room: usize) -> Result<PlaceLog, AllocError>
        ensures changes { IfOk result (λ log. log.changes ≡ []) }
        ensures occupants { IfOk result (λ log. log.occupants ≡ grown_occupants [] room) }
    {
        Ok(PlaceLog {
            occupants: Occupants::make(alloc, room)?,
            changes: Trace::new(),
        })
    }

    /// Adds a change. Nothing may come to stand beyond the room, nor beside what stands under the number.
    pub fn push(&mut self, chan: ChanId, change: Change)
        requires alone { IsAlone change (places_after self.old.changes) chan }
        requires room { IsTrue (is_there (standing_after change)) → chan.number.0 < length self.old.occupants }
        ensures changes { self.new.changes ≡ self.old.changes ++ (chan, change) ∷ [] }
        ensures occupants { self.new.occupants ≡ slice_set self.old.occupants chan.number.0
            (occupant_after chan.serial (standing_after change) (occupant_at self.old.occupants chan.number)) }
        ensures same_room { length self.new.occupants ≡ length self.old.occupants }
    {
        let before = self.occupants.at(chan.number);
        let next = next_occupant(chan.serial, standing_after(change), before);
        self.occupants.set(chan.number, next);
        self.changes.push(&(chan, change));
    }

    /// Whether a link stands under this channel.
    #[tactic(auto, using(crate::proofs::Present::standing_present))]
    pub fn stands(&self, chan: ChanId) -> bool
        ensures { result ≡ stands (places_after self.now.changes chan) }
    {
        matches!(self.standing(chan), Standing::Linked | Standing::Shut)
    }

    /// Whether a link stands there that isn't connected yet.
    #[tactic(auto, using(crate::proofs::Present::connecting_present))]
    pub fn is_connecting(&self, chan: ChanId) -> bool
        ensures { result ≡ is_connecting (places_after self.now.changes chan).standing }
    {
        matches!(self.standing(chan), Standing::Connecting)
    }

    /// Whether a listener stands there.
    #[tactic(auto, using(crate::proofs::Present::listening_present))]
    pub fn is_listening(&self, chan: ChanId) -> bool
        ensures { result ≡ is_listening (places_after self.now.changes chan).standing }
    {
        matches!(self.standing(chan), Standing::Listening)
    }

    /// Whether anything stands there.
    #[tactic(auto, using(crate::proofs::Present::there_present))]
    pub fn is_there(&self, chan: ChanId) -> bool
        ensures { result ≡ is_there (places_after self.now.changes chan).standing }
    {
        !matches!(self.standing(chan), Standing::Nothing | Standing::Gone)
    }

    // What stands under this channel. Of what is gone it knows no more.
    fn standing(&self, chan: ChanId) -> Standing
        ensures { result ≡ present (places_after self.now.changes chan).standing }
    {
        standing_of(self.occupants.at(chan.number), chan.serial)
    }

    /// What stands under this number.
    pub fn occupant(&self, number: ChanNo) -> Option<Occupant>
        ensures { result ≡ occupant_at self.now.occupants number }
    {
        self.occupants.at(number)
    }

    /// Whether nothing stands under this number.
    pub fn is_vacant(&self, number: ChanNo) -> bool
        ensures none { result ≡ is_none (occupant_at self.now.occupants number) }
        ensures vacant { IsTrue result ↔ IsVacantNumber (places_after self.now.changes) number }
    {
        match self.occupants.at(number) {
            None => true,
            Some(_) => false,
        }
    }

    /// Whether it has room for this number.
    pub fn has(&self, number: ChanNo) -> bool
        ensures { result ≡ nat_lt number.0 (length self.now.occupants) }
    {
        self.occupants.has(number)
    }

    /// Makes room for the numbers below this one.
    #[tactic(auto, using(crate::proofs::Present::logged_grown))]
    pub fn grow(&mut self, room: usize) -> Result<(), AllocError>
        ensures ok { OnOk result (self.new ≡ record self.old { occupants = grown_occupants self.old.occupants room }) }
        ensures err { OnErr result (self.new ≡ self.old) }
    {
        self.occupants.grow(room)
    }
}

// How the channel of this serial stands.
fn standing_of(occupant: Option<Occupant>, serial: u32) -> Standing
    ensures { result ≡ held_by occupant serial }
{
    match occupant {
        Some(occupant) if occupant.serial == serial => occupant.standing,
        Some(_) | None => Standing::Nothing,
    }
}

// How a channel stands after a change.
fn standing_after(change: Change) -> Standing
    ensures { result ≡ standing_after change }
{
    match change {
        Change::Listen(_) => Standing::Listening,
        Change::Connect(_, Ok(false)) => Standing::Connecting,
        Change::Accept(_) | Change::Connect(_, Ok(true)) => Standing::Linked,
        Change::FinishConnect | Change::PutIn => Standing::Linked,
        Change::ShutWrite => Standing::Shut,
        Change::Connect(_, Err(_)) | Change::Close | Change::TakeOut => Standing::Nothing,
    }
}

// What stands under a number, once the channel of this serial stands so.
fn next_occupant(serial: u32, standing: Standing, before: Option<Occupant>) -> Option<Occupant>
    ensures { result ≡ occupant_after serial standing before }
{
    match standing {
        Standing::Nothing | Standing::Gone => before.filter(|occupant| occupant.serial != serial),
        Standing::Listening | Standing::Connecting | Standing::Linked | Standing::Shut => {
            Some(Occupant { serial, standing })
        }
    }
}

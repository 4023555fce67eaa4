//! The places at a table where callers are left. There are as many as the table may have callers, and all handles share
//! them.
ghost use Rattle.std.specs.Prelude.{◌≡◌, ◌<◌, IfOk, IfSome, MatchOption, []};
ghost use Rattle.nio_words.specs.Passes.{limits_of};
ghost use Rattle.nio_c.specs.Places.{ComesToFree, HasSamePlaces, IsNewVisitor, TakesFirst, found_none, found_taken};
ghost use Rattle.nio_c.specs.Places.{in_hand, rested, visits_too};
ghost use Rattle.nio_c.specs.Visits.{first_visits};
ghost use Rattle.nio_c.specs.declared.visits.Visit.TheVariants as visit;

use crate::kept::Sharer;
use crate::visits::{Coming, Entering, Freeing, Leaving, OneOrder, Taking, Visits};
use atomic_table::{Seat, Table};
use nio_words::Words;
use std::alloc::{AllocError, Global};
use std::marker::Model;
use std::mem;
use std::sync::Arc;

// The word of a place that is free, of one where a caller was left, and of one that a visitor has in hand.
const FREE: u64 = 0;

const LEFT: u64 = 1;

const IN_HAND: u64 = 2;

/// The places. Each has a word, and a slot for the caller that was left there.
type Places = Table<Option<Sharer>, Visits, Words, OneOrder, Global>;

/// What steps on the words, and knows the visits that it made.
type VisitorSeat = Seat<Option<Sharer>, Visits>;

/// One who visits the places.
#[derive(Drop)]
pub struct Visitor {
    places: Arc<Places, Global>,
    seat: VisitorSeat,
}

impl Model for Visitor {
    ghost use Rattle.std.specs.Arc.{arc_value};
    ghost use Rattle.std.specs.Prelude.{◌≡◌, ◌<◌, []};
    ghost use Rattle.nio_words.specs.Passes.{limits_of};
    ghost use Rattle.nio_c.specs.Places.{VisitorView};

    ghost Value = { VisitorView };

    ghost view = { λ v. record {
      places = v.seat.table_id;
      table = v.seat.me.0.table;
      visits = v.seat.me.0.made;
    } };

    ghost invariant = { λ v. (v.seat.table_id ≡ (arc_value v.places).shared.table_id)
        × ((arc_value v.places).shared.key ≡ v.seat.me.0.table)
        × (0 < (limits_of v.seat.me.0.table).callers)
        × ((arc_value v.places).shared.table_id.words ≡ (limits_of v.seat.me.0.table).callers)
        × ((arc_value v.places).shared.table_id.slots ≡ (limits_of v.seat.me.0.table).callers)
        × (v.seat.me.1 ≡ []) };
}

/// A place that a visitor has in hand.
#[derive(Drop)]
pub struct Hand {
    seat: VisitorSeat,
    place: usize,
}

impl Model for Hand {
    ghost use Rattle.std.specs.Prelude.{◌≡◌, ◌<◌, [], ◌∷◌, None};
    ghost use Rattle.nio_words.specs.Passes.{limits_of};
    ghost use Rattle.nio_c.specs.Places.{HandView};
    ghost use Rattle.nio_c.specs.Visits.{HasInHand};

    ghost Value = { HandView };

    ghost view = { λ h. record {
      place = h.place;
      visitor = record { places = h.seat.table_id; table = h.seat.me.0.table; visits = h.seat.me.0.made };
    } };

    ghost invariant = { λ h. (h.seat.me.1 ≡ (h.place, None) ∷ []) × HasInHand h.place h.seat.me.0.made
        × (h.place < (limits_of h.seat.me.0.table).callers) };
}

impl Visitor {
    // One who visits new places at the table, all of which are free.
    pub(crate) fn first(alloc: Global, table: &Words) -> Result<Visitor, AllocError>
        ensures { IfOk result (λ visitor. IsNewVisitor table.now visitor) }
    {
        let count = table.limits().callers as usize;
        let words = vec![in alloc; 0u64; count]?;
        let (places, seat) = Table::vacant(alloc, words.as_slice(), count, table)?;
        Ok(Visitor {
            places: Arc::new(alloc, places)?,
            seat,
        })
    }

    // Another one who visits these places. None: there are as many as can be counted.
    pub(crate) fn another(&self) -> Option<Visitor>
        ensures { IfSome result (λ visitor. visitor ≡ rested self.now) }
    {
        let places = Arc::try_clone(&self.places).ok()?;
        Some(Visitor {
            places,
            seat: enter(&self.places),
        })
    }

    // How many places there are.
    pub(crate) fn count(&self) -> usize
        ensures { result ≡ (limits_of self.now.table).callers }
    {
        self.places.word_count()
    }

    // Takes the place in hand, if it is free.
    pub(crate) fn come(&mut self, place: usize) -> Option<Hand>
        requires inside { place < (limits_of self.old.table).callers }
        ensures { MatchOption result (self.new ≡ visits_too (visit.FindsTaken place) self.old)
            (λ hand. (hand ≡ in_hand place (visits_too (visit.Comes place) self.old)) × (self.new ≡ rested self.old)) }
    {
        let shared = &self.places.shared;
        if shared.compare_exchange::<Coming>(&mut self.seat, place, FREE, IN_HAND) != FREE {
            return None;
        }
        let seat = mem::replace(&mut self.seat, enter(&self.places));
        Some(Hand { seat, place })
    }

    // Takes the caller that was left at the place, if one was, and the place in hand.
    pub(crate) fn take(&mut self, place: usize) -> Option<(Sharer, Hand)>
        requires inside { place < (limits_of self.old.table).callers }
        ensures { MatchOption result (self.new ≡ visits_too (visit.FindsNone place) self.old)
            (λ taken. (taken.0.table ≡ self.old.table)
            × (taken.1 ≡ in_hand place (visits_too (visit.Takes place taken.0) self.old))
            × (self.new ≡ rested self.old)) }
    {
        let shared = &self.places.shared;
        if shared.compare_exchange::<Taking>(&mut self.seat, place, LEFT, IN_HAND) != LEFT {
            return None;
        }
        let caller = shared.exchange(&mut self.seat, place, None)?;
        let seat = mem::replace(&mut self.seat, enter(&self.places));
        Some((caller, Hand { seat, place }))
    }

    // Leaves a caller at the place that was in hand.
    pub(crate) fn leave(&mut self, hand: Hand, caller: Sharer)
        requires places { HasSamePlaces self.old hand.visitor }
        requires table { caller.table ≡ self.old.table }
        ensures { self.new ≡ visits_too (visit.Leaves hand.place caller) hand.visitor }
    {
        let Hand { mut seat, place } = hand;
        let shared = &self.places.shared;
        let _nobody = shared.exchange(&mut seat, place, Some(caller));
        shared.store::<Leaving>(&mut seat, place, LEFT);
        self.seat = seat;
    }

    // Frees the place that was in hand.
    pub(crate) fn free(&mut self, hand: Hand)
        requires places { HasSamePlaces self.old hand.visitor }
        ensures { self.new ≡ visits_too (visit.Frees hand.place) hand.visitor }
    {
        let Hand { mut seat, place } = hand;
        self.places.shared.store::<Freeing>(&mut seat, place, FREE);
        self.seat = seat;
    }

    // Comes to the first place that is free.
    pub(crate) fn come_to_free(&mut self) -> Option<Hand>
        ensures { MatchOption result
            (self.new ≡ record self.old { visits = found_taken (limits_of self.old.table).callers self.old.visits })
            (λ hand. ComesToFree self.old self.new hand) }
    {
        for place in 0..self.count() {
            if let Some(hand) = self.come(place) {
                return Some(hand);
            }
        }
        None
    }

    // Takes the caller from the first place where one was left.
    pub(crate) fn take_first(&mut self) -> Option<(Sharer, Hand)>
        ensures { MatchOption result
            (self.new ≡ record self.old { visits = found_none (limits_of self.old.table).callers self.old.visits })
            (λ taken. TakesFirst self.old self.new taken.0 taken.1) }
    {
        for place in 0..self.count() {
            if let Some(taken) = self.take(place) {
                return Some(taken);
            }
        }
        None
    }
}

// A seat that has made no visit.
fn enter(places: &Places) -> VisitorSeat
    requires { 0 < places.now.shared.table_id.words }
    ensures table_id { result.table_id ≡ places.now.shared.table_id }
    ensures new { result.me ≡ (first_visits places.now.shared.key, []) }
{
    let (_word, seat) = places.shared.load_new_seat::<Entering>(0);
    seat
}

//! Handing links from one net in memory to another.
ghost use Rattle.std.specs.Prelude.{◌≡◌, ◌+◌, ◌++◌, ◌<◌, ◌≤◌, length, option_map, IsSome, IsTrue, OnOk, true, vec_capacity};
ghost use Rattle.std.specs.Prelude.{IfOk, IfErr, OnErr};
ghost use Rattle.std.specs.Option.{option_to_list};
ghost use Rattle.std.specs.VecDeque.{deque_len, deque_capacity};
ghost use Rattle.nio_link.specs.Links.{IsUnused};
ghost use Rattle.nio_link.specs.MemoryLinks.{IsFresh};
ghost use Rattle.nio_link.specs.MemoryNet.{shown, target_place, target_beside, other_targets, end_under, taken_out};
ghost use Rattle.nio_link.specs.MemoryNet.{after_take_out, after_put_in};
ghost use Rattle.nio_link.specs.Nets.{MayTakeOut, TakesOut, PutsIn};
ghost use Rattle.nio_link.specs.PlaceLogs.{grown_occupants};
ghost use Rattle.nio_link.specs.Places.{places_after, stands, IsFree};
ghost use Rattle.nio_link.specs.Slots.{carried_at, comes_after, slot_at, grown, ArePast};

use crate::memory::finding::Finding;
use crate::memory::link::MemoryLink;
use crate::memory::loose::LooseLink;
use crate::memory::memory_net::MemoryNet;
use crate::memory::peer_no::{PeerNo, is_same_peer};
use crate::memory::slot::{PastLink, Slot, grow, put_at, take_at};
use crate::passable::Passable;
use crate::place::Change;
use crate::place_log::PlaceLog;
use nio_base::ChanId;
use std::alloc::AllocError;
use std::collections::VecDeque;

// The place of this peer's target, past the last where it isn't among them.
fn place_of_target(targets: &VecDeque<MemoryLink>, peer: PeerNo) -> usize
    ensures { result ≡ target_place targets.now.items peer }
{
    for at in 0..targets.len() {
        if is_same_peer(targets[at].peer, peer) {
            return at;
        }
    }
    targets.len()
}

// Takes the target of this peer, where it is still to be connected.
fn take_target(targets: &mut VecDeque<MemoryLink>, peer: PeerNo) -> Option<MemoryLink>
    ensures target { result ≡ target_beside targets.old.items peer }
    ensures after { targets.new.items ≡ other_targets targets.old.items peer }
{
    let at = place_of_target(targets, peer);
    targets.remove(at)
}

// Makes a link an end of the peer of the link that is put in under this channel.
fn end_under(chan: ChanId, mut end: MemoryLink) -> MemoryLink
    ensures { result ≡ end_under chan end }
{
    end.peer = PeerNo::PutIn(chan);
    end
}

// The same with a target, if there is one.
fn target_under(chan: ChanId, target: Option<MemoryLink>) -> Option<MemoryLink>
    ensures { result ≡ option_map (end_under chan) target }
{
    Some(end_under(chan, target?))
}

// Puts a target, if there is one, before the others.
fn put_first(targets: &mut VecDeque<MemoryLink>, target: Option<MemoryLink>)
    requires { deque_len targets.old < deque_capacity targets.old }
    ensures { targets.new.items ≡ option_to_list target ++ targets.old.items }
{
    if let Some(target) = target {
        targets.push_front_reserved(target);
    }
}

// How many past links a net needs room for that has so many clients and targets, and takes a link in.
pub(crate) fn past_room(clients: usize, targets: usize) -> Result<usize, AllocError>
    ensures { IfOk result (λ room. room ≡ clients + (targets + 2)) }
{
    let both = clients.checked_add(targets).ok_or(AllocError)?;
    both.checked_add(2).ok_or(AllocError)
}

// Makes room for the numbers below this one, and for the two links that are put in with their peer.
fn make_room(
    slots: &mut Vec<Slot>,
    past: &mut VecDeque<PastLink>,
    targets: &mut VecDeque<MemoryLink>,
    log: &mut PlaceLog,
    clients: usize,
    places: usize,
) -> Result<(), AllocError>
    ensures slots { OnOk result (slots.new.items ≡ grown slots.old.items places) }
    ensures slots_err { OnErr result (slots.new.items ≡ slots.old.items) }
    ensures past { past.new.items ≡ past.old.items }
    ensures room { OnOk result (clients + (length targets.old.items + 2) + length past.new.items
        ≤ deque_capacity past.new) }
    ensures later { deque_capacity past.old ≤ deque_capacity past.new }
    ensures targets { targets.new.items ≡ targets.old.items }
    ensures spare { OnOk result (deque_len targets.new < deque_capacity targets.new) }
    ensures changes { log.new.changes ≡ log.old.changes }
    ensures occupants { OnOk result (log.new.occupants ≡ grown_occupants log.old.occupants places) }
    ensures occupants_err { OnErr result (log.new.occupants ≡ log.old.occupants) }
{
    let numbers = places.max(slots.len());
    past.reserve(past_room(clients, targets.len())?)?;
    targets.reserve(1)?;
    slots.reserve(numbers - slots.len())?;
    log.grow(places)?;
    grow(slots, places);
    Ok(())
}

impl MemoryNet {
    // Takes out the link of this channel, with its peer's target.
    fn take_loose(&mut self, chan: ChanId) -> Option<LooseLink>
        requires unused { IsUnused (carried_at self.old.slots self.old.past chan) }
        requires stands { IsTrue (stands (places_after self.old.changes chan)) }
        ensures link { result ≡ taken_out self.old chan }
        ensures there { IsSome result }
        ensures after { self.new ≡ after_take_out self.old chan }
        ensures spent { ArePast self.old.slots self.old.past }
    {
        let link = take_at(&mut self.slots, chan)?;
        let target = take_target(&mut self.targets, link.peer);
        self.log.push(chan, Change::TakeOut);
        self.findings.push(&Finding::Forgotten(chan.number));
        Some(LooseLink { link, target })
    }

    // Puts a link under a free channel, and its peer's target before the others.
    fn put_loose(&mut self, chan: ChanId, link: LooseLink) -> Result<(), LooseLink>
        requires { IsFree (places_after self.old.changes) chan }
        ensures ok { OnOk result (self.new ≡ after_put_in self.old chan link) }
        ensures err { OnErr result (self.new ≡ self.old) }
        ensures back { IfErr result (λ back. back ≡ link) }
        ensures fresh { IsFresh link.link }
        ensures spent { ArePast self.old.slots self.old.past }
        ensures later { comes_after (slot_at self.old.slots chan.number) chan.serial ≡ true }
    {
        let places = chan.number.0 as usize + 2;
        let made = make_room(
            &mut self.slots,
            &mut self.past,
            &mut self.targets,
            &mut self.log,
            self.clients.len(),
            places,
        );
        if made.is_err() {
            return Err(link);
        }
        let end = end_under(chan, link.link);
        put_at(&mut self.slots, &mut self.past, chan, end);
        put_first(&mut self.targets, target_under(chan, link.target));
        self.log.push(chan, Change::PutIn);
        self.findings.push(&Finding::Forgotten(chan.number));
        Ok(())
    }
}

impl Passable for MemoryNet {
    type Link = LooseLink;

    fn take_out(&mut self, chan: ChanId) -> Option<LooseLink>
        requires { MayTakeOut chan (shown self.old) }
        ensures call { TakesOut chan (shown self.old) (shown self.new) result }

        // The link goes with its own peer.
        ensures answer { result ≡ taken_out self.old chan }
        ensures after { self.new ≡ after_take_out self.old chan }
    {
        if !self.log.stands(chan) {
            return None;
        }
        self.take_loose(chan)
    }

    /// The peer of the link that is put in is the next to be connected.
    fn put_in(&mut self, chan: ChanId, link: LooseLink) -> Result<(), LooseLink>
        requires { IsFree (places_after self.old.changes) chan }
        ensures call { PutsIn chan link (shown self.old) (shown self.new) result }

        // The link comes with its own peer.
        ensures after { OnOk result (self.new ≡ after_put_in self.old chan link) }
        ensures same { OnErr result (self.new ≡ self.old) }
    {
        self.put_loose(chan, link)
    }
}

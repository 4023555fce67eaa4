//! The links of the numbers of a net in memory.
ghost use Rattle.std.specs.Prelude.{◌≡◌, ◌≢◌, ◌<◌, ◌≤◌, [], None, Some, length, slice_set, vec_capacity, IfOk, MatchOption};
ghost use Rattle.std.specs.VecDeque.{deque_len, deque_capacity};
ghost use Rattle.nio_link.specs.Links.{IsPut};
ghost use Rattle.nio_link.specs.MemoryLinks.{carried};
ghost use Rattle.nio_link.specs.Slots.{carried_at, carried_before, nothing_carried, slot_at, link_at, can_bear, comes_after};
ghost use Rattle.nio_link.specs.Slots.{read_answer, read_buffer, slots_after_read, write_answer, slots_after_write};
ghost use Rattle.nio_link.specs.Slots.{shut_answer, slots_after_shut, finish_answer, slots_after_take, past_after};
ghost use Rattle.nio_link.specs.Slots.{grown, ready_by, ready_link, if_linked};
ghost use Rattle.nio_link.specs.declared.memory.slot.Slot.TheVariants as slot;

use crate::memory::link::MemoryLink;
use crate::memory::peer_no::is_same_channel;
use crate::net::{Failed, Got, Put};
use crate::occupants::Occupant;
use crate::place::Standing;
use nio_base::{ChanId, ChanNo, Ops};
use std::collections::VecDeque;
use std::mem;

/// The last link of a number, with its serial. It stays there when it is closed.
#[derive(Drop)]
pub(crate) enum Slot {
    /// The number had no link.
    Free,
    /// It was taken out.
    TakenOut(u32),
    Link(u32, MemoryLink),
}

/// A link that wasn't the last of its number.
#[derive(Drop)]
pub(crate) struct PastLink {
    pub(crate) channel: ChanId,
    pub(crate) link: MemoryLink,
}

// The link of this channel, where it is the last of its number.
pub(crate) fn link_at(slots: &[Slot], chan: ChanId) -> Option<&MemoryLink>
    ensures { MatchOption result (link_at slots.now chan ≡ None) (λ link. link_at slots.now chan ≡ Some link.now) }
{
    let at = chan.number.0 as usize;
    if at >= slots.len() {
        return None;
    }
    match &slots[at] {
        Slot::Link(serial, link) if *serial == chan.serial => Some(link),
        Slot::Link(_, _) | Slot::TakenOut(_) | Slot::Free => None,
    }
}

// The first of the links of this channel.
fn past_link(past: &VecDeque<PastLink>, chan: ChanId) -> Option<&MemoryLink>
    ensures { MatchOption result (carried_before past.now.items chan ≡ nothing_carried)
        (λ link. carried_before past.now.items chan ≡ carried link.now) }
{
    for at in 0..past.len() {
        let last = &past[at];
        if is_same_channel(last.channel, chan) {
            return Some(&last.link);
        }
    }
    None
}

pub(crate) fn link_of<'a>(
    slots: &'a [Slot],
    past: &'a VecDeque<PastLink>,
    chan: ChanId,
) -> Option<&'a MemoryLink>
    ensures { MatchOption result (carried_at slots.now past.now.items chan ≡ nothing_carried)
        (λ link. carried_at slots.now past.now.items chan ≡ carried link.now) }
{
    match link_at(slots, chan) {
        Some(link) => Some(link),
        None => past_link(past, chan),
    }
}

pub(crate) fn read_at(
    slots: &mut [Slot],
    chan: ChanId,
    is_linked: bool,
    into: &mut [u8],
) -> Result<Got, Failed>
    requires { into.old ≢ [] }
    ensures answer { result ≡ read_answer (if_linked is_linked (link_at slots.old chan)) (length into.old) }
    ensures buffer { into.new ≡ read_buffer (if_linked is_linked (link_at slots.old chan)) into.old }
    ensures after { slots.new
        ≡ slots_after_read slots.old chan (if_linked is_linked (link_at slots.old chan)) into.old }
{
    let at = chan.number.0 as usize;
    if !is_linked || at >= slots.len() {
        return Err(Failed);
    }
    match &mut slots[at] {
        Slot::Link(serial, link) if *serial == chan.serial => Ok(link.read(into)),
        _ => Err(Failed),
    }
}

pub(crate) fn write_at(
    slots: &mut [Slot],
    chan: ChanId,
    is_linked: bool,
    from: &[u8],
) -> Result<Put, Failed>
    requires { from.now ≢ [] }
    ensures answer { result ≡ write_answer (if_linked is_linked (link_at slots.old chan)) (length from.now) }
    ensures after { slots.new
        ≡ slots_after_write slots.old chan (if_linked is_linked (link_at slots.old chan)) from.now }
    ensures put { IfOk result (IsPut from.now) }
{
    let at = chan.number.0 as usize;
    if !is_linked || at >= slots.len() {
        return Err(Failed);
    }
    match &mut slots[at] {
        Slot::Link(serial, link) if *serial == chan.serial => link.write(from),
        _ => Err(Failed),
    }
}

pub(crate) fn shut_at(slots: &mut [Slot], chan: ChanId, is_linked: bool) -> Result<(), Failed>
    ensures answer { result ≡ shut_answer (if_linked is_linked (link_at slots.old chan)) }
    ensures after { slots.new ≡ slots_after_shut slots.old chan (if_linked is_linked (link_at slots.old chan)) }
{
    let at = chan.number.0 as usize;
    if !is_linked || at >= slots.len() {
        return Err(Failed);
    }
    match &mut slots[at] {
        Slot::Link(serial, link) if *serial == chan.serial => {
            link.shut_write();
            Ok(())
        }
        _ => Err(Failed),
    }
}

// What finishing the connection of this channel's link answers.
pub(crate) fn finish_at(slots: &[Slot], chan: ChanId) -> Result<bool, Failed>
    ensures { result ≡ finish_answer (link_at slots.now chan) }
{
    match link_at(slots, chan) {
        Some(link) if !link.fail_connect => Ok(true),
        Some(_) | None => Err(Failed),
    }
}

// Takes the link of this channel, if it is the last of its number.
pub(crate) fn take_at(slots: &mut [Slot], chan: ChanId) -> Option<MemoryLink>
    ensures link { result ≡ link_at slots.old chan }
    ensures after { slots.new ≡ slots_after_take slots.old chan (link_at slots.old chan) }
{
    link_at(slots, chan)?;
    match mem::replace(
        &mut slots[chan.number.0 as usize],
        Slot::TakenOut(chan.serial),
    ) {
        Slot::Link(_, link) => Some(link),
        Slot::TakenOut(_) | Slot::Free => None,
    }
}

// Adds free places for the numbers below this one.
pub(crate) fn grow(slots: &mut Vec<Slot>, places: usize)
    requires { places ≤ vec_capacity slots.old }
    ensures { slots.new.items ≡ grown slots.old.items places }
{
    let more = places.saturating_sub(slots.len());
    for _ in 0..more {
        slots.push_reserved(Slot::Free);
    }
}

// Whether the net has the number, and a link of this channel comes after its last one.
pub(crate) fn can_bear(slots: &[Slot], chan: ChanId) -> bool
    ensures { result ≡ can_bear slots.now chan }
{
    (chan.number.0 as usize) < slots.len() && comes_after(slots, chan)
}

// Whether a link of this channel comes after the last one of its number.
pub(crate) fn comes_after(slots: &[Slot], chan: ChanId) -> bool
    ensures { result ≡ comes_after (slot_at slots.now chan.number) chan.serial }
{
    let at = chan.number.0 as usize;
    if at >= slots.len() {
        return true;
    }
    match &slots[at] {
        Slot::Free => true,
        Slot::TakenOut(serial) | Slot::Link(serial, _) => *serial < chan.serial,
    }
}

// Puts a link under a channel of the net. The last link of its number so far is a past one then.
pub(crate) fn put_at(
    slots: &mut [Slot],
    past: &mut VecDeque<PastLink>,
    chan: ChanId,
    link: MemoryLink,
)
    requires inside { chan.number.0 < length slots.old }
    requires room { deque_len past.old < deque_capacity past.old }
    ensures slots { slots.new ≡ slice_set slots.old chan.number.0 (slot.Link chan.serial link) }
    ensures past { past.new.items ≡ past_after chan.number (slot_at slots.old chan.number) past.old.items }
    ensures capacity { deque_capacity past.new ≡ deque_capacity past.old }
{
    let place = &mut slots[chan.number.0 as usize];
    match mem::replace(place, Slot::Link(chan.serial, link)) {
        Slot::Link(serial, link) => past.push_front_reserved(PastLink {
            channel: ChanId {
                number: chan.number,
                serial,
            },
            link,
        }),
        Slot::TakenOut(_) | Slot::Free => {}
    }
}

// Which operations what stands under a number is ready for, where clients are waiting to be accepted or not.
pub(crate) fn ready_of(
    slots: &[Slot],
    number: ChanNo,
    occupant: Option<Occupant>,
    waiting: bool,
) -> Ops
    ensures { result ≡ ready_by waiting occupant (slot_at slots.now number) }
{
    let Some(Occupant { serial, standing }) = occupant else {
        return Ops::NONE;
    };
    match standing {
        Standing::Nothing | Standing::Gone => Ops::NONE,
        Standing::Listening => { if waiting { Ops::ACCEPT } else { Ops::NONE } }
        Standing::Connecting => Ops::CONNECT,
        Standing::Linked | Standing::Shut => ready_at(slots, ChanId { number, serial }),
    }
}

// Which operations the connected link of a channel is ready for.
fn ready_at(slots: &[Slot], chan: ChanId) -> Ops
    ensures { result ≡ ready_link (link_at slots.now chan) }
{
    match link_at(slots, chan) {
        Some(link) => link.ready(),
        None => Ops::NONE,
    }
}

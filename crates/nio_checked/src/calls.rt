//! The calls of a checked net, on the net and what is kept of it.
ghost use Rattle.std.specs.Prelude.{◌≡◌, ◌≢◌, ◌↔◌, ◌<◌, ◌&&◌, nat_lt, [], Some, Ok, Err, IfOk, IsTrue, false, length, slice_set};
ghost use Rattle.nio_link.specs.Links.{IsGot, IsPut};
ghost use Rattle.nio_link.specs.Nets.{view_of, Listens, Accepts, Connects, Finishes, Reads, Writes, Shuts, Closes};
ghost use Rattle.nio_link.specs.PlaceLogs.{held_by, occupant_at};
ghost use Rattle.nio_link.specs.Places.{is_there, IsFree, IsLinked};
ghost use Rattle.nio_link.specs.Readiness.{ready_after_accept, ready_after_close, ready_after_connect, ready_after_making};
ghost use Rattle.nio_link.specs.Readiness.{ready_after_read, ready_after_write};
ghost use Rattle.nio_link.specs.declared.net.Got.TheVariants as got;
ghost use Rattle.nio_link.specs.declared.net.Put.TheVariants as put;
ghost use Rattle.nio_link.specs.declared.place.Standing.TheVariants as standing;
ghost use Rattle.nio_checked.specs.Checked.{IsChecked, as_failed, can_serve, standing_channel};
ghost use Rattle.nio_checked.specs.Listed.{IsTold, told_after};
ghost use Rattle.nio_checked.specs.declared.calls.NetError.TheVariants.{NotAllowed};

use crate::told::{is_told, tell_nothing, untell};
use nio_base::{Addr, ChanId, ChanNo, Ops};
use nio_link::{Failed, Got, Net, Occupant, Occupants, Put, Standing};
use thiserror::Error;

/// Why a call on a checked net has no answer.
#[derive(Clone, Copy, Debug, PartialEq, Eq, Error)]
pub enum NetError {
    /// What stands under the channel, or under its number, doesn't allow the call. It didn't reach the net.
    #[error("the channel doesn't allow this call")]
    NotAllowed,
    /// The net's call failed: Java's `IOException`.
    #[error("the call on the net failed")]
    Fault,
}

// What stands under the channel, by what is kept: nothing where it isn't the last of its number.
pub(crate) fn standing_of(kept: &Occupants, chan: ChanId) -> Standing
    ensures { result ≡ held_by (occupant_at kept.now chan.number) chan.serial }
{
    match kept.at(chan.number) {
        Some(last) if last.serial == chan.serial => last.standing,
        Some(_) | None => Standing::Nothing,
    }
}

// The channel of this number that stands, by what is kept.
pub(crate) fn standing_at(kept: &Occupants, number: ChanNo) -> Option<ChanId>
    ensures { result ≡ standing_channel number (occupant_at kept.now number) }
{
    match kept.at(number) {
        Some(last) if is_there(last.standing) => Some(ChanId {
            number,
            serial: last.serial,
        }),
        Some(_) | None => None,
    }
}

// Whether the channel can be asked to be something, by what is kept.
fn is_free(kept: &Occupants, chan: ChanId) -> bool
    ensures { result ≡ (nat_lt chan.number.0 (length kept.now) && can_serve (occupant_at kept.now chan.number) chan.serial) }
{
    kept.has(chan.number) && can_serve(kept.at(chan.number), chan.serial)
}

fn can_serve(last: Option<Occupant>, serial: u32) -> bool
    ensures { result ≡ can_serve last serial }
{
    match last {
        Some(last) => last.serial < serial && !is_there(last.standing),
        None => true,
    }
}

fn is_there(standing: Standing) -> bool
    ensures { result ≡ is_there standing }
{
    match standing {
        Standing::Nothing | Standing::Gone => false,
        Standing::Listening | Standing::Connecting | Standing::Linked | Standing::Shut => true,
    }
}

fn is_listening(stands: Standing) -> bool
    ensures { IsTrue result ↔ (stands ≡ standing.Listening) }
{
    matches!(stands, Standing::Listening)
}

fn is_connecting(stands: Standing) -> bool
    ensures { IsTrue result ↔ (stands ≡ standing.Connecting) }
{
    matches!(stands, Standing::Connecting)
}

// Keeps how the channel stands, which is the last of its number.
fn keep(kept: &mut Occupants, chan: ChanId, standing: Standing)
    ensures { kept.new ≡ slice_set kept.old chan.number.0
        (Some (record { serial = chan.serial; standing = standing })) }
{
    let serial = chan.serial;
    kept.set(chan.number, Some(Occupant { serial, standing }));
}

pub(crate) fn listen<N: Net>(
    net: &mut N,
    kept: &mut Occupants,
    told: &mut [(ChanNo, Ops)],
    chan: ChanId,
    at: Addr,
) -> Result<(), NetError>
    requires { IsChecked (N.ready net.old) (N.place net.old) kept.old told.old }
    ensures checked { IsChecked (N.ready net.new) (N.place net.new) kept.new told.new }
    ensures numbers { length kept.new ≡ length kept.old }
    ensures allowed { result ≢ Err NotAllowed
        ↔ ((chan.number.0 < length kept.old) × IsFree (N.place net.old) chan) }
    ensures refused { result ≡ Err NotAllowed → (net.new ≡ net.old) × (told.new ≡ told.old) }
    ensures call { result ≢ Err NotAllowed
        → Listens chan at (view_of N.Net net.old) (view_of N.Net net.new) (as_failed result) }
    ensures told { result ≢ Err NotAllowed → told.new
        ≡ told_after chan.number (ready_after_making (is_there (N.place net.new chan).standing)) told.old }
{
    if !is_free(kept, chan) {
        return Err(NetError::NotAllowed);
    }
    match net.listen(chan, at) {
        Ok(()) => {
            keep(kept, chan, Standing::Listening);
            tell_nothing(told, chan.number);
            Ok(())
        }
        Err(Failed) => Err(NetError::Fault),
    }
}

/// Whether a connection was taken. Where the last poll didn't tell the listener ready, none is.
pub(crate) fn accept<N: Net>(
    net: &mut N,
    kept: &mut Occupants,
    told: &mut [(ChanNo, Ops)],
    listener: ChanId,
    chan: ChanId,
) -> Result<bool, NetError>
    requires { IsChecked (N.ready net.old) (N.place net.old) kept.old told.old }
    ensures checked { IsChecked (N.ready net.new) (N.place net.new) kept.new told.new }
    ensures numbers { length kept.new ≡ length kept.old }
    ensures allowed { result ≢ Err NotAllowed ↔ (((N.place net.old listener).standing ≡ standing.Listening)
        × ((chan.number.0 < length kept.old) × IsFree (N.place net.old) chan)) }
    ensures refused { result ≡ Err NotAllowed → (net.new ≡ net.old) × (told.new ≡ told.old) }
    ensures untold { result ≢ Err NotAllowed → ¬ IsTold told.old listener.number 16
        → (result ≡ Ok false) × (net.new ≡ net.old) × (told.new ≡ told.old) }
    ensures call { result ≢ Err NotAllowed → IsTold told.old listener.number 16
        → Accepts listener chan (view_of N.Net net.old) (view_of N.Net net.new) (as_failed result) }
    ensures told { result ≢ Err NotAllowed → IsTold told.old listener.number 16 → told.new
        ≡ told_after chan.number (ready_after_making (is_there (N.place net.new chan).standing))
        (told_after listener.number (ready_after_accept (as_failed result)) told.old) }
{
    if !is_listening(standing_of(kept, listener)) || !is_free(kept, chan) {
        return Err(NetError::NotAllowed);
    }
    if !is_told(told, listener.number, Ops::ACCEPT) {
        return Ok(false);
    }
    match net.accept(listener, chan) {
        Ok(true) => {
            keep(kept, chan, Standing::Linked);
            tell_nothing(told, chan.number);
            Ok(true)
        }
        Ok(false) => {
            untell(told, listener.number, Ops::ACCEPT);
            Ok(false)
        }
        Err(Failed) => Err(NetError::Fault),
    }
}

pub(crate) fn connect<N: Net>(
    net: &mut N,
    kept: &mut Occupants,
    told: &mut [(ChanNo, Ops)],
    chan: ChanId,
    to: Addr,
) -> Result<bool, NetError>
    requires { IsChecked (N.ready net.old) (N.place net.old) kept.old told.old }
    ensures checked { IsChecked (N.ready net.new) (N.place net.new) kept.new told.new }
    ensures numbers { length kept.new ≡ length kept.old }
    ensures allowed { result ≢ Err NotAllowed
        ↔ ((chan.number.0 < length kept.old) × IsFree (N.place net.old) chan) }
    ensures refused { result ≡ Err NotAllowed → (net.new ≡ net.old) × (told.new ≡ told.old) }
    ensures call { result ≢ Err NotAllowed
        → Connects chan to (view_of N.Net net.old) (view_of N.Net net.new) (as_failed result) }
    ensures told { result ≢ Err NotAllowed → told.new
        ≡ told_after chan.number (ready_after_making (is_there (N.place net.new chan).standing)) told.old }
{
    if !is_free(kept, chan) {
        return Err(NetError::NotAllowed);
    }
    match net.connect(chan, to) {
        Ok(true) => {
            keep(kept, chan, Standing::Linked);
            tell_nothing(told, chan.number);
            Ok(true)
        }
        Ok(false) => {
            keep(kept, chan, Standing::Connecting);
            tell_nothing(told, chan.number);
            Ok(false)
        }
        Err(Failed) => {
            keep(kept, chan, Standing::Gone);
            Err(NetError::Fault)
        }
    }
}

pub(crate) fn finish_connect<N: Net>(
    net: &mut N,
    kept: &mut Occupants,
    told: &mut [(ChanNo, Ops)],
    chan: ChanId,
) -> Result<bool, NetError>
    requires { IsChecked (N.ready net.old) (N.place net.old) kept.old told.old }
    ensures checked { IsChecked (N.ready net.new) (N.place net.new) kept.new told.new }
    ensures numbers { length kept.new ≡ length kept.old }
    ensures allowed { result ≢ Err NotAllowed ↔ ((N.place net.old chan).standing ≡ standing.Connecting) }
    ensures refused { result ≡ Err NotAllowed → (net.new ≡ net.old) × (told.new ≡ told.old) }
    ensures untold { result ≢ Err NotAllowed → ¬ IsTold told.old chan.number 8
        → (result ≡ Ok false) × (net.new ≡ net.old) × (told.new ≡ told.old) }
    ensures call { result ≢ Err NotAllowed → IsTold told.old chan.number 8
        → Finishes chan (view_of N.Net net.old) (view_of N.Net net.new) (as_failed result) }
    ensures told { result ≢ Err NotAllowed → IsTold told.old chan.number 8
        → told.new ≡ told_after chan.number (ready_after_connect (as_failed result)) told.old }
{
    if !is_connecting(standing_of(kept, chan)) {
        return Err(NetError::NotAllowed);
    }
    if !is_told(told, chan.number, Ops::CONNECT) {
        return Ok(false);
    }
    match net.finish_connect(chan) {
        Ok(true) => {
            keep(kept, chan, Standing::Linked);
            Ok(true)
        }
        Ok(false) => {
            untell(told, chan.number, Ops::CONNECT);
            Ok(false)
        }
        Err(Failed) => {
            keep(kept, chan, Standing::Gone);
            tell_nothing(told, chan.number);
            Err(NetError::Fault)
        }
    }
}

pub(crate) fn read<N: Net>(
    net: &mut N,
    kept: &Occupants,
    told: &mut [(ChanNo, Ops)],
    chan: ChanId,
    into: &mut [u8],
) -> Result<Got, NetError>
    requires some { into.old ≢ [] }
    requires checked { IsChecked (N.ready net.old) (N.place net.old) kept.now told.old }
    ensures checked { IsChecked (N.ready net.new) (N.place net.new) kept.now told.new }
    ensures allowed { result ≢ Err NotAllowed ↔ IsLinked (N.place net.old chan).standing }
    ensures refused { result ≡ Err NotAllowed
        → (net.new ≡ net.old) × (told.new ≡ told.old) × (into.new ≡ into.old) }
    ensures untold { result ≢ Err NotAllowed → ¬ IsTold told.old chan.number 1
        → (result ≡ Ok got.NotYet) × (net.new ≡ net.old) × (told.new ≡ told.old) × (into.new ≡ into.old) }
    ensures got { IfOk result (IsGot into.old) }
    ensures call { result ≢ Err NotAllowed → IsTold told.old chan.number 1 → Reads chan (view_of N.Net net.old)
        (view_of N.Net net.new) into.old into.new (as_failed result) }
    ensures told { result ≢ Err NotAllowed → IsTold told.old chan.number 1
        → told.new ≡ told_after chan.number (ready_after_read (as_failed result)) told.old }
{
    if !is_linked(standing_of(kept, chan)) {
        return Err(NetError::NotAllowed);
    }
    if !is_told(told, chan.number, Ops::READ) {
        return Ok(Got::NotYet);
    }
    match net.read(chan, into) {
        Ok(Got::NotYet) => {
            untell(told, chan.number, Ops::READ);
            Ok(Got::NotYet)
        }
        Ok(Got::Bytes(count)) => Ok(Got::Bytes(count)),
        Ok(Got::End) => Ok(Got::End),
        Err(Failed) => Err(NetError::Fault),
    }
}

pub(crate) fn write<N: Net>(
    net: &mut N,
    kept: &Occupants,
    told: &mut [(ChanNo, Ops)],
    chan: ChanId,
    from: &[u8],
) -> Result<Put, NetError>
    requires some { from.now ≢ [] }
    requires checked { IsChecked (N.ready net.old) (N.place net.old) kept.now told.old }
    ensures checked { IsChecked (N.ready net.new) (N.place net.new) kept.now told.new }
    ensures allowed { result ≢ Err NotAllowed ↔ ((N.place net.old chan).standing ≡ standing.Linked) }
    ensures refused { result ≡ Err NotAllowed → (net.new ≡ net.old) × (told.new ≡ told.old) }
    ensures untold { result ≢ Err NotAllowed → ¬ IsTold told.old chan.number 4
        → (result ≡ Ok put.NotYet) × (net.new ≡ net.old) × (told.new ≡ told.old) }
    ensures put { IfOk result (IsPut from.now) }
    ensures call { result ≢ Err NotAllowed → IsTold told.old chan.number 4 → Writes chan (view_of N.Net net.old)
        (view_of N.Net net.new) from.now (as_failed result) }
    ensures told { result ≢ Err NotAllowed → IsTold told.old chan.number 4
        → told.new ≡ told_after chan.number (ready_after_write (as_failed result)) told.old }
{
    if !is_whole(standing_of(kept, chan)) {
        return Err(NetError::NotAllowed);
    }
    if !is_told(told, chan.number, Ops::WRITE) {
        return Ok(Put::NotYet);
    }
    match net.write(chan, from) {
        Ok(Put::NotYet) => {
            untell(told, chan.number, Ops::WRITE);
            Ok(Put::NotYet)
        }
        Ok(Put::Bytes(count)) => Ok(Put::Bytes(count)),
        Err(Failed) => Err(NetError::Fault),
    }
}

// Whether a link that can be written stands there.
pub(crate) fn is_whole(stands: Standing) -> bool
    ensures { IsTrue result ↔ (stands ≡ standing.Linked) }
{
    matches!(stands, Standing::Linked)
}

// Whether a link that can be read stands there.
pub(crate) fn is_linked(stands: Standing) -> bool
    ensures { IsTrue result ↔ IsLinked stands }
{
    match stands {
        Standing::Linked | Standing::Shut => true,
        Standing::Nothing | Standing::Listening | Standing::Connecting | Standing::Gone => false,
    }
}

pub(crate) fn shut_write<N: Net>(
    net: &mut N,
    kept: &mut Occupants,
    told: &[(ChanNo, Ops)],
    chan: ChanId,
) -> Result<(), NetError>
    requires { IsChecked (N.ready net.old) (N.place net.old) kept.old told.now }
    ensures checked { IsChecked (N.ready net.new) (N.place net.new) kept.new told.now }
    ensures numbers { length kept.new ≡ length kept.old }
    ensures allowed { result ≢ Err NotAllowed ↔ ((N.place net.old chan).standing ≡ standing.Linked) }
    ensures refused { result ≡ Err NotAllowed → net.new ≡ net.old }
    ensures call { result ≢ Err NotAllowed
        → Shuts chan (view_of N.Net net.old) (view_of N.Net net.new) (as_failed result) }
{
    if !is_whole(standing_of(kept, chan)) {
        return Err(NetError::NotAllowed);
    }
    match net.shut_write(chan) {
        Ok(()) => {
            keep(kept, chan, Standing::Shut);
            Ok(())
        }
        Err(Failed) => Err(NetError::Fault),
    }
}

/// Closes what stands under the channel.
pub(crate) fn close<N: Net>(
    net: &mut N,
    kept: &mut Occupants,
    told: &mut [(ChanNo, Ops)],
    chan: ChanId,
)
    requires { IsChecked (N.ready net.old) (N.place net.old) kept.old told.old }
    ensures checked { IsChecked (N.ready net.new) (N.place net.new) kept.new told.new }
    ensures numbers { length kept.new ≡ length kept.old }
    ensures call { Closes chan (view_of N.Net net.old) (view_of N.Net net.new) }
    ensures told { told.new
        ≡ told_after chan.number (ready_after_close (N.place net.old chan).standing) told.old }
{
    net.close(chan);
    if is_there(standing_of(kept, chan)) {
        keep(kept, chan, Standing::Gone);
        tell_nothing(told, chan.number);
    }
}

//! The work on one direction of a connection: reading, writing, passing on an end.
ghost use Rattle.std.specs.Prelude.{◌≡◌, ◌≢◌, [], IfOk, IsTrue, OnErr, OnOk, length};
ghost use Rattle.nio_bytes.specs.Cause.{Rose};
ghost use Rattle.nio_link.specs.Links.{IsGot, IsPut, after_read, after_write};
ghost use Rattle.nio_link.specs.Places.{IsLinked};
ghost use Rattle.nio_link.specs.declared.place.Standing.TheVariants as standing;
ghost use Rattle.nio_relay.specs.Flow.{Flow, MayTake, buffered, takes};
ghost use Rattle.nio_base.specs.Ops.{is_within};
ghost use Rattle.nio_serve.specs.Nets.{AreApart, Works};
ghost use Rattle.nio_serve.specs.Passing.{AreToldReady, BothSame, OneRose, Passes, ReadyAfterGot, ReadyAfterPut};
ghost use Rattle.nio_serve.specs.Passing.{flow_after_read};
ghost use Rattle.nio_serve.specs.Relaying.{IsEnd, KeepsSource, KeepsSink, SameSink, SameSource, carried, open_or_shut};

use crate::way::Way;
use nio_base::{ChanId, Ops};
use nio_link::{Failed, Got, Put};
use nio_relay::{CAPACITY, Direction};

// How many reads, and how many writes, are made on a link before the next connection is served.
const CALLS: u32 = 64;

// How many buffers at most are passed from one link to the other before the next connection is served.
const PASSES: u32 = 16;

/// The links of a connection: its client's and its target's.
#[derive(Clone, Copy, Debug, PartialEq, Eq)]
pub(crate) struct Links {
    pub client: ChanId,
    pub target: ChanId,
}

/// What the two links of a connection were told ready for.
#[derive(Clone, Copy, Debug, PartialEq, Eq)]
pub(crate) struct ToldOps {
    pub client: Ops,
    pub target: Ops,
}

impl ToldOps {
    pub(crate) const NOTHING: ToldOps = ToldOps {
        client: Ops::NONE,
        target: Ops::NONE,
    };
}

/// The links of a connection, with what they were told ready for.
#[derive(Clone, Copy, Debug, PartialEq, Eq)]
pub(crate) struct Told {
    pub links: Links,
    pub ops: ToldOps,
}

/// From which link to which a direction carries bytes, and whether the first was told that it can be read, and the second
/// that it can be written.
#[derive(Clone, Copy, Debug, PartialEq, Eq)]
struct Course {
    source: ChanId,
    sink: ChanId,
    can_read: bool,
    can_write: bool,
}

/// Whether more may be passed on at once, in each of the two directions of a connection.
#[derive(Clone, Copy, Debug, PartialEq, Eq)]
pub(crate) struct Flows {
    pub there: bool,
    pub back: bool,
}

impl Flows {
    pub(crate) const NEITHER: Flows = Flows {
        there: false,
        back: false,
    };
}

// Reads what has come on a link. Nothing has come yet where the way holds that back.
fn read<N, W: Way<N>>(way: &mut W, net: &mut N, own: ChanId, into: &mut [u8]) -> Result<Got, Failed>
    requires some { into.old ≢ [] }
    requires ready { IsTrue (is_within 1 (W.ready net.old own.number)) }
    requires linked { IsLinked (W.place net.old own).standing }
    ensures got { IfOk result (IsGot into.old) }
    ensures link { W.link net.new own ≡ after_read result into.new (W.link net.old own) }
    ensures work { Works W.Way own own net.old net.new }
    ensures stands { W.place net.new own ≡ W.place net.old own }
    ensures cause { OnErr result (Rose (W.faults net.old own) (W.faults net.new own)) }
    ensures calm { OnOk result (W.faults net.new own ≡ W.faults net.old own) }
    ensures ready { IfOk result (λ got. ReadyAfterGot got (W.ready net.old own.number) (W.ready net.new own.number)) }
    ensures write { IsTrue (is_within 4 (W.ready net.old own.number))
        → IsTrue (is_within 4 (W.ready net.new own.number)) }
{
    match way.read(net, own, into) {
        Some(answer) => answer,
        None => Ok(Got::NotYet),
    }
}

// Writes bytes on a link. It takes none yet where the way holds that back.
fn write<N, W: Way<N>>(way: &mut W, net: &mut N, own: ChanId, from: &[u8]) -> Result<Put, Failed>
    requires some { from.now ≢ [] }
    requires ready { IsTrue (is_within 4 (W.ready net.old own.number)) }
    requires linked { (W.place net.old own).standing ≡ standing.Linked }
    ensures put { IfOk result (IsPut from.now) }
    ensures link { W.link net.new own ≡ after_write result from.now (W.link net.old own) }
    ensures work { Works W.Way own own net.old net.new }
    ensures stands { W.place net.new own ≡ W.place net.old own }
    ensures cause { OnErr result (Rose (W.faults net.old own) (W.faults net.new own)) }
    ensures calm { OnOk result (W.faults net.new own ≡ W.faults net.old own) }
    ensures ready { IfOk result (λ put. ReadyAfterPut put (W.ready net.old own.number) (W.ready net.new own.number)) }
    ensures read { IsTrue (is_within 1 (W.ready net.old own.number))
        → IsTrue (is_within 1 (W.ready net.new own.number)) }
{
    match way.write(net, own, from) {
        Some(answer) => answer,
        None => Ok(Put::NotYet),
    }
}

// Reads once what has come on a link into the direction that takes from it. Says whether more may be read at once.
fn read_once<N, W: Way<N>>(
    way: &mut W,
    net: &mut N,
    own: ChanId,
    outgoing: &mut Direction,
    scratch: &mut [u8],
) -> Result<bool, Failed>
    requires scratch { length scratch.old ≡ CAPACITY }
    requires ready { IsTrue (is_within 1 (W.ready net.old own.number)) }
    requires linked { IsLinked (W.place net.old own).standing }
    ensures source { KeepsSource outgoing.old outgoing.new (W.link net.old own) (W.place net.old own)
        (W.link net.new own) (W.place net.new own) }
    ensures sink { SameSink outgoing.old outgoing.new }
    ensures work { Works W.Way own own net.old net.new }
    ensures stands { W.place net.new own ≡ W.place net.old own }
    ensures cause { OnErr result (Rose (W.faults net.old own) (W.faults net.new own)) }
    ensures calm { OnOk result (W.faults net.new own ≡ W.faults net.old own) }
    ensures more { IfOk result (λ more. IsTrue more → W.ready net.new own.number ≡ W.ready net.old own.number) }
    ensures write { IsTrue (is_within 4 (W.ready net.old own.number)) → IsTrue (is_within 4 (W.ready net.new own.number)) }
{
    let room = outgoing.room();
    if room == 0 || outgoing.is_ended() {
        return Ok(false);
    }
    match read(way, net, own, &mut scratch[..room])? {
        Got::Bytes(count) => {
            outgoing.on_read(&scratch[..count]);
            Ok(true)
        }
        Got::End => {
            outgoing.on_end();
            Ok(false)
        }
        Got::NotYet => Ok(false),
    }
}

// Reads what has come on a link.
fn read_all<N, W: Way<N>>(
    way: &mut W,
    net: &mut N,
    own: ChanId,
    outgoing: &mut Direction,
    scratch: &mut [u8],
) -> Result<(), Failed>
    requires scratch { length scratch.old ≡ CAPACITY }
    requires ready { IsTrue (is_within 1 (W.ready net.old own.number)) }
    requires linked { IsLinked (W.place net.old own).standing }
    ensures source { KeepsSource outgoing.old outgoing.new (W.link net.old own) (W.place net.old own)
        (W.link net.new own) (W.place net.new own) }
    ensures sink { SameSink outgoing.old outgoing.new }
    ensures work { Works W.Way own own net.old net.new }
    ensures stands { W.place net.new own ≡ W.place net.old own }
    ensures cause { OnErr result (Rose (W.faults net.old own) (W.faults net.new own)) }
    ensures calm { OnOk result (W.faults net.new own ≡ W.faults net.old own) }
    ensures write { IsTrue (is_within 4 (W.ready net.old own.number)) → IsTrue (is_within 4 (W.ready net.new own.number)) }
{
    for _ in 0..CALLS {
        if !read_once(way, net, own, outgoing, scratch)? {
            return Ok(());
        }
    }
    Ok(())
}

// Writes once what a direction buffers to the link on which it is put. Says whether more may be written at once.
fn write_once<N, W: Way<N>>(
    way: &mut W,
    net: &mut N,
    own: ChanId,
    incoming: &mut Direction,
) -> Result<bool, Failed>
    requires ready { IsTrue (is_within 4 (W.ready net.old own.number)) }
    requires stands { (W.place net.old own).standing ≡ open_or_shut incoming.old.shut }
    ensures sink { KeepsSink incoming.old incoming.new (W.link net.old own) (W.place net.old own) (W.link net.new own)
        (W.place net.new own) }
    ensures source { SameSource incoming.old incoming.new }
    ensures work { Works W.Way own own net.old net.new }
    ensures stands { W.place net.new own ≡ W.place net.old own }
    ensures shut { incoming.new.shut ≡ incoming.old.shut }
    ensures cause { OnErr result (Rose (W.faults net.old own) (W.faults net.new own)) }
    ensures calm { OnOk result (W.faults net.new own ≡ W.faults net.old own) }
    ensures more { IfOk result (λ more. IsTrue more → W.ready net.new own.number ≡ W.ready net.old own.number) }
    ensures read { IsTrue (is_within 1 (W.ready net.old own.number)) → IsTrue (is_within 1 (W.ready net.new own.number)) }
{
    let front = incoming.front();
    if front.is_empty() || incoming.is_shut() {
        return Ok(false);
    }
    match write(way, net, own, front)? {
        Put::Bytes(count) => {
            incoming.on_written(count);
            Ok(true)
        }
        Put::NotYet => Ok(false),
    }
}

// Writes what a direction buffers. Says whether that is all written, and more could be written at once.
fn write_all<N, W: Way<N>>(
    way: &mut W,
    net: &mut N,
    own: ChanId,
    incoming: &mut Direction,
) -> Result<bool, Failed>
    requires ready { IsTrue (is_within 4 (W.ready net.old own.number)) }
    requires stands { (W.place net.old own).standing ≡ open_or_shut incoming.old.shut }
    ensures sink { KeepsSink incoming.old incoming.new (W.link net.old own) (W.place net.old own) (W.link net.new own)
        (W.place net.new own) }
    ensures source { SameSource incoming.old incoming.new }
    ensures work { Works W.Way own own net.old net.new }
    ensures stands { W.place net.new own ≡ W.place net.old own }
    ensures shut { incoming.new.shut ≡ incoming.old.shut }
    ensures cause { OnErr result (Rose (W.faults net.old own) (W.faults net.new own)) }
    ensures calm { OnOk result (W.faults net.new own ≡ W.faults net.old own) }
    ensures read { IsTrue (is_within 1 (W.ready net.old own.number)) → IsTrue (is_within 1 (W.ready net.new own.number)) }
    ensures writable { IfOk result (λ more. IsTrue more → IsTrue (is_within 4 (W.ready net.new own.number))) }
    ensures none_buffered { IfOk result (λ more. IsTrue more → buffered incoming.new ≡ []) }
{
    for _ in 0..CALLS {
        if incoming.front().is_empty() {
            return Ok(true);
        }
        if !write_once(way, net, own, incoming)? {
            return Ok(false);
        }
    }
    Ok(false)
}

// Writes bytes to the link `own` that were just read, while none were buffered. What it doesn't take is buffered. Says
// whether it took all.
#[tactic(auto, using(crate::proofs::Carrying::buffered_new, crate::proofs::Carrying::buffered_passed))]
fn write_new<N, W: Way<N>>(
    way: &mut W,
    net: &mut N,
    own: ChanId,
    direction: &mut Direction,
    bytes: &[u8],
) -> Result<bool, Failed>
    requires some { bytes.now ≢ [] }
    requires ready { IsTrue (is_within 4 (W.ready net.old own.number)) }
    requires stands { (W.place net.old own).standing ≡ open_or_shut direction.old.shut }
    requires bytes { MayTake direction.old bytes.now }
    requires none_buffered { buffered direction.old ≡ [] }
    ensures sink { KeepsSink direction.old direction.new (W.link net.old own) (W.place net.old own) (W.link net.new own)
        (W.place net.new own) }
    ensures source { SameSource (takes direction.old bytes.now) direction.new }
    ensures work { Works W.Way own own net.old net.new }
    ensures stands { W.place net.new own ≡ W.place net.old own }
    ensures shut { direction.new.shut ≡ direction.old.shut }
    ensures cause { OnErr result (Rose (W.faults net.old own) (W.faults net.new own)) }
    ensures calm { OnOk result (W.faults net.new own ≡ W.faults net.old own) }
    ensures read { IsTrue (is_within 1 (W.ready net.old own.number)) → IsTrue (is_within 1 (W.ready net.new own.number)) }
    ensures writable { IfOk result (λ all. IsTrue all → IsTrue (is_within 4 (W.ready net.new own.number))) }
    ensures none_buffered { IfOk result (λ all. IsTrue all → buffered direction.new ≡ []) }
{
    direction.law();
    if direction.is_shut() {
        direction.on_read(bytes);
        return Ok(false);
    }
    match write(way, net, own, bytes) {
        Ok(Put::Bytes(count)) => {
            direction.on_passed(bytes, count);
            Ok(count == bytes.len())
        }
        Ok(Put::NotYet) => {
            direction.on_read(bytes);
            Ok(false)
        }
        Err(Failed) => {
            direction.on_read(bytes);
            Err(Failed)
        }
    }
}

// Reads once what has come on a link, into the whole buffer.
fn read_new<N, W: Way<N>>(
    way: &mut W,
    net: &mut N,
    own: ChanId,
    scratch: &mut [u8],
) -> Result<Got, Failed>
    requires scratch { length scratch.old ≡ CAPACITY }
    requires ready { IsTrue (is_within 1 (W.ready net.old own.number)) }
    requires linked { IsLinked (W.place net.old own).standing }
    ensures got { IfOk result (IsGot scratch.old) }
    ensures source { (f : Flow) → KeepsSource f (flow_after_read result scratch.new f) (W.link net.old own)
        (W.place net.old own) (W.link net.new own) (W.place net.new own) }
    ensures work { Works W.Way own own net.old net.new }
    ensures stands { W.place net.new own ≡ W.place net.old own }
    ensures cause { OnErr result (Rose (W.faults net.old own) (W.faults net.new own)) }
    ensures calm { OnOk result (W.faults net.new own ≡ W.faults net.old own) }
    ensures ready { IfOk result (λ got. ReadyAfterGot got (W.ready net.old own.number) (W.ready net.new own.number)) }
    ensures write { IsTrue (is_within 4 (W.ready net.old own.number)) → IsTrue (is_within 4 (W.ready net.new own.number)) }
{
    read(way, net, own, scratch)
}

// Reads once from the link `source`, and writes to the link `sink` at once what has come. Says whether more may be
// passed on at once.
fn pass_once<N, W: Way<N>>(
    way: &mut W,
    net: &mut N,
    source: ChanId,
    sink: ChanId,
    direction: &mut Direction,
    scratch: &mut [u8],
) -> Result<bool, Failed>
    requires scratch { length scratch.old ≡ CAPACITY }
    requires apart { AreApart source sink }
    requires read { IsTrue (is_within 1 (W.ready net.old source.number)) }
    requires write { IsTrue (is_within 4 (W.ready net.old sink.number)) }
    requires linked { IsLinked (W.place net.old source).standing }
    requires stands { (W.place net.old sink).standing ≡ open_or_shut direction.old.shut }
    requires none_buffered { buffered direction.old ≡ [] }
    ensures passes { Passes W.Way source sink direction.old direction.new net.old net.new }
    ensures cause { OnErr result (OneRose (W.faults net.old) (W.faults net.new) source sink) }
    ensures calm { OnOk result (BothSame (W.faults net.old) (W.faults net.new) source sink) }
    ensures readable { IfOk result (λ more. IsTrue more → IsTrue (is_within 1 (W.ready net.new source.number))) }
    ensures writable { IfOk result (λ more. IsTrue more → IsTrue (is_within 4 (W.ready net.new sink.number))) }
    ensures none_buffered { IfOk result (λ more. IsTrue more → buffered direction.new ≡ []) }
{
    if direction.is_ended() {
        return Ok(false);
    }
    match read_new(way, net, source, scratch)? {
        Got::Bytes(count) => return write_new(way, net, sink, direction, &scratch[..count]),
        Got::End => direction.on_end(),
        Got::NotYet => {}
    }
    Ok(false)
}

// Passes on what comes from one link to the other. Says whether more may be passed on at once.
fn pass_all<N, W: Way<N>>(
    way: &mut W,
    net: &mut N,
    source: ChanId,
    sink: ChanId,
    direction: &mut Direction,
    scratch: &mut [u8],
) -> Result<bool, Failed>
    requires scratch { length scratch.old ≡ CAPACITY }
    requires apart { AreApart source sink }
    requires read { IsTrue (is_within 1 (W.ready net.old source.number)) }
    requires write { IsTrue (is_within 4 (W.ready net.old sink.number)) }
    requires linked { IsLinked (W.place net.old source).standing }
    requires stands { (W.place net.old sink).standing ≡ open_or_shut direction.old.shut }
    requires none_buffered { buffered direction.old ≡ [] }
    ensures passes { Passes W.Way source sink direction.old direction.new net.old net.new }
    ensures cause { OnErr result (OneRose (W.faults net.old) (W.faults net.new) source sink) }
    ensures calm { OnOk result (BothSame (W.faults net.old) (W.faults net.new) source sink) }
{
    for _ in 0..PASSES {
        if !pass_once(way, net, source, sink, direction, scratch)? {
            return Ok(false);
        }
    }
    Ok(true)
}

// Writes what is buffered where the link was told ready for it. Says whether more could be written at once.
fn write_told<N, W: Way<N>>(
    way: &mut W,
    net: &mut N,
    course: Course,
    direction: &mut Direction,
) -> Result<bool, Failed>
    requires apart { AreApart course.source course.sink }
    requires ready { IsTrue course.can_write → IsTrue (is_within 4 (W.ready net.old course.sink.number)) }
    requires stands { (W.place net.old course.sink).standing ≡ open_or_shut direction.old.shut }
    ensures passes { Passes W.Way course.source course.sink direction.old direction.new net.old net.new }
    ensures readable { W.ready net.new course.source.number ≡ W.ready net.old course.source.number }
    ensures cause { OnErr result (OneRose (W.faults net.old) (W.faults net.new) course.source course.sink) }
    ensures calm { OnOk result (BothSame (W.faults net.old) (W.faults net.new) course.source course.sink) }
    ensures writable { IfOk result (λ more. IsTrue more → IsTrue (is_within 4 (W.ready net.new course.sink.number))) }
    ensures none_buffered { IfOk result (λ more. IsTrue more → buffered direction.new ≡ []) }
{
    if course.can_write {
        write_all(way, net, course.sink, direction)
    } else {
        Ok(false)
    }
}

// Whether a direction became full that had so much room before, and has so much now.
fn is_filled(before: usize, now: usize) -> bool {
    before > 0 && now == 0
}

// Reads where the link was told ready for it, and passes on what comes where the other can be written. Says whether
// more may be passed on at once: so it is where the direction is full only now, since more may have come than it took.
fn read_told<N, W: Way<N>>(
    way: &mut W,
    net: &mut N,
    course: Course,
    direction: &mut Direction,
    scratch: &mut [u8],
) -> Result<bool, Failed>
    requires scratch { length scratch.old ≡ CAPACITY }
    requires apart { AreApart course.source course.sink }
    requires read { IsTrue course.can_read → IsTrue (is_within 1 (W.ready net.old course.source.number)) }
    requires write { IsTrue course.can_write → IsTrue (is_within 4 (W.ready net.old course.sink.number)) }
    requires linked { IsLinked (W.place net.old course.source).standing }
    requires stands { (W.place net.old course.sink).standing ≡ open_or_shut direction.old.shut }
    requires none_buffered { IsTrue course.can_write → buffered direction.old ≡ [] }
    ensures passes { Passes W.Way course.source course.sink direction.old direction.new net.old net.new }
    ensures cause { OnErr result (OneRose (W.faults net.old) (W.faults net.new) course.source course.sink) }
    ensures calm { OnOk result (BothSame (W.faults net.old) (W.faults net.new) course.source course.sink) }
{
    if !course.can_read {
        return Ok(false);
    }
    if course.can_write {
        return pass_all(way, net, course.source, course.sink, direction, scratch);
    }
    let room = direction.room();
    read_all(way, net, course.source, direction, scratch)?;
    Ok(is_filled(room, direction.room()))
}

// Carries bytes from one link to another, as they were told ready. Says whether more may be passed on at once.
fn carry<N, W: Way<N>>(
    way: &mut W,
    net: &mut N,
    course: Course,
    direction: &mut Direction,
    scratch: &mut [u8],
) -> Result<bool, Failed>
    requires scratch { length scratch.old ≡ CAPACITY }
    requires apart { AreApart course.source course.sink }
    requires read { IsTrue course.can_read → IsTrue (is_within 1 (W.ready net.old course.source.number)) }
    requires write { IsTrue course.can_write → IsTrue (is_within 4 (W.ready net.old course.sink.number)) }
    requires linked { IsLinked (W.place net.old course.source).standing }
    requires stands { (W.place net.old course.sink).standing ≡ open_or_shut direction.old.shut }
    ensures passes { Passes W.Way course.source course.sink direction.old direction.new net.old net.new }
    ensures cause { OnErr result (OneRose (W.faults net.old) (W.faults net.new) course.source course.sink) }
    ensures calm { OnOk result (BothSame (W.faults net.old) (W.faults net.new) course.source course.sink) }
{
    let can_write = write_told(way, net, course, direction)?;
    let course = Course {
        source: course.source,
        sink: course.sink,
        can_read: course.can_read,
        can_write,
    };
    read_told(way, net, course, direction, scratch)
}

// Shuts the link to which a direction writes, once all that it took is written.
#[tactic(auto, using(crate::proofs::Working::works_none))]
fn pass_end<N, W: Way<N>>(
    way: &mut W,
    net: &mut N,
    own: ChanId,
    incoming: &mut Direction,
) -> Result<(), Failed>
    requires stands { (W.place net.old own).standing ≡ open_or_shut incoming.old.shut }
    ensures sink { KeepsSink incoming.old incoming.new (W.link net.old own) (W.place net.old own) (W.link net.new own)
        (W.place net.new own) }
    ensures source { SameSource incoming.old incoming.new }
    ensures work { Works W.Way own own net.old net.new }
    ensures cause { OnErr result (Rose (W.faults net.old own) (W.faults net.new own)) }
    ensures calm { OnOk result (W.faults net.new own ≡ W.faults net.old own) }
{
    if incoming.want().shut {
        way.shut_write(net, own)?;
        incoming.on_shut();
    }
    Ok(())
}

// Carries what the two links of a connection were told ready for, both ways.
fn carry_both<N, W: Way<N>>(
    way: &mut W,
    net: &mut N,
    told: Told,
    there: &mut Direction,
    back: &mut Direction,
    scratch: &mut [u8],
) -> Result<Flows, Failed>
    requires scratch { length scratch.old ≡ CAPACITY }
    requires ready { AreToldReady (W.ready net.old) told }
    requires apart { AreApart told.links.client told.links.target }
    requires client { IsEnd (W.link net.old told.links.client) (W.place net.old told.links.client) (carried there.old back.old) }
    requires target { IsEnd (W.link net.old told.links.target) (W.place net.old told.links.target) (carried back.old there.old) }
    ensures client { IsEnd (W.link net.new told.links.client) (W.place net.new told.links.client) (carried there.new back.new) }
    ensures target { IsEnd (W.link net.new told.links.target) (W.place net.new told.links.target) (carried back.new there.new) }
    ensures work { Works W.Way told.links.client told.links.target net.old net.new }
    ensures cause { OnErr result (OneRose (W.faults net.old) (W.faults net.new) told.links.client told.links.target) }
    ensures calm { OnOk result (BothSame (W.faults net.old) (W.faults net.new) told.links.client told.links.target) }
{
    let Told { links, ops } = told;
    let Links { client, target } = links;
    let client_reads = Ops::READ.within(ops.client);
    let client_writes = Ops::WRITE.within(ops.client);
    let target_reads = Ops::READ.within(ops.target);
    let target_writes = Ops::WRITE.within(ops.target);
    let course_there = Course {
        source: client,
        sink: target,
        can_read: client_reads,
        can_write: target_writes,
    };
    let course_back = Course {
        source: target,
        sink: client,
        can_read: target_reads,
        can_write: client_writes,
    };
    Ok(Flows {
        there: carry(way, net, course_there, there, scratch)?,
        back: carry(way, net, course_back, back, scratch)?,
    })
}

// Passes on what has ended, both ways.
fn pass_ends<N, W: Way<N>>(
    way: &mut W,
    net: &mut N,
    links: Links,
    there: &mut Direction,
    back: &mut Direction,
) -> Result<(), Failed>
    requires apart { AreApart links.client links.target }
    requires client { IsEnd (W.link net.old links.client) (W.place net.old links.client) (carried there.old back.old) }
    requires target { IsEnd (W.link net.old links.target) (W.place net.old links.target) (carried back.old there.old) }
    ensures client { IsEnd (W.link net.new links.client) (W.place net.new links.client) (carried there.new back.new) }
    ensures target { IsEnd (W.link net.new links.target) (W.place net.new links.target) (carried back.new there.new) }
    ensures work { Works W.Way links.client links.target net.old net.new }
    ensures cause { OnErr result (OneRose (W.faults net.old) (W.faults net.new) links.client links.target) }
    ensures calm { OnOk result (BothSame (W.faults net.old) (W.faults net.new) links.client links.target) }
{
    pass_end(way, net, links.target, there)?;
    pass_end(way, net, links.client, back)
}

// Carries what the two links of a connection were told ready for, and passes on what has ended. Says whether more may
// be passed on at once.
pub(crate) fn serve_links<N, W: Way<N>>(
    way: &mut W,
    net: &mut N,
    told: Told,
    there: &mut Direction,
    back: &mut Direction,
    scratch: &mut [u8],
) -> Result<Flows, Failed>
    requires scratch { length scratch.old ≡ CAPACITY }
    requires ready { AreToldReady (W.ready net.old) told }
    requires apart { AreApart told.links.client told.links.target }
    requires client { IsEnd (W.link net.old told.links.client) (W.place net.old told.links.client) (carried there.old back.old) }
    requires target { IsEnd (W.link net.old told.links.target) (W.place net.old told.links.target) (carried back.old there.old) }
    ensures client { IsEnd (W.link net.new told.links.client) (W.place net.new told.links.client) (carried there.new back.new) }
    ensures target { IsEnd (W.link net.new told.links.target) (W.place net.new told.links.target) (carried back.new there.new) }
    ensures work { Works W.Way told.links.client told.links.target net.old net.new }
    ensures cause { OnErr result (OneRose (W.faults net.old) (W.faults net.new) told.links.client told.links.target) }
    ensures calm { OnOk result (BothSame (W.faults net.old) (W.faults net.new) told.links.client told.links.target) }
{
    let links = told.links;
    let flows = carry_both(way, net, told, there, back, scratch)?;
    pass_ends(way, net, links, there, back)?;
    Ok(flows)
}

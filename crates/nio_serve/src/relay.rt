//! One connection: its two directions, and what the table watches of its links.
ghost use Rattle.std.specs.Prelude.{◌≡◌, ◌≢◌, ◌++◌, [], ◌∷◌, ◌↔◌, Some, IfOk, IsErr, IsFalse, IsNone, IsTrue};
ghost use Rattle.std.specs.Prelude.{OnErr, OnOk, length};
ghost use Rattle.nio_base.specs.declared.numbers.Addr.{Addr};
ghost use Rattle.nio_base.specs.declared.numbers.ChanId.{ChanId};
ghost use Rattle.nio_base.specs.declared.numbers.ChanNo.{ChanNo};
ghost use Rattle.nio_bytes.specs.Cause.{Rose};
ghost use Rattle.nio_link.specs.Links.{IsUnused};
ghost use Rattle.nio_link.specs.Places.{IsFree, IsVacant, never_asked, place_after_close};
ghost use Rattle.nio_link.specs.declared.place.Role.{Role};
ghost use Rattle.nio_link.specs.declared.place.Role.TheVariants as role;
ghost use Rattle.nio_link.specs.declared.place.Standing.TheVariants.{Connecting, Linked};
ghost use Rattle.nio_relay.specs.Flow.{IsLawful};
ghost use Rattle.nio_base.specs.Ops.{is_within};
ghost use Rattle.nio_board.specs.Board.{IsSameBoard, IsSameSeat};
ghost use Rattle.nio_serve.specs.Nets.{AreApart, Begins, IsQuiet, Works};
ghost use Rattle.nio_serve.specs.Passing.{AreToldReady, BothSame, OneRose};
ghost use Rattle.nio_serve.specs.Relaying.{IsAsked, stage_after, standing_after_finish, target_role};
ghost use Rattle.nio_serve.specs.Serving.{listener};
ghost use Rattle.nio_serve.specs.Statuses.{HasRoles, IsBroken, IsNew, IsRelaying, IsStatus, IsStatusOf, Live, Over};
ghost use Rattle.nio_serve.specs.Statuses.{WatchesSome, has_ended, has_faulted, status_after, status_begun};
ghost use Rattle.nio_serve.specs.declared.relay.Stage.TheVariants as stage;

use crate::link::{Flows, Links, Told, serve_links};
use crate::spare::Spare;
use crate::way::Way;
use nio_base::{Addr, ChanId, Kind, Ops};
use nio_board::{Board, Port, Refused};
use nio_link::Failed;
use nio_relay::{CAPACITY, Direction};
use std::alloc::Global;
use std::sync::Wait;

/// A link, and how the table has it: its port is watched for these operations.
#[derive(Clone, Copy)]
pub(crate) struct End {
    pub link: ChanId,
    pub port: Port,
    pub interest: Ops,
}

/// How far the target of a connection has been connected.
#[derive(Clone, Copy, Debug, PartialEq, Eq)]
pub(crate) enum Stage {
    /// Its link wasn't asked for yet.
    Accepted,
    /// Its link was asked for, and isn't connected yet.
    Connecting,
    /// Its link is connected.
    Connected,
}

impl Stage {
    // The stage after a call that connects the link, and that answered so.
    fn after(is_made: bool) -> Stage
        ensures { result ≡ stage_after is_made }
    {
        if is_made {
            Stage::Connected
        } else {
            Stage::Connecting
        }
    }
}

/// A connection that is relayed.
#[derive(Drop)]
pub(crate) struct Relay {
    pub there: Direction,
    pub back: Direction,
    pub stage: Stage,
    pub flows: Flows,
    pub client: End,
    pub target: End,
}

/// How a connection has ended. Its links are closed.
#[derive(Clone, Copy, Debug, PartialEq, Eq)]
pub(crate) enum Ended {
    /// It has relayed all bytes, both ways.
    Clean,
    /// A call on one of its links failed.
    Faulted,
    /// There was no memory to relay it.
    Dropped,
}

impl Ended {
    /// Whether it counts as ended.
    pub(crate) fn is_end(self) -> bool
        ensures { result ≡ has_ended (Some (Over self)) }
    {
        matches!(self, Ended::Clean | Ended::Faulted)
    }

    /// Whether it counts as ended by a fault.
    pub(crate) fn is_fault(self) -> bool
        ensures { result ≡ has_faulted (Some (Over self)) }
    {
        matches!(self, Ended::Faulted)
    }
}

// Goes on connecting the target where it was told ready for that.
fn finish<N, W: Way<N>>(way: &mut W, net: &mut N, target: ChanId, ops: Ops) -> Result<bool, Failed>
    requires ready { IsTrue (is_within ops (W.ready net.old target.number)) }
    requires stands { (W.place net.old target).standing ≡ Connecting }
    ensures links { (c : ChanId) → W.link net.new c ≡ W.link net.old c }
    ensures stands { (W.place net.new target).standing ≡ standing_after_finish result }
    ensures work { Works W.Way target target net.old net.new }
    ensures cause { OnErr result (Rose (W.faults net.old target) (W.faults net.new target)) }
    ensures calm { OnOk result (W.faults net.new target ≡ W.faults net.old target) }
{
    if Ops::CONNECT.within(ops) {
        match way.finish_connect(net, target) {
            Some(answer) => answer,
            None => Ok(false),
        }
    } else {
        Ok(false)
    }
}

#[tactic(auto)]
impl Relay {
    // Does what the two links were told ready for.
    fn advance<N, W: Way<N>>(
        &mut self,
        way: &mut W,
        net: &mut N,
        told: Told,
        scratch: &mut [u8],
    ) -> Result<(), Failed>
        requires scratch { length scratch.old ≡ CAPACITY }
        requires apart { AreApart told.links.client told.links.target }
        requires ready { AreToldReady (W.ready net.old) told }
        requires relaying { IsRelaying self.old.stage self.old.there self.old.back (W.link net.old told.links.client)
            (W.link net.old told.links.target) (W.place net.old told.links.client) (W.place net.old told.links.target) }
        ensures relaying { OnOk result (IsRelaying self.new.stage self.new.there self.new.back
            (W.link net.new told.links.client) (W.link net.new told.links.target) (W.place net.new told.links.client)
            (W.place net.new told.links.target)) }
        ensures broken { OnErr result (IsBroken self.new.there self.new.back
            (W.link net.new told.links.client) (W.link net.new told.links.target) (W.place net.new told.links.client)) }
        ensures role { (to : Addr) → target_role self.new.stage to ≡ target_role self.old.stage to }
        ensures asked { OnErr result (IsAsked self.new.stage) }
        ensures work { Works W.Way told.links.client told.links.target net.old net.new }
        ensures cause { OnErr result (OneRose (W.faults net.old) (W.faults net.new) told.links.client told.links.target) }
        ensures calm { OnOk result (BothSame (W.faults net.old) (W.faults net.new) told.links.client told.links.target) }
    {
        match self.stage {
            Stage::Accepted => {}
            Stage::Connecting => {
                self.stage = Stage::after(finish(way, net, told.links.target, told.ops.target)?);
            }
            Stage::Connected => {
                self.flows = serve_links(way, net, told, &mut self.there, &mut self.back, scratch)?;
            }
        }
        Ok(())
    }
}

/// Closes two links.
pub(crate) fn close_links<N, W: Way<N>>(way: &mut W, net: &mut N, links: Links)
    requires apart { AreApart links.client links.target }
    ensures quiet { IsQuiet W.Way net.old net.new }
    ensures ready { (c : ChanNo) → c ≢ links.client.number → c ≢ links.target.number → W.ready net.new c
        ≡ W.ready net.old c }
    ensures places { (c : ChanId) → c ≢ links.client → c ≢ links.target → W.place net.new c ≡ W.place net.old c }
    ensures client { W.place net.new links.client ≡ place_after_close (W.place net.old links.client) }
    ensures target { IsVacant (W.place net.new links.target).standing }
{
    way.close(net, links.client);
    way.close(net, links.target);
}

impl Relay {
    // Closes both links, and watches them no longer.
    fn hang_up<N, W: Way<N>>(&self, way: &mut W, net: &mut N, board: &mut Board<'_>, links: Links)
        requires apart { AreApart links.client links.target }
        ensures quiet { IsQuiet W.Way net.old net.new }
        ensures ready { (c : ChanNo) → c ≢ links.client.number → c ≢ links.target.number → W.ready net.new c
            ≡ W.ready net.old c }
        ensures places { (c : ChanId) → c ≢ links.client → c ≢ links.target → W.place net.new c ≡ W.place net.old c }
        ensures client { W.place net.new links.client ≡ place_after_close (W.place net.old links.client) }
        ensures target { IsVacant (W.place net.new links.target).standing }
        ensures board { IsSameBoard board.old board.new }
    {
        close_links(way, net, links);
        board.unwatch(self.client.port);
        board.unwatch(self.target.port);
    }

    // Hangs up where the connection has ended: where a call failed, or where both directions are shut. Says how it has
    // ended, if it has.
    fn settle<N, W: Way<N>>(
        &self,
        way: &mut W,
        net: &mut N,
        board: &mut Board<'_>,
        links: Links,
        served: Result<(), Failed>,
    ) -> Option<Ended>
        requires apart { AreApart links.client links.target }
        requires there { IsLawful self.now.there }
        requires back { IsLawful self.now.back }
        requires asked { OnErr served (IsAsked self.now.stage) }
        requires relaying { OnOk served (IsRelaying self.now.stage self.now.there self.now.back
            (W.link net.old links.client) (W.link net.old links.target) (W.place net.old links.client)
            (W.place net.old links.target)) }
        requires broken { OnErr served (IsBroken self.now.there self.now.back
            (W.link net.old links.client) (W.link net.old links.target) (W.place net.old links.client)) }
        ensures status { IsStatus (status_after self.now result) (W.link net.new links.client)
            (W.link net.new links.target) (W.place net.new links.client) (W.place net.new links.target) }
        ensures roles { (to : Addr) (r s : Role) → HasRoles to (Live self.now) r s
            → HasRoles to (status_after self.now result) r s }
        ensures faulty { IsTrue (has_faulted (Some (status_after self.now result))) ↔ IsErr served }
        ensures quiet { IsQuiet W.Way net.old net.new }
        ensures ready { (c : ChanNo) → c ≢ links.client.number → c ≢ links.target.number → W.ready net.new c
            ≡ W.ready net.old c }
        ensures places { (c : ChanId) → c ≢ links.client → c ≢ links.target → W.place net.new c ≡ W.place net.old c }
        ensures board { IsSameBoard board.old board.new }
    {
        if served.is_err() {
            self.hang_up(way, net, board, links);
            Some(Ended::Faulted)
        } else if self.there.is_shut() && self.back.is_shut() {
            self.hang_up(way, net, board, links);
            Some(Ended::Clean)
        } else {
            None
        }
    }

    /// Does what the two links were told ready for. Says how the connection has ended, if it has.
    pub(crate) fn serve<N, W: Way<N>>(
        &mut self,
        way: &mut W,
        net: &mut N,
        board: &mut Board<'_>,
        told: Told,
        scratch: &mut [u8],
    ) -> Option<Ended>
        requires scratch { length scratch.old ≡ CAPACITY }
        requires apart { AreApart told.links.client told.links.target }
        requires ready { AreToldReady (W.ready net.old) told }
        requires relaying { IsRelaying self.old.stage self.old.there self.old.back (W.link net.old told.links.client)
            (W.link net.old told.links.target) (W.place net.old told.links.client) (W.place net.old told.links.target) }
        ensures status { IsStatus (status_after self.new result) (W.link net.new told.links.client)
            (W.link net.new told.links.target) (W.place net.new told.links.client) (W.place net.new told.links.target) }
        ensures roles { (to : Addr) (r s : Role) → HasRoles to (Live self.old) r s
            → HasRoles to (status_after self.new result) r s }
        ensures faulty { IsTrue (has_faulted (Some (status_after self.new result)))
            → OneRose (W.faults net.old) (W.faults net.new) told.links.client told.links.target }
        ensures calm { IsFalse (has_faulted (Some (status_after self.new result)))
            → BothSame (W.faults net.old) (W.faults net.new) told.links.client told.links.target }
        ensures work { Works W.Way told.links.client told.links.target net.old net.new }
        ensures board { IsSameBoard board.old board.new }
    {
        let links = told.links;
        let served = self.advance(way, net, told, scratch);
        self.there.law();
        self.back.law();
        self.settle(way, net, board, links, served)
    }
}

// A quarter of a direction's room.
const QUARTER: usize = CAPACITY / 4;

// Whether to wait for bytes for a direction: only where a quarter of its room is free, since a selection costs time.
fn awaits_bytes(direction: &Direction) -> bool {
    direction.want().read && direction.room() >= QUARTER
}

// What a link that is connected is watched for: the one direction takes from it, and the other writes to it. Where more
// may be passed on at once in a direction, its one link is also watched for reading, though the direction may be full,
// and its other one for writing, though nothing may be buffered: then the next selection tells whether both are ready.
fn wanted(outgoing: &Direction, incoming: &Direction, flows_out: bool, flows_in: bool) -> Ops {
    let read = if flows_out || awaits_bytes(outgoing) {
        Ops::READ
    } else {
        Ops::NONE
    };
    let write = if flows_in || incoming.want().write {
        Ops::WRITE
    } else {
        Ops::NONE
    };
    read.union(write)
}

impl End {
    // Watches the link for those of these operations that the way permits, if it isn't watched for them already.
    fn watch<N, W: Way<N>>(
        &mut self,
        way: &W,
        board: &mut Board<'_>,
        ops: Ops,
    ) -> Result<(), Refused>
        ensures { IsSameBoard board.old board.new }
    {
        let permitted = ops.meet(way.permits(self.link));
        if self.interest != permitted {
            board.set(self.port, permitted)?;
            self.interest = permitted;
        }
        Ok(())
    }
}

impl Relay {
    // What its two links are watched for: the client's and the target's.
    fn wanted(&self) -> (Ops, Ops) {
        match self.stage {
            Stage::Accepted => (Ops::NONE, Ops::NONE),
            Stage::Connecting => (Ops::NONE, Ops::CONNECT),
            Stage::Connected => {
                let Flows { there, back } = self.flows;
                (
                    wanted(&self.there, &self.back, there, back),
                    wanted(&self.back, &self.there, back, there),
                )
            }
        }
    }

    /// Watches both links for what is to be done next, if the connection hasn't ended.
    pub(crate) fn follow<N, W: Way<N>>(
        &mut self,
        way: &W,
        board: &mut Board,
        ended: Option<Ended>,
    ) -> Result<(), Refused>
        ensures there { self.new.there ≡ self.old.there }
        ensures back { self.new.back ≡ self.old.back }
        ensures stage { self.new.stage ≡ self.old.stage }
        ensures board { IsSameBoard board.old board.new }
    {
        if ended.is_some() {
            return Ok(());
        }
        let (at_client, at_target) = self.wanted();
        self.client.watch::<N, W>(way, board, at_client)?;
        self.target.watch::<N, W>(way, board, at_target)
    }
}

/// Makes what relays a connection, and watches its two links, for nothing yet.
pub(crate) fn open_relay<R: Wait>(
    rt: &R,
    alloc: Global,
    board: &mut Board<'_>,
    spare: &mut Spare,
    links: Links,
) -> Result<Relay, Refused>
    ensures new { IfOk result IsNew }
    ensures seat { IsSameSeat board.old board.new }
    ensures watched { OnOk result (board.new.registered
        ≡ board.old.registered ++ links.client ∷ links.target ∷ []) }
    ensures within { WatchesSome links board.old.registered board.new.registered }
{
    let Ok(there) = spare.take(alloc) else {
        return Err(Refused);
    };
    let Ok(back) = spare.take(alloc) else {
        return Err(Refused);
    };
    let client = board.watch(rt, links.client, Kind::Stream, Ops::NONE)?;
    let target = board.watch(rt, links.target, Kind::Stream, Ops::NONE)?;
    Ok(Relay {
        there,
        back,
        stage: Stage::Accepted,
        flows: Flows::NEITHER,
        client: End {
            link: links.client,
            port: client,
            interest: Ops::NONE,
        },
        target: End {
            link: links.target,
            port: target,
            interest: Ops::NONE,
        },
    })
}

/// Takes on a connection whose client was accepted: what was made for it relays it, or else its client is closed.
pub(crate) fn take_on<N, W: Way<N>>(
    way: &mut W,
    net: &mut N,
    links: Links,
    opened: Result<Relay, Refused>,
) -> Option<Relay>
    requires new { IfOk opened IsNew }
    requires apart { AreApart links.client links.target }
    requires client_unused { IsUnused (W.link net.old links.client) }
    requires target_unused { IsUnused (W.link net.old links.target) }
    requires accepted { W.place net.old links.client ≡ record { role = role.Accepted listener; standing = Linked } }
    requires unasked { W.place net.old links.target ≡ never_asked }
    ensures status { (to : Addr) → IsStatusOf to (status_begun result) (W.link net.new links.client)
        (W.link net.new links.target) (W.place net.new links.client) (W.place net.new links.target) }
    ensures calm { W.faults net.new links.target ≡ W.faults net.old links.target }
    ensures begins { Begins W.Way links.client links.target net.old net.new }
    ensures accepted { W.accepted net.new ≡ W.accepted net.old }
    ensures dropped { IsNone result ↔ IsErr opened }
{
    match opened {
        Ok(relay) => Some(relay),
        Err(Refused) => {
            way.close(net, links.client);
            None
        }
    }
}

impl Relay {
    // Begins to connect the target, where the way permits that. The connection ends at once where that fails.
    fn connect<N, W: Way<N>>(
        &mut self,
        way: &mut W,
        net: &mut N,
        board: &mut Board<'_>,
        links: Links,
        to: Addr,
    ) -> Option<Ended>
        requires apart { AreApart links.client links.target }
        requires stage { self.old.stage ≡ stage.Accepted }
        requires free { IsFree (W.place net.old) links.target }
        requires status { IsStatusOf to (Live self.old) (W.link net.old links.client) (W.link net.old links.target)
            (W.place net.old links.client) (W.place net.old links.target) }
        ensures status { IsStatusOf to (status_after self.new result) (W.link net.new links.client)
            (W.link net.new links.target) (W.place net.new links.client) (W.place net.new links.target) }
        ensures faulty { IsTrue (has_faulted (Some (status_after self.new result)))
            → Rose (W.faults net.old links.target) (W.faults net.new links.target) }
        ensures calm { IsFalse (has_faulted (Some (status_after self.new result)))
            → W.faults net.new links.target ≡ W.faults net.old links.target }
        ensures begins { Begins W.Way links.client links.target net.old net.new }
        ensures accepted { W.accepted net.new ≡ W.accepted net.old }
        ensures board { IsSameBoard board.old board.new }
    {
        match way.connect(net, links.target, to) {
            Some(Ok(is_made)) => {
                self.stage = Stage::after(is_made);
                None
            }
            Some(Err(Failed)) => {
                self.hang_up(way, net, board, links);
                Some(Ended::Faulted)
            }
            None => None,
        }
    }

    /// Begins to connect the target, where that wasn't begun before and the way permits it now. Says how the connection
    /// has ended, if it has.
    pub(crate) fn begin<N, W: Way<N>>(
        &mut self,
        way: &mut W,
        net: &mut N,
        board: &mut Board<'_>,
        links: Links,
        to: Addr,
    ) -> Option<Ended>
        requires apart { AreApart links.client links.target }
        requires free { self.old.stage ≡ stage.Accepted → IsFree (W.place net.old) links.target }
        requires status { IsStatusOf to (Live self.old) (W.link net.old links.client) (W.link net.old links.target)
            (W.place net.old links.client) (W.place net.old links.target) }
        ensures status { IsStatusOf to (status_after self.new result) (W.link net.new links.client)
            (W.link net.new links.target) (W.place net.new links.client) (W.place net.new links.target) }
        ensures faulty { IsTrue (has_faulted (Some (status_after self.new result)))
            → Rose (W.faults net.old links.target) (W.faults net.new links.target) }
        ensures calm { IsFalse (has_faulted (Some (status_after self.new result)))
            → W.faults net.new links.target ≡ W.faults net.old links.target }
        ensures begins { Begins W.Way links.client links.target net.old net.new }
        ensures accepted { W.accepted net.new ≡ W.accepted net.old }
        ensures board { IsSameBoard board.old board.new }
    {
        match self.stage {
            Stage::Accepted => self.connect(way, net, board, links, to),
            Stage::Connecting | Stage::Connected => None,
        }
    }
}

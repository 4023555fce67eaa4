//! A relay of packets at work: two links, and a direction from each to the other.
ghost use Rattle.std.specs.Prelude.{◌≡◌, ℕ, ◌<◌, ◌≤◌, ◌⊎◌, IfOk, IsErr, IsTrue, OnOk, Some};
ghost use Rattle.nio_bytes.specs.Cause.{Rose};
ghost use Rattle.nio_base.specs.Ops.{is_within};
ghost use Rattle.nio_datagram.specs.Nets.{view_of, NoneFailed};
ghost use Rattle.nio_datagram.specs.Relaying.{fresh_relay, relay_between, AreBound, IsRelaying, Moves, Opens, Quits};
ghost use Rattle.nio_datagram.specs.Packets.{no_traffic};
ghost use Rattle.nio_datagram.specs.Datagrams.{StandsAs};
ghost use Rattle.nio_datagram.specs.Serving.{client_chan, target_chan};
ghost use Rattle.nio_datagram.specs.Places.{IsFree};

use crate::direction::{Direction, Readiness, pass};
use crate::link::{DatagramLink, PacketError};
use crate::net::PacketNet;
use crate::serving::TARGET;
use nio_base::{ChanId, Ops};
use nio_relay::PacketPlan;
use std::alloc::{AllocError, Global};

/// The link to which the client sends, that to which the target answers, and the two directions between them.
#[derive(Drop)]
pub(crate) struct Relay {
    pub client: DatagramLink,
    pub target: DatagramLink,
    pub forth: Direction,
    pub back: Direction,
}

/// Operations of both links.
#[derive(Clone, Copy, Debug, PartialEq, Eq)]
pub(crate) struct BothOps {
    pub client: Ops,
    pub target: Ops,
}

// What is known of a direction's readiness, by what its source and its sink were told ready for.
fn known(source: Ops, sink: Ops) -> Readiness
    ensures read { (ready : ℕ) → IsTrue (is_within source ready) → IsTrue result.read → IsTrue (is_within 1 ready) }
    ensures write { (ready : ℕ) → IsTrue (is_within sink ready) → IsTrue result.write → IsTrue (is_within 4 ready) }
{
    Readiness {
        read: Ops::READ.within(source),
        write: Ops::WRITE.within(sink),
    }
}

impl Relay {
    /// A relay between these channels that has passed on nothing.
    pub(crate) fn make(alloc: Global, client: ChanId, target: ChanId) -> Result<Relay, AllocError>
        ensures { IfOk result (λ relay. relay ≡ relay_between client target) }
    {
        Ok(Relay {
            client: DatagramLink::make(client),
            target: DatagramLink::make(target),
            forth: Direction::make(alloc)?,
            back: Direction::make(alloc)?,
        })
    }

    /// Binds both channels as the plan says, and connects the second to the target, in the net too.
    pub(crate) fn open<N: PacketNet>(
        &mut self,
        net: &mut N,
        plan: PacketPlan,
    ) -> Result<(), PacketError>
        requires fresh { self.old ≡ fresh_relay }
        requires client_unused { N.traffic net.old client_chan ≡ no_traffic }
        requires target_unused { N.traffic net.old target_chan ≡ no_traffic }
        requires client_free { IsFree (N.place net.old) client_chan }
        requires target_free { IsFree (N.place net.old) target_chan }
        ensures opens { Opens plan self.new (view_of N.PacketNet net.old)
            (view_of N.PacketNet net.new) }
        ensures relaying { OnOk result (IsRelaying self.new
            (view_of N.PacketNet net.new)) }
        ensures target { OnOk result (self.new.target.peer ≡ Some plan.target) }
        ensures bound { OnOk result (AreBound plan
            (view_of N.PacketNet net.new)) }
        ensures still { OnOk result (NoneFailed (N.packet_faults net.old) (N.packet_faults net.new)
            (N.poll_faults net.old) (N.poll_faults net.new)) }
        ensures cause { IsErr result → Rose (N.packet_faults net.old client_chan) (N.packet_faults net.new client_chan)
            ⊎ Rose (N.packet_faults net.old target_chan) (N.packet_faults net.new target_chan) }
    {
        self.client.bind(net, plan.listen)?;
        self.target.bind(net, plan.local)?;
        net.connect_packets(TARGET, plan.target);
        let _connected = self.target.connect(plan.target);
        Ok(())
    }

    /// Closes both channels.
    pub(crate) fn close<N: PacketNet>(&mut self, net: &mut N)
        requires client_is { self.old.client.channel ≡ client_chan }
        requires target_is { self.old.target.channel ≡ target_chan }
        requires client_stands { StandsAs self.old.client.state (N.place net.old) client_chan }
        requires target_stands { StandsAs self.old.target.state (N.place net.old) target_chan }
        ensures quits { Quits (view_of N.PacketNet net.old)
            (view_of N.PacketNet net.new) }
        ensures forth { self.new.forth ≡ self.old.forth }
        ensures back { self.new.back ≡ self.old.back }
    {
        let _client = self.client.close(net);
        let _target = self.target.close(net);
    }

    /// For what both links are watched: for reading unless a packet from there waits, and for writing where one is to
    /// go there.
    pub(crate) fn interests(&self) -> BothOps {
        let to_client = self.back.is_holding() && self.client.peer().is_some();
        BothOps {
            client: interest(self.forth.is_reading(), to_client),
            target: interest(self.back.is_reading(), self.forth.is_holding()),
        }
    }

    /// Passes packets on in both directions, as far as the links were told ready, until `count` have gone to the
    /// target.
    pub(crate) fn pass_both<N: PacketNet>(
        &mut self,
        net: &mut N,
        at_client: Ops,
        at_target: Ops,
        count: u32,
    ) -> Result<(), PacketError>
        requires ready_client { IsTrue (is_within at_client (N.ready net.old client_chan.number)) }
        requires ready_target { IsTrue (is_within at_target (N.ready net.old target_chan.number)) }
        requires relaying { IsRelaying self.old
            (view_of N.PacketNet net.old) }
        ensures relaying { IsRelaying self.new
            (view_of N.PacketNet net.new) }
        ensures target { self.new.target.peer ≡ self.old.target.peer }
        ensures moves { Moves (view_of N.PacketNet net.old)
            (view_of N.PacketNet net.new) }
        ensures count { self.old.forth.sent < count → self.new.forth.sent ≤ count }
        ensures still { OnOk result (NoneFailed (N.packet_faults net.old) (N.packet_faults net.new)
            (N.poll_faults net.old) (N.poll_faults net.new)) }
        ensures cause { IsErr result → Rose (N.packet_faults net.old client_chan) (N.packet_faults net.new client_chan)
            ⊎ Rose (N.packet_faults net.old target_chan) (N.packet_faults net.new target_chan) }
    {
        let forth = known(at_client, at_target);
        let back = known(at_target, at_client);
        let passed = pass(
            net,
            &mut self.forth,
            &mut self.client,
            &mut self.target,
            forth,
            count,
        );
        if passed.is_err() {
            return passed;
        }
        pass(
            net,
            &mut self.back,
            &mut self.target,
            &mut self.client,
            back,
            u32::MAX,
        )
    }
}

// The operations for which a link is watched.
fn interest(reads: bool, writes: bool) -> Ops {
    let reading = if reads { Ops::READ } else { Ops::NONE };
    let writing = if writes { Ops::WRITE } else { Ops::NONE };
    reading.union(writing)
}

//! The command `packets`.
ghost use Rattle.std.specs.Prelude.{◌≡◌, ◌≤◌};
ghost use Rattle.nio_datagram.specs.Packets.{no_traffic};
ghost use Rattle.nio_datagram.specs.Serving.{client_chan, target_chan};
ghost use Rattle.nio_relay.specs.Plan.{IsRelayable};
ghost use Rattle.nio_datagram.specs.Places.{IsFree};
ghost use Rattle.nio_run.specs.Packets.{DoesPackets, sent_line};
ghost use Rattle.nio_run.specs.Relays.{SaysLine};

use nio_bytes::Sink;
use nio_datagram::{PacketNet, PacketServeError, PacketsServed, serve_packets};
use nio_relay::PacketPlan;
use nio_script::{Status, write_out};
use std::alloc::Global;
use std::sync::Wait;

/// Relays the packets of a plan, and says how many were sent each way.
pub fn relay_packets<R: Wait, K: Sink, D: PacketNet>(
    rt: &R,
    alloc: Global,
    output: &mut K,
    packets: &mut D,
    plan: PacketPlan,
) -> Status
    requires plan { IsRelayable plan }
    requires client_unused { D.traffic packets.old client_chan ≡ no_traffic }
    requires target_unused { D.traffic packets.old target_chan ≡ no_traffic }
    requires client_free { IsFree (D.place packets.old) client_chan }
    requires target_free { IsFree (D.place packets.old) target_chan }
    ensures packets { DoesPackets K.Sink plan (D.traffic packets.old) (D.traffic packets.new) (D.place packets.old)
        (D.place packets.new) (D.packet_faults packets.old) (D.packet_faults packets.new) (D.poll_faults packets.old)
        (D.poll_faults packets.new) output.old output.new result }
    ensures later { K.faults output.old ≤ K.faults output.new }
{
    match serve_packets(rt, alloc, packets, plan) {
        Ok(served) => say_sent(alloc, output, served),
        Err(PacketServeError::NetFault) => Status::NetFault,
        Err(PacketServeError::Memory) => Status::Memory,
    }
}

fn say_sent<K: Sink>(alloc: Global, output: &mut K, served: PacketsServed) -> Status
    ensures said { SaysLine K.Sink (sent_line served) output.old output.new result }
    ensures later { K.faults output.old ≤ K.faults output.new }
{
    let forth = served.forth;
    let back = served.back;
    let Ok(text) = format!(in alloc; "forth {forth} back {back}\n") else {
        return Status::Memory;
    };
    match write_out(output, text.as_bytes()) {
        Ok(()) => Status::Done,
        Err(status) => status,
    }
}

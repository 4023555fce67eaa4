//! The relay of packets, as tables.
ghost use Rattle.std.specs.Prelude.{◌≡◌, IfOk};
ghost use Rattle.nio_base.specs.declared.numbers.ChanId.{ChanId as Channel};
ghost use Rattle.nio_datagram.specs.MemoryPackets.{place_at, traffic_at};
ghost use Rattle.nio_datagram.specs.Packets.{no_traffic};
ghost use Rattle.nio_relay.specs.Plan.{IsRelayable};
ghost use Rattle.nio_datagram.specs.declared.net.Place.TheVariants.{Unbound};

use crate::reluctant::Reluctant;
use nio_base::{Addr, ChanId, ChanNo};
use nio_datagram::{MemoryPackets, PacketServeError, PacketsServed, serve_packets};
use nio_relay::PacketPlan;
use std::alloc::{AllocError, Global};
use std::sync::Wait;
use std::test::Fail;

const LISTEN: Addr = Addr {
    ip: [127, 0, 0, 1],
    port: 7000,
};

const LOCAL: Addr = Addr {
    ip: [127, 0, 0, 1],
    port: 7001,
};

const TARGET: Addr = Addr {
    ip: [127, 0, 0, 1],
    port: 9000,
};

const CLIENT: Addr = Addr {
    ip: [127, 0, 0, 1],
    port: 4000,
};

const STRANGER: Addr = Addr {
    ip: [127, 0, 0, 1],
    port: 4001,
};

/// Packets that come, each with its sender, and what a relay makes of them.
#[derive(Clone, Copy)]
struct Row<'a> {
    label: &'a str,
    at_client: &'a [(Addr, &'a str)],
    at_target: &'a [(Addr, &'a str)],
    count: u32,
    fail_send: Option<u64>,
    answer: Result<PacketsServed, PacketServeError>,
    to_target: &'a [&'a str],
    to_client: &'a [&'a str],
}

const STRANGERS_PACKETS: Row = Row {
    label: "strangers_packets",
    at_client: &[(CLIENT, "a"), (STRANGER, "z"), (CLIENT, "bb"), (CLIENT, "")],
    at_target: &[],
    count: 3,
    fail_send: None,
    answer: Ok(PacketsServed { forth: 3, back: 0 }),
    to_target: &["a", "bb", ""],
    to_client: &[],
};

const FAILING_SEND: Row = Row {
    label: "failing_send",
    fail_send: Some(1),
    answer: Err(PacketServeError::NetFault),
    to_target: &["a"],
    ..STRANGERS_PACKETS
};

/// The target's answers go to the client, and a stranger's to nobody.
const BOTH_WAYS: Row = Row {
    label: "both_ways",
    at_client: &[(CLIENT, "a"), (CLIENT, "b")],
    at_target: &[(TARGET, "A"), (STRANGER, "x"), (TARGET, "B")],
    count: 2,
    fail_send: None,
    answer: Ok(PacketsServed { forth: 2, back: 2 }),
    to_target: &["a", "b"],
    to_client: &["A", "B"],
};

const FAILING_SEND_BACK: Row = Row {
    label: "failing_send_back",
    fail_send: Some(2),
    answer: Err(PacketServeError::NetFault),
    to_client: &[],
    ..BOTH_WAYS
};

const COUNT_OF_ONE: Row = Row {
    label: "count_of_one",
    at_client: &[(STRANGER, "z"), (CLIENT, "a"), (STRANGER, "y")],
    count: 1,
    answer: Ok(PacketsServed { forth: 1, back: 0 }),
    to_target: &["z"],
    ..STRANGERS_PACKETS
};

fn packets(alloc: Global, rows: &[(Addr, &str)]) -> Result<Vec<(Addr, Vec<u8>)>, AllocError> {
    let mut packets = Vec::new(alloc);
    for &(from, text) in rows {
        packets.push((from, text.as_bytes().to_vec(alloc)?))?;
    }
    Ok(packets)
}

/// Whether these packets, and no others, were sent on a channel, all of them to this address.
fn has_sent(net: &MemoryPackets, chan: ChanId, to: Addr, wanted: &[&str]) -> bool {
    if net.went_len(chan) != wanted.len() {
        return false;
    }
    for place in 0..net.went_len(chan) {
        if place >= wanted.len() || net.went_bytes(chan, place) != wanted[place].as_bytes() {
            return false;
        }
        if net.went_to(chan, place) != to {
            return false;
        }
    }
    true
}

fn net_of(alloc: Global, row: &Row) -> Result<MemoryPackets, AllocError>
    ensures fresh { IfOk result (λ net. (c : Channel) → traffic_at net.sides c ≡ no_traffic) }
    ensures unbound { IfOk result (λ net. (c : Channel) → place_at net.sides c ≡ Unbound) }
{
    let at_client = packets(alloc, row.at_client)?;
    let at_target = packets(alloc, row.at_target)?;
    MemoryPackets::make(alloc, at_client, at_target, row.fail_send)
}

fn plan_of(count: u32) -> PacketPlan
    ensures { IsRelayable result }
{
    PacketPlan {
        listen: LISTEN,
        local: LOCAL,
        target: TARGET,
        count: count.clamp(1, 1_000_000),
    }
}

/// Whether the relay of the row made of the packets what it says.
fn is_as_planned(
    row: &Row,
    net: &MemoryPackets,
    answer: Result<PacketsServed, PacketServeError>,
) -> bool {
    let client = row.at_client.first().map_or(CLIENT, |first| first.0);
    answer == row.answer
        && has_sent(net, ChanId::first(ChanNo(1)), TARGET, row.to_target)
        && has_sent(net, ChanId::first(ChanNo(0)), client, row.to_client)
}

fn is_served<R: Wait>(rt: &R, alloc: Global, row: &Row) -> Result<bool, AllocError> {
    let mut net = net_of(alloc, row)?;
    let answer = serve_packets(rt, alloc, &mut net, plan_of(row.count));
    Ok(is_as_planned(row, &net, answer))
}

/// The same over a net of which each other send finds no room.
fn is_served_late<R: Wait>(rt: &R, alloc: Global, row: &Row) -> Result<bool, AllocError> {
    let mut net = Reluctant::over(net_of(alloc, row)?);
    let answer = serve_packets(rt, alloc, &mut net, plan_of(row.count));
    Ok(is_as_planned(row, &net.net, answer))
}

#[test]
fn a_relay_passes_packets_on(rt: HostRuntime) -> Result<(), Fail> {
    for row in &[
        STRANGERS_PACKETS,
        FAILING_SEND,
        BOTH_WAYS,
        FAILING_SEND_BACK,
        COUNT_OF_ONE,
    ] {
        assert!(rt; is_served(&rt, rt.alloc(), row)?, "{}", row.label);
    }
    for row in &[STRANGERS_PACKETS, FAILING_SEND, BOTH_WAYS, COUNT_OF_ONE] {
        assert!(rt; is_served_late(&rt, rt.alloc(), row)?, "{} late", row.label);
    }
    Ok(())
}

/// So many packets of the client, each with its number.
fn numbered(alloc: Global, count: u32) -> Result<Vec<(Addr, Vec<u8>)>, AllocError> {
    let mut packets = Vec::new(alloc);
    for number in 0..count {
        packets.push((CLIENT, number.to_le_bytes().to_vec(alloc)?))?;
    }
    Ok(packets)
}

/// How many packets were sent to the target, as far as each has its number.
fn numbered_to_target(net: &MemoryPackets) -> u32 {
    let mut count: u32 = 0;
    let chan = ChanId::first(ChanNo(1));
    for place in 0..net.went_len(chan) {
        if net.went_bytes(chan, place) != count.to_le_bytes().as_slice() {
            return count;
        }
        count = count.saturating_add(1);
    }
    count
}

#[test]
fn a_hundred_thousand_packets(rt: HostRuntime) -> Result<(), Fail> {
    let alloc = rt.alloc();
    let mut net = MemoryPackets::make(alloc, numbered(alloc, 100_010)?, Vec::new(alloc), None)?;
    let answer = serve_packets(&rt, alloc, &mut net, plan_of(100_000));
    assert!(rt;
        answer
            == Ok(PacketsServed {
                forth: 100_000,
                back: 0
            })
    );
    assert!(rt;
        numbered_to_target(&net) == 100_000 && net.went_len(ChanId::first(ChanNo(1))) == 100_000
    );
    Ok(())
}

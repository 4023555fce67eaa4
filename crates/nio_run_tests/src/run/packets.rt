//! The relay of packets over a net in memory: how the program ends, what it says, and which packets go to the target.
ghost use Rattle.std.specs.Prelude.{◌≡◌, IfOk};
ghost use Rattle.nio_base.specs.declared.numbers.ChanId.{ChanId as Channel};
ghost use Rattle.nio_datagram.specs.MemoryPackets.{place_at, traffic_at};
ghost use Rattle.nio_datagram.specs.Packets.{no_traffic};
ghost use Rattle.nio_datagram.specs.declared.net.Place.TheVariants as place_is;

use super::{relays, runs_over};
use nio_base::{Addr, ChanId, ChanNo, NoGate};
use nio_bytes::{MemorySink, MemorySource};
use nio_datagram::MemoryPackets;
use nio_poller::NoBell;
use std::alloc::{AllocError, AllocGlobal, Global};
use std::random::RandomSource;
use std::sync::Wait;
use std::test::Fail;
use std::thread::Threads;

/// How many packets are sent on, which sending fails, and how the program ends: what goes to the target, the status,
/// and what is written.
type Row = (
    &'static str,
    &'static str,
    Option<u64>,
    &'static [&'static [u8]],
    u8,
    &'static str,
);

const ROWS: [Row; 3] = [
    (
        "three_packets",
        "3",
        None,
        &[&[0x61], &[0x62, 0x62], &[]],
        0,
        "forth 3 back 0\n",
    ),
    ("the_second_send_fails", "3", Some(1), &[&[0x61]], 7, ""),
    ("too_many", "1000001", None, &[], 2, super::USAGE),
];

fn at(port: u16) -> Addr {
    Addr {
        ip: [127, 0, 0, 1],
        port,
    }
}

/// A client's packets of the bytes 61, 62 62 and none, and a stranger's of the byte 7a after the first.
fn packets(alloc: Global, fail_send: Option<u64>) -> Result<MemoryPackets, AllocError>
    ensures fresh { IfOk result (λ net. (c : Channel) → traffic_at net.sides c ≡ no_traffic) }
    ensures unbound { IfOk result (λ net. (c : Channel) → place_at net.sides c ≡ place_is.Unbound) }
{
    let mut front = Vec::new(alloc);
    front.push((at(4000), vec![in alloc; 0x61]?))?;
    front.push((at(4001), vec![in alloc; 0x7a]?))?;
    front.push((at(4000), vec![in alloc; 0x62, 0x62]?))?;
    front.push((at(4000), Vec::new(alloc)))?;
    MemoryPackets::make(alloc, front, Vec::new(alloc), fail_send)
}

/// Runs these words over no links, and over the packets of above. Gives the status, and what is left of the latter.
fn runs_packets<R>(
    rt: &R,
    alloc: Global,
    words: &[&str],
    output: &mut MemorySink,
    fail_send: Option<u64>,
) -> Result<(u8, MemoryPackets), AllocError>
where
    R: Threads + Wait + RandomSource + AllocGlobal + Sync,
{
    let mut source = MemorySource::make(Vec::new(alloc), 1, Vec::new(alloc));
    let links = relays::net_of(alloc, &[], None, None)?;
    let mut more = Vec::new(alloc);
    let mut net = packets(alloc, fail_send)?;
    let (status, _links) = runs_over(
        rt,
        alloc,
        words,
        &mut source,
        output,
        links,
        &mut more,
        &mut net,
        &NoBell,
        Vec::new(alloc),
        &NoGate,
    )?;
    Ok((status, net))
}

const TARGET: ChanId = ChanId {
    number: ChanNo(1),
    serial: 0,
};

/// Whether these packets went to the target, and no others.
fn have_gone(net: &MemoryPackets, sent: &[&[u8]]) -> bool {
    if net.went_len(TARGET) != sent.len() {
        return false;
    }
    for place in 0..sent.len() {
        if net.went_to(TARGET, place) != at(9000) || net.went_bytes(TARGET, place) != sent[place] {
            return false;
        }
    }
    true
}

#[test]
fn packets_end_as_written_down(rt: HostRuntime) -> Result<(), Fail> {
    let alloc = rt.alloc();
    for (name, count, fail_send, sent, code, written) in ROWS {
        let words = [
            "packets",
            "--listen=127.0.0.1:7000",
            "--local",
            "127.0.0.1:7001",
            "--target",
            "127.0.0.1:9000",
            "--count",
            count,
        ];
        let mut sink = MemorySink::make(alloc, 5, Vec::new(alloc), 512)?;
        let (status, net) = runs_packets(&rt, alloc, &words, &mut sink, fail_send)?;
        assert_eq!(rt; status, code, "{name}");
        assert_eq!(rt; sink.bytes(), written.as_bytes(), "{name}");
        assert!(rt; have_gone(&net, sent), "{name}");
    }
    Ok(())
}

//! What a datagram channel refuses by its state, and a bind that fails, as a table.
ghost use Rattle.std.specs.Prelude.{◌≡◌, ◌≤◌, length};

use nio_base::{Addr, ChanId, ChanNo};
use nio_datagram::{
    BindFailure, Came, DatagramLink, LONGEST, MemoryPackets, PacketError, PacketNet,
};
use std::test::Fail;

const HERE: Addr = Addr {
    ip: [127, 0, 0, 1],
    port: 7000,
};

const PEER: Addr = Addr {
    ip: [127, 0, 0, 1],
    port: 9000,
};

#[test]
fn a_channel_refuses_by_its_state(rt: HostRuntime) -> Result<(), Fail> {
    let alloc = rt.alloc();
    let mut net = MemoryPackets::make(alloc, Vec::new(alloc), Vec::new(alloc), None)?;
    let mut link = DatagramLink::make(ChanId::first(ChanNo(0)));
    let not_bound = link.send(&mut net, b"a", PEER).err();
    let bound = link.bind(&mut net, HERE).is_ok();
    let bound_again = link.bind(&mut net, HERE).err();
    let connected = link.connect(PEER).is_ok();
    let connected_again = link.connect(HERE).err();
    let closed = link.close(&mut net);
    let bound_late = link.bind(&mut net, HERE).err();
    // A net in memory has the numbers 0 and 1.
    let mut without = MemoryPackets::make(alloc, Vec::new(alloc), Vec::new(alloc), None)?;
    let failed = DatagramLink::make(ChanId::first(ChanNo(2)))
        .bind(&mut without, HERE)
        .err();
    assert!(rt; bound && connected && closed);
    for (label, refusal, wanted) in [
        ("not_bound", not_bound, PacketError::NotYetBound),
        ("bound_again", bound_again, PacketError::AlreadyBound),
        (
            "connected_again",
            connected_again,
            PacketError::AlreadyConnected,
        ),
        ("bound_late", bound_late, PacketError::ClosedChannel),
        ("failed", failed, PacketError::Fault),
    ] {
        assert!(rt; refusal == Some(wanted), "{label}");
    }
    Ok(())
}

/// A channel's next packet, as far as it is this text.
fn receives(net: &mut MemoryPackets, chan: ChanId, wanted: &str, into: &mut [u8]) -> bool
    requires { LONGEST ≤ length into.old }
    ensures { length into.new ≡ length into.old }
{
    match net.receive_packet(chan, into) {
        Ok(Came::Packet { len, from: _ }) => &into[..len] == wanted.as_bytes(),
        Ok(Came::NotYet) | Err(_) => false,
    }
}

/// A number serves again, under a later serial, once its socket was closed. What the first channel sent is shown still.
#[test]
fn a_number_serves_again(rt: HostRuntime) -> Result<(), Fail> {
    let alloc = rt.alloc();
    let mut coming = Vec::new(alloc);
    coming.push((PEER, b"a".to_vec(alloc)?))?;
    coming.push((PEER, b"b".to_vec(alloc)?))?;
    let mut net = MemoryPackets::make(alloc, coming, Vec::new(alloc), None)?;
    let mut into = vec![in alloc; 0_u8; LONGEST]?;
    let first = ChanId::first(ChanNo(0));
    let second = ChanId { serial: 1, ..first };
    assert!(rt; net.bind_socket(first, HERE).is_ok());
    assert!(rt; receives(&mut net, first, "a", &mut into));
    assert!(rt; net.send_packet(first, b"x", PEER).is_ok());
    assert!(rt;
        net.bind_socket(second, HERE) == Err(BindFailure::NotFree),
        "the first is bound"
    );
    net.close_packets(first);
    assert!(rt;
        net.bind_socket(first, HERE) == Err(BindFailure::NotFree),
        "its serial was used"
    );
    assert!(rt; net.bind_socket(second, HERE).is_ok());
    assert!(rt;
        !receives(&mut net, first, "b", &mut into),
        "the first is closed"
    );
    assert!(rt; receives(&mut net, second, "b", &mut into));
    assert!(rt; net.went_len(second) == 0);
    assert_eq!(rt; net.went_len(first), 1);
    assert!(rt; net.went_bytes(first, 0) == b"x".as_slice());
    Ok(())
}

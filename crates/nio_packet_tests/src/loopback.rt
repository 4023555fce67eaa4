//! The relay of packets over sockets: a client and the relay, each in a thread, and a target.
ghost use Rattle.std.specs.Prelude.{◌≡◌};
ghost use Rattle.nio_base.specs.declared.numbers.ChanId.{ChanId as Channel};
ghost use Rattle.nio_datagram.specs.declared.net.Place.TheVariants.{Unbound};

use nio_base::{Addr, ChanId, ChanNo};
use nio_datagram::{
    DatagramLink, PacketError, PacketNet, PacketServeError, PacketsServed, serve_packets,
};
use nio_mio_packets::MioPackets;
use nio_relay::PacketPlan;
use std::alloc::{AllocError, Global};
use std::io;
use std::net::{Net, SocketAddr, UdpSocket};
use std::sync::Wait;
use std::sync::atomic::{AtomicBool, Ordering};
use std::test::Fail;
use std::thread::{join, sleep};
use std::time::{Clock, Duration};

fn at(port: u16) -> Addr {
    Addr {
        ip: [127, 0, 0, 1],
        port,
    }
}

/// Two ports to which nobody is bound.
fn free_ports(rt: &HostRuntime) -> io::Result<(u16, u16)> {
    let one = UdpSocket::bind(rt, "127.0.0.1:0")?;
    let other = UdpSocket::bind(rt, "127.0.0.1:0")?;
    Ok((one.local_addr()?.port(), other.local_addr()?.port()))
}

/// Relays so many packets, at most 100.
fn relay<R: Wait + Net + Clock + Copy>(
    rt: &R,
    alloc: Global,
    plan: PacketPlan,
) -> Result<Result<PacketsServed, PacketServeError>, AllocError> {
    let mut net = MioPackets::make(*rt, alloc, 2)?;
    let plan = PacketPlan {
        count: plan.count.clamp(1, 100),
        ..plan
    };
    Ok(serve_packets(rt, alloc, &mut net, plan))
}

/// The client sends this packet, until the relay's socket stands and the target has it. Gives back what came there, and
/// from where. To a port to which nobody is bound the system refuses a packet.
fn ask(
    client: &UdpSocket,
    target: &UdpSocket,
    packet: &[u8],
    into: &mut [u8],
) -> io::Result<(usize, SocketAddr)> {
    let mut is_due = true;
    for _ in 0..100 {
        if is_due {
            let _sent = client.send(packet);
        }
        if let Ok(came) = target.recv_from(into) {
            return Ok(came);
        }
        is_due = client.take_error()?.is_some();
    }
    target.recv_from(into)
}

/// Whether so many bytes at the front of the buffer are these.
fn holds(buffer: &[u8], len: usize, wanted: &[u8]) -> bool {
    len == wanted.len() && buffer.starts_with(wanted)
}

/// Three packets from a client, and the target's answers to the first two, which are as long.
fn talk(rt: &HostRuntime, alloc: Global, target: &UdpSocket, to: &str) -> io::Result<bool> {
    let client = UdpSocket::bind(rt, "127.0.0.1:0")?;
    client.connect(to)?;
    // Then the client looks whether the system refused its packet.
    target.set_read_timeout(Some(Duration::from_millis(100)))?;
    let longest = vec![in alloc; 7_u8; 65_507]?;
    let mut came = vec![in alloc; 0_u8; 65_508]?;
    let mut is_right = true;
    for (question, answer) in [
        (&longest[..], &longest[1..3]),
        (&longest[..0], &longest[..]),
        (&longest[..1], &longest[..0]),
    ] {
        let (len, from) = ask(&client, target, question, &mut came)?;
        is_right = is_right && holds(&came, len, question);
        if question.len() != 1 {
            target.send_to(answer, from)?;
            let len = client.recv(&mut came)?;
            is_right = is_right && holds(&came, len, answer);
        }
    }
    Ok(is_right)
}

#[test]
fn relays_packets_over_loopback(rt: HostRuntime) -> Result<(), Fail> {
    let target = UdpSocket::bind(&rt, "127.0.0.1:0")?;
    let (listen, _other) = free_ports(&rt)?;
    let plan = PacketPlan {
        listen: at(listen),
        local: at(0),
        target: at(target.local_addr()?.port()),
        count: 3,
    };
    let to = format!(in rt.alloc(); "127.0.0.1:{listen}")?;
    let (relayed, is_right) = join(
        &rt,
        || -> Result<Result<PacketsServed, PacketServeError>, AllocError> {
            relay(&rt, rt.alloc(), plan)
        },
        || -> io::Result<bool> { talk(&rt, rt.alloc(), &target, &to) },
    );
    assert!(rt; is_right?);
    assert!(rt; relayed? == Ok(PacketsServed { forth: 3, back: 2 }));
    Ok(())
}

/// Sends packets of one byte, until the relay is done.
fn send_all(rt: &HostRuntime, to: &str, done: &AtomicBool) -> io::Result<()> {
    let socket = UdpSocket::bind(rt, "127.0.0.1:0")?;
    for number in 0..u8::MAX {
        if done.load(Ordering::SeqCst) {
            return Ok(());
        }
        socket.send_to(&[number], to)?;
        sleep(rt, Duration::from_millis(20));
    }
    Ok(())
}

/// Nobody is bound to the target's port. The system refuses the packets, and tells it late.
#[test]
fn a_refused_port_is_a_fault(rt: HostRuntime) -> Result<(), Fail> {
    let (listen, nobody) = free_ports(&rt)?;
    let plan = PacketPlan {
        listen: at(listen),
        local: at(0),
        target: at(nobody),
        count: 100,
    };
    let to = format!(in rt.alloc(); "127.0.0.1:{listen}")?;
    let done = AtomicBool::new(false);
    let (relayed, sent) = join(
        &rt,
        || -> Result<Result<PacketsServed, PacketServeError>, AllocError> {
            let relayed = relay(&rt, rt.alloc(), plan);
            done.store(true, Ordering::SeqCst);
            relayed
        },
        || -> io::Result<()> { send_all(&rt, &to, &done) },
    );
    sent?;
    assert!(rt; relayed? == Err(PacketServeError::NetFault));
    Ok(())
}

/// While the port is taken the system refuses it. Then the same channel is bound there.
#[test]
fn a_bind_that_failed_is_made_again(rt: HostRuntime) -> Result<(), Fail> {
    let taken = UdpSocket::bind(&rt, "127.0.0.1:0")?;
    let here = at(taken.local_addr()?.port());
    let mut net = MioPackets::make(rt, rt.alloc(), 1)?;
    let mut link = DatagramLink::make(ChanId::first(ChanNo(0)));
    let refused = link.bind(&mut net, here).err();
    drop(taken);
    let bound = link.bind(&mut net, here).is_ok();
    let closed = link.close(&mut net);
    assert!(rt; refused == Some(PacketError::Fault));
    assert!(rt; bound && closed);
    Ok(())
}

/// Whether a number is bound, and again under the next serial once that is closed.
fn binds_again<N: PacketNet>(net: &mut N, here: Addr) -> [bool; 2]
    requires { (c : Channel) → N.place net.old c ≡ Unbound }
{
    let first = ChanId::first(ChanNo(0));
    let bound = net.bind_packets(first, here).is_ok();
    net.close_packets(first);
    let second = ChanId {
        number: ChanNo(0),
        serial: 1,
    };
    [bound, net.bind_packets(second, here).is_ok()]
}

#[test]
fn a_number_is_bound_again(rt: HostRuntime) -> Result<(), Fail> {
    let (port, _other) = free_ports(&rt)?;
    let mut net = MioPackets::make(rt, rt.alloc(), 1)?;
    assert!(rt; binds_again(&mut net, at(port)) == [true, true]);
    Ok(())
}

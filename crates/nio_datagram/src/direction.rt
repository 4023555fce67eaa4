//! One direction of a relay of packets.
ghost use Rattle.std.specs.Prelude.{◌≡◌, ◌+◌, ◌<◌, ◌≤◌, ◌⊎◌, false, IfOk, IfSome, IsErr, IsSome, IsTrue, None, OnOk};
ghost use Rattle.std.specs.Prelude.{Some, is_some};
ghost use Rattle.nio_bytes.specs.Cause.{Rose};
ghost use Rattle.nio_base.specs.Ops.{is_within};
ghost use Rattle.nio_datagram.specs.Nets.{view_of, MayReceive, MaySend, NoneFailed};
ghost use Rattle.nio_datagram.specs.Packets.{is_stranger};
ghost use Rattle.nio_datagram.specs.Passing.{Takes, Gives, IsKnown, IsPassing, Advances, peer_after, peer_told};
ghost use Rattle.nio_datagram.specs.Passing.{more_of};
ghost use Rattle.nio_datagram.specs.declared.link.DatagramState.TheVariants as state;

use crate::link::{DatagramLink, Heard, PacketError};
use crate::net::{LONGEST, PacketNet};
use nio_base::Addr;
use std::alloc::{AllocError, Global};
use std::marker::Model;

/// How many receives and sends a direction makes in a round at most, so that the other one isn't kept waiting.
const BURST: u32 = 128;

/// What is known of a direction's readiness.
#[derive(Clone, Copy, Debug, PartialEq, Eq)]
pub(crate) struct Readiness {
    /// Its source is ready for reading.
    pub read: bool,
    /// Its sink is ready for writing.
    pub write: bool,
}

/// One direction of a relay: room for one packet, the one that it holds, whether that waits for its sink, and how many
/// it has sent. The count stops at its type's end.
#[derive(Drop)]
pub(crate) struct Direction {
    buffer: Vec<u8>,
    held: Option<usize>,
    is_waiting: bool,
    sent: u32,
}

impl Model for Direction {
    ghost use Rattle.std.specs.Prelude.{◌≡◌, ◌≤◌, IfSome, option_map, take, vec_len};
    ghost use Rattle.nio_datagram.specs.Passing.{Passing};

    ghost Value = { Passing };

    ghost view = { λ d. record { held = option_map (λ len. take len d.buffer.items) d.held; sent = d.sent } };

    ghost invariant = { λ d. (vec_len d.buffer ≡ 65507) × IfSome d.held (λ len. len ≤ 65507) };
}

impl Direction {
    /// A direction that has passed on nothing.
    pub(crate) fn make(alloc: Global) -> Result<Direction, AllocError>
        ensures { IfOk result (λ direction. direction ≡ record { held = None; sent = 0 }) }
    {
        Ok(Direction {
            buffer: vec![in alloc; 0; LONGEST]?,
            held: None,
            is_waiting: false,
            sent: 0,
        })
    }

    /// How many packets it has sent.
    pub(crate) fn sent(&self) -> u32
        ensures { result ≡ self.now.sent }
    {
        self.sent
    }

    /// Whether it holds a packet.
    pub(crate) fn is_holding(&self) -> bool
        ensures { result ≡ is_some self.now.held }
    {
        self.held.is_some()
    }

    /// Whether its source is to be watched. Not while a packet waits for the sink: else each poll would tell of the
    /// next one at once.
    pub(crate) fn is_reading(&self) -> bool {
        self.held.is_none() || !self.is_waiting
    }

    // Notes whether the packet that it holds has to wait, since its sink was watched and not told ready.
    fn note(&mut self, ready: Readiness)
        ensures { self.new ≡ self.old }
    {
        self.is_waiting = self.held.is_some() && !ready.write;
    }

    // Looks for a packet. Its buffer is free for one.
    fn receive<N: PacketNet>(
        &mut self,
        net: &mut N,
        source: &mut DatagramLink,
    ) -> Result<Heard, PacketError>
        requires empty { self.old.held ≡ None }
        requires bound { source.old.state ≡ state.Bound }
        requires may { MayReceive source.old.channel (view_of N.PacketNet net.old) }
        ensures link { source.new ≡ source.old }
        ensures takes { Takes source.old.channel source.old.peer self.old self.new
            (view_of N.PacketNet net.old)
            (view_of N.PacketNet net.new) result }
    {
        let heard = source.receive(net, &mut self.buffer);
        if let Ok(Heard::Packet { len, from: _ }) = &heard {
            self.held = Some(*len);
        }
        heard
    }

    // Sends the packet that it holds, to the peer of the sink.
    fn send<N: PacketNet>(
        &mut self,
        net: &mut N,
        sink: &mut DatagramLink,
        to: Addr,
    ) -> Result<bool, PacketError>
        requires held { IsSome self.old.held }
        requires peer { sink.old.peer ≡ Some to }
        requires bound { sink.old.state ≡ state.Bound }
        requires may { MaySend sink.old.channel (view_of N.PacketNet net.old) }
        ensures link { sink.new ≡ sink.old }
        ensures gives { Gives sink.old.channel to self.old self.new
            (view_of N.PacketNet net.old)
            (view_of N.PacketNet net.new) result }
    {
        let Some(len) = self.held else { unreachable!() };
        let sent = sink.send(net, &self.buffer[..len], to);
        if let Ok(true) = &sent {
            self.held = None;
            self.sent = self.sent.saturating_add(1);
        }
        sent
    }
}

// Takes the next packet that has come to the source. The sender of the first is its peer from then on. Says whether
// another one may have come.
fn take<N: PacketNet>(
    net: &mut N,
    direction: &mut Direction,
    source: &mut DatagramLink,
    sink: &mut DatagramLink,
) -> Result<bool, PacketError>
    requires empty { direction.old.held ≡ None }
    requires ready { IsTrue (is_within 1 (N.ready net.old source.old.channel.number)) }
    requires passing { IsPassing (record {
      source = source.old;
      sink = sink.old;
      direction = direction.old;
      net = view_of N.PacketNet net.old;
    }) }
    ensures passing { IsPassing (record {
      source = source.new;
      sink = sink.new;
      direction = direction.new;
      net = view_of N.PacketNet net.new;
    }) }
    ensures advances { Advances source.old.channel sink.old.channel
        (record {
          source = source.old;
          sink = sink.old;
          direction = direction.old;
          net = view_of N.PacketNet net.old;
        })
        (record {
          source = source.new;
          sink = sink.new;
          direction = direction.new;
          net = view_of N.PacketNet net.new;
        }) }
    ensures sent { direction.new.sent ≡ direction.old.sent }
    ensures more { IfOk result (λ more. IsTrue more → IsTrue (is_within 1 (N.ready net.new source.old.channel.number))) }
    ensures sink_ready { N.ready net.new sink.old.channel.number ≡ N.ready net.old sink.old.channel.number }
    ensures still { OnOk result (NoneFailed (N.packet_faults net.old) (N.packet_faults net.new)
        (N.poll_faults net.old) (N.poll_faults net.new)) }
    ensures cause { IsErr result → Rose (N.packet_faults net.old source.old.channel)
        (N.packet_faults net.new source.old.channel) }
{
    let heard = direction.receive(net, source);
    greet(source, &heard);
    more_of(heard)
}

// Connects the source to the sender of a packet that it heard, if it isn't connected.
fn greet(source: &mut DatagramLink, heard: &Result<Heard, PacketError>)
    requires { source.old.state ≡ state.Bound }
    ensures { source.new ≡ record source.old { peer = peer_told heard.now source.old.peer } }
{
    if let Ok(Heard::Packet { len: _, from }) = heard {
        connect_first(source, *from);
    }
}

fn connect_first(source: &mut DatagramLink, from: Addr)
    requires { source.old.state ≡ state.Bound }
    ensures { source.new ≡ record source.old { peer = peer_after from source.old.peer } }
{
    if source.peer().is_none() {
        let _connected = source.connect(from);
    }
}

// Whether another packet may have come, after a receive that was answered so.
fn more_of(heard: Result<Heard, PacketError>) -> Result<bool, PacketError>
    ensures { result ≡ more_of heard }
{
    match heard {
        Ok(Heard::Packet { len: _, from: _ }) | Ok(Heard::Stranger) => Ok(true),
        Ok(Heard::NotYet) => Ok(false),
        Err(error) => Err(error),
    }
}

// Sends the packet that the direction holds. Says whether there is room for another one.
fn give<N: PacketNet>(
    net: &mut N,
    direction: &mut Direction,
    source: &mut DatagramLink,
    sink: &mut DatagramLink,
    to: Addr,
) -> Result<bool, PacketError>
    requires held { IsSome direction.old.held }
    requires peer { sink.old.peer ≡ Some to }
    requires ready { IsTrue (is_within 4 (N.ready net.old sink.old.channel.number)) }
    requires passing { IsPassing (record {
      source = source.old;
      sink = sink.old;
      direction = direction.old;
      net = view_of N.PacketNet net.old;
    }) }
    ensures passing { IsPassing (record {
      source = source.new;
      sink = sink.new;
      direction = direction.new;
      net = view_of N.PacketNet net.new;
    }) }
    ensures advances { Advances source.old.channel sink.old.channel
        (record {
          source = source.old;
          sink = sink.old;
          direction = direction.old;
          net = view_of N.PacketNet net.old;
        })
        (record {
          source = source.new;
          sink = sink.new;
          direction = direction.new;
          net = view_of N.PacketNet net.new;
        }) }
    ensures source { source.new ≡ source.old }
    ensures sent { direction.new.sent ≤ direction.old.sent + 1 }
    ensures more { IfOk result (λ more. IsTrue more → IsTrue (is_within 4 (N.ready net.new sink.old.channel.number))) }
    ensures source_ready { N.ready net.new source.old.channel.number ≡ N.ready net.old source.old.channel.number }
    ensures still { OnOk result (NoneFailed (N.packet_faults net.old) (N.packet_faults net.new)
        (N.poll_faults net.old) (N.poll_faults net.new)) }
    ensures cause { IsErr result → Rose (N.packet_faults net.old sink.old.channel)
        (N.packet_faults net.new sink.old.channel) }
{
    let _unchanged = source;
    direction.send(net, sink, to)
}

// One receive or one send, where the direction is known to be ready for it. None where it isn't.
fn step<N: PacketNet>(
    net: &mut N,
    direction: &mut Direction,
    source: &mut DatagramLink,
    sink: &mut DatagramLink,
    ready: Readiness,
) -> Result<Option<Readiness>, PacketError>
    requires known { IsKnown ready (record {
      source = source.old;
      sink = sink.old;
      direction = direction.old;
      net = view_of N.PacketNet net.old;
    }) }
    requires passing { IsPassing (record {
      source = source.old;
      sink = sink.old;
      direction = direction.old;
      net = view_of N.PacketNet net.old;
    }) }
    ensures passing { IsPassing (record {
      source = source.new;
      sink = sink.new;
      direction = direction.new;
      net = view_of N.PacketNet net.new;
    }) }
    ensures advances { Advances source.old.channel sink.old.channel
        (record {
          source = source.old;
          sink = sink.old;
          direction = direction.old;
          net = view_of N.PacketNet net.old;
        })
        (record {
          source = source.new;
          sink = sink.new;
          direction = direction.new;
          net = view_of N.PacketNet net.new;
        }) }
    ensures sent { direction.new.sent ≤ direction.old.sent + 1 }
    ensures known { IfOk result (λ next. IfSome next (λ r. IsKnown r
        (record {
          source = source.new;
          sink = sink.new;
          direction = direction.new;
          net = view_of N.PacketNet net.new;
        }))) }
    ensures still { OnOk result (NoneFailed (N.packet_faults net.old) (N.packet_faults net.new)
        (N.poll_faults net.old) (N.poll_faults net.new)) }
    ensures cause { IsErr result
        → Rose (N.packet_faults net.old source.old.channel) (N.packet_faults net.new source.old.channel)
        ⊎ Rose (N.packet_faults net.old sink.old.channel) (N.packet_faults net.new sink.old.channel) }
{
    if !direction.is_holding() {
        return read_step(net, direction, source, sink, ready);
    }
    let Some(to) = sink.peer() else {
        return Ok(None);
    };
    if !ready.write {
        return Ok(None);
    }
    match give(net, direction, source, sink, to) {
        Ok(write) => Ok(Some(Readiness {
            read: ready.read,
            write,
        })),
        Err(error) => Err(error),
    }
}

fn read_step<N: PacketNet>(
    net: &mut N,
    direction: &mut Direction,
    source: &mut DatagramLink,
    sink: &mut DatagramLink,
    ready: Readiness,
) -> Result<Option<Readiness>, PacketError>
    requires empty { direction.old.held ≡ None }
    requires known { IsKnown ready (record {
      source = source.old;
      sink = sink.old;
      direction = direction.old;
      net = view_of N.PacketNet net.old;
    }) }
    requires passing { IsPassing (record {
      source = source.old;
      sink = sink.old;
      direction = direction.old;
      net = view_of N.PacketNet net.old;
    }) }
    ensures passing { IsPassing (record {
      source = source.new;
      sink = sink.new;
      direction = direction.new;
      net = view_of N.PacketNet net.new;
    }) }
    ensures advances { Advances source.old.channel sink.old.channel
        (record {
          source = source.old;
          sink = sink.old;
          direction = direction.old;
          net = view_of N.PacketNet net.old;
        })
        (record {
          source = source.new;
          sink = sink.new;
          direction = direction.new;
          net = view_of N.PacketNet net.new;
        }) }
    ensures sent { direction.new.sent ≡ direction.old.sent }
    ensures known { IfOk result (λ next. IfSome next (λ r. IsKnown r
        (record {
          source = source.new;
          sink = sink.new;
          direction = direction.new;
          net = view_of N.PacketNet net.new;
        }))) }
    ensures still { OnOk result (NoneFailed (N.packet_faults net.old) (N.packet_faults net.new)
        (N.poll_faults net.old) (N.poll_faults net.new)) }
    ensures cause { IsErr result
        → Rose (N.packet_faults net.old source.old.channel) (N.packet_faults net.new source.old.channel) }
{
    if !ready.read {
        return Ok(None);
    }
    match take(net, direction, source, sink) {
        Ok(read) => Ok(Some(Readiness {
            read,
            write: ready.write,
        })),
        Err(error) => Err(error),
    }
}

/// Passes packets on, as far as the direction is known to be ready, until it has sent `limit` packets in all.
pub(crate) fn pass<N: PacketNet>(
    net: &mut N,
    direction: &mut Direction,
    source: &mut DatagramLink,
    sink: &mut DatagramLink,
    ready: Readiness,
    limit: u32,
) -> Result<(), PacketError>
    requires known { IsKnown ready (record {
      source = source.old;
      sink = sink.old;
      direction = direction.old;
      net = view_of N.PacketNet net.old;
    }) }
    requires passing { IsPassing (record {
      source = source.old;
      sink = sink.old;
      direction = direction.old;
      net = view_of N.PacketNet net.old;
    }) }
    ensures passing { IsPassing (record {
      source = source.new;
      sink = sink.new;
      direction = direction.new;
      net = view_of N.PacketNet net.new;
    }) }
    ensures advances { Advances source.old.channel sink.old.channel
        (record {
          source = source.old;
          sink = sink.old;
          direction = direction.old;
          net = view_of N.PacketNet net.old;
        })
        (record {
          source = source.new;
          sink = sink.new;
          direction = direction.new;
          net = view_of N.PacketNet net.new;
        }) }
    ensures limit { direction.old.sent < limit → direction.new.sent ≤ limit }
    ensures still { OnOk result (NoneFailed (N.packet_faults net.old) (N.packet_faults net.new)
        (N.poll_faults net.old) (N.poll_faults net.new)) }
    ensures cause { IsErr result
        → Rose (N.packet_faults net.old source.old.channel) (N.packet_faults net.new source.old.channel)
        ⊎ Rose (N.packet_faults net.old sink.old.channel) (N.packet_faults net.new sink.old.channel) }
{
    direction.note(ready);
    let mut ready = ready;
    for _ in 0..BURST {
        match step(net, direction, source, sink, ready) {
            Ok(Some(next)) => ready = next,
            Ok(None) => return Ok(()),
            Err(error) => return Err(error),
        }
        if direction.sent() == limit {
            return Ok(());
        }
    }
    Ok(())
}

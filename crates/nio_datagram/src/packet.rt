//! A packet with its address.
ghost use Rattle.std.specs.Prelude.{◌≡◌, [], ◌∷◌, ◌++◌, IfOk};

use nio_base::Addr;
use nio_trace::{Reading, Trace};
use std::alloc::{AllocError, Global};
use std::marker::Model;

/// A packet that was sent, and to whom.
#[derive(Drop)]
pub struct SentPacket {
    to: Addr,
    bytes: Vec<u8>,
}

impl Model for SentPacket {
    ghost use Rattle.nio_datagram.specs.Packets.{Packet};

    ghost Value = { Packet };

    ghost view = { λ p. record { addr = p.to; bytes = p.bytes.items } };
}

impl SentPacket {
    /// A packet with these bytes.
    pub(crate) fn of(alloc: Global, bytes: &[u8], to: Addr) -> Result<SentPacket, AllocError>
        ensures { IfOk result (λ packet. packet ≡ record { addr = to; bytes = bytes.now }) }
    {
        let mut copied = Vec::with_capacity(alloc, bytes.len())?;
        copied.extend_from_slice(bytes)?;
        Ok(SentPacket { to, bytes: copied })
    }

    /// To whom it was sent.
    pub fn to(&self) -> Addr
        ensures { result ≡ self.now.addr }
    {
        self.to
    }

    /// Its bytes.
    pub fn bytes(&self) -> &[u8]
        ensures { result.now ≡ self.now.bytes }
    {
        &self.bytes
    }
}

#[derive(Clone, Copy)]
struct Moved<'a> {
    addr: Addr,
    bytes: &'a [u8],
}

/// Reads a packet off its address and its bytes.
struct OnePacket;

impl<'a> Reading<Moved<'a>, SentPacket> for OnePacket {
    ghost use Rattle.std.specs.Prelude.{[], ◌∷◌};

    ghost items = { λ moved. record { addr = moved.addr; bytes = moved.bytes.now } ∷ [] };
}

/// Adds a packet, which came from this address or was sent to it, to a list that exists in proofs alone.
pub fn log_packet(packets: &mut Trace<SentPacket>, addr: Addr, bytes: &[u8])
    ensures { packets.new ≡ packets.old ++ record { addr = addr; bytes = bytes.now } ∷ [] }
{
    packets.extend_from::<Moved, OnePacket>(&Moved { addr, bytes });
}

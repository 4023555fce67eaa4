//! Comparing addresses.
ghost use Rattle.std.specs.Prelude.{◌≡◌, ◌↔◌, IsTrue};
ghost use Rattle.nio_datagram.specs.Packets.{is_same_addr};

use nio_base::Addr;

/// Whether two addresses are the same.
pub(crate) fn is_same_addr(one: Addr, other: Addr) -> bool
    ensures value { result ≡ is_same_addr one other }
    ensures same { IsTrue result ↔ (one ≡ other) }
{
    one == other
}

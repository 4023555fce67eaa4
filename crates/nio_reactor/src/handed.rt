//! The links that are handed over.
ghost use Rattle.std.specs.Prelude.{◌≡◌, ◌<◌, ◌+◌, IfOk, IfSome, IsNone, IsSome, IsTrue, OnErr};
ghost use Rattle.nio_bytes.specs.Cause.{Rose};
ghost use Rattle.nio_link.specs.declared.place.Standing.TheVariants.{Listening};
ghost use Rattle.nio_serve.specs.Serving.{listener};
ghost use Rattle.nio_base.specs.Ops.{is_within};
ghost use Rattle.nio_reactor.specs.Accepting.{Accepts, IsAccepting};

use nio_base::{ChanId, ChanNo};
use nio_link::{Failed, Passable};

/// The channel of the listener.
pub(crate) const LISTENER: ChanId = ChanId {
    number: ChanNo(0),
    serial: 0,
};

/// A link that was accepted, with the number of its connection, counted from 0. `accept_link` alone makes one.
#[derive(Drop)]
pub(crate) struct Handed<L> {
    number: u32,
    link: L,
}

impl<L> Handed<L> {
    /// The number of the connection.
    pub(crate) fn number(&self) -> u32
        ensures { result ≡ self.now.number }
    {
        self.number
    }

    /// The number of the connection, and its link.
    pub(crate) fn into_parts(self) -> (u32, L)
        ensures { result.0 ≡ self.number }
    {
        (self.number, self.link)
    }
}

/// Accepts the connection with this number, if it has come, and takes its link out.
pub(crate) fn accept_link<N: Passable>(
    net: &mut N,
    number: u32,
) -> Result<Option<Handed<N::Link>>, Failed>
    requires ready { IsTrue (is_within 16 (N.ready net.old listener.number)) }
    requires listens { (N.place net.old listener).standing ≡ Listening }
    requires accepting { IsAccepting N.Net number net.old }
    ensures listens { N.place net.new listener ≡ N.place net.old listener }
    ensures come { IfOk result (λ come. IsSome come → IsAccepting N.Net (number + 1) net.new) }
    ensures early { IfOk result (λ come. IsNone come → IsAccepting N.Net number net.new) }
    ensures failing { OnErr result (IsAccepting N.Net number net.new) }
    ensures accepted { IfOk result (λ come. IsSome come → Accepts N.Net number (number + 1) net.old net.new) }
    ensures still { IfOk result (λ come. IsNone come → Accepts N.Net number number net.old net.new) }
    ensures failed { OnErr result (Accepts N.Net number number net.old net.new) }
    ensures its { IfOk result (λ come. IfSome come (λ handed. handed.number ≡ number)) }
    ensures cause { OnErr result (Rose (N.faults net.old listener) (N.faults net.new listener)) }
    ensures more { IfOk result (λ come. IsSome come → N.ready net.new listener.number
        ≡ N.ready net.old listener.number) }
{
    let client = ChanId {
        number: ChanNo(1),
        serial: number,
    };
    if !net.accept(LISTENER, client)? {
        return Ok(None);
    }
    let Some(link) = net.take_out(client) else {
        unreachable!();
    };
    Ok(Some(Handed { number, link }))
}

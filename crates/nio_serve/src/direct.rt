//! The way that makes each call on the net at once.
ghost use Rattle.std.specs.Prelude.{◌≡◌, ◌≢◌, [], None, IsSomeAnd};
ghost use Rattle.nio_link.specs.Nets.{view_of, MayAccept, MayFinish, MayRead, MayWrite, Listens, Accepts, Connects};
ghost use Rattle.nio_link.specs.Nets.{Finishes, Reads, Writes, Shuts, Closes};
ghost use Rattle.nio_link.specs.Places.{IsFree};
ghost use Rattle.nio_link.specs.declared.place.Standing.TheVariants as standing;

use crate::way::Way;
use nio_base::{Addr, ChanId, Ops};
use nio_board::Direct;
use nio_link::{Failed, Got, Net, Put};
use std::sync::Wait;

// A way may hold a call back. The clauses of this one are those of the net's calls, which leave no room for that.
impl<N: Net> Way<N> for Direct {
    ghost link = { N.link };

    ghost faults = { N.faults };

    ghost place = { N.place };

    ghost accepted = { N.accepted };

    fn permits(&self, _chan: ChanId) -> Ops
        ensures { result ≡ 255 }
    {
        Ops::of(u8::MAX)
    }

    fn permitted(&mut self) -> Option<ChanId>
        ensures { result ≡ None }
    {
        None
    }

    fn begin_round<R: Wait>(&mut self, _rt: &R) {}

    fn listen(&mut self, net: &mut N, chan: ChanId, at: Addr) -> Result<(), Failed>
        requires { IsFree (N.place net.old) chan }
        ensures { Listens chan at (view_of N.Net net.old) (view_of N.Net net.new) result }
    {
        net.listen(chan, at)
    }

    fn accept(
        &mut self,
        net: &mut N,
        listener: ChanId,
        chan: ChanId,
    ) -> Option<Result<bool, Failed>>
        requires { MayAccept listener chan (view_of N.Net net.old) }
        ensures { IsSomeAnd result (Accepts listener chan (view_of N.Net net.old) (view_of N.Net net.new)) }
    {
        Some(net.accept(listener, chan))
    }

    fn connect(&mut self, net: &mut N, chan: ChanId, to: Addr) -> Option<Result<bool, Failed>>
        requires { IsFree (N.place net.old) chan }
        ensures { IsSomeAnd result (Connects chan to (view_of N.Net net.old) (view_of N.Net net.new)) }
    {
        Some(net.connect(chan, to))
    }

    fn finish_connect(&mut self, net: &mut N, chan: ChanId) -> Option<Result<bool, Failed>>
        requires { MayFinish chan (view_of N.Net net.old) }
        ensures { IsSomeAnd result (Finishes chan (view_of N.Net net.old) (view_of N.Net net.new)) }
    {
        Some(net.finish_connect(chan))
    }

    fn read(&mut self, net: &mut N, chan: ChanId, into: &mut [u8]) -> Option<Result<Got, Failed>>
        requires some { into.old ≢ [] }
        requires may { MayRead chan (view_of N.Net net.old) }
        ensures { IsSomeAnd result (Reads chan (view_of N.Net net.old) (view_of N.Net net.new) into.old into.new) }
    {
        Some(net.read(chan, into))
    }

    fn write(&mut self, net: &mut N, chan: ChanId, from: &[u8]) -> Option<Result<Put, Failed>>
        requires some { from.now ≢ [] }
        requires may { MayWrite chan (view_of N.Net net.old) }
        ensures { IsSomeAnd result (Writes chan (view_of N.Net net.old) (view_of N.Net net.new) from.now) }
    {
        Some(net.write(chan, from))
    }

    fn shut_write(&mut self, net: &mut N, chan: ChanId) -> Result<(), Failed>
        requires { (N.place net.old chan).standing ≡ standing.Linked }
        ensures { Shuts chan (view_of N.Net net.old) (view_of N.Net net.new) result }
    {
        net.shut_write(chan)
    }

    fn close(&mut self, net: &mut N, chan: ChanId)
        ensures { Closes chan (view_of N.Net net.old) (view_of N.Net net.new) }
    {
        net.close(chan)
    }

    ghost kept_links = { N.kept_links };

    ghost kept_faults = { N.kept_faults };

    ghost kept_places = { N.kept_places };

    ghost kept_accepted = { N.kept_accepted };
}

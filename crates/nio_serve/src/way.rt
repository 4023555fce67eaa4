//! How a proxy makes its calls on a net.
ghost use Rattle.std.specs.Prelude.{◌≡◌, ◌≢◌, [], MatchOption};
ghost use Rattle.nio_link.specs.Links.{Link};
ghost use Rattle.nio_link.specs.Nets.{view_of, MayAccept, MayFinish, MayRead, MayWrite, Listens, Accepts, Connects};
ghost use Rattle.nio_link.specs.Nets.{Finishes, Reads, Writes, Shuts, Closes};
ghost use Rattle.nio_link.specs.Places.{IsFree};

use nio_base::{Addr, ChanId, Ops};
use nio_board::Polls;
use nio_link::{Failed, Got, Put};
use std::sync::Wait;

/// How a proxy makes its calls on a net of type `N`. A way may hold a call back until it permits it, as where each call
/// has to use up an operation of a group: then it answers None, and the net shows what it showed before. Otherwise each
/// call needs and promises what the call of `Net` with its name does.
pub trait Way<N>: Polls<N> {
    ghost use Rattle.std.specs.Prelude.{ℕ, List};
    ghost use Rattle.nio_base.specs.declared.numbers.ChanId.{ChanId};
    ghost use Rattle.nio_link.specs.declared.place.Place.{Place};
    ghost use Rattle.nio_link.specs.declared.place.Standing.TheVariants as standing;

    // What a link has carried, as far as the net shows it.
    ghost link: { N → ChanId → Link };

    // How often a call on a link or a listener has failed.
    ghost faults: { N → ChanId → ℕ };

    // What a channel was asked to be, and what stands there.
    ghost place: { N → ChanId → Place };

    // The channels of the links that were accepted, in the order in which their accepts answered true.
    ghost accepted: { N → List ChanId };

    /// For which operations this channel is to be watched: those for which calls on it are permitted, now or later in
    /// this round. A channel is watched for no others.
    fn permits(&self, chan: ChanId) -> Ops;

    /// Takes out one of the channels for which a call was permitted since the last round began; None where none is
    /// left.
    fn permitted(&mut self) -> Option<ChanId>;

    /// Begins a round of the proxy: reports what came of the calls of the last round, and learns which calls are
    /// permitted. It waits for nobody that handles a report.
    fn begin_round<R: Wait>(&mut self, rt: &R);

    /// `Net::listen`. It isn't held back.
    fn listen(&mut self, net: &mut N, chan: ChanId, at: Addr) -> Result<(), Failed>
        requires { IsFree (place net.old) chan }
        ensures { Listens chan at (view_of Self.Way net.old) (view_of Self.Way net.new) result };

    /// `Net::accept`, or None where it is held back.
    fn accept(
        &mut self,
        net: &mut N,
        listener: ChanId,
        chan: ChanId,
    ) -> Option<Result<bool, Failed>>
        requires { MayAccept listener chan (view_of Self.Way net.old) }
        ensures { MatchOption result (view_of Self.Way net.new ≡ view_of Self.Way net.old)
            (Accepts listener chan (view_of Self.Way net.old) (view_of Self.Way net.new)) };

    /// `Net::connect`, or None where it is held back.
    fn connect(&mut self, net: &mut N, chan: ChanId, to: Addr) -> Option<Result<bool, Failed>>
        requires { IsFree (place net.old) chan }
        ensures { MatchOption result (view_of Self.Way net.new ≡ view_of Self.Way net.old)
            (Connects chan to (view_of Self.Way net.old) (view_of Self.Way net.new)) };

    /// `Net::finish_connect`, or None where it is held back.
    fn finish_connect(&mut self, net: &mut N, chan: ChanId) -> Option<Result<bool, Failed>>
        requires { MayFinish chan (view_of Self.Way net.old) }
        ensures { MatchOption result (view_of Self.Way net.new ≡ view_of Self.Way net.old)
            (Finishes chan (view_of Self.Way net.old) (view_of Self.Way net.new)) };

    /// `Net::read`, or None where it is held back: then the buffer may have changed, but holds nothing that was read.
    fn read(&mut self, net: &mut N, chan: ChanId, into: &mut [u8]) -> Option<Result<Got, Failed>>
        requires some { into.old ≢ [] }
        requires may { MayRead chan (view_of Self.Way net.old) }
        ensures { MatchOption result (view_of Self.Way net.new ≡ view_of Self.Way net.old)
            (Reads chan (view_of Self.Way net.old) (view_of Self.Way net.new) into.old into.new) };

    /// `Net::write`, or None where it is held back.
    fn write(&mut self, net: &mut N, chan: ChanId, from: &[u8]) -> Option<Result<Put, Failed>>
        requires some { from.now ≢ [] }
        requires may { MayWrite chan (view_of Self.Way net.old) }
        ensures { MatchOption result (view_of Self.Way net.new ≡ view_of Self.Way net.old)
            (Writes chan (view_of Self.Way net.old) (view_of Self.Way net.new) from.now) };

    /// `Net::shut_write`. It isn't held back.
    fn shut_write(&mut self, net: &mut N, chan: ChanId) -> Result<(), Failed>
        requires { (place net.old chan).standing ≡ standing.Linked }
        ensures { Shuts chan (view_of Self.Way net.old) (view_of Self.Way net.new) result };

    /// `Net::close`. It isn't held back.
    fn close(&mut self, net: &mut N, chan: ChanId)
        ensures { Closes chan (view_of Self.Way net.old) (view_of Self.Way net.new) };

    // Polls carry no bytes, count no faults of links, leave what stands, and accept nothing.
    ghost kept_links: { (x y : N) → Self.kept x y → (c : ChanId) → link y c ≡ link x c };

    ghost kept_faults: { (x y : N) → Self.kept x y → (c : ChanId) → faults y c ≡ faults x c };

    ghost kept_places: { (x y : N) → Self.kept x y → (c : ChanId) → place y c ≡ place x c };

    ghost kept_accepted: { (x y : N) → Self.kept x y → accepted y ≡ accepted x };
}

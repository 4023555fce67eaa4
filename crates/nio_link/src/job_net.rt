//! A net whose links are made, read and written for pending operations of a group alone.
ghost use Rattle.std.specs.Prelude.{◌≡◌, ◌≢◌, []};
ghost use Rattle.nio_base.specs.declared.group.OpKind.TheVariants as op;
ghost use Rattle.nio_link.specs.Jobs.{of_net};
ghost use Rattle.nio_link.specs.Nets.{view_of, MayAccept, MayFinish, MayRead, MayWrite, Listens, Accepts, Connects};
ghost use Rattle.nio_link.specs.Nets.{Finishes, Reads, Writes, Shuts, Closes};
ghost use Rattle.nio_link.specs.Places.{IsFree};
ghost use Rattle.nio_link.specs.declared.place.Standing.TheVariants as standing;

use crate::net::{Failed, Got, Net, Put};
use nio_base::{Addr, ChanId, GChan};
use nio_group::Job;
use nio_history::Mode;
use nio_poller::{PollError, Poller};
use nio_select::{Asked, Told};
use std::alloc::Global;
use std::marker::Model;
use std::sync::Wait;

/// The channel of a group whose operations are done on this channel of a net: the one of its number and its serial.
pub fn of_net(chan: ChanId) -> GChan
    ensures { result ≡ of_net chan }
{
    GChan {
        number: chan.number.0,
        serial: chan.serial,
    }
}

/// A net with which a caller does the work of a group's operations. Each call that accepts, connects, reads or writes
/// uses up a job, which only the group hands out: one of the call's kind, for the channel of the group that has the
/// number and the serial of the net's. So the job of a channel that was closed is for none of a later channel's links.
/// Contracts see the net.
#[derive(Drop)]
pub struct JobNet<N> {
    net: N,
}

impl<N> Model for JobNet<N> {
    ghost Value = { N };

    ghost view = { λ j. j.net };
}

impl<N> JobNet<N> {
    /// A net whose calls use up jobs, over this one.
    pub fn over(net: N) -> JobNet<N>
        ensures { result ≡ net }
    {
        JobNet { net }
    }

    /// The net that its calls reach.
    pub fn into_net(self) -> N
        ensures { result ≡ self }
    {
        self.net
    }
}

impl<N: Net> JobNet<N> {
    /// `Net::listen`.
    pub fn listen(&mut self, chan: ChanId, at: Addr) -> Result<(), Failed>
        requires { IsFree (N.place self.old) chan }
        ensures { Listens chan at (view_of N.Net self.old) (view_of N.Net self.new) result }
    {
        self.net.listen(chan, at)
    }

    /// `Net::accept`, for the listener's pending operation.
    pub fn try_accept(&mut self, job: Job, listener: ChanId, chan: ChanId) -> Result<bool, Failed>
        requires kind { job.kind ≡ op.Accept }
        requires its { job.chan ≡ of_net listener }
        requires may { MayAccept listener chan (view_of N.Net self.old) }
        ensures { Accepts listener chan (view_of N.Net self.old) (view_of N.Net self.new) result }
    {
        drop(job);
        self.net.accept(listener, chan)
    }

    /// `Net::connect`, for a pending operation.
    pub fn try_connect(&mut self, job: Job, chan: ChanId, to: Addr) -> Result<bool, Failed>
        requires kind { job.kind ≡ op.Connect }
        requires its { job.chan ≡ of_net chan }
        requires free { IsFree (N.place self.old) chan }
        ensures { Connects chan to (view_of N.Net self.old) (view_of N.Net self.new) result }
    {
        drop(job);
        self.net.connect(chan, to)
    }

    /// `Net::finish_connect`, for a pending operation that connects.
    pub fn try_finish(&mut self, job: Job, chan: ChanId) -> Result<bool, Failed>
        requires kind { job.kind ≡ op.Connect }
        requires its { job.chan ≡ of_net chan }
        requires may { MayFinish chan (view_of N.Net self.old) }
        ensures { Finishes chan (view_of N.Net self.old) (view_of N.Net self.new) result }
    {
        drop(job);
        self.net.finish_connect(chan)
    }

    /// `Net::read`, for a pending operation. How many bytes that operation reads at most is the caller's matter: the
    /// buffer may be longer.
    pub fn try_read(&mut self, job: Job, chan: ChanId, into: &mut [u8]) -> Result<Got, Failed>
        requires kind { job.kind ≡ op.Read }
        requires its { job.chan ≡ of_net chan }
        requires some { into.old ≢ [] }
        requires may { MayRead chan (view_of N.Net self.old) }
        ensures { Reads chan (view_of N.Net self.old) (view_of N.Net self.new) into.old into.new result }
    {
        drop(job);
        self.net.read(chan, into)
    }

    /// `Net::write`, for a pending operation. How many bytes that operation writes at most is the caller's matter.
    pub fn try_write(&mut self, job: Job, chan: ChanId, from: &[u8]) -> Result<Put, Failed>
        requires kind { job.kind ≡ op.Write }
        requires its { job.chan ≡ of_net chan }
        requires some { from.now ≢ [] }
        requires may { MayWrite chan (view_of N.Net self.old) }
        ensures { Writes chan (view_of N.Net self.old) (view_of N.Net self.new) from.now result }
    {
        drop(job);
        self.net.write(chan, from)
    }

    /// `Net::shut_write`.
    pub fn shut_write(&mut self, chan: ChanId) -> Result<(), Failed>
        requires { (N.place self.old chan).standing ≡ standing.Linked }
        ensures { Shuts chan (view_of N.Net self.old) (view_of N.Net self.new) result }
    {
        self.net.shut_write(chan)
    }

    /// `Net::close`.
    pub fn close(&mut self, chan: ChanId)
        ensures { Closes chan (view_of N.Net self.old) (view_of N.Net self.new) }
    {
        self.net.close(chan);
    }
}

impl<N: Net> Poller for JobNet<N> {
    ghost poll_faults = { N.poll_faults };

    ghost ready = { N.ready };

    ghost polls = { N.polls };

    ghost kept = { N.kept };

    fn poll<R: Wait>(
        &mut self,
        rt: &R,
        alloc: Global,
        asked: &Asked,
        mode: Mode,
    ) -> Result<Told, PollError> {
        self.net.poll(rt, alloc, asked, mode)
    }

    ghost kept_same = { N.kept_same };

    ghost kept_on = { N.kept_on };
}

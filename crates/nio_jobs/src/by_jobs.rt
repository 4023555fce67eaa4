//! The way that makes each call on the net for a job.
ghost use Rattle.std.specs.Prelude.{◌≡◌, ◌+◌, ◌<◌, ◌≤◌, [], ◌∷◌, ◌++◌, IfOk, IfSome, max, min, vec_capacity};
ghost use Rattle.std.specs.Prelude.{vec_len};
ghost use Rattle.nio_link.specs.Jobs.{of_net};
ghost use Rattle.nio_jobs.specs.Reports.{done_of_made, done_of_read, done_of_written};

use crate::exchange::{Done, Exchange};
use crate::jobs::{Jobs, net_channel};
use nio_base::{Addr, ChanId, OpKind, OpNo, Ops, Outcome};
use nio_board::Polls;
use nio_group::Job;
use nio_history::Mode;
use nio_link::{Failed, Got, JobNet, Net, Put};
use nio_poller::{PollError, Poller};
use nio_select::{Asked, Told};
use nio_serve::Way;
use std::alloc::{AllocError, Global};
use std::sync::Wait;

/// Makes each call that accepts, connects, reads or writes for a job of its kind and channel, and uses that up. While
/// there is none, such a call is held back. What calls came to is reported to those who hand
/// out the jobs: all at once as the next round begins, or, if they take it then, where a call lacks its job.
#[derive(Drop)]
pub struct ByJobs<E> {
    exchange: E,
    jobs: Jobs,
    // what calls came to, as far as it wasn't reported yet
    done: Vec<Done>,
    // jobs that were handed out, and for which no call is permitted yet
    arrived: Vec<Job>,
    // jobs that were just handed out; empty between calls
    fresh: Vec<Job>,
    // the link from which the last read of this round took all that had come
    emptied: Option<ChanId>,
}

impl<E: Drop> ByJobs<E> {
    ghost use Rattle.nio_jobs.specs.ByJobs.{IsNew, exchange_of};

    /// With no job yet, and with room for this many channels, and for the jobs of this many operations.
    pub fn make(
        alloc: Global,
        exchange: E,
        channels: u32,
        flight: u32,
    ) -> Result<ByJobs<E>, AllocError>
        requires few { channels + flight ≤ 131072 }
        ensures { IfOk result (IsNew exchange channels flight) }
    {
        Ok(ByJobs {
            exchange,
            jobs: Jobs::make(alloc, channels)?,
            done: Vec::with_capacity(alloc, (channels + flight) as usize)?,
            arrived: Vec::with_capacity(alloc, flight as usize)?,
            fresh: Vec::with_capacity(alloc, flight as usize)?,
            emptied: None,
        })
    }

    /// With whom jobs were exchanged.
    pub fn into_exchange(self) -> E
        ensures { result ≡ exchange_of self }
    {
        self.exchange
    }

    // Notes what a call came to. `take` gives no job while the list is full, so only `close` can find it full; that
    // closing isn't reported.
    fn note(&mut self, done: Done)
        ensures noted { vec_len self.old.done < vec_capacity self.old.done
            → self.new.done.items ≡ self.old.done.items ++ done ∷ [] }
        ensures full { vec_len self.old.done ≡ vec_capacity self.old.done → self.new ≡ self.old }
    {
        if self.done.len() < self.done.capacity() {
            self.done.push_reserved(done);
        }
    }
}

impl<E: Exchange + Drop> ByJobs<E> {
    // The job of this kind for this channel, if there is one, and if there is room to note what its call comes to.
    // Where there is none, it may be handed out for what is reported now.
    fn take(&mut self, chan: ChanId, kind: OpKind) -> Option<Job>
        ensures kind { IfSome result (λ job. job.kind ≡ kind) }
        ensures its { IfSome result (λ job. job.chan ≡ of_net chan) }
    {
        if self.done.len() == self.done.capacity() {
            return None;
        }
        if let Some(job) = self.jobs.take(chan, kind) {
            return Some(job);
        }
        self.report_early(chan, kind);
        self.jobs.take(chan, kind)
    }

    // Reports what calls came to within a round, where that is taken: a job of this kind for this channel is wanted.
    fn report_early(&mut self, chan: ChanId, kind: OpKind) {
        if self.done.is_empty() {
            return;
        }
        self.exchange
            .exchange_early(&mut self.done, &mut self.fresh);
        self.take_in_all(Some((chan, kind)));
    }

    // Takes in the jobs that were just handed out; one of this kind for this channel is wanted now.
    fn take_in_all(&mut self, wanted: Option<(ChanId, OpKind)>) {
        for _ in 0..self.fresh.len() {
            if let Some(job) = self.fresh.pop() {
                let is_wanted = wanted == Some((net_channel(job.chan()), job.kind()));
                self.take_in(job, is_wanted);
            }
        }
    }

    // Takes in a job that was just handed out. The proxy may use it at once if it wants that now, or if it watches for
    // that anyway (`permits`). Else the next round says that it came.
    fn take_in(&mut self, job: Job, is_wanted: bool) {
        let is_watched = self.exchange.is_prompt() && self.jobs.had_like(&job);
        if is_wanted || is_watched {
            self.jobs.put(job);
        } else {
            // there is room for the jobs of all operations that can be in flight
            let _ = self.arrived.push(job);
        }
    }
}

// What is to be reported of a call that makes a link, and that has this outcome where the link is made.
fn done_of_made(
    op: OpNo,
    chan: ChanId,
    kind: OpKind,
    outcome: Outcome,
    made: Result<bool, Failed>,
) -> Done
    ensures { result ≡ done_of_made op chan kind outcome made }
{
    match made {
        Ok(true) => Done::Outcome(op, outcome),
        Ok(false) => Done::Again(chan, kind),
        Err(Failed) => Done::Outcome(op, Outcome::Fault),
    }
}

fn done_of_read(op: OpNo, chan: ChanId, got: Result<Got, Failed>) -> Done
    ensures { result ≡ done_of_read op chan got }
{
    match got {
        Ok(Got::Bytes(count)) => Done::Outcome(op, Outcome::Count(count as u64)),
        Ok(Got::End) => Done::Outcome(op, Outcome::End),
        Ok(Got::NotYet) => Done::Again(chan, OpKind::Read),
        Err(Failed) => Done::Outcome(op, Outcome::Fault),
    }
}

fn done_of_written(op: OpNo, chan: ChanId, put: Result<Put, Failed>) -> Done
    ensures { result ≡ done_of_written op chan put }
{
    match put {
        Ok(Put::Bytes(count)) => Done::Outcome(op, Outcome::Count(count as u64)),
        Ok(Put::NotYet) => Done::Again(chan, OpKind::Write),
        Err(Failed) => Done::Outcome(op, Outcome::Fault),
    }
}

// Whether a read that had room for `len` bytes took all that had come.
fn has_emptied(got: Result<Got, Failed>, len: usize) -> bool {
    match got {
        Ok(Got::Bytes(count)) => count < len,
        Ok(Got::End | Got::NotYet) | Err(Failed) => false,
    }
}

fn tells_nothing(told: &Result<Told, PollError>) -> bool {
    match told {
        Ok(told) => told.pairs.is_empty(),
        Err(_) => false,
    }
}

// How many of `len` bytes a job is for; at least one.
fn part(job: &Job, len: usize) -> usize
    requires { 1 ≤ len }
    ensures exact { result ≡ max 1 (min job.now.len len) }
    ensures some { 1 ≤ result }
    ensures within { result ≤ len }
{
    if job.len() < len as u64 {
        (job.len() as usize).max(1)
    } else {
        len
    }
}

impl<N: Net, E: Exchange + Drop> Polls<JobNet<N>> for ByJobs<E> {
    ghost poll_faults = { N.poll_faults };

    ghost ready = { N.ready };

    ghost polls = { N.polls };

    ghost kept = { N.kept };

    fn poll<R: Wait>(
        &mut self,
        net: &mut JobNet<N>,
        rt: &R,
        alloc: Global,
        asked: &Asked,
        mode: Mode,
    ) -> Result<Told, PollError> {
        // what calls came to isn't left unreported while a poll waits
        if !self.done.is_empty() || !self.exchange.may_wait() {
            return net.poll(rt, alloc, asked, Mode::Now);
        }
        let told = net.poll(rt, alloc, asked, mode);
        self.exchange.has_waited(tells_nothing(&told));
        told
    }

    ghost kept_same = { N.kept_same };
}

impl<N: Net, E: Exchange + Drop> Way<JobNet<N>> for ByJobs<E> {
    ghost link = { N.link };

    ghost faults = { N.faults };

    ghost place = { N.place };

    ghost accepted = { N.accepted };

    // A channel is watched for what there is a job for. Where jobs come as soon as what calls came to is reported, it is
    // watched for what there has been one for: from the first one on there is one whenever the proxy wants it, or there
    // will be then.
    fn permits(&self, chan: ChanId) -> Ops {
        if self.exchange.is_prompt() {
            self.jobs.had(chan)
        } else {
            self.jobs.present(chan)
        }
    }

    fn permitted(&mut self) -> Option<ChanId> {
        let job = self.arrived.pop()?;
        let chan = net_channel(job.chan());
        self.jobs.put(job);
        Some(chan)
    }

    fn begin_round<R: Wait>(&mut self, rt: &R) {
        self.exchange.exchange(rt, &mut self.done, &mut self.fresh);
        self.take_in_all(None);
        self.emptied = None;
    }

    fn listen(&mut self, net: &mut JobNet<N>, chan: ChanId, at: Addr) -> Result<(), Failed> {
        net.listen(chan, at)
    }

    fn accept(
        &mut self,
        net: &mut JobNet<N>,
        listener: ChanId,
        chan: ChanId,
    ) -> Option<Result<bool, Failed>> {
        let job = self.take(listener, OpKind::Accept)?;
        let op = job.op();
        let accepted = net.try_accept(job, listener, chan);
        let done = done_of_made(op, listener, OpKind::Accept, Outcome::Accepted, accepted);
        self.note(done);
        Some(accepted)
    }

    fn connect(
        &mut self,
        net: &mut JobNet<N>,
        chan: ChanId,
        to: Addr,
    ) -> Option<Result<bool, Failed>> {
        let job = self.take(chan, OpKind::Connect)?;
        let op = job.op();
        let made = net.try_connect(job, chan, to);
        let done = done_of_made(op, chan, OpKind::Connect, Outcome::Connected, made);
        self.note(done);
        Some(made)
    }

    fn finish_connect(
        &mut self,
        net: &mut JobNet<N>,
        chan: ChanId,
    ) -> Option<Result<bool, Failed>> {
        let job = self.take(chan, OpKind::Connect)?;
        let op = job.op();
        let made = net.try_finish(job, chan);
        let done = done_of_made(op, chan, OpKind::Connect, Outcome::Connected, made);
        self.note(done);
        Some(made)
    }

    fn read(
        &mut self,
        net: &mut JobNet<N>,
        chan: ChanId,
        into: &mut [u8],
    ) -> Option<Result<Got, Failed>> {
        if self.emptied == Some(chan) {
            return None;
        }
        let job = self.take(chan, OpKind::Read)?;
        let op = job.op();
        let len = part(&job, into.len());
        let got = net.try_read(job, chan, &mut into[..len]);
        self.note(done_of_read(op, chan, got));
        if has_emptied(got, len) {
            self.emptied = Some(chan);
        }
        Some(got)
    }

    fn write(
        &mut self,
        net: &mut JobNet<N>,
        chan: ChanId,
        from: &[u8],
    ) -> Option<Result<Put, Failed>> {
        let job = self.take(chan, OpKind::Write)?;
        let op = job.op();
        let len = part(&job, from.len());
        let put = net.try_write(job, chan, &from[..len]);
        self.note(done_of_written(op, chan, put));
        Some(put)
    }

    fn shut_write(&mut self, net: &mut JobNet<N>, chan: ChanId) -> Result<(), Failed> {
        net.shut_write(chan)
    }

    fn close(&mut self, net: &mut JobNet<N>, chan: ChanId) {
        net.close(chan);
        self.note(Done::Closed(chan));
    }

    ghost kept_links = { N.kept_links };

    ghost kept_faults = { N.kept_faults };

    ghost kept_places = { N.kept_places };

    ghost kept_accepted = { N.kept_accepted };
}

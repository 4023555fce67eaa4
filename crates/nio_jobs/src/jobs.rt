//! Jobs by channel and kind.
ghost use Rattle.std.specs.Prelude.{◌≡◌, if◌then◌else◌, IfOk, IfSome, None, replicate};
ghost use Rattle.nio_base.specs.Ops.{is_within};
ghost use Rattle.nio_link.specs.Jobs.{of_net};
ghost use Rattle.nio_jobs.specs.Jobs.{job_in, jobs_of, jobs_with, jobs_without, keeping, net_channel, of_serial};
ghost use Rattle.nio_jobs.specs.Jobs.{present_in, set_of, taking, with_job, with_job_in};

use nio_base::{ChanId, ChanNo, GChan, OpKind, Ops};
use nio_group::Job;
use std::alloc::{AllocError, Global};
use std::marker::Model;

/// The jobs of the channel of one number and this serial, one of a kind at most, and for which operations there has
/// been one.
#[derive(Drop)]
struct OfChannel {
    serial: u32,
    accept: Option<Job>,
    connect: Option<Job>,
    read: Option<Job>,
    write: Option<Job>,
    had: Ops,
}

/// The net's channel with the number and the serial of the group's.
pub(crate) fn net_channel(chan: GChan) -> ChanId
    ensures { result ≡ net_channel chan }
{
    ChanId {
        number: ChanNo(chan.number),
        serial: chan.serial,
    }
}

// The operation of this kind, as a set.
fn operation(kind: OpKind) -> Ops
    ensures { result ≡ set_of kind }
{
    match kind {
        OpKind::Accept => Ops::ACCEPT,
        OpKind::Connect => Ops::CONNECT,
        OpKind::Read => Ops::READ,
        OpKind::Write => Ops::WRITE,
    }
}

// The operation of this kind where `is_there`, and else none.
fn set_if(kind: OpKind, is_there: bool) -> Ops
    ensures { result ≡ (if is_there then set_of kind else 0) }
{
    if is_there { operation(kind) } else { Ops::NONE }
}

impl OfChannel {
    ghost use Rattle.nio_jobs.specs.Jobs.{no_jobs};

    fn none(serial: u32) -> OfChannel
        ensures { result ≡ no_jobs serial }
    {
        OfChannel {
            serial,
            accept: None,
            connect: None,
            read: None,
            write: None,
            had: Ops::NONE,
        }
    }

    // Keeps a job, in the place of an earlier one of its kind.
    fn put(&mut self, job: Job)
        ensures { self.new ≡ with_job self.old job }
    {
        let kind = job.kind();
        self.had = self.had.union(operation(kind));
        match kind {
            OpKind::Accept => self.accept = Some(job),
            OpKind::Connect => self.connect = Some(job),
            OpKind::Read => self.read = Some(job),
            OpKind::Write => self.write = Some(job),
        }
    }

    // For which operations there is a job.
    fn present(&self) -> Ops
        ensures { result ≡ present_in self.now }
    {
        set_if(OpKind::Accept, self.accept.is_some())
            .union(set_if(OpKind::Connect, self.connect.is_some()))
            .union(set_if(OpKind::Read, self.read.is_some()))
            .union(set_if(OpKind::Write, self.write.is_some()))
    }

    fn take(&mut self, kind: OpKind) -> Option<Job>
        ensures job { result ≡ job_in self.old kind }
        ensures rest { self.new ≡ with_job_in self.old kind None }
    {
        match kind {
            OpKind::Accept => self.accept.take(),
            OpKind::Connect => self.connect.take(),
            OpKind::Read => self.read.take(),
            OpKind::Write => self.write.take(),
        }
    }

    // Keeps a job with those of its channel. One of a later channel of the number takes the place of them all; one of an
    // earlier channel is dropped, since that is closed.
    fn keep(&mut self, job: Job)
        ensures { self.new ≡ keeping self.old job }
    {
        let serial = job.chan().serial;
        if serial < self.serial {
            return;
        }
        if serial != self.serial {
            *self = OfChannel::none(serial);
        }
        self.put(job);
    }

    // Takes out the job of this kind for the channel of this serial, if there is one.
    fn take_of(&mut self, serial: u32, kind: OpKind) -> Option<Job>
        ensures job { result ≡ job_in (of_serial self.old serial) kind }
        ensures rest { self.new ≡ taking self.old serial kind }
    {
        if serial == self.serial {
            self.take(kind)
        } else {
            None
        }
    }
}

/// The jobs that were handed out and not yet used up, each at its kind and its channel's number. Of each number those of
/// one channel are kept, the last one for which a job came.
#[derive(Drop)]
pub(crate) struct Jobs {
    channels: Vec<OfChannel>,
}

impl Model for Jobs {
    ghost use Rattle.std.specs.Prelude.{List};
    ghost use Rattle.nio_jobs.specs.Jobs.{AreInPlace};
    ghost use Rattle.nio_jobs.specs.declared.jobs.OfChannel.{OfChannel};

    ghost Value = { List OfChannel };

    ghost view = { λ jobs. jobs.channels.items };

    ghost invariant = { λ jobs. AreInPlace jobs.channels.items };
}

impl Jobs {
    ghost use Rattle.nio_jobs.specs.Jobs.{no_jobs};

    /// None yet, with room for those of so many numbers.
    #[tactic(auto, using(crate::proofs::JobLemmas::none_in_place))]
    pub(crate) fn make(alloc: Global, channels: u32) -> Result<Jobs, AllocError>
        ensures { IfOk result (λ jobs. jobs ≡ replicate channels (no_jobs 0)) }
    {
        let mut all = Vec::with_capacity(alloc, channels as usize)?;
        for _ in 0..channels {
            all.push(OfChannel::none(0))?;
        }
        Ok(Jobs { channels: all })
    }

    /// Keeps a job, in the place of an earlier one of its channel and kind. One of a number for which there is no room
    /// is dropped, and one of a channel before the number's last.
    pub(crate) fn put(&mut self, job: Job)
        ensures { self.new ≡ jobs_with self.old job }
    {
        let Some(channel) = self.channels.get_mut(job.chan().number as usize) else {
            return;
        };
        channel.keep(job);
    }

    /// Takes out the job of this kind for this channel, if there is one.
    pub(crate) fn take(&mut self, chan: ChanId, kind: OpKind) -> Option<Job>
        ensures job { result ≡ job_in (jobs_of self.old chan) kind }
        ensures rest { self.new ≡ jobs_without self.old chan kind }
        ensures kind { IfSome result (λ job. job.kind ≡ kind) }
        ensures its { IfSome result (λ job. job.chan ≡ of_net chan) }
    {
        self.channels
            .get_mut(chan.number.0 as usize)?
            .take_of(chan.serial, kind)
    }

    /// For which operations there has been a job for this channel.
    pub(crate) fn had(&self, chan: ChanId) -> Ops
        ensures { result ≡ (jobs_of self.now chan).had }
    {
        match self.channels.get(chan.number.0 as usize) {
            Some(channel) if channel.serial == chan.serial => channel.had,
            Some(_) | None => Ops::NONE,
        }
    }

    /// For which operations there is a job for this channel.
    pub(crate) fn present(&self, chan: ChanId) -> Ops
        ensures { result ≡ present_in (jobs_of self.now chan) }
    {
        match self.channels.get(chan.number.0 as usize) {
            Some(channel) if channel.serial == chan.serial => channel.present(),
            Some(_) | None => Ops::NONE,
        }
    }

    /// Whether there has been a job of the same kind for the same channel.
    pub(crate) fn had_like(&self, job: &Job) -> bool
        ensures { result ≡ is_within (set_of job.now.kind) (jobs_of self.now (net_channel job.now.chan)).had }
    {
        operation(job.kind()).within(self.had(net_channel(job.chan())))
    }
}

//! What a group hands out: jobs, which name pending operations, and completions, each of which it
//! hands out once. Only the group makes them, and neither can be copied.
ghost use Rattle.std.specs.Prelude.{◌≡◌};

use nio_base::{Finished, GChan, OpKind, OpNo};
use std::marker::Model;

/// A pending operation, for the caller who does its work.
#[derive(Debug, Drop)]
pub struct Job {
    op: OpNo,
    chan: GChan,
    kind: OpKind,
    len: u64,
}

impl Model for Job {
    ghost use Rattle.nio_group.specs.Completion.{JobFields};

    ghost Value = { JobFields };

    ghost view = { λ job. record { op = job.op; chan = job.chan; kind = job.kind; len = job.len } };
}

impl Job {
    pub(crate) fn make(op: OpNo, chan: GChan, kind: OpKind, len: u64) -> Job
        ensures { result ≡ record { op = op; chan = chan; kind = kind; len = len } }
    {
        Job {
            op,
            chan,
            kind,
            len,
        }
    }

    /// The number of the operation.
    pub fn op(&self) -> OpNo
        ensures { result ≡ self.now.op }
    {
        self.op
    }

    /// The channel that the operation is on.
    pub fn chan(&self) -> GChan
        ensures { result ≡ self.now.chan }
    {
        self.chan
    }

    /// What the operation does.
    pub fn kind(&self) -> OpKind
        ensures { result ≡ self.now.kind }
    {
        self.kind
    }

    /// How many bytes the operation reads or writes at most.
    pub fn len(&self) -> u64
        ensures { result ≡ self.now.len }
    {
        self.len
    }
}

/// An operation that has completed, for its handler.
#[derive(Debug, Drop)]
pub struct Completion {
    op: OpNo,
    chan: GChan,
    kind: OpKind,
    result: Finished,
}

impl Model for Completion {
    ghost use Rattle.nio_group.specs.Completion.{CompletionFields};

    ghost Value = { CompletionFields };

    ghost view = { λ done. record { op = done.op; chan = done.chan; kind = done.kind; finished = done.result } };
}

impl Completion {
    pub(crate) fn make(op: OpNo, chan: GChan, kind: OpKind, finished: Finished) -> Completion
        ensures { result ≡ record { op = op; chan = chan; kind = kind; finished = finished } }
    {
        Completion {
            op,
            chan,
            kind,
            result: finished,
        }
    }

    /// The number of the operation.
    pub fn op(&self) -> OpNo
        ensures { result ≡ self.now.op }
    {
        self.op
    }

    /// The channel that the operation is on.
    pub fn chan(&self) -> GChan
        ensures { result ≡ self.now.chan }
    {
        self.chan
    }

    /// What the operation does.
    pub fn kind(&self) -> OpKind
        ensures { result ≡ self.now.kind }
    {
        self.kind
    }

    /// What came of the operation.
    pub fn result(&self) -> Finished
        ensures { result ≡ self.now.finished }
    {
        self.result
    }
}

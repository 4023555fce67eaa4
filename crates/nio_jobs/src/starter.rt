//! What starts operations, and hands out their jobs.
ghost use Rattle.std.specs.Prelude.{◌≡◌, ◌<◌, ℕ, IfSome, IsNone, IsTrue, OnErr};
ghost use Rattle.nio_group.specs.Flight.{IsPendingAs};
ghost use Rattle.nio_group.specs.Group.{is_made, is_present, IsMade};
ghost use Rattle.nio_group.specs.Run as run;
ghost use Rattle.nio_group.specs.Steps.{answer_to_open, IsJobOf};

use nio_base::{GChan, GKind, OpKind, OpNo, Outcome};
use nio_group::{GroupCore, Job, StartError};

/// What starts operations, and hands out their jobs: a group, or a desk with the tickets that are out.
pub trait Starter {
    ghost use Rattle.nio_group.specs.Group.{Group};
    ghost use Rattle.nio_group.specs.Run.{Call};

    // The group whose operations they are.
    ghost group: { Self → Group };

    // What this call of the group leaves.
    ghost after: { Self → Call → Self };

    /// Whether a channel of this name was made, be it closed by now or not.
    fn is_made(&self, chan: GChan) -> bool
        ensures answer { result ≡ is_made (group self.now) chan }
        ensures few { IsTrue result → chan.number < 65536 };

    /// Opens a channel.
    fn open_channel(&mut self, kind: GKind) -> Result<GChan, StartError>
        ensures answer { result ≡ answer_to_open (group self.old) kind }
        ensures after { self.new ≡ after self.old (run.open_channel kind) }
        ensures refused { OnErr result (self.new ≡ self.old) };

    /// Binds a listener, if that isn't refused.
    fn bind(&mut self, chan: GChan)
        requires { IsMade (group self.old) chan }
        ensures { self.new ≡ after self.old (run.bind chan) };

    /// Starts an operation, if that isn't refused, and hands out its job. There is none where the channel was closed: then
    /// the operation fails at once.
    fn start(&mut self, chan: GChan, kind: OpKind, len: u64) -> Option<Job>
        requires { IsMade (group self.old) chan }
        ensures after { self.new ≡ after self.old (run.start chan kind len) }
        ensures job { IfSome result (IsJobOf (group self.new) chan kind) };

    /// The job of the pending operation of this kind on this channel, if there is one.
    fn job(&self, chan: GChan, kind: OpKind) -> Option<Job>
        ensures some { IfSome result (IsJobOf (group self.now) chan kind) }
        ensures none { IsNone result → IsMade (group self.now) chan → IsTrue (is_present (group self.now) chan)
            → (n : ℕ) → IsPendingAs (group self.now).flight chan.number kind n → ⊥ };

    /// Reports what came of an operation. That is refused where it isn't pending, as where its channel was closed.
    fn report(&mut self, op: OpNo, outcome: Outcome)
        ensures { self.new ≡ after self.old (run.report op outcome) };

    /// Closes a channel.
    fn close_channel(&mut self, chan: GChan)
        requires { IsMade (group self.old) chan }
        ensures { self.new ≡ after self.old (run.close_channel chan) };
}

impl Starter for GroupCore {
    ghost use Rattle.nio_jobs.specs.Starters.{of_group};

    ghost group = { of_group.group };

    ghost after = { of_group.after };

    fn is_made(&self, chan: GChan) -> bool {
        self.is_made(chan)
    }

    fn open_channel(&mut self, kind: GKind) -> Result<GChan, StartError> {
        self.open_channel(kind)
    }

    fn bind(&mut self, chan: GChan) {
        let _ = self.bind(chan);
    }

    fn start(&mut self, chan: GChan, kind: OpKind, len: u64) -> Option<Job> {
        self.start(chan, kind, len).ok()?;
        job_in(self, chan, kind)
    }

    fn job(&self, chan: GChan, kind: OpKind) -> Option<Job> {
        job_in(self, chan, kind)
    }

    fn report(&mut self, op: OpNo, outcome: Outcome) {
        let _ = self.report(op, outcome);
    }

    fn close_channel(&mut self, chan: GChan) {
        self.close_channel(chan);
    }
}

fn job_in(core: &GroupCore, chan: GChan, kind: OpKind) -> Option<Job>
    ensures some { IfSome result (IsJobOf core.now chan kind) }
    ensures none { IsNone result → IsMade core.now chan → IsTrue (is_present core.now chan)
        → (n : ℕ) → IsPendingAs core.now.flight chan.number kind n → ⊥ }
{
    if core.is_made(chan) {
        core.job(chan, kind)
    } else {
        None
    }
}

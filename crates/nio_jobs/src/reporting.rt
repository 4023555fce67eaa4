//! Reporting what the calls on the net came to.
ghost use mathlib.Core.List.{IsPrefix};
ghost use Rattle.std.specs.Prelude.{◌≡◌};
ghost use Rattle.nio_jobs.specs.Handling.{after_done, after_round};

use crate::exchange::Done;
use crate::starter::Starter;
use nio_group::Job;
use nio_link::of_net;

/// Reports what calls came to, and takes the next job of each operation that is still pending.
pub fn report_all<S: Starter>(at: &mut S, done: &[Done], arrived: &mut Vec<Job>)
    ensures after { at.new ≡ after_round S.Starter at.old done.now }
    ensures kept { IsPrefix arrived.old.items arrived.new.items }
{
    for one in done {
        report(at, *one, arrived);
    }
}

fn report<S: Starter>(at: &mut S, done: Done, arrived: &mut Vec<Job>)
    ensures after { at.new ≡ after_done S.Starter at.old done }
    ensures kept { IsPrefix arrived.old.items arrived.new.items }
{
    match done {
        Done::Outcome(op, outcome) => at.report(op, outcome),
        Done::Again(chan, kind) => {
            if let Some(job) = at.job(of_net(chan), kind) {
                // there is room for the jobs of all operations that can be in flight
                let _ = arrived.push(job);
            }
        }
        Done::Closed(chan) => {
            let chan = of_net(chan);
            if at.is_made(chan) {
                at.close_channel(chan);
            }
        }
    }
}

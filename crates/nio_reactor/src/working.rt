//! The workers.
ghost use Rattle.std.specs.Prelude.{◌≡◌, ◌+◌, ◌<◌, ◌≤◌, false, All, length};
ghost use Rattle.std.specs.Fork.{AcceptsEach, ChangesEach};
ghost use Rattle.std.specs.Thread.{IsSend, IsSync};
ghost use Rattle.nio_link.specs.Nets.{view_of};
ghost use Rattle.nio_serve.specs.Serving.{IsFresh};
ghost use Rattle.nio_relay.specs.Plan.{IsServable};
ghost use Rattle.nio_reactor.specs.Dealing.{share, slots_of};
ghost use Rattle.nio_reactor.specs.Doors.{worker_at};
ghost use Rattle.nio_reactor.specs.Placing.{caller, deal_of};
ghost use Rattle.nio_reactor.specs.Receiving.{HasReceived, HaveReceived, is_early};
ghost use Rattle.nio_reactor.specs.Seats.{HaveSeats, IsNewcomer, LeaveSeats, LeavesSeat, channels_for};
ghost use Rattle.nio_reactor.specs.Working.{HasWorked, HaveWorked, clients_of};
ghost use Rattle.nio_reactor.specs.declared.door.Door.TheVariants.{Unasked};

use crate::by_line::ByLine;
use crate::door::address_of;
use crate::lane::Worker;
use crate::lines::Lines;
use crate::many::ManyError;
use crate::table::{leave_seat, share_for, take_seat};
use nio_base::Gate;
use nio_board::Deal;
use nio_link::Passable;
use nio_relay::{ProxyPlan, Served};
use nio_serve::{ServeError, serve_on};
use nio_words::Words;
use std::alloc::Global;
use std::sync::Wait;
use std::thread;
use std::thread::Threads;

/// How many connections, or slots, of so many are for this worker.
#[tactic(auto, using(crate::proofs::Shares::share_one_more, crate::proofs::Shares::share_even))]
pub(crate) fn share_of(workers: u32, worker: u32, count: u32) -> u32
    requires { worker < workers }
    ensures exact { result ≡ share workers worker count }
    ensures few { result ≤ count }
{
    let each = count / workers;
    if worker < count % workers {
        each + 1
    } else {
        each
    }
}

/// How many slots so many workers have together: as many as the plan can use, and no fewer than one each.
pub(crate) fn slots_for(workers: u32, plan: ProxyPlan) -> u32
    requires plan { IsServable plan }
    requires workers { workers ≤ 15 }
    ensures all { result ≡ slots_of workers plan }
    ensures few { result ≤ 16000 }
{
    plan.slots().max(workers)
}

// Serves the connections that come on the line, so many, at the worker's seat. The plan listens at the line's address.
fn work_share<R: Wait, H: Wait, N: Passable, K: Lines<N::Link>, G: Gate>(
    rt: &R,
    words: &Words,
    way: &mut ByLine<'_, H, G>,
    worker: &mut Worker<N, K>,
    plan: ProxyPlan,
    deal: Deal,
) -> Result<Served, ServeError>
    requires slots { (1 ≤ plan.at_once) × (plan.at_once ≤ 16000) }
    requires one { deal.worker < 16 }
    requires fresh { IsFresh (view_of N.Net worker.old.lane.net) }
    requires door { worker.old.lane.door ≡ Unasked }
    requires on_time { is_early worker.old.lane.heard ≡ false }
    requires newcomer { IsNewcomer words.now worker.old.pass (caller (deal.worker + 1)) }
    ensures worked { HasWorked N.Net plan.target plan.conns worker.old.lane.net worker.new.lane.net
        worker.new.lane.put (is_early worker.new.lane.heard) result }
    ensures received { HasReceived (worker_at plan.listen) plan.conns worker.new.lane.line worker.new.lane.worker
        worker.new.lane.put result }
    ensures leaves { LeavesSeat words.now (deal.worker + 1) deal (channels_for (clients_of worker.new.lane.put))
        worker.new.pass result }
{
    if plan.conns == 0 {
        return Ok(Served {
            connections: 0,
            faults: 0,
        });
    }
    let Worker { lane, pass } = worker;
    let Some(board) = take_seat(lane.alloc, words, pass, deal.worker + 1, deal) else {
        return Err(ServeError::Memory);
    };
    let (outcome, board) = serve_on(rt, lane.alloc, way, lane, board, plan);
    leave_seat(words, pass, board);
    outcome
}

// Is this worker, of so many: serves its share of the plan. Where it fails it lets the links go that still come.
fn work<R: Wait, N: Passable, K: Lines<N::Link>, G: Gate>(
    rt: &R,
    words: &Words,
    gate: &G,
    plan: ProxyPlan,
    workers: u32,
    number: u32,
    worker: &mut Worker<N, K>,
)
    requires plan { IsServable plan }
    requires one { number < workers }
    requires few { workers < 16 }
    requires fresh { IsFresh (view_of N.Net worker.old.lane.net) }
    requires door { worker.old.lane.door ≡ Unasked }
    requires on_time { is_early worker.old.lane.heard ≡ false }
    requires newcomer { IsNewcomer words.now worker.old.pass (caller (number + 1)) }
    ensures worked { HasWorked N.Net plan.target (share workers number plan.conns) worker.old.lane.net
        worker.new.lane.net worker.new.lane.put (is_early worker.new.lane.heard) worker.new.lane.outcome }
    ensures received { HasReceived number (share workers number plan.conns) worker.new.lane.line
        worker.new.lane.worker worker.new.lane.put worker.new.lane.outcome }
    ensures leaves { LeavesSeat words.now (number + 1) (deal_of workers number (slots_of workers plan))
        (channels_for (clients_of worker.new.lane.put)) worker.new.pass worker.new.lane.outcome }
{
    let mut way = ByLine::over(rt, gate, worker.lane.has_bell);
    let slots = slots_for(workers, plan);
    let mine = ProxyPlan {
        listen: address_of(number),
        target: plan.target,
        conns: share_of(workers, number, plan.conns),
        at_once: share_of(workers, number, slots),
    };
    let deal = share_for(workers, number, slots);
    let outcome = work_share(rt, words, &mut way, worker, mine, deal);
    worker.lane.end(rt, number, outcome);
}

// Calls `work` at each element, in so many threads, while `accept` runs. Where no thread can be made, `accept` runs
// first.
fn each_beside<
    R: Threads + Sync,
    X: Send,
    F: Fn(usize, &mut X) + Sync,
    A: FnMut() -> Result<(), ManyError>,
>(rt: &R, xs: &mut [X], threads: usize, work: &F, accept: &mut A) -> Result<(), ManyError>
    requires threads { 0 < threads }
    requires accepts { AcceptsEach F.Fn work.now xs.old }
    requires able { A.pre accept.old }
    ensures changes { ChangesEach F.Fn work.now xs.old xs.new }
    ensures accepted { A.step accept.old result accept.new }
{
    let ((), accepted) = thread::join_mut(
        rt,
        &mut ||
            requires { IsSync R.row × IsSync F.row × IsSend X.row × (0 < threads)
                × AcceptsEach F.Fn work.now xs.now }
            ensures { ChangesEach F.Fn work.entry.now xs.entry.now xs.exit.now }
        { thread::for_each_mut(rt, xs, threads, work) },
        accept,
    );
    accepted
}

/// Lets every worker serve its share of the plan, each in a thread of its own, while `accept` runs. All have returned at
/// the end. Where no thread can be made, `accept` runs first.
pub(crate) fn work_all<
    R: Threads + Wait + Sync,
    N: Passable + Send,
    K: Lines<N::Link> + Send,
    G: Gate + Sync,
    A: FnMut() -> Result<(), ManyError>,
>(
    rt: &R,
    words: &Words,
    gate: &G,
    plan: ProxyPlan,
    workers: &mut [Worker<N, K>],
    accept: &mut A,
) -> Result<(), ManyError>
    requires plan { IsServable plan }
    requires few { length workers.old ≤ 15 }
    requires fresh { All (λ x. IsFresh (view_of N.Net x.lane.net)) workers.old }
    requires doors { All (λ x. x.lane.door ≡ Unasked) workers.old }
    requires on_time { All (λ x. is_early x.lane.heard ≡ false) workers.old }
    requires seats { HaveSeats words.now (λ x. x.pass) workers.old }
    requires able { A.pre accept.old }
    ensures accepted { A.step accept.old result accept.new }
    ensures worked { HaveWorked N.Net plan (λ x. x.lane.net) (λ x. x.lane.put)
        (λ x. is_early x.lane.heard) (λ x. x.lane.outcome) workers.old workers.new }
    ensures received { HaveReceived plan (λ x. x.lane.line) (λ x. x.lane.worker) (λ x. x.lane.put)
        (λ x. x.lane.outcome) workers.old workers.new }
    ensures leaves { LeaveSeats words.now plan (λ x. x.pass) (λ x. x.lane.put) (λ x. x.lane.outcome) workers.old
        workers.new }
    ensures count { length workers.new ≡ length workers.old }
{
    let threads = workers.len().max(1);
    let count = threads as u32;
    each_beside(
        rt,
        workers,
        threads,
        &|number, worker|
            requires { (number < count) × (count < 16) × IsServable plan
                × IsFresh (view_of N.Net worker.old.lane.net)
                × (worker.old.lane.door ≡ Unasked) × (is_early worker.old.lane.heard ≡ false)
                × IsNewcomer words.now worker.old.pass (caller (number + 1)) }
            ensures { HasWorked N.Net plan.target (share count number plan.conns) worker.old.lane.net
                worker.new.lane.net worker.new.lane.put (is_early worker.new.lane.heard) worker.new.lane.outcome
                × HasReceived number (share count number plan.conns) worker.new.lane.line worker.new.lane.worker
                worker.new.lane.put worker.new.lane.outcome
                × LeavesSeat words.entry.now (number + 1) (deal_of count number (slots_of count plan))
                (channels_for (clients_of worker.new.lane.put)) worker.new.pass
                worker.new.lane.outcome }
        { work(rt, words, gate, plan, count, number as u32, worker) },
        accept,
    )
}

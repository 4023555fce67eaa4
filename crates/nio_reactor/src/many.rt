//! Serving a plan with one selector that accepts and others that work.
ghost use Rattle.std.specs.Prelude.{◌≡◌, ◌≢◌, ◌<◌, ◌≤◌, ◌+◌, ◌++◌, [], ◌∷◌, false, All, IfOk, IsFalse, IsTrue, OnErr, OnOk, length};
ghost use Rattle.std.specs.Prelude.{map};
ghost use Rattle.std.specs.Prelude.{vec_capacity};
ghost use Rattle.nio_link.specs.Nets.{view_of};
ghost use Rattle.nio_link.specs.Places.{never_asked};
ghost use Rattle.nio_orderly.specs.Orderly.{IsOrderly, IsWhole};
ghost use Rattle.nio_relay.specs.Plan.{IsServable};
ghost use Rattle.nio_serve.specs.Serving.{listener, IsFresh};
ghost use Rattle.nio_serve.specs.declared.serving.ServeError.TheVariants.{Memory as LacksMemory};
ghost use Rattle.nio_words.specs.Passes.{IsPassOf, limits_of, seen};
ghost use Rattle.nio_reactor.specs.Accepting.{CanAccept, HasAccepted, HasSent};
ghost use Rattle.nio_reactor.specs.Dealing.{slots_of};
ghost use Rattle.nio_reactor.specs.Handing.{AccountsForLinks, AreHanded, put_below};
ghost use Rattle.nio_reactor.specs.Many.{ServesMany};
ghost use Rattle.nio_reactor.specs.Placing.{ArePlaced, HoldsAll, caller, served_of, table_for};
ghost use Rattle.nio_reactor.specs.Receiving.{AreOwn, AreSettled, HaveReceived, is_early};
ghost use Rattle.nio_reactor.specs.Seats.{HaveSeats, IsNewcomer, LeaveSeats, LeavesSeat, StandsIn, acceptor_deal};
ghost use Rattle.nio_reactor.specs.Working.{AddsUp, Concludes, CountFew, HasEnded, HaveWorked, NoneHasEnded};
ghost use Rattle.nio_reactor.specs.declared.door.Door.TheVariants.{Unasked};

use crate::accepting::accept_all;
use crate::handover::{Handover, PutIn};
use crate::lane::{Lane, Worker};
use crate::lines::Lines;
use crate::message::{Message, Outgoing};
use crate::table::{limits_for, set_up};
use crate::working::{share_of, slots_for, work_all};
use nio_base::Gate;
use nio_line::{LineIn, LineOut, open};
use nio_link::Passable;
use nio_poller::Bell;
use nio_relay::{ProxyPlan, Served};
use nio_serve::ServeError;
use nio_trace::Trace;
use nio_words::{Pass, Words};
use std::alloc::{AllocError, Global};
use std::marker::Brand;
use std::sync::Wait;
use std::thread::Threads;
use thiserror::Error;

/// Why a proxy ended before its plan was served.
#[derive(Clone, Copy, Debug, PartialEq, Eq, Error)]
pub enum ManyError {
    /// A poll failed, or the listener.
    #[error("the net failed")]
    NetFault,
    /// There is no memory, or a table refused a call.
    #[error("out of memory")]
    Memory,
}

// A line to each worker, with room for so many messages that it hasn't received yet.
fn open_lines<L: Drop>(
    alloc: Global,
    workers: usize,
    room: usize,
) -> Result<(Vec<LineIn<Message<L>>>, Vec<LineOut<Message<L>>>), AllocError>
    requires { 0 < room }
    ensures entries { IfOk result (λ lines. length lines.0.items ≡ workers) }
    ensures exits { IfOk result (λ lines. length lines.1.items ≡ workers) }
    ensures lines { IfOk result (λ lines. map (λ e. e.line) lines.0.items ≡ map (λ e. e.line) lines.1.items) }
    ensures sent { IfOk result (λ lines. All (λ e. e.carried ≡ []) lines.0.items) }
    ensures received { IfOk result (λ lines. All (λ e. e.carried ≡ []) lines.1.items) }
{
    let mut entries = Vec::with_capacity(alloc, workers)?;
    let mut exits = Vec::with_capacity(alloc, workers)?;
    for _ in 0..workers {
        let (entry, exit) = open(alloc, room)?;
        entries.push(entry)?;
        exits.push(exit)?;
    }
    Ok((entries, exits))
}

// How many messages a line has room for: a link for each slot of its worker, and the end.
fn room_for(workers: u32, slots: u32) -> usize
    requires { workers ≢ 0 }
    ensures { 0 < result }
{
    (slots / workers) as usize + 2
}

// Takes the nets, each for a worker with one of the lines and one of the passes. The first `bells` of them have bells.
// Where memory lacks they stay.
fn staff<N: Passable + Drop, K: Lines<N::Link>>(
    alloc: Global,
    more: &mut Vec<N>,
    lines: Vec<LineOut<Message<N::Link>>>,
    passes: Vec<Pass>,
    bells: usize,
    plan: ProxyPlan,
) -> Result<Vec<Worker<N, K>>, AllocError>
    requires plan { IsServable plan }
    requires lines { map (λ e. e.line) lines.items ≡ K.lines }
    requires new { All (λ e. e.carried ≡ []) lines.items }
    requires conns { plan.conns ≡ K.conns }
    requires slots { slots_of (length more.old.items) plan ≡ K.slots }
    requires few { length more.old.items ≤ 15 }
    requires exits { length lines.items ≡ length more.old.items }
    requires passes { length passes.items ≡ length more.old.items }
    requires unasked { All (λ net. N.place net listener ≡ never_asked) more.old.items }
    ensures nets { IfOk result (λ workers. map (λ x. x.lane.net) workers.items ≡ more.old.items) }
    ensures passes { IfOk result (λ workers. map (λ x. x.pass) workers.items ≡ passes.items) }
    ensures doors { IfOk result (λ workers. All (λ x. x.lane.door ≡ Unasked) workers.items) }
    ensures on_time { IfOk result (λ workers. All (λ x. is_early x.lane.heard ≡ false) workers.items) }
    ensures taken { OnOk result (more.new.items ≡ []) }
    ensures room { OnOk result (length more.old.items ≤ vec_capacity more.new) }
    ensures same { OnErr result (more.new.items ≡ more.old.items) }
{
    let count = more.len() as u32;
    let slots = slots_for(count, plan);
    let mut workers = Vec::with_capacity(alloc, count as usize)?;
    let (mut lines, mut passes) = (lines, passes);
    for worker in 0..count {
        let lane = Lane::over(
            alloc,
            more.remove(0),
            worker,
            lines.remove(0),
            share_of(count, worker, plan.conns),
            share_of(count, worker, slots),
            (worker as usize) < bells,
        );
        workers.push_reserved(Worker {
            lane,
            pass: passes.remove(0),
        });
    }
    Ok(workers)
}

// Gives the nets back, joins the workers' passes to this one, and joins the two ends of each line.
fn give_back<N: Passable + Drop, K: Lines<N::Link>>(
    words: &Words,
    pass: &mut Pass,
    more: &mut Vec<N>,
    workers: Vec<Worker<N, K>>,
    entries: Vec<LineIn<Message<N::Link>>>,
)
    requires none { more.old.items ≡ [] }
    requires few { length workers.items ≤ 15 }
    requires room { length workers.items ≤ vec_capacity more.old }
    requires pass { IsPassOf words.now pass.old }
    requires passes { All (λ x. IsPassOf words.now x.pass) workers.items }
    requires lines { map (λ e. e.line) entries.items ≡ K.lines }
    requires entries { length entries.items ≡ length workers.items }
    requires own { AreOwn (λ x. x.lane.line) (λ x. x.lane.worker) workers.items }
    ensures nets { more.new.items ≡ map (λ x. x.lane.net) workers.items }
    ensures pass { IsPassOf words.now pass.new }
    ensures own { StandsIn pass.old pass.new }
    ensures each { All (λ x. StandsIn x.pass pass.new) workers.items }
    ensures settled { AreSettled (λ x. x.lane.line) workers.items entries.items }
{
    let (mut workers, mut entries) = (workers, entries);
    for number in 0..workers.len() as u32 {
        let Worker { lane, pass: other } = workers.remove(0);
        more.push_reserved(lane.settle(number, entries.remove(0)));
        words.join(pass, other);
    }
}

// Adds what the workers have put in, one worker after the other.
fn list_handovers<N: Passable, K: Lines<N::Link>>(
    workers: &Vec<Worker<N, K>>,
    handed: &mut Trace<Handover>,
)
    ensures { handed.new ≡ handed.old
        ++ put_below (λ x. x.lane.put) workers.now.items (length workers.now.items) }
{
    for worker in workers {
        handed.extend_from::<Lane<N, K>, PutIn>(&worker.lane);
    }
}

// A worker lacked memory.
fn lacks_memory<N: Passable, K: Lines<N::Link>>(workers: &[Worker<N, K>]) -> bool
    ensures some { IsTrue result → HasEnded LacksMemory (λ x. x.lane.outcome) workers.now }
    ensures none { IsFalse result → NoneHasEnded LacksMemory (λ x. x.lane.outcome) workers.now }
{
    for worker in workers {
        if let Err(ServeError::Memory) = worker.lane.outcome {
            return true;
        }
    }
    false
}

// What the workers came to, together.
fn add_up<N: Passable, K: Lines<N::Link>>(
    workers: &[Worker<N, K>],
    conns: u32,
) -> Result<Served, ManyError>
    requires few { length workers.now ≤ 15 }
    requires faults { CountFew (λ x. x.lane.outcome) conns workers.now }
    requires memory { NoneHasEnded LacksMemory (λ x. x.lane.outcome) workers.now }
    ensures { AddsUp (λ x. x.lane.outcome) conns workers.now result }
{
    let mut faults: u32 = 0;
    for worker in workers {
        match worker.lane.outcome {
            Ok(served) => faults += served.faults,
            Err(ServeError::NetFault) => return Err(ManyError::NetFault),
            Err(ServeError::Memory) => unreachable!(),
        }
    }
    Ok(Served {
        connections: conns,
        faults,
    })
}

// What the proxy answers, by what its acceptor and its workers came to.
fn conclude<N: Passable, K: Lines<N::Link>>(
    accepted: Result<(), ManyError>,
    workers: &Vec<Worker<N, K>>,
    conns: u32,
) -> Result<Served, ManyError>
    requires few { length workers.now.items ≤ 15 }
    requires faults { CountFew (λ x. x.lane.outcome) conns workers.now.items }
    ensures { Concludes accepted (λ x. x.lane.outcome) conns workers.now.items result }
{
    if lacks_memory(workers) {
        return Err(ManyError::Memory);
    }
    accepted?;
    add_up(workers, conns)
}

// Lets the workers work while `accept` runs. Where no thread can be made, `accept` runs first.
fn work_beside<
    R: Threads + Wait + Sync,
    N: Passable + Send + Drop,
    K: Lines<N::Link> + Send,
    G: Gate + Sync,
    A: FnMut() -> Result<(), ManyError>,
>(
    rt: &R,
    words: &Words,
    workers: &mut Vec<Worker<N, K>>,
    gate: &G,
    plan: ProxyPlan,
    accept: &mut A,
) -> Result<(), ManyError>
    requires plan { IsServable plan }
    requires few { length workers.old.items ≤ 15 }
    requires nets { All (λ x. IsFresh (view_of N.Net x.lane.net)) workers.old.items }
    requires doors { All (λ x. x.lane.door ≡ Unasked) workers.old.items }
    requires on_time { All (λ x. is_early x.lane.heard ≡ false) workers.old.items }
    requires seats { HaveSeats words.now (λ x. x.pass) workers.old.items }
    requires able { A.pre accept.old }
    ensures accepted { A.step accept.old result accept.new }
    ensures worked { HaveWorked N.Net plan (λ x. x.lane.net) (λ x. x.lane.put)
        (λ x. is_early x.lane.heard) (λ x. x.lane.outcome) workers.old.items workers.new.items }
    ensures received { HaveReceived plan (λ x. x.lane.line) (λ x. x.lane.worker) (λ x. x.lane.put)
        (λ x. x.lane.outcome) workers.old.items workers.new.items }
    ensures leaves { LeaveSeats words.now plan (λ x. x.pass) (λ x. x.lane.put) (λ x. x.lane.outcome)
        workers.old.items workers.new.items }
    ensures count { length workers.new.items ≡ length workers.old.items }
{
    work_all(rt, words, gate, plan, workers.as_mut_slice(), accept)
}

// Lets the workers work while the acceptor accepts.
fn serve_lanes<
    R: Threads + Wait + Sync,
    N: Passable + Send + Drop,
    K: Lines<N::Link> + Send,
    B: Bell + Drop,
    G: Gate + Sync,
>(
    rt: &R,
    words: &Words,
    net: &mut N,
    workers: &mut Vec<Worker<N, K>>,
    outgoing: &mut Outgoing<N::Link, B>,
    gate: &G,
    plan: ProxyPlan,
) -> Result<(), ManyError>
    requires plan { IsServable plan }
    requires same { outgoing.old.plan ≡ plan }
    requires fresh { IsFresh (view_of N.Net net.old) }
    requires some { 0 < length outgoing.old.lines.items }
    requires newcomer { IsNewcomer words.now outgoing.old.pass (caller 0) }
    requires few { length workers.old.items ≤ 15 }
    requires nets { All (λ x. IsFresh (view_of N.Net x.lane.net)) workers.old.items }
    requires doors { All (λ x. x.lane.door ≡ Unasked) workers.old.items }
    requires on_time { All (λ x. is_early x.lane.heard ≡ false) workers.old.items }
    requires seats { HaveSeats words.now (λ x. x.pass) workers.old.items }
    ensures accepted { HasAccepted N.Net plan net.old net.new result }
    ensures sent { HasSent (N.accepted net.old) (N.accepted net.new) outgoing.old.lines.items
        outgoing.new.lines.items }
    ensures seat { LeavesSeat words.now 0 acceptor_deal (listener ∷ []) outgoing.new.pass result }
    ensures worked { HaveWorked N.Net plan (λ x. x.lane.net) (λ x. x.lane.put)
        (λ x. is_early x.lane.heard) (λ x. x.lane.outcome) workers.old.items workers.new.items }
    ensures received { HaveReceived plan (λ x. x.lane.line) (λ x. x.lane.worker) (λ x. x.lane.put)
        (λ x. x.lane.outcome) workers.old.items workers.new.items }
    ensures leaves { LeaveSeats words.now plan (λ x. x.pass) (λ x. x.lane.put) (λ x. x.lane.outcome)
        workers.old.items workers.new.items }
    ensures count { length workers.new.items ≡ length workers.old.items }
{
    work_beside(
        rt,
        words,
        workers,
        gate,
        plan,
        &mut ||
            requires { CanAccept N.Net outgoing.now.plan
                (length outgoing.now.lines.items) net.now
                × IsNewcomer words.now outgoing.now.pass (caller 0) }
            ensures { HasAccepted N.Net
                outgoing.entry.now.plan net.entry.now net.exit.now result
                × HasSent (N.accepted net.entry.now) (N.accepted net.exit.now) outgoing.entry.now.lines.items
                outgoing.exit.now.lines.items
                × LeavesSeat words.entry.now 0 acceptor_deal (listener ∷ []) outgoing.exit.now.pass result }
        { accept_all(rt, words, net, outgoing) },
    )
}

// What the call answers, with the pass where it has served.
fn answer(outcome: Result<Served, ManyError>, pass: Pass) -> Result<(Served, Pass), ManyError>
    ensures served { served_of result ≡ outcome }
    ensures pass { IfOk result (λ done. done.1 ≡ pass) }
{
    match outcome {
        Ok(served) => Ok((served, pass)),
        Err(error) => Err(error),
    }
}

// `serve_many` between the two ends of the lines that were opened: `K` says which lines these are, how many connections
// the plan has, and how many slots there are.
fn serve_between<
    K: Lines<N::Link> + Send,
    R: Threads + Wait + Sync,
    N: Passable + Send + Drop,
    B: Bell + Drop,
    G: Gate + Sync,
>(
    rt: &R,
    words: &Words,
    net: &mut N,
    more: &mut Vec<N>,
    exits: Vec<LineOut<Message<N::Link>>>,
    passes: Vec<Pass>,
    outgoing: Outgoing<N::Link, B>,
    gate: &G,
    handed: &mut Trace<Handover>,
) -> Result<(Served, Pass), ManyError>
    requires plan { IsServable outgoing.plan }
    requires workers { (1 ≤ length more.old.items) × (length more.old.items ≤ 15) }
    requires fresh { IsFresh (view_of N.Net net.old) }
    requires nets { All (λ x. IsFresh (view_of N.Net x)) more.old.items }
    requires conns { outgoing.plan.conns ≡ K.conns }
    requires slots { slots_of (length more.old.items) outgoing.plan ≡ K.slots }
    requires lines_in { map (λ e. e.line) outgoing.lines.items ≡ K.lines }
    requires lines_out { map (λ e. e.line) exits.items ≡ K.lines }
    requires entries { length outgoing.lines.items ≡ length more.old.items }
    requires exits { length exits.items ≡ length more.old.items }
    requires sent { All (λ e. e.carried ≡ []) outgoing.lines.items }
    requires received { All (λ e. e.carried ≡ []) exits.items }
    requires limits { limits_of words.now ≡ table_for (length more.old.items) }
    requires newcomer { IsNewcomer words.now outgoing.pass (caller 0) }
    requires seats { HaveSeats words.now (λ p. p) passes.items }
    requires passes { length passes.items ≡ length more.old.items }
    ensures serves { ServesMany N.Net outgoing.plan net.old net.new more.old.items more.new.items (served_of result) }
    ensures count { length more.new.items ≡ length more.old.items }
    ensures handed { AreHanded N.Net outgoing.plan.conns more.new.items handed.old handed.new (served_of result) }
    ensures links { AccountsForLinks N.Net (N.accepted net.old) (N.accepted net.new) more.old.items more.new.items
        handed.old handed.new (served_of result) }
    ensures pass { IfOk result (λ done. HoldsAll (table_for (length more.old.items)) done.1) }
    ensures whole { IfOk result (λ done. IsWhole (table_for (length more.old.items)) (seen done.1)) }
    ensures orderly { IfOk result (λ done. IsOrderly (table_for (length more.old.items)) (seen done.1)) }
    ensures placed { IfOk result (λ done. ArePlaced (length more.old.items)
        (slots_of (length more.old.items) outgoing.plan) handed.old handed.new (seen done.1)) }
{
    let plan = outgoing.plan;
    let bells = outgoing.bells.len();
    let Ok(workers) = staff::<N, K>(outgoing.alloc, more, exits, passes, bells, plan) else {
        return Err(ManyError::Memory);
    };
    let (mut workers, mut outgoing) = (workers, outgoing);
    let accepted = serve_lanes(rt, words, net, &mut workers, &mut outgoing, gate, plan);
    let outcome = conclude(accepted, &workers, plan.conns);
    list_handovers(&workers, handed);
    let mut pass = outgoing.pass;
    give_back(words, &mut pass, more, workers, outgoing.lines);
    answer(outcome, pass)
}

/// Relays as many connections as the plan says, and then ends. One selector accepts them, over `net`, and hands each
/// to a worker, the one whose number is that of the connection modulo the length of `more`. Each worker has a thread,
/// a net of `more` and a selector of its own. It passes the test gate with its number and the connection's, puts the
/// link into its net, connects it to the target, and relays.
///
/// A plan's slots are shared out among the workers, at least one each; a worker relays as many connections at once as it
/// has slots, and as many more wait on its line. While those of the next connection's worker are all taken, no further
/// one is accepted.
///
/// The workers work while further connections are accepted. Where no thread can be made, all connections are accepted
/// first, and then the workers work one after another: so with more connections than slots the call doesn't return then.
///
/// The first of the nets of `more` have the bells `bells`, in their order. The acceptor rings after each link that it
/// sends. A worker without a bell that has live connections looks at its line every 4 ms.
///
/// A connection ends when both of its directions are shut, or at the first fault of one of its links, which closes both
/// and is counted. A worker that fails ends alone: the call returns once all connections were accepted and the other
/// workers have ended. Where no descriptor is left for a further link, the listener fails, and with it the call; the
/// connections that were accepted before are served first. `Memory` is also answered where the table refuses a call; it
/// comes before `NetFault`, so where that is answered no thread lacked memory.
///
/// The acceptor and the workers share one table. Caller 0 accepts, with selector 0; worker v is caller v + 1, with
/// selector v + 1. Before any of them works, caller 0 opens the first channel of each number: 0 for the listener, 2k + 1
/// and 2k + 2 for slot k, which is for worker k modulo their count, then one for the line of each worker. A worker
/// registers the channels of its connections, and that of its line, with its selector; its slot serves again by the next
/// channels of its numbers. The pass that is answered has every caller's number, and has seen all of this.
///
/// At every end no link stands in any of the nets, and the listener is closed. A link that was accepted and not put in
/// yet is let go. `handed` gets the links that were put in, one worker after the other.
pub fn serve_many<
    R: Threads + Wait + Sync,
    N: Passable + Send + Drop,
    B: Bell + Drop,
    G: Gate + Sync,
>(
    rt: &R,
    alloc: Global,
    net: &mut N,
    more: &mut Vec<N>,
    bells: Vec<B>,
    gate: &G,
    plan: ProxyPlan,
    handed: &mut Trace<Handover>,
) -> Result<(Served, Pass), ManyError>
    requires plan { IsServable plan }
    requires workers { (1 ≤ length more.old.items) × (length more.old.items ≤ 15) }
    requires fresh { IsFresh (view_of N.Net net.old) }
    requires nets { All (λ x. IsFresh (view_of N.Net x)) more.old.items }
    ensures serves { ServesMany N.Net plan net.old net.new more.old.items more.new.items (served_of result) }
    ensures count { length more.new.items ≡ length more.old.items }
    ensures handed { AreHanded N.Net plan.conns more.new.items handed.old handed.new (served_of result) }
    ensures links { AccountsForLinks N.Net (N.accepted net.old) (N.accepted net.new) more.old.items more.new.items
        handed.old handed.new (served_of result) }

    // What the pass has seen.
    ensures pass { IfOk result (λ done. HoldsAll (table_for (length more.old.items)) done.1) }
    ensures whole { IfOk result (λ done. IsWhole (table_for (length more.old.items)) (seen done.1)) }
    ensures orderly { IfOk result (λ done. IsOrderly (table_for (length more.old.items)) (seen done.1)) }
    ensures placed { IfOk result (λ done. ArePlaced (length more.old.items) (slots_of (length more.old.items) plan)
        handed.old handed.new (seen done.1)) }
{
    let count = more.len() as u32;
    let Ok((words, pass)) = Words::make(alloc, limits_for(count)) else {
        return Err(ManyError::Memory);
    };
    let mut pass = pass;
    let slots = slots_for(count, plan);
    let Ok(passes) = set_up(alloc, &words, &mut pass, count, slots) else {
        return Err(ManyError::Memory);
    };
    let Ok((entries, exits)) = open_lines(alloc, more.len(), room_for(count, slots)) else {
        return Err(ManyError::Memory);
    };
    let outgoing = Outgoing {
        alloc,
        pass,
        lines: entries,
        bells,
        plan,
    };
    serve_between::<Brand, R, N, B, G>(rt, &words, net, more, exits, passes, outgoing, gate, handed)
}

//! Relaying packets.
ghost use Rattle.std.specs.Prelude.{◌≡◌, ◌<◌, ◌≤◌, ◌⊎◌, Err, IfOk, IsTrue, OnOk};
ghost use Rattle.nio_bytes.specs.Cause.{Rose};
ghost use Rattle.nio_poller.specs.Polls.{told_of_channel};
ghost use Rattle.nio_base.specs.Ops.{is_within};
ghost use Rattle.nio_words.specs.Passes.{IsFirstPass};
ghost use Rattle.nio_datagram.specs.Nets.{view_of, NoneFailed};
ghost use Rattle.nio_datagram.specs.Packets.{no_traffic};
ghost use Rattle.nio_datagram.specs.Places.{IsFree};
ghost use Rattle.nio_datagram.specs.Relaying.{fresh_relay, IsDone, IsRelaying, Moves, Ran};
ghost use Rattle.nio_datagram.specs.Serving.{client_chan, target_chan, LeavesNothing, NoneRose};
ghost use Rattle.nio_relay.specs.Plan.{IsRelayable};
ghost use Rattle.nio_datagram.specs.Serving.{OneRose, RelaysPackets, Serves, ServesAllOr};
ghost use Rattle.nio_datagram.specs.declared.serving.PacketServeError.TheVariants.{NetFault};

use crate::net::PacketNet;
use crate::relay::{BothOps, Relay};
use crate::watching::{Watched, set, told_of, watch};
use nio_base::{Addr, CallerNo, ChanId, ChanNo, Limits, Ops};
use nio_board::{Board, Refused};
use nio_poller::PollError;
use nio_relay::PacketPlan;
use nio_select::{Asked, Selecting, Told};
use nio_words::{Pass, Words};
use std::alloc::{AllocError, Global};
use std::sync::Wait;
use thiserror::Error;

/// How many packets a relay has sent.
#[derive(Clone, Copy, Debug, PartialEq, Eq)]
pub struct PacketsServed {
    /// To the target.
    pub forth: u32,
    /// To the client. The count stops at its type's end.
    pub back: u32,
}

/// Why a relay ended before all packets were sent.
#[derive(Clone, Copy, Debug, PartialEq, Eq, Error)]
pub enum PacketServeError {
    /// A poll failed, or a call on one of the two channels.
    #[error("the net failed")]
    NetFault,
    /// There is no memory, or the relay's own table refused a call.
    #[error("out of memory")]
    Memory,
}

const LIMITS: Limits = Limits {
    callers: 1,
    selectors: 1,
    channels: 2,
    keys: 2,
};

/// The caller that makes the calls.
const ME: CallerNo = CallerNo(0);

/// The channel to which the client sends: the first of the number 0.
const CLIENT: ChanId = ChanId {
    number: ChanNo(0),
    serial: 0,
};

/// The channel to which the target answers: the first of the number 1.
pub(crate) const TARGET: ChanId = ChanId {
    number: ChanNo(1),
    serial: 0,
};

/// What a relay serves by: a board on which both of its channels are watched.
#[derive(Drop)]
struct Server<'a> {
    board: Board<'a>,
    client: Watched,
    target: Watched,
}

impl<'a> Server<'a> {
    // The first caller of a new table opens a board and both channels there. The limits have room for all of it.
    #[tactic(auto, using(nio_board::proofs::Idle::drawn_unpinned, nio_board::proofs::Calls::drawn_is_unregistered))]
    fn open<R: Wait>(
        rt: &R,
        alloc: Global,
        words: &'a Words,
        pass: Pass,
    ) -> Result<Server<'a>, Refused>
        requires { IsFirstPass words.now pass }
    {
        let mut pass = pass;
        if words.draw(&mut pass, ME).is_err() {
            return Err(Refused);
        }
        let mut board = Board::open(alloc, words, pass, ME)?;
        let client = watch(&mut board, rt, CLIENT.number)?;
        let target = watch(&mut board, rt, TARGET.number)?;
        Ok(Server {
            board,
            client,
            target,
        })
    }

    // Watches both channels for what the relay can use.
    fn watch(&mut self, relay: &Relay) -> Result<(), Refused> {
        let interests = relay.interests();
        set(&mut self.board, &mut self.client, interests.client)?;
        set(&mut self.board, &mut self.target, interests.target)
    }

    // One selection. It goes on, poll by poll, while the relay can use the operations that both channels are watched
    // for. `selected` is memory for its end.
    fn select<R: Wait, N: PacketNet>(
        &mut self,
        rt: &R,
        alloc: Global,
        net: &mut N,
        relay: &mut Relay,
        selected: &mut Vec<(ChanNo, Ops)>,
        count: u32,
    ) -> Result<(), PacketServeError>
        requires relaying { IsRelaying relay.old
            (view_of N.PacketNet net.old) }
        requires count { relay.old.forth.sent < count }
        ensures relaying { IsRelaying relay.new
            (view_of N.PacketNet net.new) }
        ensures target { relay.new.target.peer ≡ relay.old.target.peer }
        ensures moves { Moves (view_of N.PacketNet net.old)
            (view_of N.PacketNet net.new) }
        ensures count { relay.new.forth.sent ≤ count }
        ensures still { OnOk result (NoneFailed (N.packet_faults net.old) (N.packet_faults net.new)
            (N.poll_faults net.old) (N.poll_faults net.new)) }
        ensures cause { result ≡ Err NetFault → OneRose (N.packet_faults net.old) (N.packet_faults net.new)
            (N.poll_faults net.old) (N.poll_faults net.new) }
    {
        if self.watch(relay).is_err() {
            return Err(PacketServeError::Memory);
        }
        let Ok(selection) = self.board.begin(alloc) else {
            return Err(PacketServeError::Memory);
        };
        match poll_on(rt, alloc, net, relay, &selection, count) {
            Ok(answer) => match self.board.end(selection, &answer, selected) {
                Ok(()) => Ok(()),
                Err(AllocError) => Err(PacketServeError::Memory),
            },
            Err(error) => {
                self.board.leave(selection);
                Err(error)
            }
        }
    }

    // Binds channel 0 to `plan.listen` and channel 1 to `plan.local`, and serves until `plan.count` packets have gone
    // to the target.
    fn serve<R: Wait, N: PacketNet>(
        &mut self,
        rt: &R,
        alloc: Global,
        net: &mut N,
        relay: &mut Relay,
        plan: PacketPlan,
    ) -> Result<(), PacketServeError>
        requires plan { IsRelayable plan }
        requires fresh { relay.old ≡ fresh_relay }
        requires client_unused { N.traffic net.old client_chan ≡ no_traffic }
        requires target_unused { N.traffic net.old target_chan ≡ no_traffic }
        requires client_free { IsFree (N.place net.old) client_chan }
        requires target_free { IsFree (N.place net.old) target_chan }
        ensures ran { Ran plan relay.new (view_of N.PacketNet net.old)
            (view_of N.PacketNet net.new) }
        ensures done { OnOk result (IsDone plan relay.new
            (view_of N.PacketNet net.new)) }
        ensures still { OnOk result (NoneFailed (N.packet_faults net.old) (N.packet_faults net.new)
            (N.poll_faults net.old) (N.poll_faults net.new)) }
        ensures cause { result ≡ Err NetFault → OneRose (N.packet_faults net.old) (N.packet_faults net.new)
            (N.poll_faults net.old) (N.poll_faults net.new) }
    {
        if relay.open(net, plan).is_err() {
            return Err(PacketServeError::NetFault);
        }
        self.run(rt, alloc, net, relay, plan.count)
    }

    // Serves until `count` packets have gone to the target.
    fn run<R: Wait, N: PacketNet>(
        &mut self,
        rt: &R,
        alloc: Global,
        net: &mut N,
        relay: &mut Relay,
        count: u32,
    ) -> Result<(), PacketServeError>
        requires relaying { IsRelaying relay.old
            (view_of N.PacketNet net.old) }
        requires count { relay.old.forth.sent ≤ count }
        ensures relaying { IsRelaying relay.new
            (view_of N.PacketNet net.new) }
        ensures target { relay.new.target.peer ≡ relay.old.target.peer }
        ensures moves { Moves (view_of N.PacketNet net.old)
            (view_of N.PacketNet net.new) }
        ensures all { OnOk result (relay.new.forth.sent ≡ count) }
        ensures still { OnOk result (NoneFailed (N.packet_faults net.old) (N.packet_faults net.new)
            (N.poll_faults net.old) (N.poll_faults net.new)) }
        ensures cause { result ≡ Err NetFault → OneRose (N.packet_faults net.old) (N.packet_faults net.new)
            (N.poll_faults net.old) (N.poll_faults net.new) }
    {
        let mut selected = Vec::new(alloc);
        for _ in rt.forever() {
            if relay.forth.sent() == count {
                return Ok(());
            }
            let ended = self.select(rt, alloc, net, relay, &mut selected, count);
            if ended.is_err() {
                return ended;
            }
        }
        unreachable!()
    }
}

// Polls for a selection, and passes packets on after each poll, until all have gone to the target or the relay can use
// other operations. Answers what the last poll told.
fn poll_on<R: Wait, N: PacketNet>(
    rt: &R,
    alloc: Global,
    net: &mut N,
    relay: &mut Relay,
    selection: &Selecting,
    count: u32,
) -> Result<Told, PacketServeError>
    requires relaying { IsRelaying relay.old
        (view_of N.PacketNet net.old) }
    requires count { relay.old.forth.sent < count }
    ensures relaying { IsRelaying relay.new
        (view_of N.PacketNet net.new) }
    ensures target { relay.new.target.peer ≡ relay.old.target.peer }
    ensures moves { Moves (view_of N.PacketNet net.old)
        (view_of N.PacketNet net.new) }
    ensures count { relay.new.forth.sent ≤ count }
    ensures still { OnOk result (NoneFailed (N.packet_faults net.old) (N.packet_faults net.new)
        (N.poll_faults net.old) (N.poll_faults net.new)) }
    ensures cause { result ≡ Err NetFault → OneRose (N.packet_faults net.old) (N.packet_faults net.new)
        (N.poll_faults net.old) (N.poll_faults net.new) }
{
    let watched = relay.interests();
    for _ in rt.forever() {
        let told = round(rt, alloc, net, relay, selection, count);
        if told.is_err() || relay.forth.sent() == count || relay.interests() != watched {
            return told;
        }
    }
    unreachable!()
}

// One round: one poll, and both directions as far as it told them ready. Answers what it told.
fn round<R: Wait, N: PacketNet>(
    rt: &R,
    alloc: Global,
    net: &mut N,
    relay: &mut Relay,
    selection: &Selecting,
    count: u32,
) -> Result<Told, PacketServeError>
    requires relaying { IsRelaying relay.old
        (view_of N.PacketNet net.old) }
    ensures relaying { IsRelaying relay.new
        (view_of N.PacketNet net.new) }
    ensures target { relay.new.target.peer ≡ relay.old.target.peer }
    ensures moves { Moves (view_of N.PacketNet net.old)
        (view_of N.PacketNet net.new) }
    ensures count { relay.old.forth.sent < count → relay.new.forth.sent ≤ count }
    ensures still { OnOk result (NoneFailed (N.packet_faults net.old) (N.packet_faults net.new)
        (N.poll_faults net.old) (N.poll_faults net.new)) }
    ensures cause { result ≡ Err NetFault → OneRose (N.packet_faults net.old) (N.packet_faults net.new)
        (N.poll_faults net.old) (N.poll_faults net.new) }
{
    match net.poll(rt, alloc, selection.asked(), selection.mode()) {
        Ok(told) => match pass_ready(net, relay, ready_of(selection.asked(), &told), count) {
            Ok(()) => Ok(told),
            Err(error) => Err(error),
        },
        Err(PollError::Fault) => Err(PacketServeError::NetFault),
        Err(PollError::Memory) => Err(PacketServeError::Memory),
    }
}

// What a poll told of both channels, which may be more than they are watched for.
fn ready_of(asked: &Asked, told: &Told) -> BothOps
    ensures client { result.client ≡ told_of_channel asked.now.keys told.now.pairs.items client_chan.number }
    ensures target { result.target ≡ told_of_channel asked.now.keys told.now.pairs.items target_chan.number }
{
    BothOps {
        client: told_of(asked, told, CLIENT.number),
        target: told_of(asked, told, TARGET.number),
    }
}

// Passes packets on, as far as a poll told the channels ready.
fn pass_ready<N: PacketNet>(
    net: &mut N,
    relay: &mut Relay,
    ready: BothOps,
    count: u32,
) -> Result<(), PacketServeError>
    requires ready_client { IsTrue (is_within ready.client (N.ready net.old client_chan.number)) }
    requires ready_target { IsTrue (is_within ready.target (N.ready net.old target_chan.number)) }
    requires relaying { IsRelaying relay.old
        (view_of N.PacketNet net.old) }
    ensures relaying { IsRelaying relay.new
        (view_of N.PacketNet net.new) }
    ensures target { relay.new.target.peer ≡ relay.old.target.peer }
    ensures moves { Moves (view_of N.PacketNet net.old)
        (view_of N.PacketNet net.new) }
    ensures count { relay.old.forth.sent < count → relay.new.forth.sent ≤ count }
    ensures still { OnOk result (NoneFailed (N.packet_faults net.old) (N.packet_faults net.new)
        (N.poll_faults net.old) (N.poll_faults net.new)) }
    ensures cause { result ≡ Err NetFault
        → Rose (N.packet_faults net.old client_chan) (N.packet_faults net.new client_chan)
        ⊎ Rose (N.packet_faults net.old target_chan) (N.packet_faults net.new target_chan) }
{
    match relay.pass_both(net, ready.client, ready.target, count) {
        Ok(()) => Ok(()),
        Err(_error) => Err(PacketServeError::NetFault),
    }
}

/// Relays packets between a client and a target, until `plan.count` packets of the client were sent on. Binds the first
/// channel of number 0 to `plan.listen` and that of number 1 to `plan.local`. Sends to the target from the latter. The client is the sender of the
/// first packet; others' packets are dropped. Each direction holds at most one packet. At every end both sockets are
/// closed. `Memory` is also answered where the relay's own table refuses a call.
pub fn serve_packets<R: Wait, N: PacketNet>(
    rt: &R,
    alloc: Global,
    net: &mut N,
    plan: PacketPlan,
) -> Result<PacketsServed, PacketServeError>
    requires plan { IsRelayable plan }
    requires client_unused { N.traffic net.old client_chan ≡ no_traffic }
    requires target_unused { N.traffic net.old target_chan ≡ no_traffic }
    requires client_free { IsFree (N.place net.old) client_chan }
    requires target_free { IsFree (N.place net.old) target_chan }
    ensures relays { RelaysPackets plan.target (N.traffic net.new) }
    ensures serves { Serves plan (N.traffic net.new) (N.place net.new) (N.packet_faults net.old)
        (N.packet_faults net.new) (N.poll_faults net.old) (N.poll_faults net.new) result }
    ensures complete { NoneRose (N.packet_faults net.old) (N.packet_faults net.new) (N.poll_faults net.old)
        (N.poll_faults net.new) → ServesAllOr plan (N.traffic net.new) (N.place net.new) result }
    ensures leaves { LeavesNothing plan (N.traffic net.old) (N.traffic net.new) (N.place net.old) (N.place net.new)
        (N.packet_faults net.old) (N.packet_faults net.new) (N.poll_faults net.old) (N.poll_faults net.new) }
{
    let Ok((words, pass)) = Words::make(alloc, LIMITS) else {
        return Err(PacketServeError::Memory);
    };
    let Ok(mut server) = Server::open(rt, alloc, &words, pass) else {
        return Err(PacketServeError::Memory);
    };
    let Ok(mut relay) = Relay::make(alloc, CLIENT, TARGET) else {
        return Err(PacketServeError::Memory);
    };
    let served = server.serve(rt, alloc, net, &mut relay, plan);
    relay.close(net);
    match served {
        Ok(()) => Ok(PacketsServed {
            forth: relay.forth.sent(),
            back: relay.back.sent(),
        }),
        Err(error) => Err(error),
    }
}

//! A net in memory by its plan, a stream link by its state, and the calls of a net through its trait.
ghost use Rattle.std.specs.Prelude.{◌≡◌, ◌≢◌, [], IsTrue};
ghost use Rattle.nio_link.specs.Places.{places_after, IsFree, IsLinked};
ghost use Rattle.nio_link.specs.declared.place.Standing.TheVariants as standing;
ghost use Rattle.nio_link.specs.declared.stream.StreamState.TheVariants as state;

use nio_base::{Addr, CallerNo, ChanId, ChanNo, Limits};
use nio_checked::{CheckedNet, NetError};
use nio_link::*;
use nio_poller::Poller;
use nio_select::{Mode, open_selector, try_begin};
use nio_words::Words;
use std::alloc::{AllocError, Global};
use std::test::Fail;

const SMALL: Limits = Limits {
    callers: 1,
    selectors: 1,
    channels: 1,
    keys: 1,
};

const ANYWHERE: Addr = Addr {
    ip: [127, 0, 0, 1],
    port: 7,
};

const ZERO: CallerNo = CallerNo(0);

/// A call on channels, as a net in memory makes it.
#[derive(Clone, Copy, Debug)]
enum Call<'a> {
    Listen(u32),
    Accept(u32, u32),
    Connect(u32),
    Finish(u32),
    Read(u32),
    Write(u32, &'a str),
    Shut(u32),
}

/// What it answered.
#[derive(Clone, Copy, Debug, PartialEq, Eq)]
enum Answer {
    Done,
    Made(bool),
    Got(Got),
    Put(Put),
    Failed,
}

/// The first channel of this number.
fn first(number: u32) -> ChanId
    ensures { result ≡ record { number = record { 0 = number }; serial = 0 } }
{
    ChanId::first(ChanNo(number))
}

/// Makes a call, and reads into the buffer.
fn make_call(net: &mut MemoryNet, call: Call, into: &mut [u8]) -> Answer
    requires { into.old ≢ [] }
{
    match call {
        Call::Listen(chan) => done(net.listen_on(first(chan), ANYWHERE)),
        Call::Accept(listener, chan) => made(net.accept_link(first(listener), first(chan))),
        Call::Connect(chan) => made(net.connect_link(first(chan), ANYWHERE)),
        Call::Finish(chan) => made(net.finish_link(first(chan))),
        Call::Read(chan) => match net.read_link(first(chan), into) {
            Ok(got) => Answer::Got(got),
            Err(Failed) => Answer::Failed,
        },
        Call::Write(chan, text) => written(net, first(chan), text.as_bytes()),
        Call::Shut(chan) => done(net.shut_link(first(chan))),
    }
}

fn done(outcome: Result<(), Failed>) -> Answer {
    match outcome {
        Ok(()) => Answer::Done,
        Err(Failed) => Answer::Failed,
    }
}

fn made(outcome: Result<bool, Failed>) -> Answer {
    match outcome {
        Ok(now) => Answer::Made(now),
        Err(Failed) => Answer::Failed,
    }
}

fn written(net: &mut MemoryNet, chan: ChanId, from: &[u8]) -> Answer {
    if from.is_empty() {
        return Answer::Done;
    }
    match net.write_link(chan, from) {
        Ok(put) => Answer::Put(put),
        Err(Failed) => Answer::Failed,
    }
}

/// Two peers: the first sends pieces of 1, 16385, 0 and 2 bytes, and its target takes 7 bytes a write and 10 in all;
/// the second can't be connected to. The second call of `accept` fails, and so does the second poll.
fn plan(alloc: Global) -> Result<NetPlan, AllocError> {
    let mut sends = Vec::new(alloc);
    sends.push(b"a".to_vec(alloc)?)?;
    sends.push(vec![in alloc; b'x'; 16_385]?)?;
    sends.push(Vec::new(alloc))?;
    sends.push(b"bc".to_vec(alloc)?)?;
    let mut answers = Vec::new(alloc);
    answers.push(b"hello".to_vec(alloc)?)?;
    let mut peers = Vec::new(alloc);
    peers.push(PeerPlan {
        sends,
        answers,
        most: 7,
        fail_connect: false,
        fail_write_after: Some(10),
    })?;
    peers.push(PeerPlan {
        sends: Vec::new(alloc),
        answers: Vec::new(alloc),
        most: 1,
        fail_connect: true,
        fail_write_after: None,
    })?;
    Ok(NetPlan {
        peers,
        fail_poll: Some(1),
        fail_accept: Some(1),
    })
}

#[test]
fn a_net_in_memory_keeps_its_plan(rt: HostRuntime) -> Result<(), Fail> {
    let mut net = MemoryNet::make(rt.alloc(), plan(rt.alloc())?)?;
    let mut into = [0; 128];
    let rows = [
        (Call::Accept(0, 1), Answer::Failed),
        (Call::Listen(0), Answer::Done),
        (Call::Accept(0, 1), Answer::Failed),
        (Call::Accept(0, 1), Answer::Made(true)),
        (Call::Accept(0, 1), Answer::Failed),
        (Call::Accept(0, 5), Answer::Failed),
        (Call::Accept(0, 3), Answer::Made(true)),
        (Call::Connect(2), Answer::Made(false)),
        (Call::Write(2, "early"), Answer::Failed),
        (Call::Finish(2), Answer::Made(true)),
        (Call::Connect(4), Answer::Made(false)),
        (Call::Finish(4), Answer::Failed),
        (Call::Read(1), Answer::Got(Got::Bytes(1))),
        (Call::Read(1), Answer::Got(Got::Bytes(128))),
        (Call::Read(3), Answer::Got(Got::End)),
        (Call::Write(2, "0123456789ab"), Answer::Put(Put::Bytes(7))),
        (Call::Write(2, "789ab"), Answer::Put(Put::Bytes(3))),
        (Call::Write(2, "ab"), Answer::Failed),
        (Call::Write(1, "hello, you"), Answer::Put(Put::Bytes(5))),
        (Call::Shut(2), Answer::Done),
        (Call::Shut(4), Answer::Failed),
    ];
    for (call, wanted) in rows {
        assert!(rt; make_call(&mut net, call, &mut into) == wanted);
    }
    assert_eq!(rt; net.put_bytes(first(2)), b"0123456789".as_slice());
    assert_eq!(rt; net.got_bytes(first(3)), b"".as_slice());
    assert!(rt; net.has_ended(first(3)) && !net.has_ended(first(1)));
    assert!(rt; net.is_shut(first(2)) && !net.is_shut(first(1)));
    Ok(())
}

/// Reads until the end, and counts the reads and those that came too early.
fn reads_to_end(net: &mut MemoryNet, chan: ChanId) -> (u64, u64) {
    let mut reads: u64 = 0;
    let mut early: u64 = 0;
    for _ in 0..1000_u32 {
        let mut into = [0; 128];
        match net.read_link(chan, &mut into) {
            Ok(Got::Bytes(_)) => reads = reads.saturating_add(1),
            Ok(Got::NotYet) => early = early.saturating_add(1),
            Ok(Got::End) | Err(Failed) => break,
        }
    }
    (reads, early)
}

#[test]
fn reads_give_the_pieces(rt: HostRuntime) -> Result<(), Fail> {
    let mut net = MemoryNet::make(rt.alloc(), plan(rt.alloc())?)?;
    let mut into = [0; 128];
    assert!(rt; make_call(&mut net, Call::Listen(0), &mut into) == Answer::Done);
    assert!(rt; make_call(&mut net, Call::Accept(0, 1), &mut into) == Answer::Made(true));
    // The piece of 16385 bytes takes 128 reads of 128 bytes and one of a single byte.
    assert!(rt; reads_to_end(&mut net, first(1)) == (131, 1));
    let bytes = net.got_bytes(first(1));
    assert!(rt; bytes.len() == 16_388 && bytes.starts_with(b"ax") && bytes.ends_with(b"xbc"));
    Ok(())
}

/// The calls of a net that need no readiness.
fn begins<N: Net + Drop>(
    net: &mut CheckedNet<N>,
) -> (Result<(), NetError>, Result<bool, NetError>) {
    let listens = net.listen(first(0), ANYWHERE);
    let connects = net.connect(first(2), ANYWHERE);
    net.close(first(2));
    (listens, connects)
}

#[test]
fn a_net_in_memory_is_a_net(rt: HostRuntime) -> Result<(), Fail> {
    let net = MemoryNet::make(rt.alloc(), plan(rt.alloc())?)?;
    let mut net = CheckedNet::make(rt.alloc(), net, 4)?;
    assert!(rt; begins(&mut net) == (Ok(()), Ok(false)));
    Ok(())
}

#[test]
fn polls_fail_by_the_plan(rt: HostRuntime) -> Result<(), Fail> {
    let mut net = MemoryNet::make(rt.alloc(), plan(rt.alloc())?)?;
    let (words, mut p) = Words::make(rt.alloc(), SMALL)?;
    words.draw(&mut p, ZERO)?;
    let sel = open_selector(&words, &mut p, ZERO)?;
    let selection = try_begin(rt.alloc(), &words, &mut p, ZERO, sel, Mode::Now)?;
    let told = net.poll(&rt, rt.alloc(), selection.asked(), Mode::Now);
    let failed = net.poll(&rt, rt.alloc(), selection.asked(), Mode::Now);
    selection.leave(&words, &mut p, ZERO);
    // Nothing was asked for, so nothing is ready.
    let told = told?;
    assert!(rt; told.pairs.is_empty() && told.elapsed);
    assert!(rt; failed.is_err());
    Ok(())
}

/// The refusals of reading, writing and going on to connect.
type Refusals = [Option<LinkError>; 3];

fn unconnected<N: Net>(net: &mut N, link: &mut StreamLink) -> Refusals
    requires { link.old.state ≡ state.Unconnected }
    ensures link { link.new ≡ link.old }
    ensures net { net.new ≡ net.old }
{
    let mut byte = [0];
    let read = link.read(net, &mut byte).err();
    let write = link.write(net, b"a").err();
    [read, write, link.finish_connect(net).err()]
}

fn connecting<N: Net>(net: &mut N, link: &mut StreamLink) -> Refusals
    requires { link.old.state ≡ state.Connecting }
    ensures link { link.new ≡ link.old }
    ensures net { net.new ≡ net.old }
{
    let mut byte = [0];
    let read = link.read(net, &mut byte).err();
    let write = link.write(net, b"a").err();
    [read, write, link.connect(net, ANYWHERE).err()]
}

fn closed<N: Net>(net: &mut N, link: &mut StreamLink) -> Refusals
    requires { link.old.state ≡ state.Closed }
    ensures link { link.new ≡ link.old }
    ensures net { net.new ≡ net.old }
{
    let mut byte = [0];
    let read = link.read(net, &mut byte).err();
    let write = link.write(net, b"a").err();
    [read, write, link.finish_connect(net).err()]
}

/// What a link answers, with the refusals of its state after each: before it is connected, when that is begun, and
/// when it is closed.
fn life<N: Net>(net: &mut N, chan: ChanId) -> (Refusals, Result<bool, LinkError>, Refusals, bool)
    requires { IsFree (N.place net.old) chan }
{
    let mut link = StreamLink::make(chan);
    let first = unconnected(net, &mut link);
    match link.connect(net, ANYWHERE) {
        Ok(false) => {
            let second = connecting(net, &mut link);
            (first, Ok(false), second, link.close(net))
        }
        Ok(true) => (first, Ok(true), first, link.close(net)),
        Err(error) => {
            let second = closed(net, &mut link);
            (first, Err(error), second, link.close(net))
        }
    }
}

#[test]
fn a_stream_link_refuses_by_its_state(rt: HostRuntime) -> Result<(), Fail> {
    let unconnected = [
        Some(LinkError::NotYetConnected),
        Some(LinkError::NotYetConnected),
        Some(LinkError::NoConnectionPending),
    ];
    let connecting = [
        Some(LinkError::NotYetConnected),
        Some(LinkError::NotYetConnected),
        Some(LinkError::ConnectionPending),
    ];
    let closed = [Some(LinkError::ClosedChannel); 3];
    let mut net = MemoryNet::make(rt.alloc(), plan(rt.alloc())?)?;
    assert!(rt; life(&mut net, first(2)) == (unconnected, Ok(false), connecting, true));
    // The net has no such channel, so connecting fails, and closes the link.
    let mut net = MemoryNet::make(rt.alloc(), plan(rt.alloc())?)?;
    assert!(rt; life(&mut net, first(9)) == (unconnected, Err(LinkError::Fault), closed, false));
    Ok(())
}

/// Accepts the first client, as a net can that was just made.
#[tactic(auto, using(nio_link::proofs::Changes::changed_here))]
fn accept_first(net: &mut MemoryNet) -> bool
    ensures { IsTrue result → (places_after net.new.changes (record { number = record { 0 = 1 }; serial = 0 })).standing ≡ standing.Linked }
{
    let _listens = net.listen_on(first(0), ANYWHERE);
    // The net's first call of `accept` is not the one that fails.
    matches!(net.accept_link(first(0), first(1)), Ok(true))
}

/// Shuts for writing the link that was accepted first.
#[tactic(auto, using(nio_link::proofs::Changes::changed_here, crate::proofs::Standings::linked_after_shut))]
fn shut_first(net: &mut MemoryNet) -> Result<(), Failed>
    requires { (places_after net.old.changes (record { number = record { 0 = 1 }; serial = 0 })).standing ≡ standing.Linked }
    ensures { IsLinked (places_after net.new.changes (record { number = record { 0 = 1 }; serial = 0 })).standing }
{
    net.shut_link(first(1))
}

/// What an accepted link answers where it is to be connected.
fn connected_again<N: Net>(net: &mut N) -> [Result<bool, LinkError>; 2]
    requires { IsLinked (N.place net.old (record { number = record { 0 = 1 }; serial = 0 })).standing }
    ensures { net.new ≡ net.old }
{
    let mut link = StreamLink::accepted(first(1));
    let again = link.connect(net, ANYWHERE);
    [again, link.finish_connect(net)]
}

#[test]
#[tactic(auto, using(crate::proofs::Standings::is_linked))]
fn an_accepted_link_is_connected(rt: HostRuntime) -> Result<(), Fail> {
    let mut net = MemoryNet::make(rt.alloc(), plan(rt.alloc())?)?;
    let accepted = accept_first(&mut net);
    assert!(rt; accepted);
    let is_connected = [Err(LinkError::AlreadyConnected), Ok(true)];
    assert!(rt; connected_again(&mut net) == is_connected);
    assert!(rt; shut_first(&mut net) == Ok(()));
    assert!(rt; connected_again(&mut net) == is_connected);
    Ok(())
}

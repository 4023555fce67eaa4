//! A net of the system's sockets: listening, and the ends of its polls.
ghost use Rattle.std.specs.Prelude.{IfOk};
ghost use Rattle.nio_history.specs.PassViews.{HasNoPin};
ghost use Rattle.nio_words.specs.Passes.{IsReady};
ghost use Rattle.nio_words.specs.Views.{view};

use nio_base::{Addr, CallerNo, ChanId, ChanNo, Kind, Limits, Ops};
use nio_channel::{open_channel, register, set_blocking};
use nio_checked::CheckedNet;
use nio_history::Mode;
use nio_link::Net;
use nio_mio::{MioBell, MioNet};
use nio_poller::{Bell, PollError, Poller};
use nio_select::{Asked, Selecting, Told, open_selector, try_begin};
use nio_words::{Pass, Words};
use std::alloc::Global;
use std::io;
use std::net::{Ipv4Addr, TcpListener, TcpStream};
use std::sync::Wait;
use std::test::Fail;
use std::thread::{join, sleep};
use std::time::{Clock, Duration, Instant};

const SMALL: Limits = Limits {
    callers: 1,
    selectors: 1,
    channels: 1,
    keys: 1,
};

const ME: CallerNo = CallerNo(0);

/// The channel whose key is asked for.
const LINK: ChanNo = ChanNo(0);

/// Begins a selection that looks at the one key of a channel that reads.
fn begin<R: Wait>(rt: &R, alloc: Global, w: &Words, p: &mut Pass) -> Result<Selecting, Fail>
    requires ready { IsReady w.now p.old ME }
    requires unpinned { HasNoPin (view w.now p.old) ME }
{
    let sel = open_selector(w, p, ME)?;
    let chan = open_channel(w, p, ME, Kind::Stream)?;
    set_blocking(rt, w, p, ME, chan, false)?;
    let _key = register(rt, w, p, ME, sel, chan, Ops::READ, 0)?;
    let selection = try_begin(alloc, w, p, ME, sel, Mode::Wait)?;
    Ok(selection)
}

/// An address that nobody listens at.
fn free_address(rt: &HostRuntime) -> Result<Addr, Fail> {
    let listener = TcpListener::bind(rt, "127.0.0.1:0")?;
    Ok(Addr {
        ip: [127, 0, 0, 1],
        port: listener.local_addr()?.port(),
    })
}

fn connect(rt: &HostRuntime, at: Addr) -> io::Result<TcpStream> {
    let [a, b, c, d] = at.ip;
    TcpStream::connect(rt, (Ipv4Addr::new(a, b, c, d), at.port))
}

/// Whether a poll for the link waits for its whole time, and tells nothing.
fn waits_its_time<R: Wait + Clock, P: Poller>(
    rt: &R,
    alloc: Global,
    net: &mut P,
    asked: &Asked,
) -> Result<bool, Fail> {
    let begun = Instant::now(rt)?;
    let told = net.poll(rt, alloc, asked, Mode::waiting(20)?)?;
    let waited = begun.elapsed(rt)?;
    Ok(told.pairs.is_empty() && told.elapsed && waited >= Duration::from_millis(20))
}

/// A table whose caller has drawn its number.
fn table(alloc: Global) -> Result<(Words, Pass), Fail>
    ensures ready { IfOk result (λ made. IsReady made.0 made.1 ME) }
    ensures unpinned { IfOk result (λ made. HasNoPin (view made.0 made.1) ME) }
{
    let (words, mut p) = Words::make(alloc, SMALL)?;
    words.draw(&mut p, ME)?;
    Ok((words, p))
}

/// Rings after a time that is long enough for the other thread to wait.
fn ring_late(rt: &HostRuntime, bell: &MioBell) {
    sleep(rt, Duration::from_millis(20));
    bell.ring();
}

/// Whether it listens past the places, and at an address that is free, taken, and free again: there under the channel
/// that was refused.
fn listens<N: Net + Drop>(net: &mut CheckedNet<N>, at: Addr) -> [bool; 4] {
    let other = ChanId::first(ChanNo(1));
    let past = net.listen(ChanId::first(ChanNo(32_001)), at).is_ok();
    let first = net.listen(ChanId::first(LINK), at).is_ok();
    if net.listen(other, at).is_ok() {
        return [past, first, true, false];
    }
    net.close(ChanId::first(LINK));
    [past, first, false, net.listen(other, at).is_ok()]
}

#[test]
fn an_address_is_listened_at_once_and_polls_end(rt: HostRuntime) -> Result<(), Fail> {
    let at = free_address(&rt)?;
    let (net, bell) = MioNet::make(rt, rt.alloc())?;
    let mut net = CheckedNet::make(rt.alloc(), net, 32_002)?;
    assert!(rt; listens(&mut net, at) == [false, true, false, true]);
    let (words, mut p) = table(rt.alloc())?;
    let selection = begin(&rt, rt.alloc(), &words, &mut p)?;
    // A listener becomes ready, which the selection doesn't ask for.
    let client = connect(&rt, at);
    let waited = waits_its_time(&rt, rt.alloc(), &mut net, selection.asked());
    let (told, ()) = join(
        &rt,
        || -> Result<Told, PollError> { net.poll(&rt, rt.alloc(), selection.asked(), Mode::Wait) },
        || -> () { ring_late(&rt, &bell) },
    );
    selection.forget();
    let (waited, told) = (waited?, told?);
    assert!(rt; client.is_ok() && waited);
    assert!(rt; told.pairs.is_empty() && !told.elapsed);
    Ok(())
}

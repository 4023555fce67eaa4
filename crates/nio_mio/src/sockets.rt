//! The sockets by the numbers of their channels, and what the system told of each.
ghost use Rattle.std.specs.Prelude.{◌≡◌, ◌≤◌, None, IsTrue, IfOk, OnOk, length};
ghost use Rattle.nio_kept.specs.News.{AreApart, Continues, Knows, Remembers, ready_keys};
ghost use Rattle.nio_link.specs.Links.{IsGot, IsPut};

use crate::bell::MioBell;
use crate::causes::{Cause, cause_of};
use crate::socket;
use crate::socket::Socket;
use mio::event::Event;
use mio::net::TcpStream;
use mio::{Events, Poll, Registry, Token, Waker};
use nio_base::{Addr, ChanNo, Ops};
use nio_history::Mode;
use nio_kept::News;
use nio_link::{Failed, Got, Put};
use nio_poller::PollError;
use nio_select::{Asked, Told};
use std::alloc::{AllocError, Global};
use std::io;
use std::net::Net;
use std::sync::Wait;
use std::time::{Clock, Duration, Instant};

#[cfg(test)]
mod tests;

/// How many sockets there may be at first: the listener, and two links of each of 16,000 connections.
pub(crate) const PLACES: usize = 32_001;

/// The bell's token, past those of the sockets.
const BELL: Token = Token(usize::MAX);

/// How many events one poll takes from the system.
const EVENTS: usize = 1_024;

/// The sockets. A bit is kept for an operation of a channel from an event until a call finds it not ready, or a read
/// has taken all that had come.
#[derive(Drop)]
pub(crate) struct Sockets {
    poll: Option<Poll>,
    events: Events,
    sockets: Vec<Option<Socket>>,
    news: News,
    // Of which sockets the system has told an end or an error.
    ended: Vec<bool>,
    // How many links stand.
    links: usize,
    // The listeners that wait until a descriptor is free.
    waiting: Vec<ChanNo>,
    // A descriptor that is let go where none is left for a link that connects. None is accepted without it.
    spare: Option<Registry>,
}

impl Sockets {
    /// Takes all memory, and asks the system for a poll object and a waker. Where it refuses one of them, there is no
    /// poll object.
    pub(crate) fn make<R: Net>(rt: &R, alloc: Global) -> Result<(Sockets, MioBell), AllocError>
        ensures sockets { IfOk result (λ made. length made.0.sockets.items ≡ PLACES) }
        ensures news { IfOk result (λ made. length made.0.news.kept ≡ PLACES) }
        ensures ended { IfOk result (λ made. length made.0.ended.items ≡ PLACES) }
    {
        let mut sockets = Vec::new(alloc);
        sockets.resize_with(PLACES, no_socket)?;
        let news = News::make(alloc, PLACES)?;
        let ended = vec![in alloc; false; PLACES]?;
        let events = Events::with_capacity(alloc, EVENTS)?;
        let waiting = Vec::with_capacity(alloc, PLACES)?;
        let (poll, bell) = poll_and_bell(rt);
        let sockets = Sockets {
            poll,
            events,
            sockets,
            news,
            ended,
            links: 0,
            waiting,
            spare: None,
        };
        Ok((sockets, bell))
    }

    /// Waits as long as `mode` says, but not where a bit that is asked for is kept. Tells which keys of the list are
    /// ready by what is kept then, with what for. Where the list follows on the one that was seen last, only the keys that
    /// changed and those that may be ready are looked at. No list of a selection should have a channel twice, and each
    /// should follow on the one before as its stamp says, if it has one; no clause says so, and of another list nothing
    /// is promised.
    pub(crate) fn poll<R: Wait, C: Clock>(
        &mut self,
        rt: &R,
        clock: &C,
        alloc: Global,
        asked: &Asked,
        mode: Mode,
    ) -> Result<Told, PollError>
        ensures told { IfOk result (λ told. Continues self.old.news asked.now
            → told.pairs.items ≡ ready_keys self.new.news.kept asked.now.keys) }
        ensures unlisted { IfOk result (λ told. asked.now.stamp ≡ None → AreApart asked.now.keys
            → told.pairs.items ≡ ready_keys self.new.news.kept asked.now.keys) }
        ensures remembers { Continues self.old.news asked.now → Remembers self.new.news asked.now }
    {
        self.look(asked)?;
        let elapsed = self.wait(rt, clock, asked, mode)?;
        match self.news.tell(alloc, asked) {
            Ok(pairs) => Ok(Told { pairs, elapsed }),
            Err(AllocError) => Err(PollError::Memory),
        }
    }

    // Looks at the keys of the list that changed and at those that may be ready.
    fn look(&mut self, asked: &Asked) -> Result<(), PollError>
        ensures knows { OnOk result (Continues self.old.news asked.now → Knows self.new.news asked.now.keys) }
        ensures remembers { Continues self.old.news asked.now → Remembers self.new.news asked.now }
    {
        match self.news.look(asked) {
            Ok(()) => Ok(()),
            Err(AllocError) => Err(PollError::Memory),
        }
    }

    // Answers whether the time is over.
    fn wait<R: Wait, C: Clock>(
        &mut self,
        rt: &R,
        clock: &C,
        asked: &Asked,
        mode: Mode,
    ) -> Result<bool, PollError>
        ensures knows { OnOk result (Knows self.old.news asked.now.keys → Knows self.new.news asked.now.keys) }
        ensures remembers { Remembers self.old.news asked.now → Remembers self.new.news asked.now }
    {
        match mode {
            Mode::Now => {
                self.poll_once(Some(Duration::ZERO), asked)?;
                Ok(true)
            }
            Mode::For(_) | Mode::Wait if self.news.has_candidates() => {
                self.poll_once(Some(Duration::ZERO), asked)?;
                Ok(false)
            }
            Mode::For(ms) => self.wait_at_most(rt, clock, asked, Duration::from_millis(ms.get())),
            Mode::Wait => {
                self.wait_for(rt, asked)?;
                Ok(false)
            }
        }
    }

    // Waits until a bit that is asked for is kept, or the bell rings. What comes for other channels is kept meanwhile,
    // and a signal ends no wait.
    fn wait_for<R: Wait>(&mut self, rt: &R, asked: &Asked) -> Result<(), PollError>
        ensures knows { OnOk result (Knows self.old.news asked.now.keys → Knows self.new.news asked.now.keys) }
        ensures remembers { Remembers self.old.news asked.now → Remembers self.new.news asked.now }
    {
        for _ in rt.forever() {
            self.poll_once(None, asked)?;
            if self.is_told() {
                return Ok(());
            }
        }
        unreachable!()
    }

    // The same, but no longer than this time. Answers whether it is over.
    fn wait_at_most<R: Wait, C: Clock>(
        &mut self,
        rt: &R,
        clock: &C,
        asked: &Asked,
        time: Duration,
    ) -> Result<bool, PollError>
        ensures knows { OnOk result (Knows self.old.news asked.now.keys → Knows self.new.news asked.now.keys) }
        ensures remembers { Remembers self.old.news asked.now → Remembers self.new.news asked.now }
    {
        let begun = now(clock)?;
        for _ in rt.forever() {
            let left = time.saturating_sub(now(clock)?.duration_since(begun));
            self.poll_once(Some(left), asked)?;
            if self.is_told() {
                return Ok(false);
            }
            if left == Duration::ZERO {
                return Ok(true);
            }
        }
        unreachable!()
    }

    // Whether the last poll ends a wait.
    fn is_told(&self) -> bool {
        has_rung(&self.events) || self.news.has_candidates()
    }

    // One poll of the system, whose events are kept. The keys of their channels are looked at.
    fn poll_once(&mut self, timeout: Option<Duration>, asked: &Asked) -> Result<(), PollError>
        ensures knows { OnOk result (Knows self.old.news asked.now.keys → Knows self.new.news asked.now.keys) }
        ensures remembers { Remembers self.old.news asked.now → Remembers self.new.news asked.now }
    {
        self.poll_for(timeout)?;
        if hear_all(&mut self.news, &self.events, asked) {
            Ok(())
        } else {
            Err(PollError::Memory)
        }
    }

    // One poll of the system.
    fn poll_for(&mut self, timeout: Option<Duration>) -> Result<(), PollError>
        ensures { self.new.news ≡ self.old.news }
    {
        let Some(poll) = &mut self.poll else {
            return Err(PollError::Fault);
        };
        match poll.poll(&mut self.events, timeout) {
            Ok(()) => {
                keep_ends(&mut self.ended, &self.events);
                Ok(())
            }
            Err(_error) => Err(PollError::Fault),
        }
    }

    fn has_place(&self, chan: ChanNo) -> bool {
        (chan.0 as usize) < self.sockets.len()
    }

    // Puts a new socket in its place. One that stood there is closed.
    fn put(&mut self, chan: ChanNo, socket: Socket) -> Result<(), Failed> {
        self.close(chan);
        match self.sockets.get_mut(chan.0 as usize) {
            Some(place) => {
                *place = Some(socket);
                Ok(())
            }
            None => Err(Failed),
        }
    }

    fn put_link(&mut self, chan: ChanNo, link: Socket) -> Result<(), Failed> {
        self.put(chan, link)?;
        self.links = self.links.saturating_add(1);
        Ok(())
    }

    pub(crate) fn listen<R: Net>(&mut self, rt: &R, chan: ChanNo, at: Addr) -> Result<(), Failed> {
        if !self.has_place(chan) {
            return Err(Failed);
        }
        match socket::listen(rt, &self.poll, chan, at) {
            Ok(listener) => self.put(chan, listener),
            Err(_error) => Err(Failed),
        }
    }

    /// Where no descriptor is left, the connection waits in the listener's backlog until a link is closed.
    pub(crate) fn accept(&mut self, listener: ChanNo, chan: ChanNo) -> Result<bool, Failed> {
        if !self.has_place(chan) {
            return Err(Failed);
        }
        match self.accept_stream(listener) {
            Ok(stream) => match socket::link(&self.poll, chan, stream) {
                Ok(link) => {
                    self.put_link(chan, link)?;
                    Ok(true)
                }
                Err(_error) => Err(Failed),
            },
            Err(error) => self.not_accepted(listener, cause_of(&error)),
        }
    }

    fn accept_stream(&mut self, listener: ChanNo) -> io::Result<TcpStream> {
        if self.spare.is_none() {
            self.spare = Some(socket::spare(&self.poll)?);
        }
        socket::accept(&self.sockets, listener)
    }

    fn not_accepted(&mut self, listener: ChanNo, cause: Cause) -> Result<bool, Failed> {
        match cause {
            Cause::NotReady => {
                self.news.clear(listener, incoming());
                Ok(false)
            }
            Cause::Interrupted | Cause::Aborted => Ok(false),
            Cause::NoDescriptor if self.links > 0 => {
                self.news.clear(listener, incoming());
                self.await_descriptor(listener)
            }
            Cause::NoDescriptor | Cause::Fault => Err(Failed),
        }
    }

    fn await_descriptor(&mut self, listener: ChanNo) -> Result<bool, Failed> {
        if !self.waiting.contains(&listener) && self.waiting.push(listener).is_err() {
            return Err(Failed);
        }
        Ok(false)
    }

    pub(crate) fn connect<R: Net>(
        &mut self,
        rt: &R,
        chan: ChanNo,
        to: Addr,
    ) -> Result<bool, Failed> {
        if !self.has_place(chan) {
            return Err(Failed);
        }
        match self.begin_connect(rt, chan, to) {
            Ok((link, connected)) => {
                self.put_link(chan, link)?;
                Ok(connected)
            }
            Err(_error) => Err(Failed),
        }
    }

    // Where no descriptor is left, the spare one is let go for it.
    fn begin_connect<R: Net>(
        &mut self,
        rt: &R,
        chan: ChanNo,
        to: Addr,
    ) -> io::Result<(Socket, bool)> {
        match socket::connect(rt, &self.poll, chan, to) {
            Err(error) if cause_of(&error) == Cause::NoDescriptor && self.spare.is_some() => {
                self.spare = None;
                socket::connect(rt, &self.poll, chan, to)
            }
            begun => begun,
        }
    }

    /// A link that couldn't be connected is closed.
    pub(crate) fn finish_connect(&mut self, chan: ChanNo) -> Result<bool, Failed> {
        match socket::is_connected(&self.sockets, chan) {
            Ok(true) => Ok(true),
            Ok(false) => {
                self.news.clear(chan, Ops::CONNECT);
                Ok(false)
            }
            Err(_error) => {
                self.close(chan);
                Err(Failed)
            }
        }
    }

    /// Where an earlier read has taken all that had come, the system isn't asked before it tells of more.
    pub(crate) fn read(&mut self, chan: ChanNo, into: &mut [u8]) -> Result<Got, Failed>
        ensures { IfOk result (IsGot into.old) }
    {
        if self.news.of(chan).meet(Ops::READ) == Ops::NONE {
            return Ok(Got::NotYet);
        }
        let room = into.len();
        match socket::read(&mut self.sockets, chan, into) {
            Ok(0) => Ok(Got::End),
            Ok(count) => {
                self.keep_read(chan, count < room);
                Ok(Got::Bytes(count))
            }
            Err(error) => match self.not_moved(chan, incoming(), cause_of(&error)) {
                Ok(()) => Ok(Got::NotYet),
                Err(Failed) => Err(Failed),
            },
        }
    }

    // A read that gave fewer bytes than had room has taken all that had come, and the system tells of more. It doesn't
    // tell again of an end or an error that it told before that read.
    fn keep_read(&mut self, chan: ChanNo, took_all: bool) {
        if took_all && !has_ended(&self.ended, chan) {
            self.news.clear(chan, incoming());
        }
    }

    pub(crate) fn write(&mut self, chan: ChanNo, from: &[u8]) -> Result<Put, Failed>
        ensures { IfOk result (IsPut from.now) }
    {
        match socket::write(&mut self.sockets, chan, from) {
            Ok(0) => Err(Failed),
            Ok(count) => Ok(Put::Bytes(count)),
            Err(error) => match self.not_moved(chan, Ops::WRITE, cause_of(&error)) {
                Ok(()) => Ok(Put::NotYet),
                Err(Failed) => Err(Failed),
            },
        }
    }

    // No byte was moved.
    fn not_moved(&mut self, chan: ChanNo, op: Ops, cause: Cause) -> Result<(), Failed> {
        match cause {
            Cause::NotReady => {
                self.news.clear(chan, op);
                Ok(())
            }
            Cause::Interrupted => Ok(()),
            Cause::Aborted | Cause::NoDescriptor | Cause::Fault => Err(Failed),
        }
    }

    pub(crate) fn shut_write(&self, chan: ChanNo) -> Result<(), Failed> {
        match socket::shut_write(&self.sockets, chan) {
            Ok(()) => Ok(()),
            Err(_error) => Err(Failed),
        }
    }

    /// Closes the socket, where there is one. Other listeners that wait for a descriptor are then tried again.
    pub(crate) fn close(&mut self, chan: ChanNo) {
        if let Some(socket) = socket::take(&mut self.sockets, chan) {
            if let Socket::Link(_) = &socket {
                self.links = self.links.saturating_sub(1);
            }
            drop(socket);
            self.retry_waiting();
        }
        self.forget(chan);
    }

    // Forgets what the system told of a channel.
    fn forget(&mut self, chan: ChanNo) {
        self.news.keep_only(chan, Ops::NONE);
        if let Some(ended) = self.ended.get_mut(chan.0 as usize) {
            *ended = false;
        }
    }

    /// Takes out the link, where there is one. Its descriptor isn't free: listeners that wait for one go on waiting.
    pub(crate) fn take_out(&mut self, chan: ChanNo) -> Option<TcpStream> {
        let stream = socket::take_link(&self.poll, &mut self.sockets, chan);
        if stream.is_some() {
            self.links = self.links.saturating_sub(1);
        }
        self.forget(chan);
        stream
    }

    /// Makes places for the channels below this number.
    pub(crate) fn grow(&mut self, places: usize) -> Result<(), AllocError>
        ensures sockets { OnOk result (places ≤ length self.new.sockets.items) }
        ensures news { OnOk result (places ≤ length self.new.news.kept) }
        ensures ended { OnOk result (places ≤ length self.new.ended.items) }
    {
        let places = places.max(self.sockets.len());
        self.news.grow(places)?;
        self.ended.resize(places, false)?;
        self.sockets.resize_with(places, no_socket)
    }

    /// Puts a link in. Where the system refuses to watch it, it is closed, and counts as ready for all: so its next
    /// call is made, and fails.
    pub(crate) fn put_in(&mut self, chan: ChanNo, stream: Option<TcpStream>) {
        if self.watch(chan, stream).is_err() {
            self.news
                .add(chan, Ops::READ.union(Ops::WRITE).union(Ops::CONNECT));
        }
    }

    fn watch(&mut self, chan: ChanNo, stream: Option<TcpStream>) -> Result<(), Failed> {
        let Some(stream) = stream else {
            return Err(Failed);
        };
        match socket::link(&self.poll, chan, stream) {
            Ok(link) => self.put_link(chan, link),
            Err(_error) => Err(Failed),
        }
    }

    fn retry_waiting(&mut self) {
        for listener in &self.waiting {
            self.news.add(*listener, Ops::ACCEPT);
        }
        self.waiting.clear();
    }
}

fn no_socket() -> Option<Socket> {
    None
}

fn poll_and_bell<R: Net>(rt: &R) -> (Option<Poll>, MioBell) {
    let Ok(poll) = Poll::new(rt) else {
        return (None, MioBell::over(None));
    };
    match Waker::new(poll.registry(), BELL) {
        Ok(waker) => (Some(poll), MioBell::over(Some(waker))),
        Err(_error) => (None, MioBell::over(None)),
    }
}

fn now<C: Clock>(clock: &C) -> Result<Instant, PollError> {
    match Instant::now(clock) {
        Ok(now) => Ok(now),
        Err(_error) => Err(PollError::Fault),
    }
}

fn has_rung(events: &Events) -> bool {
    events.iter().any(|event| event.token() == BELL)
}

// Keeps what the events tell, and looks at the keys of their channels. Says whether there was memory for it.
fn hear_all(news: &mut News, events: &Events, asked: &Asked) -> bool
    ensures knows { IsTrue result → Knows news.old asked.now.keys → Knows news.new asked.now.keys }
    ensures remembers { Remembers news.old asked.now → Remembers news.new asked.now }
{
    let mut are_heard = true;
    for event in events {
        if let Some(chan) = channel_of(event) {
            are_heard &= news.hear(asked, chan, told_by(event));
        }
    }
    are_heard
}

// The channel of which an event tells; None for the bell's.
fn channel_of(event: &Event) -> Option<ChanNo> {
    let Token(place) = event.token();
    match u32::try_from(place) {
        Ok(number) => Some(ChanNo(number)),
        Err(_beyond) => None,
    }
}

fn keep_ends(ended: &mut [bool], events: &Events) {
    for event in events {
        if event.is_read_closed() || event.is_write_closed() || event.is_error() {
            let Token(place) = event.token();
            if let Some(ended) = ended.get_mut(place) {
                *ended = true;
            }
        }
    }
}

fn has_ended(ended: &[bool], chan: ChanNo) -> bool {
    match ended.get(chan.0 as usize) {
        Some(ended) => *ended,
        None => false,
    }
}

// What an event that a socket is readable tells. They are kept together and go together, since the system doesn't say
// whether the socket is a listener: so nothing of this stays kept of one from which all was taken.
fn incoming() -> Ops {
    Ops::READ.union(Ops::ACCEPT)
}

// An error or an end makes a socket ready for each operation that would find it.
fn told_by(event: &Event) -> Ops {
    let reads = event.is_readable() || event.is_read_closed() || event.is_error();
    let writes = event.is_writable() || event.is_write_closed() || event.is_error();
    let reading = if reads { incoming() } else { Ops::NONE };
    let writing = if writes {
        Ops::WRITE.union(Ops::CONNECT)
    } else {
        Ops::NONE
    };
    reading.union(writing)
}

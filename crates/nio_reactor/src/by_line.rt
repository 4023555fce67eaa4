//! The way of a worker: its links come on a line.

use crate::door::{Door, is_open};
use crate::handed::LISTENER;
use crate::handover::Handover;
use crate::heard::{Heard, hear, take_link};
use crate::lane::Lane;
use crate::lines::Lines;
use crate::ready::Ready;
use nio_base::{Addr, ChanId, Gate, Ops};
use nio_board::Polls;
use nio_history::{Milliseconds, Mode};
use nio_link::{Failed, Got, Net, Passable, Put};
use nio_poller::{PollError, Poller};
use nio_select::{Asked, Told};
use nio_serve::Way;
use std::alloc::Global;
use std::sync::Wait;

/// How long a worker's poll waits at most, while further links may come, where no bell rings for them: 4 ms.
const SHORT_WAIT: Mode = Mode::For(Milliseconds { after_the_first: 3 });

/// How long it waits at most where a bell rings, since a ring may be lost: 100 ms.
const LONG_WAIT: Mode = Mode::For(Milliseconds {
    after_the_first: 99,
});

/// Puts all links that have come on the worker's line into its net, and passes every other call on to the net.
#[derive(Clone, Copy)]
pub(crate) struct ByLine<'a, H, G> {
    rt: &'a H,
    gate: &'a G,
    /// How long a poll waits, while further links may come.
    wait: Mode,
    /// The index of the listener's key, once a poll was asked for it.
    listener: Option<u32>,
}

impl<'a, H, G> ByLine<'a, H, G> {
    ghost use Rattle.std.specs.Prelude.{IfSome};
    ghost use Rattle.nio_reactor.specs.Lanes.{IsListenerKey};

    /// The way of a worker. `has_bell` says that a bell rings where a link was sent.
    pub(crate) fn over(rt: &'a H, gate: &'a G, has_bell: bool) -> ByLine<'a, H, G> {
        let wait = if has_bell { LONG_WAIT } else { SHORT_WAIT };
        ByLine {
            rt,
            gate,
            wait,
            listener: None,
        }
    }

    // The index of the listener's key, where it is watched to accept. The key keeps its index.
    fn listener_key(&mut self, asked: &Asked) -> Option<u32>
        ensures { IfSome result (IsListenerKey asked.now.keys) }
    {
        if self.listener.is_none() {
            self.listener = first_key(asked);
        }
        let index = self.listener?;
        let key = asked.key(index)?;
        if key.channel == LISTENER.number && Ops::ACCEPT.within(key.interest) {
            Some(index)
        } else {
            None
        }
    }
}

// The least index of a key. The listener was registered first, so it is that of its key, as long as that is watched.
fn first_key(asked: &Asked) -> Option<u32> {
    for index in 0..asked.bound() {
        if asked.key(index).is_some() {
            return Some(index);
        }
    }
    None
}

impl<'a, H: Wait, N: Passable, K: Lines<N::Link>, G: Gate> Polls<Lane<N, K>> for ByLine<'a, H, G> {
    ghost use Rattle.std.proofs.Common.{refl, map, None};
    ghost use Rattle.nio_reactor.specs.Lanes.{IsKept, polls_over, ready_over};
    ghost use Rattle.nio_reactor.specs.Receiving.{is_early};

    ghost poll_faults = { λ l. polls_over (is_early l.heard) (N.poll_faults l.net) };

    ghost ready = { λ l. ready_over l.ready (N.ready l.net) };

    ghost polls = { λ l. None };

    ghost kept = { λ x y. IsKept (N.kept x.net y.net) x.door y.door (map (λ h. h.client) x.put)
        (map (λ h. h.client) y.put) };

    fn poll<R: Wait>(
        &mut self,
        lane: &mut Lane<N, K>,
        rt: &R,
        alloc: Global,
        asked: &Asked,
        mode: Mode,
    ) -> Result<Told, PollError> {
        if matches!(
            lane.heard,
            Heard::Refused(_) | Heard::Early | Heard::Over(_)
        ) {
            return Err(PollError::Memory);
        }
        let told_line = lane.ready.is_of_line();
        lane.ready = Ready::Net;
        if lane.left == 0 || !is_open(lane.worker, lane.door) {
            return lane.net.poll(rt, alloc, asked, mode);
        }
        let Some(index) = self.listener_key(asked) else {
            return lane.net.poll(rt, alloc, asked, mode);
        };
        let is_idle = asked.len() == 1;
        hear(
            rt,
            self.gate,
            lane.worker,
            &mut lane.line,
            &mut lane.heard,
            is_idle,
        );
        match lane.heard {
            Heard::End if is_idle => {
                lane.heard = Heard::Early;
                return Err(PollError::Fault);
            }
            // the connections that are live go on
            Heard::End => return lane.net.poll(rt, alloc, asked, mode),
            Heard::Nothing => return lane.net.poll(rt, alloc, asked, self.wait),
            Heard::Refused(_) | Heard::Early | Heard::Over(_) => return Err(PollError::Memory),
            Heard::Link(_) => {}
        }
        if told_line {
            // The last poll told of the line. This one polls the net, so that neither keeps the other waiting.
            return lane.net.poll(rt, alloc, asked, Mode::Now);
        }
        let told = vec![in alloc; (index, Ops::ACCEPT)];
        let Ok(pairs) = told else {
            return Err(PollError::Memory);
        };
        lane.ready = Ready::Line;
        Ok(Told {
            pairs,
            elapsed: false,
        })
    }

    ghost kept_same = { λ x. record { net = N.kept_same x.net; door = refl; accepted = refl } };
}

impl<'a, H: Wait, N: Passable, K: Lines<N::Link>, G: Gate> Way<Lane<N, K>> for ByLine<'a, H, G> {
    ghost use Rattle.std.proofs.Common.{ap, ◌∙◌, if◌then◌else◌, map};
    ghost use Rattle.nio_reactor.specs.Lanes.{door_place, seen, place_over, faults_over, is_listener};

    ghost link = { λ l. N.link l.net };

    ghost faults = { λ l. faults_over (N.faults l.net) };

    ghost place = { λ l. place_over l.door (N.place l.net) };

    ghost accepted = { λ l. map (λ h. h.client) l.put };

    fn permits(&self, _chan: ChanId) -> Ops {
        Ops::of(u8::MAX)
    }

    fn permitted(&mut self) -> Option<ChanId> {
        None
    }

    fn begin_round<R: Wait>(&mut self, _rt: &R) {}

    fn listen(&mut self, lane: &mut Lane<N, K>, chan: ChanId, at: Addr) -> Result<(), Failed> {
        if chan == LISTENER {
            lane.ready = lane.ready.without_listener();
            lane.door = Door::Open(at);
            return Ok(());
        }
        lane.net.listen(chan, at)
    }

    fn accept(
        &mut self,
        lane: &mut Lane<N, K>,
        listener: ChanId,
        chan: ChanId,
    ) -> Option<Result<bool, Failed>> {
        if listener != LISTENER
            || lane.ready != Ready::Line
            || lane.left == 0
            || !is_open(lane.worker, lane.door)
            || chan.number.0 >= 2 * lane.slots
        {
            return None;
        }
        hear(
            self.rt,
            self.gate,
            lane.worker,
            &mut lane.line,
            &mut lane.heard,
            false,
        );
        let Some(handed) = take_link(&mut lane.heard) else {
            lane.ready = Ready::Nothing;
            return Some(Ok(false));
        };
        let (connection, link) = handed.into_parts();
        if lane.net.put_in(chan, link).is_err() {
            lane.heard = Heard::Refused(connection);
            lane.ready = Ready::Nothing;
            return Some(Ok(false));
        }
        lane.left -= 1;
        lane.put.push(&Handover {
            connection,
            worker: lane.worker,
            client: chan,
        });
        Some(Ok(true))
    }

    fn connect(
        &mut self,
        lane: &mut Lane<N, K>,
        chan: ChanId,
        to: Addr,
    ) -> Option<Result<bool, Failed>> {
        if chan == LISTENER {
            return None;
        }
        Some(lane.net.connect(chan, to))
    }

    fn finish_connect(
        &mut self,
        lane: &mut Lane<N, K>,
        chan: ChanId,
    ) -> Option<Result<bool, Failed>> {
        Some(lane.net.finish_connect(chan))
    }

    fn read(
        &mut self,
        lane: &mut Lane<N, K>,
        chan: ChanId,
        into: &mut [u8],
    ) -> Option<Result<Got, Failed>> {
        Some(lane.net.read(chan, into))
    }

    fn write(
        &mut self,
        lane: &mut Lane<N, K>,
        chan: ChanId,
        from: &[u8],
    ) -> Option<Result<Put, Failed>> {
        Some(lane.net.write(chan, from))
    }

    fn shut_write(&mut self, lane: &mut Lane<N, K>, chan: ChanId) -> Result<(), Failed> {
        lane.net.shut_write(chan)
    }

    fn close(&mut self, lane: &mut Lane<N, K>, chan: ChanId) {
        if chan == LISTENER {
            if let Door::Open(at) = lane.door {
                lane.ready = lane.ready.without_listener();
                lane.door = Door::Closed(at);
            }
            return;
        }
        lane.net.close(chan)
    }

    ghost kept_links = { λ x y h. N.kept_links x.net y.net h.net };

    ghost kept_faults = { λ x y h c. ap (λ n. if is_listener c then 0 else n) (N.kept_faults x.net y.net h.net c) };

    ghost kept_places = { λ x y h c. ap (λ d. place_over d (N.place y.net) c) h.door
        ∙ ap (λ p. if is_listener c then door_place x.door else seen p) (N.kept_places x.net y.net h.net c) };

    ghost kept_accepted = { λ x y h. h.accepted };
}

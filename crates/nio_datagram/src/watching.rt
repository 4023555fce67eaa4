//! Watching the two channels of a relay.
ghost use Rattle.std.specs.Prelude.{◌≡◌};
ghost use Rattle.nio_poller.specs.Polls.{told_of_channel};
ghost use Rattle.nio_steps.specs.SelectCalls.{told_at};

use nio_base::{ChanId, ChanNo, Kind, Ops};
use nio_board::{Board, Port, Refused};
use nio_select::{Asked, Told};
use std::sync::Wait;

/// A channel that is watched, and for what.
#[derive(Clone, Copy, Debug, PartialEq, Eq)]
pub(crate) struct Watched {
    port: Port,
    interest: Ops,
}

/// Opens the next channel of the table, and watches it for nothing yet.
pub(crate) fn watch<R: Wait>(
    board: &mut Board<'_>,
    rt: &R,
    chan: ChanNo,
) -> Result<Watched, Refused> {
    let port = board.watch(rt, ChanId::first(chan), Kind::Datagram, Ops::NONE)?;
    Ok(Watched {
        port,
        interest: Ops::NONE,
    })
}

/// Watches a channel for these operations.
pub(crate) fn set(
    board: &mut Board<'_>,
    watched: &mut Watched,
    interest: Ops,
) -> Result<(), Refused> {
    if watched.interest != interest {
        board.set(watched.port, interest)?;
        watched.interest = interest;
    }
    Ok(())
}

/// What was told of a channel: of the keys that were asked for, what was told of those of this channel.
#[tactic(auto, using(nio_select::proofs::KeysTo::none_below, crate::proofs::Told::key_more))]
pub(crate) fn told_of(asked: &Asked, told: &Told, chan: ChanNo) -> Ops
    ensures { result ≡ told_of_channel asked.now.keys told.now.pairs.items chan }
{
    let mut ops = Ops::NONE;
    for index in 0..asked.bound() {
        if let Some(key) = asked.key(index) {
            if key.channel == chan {
                ops = ops.union(told_of_key(&told.pairs, key.index));
            }
        }
    }
    ops
}

// What was told of a key.
#[tactic(auto, using(crate::proofs::Told::pair_more))]
fn told_of_key(pairs: &[(u32, Ops)], index: u32) -> Ops
    ensures { result ≡ told_at pairs.now index }
{
    let mut ops = Ops::NONE;
    for &(one, told) in pairs {
        if one == index {
            ops = ops.union(told);
        }
    }
    ops
}

//! What a poll told, by channels.
ghost use Rattle.std.specs.Prelude.{◌≡◌, ◌↔◌, ◌==◌, if◌then◌else◌, ◌≤◌, [], IsTrue, bit_or, length, map, vec_capacity};
ghost use Rattle.nio_link.specs.Readiness.{without as without_op};
ghost use Rattle.nio_steps.specs.SelectCalls.{told_at};
ghost use Rattle.nio_checked.specs.Listed.{IsTold, changed_at, listed, told_after};

use nio_base::{ChanNo, Ops};
use nio_select::Asked;

/// Lists, for each key that was asked for, its channel with what was told of it and asked for.
#[tactic(auto, using(nio_select::proofs::KeysTo::none_below))]
pub(crate) fn list(asked: &Asked, pairs: &[(u32, Ops)], told: &mut Vec<(ChanNo, Ops)>)
    requires empty { told.old.items ≡ [] }
    requires room { length asked.now.keys ≤ vec_capacity told.old }
    ensures { told.new.items ≡ listed pairs.now asked.now.keys }
{
    for index in 0..asked.bound() {
        if let Some(key) = asked.key(index) {
            told.push_reserved((key.channel, told_of(pairs, key.index).meet(key.interest)));
        }
    }
}

// What was told of the key with this index.
fn told_of(pairs: &[(u32, Ops)], index: u32) -> Ops
    ensures { result ≡ told_at pairs.now index }
{
    let mut bits = Ops::NONE;
    for pair in pairs {
        bits = with_pair(bits, *pair, index);
    }
    bits
}

fn with_pair(bits: Ops, pair: (u32, Ops), index: u32) -> Ops
    ensures { result ≡ if pair.0 == index then bit_or bits pair.1 else bits }
{
    if pair.0 == index {
        bits.union(pair.1)
    } else {
        bits
    }
}

/// Whether the list tells of the channel that it is ready for this operation.
pub(crate) fn is_told(told: &[(ChanNo, Ops)], chan: ChanNo, op: Ops) -> bool
    ensures { IsTrue result ↔ IsTold told.now chan op }
{
    told.iter()
        .any(|&(ready, ops)| ready.0 == chan.0 && op.within(ops))
}

/// Lists the channel as ready for nothing.
#[tactic(auto, using(crate::proofs::Keeping::all_taken))]
pub(crate) fn tell_nothing(told: &mut [(ChanNo, Ops)], chan: ChanNo)
    ensures { told.new ≡ told_after chan (λ _. 0) told.old }
{
    untell(told, chan, Ops::of(u8::MAX));
}

/// Lists the channel as not ready for this operation.
pub(crate) fn untell(told: &mut [(ChanNo, Ops)], chan: ChanNo, op: Ops)
    ensures { told.new ≡ told_after chan (without_op op) told.old }
{
    for one in told.iter_mut() {
        *one = without(*one, chan, op);
    }
}

// The same, but without the operation where it is of the channel.
fn without(one: (ChanNo, Ops), chan: ChanNo, op: Ops) -> (ChanNo, Ops)
    ensures { result ≡ changed_at chan (without_op op) one }
{
    let (ready, ops) = one;
    if ready.0 == chan.0 {
        (ready, ops.meet(Ops::of(!op.bits())))
    } else {
        (ready, ops)
    }
}

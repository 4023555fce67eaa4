//! Words as parts of the state: the other way round from `encode`.
ghost use Rattle.std.specs.Prelude.{◌≡◌, ◌<◌};
ghost use Rattle.nio_words.specs.Decodings.{is_set, gate_of, stage_of, operations_of, number_of, kind_of, chan_of};
ghost use Rattle.nio_words.specs.Decodings.{mark_of, holder_of, enrolled_of, index_of};

use nio_base::{CallerNo, ChanNo, KeyId, Kind, Ops};
use nio_history::{Chan, GateWord, IndexWord, Mark, Stage};

/// Whether bit `k` is set.
#[inline(always)]
pub(crate) fn is_set(word: u64, k: u32) -> bool
    requires { k < 64 }
    ensures { result ≡ is_set word k }
{
    (word >> k) % 2 == 1
}

#[inline(always)]
pub(crate) fn gate_of(word: u64) -> GateWord
    ensures { result ≡ gate_of word }
{
    GateWord {
        woken: is_set(word, 0),
        shut: is_set(word, 1),
    }
}

#[inline(always)]
pub(crate) fn stage_of(word: u64) -> Stage
    ensures { result ≡ stage_of word }
{
    Stage {
        claimed: is_set(word, 0),
        published: is_set(word, 1),
        cancelled: is_set(word, 2),
        removed: is_set(word, 3),
        chan: ChanNo(((word >> 12) % (1 << 20)) as u32),
        serial: (word >> 32) as u32,
    }
}

#[inline(always)]
pub(crate) fn index_of(word: u64) -> IndexWord
    ensures { result ≡ index_of word }
{
    IndexWord {
        stage: stage_of(word),
        pinned: (word >> 4) % (1 << 8) != 0,
    }
}

#[inline(always)]
pub(crate) fn operations_of(word: u64) -> Ops
    ensures { result ≡ operations_of word }
{
    Ops::of((word % 256) as u8)
}

#[inline(always)]
pub(crate) fn number_of(word: u64) -> u32
    ensures { result ≡ number_of word }
{
    (word % (1 << 32)) as u32
}

#[inline(always)]
fn kind_of(code: u64) -> Kind
    ensures { result ≡ kind_of code }
{
    match code {
        0 => Kind::Stream,
        1 => Kind::Listener,
        2 => Kind::Source,
        3 => Kind::Sink,
        _ => Kind::Datagram,
    }
}

#[inline(always)]
pub(crate) fn chan_of(word: u64) -> Chan
    ensures { result ≡ chan_of word }
{
    Chan {
        made: is_set(word, 0),
        kind: kind_of((word >> 1) % 8),
        closed: is_set(word, 4),
        blocking: !is_set(word, 5),
        serial: (word >> 32) as u32,
    }
}

#[inline(always)]
pub(crate) fn holder_of(word: u64) -> Option<CallerNo>
    ensures { result ≡ holder_of word }
{
    if word == 0 {
        None
    } else {
        Some(CallerNo(number_of(word - 1)))
    }
}

#[inline(always)]
pub(crate) fn enrolled_of(word: u64) -> Option<KeyId>
    ensures { result ≡ enrolled_of word }
{
    if word == 0 {
        None
    } else {
        Some(KeyId {
            index: number_of(word - 1),
            serial: (word >> 32) as u32,
        })
    }
}

#[inline(always)]
pub(crate) fn mark_of(word: u64) -> Mark
    ensures { result ≡ mark_of word }
{
    Mark {
        selected: is_set(word, 8),
        ready: operations_of(word),
    }
}

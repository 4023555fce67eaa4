//! An index for a new key of a channel.
ghost use Rattle.std.specs.Prelude.{◌≡◌, ◌+◌, ◌*◌, ◌<◌, ◌≤◌, ◌&&◌, nat_lt, if◌then◌else◌, None, IfSome, IsTrue};
ghost use Rattle.nio_history.specs.Conditions.{AllClaimed, IsKey, IsSelector, has_taken};
ghost use Rattle.nio_history.specs.PassViews.{HasNoPin};
ghost use Rattle.nio_steps.specs.Calls.{CallClause};
ghost use Rattle.nio_steps.specs.ChannelCalls.{claim_taken as claims_taken, claim_free as claims_free, claim_at_bit};
ghost use Rattle.nio_steps.specs.ChannelCalls.{claim_in_word, search_free as searches_free};
ghost use Rattle.nio_steps.specs.ChannelCalls.{words_below as count_words_below, claim_new as claims_new};
ghost use Rattle.nio_steps.specs.Runs.{Completes};
ghost use Rattle.nio_steps.specs.Sweeps.{seek_to};
ghost use Rattle.nio_words.specs.Passes.{limits_of, state_seen};
ghost use Rattle.nio_words.specs.Views.{view};
ghost use Rattle.nio_channel.specs.Held.{MayEnrol, HasClaimed};

use nio_base::{CallerNo, ChanId, KeyId, SelNo};
use nio_steps::has_bit;
use nio_words::{Pass, Words};

// Claims again the first index below `mark` that is free and unpinned.
pub(crate) fn search_free(
    w: &Words,
    p: &mut Pass,
    me: CallerNo,
    sel: SelNo,
    chan: ChanId,
    mark: u32,
) -> Option<KeyId>
    requires may { MayEnrol w.now p.old me chan sel }
    requires selector { IsSelector (limits_of w.now) sel }
    requires mark { mark ≤ (limits_of w.now).keys }
    requires unpinned { HasNoPin (view w.now p.old) me }
    ensures call { CallClause me (Completes (searches_free sel chan.number mark))
        (view w.now p.old) (view w.now p.new) result }
    ensures may { MayEnrol w.now p.new me chan sel }
    ensures unpinned { result ≡ None → HasNoPin (view w.now p.new) me }
    ensures claimed { IfSome result (HasClaimed w.now p.new me chan.number sel) }
{
    for j in 0..words_below(w, mark) {
        if let Some(k) = search_word(w, p, me, sel, chan, mark, j) {
            return Some(k);
        }
    }
    None
}

// The number of words, of 64 indexes each, that the indexes below `mark` stand in.
fn words_below(w: &Words, mark: u32) -> u32
    requires { mark ≤ (limits_of w.now).keys }
    ensures { result ≡ count_words_below mark }
{
    (mark + 63) / 64
}

// `search_free` among the 64 indexes from `64 * j` on.
fn search_word(
    w: &Words,
    p: &mut Pass,
    me: CallerNo,
    sel: SelNo,
    chan: ChanId,
    mark: u32,
    j: u32,
) -> Option<KeyId>
    requires may { MayEnrol w.now p.old me chan sel }
    requires selector { IsSelector (limits_of w.now) sel }
    requires mark { mark ≤ (limits_of w.now).keys }
    requires below { 64 * j < mark }
    requires unpinned { HasNoPin (view w.now p.old) me }
    ensures call { CallClause me (Completes (claim_in_word sel chan.number mark j))
        (view w.now p.old) (view w.now p.new) result }
    ensures may { MayEnrol w.now p.new me chan sel }
    ensures unpinned { result ≡ None → HasNoPin (view w.now p.new) me }
    ensures claimed { IfSome result (HasClaimed w.now p.new me chan.number sel) }
{
    let word = w.look_free(p, me, sel, j);
    if word == 0 {
        return None;
    }
    search_bits(w, p, me, sel, chan, mark, j, word)
}

// `search_free` among those of these 64 indexes that `word`, which the look found, shows as free.
fn search_bits(
    w: &Words,
    p: &mut Pass,
    me: CallerNo,
    sel: SelNo,
    chan: ChanId,
    mark: u32,
    j: u32,
    word: u64,
) -> Option<KeyId>
    requires may { MayEnrol w.now p.old me chan sel }
    requires selector { IsSelector (limits_of w.now) sel }
    requires mark { mark ≤ (limits_of w.now).keys }
    requires below { 64 * j < mark }
    requires unpinned { HasNoPin (view w.now p.old) me }
    ensures call { CallClause me (Completes (seek_to 64 0 (claim_at_bit sel chan.number mark j word)))
        (view w.now p.old) (view w.now p.new) result }
    ensures may { MayEnrol w.now p.new me chan sel }
    ensures unpinned { result ≡ None → HasNoPin (view w.now p.new) me }
    ensures claimed { IfSome result (HasClaimed w.now p.new me chan.number sel) }
{
    for b in 0..64 {
        if let Some(k) = claim_bit(w, p, me, sel, chan, mark, j, word, b) {
            return Some(k);
        }
    }
    None
}

fn claim_bit(
    w: &Words,
    p: &mut Pass,
    me: CallerNo,
    sel: SelNo,
    chan: ChanId,
    mark: u32,
    j: u32,
    word: u64,
    b: u32,
) -> Option<KeyId>
    requires may { MayEnrol w.now p.old me chan sel }
    requires selector { IsSelector (limits_of w.now) sel }
    requires mark { mark ≤ (limits_of w.now).keys }
    requires below { 64 * j < mark }
    requires bit { b < 64 }
    requires unpinned { HasNoPin (view w.now p.old) me }
    ensures call { CallClause me (Completes (claim_at_bit sel chan.number mark j word b))
        (view w.now p.old) (view w.now p.new) result }
    ensures may { MayEnrol w.now p.new me chan sel }
    ensures unpinned { result ≡ None → HasNoPin (view w.now p.new) me }
    ensures claimed { IfSome result (HasClaimed w.now p.new me chan.number sel) }
{
    let i = 64 * j + b;
    if has_bit(word, b) && i < mark {
        claim_free(w, p, me, sel, chan, i)
    } else {
        None
    }
}

// Claims the index again, where it is free and unpinned.
fn claim_free(
    w: &Words,
    p: &mut Pass,
    me: CallerNo,
    sel: SelNo,
    chan: ChanId,
    i: u32,
) -> Option<KeyId>
    requires may { MayEnrol w.now p.old me chan sel }
    requires key { IsKey (limits_of w.now) sel i }
    requires unpinned { HasNoPin (view w.now p.old) me }
    ensures call { CallClause me (Completes (claims_free sel chan.number i))
        (view w.now p.old) (view w.now p.new) result }
    ensures may { MayEnrol w.now p.new me chan sel }
    ensures unpinned { result ≡ None → HasNoPin (view w.now p.new) me }
    ensures claimed { IfSome result (HasClaimed w.now p.new me chan.number sel) }
{
    if w.take_free(p, me, sel, i) {
        claim_taken(w, p, me, sel, chan, i)
    } else {
        None
    }
}

// Claims the index that the caller took. Where somebody has a pin on it, it is free again.
fn claim_taken(
    w: &Words,
    p: &mut Pass,
    me: CallerNo,
    sel: SelNo,
    chan: ChanId,
    i: u32,
) -> Option<KeyId>
    requires may { MayEnrol w.now p.old me chan sel }
    requires key { IsKey (limits_of w.now) sel i }
    requires taken { IsTrue (has_taken (state_seen p.old) me sel i) }
    requires unpinned { HasNoPin (view w.now p.old) me }
    ensures call { CallClause me (Completes (claims_taken sel chan.number i))
        (view w.now p.old) (view w.now p.new) result }
    ensures may { MayEnrol w.now p.new me chan sel }
    ensures unpinned { result ≡ None → HasNoPin (view w.now p.new) me }
    ensures claimed { IfSome result (HasClaimed w.now p.new me chan.number sel) }
{
    let stage = w.look_key(p, me, sel, i);
    if w.claim_again(p, me, sel, i, chan.number, stage) {
        w.put_free(p, me, sel, i);
        None
    } else {
        Some(KeyId {
            index: i,
            serial: stage.serial + 1,
        })
    }
}

// Claims the first index from `mark` on that was never claimed.
pub(crate) fn claim_first(
    w: &Words,
    p: &mut Pass,
    me: CallerNo,
    sel: SelNo,
    chan: ChanId,
    mark: u32,
) -> Option<KeyId>
    requires may { MayEnrol w.now p.old me chan sel }
    requires selector { IsSelector (limits_of w.now) sel }
    requires lower { AllClaimed (state_seen p.old) sel mark }
    requires unpinned { HasNoPin (view w.now p.old) me }
    ensures call { CallClause me (Completes (seek_to (limits_of w.now).keys mark (claims_new sel chan.number)))
        (view w.now p.old) (view w.now p.new) result }
    ensures may { MayEnrol w.now p.new me chan sel }
    ensures unpinned { result ≡ None → HasNoPin (view w.now p.new) me }
    ensures claimed { IfSome result (HasClaimed w.now p.new me chan.number sel) }
    ensures lower { IfSome result (λ k. AllClaimed (state_seen p.new) sel (k.index + 1)) }
{
    for i in mark..w.limits().keys {
        if let Some(k) = claim_new(w, p, me, sel, chan, i) {
            return Some(k);
        }
    }
    None
}

// Claims the index for its first key, unless it was claimed.
fn claim_new(
    w: &Words,
    p: &mut Pass,
    me: CallerNo,
    sel: SelNo,
    chan: ChanId,
    i: u32,
) -> Option<KeyId>
    requires may { MayEnrol w.now p.old me chan sel }
    requires key { IsKey (limits_of w.now) sel i }
    requires lower { AllClaimed (state_seen p.old) sel i }
    requires unpinned { HasNoPin (view w.now p.old) me }
    ensures call { CallClause me (Completes (claims_new sel chan.number i))
        (view w.now p.old) (view w.now p.new) result }
    ensures may { MayEnrol w.now p.new me chan sel }
    ensures unpinned { result ≡ None → HasNoPin (view w.now p.new) me }
    ensures claimed { IfSome result (HasClaimed w.now p.new me chan.number sel) }
    ensures lower { AllClaimed (state_seen p.new) sel (i + 1) }
    ensures its { IfSome result (λ k. k.index ≡ i) }
{
    if w.claim(p, me, sel, i, chan.number) {
        None
    } else {
        Some(KeyId {
            index: i,
            serial: 0,
        })
    }
}

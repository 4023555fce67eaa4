//! Two threads that step beside each other on one table.
ghost use Rattle.nio_history.specs.Conditions.{IsKey};
ghost use Rattle.nio_words.specs.Passes.{IsPassOf, IsReady, limits_of};
ghost use Rattle.nio_table_tests.specs.Callers.{MayCall};

use super::SMALL;
use super::worked::remove_first_key;
use crate::tables::{ONE, S, ZERO, drawn_table, hand_over, table};
use nio_base::CallerNo;
use nio_words::{Pass, Words};
use std::test::Fail;
use std::thread::{Threads, join};

fn wakes(words: &Words, mut p: Pass, me: CallerNo) -> (Pass, bool)
    requires { MayCall words.now p me }
    ensures { IsPassOf words.now result.0 }
{
    let pending = words.wake(&mut p, me, S);
    (p, pending)
}

/// Both callers wake the selector, in threads of their own. Says what each found.
fn both_wake<R: Threads + Sync>(rt: &R, words: &Words, p: Pass, q: Pass) -> (Pass, bool, bool)
    requires first { MayCall words.now p ZERO }
    requires second { MayCall words.now q ONE }
{
    let ((mut p, first), (q, second)) = join(
        rt,
        || -> (Pass, bool)
            requires { MayCall words.now p ZERO }
            ensures { IsPassOf words.entry.now result.0 }
        { wakes(words, p, ZERO) },
        || -> (Pass, bool)
            requires { MayCall words.now q ONE }
            ensures { IsPassOf words.entry.now result.0 }
        { wakes(words, q, ONE) },
    );
    words.join(&mut p, q);
    (p, first, second)
}

#[test]
fn two_threads_wake(rt: HostRuntime) -> Result<(), Fail> {
    let (words, mut p) = table(rt.alloc(), SMALL)?;
    let q = hand_over(&words, &mut p)?;
    assert!(rt; p.holds(ZERO) && !p.holds(ONE) && q.holds(ONE));
    let (p, first, second) = both_wake(&rt, &words, p, q);
    assert!(rt;
        first != second,
        "one of them found no wakeup, and the other found it"
    );
    assert!(rt; p.holds(ZERO) && p.holds(ONE));
    Ok(())
}

/// Takes index 0 out of the free ones, and puts it back where it got it. Says whether it did.
fn takes_and_puts(words: &Words, mut p: Pass, me: CallerNo) -> (Pass, bool)
    requires ready { IsReady words.now p me }
    requires key { IsKey (limits_of words.now) S 0 }
    ensures { IsReady words.now result.0 me }
{
    let free = words.take_free(&mut p, me, S, 0);
    if free {
        words.put_free(&mut p, me, S, 0);
    }
    (p, free)
}

/// Both callers do so, in threads of their own. Says what each did, and which indexes are free then.
fn both_take_and_put<R: Threads + Sync>(
    rt: &R,
    words: &Words,
    p: Pass,
    q: Pass,
) -> (bool, bool, u64)
    requires first { IsReady words.now p ZERO }
    requires second { IsReady words.now q ONE }
    requires key { IsKey (limits_of words.now) S 0 }
{
    let ((mut p, first), (q, second)) = join(
        rt,
        || -> (Pass, bool)
            requires { IsReady words.now p ZERO × IsKey (limits_of words.now) S 0 }
            ensures { IsReady words.entry.now result.0 ZERO }
        { takes_and_puts(words, p, ZERO) },
        || -> (Pass, bool)
            requires { IsReady words.now q ONE × IsKey (limits_of words.now) S 0 }
            ensures { IsReady words.entry.now result.0 ONE }
        { takes_and_puts(words, q, ONE) },
    );
    words.join(&mut p, q);
    (first, second, words.look_free(&mut p, ZERO, S, 0))
}

#[test]
fn two_threads_take_and_put(rt: HostRuntime) -> Result<(), Fail> {
    let (words, mut p) = drawn_table(rt.alloc(), SMALL)?;
    remove_first_key(&rt, &words, &mut p);
    let q = words.hand_over(&mut p, ONE)?;
    let (first, second, free) = both_take_and_put(&rt, &words, p, q);
    assert!(rt; first || second, "whoever came first got it");
    assert!(rt; free == 1);
    Ok(())
}

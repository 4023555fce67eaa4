//! Worked rows of a queue of completions.
ghost use Rattle.std.specs.Prelude.{◌≡◌, ◌∷◌, [], All, IfSome, IsTrue};
ghost use Rattle.nio_pool.specs.Hands.{hand};
ghost use Rattle.nio_pool.specs.Queues.{new_pass};

use crate::group::{close_stream, limits, start_read};
use nio_group::{Completion, GroupCore};
use nio_pool::{CompletionQueue, QueuePass};
use std::alloc::Global;
use std::sync::Wait;
use std::test::Fail;

/// The last of these passes.
#[tactic(auto, using(crate::proofs::Passes::last, crate::proofs::Passes::all_but_last))]
pub fn next_pass(queue: &CompletionQueue, passes: &mut Vec<QueuePass>) -> Option<QueuePass>
    requires { All (λ p. p ≡ new_pass queue.now) passes.old.items }
    ensures pass { IfSome result (λ p. p ≡ new_pass queue.now) }
    ensures rest { All (λ p. p ≡ new_pass queue.now) passes.new.items }
{
    passes.pop()
}

/// The first pass puts operation 0. The second's put of operation 1 is handed back, and it takes operation 0, and then
/// nothing. It is joined into the first. Answers whether all that came so.
fn hands_back<R: Wait>(
    rt: &R,
    queue: &CompletionQueue,
    first: &mut QueuePass,
    mut second: QueuePass,
    zero: Completion,
    one: Completion,
) -> bool
    requires parts { queue.now.parts ≡ 2 }
    requires first { first.old ≡ new_pass queue.now }
    requires second { second ≡ new_pass queue.now }
    ensures { IsTrue result → first.new.hand ≡ hand 2 2 (0 ∷ []) (0 ∷ []) }
{
    if zero.op().0 != 0 || queue.put(rt, first, zero).is_err() {
        return false;
    }
    let Err(back) = queue.put(rt, &mut second, one) else {
        return false;
    };
    let Some(taken) = queue.take(rt, &mut second) else {
        return false;
    };
    if back.op().0 != 1 || taken.done().op().0 != 0 {
        return false;
    }
    if queue.take(rt, &mut second).is_some() {
        return false;
    }
    queue.join(first, second);
    true
}

/// A core with the completions of operations 0 and 1.
fn with_two_completed(alloc: Global) -> Result<GroupCore, Fail> {
    let mut core = GroupCore::make(alloc, limits(2))?;
    close_stream(&mut core)?;
    start_read(&mut core)?;
    start_read(&mut core)?;
    Ok(core)
}

#[test]
fn queue_hands_back(rt: HostRuntime) -> Result<(), Fail> {
    let mut core = with_two_completed(rt.alloc())?;
    let zero = core.take().expect(&rt, "operation 0 has completed");
    let one = core.take().expect(&rt, "operation 1 has completed");
    let (queue, mut passes) = CompletionQueue::make(rt.alloc(), 2, 1)?;
    let second = next_pass(&queue, &mut passes).expect(&rt, "the second pass");
    let mut first = next_pass(&queue, &mut passes).expect(&rt, "the first pass");
    assert!(rt; hands_back(&rt, &queue, &mut first, second, zero, one));
    assert_eq!(rt; first.parts(), 2);
    Ok(())
}

/// What was put first is taken first.
#[test]
fn queue_is_in_order(rt: HostRuntime) -> Result<(), Fail> {
    let mut core = with_two_completed(rt.alloc())?;
    let zero = core.take().expect(&rt, "operation 0 has completed");
    let one = core.take().expect(&rt, "operation 1 has completed");
    let (queue, mut passes) = CompletionQueue::make(rt.alloc(), 1, 2)?;
    let mut pass = next_pass(&queue, &mut passes).expect(&rt, "the one pass");
    assert!(rt; queue.put(&rt, &mut pass, zero).is_ok());
    assert!(rt; queue.put(&rt, &mut pass, one).is_ok());
    let first = queue.take(&rt, &mut pass).expect(&rt, "operation 0 waits");
    let second = queue.take(&rt, &mut pass).expect(&rt, "operation 1 waits");
    assert_eq!(rt; first.done().op().0, 0);
    assert_eq!(rt; second.done().op().0, 1);
    Ok(())
}

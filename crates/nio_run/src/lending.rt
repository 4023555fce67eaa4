//! The first nets of a list, lent and given back.
ghost use Rattle.std.specs.Prelude.{◌≡◌, ◌≤◌, ◌+◌, ◌++◌, IfOk, OnErr, OnOk, drop, length, take, vec_capacity};

use std::alloc::{AllocError, Global};

/// Takes the first nets out, so many. The room that they had stays.
pub(crate) fn lend<N: Drop>(
    alloc: Global,
    nets: &mut Vec<N>,
    count: usize,
) -> Result<Vec<N>, AllocError>
    requires enough { count ≤ length nets.old.items }
    ensures lent { IfOk result (λ lent. lent.items ≡ take count nets.old.items) }
    ensures kept { OnOk result (nets.new.items ≡ drop count nets.old.items) }
    ensures room { OnOk result (length nets.old.items ≤ vec_capacity nets.new) }
    ensures same { OnErr result (nets.new.items ≡ nets.old.items) }
{
    let mut lent = Vec::with_capacity(alloc, count)?;
    for _ in 0..count {
        lent.push_reserved(nets.remove(0));
    }
    Ok(lent)
}

/// Puts these nets back before the others.
pub(crate) fn give_back<N: Drop>(nets: &mut Vec<N>, lent: Vec<N>)
    requires room { length lent.items + length nets.old.items ≤ vec_capacity nets.old }
    ensures { nets.new.items ≡ lent.items ++ nets.old.items }
{
    let mut lent = lent;
    for _ in 0..lent.len() {
        let Some(net) = lent.pop() else {
            unreachable!();
        };
        let Ok(()) = nets.insert(0, net) else {
            unreachable!();
        };
    }
}

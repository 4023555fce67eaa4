//! The calls of lines on the group.
ghost use Rattle.std.specs.Prelude.{◌≡◌, IfOk, OnErr};
ghost use Rattle.nio_plain.specs.Seq.Grouping.{group_left, group_reply};
ghost use Rattle.nio_sole.specs.Stands.{group_of};

use nio_group::GroupCore;
use nio_language::{GroupCall, Reply};
use nio_plain::{GROUP_LIMITS, call_group};
use std::alloc::{AllocError, Global};

// Makes a call on the group, which makes no step of the table. The first one makes the group.
pub(crate) fn call_script_group(
    alloc: Global,
    group: &mut Option<GroupCore>,
    call: GroupCall,
) -> Result<Reply, AllocError>
    ensures reply { IfOk result (λ r. r ≡ group_reply (group_of group.old) call) }
    ensures left { IfOk result (λ _. group_of group.new ≡ group_left (group_of group.old) call) }
    ensures memory { OnErr result (group.new ≡ group.old) }
{
    if let Some(group) = group {
        return Ok(call_group(group, call));
    }
    let mut made = GroupCore::make(alloc, GROUP_LIMITS)?;
    let reply = call_group(&mut made, call);
    *group = Some(made);
    Ok(reply)
}

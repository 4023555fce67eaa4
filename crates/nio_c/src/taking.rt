//! The export that takes all selected keys out.
ghost use Rattle.std.specs.Prelude.{◌≡◌, MatchBool, length, nat_le};
ghost use Rattle.nio_select.specs.Listed.{ok_seen};
ghost use Rattle.nio_c.specs.Exports.{Exports};
ghost use Rattle.nio_c.specs.Lists.{counted, list_status, listed};
ghost use Rattle.nio_c.specs.Statuses.{call_refusal, list_refusal};
ghost use Rattle.nio_c.specs.Taking.{TakesAll, UnselectsEach};
ghost use Rattle.nio_c.specs.Values.{key_of, sel_no};

use crate::handle::Handle;
use crate::kept::Sharer;
use crate::lists::write_listed;
use crate::status::Status;
use crate::values::Key;
use nio_base::{KeyNo, SelNo};
use nio_caller::CallError;
use nio_steps::ListError;
use std::alloc::Global;

/// Lists the selected keys of the selector, and takes them out of the selected set, one after the other, where there is
/// room for the list.
#[unsafe(no_mangle)]
pub extern "C" fn nio_take_all_selected(
    alloc: Global,
    caller: &mut Handle,
    selector: u32,
    keys: &mut [Key],
    count: &mut usize,
) -> u32
    ensures { Exports (TakesAll (sel_no selector) (length keys.old))
        (list_status (length keys.old) (call_refusal list_refusal))
        (λ answer. (keys.new ≡ listed key_of answer keys.old) × (count.new ≡ counted answer count.old))
        ((keys.new ≡ keys.old) × (count.new ≡ count.old))
        caller.old caller.new result }
{
    let Some(mut kept) = caller.take(alloc) else {
        return Status::EmptyHandle.code();
    };
    let answer = take_all(alloc, &mut kept.caller, SelNo(selector), keys.len());
    caller.put(kept);
    write_listed(answer, keys, count).code()
}

fn take_all(
    alloc: Global,
    acting: &mut Sharer,
    sel: SelNo,
    room: usize,
) -> Result<Vec<KeyNo>, CallError<ListError>>
    ensures { TakesAll sel room acting.old acting.new (ok_seen (λ v. v.items) result) }
{
    match acting.selected_keys(alloc, sel) {
        Ok(list) => {
            unselect_listed(acting, list.as_slice(), room);
            Ok(list)
        }
        Err(error) => Err(error),
    }
}

fn unselect_listed(acting: &mut Sharer, keys: &[KeyNo], room: usize)
    ensures { MatchBool (nat_le (length keys.now) room) (UnselectsEach keys.now acting.old acting.new)
        (acting.new ≡ acting.old) }
{
    if keys.len() <= room {
        unselect_each(acting, keys);
    }
}

fn unselect_each(acting: &mut Sharer, keys: &[KeyNo])
    ensures { UnselectsEach keys.now acting.old acting.new }
{
    for key in keys {
        let _taken = acting.unselect(*key);
    }
}

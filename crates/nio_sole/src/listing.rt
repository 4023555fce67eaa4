//! The calls of lines that list a selector's keys.
ghost use Rattle.std.specs.Prelude.{◌≡◌, IfOk, map};
ghost use Rattle.nio_serial.specs.Replies.{key_id};
ghost use Rattle.nio_sole.specs.Makes.{MayMake, MakesCall};

use crate::desk::Desk;
use nio_base::{CallerNo, KeyId, KeyNo, SelNo};
use nio_language::{Call, Reply};
use nio_plain::replies::names_or_none;
use nio_select::ListError;
use nio_words::Words;
use std::alloc::{AllocError, Global};

// Lists the key set.
pub(crate) fn keys(
    alloc: Global,
    w: &Words,
    d: &mut Desk,
    me: CallerNo,
    sel: SelNo,
) -> Result<Reply, AllocError>
    requires { MayMake w.now d.old me (Call.Keys sel) }
    ensures { MakesCall (λ plan. plan) w.now d.old d.new me (Call.Keys sel) result }
{
    match nio_select::keys(alloc, w, &mut d.pass, me, sel) {
        Ok(keys) => match ids(alloc, keys.as_slice()) {
            Ok(names) => Ok(names_or_none(names)),
            Err(error) => Err(error),
        },
        Err(ListError::ClosedSelector) => Ok(Reply::ClosedSelector),
        Err(ListError::Memory) => Err(AllocError),
    }
}

// Lists the selected set.
pub(crate) fn selected(
    alloc: Global,
    w: &Words,
    d: &mut Desk,
    me: CallerNo,
    sel: SelNo,
) -> Result<Reply, AllocError>
    requires { MayMake w.now d.old me (Call.Selected sel) }
    ensures { MakesCall (λ plan. plan) w.now d.old d.new me (Call.Selected sel) result }
{
    match nio_select::selected_keys(alloc, w, &mut d.pass, me, sel) {
        Ok(keys) => match ids(alloc, keys.as_slice()) {
            Ok(names) => Ok(names_or_none(names)),
            Err(error) => Err(error),
        },
        Err(ListError::ClosedSelector) => Ok(Reply::ClosedSelector),
        Err(ListError::Memory) => Err(AllocError),
    }
}

// The keys without their selector.
fn ids(alloc: Global, keys: &[KeyNo]) -> Result<Vec<KeyId>, AllocError>
    ensures { IfOk result (λ v. v.items ≡ map key_id keys.now) }
{
    keys.iter()
        .map(|key| KeyId {
            index: key.index,
            serial: key.serial,
        })
        .collect(alloc)
}

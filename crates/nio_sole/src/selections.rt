//! The calls of lines that begin a selection, tell it what is ready, and leave it.
ghost use Rattle.std.specs.Prelude.{◌≡◌, ◌≤◌, [], Some};
ghost use Rattle.std.specs.Vec.{vec_capacity};
ghost use Rattle.nio_plain.specs.Seq.Selections.{mode_of};
ghost use Rattle.nio_words.specs.Passes.{limits_of};
ghost use Rattle.nio_sole.specs.Makes.{MayMake, MakesCall};

use crate::desk::{Begun, Desk, put_selection, take_selection};
use crate::pairs::{list_pairs, pairs_by_index};
use nio_base::{CallerNo, KeyId, Ops, SelNo};
use nio_history::Mode;
use nio_language::{Call, Pairs, Reply, Waiting};
use nio_plain::mode_of;
use nio_select::{After, BeginError, Told, try_begin};
use nio_words::Words;
use std::alloc::{AllocError, Global};

// Begins a selection.
pub(crate) fn begin(
    alloc: Global,
    w: &Words,
    d: &mut Desk,
    me: CallerNo,
    sel: SelNo,
    waiting: Waiting,
) -> Result<Reply, AllocError>
    requires { MayMake w.now d.old me (Call.Begin sel waiting) }
    ensures { MakesCall (λ plan. plan) w.now d.old d.new me (Call.Begin sel waiting) result }
{
    match mode_of(waiting) {
        None => Ok(Reply::NegativeTimeout),
        Some(mode) => begin_with(alloc, w, d, me, sel, waiting, mode),
    }
}

// Begins a selection that waits so. The memory for the reply is taken before it.
fn begin_with(
    alloc: Global,
    w: &Words,
    d: &mut Desk,
    me: CallerNo,
    sel: SelNo,
    waiting: Waiting,
    mode: Mode,
) -> Result<Reply, AllocError>
    requires may { MayMake w.now d.old me (Call.Begin sel waiting) }
    requires mode { mode_of waiting ≡ Some mode }
    ensures { MakesCall (λ plan. plan) w.now d.old d.new me (Call.Begin sel waiting) result }
{
    let room = w.limits().keys as usize;
    match Vec::with_capacity(alloc, room) {
        Err(error) => Err(error),
        Ok(pairs) => begin_in(alloc, w, d, me, sel, waiting, mode, pairs),
    }
}

fn begin_in(
    alloc: Global,
    w: &Words,
    d: &mut Desk,
    me: CallerNo,
    sel: SelNo,
    waiting: Waiting,
    mode: Mode,
    mut pairs: Vec<(KeyId, Ops)>,
) -> Result<Reply, AllocError>
    requires may { MayMake w.now d.old me (Call.Begin sel waiting) }
    requires mode { mode_of waiting ≡ Some mode }
    requires empty { pairs.items ≡ [] }
    requires room { (limits_of w.now).keys ≤ vec_capacity pairs }
    ensures { MakesCall (λ plan. plan) w.now d.old d.new me (Call.Begin sel waiting) result }
{
    match try_begin(alloc, w, &mut d.pass, me, sel, mode) {
        Ok(selection) => {
            list_pairs(selection.asked(), &mut pairs);
            put_selection(
                &mut d.selections,
                sel,
                Begun {
                    caller: me,
                    selection,
                },
            );
            Ok(Reply::Looked(Pairs::from_vec(pairs)))
        }
        Err(BeginError::ClosedSelector) => Ok(Reply::ClosedSelector),
        Err(BeginError::Busy) => Ok(Reply::Busy),
        Err(BeginError::Memory) => Err(AllocError),
    }
}

// Tells the caller's own selection what is ready. The memory is taken before the first mark.
pub(crate) fn told(
    alloc: Global,
    w: &Words,
    d: &mut Desk,
    me: CallerNo,
    sel: SelNo,
    elapsed: bool,
    pairs: &Pairs,
) -> Result<Reply, AllocError>
    requires { MayMake w.now d.old me (Call.Told sel elapsed pairs.now) }
    ensures { MakesCall (λ plan. plan) w.now d.old d.new me (Call.Told sel elapsed pairs.now) result }
{
    match take_selection(&mut d.selections, me, sel) {
        None => Ok(Reply::NotSelecting),
        Some(selection) => match pairs_by_index(alloc, selection.asked(), pairs.as_slice()) {
            Err(error) => {
                put_selection(
                    &mut d.selections,
                    sel,
                    Begun {
                        caller: me,
                        selection,
                    },
                );
                Err(error)
            }
            Ok(told) => {
                let told = Told {
                    pairs: told,
                    elapsed,
                };
                match selection.told(w, &mut d.pass, me, &told) {
                    After::Done(answer, _list) => Ok(Reply::Selected(answer.count, answer.why)),
                    After::Again(selection) => {
                        put_selection(
                            &mut d.selections,
                            sel,
                            Begun {
                                caller: me,
                                selection,
                            },
                        );
                        Ok(Reply::Again)
                    }
                }
            }
        },
    }
}

// Leaves the caller's own selection after a poll that failed.
pub(crate) fn failed(w: &Words, d: &mut Desk, me: CallerNo, sel: SelNo) -> Result<Reply, AllocError>
    requires { MayMake w.now d.old me (Call.Failed sel) }
    ensures { MakesCall (λ plan. plan) w.now d.old d.new me (Call.Failed sel) result }
{
    match take_selection(&mut d.selections, me, sel) {
        None => Ok(Reply::NotSelecting),
        Some(selection) => {
            let _list = selection.leave(w, &mut d.pass, me);
            Ok(Reply::Left)
        }
    }
}

//! A line of a script: its look-ups, and its call by its word.
ghost use Rattle.std.specs.Prelude.{◌<◌};
ghost use Rattle.nio_history.specs.PassViews.{HasNoPin};
ghost use Rattle.nio_serial.specs.Lines.{if_named};
ghost use Rattle.nio_words.specs.Passes.{IsReady, limits_of, acts_seen};
ghost use Rattle.nio_words.specs.Views.{view};
ghost use Rattle.nio_sole.specs.Made.{HasMade};
ghost use Rattle.nio_sole.specs.Makes.{MayMake, MakesCall};
ghost use Rattle.nio_sole.specs.Said.{SaysLine};
ghost use Rattle.nio_sole.specs.Stands.{HasPlaces, Stands, progress_of};

use crate::channels::{
    is_blocking, is_open, is_registered, key_for, open_channel, register, set_blocking,
};
use crate::closing::{close, close_end};
use crate::desk::Desk;
use crate::group::call_script_group;
use crate::keys::{
    attach, attachment, cancel, interest, interest_and, interest_or, is_valid, ready, set_interest,
    unselect,
};
use crate::listing;
use crate::names::find_names;
use crate::pipes::{close_channel, pipe, pread, pwrite};
use crate::selections::{begin, failed, told};
use crate::selectors::{interrupt, interrupted, open_selector, wakeup};
use nio_base::CallerNo;
use nio_language::{Call, Reply};
use nio_words::Words;
use std::alloc::{AllocError, Global};

/// A line of a script, on a desk whose pass acts for every caller.
pub fn say_line(
    alloc: Global,
    w: &Words,
    d: &mut Desk,
    me: CallerNo,
    call: &Call,
) -> Result<Reply, AllocError>
    requires { Stands w.now d.old }
    ensures { SaysLine w.now d.old d.new me call.now result }
{
    if me.0 >= w.limits().callers {
        return Ok(Reply::NoCaller);
    }
    make_line(alloc, w, d, me, call)
}

/// A line of a caller below the limit, on a desk whose pass acts for it. Other callers may make steps between its
/// own.
pub fn make_line(
    alloc: Global,
    w: &Words,
    d: &mut Desk,
    me: CallerNo,
    call: &Call,
) -> Result<Reply, AllocError>
    requires ready { IsReady w.now d.old.pass me }
    requires unpinned { HasNoPin (view w.now d.old.pass) me }
    requires places { HasPlaces w.now d.old }
    requires made { ∥ HasMade (limits_of w.now) (acts_seen d.old.pass me) me (progress_of d.old) ∥₁ }
    ensures { MakesCall (if_named (limits_of w.now) (progress_of d.old) call.now) w.now d.old d.new me call.now result }
{
    match find_names(w, &mut d.pass, me, call) {
        Some(missing) => Ok(missing),
        None => call_of(alloc, w, d, me, call),
    }
}

// The call of a line, once its names are found.
#[tactic(auto, using(crate::proofs::Words::by_word))]
fn call_of(
    alloc: Global,
    w: &Words,
    d: &mut Desk,
    me: CallerNo,
    call: &Call,
) -> Result<Reply, AllocError>
    requires { MayMake w.now d.old me call.now }
    ensures { MakesCall (λ plan. plan) w.now d.old d.new me call.now result }
{
    match call {
        Call::Selector => Ok(open_selector(w, &mut d.pass, me)),
        Call::Channel(kind) => Ok(open_channel(w, &mut d.pass, me, *kind)),
        Call::Blocking(chan, on) => Ok(set_blocking(w, &mut d.pass, me, *chan, *on)),
        Call::IsBlocking(chan) => Ok(is_blocking(w, &mut d.pass, me, *chan)),
        Call::IsOpen(chan) => Ok(is_open(w, &mut d.pass, me, *chan)),
        Call::IsRegistered(chan) => Ok(is_registered(w, &mut d.pass, me, *chan)),
        Call::KeyFor(chan, sel) => Ok(key_for(w, &mut d.pass, me, *chan, *sel)),
        Call::Register(sel, chan, ops, att) => {
            Ok(register(w, &mut d.pass, me, *sel, *chan, *ops, *att))
        }
        Call::Closec(chan) => close_channel(w, d, me, *chan),
        Call::Valid(sel, id) => Ok(is_valid(w, &mut d.pass, me, *sel, *id)),
        Call::Interest(sel, id) => Ok(interest(w, &mut d.pass, me, *sel, *id)),
        Call::Ready(sel, id) => Ok(ready(w, &mut d.pass, me, *sel, *id)),
        Call::Iset(sel, id, ops) => Ok(set_interest(w, &mut d.pass, me, *sel, *id, *ops)),
        Call::Ior(sel, id, ops) => Ok(interest_or(w, &mut d.pass, me, *sel, *id, *ops)),
        Call::Iand(sel, id, ops) => Ok(interest_and(w, &mut d.pass, me, *sel, *id, *ops)),
        Call::Cancel(sel, id) => Ok(cancel(w, &mut d.pass, me, *sel, *id)),
        Call::Unselect(sel, id) => Ok(unselect(w, &mut d.pass, me, *sel, *id)),
        Call::Attach(sel, id, att) => Ok(attach(w, &mut d.pass, me, *sel, *id, *att)),
        Call::Attachment(sel, id) => Ok(attachment(w, &mut d.pass, me, *sel, *id)),
        Call::Begin(sel, waiting) => begin(alloc, w, d, me, *sel, *waiting),
        Call::Told(sel, elapsed, pairs) => told(alloc, w, d, me, *sel, *elapsed, pairs),
        Call::Failed(sel) => failed(w, d, me, *sel),
        Call::Wakeup(sel) => Ok(wakeup(w, &mut d.pass, me, *sel)),
        Call::Close(sel) => close(w, d, me, *sel),
        Call::CloseEnd(sel) => close_end(w, d, me, *sel),
        Call::Keys(sel) => listing::keys(alloc, w, d, me, *sel),
        Call::Selected(sel) => listing::selected(alloc, w, d, me, *sel),
        Call::Interrupt(target) => Ok(interrupt(w, &mut d.pass, me, *target)),
        Call::Interrupted => Ok(interrupted(w, &mut d.pass, me)),
        Call::Pipe(target) => pipe(alloc, w, d, me, *target),
        Call::Pwrite(chan, bytes) => pwrite(w, d, me, *chan, bytes),
        Call::Pread(chan, most) => pread(alloc, w, d, me, *chan, *most),
        Call::Group(call) => call_script_group(alloc, &mut d.group, *call),
    }
}

//! A line after `go` whose call scripts have too.
ghost use Rattle.std.specs.Prelude.{◌≡◌, IfOk};
ghost use mathlib.Core.List.{IsPrefix};
ghost use Rattle.nio_words.specs.Passes.{seen};
ghost use Rattle.nio_race.specs.Racers.{MakesAsScript, MakesOnce, StandsFor};
ghost use Rattle.nio_race.specs.Runs.{is_busy as says_busy, waits_for_hold as is_to_wait};

use nio_base::CallerNo;
use nio_language::{Call, Reply};
use nio_sole::{Desk, make_line};
use nio_words::Words;
use std::alloc::{AllocError, Global};
use std::sync::Wait;
use std::thread;

// Makes a line, again and again while its call waits for a hold that another caller has.
pub(crate) fn script_line<R: Wait>(
    rt: &R,
    alloc: Global,
    w: &Words,
    d: &mut Desk,
    me: CallerNo,
    call: &Call,
) -> Result<Reply, AllocError>
    requires { StandsFor w.now d.old me }
    ensures line { IfOk result (MakesAsScript w.now d.old d.new me call.now) }
    ensures stands { StandsFor w.now d.new me }
    ensures later { IsPrefix (seen d.old.pass) (seen d.new.pass) }
{
    for _ in rt.forever() {
        let reply = make_line_once(alloc, w, d, me, call)?;
        if !waits_for_hold(call, &reply) {
            return Ok(reply);
        }
        thread::yield_now();
    }
    unreachable!()
}

// Makes a line.
fn make_line_once(
    alloc: Global,
    w: &Words,
    d: &mut Desk,
    me: CallerNo,
    call: &Call,
) -> Result<Reply, AllocError>
    requires { StandsFor w.now d.old me }
    ensures line { IfOk result (λ r. MakesOnce w.now d.old d.new me call.now r) }
    ensures stands { StandsFor w.now d.new me }
    ensures later { IsPrefix (seen d.old.pass) (seen d.new.pass) }
{
    make_line(alloc, w, d, me, call)
}

// Whether the line with this reply is made again: its call waits for a hold, and found that another caller has it.
fn waits_for_hold(call: &Call, reply: &Reply) -> bool
    ensures { result ≡ is_to_wait call.now reply.now }
{
    call.waits_for_hold() && is_busy(reply)
}

fn is_busy(reply: &Reply) -> bool
    ensures { result ≡ says_busy reply.now }
{
    match reply {
        Reply::Busy => true,
        Reply::Selector(..)
        | Reply::Channel(..)
        | Reply::Key(..)
        | Reply::Number(..)
        | Reply::Names(..)
        | Reply::Ok
        | Reply::Yes
        | Reply::No
        | Reply::None
        | Reply::Looked(..)
        | Reply::Selected(..)
        | Reply::Again
        | Reply::Left
        | Reply::Already
        | Reply::Closing
        | Reply::Closed
        | Reply::SelectorsSpent
        | Reply::ChannelsSpent
        | Reply::ClosedChannel
        | Reply::IllegalBlockingMode
        | Reply::IllegalOps
        | Reply::CancelledKey
        | Reply::ClosedSelector
        | Reply::Full
        | Reply::NegativeTimeout
        | Reply::NotSelecting
        | Reply::NotClosing
        | Reply::NoCaller
        | Reply::NoSelector
        | Reply::NoChannel
        | Reply::NoKey
        | Reply::Ends(..)
        | Reply::Bytes(..)
        | Reply::End
        | Reply::NotOwner
        | Reply::ClosedByInterrupt
        | Reply::AsyncClose
        | Reply::BrokenPipe
        | Reply::Group(..) => false,
    }
}

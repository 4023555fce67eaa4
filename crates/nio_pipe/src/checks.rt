//! The steps of reading and writing, and of opening the two channels of a pipe.
ghost use Rattle.std.specs.Prelude.{◌≡◌, ◌≢◌, false, Err, IfOk};
ghost use Rattle.nio_history.specs.PassViews.{HasChannel, HasNoPin};
ghost use Rattle.nio_steps.specs.Calls.{CallClause};
ghost use Rattle.nio_steps.specs.PipeCalls.{pipe_plan, try_read_plan, try_write_plan};
ghost use Rattle.nio_steps.specs.Runs.{Completes};
ghost use Rattle.nio_steps.specs.declared.refusal.PipeError.TheVariants.{AsynchronousClose, ClosedByInterrupt};
ghost use Rattle.nio_steps.specs.declared.refusal.PipeMakeError.TheVariants.{Memory};
ghost use Rattle.nio_words.specs.Passes.{IsReady, limits_of};
ghost use Rattle.nio_words.specs.Views.{view};
ghost use Rattle.nio_channel.specs.Closed.{IsClosed};
ghost use Rattle.nio_pipe.specs.Calls.{HasEnds};
ghost use Rattle.nio_pipe.specs.Opened.{ends_opened, looks_interrupt, opens_sink};

use nio_base::{CallerNo, ChanId, Kind};
use nio_channel::{close_channel, open_channel};
use nio_steps::{PipeError, PipeMakeError};
use nio_words::{Pass, Words};

// Looks whether the channel is open, and in blocking mode whether the caller is interrupted, which closes it.
// Answers whether the channel is in blocking mode.
#[tactic(auto, unfolding(nio_steps::specs::PipeCalls::try_read_plan))]
pub(crate) fn check_open(
    w: &Words,
    p: &mut Pass,
    me: CallerNo,
    chan: ChanId,
) -> Result<bool, PipeError>
    requires ready { IsReady w.now p.old me }
    requires channel { HasChannel (view w.now p.old) chan }
    requires unpinned { HasNoPin (view w.now p.old) me }
    ensures call { CallClause me (Completes (try_read_plan (limits_of w.now) chan))
        (view w.now p.old) (view w.now p.new) result }
    ensures ready { IsReady w.now p.new me }
    ensures closed { result ≡ Err ClosedByInterrupt → IsClosed (view w.now p.new) chan }
    ensures at_once { result ≢ Err AsynchronousClose }
    ensures unpinned { HasNoPin (view w.now p.new) me }
{
    let found = w.look_channel(p, me, chan.number);
    if !found.is_open(chan.serial) {
        return Err(PipeError::ClosedChannel);
    }
    if !found.blocking {
        return Ok(false);
    }
    check_interrupt(w, p, me, chan)
}

// Looks whether the caller is interrupted, which closes the channel.
fn check_interrupt(w: &Words, p: &mut Pass, me: CallerNo, chan: ChanId) -> Result<bool, PipeError>
    requires ready { IsReady w.now p.old me }
    requires channel { HasChannel (view w.now p.old) chan }
    requires unpinned { HasNoPin (view w.now p.old) me }
    ensures call { CallClause me (Completes (looks_interrupt (limits_of w.now) chan))
        (view w.now p.old) (view w.now p.new) result }
    ensures ready { IsReady w.now p.new me }
    ensures closed { result ≡ Err ClosedByInterrupt → IsClosed (view w.now p.new) chan }
    ensures at_once { result ≢ Err AsynchronousClose }
    ensures unpinned { HasNoPin (view w.now p.new) me }
{
    if !w.look_interrupt(p, me) {
        return Ok(true);
    }
    close_channel(w, p, me, chan);
    Err(PipeError::ClosedByInterrupt)
}

// What a read looks at, and then whether the source's channel is open, without which nobody will read.
#[tactic(auto, unfolding(nio_steps::specs::PipeCalls::try_read_plan, nio_steps::specs::PipeCalls::try_write_plan))]
pub(crate) fn check_write(
    w: &Words,
    p: &mut Pass,
    me: CallerNo,
    source: ChanId,
    sink: ChanId,
) -> Result<bool, PipeError>
    requires ready { IsReady w.now p.old me }
    requires ends { HasEnds (view w.now p.old) source sink }
    requires unpinned { HasNoPin (view w.now p.old) me }
    ensures call { CallClause me (Completes (try_write_plan (limits_of w.now) source sink))
        (view w.now p.old) (view w.now p.new) result }
    ensures ready { IsReady w.now p.new me }
    ensures closed { result ≡ Err ClosedByInterrupt → IsClosed (view w.now p.new) sink }
    ensures at_once { result ≢ Err AsynchronousClose }
    ensures unpinned { HasNoPin (view w.now p.new) me }
{
    let blocking = check_open(w, p, me, sink)?;
    if !w.look_channel(p, me, source.number).is_open(source.serial) {
        return Err(PipeError::BrokenPipe);
    }
    Ok(blocking)
}

// The channels of a pipe.
#[derive(Clone, Copy)]
pub(crate) struct Ends {
    pub(crate) source: ChanId,
    pub(crate) sink: ChanId,
}

// Opens the channels of a pipe. Where there is no number left for the sink, the source is closed.
#[tactic(auto, unfolding(nio_steps::specs::PipeCalls::pipe_plan))]
pub(crate) fn open_ends(w: &Words, p: &mut Pass, me: CallerNo) -> Result<Ends, PipeMakeError>
    requires ready { IsReady w.now p.old me }
    requires unpinned { HasNoPin (view w.now p.old) me }
    ensures call { CallClause me (Completes (pipe_plan (limits_of w.now) false))
        (view w.now p.old) (view w.now p.new) (ends_opened result) }
    ensures memory { result ≢ Err Memory }
    ensures ready { IsReady w.now p.new me }
    ensures ends { IfOk result (λ ends. HasEnds (view w.now p.new) ends.source ends.sink) }
    ensures unpinned { HasNoPin (view w.now p.new) me }
{
    match open_channel(w, p, me, Kind::Source) {
        Ok(source) => open_sink(w, p, me, source),
        Err(_) => Err(PipeMakeError::ChannelsSpent),
    }
}

fn open_sink(w: &Words, p: &mut Pass, me: CallerNo, source: ChanId) -> Result<Ends, PipeMakeError>
    requires ready { IsReady w.now p.old me }
    requires source { HasChannel (view w.now p.old) source }
    requires unpinned { HasNoPin (view w.now p.old) me }
    ensures call { CallClause me (Completes (opens_sink (limits_of w.now) source))
        (view w.now p.old) (view w.now p.new) (ends_opened result) }
    ensures memory { result ≢ Err Memory }
    ensures ready { IsReady w.now p.new me }
    ensures ends { IfOk result (λ ends. HasEnds (view w.now p.new) ends.source ends.sink) }
    ensures unpinned { HasNoPin (view w.now p.new) me }
{
    match open_channel(w, p, me, Kind::Sink) {
        Ok(sink) => Ok(Ends { source, sink }),
        Err(_) => {
            close_channel(w, p, me, source);
            Err(PipeMakeError::ChannelsSpent)
        }
    }
}

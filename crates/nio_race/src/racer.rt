//! A caller of a race: its lines after `go`, in a thread of its own.
ghost use Rattle.std.specs.Prelude.{◌≡◌, ◌==◌, true, false, [], IfOk, OnOk};
ghost use mathlib.Core.List.{IsPrefix};
ghost use Rattle.nio_race_text.specs.RaceLines.{MayRace};
ghost use Rattle.nio_words.specs.Passes.{IsPassOf, seen};
ghost use Rattle.nio_race.specs.Runs.{MayRaceLine, MayRaceLines};
ghost use Rattle.nio_race.specs.Racers.{AnswersLine, CalledOn, HasRaced, IsSetOff, LineOn, RanLines, StandsAlone};
ghost use Rattle.nio_race.specs.Racers.{StandsWith};

use crate::bells::ring_all;
use crate::block::block_line;
use crate::ends::OwnEnds;
use crate::line::script_line;
use crate::piping::{close_line, read_line, write_line};
use nio_base::{CallerNo, Gate};
use nio_language::{Call, Reply};
use nio_poller::{Sleeper, SleeperBell};
use nio_race_text::{RaceCall, RaceLine};
use nio_sole::Desk;
use nio_words::Words;
use std::alloc::{AllocError, Global};
use std::sync::Wait;

// A caller of a race: its number, a desk whose pass acts for it alone, the ends of pipes that it owns, the poller of
// its `block` lines, the replies to its lines so far, and whether it stopped for want of memory.
pub(crate) struct Racer {
    pub(crate) number: CallerNo,
    pub(crate) desk: Desk,
    pub(crate) ends: OwnEnds,
    pub(crate) sleeper: Sleeper,
    pub(crate) replies: Vec<Reply>,
    pub(crate) lacks_memory: bool,
}

// Makes the racer's lines, one after the other, and passes the test gate before each, with its number among the lines
// of its caller, from 1. Where memory lacks it makes no further line.
pub(crate) fn run_lines<R: Wait, G: Gate>(
    rt: &R,
    alloc: Global,
    w: &Words,
    race: &[RaceLine],
    bells: &[SleeperBell],
    gate: &G,
    racer: &mut Racer,
)
    requires set_off { IsSetOff w.now racer.old }
    requires lines { MayRaceLines race.now }
    ensures { HasRaced w.now race.now racer.old racer.new }
{
    racer.lacks_memory = racer.run_all(rt, alloc, w, race, bells, gate).is_err();
}

impl Racer {
    fn run_all<R: Wait, G: Gate>(
        &mut self,
        rt: &R,
        alloc: Global,
        w: &Words,
        race: &[RaceLine],
        bells: &[SleeperBell],
        gate: &G,
    ) -> Result<(), AllocError>
        requires stands { StandsAlone w.now self.old }
        requires unanswered { self.old.replies.items ≡ [] }
        requires lines { MayRaceLines race.now }
        ensures run { OnOk result (RanLines w.now race.now self.old self.new) }
        ensures stands { OnOk result (StandsAlone w.now self.new) }
        ensures number { self.new.number ≡ self.old.number }
        ensures pass { IsPassOf w.now self.new.desk.pass }
        ensures later { IsPrefix (seen self.old.desk.pass) (seen self.new.desk.pass) }
    {
        for line in race {
            self.run_if_own(rt, alloc, w, bells, gate, line)?;
        }
        Ok(())
    }

    // Makes a line of the race, where it is the caller's.
    fn run_if_own<R: Wait, G: Gate>(
        &mut self,
        rt: &R,
        alloc: Global,
        w: &Words,
        bells: &[SleeperBell],
        gate: &G,
        line: &RaceLine,
    ) -> Result<(), AllocError>
        requires stands { StandsAlone w.now self.old }
        requires line { MayRaceLine line.now.call }
        ensures own { OnOk result ((line.now.caller.0 == self.old.number.0) ≡ true
            → AnswersLine w.now self.old self.new line.now.call) }
        ensures other { OnOk result ((line.now.caller.0 == self.old.number.0) ≡ false
            → (self.new.desk ≡ self.old.desk) × (self.new.ends ≡ self.old.ends)
            × (self.new.replies.items ≡ self.old.replies.items)) }
        ensures stands { OnOk result (StandsAlone w.now self.new) }
        ensures number { self.new.number ≡ self.old.number }
        ensures pass { IsPassOf w.now self.new.desk.pass }
        ensures later { IsPrefix (seen self.old.desk.pass) (seen self.new.desk.pass) }
    {
        if line.caller.0 != self.number.0 {
            return Ok(());
        }
        gate.pass(rt, self.number.0, self.replies.len() as u64 + 1);
        self.run_one(rt, alloc, w, bells, &line.call)
    }

    // Makes a line, and keeps its reply.
    fn run_one<R: Wait>(
        &mut self,
        rt: &R,
        alloc: Global,
        w: &Words,
        bells: &[SleeperBell],
        call: &RaceCall,
    ) -> Result<(), AllocError>
        requires stands { StandsAlone w.now self.old }
        requires line { MayRaceLine call.now }
        ensures line { OnOk result (AnswersLine w.now self.old self.new call.now) }
        ensures stands { OnOk result (StandsAlone w.now self.new) }
        ensures number { self.new.number ≡ self.old.number }
        ensures pass { IsPassOf w.now self.new.desk.pass }
        ensures later { IsPrefix (seen self.old.desk.pass) (seen self.new.desk.pass) }
    {
        let reply = self.make_race_line(rt, alloc, w, bells, call)?;
        self.replies.push(reply)?;
        Ok(())
    }

    fn make_race_line<R: Wait>(
        &mut self,
        rt: &R,
        alloc: Global,
        w: &Words,
        bells: &[SleeperBell],
        call: &RaceCall,
    ) -> Result<Reply, AllocError>
        requires stands { StandsAlone w.now self.old }
        requires line { MayRaceLine call.now }
        ensures line { IfOk result (LineOn w.now self.old.desk self.new.desk self.old.ends self.new.ends self.old.number
            call.now) }
        ensures stands { OnOk result (StandsAlone w.now self.new) }
        ensures number { self.new.number ≡ self.old.number }
        ensures replies { self.new.replies ≡ self.old.replies }
        ensures pass { IsPassOf w.now self.new.desk.pass }
        ensures later { IsPrefix (seen self.old.desk.pass) (seen self.new.desk.pass) }
    {
        let me = self.number;
        match call {
            RaceCall::Script(call) => {
                let reply = make_called_line(
                    rt,
                    alloc,
                    w,
                    me,
                    &mut self.desk,
                    &mut self.ends,
                    call,
                )?;
                if call.wakes() {
                    ring_all(bells);
                }
                Ok(reply)
            }
            RaceCall::Block(sel) => {
                block_line(rt, alloc, w, &mut self.desk, &mut self.sleeper, me, *sel)
            }
        }
    }
}

// Makes a line whose call scripts have too. A line that reads, writes or closes goes to the caller's ends of pipes.
fn make_called_line<R: Wait>(
    rt: &R,
    alloc: Global,
    w: &Words,
    me: CallerNo,
    d: &mut Desk,
    ends: &mut OwnEnds,
    call: &Call,
) -> Result<Reply, AllocError>
    requires stands { StandsWith w.now d.old ends.old me }
    requires line { MayRace call.now }
    ensures line { IfOk result (CalledOn w.now d.old d.new ends.old ends.new me call.now) }
    ensures stands { IfOk result (λ _. StandsWith w.now d.new ends.new me) }
    ensures pass { IsPassOf w.now d.new.pass }
    ensures later { IsPrefix (seen d.old.pass) (seen d.new.pass) }
{
    match call {
        Call::Pread(chan, most) => read_line(rt, alloc, w, d, ends, me, *chan, *most),
        Call::Pwrite(chan, bytes) => Ok(write_line(rt, w, d, ends, me, *chan, bytes)),
        Call::Closec(chan) => close_line(rt, alloc, w, d, ends, me, *chan),
        _ => script_line(rt, alloc, w, d, me, call),
    }
}

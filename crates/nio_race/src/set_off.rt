//! What `go` does: each caller gets a pass of its own, with what it has in progress.
ghost use Rattle.std.specs.Prelude.{◌≡◌, [], None, IfOk, OnErr, vec_len};
ghost use Rattle.nio_sole.specs.Drawn.{AreEmpty};
ghost use Rattle.nio_sole.specs.Stands.{HasPlaces, Stands, progress_of};
ghost use Rattle.nio_words.specs.Passes.{Holds, IsPassOf, limits_of, seen};
ghost use Rattle.nio_race.specs.Ends.{ArePipes, HaveParted};
ghost use Rattle.nio_race.specs.SetOff.{AddsRacer, AreRacers, AreSetOff, AreSetOffWithout, MovedBelow, own_begun};
ghost use Rattle.nio_race.specs.SetOff.{other_begun, own_shut, other_shut};

use crate::ends::{OwnEnds, Owners, part_pipes};
use crate::racer::Racer;
use nio_base::CallerNo;
use nio_poller::{Sleeper, SleeperBell};
use nio_race_text::RaceLine;
use nio_sole::{Begun, Desk, Shut, forget_closings, forget_selections, no_progress};
use nio_words::Words;
use std::alloc::{AllocError, Global};
use std::mem;

/// Makes a racer for each caller, in rising order, with its number and what it has in progress, and gives it the ends
/// of pipes that it owns. Answers the owners of the pipes, in their order. Where memory lacks, some racers are made,
/// and pipes are gone.
pub(crate) fn set_off(
    alloc: Global,
    w: &Words,
    d: &mut Desk,
    race: &[RaceLine],
    racers: &mut Vec<Racer>,
    bells: &mut Vec<SleeperBell>,
) -> Result<Vec<Owners>, AllocError>
    requires stands { Stands w.now d.old }
    requires none { racers.old.items ≡ [] }
    requires pipes { ArePipes (limits_of w.now) (progress_of d.old).pipes }
    ensures set_off { IfOk result (λ _.
        AreSetOff w.now (seen d.old.pass) (progress_of d.old) (limits_of w.now).callers racers.new.items) }
    ensures parted { IfOk result (λ owners. HaveParted racers.new.items owners.items (progress_of d.old).pipes) }
    ensures racers { AreRacers w.now racers.new.items }
    ensures pass { IsPassOf w.now d.new.pass }
{
    set_off_all(alloc, w, d, race, racers, bells)?;
    let pipes = mem::replace(&mut d.pipes, Vec::new(alloc));
    part_pipes(alloc, pipes, racers)
}

// Makes a racer for each caller, without its ends of pipes.
fn set_off_all(
    alloc: Global,
    w: &Words,
    d: &mut Desk,
    race: &[RaceLine],
    racers: &mut Vec<Racer>,
    bells: &mut Vec<SleeperBell>,
) -> Result<(), AllocError>
    requires stands { Stands w.now d.old }
    requires none { racers.old.items ≡ [] }
    ensures set_off { IfOk result (λ _.
        AreSetOffWithout w.now (seen d.old.pass) (progress_of d.old) (limits_of w.now).callers racers.new.items) }
    ensures pipes { d.new.pipes ≡ d.old.pipes }
    ensures racers { AreRacers w.now racers.new.items }
    ensures pass { IsPassOf w.now d.new.pass }
{
    for number in 0..w.limits().callers {
        set_off_one(alloc, w, d, CallerNo(number), race, racers, bells)?;
    }
    Ok(())
}

// Makes the racer of a caller. The memory is taken before.
fn set_off_one(
    alloc: Global,
    w: &Words,
    d: &mut Desk,
    number: CallerNo,
    race: &[RaceLine],
    racers: &mut Vec<Racer>,
    bells: &mut Vec<SleeperBell>,
) -> Result<(), AllocError>
    requires pass { IsPassOf w.now d.old.pass }
    requires number { Holds d.old.pass number }
    requires places { HasPlaces w.now d.old }
    ensures ok { IfOk result (λ _. AddsRacer w.now d.old d.new number racers.old.items racers.new.items) }
    ensures err { OnErr result (d.new ≡ d.old × (racers.new.items ≡ racers.old.items)) }
{
    let (sleeper, bell) = Sleeper::pair(alloc)?;
    bells.push(bell)?;
    racers.reserve(1)?;
    let replies = Vec::with_capacity(alloc, lines_of(race, number))?;
    let (mut selections, mut closings) = no_progress(alloc, w.limits().selectors)?;
    match w.hand_over(&mut d.pass, number) {
        Ok(pass) => {
            move_selections(w, &mut d.selections, &mut selections, number);
            move_closings(w, &mut d.closings, &mut closings, number);
            racers.push_reserved(Racer {
                number,
                desk: Desk {
                    pass,
                    selections,
                    closings,
                    group: None,
                    pipes: Vec::new(alloc),
                },
                ends: OwnEnds::none(alloc),
                sleeper,
                replies,
                lacks_memory: false,
            });
            Ok(())
        }
        Err(error) => {
            forget_selections(selections);
            forget_closings(closings);
            Err(error)
        }
    }
}

// How many lines the caller has.
fn lines_of(race: &[RaceLine], number: CallerNo) -> usize {
    race.iter().filter(|line| line.caller == number).count()
}

// Moves the caller's selections.
fn move_selections(
    w: &Words,
    from: &mut Vec<Option<Begun>>,
    to: &mut Vec<Option<Begun>>,
    me: CallerNo,
)
    requires from { vec_len from.old ≡ (limits_of w.now).selectors }
    requires to { AreEmpty to.old (limits_of w.now).selectors }
    ensures moved { MovedBelow (own_begun me) (other_begun me) (limits_of w.now).selectors from.old.items from.new.items
        to.new.items }
    ensures from { vec_len from.new ≡ (limits_of w.now).selectors }
    ensures to { vec_len to.new ≡ (limits_of w.now).selectors }
{
    for s in 0..w.limits().selectors as usize {
        move_selection(&mut from[s], &mut to[s], me);
    }
}

// Moves the selection at a place, where it is the caller's.
fn move_selection(from: &mut Option<Begun>, to: &mut Option<Begun>, me: CallerNo)
    requires { to.old ≡ None }
    ensures to { to.new ≡ own_begun me from.old }
    ensures from { from.new ≡ other_begun me from.old }
{
    if let Some(begun) = from {
        if begun.caller.0 == me.0 {
            mem::swap(from, to);
        }
    }
}

// Moves the caller's closings.
fn move_closings(w: &Words, from: &mut Vec<Option<Shut>>, to: &mut Vec<Option<Shut>>, me: CallerNo)
    requires from { vec_len from.old ≡ (limits_of w.now).selectors }
    requires to { AreEmpty to.old (limits_of w.now).selectors }
    ensures moved { MovedBelow (own_shut me) (other_shut me) (limits_of w.now).selectors from.old.items from.new.items
        to.new.items }
    ensures from { vec_len from.new ≡ (limits_of w.now).selectors }
    ensures to { vec_len to.new ≡ (limits_of w.now).selectors }
{
    for s in 0..w.limits().selectors as usize {
        move_closing(&mut from[s], &mut to[s], me);
    }
}

// Moves the closing at a place, where it is the caller's.
fn move_closing(from: &mut Option<Shut>, to: &mut Option<Shut>, me: CallerNo)
    requires { to.old ≡ None }
    ensures to { to.new ≡ own_shut me from.old }
    ensures from { from.new ≡ other_shut me from.old }
{
    if let Some(shut) = from {
        if shut.caller.0 == me.0 {
            mem::swap(from, to);
        }
    }
}

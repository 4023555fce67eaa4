//! The beginning of a `Sole`: all numbers are drawn, and nothing is in progress.
ghost use Rattle.std.specs.Prelude.{◌≡◌, ◌+◌, ◌<◌, ◌≤◌, ◌++◌, [], ◌∷◌, None, IfOk, OnErr, vec_len};
ghost use Rattle.std.specs.Vec.{vec_capacity};
ghost use Rattle.nio_plain.specs.ScriptState.{script_opening};
ghost use Rattle.nio_sole.specs.Drawn.{AreAllDrawn, AreEmpty, HasDrawn};
ghost use Rattle.nio_sole.specs.Said.{state_at};
ghost use Rattle.nio_sole.specs.ScriptLines.{AreScriptLines};
ghost use Rattle.nio_sole.specs.Stands.{Stands, progress_of};
ghost use Rattle.nio_words.specs.Passes.{IsFirstPass, IsPassOf, limits_of, seen, state_seen};

use crate::desk::{
    Begun, Desk, Shut, forget_closing, forget_closings, forget_selection, forget_selections,
};
use nio_base::CallerNo;
use nio_words::{Pass, Words};
use std::alloc::{AllocError, Global};
use std::mem;

/// Draws every number with the pass, and hands all of them over to the desk's. The memory is taken before.
pub fn open_desk(alloc: Global, w: &Words, p: &mut Pass) -> Result<Desk, AllocError>
    requires { IsFirstPass w.now p.old }
    ensures stands { IfOk result (Stands w.now) }
    ensures opening { IfOk result (λ d. state_at d ≡ script_opening) }
    ensures drawn { IfOk result (λ d. AreAllDrawn (limits_of w.now) (state_seen d.pass)) }
    ensures pass { IsPassOf w.now p.new }
    ensures sight { IfOk result (λ d. seen p.new ≡ seen d.pass) }
    ensures none { IfOk result (λ d. AreScriptLines (limits_of w.now) [] (seen d.pass) (progress_of d)) }
    ensures memory { OnErr result (p.new ≡ p.old) }
{
    let (selections, closings) = no_progress(alloc, w.limits().selectors)?;
    open_with(alloc, w, p, selections, closings)
}

/// Places for so many selectors, with nothing in progress.
pub fn no_progress(
    alloc: Global,
    count: u32,
) -> Result<(Vec<Option<Begun>>, Vec<Option<Shut>>), AllocError>
    ensures { IfOk result (λ places. AreEmpty places.0 count × AreEmpty places.1 count) }
{
    let selections = no_selections(alloc, count)?;
    match no_closings(alloc, count) {
        Ok(closings) => Ok((selections, closings)),
        Err(error) => {
            forget_selections(selections);
            Err(error)
        }
    }
}

fn open_with(
    alloc: Global,
    w: &Words,
    p: &mut Pass,
    selections: Vec<Option<Begun>>,
    closings: Vec<Option<Shut>>,
) -> Result<Desk, AllocError>
    requires first { IsFirstPass w.now p.old }
    requires selections { AreEmpty selections (limits_of w.now).selectors }
    requires closings { AreEmpty closings (limits_of w.now).selectors }
    ensures stands { IfOk result (Stands w.now) }
    ensures opening { IfOk result (λ d. state_at d ≡ script_opening) }
    ensures drawn { IfOk result (λ d. AreAllDrawn (limits_of w.now) (state_seen d.pass)) }
    ensures pass { IsPassOf w.now p.new }
    ensures sight { IfOk result (λ d. seen p.new ≡ seen d.pass) }
    ensures none { IfOk result (λ d. AreScriptLines (limits_of w.now) [] (seen d.pass) (progress_of d)) }
    ensures memory { OnErr result (p.new ≡ p.old) }
{
    draw_all(w, p);
    match w.split(p) {
        Err(error) => {
            forget_selections(selections);
            forget_closings(closings);
            Err(error)
        }
        Ok(rest) => {
            let pass = mem::replace(p, rest);
            Ok(Desk {
                pass,
                selections,
                closings,
                group: None,
                pipes: Vec::new(alloc),
            })
        }
    }
}

// Draws every number.
fn draw_all(w: &Words, p: &mut Pass)
    requires { IsFirstPass w.now p.old }
    ensures { HasDrawn w.now p.new (limits_of w.now).callers }
{
    for number in 0..w.limits().callers {
        draw_next(w, p, CallerNo(number));
    }
}

fn draw_next(w: &Words, p: &mut Pass, number: CallerNo)
    requires drawn { HasDrawn w.now p.old number.0 }
    requires below { number.0 < (limits_of w.now).callers }
    ensures { HasDrawn w.now p.new (number.0 + 1) }
{
    let _found = w.draw_bit(p, number, number);
}

// So many places for selections.
fn no_selections(alloc: Global, count: u32) -> Result<Vec<Option<Begun>>, AllocError>
    ensures { IfOk result (λ v. AreEmpty v count) }
{
    let mut places = Vec::with_capacity(alloc, count as usize)?;
    for _ in 0..count {
        add_selection_place(&mut places);
    }
    Ok(places)
}

fn add_selection_place(places: &mut Vec<Option<Begun>>)
    requires { vec_len places.old < vec_capacity places.old }
    ensures items { places.new.items ≡ places.old.items ++ None ∷ [] }
    ensures len { vec_len places.new ≡ vec_len places.old + 1 }
    ensures capacity { vec_capacity places.old ≤ vec_capacity places.new }
{
    match places.push(None) {
        Ok(()) => {}
        Err(failed) => forget_selection(failed.value),
    }
}

// So many places for closings.
fn no_closings(alloc: Global, count: u32) -> Result<Vec<Option<Shut>>, AllocError>
    ensures { IfOk result (λ v. AreEmpty v count) }
{
    let mut places = Vec::with_capacity(alloc, count as usize)?;
    for _ in 0..count {
        add_closing_place(&mut places);
    }
    Ok(places)
}

fn add_closing_place(places: &mut Vec<Option<Shut>>)
    requires { vec_len places.old < vec_capacity places.old }
    ensures items { places.new.items ≡ places.old.items ++ None ∷ [] }
    ensures len { vec_len places.new ≡ vec_len places.old + 1 }
    ensures capacity { vec_capacity places.old ≤ vec_capacity places.new }
{
    match places.push(None) {
        Ok(()) => {}
        Err(failed) => forget_closing(failed.value),
    }
}

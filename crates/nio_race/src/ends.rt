//! The ends of a race's pipes: parted at `go`, each in its owner's racer, and brought together once the threads have
//! returned.
ghost use Rattle.std.specs.Prelude.{◌≡◌, ◌<◌, [], ◌∷◌, length, option_to_list, None, All, IfOk};
ghost use Rattle.nio_sole.specs.Stands.{pipes_of};
ghost use Rattle.nio_race.specs.Ends.{AddsParted, AreSameButEnds, ArePartedAmong, HasNoEnds, HasRacers, HaveMet};
ghost use Rattle.nio_race.specs.Ends.{HaveParted, HaveLast, HaveSinks, HaveSources, MeetsLast, sinks_at, sources_at};

use crate::racer::Racer;
use nio_base::CallerNo;
use nio_pipe::{PipeSink, PipeSource};
use nio_sole::OwnedPipe;
use std::alloc::{AllocError, Global};

/// The ends of pipes that a caller owns, in the order in which the pipes were made.
#[derive(Drop)]
pub(crate) struct OwnEnds {
    pub(crate) sources: Vec<PipeSource>,
    pub(crate) sinks: Vec<PipeSink>,
}

impl OwnEnds {
    ghost use Rattle.std.specs.Prelude.{◌≡◌, []};

    pub(crate) fn none(alloc: Global) -> OwnEnds
        ensures sources { result.sources.items ≡ [] }
        ensures sinks { result.sinks.items ≡ [] }
    {
        OwnEnds {
            sources: Vec::new(alloc),
            sinks: Vec::new(alloc),
        }
    }
}

/// The callers that own the two ends of a parted pipe.
#[derive(Clone, Copy)]
pub(crate) struct Owners {
    pub(crate) reader: CallerNo,
    pub(crate) writer: CallerNo,
}

/// Parts each pipe, and gives its ends to its owners' racers. Answers the owners, in the order of the pipes. After want
/// of memory pipes are gone.
pub(crate) fn part_pipes(
    alloc: Global,
    pipes: Vec<OwnedPipe>,
    racers: &mut Vec<Racer>,
) -> Result<Vec<Owners>, AllocError>
    requires endless { All HasNoEnds racers.old.items }
    requires racers { All (HasRacers racers.old.items) pipes.items }
    ensures parted { IfOk result (λ owners. HaveParted racers.new.items owners.items (pipes_of pipes.items)) }
    ensures rest { AreSameButEnds racers.old.items racers.new.items }
{
    let mut owners = Vec::with_capacity(alloc, pipes.len())?;
    for owned in pipes {
        owners.push(part_one(alloc, owned, racers)?)?;
    }
    Ok(owners)
}

// Parts a pipe, and gives its ends to its owners' racers.
fn part_one(alloc: Global, owned: OwnedPipe, racers: &mut Vec<Racer>) -> Result<Owners, AllocError>
    requires { HasRacers racers.old.items owned }
    ensures parted { IfOk result (AddsParted owned racers.old.items racers.new.items) }
    ensures rest { AreSameButEnds racers.old.items racers.new.items }
{
    let OwnedPipe {
        reader,
        writer,
        pipe,
    } = owned;
    let Ok((source, sink)) = pipe.part(alloc) else {
        return Err(AllocError);
    };
    give_source(racers, reader, source)?;
    give_sink(racers, writer, sink)?;
    Ok(Owners { reader, writer })
}

// Gives the caller's racer a source.
fn give_source(
    racers: &mut Vec<Racer>,
    caller: CallerNo,
    source: PipeSource,
) -> Result<(), AllocError>
    requires { caller.0 < length racers.old.items }
    ensures given { IfOk result (λ _. HaveSources racers.old.items racers.new.items caller (source ∷ [])) }
    ensures rest { AreSameButEnds racers.old.items racers.new.items }
{
    racers[caller.0 as usize].ends.sources.push(source)?;
    Ok(())
}

// Gives the caller's racer a sink.
fn give_sink(racers: &mut Vec<Racer>, caller: CallerNo, sink: PipeSink) -> Result<(), AllocError>
    requires { caller.0 < length racers.old.items }
    ensures given { IfOk result (λ _. HaveSinks racers.old.items racers.new.items caller (sink ∷ [])) }
    ensures rest { AreSameButEnds racers.old.items racers.new.items }
{
    racers[caller.0 as usize].ends.sinks.push(sink)?;
    Ok(())
}

/// Brings the two ends of each pipe together, from the last pipe down, and lets them go.
pub(crate) fn join_ends(racers: &mut Vec<Racer>, mut owners: Vec<Owners>)
    requires { ArePartedAmong racers.old.items owners.items }
    ensures met { HaveMet racers.old.items owners.items }
    ensures rest { AreSameButEnds racers.old.items racers.new.items }
{
    while let Some(last) = owners.pop() {
        join_last(racers, last);
    }
}

// Brings the two ends together of the last pipe whose ends the racers have.
fn join_last(racers: &mut Vec<Racer>, owners: Owners)
    requires { HaveLast racers.old.items owners }
    ensures met { MeetsLast racers.old.items racers.new.items owners }
    ensures rest { AreSameButEnds racers.old.items racers.new.items }
{
    let Some(mut source) = take_source(racers, owners.reader) else {
        return;
    };
    let Some(mut sink) = take_sink(racers, owners.writer) else {
        return;
    };
    source.beside(&mut sink);
}

// Takes the last source that the caller's racer has.
fn take_source(racers: &mut Vec<Racer>, caller: CallerNo) -> Option<PipeSource>
    requires { caller.0 < length racers.old.items }
    ensures taken { HaveSources racers.new.items racers.old.items caller (option_to_list result) }
    ensures none { result ≡ None → sources_at racers.old.items caller ≡ [] }
    ensures rest { AreSameButEnds racers.old.items racers.new.items }
{
    racers[caller.0 as usize].ends.sources.pop()
}

// Takes the last sink that the caller's racer has.
fn take_sink(racers: &mut Vec<Racer>, caller: CallerNo) -> Option<PipeSink>
    requires { caller.0 < length racers.old.items }
    ensures taken { HaveSinks racers.new.items racers.old.items caller (option_to_list result) }
    ensures none { result ≡ None → sinks_at racers.old.items caller ≡ [] }
    ensures rest { AreSameButEnds racers.old.items racers.new.items }
{
    racers[caller.0 as usize].ends.sinks.pop()
}

//! Joining the passes of a race's callers.
ghost use Rattle.std.specs.Prelude.{All};
ghost use Rattle.nio_words.specs.Passes.{IsPassOf};
ghost use Rattle.nio_race.specs.Gathering.{StandsIn};
ghost use Rattle.nio_race.specs.SetOff.{AreRacers};

use crate::racer::Racer;
use nio_words::{Pass, Words};

/// Joins the racers' passes to this one. What they have in progress is let go.
pub(crate) fn gather(w: &Words, p: &mut Pass, mut racers: Vec<Racer>)
    requires pass { IsPassOf w.now p.old }
    requires racers { AreRacers w.now racers.items }
    ensures pass { IsPassOf w.now p.new }
    ensures own { StandsIn p.old p.new }
    ensures each { All (λ r. StandsIn r.desk.pass p.new) racers.items }
{
    while let Some(racer) = racers.pop() {
        gather_one(w, p, racer);
    }
    racers.destroy_empty();
}

fn gather_one(w: &Words, p: &mut Pass, racer: Racer)
    requires pass { IsPassOf w.now p.old }
    requires racer { IsPassOf w.now racer.desk.pass }
    ensures pass { IsPassOf w.now p.new }
    ensures own { StandsIn p.old p.new }
    ensures other { StandsIn racer.desk.pass p.new }
{
    let Racer {
        number: _number,
        desk,
        ends: _ends,
        sleeper: _sleeper,
        replies: _replies,
        lacks_memory: _lacks_memory,
    } = racer;
    w.join(p, desk.into_pass());
}

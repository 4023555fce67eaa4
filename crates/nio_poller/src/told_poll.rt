//! A poll that answered.
use nio_history::Mode;
use nio_select::{Asked, Told};
use nio_trace::{Reading, Trace};
use std::marker::Model;

/// A poll that answered: for which keys it was asked, how long it might wait, and what it answered. Lists of these
/// exist in proofs alone.
#[derive(Drop)]
pub struct ToldPoll {
    asked: Asked,
    mode: Mode,
    told: Told,
}

impl Model for ToldPoll {
    ghost use Rattle.nio_select.specs.InProgress.{poll_of};
    ghost use Rattle.nio_poller.specs.Polled.{Polled};

    ghost Value = { Polled };

    ghost view = { λ t. record { asked = t.asked.keys; mode = t.mode; answer = poll_of t.told } };
}

impl ToldPoll {
    ghost use Rattle.std.specs.Prelude.{◌≡◌, ◌++◌, [], ◌∷◌};
    ghost use Rattle.nio_select.specs.InProgress.{poll_of};

    /// Adds a poll that answered to the list.
    pub fn add_to(polls: &mut Trace<ToldPoll>, asked: &Asked, mode: Mode, told: &Told)
        ensures { polls.new
            ≡ polls.old ++ record { asked = asked.now.keys; mode = mode; answer = poll_of told.now } ∷ [] }
    {
        polls.extend_from::<Answer, OnePoll>(&Answer { asked, mode, told });
    }
}

#[derive(Clone, Copy)]
struct Answer<'a> {
    asked: &'a Asked,
    mode: Mode,
    told: &'a Told,
}

/// Reads a poll off its answer.
struct OnePoll;

impl<'a> Reading<Answer<'a>, ToldPoll> for OnePoll {
    ghost use Rattle.std.specs.Prelude.{[], ◌∷◌};
    ghost use Rattle.nio_select.specs.InProgress.{poll_of};

    ghost items = { λ answer. record {
      asked = answer.asked.now.keys;
      mode = answer.mode;
      answer = poll_of answer.told.now;
    } ∷ [] };
}

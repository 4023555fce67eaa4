//! What the last poll told, as far as it still holds. It exists in proofs alone.
ghost use Rattle.std.specs.Prelude.{◌≡◌};
ghost use Rattle.nio_base.specs.declared.numbers.ChanNo.{ChanNo as Channel};
ghost use Rattle.nio_link.specs.Links.{IsSameBut};
ghost use Rattle.nio_link.specs.Readiness.{without};
ghost use Rattle.nio_poller.specs.Polls.{told_of_channel};

use nio_base::{ChanNo, Ops};
use nio_history::Mode;
use nio_poller::ToldPoll;
use nio_select::{Asked, Told};
use nio_trace::Trace;

/// The polls that answered; the last poll, where it answered; and which operations calls have found not ready since, or
/// taken away with all others of the number.
#[derive(Drop)]
pub struct Readiness {
    polls: Trace<ToldPoll>,
    last: Trace<ToldPoll>,
    taken: Trace<(ChanNo, Ops)>,
}

impl Readiness {
    ghost use Rattle.std.specs.Prelude.{◌++◌, [], ◌∷◌};
    ghost use Rattle.nio_select.specs.InProgress.{poll_of};
    ghost use Rattle.nio_kept.specs.Readiness.{polls_of, ready_of};

    /// No poll has answered.
    pub fn new() -> Readiness
        ensures polls { polls_of result ≡ [] }
        ensures unready { (c : Channel) → ready_of result c ≡ 0 }
    {
        Readiness {
            polls: Trace::new(),
            last: Trace::new(),
            taken: Trace::new(),
        }
    }

    /// A poll answered.
    pub fn answered(&mut self, asked: &Asked, mode: Mode, told: &Told)
        ensures polls { polls_of self.new
            ≡ polls_of self.old ++ record { asked = asked.now.keys; mode = mode; answer = poll_of told.now } ∷ [] }
        ensures ready { (c : Channel) → ready_of self.new c ≡ told_of_channel asked.now.keys told.now.pairs.items c }
    {
        ToldPoll::add_to(&mut self.polls, asked, mode, told);
        self.last = Trace::new();
        ToldPoll::add_to(&mut self.last, asked, mode, told);
        self.taken = Trace::new();
    }

    /// A poll failed.
    pub fn failed(&mut self)
        ensures polls { polls_of self.new ≡ polls_of self.old }
        ensures unready { (c : Channel) → ready_of self.new c ≡ 0 }
    {
        self.last = Trace::new();
        self.taken = Trace::new();
    }

    /// A call found the channel not ready for the operation.
    pub fn take(&mut self, chan: ChanNo, op: Ops)
        ensures polls { polls_of self.new ≡ polls_of self.old }
        ensures taken { ready_of self.new chan ≡ without op (ready_of self.old chan) }
        ensures others { IsSameBut chan (ready_of self.old) (ready_of self.new) }
    {
        self.taken.push(&(chan, op));
    }

    /// What was told of the number is over: something was made there, closed or taken out.
    #[tactic(auto, using(crate::proofs::Taking::all_taken))]
    pub fn forget(&mut self, number: ChanNo)
        ensures polls { polls_of self.new ≡ polls_of self.old }
        ensures unready { ready_of self.new number ≡ 0 }
        ensures others { IsSameBut number (ready_of self.old) (ready_of self.new) }
    {
        self.take(number, Ops::of(u8::MAX));
    }
}

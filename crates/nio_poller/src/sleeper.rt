//! A poller that only waits for its bell.
ghost use Rattle.std.specs.Prelude.{◌≡◌, ◌≢◌, ◌↔◌, true, [], refl, None, IsOk, IfOk};
ghost use Rattle.nio_history.specs.declared.found.Mode.TheVariants.{Wait as WithoutLimit};
ghost use Rattle.nio_poller.specs.Polls.{CountsFaults, told_of_channel};
ghost use Rattle.nio_poller.specs.declared.poller.PollError.TheVariants.{Fault};

use crate::bell::Bell;
use crate::poller::{PollError, Poller};
use nio_history::Mode;
use nio_select::{Asked, Told};
use std::alloc::{AllocError, Global};
use std::sync::{Arc, Wait};
use std::thread::Parker;

/// A poller that tells nothing. Where it may wait without limit it sleeps until its bell rings; else it answers at
/// once that the time is over.
#[derive(Drop)]
pub struct Sleeper {
    parker: Arc<Parker>,
}

/// The bell of a `Sleeper`. A ring that comes while the sleeper doesn't sleep ends its next sleep at once.
#[derive(Drop)]
pub struct SleeperBell {
    parker: Arc<Parker>,
}

impl Sleeper {
    /// A sleeper and its bell.
    pub fn pair(alloc: Global) -> Result<(Sleeper, SleeperBell), AllocError> {
        let parker = Arc::new(alloc, Parker::new())?;
        let bell = SleeperBell {
            parker: parker.clone()?,
        };
        Ok((Sleeper { parker }, bell))
    }
}

impl Poller for Sleeper {
    ghost use Rattle.std.specs.Prelude.{⊤};
    ghost use Rattle.nio_base.specs.declared.numbers.ChanNo.{ChanNo};

    ghost poll_faults = { λ _. 0 };

    ghost ready = { λ _ _. 0 };

    ghost polls = { λ _. None };

    ghost kept = { λ _ _. ⊤ };

    fn poll<R: Wait>(
        &mut self,
        rt: &R,
        alloc: Global,
        asked: &Asked,
        mode: Mode,
    ) -> Result<Told, PollError>
        // As every poller.
        ensures cause { CountsFaults Fault 0 0 result }
        ensures ready { IfOk result (λ told. (c : ChanNo) → 0 ≡ told_of_channel asked.now.keys told.pairs.items c) }

        // It always answers: nothing, and that the time is over where it may not wait without limit.
        ensures answers { IsOk result }
        ensures nothing { IfOk result (λ told. told.pairs.items ≡ []) }
        ensures elapsed { IfOk result (λ told. (told.elapsed ≡ true) ↔ (mode ≢ WithoutLimit)) }
    {
        let waits = mode == Mode::Wait;
        if waits {
            self.parker.park(rt);
        }
        Ok(Told {
            pairs: Vec::new(alloc),
            elapsed: !waits,
        })
    }

    ghost kept_same = { λ _. tt };

    ghost kept_on = { λ _ _ _ _ _. tt };
}

impl Bell for SleeperBell {
    fn ring(&self) {
        self.parker.unpark();
    }
}

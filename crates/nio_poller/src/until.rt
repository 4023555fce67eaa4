//! What ends a selection, and what it is told of its polls for that.
ghost use Rattle.std.specs.Prelude.{◌≡◌};
ghost use Rattle.nio_select.specs.InProgress.{poll_of};
ghost use Rattle.nio_steps.specs.SelectCalls.{is_timed as has_limit};
ghost use Rattle.nio_poller.specs.Until.{begun_with, is_elapsed, looked_for, mode_of_poll, one_poll, told_one, with_time};
ghost use Rattle.nio_poller.specs.Until.{tells_some as something_told};

use nio_base::Ops;
use nio_history::{Milliseconds, Mode};
use nio_select::{Asked, Told};

/// What ends a selection, beside its time, a wakeup, an interrupt and the closing of its selector.
#[derive(Clone, Copy)]
pub(crate) enum Until {
    /// That a key was updated, as Java's documentation says.
    Updated,
    /// That anything was told of what the selection looked for, also where no key was updated, as in JDK 17.
    Told,
}

/// How a selection waits.
#[derive(Clone, Copy)]
pub(crate) struct Waiting {
    /// How long each poll but the first may wait.
    pub(crate) mode: Mode,
    /// What ends the selection.
    pub(crate) until: Until,
}

impl Waiting {
    /// The mode that the selection begins with.
    pub(crate) fn begun_with(self) -> Mode
        ensures { result ≡ begun_with self.until self.mode }
    {
        match self.until {
            Until::Updated => self.mode,
            Until::Told => with_time(self.mode),
        }
    }

    /// How long a poll may wait: the first doesn't wait.
    pub(crate) fn poll_mode(self, is_first: bool) -> Mode
        ensures { result ≡ mode_of_poll is_first self.mode }
    {
        if is_first { Mode::Now } else { self.mode }
    }

    /// What the selection is told of a poll's answer.
    pub(crate) fn tells(self, asked: &Asked, is_first: bool, told: Told) -> Told
        ensures { poll_of result
            ≡ told_one self.until is_first (one_poll asked.now.keys self.mode is_first (poll_of told)) }
    {
        let elapsed = self.is_elapsed(asked, is_first, &told);
        Told {
            pairs: told.pairs,
            elapsed,
        }
    }

    // Whether the selection is told that its time is over.
    fn is_elapsed(self, asked: &Asked, is_first: bool, told: &Told) -> bool
        ensures { result
            ≡ is_elapsed self.until is_first (one_poll asked.now.keys self.mode is_first (poll_of told.now)) }
    {
        match self.until {
            Until::Updated => !is_first && told.elapsed,
            Until::Told => {
                tells_some(asked, &told.pairs)
                    || (is_timed(self.poll_mode(is_first)) && told.elapsed)
            }
        }
    }
}

// The mode, with the greatest time where it waits without limit.
fn with_time(mode: Mode) -> Mode
    ensures { result ≡ with_time mode }
{
    match mode {
        Mode::Now => Mode::Now,
        Mode::Wait => Mode::For(Milliseconds {
            after_the_first: u64::MAX,
        }),
        Mode::For(time) => Mode::For(time),
    }
}

// Whether it waits for a limited time.
fn is_timed(mode: Mode) -> bool
    ensures { result ≡ has_limit mode }
{
    match mode {
        Mode::Now => false,
        Mode::Wait => false,
        Mode::For(_) => true,
    }
}

/// Whether a poll told anything of what these keys are looked for: of one of them, an operation of its interest. That
/// ends `select_told` and `select_told_for`.
pub fn tells_some(asked: &Asked, pairs: &[(u32, Ops)]) -> bool
    ensures { result ≡ something_told asked.now.keys pairs.now }
{
    pairs
        .iter()
        .any(|&(index, ops)| is_looked_for(asked, index, ops))
}

// Whether the key of this index is looked for one of these operations.
fn is_looked_for(asked: &Asked, index: u32, ops: Ops) -> bool
    ensures { result ≡ looked_for asked.now.keys index ops }
{
    match asked.key(index) {
        Some(key) => ops.meet(key.interest) != Ops::NONE,
        None => false,
    }
}

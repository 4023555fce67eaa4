//! Laws of timed scripts. Each is the contract of a function that does nothing.
ghost use Rattle.nio_timed.specs.Laws.{AreRuns, IsReadOneWay, TimesOutInScripts};

/// A text is a timed script of one list of calls.
pub fn one_timed_reading_law()
    ensures { IsReadOneWay }
{}

/// A timed script leaves the group as a run of its timed steps does, each of which names a channel that is made by
/// then.
pub fn timed_run_law()
    ensures { AreRuns }
{}

/// After any calls of a timed script a `take` says that an operation has timed out exactly where a start with a moment
/// and a limit started it, and a later `expire`, at which it was pending, had a moment of at least their sum.
pub fn script_timeout_law()
    ensures { TimesOutInScripts }
{}

//! The laws of groups with time limits, each the contract of a function with an empty body.
ghost use Rattle.nio_deadline.specs.Run.{CompletesOnce, LosesNone, StepsAreLawful, TakesOnce, TimesOutExactly};

/// For each lawful state of a group with time limits and each call there are one reply and one next state, and that
/// state is lawful.
pub fn timed_step_law()
    ensures { StepsAreLawful }
{}

/// Over every list of calls an operation completes with `InterruptedByTimeout` exactly where a `start_timed` with a
/// moment and a limit started it, and a later `expire`, at which it was pending, had a moment of at least their sum.
pub fn timeout_law()
    ensures { TimesOutExactly }
{}

/// Over every list of calls and moments an operation that was accepted and isn't pending any more has completed exactly
/// once; no other operation has completed.
pub fn timed_completion_law()
    ensures { CompletesOnce }
{}

/// Over every list of calls the completion of an operation, with a result or a timeout, is taken at most once.
pub fn timed_take_law()
    ensures { TakesOnce }
{}

/// Where a group with time limits has terminated no accepted operation is lost: each has ended.
pub fn timed_rest_law()
    ensures { LosesNone }
{}

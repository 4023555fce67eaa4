//! What follows from the contracts of whole selections. The function does nothing: its contract is a law.
ghost use Rattle.nio_poller.specs.Laws.{GoesOnUntold};

/// `select_told` and `select_told_for` go on only after a poll that told nothing of what they looked for: the first that
/// tells anything is the last.
pub fn told_ends_law()
    ensures { GoesOnUntold }
{}

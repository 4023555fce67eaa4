//! The law of a queue of completions, as the contract of a function with an empty body.
ghost use Rattle.nio_pool.specs.Hands.{TakenOnce};

/// At every moment of a queue: where all its passes together have put a number at most once, they have taken it at most
/// once, and once it is taken it doesn't wait.
pub fn taken_once_law()
    ensures { TakenOnce }
{}

//! Laws of lines.
ghost use Rattle.nio_line.specs.Lines.{LastIsAll};

/// Where the last message, which was sent once, was received, all was received.
pub fn last_law<T>()
    ensures { LastIsAll T }
{}

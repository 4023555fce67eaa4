//! The laws, as the contracts of functions that do nothing.
ghost use Rattle.nio_sole.specs.MadeLaws.{LinesAreCalls, OngoingIsBegun, OngoingIsClosing};

/// A line of a script is whole calls. What a caller has in progress it has begun, and hasn't ended.
pub fn sole_law()
    ensures lines { LinesAreCalls }
    ensures begun { OngoingIsBegun }
    ensures closing { OngoingIsClosing }
{}

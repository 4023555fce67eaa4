//! The laws of directions, each the contract of a function with an empty body.
ghost use Rattle.nio_relay.specs.Calls.{RelayLaw};
ghost use Rattle.nio_relay.specs.Connection.{ConnectionLaw};

/// At every moment what was written is a prefix of what was read, and once the output is shut it
/// is all of it.
pub fn relay_law()
    ensures { RelayLaw }
{}

/// A connection is clean once both of its directions are shut.
pub fn connection_law()
    ensures { ConnectionLaw }
{}

//! What follows from the contracts of a caller's calls. The functions do nothing: their contracts are laws.
ghost use Rattle.nio_caller.specs.Laws.{ChannelsAreFound, KeysAreFound, NamesStay, SelectorsAreFound};

/// A call that names what its caller has seen made finds it, so it isn't refused for it.
pub fn found_law()
    ensures selectors { SelectorsAreFound }
    ensures channels { ChannelsAreFound }
    ensures keys { KeysAreFound }
{}

/// What a caller has seen made may be named by each later call.
pub fn names_law()
    ensures { NamesStay }
{}

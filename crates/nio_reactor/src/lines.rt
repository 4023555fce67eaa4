//! The lines of all workers.

use std::marker::Brand;

/// Which lines there are, to messages with links of type `L`, how many connections the plan has, and how many slots there
/// are. The lanes of all
/// workers are of one type by this: what a lane knows of its line lasts whatever is done with the lane.
pub(crate) trait Lines<L> {
    ghost use Rattle.std.specs.Prelude.{ℕ, List};
    ghost use Rattle.nio_line.specs.Lines.{LineId};
    ghost use Rattle.nio_reactor.specs.declared.message.Message.{Message};

    // Line v is that of worker v.
    ghost lines: { List (LineId (Message L)) };

    ghost conns: { ℕ };

    ghost slots: { ℕ };
}

impl<L> Lines<L> for Brand {
    ghost use Rattle.std.specs.Prelude.{[]};

    ghost lines = { [] };

    ghost conns = { 0 };

    ghost slots = { 0 };
}

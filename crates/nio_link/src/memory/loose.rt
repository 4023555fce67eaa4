//! Links in memory that stand in no net.
use crate::memory::link::MemoryLink;
use std::marker::Model;

/// A link that was taken out of a net in memory, with its peer's target where that is still to be connected. Both have
/// the room that was taken for their bytes.
#[derive(Drop)]
pub struct LooseLink {
    pub(crate) link: MemoryLink,
    pub(crate) target: Option<MemoryLink>,
}

impl Model for LooseLink {
    ghost use Rattle.std.specs.Prelude.{IfSome};
    ghost use Rattle.nio_link.specs.MemoryLinks.{IsFresh};
    ghost use Rattle.nio_link.specs.MemoryNet.{Loose};

    ghost Value = { Loose };

    ghost view = { λ l. record { link = l.link; target = l.target } };

    ghost invariant = { λ l. IsFresh l.link × IfSome l.target IsFresh };
}

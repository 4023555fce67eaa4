//! How much a system can hold.
ghost use Rattle.std.specs.Prelude.{◌↔◌, IsTrue};

/// How many callers, selectors and channels a system has at most, and how many key indexes each
/// of its selectors: 1 to 64 callers, 1 to 16 selectors, 1 to 262,144 channels and as many indexes.
#[derive(Clone, Copy, Debug, PartialEq, Eq, Hash)]
pub struct Limits {
    /// 1 to 64.
    pub callers: u32,
    /// 1 to 16.
    pub selectors: u32,
    /// 1 to 262,144.
    pub channels: u32,
    /// Indexes of keys in each selector, 1 to 262,144.
    pub keys: u32,
}

impl Limits {
    ghost use Rattle.nio_base.specs.Limits.{IsFit};

    /// Whether a system can be made with these limits.
    pub fn fits(self) -> bool
        ensures { IsTrue result ↔ IsFit self }
    {
        (1..=64).contains(&self.callers)
            && (1..=16).contains(&self.selectors)
            && (1..=262_144).contains(&self.channels)
            && (1..=262_144).contains(&self.keys)
    }
}

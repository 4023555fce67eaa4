//! What is ready of what a worker's last poll told.
ghost use Rattle.std.specs.Prelude.{◌≡◌, ℕ, ◌==◌, if◌then◌else◌};
ghost use Rattle.nio_base.specs.declared.numbers.ChanNo.{ChanNo};
ghost use Rattle.nio_reactor.specs.Lanes.{IsToldOpen, is_of_line, ready_over};
ghost use Rattle.nio_reactor.specs.declared.door.Door.{Door};

/// Which channels are ready, of those that a worker's last poll told of.
#[derive(Clone, Copy, Debug, PartialEq, Eq)]
pub(crate) enum Ready {
    /// All that the net told of.
    Net,
    /// The same, but for the listener's number: something was opened or closed there.
    Links,
    /// The line alone, which the poll told of: the listener.
    Line,
    /// None: the poll told of the line alone, and nothing more comes on it for now.
    Nothing,
}

impl Ready {
    /// The last poll told of the line alone.
    pub(crate) fn is_of_line(self) -> bool
        ensures { result ≡ is_of_line self }
    {
        matches!(self, Ready::Line | Ready::Nothing)
    }

    /// Without the listener's number.
    pub(crate) fn without_listener(self) -> Ready
        ensures ready { (of_net : ChanNo → ℕ) (c : ChanNo) → ready_over result of_net c
            ≡ (if c.0 == 0 then 0 else ready_over self of_net c) }
        ensures told { (d : Door) → IsToldOpen result d }
    {
        match self {
            Ready::Net | Ready::Links => Ready::Links,
            Ready::Line | Ready::Nothing => Ready::Nothing,
        }
    }
}

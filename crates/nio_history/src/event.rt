//! One atomic step of a caller, as it stands in a history.
use crate::act::Act;
use nio_base::CallerNo;

/// What a caller did: one step, with its parameters and with what it found.
#[derive(Clone, Copy, Debug)]
pub struct Event {
    /// Who made the step.
    pub caller: CallerNo,
    /// The step, with what it found.
    pub act: Act,
}

//! What a poller told.
use nio_base::Ops;

/// What a poller told of the keys that a selection asked for: for an index, which operations its channel is
/// ready for, and whether the time of the selection is over. Where an index stands twice, its operations are
/// united. An index that the selection didn't ask for is ignored, and so is an operation that it didn't look for.
#[derive(Debug, Drop)]
pub struct Told {
    /// An index of the selector, and operations that its channel is ready for.
    pub pairs: Vec<(u32, Ops)>,
    /// Whether the time of the selection is over. Only a selection with a time looks at it.
    pub elapsed: bool,
}

//! The one way in which a source or a sink fails.
use thiserror::Error;

/// A read, a write or a flush failed, and the count of faults of its source or sink rose. It has no
/// other contents.
#[derive(Clone, Copy, Debug, PartialEq, Eq, Error)]
#[error("reading or writing failed")]
pub struct Failed;

//! Which beginning made a looked list.
use nio_base::SelNo;

/// Which beginning with a selector's list made a looked list. The numbers of a list's beginnings go up by one, and
/// after the greatest comes 0.
#[derive(Clone, Copy, Debug, PartialEq, Eq)]
pub struct Stamp {
    /// The selector.
    pub selector: SelNo,
    /// The number of the beginning.
    pub number: u64,
}

//! Keys, and finding what is known by its number.
pub use nio_keys::{
    KeyError, attach, attachment, cancel, find, find_channel, find_selector, interest,
    interest_and, interest_or, is_valid, ready, set_interest, unselect,
};

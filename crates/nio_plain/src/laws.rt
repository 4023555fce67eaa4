//! Laws of the documented system. Each is the contract of a function that does nothing.
mod calls;
mod reached;

pub use calls::{refusals_law, selections_law, told_law, wakeups_law, waking_law};
pub use reached::{
    channels_law, closed_channel_law, closed_selector_law, first_rules_law, free_index_law,
    group_law, invalid_keys_law, key_of_channel_law, new_key_law, registered_law, sets_law,
};

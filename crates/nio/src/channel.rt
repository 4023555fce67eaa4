//! Channels.
pub use nio_channel::{
    ChannelError, ReopenError, close_channel, is_blocking, is_open, is_registered, key_for,
    open_channel, register, reopen_channel, set_blocking, try_register, try_set_blocking,
};

//! The calls on channels over the shared table: opening a channel, setting its mode, registering it with a
//! selector, finding its keys, closing it, giving its number to a new one. Each says as its clause `call` which
//! steps it makes and what it answers; `nio_steps` (specs/ChannelCalls.antt) has these plans.
//!
//! The number of a closed channel can be given to a new one, with the next serial; the old one stays closed for good,
//! whatever is called with it.
//!
//! Registering a channel, setting its mode and giving its number to a new one are done under the hold of the number.
//! `register` and `set_blocking` take the runtime: they wait until nobody else has the hold, and let other threads
//! run between two tries. All other calls return without waiting for anybody; where another caller has the hold,
//! `try_register`, `try_set_blocking` and `reopen_channel` answer `Busy`, and `open_channel` passes the number over.
//! `close_channel` needs no hold, so it goes through also while another caller registers the channel or selects.
//!
//! No call takes memory. Registering looks for a free index in one word for each 64 indexes that were ever used;
//! `is_registered`, `close_channel`, `reopen_channel` and setting blocking mode look in every selector that there may
//! be, and `open_channel` does so for each closed channel of its kind, once every number had a channel.
//!
//! A caller that registers or closes has no pin when it calls, and has none when the call returns.
#![tactic(auto)]

pub use closing::close_channel;
pub use keys::{is_registered, key_for};
pub use looks::{is_blocking, is_open};
pub use modes::try_set_blocking;
pub use nio_steps::{ChannelError, ReopenError};
pub use opening::open_channel;
pub use registering::try_register;
pub use reopening::reopen_channel;
pub use waiting::{register, set_blocking};

mod claiming;
mod closing;
mod keys;
mod looks;
mod modes;
mod opening;
mod registering;
mod reopening;
mod waiting;

//! A net whose calls may be made at any time: each looks first at what stands under its channel, and at what the last
//! poll told of it.
#![tactic(auto)]

pub use buffer::ByteBuffer;
pub use calls::NetError;
pub use checked::CheckedNet;

mod buffer;
mod buffered;
mod calls;
mod checked;
mod told;

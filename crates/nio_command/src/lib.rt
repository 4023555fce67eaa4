//! Reads the program's command line. The options of `proxy` and of `packets` are read with `clap`.
#![tactic(auto)]

pub use command::{Command, WordsError, command_of};
pub use way::ProxyWay;

mod address;
mod command;
mod number;
mod options;
mod packet_options;
mod plan;
mod proxy_options;
mod way;

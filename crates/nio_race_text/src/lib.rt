//! Race texts: the lines of a script, and behind a line `go` the lines of callers that run in
//! threads. Reading them, and printing the replies to those callers.
#![tactic(auto)]

pub use call::{RaceCall, RaceLine};
pub use print::print_race_line;
pub use text::{RaceText, parse_race};

mod call;
pub mod laws;
mod line;
mod lines;
mod print;
mod text;

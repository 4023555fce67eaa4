//! Scripts: from the bytes that come in to the bytes that go out.
#![tactic(auto)]

pub use check::run_check;
pub use history::{HistoryCall, parse_history};
pub use input::{LONGEST_INPUT, read_input};
pub use output::{offer, write_all, write_out};
pub use run::{refuse, run_script};
pub use script::{ScriptError, lines_of, parse_script, read_calls};
pub use status::Status;

mod check;
mod history;
mod input;
pub mod laws;
mod output;
mod run;
mod script;
mod status;

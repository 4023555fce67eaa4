//! The calls of callers that run in threads.
use nio_base::{CallerNo, SelNo};
use nio_language::Call;

/// A call behind `go`.
#[derive(Debug, Drop)]
pub enum RaceCall {
    /// A call that scripts have too.
    Script(Call),
    /// `block S`: selects without a limit of time, over the caller's own sleeper.
    Block(SelNo),
}

/// A call behind `go`, and who makes it.
#[derive(Debug, Drop)]
pub struct RaceLine {
    /// Whose line it is.
    pub caller: CallerNo,
    /// What it calls.
    pub call: RaceCall,
}

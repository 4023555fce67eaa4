//! What one caller of a table serves by: a board, on which it registers channels and selects.
#![tactic(auto)]

pub use board::{Board, Port, Refused};
pub use deal::Deal;
pub use laws::{board_law, deal_law};
pub use polls::{Direct, Polls};

mod board;
mod deal;
mod laws;
mod polls;

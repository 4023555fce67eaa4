//! Laws of boards and of deals. Each is the contract of a function that does nothing.
ghost use Rattle.nio_board.specs.BoardLaws.{DealtComesBack, DrawnIsUnregistered};

/// The first caller of a new table has registered nothing once it has drawn its number, so it may open a board.
pub fn board_law()
    ensures drawn { DrawnIsUnregistered }
{}

/// A worker's poll is asked for its own channels: each that the table has for one of them is numbered as that again.
pub fn deal_law()
    ensures back { DealtComesBack }
{}

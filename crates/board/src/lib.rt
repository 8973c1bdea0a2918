//! The board: grids, moves and the ledger of them, the books and banks of the two ends,
//! and the tags of questions.
#![tactic(auto)]

ghost use Rattle.board.specs.Ledger.{NoTrace};

mod bank;
mod book;
mod grid;
mod moves;
mod tag;

pub use bank::{Bank, fill_cells};
pub use book::Book;
pub use grid::Grid;
pub use moves::Move;
pub use tag::Tag;

/// A ledger fed the accepted moves alone stands as one fed all moves.
#[tactic(auto, using(crate::proofs::Traces::no_trace))]
pub fn refused_moves_leave_no_trace()
    ensures { NoTrace }
{}

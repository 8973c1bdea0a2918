// Moves.

/// A move: what it adds to the count of a cell.
#[derive(Clone, Copy, PartialEq, Eq, Debug)]
pub struct Move {
    /// The cell, on the board or not.
    pub cell: u64,
    /// The amount, allowed or not.
    pub amount: i64,
}

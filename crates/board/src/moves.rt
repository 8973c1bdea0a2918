// Moves.

/// A move: an amount, of any size, at a cell, on the board or not.
#[derive(Clone, Copy, Debug, PartialEq, Eq)]
pub struct Move {
    /// The cell. A move counts only where it is below rows × columns.
    pub cell: u64,
    /// The amount. A move counts only where it is from −256 to 256 and not 0.
    pub amount: i64,
}

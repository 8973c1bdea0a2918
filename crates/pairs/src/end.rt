// What hosts and boxes have in common.
use crate::names::Names;
use board::{Bank, Book, Move};
use reference::{Arithmetic, Game, Standing, Stop};
use refusal::Refusal;

/// An end of the product that takes moves, and beside each of its calls the reference's.
pub trait End: Drop {
    /// What stands in a cell of the bank.
    type Cell: Copy;

    /// The same in plain numbers.
    type Plain: Copy + PartialEq;

    /// What it is opened with besides a grid and a bank, in plain numbers.
    type Secret: Copy;

    /// What a report says of it.
    const NAMES: Names;

    /// The cell for plain numbers.
    fn cell(plain: Self::Plain) -> Self::Cell;

    /// The plain numbers for a cell.
    fn plain(cell: Self::Cell) -> Self::Plain;

    /// Opens the product's.
    fn opened(
        rows: u64,
        columns: u64,
        secret: Self::Secret,
        bank: &mut Bank<'_, Self::Cell>,
    ) -> Result<Self, Refusal>
    where
        Self: Sized;

    /// Opens the reference's.
    fn opened_plainly(
        field: Arithmetic,
        rows: u64,
        columns: u64,
        bank: &mut [Self::Plain],
    ) -> Result<Standing, Stop>;

    /// Tells the product's a move.
    fn told(&mut self, bank: &mut Bank<'_, Self::Cell>, m: Move) -> Result<(), Refusal>;

    /// Tells the reference's a move.
    fn told_plainly(
        game: Game,
        secret: Self::Secret,
        bank: &mut [Self::Plain],
        m: reference::Move,
    ) -> Result<Standing, Stop>;

    /// How the product's stands.
    fn standing(&self) -> &Book;
}

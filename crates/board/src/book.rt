// The book of an end: its grid, and the weight and number of the moves that it accepted.
ghost use Rattle.std.specs.Prelude.{◌≡◌, ◌≤◌, IfOk};
ghost use Rattle.board.specs.Answers.{kept_or, granted};
ghost use Rattle.board.specs.Books.{new_standing, entered, book_answer};

use crate::grid::Grid;
use crate::moves::Move;
use refusal::Refusal;
use std::marker::Model;

/// What an end keeps of its game: the grid, the weight of the accepted moves, and their number.
#[derive(Clone, Debug, Drop)]
pub struct Book {
    grid: Grid,
    weight: u32,
    number: u32,
}

/// To its callers a book is where it stands.
impl Model for Book {
    ghost use Rattle.std.specs.Prelude.{◌≤◌};
    ghost use Rattle.board.specs.Standing.{Standing};

    ghost Value = { Standing };

    ghost use Rattle.board.specs.Views.{standing};

    ghost view = { standing };

    ghost invariant = { λ b. b.number ≤ b.weight };
}

impl Book {
    /// The book of a new game: no move, no weight.
    pub fn new(grid: Grid) -> Book
        ensures { result ≡ new_standing grid.rows grid.columns }
    {
        Book {
            grid,
            weight: 0,
            number: 0,
        }
    }

    /// The grid of the game.
    pub fn grid(&self) -> Grid
        ensures { (result.rows ≡ self.now.rows) × (result.columns ≡ self.now.columns) }
    {
        self.grid
    }

    /// The absolute amounts of the accepted moves, added; at most the limit of weights.
    pub fn weight(&self) -> u32
        ensures { result ≡ self.now.weight }
    {
        self.weight
    }

    /// How many moves were accepted, each of which weighs 1 at least.
    pub fn number(&self) -> u32
        ensures value { result ≡ self.now.number }
        ensures fewer { result ≤ self.now.weight }
    {
        self.number
    }

    /// The first refusal that applies to a move, at this limit of weights: 1, 2, 3. Nothing changes.
    pub fn answer(&self, limit: u32, m: Move) -> Result<(), Refusal>
        ensures { result ≡ book_answer limit self.now m }
    {
        if m.cell >= u64::from(self.grid.cells()) {
            return Err(Refusal::CellOutside);
        }
        let size = m.amount.unsigned_abs();
        if !(1..=256).contains(&size) {
            return Err(Refusal::AmountOutside);
        }
        if u64::from(self.weight) + size > u64::from(limit) {
            return Err(Refusal::TooHeavy);
        }
        Ok(())
    }

    /// Enters a move where no refusal applies: 1, 2, 3. A refused move changes nothing.
    pub fn accept(&mut self, limit: u32, m: Move) -> Result<(), Refusal>
        ensures answer { result ≡ book_answer limit self.old m }
        ensures book { self.new ≡ kept_or result self.old (entered self.old m) }
    {
        self.answer(limit, m)?;
        self.weight += m.amount.unsigned_abs() as u32;
        self.number += 1;
        Ok(())
    }

    /// The book with a move entered, where no refusal applies: 1, 2, 3.
    pub fn accepted(&self, limit: u32, m: Move) -> Result<Book, Refusal>
        ensures answer { granted result ≡ book_answer limit self.now m }
        ensures book { IfOk result (λ book. book ≡ entered self.now m) }
    {
        let mut book = Book {
            grid: self.grid,
            weight: self.weight,
            number: self.number,
        };
        book.accept(limit, m)?;
        Ok(book)
    }
}

/// Two books are equal where they stand alike.
impl PartialEq for Book {
    ghost use Rattle.std.specs.Prelude.{◌&&◌, ◌==◌};
    ghost use Rattle.std.proofs.Common.{rules};

    ghost eq = { λ a b. (a.rows == b.rows && a.columns == b.columns) && (a.weight == b.weight && a.number == b.number) };

    ghost laws = { Prim.search rules };

    fn eq(&self, other: &Self) -> bool {
        self.grid == other.grid && (self.weight == other.weight && self.number == other.number)
    }
}

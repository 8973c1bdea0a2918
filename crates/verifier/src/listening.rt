// Boxes that are told moves.
ghost use Rattle.std.specs.Prelude.{◌≡◌, ◌*◌, ◌<◌, ◌≤◌, length, Ok, IfOk, unsigned_abs};
ghost use Rattle.board.specs.Banks.{cells_of, Rewritten};
ghost use Rattle.board.specs.Answers.{granted};
ghost use Rattle.board.specs.Books.{new_standing};
ghost use Rattle.verifier.specs.Calls.{verifier_open_answer, verifier_open_bank, move_share, added_column, verifier_note_answer, verifier_note_standing, verifier_note_bank};

use crate::sealed::Sealed;
use board::{Bank, Book, Grid, Move};
use field::Field;
use polynomial::basis_at;
use refusal::Refusal;
use std::marker::Model;

/// A box that is told moves. It is moved, never copied, and is sealed before it judges sheets.
#[derive(Drop)]
pub struct Listening<F> {
    book: Book,
    point: F,
}

/// To its callers a box is where it stands, and its point.
impl<F> Model for Listening<F> {
    ghost use Rattle.verifier.specs.Pointed.{Pointed};

    ghost Value = { Pointed F };

    ghost view = { λ listening. record { standing = listening.book; point = listening.point } };
}

// What a move on the board adds to its column at the point: on one row the amount, since the basis polynomial is then one.
#[inline(always)]
fn share_of<F: Field>(grid: Grid, point: F, m: Move) -> F
    requires inside { m.cell < grid.rows * grid.columns }
    requires small { unsigned_abs m.amount ≤ 256 }
    ensures { result ≡ move_share F.Field.model grid.rows grid.columns point m }
{
    let amount = F::image(m.amount as i32);
    if grid.rows == 1 {
        return amount;
    }
    let row = grid.row_of(m.cell) as u32;
    amount * basis_at(grid.rows, row, point)
}

// Adds the share of a move on the board to its column.
#[inline(always)]
fn add_share<F: Field>(bank: &mut Bank<'_, F>, grid: Grid, point: F, m: Move) -> Result<(), Refusal>
    requires inside { m.cell < grid.rows * grid.columns }
    requires small { unsigned_abs m.amount ≤ 256 }
    requires long { grid.columns ≤ length (cells_of bank.old) }
    ensures answer { result ≡ Ok tt }
    ensures bank { Rewritten bank.old bank.new
        (added_column F.Field.model grid.rows grid.columns point (cells_of bank.old) m) }
{
    let column = grid.column_of(m.cell) as usize;
    let sum = bank.get(column).ok_or(Refusal::BankShort)?;
    bank.put(column, sum + share_of(grid, point, m))
}

impl<F: Field> Listening<F> {
    /// Opens a box on a board at a secret point, with a cell of the bank for each column, all of them then zero. It refuses a grid that
    /// is not allowed with 10, and then a bank with too few cells with 12, and leaves the bank as it was.
    pub fn open(
        rows: u64,
        columns: u64,
        point: F,
        bank: &mut Bank<'_, F>,
    ) -> Result<Listening<F>, Refusal>
        ensures answer { granted result
            ≡ verifier_open_answer F.Field.model rows columns (cells_of bank.old) }
        ensures opened { IfOk result (λ listening. listening
            ≡ record { standing = new_standing rows columns; point = point }) }
        ensures bank { Rewritten bank.old bank.new
            (verifier_open_bank F.Field.model rows columns (cells_of bank.old)) }
    {
        let grid = Grid::new(rows, columns)?;
        bank.fill_front(grid.columns as usize, F::zero())?;
        Ok(Listening {
            book: Book::new(grid),
            point,
        })
    }

    /// Adds a move to its column. It refuses a bank with too few cells with 12, and then the move with 1, 2, 3; a refusal changes
    /// nothing.
    // Inlined with what it calls here: on few rows to hand over a move would cost as much as to add it.
    #[inline(always)]
    pub fn note(&mut self, bank: &mut Bank<'_, F>, m: Move) -> Result<(), Refusal>
        ensures answer { result
            ≡ verifier_note_answer F.Field.model self.old.standing (cells_of bank.old) m }
        ensures standing { self.new.standing
            ≡ verifier_note_standing F.Field.model self.old.standing (cells_of bank.old) m }
        ensures point { self.new.point ≡ self.old.point }
        ensures bank { Rewritten bank.old bank.new
            (verifier_note_bank F.Field.model self.old.standing self.old.point
            (cells_of bank.old) m) }
    {
        let grid = self.book.grid();
        if bank.len() < grid.columns as usize {
            return Err(Refusal::BankShort);
        }
        self.book.accept(F::LIMIT, m)?;
        add_share(bank, grid, self.point, m)
    }

    /// The grid, and the weight and the number of the accepted moves.
    pub fn book(&self) -> &Book
        ensures { result.now ≡ self.now.standing }
    {
        &self.book
    }

    /// From here on the box judges sheets and takes no more moves.
    pub fn seal(self) -> Sealed<F>
        ensures { result ≡ self }
    {
        let Listening { book, point } = self;
        Sealed { book, point }
    }
}

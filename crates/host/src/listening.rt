// Hosts that are told moves.
ghost use Rattle.std.specs.Prelude.{◌≡◌, ◌<◌, ◌≤◌, length, Ok, IfOk, unsigned_abs};
ghost use Rattle.field.specs.declared.limits.TheConstants.{GREATEST_LIMIT};
ghost use Rattle.board.specs.Banks.{cells_of, Rewritten};
ghost use Rattle.board.specs.Answers.{kept_or, granted};
ghost use Rattle.board.specs.Books.{new_standing};
ghost use Rattle.board.specs.Ledger.{added_count};
ghost use Rattle.host.specs.Calls.{host_open_answer, host_open_bank, count_answer, host_note_answer, host_note_standing, host_note_bank};

use crate::sealed::Sealed;
use board::{Bank, Book, Grid, Move};
use field::Field;
use refusal::Refusal;
use std::marker::{Model, PhantomData};

/// A host that is told moves. It is moved, never copied, and is sealed before it answers questions.
#[derive(Drop)]
pub struct Listening<F> {
    book: Book,
    field: PhantomData<F>,
}

/// To its callers a host is where it stands.
impl<F> Model for Listening<F> {
    ghost use Rattle.board.specs.Standing.{Standing};

    ghost Value = { Standing };

    ghost view = { λ host. host.book };
}

// Adds the amount of a move to its cell, whose count has to lie from −limit to limit.
fn add_count(bank: &mut Bank<'_, i32>, limit: u32, m: Move) -> Result<(), Refusal>
    requires light { limit ≤ GREATEST_LIMIT }
    requires small { unsigned_abs m.amount ≤ 256 }
    requires within { m.cell < length (cells_of bank.old) }
    ensures answer { result ≡ count_answer limit (Ok tt) (cells_of bank.old) m }
    ensures bank { Rewritten bank.old bank.new
        (kept_or result (cells_of bank.old) (added_count (cells_of bank.old) m)) }
{
    let cell = m.cell as usize;
    let count = bank.get(cell).ok_or(Refusal::BankShort)?;
    if count.unsigned_abs() > limit {
        return Err(Refusal::CountOutside);
    }
    bank.put(cell, count + m.amount as i32)
}

impl<F: Field> Listening<F> {
    /// Opens a host on a board, with a cell of the bank for each cell of the board, all of them then zero. It refuses a grid that is not
    /// allowed with 10, and then a bank with too few cells with 12, and leaves the bank as it was.
    pub fn open(rows: u64, columns: u64, bank: &mut Bank<'_, i32>) -> Result<Listening<F>, Refusal>
        ensures answer { granted result ≡ host_open_answer rows columns (cells_of bank.old) }
        ensures opened { IfOk result (λ host. host ≡ new_standing rows columns) }
        ensures bank { Rewritten bank.old bank.new
            (host_open_bank rows columns (cells_of bank.old)) }
    {
        let grid = Grid::new(rows, columns)?;
        bank.fill_front(grid.cells() as usize, 0)?;
        Ok(Listening {
            book: Book::new(grid),
            field: PhantomData,
        })
    }

    /// Counts a move. It refuses a bank with too few cells with 12, then the move with 1, 2, 3, and last with 13 a count that is beyond
    /// the field's limit before the move; a refusal changes nothing.
    pub fn note(&mut self, bank: &mut Bank<'_, i32>, m: Move) -> Result<(), Refusal>
        ensures answer { result
            ≡ host_note_answer F.Field.model.limit self.old (cells_of bank.old) m }
        ensures standing { self.new
            ≡ host_note_standing F.Field.model.limit self.old (cells_of bank.old) m }
        ensures bank { Rewritten bank.old bank.new
            (host_note_bank F.Field.model.limit self.old (cells_of bank.old) m) }
    {
        if bank.len() < self.book.grid().cells() as usize {
            return Err(Refusal::BankShort);
        }
        let book = self.book.accepted(F::LIMIT, m)?;
        add_count(bank, F::LIMIT, m)?;
        self.book = book;
        Ok(())
    }

    /// The grid, and the weight and the number of the accepted moves.
    pub fn book(&self) -> &Book
        ensures { result.now ≡ self.now }
    {
        &self.book
    }

    /// From here on the host answers questions and takes no more moves.
    pub fn seal(self) -> Sealed<F>
        ensures { result ≡ self }
    {
        let Listening { book, field } = self;
        Sealed { book, field }
    }
}

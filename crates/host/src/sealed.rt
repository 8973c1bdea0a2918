// Hosts that answer questions.
ghost use Rattle.std.specs.Prelude.{◌≡◌};
ghost use Rattle.board.specs.Banks.{cells_of};
ghost use Rattle.host.specs.Answering.{answered_at};

use crate::answering::answer_counts;
use board::{Bank, Book};
use field::Field;
use question::Question;
use refusal::Refusal;
use std::marker::{Model, PhantomData};

/// A host that answers questions and takes no more moves.
#[derive(Drop)]
pub struct Sealed<F> {
    pub(crate) book: Book,
    pub(crate) field: PhantomData<F>,
}

/// To its callers a host is where it stands.
impl<F> Model for Sealed<F> {
    ghost use Rattle.board.specs.Standing.{Standing};

    ghost Value = { Standing };

    ghost view = { λ host. host.book };
}

impl<F: Field> Sealed<F> {
    /// The grid, and the weight and the number of the accepted moves.
    pub fn book(&self) -> &Book
        ensures { result.now ≡ self.now }
    {
        &self.book
    }

    /// Answers a question: the true count and the length of the sheet that states it, with the values of the question's polynomial at 0
    /// to its degree and behind them the columns at the degree in the tray, and the sheet on the paper. It refuses a bank with too few
    /// cells with 12, counts whose absolute values together are beyond the field's limit with 13, a question that does not suit the grid
    /// with 20, a tray of fewer than degree + 1 + columns elements with 21, and a paper of fewer than 9,216 bytes with 22; a refusal
    /// changes nothing.
    pub fn answer<Q: Question<F>>(
        &self,
        bank: &Bank<'_, i32>,
        question: &Q,
        tray: &mut [F],
        paper: &mut [u8],
    ) -> Result<(i64, usize), Refusal>
        ensures { record { answer = result; tray = tray.new; paper = paper.new }
            ≡ answered_at F.Field.model self.now (cells_of bank.now)
            (Q.Question.meaning question.now) tray.old paper.old }
    {
        answer_counts(self.book.grid(), bank, question, tray, paper)
    }
}

// Boxes that judge sheets.
ghost use Rattle.std.specs.Prelude.{◌≡◌};
ghost use Rattle.board.specs.Banks.{cells_of};
ghost use Rattle.verifier.specs.Judging.{judged_at};

use crate::judging::judge_cells;
use board::{Bank, Book};
use field::Field;
use question::Question;
use refusal::Refusal;
use std::marker::Model;

/// A box that judges sheets and takes no more moves.
#[derive(Drop)]
pub struct Sealed<F> {
    pub(crate) book: Book,
    pub(crate) point: F,
}

/// To its callers a box is where it stands, and its point.
impl<F> Model for Sealed<F> {
    ghost use Rattle.verifier.specs.Pointed.{Pointed};

    ghost Value = { Pointed F };

    ghost view = { λ sealed. record { standing = sealed.book; point = sealed.point } };
}

impl<F: Field> Sealed<F> {
    /// The grid, and the weight and the number of the accepted moves.
    pub fn book(&self) -> &Book
        ensures { result.now ≡ self.now.standing }
    {
        &self.book
    }

    /// Judges a sheet under a question: the accepted claim, with the sheet's values in the first degree + 1 elements of the tray. It
    /// refuses a bank with too few cells with 12, a question that does not suit the grid with 20, and a tray of fewer than degree + 1
    /// elements with 21, and leaves the tray as it was; then the sheet's first fault with 30 to 45, its line and its place, first values
    /// that do not add up to the claim with 50, and values that fail at the secret point with 51, and leaves zeros in place of the values.
    /// Neither the box nor its bank changes.
    pub fn judge<Q: Question<F>>(
        &self,
        bank: &Bank<'_, F>,
        question: &Q,
        sheet: &[u8],
        tray: &mut [F],
    ) -> Result<i64, Refusal>
        ensures { record { answer = result; tray = tray.new }
            ≡ judged_at F.Field.model self.now (cells_of bank.now)
            (Q.Question.meaning question.now) sheet.now tray.old }
    {
        judge_cells(self.book.grid(), self.point, bank, question, sheet, tray)
    }
}

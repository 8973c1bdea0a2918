// The interface of questions.
ghost use Rattle.std.specs.Prelude.{◌≡◌, length};
ghost use Rattle.question.specs.declared.fit.Fit.{Fit};
ghost use Rattle.question.specs.Question.{QuestionModel, Within};

use crate::fit::Fit;
use board::{Grid, Tag};
use field::Field;

/// A question about a board's counts. Its meaning is one record, and each method answers its part of it: asked twice, a question
/// says the same, and nothing changes. Whether the meaning is lawful is said of a question, not of its type.
pub trait Question<F: Field> {
    ghost meaning: { Self → QuestionModel F };

    /// Whether it can be asked of the grid.
    fn fit(&self, grid: Grid) -> Fit
        ensures { result ≡ (meaning self.now).fits grid.rows grid.columns };

    /// Its degree on the grid's rows.
    fn degree(&self, grid: Grid) -> u32
        ensures { result ≡ (meaning self.now).degree grid.rows };

    /// The least claim.
    fn least(&self) -> i64
        ensures { result ≡ (meaning self.now).least };

    /// The greatest claim.
    fn greatest(&self) -> i64
        ensures { result ≡ (meaning self.now).greatest };

    /// The three numbers that name it on a sheet.
    fn tag(&self) -> Tag
        ensures { result ≡ (meaning self.now).tag };

    /// The true count, from a grid that it fits and the counts there: one for each cell, whose absolute values come to the field's limit
    /// at most.
    fn tally(&self, grid: Grid, counts: &[i32]) -> i64
        requires fitting { (meaning self.now).fits grid.rows grid.columns ≡ Fit.Fits }
        requires within { Within F.Field.model grid.rows grid.columns counts.now }
        ensures { result ≡ (meaning self.now).tally grid.rows grid.columns counts.now };

    /// An element, from a grid that it fits, a point and the columns there.
    fn rule(&self, grid: Grid, point: F, columns: &[F]) -> F
        requires fitting { (meaning self.now).fits grid.rows grid.columns ≡ Fit.Fits }
        requires wide { length columns.now ≡ grid.columns }
        ensures { result ≡ (meaning self.now).rule grid.rows grid.columns point columns.now };
}

// A question that states any degree, suiting the grid or not.
ghost use Rattle.inquiry.specs.Stated.{stated_question};

use board::{Grid, Tag};
use field::Field;
use question::{Fit, Question};

/// A question that fits every grid, states this degree and counts nothing; its tag is 5, the degree, 0.
#[derive(Clone, Copy, PartialEq, Eq, Debug)]
pub struct Stated {
    /// The degree.
    pub degree: u32,
}

impl<F: Field> Question<F> for Stated {
    ghost meaning = { λ q. stated_question F.Field.model q.degree };

    fn fit(&self, _grid: Grid) -> Fit {
        Fit::Fits
    }

    fn degree(&self, _grid: Grid) -> u32 {
        self.degree
    }

    fn least(&self) -> i64 {
        -i64::from(F::LIMIT)
    }

    fn greatest(&self) -> i64 {
        i64::from(F::LIMIT)
    }

    fn tag(&self) -> Tag {
        Tag {
            kind: 5,
            first: self.degree,
            second: 0,
        }
    }

    fn tally(&self, _grid: Grid, _counts: &[i32]) -> i64 {
        0
    }

    fn rule(&self, _grid: Grid, _point: F, _columns: &[F]) -> F {
        F::zero()
    }
}

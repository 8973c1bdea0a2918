// The squares of all counts, added.
ghost use Rattle.std.specs.Prelude.{◌≡◌, ◌*ℤ◌};
ghost use Rattle.season.specs.Squares.{SquaresLawful, squares_question};

use crate::limits::count_limit;
use board::{Grid, Tag};
use field::Field;
use question::{Fit, Question};

/// The squares of all counts, added. It fits every grid.
#[derive(Clone, Copy, Debug, PartialEq, Eq)]
pub struct Squares;

// The square of a count.
fn square(count: i32) -> i64
    ensures { result ≡ count *ℤ count }
{
    let wide = i64::from(count);
    wide * wide
}

/// Its tag is 4, 0, 0; a claim is from 0 to W × W.
impl<F: Field> Question<F> for Squares {
    ghost meaning = { λ q. squares_question F.Field.model };

    fn fit(&self, _grid: Grid) -> Fit {
        Fit::Fits
    }

    fn degree(&self, grid: Grid) -> u32 {
        2 * (grid.rows - 1)
    }

    fn least(&self) -> i64 {
        0
    }

    fn greatest(&self) -> i64 {
        let limit = count_limit::<F>();
        limit * limit
    }

    fn tag(&self) -> Tag {
        Tag {
            kind: 4,
            first: 0,
            second: 0,
        }
    }

    fn tally(&self, _grid: Grid, counts: &[i32]) -> i64 {
        counts.iter().map(|count| square(*count)).sum()
    }

    fn rule(&self, _grid: Grid, _point: F, columns: &[F]) -> F {
        columns
            .iter()
            .fold(F::zero(), |all, column| all + *column * *column)
    }
}

/// The squares of all counts are lawful over every lawful field.
pub fn squares_are_lawful<F: Field>()
    ensures { SquaresLawful F.Field.model }
{}

// The count of one of the eight goods: cell i is of the goods i mod 8, and so is column i.
ghost use Rattle.season.specs.Goods.{GoodsLawful, goods_question};

use crate::limits::count_limit;
use board::{Grid, Tag};
use field::Field;
use question::{Fit, Question};

/// The counts at all cells of one of the eight goods, added. Cell i is of the goods i mod 8.
#[derive(Clone, Copy, Debug, PartialEq, Eq)]
pub struct Goods {
    /// The goods. They fit a grid where they are below 8.
    pub kind: u32,
}

/// Its tag is 2, the goods, 0; a claim is from −W to W.
impl<F: Field> Question<F> for Goods {
    ghost meaning = { λ q. goods_question F.Field.model q.kind };

    fn fit(&self, _grid: Grid) -> Fit {
        Fit::from(self.kind < 8)
    }

    fn degree(&self, grid: Grid) -> u32 {
        grid.rows - 1
    }

    fn least(&self) -> i64 {
        -count_limit::<F>()
    }

    fn greatest(&self) -> i64 {
        count_limit::<F>()
    }

    fn tag(&self) -> Tag {
        Tag {
            kind: 2,
            first: self.kind,
            second: 0,
        }
    }

    fn tally(&self, _grid: Grid, counts: &[i32]) -> i64 {
        counts
            .iter()
            .enumerate()
            .filter(|(i, _)| i % 8 == self.kind as usize)
            .map(|(_, count)| i64::from(*count))
            .sum()
    }

    fn rule(&self, _grid: Grid, _point: F, columns: &[F]) -> F {
        columns
            .iter()
            .enumerate()
            .filter(|(y, _)| y % 8 == self.kind as usize)
            .fold(F::zero(), |all, (_, column)| all + *column)
    }
}

/// The count of any goods is lawful over every lawful field.
pub fn goods_are_lawful<F: Field>()
    ensures { GoodsLawful F.Field.model }
{}

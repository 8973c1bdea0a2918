// The count at one cell.
ghost use Rattle.season.specs.Cell.{CellLawful, cell_question};

use crate::limits::count_limit;
use board::{Grid, Tag};
use field::Field;
use polynomial::basis_at;
use question::{Fit, Question};

/// The count at one cell.
#[derive(Clone, Copy, Debug, PartialEq, Eq)]
pub struct Cell {
    /// The cell. It fits a grid where it is below rows × columns.
    pub index: u32,
}

/// Its tag is 1, the cell, 0; a claim is from −W to W.
impl<F: Field> Question<F> for Cell {
    ghost meaning = { λ q. cell_question F.Field.model q.index };

    fn fit(&self, grid: Grid) -> Fit {
        Fit::from(self.index < grid.cells())
    }

    fn degree(&self, grid: Grid) -> u32 {
        2 * (grid.rows - 1)
    }

    fn least(&self) -> i64 {
        -count_limit::<F>()
    }

    fn greatest(&self) -> i64 {
        count_limit::<F>()
    }

    fn tag(&self) -> Tag {
        Tag {
            kind: 1,
            first: self.index,
            second: 0,
        }
    }

    fn tally(&self, _grid: Grid, counts: &[i32]) -> i64 {
        i64::from(counts[self.index as usize])
    }

    fn rule(&self, grid: Grid, point: F, columns: &[F]) -> F {
        let cell = u64::from(self.index);
        let x = grid.row_of(cell) as u32;
        let y = grid.column_of(cell) as usize;
        basis_at(grid.rows, x, point) * columns[y]
    }
}

/// The count at any cell is lawful over every lawful field.
pub fn cell_is_lawful<F: Field>()
    ensures { CellLawful F.Field.model }
{}

// The counts from one cell to another, added.
ghost use Rattle.std.specs.Prelude.{◌≡◌, ◌-◌, ◌*◌, ◌<◌, ◌≤◌, length};
ghost use Rattle.polynomial.specs.Interpolation.{chi};
ghost use Rattle.polynomial.specs.Sums.{sum_from};
ghost use Rattle.season.specs.Cells.{cells_rule};
ghost use Rattle.season.specs.Range.{RangeLawful, cells_between, range_question};

use crate::limits::count_limit;
use board::{Grid, Tag};
use field::Field;
use polynomial::{basis_at, total};
use question::{Fit, Question};

/// The counts from one cell to another, both among them, added. It fits a grid where the first cell is not above the last and the
/// last is below rows × columns.
#[derive(Clone, Copy, Debug, PartialEq, Eq)]
pub struct Range {
    /// The first cell.
    pub first: u32,
    /// The last cell.
    pub last: u32,
}

// χ_x at the point for the rows x from one row to another, the end left out, added.
fn basis_total<F: Field>(rows: u32, start: u32, end: u32, point: F) -> F
    requires few { rows ≤ 64 }
    requires ordered { start ≤ end }
    requires inside { end ≤ rows }
    ensures { result ≡ sum_from F.Field.model start (end - start)
        (λ x. chi F.Field.model rows x point) }
{
    (start..end).fold(F::zero(), |all, x| all + basis_at(rows, x, point))
}

// The rule on the cells from first to last: the first and the last row in part, and the rows between them at once.
#[tactic(auto, using(crate::proofs::Ranges::in_one_row))]
fn rows_rule<F: Field>(grid: Grid, first: u64, last: u64, point: F, columns: &[F]) -> F
    requires ordered { first ≤ last }
    requires inside { last < grid.rows * grid.columns }
    requires wide { length columns.now ≡ grid.columns }
    ensures { result ≡ cells_rule F.Field.model grid.rows grid.columns
        (cells_between first last) point columns.now }
{
    let rows = grid.rows;
    let x = grid.row_of(first) as u32;
    let y = grid.column_of(first) as usize;
    let last_x = grid.row_of(last) as u32;
    let end = grid.column_of(last) as usize + 1;
    let top = basis_at(rows, x, point);
    if x == last_x {
        return top * total(&columns[y..end]);
    }
    let head = top * total(&columns[y..]);
    let body = basis_total(rows, x + 1, last_x, point) * total(columns);
    let tail = basis_at(rows, last_x, point) * total(&columns[..end]);
    head + body + tail
}

/// Its tag is 3, the first cell, the last cell; a claim is from −W to W.
impl<F: Field> Question<F> for Range {
    ghost meaning = { λ q. range_question F.Field.model q.first q.last };

    fn fit(&self, grid: Grid) -> Fit {
        Fit::from(self.first <= self.last && self.last < grid.cells())
    }

    fn degree(&self, grid: Grid) -> u32 {
        2 * (grid.rows - 1)
    }

    fn least(&self) -> i64 {
        -count_limit::<F>()
    }

    fn greatest(&self) -> i64 {
        count_limit::<F>()
    }

    fn tag(&self) -> Tag {
        Tag {
            kind: 3,
            first: self.first,
            second: self.last,
        }
    }

    fn tally(&self, _grid: Grid, counts: &[i32]) -> i64 {
        let start = self.first as usize;
        let end = self.last as usize + 1;
        counts[start..end]
            .iter()
            .map(|count| i64::from(*count))
            .sum()
    }

    fn rule(&self, grid: Grid, point: F, columns: &[F]) -> F {
        rows_rule(
            grid,
            u64::from(self.first),
            u64::from(self.last),
            point,
            columns,
        )
    }
}

/// The counts of any range are lawful over every lawful field.
pub fn range_is_lawful<F: Field>()
    ensures { RangeLawful F.Field.model }
{}

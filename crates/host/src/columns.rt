// The columns of the counts at a node: at a row the images of its counts, and at the other nodes sums in which each row has a weight.
ghost use Rattle.std.specs.Prelude.{◌≡◌, ◌<◌, ◌≤◌, length};
ghost use Rattle.field.specs.declared.limits.TheConstants.{INVERSES};
ghost use Rattle.polynomial.specs.Columns.{columns_at, row_images};
ghost use Rattle.polynomial.specs.Interpolation.{node};
ghost use Rattle.host.specs.Rows.{added_row, Ranged};

use crate::counts::Counts;
use board::fill_cells;
use field::Field;
use polynomial::{basis_at, node_at};

// Adds the counts of one row, each times the row's weight, to the sums of their columns.
fn add_row<F: Field>(sums: &mut [F], counts: &[i32], weight: F)
    requires long { length sums.old ≤ length counts.now }
    requires ranged { Ranged counts.now }
    ensures { sums.new ≡ added_row F.Field.model weight sums.old counts.now }
{
    // The counts are read by place: of writes through `iter_mut().zip(counts)` a proof knows no element.
    for (y, sum) in sums.iter_mut().enumerate() {
        *sum = F::image(counts[y]) * weight + *sum;
    }
}

// Fills `sums` with the columns of the counts at a point. The weight of a row is computed once.
fn fill_columns<F: Field>(sums: &mut [F], counts: &Counts<'_>, point: F)
    requires { length sums.old ≡ counts.now.grid.columns }
    ensures { sums.new
        ≡ columns_at F.Field.model counts.now.grid.rows counts.now.grid.columns
        counts.now.cells.now point }
{
    let width = sums.len();
    fill_cells(sums, width, F::zero());
    let rows = counts.grid.rows;
    for x in (0..rows).rev() {
        add_row(sums, counts.row(x), basis_at(rows, x, point));
    }
}

// Fills `sums` with the images of the counts of row x.
fn fill_row<F: Field>(sums: &mut [F], counts: &Counts<'_>, x: u32)
    requires inside { x < counts.now.grid.rows }
    requires wide { length sums.old ≡ counts.now.grid.columns }
    ensures { sums.new
        ≡ row_images F.Field.model counts.now.grid.columns counts.now.cells.now x }
{
    let row = counts.row(x);
    // By place, as in `add_row`.
    for (y, sum) in sums.iter_mut().enumerate() {
        *sum = F::image(row[y]);
    }
}

// Fills `sums` with the columns of the counts at the node x. At a row no weight is computed.
#[tactic(auto, using(crate::proofs::Steps::columns_at_row))]
pub(crate) fn fill_columns_at<F: Field>(sums: &mut [F], counts: &Counts<'_>, x: u32)
    requires few { x ≤ INVERSES }
    requires wide { length sums.old ≡ counts.now.grid.columns }
    ensures { sums.new
        ≡ columns_at F.Field.model counts.now.grid.rows counts.now.grid.columns
        counts.now.cells.now (node F.Field.model x) }
{
    if x < counts.grid.rows {
        fill_row(sums, counts, x);
    } else {
        fill_columns(sums, counts, node_at(x));
    }
}

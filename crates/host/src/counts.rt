// The counts of a board, and what they come to.
ghost use Rattle.std.specs.Prelude.{◌≡◌, ◌*◌, ◌<◌, ◌≤◌, length, take, drop};
ghost use Rattle.board.specs.Ledger.{abs_sum};
ghost use Rattle.host.specs.Rows.{Ranged};

use board::Grid;

// A count for each cell of a grid, each of them one that has an image.
#[derive(Drop)]
pub(crate) struct Counts<'a> {
    pub(crate) grid: Grid,
    pub(crate) cells: &'a [i32],
    ghost whole: { length cells.now ≡ grid.rows * grid.columns },
    ghost ranged: { Ranged cells.now },
}

impl Counts<'_> {
    // The counts of row x.
    pub(crate) fn row(&self, x: u32) -> &[i32]
        requires { x < self.now.grid.rows }
        ensures row { result.now
            ≡ take self.now.grid.columns (drop (x * self.now.grid.columns) self.now.cells.now) }
        ensures length { length result.now ≡ self.now.grid.columns }
        ensures ranged { Ranged result.now }
    {
        let width = self.grid.columns as usize;
        let start = x as usize * width;
        &self.cells[start..start + width]
    }
}

// The absolute counts, added.
pub(crate) fn absolute_sum(counts: &[i32]) -> u64
    requires { length counts.now ≤ 65536 }
    ensures { result ≡ abs_sum counts.now }
{
    counts
        .iter()
        .map(|count| u64::from(count.unsigned_abs()))
        .sum()
}

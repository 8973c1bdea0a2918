// The counts of a board as a table.
use board::Grid;
use std::fmt;

/// The counts of a board, a line for each row, below the numbers of the columns.
#[derive(Clone, Copy)]
pub struct CountTable<'a> {
    /// The board.
    pub grid: Grid,
    /// The counts, row by row.
    pub counts: &'a [i32],
}

impl<'a> fmt::Display for CountTable<'a> {
    fn fmt<W: fmt::Write>(&self, f: &mut fmt::Formatter<W>) -> fmt::Result {
        write!(f, "    column")?;
        for column in 0..self.grid.columns {
            write!(f, "{column:>7}")?;
        }
        let rows = self.counts.chunks(self.grid.columns as usize);
        for (place, row) in rows.enumerate() {
            write!(f, "\n    row {place:<2}")?;
            for count in row {
                write!(f, "{count:>7}")?;
            }
        }
        Ok(())
    }
}

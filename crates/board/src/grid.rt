// Grids: which are allowed, and where a cell lies.
ghost use Rattle.std.specs.Prelude.{◌≡◌, ◌%◌, ◌*◌, ◌≤◌};

use refusal::Refusal;

/// A board of cells in rows and columns. Cell i lies in row i div columns and column i mod columns.
#[derive(Clone, Copy, Debug, PartialEq, Eq)]
pub struct Grid {
    /// How many rows there are, 1 to 64.
    pub rows: u32,
    /// How many columns there are, a multiple of 8 from 8 to 1,024.
    pub columns: u32,
    ghost rows_least: { 1 ≤ rows },
    ghost rows_most: { rows ≤ 64 },
    ghost columns_least: { 8 ≤ columns },
    ghost columns_most: { columns ≤ 1024 },
    ghost columns_eighths: { columns % 8 ≡ 0 },
}

impl Grid {
    ghost use Rattle.board.specs.Grids.{row_of, column_of, Laid};

    /// A grid of 1 to 64 rows and 8 to 1,024 columns, a multiple of 8. Other numbers are refused with 10.
    pub fn new(rows: u64, columns: u64) -> Result<Grid, Refusal>
        ensures { Laid rows columns result }
    {
        let rows_fit = (1..=64).contains(&rows);
        let columns_fit = (8..=1024).contains(&columns) && columns % 8 == 0;
        if !rows_fit || !columns_fit {
            return Err(Refusal::GridOutside);
        }
        Ok(Grid {
            rows: rows as u32,
            columns: columns as u32,
        })
    }

    /// How many cells there are, 8 to 65,536.
    pub fn cells(self) -> u32
        ensures { result ≡ self.rows * self.columns }
    {
        self.rows * self.columns
    }

    /// The row of a cell, by its number; a cell that is not on the board gets a row that is not either.
    pub fn row_of(self, cell: u64) -> u64
        ensures { result ≡ row_of self.columns cell }
    {
        cell / u64::from(self.columns)
    }

    /// The column of a cell, by its number.
    pub fn column_of(self, cell: u64) -> u64
        ensures { result ≡ column_of self.columns cell }
    {
        cell % u64::from(self.columns)
    }
}

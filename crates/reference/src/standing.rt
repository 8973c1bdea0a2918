// How a game stands.
use crate::moves::Move;
use crate::refusal::Refusal;

/// The grid, the limit of weights, and the weight and the number of the accepted moves.
#[derive(Clone, Copy, PartialEq, Eq, Debug)]
pub struct Standing {
    /// The rows.
    pub rows: u64,
    /// The columns.
    pub columns: u64,
    /// No weight is above it.
    pub limit: u64,
    /// The absolute amounts of the accepted moves, added.
    pub weight: u64,
    /// How many moves were accepted.
    pub number: u64,
}

impl Standing {
    /// A new game on an allowed grid; another is refused with 10.
    pub fn open(rows: u64, columns: u64, limit: u64) -> Result<Standing, Refusal> {
        if !matches!(rows, 1..=64) || !matches!(columns, 8..=1024) || columns % 8 != 0 {
            return Err(Refusal::GridOutside);
        }
        Ok(Standing {
            rows,
            columns,
            limit,
            weight: 0,
            number: 0,
        })
    }

    /// How many cells the grid has.
    pub fn cells(self) -> u64 {
        self.rows.wrapping_mul(self.columns)
    }

    /// The row and the column of a cell.
    pub fn place(self, cell: u64) -> (usize, usize) {
        let row = cell.checked_div(self.columns).unwrap_or(0);
        let column = cell.checked_rem(self.columns).unwrap_or(0);
        (row as usize, column as usize)
    }

    /// The first of the refusals 1, 2 and 3 that a move meets.
    pub fn test(self, m: Move) -> Result<(), Refusal> {
        if m.cell >= self.cells() {
            return Err(Refusal::CellOutside);
        }
        if m.amount == 0 || !matches!(m.amount, -256..=256) {
            return Err(Refusal::AmountOutside);
        }
        if self.weight.saturating_add(m.amount.unsigned_abs()) > self.limit {
            return Err(Refusal::TooHeavy);
        }
        Ok(())
    }

    /// How it stands after an accepted move.
    pub fn after(self, m: Move) -> Standing {
        Standing {
            weight: self.weight.saturating_add(m.amount.unsigned_abs()),
            number: self.number.saturating_add(1),
            ..self
        }
    }
}

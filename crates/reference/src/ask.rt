// The questions.
use crate::limits::Limits;
use crate::numbers::{GOODS, GREATEST_DEGREE};
use crate::standing::Standing;
use crate::tag::Tag;

/// What can be asked of a board's counts.
#[derive(Clone, Copy, PartialEq, Eq, Debug)]
pub enum Ask {
    /// The count of this cell.
    Cell(u64),
    /// The counts of these goods.
    Goods(u64),
    /// The counts from one cell to another.
    Range(u64, u64),
    /// The squares of all counts.
    Squares,
    /// Nothing: it fits every grid, states this degree, and counts 0.
    Stated(u64),
}

impl Ask {
    /// Whether it fits the grid.
    pub fn fits(self, at: Standing) -> bool {
        match self {
            Ask::Cell(cell) => cell < at.cells(),
            Ask::Goods(goods) => goods < GOODS,
            Ask::Range(first, last) => first <= last && last < at.cells(),
            Ask::Squares | Ask::Stated(_) => true,
        }
    }

    /// The degree that it states on the grid.
    pub fn degree(self, at: Standing) -> u64 {
        let least = at.rows.saturating_sub(1);
        match self {
            Ask::Goods(_) => least,
            Ask::Stated(degree) => degree,
            _ => least.wrapping_mul(2),
        }
    }

    /// How many values a sheet for it has: one more than the degree.
    pub fn size(self, at: Standing) -> u64 {
        self.degree(at).saturating_add(1)
    }

    /// Whether it fits and states a degree from rows − 1 to 252.
    pub fn suits(self, at: Standing) -> bool {
        self.fits(at) && self.size(at) >= at.rows && self.degree(at) <= GREATEST_DEGREE
    }

    /// The least and the greatest claim, where weights are within a limit; a limit beyond every claim counts as 0.
    pub fn limits(self, limit: u64) -> Limits {
        let most = i64::try_from(limit).unwrap_or(0);
        match self {
            Ask::Squares => Limits {
                least: 0,
                greatest: most.wrapping_mul(most),
            },
            _ => Limits {
                least: most.wrapping_neg(),
                greatest: most,
            },
        }
    }

    /// The numbers that a sheet calls it by.
    pub fn tag(self) -> Tag {
        let (kind, first, second) = match self {
            Ask::Cell(cell) => (1, cell, 0),
            Ask::Goods(goods) => (2, goods, 0),
            Ask::Range(first, last) => (3, first, last),
            Ask::Squares => (4, 0, 0),
            Ask::Stated(degree) => (5, degree, 0),
        };
        Tag {
            kind,
            first,
            second,
        }
    }

    // What one cell adds to the true count.
    fn part(self, cell: u64, count: i64) -> i64 {
        let counts = match self {
            Ask::Cell(only) => cell == only,
            Ask::Goods(goods) => cell % GOODS == goods,
            Ask::Range(first, last) => (first..=last).contains(&cell),
            Ask::Squares => return count.wrapping_mul(count),
            Ask::Stated(_) => false,
        };
        if counts { count } else { 0 }
    }

    /// The true count, from the counts of the board's cells in order.
    pub fn tally(self, at: Standing, counts: &[i64]) -> i64 {
        (0..at.cells()).zip(counts).fold(
            0i64,
            |all, (cell, count)| all.wrapping_add(self.part(cell, *count)),
        )
    }
}

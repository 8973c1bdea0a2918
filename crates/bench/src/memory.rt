// The memory that calls are lent.
ghost use Rattle.std.specs.Prelude.{◌≡◌, ◌+◌, ◌*◌};

use board::Grid;
use field::Field;
use std::alloc::{AllocError, Global};
use writer::ENOUGH_PAPER;

/// How many values a sheet for the squares has.
pub fn values_of(grid: Grid) -> usize
    ensures { result + 1 ≡ 2 * grid.rows }
{
    2 * grid.rows as usize - 1
}

/// A tray of so many zeros.
pub fn tray<F: Field>(heap: Global, length: usize) -> Result<Vec<F>, AllocError> {
    vec![in heap; F::zero(); length]
}

/// A tray for an answer to the squares: it has room for the values, and for the columns behind them.
pub fn answer_tray<F: Field>(heap: Global, grid: Grid) -> Result<Vec<F>, AllocError> {
    tray(heap, values_of(grid) + grid.columns as usize)
}

/// A paper for any sheet.
pub fn paper(heap: Global) -> Result<Vec<u8>, AllocError> {
    vec![in heap; 0u8; ENOUGH_PAPER]
}

/// The sheet of so many bytes at the front of a paper; no byte where the paper is shorter.
pub fn written(paper: &[u8], length: usize) -> &[u8] {
    paper.get(..length).unwrap_or(&[])
}

// Ends that moves are told to.
use crate::moves::{Moves, heaviest};
use crate::tally::Tally;
use board::{Bank, Grid, Move};
use field::Field;
use refusal::Refusal;

// How many moves an end is told before it is sealed.
const FEW: u32 = 16;

// The parts of the secret point.
const LOW: u32 = 54_321;

const HIGH: u32 = 12_345;

/// An end that moves are told to: what differs between hosts and boxes.
pub trait Subject: Drop {
    /// The field that it is over.
    type Over: Field;

    /// What stands in a cell of its bank.
    type Cell: Copy;

    /// What stands in a cell where nothing happened.
    fn blank() -> Self::Cell;

    /// How many cells its bank needs on a board.
    fn cells(grid: Grid) -> u32;

    /// Opens one on a board.
    fn open(grid: Grid, bank: &mut Bank<'_, Self::Cell>) -> Result<Self, Refusal>
    where
        Self: Sized;

    /// Tells it a move.
    fn note(&mut self, bank: &mut Bank<'_, Self::Cell>, m: Move) -> Result<(), Refusal>;

    /// Tallies what stands in the cell of the bank that a move writes.
    fn tally(grid: Grid, bank: &Bank<'_, Self::Cell>, m: Move, tally: &mut Tally);
}

impl<F: Field> Subject for host::Listening<F> {
    type Over = F;

    type Cell = i32;

    fn blank() -> i32 {
        0
    }

    fn cells(grid: Grid) -> u32 {
        grid.cells()
    }

    fn open(grid: Grid, bank: &mut Bank<'_, i32>) -> Result<Self, Refusal> {
        host::Listening::open(u64::from(grid.rows), u64::from(grid.columns), bank)
    }

    fn note(&mut self, bank: &mut Bank<'_, i32>, m: Move) -> Result<(), Refusal> {
        self.note(bank, m)
    }

    fn tally(_grid: Grid, bank: &Bank<'_, i32>, m: Move, tally: &mut Tally) {
        let count = bank.get(m.cell as usize).unwrap_or(0);
        tally.number(i64::from(count).cast_unsigned());
    }
}

// A secret point far from the rows; in an extension outside the base field.
fn secret_point<F: Field>() -> F {
    let high = if F::DEGREE == 1 { 0 } else { HIGH };
    F::element(LOW, high).unwrap_or(F::zero())
}

impl<F: Field> Subject for verifier::Listening<F> {
    type Over = F;

    type Cell = F;

    fn blank() -> F {
        F::zero()
    }

    fn cells(grid: Grid) -> u32 {
        grid.columns
    }

    fn open(grid: Grid, bank: &mut Bank<'_, F>) -> Result<Self, Refusal> {
        let rows = u64::from(grid.rows);
        let columns = u64::from(grid.columns);
        verifier::Listening::open(rows, columns, secret_point(), bank)
    }

    fn note(&mut self, bank: &mut Bank<'_, F>, m: Move) -> Result<(), Refusal> {
        self.note(bank, m)
    }

    fn tally(grid: Grid, bank: &Bank<'_, F>, m: Move, tally: &mut Tally) {
        let sum = bank.get(grid.column_of(m.cell) as usize);
        tally.element(sum.unwrap_or(F::zero()));
    }
}

/// An end that was told a few moves, the same at hosts and boxes.
pub fn told<S: Subject>(grid: Grid, bank: &mut Bank<'_, S::Cell>) -> Result<S, Refusal> {
    let mut subject = S::open(grid, bank)?;
    let amount = heaviest(S::Over::LIMIT, FEW);
    for m in Moves::new(grid, amount).take(FEW as usize) {
        subject.note(bank, m)?;
    }
    Ok(subject)
}

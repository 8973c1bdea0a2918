// The sheet of an honest host.
use crate::memory::{answer_tray, paper, values_of};
use crate::subject::told;
use board::{Bank, Grid};
use field::Field;
use host::Listening;
use season::Squares;
use std::alloc::Global;

/// What an honest host states of the squares.
#[derive(Drop)]
pub struct Statement<F> {
    /// The claim.
    pub claim: i64,
    /// The values.
    pub values: Vec<F>,
    /// The sheet.
    pub sheet: Vec<u8>,
}

impl<F: Field> Statement<F> {
    /// What a host that was told a few moves on a board answers.
    pub fn new(heap: Global, grid: Grid) -> anyhow::Result<Statement<F>> {
        let mut counts = vec![in heap; 0i32; grid.cells() as usize]?;
        let mut bank = Bank::new(counts.as_mut_slice());
        let host = told::<Listening<F>>(grid, &mut bank)?.seal();
        let mut values = answer_tray(heap, grid)?;
        let mut sheet = paper(heap)?;
        let (claim, length) = host.answer(
            &bank,
            &Squares,
            values.as_mut_slice(),
            sheet.as_mut_slice(),
        )?;
        values.truncate(values_of(grid));
        sheet.truncate(length);
        Ok(Statement {
            claim,
            values,
            sheet,
        })
    }
}

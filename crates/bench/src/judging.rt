// A box's judgements of the sheet of an honest host.
use crate::memory::tray;
use crate::statement::Statement;
use crate::subject::told;
use crate::tally::Tally;
use board::{Bank, Grid};
use field::Field;
use season::Squares;
use std::alloc::Global;
use verifier::Listening;

/// Has a sealed box judge the sheet so many times.
pub fn judge<F: Field>(heap: Global, grid: Grid, times: u32) -> anyhow::Result<Tally> {
    let mut tally = Tally::new();
    let stated = Statement::<F>::new(heap, grid)?;
    let mut sums = vec![in heap; F::zero(); grid.columns as usize]?;
    let mut bank = Bank::new(sums.as_mut_slice());
    let verifier = told::<Listening<F>>(grid, &mut bank)?.seal();
    let mut tray = tray::<F>(heap, stated.values.len())?;
    for turn in 0..times {
        let found = verifier.judge(
            &bank,
            &Squares,
            stated.sheet.as_slice(),
            tray.as_mut_slice(),
        );
        tally.claim(found, tray.as_slice(), turn);
    }
    tally.values(tray.as_slice());
    Ok(tally)
}

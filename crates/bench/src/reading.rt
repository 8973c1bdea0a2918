// Readings of the sheet of an honest host.
use crate::memory::tray;
use crate::statement::Statement;
use crate::tally::Tally;
use board::Grid;
use field::Field;
use protocol::terms_of;
use season::Squares;
use sheet::read_sheet;
use std::alloc::Global;

/// Reads the sheet so many times.
pub fn read<F: Field>(heap: Global, grid: Grid, times: u32) -> anyhow::Result<Tally> {
    let mut tally = Tally::new();
    let stated = Statement::<F>::new(heap, grid)?;
    let terms = terms_of::<F, Squares>(&Squares, grid);
    let mut tray = tray::<F>(heap, stated.values.len())?;
    for turn in 0..times {
        let found = read_sheet(stated.sheet.as_slice(), &terms, tray.as_mut_slice());
        tally.claim(found, tray.as_slice(), turn);
    }
    tally.values(tray.as_slice());
    Ok(tally)
}

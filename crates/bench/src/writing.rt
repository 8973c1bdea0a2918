// Writings of the sheet of an honest host.
use crate::memory::{paper, written};
use crate::statement::Statement;
use crate::tally::Tally;
use board::Grid;
use field::Field;
use protocol::terms_of;
use season::Squares;
use std::alloc::Global;
use writer::write_sheet;

/// Writes the sheet so many times.
pub fn write<F: Field>(heap: Global, grid: Grid, times: u32) -> anyhow::Result<Tally> {
    let mut tally = Tally::new();
    let stated = Statement::<F>::new(heap, grid)?;
    let terms = terms_of::<F, Squares>(&Squares, grid);
    let mut paper = paper(heap)?;
    let mut last = 0;
    for turn in 0..times {
        let length = write_sheet(
            paper.as_mut_slice(),
            &terms,
            stated.claim,
            stated.values.as_slice(),
        );
        match length {
            Ok(length) => {
                tally.sheet(written(paper.as_slice(), length), turn);
                last = length;
            }
            Err(why) => tally.refusal(why),
        }
    }
    tally.bytes(written(paper.as_slice(), last));
    Ok(tally)
}

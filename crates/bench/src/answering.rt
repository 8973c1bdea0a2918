// A host's answers to the squares.
use crate::memory::{answer_tray, paper, written};
use crate::subject::told;
use crate::tally::Tally;
use board::{Bank, Grid};
use field::Field;
use host::Listening;
use season::Squares;
use std::alloc::Global;

/// Has a sealed host answer so many times.
pub fn answer<F: Field>(heap: Global, grid: Grid, times: u32) -> anyhow::Result<Tally> {
    let mut tally = Tally::new();
    let mut counts = vec![in heap; 0i32; grid.cells() as usize]?;
    let mut bank = Bank::new(counts.as_mut_slice());
    let host = told::<Listening<F>>(grid, &mut bank)?.seal();
    let mut tray = answer_tray::<F>(heap, grid)?;
    let mut paper = paper(heap)?;
    let mut last = 0;
    for turn in 0..times {
        match host.answer(&bank, &Squares, tray.as_mut_slice(), paper.as_mut_slice()) {
            Ok((claim, length)) => {
                tally.number(claim.cast_unsigned());
                tally.value(tray.as_slice(), turn);
                tally.sheet(written(paper.as_slice(), length), turn);
                last = length;
            }
            Err(why) => tally.refusal(why),
        }
    }
    tally.values(tray.as_slice());
    tally.bytes(written(paper.as_slice(), last));
    Ok(tally)
}

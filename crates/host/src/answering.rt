// What a host answers to a question, from the grid and the bank's cells alone.
ghost use Rattle.std.specs.Prelude.{◌≡◌};
ghost use Rattle.board.specs.Banks.{cells_of};
ghost use Rattle.host.specs.Answering.{answered};

use crate::counts::{Counts, absolute_sum};
use crate::values::fill_values;
use board::{Bank, Grid};
use field::Field;
use protocol::Suited;
use question::Question;
use refusal::Refusal;
use writer::{ENOUGH_PAPER, write_sheet};

// The claim and the sheet's length, with the values and the columns in the tray and the sheet on the paper; or a refusal, and nothing changes.
pub(crate) fn answer_counts<F: Field, Q: Question<F>>(
    grid: Grid,
    bank: &Bank<'_, i32>,
    question: &Q,
    tray: &mut [F],
    paper: &mut [u8],
) -> Result<(i64, usize), Refusal>
    ensures { record { answer = result; tray = tray.new; paper = paper.new }
        ≡ answered F.Field.model grid.rows grid.columns (cells_of bank.now)
        (Q.Question.meaning question.now) tray.old paper.old }
{
    let cells = bank.front(grid.cells() as usize)?;
    if absolute_sum(cells) > u64::from(F::LIMIT) {
        return Err(Refusal::CountOutside);
    }
    let counts = Counts { grid, cells };
    let asked = Suited::new(question, grid)?;
    let degree = asked.degree as usize;
    if tray.len() < degree + 1 + grid.columns as usize {
        return Err(Refusal::TrayShort);
    }
    if paper.len() < ENOUGH_PAPER {
        return Err(Refusal::PaperShort);
    }
    let claim = question.tally(grid, cells);
    fill_values(&asked, &counts, tray);
    let length = write_sheet(paper, &asked.terms(), claim, &tray[..degree + 1])?;
    Ok((claim, length))
}

// What a box finds of a sheet, from the grid, the point and the bank's cells alone.
ghost use Rattle.std.specs.Prelude.{◌≡◌, suc, ◌<◌, length, take, if◌then◌else◌};
ghost use Rattle.std.specs.Result.{is_err};
ghost use Rattle.board.specs.Banks.{filled, cells_of};
ghost use Rattle.verifier.specs.Judging.{weighed, judged};

use crate::weighing::weigh;
use board::{Bank, Grid, fill_cells};
use field::Field;
use protocol::Suited;
use question::Question;
use refusal::Refusal;
use sheet::read_sheet;

// Weighs a claim and the values that were read into the tray; a refusal leaves zeros in their place.
fn settle<F: Field, Q: Question<F>>(
    asked: &Suited<'_, F, Q>,
    point: F,
    columns: &[F],
    claim: i64,
    tray: &mut [F],
) -> Result<i64, Refusal>
    requires wide { length columns.now ≡ asked.now.grid.columns }
    requires room { asked.now.degree < length tray.old }
    ensures answer { result
        ≡ weighed F.Field.model asked.now.grid.rows asked.now.grid.columns point columns.now
        (Q.Question.meaning asked.now.question.now) claim (take (suc asked.now.degree) tray.old) }
    ensures tray { tray.new
        ≡ if is_err result then filled (suc asked.now.degree) F.Field.model.zero tray.old
        else tray.old }
{
    let values = asked.degree as usize + 1;
    let answer = weigh(asked, point, columns, claim, &tray[..values]);
    if answer.is_err() {
        fill_cells(tray, values, F::zero());
    }
    answer
}

// The accepted claim, with the sheet's values in the tray, or a refusal: of the bank, the question, the tray, the sheet, its sum, its value
// at the point.
pub(crate) fn judge_cells<F: Field, Q: Question<F>>(
    grid: Grid,
    point: F,
    bank: &Bank<'_, F>,
    question: &Q,
    sheet: &[u8],
    tray: &mut [F],
) -> Result<i64, Refusal>
    ensures { record { answer = result; tray = tray.new }
        ≡ judged F.Field.model grid.rows grid.columns point (cells_of bank.now)
        (Q.Question.meaning question.now) sheet.now tray.old }
{
    let columns = bank.front(grid.columns as usize)?;
    let asked = Suited::new(question, grid)?;
    let claim = read_sheet(sheet, &asked.terms(), tray)?;
    settle(&asked, point, columns, claim, tray)
}

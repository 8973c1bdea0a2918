// The values of a question's polynomial.
ghost use Rattle.std.specs.Prelude.{◌≡◌, suc, ◌+◌, ◌≤◌, length};
ghost use Rattle.host.specs.Answering.{tray_filled};

use crate::columns::fill_columns_at;
use crate::counts::Counts;
use field::Field;
use polynomial::node_at;
use protocol::Suited;
use question::Question;

// Fills the tray of an answer: the question's values at 0 to its degree, and behind them the columns at the degree.
pub(crate) fn fill_values<F: Field, Q: Question<F>>(
    asked: &Suited<'_, F, Q>,
    counts: &Counts<'_>,
    tray: &mut [F],
)
    requires grid { counts.now.grid ≡ asked.now.grid }
    requires room { suc asked.now.degree + asked.now.grid.columns ≤ length tray.old }
    ensures { tray.new
        ≡ tray_filled F.Field.model asked.now.grid.rows asked.now.grid.columns
        (Q.Question.meaning asked.now.question.now) counts.now.cells.now tray.old }
{
    let (values, rest) = tray.split_at_mut(asked.degree as usize + 1);
    let columns = &mut rest[..asked.grid.columns as usize];
    for (j, value) in values.iter_mut().enumerate() {
        let x = j as u32;
        fill_columns_at(columns, counts, x);
        *value = asked.question.rule(asked.grid, node_at(x), columns);
    }
}

// The two tests of a sheet's values: their sum, and their polynomial at the secret point.
ghost use Rattle.std.specs.Prelude.{◌≡◌, suc, length};
ghost use Rattle.polynomial.specs.Sums.{list_sum};
ghost use Rattle.verifier.specs.Judging.{weighed};

use field::Field;
use polynomial::interpolate_at;
use protocol::{Suited, claim_image};
use question::Question;
use refusal::Refusal;

// The values, added in order.
fn sum_of<F: Field>(values: &[F]) -> F
    ensures { result ≡ list_sum F.Field.model values.now }
{
    let mut sum = F::zero();
    for value in values {
        sum = sum + *value;
    }
    sum
}

// Weighs a claim and its values against the columns at the point.
pub(crate) fn weigh<F: Field, Q: Question<F>>(
    asked: &Suited<'_, F, Q>,
    point: F,
    columns: &[F],
    claim: i64,
    values: &[F],
) -> Result<i64, Refusal>
    requires wide { length columns.now ≡ asked.now.grid.columns }
    requires whole { length values.now ≡ suc asked.now.degree }
    ensures { result
        ≡ weighed F.Field.model asked.now.grid.rows asked.now.grid.columns point columns.now
        (Q.Question.meaning asked.now.question.now) claim values.now }
{
    let grid = asked.grid;
    let sum = sum_of(&values[..grid.rows as usize]);
    if sum != claim_image::<F>(claim) {
        return Err(Refusal::SumWrong);
    }
    let value = interpolate_at(values, point);
    if value != asked.question.rule(grid, point, columns) {
        return Err(Refusal::PointWrong);
    }
    Ok(claim)
}

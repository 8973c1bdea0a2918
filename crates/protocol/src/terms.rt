// What a sheet for a question states.
ghost use Rattle.std.specs.Prelude.{◌≡◌};
ghost use Rattle.protocol.specs.Asking.{terms_of, claim_image};

use board::Grid;
use field::Field;
use question::Question;
use sheet::Terms;

/// What a sheet for the question has to agree with, whether the question suits the grid or not.
pub fn terms_of<F: Field, Q: Question<F>>(question: &Q, grid: Grid) -> Terms
    ensures { result ≡ terms_of (Q.Question.meaning question.now) grid.rows grid.columns }
{
    Terms {
        rows: grid.rows,
        columns: grid.columns,
        tag: question.tag(),
        least: question.least(),
        greatest: question.greatest(),
        degree: question.degree(grid),
    }
}

/// The image of a claim of any size: the element whose low part is the claim's remainder by p, from 0 to p − 1.
pub fn claim_image<F: Field>(claim: i64) -> F
    ensures { result ≡ claim_image F.Field.model claim }
{
    let p = i64::from(F::CHARACTERISTIC);
    F::of_parts(claim.rem_euclid(p) as u32, 0)
}

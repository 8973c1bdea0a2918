// The limits of a claim about counts that are added: they are never more than the accepted moves weigh.
ghost use Rattle.std.specs.Prelude.{◌≡◌, pos};

use field::Field;

// The greatest claim, W; the least is −W.
pub(crate) fn count_limit<F: Field>() -> i64
    ensures { result ≡ pos F.Field.model.limit }
{
    i64::from(F::LIMIT)
}

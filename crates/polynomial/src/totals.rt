// Sums of elements.
ghost use Rattle.std.specs.Prelude.{◌≡◌};
ghost use Rattle.polynomial.specs.Sums.{list_sum};

use field::Field;

/// The sum of the values; zero where there is none.
pub fn total<F: Field>(values: &[F]) -> F
    ensures { result ≡ list_sum F.Field.model values.now }
{
    values.iter().fold(F::zero(), |all, value| all + *value)
}

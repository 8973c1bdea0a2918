// Fields that make a quadratic extension.
ghost use Rattle.std.specs.Prelude.{◌≡◌};
ghost use Rattle.field.specs.Field.{NoSquare, LawfulBase};

use crate::field::Field;

/// A field of degree 1 that names an element that no element times itself equals.
pub trait BaseField: Field {
    ghost w: { Self };

    /// The named element, which is no square.
    fn non_square() -> Self
        ensures value { result ≡ w }
        ensures no_square { NoSquare Self.Field.model result };

    ghost base: { LawfulBase Self.Field.model w };
}

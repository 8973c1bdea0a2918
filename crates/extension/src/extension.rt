// The elements of a quadratic extension, and their field.
// A product takes five products of the base, an inverse five and one inverse.
ghost use Rattle.std.specs.Prelude.{◌≡◌, refl};
ghost use Rattle.extension.specs.Pairs.{conjugate_times, norm, quadratic};
ghost use Rattle.extension.specs.Laws.{pair_lawful, pair_equality};

use field::{BaseField, Field};
use std::ops::{Add, Mul, Neg};

/// a + b t, where t × t is the element that the base field names, which is no square.
#[derive(Clone, Copy, PartialEq, Eq, Debug)]
pub struct Extension<B> {
    a: B,
    b: B,
}

impl<B: BaseField> Extension<B> {
    // The product with the conjugate a − b t, an element of the base.
    fn norm(self) -> B
        ensures { result ≡ norm B.Field.model B.BaseField.w self }
    {
        self.a * self.a + -(B::non_square() * (self.b * self.b))
    }

    // The conjugate times an element of the base.
    fn conjugate_times(self, by: B) -> Self
        ensures { result ≡ conjugate_times B.Field.model self by }
    {
        Extension {
            a: self.a * by,
            b: -self.b * by,
        }
    }
}

impl<B: BaseField> Add for Extension<B> {
    type Output = Self;

    ghost add_gives = { λ x y z. z ≡ (quadratic B.Field.model B.BaseField.w).add x y };

    fn add(self, other: Self) -> Self {
        Extension {
            a: self.a + other.a,
            b: self.b + other.b,
        }
    }
}

impl<B: BaseField> Mul for Extension<B> {
    type Output = Self;

    ghost mul_gives = { λ x y z. z ≡ (quadratic B.Field.model B.BaseField.w).mul x y };

    // (a + b t)(c + d t) = (a c + w b d) + (a d + b c) t
    fn mul(self, other: Self) -> Self {
        Extension {
            a: self.a * other.a + B::non_square() * (self.b * other.b),
            b: self.a * other.b + self.b * other.a,
        }
    }
}

impl<B: BaseField> Neg for Extension<B> {
    type Output = Self;

    ghost neg_gives = { λ x z. z ≡ (quadratic B.Field.model B.BaseField.w).neg x };

    fn neg(self) -> Self {
        Extension {
            a: -self.a,
            b: -self.b,
        }
    }
}

impl<B: BaseField> Field for Extension<B> {
    ghost model = { quadratic B.Field.model B.BaseField.w };

    ghost CHARACTERISTIC = { B.CHARACTERISTIC };

    const CHARACTERISTIC: u32 = B::CHARACTERISTIC;

    ghost DEGREE = { 2 };

    const DEGREE: u32 = 2;

    ghost LIMIT = { B.LIMIT };

    const LIMIT: u32 = B::LIMIT;

    ghost lawful = { pair_lawful B.Field.model B.BaseField.w B.Field.lawful B.BaseField.base };

    ghost equality = { pair_equality
        B.Field.model B.BaseField.w B.Field.lawful B.BaseField.base B.PartialEq.eq B.Field.equality };

    ghost characteristic_is = { B.Field.characteristic_is };

    ghost degree_is = { refl };

    ghost limit_is = { B.Field.limit_is };

    ghost can_add_law = { λ x y. tt };

    ghost add_law = { λ x y z h. h };

    ghost can_mul_law = { λ x y. tt };

    ghost mul_law = { λ x y z h. h };

    ghost can_neg_law = { λ x. tt };

    ghost neg_law = { λ x z h. h };

    fn zero() -> Self {
        Extension {
            a: B::zero(),
            b: B::zero(),
        }
    }

    fn one() -> Self {
        Extension {
            a: B::one(),
            b: B::zero(),
        }
    }

    // The conjugate over the norm, which is zero only where the element is.
    fn inverse(self) -> Option<Self> {
        self.norm().inverse().map(|i| self.conjugate_times(i))
    }

    #[tactic(auto, using(crate::specs::Laws::pair_number))]
    fn inverse_of(n: u32) -> Self {
        Extension {
            a: B::inverse_of(n),
            b: B::zero(),
        }
    }

    fn image(n: i32) -> Self {
        Extension {
            a: B::image(n),
            b: B::zero(),
        }
    }

    fn low(self) -> u32 {
        self.a.low()
    }

    fn high(self) -> u32 {
        self.b.low()
    }

    fn of_parts(low: u32, high: u32) -> Self {
        Extension {
            a: B::of_parts(low, 0),
            b: B::of_parts(high, 0),
        }
    }
}

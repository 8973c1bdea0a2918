// The prime field of the residues modulo P, for every modulus P.
// No operation but the inverse has a loop.
ghost use Rattle.std.specs.Prelude.{◌≡◌, ◌*◌, ◌<◌, pos, ◌+ℤ◌, refl};
ghost use Rattle.std.proofs.Math.Bool.{and-true};
ghost use Rattle.std.proofs.Common.{sym, rules};
ghost use Rattle.prime.specs.Residues.{prime_field, residue_of};
ghost use Rattle.prime.specs.Fields.{lawful, base};

use crate::modulus::Modulus;
use crate::residue::Residue;
use field::{BaseField, Field};

// A number and so many times P that the sum is not negative:
// it leaves what the number leaves, with no case for its sign.
fn raised(n: i32, p: u32) -> u64
    requires { 0 < p }
    ensures { pos result ≡ n +ℤ pos (p * 2147483648) }
{
    (i64::from(n) + i64::from(p) * 2_147_483_648) as u64
}

impl<const P: u32> Field for Residue<P>
where
    Self: Modulus<P>,
{
    ghost model = { prime_field P ⟦<Residue<P> as Modulus<P>>⟧.positive ⟦<Residue<P> as Modulus<P>>⟧.LIMIT };

    ghost CHARACTERISTIC = { P };

    const CHARACTERISTIC: u32 = P;

    ghost DEGREE = { 1 };

    const DEGREE: u32 = 1;

    ghost LIMIT = { ⟦<Residue<P> as Modulus<P>>⟧.LIMIT };

    const LIMIT: u32 = <Self as Modulus<P>>::LIMIT;

    ghost lawful = { lawful
        {w = ⟦<Residue<P> as Modulus<P>>⟧.NON_SQUARE}
        ⟦<Residue<P> as Modulus<P>>⟧.positive
        (Prim.search rules) };

    ghost equality = { λ x y. sym (and-true _) };

    ghost characteristic_is = { refl };

    ghost degree_is = { refl };

    ghost limit_is = { refl };

    ghost can_add_law = { λ x y. tt };

    ghost add_law = { λ x y z h. h };

    ghost can_mul_law = { λ x y. tt };

    ghost mul_law = { λ x y z h. h };

    ghost can_neg_law = { λ x. tt };

    ghost neg_law = { λ x z h. h };

    fn zero() -> Self {
        Residue { value: 0 }
    }

    fn one() -> Self {
        Residue { value: 1 }
    }

    fn inverse(self) -> Option<Self> {
        self.inverted()
    }

    fn inverse_of(n: u32) -> Self {
        let value = Self::inverses()[n as usize - 1];
        Residue { value }
    }

    fn image(n: i32) -> Self {
        let value = (raised(n, P) % P as u64) as u32;
        Residue { value }
    }

    fn low(self) -> u32 {
        self.value
    }

    fn high(self) -> u32 {
        0
    }

    fn of_parts(low: u32, _high: u32) -> Self {
        Residue { value: low }
    }
}

impl<const P: u32> BaseField for Residue<P>
where
    Self: Modulus<P>,
{
    ghost w = { residue_of P ⟦<Residue<P> as Modulus<P>>⟧.positive ⟦<Residue<P> as Modulus<P>>⟧.NON_SQUARE };

    ghost base = { base ⟦<Residue<P> as Modulus<P>>⟧.positive (Prim.search rules) };

    fn non_square() -> Self {
        Residue {
            value: <Self as Modulus<P>>::NON_SQUARE,
        }
    }
}

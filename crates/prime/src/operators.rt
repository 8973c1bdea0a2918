// Sums, products and opposites of residues. None has a loop;
// a sum and an opposite take no division.
ghost use Rattle.std.specs.Prelude.{◌≡◌};
ghost use Rattle.prime.specs.Residues.{plus, minus, times};

use crate::modulus::Modulus;
use crate::residue::Residue;
use std::ops::{Add, Mul, Neg};

impl<const P: u32> Add for Residue<P>
where
    Self: Modulus<P>,
{
    type Output = Self;

    ghost add_gives = { λ x y z. z ≡ plus x y };

    fn add(self, other: Self) -> Self {
        let total = self.value + other.value;
        let value = if total < P { total } else { total - P };
        Residue { value }
    }
}

impl<const P: u32> Mul for Residue<P>
where
    Self: Modulus<P>,
{
    type Output = Self;

    ghost mul_gives = { λ x y z. z ≡ times x y };

    fn mul(self, other: Self) -> Self {
        let wide = self.value as u64 * other.value as u64;
        let value = (wide % P as u64) as u32;
        Residue { value }
    }
}

impl<const P: u32> Neg for Residue<P>
where
    Self: Modulus<P>,
{
    type Output = Self;

    ghost neg_gives = { λ x z. z ≡ minus x };

    fn neg(self) -> Self {
        let value = if self.value > 0 { P - self.value } else { 0 };
        Residue { value }
    }
}

// The prime field of the residues modulo 2,147,483,647.
ghost use Rattle.std.specs.Prelude.{◌≡◌};
ghost use Rattle.std.proofs.Common.{lit<};
ghost use Rattle.field.specs.Field.{LawfulField, LawfulBase};
ghost use Rattle.prime.specs.Primes.{Prime};
ghost use Rattle.prime.specs.Residues.{residue_of, prime_field};
ghost use Rattle.prime.specs.Fields.{modulus_2147483647};

use crate::modulus::Modulus;
use crate::residue::Residue;
use crate::table_2147483647::INVERSES;
use field::{BaseField, Field};

/// The field of the residues modulo the prime 2,147,483,647.
/// The limit of weights is 46,340, and 2,147,483,646 is no square.
pub type Mersenne31 = Residue<2147483647>;

impl Modulus<2147483647> for Residue<2147483647> {
    ghost positive = { lit< tt };

    ghost LIMIT = { 46340 };

    const LIMIT: u32 = 46340;

    ghost NON_SQUARE = { 2147483646 };

    const NON_SQUARE: u32 = 2147483646;

    ghost lawful = { modulus_2147483647 };

    fn inverses() -> &'static [u32; 252] {
        &INVERSES
    }
}

/// 2,147,483,647 is prime: a theorem, with nothing to run.
#[tactic(auto, using(crate::specs::Primality::prime_2147483647))]
pub fn is_prime_2147483647()
    ensures { Prime 2147483647 }
{}

/// The limit of the weight of a board's moves modulo 2,147,483,647: 46,340.
pub fn limit_2147483647() -> u32
    ensures { result ≡ 46340 }
{
    <Mersenne31 as Field>::LIMIT
}

/// The number that makes the extension: t × t is −1.
/// That it is no square modulo 2,147,483,647 says `is_lawful_2147483647`.
pub fn non_square_2147483647() -> u32
    ensures { result ≡ 2147483646 }
{
    Mersenne31::non_square().value()
}

/// The residues modulo 2,147,483,647 are a lawful field, and with −1, which is no square,
/// a lawful base of the extension: a theorem, with nothing to run.
#[tactic(auto, using(crate::specs::Fields::lawful_2147483647, crate::specs::Fields::base_2147483647))]
pub fn is_lawful_2147483647()
    ensures field { LawfulField (prime_field 2147483647 (lit< tt) 46340) }
    ensures base { LawfulBase
        (prime_field 2147483647 (lit< tt) 46340)
        (residue_of 2147483647 (lit< tt) 2147483646) }
{}
